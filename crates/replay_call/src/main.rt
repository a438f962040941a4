// Runs `genotype_gvcfs::call` over the cases on standard input, and prints what each gave.
//
// A case is a line `combined 0 0 room name`, and behind its LF the combined list, with as many bytes as the first field says. The call has so
// many bytes of output, at most 65,536. The input ends at 524,288 bytes.
//
// For each case a line: the name, and `refused=1` or `written=40`, and the list behind it. Before the call all of the output is set. A line tells
// if the output behind the list, all of it after a refusal, isn't as it was. tools/make_call_cases.py writes the input, and what is to be
// printed, from recorded/ and document 01's rules.
#![tactic(auto)]

ghost use Rattle.std.specs.Prelude.{◌<◌, length};

use test_cases::{case_at, count_field, field, line_at, read_input};

// The call of a case on its output.
fn run(rt: &impl Print, combined: &[u8], out: &mut [u8]) {
    test_cases::set_bytes(out);
    let outcome = genotype_gvcfs::call(combined, out);
    let count = test_cases::print_outcome(rt, outcome, out);
    test_cases::print_if_changed(rt, out, count, 255);
}

// The case at an offset; the answer is where the next one begins.
fn run_case(rt: &impl Print, input: &[u8], at: usize, out: &mut [u8]) -> usize
    requires { at < length input.now }
    ensures { at < result }
{
    let case = case_at(input, at);
    let line = line_at(input, at);
    let room = count_field(line, 3, out.len());
    test_cases::print(rt, field(line, 4));
    run(
        rt,
        tables::part(input, case.first, case.second),
        &mut out[..room],
    );
    case.next
}

fn run_cases(rt: &impl Print, input: &[u8], out: &mut [u8]) {
    let mut at = 0;
    // a case says where the next begins; one function of all programs would take a closure, and a contract of its answer: no plainer
    while at < input.len() {
        at = run_case(rt, input, at, out);
    }
}

// Reads the input, and runs its cases. Apart from `main`, so that the proof has no literal of so many bytes before it.
fn run_input(rt: &(impl Input + Print), input: &mut [u8; 524288], out: &mut [u8; 65536]) {
    let count = read_input(rt, input);
    run_cases(rt, tables::part(input, 0, count), out);
}

fn main(rt: HostRuntime) {
    let mut input = [0u8; 524288];
    let mut out = [0u8; 65536];
    run_input(&rt, &mut input, &mut out);
}
