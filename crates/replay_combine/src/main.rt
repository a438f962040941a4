// Runs `combine_gvcfs::combine` over the cases on standard input, and prints what each gave.
//
// A case is a line `cohort clip reference given places room name`, and behind its LF the three texts, with as many bytes as the first three fields
// say. `given` is 1 if the clip is lent, 2 if the reference, 3 if both. The call is lent so many places of scratch and so many bytes of output, at
// most 8,192 and 65,536. The input ends at 524,288 bytes.
//
// For each case a line: the name, and `refused=1` or `written=40`, and the list behind it. Before the call all of scratch and output is set. A line
// tells if scratch isn't zero afterwards, or if the output behind the list, all of it after a refusal, isn't as it was.
// tools/make_replay_cases.py writes the input, and what is to be printed, from recorded/ and document 01's rules.
#![tactic(auto)]

ghost use Rattle.std.specs.Prelude.{◌<◌, length};

use test_cases::{
    case_at, count_field, field, line_at, number_field, print, print_if_changed, print_if_not_zero,
    print_outcome, read_input, set_bytes, set_places,
};

// ---- the cases

// The call of a case on what it is lent.
fn run<'a>(
    rt: &impl Print,
    line: &[u8],
    cohort: &'a [u8],
    clip: &[u8],
    reference: &'a [u8],
    scratch: &mut [u64],
    out: &mut [u8],
) {
    set_places(scratch);
    set_bytes(out);
    let given = number_field(line, 3);
    let outcome = combine_gvcfs::combine(
        cohort,
        given % 2 == 1,
        clip,
        2 <= given,
        reference,
        scratch,
        out,
    );
    let count = print_outcome(rt, outcome, out);
    print_if_not_zero(rt, scratch);
    print_if_changed(rt, out, count, 255);
}

// The case at an offset; the answer is where the next one begins.
fn run_case(rt: &impl Print, input: &[u8], at: usize, scratch: &mut [u64], out: &mut [u8]) -> usize
    requires { at < length input.now }
    ensures { at < result }
{
    let case = case_at(input, at);
    let line = line_at(input, at);
    let places = count_field(line, 4, scratch.len());
    let room = count_field(line, 5, out.len());
    print(rt, field(line, 6));
    run(
        rt,
        line,
        tables::part(input, case.first, case.second),
        tables::part(input, case.second, case.third),
        tables::part(input, case.third, case.next),
        &mut scratch[..places],
        &mut out[..room],
    );
    case.next
}

fn run_cases(rt: &impl Print, input: &[u8], scratch: &mut [u64], out: &mut [u8]) {
    let mut at = 0;
    // a case says where the next begins; one function of all programs would take a closure, and a contract of its answer: no plainer
    while at < input.len() {
        at = run_case(rt, input, at, scratch, out);
    }
}

// Reads the input, and runs its cases. Apart from `main`, so that the proof has no literal of so many bytes before it.
fn run_input(
    rt: &(impl Input + Print),
    input: &mut [u8; 524288],
    scratch: &mut [u64; 8192],
    out: &mut [u8; 65536],
) {
    let count = read_input(rt, input);
    run_cases(rt, tables::part(input, 0, count), scratch, out);
}

fn main(rt: HostRuntime) {
    let mut input = [0u8; 524288];
    let mut scratch = [0u64; 8192];
    let mut out = [0u8; 65536];
    run_input(&rt, &mut input, &mut scratch, &mut out);
}
