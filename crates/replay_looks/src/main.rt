// Runs `search_looks::looks` over the cases on standard input, and prints what each gave.
//
// A case is a line `cohort clip reference given places contig name`, and behind its LF the three texts, with as many bytes as the first three
// fields say. `given` is 1 if the clip is lent, 2 if the reference, 3 if both. The call is lent so many places of scratch, at most 8,192, and asks for
// the contig. The input ends at 262,144 bytes.
//
// For each case a line: the name, and `looks=4` or `refused=12`. Before the call all of scratch is set, and a line tells if it isn't zero afterwards.
// tools/make_looks_cases.py writes the input, and what is to be printed, from recorded/ and the rules of documents 01 and 02.
#![tactic(auto)]

ghost use Rattle.std.specs.Prelude.{◌<◌, length};

use answers::Refusal;
use test_cases::{
    case_at, count_field, field, line_at, number_field, print, print_if_not_zero, print_number,
    print_refused, read_input, set_places,
};

// Prints the answer behind the case's name.
fn print_looked(rt: &impl Print, looked: Result<usize, Refusal>) {
    match looked {
        Ok(figure) => {
            print(rt, b" looks=");
            print_number(rt, figure);
            print(rt, b"\n");
        }
        Err(refusal) => print_refused(rt, refusal),
    }
}

// The call of a case on what it is lent.
fn run<'a>(
    rt: &impl Print,
    line: &[u8],
    cohort: &'a [u8],
    clip: &[u8],
    reference: &'a [u8],
    scratch: &mut [u64],
) {
    set_places(scratch);
    let given = number_field(line, 3);
    let looked = search_looks::looks(
        cohort,
        given % 2 == 1,
        clip,
        2 <= given,
        reference,
        field(line, 5),
        scratch,
    );
    print_looked(rt, looked);
    print_if_not_zero(rt, scratch);
}

// The case at an offset; the answer is where the next one begins.
fn run_case(rt: &impl Print, input: &[u8], at: usize, scratch: &mut [u64]) -> usize
    requires { at < length input.now }
    ensures { at < result }
{
    let case = case_at(input, at);
    let line = line_at(input, at);
    let places = count_field(line, 4, scratch.len());
    print(rt, field(line, 6));
    run(
        rt,
        line,
        tables::part(input, case.first, case.second),
        tables::part(input, case.second, case.third),
        tables::part(input, case.third, case.next),
        &mut scratch[..places],
    );
    case.next
}

fn run_cases(rt: &impl Print, input: &[u8], scratch: &mut [u64]) {
    let mut at = 0;
    // a case says where the next begins; one function of all programs would take a closure, and a contract of its answer: no plainer
    while at < input.len() {
        at = run_case(rt, input, at, scratch);
    }
}

fn main(rt: HostRuntime) {
    let mut input = [0u8; 262144];
    let mut scratch = [0u64; 8192];
    let count = read_input(&rt, &mut input);
    run_cases(&rt, tables::part(&input, 0, count), &mut scratch);
}
