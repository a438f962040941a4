// Runs `depth_windows::depth_windows` over the cases on standard input, and prints what each gave.
//
// A case is a line `list 0 0 places sample threshold length step contig name`, and behind its LF the combined list, with as many bytes as the
// first field says. The call has so many places of output, at most 4,096. The input ends at 262,144 bytes.
//
// For each case a line: the name, and `refused=17`, or `windows=` and the counts with a space before each. Before the call all of the output is
// set. A line tells if a place behind the counts, any place after a refusal, isn't as it was. tools/make_depth_cases.py writes the input, and
// what is to be printed, from the rules of documents 01 and 02.
#![tactic(auto)]

ghost use Rattle.std.specs.Prelude.{◌<◌, length};

use answers::Refusal;
use bio_ids::SampleIndex;
use test_cases::{
    case_at, count_field, field, line_at, number_field, print, print_number, print_refused,
    read_input,
};

// Sets every place to a number that no window has.
fn set_numbers(out: &mut [u32]) {
    out.fill(4294967294);
}

// Prints a line if a place from an index on is not as it was set.
fn print_if_changed(rt: &impl Print, out: &[u32], from: usize) {
    if out.iter().skip(from).any(|n| *n != 4294967294) {
        print(rt, b"a place behind the counts has changed\n");
    }
}

// Prints a count.
fn print_count(rt: &impl Print, number: u32) {
    print(rt, b" ");
    print_number(rt, number as usize);
}

// Prints so many counts, as far as there are places.
fn print_counts(rt: &impl Print, out: &[u32], count: usize) {
    for n in out.iter().take(count) {
        print_count(rt, *n);
    }
}

// Prints the answer behind the case's name. The answer is how many windows there are.
fn print_windows(rt: &impl Print, outcome: Result<usize, Refusal>, out: &[u32]) -> usize {
    match outcome {
        Ok(count) => {
            print(rt, b" windows=");
            print_counts(rt, out, count);
            print(rt, b"\n");
            count
        }
        Err(refusal) => {
            print_refused(rt, refusal);
            0
        }
    }
}

// A number that a field of a case's line spells, as far as 32 bits go.
fn small_field(line: &[u8], number: usize) -> u32 {
    count_field(line, number, 4294967295) as u32
}

// The call of a case.
fn run(line: &[u8], list: &[u8], out: &mut [u32]) -> Result<usize, Refusal> {
    depth_windows::depth_windows(
        list,
        field(line, 8),
        SampleIndex::new(number_field(line, 4)),
        small_field(line, 5),
        small_field(line, 6),
        small_field(line, 7),
        out,
    )
}

// The case at an offset; the answer is where the next one begins.
fn run_case(rt: &impl Print, input: &[u8], at: usize, numbers: &mut [u32]) -> usize
    requires { at < length input.now }
    ensures { at < result }
{
    let case = case_at(input, at);
    let line = line_at(input, at);
    let places = count_field(line, 3, numbers.len());
    print(rt, field(line, 9));
    set_numbers(numbers);
    let outcome = run(
        line,
        tables::part(input, case.first, case.second),
        &mut numbers[..places],
    );
    let count = print_windows(rt, outcome, numbers);
    print_if_changed(rt, numbers, count);
    case.next
}

fn run_cases(rt: &impl Print, input: &[u8], numbers: &mut [u32]) {
    let mut at = 0;
    // a case says where the next begins; one function of all programs would take a closure, and a contract of its answer: no plainer
    while at < input.len() {
        at = run_case(rt, input, at, numbers);
    }
}

fn main(rt: HostRuntime) {
    let mut input = [0u8; 262144];
    let mut numbers = [0u32; 4096];
    let count = read_input(&rt, &mut input);
    run_cases(&rt, tables::part(&input, 0, count), &mut numbers);
}
