// Runs `position_lookup::look_up` over the cases on standard input, and prints what each gave.
//
// A case is a line `list asked 0 places name`, and behind its LF the two texts, with as many bytes as the first two fields say. The call is lent
// so many places, at most 1,100. The input ends at 262,144 bytes.
//
// For each case a line: the name, and `refused=18`, or for each pair the record's number or `.`, and then `groups=2`. Before the call all
// places are set, and a line tells if one behind the answers has changed.
// tools/make_look_up_cases.py writes the input, and what is to be printed, from recorded/ and the rules of documents 01 and 02.
#![tactic(auto)]

ghost use Rattle.std.specs.Prelude.{◌<◌, length};

use answers::Refusal;
use position_lookup::LookedUp;
use test_cases::{
    case_at, count_field, field, line_at, print, print_number, print_refused, read_input,
};

// Sets every place to a number that no call leaves there.
fn set_numbers(out: &mut [u32]) {
    out.fill(4294967294);
}

// Prints a line if a place from an index on is not as it was set.
fn print_if_changed(rt: &impl Print, out: &[u32], from: usize) {
    if out.iter().skip(from).any(|n| *n != 4294967294) {
        print(rt, b"a place behind the answers has changed\n");
    }
}

// Prints a record's number, or `.` for none.
fn print_record(rt: &impl Print, number: u32) {
    print(rt, b" ");
    if number == 4294967295 {
        print(rt, b".");
        return;
    }
    print_number(rt, number as usize);
}

// Prints so many answers behind the case's name, as far as there are places.
fn print_records(rt: &impl Print, out: &[u32], count: usize) {
    for n in out.iter().take(count) {
        print_record(rt, *n);
    }
}

// Prints the answer behind the case's name; it is how many places it has.
fn print_lookup(rt: &impl Print, answer: Result<LookedUp, Refusal>, out: &[u32]) -> usize {
    match answer {
        Ok(counts) => {
            print_records(rt, out, counts.pairs);
            print(rt, b" groups=");
            print_number(rt, counts.groups as usize);
            print(rt, b"\n");
            counts.pairs
        }
        Err(refusal) => {
            print_refused(rt, refusal);
            0
        }
    }
}

// The case at an offset; the answer is where the next one begins.
fn run_case(rt: &impl Print, input: &[u8], at: usize, numbers: &mut [u32]) -> usize
    requires { at < length input.now }
    ensures { at < result }
{
    let case = case_at(input, at);
    let line = line_at(input, at);
    let places = count_field(line, 3, numbers.len());
    print(rt, field(line, 4));
    set_numbers(numbers);
    let answer = position_lookup::look_up(
        tables::part(input, case.first, case.second),
        tables::part(input, case.second, case.third),
        &mut numbers[..places],
    );
    let count = print_lookup(rt, answer, numbers);
    print_if_changed(rt, numbers, count);
    case.next
}

fn run_cases(rt: &impl Print, input: &[u8], numbers: &mut [u32]) {
    let mut at = 0;
    // a case says where the next begins; one function of all programs would take a closure, and a contract of its answer: no plainer
    while at < input.len() {
        at = run_case(rt, input, at, numbers);
    }
}

fn main(rt: HostRuntime) {
    let mut input = [0u8; 262144];
    let mut numbers = [0u32; 1100];
    let count = read_input(&rt, &mut input);
    run_cases(&rt, tables::part(&input, 0, count), &mut numbers);
}
