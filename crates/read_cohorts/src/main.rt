// Runs `cohort::read_cohort` over the cases on standard input, and prints what each gave.
//
// A case is a line `head tail foot times name`, four numbers and a word, and behind its LF `head` bytes, `tail` bytes and `foot` bytes.
// Its text is the head, the tail `times` times, and the foot, so that 4,097 sites are a short case. The input ends at 131,072 bytes, a text at 320,000.
//
// For each case a line: the name, and `samples=2 sites=3` or `refused=1`. Then the rows of at most three sites, 22 numbers to a line.
// tools/make_cohort_cases.py writes the input, and what is to be printed, from document 01's rules.
#![tactic(auto)]

ghost use Rattle.std.specs.Prelude.{◌<◌, length};

use answers::LoadError;
use cohort::CohortSize;
use test_cases::{
    Case, case_at, field, line_at, number_field, print, print_number, print_refused, read_input,
};

// ---- the text of a case

// Puts a part behind the bytes of a text, as far as there is room. The answer is how many bytes the text has then.
fn append(text: &mut [u8], count: usize, part: &[u8]) -> usize {
    let mut next = count;
    for b in part {
        if text.len() <= next {
            return next;
        }
        text[next] = *b;
        next += 1;
    }
    next
}

// The same for a part so many times.
fn append_times(text: &mut [u8], count: usize, part: &[u8], times: usize) -> usize {
    let mut next = count;
    for _ in 0..times {
        next = append(text, next, part);
    }
    next
}

// Makes the text of a case. The answer is how many bytes it has.
fn make_text(s: &[u8], case: Case, times: usize, text: &mut [u8]) -> usize {
    let head = tables::part(s, case.first, case.second);
    let tail = tables::part(s, case.second, case.third);
    let foot = tables::part(s, case.third, case.next);
    let count = append(text, 0, head);
    let count = append_times(text, count, tail, times);
    append(text, count, foot)
}

// ---- the output

// What stands behind the number at a place of the rows.
fn print_separator(rt: &impl Print, place: usize) {
    if place % 22 == 21 {
        print(rt, b"\n");
    } else {
        print(rt, b" ");
    }
}

// Prints the first so many numbers of the rows, 22 to a line.
fn print_rows(rt: &impl Print, rows: &[usize], count: usize) {
    for (place, number) in rows.iter().take(count).enumerate() {
        print_number(rt, *number);
        print_separator(rt, place);
    }
}

fn print_cohort(rt: &impl Print, size: CohortSize, rows: &[usize]) {
    print(rt, b" samples=");
    print_number(rt, size.samples);
    print(rt, b" sites=");
    print_number(rt, size.sites);
    print(rt, b"\n");
    if size.sites <= 3 {
        print_rows(rt, rows, size.sites * 22);
    }
}

// Reads a text, and prints what it gave behind the case's name.
fn print_read(rt: &impl Print, text: &[u8], names: &mut [usize], rows: &mut [usize]) {
    match cohort::read_cohort(text, names, rows) {
        Ok(size) => print_cohort(rt, size, rows),
        Err(LoadError::Refused(refusal)) => print_refused(rt, refusal),
        Err(LoadError::NoRoom) => print(rt, b" no room\n"),
    }
}

// ---- the cases

// The case at an offset; the answer is where the next one begins.
fn run_case(
    rt: &impl Print,
    input: &[u8],
    at: usize,
    text: &mut [u8],
    names: &mut [usize],
    rows: &mut [usize],
) -> usize
    requires { at < length input.now }
    ensures { at < result }
{
    let case = case_at(input, at);
    let line = line_at(input, at);
    let count = make_text(input, case, number_field(line, 3), text);
    print(rt, field(line, 4));
    print_read(rt, tables::part(text, 0, count), names, rows);
    case.next
}

fn run_cases(
    rt: &impl Print,
    input: &[u8],
    text: &mut [u8],
    names: &mut [usize],
    rows: &mut [usize],
) {
    let mut at = 0;
    // a case says where the next begins; one function of all programs would take a closure, and a contract of its answer: no plainer
    while at < input.len() {
        at = run_case(rt, input, at, text, names, rows);
    }
}

fn main(rt: HostRuntime) {
    let mut input = [0u8; 131072];
    let mut text = [0u8; 320000];
    let mut names = [0usize; 128];
    let mut rows = [0usize; 90112];
    let count = read_input(&rt, &mut input);
    run_cases(
        &rt,
        tables::part(&input, 0, count),
        &mut text,
        &mut names,
        &mut rows,
    );
}
