// What the programs that run recorded cases share: reading a case from the input, the output and the scratch of a call, and printing.
//
// A case is a line of fields with a space between. In most programs three texts stand behind its LF, and the first three fields say how many
// bytes they have. Every offset is taken; past the end of the input there is nothing.
#![tactic(auto)]

ghost use Rattle.std.specs.Prelude.{◌≡◌, ◌+◌, ◌≤◌, min, length};

// ---- the cases

// Reads standard input until the buffer is full, the input ends or a read fails. The answer is how many bytes it has put at the start.
pub fn read_input(rt: &impl Input, buffer: &mut [u8]) -> usize
    ensures { result ≤ length buffer.old }
{
    let mut reader = rt.reader();
    let mut count = 0;
    // a read says how far the next one begins behind
    while count < buffer.len() {
        match files::read_behind(&mut reader, buffer, count) {
            Ok(0) | Err(_) => return count,
            Ok(more) => count += more,
        }
    }
    count
}

// ---- a case

// The line at an offset, without its LF.
pub fn line_at<'a>(s: &'a [u8], at: usize) -> &'a [u8] {
    tables::part(s, at, kv_text::field_end(s, at, b'\n'))
}

// The field with this number of a case's line; nothing past the last.
pub fn field<'a>(line: &'a [u8], number: usize) -> &'a [u8] {
    match kv_text::field_at(line, b' ', number) {
        Some(found) => tables::part(line, found.at, found.end),
        None => tables::part(line, 0, 0),
    }
}

// The number that a field of a case's line spells, or 0.
pub fn number_field(line: &[u8], number: usize) -> usize {
    kv_text::read_number(field(line, number)).map_or(0, |n| n as usize)
}

// The number that a field of a case's line spells, or the most that there is.
pub fn count_field(line: &[u8], number: usize, most: usize) -> usize
    ensures { result ≤ most }
{
    number_field(line, number).min(most)
}

// The offset behind the field at an offset and its separator, or the end of the input.
pub fn after_field(s: &[u8], at: usize, separator: u8) -> usize
    ensures { (min (at + 1) (length s.now) ≤ result) × (result ≤ length s.now) }
{
    let end = kv_text::field_end(s, at, separator);
    if s.len() <= end {
        return s.len();
    }
    end + 1
}

// The offset behind the line at an offset, or the end of the input.
pub fn after_line(s: &[u8], at: usize) -> usize
    ensures { (min (at + 1) (length s.now) ≤ result) × (result ≤ length s.now) }
{
    after_field(s, at, b'\n')
}

// The offset so many bytes further on, or the end of the input.
fn after_bytes(s: &[u8], at: usize, count: usize) -> usize
    ensures { result ≡ min (at + count) (length s.now) }
{
    at.saturating_add(count).min(s.len())
}

// Where the texts of a case stand, each up to the next one.
#[derive(Clone, Copy)]
pub struct Case {
    pub first: usize,
    pub second: usize,
    pub third: usize,
    pub next: usize,
}

// The case at an offset. The next one begins further on.
pub fn case_at(s: &[u8], at: usize) -> Case
    ensures { min (at + 1) (length s.now) ≤ result.next }
{
    let line = line_at(s, at);
    let first = after_line(s, at);
    let second = after_bytes(s, first, number_field(line, 0));
    let third = after_bytes(s, second, number_field(line, 1));
    let next = after_bytes(s, third, number_field(line, 2));
    Case {
        first,
        second,
        third,
        next,
    }
}

// ---- what is printed

// What can't be written is let be.
pub fn print(rt: &impl Print, bytes: &[u8]) {
    let _ = rt.write_all(bytes);
}

pub fn print_number(rt: &impl Print, n: usize) {
    let _ = rt.print(n);
}

// The end of a line that tells of a refusal.
pub fn print_refused(rt: &impl Print, row: impl Into<usize>) {
    print(rt, b" refused=");
    print_number(rt, row.into());
    print(rt, b"\n");
}

// Prints the answer behind the case's name. The answer is how many bytes the list has.
pub fn print_outcome(
    rt: &impl Print,
    outcome: Result<usize, impl Into<usize>>,
    out: &[u8],
) -> usize {
    match outcome {
        Ok(count) => {
            print(rt, b" written=");
            print_number(rt, count);
            print(rt, b"\n");
            print(rt, tables::part(out, 0, count));
            count
        }
        Err(row) => {
            print_refused(rt, row);
            0
        }
    }
}

// ---- the output of a call

// Sets every byte to one that no list has.
pub fn set_bytes(out: &mut [u8]) {
    out.fill(255);
}

// Prints a line if the output behind so many values is not all as it was set.
pub fn print_if_changed<T: Copy + PartialEq>(rt: &impl Print, out: &[T], count: usize, set: T) {
    if out.iter().skip(count).any(|value| *value != set) {
        print(rt, b"the output has changed behind the list\n");
    }
}

// ---- the scratch of a call

// Sets every place to a number that no call leaves there.
pub fn set_places(scratch: &mut [u64]) {
    scratch.fill(18446744073709551615);
}

// Prints a line if scratch is not zero.
pub fn print_if_not_zero(rt: &impl Print, scratch: &[u64]) {
    if scratch.iter().any(|place| *place != 0) {
        print(rt, b"scratch is not zero\n");
    }
}
