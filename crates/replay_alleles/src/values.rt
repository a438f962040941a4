// Lists as a case spells them, with commas: numbers, and f64 values by the 16 hexadecimal digits of their bits. `.` is the empty list.
ghost use Rattle.std.specs.Prelude.{◌≤◌, length};

use test_cases::{after_field, print, print_number};

// ---- reading

// The numbers of a list, as far as they fit, and how many they are; none if it is `.` or wrong.
pub fn read_numbers(s: &[u8], out: &mut [u32]) -> usize
    ensures { result ≤ length out.old }
{
    let room = out.len();
    kv_text::read_numbers(s, out).map_or(0, |count| count.min(room))
}

fn wide(n: u32) -> usize {
    n as usize
}

// The same for numbers of alleles.
pub fn read_alleles(s: &[u8], out: &mut [usize]) -> usize
    ensures { result ≤ length out.old }
{
    let mut numbers = [0u32; 32];
    let count = read_numbers(s, &mut numbers).min(out.len());
    for (place, n) in out.iter_mut().zip(&numbers[..count]) {
        *place = wide(*n);
    }
    count
}

// The value of a hexadecimal digit, 0 to 9 and a to f.
fn digit_value(b: u8) -> u64 {
    if b < b'a' {
        return (b % 16) as u64;
    }
    ((b - b'a' + 10) % 16) as u64
}

// The bits that hexadecimal digits spell.
fn bits_spelled(s: &[u8]) -> u64 {
    let mut bits = 0u64;
    for b in s {
        bits = (bits << 4) | digit_value(*b);
    }
    bits
}

// The value with these bits; infinity for the bits of a NaN.
fn value_of(bits: u64) -> f64 {
    let size = bits % 9223372036854775808;
    if 9218868437227405312 < size {
        return f64::from_bits(9218868437227405312);
    }
    f64::from_bits(bits)
}

// The f64 values of a list, as far as they fit, and how many they are.
pub fn read_values(s: &[u8], out: &mut [f64]) -> usize
    ensures { result ≤ length out.old }
{
    let mut at = 0;
    let room = out.len();
    for (count, value) in out.iter_mut().enumerate() {
        if s.len() <= at {
            return count;
        }
        let end = kv_text::field_end(s, at, b',');
        *value = value_of(bits_spelled(tables::part(s, at, end)));
        at = after_field(s, at, b',');
    }
    room
}

// The first of some values, as far as there are so many.
pub fn first<'a, T>(values: &'a [T], count: usize) -> &'a [T] {
    &values[..count.min(values.len())]
}

// ---- printing

// What stands before the value at a place of a list.
fn print_separator(rt: &impl Print, place: usize) {
    if place == 0 {
        print(rt, b" ");
    } else {
        print(rt, b",");
    }
}

// What stands for an empty list.
fn print_empty(rt: &impl Print, count: usize) {
    if count == 0 {
        print(rt, b" .");
    }
}

// Prints a text behind a space.
pub fn print_text(rt: &impl Print, s: &[u8]) {
    print_empty(rt, s.len());
    if 0 < s.len() {
        print(rt, b" ");
    }
    print(rt, s);
}

// Prints a list of numbers behind a space.
pub fn print_numbers(rt: &impl Print, numbers: &[u32]) {
    print_empty(rt, numbers.len());
    for (place, n) in numbers.iter().enumerate() {
        print_separator(rt, place);
        print_number(rt, wide(*n));
    }
}

// The bits of a value; those of 0 for both zeros, and of one NaN for every NaN.
fn bits_of(x: f64) -> u64 {
    if x == 0.0 {
        return 0;
    }
    if x == x {
        return f64::to_bits(x);
    }
    9221120237041090560
}

// Prints a list of f64 values behind a space.
pub fn print_values(rt: &impl Print, values: &[f64]) {
    print_empty(rt, values.len());
    for (place, x) in values.iter().enumerate() {
        print_separator(rt, place);
        let _ = print!(rt; "{:016x}", bits_of(*x));
    }
}
