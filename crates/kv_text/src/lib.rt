// Reading: fields, numbers, names, alleles and lines at an offset of a lent text. Every offset is taken; past the end there is nothing.
#![tactic(auto)]

ghost use Rattle.std.specs.Prelude.{◌≡◌, ◌+◌, eqb, drop, length, map};
ghost use Rattle.std.proofs.lemmas.List.Edits.{sets};
ghost use Rattle.answers.specs.Options.{option_of, order_of};
ghost use Rattle.definitions.specs.Alleles.{allele_of, capital, is_letter, letters_of};
ghost use Rattle.definitions.specs.Bytes.{comma, compare_bytes, fields_of, same_bytes, strip_prefix};
ghost use Rattle.definitions.specs.Lists.{is_there};
ghost use Rattle.definitions.specs.Numbers.{is_digit, is_name_byte, name, number, number_list, or_missing};
ghost use Rattle.kv_text.specs.Fields.{FieldFound, allele_read, digits_read, field_length, first_numbers, numbers_read};
ghost use Rattle.kv_text.specs.Lines.{LineReads, ListStored, NextBehind, Placed, ValueRead, behind_line, found, list_count, list_found, moved_behind, optional_found, value_before, value_found};

use slices::store;
use std::cmp::Ordering;

// ---- bytes

// Byte order: by the first byte that differs; a prefix comes first.
pub fn compare_bytes(a: &[u8], b: &[u8]) -> Ordering
    ensures { order_of result ≡ compare_bytes a.now b.now }
{
    a.cmp(b)
}

// The same bytes: as many, and each the same.
pub fn same_bytes(a: &[u8], b: &[u8]) -> bool
    ensures { result ≡ same_bytes a.now b.now }
{
    a == b
}

// Whether a text begins with a key.
fn has_key(line: &[u8], key: &[u8]) -> bool
    ensures { result ≡ is_there (strip_prefix key.now line.now) }
{
    line.starts_with(key)
}

// ---- fields

// A part of a text: from an offset to just before another.
#[derive(Clone, Copy)]
pub struct Part {
    pub at: usize,
    pub end: usize,
}

// Where the field at an offset ends: the first separator there or after, or the end of the text.
pub fn field_end(s: &[u8], at: usize, separator: u8) -> usize
    ensures { result ≡ at + field_length separator (drop at s.now) }
{
    if s.len() <= at {
        return at;
    }
    match s[at..].iter().position(|b| *b == separator) {
        Some(length) => at + length,
        None => s.len(),
    }
}

// The field with this number, from 0, of a text. It is found by offsets, since the answer is where it stands, which `split` does not tell.
pub fn field_at(s: &[u8], separator: u8, number: usize) -> Option<Part>
    ensures { FieldFound s.now separator number result }
{
    let mut at = 0;
    let mut end = field_end(s, 0, separator);
    // by offsets: where the field stands is the answer, which `split` does not tell
    for _ in 0..number {
        if s.len() <= end {
            return None;
        }
        at = end + 1;
        end = field_end(s, at, separator);
    }
    Some(Part { at, end })
}

// How many fields a text has: one more than separators.
pub fn count_fields(s: &[u8], separator: u8) -> usize
    ensures { result ≡ length (fields_of separator s.now) }
{
    s.split(|b| *b == separator).count()
}

// ---- numbers

fn wide(x: u8) -> u64
    ensures { result ≡ x }
{
    x as u64
}

fn is_digit(b: u8) -> bool
    ensures { result ≡ is_digit b }
{
    b.is_ascii_digit()
}

// Whether no byte of a list's field is left at an offset: a comma stands there, or nothing.
fn is_field_end(s: &[u8], at: usize) -> bool
    ensures { result ≡ eqb (field_length comma (drop at s.now)) 0 }
{
    s.len() <= at || s[at] == b','
}

// The number in the field at an offset of a list, and where the field ends: decimal digits, 0 to 2147483647, with no leading zero.
// The loop counts, since where it stops is answered.
fn read_digits(s: &[u8], at: usize) -> Option<(u32, usize)>
    ensures { digits_read result s.now at }
{
    if s.len() <= at {
        return None;
    }
    let first = s[at];
    if !is_digit(first) {
        return None;
    }
    if first == b'0' {
        if is_field_end(s, at + 1) {
            return Some((0, at + 1));
        }
        return None;
    }
    let mut n = wide(first - 48);
    // where it stops is the answer
    for i in at + 1..s.len() {
        let b = s[i];
        if !is_digit(b) {
            if b == b',' {
                return Some((n as u32, i));
            }
            return None;
        }
        let v = n * 10 + wide(b - 48);
        if 2147483647 < v {
            return None;
        }
        n = v;
    }
    Some((n as u32, s.len()))
}

// A number, where it is the whole text.
pub fn read_number(s: &[u8]) -> Option<u32>
    ensures { option_of result ≡ number s.now }
{
    let (n, end) = read_digits(s, 0)?;
    if end < s.len() {
        return None;
    }
    Some(n)
}

// The numbers of a list with commas, as many as fit, into a slice, and how many they are; at a fault, those before it.
// It goes by offsets: `split` would look for each comma before the digits are read, and so go over the bytes twice.
pub fn read_numbers(s: &[u8], out: &mut [u32]) -> Option<usize>
    ensures { numbers_read result s.now × (out.new ≡ sets out.old 0 (first_numbers (fields_of comma s.now))) }
{
    let mut at = 0;
    let mut count = 0;
    // by offsets: `split` would go over the bytes twice
    loop {
        let (n, end) = read_digits(s, at)?;
        store(out, count, n);
        count += 1;
        if s.len() <= end {
            return Some(count);
        }
        at = end + 1;
    }
}

// ---- names and alleles

fn is_name_byte(b: u8) -> bool
    ensures { result ≡ is_name_byte b }
{
    33 <= b && b <= 126 && b != b'=' && b != b','
}

// Whether a field is a name: 1 to 32 bytes from 33 to 126 without `=` and `,`.
pub fn is_name(s: &[u8]) -> bool
    ensures { result ≡ is_there (name s.now) }
{
    if s.is_empty() {
        return false;
    }
    if 32 < s.len() {
        return false;
    }
    s.iter().all(|b| is_name_byte(*b))
}

// Whether a byte is one of ACGTN, in either case.
fn is_letter(b: u8) -> bool
    ensures { result ≡ is_letter (capital b) }
{
    match b {
        b'A' | b'C' | b'G' | b'T' | b'N' | b'a' | b'c' | b'g' | b't' | b'n' => true,
        _ => false,
    }
}

// A byte of acgtn as its capital, any other as itself.
pub fn capital(b: u8) -> u8
    ensures { result ≡ capital b }
{
    match b {
        b'a' | b'c' | b'g' | b't' | b'n' => b - 32,
        _ => b,
    }
}

// Whether two bytes have the same capital: most often they are equal as they stand.
fn same_letter(a: u8, b: u8) -> bool
    ensures { result ≡ eqb (capital a) (capital b) }
{
    b == a || capital(a) == capital(b)
}

// The same letters in either case: as many, and each with the same capital.
pub fn same_letters(a: &[u8], b: &[u8]) -> bool
    ensures { result ≡ same_bytes (map capital a.now) (map capital b.now) }
{
    a.len() == b.len() && a.iter().zip(b).all(|(x, y)| same_letter(*x, *y))
}

// Whether a field is letters of ACGTN in either case, 1 to `most` of them.
pub fn is_letters(s: &[u8], most: usize) -> bool
    ensures { result ≡ is_there (letters_of most s.now) }
{
    if s.is_empty() {
        return false;
    }
    if most < s.len() {
        return false;
    }
    s.iter().all(|b| is_letter(*b))
}

// The three kinds of allele that a field may spell as an ALT.
#[derive(Clone, Copy)]
pub enum AlleleKind {
    Letters,
    SpanDel,
    NonRef,
}

// An ALT: letters, `*` or `<NON_REF>`.
pub fn read_allele(s: &[u8], most: usize) -> Option<AlleleKind>
    ensures { allele_read result s.now ≡ allele_of most s.now }
{
    if same_bytes(s, b"*") {
        return Some(AlleleKind::SpanDel);
    }
    if same_bytes(s, b"<NON_REF>") {
        return Some(AlleleKind::NonRef);
    }
    if is_letters(s, most) {
        return Some(AlleleKind::Letters);
    }
    None
}

// ---- lines

// What reading a line gives: where its value begins, and where the text goes on.
#[derive(Clone, Copy)]
struct LineRead {
    value: Option<usize>,
    next: usize,
}

// The work of `Reader::next_value`, on its text and its offset.
fn value_at(s: &[u8], at: usize, key: &[u8]) -> LineRead
    ensures { ValueRead s.now at key.now (value_before result.value result.next) × (result.next ≡ behind_line at (value_before result.value result.next)) }
{
    let end = field_end(s, at, b'\n');
    if end >= s.len() {
        return LineRead {
            value: None,
            next: at,
        };
    }
    if !has_key(&s[at..end], key) {
        return LineRead {
            value: None,
            next: at,
        };
    }
    LineRead {
        value: Some(at + key.len()),
        next: end + 1,
    }
}

// Where a value stands, from an offset to the line's LF, which stands just before another offset.
fn value_before(value: Option<usize>, next: usize) -> Option<Part>
    requires { NextBehind value next }
    ensures { result ≡ value_before value next }
{
    let at = value?;
    Some(Part { at, end: next - 1 })
}

// A lent text and an offset of it, any offset: every line is read through one.
#[derive(Clone, Copy)]
pub struct Reader<'a> {
    pub text: &'a [u8],
    pub at: usize,
}

// Where the value of a line begins, and the reader, moved behind the line's LF; without a value it stays where it stood.
#[derive(Clone, Copy)]
pub struct NextValue<'a> {
    pub value: Option<usize>,
    pub reader: Reader<'a>,
}

impl<'a> Reader<'a> {
    // A reader that stands at this offset of this text.
    pub fn new(text: &'a [u8], at: usize) -> Reader<'a>
        ensures { (result.text ≡ text.entry) × (result.at ≡ at) }
    {
        Reader { text, at }
    }

    // Where the reader stands.
    pub fn offset(self) -> usize
        ensures { result ≡ self.entry.at }
    {
        self.at
    }

    // The value of the line where the reader stands, which must have this key; keys are given with their `=`.
    pub fn next_value(self, key: &[u8]) -> NextValue<'a>
        ensures { ValueRead self.entry.text.now self.entry.at key.now (value_before result.value result.reader.at) × (result.reader ≡ moved_behind self.entry (value_before result.value result.reader.at)) }
    {
        let line = value_at(self.text, self.at, key);
        NextValue {
            value: line.value,
            reader: Reader {
                text: self.text,
                at: line.next,
            },
        }
    }
}

// The same for a text and an offset: the value of the line there. Its LF stands just before the reader that comes back.
pub fn value_line(s: &[u8], at: usize, key: &[u8]) -> Option<Part>
    ensures { ValueRead s.now at key.now result }
{
    let read = Reader::new(s, at).next_value(key);
    value_before(read.value, read.reader.offset())
}

// The number in the line at an offset, and where the line ends.
pub fn number_line(s: &[u8], at: usize, key: &[u8]) -> Option<(u32, usize)>
    ensures { LineReads s.now at key.now number (found result) }
{
    let value = value_line(s, at, key)?;
    let n = read_number(&s[value.at..value.end])?;
    Some((n, value.end))
}

// Where the name in the line at an offset stands, up to the line's LF.
pub fn name_line(s: &[u8], at: usize, key: &[u8]) -> Option<Part>
    ensures { LineReads s.now at key.now name (value_found s.now result) × Placed at key.now result }
{
    let value = value_line(s, at, key)?;
    if !is_name(&s[value.at..value.end]) {
        return None;
    }
    Some(value)
}

// The number, or `.`, in the line at an offset, and where the line ends.
pub fn optional_number_line(s: &[u8], at: usize, key: &[u8]) -> Option<(Option<u32>, usize)>
    ensures { LineReads s.now at key.now (or_missing number) (optional_found result) }
{
    let value = value_line(s, at, key)?;
    if same_bytes(&s[value.at..value.end], b".") {
        return Some((None, value.end));
    }
    let n = read_number(&s[value.at..value.end])?;
    Some((Some(n), value.end))
}

// Where a list of numbers begins in a text, and how many numbers it has.
#[derive(Clone, Copy)]
pub struct ListStart {
    pub at: usize,
    pub count: usize,
}

// The list of numbers, or `.`, in the line at an offset, and where the line ends; its numbers, as many as fit, into a slice.
pub fn optional_numbers_line(
    s: &[u8],
    at: usize,
    key: &[u8],
    out: &mut [u32],
) -> Option<(Option<ListStart>, usize)>
    ensures { LineReads s.now at key.now (or_missing number_list) (list_found s.now result) × list_count s.now result × ListStored s.now at key.now out.old out.new result }
{
    let value = value_line(s, at, key)?;
    if same_bytes(&s[value.at..value.end], b".") {
        return Some((None, value.end));
    }
    let count = read_numbers(&s[value.at..value.end], out)?;
    let list = ListStart {
        at: value.at,
        count,
    };
    Some((Some(list), value.end))
}
