// Writers that measure and write. Each lays bytes over a lent buffer from an offset on, as far as they fit, and returns
// the offset behind them: a call on `&mut out[..0]` only measures.
// Each requires that this offset fits a usize, since a function that took every offset would have to return a wrong one
// where the sum overflows.
#![tactic(auto)]

ghost use Rattle.std.specs.Prelude.{cond, [], ◌∷◌, map, ◌≡◌, ◌+◌, ◌*◌, ◌<◌, ◌≤◌, ◌^◌, leb, length};
ghost use Rattle.answers.specs.Options.{option_of};
ghost use Rattle.definitions.specs.Alleles.{capital};
ghost use Rattle.definitions.specs.Bytes.{text};
ghost use Rattle.definitions.specs.Lists.{only_if};
ghost use Rattle.definitions.specs.Numbers.{decimal, decimals, written_or_missing};
ghost use Rattle.kv_write.specs.Keyed.{keyed};
ghost use Rattle.kv_write.specs.Laid.{Laid};

// Lays one byte.
pub fn put_byte(out: &mut [u8], at: usize, b: u8) -> usize
    requires { at + length (b ∷ []) < 2 ^ 64 }
    ensures { Laid out.old at (b ∷ []) out.new result }
{
    let next = at + 1;
    if at < out.len() {
        out[at] = b;
    }
    next
}

// Lays bytes.
pub fn put_bytes(out: &mut [u8], at: usize, bytes: &[u8]) -> usize
    requires { at + length bytes.now < 2 ^ 64 }
    ensures { Laid out.old at bytes.now out.new result }
{
    let end = at + bytes.len();
    if out.len() <= at {
        return end;
    }
    if end <= out.len() {
        slices::copy_over(&mut out[at..end], bytes);
        return end;
    }
    let room = out.len() - at;
    slices::copy_over(&mut out[at..], &bytes[..room]);
    end
}

// Copies bytes over as many, letters as capitals.
fn copy_letters(to: &mut [u8], bytes: &[u8])
    requires { length to.old ≡ length bytes.now }
    ensures { to.new ≡ map capital bytes.now }
{
    for (i, letter) in bytes.iter().enumerate() {
        let raised = kv_text::capital(*letter);
        to[i] = raised;
    }
}

// Lays the bytes of alleles, their letters as capitals.
pub fn put_letters(out: &mut [u8], at: usize, bytes: &[u8]) -> usize
    requires { at + length (map capital bytes.now) < 2 ^ 64 }
    ensures { Laid out.old at (map capital bytes.now) out.new result }
{
    let end = at + bytes.len();
    if out.len() <= at {
        return end;
    }
    if end <= out.len() {
        copy_letters(&mut out[at..end], bytes);
        return end;
    }
    let room = out.len() - at;
    copy_letters(&mut out[at..], &bytes[..room]);
    end
}

// 1 if a number is at least another, else 0. A sum of such needs no branch.
fn at_least(n: u32, from: u32) -> usize
    ensures { (result ≤ 1) × (result ≡ cond (leb from n) 1 0) }
{
    if from <= n { 1 } else { 0 }
}

// The offset behind a number's decimal digits.
fn number_end(at: usize, n: u32) -> usize
    requires { at + length (decimal n) < 2 ^ 64 }
    ensures { result ≡ at + length (decimal n) }
{
    if n < 10000 {
        let two = at_least(n, 10);
        let three = at_least(n, 100);
        let four = at_least(n, 1000);
        return at + 1 + two + three + four;
    }
    let six = at_least(n, 100000);
    let seven = at_least(n, 1000000);
    let eight = at_least(n, 10000000);
    let nine = at_least(n, 100000000);
    let ten = at_least(n, 1000000000);
    at + (5 + six + seven + eight + nine + ten)
}

// Stores a number's decimal digits, the last first, over as many bytes.
fn store_digits(to: &mut [u8], n: u32)
    requires { length to.old ≡ length (decimal n) }
    ensures { to.new ≡ decimal n }
{
    let mut place = to.len();
    let mut left = n;
    // the digits are computed, from the last to the first: there is no slice to go over
    while 10 <= left {
        place = place - 1;
        to[place] = 48 + (left % 10) as u8;
        left = left / 10;
    }
    to[0] = 48 + left as u8;
}

// Stores a number of one or two digits where there is room for two. A leading zero is stored where the next digit is
// then stored over it, so that no branch depends on how many there are.
fn store_one_or_two(out: &mut [u8], at: usize, n: u32) -> usize
    requires { (n < 100) × (at + 2 ≤ length out.old) }
    ensures { Laid out.old at (decimal n) out.new result }
{
    let low = n as u8;
    let last = at + at_least(n, 10);
    out[at] = 48 + low / 10;
    out[last] = 48 + low % 10;
    last + 1
}

// The same for three or four digits.
fn store_three_or_four(out: &mut [u8], at: usize, n: u32) -> usize
    requires { (100 ≤ n) × (n < 10000) × (at + 4 ≤ length out.old) }
    ensures { Laid out.old at (decimal n) out.new result }
{
    let high = (n / 100) as u8;
    let low = (n % 100) as u8;
    let second = at + at_least(n, 1000);
    out[at] = 48 + high / 10;
    out[second] = 48 + high % 10;
    out[second + 1] = 48 + low / 10;
    out[second + 2] = 48 + low % 10;
    second + 3
}

// Stores a number where there is room for ten digits.
fn store_number(out: &mut [u8], at: usize, n: u32) -> usize
    requires { at + 10 ≤ length out.old }
    ensures { Laid out.old at (decimal n) out.new result }
{
    if n < 100 {
        return store_one_or_two(out, at, n);
    }
    if n < 10000 {
        return store_three_or_four(out, at, n);
    }
    let end = number_end(at, n);
    store_digits(&mut out[at..end], n);
    end
}

// Lays a number in decimal digits.
pub fn put_number(out: &mut [u8], at: usize, n: u32) -> usize
    requires { at + length (decimal n) < 2 ^ 64 }
    ensures { Laid out.old at (decimal n) out.new result }
{
    if out.len() <= at {
        return number_end(at, n);
    }
    if 10 <= out.len() - at {
        return store_number(out, at, n);
    }
    let mut whole = [0u8; 10];
    let count = store_number(&mut whole, 0, n);
    put_bytes(out, at, &whole[..count])
}

// The offset behind numbers with commas between, of which there is one at least.
fn numbers_end(at: usize, numbers: &[u32]) -> usize
    requires { (0 < length numbers.now) × (at + length (decimals numbers.now) < 2 ^ 64) }
    ensures { result ≡ at + length (decimals numbers.now) }
{
    let first = numbers[0];
    let mut next = number_end(at, first);
    for n in &numbers[1..] {
        next = number_end(next + 1, *n);
    }
    next
}

// Stores numbers with commas between where there is room for eleven bytes for each.
fn store_numbers(out: &mut [u8], at: usize, numbers: &[u32]) -> usize
    requires { (0 < length numbers.now) × (at + length (decimals numbers.now) < 2 ^ 64)
        × (at + 11 * length numbers.now ≤ length out.old) }
    ensures { Laid out.old at (decimals numbers.now) out.new result }
{
    let first = numbers[0];
    let mut next = store_number(out, at, first);
    for n in &numbers[1..] {
        out[next] = b',';
        next = store_number(out, next + 1, *n);
    }
    next
}

// Lays numbers with commas between, of which there is one at least, wherever the buffer ends.
fn put_each_number(out: &mut [u8], at: usize, numbers: &[u32]) -> usize
    requires { (0 < length numbers.now) × (at + length (decimals numbers.now) < 2 ^ 64) }
    ensures { Laid out.old at (decimals numbers.now) out.new result }
{
    let first = numbers[0];
    let mut next = put_number(out, at, first);
    for n in &numbers[1..] {
        next = put_byte(out, next, b',');
        next = put_number(out, next, *n);
    }
    next
}

// Lays numbers with commas between; no numbers are no bytes.
pub fn put_numbers(out: &mut [u8], at: usize, numbers: &[u32]) -> usize
    requires { at + length (decimals numbers.now) < 2 ^ 64 }
    ensures { Laid out.old at (decimals numbers.now) out.new result }
{
    if numbers.len() == 0 {
        return at;
    }
    if out.len() <= at {
        return numbers_end(at, numbers);
    }
    if numbers.len() <= (out.len() - at) / 11 {
        return store_numbers(out, at, numbers);
    }
    put_each_number(out, at, numbers)
}

// Lays a line: a key with its `=`, a value, LF.
pub fn put_line(out: &mut [u8], at: usize, key: &[u8], value: &[u8]) -> usize
    requires { at + length (keyed key.now value.now) < 2 ^ 64 }
    ensures { Laid out.old at (keyed key.now value.now) out.new result }
{
    let behind_key = put_bytes(out, at, key);
    let behind_value = put_bytes(out, behind_key, value);
    put_byte(out, behind_value, b'\n')
}

// Lays a line with a number.
pub fn put_number_line(out: &mut [u8], at: usize, key: &[u8], n: u32) -> usize
    requires { at + length (keyed key.now (decimal n)) < 2 ^ 64 }
    ensures { Laid out.old at (keyed key.now (decimal n)) out.new result }
{
    let behind_key = put_bytes(out, at, key);
    let behind_value = put_number(out, behind_key, n);
    put_byte(out, behind_value, b'\n')
}

// Lays a line with numbers.
pub fn put_numbers_line(out: &mut [u8], at: usize, key: &[u8], numbers: &[u32]) -> usize
    requires { at + length (keyed key.now (decimals numbers.now)) < 2 ^ 64 }
    ensures { Laid out.old at
        (keyed key.now (decimals numbers.now))
        out.new result }
{
    let behind_key = put_bytes(out, at, key);
    let behind_value = put_numbers(out, behind_key, numbers);
    put_byte(out, behind_value, b'\n')
}

// Lays a line with a missing value.
pub fn put_missing_line(out: &mut [u8], at: usize, key: &[u8]) -> usize
    requires { at + length (keyed key.now (text ".")) < 2 ^ 64 }
    ensures { Laid out.old at (keyed key.now (text ".")) out.new result }
{
    put_line(out, at, key, b".")
}

// Lays a line with a number or a missing value.
pub fn put_optional_number_line(out: &mut [u8], at: usize, key: &[u8], value: Option<u32>) -> usize
    requires { at + length (keyed key.now (written_or_missing decimal (option_of value))) < 2 ^ 64 }
    ensures { Laid out.old at
        (keyed key.now (written_or_missing decimal (option_of value)))
        out.new result }
{
    match value {
        None => put_missing_line(out, at, key),
        Some(n) => put_number_line(out, at, key, n),
    }
}

// Lays a line with numbers, or with a missing value if they are not present.
pub fn put_optional_numbers_line(
    out: &mut [u8],
    at: usize,
    key: &[u8],
    present: bool,
    numbers: &[u32],
) -> usize
    requires { at + length (keyed key.now (written_or_missing decimals (only_if present numbers.now))) < 2 ^ 64 }
    ensures { Laid out.old at
        (keyed key.now (written_or_missing decimals (only_if present numbers.now)))
        out.new result }
{
    if present {
        return put_numbers_line(out, at, key, numbers);
    }
    put_missing_line(out, at, key)
}
