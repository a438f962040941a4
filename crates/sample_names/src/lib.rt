// The header of cohort.kv: how many samples, and their names, which stay where they stand in the lent text.
#![tactic(auto)]

ghost use Rattle.std.specs.Prelude.{reverse, ◌≡◌, ◌*◌, ◌≤◌, length};
ghost use Rattle.definitions.specs.Bytes.{same_bytes};
ghost use Rattle.definitions.specs.Lists.{any_of};
ghost use Rattle.tables.specs.Tables.{names_in};
ghost use Rattle.sample_names.specs.Header.{CountRead, Header, LinesRead, NamesRead, SampleRead};

use answers::{LoadError, Refusal};
use kv_text::Part;

// Whether a text is one of the first `count` names.
fn name_known(s: &[u8], names: &[usize], count: usize, name: &[u8]) -> bool
    requires { 2 * count ≤ length names.now }
    ensures { result ≡ any_of (same_bytes name.now) (names_in s.now names.now count) }
{
    (0..count).any(|i| {
        let known = tables::part(s, names[2 * i], names[2 * i + 1]);
        kv_text::same_bytes(name, known)
    })
}

// Where the name in the `sample` line at an offset stands, up to the line's LF; the first `count` names stand before it.
fn sample_at(s: &[u8], at: usize, names: &[usize], count: usize) -> Result<Part, Refusal>
    requires { 2 * count ≤ length names.now }
    ensures { SampleRead s.now at (reverse (names_in s.now names.now count)) result }
{
    let name = kv_text::name_line(s, at, b"sample=").ok_or(Refusal::Spelling)?;
    if name_known(s, names, count, &s[name.at..name.end]) {
        return Err(Refusal::Sample);
    }
    Ok(name)
}

// So many `sample` lines from an offset on: where their names stand goes into the table. Answers where the text goes on behind them.
fn sample_lines(s: &[u8], at: usize, count: usize, names: &mut [usize]) -> Result<usize, Refusal>
    requires { (at ≤ length s.now) × (2 * count ≤ length names.old) }
    ensures { NamesRead s.now at count names.old names.new result }
{
    let mut next = at;
    // `i` is the name whose offsets are stored
    for i in 0..count {
        let name = sample_at(s, next, names, i)?;
        names[2 * i] = name.at;
        names[2 * i + 1] = name.end;
        next = name.end + 1;
    }
    Ok(next)
}

// How many samples there are, and where the text goes on: behind the first line, or behind the `sample` lines.
#[derive(Clone, Copy)]
pub struct SampleLines {
    pub count: usize,
    pub next: usize,
}

// The first line: `samples`, 1 to 64.
fn samples_line(s: &[u8]) -> Result<SampleLines, Refusal>
    ensures { CountRead s.now result }
{
    let (count, end) = kv_text::number_line(s, 0, b"samples=").ok_or(Refusal::Spelling)?;
    if count < 1 {
        return Err(Refusal::Size);
    }
    if 64 < count {
        return Err(Refusal::Size);
    }
    Ok(SampleLines {
        count: count as usize,
        next: end + 1,
    })
}

// The first line and the `sample` lines behind it.
fn header_lines(s: &[u8], names: &mut [usize]) -> Result<SampleLines, Refusal>
    requires { 128 ≤ length names.old }
    ensures { LinesRead s.now names.old names.new result }
{
    let samples = samples_line(s)?;
    let next = sample_lines(s, samples.next, samples.count, names)?;
    Ok(SampleLines {
        count: samples.count,
        next,
    })
}

// The header of a cohort: how many samples, and where the first site group begins; or why it is refused: row 1, 2 or 3. Where the names stand
// goes into `names`, two numbers each: where a name begins, and where it ends. There is no room in less than 128 numbers.
pub fn read_samples(s: &[u8], names: &mut [usize]) -> Result<SampleLines, LoadError>
    ensures { Header s.now names.old names.new result }
{
    if names.len() < 128 {
        return Err(LoadError::NoRoom);
    }
    match header_lines(s, names) {
        Ok(lines) => Ok(lines),
        Err(refusal) => {
            slices::clear(names, 0);
            Err(LoadError::Refused(refusal))
        }
    }
}
