// The tables that the texts of a call are read into: names, sites, and behind 4,096 sites the first 1,024 reference segments. Every number
// of a row is answered: past the table's end all columns are 0.
#![tactic(auto)]

ghost use Rattle.std.specs.Prelude.{◌≡◌, ◌+◌, ◌<◌, ◌≤◌, eqb, length, []};
ghost use Rattle.std.proofs.lemmas.List.Edits.{sets};
ghost use Rattle.std.proofs.Math.Option;
ghost use Rattle.answers.specs.Options.{option_of};
ghost use Rattle.definitions.specs.Bytes.{comma, fields_of};
ghost use Rattle.definitions.specs.Numbers.{number_list};
ghost use Rattle.kv_text.specs.Fields.{between, first_numbers};
ghost use Rattle.tables.specs.Tables.{ad_at, code_option, column, depth_at, dp_at, first_numbers_at, half_at, is_stored, list_columns, min_dp_at, numbers_at, part_at, pl_at, segment_column, segment_count, segments_next, stored_numbers, with_numbers, word_of};

use bio_ids::{GenomePosition, SampleIndex};

// Stores the numbers of a row from an offset on.
pub fn store_row(rows: &mut [usize], first: usize, row: &[usize])
    requires { first + length row.now ≤ length rows.old }
    ensures { rows.new ≡ sets rows.old first row.now }
{
    slices::copy_over(&mut rows[first..first + row.len()], row);
}

// A part of a text, as far as the text goes.
pub fn part<'a>(s: &'a [u8], from: usize, to: usize) -> &'a [u8]
    ensures { result.now ≡ between s.now from to }
{
    if to <= from {
        return &s[..0];
    }
    if s.len() <= from {
        return &s[..0];
    }
    if s.len() < to {
        return &s[from..];
    }
    &s[from..to]
}

// 2^60: no table has so many numbers, since a slice has fewer than 2^63 bytes.
const TOO_MANY_NUMBERS: usize = 1152921504606846976;

// 2^56: so many rows have more numbers than that.
const TOO_MANY_ROWS: usize = 72057594037927936;

// A number of a site's row.
fn column(rows: &[usize], site: usize, k: usize) -> usize
    ensures { result ≡ column k rows.now site }
{
    if TOO_MANY_ROWS <= site {
        return 0;
    }
    if TOO_MANY_NUMBERS <= k {
        return 0;
    }
    let at = site * 22 + k;
    slices::value_or(rows, at, 0)
}

// The sample whose site it is.
pub fn sample_of(rows: &[usize], site: usize) -> SampleIndex
    ensures { result.0 ≡ column 0 rows.now site }
{
    SampleIndex::new(column(rows, site, 0))
}

// The site's contig, as the number of the first site on it.
pub fn contig_of(rows: &[usize], site: usize) -> usize
    ensures { result ≡ column 1 rows.now site }
{
    column(rows, site, 1)
}

// The site's first position.
pub fn start_of(rows: &[usize], site: usize) -> GenomePosition
    ensures { result.0 ≡ column 2 rows.now site }
{
    GenomePosition::new_1based(column(rows, site, 2) as u64)
}

// The site's last position.
pub fn end_of(rows: &[usize], site: usize) -> GenomePosition
    ensures { result.0 ≡ column 3 rows.now site }
{
    GenomePosition::new_1based(column(rows, site, 3) as u64)
}

// Whether the site is a reference block.
pub fn is_block(rows: &[usize], site: usize) -> bool
    ensures { result ≡ eqb (column 4 rows.now site) 1 }
{
    column(rows, site, 4) == 1
}

// A number of a table that may be missing.
fn optional(code: usize) -> Option<u32>
    ensures { option_of result ≡ code_option code }
{
    if code <= 2147483647 {
        return Some(code as u32);
    }
    None
}

// The site's GQ.
pub fn gq_of(rows: &[usize], site: usize) -> Option<u32>
    ensures { option_of result ≡ code_option (column 5 rows.now site) }
{
    optional(column(rows, site, 5))
}

// The depth in a half of the column that DP and MIN_DP share.
fn depth_of(rows: &[usize], site: usize, half: usize) -> Option<u32>
    ensures { option_of result ≡ depth_at half rows.now site }
{
    let depths = column(rows, site, 6);
    optional(half_at(depths, half) as usize)
}

// The site's DP.
pub fn dp_of(rows: &[usize], site: usize) -> Option<u32>
    ensures { option_of result ≡ dp_at rows.now site }
{
    depth_of(rows, site, 0)
}

// The site's MIN_DP.
pub fn min_dp_of(rows: &[usize], site: usize) -> Option<u32>
    ensures { option_of result ≡ min_dp_at rows.now site }
{
    depth_of(rows, site, 1)
}

// The part of the text between the offsets in two columns.
fn part_at<'a>(s: &'a [u8], rows: &[usize], site: usize, from: usize, to: usize) -> &'a [u8]
    ensures { result.now ≡ part_at from to s.now rows.now site }
{
    let first = column(rows, site, from);
    let end = column(rows, site, to);
    part(s, first, end)
}

// The name of the site's contig.
pub fn contig_name<'a>(s: &'a [u8], rows: &[usize], site: usize) -> &'a [u8]
    ensures { result.now ≡ part_at 7 8 s.now rows.now site }
{
    part_at(s, rows, site, 7, 8)
}

// The site's REF.
pub fn reference_allele<'a>(s: &'a [u8], rows: &[usize], site: usize) -> &'a [u8]
    ensures { result.now ≡ part_at 9 10 s.now rows.now site }
{
    part_at(s, rows, site, 9, 10)
}

// The offset at which the text has the site's REF.
pub fn reference_allele_from(rows: &[usize], site: usize) -> usize
    ensures { result ≡ column 9 rows.now site }
{
    column(rows, site, 9)
}

// The offset just behind it.
pub fn reference_allele_to(rows: &[usize], site: usize) -> usize
    ensures { result ≡ column 10 rows.now site }
{
    column(rows, site, 10)
}

// The site's ALTs, with commas.
pub fn alternate_alleles<'a>(s: &'a [u8], rows: &[usize], site: usize) -> &'a [u8]
    ensures { result.now ≡ part_at 11 12 s.now rows.now site }
{
    part_at(s, rows, site, 11, 12)
}

// The numbers of a list into a slice, as many as fit; the answer is how many they are, 0 for a missing list.
fn numbers_in(list: &[u8], out: &mut [u32]) -> usize
    ensures count { result ≡ length (Option.get_or (number_list list.now) []) }
    ensures values { out.new ≡ sets out.old 0 (first_numbers (fields_of comma list.now)) }
{
    kv_text::read_numbers(list, out).unwrap_or(0)
}

// Whether so many numbers of a list stand in a row that has room for `most`.
fn is_stored(count: usize, most: usize) -> bool
    ensures { result ≡ is_stored most count }
{
    0 < count && count <= most
}

// The number at a place of a list, of the two that a number of the table holds.
fn half_at(n: usize, place: usize) -> u32
    ensures { result ≡ half_at place n }
{
    if place % 2 == 0 {
        return (n % 4294967296) as u32;
    }
    (n / 4294967296) as u32
}

// The numbers of a list that stand in the row, into a slice, as many as fit.
fn stored_numbers(rows: &[usize], site: usize, k: usize, out: &mut [u32])
    requires { k ≤ 16 }
    ensures { out.new ≡ sets out.old 0 (stored_numbers k rows.now site) }
{
    let count = column(rows, site, k);
    // more may be counted than fit, and two stand in each column: no slice goes along with them
    for i in 0..count {
        let n = column(rows, site, k + 1 + i / 2);
        slices::store(out, i, half_at(n, i));
    }
}

// A list of numbers from its column on into a slice, as many as fit; the answer is how many they are, 0 for a missing list.
fn numbers_at(
    s: &[u8],
    rows: &[usize],
    site: usize,
    k: usize,
    most: usize,
    out: &mut [u32],
) -> usize
    requires { k ≤ 16 }
    ensures count { result ≡ length (Option.get_or (numbers_at k most s.now rows.now site) []) }
    ensures values { out.new ≡ sets out.old 0 (first_numbers_at k most s.now rows.now site) }
{
    let count = column(rows, site, k);
    if is_stored(count, most) {
        stored_numbers(rows, site, k, out);
        return count;
    }
    let list = part_at(s, rows, site, k + 1, k + 2);
    numbers_in(list, out)
}

// The site's AD.
pub fn ad_of(s: &[u8], rows: &[usize], site: usize, out: &mut [u32]) -> usize
    ensures count { result ≡ length (Option.get_or (ad_at s.now rows.now site) []) }
    ensures values { out.new ≡ sets out.old 0 (first_numbers_at 13 4 s.now rows.now site) }
{
    numbers_at(s, rows, site, 13, 4, out)
}

// The site's PL.
pub fn pl_of(s: &[u8], rows: &[usize], site: usize, out: &mut [u32]) -> usize
    ensures count { result ≡ length (Option.get_or (pl_at s.now rows.now site) []) }
    ensures values { out.new ≡ sets out.old 0 (first_numbers_at 16 10 s.now rows.now site) }
{
    numbers_at(s, rows, site, 16, 10, out)
}

// Two numbers of a list in one.
fn word_of(numbers: &[u32], j: usize) -> usize
    requires { j < 4611686018427387904 }
    ensures { result ≡ word_of numbers.now j }
{
    let low = slices::value_or(numbers, 2 * j, 0);
    let high = slices::value_or(numbers, 2 * j + 1, 0);
    low as usize + high as usize * 4294967296
}

// Stores a list of numbers from the offset of its column on: how many they are, and two in each of so many columns behind it.
fn store_list(rows: &mut [usize], at: usize, words: usize, numbers: &[u32])
    requires { at + 1 + words ≤ length rows.old }
    ensures { rows.new ≡ sets rows.old at (list_columns words numbers.now) }
{
    rows[at] = numbers.len();
    // each column is computed from two numbers of the list, of which the last may be absent
    for j in 0..words {
        let word = word_of(numbers, j);
        rows[at + 1 + j] = word;
    }
}

// The same for the first so many numbers of a slice, if there are some and the slice has them all; else the table stays as it was.
pub fn store_numbers(rows: &mut [usize], at: usize, words: usize, numbers: &[u32], count: usize)
    requires { at + 1 + words ≤ length rows.old }
    ensures { rows.new ≡ with_numbers at words numbers.now count rows.old }
{
    if is_stored(count, numbers.len()) {
        store_list(rows, at, words, &numbers[..count]);
    }
}

// ---- reference segments

// 2^58: so many rows of 5 have more numbers than any table.
const TOO_MANY_SEGMENTS: usize = 288230376151711744;

// A number of a reference segment's row.
pub fn segment_column(rows: &[usize], segment: usize, k: usize) -> usize
    ensures { result ≡ segment_column k rows.now segment }
{
    if TOO_MANY_SEGMENTS <= segment {
        return 0;
    }
    if TOO_MANY_NUMBERS <= k {
        return 0;
    }
    slices::value_or(rows, 90112 + segment * 5 + k, 0)
}

// How many reference segments have rows.
pub fn segment_count(rows: &[usize]) -> usize
    ensures { result ≡ segment_count rows.now }
{
    slices::value_or(rows, 95232, 0)
}

// Where the reference segments without rows begin in their text.
pub fn segments_next(rows: &[usize]) -> usize
    ensures { result ≡ segments_next rows.now }
{
    slices::value_or(rows, 95233, 0)
}
