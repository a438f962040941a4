// The marker file of a selection sheet, read into a table: rows 19 and 20.
#![tactic(auto)]

ghost use Rattle.std.specs.Prelude.{◌*◌, ◌+◌, ◌≤◌, length, ◌≡◌};
ghost use Rattle.std.proofs.lemmas.List.Edits.{sets};
ghost use Rattle.answers.specs.Options.{option_of};
ghost use Rattle.definitions.specs.Bytes.{comma, fields_of, same_bytes};
ghost use Rattle.definitions.specs.Lines.{key_of};
ghost use Rattle.definitions.specs.Lists.{all_of, index_where, is_there};
ghost use Rattle.definitions.specs.Numbers.{name};
ghost use Rattle.definitions.specs.SelectionSheet.{names_after, number_in, wanted_allele};
ghost use Rattle.kv_text.specs.Lines.{LineReads, found};
ghost use Rattle.marker_groups.specs.Markers.{AftersFound, LinesRead, MarkerRead, MarkersRead, after_found, after_names, allele_found, column, names_in, part_at, row_of};

use answers::{LoadError, Refusal};
use kv_text::{AlleleKind, Part};

// ---- the lines of a marker

// The number in the line at an offset, from one number to another, and where the line ends.
fn number_line(s: &[u8], at: usize, key: &[u8], low: u32, high: u32) -> Option<(u32, usize)>
    ensures { LineReads s.now at key.now (number_in low high) (found result) }
{
    let (n, end) = kv_text::number_line(s, at, key)?;
    if n < low {
        return None;
    }
    if high < n {
        return None;
    }
    Some((n, end))
}

// Whether a value is an allele that a marker may want: up to 255 letters, or `*`.
fn is_wanted(value: &[u8]) -> bool
    ensures { result ≡ is_there (wanted_allele value.now) }
{
    match kv_text::read_allele(value, 255) {
        Some(AlleleKind::Letters) => true,
        Some(AlleleKind::SpanDel) => true,
        Some(AlleleKind::NonRef) => false,
        None => false,
    }
}

// Where the wanted allele stands in the line at an offset.
fn allele_line(s: &[u8], at: usize) -> Option<Part>
    ensures { LineReads s.now at (key_of "allele") wanted_allele (allele_found s.now result) }
{
    let value = kv_text::value_line(s, at, b"allele=")?;
    if !is_wanted(tables::part(s, value.at, value.end)) {
        return None;
    }
    Some(value)
}

// Whether each field of a list is a name.
fn all_names(list: &[u8]) -> bool
    ensures { result ≡ all_of (λ f. is_there (name f)) (fields_of comma list.now) }
{
    list.split(|b| *b == b',')
        .all(|field| kv_text::is_name(field))
}

// Whether a value is `.` or up to four names.
fn is_after(value: &[u8]) -> bool
    ensures { result ≡ is_there (names_after value.now) }
{
    if kv_text::same_bytes(value, b".") {
        return true;
    }
    if 4 < kv_text::count_fields(value, b',') {
        return false;
    }
    all_names(value)
}

// Where the names stand, in the line at an offset, that are to be met before a marker is.
fn after_line(s: &[u8], at: usize) -> Option<Part>
    ensures { LineReads s.now at (key_of "after") names_after (after_found s.now result) }
{
    let value = kv_text::value_line(s, at, b"after=")?;
    if !is_after(tables::part(s, value.at, value.end)) {
        return None;
    }
    Some(value)
}

// The six lines of a marker, and where the next one begins.
#[derive(Clone, Copy)]
pub struct MarkerLines {
    name: Part,
    contig: Part,
    pos: u32,
    allele: Part,
    weight: u32,
    after: Part,
    next: usize,
}

// The lines of the marker at an offset.
fn marker_lines(s: &[u8], at: usize) -> Option<MarkerLines>
    ensures { LinesRead s.now at result }
{
    let name = kv_text::name_line(s, at, b"marker=")?;
    let contig = kv_text::name_line(s, name.end + 1, b"contig=")?;
    let (pos, pos_end) = number_line(s, contig.end + 1, b"pos=", 1, 2147483647)?;
    let allele = allele_line(s, pos_end + 1)?;
    let (weight, weight_end) = number_line(s, allele.end + 1, b"weight=", 1, 100)?;
    let after = after_line(s, weight_end + 1)?;
    let next = after.end + 1;
    Some(MarkerLines {
        name,
        contig,
        pos,
        allele,
        weight,
        after,
        next,
    })
}

// ---- the table

// 2^57 rows and 2^60 numbers: no table has so many, since a slice has fewer than 2^63 bytes.
const TOO_MANY_MARKERS: usize = 144115188075855872;

const TOO_MANY_NUMBERS: usize = 1152921504606846976;

// A number of a marker's row; 0 outside the table.
pub fn column(rows: &[usize], marker: usize, k: usize) -> usize
    ensures { result ≡ column k rows.now marker }
{
    if TOO_MANY_MARKERS <= marker {
        return 0;
    }
    if TOO_MANY_NUMBERS <= k {
        return 0;
    }
    slices::value_or(rows, marker * 13 + k, 0)
}

// The part of the text between the offsets in two columns.
pub fn part_at<'a>(s: &'a [u8], rows: &[usize], marker: usize, from: usize, to: usize) -> &'a [u8]
    ensures { result.now ≡ part_at from to s.now rows.now marker }
{
    tables::part(s, column(rows, marker, from), column(rows, marker, to))
}

// The number of the first marker, of so many, with this name.
fn find_marker(s: &[u8], rows: &[usize], count: usize, name: &[u8]) -> Option<usize>
    ensures { option_of result ≡ index_where (same_bytes name.now) (names_in s.now rows.now count) }
{
    // the rows are read by their numbers, and the count is no slice's length
    for i in 0..count {
        if kv_text::same_bytes(name, part_at(s, rows, i, 0, 1)) {
            return Some(i);
        }
    }
    None
}

// ---- the names in `after`

// How many names a list has; `.` has none.
fn count_names(list: &[u8]) -> usize
    ensures { result ≡ length (after_names list.now) }
{
    if kv_text::same_bytes(list, b".") {
        return 0;
    }
    kv_text::count_fields(list, b',')
}

// The numbers of the markers, of so many, that a list of up to four names gives, and how many they are; none if a name is no marker's.
fn after_markers(
    s: &[u8],
    rows: &[usize],
    count: usize,
    list: &[u8],
    numbers: &mut [usize],
) -> Option<usize>
    requires { (length (after_names list.now) ≤ 4) × (length numbers.old ≡ 4) }
    ensures { AftersFound s.now rows.now count list.now numbers.new result }
{
    let names = count_names(list);
    // `i` is the place that is stored
    for i in 0..names {
        let field = kv_text::field_at(list, b',', i)?;
        let found = find_marker(s, rows, count, tables::part(list, field.at, field.end))?;
        slices::store(numbers, i, found);
    }
    Some(names)
}

// ---- the markers

// Stores the row of a marker behind so many: its lines, how many markers its `after` names, and their numbers.
fn put_marker(
    rows: &mut [usize],
    marker: usize,
    lines: MarkerLines,
    names: usize,
    numbers: &[usize; 4],
)
    requires { marker * 13 + 13 ≤ length rows.old }
    ensures { rows.new ≡ sets rows.old (marker * 13) (row_of lines names numbers.now) }
{
    let row = [
        lines.name.at,
        lines.name.end,
        lines.contig.at,
        lines.contig.end,
        lines.pos as usize,
        lines.allele.at,
        lines.allele.end,
        lines.weight as usize,
        names,
        numbers[0],
        numbers[1],
        numbers[2],
        numbers[3],
    ];
    tables::store_row(rows, marker * 13, &row);
}

// The marker group at an offset, behind so many: a row of the table more. The answer is where the next one begins.
fn marker_at(s: &[u8], at: usize, rows: &mut [usize], count: usize) -> Result<usize, Refusal>
    requires { 6500 ≤ length rows.old }
    ensures { MarkerRead s.now at rows.old rows.new count result }
{
    let lines = marker_lines(s, at).ok_or(Refusal::Marker)?;
    if 500 <= count {
        return Err(Refusal::Marker);
    }
    let name = tables::part(s, lines.name.at, lines.name.end);
    if find_marker(s, rows, count, name).is_some() {
        return Err(Refusal::Marker);
    }
    let mut numbers = [0usize; 4];
    let list = tables::part(s, lines.after.at, lines.after.end);
    let names = after_markers(s, rows, count, list, &mut numbers).ok_or(Refusal::MarkerAfter)?;
    put_marker(rows, count, lines, names, &numbers);
    Ok(lines.next)
}

// The markers of a text, and how many there are: a row of the table for each, and behind them the table as it was; or row 19 or 20, and a
// table of zeros. There is no room in less than 6,500 numbers.
pub fn read_markers(s: &[u8], rows: &mut [usize]) -> Result<usize, LoadError>
    ensures { MarkersRead s.now rows.old rows.new result }
{
    if rows.len() < 6500 {
        return Err(LoadError::NoRoom);
    }
    let mut at = 0;
    let mut count = 0;
    // a group says where the next begins
    while at < s.len() {
        match marker_at(s, at, rows, count) {
            Ok(next) => {
                at = next;
                count += 1;
            }
            Err(refusal) => {
                slices::clear(rows, 0);
                return Err(LoadError::Refused(refusal));
            }
        }
    }
    Ok(count)
}
