// A record group of a combined list, read back by its lines: rows 1 to 8.
#![tactic(auto)]

ghost use Rattle.std.specs.Prelude.{◌≡◌, ◌&&◌, ◌||◌, not, ◌*◌, ◌≤◌, suc, eqb, leb, ltb, length};
ghost use Rattle.definitions.specs.Alleles.{genotype_count};
ghost use Rattle.definitions.specs.ListReader.{gt_of};
ghost use Rattle.definitions.specs.Lines.{key_of};
ghost use Rattle.definitions.specs.Lists.{is_there, missing_or};
ghost use Rattle.definitions.specs.Numbers.{number, number_list, or_missing};
ghost use Rattle.kv_text.specs.Lines.{LineReads};
ghost use Rattle.site_groups.specs.SiteGroups.{PartCounted, part_found};
ghost use Rattle.tables.specs.Tables.{row_length};
ghost use Rattle.list_reader.specs.RecordGroups.{GtRead, HeadRead, RecordChecked, RecordFound, RecordRead, SampleRead, TextRead, comes_after_last, end_found, end_option};

use answers::Refusal;
use bio_ids::{GenomePosition, SampleIndex};
use kv_text::Part;
use site_groups::{NumbersPart, SiteAlleles, SitePlace, SiteValues};
use std::cmp::Ordering;

// ---- the lines of a sample

// Whether two numbers of a text, which may be past those of alleles, are a genotype of REF and so many ALTs.
fn is_pair(low: u32, high: u32, alts: usize) -> bool
    ensures { result ≡ leb low high && ltb high (suc alts) }
{
    low <= high && high as usize <= alts
}

// Whether a value is a genotype j/k of REF and so many ALTs.
fn is_gt(value: &[u8], alts: usize) -> bool
    ensures { result ≡ is_there (gt_of (suc alts) value.now) }
{
    let slash = kv_text::field_end(value, 0, b'/');
    if value.len() <= slash {
        return false;
    }
    let end = kv_text::field_end(value, slash + 1, b'/');
    if end < value.len() {
        return false;
    }
    let Some(low) = kv_text::read_number(tables::part(value, 0, slash)) else {
        return false;
    };
    let Some(high) = kv_text::read_number(tables::part(value, slash + 1, end)) else {
        return false;
    };
    is_pair(low, high, alts)
}

// Where the line of a GT ends.
fn gt_line(s: &[u8], at: usize, alts: usize) -> Option<usize>
    ensures { GtRead s.now at alts result }
{
    let line = kv_text::value_line(s, at, b"gt=")?;
    let value = tables::part(s, line.at, line.end);
    if kv_text::same_bytes(value, b".") {
        return Some(line.end);
    }
    if is_gt(value, alts) {
        return Some(line.end);
    }
    None
}

// The list of numbers in the line at an offset: where it stands and how many it has. The numbers go nowhere.
pub fn part_line(s: &[u8], at: usize, key: &[u8]) -> Option<NumbersPart>
    ensures { LineReads s.now at key.now (or_missing number_list) (part_found s.now result) × PartCounted s.now result }
{
    let mut room = [0u32; 1];
    site_groups::part_line(s, at, key, &mut room[..0])
}

// The six lines of a sample at an offset, in a record with so many ALTs. `next` of the values is where the next sample begins.
fn sample_lines(s: &[u8], at: usize, alts: usize) -> Option<SiteValues>
    ensures { SampleRead s.now at alts result }
{
    let e0 = gt_line(s, at, alts)?;
    let (gq, e1) = kv_text::optional_number_line(s, e0 + 1, b"gq=")?;
    let (dp, e2) = kv_text::optional_number_line(s, e1 + 1, b"dp=")?;
    let (mindp, e3) = kv_text::optional_number_line(s, e2 + 1, b"mindp=")?;
    let ad = part_line(s, e3 + 1, b"ad=")?;
    let pl = part_line(s, ad.end + 1, b"pl=")?;
    let next = pl.end + 1;
    Some(SiteValues {
        gq,
        dp,
        mindp,
        ad,
        pl,
        next,
    })
}

// ---- the lines of a record

// END in an `end` line, if one is given, and where the line ends.
fn end_line(s: &[u8], at: usize) -> Option<(Option<GenomePosition>, usize)>
    ensures { LineReads s.now at (key_of "end") (or_missing number) (end_found result) }
{
    let (number, e) = kv_text::optional_number_line(s, at, b"end=")?;
    let end = number.map(|n| GenomePosition::new_1based(n as u64));
    Some((end, e))
}

// The first five lines of a record group; END may be missing. `next` of the alleles is where the first sample begins.
#[derive(Clone, Copy)]
struct RecordHead {
    contig: Part,
    pos: GenomePosition,
    end: Option<GenomePosition>,
    alleles: SiteAlleles,
}

fn record_head(s: &[u8], at: usize) -> Option<RecordHead>
    ensures { HeadRead s.now at result }
{
    let contig = kv_text::name_line(s, at, b"contig=")?;
    let (pos, e1) = kv_text::number_line(s, contig.end + 1, b"pos=")?;
    let (end, e2) = end_line(s, e1 + 1)?;
    let refs = kv_text::value_line(s, e2 + 1, b"ref=")?;
    let alts = kv_text::value_line(s, refs.end + 1, b"alt=")?;
    let next = alts.end + 1;
    Some(RecordHead {
        contig,
        pos: GenomePosition::new_1based(pos as u64),
        end,
        alleles: SiteAlleles { refs, alts, next },
    })
}

// Whether some sample has PL, given whether one before has it and how many numbers this one's has.
fn some_pl(before: bool, pl: usize) -> bool
    ensures { result ≡ before || ltb 0 pl }
{
    before || 0 < pl
}

// Whether a list is missing, which has 0 numbers, or has as many as it should.
fn missing_or(count: usize, size: usize) -> bool
    ensures { result ≡ (eqb count 0 || eqb count size) }
{
    count == 0 || count == size
}

// Row 8, for REF and fewer than 16 ALTs, given whether it let those before through: n(n+1)/2 numbers in PL and n in AD.
pub fn counts_fit(before: bool, alts: usize, pl: usize, ad: usize) -> bool
    ensures { result ≡ before && (ltb alts 16 && ((eqb pl 0 || eqb pl (genotype_count (suc alts))) && (eqb ad 0 || eqb ad (suc alts)))) }
{
    if !before {
        return false;
    }
    if 16 <= alts {
        return false;
    }
    let n = alts + 1;
    let genotypes = n * (n + 1) / 2;
    if !missing_or(pl, genotypes) {
        return false;
    }
    missing_or(ad, n)
}

// What the samples of a record say together: whether some has PL, whether AD and PL of each have as many numbers as they should
// for at most 16 alleles, and where the next group begins.
#[derive(Clone, Copy)]
struct SamplesRead {
    has_pl: bool,
    fit: bool,
    next: usize,
}

// The lines of the record group at an offset: a row of the table for each sample. (Nobody reads the sample, the start and the end of a row.)
fn record_text(
    s: &[u8],
    at: usize,
    samples: usize,
    rows: &mut [usize],
) -> Option<(RecordHead, SamplesRead)>
    requires { samples * row_length ≤ length rows.old }
    ensures { TextRead s.now at samples rows.old rows.new result }
{
    let head = record_head(s, at)?;
    let alleles = head.alleles;
    let alts = kv_text::count_fields(tables::part(s, alleles.alts.at, alleles.alts.end), b',');
    let mut next = alleles.next;
    let place = SitePlace {
        sample: SampleIndex::new(0),
        contig: head.contig,
        start: head.pos,
        end: head.pos,
        next,
    };
    let mut has_pl = false;
    let mut fit = true;
    // `i` is the row that is stored
    for i in 0..samples {
        let values = sample_lines(s, next, alts)?;
        cohort::put_site(rows, i, place, 0, alleles, values, false);
        has_pl = some_pl(has_pl, values.pl.count);
        fit = counts_fit(fit, alts, values.pl.count, values.ad.count);
        next = values.next;
    }
    Some((head, SamplesRead { has_pl, fit, next }))
}

// ---- rows 4 to 8

// What the record before this one left: its contig and its last position.
#[derive(Clone, Copy)]
pub struct PreviousRecord {
    pub contig: Part,
    pub end: GenomePosition,
}

// Row 4: whether a record at this position of this contig comes after the one before it, if there is one.
pub fn comes_after(
    s: &[u8],
    previous: Option<PreviousRecord>,
    contig: &[u8],
    pos: GenomePosition,
) -> bool
    ensures { result ≡ comes_after_last s.now previous contig.now pos.0 }
{
    let Some(last) = previous else {
        return true;
    };
    let name = tables::part(s, last.contig.at, last.contig.end);
    match kv_text::compare_bytes(name, contig) {
        Ordering::Less => true,
        Ordering::Equal => last.end.get() < pos.get(),
        Ordering::Greater => false,
    }
}

// Row 4: END, if there is one, is past POS.
fn end_past(pos: GenomePosition, end: Option<GenomePosition>) -> bool
    ensures { result ≡ missing_or (ltb pos.0) (end_option end) }
{
    match end {
        Some(last) => pos.get() < last.get(),
        None => true,
    }
}

// Row 7: an END only for a block, which has two alleles and one letter in REF.
fn end_allowed(end: Option<GenomePosition>, alleles: usize, letters: usize) -> bool
    ensures { result ≡ not (is_there (end_option end)) || (eqb alleles 2 && eqb letters 1) }
{
    match end {
        Some(_) => alleles == 2 && letters == 1,
        None => true,
    }
}

// Rows 4 to 8 of a record whose lines are spelled right: the lowest that applies decides. How many alleles there are.
fn check_record(
    s: &[u8],
    head: RecordHead,
    previous: Option<PreviousRecord>,
    fit: bool,
) -> Result<usize, Refusal>
    ensures { RecordChecked s.now head previous fit result }
{
    let pos = head.pos;
    let end = head.end;
    if pos.get() < 1 {
        return Err(Refusal::Position);
    }
    if !end_past(pos, end) {
        return Err(Refusal::Position);
    }
    let contig = tables::part(s, head.contig.at, head.contig.end);
    if !comes_after(s, previous, contig, pos) {
        return Err(Refusal::Position);
    }
    let reference = tables::part(s, head.alleles.refs.at, head.alleles.refs.end);
    let alts = tables::part(s, head.alleles.alts.at, head.alleles.alts.end);
    let read = alleles::check_alleles(reference, alts, 255, 16).ok_or(Refusal::Alleles)?;
    if !read.has_non_ref {
        return Err(Refusal::NonRefAbsent);
    }
    let n = read.count;
    if !end_allowed(end, n, reference.len()) {
        return Err(Refusal::End);
    }
    if !fit {
        return Err(Refusal::Counts);
    }
    Ok(n)
}

// ---- the record

// A record of the list: where its contig and its alleles stand, POS, END if it is given, how many alleles it has with REF,
// whether some sample has PL, and where the next group begins.
#[derive(Clone, Copy)]
pub struct RecordPlace {
    pub contig: Part,
    pub pos: GenomePosition,
    pub end: Option<GenomePosition>,
    pub alleles: SiteAlleles,
    pub count: usize,
    pub has_pl: bool,
    pub next: usize,
}

// The record group at an offset, of a list with so many samples, after the record before it; what stands in the table after a refusal
// is open.
fn read_record(
    s: &[u8],
    at: usize,
    samples: usize,
    previous: Option<PreviousRecord>,
    rows: &mut [usize],
) -> Result<RecordPlace, Refusal>
    requires { samples * row_length ≤ length rows.old }
    ensures { RecordFound s.now at samples previous rows.old rows.new result }
{
    let (head, read) = record_text(s, at, samples, rows).ok_or(Refusal::Spelling)?;
    let count = check_record(s, head, previous, read.fit)?;
    Ok(RecordPlace {
        contig: head.contig,
        pos: head.pos,
        end: head.end,
        alleles: head.alleles,
        count,
        has_pl: read.has_pl,
        next: read.next,
    })
}

// The record group at an offset, of a list with so many samples, after the record before it: a row of the table for each sample,
// with GQ, DP, MIN_DP, AD and PL, and behind them the table as it was; or the row, 1 to 8, that refuses it, and a table of zeros. Asks that the
// table has a row for each sample.
pub fn record_at(
    s: &[u8],
    at: usize,
    samples: usize,
    previous: Option<PreviousRecord>,
    rows: &mut [usize],
) -> Result<RecordPlace, Refusal>
    requires { samples * row_length ≤ length rows.old }
    ensures { RecordRead s.now at samples previous rows.old rows.new result }
{
    let read = read_record(s, at, samples, previous, rows);
    if read.is_err() {
        slices::clear(rows, 0);
    }
    read
}
