// A record group of a called list, read back by its lines: rows 1, 4, 5 and 8. Of the samples' data only where the PLs stand is kept.
#![tactic(auto)]

ghost use Rattle.std.specs.Prelude.{◌≡◌, ◌*◌, ◌≤◌, length};
ghost use Rattle.called_reader.specs.CalledGroups.{HeadRead, RecordChecked, RecordFound, RecordRead, SampleRead, TextRead};

use answers::Refusal;
use bio_ids::GenomePosition;
use kv_text::Part;
use list_reader::PreviousRecord;
use site_groups::{NumbersPart, SiteAlleles};

// ---- the lines of a sample

// Where AD and PL of a sample stand, and where the next sample begins.
#[derive(Clone, Copy)]
pub struct CalledValues {
    ad: NumbersPart,
    pl: NumbersPart,
    next: usize,
}

// The four lines of a sample at an offset.
fn sample_lines(s: &[u8], at: usize) -> Option<CalledValues>
    ensures { SampleRead s.now at result }
{
    let (_, e0) = kv_text::optional_number_line(s, at, b"gq=")?;
    let (_, e1) = kv_text::optional_number_line(s, e0 + 1, b"dp=")?;
    let ad = list_reader::part_line(s, e1 + 1, b"ad=")?;
    let pl = list_reader::part_line(s, ad.end + 1, b"pl=")?;
    let next = pl.end + 1;
    Some(CalledValues { ad, pl, next })
}

// ---- the lines of a record

// The first four lines of a record group. `next` of the alleles is where the first sample begins.
#[derive(Clone, Copy)]
pub struct CalledHead {
    contig: Part,
    pos: GenomePosition,
    alleles: SiteAlleles,
}

fn record_head(s: &[u8], at: usize) -> Option<CalledHead>
    ensures { HeadRead s.now at result }
{
    let contig = kv_text::name_line(s, at, b"contig=")?;
    let (pos, e1) = kv_text::number_line(s, contig.end + 1, b"pos=")?;
    let refs = kv_text::value_line(s, e1 + 1, b"ref=")?;
    let alts = kv_text::value_line(s, refs.end + 1, b"alt=")?;
    let next = alts.end + 1;
    Some(CalledHead {
        contig,
        pos: GenomePosition::new_1based(pos as u64),
        alleles: SiteAlleles { refs, alts, next },
    })
}

// What the samples of a record say together: whether AD and PL of each have as many numbers as they should for at most 16 alleles,
// and where the next group begins.
#[derive(Clone, Copy)]
struct SamplesRead {
    fit: bool,
    next: usize,
}

// The lines of the record group at an offset: two numbers of the table for each sample, where its PL begins and where it ends.
fn record_text(
    s: &[u8],
    at: usize,
    samples: usize,
    pls: &mut [usize],
) -> Option<(CalledHead, SamplesRead)>
    requires { 2 * samples ≤ length pls.old }
    ensures { TextRead s.now at samples pls.old pls.new result }
{
    let head = record_head(s, at)?;
    let alleles = head.alleles;
    let alts = kv_text::count_fields(tables::part(s, alleles.alts.at, alleles.alts.end), b',');
    let mut next = alleles.next;
    let mut fit = true;
    // `i` is the sample whose offsets are stored
    for i in 0..samples {
        let values = sample_lines(s, next)?;
        pls[2 * i] = values.pl.at;
        pls[2 * i + 1] = values.pl.end;
        fit = list_reader::counts_fit(fit, alts, values.pl.count, values.ad.count);
        next = values.next;
    }
    Some((head, SamplesRead { fit, next }))
}

// ---- rows 4, 5 and 8

// Rows 4, 5 and 8 of a record whose lines are spelled right: the lowest that applies decides. How many alleles there are.
fn check_record(
    s: &[u8],
    head: CalledHead,
    previous: Option<PreviousRecord>,
    fit: bool,
) -> Result<usize, Refusal>
    ensures { RecordChecked s.now head previous fit result }
{
    let pos = head.pos;
    if pos.get() < 1 {
        return Err(Refusal::Position);
    }
    let contig = tables::part(s, head.contig.at, head.contig.end);
    if !list_reader::comes_after(s, previous, contig, pos) {
        return Err(Refusal::Position);
    }
    let reference = tables::part(s, head.alleles.refs.at, head.alleles.refs.end);
    let alts = tables::part(s, head.alleles.alts.at, head.alleles.alts.end);
    let read = alleles::check_alleles(reference, alts, 255, 16).ok_or(Refusal::Alleles)?;
    if !fit {
        return Err(Refusal::Counts);
    }
    Ok(read.count)
}

// ---- the record

// A record of the list: where its contig and its alleles stand, POS, how many alleles it has with REF, and where the next group begins.
#[derive(Clone, Copy)]
pub struct CalledPlace {
    pub contig: Part,
    pub pos: GenomePosition,
    pub alleles: SiteAlleles,
    pub count: usize,
    pub next: usize,
}

// The record group at an offset, of a list with so many samples, after the record before it; what stands in the table after a refusal
// is open.
fn read_record(
    s: &[u8],
    at: usize,
    samples: usize,
    previous: Option<PreviousRecord>,
    pls: &mut [usize],
) -> Result<CalledPlace, Refusal>
    requires { 2 * samples ≤ length pls.old }
    ensures { RecordFound s.now at samples previous pls.old pls.new result }
{
    let (head, read) = record_text(s, at, samples, pls).ok_or(Refusal::Spelling)?;
    let count = check_record(s, head, previous, read.fit)?;
    Ok(CalledPlace {
        contig: head.contig,
        pos: head.pos,
        alleles: head.alleles,
        count,
        next: read.next,
    })
}

// The record group at an offset, of a list with so many samples, after the record before it: where each sample's PL begins and ends goes into
// the table, and behind these it is as it was; or the row, 1, 4, 5 or 8, that refuses the group, and a table of zeros. Asks that the table has
// two numbers for each sample.
pub fn record_at(
    s: &[u8],
    at: usize,
    samples: usize,
    previous: Option<PreviousRecord>,
    pls: &mut [usize],
) -> Result<CalledPlace, Refusal>
    requires { 2 * samples ≤ length pls.old }
    ensures { RecordRead s.now at samples previous pls.old pls.new result }
{
    let read = read_record(s, at, samples, previous, pls);
    if read.is_err() {
        slices::clear(pls, 0);
    }
    read
}
