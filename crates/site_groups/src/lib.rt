// The site groups of cohort.kv.
#![tactic(auto)]

ghost use Rattle.std.specs.Prelude.{◌≡◌, ◌&&◌, ◌||◌, cond, eqb, leb};
ghost use Rattle.definitions.specs.Alleles.{genotype_count};
ghost use Rattle.definitions.specs.Answers.{scratch_after};
ghost use Rattle.definitions.specs.Numbers.{number_list, or_missing};
ghost use Rattle.kv_text.specs.Lines.{LineReads};
ghost use Rattle.site_groups.specs.SiteGroups.{AlleleLinesRead, NumbersFound, NumbersStored, PartCounted, PartStored, PlaceRead, SiteChecked, SiteRead, TextRead, TextStored, ValuesRead, ValuesStored, part_found};

use answers::Refusal;
use bio_ids::{GenomePosition, SampleIndex};
use kv_text::{ListStart, Part};

// A list of numbers in the text: where it stands, to its line's LF, and how many numbers it has; a missing one is empty and has none.
#[derive(Clone, Copy)]
pub struct NumbersPart {
    pub at: usize,
    pub end: usize,
    pub count: usize,
}

// The list of numbers in the line at an offset; its numbers, as many as fit, into a slice.
pub fn part_line(s: &[u8], at: usize, key: &[u8], out: &mut [u32]) -> Option<NumbersPart>
    ensures { LineReads s.now at key.now (or_missing number_list) (part_found s.now result) × PartCounted s.now result × PartStored s.now at key.now out.old out.new result }
{
    let (list, end) = kv_text::optional_numbers_line(s, at, key, out)?;
    let start = list.unwrap_or(ListStart { at: end, count: 0 });
    Some(NumbersPart {
        at: start.at,
        end,
        count: start.count,
    })
}

// The first four lines of a site group: sample number, contig, start and end. `next` is where the fifth line begins.
#[derive(Clone, Copy)]
pub struct SitePlace {
    pub sample: SampleIndex,
    pub contig: Part,
    pub start: GenomePosition,
    pub end: GenomePosition,
    pub next: usize,
}

// The numbers as they stand in the lines; rows 3 and 4 are `check_site`'s.
fn site_place(s: &[u8], at: usize) -> Option<SitePlace>
    ensures { PlaceRead s.now at result }
{
    let (sample, e0) = kv_text::number_line(s, at, b"site=")?;
    let contig = kv_text::name_line(s, e0 + 1, b"contig=")?;
    let (start, e2) = kv_text::number_line(s, contig.end + 1, b"start=")?;
    let (end, e3) = kv_text::number_line(s, e2 + 1, b"end=")?;
    Some(SitePlace {
        sample: SampleIndex::new(sample as usize),
        contig,
        start: GenomePosition::new_1based(start as u64),
        end: GenomePosition::new_1based(end as u64),
        next: e3 + 1,
    })
}

// The fifth and sixth line: REF and the ALTs. `next` is where the seventh line begins.
#[derive(Clone, Copy)]
pub struct SiteAlleles {
    pub refs: Part,
    pub alts: Part,
    pub next: usize,
}

fn site_alleles(s: &[u8], at: usize) -> Option<SiteAlleles>
    ensures { AlleleLinesRead s.now at result }
{
    let refs = kv_text::value_line(s, at, b"ref=")?;
    let alts = kv_text::value_line(s, refs.end + 1, b"alt=")?;
    let next = alts.end + 1;
    Some(SiteAlleles { refs, alts, next })
}

// The last five lines: GQ, DP, MIN_DP, AD and PL. `next` is where the next group begins.
#[derive(Clone, Copy)]
pub struct SiteValues {
    pub gq: Option<u32>,
    pub dp: Option<u32>,
    pub mindp: Option<u32>,
    pub ad: NumbersPart,
    pub pl: NumbersPart,
    pub next: usize,
}

fn site_values(s: &[u8], at: usize, ad: &mut [u32], pl: &mut [u32]) -> Option<SiteValues>
    ensures { ValuesRead s.now at result × ValuesStored s.now ad.old ad.new pl.old pl.new result }
{
    let (gq, e6) = kv_text::optional_number_line(s, at, b"gq=")?;
    let (dp, e7) = kv_text::optional_number_line(s, e6 + 1, b"dp=")?;
    let (mindp, e8) = kv_text::optional_number_line(s, e7 + 1, b"mindp=")?;
    let depths = part_line(s, e8 + 1, b"ad=", ad)?;
    let likelihoods = part_line(s, depths.end + 1, b"pl=", pl)?;
    Some(SiteValues {
        gq,
        dp,
        mindp,
        ad: depths,
        pl: likelihoods,
        next: likelihoods.end + 1,
    })
}

// The eleven lines of a site group.
#[derive(Clone, Copy)]
struct SiteParts {
    place: SitePlace,
    alleles: SiteAlleles,
    values: SiteValues,
}

// The site group at an offset, by its lines, if they are spelled right, with the numbers of AD and PL. Of lines that are not, some
// numbers stand in the slices, which `site_at` clears.
fn site_text(s: &[u8], at: usize, ad: &mut [u32], pl: &mut [u32]) -> Option<SiteParts>
    ensures { TextRead s.now at result × TextStored s.now ad.old ad.new pl.old pl.new result }
{
    let place = site_place(s, at)?;
    let alleles = site_alleles(s, place.next)?;
    let values = site_values(s, alleles.next, ad, pl)?;
    Some(SiteParts {
        place,
        alleles,
        values,
    })
}

// Row 7, for so many alleles with `<NON_REF>`: a block has one letter, any other site as many letters as positions.
fn end_fits(alleles: usize, letters: usize, positions: usize) -> bool
    ensures { result ≡ cond (eqb alleles 2) (eqb letters 1) (eqb letters positions) }
{
    if alleles == 2 {
        return letters == 1;
    }
    letters == positions
}

// Row 8, for so many alleles: n(n+1)/2 numbers in PL and at most n in AD; 0 is a missing list.
fn counts_fit(alleles: u8, pl: usize, ad: usize) -> bool
    ensures { result ≡ (eqb pl 0 || eqb pl (genotype_count alleles)) && leb ad alleles }
{
    let n = alleles as usize;
    if n < ad {
        return false;
    }
    if pl == 0 {
        return true;
    }
    pl == n * (n + 1) / 2
}

// Rows 2 to 8 of a cohort with so many samples, after so many sites: the lowest that applies decides. A site whose lines are spelled right
// is a block or not.
fn check_site(
    s: &[u8],
    place: SitePlace,
    alleles: SiteAlleles,
    values: SiteValues,
    samples: usize,
    before: usize,
) -> Result<bool, Refusal>
    ensures { SiteChecked s.now place alleles values samples before result }
{
    if 4096 <= before {
        return Err(Refusal::Size);
    }
    if samples <= place.sample.get() {
        return Err(Refusal::Sample);
    }
    let start = place.start.get();
    if start < 1 {
        return Err(Refusal::Position);
    }
    let end = place.end.get();
    if end < start {
        return Err(Refusal::Position);
    }
    let reference = tables::part(s, alleles.refs.at, alleles.refs.end);
    let alts = tables::part(s, alleles.alts.at, alleles.alts.end);
    let read = alleles::check_alleles(reference, alts, 128, 8).ok_or(Refusal::Alleles)?;
    if !read.has_non_ref {
        return Err(Refusal::NonRefAbsent);
    }
    let positions = (end - start) as usize + 1;
    let n = read.count;
    if !end_fits(n, reference.len(), positions) {
        return Err(Refusal::End);
    }
    if !counts_fit(n as u8, values.pl.count, values.ad.count) {
        return Err(Refusal::Counts);
    }
    Ok(n == 2)
}

// A site of a cohort, by its lines, and whether it is a block.
#[derive(Clone, Copy)]
pub struct SiteGroup {
    pub place: SitePlace,
    pub alleles: SiteAlleles,
    pub values: SiteValues,
    pub block: bool,
}

// The site group at an offset, of a cohort with so many samples, after so many sites: rows 1 to 8. The numbers of AD and PL, as many
// as fit, into two slices; after a refusal some numbers stand there.
fn read_site(
    s: &[u8],
    at: usize,
    samples: usize,
    before: usize,
    ad: &mut [u32],
    pl: &mut [u32],
) -> Result<SiteGroup, Refusal>
    ensures { SiteRead s.now at samples before result × NumbersFound s.now ad.old ad.new pl.old pl.new result }
{
    let lines = site_text(s, at, ad, pl).ok_or(Refusal::Spelling)?;
    let block = check_site(s, lines.place, lines.alleles, lines.values, samples, before)?;
    Ok(SiteGroup {
        place: lines.place,
        alleles: lines.alleles,
        values: lines.values,
        block,
    })
}

// The same; a refusal clears both slices.
pub fn site_at(
    s: &[u8],
    at: usize,
    samples: usize,
    before: usize,
    ad: &mut [u32],
    pl: &mut [u32],
) -> Result<SiteGroup, Refusal>
    ensures { SiteRead s.now at samples before result × NumbersStored s.now ad.old ad.new pl.old pl.new result }
{
    let read = read_site(s, at, samples, before, ad, pl);
    if read.is_err() {
        slices::clear(ad, 0);
        slices::clear(pl, 0);
    }
    read
}
