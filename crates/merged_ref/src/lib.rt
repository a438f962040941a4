// REF of the record at a position, from the sites found over it, numbers of a table's rows in the order of samples. The answer says
// where REF stands, by offsets of the texts; `ref_bytes` hands on the part of the text, as spelled there. Nothing is copied. Letters
// are compared in either case.
#![tactic(auto)]

ghost use Rattle.std.specs.Prelude.{drop, take, [], ◌∷◌, map, ◌≡◌};
ghost use Rattle.answers.specs.Options.{option_of};
ghost use Rattle.clip_and_reference.specs.Groups.{segments_placed};
ghost use Rattle.definitions.specs.Alleles.{capital};
ghost use Rattle.definitions.specs.Bytes.{is_prefix};
ghost use Rattle.definitions.specs.Lists.{all_of, only_if};
ghost use Rattle.definitions.specs.MergedRef.{merged_ref, ref_letter};
ghost use Rattle.indexed_groups.specs.Indexed.{placed_at};
ghost use Rattle.merged_ref.specs.Answers.{letter_bytes, letter_place, longer_site, longest_site, part_or, placed_by, placed_in, reached_offset, reached_place, ref_answer, ref_or, ref_or_none, reference_placed, reference_segments, sites_at, starting_refs};

use answers::Refusal;
use bio_ids::GenomePosition;
use kv_text::Part;

// ---- the reference letter

// The letter that a segment gives whose contig's name and bases stand in these parts of the reference, if it is on the contig and has one
// at the position. It is tried for row after row, and a call for each takes a third longer.
#[inline(always)]
fn letter_in(
    reference: &[u8],
    name: Part,
    first: GenomePosition,
    bases: Part,
    contig: &[u8],
    position: GenomePosition,
) -> Option<usize>
    ensures { option_of result ≡ letter_place contig.now position.0
        (placed_by reference.now name.at name.end first.0 bases.at bases.end ∷ []) }
{
    let own = tables::part(reference, name.at, name.end);
    if !kv_text::same_bytes(contig, own) {
        return None;
    }
    let wanted = position.get();
    let from = first.get();
    if wanted < from {
        return None;
    }
    let index = wanted - from;
    let letters = tables::part(reference, bases.at, bases.end);
    if letters.len() as u64 <= index {
        return None;
    }
    Some(bases.at + index as usize)
}

// The letter that the segment with this row gives, if it is on the contig and has one at the position.
fn letter_in_row(
    reference: &[u8],
    rows: &[usize],
    segment: usize,
    contig: &[u8],
    position: GenomePosition,
) -> Option<usize>
    ensures { option_of result ≡ letter_place contig.now position.0
        (placed_at reference.now rows.now segment ∷ []) }
{
    let name = Part {
        at: tables::segment_column(rows, segment, 0),
        end: tables::segment_column(rows, segment, 1),
    };
    let first = tables::segment_column(rows, segment, 2);
    let bases = Part {
        at: tables::segment_column(rows, segment, 3),
        end: tables::segment_column(rows, segment, 4),
    };
    letter_in(
        reference,
        name,
        GenomePosition::new_1based(first as u64),
        bases,
        contig,
        position,
    )
}

// The letter at the position that the first segment with a row gives that holds it.
fn letter_in_rows(
    reference: &[u8],
    rows: &[usize],
    contig: &[u8],
    position: GenomePosition,
) -> Option<usize>
    ensures { option_of result ≡ letter_place contig.now position.0
        (placed_in reference.now rows.now) }
{
    let count = tables::segment_count(rows);
    // the rows are read by their numbers, and the count is no slice's length
    for segment in 0..count {
        let letter = letter_in_row(reference, rows, segment, contig, position);
        if letter.is_some() {
            return letter;
        }
    }
    None
}

// The letter at the position that the first group from an offset on gives that holds it, up to the first faulty one.
fn letter_from(
    reference: &[u8],
    from: usize,
    contig: &[u8],
    position: GenomePosition,
) -> Option<usize>
    ensures { option_of result ≡ letter_place contig.now position.0 (segments_placed reference.now from) }
{
    let mut at = from;
    // a group says where the next begins
    while at < reference.len() {
        let group = clip_and_reference::segment_at(reference, at)?;
        let letter = letter_in(
            reference,
            group.contig,
            group.first,
            group.bases,
            contig,
            position,
        );
        if letter.is_some() {
            return letter;
        }
        at = group.next;
    }
    None
}

// The letter at the position that the first segment gives that holds it: of those with rows, and of the groups behind them.
pub fn find_letter(
    reference: &[u8],
    rows: &[usize],
    contig: &[u8],
    position: GenomePosition,
) -> Option<usize>
    ensures { option_of result ≡ letter_place contig.now position.0
        (reference_placed reference.now rows.now) }
{
    match letter_in_rows(reference, rows, contig, position) {
        Some(i) => Some(i),
        None => letter_from(reference, tables::segments_next(rows), contig, position),
    }
}

// ---- the sites that start at the position

// The site with the longest REF of those that start at the position, with one more site in front.
fn longer_ref(
    s: &[u8],
    rows: &[usize],
    site: usize,
    position: GenomePosition,
    best: Option<usize>,
) -> Option<usize>
    ensures { result ≡ longer_site s.now rows.now position.0 site best }
{
    if tables::start_of(rows, site).get() != position.get() {
        return best;
    }
    let Some(other) = best else {
        return Some(site);
    };
    let mine = tables::reference_allele(s, rows, site);
    let longest = tables::reference_allele(s, rows, other);
    if longest.len() < mine.len() {
        return Some(site);
    }
    best
}

// Of the found sites that start at the position, one with the longest REF: of equally long ones the last.
pub fn longest_ref(
    s: &[u8],
    rows: &[usize],
    found: &[usize],
    position: GenomePosition,
) -> Option<usize>
    ensures { result ≡ longest_site s.now rows.now position.0 found.now }
{
    let mut best = None;
    for site in found.iter().rev() {
        best = longer_ref(s, rows, *site, position, best);
    }
    best
}

// Whether letters begin with others, in either case.
fn is_prefix(p: &[u8], s: &[u8]) -> bool
    ensures { result ≡ is_prefix (map capital p.now) (map capital s.now) }
{
    let front = tables::part(s, 0, p.len());
    kv_text::same_letters(p, front)
}

// Whether a site starts elsewhere, or its REF is a prefix of the longest.
fn ref_agrees(
    s: &[u8],
    rows: &[usize],
    site: usize,
    position: GenomePosition,
    longest: &[u8],
) -> bool
    ensures { result ≡ all_of (λ ref. is_prefix ref (map capital longest.now)) (starting_refs position.0 (sites_at s.now rows.now (site ∷ []))) }
{
    if tables::start_of(rows, site).get() != position.get() {
        return true;
    }
    let mine = tables::reference_allele(s, rows, site);
    is_prefix(mine, longest)
}

// Whether the REF of each found site that starts at the position is a prefix of the longest.
pub fn refs_agree(
    s: &[u8],
    rows: &[usize],
    found: &[usize],
    position: GenomePosition,
    longest: &[u8],
) -> bool
    ensures { result ≡ all_of (λ ref. is_prefix ref (map capital longest.now)) (starting_refs position.0 (sites_at s.now rows.now found.now)) }
{
    found
        .iter()
        .all(|site| ref_agrees(s, rows, *site, position, longest))
}

// ---- the letter of the sites' own REFs

// The letter that a site's REF has at the position, by its offset in the cohort text, if REF reaches the position.
fn site_letter(s: &[u8], rows: &[usize], site: usize, position: GenomePosition) -> Option<usize>
    ensures { option_of result ≡ reached_offset s.now rows.now position.0 site }
{
    let start = tables::start_of(rows, site);
    let index = position.get().saturating_sub(start.get());
    let allele = tables::reference_allele(s, rows, site);
    if allele.len() as u64 <= index {
        return None;
    }
    let from = tables::reference_allele_from(rows, site);
    let at = from + index as usize;
    Some(at)
}

// That of the first found site whose REF reaches the position.
fn reached_letter(
    s: &[u8],
    rows: &[usize],
    found: &[usize],
    position: GenomePosition,
) -> Option<usize>
    ensures { option_of result ≡ reached_place s.now rows.now position.0 found.now }
{
    for site in found {
        let letter = site_letter(s, rows, *site, position);
        if letter.is_some() {
            return letter;
        }
    }
    None
}

// ---- REF

// Where a letter stands: at an offset of the reference text, or of the cohort text; or nowhere, where no REF reaches the position.
// Three kinds side by side: an `Option` around two of them would be matched in two steps, and is no plainer.
#[derive(Clone, Copy)]
pub enum Place {
    Reference(usize),
    Cohort(usize),
    Nowhere,
}

// Where REF stands: in the cohort text, from an offset to before another, or it is a letter.
#[derive(Clone, Copy)]
pub enum RefAt {
    Allele(usize, usize),
    Letter(Place),
}

// The reference letter, or without a reference that of the first found site whose REF reaches the position. Row 11: the reference lacks
// the letter.
fn ref_letter(
    s: &[u8],
    rows: &[usize],
    found: &[usize],
    referenced: bool,
    reference: &[u8],
    contig: &[u8],
    position: GenomePosition,
) -> Result<RefAt, Refusal>
    ensures { ref_answer s.now reference.now result
        ≡ ref_letter (only_if referenced (reference_segments reference.now rows.now))
        contig.now position.0 (sites_at s.now rows.now found.now) }
{
    if referenced {
        return match find_letter(reference, rows, contig, position) {
            Some(i) => Ok(RefAt::Letter(Place::Reference(i))),
            None => Err(Refusal::ReferenceLetter),
        };
    }
    match reached_letter(s, rows, found, position) {
        Some(i) => Ok(RefAt::Letter(Place::Cohort(i))),
        None => Ok(RefAt::Letter(Place::Nowhere)),
    }
}

// REF of the record at a position. Row 12: a REF of the sites that start there is no prefix of the longest.
pub fn determine_reference_allele(
    s: &[u8],
    rows: &[usize],
    found: &[usize],
    referenced: bool,
    reference: &[u8],
    contig: &[u8],
    position: GenomePosition,
) -> Result<RefAt, Refusal>
    ensures { ref_answer s.now reference.now result
        ≡ merged_ref (only_if referenced (reference_segments reference.now rows.now))
        contig.now position.0 (sites_at s.now rows.now found.now) }
{
    let Some(site) = longest_ref(s, rows, found, position) else {
        return ref_letter(s, rows, found, referenced, reference, contig, position);
    };
    let from = tables::reference_allele_from(rows, site);
    let to = tables::reference_allele_to(rows, site);
    let bytes = tables::part(s, from, to);
    if refs_agree(s, rows, found, position, bytes) {
        return Ok(RefAt::Allele(from, to));
    }
    Err(Refusal::RefConflict)
}

// The one byte at an offset of a text; none past its end.
fn one_at<'a>(text: &'a [u8], i: usize) -> &'a [u8]
    ensures { result.now ≡ take 1 (drop i text.now) }
{
    if i < text.len() {
        return &text[i..i + 1];
    }
    &text[..0]
}

// A letter, as the part of the text that holds it: one byte, or none.
pub fn letter<'a>(reference: &'a [u8], cohort: &'a [u8], place: Place) -> &'a [u8]
    ensures { result.now ≡ letter_bytes reference.now cohort.now place }
{
    match place {
        Place::Reference(i) => one_at(reference, i),
        Place::Cohort(i) => one_at(cohort, i),
        Place::Nowhere => &cohort[..0],
    }
}

// A part, or another if it is empty.
fn part_or<'a>(part: &'a [u8], other: &'a [u8]) -> &'a [u8]
    ensures { result.now ≡ part_or other.now part.now }
{
    if part.len() == 0 {
        return other;
    }
    part
}

// REF, as the part of the text that holds it; `unknown` for a letter that stands nowhere.
fn ref_part<'a>(s: &'a [u8], reference: &'a [u8], unknown: &'a [u8], at: RefAt) -> &'a [u8]
    ensures { result.now ≡ ref_or unknown.now s.now reference.now at }
{
    match at {
        RefAt::Allele(from, to) => tables::part(s, from, to),
        RefAt::Letter(place) => part_or(letter(reference, s, place), unknown),
    }
}

// The same where it may be refused: none then. Callers lend `N` for a letter that stands nowhere.
pub fn ref_bytes<'a>(
    s: &'a [u8],
    reference: &'a [u8],
    unknown: &'a [u8],
    at: Option<RefAt>,
) -> &'a [u8]
    ensures { result.now ≡ ref_or_none unknown.now s.now reference.now at }
{
    match at {
        Some(at) => ref_part(s, reference, unknown, at),
        None => &s[..0],
    }
}
