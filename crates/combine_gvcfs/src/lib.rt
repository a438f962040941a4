// The texts of a call, the tables that they are read into, and the library's entry.
#![tactic(auto)]

ghost use Rattle.std.specs.Prelude.{leb, length, ◌&&◌, ◌≡◌};
ghost use Rattle.definitions.specs.Checked.{is_accepted};
ghost use Rattle.definitions.specs.ClipAndReference.{optional_groups, segment_of, span_of};
ghost use Rattle.definitions.specs.CombinedList.{fits};
ghost use Rattle.definitions.specs.Lists.{missing_or, only_if};
ghost use Rattle.indexed_groups.specs.Indexed.{SegmentsGiven};
ghost use Rattle.combine_gvcfs.specs.Combined.{CohortHeld, Combined, IfGiven, ReadTo, TablesFit, TablesWhole, TextsAnswered, TextsFit, TriedWith, at_most, texts_of, texts_short};

use answers::{LoadError, Refusal};
use cohort::CohortSize;

// Whether a text, if it is given, has at most so many bytes.
fn has_at_most(given: bool, text: &[u8], most: usize) -> bool
    ensures { result ≡ at_most most (only_if given text.now) }
{
    !given || text.len() <= most
}

// Whether a text, if it is given, is short enough.
fn is_short(given: bool, text: &[u8]) -> bool
    ensures { result ≡ missing_or fits (only_if given text.now) }
{
    has_at_most(given, text, 16777216)
}

// Whether no text is too long: row 2.
pub fn all_short(
    cohort: &[u8],
    clipped: bool,
    clip: &[u8],
    referenced: bool,
    reference: &[u8],
) -> bool
    ensures { result ≡ texts_short cohort.now clipped clip.now referenced reference.now }
{
    is_short(true, cohort) && is_short(clipped, clip) && is_short(referenced, reference)
}

// Whether the clip, if it is lent, is in order.
fn clip_in_order(clipped: bool, clip: &[u8]) -> bool
    ensures { result ≡ is_accepted (optional_groups span_of (only_if clipped clip.now)) }
{
    !clipped || clip_and_reference::check_clip(clip)
}

// Whether the reference, if it is lent, is in order.
fn reference_in_order(referenced: bool, reference: &[u8]) -> bool
    ensures { result ≡ is_accepted (optional_groups segment_of (only_if referenced reference.now)) }
{
    !referenced || clip_and_reference::check_reference(reference)
}

// Gives the first segments of the reference, if there is one, their rows in the table.
fn index_reference(referenced: bool, reference: &[u8], rows: &mut [usize])
    ensures { IfGiven referenced (SegmentsGiven reference.now rows.old rows.new) rows.old rows.new }
{
    if !referenced {
        return;
    }
    indexed_groups::index_segments(reference, rows);
}

// Reads clip and reference, which are short enough, behind a cohort that the tables hold: row 9.
fn read_clip_and_reference(
    s: &[u8],
    names: &[usize],
    rows: &mut [usize],
    size: CohortSize,
    clipped: bool,
    clip: &[u8],
    referenced: bool,
    reference: &[u8],
) -> Result<CohortSize, LoadError>
    requires { CohortHeld s.now names.now rows.old size.samples size.sites clipped clip.now referenced reference.now }
    ensures { ReadTo s.now clipped clip.now referenced reference.now names.now rows.new (length rows.old) result }
{
    if !clip_in_order(clipped, clip) {
        return Err(LoadError::Refused(Refusal::ClipOrReference));
    }
    if !reference_in_order(referenced, reference) {
        return Err(LoadError::Refused(Refusal::ClipOrReference));
    }
    index_reference(referenced, reference, rows);
    Ok(size)
}

// Reads texts that are short enough into tables: rows 1 to 9. Where they are refused or have no room, what the tables hold is open.
pub fn read_texts(
    cohort: &[u8],
    clipped: bool,
    clip: &[u8],
    referenced: bool,
    reference: &[u8],
    names: &mut [usize],
    rows: &mut [usize],
) -> Result<CohortSize, LoadError>
    requires { TextsFit cohort.now clipped clip.now referenced reference.now × TablesWhole names.old rows.old }
    ensures { ReadTo cohort.now clipped clip.now referenced reference.now names.new rows.new (length rows.old) result }
{
    let size = cohort::read_cohort(cohort, names, rows)?;
    read_clip_and_reference(
        cohort, names, rows, size, clipped, clip, referenced, reference,
    )
}

// Writes the list of texts that are short enough, by way of these tables: rows 1 to 14.
fn combine_with<'a>(
    cohort: &'a [u8],
    clipped: bool,
    clip: &[u8],
    referenced: bool,
    reference: &'a [u8],
    names: &mut [usize],
    rows: &mut [usize],
    order: &mut [u64],
    firsts: &mut [usize],
    chosen: &mut [usize],
    scratch: &mut [u64],
    out: &mut [u8],
) -> Result<usize, LoadError>
    requires { TextsFit cohort.now clipped clip.now referenced reference.now × TablesFit names.old rows.old order.old firsts.old chosen.old }
    ensures { TriedWith (texts_of cohort.now clipped clip.now referenced reference.now) (length scratch.old) out.old out.new (length rows.old) result }
{
    let size = read_texts(cohort, clipped, clip, referenced, reference, names, rows)?;
    let written = combined_list::combine_loaded_gvcfs(
        cohort,
        names,
        rows,
        size.samples,
        size.sites,
        clipped,
        clip,
        referenced,
        reference,
        order,
        firsts,
        chosen,
        scratch,
        out,
    )?;
    Ok(written)
}

// The same with tables for 64 sites, which cost least to clear.
fn combine_tiny<'a>(
    cohort: &'a [u8],
    clipped: bool,
    clip: &[u8],
    referenced: bool,
    reference: &'a [u8],
    scratch: &mut [u64],
    out: &mut [u8],
) -> Result<usize, LoadError>
    requires { TextsFit cohort.now clipped clip.now referenced reference.now }
    ensures { TriedWith (texts_of cohort.now clipped clip.now referenced reference.now) (length scratch.old) out.old out.new 1408 result }
{
    let mut names = [0usize; 128];
    let mut rows = [0usize; 1408];
    let mut order = [0u64; 64];
    let mut firsts = [0usize; 64];
    let mut chosen = [0usize; 64];
    combine_with(
        cohort,
        clipped,
        clip,
        referenced,
        reference,
        &mut names,
        &mut rows,
        &mut order,
        &mut firsts,
        &mut chosen,
        scratch,
        out,
    )
}

// The same with tables for 256 sites.
fn combine_short<'a>(
    cohort: &'a [u8],
    clipped: bool,
    clip: &[u8],
    referenced: bool,
    reference: &'a [u8],
    scratch: &mut [u64],
    out: &mut [u8],
) -> Result<usize, LoadError>
    requires { TextsFit cohort.now clipped clip.now referenced reference.now }
    ensures { TriedWith (texts_of cohort.now clipped clip.now referenced reference.now) (length scratch.old) out.old out.new 5632 result }
{
    let mut names = [0usize; 128];
    let mut rows = [0usize; 5632];
    let mut order = [0u64; 256];
    let mut firsts = [0usize; 256];
    let mut chosen = [0usize; 256];
    combine_with(
        cohort,
        clipped,
        clip,
        referenced,
        reference,
        &mut names,
        &mut rows,
        &mut order,
        &mut firsts,
        &mut chosen,
        scratch,
        out,
    )
}

// Writes the list of texts that are short enough, with tables for 4,096 sites and for reference segments: rows 1 to 14.
fn combine_long<'a>(
    cohort: &'a [u8],
    clipped: bool,
    clip: &[u8],
    referenced: bool,
    reference: &'a [u8],
    scratch: &mut [u64],
    out: &mut [u8],
) -> Result<usize, Refusal>
    requires { TextsFit cohort.now clipped clip.now referenced reference.now }
    ensures { TextsAnswered (texts_of cohort.now clipped clip.now referenced reference.now) (length scratch.old) out.old out.new result }
{
    let mut names = [0usize; 128];
    let mut rows = [0usize; 95234];
    let mut order = [0u64; 4096];
    let mut firsts = [0usize; 4096];
    let mut chosen = [0usize; 4096];
    let tried = combine_with(
        cohort,
        clipped,
        clip,
        referenced,
        reference,
        &mut names,
        &mut rows,
        &mut order,
        &mut firsts,
        &mut chosen,
        scratch,
        out,
    );
    match tried {
        Ok(written) => Ok(written),
        Err(error) => match error {
            LoadError::Refused(refusal) => Err(refusal),
            LoadError::NoRoom => Err(Refusal::Size),
        },
    }
}

// Whether cohort and reference are so short that small tables are tried first. What is answered here changes no list.
fn is_small(cohort: &[u8], referenced: bool, reference: &[u8]) -> bool
    ensures { result ≡ leb (length cohort.now) 19968 && at_most 1024 (only_if referenced reference.now) }
{
    cohort.len() <= 19968 && has_at_most(referenced, reference, 1024)
}

// Writes the list of short texts by way of small tables: a site group has at least 78 bytes, so 4,992 bytes hold at most 64, and
// 19,968 at most 256. For other texts they have no room.
fn combine_small<'a>(
    cohort: &'a [u8],
    clipped: bool,
    clip: &[u8],
    referenced: bool,
    reference: &'a [u8],
    scratch: &mut [u64],
    out: &mut [u8],
) -> Result<usize, LoadError>
    requires { TextsFit cohort.now clipped clip.now referenced reference.now }
    ensures { TriedWith (texts_of cohort.now clipped clip.now referenced reference.now) (length scratch.old) out.old out.new 5632 result }
{
    if !is_small(cohort, referenced, reference) {
        return Err(LoadError::NoRoom);
    }
    if cohort.len() <= 4992 {
        return combine_tiny(cohort, clipped, clip, referenced, reference, scratch, out);
    }
    combine_short(cohort, clipped, clip, referenced, reference, scratch, out)
}

// Writes the list of texts that are short enough: rows 1 to 14. If no small tables have room the others are taken.
fn combine_fitting<'a>(
    cohort: &'a [u8],
    clipped: bool,
    clip: &[u8],
    referenced: bool,
    reference: &'a [u8],
    scratch: &mut [u64],
    out: &mut [u8],
) -> Result<usize, Refusal>
    requires { TextsFit cohort.now clipped clip.now referenced reference.now }
    ensures { TextsAnswered (texts_of cohort.now clipped clip.now referenced reference.now) (length scratch.old) out.old out.new result }
{
    let tried = combine_small(cohort, clipped, clip, referenced, reference, scratch, out);
    match tried {
        Ok(written) => Ok(written),
        Err(error) => match error {
            LoadError::Refused(refusal) => Err(refusal),
            LoadError::NoRoom => {
                combine_long(cohort, clipped, clip, referenced, reference, scratch, out)
            }
        },
    }
}

// Writes the combined list of the texts: rows 1 to 14.
fn combine_texts<'a>(
    cohort: &'a [u8],
    clipped: bool,
    clip: &[u8],
    referenced: bool,
    reference: &'a [u8],
    scratch: &mut [u64],
    out: &mut [u8],
) -> Result<usize, Refusal>
    ensures { TextsAnswered (texts_of cohort.now clipped clip.now referenced reference.now) (length scratch.old) out.old out.new result }
{
    if !all_short(cohort, clipped, clip, referenced, reference) {
        return Err(Refusal::Size);
    }
    combine_fitting(cohort, clipped, clip, referenced, reference, scratch, out)
}

// The library's entry: writes the combined list of cohort.kv, of clip.kv if it is lent, and of reference.kv if it is lent. A text that
// is not lent is not looked at. The answer is the list's length, or the row that refuses it, and then `out` is as it was. Scratch,
// which takes breakpoints of a contig, is zero at the end; one place gives the list of any number.
pub fn combine<'a>(
    cohort: &'a [u8],
    clipped: bool,
    clip: &[u8],
    referenced: bool,
    reference: &'a [u8],
    scratch: &mut [u64],
    out: &mut [u8],
) -> Result<usize, Refusal>
    ensures { Combined (texts_of cohort.now clipped clip.now referenced reference.now) scratch.old scratch.new out.old out.new result }
{
    let outcome = combine_texts(cohort, clipped, clip, referenced, reference, scratch, out);
    slices::clear(scratch, 0);
    outcome
}
