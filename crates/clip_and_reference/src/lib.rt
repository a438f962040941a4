// The groups of clip.kv and reference.kv, found at an offset of the lent text: nothing of them is stored.
#![tactic(auto)]

ghost use Rattle.std.proofs.Math.Option.{some};
ghost use Rattle.std.specs.Prelude.{◌≡◌};
ghost use Rattle.definitions.specs.Alleles.{letters_of};
ghost use Rattle.definitions.specs.Checked.{is_accepted};
ghost use Rattle.definitions.specs.ClipAndReference.{optional_groups, segment_of, span_of};
ghost use Rattle.definitions.specs.Numbers.{max_number};
ghost use Rattle.kv_text.specs.Lines.{LineReads, Placed};
ghost use Rattle.clip_and_reference.specs.Groups.{SegmentRead, SpanRead, letters_found};

use bio_ids::{GenomeLoc, GenomePosition};
use kv_text::Part;

// ---- clip.kv

// A clip group: where its contig stands, its positions, and where the next group begins.
#[derive(Clone, Copy)]
pub struct ClipGroup {
    pub contig: Part,
    pub loc: GenomeLoc,
    pub next: usize,
}

// The clip group at an offset.
pub fn span_at(s: &[u8], at: usize) -> Option<ClipGroup>
    ensures { SpanRead s.now at result }
{
    let contig = kv_text::name_line(s, at, b"contig=")?;
    let (start, start_end) = kv_text::number_line(s, contig.end + 1, b"start=")?;
    let (end, end_end) = kv_text::number_line(s, start_end + 1, b"end=")?;
    if start < 1 {
        return None;
    }
    if end < start {
        return None;
    }
    let next = end_end + 1;
    let first = GenomePosition::new_1based(start as u64);
    let last = GenomePosition::new_1based(end as u64);
    let loc = GenomeLoc::new(first, last);
    Some(ClipGroup { contig, loc, next })
}

// Whether every group of clip.kv is in order. A group says where the next begins. `check_reference` is its twin: one function of both would
// take a closure, and a contract about what it may answer, in place of this loop.
pub fn check_clip(s: &[u8]) -> bool
    ensures { result ≡ is_accepted (optional_groups span_of (some s.now)) }
{
    let mut at = 0;
    // a group says where the next begins
    while at < s.len() {
        let Some(group) = span_at(s, at) else {
            return false;
        };
        at = group.next;
    }
    true
}

// ---- reference.kv

// The letters, in either case, in the line at an offset.
fn letters_line(s: &[u8], at: usize, key: &[u8]) -> Option<Part>
    ensures { LineReads s.now at key.now (letters_of max_number) (letters_found s.now result) × Placed at key.now result }
{
    let value = kv_text::value_line(s, at, key)?;
    if kv_text::is_letters(&s[value.at..value.end], 2147483647) {
        return Some(value);
    }
    None
}

// A reference group: where its contig stands, the position of its first letter, where its letters stand, and where the next group begins.
#[derive(Clone, Copy)]
pub struct ReferenceGroup {
    pub contig: Part,
    pub first: GenomePosition,
    pub bases: Part,
    pub next: usize,
}

// The reference group at an offset.
pub fn segment_at(s: &[u8], at: usize) -> Option<ReferenceGroup>
    ensures { SegmentRead s.now at result }
{
    let contig = kv_text::name_line(s, at, b"contig=")?;
    let (number, first_end) = kv_text::number_line(s, contig.end + 1, b"first=")?;
    let bases = letters_line(s, first_end + 1, b"bases=")?;
    if number < 1 {
        return None;
    }
    if 2147483648 < (number as usize) + (bases.end - bases.at) {
        return None;
    }
    let next = bases.end + 1;
    let first = GenomePosition::new_1based(number as u64);
    Some(ReferenceGroup {
        contig,
        first,
        bases,
        next,
    })
}

// Whether every group of reference.kv is in order.
pub fn check_reference(s: &[u8]) -> bool
    ensures { result ≡ is_accepted (optional_groups segment_of (some s.now)) }
{
    let mut at = 0;
    // a group says where the next begins; one function of both would take a closure, and a contract of what it answers: no plainer
    while at < s.len() {
        let Some(group) = segment_at(s, at) else {
            return false;
        };
        at = group.next;
    }
    true
}
