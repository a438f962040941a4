// Records of a contig one after the other: a block record is held back until the next one does not join it (the Rust's
// `coalesce_homref_blocks`).
#![tactic(auto)]

ghost use Rattle.std.specs.Prelude.{take, ◌≡◌};
ghost use Rattle.std.proofs.lemmas.List.Edits.{sets};
ghost use Rattle.definitions.specs.Bytes.{same_bytes};
ghost use Rattle.kv_write.specs.Laid.{Laid};
ghost use Rattle.coalescing.specs.Held.{PendingFits, held_after, joined_to, joins_pending, pending_bytes, pending_count};
ghost use Rattle.coalescing.specs.Steps.{BlockReady, block_lays, block_stepped, pending_laid};

use bio_ids::{GenomeLoc, GenomePosition};

// A block record that is held back: its first and last position, its one letter of REF, and how long its samples' lines are, which stand in
// a buffer.
#[derive(Clone, Copy)]
pub struct PendingBlock {
    pub loc: GenomeLoc,
    pub letter: u8,
    pub len: usize,
}

// Lays the lines of the record that is held back, if there is one.
pub fn put_pending(
    contig: &[u8],
    held: &[u8],
    pending: Option<PendingBlock>,
    out: &mut [u8],
    at: usize,
) -> usize
    requires { PendingFits contig.now held.now pending at }
    ensures { Laid out.old at
        (pending_bytes contig.now held.now pending)
        out.new result }
{
    let Some(block) = pending else {
        return at;
    };
    let allele = [block.letter];
    let next = record_lines::put_record_head(out, at, contig, block.loc, &allele, b"<NON_REF>");
    let lines = tables::part(held, 0, block.len);
    kv_write::put_bytes(out, next, lines)
}

// Whether two blocks agree in PL, AD, DP, MIN_DP and GQ of all samples: the lines of their samples are the same bytes.
fn samples_pl_ad_eq(held: &[u8], len: usize, fresh: &[u8]) -> bool
    ensures { result ≡ same_bytes (take len held.now) fresh.now }
{
    let lines = tables::part(held, 0, len);
    kv_text::same_bytes(lines, fresh)
}

// Whether a block at a position, with this letter of REF and these lines of its samples, joins the record that is held back.
fn joins(
    held: &[u8],
    pending: Option<PendingBlock>,
    position: GenomePosition,
    letter: u8,
    fresh: &[u8],
) -> bool
    ensures { result ≡ joins_pending held.now pending position.0 letter fresh.now }
{
    let Some(block) = pending else {
        return false;
    };
    let first = position.get();
    first != 0
        && first - 1 == block.loc.end.get()
        && block.letter == letter
        && samples_pl_ad_eq(held, block.len, fresh)
}

// The record that is held back with another last position: that of a block that joins it.
fn set_end(pending: Option<PendingBlock>, end: GenomePosition) -> Option<PendingBlock>
    ensures { result ≡ joined_to pending end }
{
    let block = pending?;
    let start = block.loc.start;
    let loc = GenomeLoc { start, end };
    Some(PendingBlock { loc, ..block })
}

// A count of records with the one that is held back, if there is one, held at the greatest u32.
pub fn count_pending(count: usize, pending: Option<PendingBlock>) -> usize
    ensures { result ≡ pending_count pending count }
{
    match pending {
        Some(_) => list_header::count_more(count),
        None => count,
    }
}

// What a record leaves: the block that is held back now, where the list goes on, and how many records it has so far.
#[derive(Clone, Copy)]
pub struct Stepped {
    pub pending: Option<PendingBlock>,
    pub at: usize,
    pub count: usize,
}

// No block joins the one that is held back any more: it is laid, and nothing is held back.
pub fn lay_pending(
    contig: &[u8],
    pending: Option<PendingBlock>,
    held: &[u8],
    out: &mut [u8],
    at: usize,
    count: usize,
) -> Stepped
    requires { PendingFits contig.now held.now pending at }
    ensures step { result ≡ pending_laid contig.now held.now pending at count }
    ensures laid { out.new ≡ sets out.old at (pending_bytes contig.now held.now pending) }
{
    let next = put_pending(contig, held, pending, out, at);
    Stepped {
        pending: None,
        at: list_header::cap(next),
        count: count_pending(count, pending),
    }
}

// The next record is a block, with these lines of its samples: it joins the one that is held back, or that one is laid and this one held,
// its lines at the front of `held`.
pub fn coalesce_homref_blocks(
    contig: &[u8],
    loc: GenomeLoc,
    letter: u8,
    fresh: &[u8],
    pending: Option<PendingBlock>,
    held: &mut [u8],
    out: &mut [u8],
    at: usize,
    count: usize,
) -> Stepped
    requires { BlockReady contig.now held.old fresh.now pending at }
    ensures step { result ≡ block_stepped contig.now held.old pending loc letter fresh.now at count }
    ensures laid { out.new ≡ sets out.old at
        (block_lays contig.now held.old pending loc.start.0 letter fresh.now) }
    ensures lines { held.new ≡ held_after held.old pending loc.start.0 letter fresh.now }
{
    if joins(held, pending, loc.start, letter, fresh) {
        return Stepped {
            pending: set_end(pending, loc.end),
            at,
            count,
        };
    }
    let laid = lay_pending(contig, pending, held, out, at, count);
    let len = kv_write::put_bytes(held, 0, fresh);
    Stepped {
        pending: Some(PendingBlock { loc, letter, len }),
        at: laid.at,
        count: laid.count,
    }
}
