// The intervals of a contig one after the other: their records, coalesced and laid. `allele` is REF as a text spells it.
#![tactic(auto)]

ghost use Rattle.std.specs.Prelude.{eqb, length, ◌&&◌, true, map, ◌≡◌};
ghost use Rattle.std.proofs.lemmas.List.Edits.{sets};
ghost use Rattle.coalescing.specs.Steps.{StepTo, record_stepped};
ghost use Rattle.definitions.specs.Alleles.{capital, is_block};
ghost use Rattle.record_lines.specs.Records.{RecordFits, record_bytes};
ghost use Rattle.contig_walk.specs.Laying.{LayReady, TurnReady, Turns, Underway, laid_record};

use answers::Refusal;
use bio_ids::{GenomeLoc, GenomePosition};
use coalescing::{PendingBlock, Stepped};

// Where the list goes on and how many records it has so far.
#[derive(Clone, Copy)]
pub struct ListEnd {
    pub at: usize,
    pub count: usize,
}

// The next record is a block: its samples' lines are laid aside, and it joins the one that is held back or is held itself.
fn lay_block(
    s: &[u8],
    rows: &[usize],
    samples: usize,
    contig: &[u8],
    loc: GenomeLoc,
    allele: &[u8],
    number: usize,
    own: &[usize],
    alts: &[u8],
    pending: Option<PendingBlock>,
    held: &mut [u8],
    fresh: &mut [u8],
    out: &mut [u8],
    at: usize,
    count: usize,
) -> Stepped
    requires { (r : LayReady s.now rows.now samples contig.now loc.start.0 loc.end.0 allele.now number own.now alts.now pending held.old fresh.old at) × (is_block (laid_record r).alleles ≡ true)
        × Underway samples contig.now held.old pending out.old at count }
    ensures { (ready : LayReady s.now rows.now samples contig.now loc.start.0 loc.end.0 allele.now number own.now alts.now pending held.old fresh.old at)
        (block : is_block (laid_record ready).alleles ≡ true)
        (way : Underway samples contig.now held.old pending out.old at count)
        → StepTo samples contig.now held.new out.new way.waiting (laid_record ready)
        way.begun.d₀ way.begun.bytes way.begun.records result }
{
    let len = record_lines::merge_genotypes(
        s, rows, samples, own, loc.start, allele, alts, fresh, 0,
    );
    let letter = kv_text::capital(allele[0]);
    coalescing::coalesce_homref_blocks(
        contig,
        loc,
        letter,
        &fresh[..len],
        pending,
        held,
        out,
        at,
        count,
    )
}

// Whether a record with this REF and so many ALTs is a block: REF is one letter, and the only ALT is <NON_REF>.
fn is_homref_nonref_only(allele: &[u8], number: usize) -> bool
    ensures { result ≡ (eqb number 1 && eqb (length allele.now) 1) }
{
    number == 1 && allele.len() == 1
}

// Lays a record that is no block behind those that are laid.
fn lay_behind(
    s: &[u8],
    rows: &[usize],
    samples: usize,
    contig: &[u8],
    position: GenomePosition,
    allele: &[u8],
    own: &[usize],
    alts: &[u8],
    out: &mut [u8],
    at: usize,
    count: usize,
) -> Stepped
    requires { RecordFits s.now rows.now samples contig.now position.0 (map capital allele.now) own.now alts.now at }
    ensures step { result ≡ record_stepped at
        (record_bytes s.now rows.now samples contig.now position.0 (map capital allele.now) own.now alts.now) count }
    ensures laid { out.new ≡ sets out.old at
        (record_bytes s.now rows.now samples contig.now position.0 (map capital allele.now) own.now alts.now) }
{
    let end = record_lines::merge_result_to_record(
        s, rows, samples, contig, position, allele, own, alts, out, at,
    );
    Stepped {
        pending: None,
        at: list_header::cap(end),
        count: list_header::count_more(count),
    }
}

// Lays the record of an interval behind the one that is held back, or joins it to that one, or holds it.
fn lay_record(
    s: &[u8],
    rows: &[usize],
    samples: usize,
    contig: &[u8],
    loc: GenomeLoc,
    allele: &[u8],
    number: usize,
    own: &[usize],
    alts: &[u8],
    pending: Option<PendingBlock>,
    held: &mut [u8],
    fresh: &mut [u8],
    out: &mut [u8],
    at: usize,
    count: usize,
) -> Stepped
    requires { LayReady s.now rows.now samples contig.now loc.start.0 loc.end.0 allele.now number own.now alts.now pending held.old fresh.old at
        × Underway samples contig.now held.old pending out.old at count }
    ensures { (ready : LayReady s.now rows.now samples contig.now loc.start.0 loc.end.0 allele.now number own.now alts.now pending held.old fresh.old at)
        (way : Underway samples contig.now held.old pending out.old at count)
        → StepTo samples contig.now held.new out.new way.waiting (laid_record ready)
        way.begun.d₀ way.begun.bytes way.begun.records result }
{
    if is_homref_nonref_only(allele, number) {
        return lay_block(
            s, rows, samples, contig, loc, allele, number, own, alts, pending, held, fresh, out,
            at, count,
        );
    }
    let before = coalescing::lay_pending(contig, pending, held, out, at, count);
    lay_behind(
        s,
        rows,
        samples,
        contig,
        loc.start,
        allele,
        own,
        alts,
        out,
        before.at,
        before.count,
    )
}

// Lays the record of an interval that lies in the clip, if sites cover it: rows 11 to 13.
pub fn walk_interval<'a>(
    s: &'a [u8],
    rows: &[usize],
    samples: usize,
    referenced: bool,
    reference: &'a [u8],
    contig: &[u8],
    chosen: &[usize],
    from: &[usize],
    bounds: &[usize],
    loc: GenomeLoc,
    pending: Option<PendingBlock>,
    held: &mut [u8],
    fresh: &mut [u8],
    found: &mut [usize],
    owners: &mut [usize],
    alts: &mut [u8],
    out: &mut [u8],
    at: usize,
    count: usize,
) -> Result<Stepped, Refusal>
    requires { TurnReady s.now rows.now samples referenced reference.now contig.now chosen.now from.now bounds.now loc.start.0 loc.end.0 pending held.old fresh.old found.old owners.old alts.old at
        × Underway samples contig.now held.old pending out.old at count }
    ensures { (ready : TurnReady s.now rows.now samples referenced reference.now contig.now chosen.now from.now bounds.now loc.start.0 loc.end.0 pending held.old fresh.old found.old owners.old alts.old at)
        (way : Underway samples contig.now held.old pending out.old at count)
        → Turns ready.runs.on.loaded.input samples contig.now held.new out.new loc.start.0 loc.end.0
        way.waiting way.begun.d₀ way.begun.bytes way.begun.records result }
{
    let here = merged_records::merge_reference_confidence(
        s, rows, samples, referenced, reference, contig, chosen, from, bounds, loc.start, found,
        owners, alts,
    )?;
    let Some(record) = here else {
        return Ok(Stepped { pending, at, count });
    };
    let n = record.sites;
    let mut own = [rows.len(); 64];
    found_sites::own_sites(&found[..n], &owners[..n], &mut own);
    let text = tables::part(alts, 0, record.alts.len);
    let allele = merged_ref::ref_bytes(s, reference, b"N", Some(record.reference));
    let step = lay_record(
        s,
        rows,
        samples,
        contig,
        loc,
        allele,
        record.alts.count,
        &own,
        text,
        pending,
        held,
        fresh,
        out,
        at,
        count,
    );
    Ok(step)
}
