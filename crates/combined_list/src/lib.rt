// The combined list of an input whose tables are loaded: contig by contig, in two passes.
#![tactic(auto)]

ghost use Rattle.std.specs.Prelude.{◌≤◌, eqb, ltb, length, ◌&&◌, ◌≡◌};
ghost use Rattle.std.proofs.lemmas.List.Edits.{sets};
ghost use Rattle.answers.specs.Answered.{Answered};
ghost use Rattle.definitions.specs.Checked.{within};
ghost use Rattle.list_header.specs.Measured.{limit};
ghost use Rattle.combined_list.specs.Contigs.{AllReady, ContigRoom, OneReady, all_records, given_clip, records_on};
ghost use Rattle.combined_list.specs.WrittenList.{CallLoaded, ListReady, ListsFit, Measurement, list_to, list_within};
ghost use Rattle.contig_walk.specs.Walk.{RecordsWalked};

use answers::Refusal;
use contig_walk::ListEnd;

// The clip text, or an empty part of it if there is no clip.
pub fn given_clip<'a>(clipped: bool, clip: &'a [u8]) -> &'a [u8]
    ensures { result.now ≡ given_clip clipped clip.now }
{
    if clipped {
        return clip;
    }
    &clip[..0]
}

// Lays the records of a contig, which is named by the number of its first site: rows 11 to 13. `chosen` takes the numbers of its sites.
fn walk_one<'a>(
    s: &'a [u8],
    rows: &[usize],
    samples: usize,
    clipped: bool,
    clip: &[u8],
    referenced: bool,
    reference: &'a [u8],
    first: usize,
    order: &[u64],
    runs: &[usize],
    chosen: &mut [usize],
    scratch: &mut [u64],
    held: &mut [u8],
    fresh: &mut [u8],
    alts: &mut [u8],
    out: &mut [u8],
    at: usize,
    count: usize,
) -> Result<ListEnd, Refusal>
    requires { OneReady s.now rows.now samples clipped clip.now referenced reference.now first order.now runs.now out.old at count × ContigRoom order.now chosen.old scratch.old held.old fresh.old alts.old }
    ensures { (ready : OneReady s.now rows.now samples clipped clip.now referenced reference.now first order.now runs.now out.old at count)
        → RecordsWalked (records_on ready.tables first) ready.d₀ ready.bytes ready.records out.new result }
{
    let mut bounds = [0usize; 65];
    covering_sites::select_contig(rows, order, runs, samples, first, chosen, &mut bounds);
    let contig = tables::contig_name(s, rows, first);
    let spans = given_clip(clipped, clip);
    window_walk::walk_windows(
        s, rows, samples, clipped, spans, referenced, reference, contig, chosen, &bounds, scratch,
        held, fresh, alts, out, at, count,
    )
}

// Lays the records of all contigs, which are named by the numbers of their first sites, in byte order: rows 11 to 13.
pub fn walk_contigs<'a>(
    s: &'a [u8],
    rows: &[usize],
    samples: usize,
    clipped: bool,
    clip: &[u8],
    referenced: bool,
    reference: &'a [u8],
    contigs: &[usize],
    order: &[u64],
    runs: &[usize],
    chosen: &mut [usize],
    scratch: &mut [u64],
    held: &mut [u8],
    fresh: &mut [u8],
    alts: &mut [u8],
    out: &mut [u8],
    at: usize,
) -> Result<ListEnd, Refusal>
    requires { AllReady s.now rows.now samples clipped clip.now referenced reference.now contigs.now order.now runs.now out.old at × ContigRoom order.now chosen.old scratch.old held.old fresh.old alts.old }
    ensures { (ready : AllReady s.now rows.now samples clipped clip.now referenced reference.now contigs.now order.now runs.now out.old at)
        → RecordsWalked (all_records ready.tables) ready.d₀ ready.bytes 0 out.new result }
{
    let mut end = ListEnd { at, count: 0 };
    for first in contigs {
        end = walk_one(
            s, rows, samples, clipped, clip, referenced, reference, *first, order, runs, chosen,
            scratch, held, fresh, alts, out, end.at, end.count,
        )?;
    }
    Ok(end)
}

// Lays the list that was measured, of so many bytes and records, from the beginning of a buffer on, as far as it fits.
fn write_list<'a>(
    s: &'a [u8],
    names: &[usize],
    rows: &[usize],
    samples: usize,
    clipped: bool,
    clip: &[u8],
    referenced: bool,
    reference: &'a [u8],
    contigs: &[usize],
    order: &[u64],
    runs: &[usize],
    chosen: &mut [usize],
    scratch: &mut [u64],
    held: &mut [u8],
    fresh: &mut [u8],
    alts: &mut [u8],
    out: &mut [u8],
    len: usize,
    count: usize,
)
    requires { Measurement s.now names.now rows.now samples clipped clip.now referenced reference.now contigs.now order.now runs.now len count × (length out.old ≤ limit) × ContigRoom order.now chosen.old scratch.old held.old fresh.old alts.old }
    ensures { (m : Measurement s.now names.now rows.now samples clipped clip.now referenced reference.now contigs.now order.now runs.now len count)
        → out.new ≡ sets out.old 0 (list_to m) }
{
    let at = list_header::put_header(s, names, samples, count as u32, out);
    // It was walked before, so nothing refuses it.
    let _ = walk_contigs(
        s, rows, samples, clipped, clip, referenced, reference, contigs, order, runs, chosen,
        scratch, held, fresh, alts, out, at,
    );
}

// Writes the list whose records were measured: row 14 if it has more bytes than there is room for.
fn write_measured<'a>(
    s: &'a [u8],
    names: &[usize],
    rows: &[usize],
    samples: usize,
    clipped: bool,
    clip: &[u8],
    referenced: bool,
    reference: &'a [u8],
    contigs: &[usize],
    order: &[u64],
    runs: &[usize],
    chosen: &mut [usize],
    scratch: &mut [u64],
    held: &mut [u8],
    fresh: &mut [u8],
    alts: &mut [u8],
    out: &mut [u8],
    len: usize,
    count: usize,
) -> Result<usize, Refusal>
    requires { Measurement s.now names.now rows.now samples clipped clip.now referenced reference.now contigs.now order.now runs.now len count × ContigRoom order.now chosen.old scratch.old held.old fresh.old alts.old }
    ensures { (m : Measurement s.now names.now rows.now samples clipped clip.now referenced reference.now contigs.now order.now runs.now len count)
        → Answered (within (length out.old) (list_to m)) out.old out.new result }
{
    let header = list_header::put_header(s, names, samples, count as u32, &mut out[..0]);
    let end = header + len;
    if out.len() < end {
        return Err(Refusal::Output);
    }
    write_list(
        s,
        names,
        rows,
        samples,
        clipped,
        clip,
        referenced,
        reference,
        contigs,
        order,
        runs,
        chosen,
        scratch,
        held,
        fresh,
        alts,
        &mut out[..end],
        len,
        count,
    );
    Ok(end)
}

// Writes the list of an input in order, from its contigs and its grouped sites: rows 11 to 14. The records are measured before
// anything is written.
fn combine_contigs<'a>(
    s: &'a [u8],
    names: &[usize],
    rows: &[usize],
    samples: usize,
    clipped: bool,
    clip: &[u8],
    referenced: bool,
    reference: &'a [u8],
    contigs: &[usize],
    order: &[u64],
    runs: &[usize],
    chosen: &mut [usize],
    scratch: &mut [u64],
    out: &mut [u8],
) -> Result<usize, Refusal>
    requires { ListReady s.now names.now rows.now samples clipped clip.now referenced reference.now contigs.now order.now runs.now × (length order.now ≤ length chosen.old) × (2 ≤ length scratch.old) }
    ensures { (ready : ListReady s.now names.now rows.now samples clipped clip.now referenced reference.now contigs.now order.now runs.now)
        → Answered (list_within ready.tables.loaded 1 (length out.old)) out.old out.new result }
{
    let mut held = [0u8; 8192];
    let mut fresh = [0u8; 8192];
    let mut alts = [0u8; 4096];
    let measured = walk_contigs(
        s,
        rows,
        samples,
        clipped,
        clip,
        referenced,
        reference,
        contigs,
        order,
        runs,
        chosen,
        scratch,
        &mut held,
        &mut fresh,
        &mut alts,
        &mut out[..0],
        0,
    )?;
    write_measured(
        s,
        names,
        rows,
        samples,
        clipped,
        clip,
        referenced,
        reference,
        contigs,
        order,
        runs,
        chosen,
        scratch,
        &mut held,
        &mut fresh,
        &mut alts,
        out,
        measured.at,
        measured.count,
    )
}

// Writes the list of an input in order, from its tables, with places for a window of breakpoints: rows 11 to 14.
fn combine_in_windows<'a>(
    s: &'a [u8],
    names: &[usize],
    rows: &[usize],
    samples: usize,
    sites: usize,
    clipped: bool,
    clip: &[u8],
    referenced: bool,
    reference: &'a [u8],
    order: &mut [u64],
    firsts: &mut [usize],
    chosen: &mut [usize],
    scratch: &mut [u64],
    out: &mut [u8],
) -> Result<usize, Refusal>
    requires { CallLoaded s.now names.now rows.now samples sites clipped clip.now referenced reference.now × ListsFit sites order.old firsts.old chosen.old × (2 ≤ length scratch.old) }
    ensures { (call : CallLoaded s.now names.now rows.now samples sites clipped clip.now referenced reference.now)
        → Answered (list_within call.loaded 1 (length out.old)) out.old out.new result }
{
    let mut runs = [0usize; 65];
    covering_sites::group_by_sample(rows, sites, samples, order, &mut runs);
    let count = contigs::order_contigs(s, rows, sites, firsts);
    combine_contigs(
        s,
        names,
        rows,
        samples,
        clipped,
        clip,
        referenced,
        reference,
        &firsts[..count],
        order,
        &runs,
        chosen,
        scratch,
        out,
    )
}

// Row 10: a site names a contig, and scratch has no place.
pub fn lacks_place(scratch: &[u64], sites: usize) -> bool
    ensures { result ≡ eqb (length scratch.now) 0 && ltb 0 sites }
{
    scratch.is_empty() && 0 < sites
}

// Writes the list of an input in order, from its tables: rows 10 to 14. Reading has made sure of what it requires. `order`, `firsts`,
// `chosen` and `scratch` take the sites by sample, the contigs, a contig's sites and a window of its breakpoints: work lists that only
// this call reads, and what they hold after it is open. Fewer than 1,024 places are left aside for as many of its own: the list is the
// same, and a long clip is not read for each few breakpoints.
pub fn combine_loaded_gvcfs<'a>(
    s: &'a [u8],
    names: &[usize],
    rows: &[usize],
    samples: usize,
    sites: usize,
    clipped: bool,
    clip: &[u8],
    referenced: bool,
    reference: &'a [u8],
    order: &mut [u64],
    firsts: &mut [usize],
    chosen: &mut [usize],
    scratch: &mut [u64],
    out: &mut [u8],
) -> Result<usize, Refusal>
    requires { CallLoaded s.now names.now rows.now samples sites clipped clip.now referenced reference.now × ListsFit sites order.old firsts.old chosen.old }
    ensures { (call : CallLoaded s.now names.now rows.now samples sites clipped clip.now referenced reference.now)
        → Answered (list_within call.loaded (length scratch.old) (length out.old)) out.old out.new result }
{
    if lacks_place(scratch, sites) {
        return Err(Refusal::Scratch);
    }
    if 1024 <= scratch.len() {
        return combine_in_windows(
            s, names, rows, samples, sites, clipped, clip, referenced, reference, order, firsts,
            chosen, scratch, out,
        );
    }
    let mut own = [0u64; 1024];
    combine_in_windows(
        s, names, rows, samples, sites, clipped, clip, referenced, reference, order, firsts,
        chosen, &mut own, out,
    )
}
