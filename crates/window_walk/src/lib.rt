// A contig's breakpoints, a window at a time, and the records of the intervals between them, coalesced and laid.
#![tactic(auto)]

ghost use Rattle.std.specs.Prelude.{length, List, ◌∷◌, ◌≡◌, ◌≤◌, ◌/◌, ℕ};
ghost use Rattle.breakpoint_windows.specs.Contig.{contig_window_end};
ghost use Rattle.contig_walk.specs.Walk.{Begun, RecordsWalked, WalkRoom};
ghost use Rattle.record_laws.specs.Pending.{merged_contig};
ghost use Rattle.window_walk.specs.Windows.{Carrying, WalkedTo, WindowReady, WindowsReady};

use answers::Refusal;
use bio_ids::{GenomeLoc, GenomePosition};
use coalescing::Stepped;
use contig_walk::ListEnd;

// How far the walk has come: the last breakpoint, 0 before the first; how many clip spans cover it; what is laid and what is held back.
#[derive(Clone, Copy)]
struct Along {
    past: u64,
    depth: u64,
    state: Stepped,
}

// Goes on to the next breakpoint: lays the record of the interval before it, if that lies in the clip and sites cover it. A row may refuse it.
fn walk_place<'a>(
    s: &'a [u8],
    rows: &[usize],
    samples: usize,
    clipped: bool,
    referenced: bool,
    reference: &'a [u8],
    contig: &[u8],
    chosen: &[usize],
    from: &mut [usize],
    bounds: &[usize],
    place: u64,
    along: Along,
    held: &mut [u8],
    fresh: &mut [u8],
    found: &mut [usize],
    owners: &mut [usize],
    alts: &mut [u8],
    out: &mut [u8],
) -> Result<Along, Refusal>
    requires { (rest : List ℕ) × (ready : WindowReady s.now rows.now samples clipped referenced reference.now contig.now chosen.now from.old bounds.now (place ∷ rest) along.past held.old fresh.old found.old owners.old alts.old)
        × Carrying ready.runs.on.loaded.input samples contig.now held.old out.old along }
    ensures { (rest : List ℕ) (ready : WindowReady s.now rows.now samples clipped referenced reference.now contig.now chosen.now from.old bounds.now (place ∷ rest) along.past held.old fresh.old found.old owners.old alts.old)
        (way : Carrying ready.runs.on.loaded.input samples contig.now held.old out.old along)
        → WalkedTo ready.runs.on.loaded.input rows.now samples contig.now chosen.now bounds.now from.new way.d₀ way.bytes way.records held.new out.new (place / 4294967296) result }
{
    let position = place / 4294967296;
    let past = along.past;
    let state = along.state;
    let depth = along.depth + place % 4294967296 - 2147483648;
    if !breakpoint_windows::has_interval(clipped, past, along.depth) {
        return Ok(Along {
            past: position,
            depth,
            state,
        });
    }
    let first = GenomePosition::new_1based(past);
    let last = GenomePosition::new_1based(position - 1);
    let loc = GenomeLoc::new(first, last);
    covering_sites::skip_ended(rows, chosen, bounds, samples, loc.start, from);
    let step = contig_walk::walk_interval(
        s,
        rows,
        samples,
        referenced,
        reference,
        contig,
        chosen,
        from,
        bounds,
        loc,
        state.pending,
        held,
        fresh,
        found,
        owners,
        alts,
        out,
        state.at,
        state.count,
    )?;
    Ok(Along {
        past: position,
        depth,
        state: step,
    })
}

// Goes through the breakpoints of a window.
fn walk_window<'a>(
    s: &'a [u8],
    rows: &[usize],
    samples: usize,
    clipped: bool,
    referenced: bool,
    reference: &'a [u8],
    contig: &[u8],
    chosen: &[usize],
    from: &mut [usize],
    bounds: &[usize],
    places: &[u64],
    start: Along,
    held: &mut [u8],
    fresh: &mut [u8],
    found: &mut [usize],
    owners: &mut [usize],
    alts: &mut [u8],
    out: &mut [u8],
) -> Result<Along, Refusal>
    requires { (ready : WindowReady s.now rows.now samples clipped referenced reference.now contig.now chosen.now from.old bounds.now places.now start.past held.old fresh.old found.old owners.old alts.old)
        × Carrying ready.runs.on.loaded.input samples contig.now held.old out.old start }
    ensures { (ready : WindowReady s.now rows.now samples clipped referenced reference.now contig.now chosen.now from.old bounds.now places.now start.past held.old fresh.old found.old owners.old alts.old)
        (way : Carrying ready.runs.on.loaded.input samples contig.now held.old out.old start)
        → WalkedTo ready.runs.on.loaded.input rows.now samples contig.now chosen.now bounds.now from.new way.d₀ way.bytes way.records held.new out.new
        (contig_window_end ready.runs.on.loaded.input contig.now start.past ready.window.limit) result }
{
    let mut along = start;
    for place in places {
        along = walk_place(
            s, rows, samples, clipped, referenced, reference, contig, chosen, from, bounds, *place,
            along, held, fresh, found, owners, alts, out,
        )?;
    }
    Ok(along)
}

// Lays the records of a contig behind those before it, as far as they fit: rows 11 to 13. `chosen` has its sites in runs, and an empty
// clip text is no clip. `scratch` holds a window of the breakpoints at a time, what it holds at the end is open; `held` and `fresh` take the
// samples' lines of the record that is held back and of the next one, `alts` its ALTs. After a refusal some records that come before it are laid.
pub fn walk_windows<'a>(
    s: &'a [u8],
    rows: &[usize],
    samples: usize,
    clipped: bool,
    clip: &[u8],
    referenced: bool,
    reference: &'a [u8],
    contig: &[u8],
    chosen: &[usize],
    bounds: &[usize],
    scratch: &mut [u64],
    held: &mut [u8],
    fresh: &mut [u8],
    alts: &mut [u8],
    out: &mut [u8],
    at: usize,
    count: usize,
) -> Result<ListEnd, Refusal>
    requires { WindowsReady s.now rows.now samples clipped clip.now referenced reference.now contig.now chosen.now bounds.now × Begun out.old at count × WalkRoom held.old fresh.old alts.old × (2 ≤ length scratch.old) }
    ensures { (ready : WindowsReady s.now rows.now samples clipped clip.now referenced reference.now contig.now chosen.now bounds.now)
        (begun : Begun out.old at count)
        → RecordsWalked (merged_contig ready.runs.on.loaded.input contig.now) begun.d₀ begun.bytes begun.records out.new result }
{
    let mut found = [0usize; 64];
    let mut owners = [0usize; 64];
    let mut from = [0usize; 64];
    covering_sites::start_search(bounds, samples, &mut from);
    let end = bounds[samples];
    let state = Stepped {
        pending: None,
        at,
        count,
    };
    let mut along = Along {
        past: 0,
        depth: 0,
        state,
    };
    loop {
        let window = breakpoint_windows::next_breakpoints(
            rows,
            &chosen[..end],
            clip,
            contig,
            along.past,
            scratch,
        );
        let stored = window.count;
        along = walk_window(
            s,
            rows,
            samples,
            clipped,
            referenced,
            reference,
            contig,
            chosen,
            &mut from,
            bounds,
            &scratch[..stored],
            along,
            held,
            fresh,
            &mut found,
            &mut owners,
            alts,
            out,
        )?;
        if !window.more {
            break;
        }
    }
    let last = along.state;
    let next = coalescing::put_pending(contig, held, last.pending, out, last.at);
    Ok(ListEnd {
        at: list_header::cap(next),
        count: coalescing::count_pending(last.count, last.pending),
    })
}
