// The breakpoints of a contig, a window at a time: the least ones past a position, as many as the places hold, ascending, each a number
// position * 2^32 + 2^31 + d, where d is how many clip spans start there less how many end before it.
#![tactic(auto)]

ghost use Rattle.std.specs.Prelude.{◌&&◌, ◌||◌, cond, not, ◌≡◌, ◌+◌, ◌-◌, ◌<◌, ◌≤◌, suc, leb, ltb, length, take};
ghost use mathlib.Core.List.{[], ◌++◌, ◌∷◌, flat_map, map};
ghost use Rattle.definitions.specs.Bytes.{same_bytes};
ghost use Rattle.definitions.specs.Limits.{max_text_length};
ghost use Rattle.definitions.specs.Lists.{numbers_from};
ghost use Rattle.definitions.specs.Numbers.{max_number};
ghost use Rattle.kv_text.specs.Fields.{between};
ghost use Rattle.laws.proofs.Every.{Every};
ghost use Rattle.laws.proofs.Fillings.{plain_place, span_places};
ghost use Rattle.laws.proofs.Places.{join_places, no_change, weights};
ghost use Rattle.breakpoint_windows.specs.Breakpoints.{NextBreakpoints, RowInRange, all_breakpoints, row_breakpoints, spans_of};
ghost use Rattle.breakpoint_windows.specs.Fillings.{Added, AddedRun, FromNone, Joinable, Ready, RoomMade, RunTaken, Settled, span_gives};

use bio_ids::GenomeLoc;
use kv_text::Part;

// ---- sorting and joining

// Joins neighbours with the same position into one place, in order, and says how many places that leaves.
fn join_places(places: &mut [u64]) -> usize
    requires { Joinable places.old }
    ensures few { result ≤ length places.old }
    ensures joined { take result places.new ≡ join_places places.old }
{
    let len = places.len();
    if len == 0 {
        return 0;
    }
    let mut last = places[0];
    let mut at = 0;
    // By index: places in front of the one that is read are written.
    for k in 1..len {
        let x = places[k];
        let low = x % 4294967296;
        if last / 4294967296 == x / 4294967296 {
            last = last + low - 2147483648;
        } else {
            places[at] = last;
            at += 1;
            last = x;
        }
    }
    places[at] = last;
    at + 1
}

// Sorts and joins the first `count` places, and says how many they are then.
fn settle(places: &mut [u64], count: usize) -> usize
    requires count_in_bounds { count ≤ length places.old }
    requires joinable { Joinable (take count places.old) }
    ensures { Settled places.old count places.new result }
{
    sorted_places::sort_places(&mut places[..count]);
    join_places(&mut places[..count])
}

// How many places are taken, and the limit: breakpoints from there on are left for a later window.
#[derive(Clone, Copy)]
struct Taken {
    count: usize,
    limit: u64,
}

// Makes room where all places are taken: sorts and joins them. If that leaves less than a quarter free, the upper ones are dropped down to
// half of the places, and the limit becomes the position of the first one dropped: so a filling sorts some times, and not for each place.
fn make_room(places: &mut [u64], limit: u64) -> Taken
    requires in_bounds { 2 ≤ length places.old }
    requires joinable { Joinable places.old }
    ensures { RoomMade limit places.old places.new result }
{
    let len = places.len();
    let count = settle(places, len);
    let half = len / 2;
    if count <= half + len / 4 {
        return Taken { count, limit };
    }
    let dropped = places[half];
    Taken {
        count: half,
        limit: dropped / 4294967296,
    }
}

// ---- adding places

// One place more, if its position is past `past` and below the limit.
fn add_place(places: &mut [u64], taken: Taken, past: u64, place: u64) -> Taken
    requires ready { Ready past taken places.old }
    requires place_bound { weights (take taken.count places.old ++ place ∷ []) < no_change }
    ensures { Added past taken (place ∷ []) places.old places.new result }
{
    let position = place / 4294967296;
    if position <= past {
        return taken;
    }
    if taken.limit <= position {
        return taken;
    }
    let count = taken.count;
    if count < places.len() {
        places[count] = place;
        return Taken {
            count: count + 1,
            limit: taken.limit,
        };
    }
    let room = make_room(places, taken.limit);
    if room.limit <= position {
        return room;
    }
    let at = room.count;
    places[at] = place;
    Taken {
        count: at + 1,
        limit: room.limit,
    }
}

// The first position from `first` on that is past `past`.
fn later_of(past: u64, first: u64) -> u64
    requires { past < 18446744073709551615 }
    ensures { result ≡ cond (ltb past first) first (suc past) }
{
    first.max(past + 1)
}

// A place with no change of depth for each position from `first` to before `behind`. Those before the window and behind it are not gone through.
fn add_positions(places: &mut [u64], taken: Taken, past: u64, first: u64, behind: u64) -> Taken
    requires { Ready past taken places.old }
    ensures { Added past taken (map plain_place (numbers_from first (behind - first))) places.old places.new result }
{
    if behind <= past {
        return taken;
    }
    let from = later_of(past, first);
    let mut now = taken;
    // positions are gone through, not a slice
    for position in from..behind {
        if now.limit <= position {
            return now;
        }
        now = add_place(places, now, past, position * 4294967296 + 2147483648);
    }
    now
}

// ---- the breakpoints of sites

// The positions from `first` to before `behind`.
#[derive(Clone, Copy)]
struct Run {
    first: u64,
    behind: u64,
}

// The places taken, and a run of positions that were given: those in the window are among the places.
#[derive(Clone, Copy)]
struct Adding {
    taken: Taken,
    run: Run,
}

// A position is in the run or just behind it.
fn follows(run: Run, first: u64) -> bool
    ensures { result ≡ leb run.first first && leb first run.behind }
{
    run.first <= first && first <= run.behind
}

// The same as add_positions, but positions of the run are passed over: blocks that meet and deletions that overlap give many again.
fn add_range(places: &mut [u64], adding: Adding, past: u64, first: u64, behind: u64) -> Adding
    requires ready { Ready past adding.taken places.old }
    requires run_taken { RunTaken past adding places.old }
    ensures { AddedRun past adding (map plain_place (numbers_from first (behind - first))) places.old places.new result }
{
    let at_hand = adding.taken;
    let run = adding.run;
    if !follows(run, first) {
        let taken = add_positions(places, at_hand, past, first, behind);
        let only = Run { first, behind };
        return Adding { taken, run: only };
    }
    let from = run.behind;
    if behind <= from {
        return adding;
    }
    let taken = add_positions(places, at_hand, past, from, behind);
    let longer = Run {
        first: run.first,
        behind,
    };
    Adding { taken, run: longer }
}

// The breakpoints of a site.
fn add_site(rows: &[usize], site: usize, past: u64, places: &mut [u64], adding: Adding) -> Adding
    requires row_in_range { RowInRange rows.now site }
    requires ready { Ready past adding.taken places.old }
    requires run_taken { RunTaken past adding places.old }
    ensures { AddedRun past adding (map plain_place (row_breakpoints rows.now site)) places.old places.new result }
{
    let start = tables::start_of(rows, site).get();
    let next = tables::end_of(rows, site).get() + 1;
    if tables::is_block(rows, site) {
        let started = add_range(places, adding, past, start, start + 1);
        return add_range(places, started, past, next, next + 1);
    }
    add_range(places, adding, past, start, next + 1)
}

// The breakpoints of sites, from no place taken on.
fn add_sites(rows: &[usize], sites: &[usize], past: u64, places: &mut [u64]) -> Taken
    requires in_bounds { 2 ≤ length places.old }
    requires every { Every (RowInRange rows.now) sites.now }
    ensures { FromNone past (map plain_place (flat_map (row_breakpoints rows.now) sites.now)) places.new result }
{
    let none = Taken {
        count: 0,
        limit: 4294967295,
    };
    let empty = Run {
        first: 0,
        behind: 0,
    };
    let mut adding = Adding {
        taken: none,
        run: empty,
    };
    for site in sites {
        adding = add_site(rows, *site, past, places, adding);
    }
    adding.taken
}

// ---- the breakpoints of clip spans

// Whether a part of the clip text is the contig's name.
fn is_on(clip: &[u8], place: Part, contig: &[u8]) -> bool
    ensures { result ≡ same_bytes contig.now (between clip.now place.at place.end) }
{
    let name = tables::part(clip, place.at, place.end);
    kv_text::same_bytes(contig, name)
}

// What a span gives, if it is on the contig: one more span from its start on, and one less behind its end.
fn add_span(places: &mut [u64], taken: Taken, past: u64, on: bool, loc: GenomeLoc) -> Taken
    requires ready { Ready past taken places.old }
    requires start_le_max_number { (loc.start.0 ≤ max_number) × (loc.end.0 ≤ max_number) }
    requires loc_bound { weights (take taken.count places.old ++ span_gives on loc) < no_change }
    ensures { Added past taken (span_gives on loc) places.old places.new result }
{
    if !on {
        return taken;
    }
    let start = loc.start.get();
    let next = loc.end.get() + 1;
    let started = add_place(places, taken, past, start * 4294967296 + 2147483649);
    add_place(places, started, past, next * 4294967296 + 2147483647)
}

// What the clip's spans on the contig give, up to the first faulty group.
fn add_spans(clip: &[u8], contig: &[u8], past: u64, places: &mut [u64], taken: Taken) -> Taken
    requires ready { Ready past taken places.old }
    requires contig_bound { weights (take taken.count places.old ++ flat_map span_places (spans_of clip.now contig.now)) < no_change }
    ensures { Added past taken (flat_map span_places (spans_of clip.now contig.now)) places.old places.new result }
{
    let mut now = taken;
    let mut at = 0;
    // a group says where the next begins
    while at < clip.len() {
        let Some(group) = clip_and_reference::span_at(clip, at) else {
            return now;
        };
        let on = is_on(clip, group.contig, contig);
        now = add_span(places, now, past, on, group.loc);
        at = group.next;
    }
    now
}

// ---- one window

// How many breakpoints stand at the front, and whether there are more behind them.
#[derive(Clone, Copy)]
pub struct Window {
    pub count: usize,
    pub more: bool,
}

// Stores the next breakpoints past `past` of these sites and of the clip's spans on the contig, up to the first faulty group: as many of
// the least ones as go well into the places, at least one if there is one. No clip is an empty text. The places behind them are a work
// buffer: what stands there is open.
pub fn next_breakpoints(
    rows: &[usize],
    sites: &[usize],
    clip: &[u8],
    contig: &[u8],
    past: u64,
    places: &mut [u64],
) -> Window
    requires in_bounds { 2 ≤ length places.old }
    requires every { Every (RowInRange rows.now) sites.now }
    requires clip_len_bound { length clip.now ≤ max_text_length }
    ensures { NextBreakpoints (all_breakpoints rows.now sites.now (spans_of clip.now contig.now))
        (spans_of clip.now contig.now) past places.old places.new result }
{
    let of_sites = add_sites(rows, sites, past, places);
    let taken = add_spans(clip, contig, past, places, of_sites);
    let count = settle(places, taken.count);
    Window {
        count,
        more: taken.limit < 4294967295,
    }
}

// Whether an interval goes from the last breakpoint to the next, and lies in the clip, where there is one.
pub fn has_interval(clipped: bool, past: u64, depth: u64) -> bool
    ensures { result ≡ ltb 0 past && (not clipped || ltb 0 depth) }
{
    0 < past && (!clipped || 0 < depth)
}
