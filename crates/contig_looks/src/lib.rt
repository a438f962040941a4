// The looks of a contig: how many of its intervals lie in the clip, times its sites. The intervals are counted from a window of its
// breakpoints at a time.
#![tactic(auto)]

ghost use Rattle.std.specs.Prelude.{length, List, ◌∷◌, ◌≡◌, ◌≤◌, ◌/◌, ℕ};
ghost use Rattle.breakpoint_windows.specs.Contig.{contig_window_end};
ghost use Rattle.contig_looks.specs.Counting.{CountReady, CountedTo, LooksReady};
ghost use Rattle.definitions.specs.Intervals.{clipped_intervals};
ghost use Rattle.definitions.specs.Looks.{contig_looks};

// How far the count has come: the last breakpoint, 0 before the first; how many clip spans cover it; how many intervals lie in the clip.
#[derive(Clone, Copy)]
struct Along {
    past: u64,
    depth: u64,
    intervals: usize,
}

// Goes on to the next breakpoint: the interval before it counts if it lies in the clip.
fn count_place(clipped: bool, place: u64, along: Along) -> Along
    requires { (rest : List ℕ) × CountReady clipped (place ∷ rest) along }
    ensures { (rest : List ℕ) (ready : CountReady clipped (place ∷ rest) along) → CountedTo ready.input ready.contig (place / 4294967296) result }
{
    let past = place / 4294967296;
    let depth = along.depth + place % 4294967296 - 2147483648;
    let mut intervals = along.intervals;
    if breakpoint_windows::has_interval(clipped, along.past, along.depth) {
        intervals += 1;
    }
    Along {
        past,
        depth,
        intervals,
    }
}

// Goes through the breakpoints of a window.
fn count_window(clipped: bool, places: &[u64], start: Along) -> Along
    requires { CountReady clipped places.now start }
    ensures { (ready : CountReady clipped places.now start)
        → CountedTo ready.input ready.contig (contig_window_end ready.input ready.contig start.past ready.window.limit) result }
{
    let mut along = start;
    for place in places {
        along = count_place(clipped, *place, along);
    }
    along
}

// How many intervals of the contig lie in the clip, from one window of breakpoints after the other.
fn count_intervals(
    rows: &[usize],
    sites: &[usize],
    clipped: bool,
    clip: &[u8],
    contig: &[u8],
    scratch: &mut [u64],
) -> usize
    requires { LooksReady rows.now sites.now clipped clip.now contig.now × (2 ≤ length scratch.old) }
    ensures { (ready : LooksReady rows.now sites.now clipped clip.now contig.now)
        → result ≡ length (clipped_intervals ready.input.cohort.sites ready.input.clip contig.now) }
{
    let mut along = Along {
        past: 0,
        depth: 0,
        intervals: 0,
    };
    // how many windows there are is known only when the last one is read
    loop {
        let window = breakpoint_windows::next_breakpoints(
            rows, sites, clip, contig, along.past, scratch,
        );
        let stored = window.count;
        along = count_window(clipped, &scratch[..stored], along);
        if !window.more {
            return along.intervals;
        }
    }
}

// The looks of a contig. `sites` are the numbers of its sites, and an empty clip text is no clip. `scratch` holds a window of the
// breakpoints at a time; what it holds at the end is open.
pub fn contig_looks(
    rows: &[usize],
    sites: &[usize],
    clipped: bool,
    clip: &[u8],
    contig: &[u8],
    scratch: &mut [u64],
) -> usize
    requires { LooksReady rows.now sites.now clipped clip.now contig.now × (2 ≤ length scratch.old) }
    ensures { (ready : LooksReady rows.now sites.now clipped clip.now contig.now)
        → result ≡ contig_looks ready.input contig.now }
{
    let intervals = count_intervals(rows, sites, clipped, clip, contig, scratch);
    intervals * sites.len()
}
