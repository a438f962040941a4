// The counts of windows along a contig, to which the stretch of a record is added by arithmetic: one step for each window that it overlaps.
#![tactic(auto)]

ghost use Rattle.std.specs.Prelude.{◌-◌, ◌/◌, ◌<◌, ◌≤◌, suc, ◌≡◌};
ghost use Rattle.definitions.specs.DepthWindows.{overlap};
ghost use Rattle.window_counts.specs.Counts.{AddReady, LastReady, OverlapReady, OverlapsReady, SkipReady, added, windows_before};

use bio_ids::{GenomeLoc, GenomePosition};

// Windows along a contig: where the first begins, how many positions each has, and how many the next begins further on.
#[derive(Clone, Copy)]
pub struct Windows {
    pub first: GenomePosition,
    pub size: u64,
    pub step: u64,
}

// How many positions of a window lie in a stretch.
fn overlap(first: u64, last: u64, size: u64, begin: u64) -> u64
    requires { OverlapReady last size begin }
    ensures { result ≡ overlap first last size begin }
{
    let past = (last + 1).min(begin + size);
    past.saturating_sub(first.max(begin))
}

// How many windows end before a position.
fn windows_before(windows: Windows, pos: u64) -> u64
    requires { SkipReady windows pos }
    ensures { result ≡ windows_before windows.first.0 windows.size windows.step pos }
{
    let past = windows.first.get() + windows.size;
    if pos < past {
        return 0;
    }
    (pos - past) / windows.step + 1
}

// How many windows begin up to a position that is not before the first.
pub fn window_count(windows: Windows, last: GenomePosition) -> usize
    requires { LastReady windows last.0 }
    ensures { result ≡ suc ((last.0 - windows.first.0) / windows.step) }
{
    let more = (last.get() - windows.first.get()) / windows.step;
    more as usize + 1
}

// Adds to the count of each window how many of its positions lie in a stretch, up to the first window that begins behind it.
fn add_overlaps(counts: &mut [u32], windows: Windows, stretch: GenomeLoc)
    requires { OverlapsReady windows stretch.start.0 stretch.end.0 counts.old }
    ensures { counts.new ≡ added windows stretch.start.0 stretch.end.0 counts.old }
{
    let size = windows.size;
    let step = windows.step;
    let start = stretch.start.get();
    let end = stretch.end.get();
    let mut begin = windows.first.get();
    for count in counts {
        if end < begin {
            return;
        }
        let more = overlap(start, end, size, begin);
        *count += more as u32;
        begin += step;
    }
}

// The same, from the first window that does not end before the stretch.
pub fn add_stretch(counts: &mut [u32], windows: Windows, stretch: GenomeLoc)
    requires { AddReady windows stretch.start.0 stretch.end.0 counts.old }
    ensures { counts.new ≡ added windows stretch.start.0 stretch.end.0 counts.old }
{
    let size = windows.size;
    let step = windows.step;
    let skipped = windows_before(windows, stretch.start.get());
    let begin = windows.first.get() + skipped * step;
    let at = skipped as usize;
    if at < counts.len() {
        let first = GenomePosition::new_1based(begin);
        let later = Windows { first, size, step };
        add_overlaps(&mut counts[at..], later, stretch);
    }
}
