// Depth along a contig of a combined list, in windows; the library's entry `depth_windows`. The list is read twice: first it is checked whole
// and the contig's first and last position are found; then the windows, which now have their places, are counted. So a refusal leaves the
// output as it was, and each record costs a step for each window that it overlaps, however long its stretch.
#![tactic(auto)]

ghost use Rattle.std.specs.Prelude.{◌≤◌, ltb, length, ◌&&◌, ◌≡◌};
ghost use Rattle.std.proofs.Math.Option.{none};
ghost use Rattle.answers.specs.Answered.{Answered};
ghost use Rattle.answers.specs.Options.{option_of};
ghost use Rattle.definitions.specs.DepthWindows.{depth_windows, is_deep, window_fits, windows_along};
ghost use Rattle.definitions.specs.Limits.{max_samples};
ghost use Rattle.window_counts.specs.Along.{span_with, wider, zeros};
ghost use Rattle.depth_windows.specs.Along.{AddsReady, CountReady, FillReady, all_counted, along_records, extent_answer, extent_span, filled_counts, place_added, place_span, records_at};
ghost use Rattle.depth_windows.specs.Windowed.{Given, OverReady, filled_with, windows_behind, windows_over_span};

use answers::Refusal;
use bio_ids::{GenomeLoc, GenomePosition, SampleIndex};
use list_reader::RecordPlace;
use list_walk::ListHeader;
use window_counts::Windows;

// ---- the first reading: where a contig begins and ends

// The extent of a contig, as far as the list is read, with a record's stretch behind it.
fn widened(
    extent: Option<GenomeLoc>,
    pos: GenomePosition,
    last: GenomePosition,
) -> Option<GenomeLoc>
    ensures { extent_span result ≡ wider (extent_span extent) pos.0 last.0 }
{
    match extent {
        Some(reach) => Some(GenomeLoc::new(reach.start, last)),
        None => Some(GenomeLoc::new(pos, last)),
    }
}

// The extent with a record, if it is on the contig.
fn extent_with(
    list: &[u8],
    place: RecordPlace,
    contig: &[u8],
    extent: Option<GenomeLoc>,
) -> Option<GenomeLoc>
    ensures { extent_span result ≡ place_span list.now place contig.now (extent_span extent) }
{
    let on = tables::part(list, place.contig.at, place.contig.end);
    if !kv_text::same_bytes(contig, on) {
        return extent;
    }
    let last = list_walk::record_end(place.pos, place.end);
    widened(extent, place.pos, last)
}

// A contig's first and last position in a whole list: reads all record groups behind a header. Rows 1 and 4 to 8.
fn contig_extent(
    list: &[u8],
    header: ListHeader,
    contig: &[u8],
) -> Result<Option<GenomeLoc>, Refusal>
    requires { header.samples ≤ max_samples }
    ensures { extent_answer result ≡ along_records (span_with contig.now) none (records_at list.now header) }
{
    let mut rows = [0usize; 1408];
    let mut cursor = list_walk::first_group(header);
    let mut extent = None;
    while let Some((place, next)) = list_walk::step(list, header, cursor, &mut rows)? {
        extent = extent_with(list, place, contig, extent);
        cursor = next;
    }
    Ok(extent)
}

// ---- the second reading: the counts

// What is asked along a contig: a sample, the DP that is deep enough, and the length and the step of windows.
#[derive(Clone, Copy)]
pub struct Asked {
    pub sample: SampleIndex,
    pub threshold: u32,
    pub size: u32,
    pub step: u32,
}

// Whether a DP is at or above a threshold. A missing one is not.
fn is_deep(threshold: u32, dp: Option<u32>) -> bool
    ensures { result ≡ is_deep threshold (option_of dp) }
{
    match dp {
        Some(n) => threshold <= n,
        None => false,
    }
}

// Adds a record to the counts of the windows, if it is on the contig and deep.
fn add_record(
    list: &[u8],
    place: RecordPlace,
    rows: &[usize; 1408],
    contig: &[u8],
    asked: Asked,
    windows: Windows,
    counts: &mut [u32],
)
    requires { AddsReady list.now place rows.now contig.now asked windows counts.old }
    ensures { counts.new
        ≡ place_added list.now place rows.now contig.now asked windows counts.old }
{
    let on = tables::part(list, place.contig.at, place.contig.end);
    if !kv_text::same_bytes(contig, on) {
        return;
    }
    let dp = tables::dp_of(rows, asked.sample.get());
    if !is_deep(asked.threshold, dp) {
        return;
    }
    let last = list_walk::record_end(place.pos, place.end);
    window_counts::add_stretch(counts, windows, GenomeLoc::new(place.pos, last));
}

// Adds all records of a list that was read before.
fn add_records(
    list: &[u8],
    header: ListHeader,
    contig: &[u8],
    asked: Asked,
    windows: Windows,
    counts: &mut [u32],
)
    requires { CountReady list.now header contig.now asked windows counts.old }
    ensures { (ready : CountReady list.now header contig.now asked windows counts.old)
        → counts.new ≡ all_counted ready }
{
    let mut rows = [0usize; 1408];
    let mut cursor = list_walk::first_group(header);
    // `while let Ok(Some(..))` was tried, and the proof did not close: its exit has no name for the end of the list
    loop {
        match list_walk::step(list, header, cursor, &mut rows) {
            Ok(Some((place, next))) => {
                add_record(list, place, &rows, contig, asked, windows, counts);
                cursor = next;
            }
            Ok(None) => return,
            // No row refuses a list that was read before.
            Err(_) => return,
        }
    }
}

// Counts windows, whatever their counts were.
fn count_windows(
    list: &[u8],
    header: ListHeader,
    contig: &[u8],
    asked: Asked,
    windows: Windows,
    counts: &mut [u32],
)
    requires { CountReady list.now header contig.now asked windows (zeros (length counts.old)) }
    ensures { (ready : CountReady list.now header contig.now asked windows (zeros (length counts.old)))
        → counts.new ≡ all_counted ready }
{
    slices::clear(counts, 0);
    add_records(list, header, contig, asked, windows, counts);
}

// ---- the windows

// Where the first window begins, 0 without one, and how many there are.
#[derive(Clone, Copy)]
pub struct WindowRun {
    pub first: GenomePosition,
    pub count: usize,
}

// Counts the windows of a contig that has records, up to its last position: row 14 if there are fewer places.
fn fill_windows(
    list: &[u8],
    header: ListHeader,
    contig: &[u8],
    asked: Asked,
    windows: Windows,
    last: GenomePosition,
    out: &mut [u32],
) -> Result<WindowRun, Refusal>
    requires { FillReady list.now header contig.now asked windows last }
    ensures { (ready : FillReady list.now header contig.now asked windows last)
        → Given (filled_with windows.first.0 (filled_counts ready) (length out.old)) out.old out.new result }
{
    let count = window_counts::window_count(windows, last);
    if out.len() < count {
        return Err(Refusal::Output);
    }
    count_windows(list, header, contig, asked, windows, &mut out[..count]);
    Ok(WindowRun {
        first: windows.first,
        count,
    })
}

// A window's length or step: 1 to 1,000,000 positions.
fn window_fits(n: u32) -> bool
    ensures { result ≡ window_fits n }
{
    1 <= n && n <= 1000000
}

// Row 17: whether length and step are in their range, and a list with so many samples has the sample.
fn asked_right(asked: Asked, samples: usize) -> bool
    ensures { result ≡ window_fits asked.size && window_fits asked.step && ltb asked.sample.0 samples }
{
    if !window_fits(asked.size) {
        return false;
    }
    if !window_fits(asked.step) {
        return false;
    }
    asked.sample.get() < samples
}

// The windows of a contig with this extent in a list that was read: rows 17 and 14.
fn windows_over(
    list: &[u8],
    header: ListHeader,
    contig: &[u8],
    extent: Option<GenomeLoc>,
    asked: Asked,
    out: &mut [u32],
) -> Result<WindowRun, Refusal>
    requires { OverReady list.now header contig.now extent }
    ensures { (ready : OverReady list.now header contig.now extent)
        → Given (windows_over_span ready.list header.samples contig.now asked (length out.old)) out.old out.new result }
{
    if !asked_right(asked, header.samples) {
        return Err(Refusal::Window);
    }
    let Some(reach) = extent else {
        return Ok(WindowRun {
            first: GenomePosition::new_1based(0),
            count: 0,
        });
    };
    let windows = Windows {
        first: reach.start,
        size: asked.size as u64,
        step: asked.step as u64,
    };
    fill_windows(list, header, contig, asked, windows, reach.end, out)
}

// The windows of a contig behind a header: rows 1, 4 to 8, 17 and 14.
fn windows_behind(
    list: &[u8],
    header: ListHeader,
    contig: &[u8],
    asked: Asked,
    out: &mut [u32],
) -> Result<WindowRun, Refusal>
    requires { header.samples ≤ max_samples }
    ensures { Given (windows_behind list.now header contig.now asked (length out.old)) out.old out.new result }
{
    let extent = contig_extent(list, header, contig)?;
    windows_over(list, header, contig, extent, asked, out)
}

// The windows of a contig in a combined list: how many positions of each lie in a record with DP at or above the threshold. The answer is
// where the first begins, 0 without one, and how many there are; or the row that refuses the call, and then `out` is as it was.
pub fn windows_along(
    list: &[u8],
    contig: &[u8],
    asked: Asked,
    out: &mut [u32],
) -> Result<WindowRun, Refusal>
    ensures { Given
        (windows_along list.now contig.now asked.sample.0 asked.threshold asked.size asked.step (length out.old))
        out.old out.new result }
{
    if 16777216 < list.len() {
        return Err(Refusal::Size);
    }
    let mut names = [0usize; 128];
    let header = list_walk::read_header(list, &mut names)?;
    windows_behind(list, header, contig, asked, out)
}

// The library's entry: the same for a sample by its number, a threshold, and a length and a step of windows, with the answer of any call that
// writes.
pub fn depth_windows(
    list: &[u8],
    contig: &[u8],
    sample: SampleIndex,
    threshold: u32,
    size: u32,
    step: u32,
    out: &mut [u32],
) -> Result<usize, Refusal>
    ensures { Answered
        (depth_windows list.now contig.now sample.0 threshold size step (length out.old))
        out.old out.new result }
{
    let asked = Asked {
        sample,
        threshold,
        size,
        step,
    };
    let run = windows_along(list, contig, asked, out)?;
    Ok(run.count)
}
