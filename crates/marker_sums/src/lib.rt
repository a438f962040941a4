// The sum of a sample: the weights of the markers that it meets, by which it shows.
#![tactic(auto)]

ghost use Rattle.std.specs.Prelude.{◌<◌, ◌≤◌, eqb, get_or, length, ◌&&◌, cond, ◌≡◌};
ghost use Rattle.definitions.specs.Lists.{numbers_from};
ghost use Rattle.marker_groups.specs.Markers.{column};
ghost use Rattle.marker_sums.specs.Sums.{SumReady, met_after, none_met, sum_over};

// Whether a flag is set.
fn is_set(flags: &[u8], place: usize) -> bool
    ensures { result ≡ eqb (get_or flags.now place 0) 1 }
{
    slices::value_or(flags, place, 0) == 1
}

// Whether all markers are met that a marker names.
fn all_met(rows: &[usize], marker: usize, met: &[u8]) -> bool
    requires { column 8 rows.now marker ≤ 4 }
    ensures { result ≡ met_after rows.now met.now marker }
{
    let names = marker_groups::column(rows, marker, 8);
    // columns of a row are gone through by their numbers
    for j in 0..names {
        let named = marker_groups::column(rows, marker, 9 + j);
        if !is_set(met, named) {
            return false;
        }
    }
    true
}

// Whether a marker is met that the sample shows or not.
fn is_met(rows: &[usize], marker: usize, shown: &[u8], met: &[u8]) -> bool
    requires { column 8 rows.now marker ≤ 4 }
    ensures { result ≡ eqb (get_or shown.now marker 0) 1 && met_after rows.now met.now marker }
{
    if !is_set(shown, marker) {
        return false;
    }
    all_met(rows, marker, met)
}

// The weight of a marker that is met; 0 of another.
fn weighed(rows: &[usize], marker: usize, met: bool) -> usize
    ensures { result ≡ cond met (column 7 rows.now marker) 0 }
{
    if met {
        return marker_groups::column(rows, marker, 7);
    }
    0
}

// The sum of a sample, by the markers of a table, so many, and a flag for each that it shows.
pub fn sample_sum(rows: &[usize], count: usize, shown: &[u8]) -> usize
    requires { SumReady rows.now count }
    ensures { result ≡ sum_over rows.now shown.now none_met (numbers_from 0 count) }
{
    let mut met = [0u8; 500];
    let mut sum = 0;
    // the rows are read by their numbers, and the count is no slice's length
    for marker in 0..count {
        let is = is_met(rows, marker, shown, &met);
        met[marker] = is as u8;
        sum += weighed(rows, marker, is);
    }
    sum
}
