// GQ from PL, as the Rust's genotyping.rs has it, in one reading.
#![tactic(auto)]

ghost use Rattle.std.specs.Prelude.{cond, ◌≡◌, min, suc, eqb};
ghost use Rattle.definitions.specs.CalledGenotypes.{gq_from_least_pls, gq_from_pl, with_next_pl};
ghost use Rattle.definitions.specs.Genotypes.{least};
ghost use Rattle.genotyping.specs.OneReading.{FirstRead, count_held, equal_pls, least_of, most_count, with_later_pl};

// The least PL; 0 if there is none.
pub fn least_pl(pl: &[u32]) -> u32
    ensures { result ≡ least pl.now }
{
    pl.iter().copied().min().unwrap_or(0)
}

// What one reading of some PLs finds: the least, how often it occurs, and the least above it; 0 where there is none.
#[derive(Clone, Copy)]
pub struct LeastPls {
    pub least: u32,
    pub count: usize,
    pub second: u32,
}

// One more, held at the greatest usize.
fn count_more(count: usize) -> usize
    ensures { result ≡ min most_count (suc count) }
{
    if count < 18446744073709551615 {
        return count + 1;
    }
    count
}

// The lesser of p and the second least PL; p if there is no second yet.
fn lesser_second(p: u32, second: u32) -> u32
    ensures { result ≡ cond (eqb second 0) p (min p second) }
{
    if second == 0 {
        return p;
    }
    p.min(second)
}

// From the three over any first PLs, and the next PL, to the three over all of those, the count held at the greatest usize: for every list `one_step_held`,
// and for those that a slice can hold `next_three`, of proofs/OneReading.antt.
pub fn with_next_pl(t: LeastPls, p: u32) -> LeastPls
    ensures { least_of result ≡ count_held (with_next_pl (least_of t) p) }
{
    let least = t.least;
    let count = t.count;
    let second = t.second;
    if count == 0 || p < least {
        return LeastPls {
            least: p,
            count: 1,
            second: least,
        };
    }
    if p == least {
        let more = count_more(count);
        return LeastPls {
            least: p,
            count: more,
            second: second,
        };
    }
    let lower = lesser_second(p, second);
    LeastPls {
        least: least,
        count: count,
        second: lower,
    }
}

// The GQ that the three give: 0 unless the least occurs once, else the second least minus the least, at most 99; 0 if there is no second.
pub fn gq_from_least_pls(t: LeastPls) -> u32
    ensures { result ≡ gq_from_least_pls (least_of t) }
{
    let least = t.least;
    let count = t.count;
    let second = t.second;
    if count != 1 {
        return 0;
    }
    // no PL is above the least
    if second < least {
        return 0;
    }
    (second - least).min(99)
}

// The three over so many PLs that all equal p; over none with two zeros.
fn equal_pls(p: u32, count: usize) -> LeastPls
    ensures { least_of result ≡ equal_pls p count }
{
    LeastPls {
        least: p,
        count: count,
        second: 0,
    }
}

// What was found in the first PLs, and the place of the next.
#[derive(Clone, Copy)]
struct FirstPls {
    found: LeastPls,
    next: usize,
}

// Reads the PLs that equal the first, and the first other one.
fn read_first_pls(pl: &[u32]) -> FirstPls
    ensures { FirstRead pl.now result }
{
    if pl.len() == 0 {
        let found = equal_pls(0, 0);
        return FirstPls { found, next: 0 };
    }
    let first = pl[0];
    match pl.iter().position(|p| *p != first) {
        Some(i) => {
            let equal = equal_pls(first, i);
            let found = with_next_pl(equal, pl[i]);
            FirstPls { found, next: i + 1 }
        }
        None => {
            let found = equal_pls(first, pl.len());
            FirstPls {
                found,
                next: pl.len(),
            }
        }
    }
}

// The same step where there is a second least PL: a PL that is not below it changes nothing.
fn with_later_pl(t: LeastPls, p: u32) -> LeastPls
    ensures { least_of result ≡ with_later_pl (least_of t) p }
{
    let mut r = t;
    let second = t.second;
    if p < second {
        r = with_next_pl(t, p);
    }
    r
}

// GQ of PLs, each read once: second least minus least, at most 99; 0 if the least occurs more than once or there is no second.
pub fn gq_phred_from_pl(pl: &[u32]) -> u32
    ensures { result ≡ gq_from_pl pl.now }
{
    let front = read_first_pls(pl);
    let mut t = front.found;
    let mut i = front.next;
    // Two in a turn, and perhaps a last one: a `for` over the rest took longer on 136 PLs, where it was timed.
    while i + 1 < pl.len() {
        let p = pl[i];
        t = with_later_pl(t, p);
        i += 1;
        let q = pl[i];
        t = with_later_pl(t, q);
        i += 1;
    }
    if i < pl.len() {
        let p = pl[i];
        let last = with_later_pl(t, p);
        return gq_from_least_pls(last);
    }
    gq_from_least_pls(t)
}
