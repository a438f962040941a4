// Log10 genotype likelihoods in binary64: from PL, within range, less the greatest.
#![tactic(auto)]

ghost use Rattle.std.specs.Prelude.{map, ◌≡◌, ◌<◌, length};
ghost use Rattle.std.proofs.lemmas.List.Edits.{sets};
ghost use Rattle.definitions.specs.AlleleSubset.{greater, greatest, in_range, less_greatest};
ghost use Rattle.definitions.specs.Checked.{within};
ghost use Rattle.definitions.specs.Likelihoods.{NearMinusTenth, log10_from_pl};
ghost use Rattle.definitions.specs.Lists.{all_of};
ghost use Rattle.answers.specs.Answered.{Answered};
ghost use Rattle.likelihoods.specs.Written.{NearTenths, count_of};

use answers::Refusal;

// The likelihood of a PL: minus a tenth of it, rounded once.
pub fn log10_from_pl(pl: u32) -> f64
    ensures rounded { result ≡ log10_from_pl pl }
    ensures near { NearMinusTenth pl result }
{
    -(pl as f64) / 10.0
}

// The likelihoods of all PLs, as far as they fit.
fn put_log10_from_pl(pl: &[u32], out: &mut [f64])
    ensures { out.new ≡ sets out.old 0 (map log10_from_pl pl.now) }
{
    for (i, p) in pl.iter().enumerate() {
        let x = log10_from_pl(*p);
        slices::store(out, i, x);
    }
}

// The likelihoods of all PLs. Row 14 if the output is too short.
pub fn log10_likelihoods_from_pl(pl: &[u32], out: &mut [f64]) -> Result<usize, Refusal>
    ensures answered { Answered
        (within (length out.old) (map log10_from_pl pl.now))
        out.old out.new result }
    ensures near { NearTenths pl.now (count_of result) out.new }
{
    let count = pl.len();
    if out.len() < count {
        return Err(Refusal::Output);
    }
    put_log10_from_pl(pl, out);
    Ok(count)
}

// The second if it is greater than the first, else the first.
fn greater_of(first: f64, second: f64) -> f64
    ensures { result ≡ greater first second }
{
    if first < second { second } else { first }
}

// The first greatest of some values.
fn greatest_of(values: &[f64]) -> f64
    requires { 0 < length values.now }
    ensures { result ≡ greatest values.now }
{
    let mut best = values[0];
    for v in &values[1..] {
        best = greater_of(best, *v);
    }
    best
}

// Values less the first greatest of them, each rounded once, as far as they fit.
pub fn scale_log_space_array_for_numerical_stability(values: &[f64], out: &mut [f64])
    ensures { out.new ≡ sets out.old 0 (less_greatest values.now) }
{
    if values.len() == 0 {
        return;
    }
    let best = greatest_of(values);
    for (i, v) in values.iter().enumerate() {
        let x = *v - best;
        slices::store(out, i, x);
    }
}

// Whether a value is finite and at most 2^31 in size.
fn in_range(x: f64) -> bool
    ensures { result ≡ in_range x }
{
    -2147483648.0 <= x && x <= 2147483648.0
}

// Whether every value is in range.
pub fn all_in_range(values: &[f64]) -> bool
    ensures { result ≡ all_of in_range values.now }
{
    values.iter().all(|v| in_range(*v))
}
