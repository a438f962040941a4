// Likelihoods, AD and ALTs of some of a record's alleles. A keep list has the numbers of the alleles that are left.
#![tactic(auto)]

ghost use Rattle.std.specs.Prelude.{◌&&◌, true, ◌≡◌, ◌+◌, ◌-◌, ◌<◌, ◌^◌, ◌≤◌, leb, ltb, get_or, length, set};
ghost use Rattle.std.proofs.Math.Option;
ghost use Rattle.std.proofs.Math.ListN.{get_elem?};
ghost use Rattle.std.proofs.lemmas.List.Edits.{sets};
ghost use Rattle.definitions.specs.AlleleSubset.{allele_count_fits, alt_fields, assigned_alleles, less_greatest, likelihood_subset, subset_fits, subset_to, unused_alt_subset_within};
ghost use Rattle.definitions.specs.Alleles.{genotype_count};
ghost use Rattle.definitions.specs.Checked.{accepted};
ghost use Rattle.definitions.specs.Genotypes.{at_mapped_pairs, genotype_pairs, remapped_ad};
ghost use Rattle.definitions.specs.Lists.{all_of};
ghost use Rattle.answers.specs.Answered.{Answered};
ghost use Rattle.genotype_values.specs.Values.{mapped_place};
ghost use Rattle.kv_write.specs.Laid.{Laid};
ghost use Rattle.likelihoods.specs.Written.{count_of, none_above};
ghost use Rattle.allele_subsetting_pl.specs.KeepLists.{AltNumbers, KeepList, absent_likelihood, alt_with, alts_with, is_assigned, only_assigned};
ghost use Rattle.allele_subsetting_pl.specs.UnusedAlts.{AssignedKeep, UnusedAltsAnswered, likelihood_count_of, outputs, subset_none_above, subset_within, whole_record};

use answers::Refusal;
use bio_ids::AlleleIndex;

// How many genotypes at most 16 alleles have.
fn num_genotype_likelihoods(alleles: usize) -> usize
    requires { alleles ≤ 16 }
    ensures { result ≡ genotype_count alleles }
{
    alleles * (alleles + 1) / 2
}

// ---- row 15

// Whether there are 1 to 16 alleles.
fn allele_count_fits(alleles: usize) -> bool
    ensures { result ≡ allele_count_fits alleles }
{
    1 <= alleles && alleles <= 16
}

// Whether every number is below a bound.
fn all_below(numbers: &[usize], bound: usize) -> bool
    ensures { result ≡ all_of (λ a. ltb a bound) numbers.now }
{
    numbers.iter().all(|n| *n < bound)
}

// Whether the likelihoods of at most 16 alleles and a keep list can be used.
fn subset_fits(gl: &[f64], alleles: usize, keep: &[usize]) -> bool
    requires { alleles ≤ 16 }
    ensures { result ≡ subset_fits gl.now alleles keep.now }
{
    gl.len() == num_genotype_likelihoods(alleles)
        && keep.len() <= 16
        && likelihoods::all_in_range(gl)
        && all_below(keep, alleles)
}

// ---- likelihoods

// A keep list as a map of the alleles that are left, as far as it fits.
fn allele_map(keep: &[usize], map: &mut [u8])
    requires { KeepList keep.now }
    ensures { map.new ≡ sets map.old 0 keep.now }
{
    for (i, number) in keep.iter().enumerate() {
        slices::store(map, i, *number as u8);
    }
}

// The value for a place of the genotypes that are left.
fn mapped_likelihood(map: &[u8], gl: &[f64], place: usize) -> f64
    ensures { result ≡ Option.get_or
        (Option.map (λ p. get_or gl.now (mapped_place map.now p) absent_likelihood) (get_elem? (genotype_pairs 16) place))
        absent_likelihood }
{
    match genotype_values::genotype_index_map_diploid(map, place) {
        Some(old) => slices::value_or(gl, old, 0.0),
        None => 0.0,
    }
}

// The values of the genotypes that are left, as far as they fit.
fn pick_likelihoods(map: &[u8], gl: &[f64], picked: &mut [f64])
    requires { length map.now ≤ 16 }
    ensures { picked.new ≡ sets picked.old 0 (at_mapped_pairs absent_likelihood map.now gl.now) }
{
    let count = num_genotype_likelihoods(map.len());
    // places of PL are gone through, not a slice
    for place in 0..count {
        let x = mapped_likelihood(map, gl, place);
        slices::store(picked, place, x);
    }
}

// The likelihoods of the alleles that are left, less their greatest, as far as they fit.
fn subset_likelihoods(gl: &[f64], keep: &[usize], out: &mut [f64])
    requires { KeepList keep.now }
    ensures { out.new ≡ sets out.old 0
        (less_greatest (at_mapped_pairs absent_likelihood keep.now gl.now)) }
{
    let left = keep.len();
    let count = num_genotype_likelihoods(left);
    let mut map = [0u8; 16];
    allele_map(keep, &mut map);
    let mut picked = [0.0f64; 136];
    pick_likelihoods(&map[..left], gl, &mut picked);
    likelihoods::scale_log_space_array_for_numerical_stability(&picked[..count], out);
}

// The likelihoods of the alleles of a keep list, in its order and with its repeats. Row 15, and 14 if the output is too short.
pub fn subset_log10_genotype_likelihoods(
    gl: &[f64],
    alleles: usize,
    keep: &[usize],
    out: &mut [f64],
) -> Result<usize, Refusal>
    ensures answered { Answered
        (likelihood_subset gl.now alleles keep.now (length out.old))
        out.old out.new result }
    ensures none_above { none_above (count_of result) out.new ≡ true }
{
    if !allele_count_fits(alleles) {
        return Err(Refusal::Subset);
    }
    if !subset_fits(gl, alleles, keep) {
        return Err(Refusal::Subset);
    }
    let count = num_genotype_likelihoods(keep.len());
    if out.len() < count {
        return Err(Refusal::Output);
    }
    subset_likelihoods(gl, keep, out);
    Ok(count)
}

// ---- unused ALTs

// How many ALTs a list with commas has.
fn alt_count(alts: &[u8]) -> usize
    ensures { result ≡ length (alt_fields alts.now) }
{
    if alts.len() == 0 {
        return 0;
    }
    kv_text::count_fields(alts, b',')
}

// Whether an allele is REF or one that the GT names.
fn is_assigned(gt: &[usize], allele: AlleleIndex) -> bool
    ensures { result ≡ is_assigned gt.now allele.0 }
{
    let number = allele.get();
    number == 0 || gt.contains(&number)
}

// Puts an allele into a keep list if it is assigned, and returns how many the list then has.
fn keep_assigned(keep: &mut [usize], count: usize, allele: AlleleIndex, assigned: bool) -> usize
    requires { count + length (only_assigned assigned allele.0) < 2 ^ 64 }
    ensures { Laid keep.old count (only_assigned assigned allele.0) keep.new result }
{
    if !assigned {
        return count;
    }
    slices::store(keep, count, allele.get());
    count + 1
}

// The numbers of REF and of the ALTs that the GT names, as far as they fit, and how many they are.
fn output_allele_keep_indices_from_assigned_gt(
    alleles: usize,
    gt: &[usize],
    keep: &mut [usize],
) -> usize
    requires { alleles ≤ 16 }
    ensures { Laid keep.old 0 (assigned_alleles alleles gt.now) keep.new result }
{
    let mut count = 0;
    // numbers of alleles are gone through, not a slice
    for number in 0..alleles {
        let allele = AlleleIndex::new(number as u8);
        let assigned = is_assigned(gt, allele);
        count = keep_assigned(keep, count, allele, assigned);
    }
    count
}

// The place among the ALTs of an allele; that of the first for REF.
fn alt_index(allele: AlleleIndex) -> usize
    ensures { result ≡ allele.0 - 1 }
{
    allele.get().saturating_sub(1)
}

// The ALT with an allele number; nothing if there is none.
fn alt_at<'a>(alts: &'a [u8], allele: AlleleIndex) -> &'a [u8]
    ensures { result.now ≡ alt_with alts.now allele.0 }
{
    match kv_text::field_at(alts, b',', alt_index(allele)) {
        Some(field) => tables::part(alts, field.at, field.end),
        None => &alts[..0],
    }
}

// Lays the ALT with an allele number.
fn put_alt(out: &mut [u8], at: usize, alts: &[u8], allele: AlleleIndex) -> usize
    requires { at + length (alt_with alts.now allele.0) < 2 ^ 64 }
    ensures { Laid out.old at (alt_with alts.now allele.0) out.new result }
{
    let alt = alt_at(alts, allele);
    kv_write::put_bytes(out, at, alt)
}

// Lays the ALTs with these numbers, with commas between.
fn put_alts(out: &mut [u8], alts: &[u8], numbers: &[usize]) -> usize
    requires { AltNumbers alts.now numbers.now }
    ensures { Laid out.old 0 (alts_with alts.now numbers.now) out.new result }
{
    let Some((first, rest)) = numbers.split_first() else {
        return 0;
    };
    let mut next = put_alt(out, 0, alts, AlleleIndex::new(*first as u8));
    for number in rest {
        next = kv_write::put_byte(out, next, b',');
        next = put_alt(out, next, alts, AlleleIndex::new(*number as u8));
    }
    next
}

// How many bytes the ALTs with these numbers take, with commas between.
fn alts_length(alts: &[u8], numbers: &[usize]) -> usize
    requires { AltNumbers alts.now numbers.now }
    ensures { result ≡ length (alts_with alts.now numbers.now) }
{
    let mut room = [0u8; 1];
    put_alts(&mut room[..0], alts, numbers)
}

// AD of the alleles that are left, as far as it fits.
fn subset_ad(ad: &[u32], keep: &[usize], out: &mut [u32])
    requires { KeepList keep.now }
    ensures { out.new ≡ sets out.old 0 (remapped_ad keep.now ad.now) }
{
    let left = keep.len();
    let mut map = [0u8; 16];
    allele_map(keep, &mut map);
    genotype_values::remap_ad(&map[..left], ad, out);
}

// Whether each of three lengths fits its output.
fn has_room(
    alts: usize,
    alts_out: usize,
    gl: usize,
    gl_out: usize,
    ad: usize,
    ad_out: usize,
) -> bool
    ensures { result ≡ leb alts alts_out && leb gl gl_out && leb ad ad_out }
{
    alts <= alts_out && gl <= gl_out && ad <= ad_out
}

// How much is written of the ALTs, the likelihoods and AD.
#[derive(Clone, Copy)]
pub struct UnusedAlts {
    pub alts: usize,
    pub likelihoods: usize,
    pub ad: usize,
}

// A record whose ALTs are all assigned, as it is. Row 14 if an output is too short.
fn copy_record(
    alts: &[u8],
    gl: &[f64],
    ad: &[u32],
    alts_out: &mut [u8],
    gl_out: &mut [f64],
    ad_out: &mut [u32],
) -> Result<UnusedAlts, Refusal>
    ensures { UnusedAltsAnswered
        (subset_within (accepted (whole_record alts.now gl.now ad.now))
        (outputs alts_out.old gl_out.old ad_out.old))
        (outputs alts_out.old gl_out.old ad_out.old)
        (outputs alts_out.new gl_out.new ad_out.new)
        result }
{
    let alts_len = alts.len();
    let gl_len = gl.len();
    let ad_len = ad.len();
    if !has_room(
        alts_len,
        alts_out.len(),
        gl_len,
        gl_out.len(),
        ad_len,
        ad_out.len(),
    ) {
        return Err(Refusal::Output);
    }
    slices::copy_over(&mut alts_out[..alts_len], alts);
    slices::copy_over(&mut gl_out[..gl_len], gl);
    slices::copy_over(&mut ad_out[..ad_len], ad);
    Ok(UnusedAlts {
        alts: alts_len,
        likelihoods: gl_len,
        ad: ad_len,
    })
}

// A record without the ALTs that are not in a keep list. Row 15, and 14 if an output is too short.
fn subset_record(
    alts: &[u8],
    alleles: usize,
    keep: &[usize],
    gl: &[f64],
    ad: &[u32],
    alts_out: &mut [u8],
    gl_out: &mut [f64],
    ad_out: &mut [u32],
) -> Result<UnusedAlts, Refusal>
    requires { AssignedKeep alts.now alleles keep.now }
    ensures { UnusedAltsAnswered
        (subset_within (subset_to keep.now (alt_fields alts.now) gl.now ad.now)
        (outputs alts_out.old gl_out.old ad_out.old))
        (outputs alts_out.old gl_out.old ad_out.old)
        (outputs alts_out.new gl_out.new ad_out.new)
        result }
{
    if !subset_fits(gl, alleles, keep) {
        return Err(Refusal::Subset);
    }
    if !all_below(keep, ad.len()) {
        return Err(Refusal::Subset);
    }
    let left = keep.len();
    let numbers = &keep[1..];
    let alts_len = alts_length(alts, numbers);
    let gl_len = num_genotype_likelihoods(left);
    if !has_room(
        alts_len,
        alts_out.len(),
        gl_len,
        gl_out.len(),
        left,
        ad_out.len(),
    ) {
        return Err(Refusal::Output);
    }
    put_alts(alts_out, alts, numbers);
    subset_likelihoods(gl, keep, gl_out);
    subset_ad(ad, keep, ad_out);
    Ok(UnusedAlts {
        alts: alts_len,
        likelihoods: gl_len,
        ad: left,
    })
}

// A record without the ALTs that the GT does not name; REF is always left. If the GT names all ALTs everything is copied as
// it is. Row 15, and 14 if an output is too short.
pub fn subset_unused_alts_after_merged_genotyping(
    alts: &[u8],
    gt: &[usize],
    gl: &[f64],
    ad: &[u32],
    alts_out: &mut [u8],
    gl_out: &mut [f64],
    ad_out: &mut [u32],
) -> Result<UnusedAlts, Refusal>
    ensures answered { UnusedAltsAnswered
        (unused_alt_subset_within alts.now gt.now gl.now ad.now
        (length alts_out.old) (length gl_out.old) (length ad_out.old))
        (outputs alts_out.old gl_out.old ad_out.old)
        (outputs alts_out.new gl_out.new ad_out.new)
        result }
    ensures none_above { subset_none_above alts.now gt.now (likelihood_count_of result) gl_out.new ≡ true }
{
    let alt_alleles = alt_count(alts);
    if 15 < alt_alleles {
        return Err(Refusal::Subset);
    }
    let alleles = alt_alleles + 1;
    let mut keep = [0usize; 16];
    let left = output_allele_keep_indices_from_assigned_gt(alleles, gt, &mut keep);
    if left == alleles {
        return copy_record(alts, gl, ad, alts_out, gl_out, ad_out);
    }
    subset_record(
        alts,
        alleles,
        &keep[..left],
        gl,
        ad,
        alts_out,
        gl_out,
        ad_out,
    )
}
