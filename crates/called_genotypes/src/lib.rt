// PL, AD and GQ of a sample without an allele, `dropped` by its number among a record's: the values of the called list, which is
// without `<NON_REF>`.
#![tactic(auto)]

ghost use Rattle.std.proofs.Math.Option.{get_or, map};
ghost use Rattle.std.specs.Prelude.{◌≡◌, ◌+◌, ◌<◌, ◌≤◌, ◌^◌, length};
ghost use Rattle.std.proofs.Math.ListN.{get_elem?};
ghost use Rattle.std.proofs.lemmas.List.Edits.{sets};
ghost use Rattle.answers.specs.Options.{option_of};
ghost use Rattle.definitions.specs.CalledGenotypes.{gq_from_pl, normalized_pl, pl_without_allele_at};
ghost use Rattle.definitions.specs.CalledList.{without_index};
ghost use Rattle.definitions.specs.Genotypes.{genotype_pairs};
ghost use Rattle.genotype_values.specs.Remapped.{Filled};
ghost use Rattle.genotype_values.specs.Values.{present};
ghost use Rattle.kv_write.specs.Laid.{Laid};
ghost use Rattle.called_genotypes.specs.Values.{PlWithout, folded_pl, retained_allele, retained_pl_at};

use bio_ids::AlleleIndex;

// ---- PL and AD

// The number among all alleles of an allele of those without the dropped one.
fn retained_allele(allele: AlleleIndex, dropped: AlleleIndex) -> AlleleIndex
    requires { allele.0 < 255 }
    ensures { result.0 ≡ retained_allele dropped.0 allele.0 }
{
    let a = allele.get();
    if a < dropped.get() {
        return allele;
    }
    AlleleIndex::new((a + 1) as u8)
}

// PL of a pair without the dropped allele: its own, or a lesser one of those that are compared with it.
fn folded_pl(pl: &[u32], dropped: AlleleIndex, low: AlleleIndex, high: AlleleIndex) -> u32
    ensures { result ≡ pl_without_allele_at pl.now dropped.0 low.0 high.0 }
{
    let own = slices::value_or(pl, diploid_pairs::place_of(low, high), 0);
    let with_dropped = slices::value_or(pl, diploid_pairs::place_of(high, dropped), 0);
    let a = low.get();
    let b = high.get();
    if a == 0 {
        if b == 0 {
            let twice = slices::value_or(pl, diploid_pairs::place_of(dropped, dropped), 0);
            return with_dropped.min(twice.min(own));
        }
        return with_dropped.min(own);
    }
    if a == b {
        return with_dropped.min(own);
    }
    own
}

// The same at a place of the PL without the dropped allele, of at most 16 alleles; 0 past them.
fn folded_pl_at(pl: &[u32], dropped: AlleleIndex, place: usize) -> u32
    ensures { result ≡ get_or
        (map (retained_pl_at pl.now dropped.0) (get_elem? (genotype_pairs 16) place))
        0 }
{
    match diploid_pairs::pair_at(place) {
        Some(pair) => {
            let a = retained_allele(pair.low(), dropped);
            let b = retained_allele(pair.high(), dropped);
            folded_pl(pl, dropped, a, b)
        }
        None => 0,
    }
}

// PL of so many alleles besides the dropped one, the least not yet subtracted, and how many values it has.
fn fold_pl(retained: usize, dropped: AlleleIndex, pl: &[u32], out: &mut [u32]) -> usize
    requires { retained ≤ 16 }
    ensures { Filled (folded_pl retained dropped.0 pl.now) out.old out.new result }
{
    let count = retained * (retained + 1) / 2;
    // each value is computed from its place: there is no slice to go over
    for place in 0..count {
        let x = folded_pl_at(pl, dropped, place);
        slices::store(out, place, x);
    }
    count
}

// PL with the least subtracted from all, as far as it fits.
fn normalize_pl(pl: &[u32], out: &mut [u32])
    ensures { out.new ≡ sets out.old 0 (normalized_pl pl.now) }
{
    let least = genotyping::least_pl(pl);
    for (i, x) in pl.iter().enumerate() {
        slices::store(out, i, *x - least);
    }
}

// PL of 2 to 16 alleles without one of them, as far as it fits, and how many values it has. Other counts are refused.
pub fn remap_pl_drop_alleles(
    alleles: usize,
    dropped: AlleleIndex,
    pl: &[u32],
    out: &mut [u32],
) -> usize
    ensures { PlWithout alleles dropped.0 pl.now out.old out.new result }
{
    if alleles < 2 {
        return 0;
    }
    if 16 < alleles {
        return 0;
    }
    if alleles <= dropped.get() {
        return 0;
    }
    let mut folded = [0u32; 136];
    let count = fold_pl(alleles - 1, dropped, pl, &mut folded);
    normalize_pl(&folded[..count], out);
    count
}

// Stores values from a place on, as far as they fit.
fn store_values(out: &mut [u32], place: usize, values: &[u32]) -> usize
    requires { place + length values.now < 2 ^ 64 }
    ensures { Laid out.old place values.now out.new result }
{
    for (i, x) in values.iter().enumerate() {
        slices::store(out, place + i, *x);
    }
    place + values.len()
}

// AD without the dropped allele's entry, as far as it fits, and how many values it has.
pub fn remap_ad(dropped: AlleleIndex, ad: &[u32], out: &mut [u32]) -> usize
    ensures { Filled (without_index dropped.0 ad.now) out.old out.new result }
{
    let x = dropped.get();
    if ad.len() <= x {
        return store_values(out, 0, ad);
    }
    let from = x + 1;
    let next = store_values(out, 0, &ad[..x]);
    store_values(out, next, &ad[from..])
}

// ---- GQ

// GQ of a PL; missing if there is none.
pub fn gq_of_pl(pl: &[u32]) -> Option<u32>
    ensures { option_of result ≡ map gq_from_pl (present pl.now) }
{
    if pl.len() == 0 {
        return None;
    }
    Some(genotyping::gq_phred_from_pl(pl))
}
