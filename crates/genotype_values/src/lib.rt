// A sample's AD, PL and GT over a record's alleles, and the lines that say them.
// A map gives, for each allele of the record, the number of the sample's allele.
#![tactic(auto)]

ghost use Rattle.std.proofs.Math.Option;
ghost use Rattle.std.specs.Prelude.{◌≡◌, ◌+◌, ◌<◌, ◌≤◌, ◌^◌, get_or, length};
ghost use Rattle.std.proofs.Math.ListN.{get_elem?};
ghost use Rattle.std.proofs.lemmas.List.Edits.{sets};
ghost use Rattle.answers.specs.Options.{option_of};
ghost use Rattle.definitions.specs.Genotypes.{genotype_index_any, genotype_pairs, missing_data, remapped_ad, remapped_pl};
ghost use Rattle.definitions.specs.Printed.{printed_sample_data, written_genotype};
ghost use Rattle.definitions.specs.Lines.{line};
ghost use Rattle.definitions.specs.Numbers.{written_or_missing};
ghost use Rattle.diploid_pairs.specs.Pairs.{pair_of};
ghost use Rattle.kv_write.specs.Laid.{Laid};
ghost use Rattle.genotype_values.specs.Remapped.{Filled, PlRemapped, of_present, pl_row};
ghost use Rattle.genotype_values.specs.Values.{Printable, genotype_line, least_pair, least_place, mapped_place, present, said_of, values_of};

use bio_ids::AlleleIndex;
use diploid_pairs::AllelePair;

// AD over the record's alleles, as far as it fits; an absent entry counts 0.
pub fn remap_ad(map: &[u8], ad: &[u32], out: &mut [u32])
    ensures { out.new ≡ sets out.old 0 (remapped_ad map.now ad.now) }
{
    for (i, a) in map.iter().enumerate() {
        let own = AlleleIndex::new(*a);
        slices::store(out, i, slices::value_or(ad, own.get(), 0));
    }
}

// The sample's allele for an allele of the record; REF if the map does not have it.
fn mapped_allele(map: &[u8], allele: AlleleIndex) -> AlleleIndex
    ensures { result.0 ≡ get_or map.now allele.0 0 }
{
    AlleleIndex::new(slices::value_or(map, allele.get(), 0))
}

// The place in the sample's PL of a pair of the record's alleles.
fn mapped_place(map: &[u8], low: AlleleIndex, high: AlleleIndex) -> usize
    ensures { result ≡ mapped_place map.now (record { low = low.0; high = high.0 }) }
{
    let a = mapped_allele(map, low);
    let b = mapped_allele(map, high);
    diploid_pairs::place_of(a, b)
}

// The place in the sample's PL of the pair at a place of the record's; none if that is 136 or more.
pub fn genotype_index_map_diploid(map: &[u8], place: usize) -> Option<usize>
    ensures { option_of result ≡ Option.map (mapped_place map.now) (get_elem? (genotype_pairs 16) place) }
{
    let pair = diploid_pairs::pair_at(place)?;
    Some(mapped_place(map, pair.low(), pair.high()))
}

// The place of two alleles, in either order, in the sample's PL; `row` is that of REF and the second.
fn place_in_row(first: AlleleIndex, second: AlleleIndex, row: usize) -> usize
    requires { row ≡ genotype_index_any 0 second.0 }
    ensures { result ≡ genotype_index_any first.0 second.0 }
{
    let behind = first.get();
    if behind <= second.get() {
        row + behind
    } else {
        diploid_pairs::place_of(first, second)
    }
}

// Lays the PLs of the record's pairs whose higher allele is `high`, by the lower, as far as they fit.
fn remap_pl_row(map: &[u8], pl: &[u32], high: AlleleIndex, out: &mut [u32], at: usize)
    requires { high.0 < length map.now }
    ensures { out.new ≡ sets out.old at (pl_row map.now pl.now high.0) }
{
    let last = high.get();
    let b = AlleleIndex::new(map[last]);
    let row = diploid_pairs::place_of(AlleleIndex::reference(), b);
    let room = (last + 1).min(out.len().saturating_sub(at));
    for (low, own) in map[..room].iter().enumerate() {
        let a = AlleleIndex::new(*own);
        out[at + low] = slices::value_or(pl, place_in_row(a, b, row), 0);
    }
}

// PL over the record's alleles, as far as it fits, and how many values it has. More than 16 alleles are refused.
pub fn remap_pl(map: &[u8], pl: &[u32], out: &mut [u32]) -> usize
    ensures { PlRemapped map.now pl.now out.old out.new result }
{
    let alleles = map.len();
    if 16 < alleles {
        return 0;
    }
    let mut at = 0;
    // by allele number, and each row has its own length: there is no slice to go over
    for number in 0..alleles {
        let high = AlleleIndex::new(number as u8);
        remap_pl_row(map, pl, high, out, at);
        at += number + 1;
    }
    at
}

// The first place of the least PL; 0 if there is none.
fn least_place(pl: &[u32]) -> usize
    ensures { result ≡ least_place pl.now }
{
    let mut best = 0;
    let mut least = slices::value_or(pl, 0, 0);
    for (i, x) in pl.iter().enumerate() {
        if *x < least {
            best = i;
            least = *x;
        }
    }
    best
}

// GT: the first pair with the least PL; none if there is no PL, or if that pair is not one of 16 alleles.
pub fn best_diploid_gt_from_pl(pl: &[u32]) -> Option<AllelePair>
    ensures { pair_of result ≡ least_pair pl.now }
{
    if pl.len() == 0 {
        return None;
    }
    diploid_pairs::pair_at(least_place(pl))
}

// PL over the record's alleles, and how many values it has; none for an empty PL.
fn remap_present_pl(map: &[u8], pl: &[u32], out: &mut [u32]) -> usize
    requires { length map.now ≤ 16 }
    ensures { Filled (of_present (remapped_pl map.now) pl.now) out.old out.new result }
{
    if pl.len() == 0 {
        return 0;
    }
    remap_pl(map, pl, out)
}

// AD over the record's alleles, and how many values it has; none for an empty AD.
fn remap_present_ad(map: &[u8], ad: &[u32], out: &mut [u32]) -> usize
    ensures { Filled (of_present (remapped_ad map.now) ad.now) out.old out.new result }
{
    if ad.len() == 0 {
        return 0;
    }
    remap_ad(map, ad, out);
    map.len()
}

// Lays the GT line of a genotype, as `gt=0/1`.
fn put_pair_line(out: &mut [u8], at: usize, low: AlleleIndex, high: AlleleIndex) -> usize
    requires { at + length (genotype_line low.0 high.0) < 2 ^ 64 }
    ensures { Laid out.old at (genotype_line low.0 high.0) out.new result }
{
    let behind_key = kv_write::put_bytes(out, at, b"gt=");
    let behind_low = kv_write::put_number(out, behind_key, low.get() as u32);
    let behind_slash = kv_write::put_byte(out, behind_low, b'/');
    let behind_high = kv_write::put_number(out, behind_slash, high.get() as u32);
    kv_write::put_byte(out, behind_high, b'\n')
}

// Lays the GT line: a genotype, or a missing value.
fn put_genotype_line(out: &mut [u8], at: usize, gt: Option<AllelePair>) -> usize
    requires { at + length (line "gt" (written_or_missing written_genotype (pair_of gt))) < 2 ^ 64 }
    ensures { Laid out.old at (line "gt" (written_or_missing written_genotype (pair_of gt))) out.new result }
{
    match gt {
        Some(pair) => put_pair_line(out, at, pair.low(), pair.high()),
        None => kv_write::put_missing_line(out, at, b"gt="),
    }
}

// DP and MIN_DP of a sample.
#[derive(Clone, Copy)]
pub struct Depths {
    pub dp: Option<u32>,
    pub mindp: Option<u32>,
}

// Lays the lines of a sample whose AD and PL are over the record's alleles; an empty one is missing.
fn put_values(
    out: &mut [u8],
    at: usize,
    gq: Option<u32>,
    depths: Depths,
    ad: &[u32],
    pl: &[u32],
) -> usize
    requires { at + length (printed_sample_data (said_of (option_of gq) (option_of depths.dp) (option_of depths.mindp) ad.now pl.now)) < 2 ^ 64 }
    ensures { Laid out.old at
        (printed_sample_data (said_of (option_of gq) (option_of depths.dp) (option_of depths.mindp) ad.now pl.now))
        out.new result }
{
    let dp = depths.dp;
    let mindp = depths.mindp;
    let gt = best_diploid_gt_from_pl(pl);
    let behind_gt = put_genotype_line(out, at, gt);
    let behind_gq = kv_write::put_optional_number_line(out, behind_gt, b"gq=", gq);
    let behind_dp = kv_write::put_optional_number_line(out, behind_gq, b"dp=", dp);
    let behind_mindp = kv_write::put_optional_number_line(out, behind_dp, b"mindp=", mindp);
    let behind_ad = kv_write::put_optional_numbers_line(
        out,
        behind_mindp,
        b"ad=",
        0 < ad.len(),
        ad,
    );
    kv_write::put_optional_numbers_line(out, behind_ad, b"pl=", 0 < pl.len(), pl)
}

// Lays the lines of a sample: its own values, remapped to a record of 1 to 16 alleles. An empty AD or PL is missing.
pub fn put_sample_data(
    out: &mut [u8],
    at: usize,
    map: &[u8],
    gq: Option<u32>,
    depths: Depths,
    ad: &[u32],
    pl: &[u32],
) -> usize
    requires { Printable map.now (option_of gq) (option_of depths.dp) (option_of depths.mindp) ad.now pl.now at }
    ensures { Laid out.old at
        (printed_sample_data (values_of map.now (option_of gq) (option_of depths.dp) (option_of depths.mindp) (present ad.now) (present pl.now)))
        out.new result }
{
    let mut record_pl = [0u32; 136];
    let pl_count = remap_present_pl(map, pl, &mut record_pl);
    let mut record_ad = [0u32; 16];
    let ad_count = remap_present_ad(map, ad, &mut record_ad);
    put_values(
        out,
        at,
        gq,
        depths,
        &record_ad[..ad_count],
        &record_pl[..pl_count],
    )
}

// Lays the lines of a sample with no site.
pub fn put_missing_data(out: &mut [u8], at: usize) -> usize
    requires { at + length (printed_sample_data missing_data) < 2 ^ 64 }
    ensures { Laid out.old at (printed_sample_data missing_data) out.new result }
{
    kv_write::put_bytes(out, at, b"gt=.\ngq=.\ndp=.\nmindp=.\nad=.\npl=.\n")
}
