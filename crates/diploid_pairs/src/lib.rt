// The diploid genotypes of a record: the pair of alleles at each place of PL, and the place of a pair.
#![tactic(auto)]

ghost use Rattle.std.specs.Prelude.{true, ◌≡◌};
ghost use Rattle.std.proofs.Math.ListN.{get_elem?};
ghost use Rattle.definitions.specs.Genotypes.{genotype_index_any, genotype_pairs};
ghost use Rattle.diploid_pairs.specs.Pairs.{in_place, pair_of, passes_from};

use bio_ids::AlleleIndex;

// The numbers of a genotype's two alleles, the lower first.
#[derive(Clone, Copy)]
pub struct AllelePair(pub u8, pub u8);

impl AllelePair {
    pub fn low(self) -> AlleleIndex
        ensures { result.0 ≡ self.0 }
    {
        AlleleIndex::new(self.0)
    }

    pub fn high(self) -> AlleleIndex
        ensures { result.0 ≡ self.1 }
    {
        AlleleIndex::new(self.1)
    }
}

// The pairs of 16 alleles, by place.
const PAIRS: [AllelePair; 136] = [
    AllelePair(0, 0),
    AllelePair(0, 1),
    AllelePair(1, 1),
    AllelePair(0, 2),
    AllelePair(1, 2),
    AllelePair(2, 2),
    AllelePair(0, 3),
    AllelePair(1, 3),
    AllelePair(2, 3),
    AllelePair(3, 3),
    AllelePair(0, 4),
    AllelePair(1, 4),
    AllelePair(2, 4),
    AllelePair(3, 4),
    AllelePair(4, 4),
    AllelePair(0, 5),
    AllelePair(1, 5),
    AllelePair(2, 5),
    AllelePair(3, 5),
    AllelePair(4, 5),
    AllelePair(5, 5),
    AllelePair(0, 6),
    AllelePair(1, 6),
    AllelePair(2, 6),
    AllelePair(3, 6),
    AllelePair(4, 6),
    AllelePair(5, 6),
    AllelePair(6, 6),
    AllelePair(0, 7),
    AllelePair(1, 7),
    AllelePair(2, 7),
    AllelePair(3, 7),
    AllelePair(4, 7),
    AllelePair(5, 7),
    AllelePair(6, 7),
    AllelePair(7, 7),
    AllelePair(0, 8),
    AllelePair(1, 8),
    AllelePair(2, 8),
    AllelePair(3, 8),
    AllelePair(4, 8),
    AllelePair(5, 8),
    AllelePair(6, 8),
    AllelePair(7, 8),
    AllelePair(8, 8),
    AllelePair(0, 9),
    AllelePair(1, 9),
    AllelePair(2, 9),
    AllelePair(3, 9),
    AllelePair(4, 9),
    AllelePair(5, 9),
    AllelePair(6, 9),
    AllelePair(7, 9),
    AllelePair(8, 9),
    AllelePair(9, 9),
    AllelePair(0, 10),
    AllelePair(1, 10),
    AllelePair(2, 10),
    AllelePair(3, 10),
    AllelePair(4, 10),
    AllelePair(5, 10),
    AllelePair(6, 10),
    AllelePair(7, 10),
    AllelePair(8, 10),
    AllelePair(9, 10),
    AllelePair(10, 10),
    AllelePair(0, 11),
    AllelePair(1, 11),
    AllelePair(2, 11),
    AllelePair(3, 11),
    AllelePair(4, 11),
    AllelePair(5, 11),
    AllelePair(6, 11),
    AllelePair(7, 11),
    AllelePair(8, 11),
    AllelePair(9, 11),
    AllelePair(10, 11),
    AllelePair(11, 11),
    AllelePair(0, 12),
    AllelePair(1, 12),
    AllelePair(2, 12),
    AllelePair(3, 12),
    AllelePair(4, 12),
    AllelePair(5, 12),
    AllelePair(6, 12),
    AllelePair(7, 12),
    AllelePair(8, 12),
    AllelePair(9, 12),
    AllelePair(10, 12),
    AllelePair(11, 12),
    AllelePair(12, 12),
    AllelePair(0, 13),
    AllelePair(1, 13),
    AllelePair(2, 13),
    AllelePair(3, 13),
    AllelePair(4, 13),
    AllelePair(5, 13),
    AllelePair(6, 13),
    AllelePair(7, 13),
    AllelePair(8, 13),
    AllelePair(9, 13),
    AllelePair(10, 13),
    AllelePair(11, 13),
    AllelePair(12, 13),
    AllelePair(13, 13),
    AllelePair(0, 14),
    AllelePair(1, 14),
    AllelePair(2, 14),
    AllelePair(3, 14),
    AllelePair(4, 14),
    AllelePair(5, 14),
    AllelePair(6, 14),
    AllelePair(7, 14),
    AllelePair(8, 14),
    AllelePair(9, 14),
    AllelePair(10, 14),
    AllelePair(11, 14),
    AllelePair(12, 14),
    AllelePair(13, 14),
    AllelePair(14, 14),
    AllelePair(0, 15),
    AllelePair(1, 15),
    AllelePair(2, 15),
    AllelePair(3, 15),
    AllelePair(4, 15),
    AllelePair(5, 15),
    AllelePair(6, 15),
    AllelePair(7, 15),
    AllelePair(8, 15),
    AllelePair(9, 15),
    AllelePair(10, 15),
    AllelePair(11, 15),
    AllelePair(12, 15),
    AllelePair(13, 15),
    AllelePair(14, 15),
    AllelePair(15, 15),
];

// The table. Its rule: the pair (j, k) stands at k(k+1)/2 + j.
pub fn table() -> [AllelePair; 136]
    ensures { passes_from 0 in_place result ≡ true }
{
    PAIRS
}

// The pair at a place. The pairs of fewer than 16 alleles stand at the same places.
pub fn pair_at(place: usize) -> Option<AllelePair>
    ensures { pair_of result ≡ get_elem? (genotype_pairs 16) place }
{
    table().get(place).copied()
}

// The place of two alleles, in either order.
pub fn place_of(a: AlleleIndex, b: AlleleIndex) -> usize
    ensures { result ≡ genotype_index_any a.0 b.0 }
{
    let j = a.get();
    let k = b.get();
    if j <= k {
        k * (k + 1) / 2 + j
    } else {
        j * (j + 1) / 2 + k
    }
}
