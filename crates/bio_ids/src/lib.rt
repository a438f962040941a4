// The numbers of alleles, samples and positions, each a type of its own, so that none is taken for another.
#![tactic(auto)]

ghost use Rattle.std.specs.Prelude.{◌≡◌, leb, ◌&&◌};

// Document 01, allele number: an allele in a record's list of at most 16, from 0, which is REF. A byte: no place of a pair wraps.
#[derive(Clone, Copy, PartialEq, Eq, PartialOrd, Ord)]
pub struct AlleleIndex(u8);

impl AlleleIndex {
    pub fn new(index: u8) -> Self
        ensures { result.0 ≡ index }
    {
        Self(index)
    }

    pub fn get(self) -> usize
        ensures { result ≡ self.0 }
    {
        self.0 as usize
    }

    pub fn reference() -> Self
        ensures { result.0 ≡ 0 }
    {
        Self(0)
    }
}

// Document 01, sample number: a sample in the order of the cohort's names, from 0.
#[derive(Clone, Copy, PartialEq, Eq, PartialOrd, Ord)]
pub struct SampleIndex(usize);

impl SampleIndex {
    pub fn new(index: usize) -> Self
        ensures { result.0 ≡ index }
    {
        Self(index)
    }

    pub fn get(self) -> usize
        ensures { result ≡ self.0 }
    {
        self.0
    }
}

// Document 01, position: a base of a contig, from 1. The contig is named beside it.
#[derive(Clone, Copy, PartialEq, Eq, PartialOrd, Ord)]
pub struct GenomePosition(u64);

impl GenomePosition {
    // Unchecked, for a number known to be at least 1.
    pub fn new_1based(pos: u64) -> Self
        ensures { result.0 ≡ pos }
    {
        Self(pos)
    }

    pub fn get(self) -> u64
        ensures { result ≡ self.0 }
    {
        self.0
    }
}

// Positions of a contig from a first to a last one. The contig is named beside it.
#[derive(Clone, Copy)]
pub struct GenomeLoc {
    pub start: GenomePosition,
    pub end: GenomePosition,
}

impl GenomeLoc {
    pub fn new(start: GenomePosition, end: GenomePosition) -> Self
        ensures { (result.start.0 ≡ start.0) × (result.end.0 ≡ end.0) }
    {
        Self { start, end }
    }

    // Whether all positions of another are among these, for one that has some.
    pub fn contains(self, other: GenomeLoc) -> bool
        ensures { result ≡ leb self.start.0 other.start.0 && leb other.end.0 self.end.0 }
    {
        self.start <= other.start && other.end <= self.end
    }
}
