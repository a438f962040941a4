// The pairs of a text that asks for positions, found at an offset of the lent text: nothing of them is stored.
#![tactic(auto)]

ghost use Rattle.std.specs.Prelude.{◌≡◌};
ghost use Rattle.definitions.specs.LookUp.{not_after};
ghost use Rattle.asked_places.specs.Asked.{PairRead, PlacesRead, place_with};

use answers::Refusal;
use bio_ids::GenomePosition;
use kv_text::Part;
use std::cmp::Ordering;

// A pair: where its contig stands, its position, and where the next pair begins.
#[derive(Clone, Copy)]
pub struct Pair {
    pub contig: Part,
    pub position: GenomePosition,
    pub next: usize,
}

// The pair at an offset.
pub fn pair_at(s: &[u8], at: usize) -> Option<Pair>
    ensures { PairRead s.now at result }
{
    let contig = kv_text::name_line(s, at, b"contig=")?;
    let (number, end) = kv_text::number_line(s, contig.end + 1, b"pos=")?;
    let position = GenomePosition::new_1based(number as u64);
    Some(Pair {
        contig,
        position,
        next: end + 1,
    })
}

// Whether a position of a contig does not stand after another in list order: by contig name, then by position.
pub fn not_after(
    contig: &[u8],
    position: GenomePosition,
    other: &[u8],
    last: GenomePosition,
) -> bool
    ensures { result ≡ not_after (place_with contig.now position) (place_with other.now last) }
{
    match kv_text::compare_bytes(contig, other) {
        Ordering::Less => true,
        Ordering::Equal => position.get() <= last.get(),
        Ordering::Greater => false,
    }
}

// How many pairs a text has; or why it is refused: row 1 or 18. The first pair is compared with the empty name at 0, after which every pair
// stands. A pair says where the next begins.
pub fn count_pairs(s: &[u8]) -> Result<usize, Refusal>
    ensures { PlacesRead s.now result }
{
    let mut at = 0;
    let mut count = 0;
    let mut last = Part { at: 0, end: 0 };
    let mut position = GenomePosition::new_1based(0);
    // a pair says where the next begins
    while at < s.len() {
        let pair = pair_at(s, at).ok_or(Refusal::Spelling)?;
        if 1024 <= count {
            return Err(Refusal::AskedPlaces);
        }
        let before = tables::part(s, last.at, last.end);
        let contig = tables::part(s, pair.contig.at, pair.contig.end);
        let here = pair.position;
        if !not_after(before, position, contig, here) {
            return Err(Refusal::AskedPlaces);
        }
        last = pair.contig;
        position = here;
        at = pair.next;
        count += 1;
    }
    Ok(count)
}
