// Many positions looked up in a combined list, front to back: the pairs are in list order, so each record group is read once and each pair
// is answered on the way. The library's entry `look_up`.
#![tactic(auto)]

ghost use Rattle.std.specs.Prelude.{◌≤◌, length, ◌≡◌};
ghost use Rattle.answers.specs.Options.{option_of};
ghost use Rattle.asked_places.specs.Asked.{place_with};
ghost use Rattle.definitions.specs.Limits.{max_samples};
ghost use Rattle.definitions.specs.LookUp.{looked_up};
ghost use Rattle.position_lookup.specs.Found.{FoundGiven, Gives, LookUpAnswered, PairsReady, PairsSearched, PlacesReady, Reaches, Stands, reached_last, search_of, with_room};
ghost use Rattle.position_lookup.specs.Search.{held_by};

use answers::Refusal;
use bio_ids::GenomePosition;
use list_reader::PreviousRecord;
use list_walk::{ListCursor, ListHeader};

// ---- one pair

// Where a search stands: behind the record that was read last, which begins at `first`.
#[derive(Clone, Copy)]
pub struct Search {
    pub cursor: ListCursor,
    pub first: GenomePosition,
}

// Whether a record's stretch, up to its last position, ends in list order at a position or after it.
fn is_reached(
    list: &[u8],
    previous: Option<PreviousRecord>,
    contig: &[u8],
    position: GenomePosition,
) -> bool
    ensures { result ≡ reached_last list.now previous (place_with contig.now position) }
{
    let Some(last) = previous else {
        return false;
    };
    let on = tables::part(list, last.contig.at, last.contig.end);
    asked_places::not_after(contig, position, on, last.end)
}

// Reads record groups until one reaches a position, or the list ends: where the search then stands, or the row that refuses a group before it.
fn reach(
    list: &[u8],
    header: ListHeader,
    search: Search,
    contig: &[u8],
    position: GenomePosition,
    rows: &mut [usize; 1408],
) -> Result<Search, Refusal>
    requires { header.samples ≤ max_samples }
    ensures { Reaches list.now header search (place_with contig.now position) result }
{
    let mut cursor = search.cursor;
    let mut first = search.first;
    // the test stands before the step: no group is read for a position that the last record reaches
    loop {
        if is_reached(list, cursor.previous, contig, position) {
            return Ok(Search { cursor, first });
        }
        let Some((place, next)) = list_walk::step(list, header, cursor, rows)? else {
            return Ok(Search { cursor, first });
        };
        first = place.pos;
        cursor = next;
    }
}

// The number of the record that was read last, if its stretch holds a position.
fn holder(list: &[u8], search: Search, contig: &[u8], position: GenomePosition) -> Option<u32>
    requires { Stands list.now search }
    ensures { (stands : Stands list.now search)
        → option_of result ≡ held_by (place_with contig.now position) stands.before }
{
    let last = search.cursor.previous?;
    let on = tables::part(list, last.contig.at, last.contig.end);
    if !kv_text::same_bytes(contig, on) {
        return None;
    }
    if position.get() < search.first.get() {
        return None;
    }
    if last.end.get() < position.get() {
        return None;
    }
    Some(search.cursor.read - 1)
}

// ---- all pairs

// What the output has for a place that no record holds.
const NO_RECORD: u32 = 4294967295;

// Looks the pairs of a text up one after the other, and counts the record groups that were read. The table `found` takes a number for each.
fn search_pairs(
    list: &[u8],
    header: ListHeader,
    asked: &[u8],
    found: &mut [u32; 1024],
    rows: &mut [usize; 1408],
) -> Result<u32, Refusal>
    requires { PairsReady asked.now header }
    ensures { (ready : PairsReady asked.now header)
        → PairsSearched (search_of list.now header ready.places) found.old found.new result }
{
    let mut search = Search {
        cursor: list_walk::first_group(header),
        first: GenomePosition::new_1based(0),
    };
    let mut at = 0;
    let mut count = 0;
    // a pair says where the next begins
    while at < asked.len() {
        let pair = asked_places::pair_at(asked, at).ok_or(Refusal::Spelling)?;
        let contig = tables::part(asked, pair.contig.at, pair.contig.end);
        let standing = reach(list, header, search, contig, pair.position, rows)?;
        let number = holder(list, standing, contig, pair.position).unwrap_or(NO_RECORD);
        slices::store(found, count, number);
        search = standing;
        at = pair.next;
        count += 1;
    }
    Ok(search.cursor.read)
}

// ---- the answers

// How many pairs were looked up, and how many record groups were read for them.
#[derive(Clone, Copy)]
pub struct LookedUp {
    pub pairs: usize,
    pub groups: u32,
}

// The answers for so many pairs: row 14 if the output has fewer places.
fn give_found(
    found: &[u32],
    count: usize,
    groups: u32,
    out: &mut [u32],
) -> Result<LookedUp, Refusal>
    requires { count ≤ length found.now }
    ensures { FoundGiven found.now count groups out.old out.new result }
{
    if out.len() < count {
        return Err(Refusal::Output);
    }
    slices::copy_over(&mut out[..count], &found[..count]);
    Ok(LookedUp {
        pairs: count,
        groups,
    })
}

// The answers for so many pairs from the record groups behind the header: rows 1, 4 to 8 and 14.
fn look_up_records(
    list: &[u8],
    header: ListHeader,
    asked: &[u8],
    count: usize,
    out: &mut [u32],
) -> Result<LookedUp, Refusal>
    requires { PlacesReady asked.now count × (header.samples ≤ max_samples) }
    ensures { (ready : PlacesReady asked.now count)
        → Gives (with_room (length out.old) (search_of list.now header ready.places)) out.old out.new result }
{
    let mut found = [0u32; 1024];
    let mut rows = [0usize; 1408];
    let groups = search_pairs(list, header, asked, &mut found, &mut rows)?;
    give_found(&found, count, groups, out)
}

// The answers for so many pairs, which are in order: rows 1 to 8 and 14.
fn look_up_pairs(
    list: &[u8],
    asked: &[u8],
    count: usize,
    out: &mut [u32],
) -> Result<LookedUp, Refusal>
    requires { PlacesReady asked.now count }
    ensures { (ready : PlacesReady asked.now count)
        → Gives (with_room (length out.old) (looked_up list.now ready.places)) out.old out.new result }
{
    let mut names = [0usize; 128];
    let header = list_walk::read_header(list, &mut names)?;
    look_up_records(list, header, asked, count, out)
}

// The library's entry: for each pair of `asked`, groups of `contig` and `pos` in list order, the number of the record of a combined list
// whose stretch holds it, counted from 0, or 4294967295 for none. The answer is how many pairs there are, and how many record groups were read
// for them; or the row that refuses the call, and then `out` is as it was.
pub fn look_up(list: &[u8], asked: &[u8], out: &mut [u32]) -> Result<LookedUp, Refusal>
    ensures { LookUpAnswered list.now asked.now out.old out.new result }
{
    if 16777216 < list.len() {
        return Err(Refusal::Size);
    }
    if 16777216 < asked.len() {
        return Err(Refusal::Size);
    }
    let count = asked_places::count_pairs(asked)?;
    look_up_pairs(list, asked, count, out)
}
