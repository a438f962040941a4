// A combined list read front to back: its header, and then a cursor by value over its record groups. Each step reads one group.
#![tactic(auto)]

ghost use Rattle.std.specs.Prelude.{◌≤◌, ◌≡◌};
ghost use Rattle.std.proofs.Math.Option.{get_or};
ghost use Rattle.definitions.specs.Limits.{max_samples};
ghost use Rattle.list_reader.specs.RecordGroups.{end_option};
ghost use Rattle.list_walk.specs.Walk.{FigureRead, HeaderRead, SteppedFrom, start_of};

use answers::{LoadError, Refusal};
use bio_ids::GenomePosition;
use list_reader::{PreviousRecord, RecordPlace};

// ---- the header

// How many samples and records a list says it has, and where its first record group begins.
#[derive(Clone, Copy)]
pub struct ListHeader {
    pub samples: usize,
    pub records: u32,
    pub next: usize,
}

// The line `records` at an offset, behind the names of so many samples. If it is wrong, the names are cleared.
fn records_line(
    list: &[u8],
    samples: usize,
    at: usize,
    names: &mut [usize; 128],
) -> Result<ListHeader, Refusal>
    ensures { FigureRead list.now samples at names.old names.new result }
{
    let Some((records, end)) = kv_text::number_line(list, at, b"records=") else {
        slices::clear(names, 0);
        return Err(Refusal::Spelling);
    };
    let next = end + 1;
    Ok(ListHeader {
        samples,
        records,
        next,
    })
}

// The header of a list. Where the names stand goes into `names`, two numbers each; or the row that refuses it, 1 to 3, and zeros.
pub fn read_header(list: &[u8], names: &mut [usize; 128]) -> Result<ListHeader, Refusal>
    ensures { HeaderRead list.now names.old names.new result }
{
    match sample_names::read_samples(list, names) {
        Ok(lines) => records_line(list, lines.count, lines.next, names),
        Err(LoadError::Refused(refusal)) => Err(refusal),
        Err(LoadError::NoRoom) => Err(Refusal::Size),
    }
}

// ---- the record groups

// Where the next record group begins, how many were read, and the contig and last position of the record before, if there is one.
#[derive(Clone, Copy)]
pub struct ListCursor {
    pub next: usize,
    pub read: u32,
    pub previous: Option<PreviousRecord>,
}

// Before the first record group.
pub fn first_group(header: ListHeader) -> ListCursor
    ensures { result ≡ start_of header }
{
    ListCursor {
        next: header.next,
        read: 0,
        previous: None,
    }
}

// The last position of a record: END, or POS if END is missing.
pub fn record_end(pos: GenomePosition, end: Option<GenomePosition>) -> GenomePosition
    ensures { result.0 ≡ get_or (end_option end) pos.0 }
{
    end.unwrap_or(pos)
}

// The record group at a cursor: a record, and the cursor behind its group; or none, where the list ends; or the row that refuses the group,
// 1 or 4 to 8. The table takes a row for each sample of the record, as list_reader::record_at says; it is zero after a refusal, and as it was
// at the list's end.
pub fn step(
    list: &[u8],
    header: ListHeader,
    cursor: ListCursor,
    rows: &mut [usize; 1408],
) -> Result<Option<(RecordPlace, ListCursor)>, Refusal>
    requires { header.samples ≤ max_samples }
    ensures { SteppedFrom list.now header cursor rows.old rows.new result }
{
    let next = cursor.next;
    let read = cursor.read;
    if header.records <= read {
        if next < list.len() {
            slices::clear(rows, 0);
            return Err(Refusal::Spelling);
        }
        return Ok(None);
    }
    let place = list_reader::record_at(list, next, header.samples, cursor.previous, rows)?;
    let previous = PreviousRecord {
        contig: place.contig,
        end: record_end(place.pos, place.end),
    };
    let behind = ListCursor {
        next: place.next,
        read: read + 1,
        previous: Some(previous),
    };
    Ok(Some((place, behind)))
}
