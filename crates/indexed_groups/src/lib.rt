// The first 1,024 segments of reference.kv as rows of the table, read once for each call.
#![tactic(auto)]

ghost use Rattle.std.specs.Prelude.{◌≤◌, length, ◌≡◌};
ghost use Rattle.clip_and_reference.specs.Groups.{segments_read};
ghost use Rattle.tables.specs.Tables.{table_length};
ghost use Rattle.indexed_groups.specs.Indexed.{SegmentsGiven, SegmentsStored, rows_for};

// How many segments have rows, and where the others begin in the text.
#[derive(Clone, Copy)]
pub struct Stored {
    count: usize,
    next: usize,
}

// Stores the rows of the first segments, 1,024 at most.
fn store_segments(reference: &[u8], rows: &mut [usize]) -> Stored
    requires { table_length ≤ length rows.old }
    ensures stored { SegmentsStored reference.now rows.old rows.new result.count result.next }
    ensures counted { result.count ≡ rows_for (segments_read reference.now 0) }
{
    let mut at = 0;
    // `count` is the number of the row that is stored
    for count in 0..1024 {
        let Some(group) = clip_and_reference::segment_at(reference, at) else {
            return Stored { count, next: at };
        };
        let first = group.first.get() as usize;
        let row = [
            group.contig.at,
            group.contig.end,
            first,
            group.bases.at,
            group.bases.end,
        ];
        tables::store_row(rows, 90112 + count * 5, &row);
        at = group.next;
    }
    Stored {
        count: 1024,
        next: at,
    }
}

// Gives the first 1,024 segments of the reference their rows, in a table that has room for all rows; any other table stays as it was.
pub fn index_segments(reference: &[u8], rows: &mut [usize])
    ensures { SegmentsGiven reference.now rows.old rows.new }
{
    if rows.len() < 95234 {
        return;
    }
    let stored = store_segments(reference, rows);
    rows[95232] = stored.count;
    rows[95233] = stored.next;
}
