// The called list: the records of a combined list, read back one after the other, and those that call a variant laid without
// `<NON_REF>`; the library's entry `call`.
#![tactic(auto)]

ghost use Rattle.std.specs.Prelude.{◌≤◌, eqb, length, ◌&&◌, not, ◌≡◌};
ghost use Rattle.std.proofs.lemmas.List.Edits.{sets};
ghost use Rattle.answers.specs.Answered.{Answered};
ghost use Rattle.definitions.specs.CalledList.{called_list};
ghost use Rattle.definitions.specs.Checked.{within};
ghost use Rattle.list_header.specs.HeaderNames.{HeaderNames};
ghost use Rattle.list_header.specs.Measured.{limit};
ghost use Rattle.genotype_gvcfs.specs.Called.{HeaderHeld, Measurement, called_from, list_to};
ghost use Rattle.genotype_gvcfs.specs.Walk.{CalledLaid, LayReady, RecordsWalked, WalkReady, read_with, records_from};

use answers::{LoadError, Refusal};
use list_reader::{PreviousRecord, RecordPlace};

// ---- one record

// Whether a record is called, by how many alleles it has, REF and `<NON_REF>` among them, and whether some sample has PL.
fn is_called(alleles: usize, pl: bool) -> bool
    ensures { result ≡ not (eqb alleles 2) && pl }
{
    alleles != 2 && pl
}

// Where the called list ends so far, and how many records it has.
#[derive(Clone, Copy)]
struct ListEnd {
    at: usize,
    count: usize,
}

// Lays a record that was read into the table, if it is called.
fn genotype_one_record(
    s: &[u8],
    place: RecordPlace,
    rows: &[usize],
    samples: usize,
    out: &mut [u8],
    list: ListEnd,
) -> ListEnd
    requires { LayReady s.now place rows.now samples out.old list.at list.count }
    ensures { (ready : LayReady s.now place rows.now samples out.old list.at list.count)
        → CalledLaid ready.d₀ ready.bytes (read_with ready) out.new result.at result.count }
{
    if !is_called(place.count, place.has_pl) {
        return list;
    }
    let contig = tables::part(s, place.contig.at, place.contig.end);
    let reference = tables::part(s, place.alleles.refs.at, place.alleles.refs.end);
    let alts = tables::part(s, place.alleles.alts.at, place.alleles.alts.end);
    let end = called_lines::put_called_record(
        s,
        contig,
        place.pos,
        reference,
        alts,
        place.count,
        rows,
        samples,
        out,
        list.at,
    );
    ListEnd {
        at: list_header::cap(end),
        count: list_header::count_more(list.count),
    }
}

// ---- all records

// Reads so many record groups from an offset on, which must be all that there are, and lays those that are called: rows 1 and 4 to 8.
fn genotype_gvcf_records(
    s: &[u8],
    at: usize,
    samples: usize,
    records: u32,
    rows: &mut [usize],
    out: &mut [u8],
    from: usize,
) -> Result<ListEnd, Refusal>
    requires { WalkReady samples rows.old out.old from }
    ensures { (ready : WalkReady samples rows.old out.old from)
        → RecordsWalked (records_from samples records s.now at) records ready.d₀ ready.bytes out.new result }
{
    let mut next = at;
    let mut previous = None;
    let mut list = ListEnd { at: from, count: 0 };
    // so many groups are asked for; each says where the next begins
    for read in 0..records {
        let place = list_reader::record_at(s, next, samples, previous, rows)?;
        list = genotype_one_record(s, place, rows, samples, out, list);
        previous = Some(PreviousRecord {
            contig: place.contig,
            end: list_walk::record_end(place.pos, place.end),
        });
        next = place.next;
    }
    if next < s.len() {
        return Err(Refusal::Spelling);
    }
    Ok(list)
}

// ---- the two passes

// Lays the list that was measured, of so many records, from the beginning of a buffer on, as far as it fits.
fn write_list(
    s: &[u8],
    names: &[usize],
    samples: usize,
    records: u32,
    at: usize,
    rows: &mut [usize],
    out: &mut [u8],
    len: usize,
    count: usize,
)
    requires { Measurement s.now names.now samples records at rows.old len count × (length out.old ≤ limit) }
    ensures { (m : Measurement s.now names.now samples records at rows.old len count)
        → out.new ≡ sets out.old 0 (list_to m) }
{
    let from = list_header::put_header(s, names, samples, count as u32, out);
    let _ = genotype_gvcf_records(s, at, samples, records, rows, out, from);
}

// Writes the list whose records were measured: row 14 if it has more bytes than there is room for.
fn write_measured(
    s: &[u8],
    names: &[usize],
    samples: usize,
    records: u32,
    at: usize,
    rows: &mut [usize],
    out: &mut [u8],
    len: usize,
    count: usize,
) -> Result<usize, Refusal>
    requires { Measurement s.now names.now samples records at rows.old len count }
    ensures { (m : Measurement s.now names.now samples records at rows.old len count)
        → Answered (within (length out.old) (list_to m)) out.old out.new result }
{
    let header = list_header::put_header(s, names, samples, count as u32, &mut out[..0]);
    let end = header + len;
    if out.len() < end {
        return Err(Refusal::Output);
    }
    write_list(
        s,
        names,
        samples,
        records,
        at,
        rows,
        &mut out[..end],
        len,
        count,
    );
    Ok(end)
}

// Writes the called list of the record groups from an offset on: rows 1, 4 to 8 and 14. The records are measured before anything is written.
fn call_records(
    s: &[u8],
    names: &[usize],
    samples: usize,
    records: u32,
    at: usize,
    out: &mut [u8],
) -> Result<usize, Refusal>
    requires { HeaderNames s.now names.now samples }
    ensures { Answered (called_from s.now names.now samples records at (length out.old)) out.old out.new result }
{
    let mut rows = [0usize; 1408];
    let measured = genotype_gvcf_records(s, at, samples, records, &mut rows, &mut out[..0], 0)?;
    write_measured(
        s,
        names,
        samples,
        records,
        at,
        &mut rows,
        out,
        measured.at,
        measured.count,
    )
}

// ---- the list

// Writes the called list of a text whose `samples` and `sample` lines are read, up to an offset: the line `records` (1), and then the records.
fn call_samples(
    s: &[u8],
    names: &[usize],
    samples: usize,
    at: usize,
    out: &mut [u8],
) -> Result<usize, Refusal>
    requires { HeaderHeld s.now names.now samples at }
    ensures { Answered (called_list s.now (length out.old)) out.old out.new result }
{
    let Some((records, end)) = kv_text::number_line(s, at, b"records=") else {
        return Err(Refusal::Spelling);
    };
    call_records(s, names, samples, records, end + 1, out)
}

// The library's entry: writes the called list of a combined list. The answer is its length, or the row that refuses it, and then `out`
// is as it was.
pub fn call(list: &[u8], out: &mut [u8]) -> Result<usize, Refusal>
    ensures { Answered (called_list list.now (length out.old)) out.old out.new result }
{
    if 16777216 < list.len() {
        return Err(Refusal::Size);
    }
    let mut names = [0usize; 128];
    match sample_names::read_samples(list, &mut names) {
        Ok(lines) => call_samples(list, &names, lines.count, lines.next, out),
        Err(error) => match error {
            LoadError::Refused(refusal) => Err(refusal),
            LoadError::NoRoom => Err(Refusal::Size),
        },
    }
}
