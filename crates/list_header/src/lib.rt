// The header of a list, and the offset and the count of a list that is first measured and then written.
#![tactic(auto)]

ghost use Rattle.std.specs.Prelude.{◌≡◌, ◌+◌, min};
ghost use Rattle.definitions.specs.Printed.{printed_header};
ghost use Rattle.kv_write.specs.Laid.{Laid};
ghost use Rattle.tables.specs.Tables.{names_in};
ghost use Rattle.list_header.specs.HeaderNames.{HeaderNames};
ghost use Rattle.list_header.specs.Measured.{limit, most_count};

// Lays the header of a list of so many records: how many samples, their names, and the number of records.
pub fn put_header(s: &[u8], names: &[usize], samples: usize, records: u32, out: &mut [u8]) -> usize
    requires { HeaderNames s.now names.now samples }
    ensures { Laid out.old 0
        (printed_header (names_in s.now names.now samples) records)
        out.new result }
{
    let mut next = kv_write::put_number_line(out, 0, b"samples=", samples as u32);
    let (parts, _) = names.as_chunks::<2>();
    for part in &parts[..samples] {
        let name = tables::part(s, part[0], part[1]);
        next = kv_write::put_line(out, next, b"sample=", name);
    }
    kv_write::put_number_line(out, next, b"records=", records)
}

// An offset held at 2^63 at most, so that what is laid from there on never runs past a usize.
pub fn cap(at: usize) -> usize
    ensures { result ≡ min limit at }
{
    at.min(9223372036854775808)
}

// One more record, held at the greatest u32.
pub fn count_more(count: usize) -> usize
    ensures { result ≡ min most_count (count + 1) }
{
    count.saturating_add(1).min(4294967295)
}
