// The lines of a record of the combined list, laid over a lent buffer as `kv_write` lays lines.
// Sites stand in a table, `rows`, over the cohort's text, `s`; `own` has for each sample the row of its site that covers the record's
// position, or a number past the table. `reference` or `allele` is REF of the record, as a text spells it, and `alts` are its ALTs, with
// commas; `fields` says where each of the `alt_count` ALTs stands there (`sample_alleles::split_alts`). What is laid is capitals.
#![tactic(auto)]

ghost use Rattle.std.specs.Prelude.{map, ◌≡◌, ◌+◌, ◌<◌, ◌≤◌, ◌^◌, length};
ghost use Rattle.answers.specs.Options.{option_of};
ghost use Rattle.definitions.specs.Alleles.{capital};
ghost use Rattle.definitions.specs.Lines.{line};
ghost use Rattle.definitions.specs.Numbers.{max_number};
ghost use Rattle.definitions.specs.Printed.{printed_sample_data};
ghost use Rattle.kv_write.specs.Laid.{Laid};
ghost use Rattle.sample_alleles.specs.Fields.{AltsAt};
ghost use Rattle.record_lines.specs.Head.{HeadFits, PlaceFits, end_from, head_of, place_of};
ghost use Rattle.record_lines.specs.Records.{RecordFits, record_bytes};
ghost use Rattle.record_lines.specs.Samples.{OwnPrintable, SamplePrintable, SamplesPrintable, SitePrintable, data_own, printed_own, printed_samples, printed_site};

use bio_ids::{GenomeLoc, GenomePosition};
use genotype_values::Depths;

// END of a record: its last position, if that is past its first.
fn end_from(loc: GenomeLoc) -> Option<u32>
    requires { loc.end.0 ≤ max_number }
    ensures { option_of result ≡ end_from loc.start.0 loc.end.0 }
{
    let end = loc.end.get();
    if loc.start.get() < end {
        return Some(end as u32);
    }
    None
}

// Lays contig, POS and END. A record that is no block is passed with its position as start and as end, and has no END.
fn put_place(out: &mut [u8], at: usize, contig: &[u8], loc: GenomeLoc) -> usize
    requires { PlaceFits contig.now loc.start.0 loc.end.0 at }
    ensures { Laid out.old at (place_of contig.now loc.start.0 loc.end.0) out.new result }
{
    let pos = loc.start.get() as u32;
    let end = end_from(loc);
    let behind_contig = kv_write::put_line(out, at, b"contig=", contig);
    let behind_pos = kv_write::put_number_line(out, behind_contig, b"pos=", pos);
    kv_write::put_optional_number_line(out, behind_pos, b"end=", end)
}

// Lays the line of REF, its letters as capitals.
pub fn put_ref_line(out: &mut [u8], at: usize, reference: &[u8]) -> usize
    requires { at + length (line "ref" (map capital reference.now)) < 2 ^ 64 }
    ensures { Laid out.old at (line "ref" (map capital reference.now)) out.new result }
{
    let behind_key = kv_write::put_bytes(out, at, b"ref=");
    let behind_letters = kv_write::put_letters(out, behind_key, reference);
    kv_write::put_byte(out, behind_letters, b'\n')
}

// Lays the lines before the samples' of a block, REF and the ALTs as they are given: capitals already.
pub fn put_record_head(
    out: &mut [u8],
    at: usize,
    contig: &[u8],
    loc: GenomeLoc,
    reference: &[u8],
    alts: &[u8],
) -> usize
    requires { HeadFits contig.now loc.start.0 loc.end.0 reference.now alts.now at }
    ensures { Laid out.old at
        (head_of contig.now loc.start.0 loc.end.0 reference.now alts.now)
        out.new result }
{
    let behind_place = put_place(out, at, contig, loc);
    let behind_ref = kv_write::put_line(out, behind_place, b"ref=", reference);
    kv_write::put_line(out, behind_ref, b"alt=", alts)
}

// Lays what a site says of its sample in the record.
pub fn put_site_data(
    s: &[u8],
    rows: &[usize],
    site: usize,
    position: GenomePosition,
    reference: &[u8],
    alts: &[u8],
    fields: &[usize],
    alt_count: usize,
    out: &mut [u8],
    at: usize,
) -> usize
    requires { SitePrintable s.now rows.now site position.0 (map capital reference.now) alts.now at
        × AltsAt alts.now fields.now alt_count }
    ensures { Laid out.old at
        (printed_site s.now rows.now site position.0 (map capital reference.now) alts.now)
        out.new result }
{
    let mut map = [0u8; 16];
    let alleles = sample_alleles::indexes_of_relevant_alleles_for_gvcf(
        s, rows, site, position, reference, alts, fields, alt_count, &mut map,
    );
    let mut ad = [0u32; 8];
    let ad_count = tables::ad_of(s, rows, site, &mut ad);
    let mut pl = [0u32; 36];
    let pl_count = tables::pl_of(s, rows, site, &mut pl);
    let depths = Depths {
        dp: tables::dp_of(rows, site),
        mindp: tables::min_dp_of(rows, site),
    };
    genotype_values::put_sample_data(
        out,
        at,
        &map[..alleles],
        tables::gq_of(rows, site),
        depths,
        &ad[..ad_count],
        &pl[..pl_count],
    )
}

// Lays what the record says of a sample by the number of its site; a number past the table's is none.
fn put_sample(
    s: &[u8],
    rows: &[usize],
    own: usize,
    position: GenomePosition,
    reference: &[u8],
    alts: &[u8],
    fields: &[usize],
    alt_count: usize,
    out: &mut [u8],
    at: usize,
) -> usize
    requires { SamplePrintable s.now rows.now own position.0 (map capital reference.now) alts.now at
        × AltsAt alts.now fields.now alt_count }
    ensures { Laid out.old at
        (printed_sample_data (data_own s.now rows.now position.0 (map capital reference.now) alts.now own))
        out.new result }
{
    if own < rows.len() {
        return put_site_data(
            s, rows, own, position, reference, alts, fields, alt_count, out, at,
        );
    }
    genotype_values::put_missing_data(out, at)
}

// Lays what the record says of each of some samples by the numbers of their sites.
fn put_own_samples(
    s: &[u8],
    rows: &[usize],
    own: &[usize],
    position: GenomePosition,
    reference: &[u8],
    alts: &[u8],
    fields: &[usize],
    alt_count: usize,
    out: &mut [u8],
    at: usize,
) -> usize
    requires { OwnPrintable s.now rows.now own.now position.0 (map capital reference.now) alts.now at
        × AltsAt alts.now fields.now alt_count }
    ensures { Laid out.old at
        (printed_own s.now rows.now position.0 (map capital reference.now) alts.now own.now)
        out.new result }
{
    let mut next = at;
    for site in own {
        next = put_sample(
            s, rows, *site, position, reference, alts, fields, alt_count, out, next,
        );
    }
    next
}

// Lays what the record says of each of so many samples, by the rows of their sites.
pub fn merge_genotypes(
    s: &[u8],
    rows: &[usize],
    samples: usize,
    own: &[usize],
    position: GenomePosition,
    reference: &[u8],
    alts: &[u8],
    out: &mut [u8],
    at: usize,
) -> usize
    requires { SamplesPrintable s.now rows.now samples own.now alts.now at }
    ensures { Laid out.old at
        (printed_samples s.now rows.now samples own.now position.0 (map capital reference.now) alts.now)
        out.new result }
{
    let mut fields = [0usize; 32];
    let alt_count = sample_alleles::split_alts(alts, &mut fields);
    put_own_samples(
        s,
        rows,
        &own[..samples],
        position,
        reference,
        alts,
        &fields,
        alt_count,
        out,
        at,
    )
}

// Lays a record that is no block: contig, POS, REF, ALTs and the lines of its samples.
pub fn merge_result_to_record(
    s: &[u8],
    rows: &[usize],
    samples: usize,
    contig: &[u8],
    position: GenomePosition,
    allele: &[u8],
    own: &[usize],
    alts: &[u8],
    out: &mut [u8],
    at: usize,
) -> usize
    requires { RecordFits s.now rows.now samples contig.now position.0 (map capital allele.now) own.now alts.now at }
    ensures { Laid out.old at
        (record_bytes s.now rows.now samples contig.now position.0 (map capital allele.now) own.now alts.now)
        out.new result }
{
    let loc = GenomeLoc::new(position, position);
    let behind_place = put_place(out, at, contig, loc);
    let behind_ref = put_ref_line(out, behind_place, allele);
    let next = kv_write::put_line(out, behind_ref, b"alt=", alts);
    merge_genotypes(s, rows, samples, own, position, allele, alts, out, next)
}
