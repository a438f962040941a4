// The lines of a called record and its samples, laid over a buffer as `kv_write` lays lines: those of the record without `<NON_REF>`,
// `dropped` by its number among the record's alleles. The samples' data stand in a table, `rows`, over the list's text, `s`. REF and ALTs
// are given as the list spells them, and laid as capitals.
#![tactic(auto)]

ghost use Rattle.std.specs.Prelude.{◌||◌, not, List, map, ◌≡◌, ℕ, ◌+◌, ◌<◌, ◌≤◌, ◌^◌, length, take};
ghost use Rattle.std.proofs.Math.Option.{get_or};
ghost use Rattle.answers.specs.Options.{option_of};
ghost use Rattle.definitions.specs.Alleles.{alleles_of, capital, non_ref, same_allele};
ghost use Rattle.definitions.specs.Bytes.{comma, fields_of};
ghost use Rattle.definitions.specs.CalledGenotypes.{pl_without_allele};
ghost use Rattle.definitions.specs.CalledList.{called_data, called_record, printed_called_record};
ghost use Rattle.definitions.specs.Lists.{index_where};
ghost use Rattle.definitions.specs.Printed.{printed_values};
ghost use Rattle.genotype_values.specs.Remapped.{Filled, of_present};
ghost use Rattle.kv_write.specs.Laid.{Laid};
ghost use Rattle.laws.proofs.AllelesAsRead.{ref_alts_as_read};
ghost use Rattle.called_lines.specs.SampleValues.{CalledPrintable, called_values, own_values};
ghost use Rattle.called_lines.specs.Rows.{CalledHeadFits, CalledRecordFits, SamplePrintable, SamplesPrintable, alt_behind, alt_line, called_alts, called_head, called_sample, called_samples, row_record};

use bio_ids::{AlleleIndex, GenomePosition, SampleIndex};

// ---- the lines of a sample

// PL of 2 to 16 alleles without one of them, and none for an empty PL: how many values it has.
fn remap_present_pl(alleles: usize, dropped: AlleleIndex, pl: &[u32], out: &mut [u32]) -> usize
    requires { (2 ≤ alleles) × (alleles ≤ 16) × (dropped.0 < alleles) }
    ensures { Filled
        (of_present (pl_without_allele alleles dropped.0) pl.now)
        out.old out.new result }
{
    if pl.is_empty() {
        return 0;
    }
    called_genotypes::remap_pl_drop_alleles(alleles, dropped, pl, out)
}

// Lays the lines of a sample whose AD and PL are without the dropped allele; an empty one is missing.
fn put_called_values(out: &mut [u8], at: usize, dp: Option<u32>, ad: &[u32], pl: &[u32]) -> usize
    requires { at + length (printed_values (called_values (option_of dp) ad.now pl.now)) < 2 ^ 64 }
    ensures { Laid out.old at
        (printed_values (called_values (option_of dp) ad.now pl.now))
        out.new result }
{
    let gq = called_genotypes::gq_of_pl(pl);
    let behind_gq = kv_write::put_optional_number_line(out, at, b"gq=", gq);
    let behind_dp = kv_write::put_optional_number_line(out, behind_gq, b"dp=", dp);
    let behind_ad = kv_write::put_optional_numbers_line(out, behind_dp, b"ad=", 0 < ad.len(), ad);
    kv_write::put_optional_numbers_line(out, behind_ad, b"pl=", 0 < pl.len(), pl)
}

// Lays the lines of a sample by its own DP, AD and PL over all alleles; an empty AD or PL is missing. Asks that the dropped allele is
// one of 2 to 16, that AD is missing or has a number for each allele, and that the offset behind the lines fits a usize.
pub fn put_called_data(
    out: &mut [u8],
    at: usize,
    alleles: usize,
    dropped: AlleleIndex,
    dp: Option<u32>,
    ad: &[u32],
    pl: &[u32],
) -> usize
    requires { CalledPrintable alleles dropped.0 (option_of dp) ad.now pl.now at }
    ensures { Laid out.old at
        (printed_values (called_data alleles dropped.0 (own_values (option_of dp) ad.now pl.now)))
        out.new result }
{
    let mut called_pl = [0u32; 136];
    let pl_count = remap_present_pl(alleles, dropped, pl, &mut called_pl);
    let mut called_ad = [0u32; 16];
    let ad_count = called_genotypes::remap_ad(dropped, ad, &mut called_ad);
    put_called_values(out, at, dp, &called_ad[..ad_count], &called_pl[..pl_count])
}

// ---- the alleles

// The number of `<NON_REF>` among REF and ALTs with commas; 0 if it is none of the first 255 ALTs.
pub fn non_ref_number(alts: &[u8]) -> AlleleIndex
    ensures { (ref : List ℕ) → result.0 ≡ get_or
        (index_where (same_allele non_ref) (take 256 (alleles_of (ref_alts_as_read ref (fields_of comma alts.now)))))
        0 }
{
    let mut at = 0;
    let mut number: u8 = 1;
    // by offsets: what is before the field is the answer too
    loop {
        let end = kv_text::field_end(alts, at, b',');
        if kv_text::same_bytes(&alts[at..end], b"<NON_REF>") {
            return AlleleIndex::new(number);
        }
        if alts.len() <= end {
            return AlleleIndex::reference();
        }
        if number == 255 {
            return AlleleIndex::reference();
        }
        number += 1;
        at = end + 1;
    }
}

// Lays an ALT, its letters as capitals, unless it is dropped, with a comma if others are laid.
fn put_alt(out: &mut [u8], at: usize, others: bool, dropped: bool, alt: &[u8]) -> usize
    requires { at + length (alt_behind others dropped (map capital alt.now)) < 2 ^ 64 }
    ensures { Laid out.old at (alt_behind others dropped (map capital alt.now)) out.new result }
{
    if dropped {
        return at;
    }
    if !others {
        return kv_write::put_letters(out, at, alt);
    }
    let behind_comma = kv_write::put_byte(out, at, b',');
    kv_write::put_letters(out, behind_comma, alt)
}

// Whether ALTs are laid, behind one that may be dropped.
fn any_laid(others: bool, dropped: bool) -> bool
    ensures { result ≡ (others || not dropped) }
{
    others || !dropped
}

// Lays the ALTs, given with commas, without `<NON_REF>`.
fn alleles_without_non_ref(out: &mut [u8], at: usize, alts: &[u8]) -> usize
    requires { at + length (called_alts alts.now) < 2 ^ 64 }
    ensures { Laid out.old at (called_alts alts.now) out.new result }
{
    let mut next = at;
    let mut others = false;
    let mut from = 0;
    // by offsets: the fields are laid as they are found
    loop {
        let end = kv_text::field_end(alts, from, b',');
        let dropped = kv_text::same_bytes(&alts[from..end], b"<NON_REF>");
        next = put_alt(out, next, others, dropped, &alts[from..end]);
        others = any_laid(others, dropped);
        if alts.len() <= end {
            return next;
        }
        from = end + 1;
    }
}

// Lays the `alt` line without `<NON_REF>`. Asks that the offset behind it fits a usize.
pub fn put_called_alts(out: &mut [u8], at: usize, alts: &[u8]) -> usize
    requires { at + length (alt_line alts.now) < 2 ^ 64 }
    ensures { Laid out.old at (alt_line alts.now) out.new result }
{
    let behind_key = kv_write::put_bytes(out, at, b"alt=");
    let behind_alts = alleles_without_non_ref(out, behind_key, alts);
    kv_write::put_byte(out, behind_alts, b'\n')
}

// ---- a record

// Lays the lines before the samples'. Asks that the position is a number of a text, at most 2147483647, and that the offset behind the
// lines fits a usize.
pub fn put_called_head(
    out: &mut [u8],
    at: usize,
    contig: &[u8],
    pos: GenomePosition,
    reference: &[u8],
    alts: &[u8],
) -> usize
    requires { CalledHeadFits contig.now pos.0 reference.now alts.now at }
    ensures { Laid out.old at
        (called_head contig.now pos.0 reference.now alts.now)
        out.new result }
{
    let number = pos.get() as u32;
    let behind_contig = kv_write::put_line(out, at, b"contig=", contig);
    let behind_pos = kv_write::put_number_line(out, behind_contig, b"pos=", number);
    let behind_ref = record_lines::put_ref_line(out, behind_pos, reference);
    put_called_alts(out, behind_ref, alts)
}

// Lays the lines of the sample with this number.
fn put_called_sample(
    s: &[u8],
    alleles: usize,
    dropped: AlleleIndex,
    rows: &[usize],
    sample: SampleIndex,
    out: &mut [u8],
    at: usize,
) -> usize
    requires { SamplePrintable s.now alleles dropped.0 rows.now sample.0 at }
    ensures { Laid out.old at
        (called_sample s.now alleles dropped.0 rows.now sample.0)
        out.new result }
{
    let row = sample.get();
    let mut ad = [0u32; 16];
    let ad_count = tables::ad_of(s, rows, row, &mut ad);
    let mut pl = [0u32; 136];
    let pl_count = tables::pl_of(s, rows, row, &mut pl);
    put_called_data(
        out,
        at,
        alleles,
        dropped,
        tables::dp_of(rows, row),
        &ad[..ad_count],
        &pl[..pl_count],
    )
}

// Lays the lines of each of so many samples.
fn put_called_samples(
    s: &[u8],
    alleles: usize,
    dropped: AlleleIndex,
    rows: &[usize],
    samples: usize,
    out: &mut [u8],
    at: usize,
) -> usize
    requires { SamplesPrintable s.now alleles dropped.0 rows.now samples at }
    ensures { Laid out.old at
        (called_samples s.now alleles dropped.0 rows.now samples)
        out.new result }
{
    let mut next = at;
    // samples are gone through by their numbers, not by a slice
    for sample in 0..samples {
        let index = SampleIndex::new(sample);
        next = put_called_sample(s, alleles, dropped, rows, index, out, next);
    }
    next
}

// Lays a called record: the record with these alleles, `alleles` of them, whose samples' data are in the first rows of the table.
// Asks that there are at most 16 alleles, that AD and PL of each sample are missing or have a number for each allele and genotype, that
// the position is a number of a text, and that the offset behind the lines fits a usize: a record that was read has all this
// (`called_fits` of proofs/SoundCalled.antt; `called_is` says that it is this one).
pub fn put_called_record(
    s: &[u8],
    contig: &[u8],
    pos: GenomePosition,
    reference: &[u8],
    alts: &[u8],
    alleles: usize,
    rows: &[usize],
    samples: usize,
    out: &mut [u8],
    at: usize,
) -> usize
    requires { CalledRecordFits s.now contig.now pos.0 reference.now alts.now alleles rows.now samples at }
    ensures { Laid out.old at
        (printed_called_record (called_record
        (row_record s.now contig.now pos.0 reference.now alts.now rows.now samples)))
        out.new result }
{
    let dropped = non_ref_number(alts);
    let behind_head = put_called_head(out, at, contig, pos, reference, alts);
    put_called_samples(s, alleles, dropped, rows, samples, out, behind_head)
}
