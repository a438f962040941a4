// For each allele of a record, the number of a sample's own allele.
// A site's alleles are lent as bytes: `own` is its REF, and `alternates` are its ALTs, with commas. `starts` says whether the
// site starts at the record's position (else it starts earlier), and `reference` is REF of the record; all three as spelled, in either
// case. `alts` are the record's ALTs, with commas, and `fields` says where each of the first `count` of them stands there, by two numbers.
// The site's own alleles are gone through once: what each reads as gets its number, the last of them first, so that the first stays.
// Numbers are bytes: alleles past number 255 are not looked at. A site with at most 255 ALTs has none (`few_alleles`, proofs/Readings.antt).
#![tactic(auto)]

ghost use Rattle.std.specs.Prelude.{◌&&◌, cond, ◌++◌, ◌≡◌, ◌*◌, ◌+◌, ◌<◌, ◌≤◌, eqb, ltb, drop, length, set, take};
ghost use Rattle.std.proofs.lemmas.List.Edits.{sets};
ghost use Rattle.definitions.specs.Alleles.{letters, same_allele};
ghost use Rattle.definitions.specs.Bytes.{comma, fields_of, same_bytes, text};
ghost use Rattle.definitions.specs.MergedAlleles.{is_allele, per_sample_map, remapped_alleles};
ghost use Rattle.laws.proofs.AllelesAsRead.{allele_as_read};
ghost use Rattle.tables.specs.Tables.{name_at, site_at};
ghost use Rattle.sample_alleles.specs.Readings.{alleles_in, alt_number, capitals, each_of, put_where, readings, reads_as, ref_reading};
ghost use Rattle.sample_alleles.specs.Fields.{AltsAt, AltsSplit};

use bio_ids::{AlleleIndex, GenomePosition};

// ---- the record's ALTs

// Stores where each of the record's ALTs stands, by two numbers; the answer is how many they are. The table is as it was behind them.
pub fn split_alts(alts: &[u8], fields: &mut [usize]) -> usize
    requires { 2 * length (fields_of comma alts.now) ≤ length fields.old }
    ensures { AltsSplit alts.now fields.old fields.new result }
{
    let mut at = 0;
    let mut count = 0;
    // by offsets: they are what is stored
    loop {
        let end = kv_text::field_end(alts, at, b',');
        fields[2 * count] = at;
        fields[2 * count + 1] = end;
        count += 1;
        if alts.len() <= end {
            return count;
        }
        at = end + 1;
    }
}

// The ALT with this number, from 0.
fn alt_at<'a>(alts: &'a [u8], fields: &[usize], i: usize) -> &'a [u8]
    requires { 2 * i + 1 < length fields.now }
    ensures { result.now ≡ name_at alts.now fields.now i }
{
    let from = fields[2 * i];
    let to = fields[2 * i + 1];
    tables::part(alts, from, to)
}

// Whether an allele is these letters, extended by a tail, in either case. Most are of another length.
fn is_extended(allele: &[u8], bases: &[u8], tail: &[u8]) -> bool
    ensures { result ≡ same_allele (allele_as_read allele.now) (letters (capitals (bases.now ++ tail.now))) }
{
    let n = bases.len();
    if allele.len() < n {
        return false;
    }
    if allele.len() - n != tail.len() {
        return false;
    }
    if !kv_text::same_letters(&allele[..n], bases) {
        return false;
    }
    if !kv_text::same_letters(&allele[n..], tail) {
        return false;
    }
    if alleles::is_span_del(allele) {
        return false;
    }
    !alleles::is_non_ref(allele)
}

// ---- numbers for them

// Stores an allele's number, if it is wanted and there is room at the place.
fn put_index_if(wanted: bool, map: &mut [u8], place: usize, index: AlleleIndex)
    ensures { map.new ≡ cond wanted (set map.old place index.0) map.old }
{
    if wanted {
        let byte = index.get() as u8;
        slices::store(map, place, byte);
    }
}

// A number for each ALT.
fn put_absent(index: AlleleIndex, count: usize, map: &mut [u8])
    ensures { map.new ≡ sets map.old 1 (each_of (λ _. index.0) count) }
{
    let byte = index.get() as u8;
    // so many places are stored from the second on
    for i in 0..count {
        slices::store(map, i + 1, byte);
    }
}

// A number for each ALT that is `*`.
fn put_span_del(index: AlleleIndex, alts: &[u8], fields: &[usize], count: usize, map: &mut [u8])
    requires { 2 * count ≤ length fields.now }
    ensures { map.new ≡ put_where
        (λ i. same_bytes (name_at alts.now fields.now i) (text "*"))
        index.0 0 count map.old }
{
    // ALTs are read by their numbers; one function with `put_extended` would carry a closure's contract: no plainer
    for i in 0..count {
        let same = alleles::is_span_del(alt_at(alts, fields, i));
        put_index_if(same, map, i + 1, index);
    }
}

// A number for each ALT that is these letters, extended by a tail.
fn put_extended(
    bases: &[u8],
    tail: &[u8],
    index: AlleleIndex,
    alts: &[u8],
    fields: &[usize],
    count: usize,
    map: &mut [u8],
)
    requires { 2 * count ≤ length fields.now }
    ensures { map.new ≡ put_where
        (λ i. same_allele (allele_as_read (name_at alts.now fields.now i)) (letters (capitals (bases.now ++ tail.now))))
        index.0 0 count map.old }
{
    // ALTs are read by their numbers
    for i in 0..count {
        let same = is_extended(alt_at(alts, fields, i), bases, tail);
        put_index_if(same, map, i + 1, index);
    }
}

// ---- the site's alleles

// 0 for each of the record's ALTs that the site's REF reads as.
fn put_ref(
    own: &[u8],
    starts: bool,
    reference: &[u8],
    alts: &[u8],
    fields: &[usize],
    count: usize,
    map: &mut [u8],
)
    requires { 2 * count ≤ length fields.now }
    ensures { map.new ≡ put_where
        (λ i. is_allele (allele_as_read (name_at alts.now fields.now i)) (ref_reading starts reference.now own.now))
        0 0 count map.old }
{
    if starts {
        let tail = tables::part(reference, own.len(), reference.len());
        put_extended(
            own,
            tail,
            AlleleIndex::reference(),
            alts,
            fields,
            count,
            map,
        );
    }
}

// A number for each of the record's ALTs that one of the site's reads as: of a site that starts earlier, an ALT of fewer bytes than
// REF as `*`, and no other; of one that starts there, `*` as itself, and letters as they are extended. `<NON_REF>` gets none here.
fn put_alt(
    alt: &[u8],
    nonref: bool,
    own: &[u8],
    starts: bool,
    reference: &[u8],
    index: AlleleIndex,
    alts: &[u8],
    fields: &[usize],
    count: usize,
    map: &mut [u8],
)
    requires { (nonref ≡ same_bytes alt.now (text "<NON_REF>")) × (2 * count ≤ length fields.now) }
    ensures { map.new ≡ put_where
        (λ i. reads_as starts reference.now own.now (name_at alts.now fields.now i) alt.now)
        index.0 0 count map.old }
{
    if nonref {
        return;
    }
    if !starts {
        if alt.len() < own.len() {
            put_span_del(index, alts, fields, count, map);
        }
        return;
    }
    if alleles::is_span_del(alt) {
        put_span_del(index, alts, fields, count, map);
        return;
    }
    let tail = tables::part(reference, own.len(), reference.len());
    put_extended(alt, tail, index, alts, fields, count, map);
}

// The number of the first `<NON_REF>` so far, 0 for none.
fn first_non_ref(found: AlleleIndex, nonref: bool, index: AlleleIndex) -> AlleleIndex
    ensures { result.0 ≡ cond (eqb found.0 0) (cond nonref index.0 0) found.0 }
{
    if found.get() == 0 {
        if nonref {
            return index;
        }
    }
    found
}

// Whether a field follows the one that ends here, and a number that of this one.
fn has_next(end: usize, len: usize, index: AlleleIndex) -> bool
    ensures { result ≡ ltb end len && ltb index.0 255 }
{
    let number = index.get();
    end < len && number < 255
}

// The allele behind one.
fn next_allele(index: AlleleIndex) -> AlleleIndex
    requires { index.0 < 255 }
    ensures { result.0 ≡ index.0 + 1 }
{
    let next = index.get() + 1;
    AlleleIndex::new(next as u8)
}

// Numbers for the record's ALTs by the site's from an offset on, of which the first has this number: that of the first that reads as
// the ALT, else that of `<NON_REF>`, which may have been found before the offset.
fn put_alts(
    own: &[u8],
    alternates: &[u8],
    at: usize,
    index: AlleleIndex,
    found: AlleleIndex,
    starts: bool,
    reference: &[u8],
    alts: &[u8],
    fields: &[usize],
    count: usize,
    map: &mut [u8],
)
    requires { (at ≤ length alternates.now) × (0 < index.0) × (2 * count ≤ length fields.now) }
    ensures { map.new ≡ sets map.old 1 (each_of
        (λ i. alt_number starts reference.now own.now found.0 index.0
        (fields_of comma (drop at alternates.now)) (name_at alts.now fields.now i))
        count) }
{
    let end = kv_text::field_end(alternates, at, b',');
    let alt = &alternates[at..end];
    let nonref = alleles::is_non_ref(alt);
    let absent = first_non_ref(found, nonref, index);
    if has_next(end, alternates.len(), index) {
        let next = next_allele(index);
        put_alts(
            own,
            alternates,
            end + 1,
            next,
            absent,
            starts,
            reference,
            alts,
            fields,
            count,
            map,
        );
    } else {
        put_absent(absent, count, map);
    }
    put_alt(
        alt, nonref, own, starts, reference, index, alts, fields, count, map,
    );
}

// The numbers of the sample's alleles: 0 for REF, whatever its spelling, and then one for each of the record's ALTs. They are stored
// as far as there is room.
fn put_indexes(
    own: &[u8],
    alternates: &[u8],
    starts: bool,
    reference: &[u8],
    alts: &[u8],
    fields: &[usize],
    count: usize,
    map: &mut [u8],
)
    requires { AltsAt alts.now fields.now count }
    ensures { map.new ≡ sets map.old 0 (per_sample_map
        (take 256 (readings starts reference.now own.now alternates.now))
        (alleles_in alts.now)) }
{
    let zero = AlleleIndex::reference();
    slices::store(map, 0, 0);
    let first = AlleleIndex::new(1);
    put_alts(
        own, alternates, 0, first, zero, starts, reference, alts, fields, count, map,
    );
    put_ref(own, starts, reference, alts, fields, count, map);
}

// The same for a site of a table and a record at a position; the answer is how many numbers they are.
pub fn indexes_of_relevant_alleles_for_gvcf(
    s: &[u8],
    rows: &[usize],
    site: usize,
    position: GenomePosition,
    reference: &[u8],
    alts: &[u8],
    fields: &[usize],
    count: usize,
    map: &mut [u8],
) -> usize
    requires { AltsAt alts.now fields.now count }
    ensures count { result ≡ 1 + length (fields_of comma alts.now) }
    ensures values { map.new ≡ sets map.old 0 (per_sample_map
        (take 256 (remapped_alleles (capitals reference.now) position.0 (site_at s.now rows.now site)))
        (alleles_in alts.now)) }
{
    let own = tables::reference_allele(s, rows, site);
    let alternates = tables::alternate_alleles(s, rows, site);
    let starts = tables::start_of(rows, site).get() == position.get();
    put_indexes(own, alternates, starts, reference, alts, fields, count, map);
    count + 1
}
