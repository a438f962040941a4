// The ALTs of the record at a position, laid as a list with commas, letters as capitals, into the caller's buffer (row 13: over 16 alleles).
// Sites stand in a table; those over the position are given by their numbers, in the order of samples.
#![tactic(auto)]

ghost use Rattle.std.specs.Prelude.{◌≡◌, ℕ, ◌+◌, ◌<◌, ◌≤◌, ◌^◌, eqb, drop, length};
ghost use mathlib.Core.List.{List, [], ◌++◌, ◌∷◌, flat_map, map, reverse};
ghost use Rattle.definitions.specs.Alleles.{capital};
ghost use Rattle.definitions.specs.Bytes.{comma, fields_of, same_bytes};
ghost use Rattle.definitions.specs.Lists.{any_of};
ghost use Rattle.definitions.specs.MergedAlleles.{merged_alts, shows_span_del};
ghost use Rattle.kv_write.specs.Laid.{Laid};
ghost use Rattle.laws.proofs.Every.{Every};
ghost use Rattle.tables.specs.Tables.{column, site_at};
ghost use Rattle.merged_alleles.specs.Alts.{Added, AltsLaid, Listed, comma_behind, extended_letters, listed, site_letters, sites_at, with_ends};
ghost use Rattle.merged_alleles.specs.SoundSites.{ShortField, ShortFields, SoundRow, SoundSites};

use bio_ids::GenomePosition;

// A list of ALTs: how long its text is, and how many they are. None stands for too many.
#[derive(Clone, Copy)]
pub struct AltList {
    pub len: usize,
    pub count: usize,
}

// ---- a list in a buffer

// Lays a comma behind n ALTs, if there are any.
fn put_comma(alts: &mut [u8], len: usize, n: usize) -> usize
    requires { len + 1 < 2 ^ 64 }
    ensures { Laid alts.old len (comma_behind n) alts.new result }
{
    if n == 0 {
        return len;
    }
    kv_write::put_byte(alts, len, b',')
}

// Lays a further ALT behind n others.
fn put_alt(alts: &mut [u8], len: usize, n: usize, alt: &[u8]) -> usize
    requires { len + 1 + length alt.now < 2 ^ 64 }
    ensures { Laid alts.old len (comma_behind n ++ alt.now) alts.new result }
{
    let from = put_comma(alts, len, n);
    kv_write::put_bytes(alts, from, alt)
}

// Whether the bytes from an offset on are one of the n ALTs before them.
fn is_listed(text: &[u8], len: usize, n: usize, from: usize) -> bool
    requires { (len ≤ length text.now) × (from ≤ length text.now) }
    ensures { result ≡ any_of (same_bytes (drop from text.now)) (listed text.now len n) }
{
    if n == 0 {
        return false;
    }
    alleles::among_fields(&text[from..], &text[..len])
}

// Lays letters and the end of REF, as capitals, behind the list, and adds them to it unless they are on it.
fn add_allele(field: &[u8], end: &[u8], alts: &mut [u8], so_far: AltList) -> Option<AltList>
    requires { Listed alts.old so_far.len so_far.count × ShortField field.now × ShortField end.now }
    ensures { Added (listed alts.old so_far.len so_far.count)
        ((map capital field.now ++ map capital end.now) ∷ [])
        alts.new result }
{
    let from = put_comma(alts, so_far.len, so_far.count);
    let middle = kv_write::put_letters(alts, from, field);
    let next = kv_write::put_letters(alts, middle, end);
    if is_listed(&alts[..next], so_far.len, so_far.count, from) {
        return Some(so_far);
    }
    if 14 <= so_far.count {
        return None;
    }
    Some(AltList {
        len: next,
        count: so_far.count + 1,
    })
}

// ---- letter ALTs

// Adds an ALT of a site that starts at the position, if it is letters, extended by the end of REF that its own REF lacks.
fn extend_allele(field: &[u8], end: &[u8], alts: &mut [u8], so_far: AltList) -> Option<AltList>
    requires { Listed alts.old so_far.len so_far.count × ShortField field.now × ShortField end.now }
    ensures { Added (listed alts.old so_far.len so_far.count)
        (extended_letters end.now field.now)
        alts.new result }
{
    if alleles::is_span_del(field) {
        return Some(so_far);
    }
    if alleles::is_non_ref(field) {
        return Some(so_far);
    }
    add_allele(field, end, alts, so_far)
}

// The same for each ALT of the site.
fn extend_alleles(list: &[u8], end: &[u8], alts: &mut [u8], so_far: AltList) -> Option<AltList>
    requires { Listed alts.old so_far.len so_far.count × ShortFields list.now × ShortField end.now }
    ensures { Added (listed alts.old so_far.len so_far.count)
        (flat_map (extended_letters end.now) (fields_of comma list.now))
        alts.new result }
{
    let mut laid = so_far;
    let mut at = 0;
    // by offsets: an iterator of `split` would need a loop invariant over what it has given; no plainer
    loop {
        let stop = kv_text::field_end(list, at, b',');
        laid = extend_allele(&list[at..stop], end, alts, laid)?;
        if list.len() <= stop {
            return Some(laid);
        }
        at = stop + 1;
    }
}

// Whether a site starts at the position.
fn starts_at(rows: &[usize], site: usize, position: GenomePosition) -> bool
    ensures { result ≡ eqb (column 2 rows.now site) position.0 }
{
    tables::start_of(rows, site).get() == position.get()
}

// Adds the letter ALTs of a site as they read at the position; one that starts earlier has none.
fn remap_alleles(
    s: &[u8],
    rows: &[usize],
    site: usize,
    position: GenomePosition,
    reference: &[u8],
    alts: &mut [u8],
    so_far: AltList,
) -> Option<AltList>
    requires { Listed alts.old so_far.len so_far.count × SoundRow s.now rows.now site × ShortField reference.now }
    ensures { Added (listed alts.old so_far.len so_far.count)
        (site_letters s.now rows.now reference.now position.0 site)
        alts.new result }
{
    if !starts_at(rows, site, position) {
        return Some(so_far);
    }
    let own = tables::reference_allele(s, rows, site);
    let end = tables::part(reference, own.len(), reference.len());
    let list = tables::alternate_alleles(s, rows, site);
    extend_alleles(list, end, alts, so_far)
}

// Adds the letter ALTs of all sites, last sample first.
fn letter_alts(
    s: &[u8],
    rows: &[usize],
    found: &[usize],
    position: GenomePosition,
    reference: &[u8],
    alts: &mut [u8],
) -> Option<AltList>
    requires { (4096 ≤ length alts.old) × SoundSites s.now rows.now found.now reference.now }
    ensures { Added []
        (flat_map (site_letters s.now rows.now reference.now position.0) (reverse found.now))
        alts.new result }
{
    let mut laid = AltList { len: 0, count: 0 };
    for site in found.iter().rev() {
        laid = remap_alleles(s, rows, *site, position, reference, alts, laid)?;
    }
    Some(laid)
}

// ---- `*` and `<NON_REF>`

// Whether a site shows `*`, whatever REF is: it starts here and has it, or it starts earlier and is no block.
// (No ALT of a block reads as `*`.)
fn shows_span_del(s: &[u8], rows: &[usize], site: usize, position: GenomePosition) -> bool
    requires { SoundRow s.now rows.now site }
    ensures { (ref : List ℕ) → result ≡ shows_span_del ref position.0 (site_at s.now rows.now site) }
{
    if starts_at(rows, site, position) {
        return alleles::among_fields(b"*", tables::alternate_alleles(s, rows, site));
    }
    !tables::is_block(rows, site)
}

// Whether one of the sites does.
fn any_span_del(s: &[u8], rows: &[usize], found: &[usize], position: GenomePosition) -> bool
    requires { Every (SoundRow s.now rows.now) found.now }
    ensures { (ref : List ℕ) → result ≡ any_of (shows_span_del ref position.0) (sites_at s.now rows.now found.now) }
{
    // `any` would call a closure of which its requirement has to be shown: no plainer
    for site in found {
        if shows_span_del(s, rows, *site, position) {
            return true;
        }
    }
    false
}

// Lays `*`, if it is shown, and `<NON_REF>` behind letter ALTs.
fn put_ends(alts: &mut [u8], letters: AltList, shown: bool) -> Option<AltList>
    requires { Listed alts.old letters.len letters.count }
    ensures { AltsLaid (with_ends (listed alts.old letters.len letters.count) shown) alts.new result }
{
    if !shown {
        let last = put_alt(alts, letters.len, letters.count, b"<NON_REF>");
        return Some(AltList {
            len: last,
            count: letters.count + 1,
        });
    }
    if 14 <= letters.count {
        return None;
    }
    let next = put_alt(alts, letters.len, letters.count, b"*");
    let last = put_alt(alts, next, letters.count + 1, b"<NON_REF>");
    Some(AltList {
        len: last,
        count: letters.count + 2,
    })
}

// ---- all ALTs

// Lays the ALTs of the record at a position: the letter ALTs as capitals, last sample first, none twice; `*` if a site shows it;
// `<NON_REF>`. `reference` is REF as spelled. Over 15 are too many. `alts` is a work buffer: its beginning is the ALTs' text (`AltsWritten`). Nothing is promised of
// what stands behind it, or of the buffer where they are too many: an ALT is laid behind the list before it is looked for there.
// `found_sound` of proofs/Sound.antt shows what is required of sites found in the table of a sound cohort.
pub fn collect_target_alleles(
    s: &[u8],
    rows: &[usize],
    found: &[usize],
    position: GenomePosition,
    reference: &[u8],
    alts: &mut [u8],
) -> Option<AltList>
    requires { (4096 ≤ length alts.old) × SoundSites s.now rows.now found.now reference.now }
    ensures { AltsLaid
        (merged_alts (map capital reference.now) position.0 (sites_at s.now rows.now found.now))
        alts.new result }
{
    let letters = letter_alts(s, rows, found, position, reference, alts)?;
    let shown = any_span_del(s, rows, found, position);
    put_ends(alts, letters, shown)
}
