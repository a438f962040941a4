// The alleles of a `ref` and an `alt` value: their spelling, length, number and repeats (row 5). Letters are of either case, `<NON_REF>` has
// one spelling.
#![tactic(auto)]

ghost use Rattle.std.specs.Prelude.{◌≡◌};
ghost use Rattle.definitions.specs.Alleles.{allele_of};
ghost use Rattle.definitions.specs.Bytes.{comma, fields_of, same_bytes, text};
ghost use Rattle.definitions.specs.Lists.{all_distinct, all_of, any_of, is_there};
ghost use Rattle.laws.proofs.Capitals.{same_letters};
ghost use Rattle.alleles.specs.Alleles.{AllelesFound};

// Whether an allele is `<NON_REF>`.
pub fn is_non_ref(allele: &[u8]) -> bool
    ensures { result ≡ same_bytes allele.now (text "<NON_REF>") }
{
    kv_text::same_bytes(allele, b"<NON_REF>")
}

// Whether an allele is `*`.
pub fn is_span_del(allele: &[u8]) -> bool
    ensures { result ≡ same_bytes allele.now (text "*") }
{
    kv_text::same_bytes(allele, b"*")
}

// Whether a field is among those of a list with commas.
pub fn among_fields(field: &[u8], list: &[u8]) -> bool
    ensures { result ≡ any_of (same_bytes field.now) (fields_of comma list.now) }
{
    list.split(|b| *b == b',')
        .any(|other| kv_text::same_bytes(field, other))
}

// Whether a field of a list with commas has the letters of an allele, in either case.
pub fn among_alleles(allele: &[u8], list: &[u8]) -> bool
    ensures { result ≡ any_of (same_letters allele.now) (fields_of comma list.now) }
{
    list.split(|b| *b == b',')
        .any(|other| kv_text::same_letters(allele, other))
}

// Whether no two fields of a list have the same letters. Each is compared with those behind it, so it goes by offsets: `split` does not tell
// what is left.
pub fn distinct_fields(list: &[u8]) -> bool
    ensures { result ≡ all_distinct same_letters (fields_of comma list.now) }
{
    let mut at = 0;
    let mut end = kv_text::field_end(list, 0, b',');
    // by offsets: each field is compared with what is behind it, which `split` does not tell
    while end < list.len() {
        if among_alleles(&list[at..end], &list[end + 1..]) {
            return false;
        }
        at = end + 1;
        end = kv_text::field_end(list, at, b',');
    }
    true
}

// Whether a field spells an ALT of at most `most` letters.
fn is_allele(field: &[u8], most: usize) -> bool
    ensures { result ≡ is_there (allele_of most field.now) }
{
    kv_text::read_allele(field, most).is_some()
}

// Whether every field of a list does.
fn are_alleles(list: &[u8], most: usize) -> bool
    ensures { result ≡ all_of (λ f. is_there (allele_of most f)) (fields_of comma list.now) }
{
    list.split(|b| *b == b',')
        .all(|field| is_allele(field, most))
}

// How many alleles a REF and its ALTs are, and whether `<NON_REF>` is there.
#[derive(Clone, Copy)]
pub struct CheckedAlleles {
    pub count: usize,
    pub has_non_ref: bool,
}

// Row 5 for alleles of at most `most` letters, at most `count` of them. They are counted before they are compared.
pub fn check_alleles(
    reference: &[u8],
    alts: &[u8],
    most: usize,
    count: usize,
) -> Option<CheckedAlleles>
    ensures { AllelesFound most count reference.now alts.now result }
{
    let n = kv_text::count_fields(alts, b',');
    if count <= n {
        return None;
    }
    if !kv_text::is_letters(reference, most) {
        return None;
    }
    if !are_alleles(alts, most) {
        return None;
    }
    if among_alleles(reference, alts) {
        return None;
    }
    if !distinct_fields(alts) {
        return None;
    }
    Some(CheckedAlleles {
        count: n + 1,
        has_non_ref: among_fields(b"<NON_REF>", alts),
    })
}
