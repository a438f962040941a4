// The letter alleles of a list without their common ending, one letter of each left (rows 5 and 14).
#![tactic(auto)]

ghost use Rattle.std.specs.Prelude.{cond, true, ◌∷◌, map, ◌≡◌, min, length};
ghost use Rattle.answers.specs.Answered.{Answered};
ghost use Rattle.definitions.specs.Alleles.{capital, spelled, written_alleles};
ghost use Rattle.definitions.specs.Bytes.{comma, fields_of};
ghost use Rattle.definitions.specs.Checked.{is_accepted};
ghost use Rattle.definitions.specs.Lists.{any_of};
ghost use Rattle.definitions.specs.ReverseTrim.{alleles_from, suffix_clip_count, trimmed_alleles, without_suffix};
ghost use Rattle.kv_write.specs.Laid.{Laid};
ghost use Rattle.laws.proofs.AllelesAsRead.{allele_as_read};
ghost use Rattle.reverse_trim.specs.CommonEnding.{common_ending, common_ending_of_all};
ghost use Rattle.reverse_trim.specs.LetterAlleles.{alleles_spelled, letters_spelled, spells_letters};

use answers::Refusal;

// Whether a list, REF first, has 1 to 16 alleles of 1 to 255 letters each, none twice.
fn are_alleles(list: &[u8]) -> bool
    ensures { result ≡ is_accepted (alleles_from (fields_of comma list.now)) }
{
    let end = kv_text::field_end(list, 0, b',');
    if list.len() <= end {
        return kv_text::is_letters(list, 255);
    }
    alleles::check_alleles(&list[..end], &list[end + 1..], 255, 16).is_some()
}

// Whether a field is a letter allele: `*` and `<NON_REF>` are none.
fn is_letter_allele(field: &[u8]) -> bool
    ensures { result ≡ spells_letters field.now }
{
    !alleles::is_span_del(field) && !alleles::is_non_ref(field)
}

// Whether one of the ALTs is a letter allele.
fn has_letter_alt(alts: &[u8]) -> bool
    ensures { result ≡ any_of spells_letters (fields_of comma alts.now) }
{
    alts.split(|b| *b == b',').any(|alt| is_letter_allele(alt))
}

// How many letters, in either case, REF and another allele end on alike, at most `most`, one letter of the other left.
fn common_ending(reference: &[u8], allele: &[u8], most: usize) -> usize
    ensures { result ≡ min most (common_ending (map capital reference.now) (map capital allele.now)) }
{
    let mut n = 0;
    // two texts from behind, in step, up to a limit
    while n < most {
        if reference.len() <= n {
            return n;
        }
        if allele.len() <= n + 1 {
            return n;
        }
        let a = reference[reference.len() - 1 - n];
        let b = allele[allele.len() - 1 - n];
        let raised = kv_text::capital(a);
        if raised != kv_text::capital(b) {
            return n;
        }
        n += 1;
    }
    n
}

// How many letters are cut off, at most `clip`, if this ALT has them too; only a letter allele counts.
fn clip_with(reference: &[u8], alt: &[u8], clip: usize) -> usize
    ensures { result ≡ cond (spells_letters alt.now)
        (min clip (common_ending (map capital reference.now) (map capital alt.now)))
        clip }
{
    if is_letter_allele(alt) {
        return common_ending(reference, alt, clip);
    }
    clip
}

// How many letters REF and the letter alleles among the ALTs end on alike, one letter of each left.
fn common_clip(reference: &[u8], alts: &[u8]) -> usize
    ensures { result ≡ common_ending_of_all (map capital reference.now ∷ letters_spelled alts.now) }
{
    if reference.len() == 0 {
        return 0;
    }
    let mut clip = reference.len() - 1;
    let mut at = 0;
    // by offsets: an iterator of `split` would need a loop invariant over what it has given; no plainer
    loop {
        let end = kv_text::field_end(alts, at, b',');
        clip = clip_with(reference, &alts[at..end], clip);
        if alts.len() <= end {
            return clip;
        }
        at = end + 1;
    }
}

// How many letters are cut off the letter alleles of a list in order.
fn reverse_suffix_clip_count(alleles: &[u8]) -> usize
    requires { is_accepted (alleles_from (fields_of comma alleles.now)) ≡ true }
    ensures { result ≡ suffix_clip_count (letters_spelled alleles.now) }
{
    let end = kv_text::field_end(alleles, 0, b',');
    if alleles.len() <= end {
        return 0;
    }
    if !has_letter_alt(&alleles[end + 1..]) {
        return 0;
    }
    common_clip(&alleles[..end], &alleles[end + 1..])
}

// A field without its last letters, if it is a letter allele; as it is spelled.
fn without_suffix<'a>(field: &'a [u8], clip: usize) -> &'a [u8]
    ensures { map capital result.now ≡ spelled (without_suffix clip (allele_as_read field.now)) }
{
    if !is_letter_allele(field) {
        return field;
    }
    if field.len() <= clip {
        return &field[..0];
    }
    &field[..field.len() - clip]
}

// Lays the alleles of a list in capitals, the letter alleles without their last letters.
fn put_trimmed(list: &[u8], clip: usize, out: &mut [u8]) -> usize
    ensures { Laid out.old 0
        (written_alleles (map (without_suffix clip) (alleles_spelled list.now)))
        out.new result }
{
    let mut next = 0;
    let mut at = 0;
    // by offsets: a comma is laid only where a field follows
    loop {
        let end = kv_text::field_end(list, at, b',');
        let trimmed = without_suffix(&list[at..end], clip);
        next = kv_write::put_letters(out, next, trimmed);
        if list.len() <= end {
            return next;
        }
        next = kv_write::put_byte(out, next, b',');
        at = end + 1;
    }
}

// The entry: writes the alleles of a list with commas, REF first, without the common ending of the letter alleles. The answer is
// how many bytes were written, or the row that refuses the call, and then `out` is as it was.
pub fn reverse_trim_alleles(alleles: &[u8], out: &mut [u8]) -> Result<usize, Refusal>
    ensures { Answered (trimmed_alleles alleles.now (length out.old)) out.old out.new result }
{
    if !are_alleles(alleles) {
        return Err(Refusal::Alleles);
    }
    let clip = reverse_suffix_clip_count(alleles);
    let len = put_trimmed(alleles, clip, &mut out[..0]);
    if out.len() < len {
        return Err(Refusal::Output);
    }
    put_trimmed(alleles, clip, out);
    Ok(len)
}
