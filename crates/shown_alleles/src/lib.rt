// Whether a sample of a called record shows an allele: some genotype of its least PL has it.
#![tactic(auto)]

ghost use Rattle.std.specs.Prelude.{◌≤◌, eqb, get_or, length, ◌&&◌, ◌||◌, [], ◌∷◌, ◌≡◌};
ghost use Rattle.std.proofs.Math.Option.{some};
ghost use Rattle.definitions.specs.Bytes.{comma, fields_of};
ghost use Rattle.definitions.specs.Genotypes.{genotype_pairs};
ghost use Rattle.definitions.specs.Numbers.{number_list};
ghost use Rattle.laws.proofs.Capitals.{same_letters};
ghost use Rattle.laws.proofs.Every.{IfThere};
ghost use Rattle.definitions.specs.SelectionSheet.{in_least_pair, pair_has};
ghost use Rattle.shown_alleles.specs.Shown.{no_pair, shows_any};

// Whether a number is one of two.
fn is_either(n: usize, a: usize, b: usize) -> bool
    ensures { result ≡ (eqb n a || eqb n b) }
{
    n == a || n == b
}

// Whether the pair at a place has an allele. Behind the table stands a pair of zeros.
fn pair_has(place: usize, allele: usize) -> bool
    ensures { result ≡ pair_has allele (get_or (genotype_pairs 16) place no_pair) }
{
    match diploid_pairs::pair_at(place) {
        Some(pair) => is_either(allele, pair.low().get(), pair.high().get()),
        None => is_either(allele, 0, 0),
    }
}

// Whether a value is the least and the pair at its place has an allele.
fn is_least_with(value: u32, least: u32, place: usize, allele: usize) -> bool
    ensures { result ≡ eqb value least && pair_has allele (get_or (genotype_pairs 16) place no_pair) }
{
    value == least && pair_has(place, allele)
}

// Whether some pair of least PL has an allele.
fn in_least_pair(pl: &[u32], allele: usize) -> bool
    ensures { result ≡ in_least_pair 16 allele (some pl.now) }
{
    let least = genotyping::least_pl(pl);
    for (i, value) in pl.iter().enumerate() {
        if is_least_with(*value, least, i, allele) {
            return true;
        }
    }
    false
}

// Whether some pair of least PL has an allele, for PL as a text has it: up to 136 numbers, or missing.
fn text_has(value: &[u8], allele: usize) -> bool
    requires { IfThere (λ l. length l ≤ 136) (number_list value.now) }
    ensures { result ≡ in_least_pair 16 allele (number_list value.now) }
{
    let mut numbers = [0u32; 136];
    match kv_text::read_numbers(value, &mut numbers) {
        Some(n) => in_least_pair(&numbers[..n], allele),
        None => false,
    }
}

// REF, for 0, or the ALT with a number.
fn allele_at<'a>(reference: &'a [u8], alts: &'a [u8], number: usize) -> &'a [u8]
    ensures { result.now ≡ get_or (reference.now ∷ fields_of comma alts.now) number [] }
{
    if number == 0 {
        return reference;
    }
    match kv_text::field_at(alts, b',', number - 1) {
        Some(field) => tables::part(alts, field.at, field.end),
        None => &alts[..0],
    }
}

// Whether an allele with a number has the wanted letters and stands in some pair of least PL.
fn is_shown(wanted: &[u8], allele: &[u8], value: &[u8], number: usize) -> bool
    requires { IfThere (λ l. length l ≤ 136) (number_list value.now) }
    ensures { result ≡ same_letters wanted.now allele.now && in_least_pair 16 number (number_list value.now) }
{
    kv_text::same_letters(wanted, allele) && text_has(value, number)
}

// Whether a sample with this PL shows an allele of a record with REF, these ALTs, and so many alleles in all.
pub fn shows_allele<'a>(
    wanted: &[u8],
    reference: &'a [u8],
    alts: &'a [u8],
    alleles: usize,
    value: &[u8],
) -> bool
    requires { IfThere (λ l. length l ≤ 136) (number_list value.now) }
    ensures { result ≡ shows_any wanted.now (reference.now ∷ fields_of comma alts.now) (number_list value.now) 0 alleles }
{
    // alleles are gone through by their numbers: REF is none of the list's fields
    for number in 0..alleles {
        let allele = allele_at(reference, alts, number);
        if is_shown(wanted, allele, value, number) {
            return true;
        }
    }
    false
}
