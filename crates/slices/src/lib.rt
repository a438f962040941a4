// Reading and storing at any place of a slice: outside it a value that was given is read, and nothing is stored. Copies that call nothing from
// outside the library.
#![tactic(auto)]

ghost use Rattle.std.specs.Prelude.{get_or, length, map, set, ◌≡◌};

// The value at a place; `absent` if there is none.
pub fn value_or<T: Copy>(values: &[T], place: usize, absent: T) -> T
    ensures { result ≡ get_or values.now place absent }
{
    if place < values.len() {
        return values[place];
    }
    absent
}

// Stores a value, if there is room at the place.
pub fn store<T: Copy>(out: &mut [T], place: usize, value: T)
    ensures { out.new ≡ set out.old place value }
{
    if place < out.len() {
        out[place] = value;
    }
}

// Copies values over as many. It is a loop, since `copy_from_slice` is a call of memmove, which a board's library may lack.
pub fn copy_over<T: Copy>(to: &mut [T], from: &[T])
    requires { length to.old ≡ length from.now }
    ensures { to.new ≡ from.now }
{
    for (i, value) in from.iter().enumerate() {
        to[i] = *value;
    }
}

// Sets every value to zero.
pub fn clear<T: Copy>(values: &mut [T], zero: T)
    ensures { values.new ≡ map (λ _. zero) values.old }
{
    for value in values {
        *value = zero;
    }
}
