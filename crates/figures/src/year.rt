// The year that a text means.
ghost use Rattle.std.specs.Prelude.{◌≡◌, ◌≤◌, true};
ghost use Rattle.figures.specs.Text.{value, negative, unsigned, well_formed};
ghost use Rattle.figures.specs.Year.{year_of, year_limit};

use super::{after_sign, is_negative, value_of};

// The year that an admitted text means.
pub fn year_of(s: &[u8]) -> i64
    requires { (well_formed s.now ≡ true) × (value (unsigned s.now) ≤ year_limit (negative s.now)) }
    ensures { result ≡ year_of s.now }
{
    let v = value_of(after_sign(s));
    if is_negative(s) {
        // The opposite in 64 bits: the lowest year's magnitude, 2 ^ 63, is its own, and the bits of that year.
        v.wrapping_neg().cast_signed()
    } else {
        v.cast_signed()
    }
}
