// Money texts: their whole part and their hundredths.
ghost use Rattle.std.specs.Prelude.{◌≡◌, length};
ghost use Rattle.figures.specs.Money.{pointed, whole_text, hundredths_text, are_hundredths, money_formed};

use super::{after_sign, all_digits, is_plain, is_well_formed};

// Whether a '.' stands before the last two bytes.
fn is_pointed(s: &[u8]) -> bool
    ensures { result ≡ pointed s.now }
{
    matches!(s, [.., b'.', _, _])
}

// What stands before the '.', with the sign.
pub fn whole_part(s: &[u8]) -> &[u8]
    ensures { result.now ≡ whole_text s.now }
{
    if is_pointed(s) { &s[..s.len() - 3] } else { s }
}

// What stands after the '.'.
pub fn hundredths_part(s: &[u8]) -> &[u8]
    ensures { result.now ≡ hundredths_text s.now }
{
    if is_pointed(s) {
        &s[s.len() - 2..]
    } else {
        &[]
    }
}

// Whether two bytes are digits, not both zero.
fn is_hundredths(s: &[u8]) -> bool
    requires { length s.now ≡ 2 }
    ensures { result ≡ are_hundredths s.now }
{
    all_digits(s) && (s[0] != b'0' || s[1] != b'0')
}

// Whether s is a money text.
pub fn is_money_formed(s: &[u8]) -> bool
    ensures { result ≡ money_formed s.now }
{
    if is_pointed(s) {
        is_plain(after_sign(whole_part(s))) && is_hundredths(hundredths_part(s))
    } else {
        is_well_formed(s)
    }
}
