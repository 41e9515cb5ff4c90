// What is refused of a number text, kind by kind, in 01's order: malformed, a sign, above the limit.
ghost use Rattle.std.specs.Prelude.{◌≡◌, true, false, not, nat_le, nat_lt};
ghost use Rattle.base.specs.Answer.{first_of};
ghost use Rattle.base.specs.Refused.{outcome};
ghost use Rattle.figures.specs.Text.{plain, value};
ghost use Rattle.figures.specs.Refusals.{cardinal_refusals, ordinal_refusals, digit_ordinal_refusals, amount_refusals, year_refusals};
ghost use Rattle.figures.specs.Judging.{judged};

use super::money::{is_money_formed, whole_part};
use super::{after_sign, is_negative, is_plain, is_well_formed, size};
use base::Refusal;
use std::cmp::Ordering;

// The first that applies.
fn decide(formed: bool, refused: bool, within: bool) -> Result<(), Refusal>
    ensures { outcome result ≡ (judged (not formed) refused (not within), 0) }
{
    if !formed {
        return Err(Refusal::Malformed);
    }
    if refused {
        return Err(Refusal::WrongSign);
    }
    if !within {
        return Err(Refusal::TooLarge);
    }
    Ok(())
}

// What is refused of a cardinal's text of at most most digits.
pub fn judge_cardinal(s: &[u8], most: usize) -> Result<(), Refusal>
    ensures { outcome result ≡ (first_of (cardinal_refusals most s.now), 0) }
{
    decide(is_well_formed(s), false, size(s) <= most)
}

// What is refused of an ordinal's.
pub fn judge_ordinal(s: &[u8], most: usize) -> Result<(), Refusal>
    ensures { outcome result ≡ (first_of (ordinal_refusals most s.now), 0) }
{
    decide(is_well_formed(s), is_negative(s), size(s) <= most)
}

// Whether s means at most what l means.
fn at_most(s: &[u8], l: &[u8]) -> bool
    requires s_value { plain s.now ≡ true }
    requires l_value { plain l.now ≡ true }
    ensures { result ≡ nat_le (value s.now) (value l.now) }
{
    match s.len().cmp(&l.len()) {
        Ordering::Less => true,
        Ordering::Equal => s <= l,
        Ordering::Greater => false,
    }
}

// The first that applies, where the digits w are to mean at most what l means.
fn limited(formed: bool, refused: bool, w: &[u8], l: &[u8]) -> Result<(), Refusal>
    requires w_value { formed ≡ true → plain w.now ≡ true }
    requires l_value { plain l.now ≡ true }
    ensures { outcome result ≡ (judged (not formed) refused (nat_lt (value l.now) (value w.now)), 0) }
{
    decide(formed, refused, formed && at_most(w, l))
}

// What is refused of a digit ordinal's text. A plain text has no sign; a well formed one that is not plain has one, so no sign is looked for.
pub fn judge_digit_ordinal(s: &[u8]) -> Result<(), Refusal>
    ensures { outcome result ≡ (first_of (digit_ordinal_refusals s.now), 0) }
{
    if is_plain(s) {
        return limited(true, false, s, b"340282366920938463463374607431768211455");
    }
    decide(is_well_formed(s), true, true)
}

// What is refused of an amount's text.
pub fn judge_amount(s: &[u8]) -> Result<(), Refusal>
    ensures { outcome result ≡ (first_of (amount_refusals s.now), 0) }
{
    let most = b"18446744073709551615";
    let whole = after_sign(whole_part(s));
    limited(is_money_formed(s), is_negative(s), whole, most)
}

// What is refused of a year's text.
pub fn judge_year(s: &[u8]) -> Result<(), Refusal>
    ensures { outcome result ≡ (first_of (year_refusals s.now), 0) }
{
    let formed = is_well_formed(s);
    let digits = after_sign(s);
    if is_negative(s) {
        return limited(formed, false, digits, b"9223372036854775808");
    }
    limited(formed, false, digits, b"9223372036854775807")
}
