#![tactic(auto)]
// Ukrainian ordinals, digit ordinals and years from bytes to bytes, and their measures; of ordinals and years the way back. No phrase is longer than the room that the program keeps for an answer.
mod digits; // digits.rt: digit ordinals
pub mod reading; // reading.rt: the way back

ghost use Rattle.std.specs.Prelude.{◌≡◌, ◌≤◌};
ghost use Rattle.base.specs.Answer.{replied, Answers};
ghost use Rattle.base.specs.Refused.{answer_of, measure_in};
ghost use Rattle.base.specs.Measure.{measured};
ghost use Rattle.base.specs.Room.{phrase_room};
ghost use Rattle.settings.specs.Settings.{ukrainian_settings};
ghost use Rattle.uk_ordinal.specs.Year.{early};
ghost use Rattle.uk_ordinal_calls.specs.UkOrdinals.{uk_to_ordinal, uk_to_ordinal_num, uk_to_year};

use base::{Refusal, Size};
use figures::refusals::{judge_digit_ordinal, judge_ordinal};
use groups::Number;
use plan::Plan;
use settings::Ukrainian;
use uk::DIGITS;

// Whether a year is 0 or below.
fn is_early(year: i64) -> bool
    ensures { result ≡ early year }
{
    year <= 0
}

// The ordinal of a number text.
#[tactic(auto, using(settings::proofs::Handed::handed))]
pub fn to_ordinal(
    gender: u32,
    number: u32,
    case: u32,
    apostrophe: u32,
    style: u32,
    text: &[u8],
    out: &mut [u8],
) -> Result<usize, Refusal>
    ensures answers { Answers (answer_of result) out.old out.new (replied (uk_to_ordinal (ukrainian_settings gender number case apostrophe style) text.now) out.old) }
    ensures length_le_phrase_room { (answer_of result).length ≤ phrase_room }
{
    let settings = Ukrainian::new(gender, number, case, apostrophe, style)?;
    judge_ordinal(text, DIGITS)?;
    let magnitude = Number::of_digits(text);
    let mut plan = Plan::new();
    uk_ordinal_plan::plan_ordinal(settings, &magnitude, &mut plan);
    uk::speak(plan.codes(), out)
}

// What that phrase measures.
#[tactic(auto, using(settings::proofs::Handed::handed))]
pub fn measure_ordinal(
    gender: u32,
    number: u32,
    case: u32,
    apostrophe: u32,
    style: u32,
    text: &[u8],
) -> Result<Size, Refusal>
    ensures { measure_in result ≡ measured (uk_to_ordinal (ukrainian_settings gender number case apostrophe style) text.now) }
{
    let settings = Ukrainian::new(gender, number, case, apostrophe, style)?;
    judge_ordinal(text, DIGITS)?;
    let magnitude = Number::of_digits(text);
    let mut pieces = Plan::new();
    uk_ordinal_plan::plan_ordinal(settings, &magnitude, &mut pieces);
    Ok(uk::measure(pieces.codes()))
}

// The digit ordinal of a number text.
#[tactic(auto, using(settings::proofs::Handed::handed))]
pub fn to_ordinal_num(
    gender: u32,
    number: u32,
    case: u32,
    apostrophe: u32,
    style: u32,
    text: &[u8],
    out: &mut [u8],
) -> Result<usize, Refusal>
    ensures answers { Answers (answer_of result) out.old out.new (replied (uk_to_ordinal_num (ukrainian_settings gender number case apostrophe style) text.now) out.old) }
    ensures length_le_phrase_room { (answer_of result).length ≤ phrase_room }
{
    let settings = Ukrainian::new(gender, number, case, apostrophe, style)?;
    judge_digit_ordinal(text)?;
    digits::say(settings, text, out)
}

// What it measures: no digit, hyphen or ending is a space.
#[tactic(auto, using(settings::proofs::Handed::handed))]
pub fn measure_ordinal_num(
    gender: u32,
    number: u32,
    case: u32,
    apostrophe: u32,
    style: u32,
    text: &[u8],
) -> Result<Size, Refusal>
    ensures { measure_in result ≡ measured (uk_to_ordinal_num (ukrainian_settings gender number case apostrophe style) text.now) }
{
    let settings = Ukrainian::new(gender, number, case, apostrophe, style)?;
    judge_digit_ordinal(text)?;
    Ok(base::size_of(0, digits::size(settings, text)))
}

// The phrase of a year.
#[tactic(auto, using(settings::proofs::Handed::handed, crate::proofs::Admitted::year_laws))]
pub fn to_year(
    gender: u32,
    number: u32,
    case: u32,
    apostrophe: u32,
    style: u32,
    year: i64,
    out: &mut [u8],
) -> Result<usize, Refusal>
    ensures answers { Answers (answer_of result) out.old out.new (replied (uk_to_year (ukrainian_settings gender number case apostrophe style) year) out.old) }
    ensures length_le_phrase_room { (answer_of result).length ≤ phrase_room }
{
    let settings = Ukrainian::new(gender, number, case, apostrophe, style)?;
    let magnitude = Number::of(year.unsigned_abs());
    let mut plan = Plan::new();
    uk_ordinal_plan::plan_year(settings, is_early(year), &magnitude, &mut plan);
    uk::speak(plan.codes(), out)
}

// What it measures.
#[tactic(auto, using(settings::proofs::Handed::handed, crate::proofs::Admitted::year_laws))]
pub fn measure_year(
    gender: u32,
    number: u32,
    case: u32,
    apostrophe: u32,
    style: u32,
    year: i64,
) -> Result<Size, Refusal>
    ensures { measure_in result ≡ measured (uk_to_year (ukrainian_settings gender number case apostrophe style) year) }
{
    let settings = Ukrainian::new(gender, number, case, apostrophe, style)?;
    let absolute = Number::of(year.unsigned_abs());
    let mut pieces = Plan::new();
    uk_ordinal_plan::plan_year(settings, is_early(year), &absolute, &mut pieces);
    Ok(uk::measure(pieces.codes()))
}
