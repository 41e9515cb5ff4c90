#![tactic(auto)]
// Ukrainian cardinals from bytes to bytes, both ways, and their measure. No phrase is longer than the room that the program keeps for an answer.
ghost use Rattle.std.specs.Prelude.{◌≡◌, ◌≤◌, length};
ghost use Rattle.base.specs.Answer.{replied, Answers};
ghost use Rattle.base.specs.Refused.{answer_of, measure_in};
ghost use Rattle.base.specs.Measure.{measured};
ghost use Rattle.base.specs.Reading.{Reads as ReadsAs};
ghost use Rattle.base.specs.Room.{phrase_room};
ghost use Rattle.settings.specs.Settings.{ukrainian_settings};
ghost use Rattle.uk_calls.specs.UkCardinals.{uk_to_cardinal, uk_from_cardinal};

use base::{Refusal, Size};
use figures::refusals::judge_cardinal;
use groups::Number;
use plan::Plan;
use settings::Ukrainian;
use uk::DIGITS;

// The cardinal of a number text.
#[tactic(auto, using(settings::proofs::Handed::handed))]
pub fn to_cardinal(
    gender: u32,
    number: u32,
    case: u32,
    apostrophe: u32,
    style: u32,
    text: &[u8],
    out: &mut [u8],
) -> Result<usize, Refusal>
    ensures answers { Answers (answer_of result) out.old out.new (replied (uk_to_cardinal (ukrainian_settings gender number case apostrophe style) text.now) out.old) }
    ensures length_le_phrase_room { (answer_of result).length ≤ phrase_room }
{
    let settings = Ukrainian::new(gender, number, case, apostrophe, style)?;
    judge_cardinal(text, DIGITS)?;
    let minus = figures::is_negative(text);
    let number = Number::of_digits(figures::after_sign(text));
    let mut plan = Plan::new();
    uk_plan::plan_cardinal(settings, minus, &number, &mut plan);
    uk::speak(plan.codes(), out)
}

// What that phrase measures.
#[tactic(auto, using(settings::proofs::Handed::handed))]
pub fn measure_cardinal(
    gender: u32,
    number: u32,
    case: u32,
    apostrophe: u32,
    style: u32,
    text: &[u8],
) -> Result<Size, Refusal>
    ensures { measure_in result ≡ measured (uk_to_cardinal (ukrainian_settings gender number case apostrophe style) text.now) }
{
    let settings = Ukrainian::new(gender, number, case, apostrophe, style)?;
    judge_cardinal(text, DIGITS)?;
    let minus = figures::is_negative(text);
    let number = Number::of_digits(figures::after_sign(text));
    let mut pieces = Plan::new();
    uk_plan::plan_cardinal(settings, minus, &number, &mut pieces);
    Ok(uk::measure(pieces.codes()))
}

// The number text of a cardinal.
#[tactic(auto, using(settings::proofs::Handed::handed))]
pub fn from_cardinal(
    gender: u32,
    number: u32,
    case: u32,
    apostrophe: u32,
    style: u32,
    said: &[u8],
    out: &mut [u8],
) -> Result<usize, Refusal>
    ensures { ReadsAs (uk_from_cardinal (ukrainian_settings gender number case apostrophe style)) said.now (answer_of result) out.old out.new }
{
    let settings = Ukrainian::new(gender, number, case, apostrophe, style)?;
    numerals::put_read(uk_read::read_cardinal(settings, said), out)
}
