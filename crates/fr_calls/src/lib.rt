#![tactic(auto)]
// French cardinals and ordinals from bytes to bytes, both ways, and their measures. No phrase is longer than the room that the program keeps for an answer.
ghost use Rattle.std.specs.Prelude.{◌≡◌, ◌≤◌, length};
ghost use Rattle.base.specs.Answer.{replied, Answers};
ghost use Rattle.base.specs.Refused.{answer_of, measure_in};
ghost use Rattle.base.specs.Measure.{measured};
ghost use Rattle.base.specs.Reading.{Reads};
ghost use Rattle.base.specs.Room.{phrase_room};
ghost use Rattle.settings.specs.Settings.{french_settings};
ghost use Rattle.fr_calls.specs.FrCalls.{fr_to_cardinal, fr_to_ordinal, fr_from_cardinal, fr_from_ordinal};

use base::{Refusal, Size};
use figures::refusals::{judge_cardinal, judge_ordinal};
use fr_plan::Plan;
use groups::Number;
use settings::French;

// The most digits that a number text has: three for each group.
const DIGITS: usize = 102;

// The cardinal of a number text.
#[tactic(auto, using(settings::proofs::Handed::handed))]
pub fn to_cardinal(
    feminine: u32,
    reformed: u32,
    region: u32,
    text: &[u8],
    out: &mut [u8],
) -> Result<usize, Refusal>
    ensures answers { Answers (answer_of result) out.old out.new (replied (fr_to_cardinal (french_settings feminine reformed region) text.now) out.old) }
    ensures length_le_phrase_room { (answer_of result).length ≤ phrase_room }
{
    let settings = French::new(feminine, reformed, region)?;
    judge_cardinal(text, DIGITS)?;
    let minus = figures::is_negative(text);
    let number = Number::of_digits(figures::after_sign(text));
    let mut plan = Plan::new();
    fr_plan::plan_cardinal(settings, minus, &number, &mut plan);
    fr::speak(plan.codes(), out)
}

// What that phrase measures.
#[tactic(auto, using(settings::proofs::Handed::handed))]
pub fn measure_cardinal(
    feminine: u32,
    reformed: u32,
    region: u32,
    text: &[u8],
) -> Result<Size, Refusal>
    ensures { measure_in result ≡ measured (fr_to_cardinal (french_settings feminine reformed region) text.now) }
{
    let settings = French::new(feminine, reformed, region)?;
    judge_cardinal(text, DIGITS)?;
    let minus = figures::is_negative(text);
    let number = Number::of_digits(figures::after_sign(text));
    let mut pieces = Plan::new();
    fr_plan::plan_cardinal(settings, minus, &number, &mut pieces);
    Ok(fr::measure(pieces.codes()))
}

// The ordinal of a number text. The texts are made once, for the plan and for its phrase.
#[tactic(auto, using(settings::proofs::Handed::handed))]
pub fn to_ordinal(
    feminine: u32,
    reformed: u32,
    region: u32,
    text: &[u8],
    out: &mut [u8],
) -> Result<usize, Refusal>
    ensures answers { Answers (answer_of result) out.old out.new (replied (fr_to_ordinal (french_settings feminine reformed region) text.now) out.old) }
    ensures length_le_phrase_room { (answer_of result).length ≤ phrase_room }
{
    let settings = French::new(feminine, reformed, region)?;
    judge_ordinal(text, DIGITS)?;
    let lent = fr::texts();
    let number = Number::of_digits(figures::after_sign(text));
    let mut plan = Plan::new();
    fr_plan::plan_ordinal(&lent, settings, &number, &mut plan);
    plan::speak(&lent, plan.codes(), out)
}

// What that phrase measures. The texts are made for the plan.
#[tactic(auto, using(settings::proofs::Handed::handed))]
pub fn measure_ordinal(
    feminine: u32,
    reformed: u32,
    region: u32,
    text: &[u8],
) -> Result<Size, Refusal>
    ensures { measure_in result ≡ measured (fr_to_ordinal (french_settings feminine reformed region) text.now) }
{
    let settings = French::new(feminine, reformed, region)?;
    judge_ordinal(text, DIGITS)?;
    let lent = fr::texts();
    let number = Number::of_digits(figures::after_sign(text));
    let mut pieces = Plan::new();
    fr_plan::plan_ordinal(&lent, settings, &number, &mut pieces);
    Ok(fr::measure(pieces.codes()))
}

// The number text of a cardinal.
#[tactic(auto, using(settings::proofs::Handed::handed))]
pub fn from_cardinal(
    feminine: u32,
    reformed: u32,
    region: u32,
    said: &[u8],
    out: &mut [u8],
) -> Result<usize, Refusal>
    ensures { Reads (fr_from_cardinal (french_settings feminine reformed region)) said.now (answer_of result) out.old out.new }
{
    let settings = French::new(feminine, reformed, region)?;
    let mut number = Number::of_group(0);
    let minus = fr_read::read_cardinal(settings, said, &mut number);
    numerals::put_lent(minus, &number, out)
}

// The number text of an ordinal.
#[tactic(auto, using(settings::proofs::Handed::handed))]
pub fn from_ordinal(
    feminine: u32,
    reformed: u32,
    region: u32,
    said: &[u8],
    out: &mut [u8],
) -> Result<usize, Refusal>
    ensures { Reads (fr_from_ordinal (french_settings feminine reformed region)) said.now (answer_of result) out.old out.new }
{
    let settings = French::new(feminine, reformed, region)?;
    let mut number = Number::of_group(0);
    let minus = fr_read::read_ordinal(settings, said, &mut number);
    numerals::put_lent(minus, &number, out)
}
