#![tactic(auto)]
// Ukrainian money from bytes to bytes, both ways, and its measure: settings, code, text, sign, size and room are checked in 01's order. No phrase is longer than
// the room that the program keeps for an answer.
ghost use Rattle.std.specs.Prelude.{◌≤◌, ◌<◌, ◌≡◌, length};
ghost use Rattle.std.proofs.Math.Option.{some};
ghost use Rattle.base.specs.Answer.{replied, Answers};
ghost use Rattle.base.specs.Refused.{answer_of, measure_in};
ghost use Rattle.base.specs.Measure.{measured};
ghost use Rattle.base.specs.Reading.{Reads as ReadsAs};
ghost use Rattle.base.specs.Room.{phrase_room};
ghost use Rattle.settings.specs.Settings.{ukrainian_settings};
ghost use Rattle.settings.specs.Chosen.{numbers_of};
ghost use Rattle.uk_money.specs.Rows.{currency_at};
ghost use Rattle.uk_money_calls.specs.MoneyCalls.{uk_to_currency, amount_reading, uk_from_currency};

use base::{Refusal, Size};
use figures::refusals::judge_amount;
use groups::Number;
use plan::Plan;
use settings::Ukrainian;
use uk_money::CurrencyId;

// Any bytes, read under settings for a currency.
fn read(
    settings: Ukrainian,
    currency: CurrencyId,
    said: &[u8],
    out: &mut [u8],
) -> Result<usize, Refusal>
    ensures { ReadsAs (amount_reading (numbers_of settings) (some (currency_at currency.place))) said.now (answer_of result) out.old out.new }
{
    match uk_money_read::read_money(settings, currency, said) {
        Some(amount) => numerals::money::put_money_text(&amount.whole, amount.hundredths, out),
        None => Err(Refusal::NoSentence),
    }
}

// The phrase of a money text.
#[tactic(auto, using(settings::proofs::Handed::handed, uk_money::proofs::Coded::found_code, uk_money::proofs::Coded::no_code))]
pub fn to_currency(
    gender: u32,
    number: u32,
    case: u32,
    apostrophe: u32,
    style: u32,
    code: &[u8],
    text: &[u8],
    out: &mut [u8],
) -> Result<usize, Refusal>
    ensures answers { Answers (answer_of result) out.old out.new (replied (uk_to_currency (ukrainian_settings gender number case apostrophe style) code.now text.now) out.old) }
    ensures length_le_phrase_room { (answer_of result).length ≤ phrase_room }
{
    let settings = Ukrainian::new(gender, number, case, apostrophe, style)?;
    let currency = uk_money::code_of(code).ok_or(Refusal::WrongCode)?;
    judge_amount(text)?;
    let whole = figures::money::whole_part(text);
    let number = Number::of_digits(figures::after_sign(whole));
    let hundredths = figures::value_of(figures::money::hundredths_part(text)) as u32;
    let mut plan = Plan::new();
    uk_money_plan::plan_money(settings, currency, &number, hundredths, &mut plan);
    uk::speak(plan.codes(), out)
}

// What that phrase measures.
#[tactic(auto, using(settings::proofs::Handed::handed, uk_money::proofs::Coded::found_code, uk_money::proofs::Coded::no_code))]
pub fn measure_currency(
    gender: u32,
    number: u32,
    case: u32,
    apostrophe: u32,
    style: u32,
    code: &[u8],
    text: &[u8],
) -> Result<Size, Refusal>
    ensures { measure_in result ≡ measured (uk_to_currency (ukrainian_settings gender number case apostrophe style) code.now text.now) }
{
    let settings = Ukrainian::new(gender, number, case, apostrophe, style)?;
    let currency = uk_money::code_of(code).ok_or(Refusal::WrongCode)?;
    judge_amount(text)?;
    let whole = figures::money::whole_part(text);
    let number = Number::of_digits(figures::after_sign(whole));
    let hundredths = figures::value_of(figures::money::hundredths_part(text)) as u32;
    let mut pieces = Plan::new();
    uk_money_plan::plan_money(settings, currency, &number, hundredths, &mut pieces);
    Ok(uk::measure(pieces.codes()))
}

// The money text of an amount.
#[tactic(auto, using(settings::proofs::Handed::handed, uk_money::proofs::Coded::found_code, uk_money::proofs::Coded::no_code))]
pub fn from_currency(
    gender: u32,
    number: u32,
    case: u32,
    apostrophe: u32,
    style: u32,
    code: &[u8],
    said: &[u8],
    out: &mut [u8],
) -> Result<usize, Refusal>
    ensures { ReadsAs (uk_from_currency (ukrainian_settings gender number case apostrophe style) code.now) said.now (answer_of result) out.old out.new }
{
    let settings = Ukrainian::new(gender, number, case, apostrophe, style)?;
    let currency = uk_money::code_of(code).ok_or(Refusal::WrongCode)?;
    read(settings, currency, said, out)
}
