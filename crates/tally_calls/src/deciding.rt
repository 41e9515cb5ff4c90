// What adding and removing come to on a tally that is only looked at: what is refused, in 02's order, the new total's phrase, and what is to be stored.
ghost use Rattle.std.specs.Prelude.{◌≡◌, suc, ◌≤◌, ◌<◌, length, get_or, IfOk};
ghost use Rattle.std.proofs.Math.Option.{some};
ghost use Rattle.base.specs.Answer.{replied, Answers};
ghost use Rattle.settings.specs.Settings.{ukrainian_settings};
ghost use Rattle.settings.specs.Chosen.{numbers_of};
ghost use Rattle.figures.specs.Refusals.{amount_refusals, Admitted};
ghost use Rattle.uk_money.specs.Rows.{currency_at};
ghost use Rattle.tally.specs.Layout.{tally_of};
ghost use Rattle.tally_calls.specs.TallyCalls.{adding, removing, adds, removes, move_of};
ghost use Rattle.tally_calls.specs.Changes.{weighing, change_answer, Prepares};

use crate::amounts::{amount_of, speak_sum};
use base::Refusal;
use figures::refusals::judge_amount;
use settings::Ukrainian;
use tally::Place;
use uk_money::CurrencyId;

// What a call on a tally comes to: its phrase's length, and what is to be stored: how many item numbers are given then, and a place.
#[derive(Clone, Copy)]
pub struct Change {
    pub length: usize,
    pub given: u32,
    pub at: usize,
    pub place: Place,
}

// The last item number.
const LAST_ITEM: u32 = 4294967295;

// A free place.
const FREE: Place = Place {
    item: 0,
    whole: 0,
    hundredths: 0,
};

// Another place in one of the tally's: the new sum is tested, and then spoken.
fn weigh(
    settings: Ukrainian,
    currency: CurrencyId,
    given: u32,
    at: usize,
    place: Place,
    tally: &[u8],
    out: &mut [u8],
) -> Result<Change, Refusal>
    requires { (at < 64) × (place.hundredths < 100) × (837 ≤ length tally.now) }
    ensures weighs { Answers (change_answer result) out.old out.new (replied (weighing (numbers_of settings) currency.place at place tally.now) out.old) }
    ensures stored { IfOk result (λ c. (c.given ≡ given) × (c.at ≡ at) × (c.place ≡ place)) }
{
    let sum = tally::sums::sum_with(tally, at, place).ok_or(Refusal::SumTooLarge)?;
    let length = speak_sum(settings, currency, sum, out)?;
    Ok(Change {
        length,
        given,
        at,
        place,
    })
}

// Adding an admitted text.
fn add_amount(
    settings: Ukrainian,
    currency: CurrencyId,
    tally: &[u8],
    text: &[u8],
    out: &mut [u8],
) -> Result<Change, Refusal>
    requires { (837 ≤ length tally.now) × Admitted (amount_refusals text.now) × (get_or tally.now 0 0 ≡ suc currency.place) }
    ensures { Prepares result tally.now out.old out.new (adding (numbers_of settings) (tally_of (some (currency_at currency.place)) tally.now) text.now) }
{
    let given = tally::given_by(tally);
    let at = tally::find(tally, 0).ok_or(Refusal::TallyFull)?;
    if given == LAST_ITEM {
        return Err(Refusal::TallyFull);
    }
    let item = given + 1;
    let place = amount_of(item, text);
    weigh(settings, currency, item, at, place, tally, out)
}

// Removing under settings in their ranges.
fn remove_item(
    settings: Ukrainian,
    currency: CurrencyId,
    item: u32,
    tally: &[u8],
    out: &mut [u8],
) -> Result<Change, Refusal>
    requires { (837 ≤ length tally.now) × (get_or tally.now 0 0 ≡ suc currency.place) }
    ensures { Prepares result tally.now out.old out.new (removing (numbers_of settings) (tally_of (some (currency_at currency.place)) tally.now) item) }
{
    if item == 0 {
        return Err(Refusal::NotHeld);
    }
    let at = tally::find(tally, item).ok_or(Refusal::NotHeld)?;
    let given = tally::given_by(tally);
    weigh(settings, currency, given, at, FREE, tally, out)
}

// Adding the amount of a text.
pub fn add_to(
    gender: u32,
    number: u32,
    case: u32,
    apostrophe: u32,
    style: u32,
    tally: &[u8],
    text: &[u8],
    out: &mut [u8],
) -> Result<Change, Refusal>
    ensures { Prepares result tally.now out.old out.new (move_of (adds (ukrainian_settings gender number case apostrophe style) text.now) tally.now) }
{
    let settings = Ukrainian::new(gender, number, case, apostrophe, style)?;
    let currency = tally::currency_of(tally).ok_or(Refusal::WrongCode)?;
    judge_amount(text)?;
    add_amount(settings, currency, tally, text, out)
}

// Removing the amount under an item number.
pub fn remove_from(
    gender: u32,
    number: u32,
    case: u32,
    apostrophe: u32,
    style: u32,
    item: u32,
    tally: &[u8],
    out: &mut [u8],
) -> Result<Change, Refusal>
    ensures { Prepares result tally.now out.old out.new (move_of (removes (ukrainian_settings gender number case apostrophe style) item) tally.now) }
{
    let settings = Ukrainian::new(gender, number, case, apostrophe, style)?;
    let currency = tally::currency_of(tally).ok_or(Refusal::WrongCode)?;
    remove_item(settings, currency, item, tally, out)
}
