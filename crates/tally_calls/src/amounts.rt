// An amount from its text, and a sum spoken.
ghost use Rattle.std.specs.Prelude.{◌≡◌, ◌<◌};
ghost use Rattle.base.specs.Answer.{fitted, Answers};
ghost use Rattle.base.specs.Refused.{answer_of};
ghost use Rattle.settings.specs.Chosen.{numbers_of};
ghost use Rattle.figures.specs.Money.{whole_of, hundredths_of};
ghost use Rattle.figures.specs.Refusals.{amount_refusals, Admitted};
ghost use Rattle.uk_money.specs.Rows.{currency_at};
ghost use Rattle.uk_money.specs.Money.{amount_phrase};

use base::Refusal;
use groups::Number;
use plan::Plan;
use settings::Ukrainian;
use tally::{Place, Sum};
use uk_money::CurrencyId;

// The amount of an admitted text under an item number.
pub fn amount_of(item: u32, text: &[u8]) -> Place
    requires { Admitted (amount_refusals text.now) }
    ensures { (result.item ≡ item) × (result.whole ≡ whole_of text.now) × (result.hundredths ≡ hundredths_of text.now) × (result.hundredths < 100) }
{
    let whole = figures::value_of(figures::after_sign(figures::money::whole_part(text)));
    let hundredths = figures::value_of(figures::money::hundredths_part(text)) as u32;
    Place {
        item,
        whole,
        hundredths,
    }
}

// The phrase of a sum: planned, measured, written.
pub fn speak_sum(
    settings: Ukrainian,
    currency: CurrencyId,
    sum: Sum,
    out: &mut [u8],
) -> Result<usize, Refusal>
    requires { sum.hundredths < 100 }
    ensures { Answers (answer_of result) out.old out.new (fitted out.old (amount_phrase (numbers_of settings) (currency_at currency.place) sum.whole sum.hundredths)) }
{
    let whole = Number::of(sum.whole);
    let mut plan = Plan::new();
    uk_money_plan::plan_money(settings, currency, &whole, sum.hundredths, &mut plan);
    uk::speak(plan.codes(), out)
}
