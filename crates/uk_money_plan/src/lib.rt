#![tactic(auto)]
// The plan of an amount of Ukrainian money, from the groups of its whole part, lowest order first, and its hundredths.
ghost use Rattle.std.specs.Prelude.{◌≡◌, [], ◌∷◌, ◌++◌, ◌+◌, ◌*◌, ◌/◌, ◌%◌, ◌≤◌, ◌<◌, length, get_or};
ghost use Rattle.settings.specs.Settings.{Settings};
ghost use Rattle.settings.specs.Chosen.{gender_number, numbers_of};
ghost use Rattle.figures.specs.Groups.{total};
ghost use Rattle.words.specs.Part.{part};
ghost use Rattle.plan.specs.Phrase.{phrase_of};
ghost use Rattle.plan.specs.Plan.{pieces};
ghost use Rattle.plan.specs.Speaks.{Told};
ghost use Rattle.uk.specs.Pool.{uk_pool};
ghost use Rattle.uk_money.specs.Nouns.{Name, agreed_name};
ghost use Rattle.uk_money.specs.Money.{count_words, amount_phrase};
ghost use Rattle.uk_money.specs.Rows.{adjective_in, FormAt, Row, currency_at};

use groups::Number;
use plan::Plan;
use settings::{Gender, Ukrainian};
use uk::ORDERS;
use uk_money::CurrencyId;

// How many pieces a plan has room for: no amount has more than five for each of seven groups and five for its noun, and ten for its hundredths.
pub const PLAN: usize = 52;

// The number of the adjectives' class.
const ADJECTIVE: usize = 4;

// Adds a word of a stem and an ending to the plan; one of them may be empty.
fn say_form<const N: usize>(stem: u16, end: u16, plan: &mut Plan<N>)
    requires { length plan.old + 2 ≤ N }
    ensures { Told uk_pool 2 plan.old plan.new ((part uk_pool stem ++ part uk_pool end) ∷ []) }
{
    if stem == 0 {
        plan.push_word(end);
    } else if end == 0 {
        plan.push_word(stem);
    } else {
        plan.push_ended(stem, end);
    }
}

// The adjective of a name with this stem, if it has one.
#[tactic(auto, using(plan::proofs::Tells::quiet))]
fn say_adjective<const N: usize>(stem: u16, place: usize, plan: &mut Plan<N>)
    requires { (place < 12) × (length plan.old + 2 ≤ N) }
    ensures { (S : Settings) → FormAt S place → Told uk_pool 2 plan.old plan.new (adjective_in S stem) }
{
    if stem != 0 {
        say_form(stem, uk_money::ending(ADJECTIVE, place), plan);
    }
}

// The name of a row, as it agrees with the count n.
fn say_name<const N: usize>(row: &[u16; 4], settings: Ukrainian, n: usize, plan: &mut Plan<N>)
    requires { (get_or row.now 2 0 < 8) × (length plan.old + 4 ≤ N) }
    ensures { (name : Name) → Row name row.now → Told uk_pool 4 plan.old plan.new (agreed_name (numbers_of settings) name n) }
{
    let place = uk_money::agreed_place(n / 10 % 10, n % 10, settings);
    say_adjective(row[0], place, plan);
    let class = usize::from(row[2]);
    say_form(row[1], uk_money::ending(class, place), plan);
}

// The gender of the counts of a unit, by the last number of its row.
fn counted_in(row: &[u16; 4]) -> Gender
    requires { get_or row.now 3 0 < 3 }
    ensures { gender_number result ≡ get_or row.now 3 0 }
{
    match row[3] {
        0 => Gender::Masculine,
        1 => Gender::Feminine,
        _ => Gender::Neuter,
    }
}

// A count of the unit with this row: the cardinal and the name.
fn say_count<const N: usize>(
    row: &[u16; 4],
    settings: &Ukrainian,
    number: &Number<ORDERS>,
    plan: &mut Plan<N>,
)
    requires row_bound { (get_or row.now 2 0 < 8) × (get_or row.now 3 0 < 3) }
    requires room { length plan.old + (5 * number.now.orders + 5) ≤ N }
    ensures { (name : Name) → Row name row.now → Told uk_pool (5 * number.now.orders + 5) plan.old plan.new (count_words (numbers_of settings.now) name (total number.now.groups)) }
{
    let counting = Ukrainian {
        gender: counted_in(row),
        ..*settings
    };
    uk_plan::say_cardinal(counting, false, number, plan);
    say_name(row, *settings, usize::from(number.groups[0]), plan);
}

// A count of a currency's main unit.
fn say_main<const N: usize>(
    settings: Ukrainian,
    currency: CurrencyId,
    number: &Number<ORDERS>,
    plan: &mut Plan<N>,
)
    requires { length plan.old + (5 * number.now.orders + 5) ≤ N }
    ensures { Told uk_pool (5 * number.now.orders + 5) plan.old plan.new (count_words (numbers_of settings) (currency_at currency.place).main (total number.now.groups)) }
{
    let row = uk_money::main_row(currency);
    say_count(&row, &settings, number, plan);
}

// A count of its fraction, above 0.
fn say_fraction<const N: usize>(
    settings: Ukrainian,
    currency: CurrencyId,
    hundredths: u32,
    plan: &mut Plan<N>,
)
    requires { (0 < hundredths) × (hundredths < 100) × (length plan.old + 10 ≤ N) }
    ensures { Told uk_pool 10 plan.old plan.new (count_words (numbers_of settings) (currency_at currency.place).fraction hundredths) }
{
    let row = uk_money::fraction_row(currency);
    let number = Number::of_group(hundredths as u16);
    say_count(&row, &settings, &number, plan);
}

// The plan of an amount under these settings, from its whole part and its hundredths: it says the amount's phrase.
pub fn plan_money(
    settings: Ukrainian,
    currency: CurrencyId,
    whole: &Number<ORDERS>,
    hundredths: u32,
    plan: &mut Plan<PLAN>,
)
    requires { (whole.now.orders ≤ 7) × (hundredths < 100) }
    ensures { (length plan.new ≤ 50) × (phrase_of (pieces uk_pool plan.new) ≡ amount_phrase (numbers_of settings) (currency_at currency.place) (total whole.now.groups) hundredths) }
{
    plan.clear();
    if hundredths == 0 || !whole.is(0) {
        say_main(settings, currency, whole, plan);
    }
    if hundredths != 0 {
        say_fraction(settings, currency, hundredths, plan);
    }
}
