#![tactic(auto, using(plan::proofs::Tells::quiet), unfolding(uk::specs::Ukrainian::ukrainian_digits, uk_ordinal::specs::Ordinal::plain_words, uk_ordinal::specs::Ordinal::lowest_words))]
// The plans of Ukrainian ordinals and years. A number comes as its groups of three digits, lowest order first.
mod compound;
mod plain;

ghost use Rattle.std.specs.Prelude.{◌≡◌, true, ◌∷◌, ◌++◌, ℕ, ◌+◌, ◌≤◌, ◌<◌, eqb, length, set};
ghost use Rattle.base.specs.Join.{joined};
ghost use Rattle.settings.specs.Settings.{masculine, in_gender};
ghost use Rattle.settings.specs.Chosen.{numbers_of};
ghost use Rattle.figures.specs.Groups.{total};
ghost use Rattle.groups.specs.Highest.{ZeroFrom};
ghost use Rattle.words.specs.Part.{part};
ghost use Rattle.uk.specs.Pool.{uk_pool};
ghost use Rattle.plan.specs.Phrase.{phrase_of};
ghost use Rattle.plan.specs.Plan.{pieces};
ghost use Rattle.plan.specs.Speaks.{Told};
ghost use Rattle.uk.specs.Ukrainian.{ukrainian};
ghost use Rattle.cardinals.specs.Listed.{listed};
ghost use Rattle.uk_ordinal.specs.Ordinal.{in_nominative, lowest_words, ordinal_words};
ghost use Rattle.uk_ordinal.specs.Year.{era_words, year_noun};
ghost use Rattle.uk_ordinal_plan.specs.Said.{Spoken};
ghost use Rattle.uk_ordinal_plan.specs.Groups.{LowestAt};

use groups::Number;
use plan::Plan;
use settings::{Gender, Ukrainian};
use uk::ORDERS;
use uk_plan::PLAN;

// The order of the lowest group that is not zero.
fn lowest(gs: &[u16; ORDERS]) -> Option<usize>
    requires { length gs.now ≡ 22 }
    ensures { LowestAt gs.now result }
{
    gs.iter().position(|&g| g != 0)
}

// The groups above the lowest, as nominative cardinals; lone is that there are none, and that nothing has to be copied.
fn higher<const N: usize>(
    settings: Ukrainian,
    lone: bool,
    number: &Number<ORDERS>,
    order: usize,
    plan: &mut Plan<N>,
)
    requires room { (order < 22) × (length plan.old + 110 ≤ N) }
    requires zero_from { lone ≡ true → ZeroFrom (set number.now.groups order 0) 0 }
    ensures { Told uk_pool 110 plan.old plan.new (listed (ukrainian (in_nominative (numbers_of settings))) 22 (set number.now.groups order 0)) }
{
    if lone {
        return;
    }
    let mut above = number.groups;
    above[order] = 0;
    uk_plan::say_groups(
        uk_ordinal::in_nominative(settings),
        number.orders,
        &above,
        plan,
    );
}

// The lowest group, which is not zero.
fn lowest_words<const N: usize>(
    settings: Ukrainian,
    order: usize,
    g: usize,
    lone: bool,
    ending: u16,
    plan: &mut Plan<N>,
)
    requires { (order < 22) × (0 < g) × (g < 1000) × (length plan.old + 6 ≤ N) }
    ensures { (rest : ℕ) → lone ≡ eqb rest 0 → Spoken uk_pool 6 plan.old plan.new (lowest_words (numbers_of settings) (part uk_pool ending) rest order g) }
{
    if order == 0 {
        plain::plain_words(settings, g, ending, plan);
    } else {
        compound::scale_word(settings, order, g, lone, ending, plan);
    }
}

// Adds an ordinal's words to a plan.
fn say_ordinal<const N: usize>(settings: Ukrainian, number: &Number<ORDERS>, plan: &mut Plan<N>)
    requires { length plan.old + 116 ≤ N }
    ensures { Spoken uk_pool 116 plan.old plan.new (ordinal_words (numbers_of settings) (total number.now.groups)) }
{
    let ending = uk_ordinal::ending(settings, uk_ordinal::is_soft(number.groups[0]));
    match lowest(&number.groups) {
        Some(order) => {
            let g = usize::from(number.groups[order]);
            let lone = order + 1 == number.orders;
            higher(settings, lone, number, order, plan);
            lowest_words(settings, order, g, lone, ending, plan);
        }
        None => plain::zero_word(ending, plan),
    }
}

// What years 0 and below add.
fn say_era<const N: usize>(early: bool, plan: &mut Plan<N>)
    requires { length plan.old + 2 ≤ N }
    ensures { Told uk_pool 2 plan.old plan.new (era_words early) }
{
    if early {
        plan.push_word(uk_ordinal::before_era());
        plan.push_word(uk_ordinal::our_era());
    }
}

// The plan of an ordinal under these settings: it says the ordinal's words, joined.
pub fn plan_ordinal(settings: Ukrainian, number: &Number<ORDERS>, plan: &mut Plan<PLAN>)
    ensures { (length plan.new ≤ 116) × (phrase_of (pieces uk_pool plan.new) ≡ joined (ordinal_words (numbers_of settings) (total number.now.groups))) }
{
    plan.clear();
    say_ordinal(settings, number, plan);
}

// The plan of a year under these settings, from its magnitude; early is whether it is 0 or below.
pub fn plan_year(
    settings: Ukrainian,
    early: bool,
    magnitude: &Number<ORDERS>,
    plan: &mut Plan<PLAN>,
)
    ensures { (length plan.new ≤ 119) × (let S = numbers_of settings in phrase_of (pieces uk_pool plan.new) ≡ joined (ordinal_words (in_gender masculine S) (total magnitude.now.groups) ++ (year_noun S ∷ era_words early))) }
{
    plan.clear();
    let masculine = Ukrainian {
        gender: Gender::Masculine,
        ..settings
    };
    say_ordinal(masculine, magnitude, plan);
    plan.push_word(uk_ordinal::year_word(settings));
    say_era(early, plan);
}
