// The lowest group above order 0: one word, run together from what counts the scale, the scale's base, н and the ending.
ghost use Rattle.std.specs.Prelude.{◌≡◌, ◌&&◌, [], ◌∷◌, ℕ, ◌+◌, ◌-◌, ◌≤◌, ◌<◌, eqb, length};
ghost use Rattle.settings.specs.Chosen.{numbers_of};
ghost use Rattle.base.specs.Utf8.{utf8, form1};
ghost use Rattle.words.specs.Part.{part};
ghost use Rattle.uk.specs.Pool.{uk_pool};
ghost use Rattle.uk.specs.UkTables.{mega_bases};
ghost use Rattle.uk.specs.Rules.{opt, low_words, num_words};
ghost use Rattle.uk_ordinal.specs.Ordinal.{compound_digits, compound_word};
ghost use Rattle.uk_ordinal_plan.specs.Said.{Ran, Spoken};

use plan::{ON, Plan, SPACE};
use settings::Ukrainian;

// A compound's unit, if any; what is said begins with the separator.
fn count_unit<const N: usize>(settings: Ukrainian, u: usize, separator: u8, plan: &mut Plan<N>)
    requires { (u < 10) × (length plan.old < N) }
    ensures { Ran uk_pool separator 1 plan.old plan.new (opt (compound_digits (numbers_of settings)).unit u) }
{
    match u {
        0 => (),
        1 => plan.push(separator, uk_ordinal::one_base()),
        _ => plan.push(separator, uk::unit(uk_ordinal::in_genitive(settings), u)),
    }
}

// A compound's teen, or its tens if any and its unit if any.
fn count_low<const N: usize>(
    settings: Ukrainian,
    t: usize,
    u: usize,
    separator: u8,
    plan: &mut Plan<N>,
)
    requires { (t < 10) × (u < 10) × (length plan.old + 2 ≤ N) }
    ensures { Ran uk_pool separator 2 plan.old plan.new (low_words (compound_digits (numbers_of settings)) t u) }
{
    match t {
        0 => count_unit(settings, u, separator, plan),
        1 => {
            plan.push(separator, uk::teen(settings, u));
            plan.push(ON, uk::teen_ending(uk_ordinal::in_genitive(settings)));
        }
        _ => {
            plan.push(separator, uk_ordinal::compound_ten(settings, t));
            count_unit(settings, u, ON, plan);
        }
    }
}

// What counts a scale in a compound.
fn count<const N: usize>(settings: Ukrainian, h: usize, t: usize, u: usize, plan: &mut Plan<N>)
    requires { (h < 10) × (t < 10) × (u < 10) × (length plan.old + 3 ≤ N) }
    ensures { Ran uk_pool 32 3 plan.old plan.new (num_words (compound_digits (numbers_of settings)) h t u) }
{
    if h == 0 {
        count_low(settings, t, u, SPACE, plan);
    } else {
        plan.push(SPACE, uk_ordinal::compound_hundred(settings, h));
        count_low(settings, t, u, ON, plan);
    }
}

// The base of a scale, its adjective's н, and the ending.
fn scale<const N: usize>(order: usize, separator: u8, ending: u16, plan: &mut Plan<N>)
    requires { (0 < order) × (order < 22) × (length plan.old + 3 ≤ N) }
    ensures { Ran uk_pool separator 3 plan.old plan.new (form1 mega_bases (order - 1) ∷ utf8 "н" ∷ part uk_pool ending ∷ []) }
{
    plan.push(separator, uk::scale(order));
    plan.push(ON, uk_ordinal::adjective_n());
    plan.push(ON, ending);
}

// Whether a group is a lone 1.
fn is_bare(lone: bool, g: usize) -> bool
    ensures { result ≡ (lone && eqb g 1) }
{
    lone && g == 1
}

// The lowest group above order 0: one word.
pub fn scale_word<const N: usize>(
    settings: Ukrainian,
    order: usize,
    g: usize,
    lone: bool,
    ending: u16,
    plan: &mut Plan<N>,
)
    requires { (0 < order) × (order < 22) × (0 < g) × (g < 1000) × (length plan.old + 6 ≤ N) }
    ensures { (rest : ℕ) → lone ≡ eqb rest 0 → Spoken uk_pool 6 plan.old plan.new (compound_word (numbers_of settings) (part uk_pool ending) rest order g ∷ []) }
{
    if is_bare(lone, g) {
        scale(order, SPACE, ending, plan);
    } else {
        count(settings, g / 100 % 10, g / 10 % 10, g % 10, plan);
        scale(order, ON, ending, plan);
    }
}
