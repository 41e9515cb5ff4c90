// The lowest group at order 0, and zero: words whose last carries the ending.
ghost use Rattle.std.specs.Prelude.{◌≡◌, ◌&&◌, [], ◌∷◌, ◌++◌, ◌+◌, ◌≤◌, ◌<◌, ltb, length};
ghost use Rattle.settings.specs.Chosen.{numbers_of};
ghost use Rattle.base.specs.Utf8.{utf8};
ghost use Rattle.words.specs.Part.{part};
ghost use Rattle.uk.specs.Pool.{uk_pool};
ghost use Rattle.plan.specs.Speaks.{Told};
ghost use Rattle.uk.specs.Rules.{opt};
ghost use Rattle.uk.specs.Ukrainian.{ukrainian_digits};
ghost use Rattle.uk_ordinal.specs.OrdinalTables.{ordinal_zero_base, hundred_base};
ghost use Rattle.uk_ordinal.specs.Ordinal.{in_nominative, school, tail_words, hundred_count, plain_words};
ghost use Rattle.uk_ordinal_plan.specs.Said.{Spoken};

use plan::{ON, Plan, SPACE};
use settings::Ukrainian;
use uk_plan::hundred_word;

// The nominative tens word, if any.
fn ten_word<const N: usize>(settings: Ukrainian, t: usize, plan: &mut Plan<N>)
    requires { ((t ≡ 1 → ⊥) × (t < 10)) × (length plan.old < N) }
    ensures { Told uk_pool 1 plan.old plan.new (opt (ukrainian_digits (in_nominative (numbers_of settings))).ten t) }
{
    if t != 0 {
        plan.push_word(uk::ten(uk_ordinal::in_nominative(settings), t));
    }
}

// The tens and units that carry the ending.
fn tail_words<const N: usize>(
    settings: Ukrainian,
    t: usize,
    u: usize,
    ending: u16,
    plan: &mut Plan<N>,
)
    requires { (0 < t + u) × (t < 10) × (u < 10) × (length plan.old + 3 ≤ N) }
    ensures { Told uk_pool 3 plan.old plan.new (tail_words (numbers_of settings) (part uk_pool ending) t u) }
{
    if t == 1 {
        plan.push_ended(uk::teen(settings, u), ending);
    } else if u == 0 {
        plan.push_ended(uk_ordinal::ten_base(settings, t), ending);
    } else {
        ten_word(settings, t, plan);
        plan.push_ended(uk_ordinal::unit_base(settings, u), ending);
    }
}

// Whether a count stands before the base of so many hundreds.
fn counts_hundreds(settings: Ukrainian, h: usize) -> bool
    ensures { result ≡ (school (numbers_of settings) && ltb 1 h) }
{
    uk_ordinal::is_school(settings) && 1 < h
}

// A group of h hundreds: in school the count before the base is its unit's genitive, from 2 on.
fn round_word<const N: usize>(settings: Ukrainian, h: usize, ending: u16, plan: &mut Plan<N>)
    requires { (h < 10) × (length plan.old + 3 ≤ N) }
    ensures { Spoken uk_pool 3 plan.old plan.new ((hundred_count (numbers_of settings) h ++ (utf8 hundred_base ++ part uk_pool ending)) ∷ []) }
{
    if counts_hundreds(settings, h) {
        let unit = uk::unit(uk_ordinal::in_genitive(settings), h);
        plan.push(SPACE, unit);
        plan.push(ON, uk_ordinal::hundred_base());
        plan.push(ON, ending);
    } else {
        plan.push_ended(uk_ordinal::hundred_base(), ending);
    }
}

// The lowest group at order 0.
pub fn plain_words<const N: usize>(settings: Ukrainian, g: usize, ending: u16, plan: &mut Plan<N>)
    requires { length plan.old + 4 ≤ N }
    ensures { Spoken uk_pool 4 plan.old plan.new (plain_words (numbers_of settings) (part uk_pool ending) g) }
{
    if g % 100 == 0 {
        round_word(settings, g / 100 % 10, ending, plan);
    } else {
        hundred_word(uk_ordinal::in_nominative(settings), g / 100 % 10, plan);
        tail_words(settings, g / 10 % 10, g % 10, ending, plan);
    }
}

// Zero's word.
pub fn zero_word<const N: usize>(ending: u16, plan: &mut Plan<N>)
    requires { length plan.old + 2 ≤ N }
    ensures { Told uk_pool 2 plan.old plan.new ((utf8 ordinal_zero_base ++ part uk_pool ending) ∷ []) }
{
    plan.push_ended(uk_ordinal::zero_base(), ending);
}
