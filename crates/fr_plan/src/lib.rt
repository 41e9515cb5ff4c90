#![tactic(auto)]
// The plans of French cardinals and ordinals, from groups of three digits, the lowest first.
ghost use Rattle.std.specs.Prelude.{◌≡◌, ◌&&◌, ◌∷◌, ◌++◌, ◌+◌, ◌*◌, ◌≤◌, ◌<◌, [], eqb, length};
ghost use Rattle.words.specs.Part.{part};
ghost use Rattle.figures.specs.Groups.{total};
ghost use Rattle.plan.specs.Phrase.{phrase_of};
ghost use Rattle.plan.specs.Plan.{pieces};
ghost use Rattle.fr.specs.Pool.{fr_pool};
ghost use Rattle.base.specs.Join.{spaced_by};
ghost use Rattle.base.specs.Room.{most_pieces};
ghost use Rattle.settings.specs.Chosen.{french_numbers_of};
ghost use Rattle.cardinals.specs.Cardinal.{group_of, cardinal_words, cardinal_phrase};
ghost use Rattle.cardinals.specs.Listed.{listed};
ghost use Rattle.fr.specs.Rules.{is_mille, french_joiner, hundred_words, link, tens_words, scale_words, french};
ghost use Rattle.fr.specs.Ordinal.{nth_phrase};
ghost use Rattle.fr.specs.Placed.{Known};
ghost use Rattle.fr_plan.specs.Appended.{Appended};

use groups::Number;
use plan::{ON, SEPARATORS};
use settings::French;

// How many groups a number has.
pub const ORDERS: usize = 34;

// How many pieces a plan has room for, `most_pieces`: no phrase has more than five for each group, and two.
pub const PLAN: usize = 172;

pub type Plan = plan::Plan<PLAN>;

// Adds a word behind the joiner.
fn join(settings: French, place: u16, plan: &mut Plan)
    requires { Known place × (length plan.old < 172) }
    ensures { Appended 1 plan.old plan.new (french_joiner (french_numbers_of settings) ∷ part fr_pool place) }
{
    plan.push(fr::joiner(settings), place);
}

// The words of a hundreds digit: from 2 on they are one piece.
fn hundred_words(settings: French, order: usize, h: usize, below: usize, plan: &mut Plan)
    requires { (h < 10) × (length plan.old < 172) }
    ensures { let S = french_numbers_of settings in Appended 1 plan.old plan.new (spaced_by (french_joiner S) (hundred_words order h below)) }
{
    match h {
        0 => (),
        1 => join(settings, fr::CENT, plan),
        _ => join(settings, fr::hundreds(settings, order, h, below), plan),
    }
}

// The link from a tens word to what follows it, and that word.
fn linked(settings: French, t: usize, u: usize, place: u16, plan: &mut Plan)
    requires { Known place × (length plan.old + 2 ≤ 172) }
    ensures { Appended 2 plan.old plan.new (link (french_numbers_of settings) t u ++ part fr_pool place) }
{
    if fr::takes_et(settings, t, u) {
        join(settings, fr::ET, plan);
        join(settings, place, plan);
    } else {
        plan.push(b'-', place);
    }
}

// The words of tens above 1 and units: the tens word below and a teen, a round number, or a tens word and a unit.
fn high_words(settings: French, order: usize, t: usize, u: usize, plan: &mut Plan)
    requires { (1 < t) × (t < 10) × (u < 10) × (length plan.old + 3 ≤ 172) }
    ensures { let S = french_numbers_of settings in Appended 3 plan.old plan.new (spaced_by (french_joiner S) (tens_words S order t u)) }
{
    if fr::counts_on(settings, t) {
        join(settings, fr::ten(settings, t - 1), plan);
        linked(settings, t, u, fr::teen(u), plan);
    } else if u == 0 {
        join(settings, fr::round(settings, order, t), plan);
    } else {
        join(settings, fr::ten(settings, t), plan);
        linked(settings, t, u, fr::unit(settings, order, u), plan);
    }
}

// The words of the tens and units digits.
fn low_words(settings: French, order: usize, t: usize, u: usize, plan: &mut Plan)
    requires { (t < 10) × (u < 10) × (length plan.old + 3 ≤ 172) }
    ensures { let S = french_numbers_of settings in Appended 3 plan.old plan.new (spaced_by (french_joiner S) (tens_words S order t u)) }
{
    if 1 < t {
        high_words(settings, order, t, u, plan);
    } else if t == 1 {
        join(settings, fr::teen(u), plan);
    } else if u != 0 {
        join(settings, fr::unit(settings, order, u), plan);
    }
}

// The scale word above order 0.
fn scale_words(settings: French, order: usize, g: usize, plan: &mut Plan)
    requires { (order < 34) × (length plan.old < 172) }
    ensures { Appended 1 plan.old plan.new (spaced_by (french_joiner (french_numbers_of settings)) (scale_words order g)) }
{
    if order != 0 {
        join(settings, fr::scale(order, g), plan);
    }
}

// Whether a group is its scale word alone.
fn is_bare(order: usize, g: usize) -> bool
    ensures { result ≡ (is_mille order && eqb g 1) }
{
    order == 1 && g == 1
}

// A group at its order; nothing for 0, and for 1 at order 1 the scale word alone.
fn group(settings: French, order: usize, g: u16, plan: &mut Plan)
    requires { (order < 34) × (length plan.old + 5 ≤ 172) }
    ensures { let S = french_numbers_of settings in Appended 5 plan.old plan.new (spaced_by (french_joiner S) (group_of (french S) order g)) }
{
    if g == 0 {
        return;
    }
    let n = usize::from(g);
    if !is_bare(order, n) {
        let below = n % 100;
        hundred_words(settings, order, n / 100 % 10, below, plan);
        low_words(settings, order, below / 10, below % 10, plan);
    }
    scale_words(settings, order, n, plan);
}

// The groups below order n, from the highest down: each call has one order fewer. Nothing is left to do behind the call, so that the compiler makes a
// loop of it.
fn groups(settings: &French, n: usize, gs: &[u16; ORDERS], plan: &mut Plan)
    requires { (n ≤ 34) × (length plan.old + 5 * n ≤ 172) }
    ensures { let S = french_numbers_of settings.now in Appended (5 * n) plan.old plan.new (spaced_by (french_joiner S) (listed (french S) n gs.now)) }
{
    if n == 0 {
        return;
    }
    let order = n - 1;
    group(*settings, order, gs[order], plan);
    groups(settings, order, gs, plan);
}

// The plan of a cardinal: zero's word, or the minus word if negative and the groups.
fn plan_words(settings: French, negative: bool, number: &Number<ORDERS>, plan: &mut Plan)
    ensures { let S = french_numbers_of settings in Appended 171 [] plan.new (spaced_by (french_joiner S) (cardinal_words (french S) negative (total number.now.groups))) }
{
    plan.clear();
    if number.is(0) {
        join(settings, fr::ZERO, plan);
        return;
    }
    if negative {
        join(settings, fr::MOINS, plan);
    }
    groups(&settings, number.orders, &number.groups, plan);
}

// The plan of a cardinal's phrase. It is lent, for a plan that is handed out is copied.
pub fn plan_cardinal(settings: French, negative: bool, number: &Number<ORDERS>, plan: &mut Plan)
    ensures { (length plan.new ≤ most_pieces) × (phrase_of (pieces fr_pool plan.new) ≡ cardinal_phrase (french (french_numbers_of settings)) negative (total number.now.groups)) }
{
    plan_words(settings, negative, number, plan);
}

// The plan of an ordinal's phrase: the cardinal's, with the last word's stem and the ending. The texts are lent.
pub fn plan_ordinal(lent: &[u8], settings: French, number: &Number<ORDERS>, plan: &mut Plan)
    requires { lent.now ≡ fr_pool }
    ensures { (length plan.new ≤ most_pieces) × (phrase_of (pieces fr_pool plan.new) ≡ nth_phrase (french_numbers_of settings) (total number.now.groups)) }
{
    if number.is(1) {
        plan.clear();
        join(settings, fr::PREMIER, plan);
        return;
    }
    plan_words(settings, false, number, plan);
    let last = plan.pop();
    let place = fr::stem(lent, (last / SEPARATORS) as u16);
    plan.push((last % SEPARATORS) as u8, place);
    plan.push(ON, fr::IEME);
}
