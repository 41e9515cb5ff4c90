#![tactic(auto, using(plan::proofs::Tells::quiet), unfolding(uk::specs::Ukrainian::ukrainian, uk::specs::Ukrainian::ukrainian_digits, uk::specs::Ukrainian::teen_form, uk::specs::Ukrainian::scale_noun))]
// The plan of a Ukrainian cardinal, from its groups of three digits, lowest order first.
ghost use Rattle.std.specs.Prelude.{◌≡◌, ◌+◌, ◌*◌, ◌≤◌, ◌<◌, length};
ghost use Rattle.settings.specs.Chosen.{numbers_of};
ghost use Rattle.figures.specs.Groups.{total};
ghost use Rattle.plan.specs.Phrase.{phrase_of};
ghost use Rattle.plan.specs.Plan.{pieces};
ghost use Rattle.plan.specs.Speaks.{Told};
ghost use Rattle.uk.specs.Pool.{uk_pool};
ghost use Rattle.uk.specs.Rules.{opt, low_words};
ghost use Rattle.uk.specs.Ukrainian.{unit_form, ukrainian_digits, noun_words, ukrainian};
ghost use Rattle.cardinals.specs.Cardinal.{group_of, sign_words, cardinal_words, cardinal_phrase};
ghost use Rattle.cardinals.specs.Listed.{listed};

use groups::Number;
use plan::Plan;
use settings::Ukrainian;
use uk::ORDERS;

// How many pieces a plan has room for. A cardinal has at most five for each group, and one; an ordinal five for each group above the lowest, and six
// for that; a year three more.
pub const PLAN: usize = 119;

// The hundred word, if any.
pub fn hundred_word<const N: usize>(settings: Ukrainian, h: usize, plan: &mut Plan<N>)
    requires { (h < 10) × (length plan.old < N) }
    ensures { Told uk_pool 1 plan.old plan.new (opt (ukrainian_digits (numbers_of settings)).hundred h) }
{
    if h != 0 {
        plan.push_word(uk::hundred(settings, h));
    }
}

// The unit word, if any.
fn unit_word<const N: usize>(settings: Ukrainian, u: usize, plan: &mut Plan<N>)
    requires { (u < 10) × (length plan.old < N) }
    ensures { Told uk_pool 1 plan.old plan.new (opt (unit_form (numbers_of settings)) u) }
{
    if u != 0 {
        plan.push_word(uk::unit(settings, u));
    }
}

// A teen; else the tens word if any and the unit word if any.
fn low_words<const N: usize>(settings: Ukrainian, t: usize, u: usize, plan: &mut Plan<N>)
    requires { (t < 10) × (u < 10) × (length plan.old + 2 ≤ N) }
    ensures { Told uk_pool 2 plan.old plan.new (low_words (ukrainian_digits (numbers_of settings)) t u) }
{
    match t {
        0 => unit_word(settings, u, plan),
        1 => plan.push_ended(uk::teen(settings, u), uk::teen_ending(settings)),
        _ => {
            plan.push_word(uk::ten(settings, t));
            unit_word(settings, u, plan);
        }
    }
}

// The scale noun above order 0.
fn noun_word<const N: usize>(
    settings: Ukrainian,
    order: usize,
    t: usize,
    u: usize,
    plan: &mut Plan<N>,
)
    requires { (order < 22) × (length plan.old + 2 ≤ N) }
    ensures { Told uk_pool 2 plan.old plan.new (noun_words (numbers_of settings) order t u) }
{
    if order != 0 {
        let ending = uk::scale_ending(uk::agreement(t, u, settings), order);
        plan.push_ended(uk::scale(order), ending);
    }
}

// A group at its order; nothing for 0.
fn group<const N: usize>(settings: Ukrainian, order: usize, g: u16, plan: &mut Plan<N>)
    requires { (order < 22) × (length plan.old + 5 ≤ N) }
    ensures { Told uk_pool 5 plan.old plan.new (group_of (ukrainian (numbers_of settings)) order g) }
{
    if g == 0 {
        return;
    }
    let n = usize::from(g);
    let t = n / 10 % 10;
    let u = n % 10;
    hundred_word(settings, n / 100 % 10, plan);
    low_words(uk::at_order(order, settings), t, u, plan);
    noun_word(settings, order, t, u, plan);
}

// The groups below order n, from the highest down: each call has one order fewer.
fn groups<const N: usize>(settings: &Ukrainian, n: usize, gs: &[u16; ORDERS], plan: &mut Plan<N>)
    requires { (n ≤ 22) × (length plan.old + 5 * n ≤ N) }
    ensures { Told uk_pool (5 * n) plan.old plan.new (listed (ukrainian (numbers_of settings.now)) n gs.now) }
{
    if n == 0 {
        return;
    }
    let order = n - 1;
    group(*settings, order, gs[order], plan);
    groups(settings, order, gs, plan);
}

// Adds the words of a number's n lowest groups to a plan.
pub fn say_groups<const N: usize>(
    settings: Ukrainian,
    n: usize,
    gs: &[u16; ORDERS],
    plan: &mut Plan<N>,
)
    requires { (n ≤ 22) × (length plan.old + 5 * n ≤ N) }
    ensures { Told uk_pool (5 * n) plan.old plan.new (listed (ukrainian (numbers_of settings)) n gs.now) }
{
    groups(&settings, n, gs, plan);
}

// The minus word, if negative.
fn sign<const N: usize>(negative: bool, plan: &mut Plan<N>)
    requires { length plan.old < N }
    ensures { (settings : Ukrainian) → Told uk_pool 1 plan.old plan.new (sign_words (ukrainian (numbers_of settings)) negative) }
{
    if negative {
        plan.push_word(uk::minus());
    }
}

// Adds a cardinal's words to a plan: zero's word, or the sign and the groups.
pub fn say_cardinal<const N: usize>(
    settings: Ukrainian,
    negative: bool,
    number: &Number<ORDERS>,
    plan: &mut Plan<N>,
)
    requires { length plan.old + (5 * number.now.orders + 1) ≤ N }
    ensures { Told uk_pool (5 * number.now.orders + 1) plan.old plan.new (cardinal_words (ukrainian (numbers_of settings)) negative (total number.now.groups)) }
{
    if number.is(0) {
        plan.push_word(uk::zero(settings));
        return;
    }
    sign(negative, plan);
    say_groups(settings, number.orders, &number.groups, plan);
}

// The plan of a cardinal under these settings: it says the cardinal's phrase. It is lent, for a plan that is handed out is copied.
pub fn plan_cardinal(
    settings: Ukrainian,
    negative: bool,
    number: &Number<ORDERS>,
    plan: &mut Plan<PLAN>,
)
    ensures { (length plan.new ≤ 111) × (phrase_of (pieces uk_pool plan.new) ≡ cardinal_phrase (ukrainian (numbers_of settings)) negative (total number.now.groups)) }
{
    plan.clear();
    say_cardinal(settings, negative, number, plan);
}
