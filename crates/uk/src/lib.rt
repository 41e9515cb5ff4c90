#![tactic(auto)]
// Ukrainian: the places of the words by value and settings, and the rules that the code decides. Speller and reader see the contracts alone.
mod places; // places.rt: the tables of uk.rs, with the place of each text
mod pool; // pool.rt: the texts

ghost use Rattle.std.specs.Prelude.{◌≡◌, ◌-◌, ◌*◌, ◌≤◌, ◌<◌, length, take};
ghost use Rattle.base.specs.Answer.{fitted, Answers};
ghost use Rattle.base.specs.Refused.{answer_of};
ghost use Rattle.base.specs.Measure.{size_of};
ghost use Rattle.base.specs.Decides.{Decides};
ghost use Rattle.base.specs.Utf8.{utf8, form1, form2, form3};
ghost use Rattle.base.specs.Room.{longest_piece};
ghost use Rattle.words.specs.Part.{part};
ghost use Rattle.plan.specs.Phrase.{phrase_of};
ghost use Rattle.plan.specs.Plan.{pieces, Below};
ghost use Rattle.uk.specs.Pool.{uk_pool, front_size, front_places};
ghost use Rattle.uk.specs.UkTables.{zeros, teens_bases, teens_flexions, tens, hundreds, mega_bases};
ghost use Rattle.uk.specs.Apostrophes.{by_apostrophe1, by_apostrophe2};
ghost use Rattle.settings.specs.Chosen.{numbers_of};
ghost use Rattle.uk.specs.Ukrainian.{at_order, unit_form, many as many_of, agreed, scale_ending};

use base::{Refusal, Size};
use settings::{Case, Gender, Number, Ukrainian};
use uk_digits::{hundreds, tens, units};
use words::extents::Spaces;

// How many groups a number has, and its text digits: three for each group.
pub const ORDERS: usize = 22;

pub const DIGITS: usize = 66;

// How many cases a form has.
pub const CASES: usize = 6;

// The texts. An array is made on the stack where it is used, so that it is made once a call and lent on.
#[tactic(auto, unfolding(crate::specs::Pool::uk_pool))]
fn texts() -> [u8; pool::SIZE]
    ensures { result ≡ uk_pool }
{
    pool::POOL
}

// The first of them, among which are those of everyday figures: to make fewer takes less time.
#[tactic(auto, unfolding(crate::specs::Pool::uk_pool))]
fn front() -> [u8; pool::FRONT]
    ensures { result ≡ take front_size uk_pool }
{
    pool::FRONT_POOL
}

// Writes what a plan says, whose places lie in the front; and what any plan says. Each has its own texts, so that those of one are not in the other's
// frame.
#[tactic(auto, using(crate::proofs::Lent::front_all))]
fn speak_front(plan: &[u32], out: &mut [u8]) -> Result<usize, Refusal>
    requires { (length plan.now ≤ 1000) × Below front_places plan.now }
    ensures answers { Answers (answer_of result) out.old out.new (fitted out.old (phrase_of (pieces uk_pool plan.now))) }
    ensures length_bound { (answer_of result).length ≤ longest_piece * length plan.now }
{
    let lent = front();
    plan::speak(&lent, plan, out)
}

fn speak_any(plan: &[u32], out: &mut [u8]) -> Result<usize, Refusal>
    requires { length plan.now ≤ 1000 }
    ensures answers { Answers (answer_of result) out.old out.new (fitted out.old (phrase_of (pieces uk_pool plan.now))) }
    ensures length_bound { (answer_of result).length ≤ longest_piece * length plan.now }
{
    let lent = texts();
    plan::speak(&lent, plan, out)
}

// Writes what a plan says, and tells its length.
pub fn speak(plan: &[u32], out: &mut [u8]) -> Result<usize, Refusal>
    requires { length plan.now ≤ 1000 }
    ensures answers { Answers (answer_of result) out.old out.new (fitted out.old (phrase_of (pieces uk_pool plan.now))) }
    ensures length_bound { (answer_of result).length ≤ longest_piece * length plan.now }
{
    if plan::below(plan, pool::FRONT_PLACES) {
        return speak_front(plan, out);
    }
    speak_any(plan, out)
}

// The size of what it says: the texts are not made for it.
pub fn measure(plan: &[u32]) -> Size
    requires { length plan.now ≤ 1000 }
    ensures { result ≡ size_of (phrase_of (pieces uk_pool plan.now)) }
{
    let counts = pool::COUNTS;
    let spaces = Spaces {
        unspaced: pool::UNSPACED,
        counts: &counts,
    };
    plan::measure::measure(spaces, plan)
}

// The length of the text at a place.
pub fn len(place: u16) -> usize
    ensures { result ≡ length (part uk_pool place) }
{
    let counts = pool::COUNTS;
    let spaces = Spaces {
        unspaced: pool::UNSPACED,
        counts: &counts,
    };
    spaces.extent_at(u32::from(place)).length
}

// Whether s is the phrase of a plan whose places lie in the front; and of any plan.
#[tactic(auto, using(crate::proofs::Lent::front_all))]
fn stands_front(plan: &[u32], s: &[u8]) -> bool
    requires { Below front_places plan.now }
    ensures { Decides result (phrase_of (pieces uk_pool plan.now) ≡ s.now) }
{
    let lent = front();
    plan::stands(&lent, plan, s)
}

fn stands_any(plan: &[u32], s: &[u8]) -> bool
    ensures { Decides result (phrase_of (pieces uk_pool plan.now) ≡ s.now) }
{
    let lent = texts();
    plan::stands(&lent, plan, s)
}

// Whether s is the phrase of a plan.
pub fn stands(plan: &[u32], s: &[u8]) -> bool
    ensures { Decides result (phrase_of (pieces uk_pool plan.now) ≡ s.now) }
{
    if plan::below(plan, pool::FRONT_PLACES) {
        return stands_front(plan, s);
    }
    stands_any(plan, s)
}

// The minus word.
#[tactic(auto, using(crate::proofs::Tables::minus_at))]
pub fn minus() -> u16
    ensures { part uk_pool result ≡ utf8 "мінус" }
{
    places::MINUS
}

// Zero's word.
#[tactic(auto, using(crate::proofs::Tables::zero_at))]
pub fn zero(settings: Ukrainian) -> u16
    ensures { part uk_pool result ≡ form1 zeros (numbers_of settings).case }
{
    places::ZEROS[settings.case as usize]
}

// A unit: 1 and 2 by gender.
#[tactic(auto, using(crate::proofs::Tables::gendered_at, crate::proofs::Tables::unit_at), unfolding(crate::specs::Ukrainian::unit_form))]
pub fn unit(settings: Ukrainian, u: usize) -> u16
    requires { (0 < u) × (u < 10) }
    ensures { part uk_pool result ≡ unit_form (numbers_of settings) u }
{
    let case = settings.case as usize;
    if u < 3 {
        return places::GENDERED[u - 1][settings.gender as usize][case];
    }
    let apostrophe = settings.apostrophe as usize;
    units::place((apostrophe * units::ROWS + (u - 3)) * CASES + case)
}

// The stem of a teen, by its units digit, and its ending.
#[tactic(auto, using(crate::proofs::Tables::teen_at))]
pub fn teen(settings: Ukrainian, u: usize) -> u16
    requires { u < 10 }
    ensures { part uk_pool result ≡ form2 (by_apostrophe1 teens_bases) (numbers_of settings).apostrophe u }
{
    let apostrophe = settings.apostrophe as usize;
    places::TEENS_BASES[apostrophe][u]
}

#[tactic(auto, using(crate::proofs::Tables::teen_ending_at))]
pub fn teen_ending(settings: Ukrainian) -> u16
    ensures { part uk_pool result ≡ form1 teens_flexions (numbers_of settings).case }
{
    places::TEENS_FLEXIONS[settings.case as usize]
}

// A tens word above 1.
#[tactic(auto, using(crate::proofs::Tables::ten_at))]
pub fn ten(settings: Ukrainian, t: usize) -> u16
    requires { (1 < t) × (t < 10) }
    ensures { part uk_pool result ≡ form3 (by_apostrophe2 tens) (numbers_of settings).apostrophe (t - 2) (numbers_of settings).case }
{
    let apostrophe = settings.apostrophe as usize;
    let case = settings.case as usize;
    tens::place((apostrophe * tens::ROWS + (t - 2)) * CASES + case)
}

// A hundred word.
#[tactic(auto, using(crate::proofs::Tables::hundred_at))]
pub fn hundred(settings: Ukrainian, h: usize) -> u16
    requires { (0 < h) × (h < 10) }
    ensures { part uk_pool result ≡ form3 (by_apostrophe2 hundreds) (numbers_of settings).apostrophe (h - 1) (numbers_of settings).case }
{
    let apostrophe = settings.apostrophe as usize;
    let case = settings.case as usize;
    hundreds::place((apostrophe * hundreds::ROWS + (h - 1)) * CASES + case)
}

// The stem of the scale noun of an order above 0.
#[tactic(auto, using(crate::proofs::Tables::scale_at))]
pub fn scale(order: usize) -> u16
    requires { (0 < order) × (order < 22) }
    ensures { part uk_pool result ≡ form1 mega_bases (order - 1) }
{
    places::MEGA_BASES[order - 1]
}

// Its ending.
#[tactic(auto, using(crate::proofs::Tables::thousand_at, crate::proofs::Tables::mega_at), unfolding(crate::specs::Ukrainian::scale_ending))]
pub fn scale_ending(settings: Ukrainian, order: usize) -> u16
    ensures { part uk_pool result ≡ scale_ending (numbers_of settings) order }
{
    let number = settings.number as usize;
    let case = settings.case as usize;
    if order == 1 {
        return places::THOUSAND_FLEXIONS[number][case];
    }
    places::MEGA_FLEXIONS[number][case]
}

// The settings of the units at an order: the caller's gender, then feminine, then masculine.
pub fn at_order(order: usize, settings: Ukrainian) -> Ukrainian
    ensures { numbers_of result ≡ at_order order (numbers_of settings) }
{
    let gender = match order {
        0 => settings.gender,
        1 => Gender::Feminine,
        _ => Gender::Masculine,
    };
    Ukrainian { gender, ..settings }
}

// Whether a count that ends in these digits takes the plural of many.
fn is_many(t: usize, u: usize) -> bool
    ensures { result ≡ many_of t u }
{
    u == 0 || 4 < u || t == 1
}

// The settings of a noun that agrees with a count that ends in these digits.
pub fn agreement(t: usize, u: usize, settings: Ukrainian) -> Ukrainian
    ensures { numbers_of result ≡ agreed t u (numbers_of settings) }
{
    if is_many(t, u) {
        let case = match settings.case {
            Case::Nominative => Case::Genitive,
            case => case,
        };
        return Ukrainian {
            number: Number::Plural,
            case,
            ..settings
        };
    }
    let number = if u == 1 {
        Number::Singular
    } else {
        Number::Plural
    };
    Ukrainian { number, ..settings }
}
