#![tactic(auto)]
// The French words and rules that speller and reader share: the places of the words, and the tests of document 01's rules.
mod places; // places.rt: the tables of words, with the place of each
mod pool; // pool.rt: the texts

ghost use Rattle.std.specs.Prelude.{◌≡◌, false, not, ◌&&◌, ◌∷◌, ◌++◌, ◌-◌, ◌*◌, ◌≤◌, ◌<◌, eqb, length};
ghost use Rattle.base.specs.Utf8.{utf8, form1};
ghost use Rattle.base.specs.Answer.{fitted, Answers};
ghost use Rattle.base.specs.Refused.{answer_of};
ghost use Rattle.base.specs.Measure.{size_of};
ghost use Rattle.base.specs.Decides.{Decides};
ghost use Rattle.base.specs.Room.{longest_piece};
ghost use Rattle.settings.specs.Chosen.{french_numbers_of};
ghost use Rattle.words.specs.Part.{part};
ghost use Rattle.plan.specs.Phrase.{phrase_of};
ghost use Rattle.plan.specs.Plan.{pieces};
ghost use Rattle.fr.specs.Pool.{fr_pool};
ghost use Rattle.fr.specs.FrTables.{units, teens};
ghost use Rattle.fr.specs.Rules.{is_mille, french_joiner, cent_word, counts_on, four_twenties, takes_et, is_une, unit_word, ten_word, round_word, scale_word, without_e};
ghost use Rattle.fr.specs.Placed.{Known, Placed, Plural};

use base::{Refusal, Size};
use settings::{French, Region, Settings, Spelling};
use words::extents::Spaces;

// The numbers of these settings.
const FEMININE: u8 = 1;

const CH: u8 = 2;

// The places of the words that stand in no table.
pub const ZERO: u16 = places::ZERO;

pub const MOINS: u16 = places::MOINS;

pub const CENT: u16 = places::CENT;

pub const ET: u16 = places::ET;

pub const PREMIER: u16 = places::PREMIER;

pub const IEME: u16 = places::IEME;

// The texts. An array is made on the stack where it is used, so that it is made once a call and lent on.
#[tactic(auto, unfolding(crate::specs::Pool::fr_pool))]
pub fn texts() -> [u8; pool::SIZE]
    ensures { result ≡ fr_pool }
{
    pool::POOL
}

// Writes what a plan says, and tells its length.
pub fn speak(plan: &[u32], out: &mut [u8]) -> Result<usize, Refusal>
    requires { length plan.now ≤ 1000 }
    ensures answers { Answers (answer_of result) out.old out.new (fitted out.old (phrase_of (pieces fr_pool plan.now))) }
    ensures length_bound { (answer_of result).length ≤ longest_piece * length plan.now }
{
    let lent = texts();
    plan::speak(&lent, plan, out)
}

// The size of what it says: the texts are not made for it.
pub fn measure(plan: &[u32]) -> Size
    requires { length plan.now ≤ 1000 }
    ensures { result ≡ size_of (phrase_of (pieces fr_pool plan.now)) }
{
    let counts = pool::COUNTS;
    let spaces = Spaces {
        unspaced: pool::UNSPACED,
        counts: &counts,
    };
    plan::measure::measure(spaces, plan)
}

// Whether s is the phrase of a plan.
pub fn stands(plan: &[u32], s: &[u8]) -> bool
    ensures { Decides result (phrase_of (pieces fr_pool plan.now) ≡ s.now) }
{
    let lent = texts();
    plan::stands(&lent, plan, s)
}

// The byte that joins words.
pub fn joiner(settings: French) -> u8
    ensures { result ≡ french_joiner (french_numbers_of settings) }
{
    match settings.spelling {
        Spelling::Reformed => b'-',
        Spelling::Old => b' ',
    }
}

// Whether a unit at this order is `une`.
pub fn is_une(settings: Settings, order: usize, u: usize) -> bool
    ensures { result ≡ is_une settings order u }
{
    u == 1 && order == 0 && settings.gender == FEMININE
}

// Whether the tens digit t is written by the tens word below and a teen.
pub fn counts_on(settings: French, t: usize) -> bool
    ensures { result ≡ counts_on (french_numbers_of settings) t }
{
    settings.region == Region::Fr && (t == 7 || t == 9)
}

// Whether the tens digit t is `quatre-vingt`.
pub fn four_twenties(settings: Settings, t: usize) -> bool
    ensures { result ≡ four_twenties settings t }
{
    t == 8 && settings.region != CH
}

// Whether `et` stands between the tens word and what follows it.
pub fn takes_et(settings: French, t: usize, u: usize) -> bool
    ensures { result ≡ takes_et (french_numbers_of settings) t u }
{
    if u != 1 || four_twenties(Settings::from(settings), t) {
        return false;
    }
    if t == 9 {
        settings.region != Region::Fr
    } else {
        true
    }
}

// The word of a unit.
pub fn unit(settings: French, order: usize, u: usize) -> u16
    requires { (0 < u) × (u < 10) }
    ensures { Placed result (unit_word (french_numbers_of settings) order u) }
{
    if is_une(Settings::from(settings), order, u) {
        return places::UNE;
    }
    places::UNITS[u]
}

// The word of a teen.
pub fn teen(u: usize) -> u16
    requires { u < 10 }
    ensures { Placed result (form1 teens u) }
{
    places::TEENS[u]
}

// The word of a tens digit.
pub fn ten(settings: French, t: usize) -> u16
    requires { (1 < t) × (t < 10) × (counts_on (french_numbers_of settings) t ≡ false) }
    ensures { Placed result (ten_word (french_numbers_of settings) t) }
{
    if four_twenties(Settings::from(settings), t) {
        return places::QUATRE_VINGT;
    }
    places::TENS[t]
}

// The word of a tens digit that no unit follows.
#[tactic(auto, using(crate::proofs::Tables::round_mille, crate::proofs::Tables::round_other))]
pub fn round(settings: French, order: usize, t: usize) -> u16
    requires { (1 < t) × (t < 10) × (counts_on (french_numbers_of settings) t ≡ false) }
    ensures { Placed result (round_word (french_numbers_of settings) order t) }
{
    if order != 1 && four_twenties(Settings::from(settings), t) {
        return places::QUATRE_VINGT + 1;
    }
    ten(settings, t)
}

// Whether `cent` takes its `s`.
fn takes_s(order: usize, below: usize) -> bool
    ensures { result ≡ (eqb below 0 && not (is_mille order)) }
{
    below == 0 && order != 1
}

// The unit and `cent` of a hundreds digit above 1, which are one text.
fn hundred(settings: French, h: usize) -> u16
    requires { (1 < h) × (h < 10) }
    ensures { Plural result (form1 units (h - 1) ++ (french_joiner (french_numbers_of settings) ∷ utf8 "cent")) }
{
    places::HUNDREDS[settings.spelling as usize][h]
}

// The unit and `cent` or `cents`: the plural is the same part of the pool with one byte more.
#[tactic(auto, using(crate::proofs::Tables::known_fits, crate::proofs::Tables::cents, crate::proofs::Tables::no_cents))]
pub fn hundreds(settings: French, order: usize, h: usize, below: usize) -> u16
    requires { (1 < h) × (h < 10) }
    ensures { Placed result (form1 units (h - 1) ++ (french_joiner (french_numbers_of settings) ∷ cent_word order below)) }
{
    let p = hundred(settings, h);
    if takes_s(order, below) {
        return p + 1;
    }
    p
}

// The scale word of an order above 0, with its `s` where it takes one, which is one byte more.
pub fn scale(order: usize, g: usize) -> u16
    requires { (0 < order) × (order < 34) }
    ensures { Placed result (scale_word order g) }
{
    let p = places::MEGAS[order];
    if order == 1 || g == 1 {
        return p;
    }
    p + 1
}

// A text without its final `e`, which is one byte less.
#[tactic(auto, using(crate::proofs::Stems::stem_some, crate::proofs::Stems::stem_less, crate::proofs::Stems::stem_same))]
pub fn stem(lent: &[u8], place: u16) -> u16
    requires { (lent.now ≡ fr_pool) × Known place }
    ensures { (part fr_pool result ≡ without_e (part fr_pool place)) × (0 < length (part fr_pool place)) }
{
    match words::part(lent, u32::from(place)).last() {
        Some(b'e') => place - 1,
        _ => place,
    }
}
