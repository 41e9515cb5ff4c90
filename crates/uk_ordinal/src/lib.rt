#![tactic(auto)]
// Ukrainian ordinals and years: the places of their stems, endings and words, and the rule that the code decides. The speller sees the contracts
// alone.
mod places; // places.rt: the tables of uk.rs, with the place of each text
mod pool; // pool.rt: the endings of digit ordinals, which have a pool of their own, so that all texts need not be made for one of them

ghost use Rattle.std.specs.Prelude.{◌≡◌, true, false, cond, ◌&&◌, ◌-◌, ◌≤◌, ◌<◌, eqb, length};
ghost use Rattle.base.specs.Buffer.{over};
ghost use Rattle.base.specs.Utf8.{utf8, form2};
ghost use Rattle.words.specs.Part.{part};
ghost use Rattle.settings.specs.Chosen.{numbers_of};
ghost use Rattle.uk.specs.Apostrophes.{by_apostrophe1};
ghost use Rattle.uk.specs.Pool.{uk_pool};
ghost use Rattle.uk_ordinal.specs.Pool.{short_pool};
ghost use Rattle.uk_ordinal.specs.OrdinalTables.{ordinal_zero_base, one_base, hundred_base, ordinal_unit_bases, ordinal_tens_bases};
ghost use Rattle.uk_ordinal.specs.Ordinal.{soft as soft_of, flexion, school as school_of, in_nominative, in_genitive, compound_digits};
ghost use Rattle.uk_ordinal.specs.Year.{year_noun};
ghost use Rattle.uk_ordinal.specs.DigitOrdinal.{short_flexion};

use settings::{Case, Gender, Number, Style, Ukrainian};

// The digit of the hundreds and that of the tens that are nominative in a compound of school: сто and девʼяносто.
const NOMINATIVE_HUNDRED: usize = 1;

const NOMINATIVE_TEN: usize = 9;

// The base of zero, of 1 in a compound, and of a round hundred.
#[tactic(auto, using(crate::proofs::Tables::zero_at))]
pub fn zero_base() -> u16
    ensures { part uk_pool result ≡ utf8 ordinal_zero_base }
{
    places::ORDINAL_ZERO_BASE
}

#[tactic(auto, using(crate::proofs::Tables::one_at))]
pub fn one_base() -> u16
    ensures { part uk_pool result ≡ utf8 one_base }
{
    places::ONE_BASE
}

#[tactic(auto, using(crate::proofs::Tables::hundred_at))]
pub fn hundred_base() -> u16
    ensures { part uk_pool result ≡ utf8 hundred_base }
{
    places::HUNDRED_BASE
}

// What makes an adjective of a scale noun.
#[tactic(auto, using(crate::proofs::Tables::adjective_at))]
pub fn adjective_n() -> u16
    ensures { part uk_pool result ≡ utf8 "н" }
{
    places::ADJECTIVE_N
}

// The two words of the years before our era.
#[tactic(auto, using(crate::proofs::Tables::before_at))]
pub fn before_era() -> u16
    ensures { part uk_pool result ≡ utf8 "до" }
{
    places::BEFORE_ERA
}

#[tactic(auto, using(crate::proofs::Tables::era_at))]
pub fn our_era() -> u16
    ensures { part uk_pool result ≡ utf8 "н.е." }
{
    places::OUR_ERA
}

// The settings of the words before the one that carries the ending.
pub fn in_nominative(settings: Ukrainian) -> Ukrainian
    ensures { numbers_of result ≡ in_nominative (numbers_of settings) }
{
    Ukrainian {
        gender: Gender::Masculine,
        case: Case::Nominative,
        ..settings
    }
}

// The settings of the words of a compound.
pub fn in_genitive(settings: Ukrainian) -> Ukrainian
    ensures { numbers_of result ≡ in_genitive (numbers_of settings) }
{
    Ukrainian {
        gender: Gender::Masculine,
        case: Case::Genitive,
        ..settings
    }
}

// Whether the settings ask for ordinals as taught in school.
pub fn is_school(settings: Ukrainian) -> bool
    ensures { result ≡ school_of (numbers_of settings) }
{
    settings.style == Style::School
}

// The settings of a compound's word for a digit: in school one digit of the hundreds and one of the tens is nominative there.
fn in_compound(settings: Ukrainian, digit: usize, nominative: usize) -> Ukrainian
    ensures { let S = numbers_of settings in numbers_of result ≡ cond (school_of S && eqb digit nominative) (in_nominative S) (in_genitive S) }
{
    if is_school(settings) && digit == nominative {
        return in_nominative(settings);
    }
    in_genitive(settings)
}

// The word of a hundreds digit in a compound, and of a tens digit above 1.
#[tactic(auto, using(crate::proofs::Compound::hundred_word))]
pub fn compound_hundred(settings: Ukrainian, h: usize) -> u16
    requires { (0 < h) × (h < 10) }
    ensures { part uk_pool result ≡ (compound_digits (numbers_of settings)).hundred h }
{
    uk::hundred(in_compound(settings, h, NOMINATIVE_HUNDRED), h)
}

#[tactic(auto, using(crate::proofs::Compound::ten_word_lem))]
pub fn compound_ten(settings: Ukrainian, t: usize) -> u16
    requires { (1 < t) × (t < 10) }
    ensures { part uk_pool result ≡ (compound_digits (numbers_of settings)).ten t }
{
    uk::ten(in_compound(settings, t, NOMINATIVE_TEN), t)
}

// Whether the ordinal of a number with these last two digits has a soft ending.
pub fn is_soft(n: u16) -> bool
    ensures { result ≡ soft_of n }
{
    n % 10 == 3 && n % 100 != 13
}

// A hard ending.
#[tactic(auto, using(crate::proofs::Tables::hard_at, crate::proofs::Tables::hard_plural_at), unfolding(crate::specs::Ordinal::flexion))]
fn hard_ending(settings: Ukrainian) -> u16
    ensures { part uk_pool result ≡ flexion (numbers_of settings) false }
{
    let case = settings.case as usize;
    match settings.number {
        Number::Singular => {
            places::ADJECTIVE_HARD_FLEXIONS_SINGULAR[settings.gender as usize][case]
        }
        Number::Plural => places::ADJECTIVE_HARD_FLEXIONS_PLURAL[case],
    }
}

// A soft ending.
#[tactic(auto, using(crate::proofs::Tables::soft_at, crate::proofs::Tables::soft_plural_at), unfolding(crate::specs::Ordinal::flexion))]
fn soft_ending(settings: Ukrainian) -> u16
    ensures { part uk_pool result ≡ flexion (numbers_of settings) true }
{
    let case = settings.case as usize;
    match settings.number {
        Number::Singular => {
            places::ADJECTIVE_SOFT_FLEXIONS_SINGULAR[settings.gender as usize][case]
        }
        Number::Plural => places::ADJECTIVE_SOFT_FLEXIONS_PLURAL[case],
    }
}

// The ending of an ordinal.
pub fn ending(settings: Ukrainian, soft: bool) -> u16
    ensures { part uk_pool result ≡ flexion (numbers_of settings) soft }
{
    if soft {
        soft_ending(settings)
    } else {
        hard_ending(settings)
    }
}

// The ending of a digit ordinal: a place in the pool of these endings.
#[tactic(auto, using(crate::proofs::Tables::short_hard_at, crate::proofs::Tables::short_soft_at, crate::proofs::Tables::short_plural_at), unfolding(crate::specs::DigitOrdinal::short_flexion))]
pub fn short_ending(settings: Ukrainian, soft: bool) -> u16
    ensures { part short_pool result ≡ short_flexion (numbers_of settings) soft }
{
    let case = settings.case as usize;
    let gender = settings.gender as usize;
    match settings.number {
        Number::Singular if soft => places::ORDINAL_SOFT_FLEXIONS_SINGULAR_SHORT[gender][case],
        Number::Singular => places::ORDINAL_HARD_FLEXIONS_SINGULAR_SHORT[gender][case],
        Number::Plural => places::ORDINAL_FLEXIONS_PLURAL_SHORT[case],
    }
}

// Those endings.
#[tactic(auto, unfolding(crate::specs::Pool::short_pool))]
fn texts() -> [u8; pool::SIZE]
    ensures { result ≡ short_pool }
{
    pool::POOL
}

// The length of one.
pub fn short_len(place: u16) -> usize
    ensures { (result ≡ length (part short_pool place)) × (result < 40) }
{
    let lent = texts();
    words::len(&lent, u32::from(place))
}

// Writes one over the front of out.
pub fn put_short(place: u16, out: &mut [u8]) -> usize
    requires { length (part short_pool place) ≤ length out.old }
    ensures { (result ≡ length (part short_pool place)) × (out.new ≡ over out.old (part short_pool place)) }
{
    let lent = texts();
    words::put(&lent, u32::from(place), out)
}

// The years' noun.
#[tactic(auto, using(crate::proofs::Tables::year_at), unfolding(crate::specs::Year::year_noun))]
pub fn year_word(settings: Ukrainian) -> u16
    ensures { part uk_pool result ≡ year_noun (numbers_of settings) }
{
    places::YEAR[settings.number as usize][settings.case as usize]
}

// The base of a unit.
#[tactic(auto, using(crate::proofs::Tables::unit_at))]
pub fn unit_base(settings: Ukrainian, u: usize) -> u16
    requires { (0 < u) × (u < 10) }
    ensures { part uk_pool result ≡ form2 (by_apostrophe1 ordinal_unit_bases) (numbers_of settings).apostrophe (u - 1) }
{
    let apostrophe = settings.apostrophe as usize;
    places::ORDINAL_UNIT_BASES[apostrophe][u - 1]
}

// The base of tens from 20 on.
#[tactic(auto, using(crate::proofs::Tables::ten_at))]
pub fn ten_base(settings: Ukrainian, t: usize) -> u16
    requires { (1 < t) × (t < 10) }
    ensures { part uk_pool result ≡ form2 (by_apostrophe1 ordinal_tens_bases) (numbers_of settings).apostrophe (t - 1) }
{
    let apostrophe = settings.apostrophe as usize;
    places::ORDINAL_TENS_BASES[apostrophe][t - 1]
}
