// What stands behind a year's ordinal, and which numbers are years.
ghost use Rattle.std.specs.Prelude.{◌≡◌, ◌∷◌, ◌≤◌, eqb, length, get_or};
ghost use Rattle.base.specs.Join.{spaced_by};
ghost use Rattle.settings.specs.Chosen.{numbers_of};
ghost use Rattle.figures.specs.Groups.{total};
ghost use Rattle.groups.specs.Highest.{ZeroFrom};
ghost use Rattle.uk_ordinal.specs.Year.{year_noun, era_words};
ghost use Rattle.uk_ordinal_read.specs.Guess.{seems_early, year_ordinal};
ghost use Rattle.uk_ordinal_read.specs.Promise.{is_year};

use groups::Number;
use settings::Ukrainian;
use uk::ORDERS;

// The orders of the largest year's magnitude, and what its highest group is at most.
const YEAR_ORDERS: usize = 7;

const HIGHEST: u16 = 9;

// The largest year, and the magnitude of the lowest.
const LAST_YEAR: u64 = 9223372036854775807;

const FIRST_YEAR: u64 = 9223372036854775808;

// Whether a text ends as the years 0 and below do: in a full stop.
pub fn seems_early(s: &[u8]) -> bool
    ensures { result ≡ seems_early s.now }
{
    s.last() == Some(&b'.')
}

// How many bytes stand behind the ordinal: the years' noun, and what early years add, with a space before each word.
#[tactic(auto, using(words::proofs::Parts::part_short))]
fn tail_size(settings: Ukrainian, early: bool) -> usize
    ensures { result ≡ length (spaced_by 32 (year_noun (numbers_of settings) ∷ era_words early)) }
{
    let noun = 1 + uk::len(uk_ordinal::year_word(settings));
    if early {
        return noun + 2 + uk::len(uk_ordinal::before_era()) + uk::len(uk_ordinal::our_era());
    }
    noun
}

// What stands before them.
#[tactic(auto, unfolding(crate::specs::Guess::year_ordinal))]
pub fn ordinal(settings: Ukrainian, early: bool, s: &[u8]) -> &[u8]
    ensures { result.now ≡ year_ordinal (numbers_of settings) early s.now }
{
    &s[..s.len().saturating_sub(tail_size(settings, early))]
}

// What seven groups mean.
fn magnitude(number: &Number<ORDERS>) -> u64
    requires { ZeroFrom number.now.groups 7 × (get_or number.now.groups 6 0 ≤ 9) }
    ensures { result ≡ total number.now.groups }
{
    number.groups[..YEAR_ORDERS]
        .iter()
        .rev()
        .fold(0, |higher, &g| higher * 1000 + u64::from(g))
}

// Whether a number is the magnitude of a year: of an early one, or of another.
pub fn is_year(early: bool, number: &Number<ORDERS>) -> bool
    ensures { result ≡ is_year early (total number.now.groups) }
{
    if YEAR_ORDERS < number.orders || HIGHEST < number.groups[6] {
        return false;
    }
    if early {
        magnitude(number) <= FIRST_YEAR
    } else {
        !number.is(0) && magnitude(number) <= LAST_YEAR
    }
}
