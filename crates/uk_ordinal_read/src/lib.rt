#![tactic(auto)]
// The reader of Ukrainian ordinals and years, as taught in school. It takes any bytes: of the words before the last it makes groups, as the reader of
// cardinals does, adds what the last word says, and compares the words that these groups have under the settings, planned as the speller plans them,
// with the bytes.
mod last; // last.rt: the last word
mod year; // year.rt: what stands behind a year's ordinal, and which numbers are years

ghost use Rattle.std.specs.Prelude.{◌≡◌, true, ◌∷◌, ◌++◌, ◌-◌, ◌≤◌, length, take, drop};
ghost use Rattle.base.specs.Decides.{Decides};
ghost use Rattle.base.specs.Join.{joined};
ghost use Rattle.settings.specs.Settings.{masculine, in_gender};
ghost use Rattle.settings.specs.Chosen.{numbers_of};
ghost use Rattle.figures.specs.Groups.{total};
ghost use Rattle.groups.specs.Read.{ReadOf};
ghost use Rattle.uk_ordinal.specs.Ordinal.{school, ordinal_words};
ghost use Rattle.uk_ordinal.specs.Year.{year_noun, era_words};
ghost use Rattle.uk_ordinal_read.specs.LastWord.{last_word, before_last, without};
ghost use Rattle.uk_ordinal_read.specs.Guess.{ordinal_groups};
ghost use Rattle.uk_ordinal_read.specs.Promise.{SaysOrdinal, SaysYear};

use groups::{Figure, Number};
use plan::Plan;
use settings::{Gender, Ukrainian};
use uk::ORDERS;

// Where the last word of a text starts.
fn last_start(s: &[u8]) -> usize
    ensures { (drop result s.now ≡ last_word s.now) × (take (result - 1) s.now ≡ before_last s.now) × (result ≤ length s.now) }
{
    match s.iter().rposition(|&b| b == b' ') {
        Some(space) => space + 1,
        None => 0,
    }
}

// What stands before the last word, without the space between them.
fn before(s: &[u8], at: usize) -> &[u8]
    requires { at ≤ length s.now }
    ensures { result.now ≡ take (at - 1) s.now }
{
    &s[..at.saturating_sub(1)]
}

// The last word of a text without its ending, if it has one of so many bytes.
fn stem(word: &[u8], ending: usize) -> &[u8]
    ensures { result.now ≡ without ending word.now }
{
    &word[..word.len().saturating_sub(ending)]
}

// The number that an ordinal seems to be. A soft ending is as long as the hard one, or has one letter more, which is left with the stem.
fn guess(settings: Ukrainian, s: &[u8]) -> Number<ORDERS>
    ensures { result.groups ≡ ordinal_groups (numbers_of settings) s.now }
{
    let at = last_start(s);
    let mut gs = [0u16; ORDERS];
    let span = uk_read::groups(ORDERS, before(s, at), &mut gs);
    let ending = uk::len(uk_ordinal::ending(settings, false));
    let w = last::last(stem(&s[at..], ending));
    let order = w.order;
    gs[order] = (gs[order] + w.value) % 1000;
    Number::of_groups(gs, span.orders.max(order + 1))
}

// Any bytes as an ordinal under these settings: what they are.
pub fn read_ordinal(settings: Ukrainian, s: &[u8]) -> Option<Figure<ORDERS>>
    requires { school (numbers_of settings) ≡ true }
    ensures { ReadOf (SaysOrdinal (numbers_of settings) s.now) result }
{
    let number = guess(settings, s);
    let mut plan = Plan::new();
    uk_ordinal_plan::plan_ordinal(settings, &number, &mut plan);
    let stands = uk::stands(plan.codes(), s);
    Figure::read(number, false, stands)
}

// Whether s is the phrase of a year with this magnitude.
fn is_phrase(settings: Ukrainian, early: bool, magnitude: &Number<ORDERS>, s: &[u8]) -> bool
    ensures { let S = numbers_of settings in Decides result (joined (ordinal_words (in_gender masculine S) (total magnitude.now.groups) ++ (year_noun S ∷ era_words early)) ≡ s.now) }
{
    let mut plan = Plan::new();
    uk_ordinal_plan::plan_year(settings, early, magnitude, &mut plan);
    uk::stands(plan.codes(), s)
}

// Any bytes as a year under these settings: what they are.
pub fn read_year(settings: Ukrainian, s: &[u8]) -> Option<Figure<ORDERS>>
    requires { school (numbers_of settings) ≡ true }
    ensures { ReadOf (SaysYear (numbers_of settings) s.now) result }
{
    let early = year::seems_early(s);
    let ordinal = year::ordinal(settings, early, s);
    let masculine = Ukrainian {
        gender: Gender::Masculine,
        ..settings
    };
    let magnitude = guess(masculine, ordinal);
    let stands = year::is_year(early, &magnitude) && is_phrase(settings, early, &magnitude, s);
    Figure::read(magnitude, early, stands)
}
