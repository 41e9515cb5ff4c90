#![tactic(auto)]
// The calls on a tally: a call is decided on the tally as it lies there, with the new total's phrase written to the lent buffer, and only then the tally is
// changed.
pub mod deciding; // deciding.rt: what is refused, in 02's order, and what is to be stored
pub mod amounts; // amounts.rt: an amount from its text, and a sum spoken

ghost use Rattle.std.specs.Prelude.{◌≡◌, ◌≤◌, ◌<◌, length, IfOk};
ghost use Rattle.base.specs.Answer.{replied, Answers};
ghost use Rattle.base.specs.Refused.{answer_of};
ghost use Rattle.settings.specs.Settings.{ukrainian_settings};
ghost use Rattle.tally_calls.specs.TallyCalls.{opening, adds, removes, move_of, Tallies, tally_after};
ghost use Rattle.tally_calls.specs.Changes.{changed};

use base::Refusal;
use deciding::Change;
use tally::SIZE;

// What a call on a tally answers: 0, the item number given and the phrase's length, or a refusal's number and 0 twice, or for 7 the length needed.
#[repr(C)]
#[derive(Clone, Copy)]
pub struct Tallied {
    pub refusal: u32,
    pub item: u32,
    pub length: usize,
}

impl From<Result<Change, Refusal>> for Tallied {
    ghost use Rattle.std.specs.Prelude.{◌≡◌};
    ghost use Rattle.tally_calls.specs.Changes.{tallied_of};

    ghost from_gives = { λ told tallied. tallied ≡ tallied_of told };

    fn from(told: Result<Change, Refusal>) -> Tallied {
        match told {
            Ok(change) => Tallied {
                refusal: 0,
                item: change.place.item,
                length: change.length,
            },
            Err(refusal) => Tallied {
                refusal: refusal.number(),
                item: 0,
                length: refusal.length(),
            },
        }
    }
}

// Writes the empty tally of a code's currency.
pub fn open(code: &[u8], out: &mut [u8]) -> Result<usize, Refusal>
    ensures { Answers (answer_of result) out.old out.new (replied (opening code.now) out.old) }
{
    let currency = uk_money::code_of(code).ok_or(Refusal::WrongCode)?;
    if out.len() < SIZE {
        return Err(Refusal::NoRoom(SIZE));
    }
    tally::put_empty(currency, out);
    Ok(SIZE)
}

// Stores what was decided, unless it was refused.
fn settle(change: &Result<Change, Refusal>, tally: &mut [u8])
    requires { IfOk change.now (λ c. (c.at < 64) × (837 ≤ length tally.old)) }
    ensures { tally.new ≡ changed change.now tally.old }
{
    match change {
        Ok(change) => tally::store(change.given, change.at, change.place, tally),
        Err(_) => (),
    }
}

// Adds the amount of a text to a tally.
pub fn add(
    gender: u32,
    number: u32,
    case: u32,
    apostrophe: u32,
    style: u32,
    tally: &mut [u8],
    text: &[u8],
    out: &mut [u8],
) -> Tallied
    ensures tallies { Tallies result out.old out.new (move_of (adds (ukrainian_settings gender number case apostrophe style) text.now) tally.old).report }
    ensures tally_after { tally.new ≡ tally_after (move_of (adds (ukrainian_settings gender number case apostrophe style) text.now) tally.old) out.old tally.old }
{
    let change = deciding::add_to(gender, number, case, apostrophe, style, tally, text, out);
    settle(&change, tally);
    Tallied::from(change)
}

// Removes the amount under an item number from a tally.
pub fn remove(
    gender: u32,
    number: u32,
    case: u32,
    apostrophe: u32,
    style: u32,
    item: u32,
    tally: &mut [u8],
    out: &mut [u8],
) -> Tallied
    ensures tallies { Tallies result out.old out.new (move_of (removes (ukrainian_settings gender number case apostrophe style) item) tally.old).report }
    ensures tally_after { tally.new ≡ tally_after (move_of (removes (ukrainian_settings gender number case apostrophe style) item) tally.old) out.old tally.old }
{
    let change = deciding::remove_from(gender, number, case, apostrophe, style, item, tally, out);
    settle(&change, tally);
    Tallied::from(change)
}
