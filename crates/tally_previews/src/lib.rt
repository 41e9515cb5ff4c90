#![tactic(auto)]
// Previews of the calls on a tally: what adding and removing would answer. They are decided as those are, on a tally that is only read, and nothing is
// stored.
ghost use Rattle.settings.specs.Settings.{ukrainian_settings};
ghost use Rattle.tally_calls.specs.TallyCalls.{adds, removes};
ghost use Rattle.tally_previews.specs.Previews.{Previewed};

use tally_calls::Tallied;
use tally_calls::deciding::{add_to, remove_from};

// What adding the amount of a text to a tally would answer.
pub fn preview_add(
    gender: u32,
    number: u32,
    case: u32,
    apostrophe: u32,
    style: u32,
    tally: &[u8],
    text: &[u8],
    out: &mut [u8],
) -> Tallied
    ensures { Previewed (adds (ukrainian_settings gender number case apostrophe style) text.now) result out.old out.new tally.now tally.now }
{
    let change = add_to(gender, number, case, apostrophe, style, tally, text, out);
    Tallied::from(change)
}

// What removing the amount under an item number from a tally would answer.
pub fn preview_remove(
    gender: u32,
    number: u32,
    case: u32,
    apostrophe: u32,
    style: u32,
    item: u32,
    tally: &[u8],
    out: &mut [u8],
) -> Tallied
    ensures { Previewed (removes (ukrainian_settings gender number case apostrophe style) item) result out.old out.new tally.now tally.now }
{
    let change = remove_from(gender, number, case, apostrophe, style, item, tally, out);
    Tallied::from(change)
}
