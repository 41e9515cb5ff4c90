#![tactic(auto)]
// A tally's bytes: its currency, its places, their sum, and what a call stores.
pub mod sums; // sums.rt: the sum of places
mod stores; // stores.rt: numbers as bytes

ghost use Rattle.std.specs.Prelude.{◌≡◌, ◌∷◌, ◌++◌, ◌≤◌, ◌<◌, length, get_or, set, take, drop};
ghost use Rattle.base.specs.Buffer.{over};
ghost use Rattle.base.specs.Bytes.{num, low_bytes};
ghost use Rattle.uk_money.specs.Rows.{currency_at};
ghost use Rattle.tally.specs.Tally.{empty_tally};
ghost use Rattle.tally.specs.Layout.{place_bytes, places_bytes, places_in, tally_bytes};
ghost use Rattle.tally.specs.Sums.{FoundUnder, CurrencyIn};

use base::loads::get4;
use stores::put;
use uk_money::CurrencyId;

// An amount under its item number, 0 for none.
#[derive(Clone, Copy)]
pub struct Place {
    pub item: u32,
    pub whole: u64,
    pub hundredths: u32,
}

// A sum of amounts, whose whole part is within the money limit.
#[derive(Clone, Copy)]
pub struct Sum {
    pub whole: u64,
    pub hundredths: u32,
}

// How many places a tally has.
pub const PLACES: usize = 64;

// The bytes of a tally.
pub const SIZE: usize = 837;

// The bytes before the places: the currency's number, and the item numbers given.
const HEAD: usize = 5;

const GIVEN: usize = 1;

// The bytes of a place, and where its whole part and its hundredths lie in it.
const PLACE: usize = 13;

const WHOLE: usize = 4;

const HUNDREDTHS: usize = 12;

// A tally's currency, if the bytes hold a tally.
pub fn currency_of(tally: &[u8]) -> Option<CurrencyId>
    ensures { CurrencyIn tally.now result }
{
    if tally.len() < SIZE {
        return None;
    }
    CurrencyId::new(usize::from(tally[0]).checked_sub(1)?)
}

// The item numbers that it has given.
pub fn given_by(tally: &[u8]) -> u32
    requires { 837 ≤ length tally.now }
    ensures { result ≡ num (take 4 (drop 1 tally.now)) }
{
    get4(tally, GIVEN) as u32
}

// Which place is the first with this item number, if one has it.
pub fn find(tally: &[u8], item: u32) -> Option<usize>
    requires { 837 ≤ length tally.now }
    ensures { FoundUnder item (places_in 64 (drop 5 tally.now)) result }
{
    let sought = u64::from(item);
    for i in 0..PLACES {
        if get4(tally, HEAD + i * PLACE) == sought {
            return Some(i);
        }
    }
    None
}

// Writes a place.
fn put_place(place: Place, out: &mut [u8])
    requires { 13 ≤ length out.old }
    ensures { out.new ≡ over out.old (place_bytes place) }
{
    put(u64::from(place.item), 4, out);
    put(place.whole, 8, &mut out[WHOLE..]);
    put(u64::from(place.hundredths), 1, &mut out[HUNDREDTHS..]);
}

// Stores how many item numbers are given, and a place.
pub fn store(given: u32, i: usize, place: Place, tally: &mut [u8])
    requires { (i < 64) × (837 ≤ length tally.old) }
    ensures { tally.new ≡ over tally.old (get_or tally.old 0 0 ∷ (low_bytes 4 given ++ places_bytes (set (places_in 64 (drop 5 tally.old)) i place))) }
{
    put(u64::from(given), 4, &mut tally[GIVEN..]);
    put_place(place, &mut tally[HEAD + i * PLACE..]);
}

// Writes the empty tally of a currency.
pub fn put_empty(currency: CurrencyId, out: &mut [u8])
    requires { (837 ≤ length out.old) }
    ensures { out.new ≡ over out.old (tally_bytes (empty_tally (currency_at currency.place))) }
{
    // All else is 0, and stored as the number 0 it is: the compiler knows each byte, and makes one call of the loop.
    put(currency.place as u64 + 1, 1, out);
    put(0, SIZE - 1, &mut out[1..]);
}
