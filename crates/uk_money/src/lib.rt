#![tactic(auto)]
// Ukrainian money: the currency of a code, and the places of the stems and endings of its nouns. Speller and reader see the contracts alone.
mod codes; // codes.rt: the 44 codes
mod currency; // currency.rt: a currency, by its place
mod places; // places.rt: the nouns' tables, with the place of each text

ghost use Rattle.std.specs.Prelude.{◌≡◌, ◌/◌, ◌%◌, ◌≤◌, ◌<◌, length};
ghost use Rattle.base.specs.Utf8.{form2};
ghost use Rattle.words.specs.Part.{part};
ghost use Rattle.uk.specs.Pool.{uk_pool};
ghost use Rattle.settings.specs.Chosen.{numbers_of};
ghost use Rattle.uk.specs.Ukrainian.{agreed};
ghost use Rattle.uk_money.specs.Nouns.{endings};
ghost use Rattle.uk_money.specs.Rows.{class_at, Row, currency_at, code_key, FormAt, CodedAt};

pub use currency::{CURRENCIES, CurrencyId};
use settings::Ukrainian;
use uk::CASES;

// The bytes of the longest code.
const LONGEST: usize = 6;

// A code as one number, its first byte the lowest.
#[tactic(auto, using(crate::proofs::Keys::key_onto_end, crate::proofs::Keys::key_onto_last, crate::proofs::Keys::key_fits), unfolding(crate::proofs::Keys::key_onto))]
fn code_key(code: &[u8]) -> u64
    requires { length code.now ≤ 6 }
    ensures { result ≡ code_key code.now }
{
    let mut key: u64 = 1;
    for &b in code.iter().rev() {
        key = key * 256 + u64::from(b);
    }
    key
}

// The currency with this code, if it is one.
#[tactic(auto, using(crate::proofs::Keys::keyed, crate::proofs::Keys::too_long))]
pub fn code_of(code: &[u8]) -> Option<CurrencyId>
    ensures { CodedAt code.now result }
{
    if LONGEST < code.len() {
        return None;
    }
    CurrencyId::new(codes::place(code_key(code)))
}

// The row of the name of a currency's main unit.
pub fn main_row(currency: CurrencyId) -> [u16; 4]
    ensures { Row (currency_at currency.place).main result }
{
    places::MAIN[currency.place]
}

// The row of the name of its fraction.
pub fn fraction_row(currency: CurrencyId) -> [u16; 4]
    ensures { Row (currency_at currency.place).fraction result }
{
    places::FRACTION[currency.place]
}

// Where a form stands that agrees with a count that ends in these digits: singular, then plural, each by case.
pub fn agreed_place(t: usize, u: usize, settings: Ukrainian) -> usize
    ensures { (result < 12) × FormAt (agreed t u (numbers_of settings)) result }
{
    let a = uk::agreement(t, u, settings);
    CASES * a.number as usize + a.case as usize
}

// The place of an ending, by class and where the form stands.
pub fn ending(class: usize, place: usize) -> u16
    requires { (class < 8) × (place < 12) }
    ensures { part uk_pool result ≡ form2 (endings (class_at class)) (place / 6) (place % 6) }
{
    places::ENDINGS[class][place]
}
