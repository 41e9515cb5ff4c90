#![tactic(auto)]
// The reader of Ukrainian money. It takes any bytes word by word, makes a whole part of the number words before the first noun and hundredths
// of those after it, and compares the words that these have under the settings, planned as the speller plans them, with the bytes; then the
// same for hundredths alone.
ghost use Rattle.std.specs.Prelude.{◌≡◌, true, ◌+◌, ◌*◌, ◌≤◌, ◌<◌, leb, length, get_or, drop};
ghost use Rattle.base.specs.Decides.{Decides};
ghost use Rattle.settings.specs.Chosen.{numbers_of};
ghost use Rattle.figures.specs.Groups.{total};
ghost use Rattle.figures.specs.Money.{money_limit};
ghost use Rattle.tokens.specs.Tokens.{split};
ghost use Rattle.uk_read.specs.Reading.{sums};
ghost use Rattle.uk_money.specs.Rows.{currency_at};
ghost use Rattle.uk_money.specs.Money.{amount_phrase};
ghost use Rattle.uk_money_read.specs.Behind.{behind};
ghost use Rattle.uk_money_read.specs.Promise.{ReadMoney};

use groups::Number;
use plan::Plan;
use settings::Ukrainian;
use uk::ORDERS;
use uk_money::CurrencyId;

// The limit of money, 18446744073709551615: its orders, its highest group, and the digits below that by nines.
const LIMIT_ORDERS: usize = 7;

const LIMIT_HIGH: u16 = 18;

const LIMIT_MIDDLE: u64 = 446744073;

const LIMIT_LOW: u64 = 709551615;

// The most hundredths.
const MOST: u32 = 99;

// An amount that was read.
#[derive(Clone, Copy)]
pub struct Amount {
    pub whole: Number<ORDERS>,
    pub hundredths: u32,
}

// How many bytes the words at the front of a text have that are no number words.
fn nouns(s: &[u8]) -> usize
    ensures { (split (drop result s.now) ≡ behind (split s.now)) × (result ≤ length s.now) }
{
    let mut at: usize = 0;
    // Not a `for`: where the next word starts is known only once this one was looked up.
    while at < s.len() {
        let t = tokens::first(&s[at..]);
        if uk_meanings::meaning(t.key) != 0 {
            return at;
        }
        at += t.next;
    }
    at
}

// The lowest group of the number words at the front of a text.
fn lowest(s: &[u8]) -> u32
    ensures { result ≡ get_or (sums 22 (split s.now)) 0 0 }
{
    let mut gs = [0u16; ORDERS];
    uk_read::groups(ORDERS, s, &mut gs);
    u32::from(gs[0])
}

// What three groups mean, the highest first.
fn nine(a: u16, b: u16, c: u16) -> u64
    ensures { result ≡ a * 1000000 + b * 1000 + c }
{
    u64::from(a) * 1000000 + u64::from(b) * 1000 + u64::from(c)
}

// Whether a number is within the limit of money.
fn within(number: &Number<ORDERS>) -> bool
    ensures { (result ≡ leb (total number.now.groups) money_limit) × (result ≡ true → number.now.orders ≤ 7) }
{
    let gs = &number.groups;
    if LIMIT_ORDERS < number.orders {
        return false;
    }
    let high = gs[6];
    if high != LIMIT_HIGH {
        return high < LIMIT_HIGH;
    }
    let middle = nine(gs[5], gs[4], gs[3]);
    if middle != LIMIT_MIDDLE {
        return middle < LIMIT_MIDDLE;
    }
    nine(gs[2], gs[1], gs[0]) <= LIMIT_LOW
}

// Whether s is the phrase of an amount.
fn is_phrase(
    settings: Ukrainian,
    currency: CurrencyId,
    whole: &Number<ORDERS>,
    hundredths: u32,
    s: &[u8],
) -> bool
    requires { (whole.now.orders ≤ 7) × (hundredths < 100) }
    ensures { Decides result (amount_phrase (numbers_of settings) (currency_at currency.place) (total whole.now.groups) hundredths ≡ s.now) }
{
    let mut plan = Plan::new();
    uk_money_plan::plan_money(settings, currency, whole, hundredths, &mut plan);
    uk::stands(plan.codes(), s)
}

// Whether s is the phrase of an amount, and that is within the limits.
fn is_amount(
    settings: Ukrainian,
    currency: CurrencyId,
    whole: &Number<ORDERS>,
    hundredths: u32,
    s: &[u8],
) -> bool
    ensures { Decides result ((total whole.now.groups ≤ money_limit) × (hundredths < 100) × (amount_phrase (numbers_of settings) (currency_at currency.place) (total whole.now.groups) hundredths ≡ s.now)) }
{
    if MOST < hundredths || !within(whole) {
        return false;
    }
    is_phrase(settings, currency, whole, hundredths, s)
}

// Any bytes, under these settings and for a currency: what they are by the grammar.
pub fn read_money(settings: Ukrainian, currency: CurrencyId, s: &[u8]) -> Option<Amount>
    ensures { ReadMoney (numbers_of settings) (currency_at currency.place) s.now result }
{
    let mut gs = [0u16; ORDERS];
    let span = uk_read::groups(ORDERS, s, &mut gs);
    let whole = Number::of_groups(gs, span.orders);
    let k = span.bytes;
    let m = nouns(&s[k..]);
    let at = k + m;
    let hundredths = lowest(&s[at..]);
    if is_amount(settings, currency, &whole, hundredths, s) {
        return Some(Amount { whole, hundredths });
    }
    let alone = Amount {
        whole: Number::of_group(0),
        hundredths: u32::from(whole.groups[0]),
    };
    if is_amount(settings, currency, &alone.whole, alone.hundredths, s) {
        return Some(alone);
    }
    None
}
