// The last word of an ordinal without its ending: a stem of order 0, or a compound, whose stem ends in н.
ghost use Rattle.std.specs.Prelude.{◌≡◌, true, ◌≤◌, ◌<◌, length, drop};
ghost use Rattle.uk_ordinal_read.specs.LastWord.{grown as grown_by, counted, uncounted, compound as is_compound, stem_order, stem_value};

use uk::ORDERS;

// The last byte of н, which no stem of order 0 has at its end.
const ADJECTIVE: u8 = 0xbd;

// The most words of a count: a unit, сот, tens and a unit.
const COUNT_WORDS: usize = 4;

// What сот counts.
const HUNDREDS: u16 = 1000;

// What the count words at the front of a stem count, and where they end.
#[derive(Clone, Copy)]
struct CountRead {
    value: u16,
    next: usize,
}

// A last word's order, and its number there.
#[derive(Clone, Copy)]
pub struct Meant {
    pub order: usize,
    pub value: u16,
}

// A count of which a word more is taken.
fn grown(value: u16, more: u16) -> u16
    requires { more < 1024 }
    ensures { (result ≡ grown_by value more) × (result < 1000) }
{
    if more == HUNDREDS {
        return value % 10 * 100;
    }
    ((u32::from(value) + u32::from(more)) % 1000) as u16
}

// The count at the front of a stem.
fn count(s: &[u8]) -> CountRead
    ensures value_value { (result.value ≡ counted 4 0 s.now) × (result.value < 1000) }
    ensures s_value { (drop result.next s.now ≡ uncounted 4 s.now) × (result.next ≤ length s.now) }
{
    let mut value: u16 = 0;
    let mut at: usize = 0;
    for _ in 0..COUNT_WORDS {
        match uk_counts::count(&s[at..]) {
            Some(word) => {
                value = grown(value, word.value);
                at += word.length;
            }
            None => break,
        }
    }
    CountRead { value, next: at }
}

// A compound: a scale without a count is one.
fn compound(stem: &[u8]) -> Meant
    requires { is_compound stem.now ≡ true }
    ensures { (result.order ≡ stem_order stem.now) × (result.value ≡ stem_value stem.now) × (result.order < 22) × (result.value < 1000) }
{
    let c = count(stem);
    let at = c.next;
    let t = tokens::first(&stem[at..]);
    let m = uk_ordinal_meanings::meaning(t.key);
    Meant {
        order: usize::from(m) % 1000 % ORDERS,
        value: if c.value == 0 { 1 } else { c.value },
    }
}

// A stem's order and number.
pub fn last(stem: &[u8]) -> Meant
    ensures { (result.order ≡ stem_order stem.now) × (result.value ≡ stem_value stem.now) × (result.order < 22) × (result.value < 1000) }
{
    if stem.last() == Some(&ADJECTIVE) {
        return compound(stem);
    }
    let t = tokens::first(stem);
    let m = uk_ordinal_meanings::meaning(t.key);
    Meant {
        order: 0,
        value: m % 1000,
    }
}
