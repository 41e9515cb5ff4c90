#![tactic(auto)]
// The words that count a scale in a compound: which of them stands at the front of some bytes. Made by tools/gen_counts.py.
mod counts;
mod leads;

ghost use Rattle.std.specs.Prelude.{◌≡◌, ◌/◌, ◌%◌, ◌≤◌, ◌<◌, MatchOption, length, take};
ghost use Rattle.base.specs.Bytes.{num};
ghost use Rattle.uk_counts.specs.Counts.{count_of};

use base::loads::get8;

// The byte that tells stands before this.
const PLACES: usize = 16;

// What the leads are divided by, and how many places they have; how many a byte that tells has.
const DIVISOR: u64 = 16511;

const LEADS: u64 = 100;

const COUNTS: u32 = 64;

// An entry is so many times how many a word counts, and the word's length.
pub const SIZES: u32 = 64;

// How many a word counts, and its length.
#[derive(Clone, Copy)]
pub struct Counted {
    pub value: u16,
    pub length: usize,
}

// The first seven bytes as one number.
fn seven(s: &[u8]) -> u64
    requires { 8 ≤ length s.now }
    ensures { result ≡ num (take 7 s.now) }
{
    get8(s, 0) % (1 << 56)
}

// The count word at the front of s.
pub fn count(s: &[u8]) -> Option<Counted>
    ensures { MatchOption result (count_of s.now ≡ 0) (λ c. (0 < count_of s.now) × (c.value ≡ count_of s.now / 64) × (c.length ≡ count_of s.now % 64) × (c.length ≤ length s.now) × (c.value < 1024)) }
{
    if s.len() < PLACES {
        return None;
    }
    let lead = leads::lead_at((seven(s) % DIVISOR % LEADS) as u32);
    let told = u32::from(s[lead as usize % PLACES]);
    let entry = counts::count_at((lead / (PLACES as u32) + told) % COUNTS);
    let length = (entry % SIZES) as usize;
    if entry == 0 || s.len() < length {
        return None;
    }
    Some(Counted {
        value: (entry / SIZES) as u16,
        length,
    })
}
