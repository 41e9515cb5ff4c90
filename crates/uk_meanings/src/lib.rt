#![tactic(auto)]
// What the words of the Ukrainian numbers mean, by their keys.
mod shifts;
mod table;

ghost use Rattle.std.specs.Prelude.{◌≡◌};
ghost use Rattle.uk_meanings.specs.Meanings.{meaning_of};

// How many places the table has, into how many parts the keys fall, and what is above every key.
const SLOTS: u32 = 512;

const PARTS: u32 = 64;

const UNIT: u32 = 1048576;

// The meaning of the word with this key.
pub fn meaning(key: u32) -> u16
    ensures { result ≡ meaning_of key }
{
    let shift = shifts::shift(key / SLOTS % PARTS) as u32;
    let entry = table::entry_at((key % SLOTS + shift) % SLOTS);
    if entry % UNIT == key {
        return (entry / UNIT) as u16;
    }
    0
}
