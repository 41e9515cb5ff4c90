// How far a text extends, in bytes and in spaces, by its place alone: no byte of the pool is looked at.
ghost use Rattle.std.specs.Prelude.{◌≡◌, List, ℕ, ◌+◌, ◌-◌, ◌≤◌, ◌<◌, length as length_of, take, drop};
ghost use Rattle.base.specs.Measure.{spaces as spaces_in};
ghost use Rattle.words.specs.Part.{part};
ghost use Rattle.words.specs.Extents.{Countable, SpacesCounted, Extends};

use crate::LONGER;

// The spaces and the bytes of a text.
#[derive(Clone, Copy)]
pub struct Extent {
    pub spaces: u32,
    pub length: usize,
}

// Where the spaces of a pool stand: its first `unspaced` bytes have none, and `counts` tells, in a byte each, how many stand before each of the others,
// and before its end.
#[derive(Clone, Copy)]
pub struct Spaces<'a> {
    pub unspaced: usize,
    pub counts: &'a [u8],
    ghost countable: { Countable unspaced counts.now },
}

impl<'a> Spaces<'a> {
    // How many spaces stand before a byte of the pool, or before its end.
    fn before(self, at: usize) -> u32
        requires { at < self.unspaced + length_of self.counts.now }
        ensures { ((pool : List ℕ) → SpacesCounted pool self.entry.unspaced self.entry.counts.now → result ≡ spaces_in (take at pool)) × (result < 256) }
    {
        if at <= self.unspaced {
            return 0;
        }
        u32::from(self.counts[at - self.unspaced])
    }

    // The extent of the bytes from start to end. No count of a pool is below one before it, so the difference is exact.
    fn between(self, start: usize, end: usize) -> Extent
        requires { (start ≤ end) × (end < self.unspaced + length_of self.counts.now) }
        ensures { ((pool : List ℕ) → SpacesCounted pool self.entry.unspaced self.entry.counts.now → Extends (take (end - start) (drop start pool)) result) × (result.spaces < 256) × (result.length ≡ end - start) }
    {
        Extent {
            spaces: self.before(end).saturating_sub(self.before(start)),
            length: end - start,
        }
    }

    // The extent of the text at a place. A text without a space is known by where it ends; one behind the pool is empty.
    pub fn extent_at(self, place: u32) -> Extent
        ensures { ((pool : List ℕ) → SpacesCounted pool self.entry.unspaced self.entry.counts.now → Extends (part pool place) result) × (result.spaces < 256) × (result.length < 40) }
    {
        let start = 2 * (place / LONGER) as usize;
        let length = (place % LONGER) as usize;
        if start + length <= self.unspaced {
            return Extent { spaces: 0, length };
        }
        let end = (start + length).min(self.unspaced + (self.counts.len() - 1));
        self.between(start.min(end), end)
    }
}
