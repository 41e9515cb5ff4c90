// The measure of a phrase from its plan: the extents of its texts, and its separators. Of the pool is known what words/src/extents.rt says.
ghost use Rattle.std.specs.Prelude.{◌≡◌, List, [], ◌∷◌, ℕ, ◌*◌, ◌≤◌, length as length_of};
ghost use Rattle.base.specs.Measure.{size_of};
ghost use Rattle.base.specs.Room.{longest_piece};
ghost use Rattle.words.specs.Extents.{SpacesCounted, Extends};
ghost use Rattle.plan.specs.Phrase.{following, phrase_of};
ghost use Rattle.plan.specs.Plan.{piece_of, pieces};

use crate::{SEPARATORS, SPACE};
use base::Size;
use words::extents::{Extent, Spaces};

// The extent of a piece with its separator.
fn piece_extent(spaces: Spaces, code: u32) -> Extent
    ensures told { (pool : List ℕ) → SpacesCounted pool spaces.entry.unspaced spaces.entry.counts.now → Extends (following (piece_of pool code ∷ [])) result }
    ensures few { result.spaces ≤ 256 }
    ensures short { result.length ≤ longest_piece }
{
    let text = spaces.extent_at(code / SEPARATORS);
    let separator = code % SEPARATORS;
    Extent {
        spaces: text.spaces + u32::from(separator == u32::from(SPACE)),
        length: text.length + usize::from(separator != 0),
    }
}

// The extent of pieces that follow others.
fn following_extent(spaces: Spaces, plan: &[u32]) -> Extent
    requires { length_of plan.now ≤ 1000 }
    ensures told { (pool : List ℕ) → SpacesCounted pool spaces.entry.unspaced spaces.entry.counts.now → Extends (following (pieces pool plan.now)) result }
    ensures few { result.spaces ≤ 256 * length_of plan.now }
    ensures short { result.length ≤ longest_piece * length_of plan.now }
{
    let mut extent = Extent {
        spaces: 0,
        length: 0,
    };
    for &code in plan {
        let piece = piece_extent(spaces, code);
        extent.spaces += piece.spaces;
        extent.length += piece.length;
    }
    extent
}

// The measure of what a plan says.
pub fn measure(spaces: Spaces, plan: &[u32]) -> Size
    requires { length_of plan.now ≤ 1000 }
    ensures { (pool : List ℕ) → SpacesCounted pool spaces.entry.unspaced spaces.entry.counts.now → result ≡ size_of (phrase_of (pieces pool plan.now)) }
{
    match plan {
        [] => base::size_of(0, 0),
        [first, others @ ..] => {
            let text = spaces.extent_at(first / SEPARATORS);
            let following = following_extent(spaces, others);
            base::size_of(
                text.spaces + following.spaces,
                text.length + following.length,
            )
        }
    }
}
