// A plan that is being written: the pieces of a phrase, each with the separator before it.
ghost use Rattle.std.specs.Prelude.{◌≡◌, ◌+◌, ◌*◌, ◌≤◌, ◌<◌, ℕ, List, [], ◌∷◌, ◌++◌, length};
ghost use Rattle.words.specs.Part.{part};
ghost use Rattle.plan.specs.Speaks.{Told};

use std::marker::Model;

// A piece is one number: the place of its text times this, and its separator, so that a plan takes little room and one store writes a piece.
pub const SEPARATORS: u32 = 256;

// The separators of words: a space, or none where a word goes on.
pub const SPACE: u8 = b' ';

pub const ON: u8 = 0;

// At most N pieces. Clauses see the pieces' numbers.
#[derive(Drop)]
pub struct Plan<const N: usize> {
    codes: [u32; N],
    len: usize,
}

impl<const N: usize> Model for Plan<N> {
    ghost use Rattle.std.specs.Prelude.{ℕ, ◌≤◌, List, take};

    ghost Value = { List ℕ };

    ghost view = { λ plan. take plan.len plan.codes };

    ghost invariant = { λ plan. plan.len ≤ N };
}

impl<const N: usize> Plan<N> {
    // A plan of no pieces.
    pub fn new() -> Self
        ensures { result ≡ [] }
    {
        Plan {
            codes: [0; N],
            len: 0,
        }
    }

    // Takes all pieces off.
    pub fn clear(&mut self)
        ensures { self.new ≡ [] }
    {
        self.len = 0;
    }

    // Adds a piece.
    pub fn push(&mut self, separator: u8, place: u16)
        requires { length self.old < N }
        ensures { self.new ≡ self.old ++ (place * 256 + separator) ∷ [] }
    {
        self.codes[self.len] = u32::from(place) * SEPARATORS + u32::from(separator);
        self.len += 1;
    }

    // Takes the last piece off.
    pub fn pop(&mut self) -> u32
        requires { 0 < length self.old }
        ensures { self.old ≡ self.new ++ result ∷ [] }
    {
        self.len -= 1;
        self.codes[self.len]
    }

    // Adds a word of its own.
    #[tactic(auto, using(crate::proofs::Tells::told_word))]
    pub fn push_word(&mut self, place: u16)
        requires { length self.old < N }
        ensures { (pool : List ℕ) → Told pool 1 self.old self.new (part pool place ∷ []) }
    {
        self.push(SPACE, place);
    }

    // Adds a word of a stem and an ending.
    #[tactic(auto, using(crate::proofs::Tells::told_ended))]
    pub fn push_ended(&mut self, stem: u16, ending: u16)
        requires { length self.old + 2 ≤ N }
        ensures { (pool : List ℕ) → Told pool 2 self.old self.new ((part pool stem ++ part pool ending) ∷ []) }
    {
        self.push(SPACE, stem);
        self.push(ON, ending);
    }

    // The pieces.
    pub fn codes(&self) -> &[u32]
        ensures { result.now ≡ self.now }
    {
        &self.codes[..self.len]
    }
}
