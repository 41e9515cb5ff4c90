// A line whose end has not come in.
ghost use Rattle.std.specs.Prelude.{◌≡◌, ℕ, true, cond, List, [], ◌∷◌, ◌++◌, ◌≤◌, ltb, length};
ghost use Rattle.phrases_lines.specs.Held.{is_line};

use std::marker::Model;

// How many bytes of a line are held: one more than the longest has, so that a longer one is known.
pub const HELD: usize = 513;

// The bytes of the line, without a line feed; of a line longer than 512 bytes the first 513: they tell that it is too long. Clauses see the bytes.
#[derive(Drop)]
pub struct Line {
    bytes: [u8; HELD],
    len: usize,
}

impl Model for Line {
    ghost use Rattle.std.specs.Prelude.{◌≡◌, ℕ, ◌≤◌, true, List, take};
    ghost use Rattle.phrases_lines.specs.Held.{is_line};

    ghost Value = { List ℕ };

    ghost view = { λ line. take line.len line.bytes };

    ghost invariant = { λ line. (line.len ≤ 513) × (is_line (take line.len line.bytes) ≡ true) };
}

impl Line {
    // No byte of a line.
    #[tactic(auto, unfolding(crate::specs::Held::is_line))]
    pub fn new() -> Line
        ensures { result ≡ [] }
    {
        Line {
            bytes: [0; HELD],
            len: 0,
        }
    }

    // A line of which these bytes came in.
    #[tactic(auto, using(crate::proofs::Laws::laid), unfolding(crate::specs::Held::is_line))]
    pub fn holding(bytes: &[u8]) -> Line
        requires { (length bytes.now ≤ 513) × (is_line bytes.now ≡ true) }
        ensures { result ≡ bytes.now }
    {
        let mut held = [0; HELD];
        held[..bytes.len()].copy_from_slice(bytes);
        Line {
            bytes: held,
            len: bytes.len(),
        }
    }

    // The bytes that are held.
    pub fn bytes(&self) -> &[u8]
        ensures value { result.now ≡ self.now }
        ensures short { length result.now ≤ 513 }
        ensures line { is_line result.now ≡ true }
    {
        &self.bytes[..self.len]
    }

    // A byte joins the line, if it is not too long.
    #[tactic(auto, using(crate::proofs::Laws::joined))]
    pub(crate) fn push(&mut self, b: u8)
        requires { b ≡ 10 → ⊥ }
        ensures value { self.new ≡ cond (ltb (length self.old) 513) (self.old ++ (b ∷ [])) self.old }
        ensures line { is_line self.old ≡ true }
        ensures short_after { length self.new ≤ 513 }
        ensures line_after { is_line self.new ≡ true }
    {
        if self.len < HELD {
            self.bytes[self.len] = b;
            self.len += 1;
        }
    }

    // Another line begins.
    #[tactic(auto, unfolding(crate::specs::Held::is_line))]
    pub(crate) fn clear(&mut self)
        ensures { self.new ≡ [] }
    {
        self.len = 0;
    }
}
