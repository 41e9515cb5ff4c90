#![tactic(auto)]
// A phrase walked word by word: a struct that holds the phrase and a place in it, as the source's `split_whitespace().peekable()` does.
// A walker is a value: moving on gives another one, which stands behind the word.
ghost use Rattle.std.specs.Prelude.{◌≡◌};
ghost use Rattle.walker.specs.Walk.{follows, found};
ghost use Rattle.walker.specs.Step.{step_of};

use tokens::Token;

#[derive(Clone, Copy)]
pub struct Walker<'a> {
    pub phrase: &'a [u8],
    pub at: usize,
}

// One step of a walk: the key of the word passed, and the walker behind it.
#[derive(Clone, Copy)]
pub struct Step<'a> {
    pub key: u32,
    pub rest: Walker<'a>,
}

impl<'a> Walker<'a> {
    // A walker at a place of a phrase.
    pub fn new(phrase: &'a [u8], at: usize) -> Walker<'a>
        ensures { (result.phrase ≡ phrase.entry) × (result.at ≡ at) }
    {
        Walker { phrase, at }
    }

    // Whether a word follows.
    pub fn peek(self) -> bool
        ensures { result ≡ follows self.entry.phrase.now self.entry.at }
    {
        self.at < self.phrase.len()
    }

    // The word that follows, and the walker behind it. Past the end of the phrase the word is empty.
    pub fn next(self) -> Step<'a>
        ensures { result ≡ step_of self.entry }
    {
        if !self.peek() {
            return Step {
                key: tokens::EMPTY,
                rest: self,
            };
        }
        let word = tokens::first(&self.phrase[self.at..]);
        Step {
            key: word.key,
            rest: Walker::new(self.phrase, self.at + word.next),
        }
    }
}

// The word at a place of a phrase, for callers that have no walker: their proofs stay with plain slices.
pub fn word(phrase: &[u8], at: usize) -> Option<Token>
    ensures { result ≡ found phrase.now at }
{
    let walker = Walker::new(phrase, at);
    if !walker.peek() {
        return None;
    }
    let step = walker.next();
    Some(Token {
        key: step.key,
        next: step.rest.at - at,
    })
}
