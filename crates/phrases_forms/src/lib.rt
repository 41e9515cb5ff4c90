#![tactic(auto)]
// The form of a line: its words, the names that they are, and runs.
pub mod names;
pub mod runs;
pub mod settings;

ghost use Rattle.std.specs.Prelude.{◌≡◌};
ghost use Rattle.phrases_forms.specs.Cuts.{next_word, after_space};

// What is asked of a figure.
#[derive(Clone, Copy)]
pub enum Kind {
    Card,
    Ord,
    Num,
    Year,
    Money,
}

// The language whose settings follow.
#[derive(Clone, Copy)]
pub enum Language {
    Ukrainian,
    French,
}

// The first word of a line, and what is behind its space.
pub fn cut(s: &[u8]) -> (&[u8], &[u8])
    ensures { (result.0.now ≡ next_word s.now) × (result.1.now ≡ after_space s.now) }
{
    match s.iter().position(|b| *b == b' ') {
        Some(end) => (&s[..end], &s[end + 1..]),
        None => (s, &[]),
    }
}
