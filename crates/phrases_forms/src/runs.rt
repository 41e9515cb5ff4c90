// Codes and texts: runs of bytes other than space and bracket.
ghost use Rattle.std.specs.Prelude.{◌≡◌, true, false, MatchOption};
ghost use Rattle.phrases_forms.specs.Line.{run, inner, closed};

// Whether s is one or more bytes other than space and bracket.
pub fn is_run(s: &[u8]) -> bool
    ensures { result ≡ run s.now }
{
    !s.is_empty() && s.iter().all(|b| !matches!(b, b' ' | b'(' | b')'))
}

// The text before the bracket that closes the form, if s is a run and that bracket.
pub fn text_of(s: &[u8]) -> Option<&[u8]>
    ensures { MatchOption result (closed s.now ≡ false) (λ text. (closed s.now ≡ true) × (text.now ≡ inner s.now)) }
{
    match s.split_last() {
        Some((b')', text)) if is_run(text) => Some(text),
        _ => None,
    }
}
