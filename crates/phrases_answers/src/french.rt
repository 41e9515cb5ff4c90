// French forms: cardinals and ordinals.
ghost use Rattle.phrases_forms.specs.declared.Language.TheVariants.{French as FrenchLanguage};
ghost use Rattle.phrases_answers.specs.Asked.{Asked};
ghost use Rattle.phrases_answers.specs.Left.{settled_left};

use base::Refusal;
use fr_calls::{to_cardinal, to_ordinal};
use phrases_forms::Kind;
use phrases_forms::runs::text_of;
use settings::French;

// What the call of a kind is told, where the settings and what follows them are left of a line; nothing where that is no form.
pub fn ask(kind: Kind, s: &[u8], out: &mut [u8]) -> Option<Result<usize, Refusal>>
    ensures { Asked (settled_left kind FrenchLanguage s.now) result out.old out.new }
{
    let w = phrases_forms::settings::french(s);
    if French::new(w.a, w.b, w.c).is_err() {
        return None;
    }
    match kind {
        Kind::Card => Some(to_cardinal(w.a, w.b, w.c, text_of(w.rest)?, out)),
        Kind::Ord => Some(to_ordinal(w.a, w.b, w.c, text_of(w.rest)?, out)),
        Kind::Num | Kind::Year | Kind::Money => None,
    }
}
