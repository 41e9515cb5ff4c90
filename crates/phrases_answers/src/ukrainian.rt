// Ukrainian forms, kind by kind. A line names neither an apostrophe nor an ordinal style: it has U+02BC and the ported style.
ghost use Rattle.std.specs.Prelude.{◌≡◌, true, ◌≤◌};
ghost use Rattle.base.specs.Answer.{replied, Answers};
ghost use Rattle.base.specs.Refused.{answer_of};
ghost use Rattle.base.specs.Room.{phrase_room};
ghost use Rattle.settings.specs.Settings.{ukrainian_ranges, within};
ghost use Rattle.uk_ordinal_calls.specs.UkOrdinals.{year_text};
ghost use Rattle.phrases_forms.specs.declared.Language.TheVariants.{Ukrainian as UkrainianLanguage};
ghost use Rattle.phrases_answers.specs.Answers.{line_settings};
ghost use Rattle.phrases_answers.specs.Asked.{Asked};
ghost use Rattle.phrases_answers.specs.Left.{settled_left};

use base::Refusal;
use phrases_forms::runs::{is_run, text_of};
use phrases_forms::settings::Three;
use phrases_forms::{Kind, cut};
use settings::{Apostrophe, Style, Ukrainian};
use uk_calls::to_cardinal;
use uk_money_calls::to_currency;
use uk_ordinal_calls::{to_ordinal, to_ordinal_num, to_year};

const SIGN: u32 = Apostrophe::Letter as u32;

const STYLE: u32 = Style::Ported as u32;

// What the call for a year's text is told.
fn year(gender: u32, number: u32, case: u32, text: &[u8], out: &mut [u8]) -> Result<usize, Refusal>
    requires { within (ukrainian_ranges (line_settings gender number case)) ≡ true }
    ensures answers { Answers (answer_of result) out.old out.new (replied (year_text (line_settings gender number case) text.now) out.old) }
    ensures length_le_phrase_room { (answer_of result).length ≤ phrase_room }
{
    figures::refusals::judge_year(text)?;
    let year = figures::year::year_of(text);
    to_year(gender, number, case, SIGN, STYLE, year, out)
}

// What the call of a kind is told, where the settings and what follows them are left of a line; nothing where that is no form.
pub fn ask(kind: Kind, s: &[u8], out: &mut [u8]) -> Option<Result<usize, Refusal>>
    ensures { Asked (settled_left kind UkrainianLanguage s.now) result out.old out.new }
{
    let Three {
        a: gender,
        b: number,
        c: case,
        rest,
    } = phrases_forms::settings::ukrainian(s);
    if Ukrainian::new(gender, number, case, SIGN, STYLE).is_err() {
        return None;
    }
    match kind {
        Kind::Card => Some(to_cardinal(gender, number, case, SIGN, STYLE, text_of(rest)?, out)),
        Kind::Ord => Some(to_ordinal(gender, number, case, SIGN, STYLE, text_of(rest)?, out)),
        Kind::Num => Some(to_ordinal_num(gender, number, case, SIGN, STYLE, text_of(rest)?, out)),
        Kind::Year => Some(year(gender, number, case, text_of(rest)?, out)),
        Kind::Money => {
            let (code, rest) = cut(rest);
            if !is_run(code) {
                return None;
            }
            let text = text_of(rest)?;
            Some(to_currency(gender, number, case, SIGN, STYLE, code, text, out))
        }
    }
}
