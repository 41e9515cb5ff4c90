#![tactic(auto)]
// The calls for a host in C. Each hands on to the crate of its kind. The contracts say all that a host may rely on, by the list of calls
// (specs/Calls.antt), and have no `requires`: of the host it is asked only, as of any caller in Rattle, that out does not overlap what is read
// (include/yokepear.h).
ghost use Rattle.std.specs.Prelude.{◌≡◌};
ghost use Rattle.base.specs.Answer.{replied, Answers};
ghost use Rattle.base.specs.Measure.{measured};
ghost use Rattle.base.specs.Reading.{Reads};
ghost use Rattle.settings.specs.Settings.{ukrainian_settings};
ghost use Rattle.tally_calls.specs.TallyCalls.{opening, adds, removes, move_of, Tallies, tally_after};
ghost use Rattle.tally_previews.specs.Previews.{Previewed};
ghost use Rattle.yokepear.specs.Calls.{to_cardinal, to_ordinal, to_ordinal_num, to_year, to_currency, to_french_cardinal, to_french_ordinal, spelling_of, from_cardinal, from_ordinal, from_year, from_currency, from_french_cardinal, from_french_ordinal, reading_of};

use base::{Answer, Measure};
use tally_calls::Tallied;

// The cardinal of a number text.
#[unsafe(no_mangle)]
pub extern "C" fn yokepear_uk_to_cardinal(
    gender: u32,
    number: u32,
    case: u32,
    apostrophe: u32,
    style: u32,
    text: &[u8],
    out: &mut [u8],
) -> Answer
    ensures { Answers result out.old out.new (replied (spelling_of (to_cardinal gender number case apostrophe style text.now)) out.old) }
{
    Answer::from(uk_calls::to_cardinal(gender, number, case, apostrophe, style, text, out))
}

// The number text of a cardinal.
#[unsafe(no_mangle)]
pub extern "C" fn yokepear_uk_from_cardinal(
    gender: u32,
    number: u32,
    case: u32,
    apostrophe: u32,
    style: u32,
    phrase: &[u8],
    out: &mut [u8],
) -> Answer
    ensures { Reads (reading_of (from_cardinal gender number case apostrophe style)) phrase.now result out.old out.new }
{
    Answer::from(uk_calls::from_cardinal(gender, number, case, apostrophe, style, phrase, out))
}

// The ordinal of a number text.
#[unsafe(no_mangle)]
pub extern "C" fn yokepear_uk_to_ordinal(
    gender: u32,
    number: u32,
    case: u32,
    apostrophe: u32,
    style: u32,
    text: &[u8],
    out: &mut [u8],
) -> Answer
    ensures { Answers result out.old out.new (replied (spelling_of (to_ordinal gender number case apostrophe style text.now)) out.old) }
{
    Answer::from(uk_ordinal_calls::to_ordinal(gender, number, case, apostrophe, style, text, out))
}

// The digit ordinal of a number text.
#[unsafe(no_mangle)]
pub extern "C" fn yokepear_uk_to_ordinal_num(
    gender: u32,
    number: u32,
    case: u32,
    apostrophe: u32,
    style: u32,
    text: &[u8],
    out: &mut [u8],
) -> Answer
    ensures { Answers result out.old out.new (replied (spelling_of (to_ordinal_num gender number case apostrophe style text.now)) out.old) }
{
    Answer::from(uk_ordinal_calls::to_ordinal_num(
        gender, number, case, apostrophe, style, text, out,
    ))
}

// The phrase of a year.
#[unsafe(no_mangle)]
pub extern "C" fn yokepear_uk_to_year(
    gender: u32,
    number: u32,
    case: u32,
    apostrophe: u32,
    style: u32,
    year: i64,
    out: &mut [u8],
) -> Answer
    ensures { Answers result out.old out.new (replied (spelling_of (to_year gender number case apostrophe style year)) out.old) }
{
    Answer::from(uk_ordinal_calls::to_year(gender, number, case, apostrophe, style, year, out))
}

// The number text of an ordinal as taught in school.
#[unsafe(no_mangle)]
pub extern "C" fn yokepear_uk_from_ordinal(
    gender: u32,
    number: u32,
    case: u32,
    apostrophe: u32,
    style: u32,
    phrase: &[u8],
    out: &mut [u8],
) -> Answer
    ensures { Reads (reading_of (from_ordinal gender number case apostrophe style)) phrase.now result out.old out.new }
{
    Answer::from(uk_ordinal_calls::reading::from_ordinal(
        gender, number, case, apostrophe, style, phrase, out,
    ))
}

// The number text of a year as taught in school.
#[unsafe(no_mangle)]
pub extern "C" fn yokepear_uk_from_year(
    gender: u32,
    number: u32,
    case: u32,
    apostrophe: u32,
    style: u32,
    phrase: &[u8],
    out: &mut [u8],
) -> Answer
    ensures { Reads (reading_of (from_year gender number case apostrophe style)) phrase.now result out.old out.new }
{
    Answer::from(uk_ordinal_calls::reading::from_year(
        gender, number, case, apostrophe, style, phrase, out,
    ))
}

// The phrase of a money text in a currency.
#[unsafe(no_mangle)]
pub extern "C" fn yokepear_uk_to_currency(
    gender: u32,
    number: u32,
    case: u32,
    apostrophe: u32,
    style: u32,
    code: &[u8],
    text: &[u8],
    out: &mut [u8],
) -> Answer
    ensures { Answers result out.old out.new (replied (spelling_of (to_currency gender number case apostrophe style code.now text.now)) out.old) }
{
    Answer::from(uk_money_calls::to_currency(
        gender, number, case, apostrophe, style, code, text, out,
    ))
}

// The money text of an amount in a currency.
#[unsafe(no_mangle)]
pub extern "C" fn yokepear_uk_from_currency(
    gender: u32,
    number: u32,
    case: u32,
    apostrophe: u32,
    style: u32,
    code: &[u8],
    phrase: &[u8],
    out: &mut [u8],
) -> Answer
    ensures { Reads (reading_of (from_currency gender number case apostrophe style code.now)) phrase.now result out.old out.new }
{
    Answer::from(uk_money_calls::from_currency(
        gender, number, case, apostrophe, style, code, phrase, out,
    ))
}

// The French cardinal of a number text.
#[unsafe(no_mangle)]
pub extern "C" fn yokepear_fr_to_cardinal(
    feminine: u32,
    reformed: u32,
    region: u32,
    text: &[u8],
    out: &mut [u8],
) -> Answer
    ensures { Answers result out.old out.new (replied (spelling_of (to_french_cardinal feminine reformed region text.now)) out.old) }
{
    Answer::from(fr_calls::to_cardinal(feminine, reformed, region, text, out))
}

// The French ordinal of a number text.
#[unsafe(no_mangle)]
pub extern "C" fn yokepear_fr_to_ordinal(
    feminine: u32,
    reformed: u32,
    region: u32,
    text: &[u8],
    out: &mut [u8],
) -> Answer
    ensures { Answers result out.old out.new (replied (spelling_of (to_french_ordinal feminine reformed region text.now)) out.old) }
{
    Answer::from(fr_calls::to_ordinal(feminine, reformed, region, text, out))
}

// The number text of a French cardinal.
#[unsafe(no_mangle)]
pub extern "C" fn yokepear_fr_from_cardinal(
    feminine: u32,
    reformed: u32,
    region: u32,
    phrase: &[u8],
    out: &mut [u8],
) -> Answer
    ensures { Reads (reading_of (from_french_cardinal feminine reformed region)) phrase.now result out.old out.new }
{
    Answer::from(fr_calls::from_cardinal(feminine, reformed, region, phrase, out))
}

// The number text of a French ordinal.
#[unsafe(no_mangle)]
pub extern "C" fn yokepear_fr_from_ordinal(
    feminine: u32,
    reformed: u32,
    region: u32,
    phrase: &[u8],
    out: &mut [u8],
) -> Answer
    ensures { Reads (reading_of (from_french_ordinal feminine reformed region)) phrase.now result out.old out.new }
{
    Answer::from(fr_calls::from_ordinal(feminine, reformed, region, phrase, out))
}

// The measure of a cardinal.
#[unsafe(no_mangle)]
pub extern "C" fn yokepear_uk_measure_cardinal(
    gender: u32,
    number: u32,
    case: u32,
    apostrophe: u32,
    style: u32,
    text: &[u8],
) -> Measure
    ensures { result ≡ measured (spelling_of (to_cardinal gender number case apostrophe style text.now)) }
{
    Measure::from(uk_calls::measure_cardinal(gender, number, case, apostrophe, style, text))
}

// The measure of an ordinal.
#[unsafe(no_mangle)]
pub extern "C" fn yokepear_uk_measure_ordinal(
    gender: u32,
    number: u32,
    case: u32,
    apostrophe: u32,
    style: u32,
    text: &[u8],
) -> Measure
    ensures { result ≡ measured (spelling_of (to_ordinal gender number case apostrophe style text.now)) }
{
    Measure::from(uk_ordinal_calls::measure_ordinal(gender, number, case, apostrophe, style, text))
}

// The measure of a digit ordinal.
#[unsafe(no_mangle)]
pub extern "C" fn yokepear_uk_measure_ordinal_num(
    gender: u32,
    number: u32,
    case: u32,
    apostrophe: u32,
    style: u32,
    text: &[u8],
) -> Measure
    ensures { result ≡ measured (spelling_of (to_ordinal_num gender number case apostrophe style text.now)) }
{
    Measure::from(uk_ordinal_calls::measure_ordinal_num(
        gender, number, case, apostrophe, style, text,
    ))
}

// The measure of a year.
#[unsafe(no_mangle)]
pub extern "C" fn yokepear_uk_measure_year(
    gender: u32,
    number: u32,
    case: u32,
    apostrophe: u32,
    style: u32,
    year: i64,
) -> Measure
    ensures { result ≡ measured (spelling_of (to_year gender number case apostrophe style year)) }
{
    Measure::from(uk_ordinal_calls::measure_year(gender, number, case, apostrophe, style, year))
}

// The measure of an amount in a currency.
#[unsafe(no_mangle)]
pub extern "C" fn yokepear_uk_measure_currency(
    gender: u32,
    number: u32,
    case: u32,
    apostrophe: u32,
    style: u32,
    code: &[u8],
    text: &[u8],
) -> Measure
    ensures { result ≡ measured (spelling_of (to_currency gender number case apostrophe style code.now text.now)) }
{
    Measure::from(uk_money_calls::measure_currency(
        gender, number, case, apostrophe, style, code, text,
    ))
}

// The measure of a French cardinal.
#[unsafe(no_mangle)]
pub extern "C" fn yokepear_fr_measure_cardinal(
    feminine: u32,
    reformed: u32,
    region: u32,
    text: &[u8],
) -> Measure
    ensures { result ≡ measured (spelling_of (to_french_cardinal feminine reformed region text.now)) }
{
    Measure::from(fr_calls::measure_cardinal(feminine, reformed, region, text))
}

// The measure of a French ordinal.
#[unsafe(no_mangle)]
pub extern "C" fn yokepear_fr_measure_ordinal(
    feminine: u32,
    reformed: u32,
    region: u32,
    text: &[u8],
) -> Measure
    ensures { result ≡ measured (spelling_of (to_french_ordinal feminine reformed region text.now)) }
{
    Measure::from(fr_calls::measure_ordinal(feminine, reformed, region, text))
}

// The empty tally of a code's currency.
#[unsafe(no_mangle)]
pub extern "C" fn yokepear_tally_open(code: &[u8], tally: &mut [u8]) -> Answer
    ensures { Answers result tally.old tally.new (replied (opening code.now) tally.old) }
{
    Answer::from(tally_calls::open(code, tally))
}

// Adding the amount of a money text to a tally.
#[unsafe(no_mangle)]
pub extern "C" fn yokepear_tally_add(
    gender: u32,
    number: u32,
    case: u32,
    apostrophe: u32,
    style: u32,
    tally: &mut [u8],
    text: &[u8],
    out: &mut [u8],
) -> Tallied
    ensures tallies { Tallies result out.old out.new (move_of (adds (ukrainian_settings gender number case apostrophe style) text.now) tally.old).report }
    ensures tally_after { tally.new ≡ tally_after (move_of (adds (ukrainian_settings gender number case apostrophe style) text.now) tally.old) out.old tally.old }
{
    tally_calls::add(gender, number, case, apostrophe, style, tally, text, out)
}

// Removing the amount under an item number from a tally.
#[unsafe(no_mangle)]
pub extern "C" fn yokepear_tally_remove(
    gender: u32,
    number: u32,
    case: u32,
    apostrophe: u32,
    style: u32,
    item: u32,
    tally: &mut [u8],
    out: &mut [u8],
) -> Tallied
    ensures tallies { Tallies result out.old out.new (move_of (removes (ukrainian_settings gender number case apostrophe style) item) tally.old).report }
    ensures tally_after { tally.new ≡ tally_after (move_of (removes (ukrainian_settings gender number case apostrophe style) item) tally.old) out.old tally.old }
{
    tally_calls::remove(gender, number, case, apostrophe, style, item, tally, out)
}

// What adding the amount of a money text to a tally would answer.
#[unsafe(no_mangle)]
pub extern "C" fn yokepear_tally_preview_add(
    gender: u32,
    number: u32,
    case: u32,
    apostrophe: u32,
    style: u32,
    tally: &[u8],
    text: &[u8],
    out: &mut [u8],
) -> Tallied
    ensures { Previewed (adds (ukrainian_settings gender number case apostrophe style) text.now) result out.old out.new tally.now tally.now }
{
    tally_previews::preview_add(gender, number, case, apostrophe, style, tally, text, out)
}

// What removing the amount under an item number from a tally would answer.
#[unsafe(no_mangle)]
pub extern "C" fn yokepear_tally_preview_remove(
    gender: u32,
    number: u32,
    case: u32,
    apostrophe: u32,
    style: u32,
    item: u32,
    tally: &[u8],
    out: &mut [u8],
) -> Tallied
    ensures { Previewed (removes (ukrainian_settings gender number case apostrophe style) item) result out.old out.new tally.now tally.now }
{
    tally_previews::preview_remove(gender, number, case, apostrophe, style, item, tally, out)
}
