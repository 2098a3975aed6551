//! How many steps and turns a script says that its run has.
ghost use Rattle.std.specs.Prelude.{◌≡◌, ◌≤◌, IfSome, option_map};
ghost use Rattle.std.specs.Option.{option_or};
ghost use Rattle.asm_explore_texts.specs.RunNumbers as said;
ghost use Rattle.asm_explore_texts.specs.RunNumbers.{number_of, numbers_said};

use asm_explore_words::settings::RunSettings;
use asm_reader::script_line::without_return;

/// The most digits that a number may have.
const MAX_DIGITS: usize = 7;

/// The greatest number.
const MAX_NUMBER: u32 = 1_000_000;

/// The turns that a report doesn't name.
const DEFAULT_TURNS: u32 = 1000;

/// How many steps and turns a run has.
#[derive(Clone, Copy, Debug, PartialEq, Eq)]
pub struct RunNumbers {
    /// It has at most this many steps.
    pub steps: u32,
    /// This many turns exhaust an `iterate` or a `while`.
    pub turns: u32,
}

/// What is behind these bytes, if the text begins with them.
fn behind<'t>(text: &'t [u8], front: &[u8]) -> Option<&'t [u8]>
    ensures { option_map (λ rest. rest.now) result ≡ said.behind front.now text.now }
{
    text.strip_prefix(front)
}

/// What is before the first blank, or all if there is none.
fn first_word(text: &[u8]) -> &[u8]
    ensures { result.now ≡ said.first_word text.now }
{
    text.split(|byte| *byte == b' ').next().unwrap_or(text)
}

/// The value of one to seven digits.
fn value(digits: &[u8]) -> Option<u32>
    ensures { result ≡ said.value_in digits.now }
{
    if digits.is_empty() || digits.len() > MAX_DIGITS {
        return None;
    }
    let mut value = 0;
    for digit in digits {
        if !digit.is_ascii_digit() {
            return None;
        }
        value = 10 * value + u32::from(*digit - b'0');
    }
    Some(value)
}

/// The value of one to seven digits, from the least number to the greatest.
fn number(least: u32, word: &[u8]) -> Option<u32>
    ensures { result ≡ number_of least word.now }
{
    let value = value(word)?;
    if value < least || value > MAX_NUMBER {
        return None;
    }
    Some(value)
}

/// The turns that are named behind these bytes of a line.
fn turns_named(rest: &[u8]) -> Option<u32>
    ensures { result ≡ said.turns_named rest.now }
{
    let named = behind(rest, b" --script THIS --turns ")?;
    number(1, first_word(named))
}

/// The numbers of a line that begins as the call of `asm` does that a report has.
fn numbers_in_line(line: &[u8]) -> Option<RunNumbers>
    ensures { result ≡ said.numbers_in_line line.now }
{
    let text = behind(line, b"# asm --steps ")?;
    let word = first_word(text);
    let steps = number(0, word)?;
    let rest = &text[word.len()..];
    if rest.is_empty() {
        return None;
    }
    let turns = turns_named(rest).unwrap_or(DEFAULT_TURNS);
    Some(RunNumbers { steps, turns })
}

/// The numbers of the last line of a script that has some.
pub fn numbers_in(script: &[u8]) -> Option<RunNumbers>
    ensures numbers { result ≡ numbers_said script.now }
    ensures steps { IfSome result (λ numbers. numbers.steps ≤ 1_000_000) }
    ensures turns { IfSome result (λ numbers. (1 ≤ numbers.turns) × (numbers.turns ≤ 1_000_000)) }
{
    let mut found = None;
    for line in script.split(|byte| *byte == b'\n') {
        if let Some(numbers) = numbers_in_line(without_return(line)) {
            found = Some(numbers);
        }
    }
    found
}

/// The settings, with what the script says of steps and turns where the words don't.
pub fn with_numbers<'w>(settings: &RunSettings<'w>, script: &[u8]) -> RunSettings<'w>
    ensures { result ≡ said.with_numbers settings.now script.now }
{
    if settings.steps_said {
        return *settings;
    }
    let Some(numbers) = numbers_in(script) else {
        return *settings;
    };
    let turns = if settings.turns_said {
        settings.turns
    } else {
        numbers.turns
    };
    RunSettings {
        steps: numbers.steps,
        turns,
        ..*settings
    }
}
