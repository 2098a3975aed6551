//! What is chosen in a step, in lines.
ghost use Rattle.std.specs.Prelude.{◌≡◌, ◌+◌, ◌++◌, ◌∷◌, [], None, Some, ℕ, List, map, nat_le, option_map, IfOk, OnOk};
ghost use Rattle.asm_syntax.specs.code.Views.{name_of, rule_of, spec_of};
ghost use Rattle.asm_explore.specs.RunChoices.{asked_said};
ghost use Rattle.asm_explore_texts.specs.Comments.{lines_of};
ghost use Rattle.asm_explore_texts.specs.Places.{variable_of};
ghost use Rattle.asm_explore_texts.specs.code.TextPlaces.{elements_said, place_said};
ghost use Rattle.asm_explore_table.specs.ChosenTexts.{chosen_lines as lines_of_choices, chosen_text as text_of_choice, elements_text as text_of_elements, given_text, intro, longest_line, mark as mark_before, name_text, pieces as pieces_behind, taken as taken_value, text_at as text_of_place, wrapped as wrapped_lines, wrapped_behind};
ghost use Rattle.asm_explore_table.specs.code.ChoiceTexts.{text_said};

use crate::line::push_comma;
use asm_check::Checked;
use asm_explore::ChoicePoint;
use asm_explore_texts::rule_in_text::{PlaceInText, place_in_text};
use asm_run::locations::push_value;
use asm_state::word::Word;
use asm_syntax::name::Name;
use asm_syntax::rule::Rule;
use std::alloc::{AllocError, Global};

/// A line has at most so many bytes, unless one choice alone is longer.
const MAX_LINE: usize = 40;

/// A choice in words: the elements of the foralls around it, and what is chosen.
#[derive(Drop)]
struct ChosenText {
    elements: Vec<u8>,
    given: Vec<u8>,
}

/// Adds a name and its value.
fn push_given(
    text: &mut Vec<u8>,
    checked: &Checked,
    name: &[u8],
    value: Word,
) -> Result<(), AllocError>
    ensures { OnOk result (text.new.items ≡ text.old.items ++ given_text (spec_of checked.now.spec) name.now value) }
{
    text.extend_from_slice(name)?;
    text.extend_from_slice(b" = ")?;
    push_value(text, checked, value)
}

/// Elements with their variables, a comma between each two.
fn elements_text(
    alloc: Global,
    checked: &Checked,
    variables: &[&Name],
    elements: &[Word],
) -> Result<Vec<u8>, AllocError>
    ensures { IfOk result (λ text. text.items ≡ text_of_elements (spec_of checked.now.spec) (elements_said variables.now elements.now)) }
{
    let mut text = Vec::new(alloc);
    for k in 0..variables.len().min(elements.len()) {
        push_comma(&mut text, k)?;
        push_given(
            &mut text,
            checked,
            variables[k].text.as_bytes(),
            elements[k],
        )?;
    }
    Ok(text)
}

/// The variable of a `choose`.
fn variable<'c>(rule: &'c Rule) -> Option<&'c Name>
    ensures { option_map (λ name. name_of name.now) result ≡ variable_of (rule_of rule.now) }
{
    match rule {
        Rule::Choose { name, .. } => Some(name),
        _ => None,
    }
}

/// The candidate that is taken.
pub(crate) fn taken(asked: &ChoicePoint) -> Word
    ensures { result ≡ taken_value (asked_said asked.now) }
{
    let number = asked.choice.number as usize;
    if number < asked.candidates.len() {
        asked.candidates[number]
    } else {
        Word::undef()
    }
}

/// The name of the variable of the `choose` at a place, if one is there.
pub(crate) fn name_at<'c>(place: &PlaceInText<'c>) -> &'c [u8]
    ensures { result.now ≡ name_text (variable_of (rule_of place.now.rule.now)) }
{
    match variable(place.rule) {
        Some(name) => name.text.as_bytes(),
        None => &[],
    }
}

/// A choice at a place, in words.
fn text_at(
    alloc: Global,
    checked: &Checked,
    place: &PlaceInText<'_>,
    value: Word,
) -> Result<ChosenText, AllocError>
    ensures { IfOk result (λ text. text_said text ≡ text_of_place (spec_of checked.now.spec) (Some (place_said place.now)) value) }
{
    let (variables, elements) = (place.variables.as_slice(), place.elements.as_slice());
    let elements = elements_text(alloc, checked, variables, elements)?;
    let mut given = Vec::new(alloc);
    push_given(&mut given, checked, name_at(place), value)?;
    Ok(ChosenText { elements, given })
}

/// A choice without a place, in words.
fn text_nowhere(alloc: Global, checked: &Checked, value: Word) -> Result<ChosenText, AllocError>
    ensures { IfOk result (λ text. text_said text ≡ text_of_place (spec_of checked.now.spec) None value) }
{
    let mut given = Vec::new(alloc);
    push_given(&mut given, checked, b"", value)?;
    Ok(ChosenText {
        elements: Vec::new(alloc),
        given,
    })
}

/// A choice in words.
fn chosen_text(
    alloc: Global,
    checked: &Checked,
    asked: &ChoicePoint,
) -> Result<ChosenText, AllocError>
    ensures { IfOk result (λ text. text_said text ≡ text_of_choice (spec_of checked.now.spec) (asked_said asked.now)) }
{
    match &place_in_text(alloc, checked, asked.choice.path.as_slice())? {
        Some(place) => text_at(alloc, checked, place, taken(asked)),
        None => text_nowhere(alloc, checked, taken(asked)),
    }
}

/// The choices of a step in words.
fn chosen_texts(
    alloc: Global,
    checked: &Checked,
    asked: &[ChoicePoint],
) -> Result<Vec<ChosenText>, AllocError>
    ensures { IfOk result (λ texts. map text_said texts.items ≡ map (λ one. text_of_choice (spec_of checked.now.spec) (asked_said one)) asked.now) }
{
    let mut texts = Vec::new(alloc);
    for k in 0..asked.len() {
        texts.push(chosen_text(alloc, checked, &asked[k])?)?;
    }
    Ok(texts)
}

/// Adds the elements of a choice, unless they are those of the choice before it.
fn push_intro(piece: &mut Vec<u8>, before: &[u8], own: &[u8]) -> Result<(), AllocError>
    ensures { OnOk result (piece.new.items ≡ piece.old.items ++ intro before.now own.now) }
{
    if own.is_empty() || own == before {
        return Ok(());
    }
    piece.extend_from_slice(own)?;
    piece.extend_from_slice(b": ")
}

/// What stands between a choice and the next one: a comma if both have the same elements, or else a
/// semicolon.
fn mark(own: &[u8], next: &[ChosenText]) -> &'static [u8]
    ensures { result.now ≡ mark_before own.now (map text_said next.now) }
{
    match next {
        [] => b"",
        [other, ..] => {
            if own == other.elements.as_slice() {
                b","
            } else {
                b";"
            }
        }
    }
}

/// A choice as it stands in a line, with the choices behind it.
fn piece(
    alloc: Global,
    before: &[u8],
    own: &ChosenText,
    next: &[ChosenText],
) -> Result<Vec<u8>, AllocError>
    ensures { IfOk result (λ piece. piece.items ∷ pieces_behind own.now.elements.items (map text_said next.now) ≡ pieces_behind before.now (text_said own.now ∷ map text_said next.now)) }
{
    let mut piece = Vec::new(alloc);
    push_intro(&mut piece, before, own.elements.as_slice())?;
    piece.extend_from_slice(own.given.as_slice())?;
    piece.extend_from_slice(mark(own.elements.as_slice(), next))?;
    Ok(piece)
}

/// The choices as they stand in lines.
fn pieces(alloc: Global, texts: &[ChosenText]) -> Result<Vec<Vec<u8>>, AllocError>
    ensures { IfOk result (λ pieces. lines_of pieces.items ≡ pieces_behind [] (map text_said texts.now)) }
{
    let mut pieces = Vec::new(alloc);
    let mut before: &[u8] = &[];
    for k in 0..texts.len() {
        pieces.push(piece(alloc, before, &texts[k], &texts[k + 1..])?)?;
        before = texts[k].elements.as_slice();
    }
    Ok(pieces)
}

/// Whether so many bytes fit into a line that has some, with a blank between them.
fn has_room(bytes: usize, more: usize) -> bool
    ensures { result ≡ nat_le (bytes + (1 + more)) longest_line }
{
    bytes < MAX_LINE && more <= MAX_LINE - 1 - bytes
}

/// Adds a line, which becomes empty.
fn end_line(alloc: Global, lines: &mut Vec<Vec<u8>>, line: &mut Vec<u8>) -> Result<(), AllocError>
    ensures ended { OnOk result (lines_of lines.new.items ≡ lines_of lines.old.items ++ line.old.items ∷ []) }
    ensures empty { OnOk result (line.new.items ≡ []) }
{
    let ended = Vec::from_slice(alloc, line.as_slice())?;
    lines.push(ended)?;
    line.clear();
    Ok(())
}

/// Adds a piece to a line behind a blank, or begins the next line with it.
fn add_piece(
    alloc: Global,
    lines: &mut Vec<Vec<u8>>,
    line: &mut Vec<u8>,
    piece: &[u8],
) -> Result<(), AllocError>
    ensures { OnOk result ((more : List (List ℕ)) → lines_of lines.new.items ++ wrapped_behind line.new.items more ≡ lines_of lines.old.items ++ wrapped_behind line.old.items (piece.now ∷ more)) }
{
    if has_room(line.len(), piece.len()) {
        line.push(b' ')?;
    } else {
        end_line(alloc, lines, line)?;
    }
    line.extend_from_slice(piece)
}

/// Pieces in lines.
fn wrapped(alloc: Global, pieces: &[Vec<u8>]) -> Result<Vec<Vec<u8>>, AllocError>
    ensures { IfOk result (λ lines. lines_of lines.items ≡ wrapped_lines (lines_of pieces.now)) }
{
    let mut lines = Vec::new(alloc);
    let [first, others @ ..] = pieces else {
        return Ok(lines);
    };
    let mut line = Vec::from_slice(alloc, first.as_slice())?;
    for k in 0..others.len() {
        add_piece(alloc, &mut lines, &mut line, others[k].as_slice())?;
    }
    lines.push(line)?;
    Ok(lines)
}

/// What is chosen in a step, in lines: none if nothing is.
pub(crate) fn chosen_lines(
    alloc: Global,
    checked: &Checked,
    asked: &[ChoicePoint],
) -> Result<Vec<Vec<u8>>, AllocError>
    ensures { IfOk result (λ lines. lines_of lines.items ≡ lines_of_choices (spec_of checked.now.spec) (map asked_said asked.now)) }
{
    let texts = chosen_texts(alloc, checked, asked)?;
    let pieces = pieces(alloc, texts.as_slice())?;
    wrapped(alloc, pieces.as_slice())
}
