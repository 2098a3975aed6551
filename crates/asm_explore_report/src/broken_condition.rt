//! The condition that isn't true in a state.
ghost use Rattle.std.specs.Prelude.{◌≡◌, ◌∷◌, [], true, List, Option, Some, length, IfNone, IfOk, IfSome};
ghost use Rattle.std.specs.List.{list_all};
ghost use Rattle.asm_state.specs.Signature.{count_of, state_of};
ghost use Rattle.asm_state.specs.declared.operation.Op.{Op};
ghost use Rattle.asm_syntax.specs.code.Views.{spec_of, term_of};
ghost use Rattle.asm_syntax.specs.declared.term.Term.{Term as Code};
ghost use Rattle.asm_check.specs.Shapes.{shape_of};
ghost use Rattle.asm_meaning.specs.Value.{is_true};
ghost use Rattle.asm_explore_texts.specs.code.CodedConditions.{IsJoined, terms_in};
ghost use Rattle.asm_explore_texts.specs.Comments.{lines_of};
ghost use Rattle.asm_explore_report.specs.FaultWords.{IsBroken, broken_words, value_in};

use crate::told::Told;
use asm_check::Checked;
use asm_eval::View;
use asm_explore_because::because::because;
use asm_explore_because::laws::deciding_laws;
use asm_explore_texts::conditions::parts;
use asm_run::locations::push_value;
use asm_state::state::State;
use asm_state::word::Word;
use asm_step::value_by_code;
use asm_syntax::term::Term;
use asm_updates::summary::Summary;
use std::alloc::{AllocError, Global};

/// The value of a term in a state, with no name bound.
fn value_of(
    alloc: Global,
    checked: &Checked,
    state: &State,
    term: &Term,
) -> Result<Word, AllocError>
    requires { length state.now ≡ count_of (shape_of (spec_of checked.now.spec)) }
    ensures { IfOk result (λ v. v ≡ value_in (spec_of checked.now.spec) (term_of term.now) (state_of (shape_of (spec_of checked.now.spec)) state.now)) }
{
    let signature = checked.signature();
    let nothing = Summary::new(alloc, signature.count());
    let view = View::new(signature, state, &nothing);
    let value = value_by_code(alloc, checked, &view, term)?;
    Ok(value)
}

/// The words for the condition with this number, which has this value.
fn words_for(
    alloc: Global,
    checked: &Checked,
    number: usize,
    value: Word,
) -> Result<Vec<u8>, AllocError>
    ensures { IfOk result (λ words. words.items ≡ broken_words (spec_of checked.now.spec) number value) }
{
    let mut words = format!(in alloc; "condition {number} is ")?.into_bytes();
    push_value(&mut words, checked, value)?;
    Ok(words)
}

/// The words for the condition with this number, behind which stands the line that says why it isn't
/// true in a state.
fn told_of(
    alloc: Global,
    checked: &Checked,
    state: &State,
    number: usize,
    condition: &Term,
    line: Vec<u8>,
) -> Result<Told, AllocError>
    requires { length state.now ≡ count_of (shape_of (spec_of checked.now.spec)) }
    ensures { let s = spec_of checked.now.spec in
        IfOk result (λ told. (told.words.items ≡ broken_words s number (value_in s (term_of condition.now) (state_of (shape_of s) state.now))) × (lines_of told.because.items ≡ line.items ∷ [])) }
{
    let value = value_of(alloc, checked, state, condition)?;
    let words = words_for(alloc, checked, number, value)?;
    let mut because = Vec::new(alloc);
    because.push(line)?;
    Ok(Told { words, because })
}

/// The first of the joined conditions that isn't true in a state, in words: its number, from 1, and
/// its value; and why it isn't.
pub(crate) fn broken_in(
    alloc: Global,
    checked: &Checked,
    always: &Option<Term>,
    state: &State,
) -> Result<Option<Told>, AllocError>
    requires { length state.now ≡ count_of (shape_of (spec_of checked.now.spec)) }
    ensures found { (links : List (Op × Code)) → IsJoined links always.now →
        IfOk result (λ found. IfSome found (λ told. IsBroken (spec_of checked.now.spec) (terms_in links) (state_of (shape_of (spec_of checked.now.spec)) state.now) told.words.items (lines_of told.because.items))) }
    ensures all_true { let s = spec_of checked.now.spec in (links : List (Op × Code)) → IsJoined links always.now →
        IfOk result (λ found. IfNone found (list_all (λ t. is_true (value_in s t (state_of (shape_of s) state.now))) (terms_in links) ≡ true)) }
{
    deciding_laws();
    let links = parts(always);
    for k in 0..links.len() {
        let condition = &links[k].1;
        if let Some(line) = because(alloc, checked, condition, state)? {
            return Ok(Some(told_of(alloc, checked, state, k + 1, condition, line)?));
        }
    }
    Ok(None)
}
