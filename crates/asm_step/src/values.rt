//! Values of terms in which no name is bound, by way of their codes.
ghost use Rattle.std.specs.Prelude.{◌≡◌, IfOk};
ghost use Rattle.asm_syntax.specs.PlainTree.{plain_term};
ghost use Rattle.asm_syntax.specs.code.Views.{spec_of, term_of};
ghost use Rattle.asm_check.specs.Shapes.{shape_of};
ghost use Rattle.asm_meaning.specs.Program.{nothing_bound};
ghost use Rattle.asm_meaning.specs.code.TermValues.{program};
ghost use Rattle.asm_eval.specs.code.ShownViews.{shown};
ghost use Rattle.asm_meaning.specs.Value as spec;

use asm_check::Checked;
use asm_eval::View;
use asm_eval::frame::Frame;
use asm_eval::value::value;
use asm_resolve::bodies::Bodies;
use asm_resolve::resolve::resolve;
use asm_resolve::scope::Scope;
use asm_state::word::Word;
use asm_syntax::term::Term;
use std::alloc::{AllocError, Global};

/// The value of a term in which no name is bound, by way of its code: it is the term's value in the
/// state that the view shows.
pub fn value_by_code(
    alloc: Global,
    checked: &Checked,
    view: &View,
    term: &Term,
) -> Result<Word, AllocError>
    requires { view.now.signature.now ≡ shape_of (spec_of checked.now.spec) }
    ensures { IfOk result (λ v. v ≡ spec.value (program checked.now) (shown view.now) nothing_bound (plain_term (term_of term.now))) }
{
    let mut known = Bodies::new(alloc, checked)?;
    let code = resolve(alloc, checked, &mut known.terms, &Scope::Empty, term)?;
    Ok(value(view, &Frame::Empty, &code))
}
