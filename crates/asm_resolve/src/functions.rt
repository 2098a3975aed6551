//! Codes of functions, and their locations: of a controlled one with few arguments by the number of
//! its first location.
ghost use Rattle.std.specs.Prelude.{◌≡◌, ◌<◌, [], ◌∷◌, length, map, true, IfOk, IfSome};
ghost use Rattle.asm_state.specs.declared.function.FunctionKind.TheVariants.{Controlled};
ghost use Rattle.asm_state.specs.SignatureLimits.{Fits};
ghost use Rattle.asm_state.specs.Signature.{HasKind, functions_of};
ghost use Rattle.asm_code.specs.code.CodeTree as tree;
ghost use Rattle.asm_code.specs.code.CodeViews.{code_of, codes_of};
ghost use Rattle.asm_code.specs.code.RuleViews.{target_code_of};
ghost use Rattle.asm_code.specs.code.CodeRanges.{IsCodeRange};
ghost use Rattle.asm_resolve.specs.code.FunctionCodes.{HasDomain, IsGridOf, IsLocated, IsRead, IsRowOf};

use asm_code::code::{Code, CodeRange, Grid};
use asm_code::rule_code::TargetCode;
use asm_state::function::FunctionKind;
use asm_state::signature::Signature;
use asm_state::universe::Universe;
use asm_state::word::Word;
use std::alloc::{AllocError, Global};

/// The most arguments that a function has.
const MAX_ARGUMENTS: usize = 4;

/// The code of a function without arguments.
pub(crate) fn make_cell(alloc: Global, signature: &Signature, f: usize) -> Code
    requires fits { Fits signature.now }
    requires known { f < functions_of signature.now }
    ensures { IsRead signature.now f tree.no_codes (code_of result) }
{
    if is_single(signature, f) {
        return Code::Cell(signature.first(f));
    }
    Code::FunctionAt {
        function: f,
        arguments: Vec::new(alloc),
    }
}

/// The code of a function with one argument.
pub(crate) fn make_row(
    alloc: Global,
    signature: &Signature,
    f: usize,
    argument: Code,
) -> Result<Code, AllocError>
    requires fits { Fits signature.now }
    requires known { f < functions_of signature.now }
    ensures { IfOk result (λ t. IsRead signature.now f (tree.code_then (code_of argument) tree.no_codes) (code_of t)) }
{
    if let Some((first, over)) = row_of(signature, f) {
        return Ok(Code::Row {
            first,
            over,
            argument: Box::new(alloc, argument)?,
        });
    }
    Ok(Code::FunctionAt {
        function: f,
        arguments: vec![in alloc; argument]?,
    })
}

/// The code of a function with two arguments.
pub(crate) fn make_grid(
    alloc: Global,
    signature: &Signature,
    f: usize,
    row: Code,
    column: Code,
) -> Result<Code, AllocError>
    requires fits { Fits signature.now }
    requires known { f < functions_of signature.now }
    ensures { IfOk result (λ t. IsRead signature.now f (tree.code_then (code_of row) (tree.code_then (code_of column) tree.no_codes)) (code_of t)) }
{
    if let Some(place) = grid_of(signature, f) {
        let (row, column) = boxed(alloc, row, column)?;
        return Ok(Code::Grid { place, row, column });
    }
    Ok(Code::FunctionAt {
        function: f,
        arguments: vec![in alloc; row, column]?,
    })
}

/// The code of a function with any arguments. With more than a domain has it is undef.
pub(crate) fn make_function(signature: &Signature, f: usize, arguments: Vec<Code>) -> Code
    requires fits { Fits signature.now }
    requires known { f < functions_of signature.now }
    ensures { IsRead signature.now f (codes_of (map code_of arguments.items)) (code_of result) }
{
    if arguments.len() <= MAX_ARGUMENTS {
        return Code::FunctionAt {
            function: f,
            arguments,
        };
    }
    Code::Constant(Word::undef())
}

/// The location of a controlled function without arguments.
pub(crate) fn cell_target(alloc: Global, signature: &Signature, f: usize) -> TargetCode
    requires fits { Fits signature.now }
    requires kind { HasKind Controlled signature.now f }
    ensures { IsLocated signature.now f tree.no_codes (target_code_of result) }
{
    if is_single(signature, f) {
        return TargetCode::Cell(signature.first(f));
    }
    TargetCode::FunctionAt {
        function: f,
        arguments: Vec::new(alloc),
    }
}

/// The location of a controlled function with one argument.
pub(crate) fn row_target(
    alloc: Global,
    signature: &Signature,
    f: usize,
    argument: Code,
) -> Result<TargetCode, AllocError>
    requires fits { Fits signature.now }
    requires kind { HasKind Controlled signature.now f }
    ensures { IfOk result (λ to. IsLocated signature.now f (tree.code_then (code_of argument) tree.no_codes) (target_code_of to)) }
{
    if let Some((first, over)) = row_of(signature, f) {
        return Ok(TargetCode::Row {
            first,
            over,
            argument: Box::new(alloc, argument)?,
        });
    }
    Ok(TargetCode::FunctionAt {
        function: f,
        arguments: vec![in alloc; argument]?,
    })
}

/// The location of a controlled function with two arguments.
pub(crate) fn grid_target(
    alloc: Global,
    signature: &Signature,
    f: usize,
    row: Code,
    column: Code,
) -> Result<TargetCode, AllocError>
    requires fits { Fits signature.now }
    requires kind { HasKind Controlled signature.now f }
    ensures { IfOk result (λ to. IsLocated signature.now f (tree.code_then (code_of row) (tree.code_then (code_of column) tree.no_codes)) (target_code_of to)) }
{
    if let Some(place) = grid_of(signature, f) {
        let (row, column) = boxed(alloc, row, column)?;
        return Ok(TargetCode::Grid { place, row, column });
    }
    Ok(TargetCode::FunctionAt {
        function: f,
        arguments: vec![in alloc; row, column]?,
    })
}

/// Two codes in boxes.
fn boxed(alloc: Global, row: Code, column: Code) -> Result<(Box<Code>, Box<Code>), AllocError>
    ensures row { IfOk result (λ boxes. boxes.0.value ≡ row) }
    ensures column { IfOk result (λ boxes. boxes.1.value ≡ column) }
{
    let row = Box::new(alloc, row)?;
    let column = Box::new(alloc, column)?;
    Ok((row, column))
}

/// The number of the first location of a controlled function with one argument, and the codes of
/// the argument's values.
fn row_of(signature: &Signature, f: usize) -> Option<(usize, CodeRange)>
    requires fits { Fits signature.now }
    requires known { f < functions_of signature.now }
    ensures { IfSome result (λ r. IsRowOf signature.now f r.0 r.1) }
{
    let universe = row_universe(signature, f)?;
    let over = code_range_of(signature.universe(universe));
    Some((signature.first(f), over))
}

/// The same of two arguments.
fn grid_of(signature: &Signature, f: usize) -> Option<Grid>
    requires fits { Fits signature.now }
    requires known { f < functions_of signature.now }
    ensures { IfSome result (λ at. IsGridOf signature.now f at) }
{
    let (rows, columns) = grid_universes(signature, f)?;
    Some(Grid {
        first: signature.first(f),
        rows: code_range_of(signature.universe(rows)),
        columns: code_range_of(signature.universe(columns)),
    })
}

/// The codes of a universe's values, which follow each other.
fn code_range_of(universe: &Universe) -> CodeRange
    ensures { IsCodeRange result universe.now }
{
    CodeRange {
        low: universe.first_code(),
        count: universe.size(),
    }
}

/// Whether the function is controlled and takes no argument.
fn is_single(signature: &Signature, f: usize) -> bool
    requires { f < functions_of signature.now }
    ensures { result ≡ true → HasDomain signature.now f [] }
{
    let function = signature.function(f);
    match function.kind {
        FunctionKind::Controlled => function.domain.as_slice().is_empty(),
        FunctionKind::Static => false,
    }
}

/// The universe of the one argument of a controlled function.
fn row_universe(signature: &Signature, f: usize) -> Option<usize>
    requires fits { Fits signature.now }
    requires known { f < functions_of signature.now }
    ensures domain { IfSome result (λ u. HasDomain signature.now f (u ∷ [])) }
    ensures known { IfSome result (λ u. u < length signature.now.universes) }
{
    let function = signature.function(f);
    let domain = function.domain.as_slice();
    match function.kind {
        FunctionKind::Controlled => {
            if domain.len() == 1 {
                Some(domain[0])
            } else {
                None
            }
        }
        FunctionKind::Static => None,
    }
}

/// The universes of the two arguments of a controlled function.
fn grid_universes(signature: &Signature, f: usize) -> Option<(usize, usize)>
    requires fits { Fits signature.now }
    requires known { f < functions_of signature.now }
    ensures domain { IfSome result (λ us. HasDomain signature.now f (us.0 ∷ us.1 ∷ [])) }
    ensures rows { IfSome result (λ us. us.0 < length signature.now.universes) }
    ensures columns { IfSome result (λ us. us.1 < length signature.now.universes) }
{
    let function = signature.function(f);
    let domain = function.domain.as_slice();
    match function.kind {
        FunctionKind::Controlled => {
            if domain.len() == 2 {
                Some((domain[0], domain[1]))
            } else {
                None
            }
        }
        FunctionKind::Static => None,
    }
}
