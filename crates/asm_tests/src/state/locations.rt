//! Locations and their numbers, and the values of static functions.
use super::*;

/// A function and arguments, the number of their location, and whether that is a proper one.
pub type Numbered = (usize, &'static [Plain], usize, bool);

/// A function, arguments, and the value that it has for them as a static one.
pub type Given = (usize, &'static [Plain], Option<Plain>);

/// The number of a location, if its function is a controlled one.
fn number_of(signature: &Signature, f: usize, arguments: &[Word]) -> Option<usize> {
    if f < signature.functions() && signature.function(f).kind == FunctionKind::Controlled {
        Some(signature.number_of(f, arguments))
    } else {
        None
    }
}

/// The number of a location in the domain of a controlled function.
fn proper_number(signature: &Signature, f: usize, arguments: &[Word]) -> Option<usize> {
    if f < signature.functions() && signature.function(f).kind == FunctionKind::Controlled {
        signature.proper_number(f, arguments)
    } else {
        None
    }
}

/// The value of a function for arguments, if it is a static one.
fn given(signature: &Signature, f: usize, arguments: &[Word]) -> Option<Word> {
    if f < signature.functions() && signature.function(f).kind == FunctionKind::Static {
        Some(signature.given(f, arguments))
    } else {
        None
    }
}

/// Whether the location with a number is that of a function with these arguments, or the stray one
/// of the function.
fn leads_back(
    alloc: Global,
    signature: &Signature,
    n: usize,
    f: usize,
    arguments: &[Word],
    is_proper: bool,
) -> Result<bool, AllocError> {
    if n >= signature.count() {
        return Ok(false);
    }
    match signature.location(alloc, n)? {
        Location::Proper {
            function,
            arguments: found,
        } => Ok(
            is_proper
                && function == f
                && found.as_slice() == arguments
                && signature.stray(n) == None,
        ),
        Location::Stray { function } => {
            Ok(!is_proper && function == f && signature.stray(n) == Some(f))
        }
    }
}

/// Whether this location has this number.
fn has_number(
    signature: &Signature,
    f: usize,
    arguments: &[Word],
    n: usize,
    is_proper: bool,
) -> bool {
    let proper = if is_proper { Some(n) } else { None };
    number_of(signature, f, arguments) == Some(n)
        && proper_number(signature, f, arguments) == proper
}

fn is_numbered(alloc: Global, signature: &Signature, row: &Numbered) -> Result<bool, AllocError> {
    let (f, arguments, n, is_proper) = row;
    let arguments = values_of(alloc, arguments)?;
    let arguments = arguments.as_slice();
    if !has_number(signature, *f, arguments, *n, *is_proper) {
        return Ok(false);
    }
    leads_back(alloc, signature, *n, *f, arguments, *is_proper)
}

/// Whether all these locations have their numbers, and lead back from there.
pub fn are_numbered(
    alloc: Global,
    signature: &Signature,
    rows: &[Numbered],
) -> Result<bool, AllocError> {
    for row in rows {
        if !is_numbered(alloc, signature, row)? {
            return Ok(false);
        }
    }
    Ok(true)
}

/// Whether functions have their values; none: the function isn't a static one.
pub fn give_values(
    alloc: Global,
    signature: &Signature,
    rows: &[Given],
) -> Result<bool, AllocError> {
    for (f, arguments, wanted) in rows {
        let arguments = values_of(alloc, arguments)?;
        if given(signature, *f, arguments.as_slice()) != wanted.map(value) {
            return Ok(false);
        }
    }
    Ok(true)
}
