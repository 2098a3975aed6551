//! The argument lists in a domain, by their positions in order.
//!
//! Argument lists are numbered in mixed radix: the position of a list is the position of its first
//! argument, times the number of lists of the rest, plus the position of the rest.
ghost use Rattle.std.specs.Prelude.{◌≡◌, ◌<◌, ◌≤◌, ◌^◌, ◌++◌, [], false, length, slice_index_or, All, IfSome, IfNone, OnOk};
ghost use Rattle.asm_state.specs.declared.signature_limits.TheConstants.{MAX_VALUES};
ghost use Rattle.asm_state.specs.Signature.{domain_in};
ghost use Rattle.asm_state.specs.Tables.{argument_lists, is_in};

use crate::universe::Universe;
use crate::word::Word;
use std::alloc::AllocError;

/// How many argument lists there are.
pub(crate) fn list_count(universes: &[Universe], domain: &[usize]) -> usize
    requires few { length domain.now ≤ 4 }
    requires known { All (λ n. n < length universes.now) domain.now }
    ensures count { result ≡ length (argument_lists (domain_in universes.now domain.now)) }
    ensures bound { result ≤ MAX_VALUES ^ length domain.now }
{
    match domain.split_first() {
        None => 1,
        Some((first, rest)) => universes[*first].size() * list_count(universes, rest),
    }
}

/// The position of an argument list, if it is in the domain.
pub(crate) fn list_position(
    universes: &[Universe],
    domain: &[usize],
    arguments: &[Word],
) -> Option<usize>
    requires few { length domain.now ≤ 4 }
    requires known { All (λ n. n < length universes.now) domain.now }
    ensures some { IfSome result (λ k. (k < length (argument_lists (domain_in universes.now domain.now)))
        × (slice_index_or (argument_lists (domain_in universes.now domain.now)) k [] ≡ arguments.now)) }
    ensures small { IfSome result (λ k. k < 2 ^ 63) }
    ensures none { IfNone result (is_in (domain_in universes.now domain.now) arguments.now ≡ false) }
{
    match (domain.split_first(), arguments.split_first()) {
        (None, None) => Some(0),
        (Some((first, rest)), Some((argument, more))) => {
            let position = universes[*first].position(*argument)?;
            let below = list_position(universes, rest, more)?;
            Some(position * list_count(universes, rest) + below)
        }
        _ => None,
    }
}

/// Writes the argument list at a position after what is there.
pub(crate) fn push_list(
    universes: &[Universe],
    domain: &[usize],
    k: usize,
    arguments: &mut Vec<Word>,
) -> Result<(), AllocError>
    requires few { length domain.now ≤ 4 }
    requires known { All (λ n. n < length universes.now) domain.now }
    requires in_range { k < length (argument_lists (domain_in universes.now domain.now)) }
    ensures { OnOk result (arguments.new.items
        ≡ arguments.old.items ++ slice_index_or (argument_lists (domain_in universes.now domain.now)) k []) }
{
    match domain.split_first() {
        None => Ok(()),
        Some((first, rest)) => {
            let below = list_count(universes, rest);
            arguments.push(universes[*first].element(k / below))?;
            push_list(universes, rest, k % below, arguments)
        }
    }
}
