//! What is left out of a draft.
use crate::draft::{Draft, Numbers};
use std::alloc::{AllocError, Global};
use std::collections::BTreeMap;

/// What is left out of a draft. Steps and lines count from 0 here.
#[derive(Clone, Copy, Debug)]
pub(crate) enum Omission {
    /// Some steps: the later ones are made that much earlier.
    Steps { from: usize, to: usize },
    /// The lines of some steps.
    Lines { from: usize, to: usize },
    /// A line of a step.
    Line { step: usize, line: usize },
}

/// The numbers of a step again, except the one with this number among them, if there is one.
fn numbers_without(
    alloc: Global,
    numbers: &Numbers,
    without: Option<usize>,
) -> Result<Numbers, AllocError> {
    let mut all = BTreeMap::new(alloc);
    let mut place = 0usize;
    for (path, number) in numbers {
        if without != Some(place) {
            let path = path.as_slice().to_vec(alloc)?;
            all.insert(path, *number)?;
        }
        place = place.saturating_add(1);
    }
    Ok(all)
}

/// The first of a draft's steps again, except what is left out.
pub(crate) fn draft_without(
    alloc: Global,
    draft: &Draft,
    steps: usize,
    omission: Omission,
) -> Result<Draft, AllocError> {
    let mut all = Draft::new(alloc);
    for k in 0..draft.steps.len() {
        if k >= steps {
            break;
        }
        let numbers = &draft.steps[k];
        let kept = match omission {
            Omission::Steps { from, to } if from <= k && k < to => continue,
            Omission::Lines { from, to } if from <= k && k < to => BTreeMap::new(alloc),
            Omission::Line { step, line } if step == k => {
                numbers_without(alloc, numbers, Some(line))?
            }
            _ => numbers_without(alloc, numbers, None)?,
        };
        all.steps.push(kept)?;
    }
    Ok(all)
}
