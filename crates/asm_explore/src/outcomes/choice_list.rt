//! Lists of choices that share what they have in common: a list after another takes one piece of
//! memory, however long both are.
ghost use Rattle.std.specs.Prelude.{◌≡◌, [], ◌∷◌, ◌++◌, IfOk, OnOk};
ghost use Rattle.std.specs.Arc.{arc_value};
ghost use Rattle.asm_explore.specs.code.ChoiceChains.{chained, all_chained, linked};

use crate::outcomes::chain::Chain;
use crate::outcomes::listed_outcome::{Choice, copy_choice};
use asm_eval::Path;
use std::alloc::{AllocError, Global};
use std::marker::Model;
use std::sync::Arc;

/// Choices in their order.
#[derive(Drop)]
pub struct ChoiceList {
    chain: Option<Arc<Chain>>,
    /// How many chains are within one another at most. No proof rests on it: it keeps the stack
    /// small that giving them back takes.
    depth: u32,
}

/// How many chains may be within one another.
const MAX_DEPTH: u32 = 500;

/// How many are, when a chain was made level, unless it has more than 2 ^ 32 choices.
const LEVEL_DEPTH: u32 = 33;

impl Model for ChoiceList {
    ghost use Rattle.std.specs.Prelude.{List};
    ghost use Rattle.asm_explore.specs.declared.outcomes.listed_outcome.Choice.{Choice};
    ghost use Rattle.asm_explore.specs.code.ChoiceChains.{linked};

    ghost Value = { List Choice };

    ghost view = { λ l. linked l.chain };
}

impl ChoiceList {
    /// No choices.
    pub fn none() -> ChoiceList
        ensures { result ≡ [] }
    {
        ChoiceList {
            chain: None,
            depth: 0,
        }
    }

    /// One choice.
    pub fn one(alloc: Global, path: &[u64], number: u64) -> Result<ChoiceList, AllocError>
        ensures { IfOk result (λ cs. cs ≡ record { path = path.now; number = number } ∷ []) }
    {
        let path = Path::of(alloc, path)?;
        let chain = Arc::new(alloc, Chain::One(Choice { path, number }))?;
        Ok(ChoiceList {
            chain: Some(chain),
            depth: 1,
        })
    }

    /// The same choices again.
    pub fn share(&self) -> Result<ChoiceList, AllocError>
        ensures { IfOk result (λ cs. cs ≡ self.now) }
    {
        let depth = self.depth;
        match &self.chain {
            None => Ok(ChoiceList { chain: None, depth }),
            Some(chain) => {
                let chain = again(chain)?;
                Ok(ChoiceList {
                    chain: Some(chain),
                    depth,
                })
            }
        }
    }

    /// These choices, and others after them.
    pub fn then(self, alloc: Global, others: ChoiceList) -> Result<ChoiceList, AllocError>
        ensures { IfOk result (λ cs. cs ≡ self ++ others) }
    {
        let ChoiceList {
            chain: first,
            depth,
        } = self;
        let ChoiceList {
            chain: last,
            depth: also,
        } = others;
        let Some(first) = first else {
            return Ok(ChoiceList {
                chain: last,
                depth: also,
            });
        };
        let Some(last) = last else {
            return Ok(ChoiceList {
                chain: Some(first),
                depth,
            });
        };
        let depth = depth.max(also);
        if depth < MAX_DEPTH {
            let chain = Arc::new(alloc, Chain::Both(first, last))?;
            return Ok(ChoiceList {
                chain: Some(chain),
                depth: depth + 1,
            });
        }
        let chain = level(alloc, &first, &last)?;
        Ok(ChoiceList {
            chain,
            depth: LEVEL_DEPTH,
        })
    }

    /// Each of them, copied.
    pub fn to_vec(&self, alloc: Global) -> Result<Vec<Choice>, AllocError>
        ensures { IfOk result (λ cs. cs.items ≡ self.now) }
    {
        let mut all = Vec::new(alloc);
        if let Some(chain) = &self.chain {
            add_all(alloc, chain, &mut all)?;
        }
        Ok(all)
    }
}

/// The choices of a list, and those of another after them.
pub(crate) fn both_choices(
    alloc: Global,
    first: &ChoiceList,
    then: &ChoiceList,
) -> Result<ChoiceList, AllocError>
    ensures { IfOk result (λ cs. cs ≡ first.now ++ then.now) }
{
    let first = first.share()?;
    let then = then.share()?;
    let both = first.then(alloc, then)?;
    Ok(both)
}

/// The choices of a list, and one more after them.
pub(crate) fn one_more(
    alloc: Global,
    choices: ChoiceList,
    path: &[u64],
    number: u64,
) -> Result<ChoiceList, AllocError>
    ensures { IfOk result (λ cs. cs ≡ choices ++ record { path = path.now; number = number } ∷ []) }
{
    let own = ChoiceList::one(alloc, path, number)?;
    let both = choices.then(alloc, own)?;
    Ok(both)
}

/// Adds copies of the choices of a chain.
fn add_all(alloc: Global, chain: &Chain, into: &mut Vec<Choice>) -> Result<(), AllocError>
    ensures { OnOk result (into.new.items ≡ into.old.items ++ chained chain.now) }
{
    match chain {
        Chain::One(choice) => {
            let choice = copy_choice(alloc, choice)?;
            into.push(choice)?;
            Ok(())
        }
        Chain::Both(first, last) => {
            add_all(alloc, first, into)?;
            add_all(alloc, last, into)?;
            Ok(())
        }
    }
}

/// Two chains after each other, in one that isn't deeper than its length asks for, and that shares
/// the single choices with them.
fn level(
    alloc: Global,
    first: &Arc<Chain>,
    last: &Arc<Chain>,
) -> Result<Option<Arc<Chain>>, AllocError>
    ensures { IfOk result (λ c. linked c ≡ chained (arc_value first.now) ++ chained (arc_value last.now)) }
{
    let mut links = Vec::new(alloc);
    add_links(first, &mut links)?;
    add_links(last, &mut links)?;
    let chain = in_halves(alloc, links.as_slice())?;
    Ok(chain)
}

/// The same chain again.
fn again(chain: &Arc<Chain>) -> Result<Arc<Chain>, AllocError>
    ensures { IfOk result (λ c. arc_value c ≡ arc_value chain.now) }
{
    Ok(chain.clone()?)
}

/// Adds the single choices of a chain.
fn add_links(chain: &Arc<Chain>, into: &mut Vec<Arc<Chain>>) -> Result<(), AllocError>
    ensures { OnOk result (all_chained into.new.items ≡ all_chained into.old.items ++ chained (arc_value chain.now)) }
{
    match &**chain {
        Chain::One(_) => {
            let link = again(chain)?;
            into.push(link)?;
            Ok(())
        }
        Chain::Both(first, last) => {
            add_links(first, into)?;
            add_links(last, into)?;
            Ok(())
        }
    }
}

/// Chains after each other: the first half of them, and the others.
fn in_halves(alloc: Global, chains: &[Arc<Chain>]) -> Result<Option<Arc<Chain>>, AllocError>
    ensures { IfOk result (λ c. linked c ≡ all_chained chains.now) }
{
    if chains.len() == 0 {
        return Ok(None);
    }
    if chains.len() == 1 {
        let chain = again(&chains[0])?;
        return Ok(Some(chain));
    }
    let half = chains.len() / 2;
    let first = in_halves(alloc, &chains[..half])?;
    let last = in_halves(alloc, &chains[half..])?;
    let both = after_each_other(alloc, first, last)?;
    Ok(both)
}

/// Two chains after each other, if there are two.
fn after_each_other(
    alloc: Global,
    first: Option<Arc<Chain>>,
    last: Option<Arc<Chain>>,
) -> Result<Option<Arc<Chain>>, AllocError>
    ensures { IfOk result (λ c. linked c ≡ linked first ++ linked last) }
{
    let Some(first) = first else {
        return Ok(last);
    };
    let Some(last) = last else {
        return Ok(Some(first));
    };
    let chain = Arc::new(alloc, Chain::Both(first, last))?;
    Ok(Some(chain))
}
