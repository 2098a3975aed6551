//! How an outcome begins to be formed, and how it ends.
ghost use Rattle.std.specs.Prelude.{◌≡◌, [], IfOk, OnOk, IfErr};
ghost use Rattle.asm_state.specs.Signature.{Shape, IsSound, count_of};
ghost use Rattle.asm_state.specs.Updates.{none};
ghost use Rattle.asm_updates.specs.code.Stands.{Stands};
ghost use Rattle.asm_meaning.specs.Does as does;
ghost use Rattle.asm_eval.specs.code.FormedOutcomes.{IsFormed, IsSet, IsStoppedAt};

use crate::outcome::{Forming, Outcome};
use crate::path::Path;
use crate::stopped::Stopped;
use asm_state::signature::Signature;
use asm_updates::summary::Summary;
use std::alloc::{AllocError, Global};

impl Forming {
    /// Nothing, with the evaluation at the body of the main rule. It takes no memory.
    pub fn new(alloc: Global, signature: &Signature) -> Forming
        ensures set { Stands signature.now result.set none }
        ensures count { result.set.count ≡ count_of signature.now }
        ensures instances { result.instances ≡ 0 }
        ensures path { result.path.items ≡ [] }
    {
        Forming {
            set: Summary::new(alloc, signature.count()),
            instances: 0,
            path: Vec::new(alloc),
            spare: Vec::new(alloc),
        }
    }

    /// Nothing, with the evaluation at this path.
    pub fn at(alloc: Global, signature: &Signature, path: &[u64]) -> Result<Forming, AllocError>
        ensures set { IfOk result (λ forming. Stands signature.now forming.set none) }
        ensures count { IfOk result (λ forming. forming.set.count ≡ count_of signature.now) }
        ensures instances { IfOk result (λ forming. forming.instances ≡ 0) }
        ensures path { IfOk result (λ forming. forming.path.items ≡ path.now) }
    {
        let mut forming = Forming::new(alloc, signature);
        forming.path.reserve(path.len().saturating_add(8))?;
        forming.path.extend_from_slice(path)?;
        Ok(forming)
    }

    /// Goes back to nothing, at the body of the main rule, and keeps its memory.
    pub fn clear(&mut self)
        ensures count { self.new.set.count ≡ self.old.set.count }
        ensures empty { (shape : Shape) → IsSound shape → self.old.set.count ≡ count_of shape → Stands shape self.new.set none }
        ensures instances { self.new.instances ≡ 0 }
        ensures path { self.new.path.items ≡ [] }
    {
        self.set.clear();
        self.instances = 0;
        self.path.clear();
    }

    /// The outcome, if the forming began with nothing and ended so.
    pub fn into_outcome(self, formed: Result<(), Stopped>) -> Result<Outcome, AllocError>
        ensures { (shape : Shape) (o : does.Outcome) → OnOk formed (IsSet shape o self.set self.instances) → IfErr formed (IsStoppedAt o self.path.items) →
            IfOk result (IsFormed shape o) }
    {
        match formed {
            Ok(()) => Ok(Outcome::Set {
                set: self.set,
                instances: self.instances,
            }),
            Err(Stopped::Exhausted) => Ok(Outcome::Exhausted(Path::new(self.path))),
            Err(Stopped::Memory) => Err(AllocError),
        }
    }
}
