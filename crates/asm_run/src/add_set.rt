//! What a region yields, added to what was formed before.
ghost use Rattle.std.specs.Prelude.{◌≡◌};
ghost use Rattle.asm_state.specs.Signature.{Shape};
ghost use Rattle.asm_meaning.specs.Does as does;
ghost use Rattle.asm_eval.specs.code.FormedOutcomes.{Follows, IsSet};

use asm_eval::{Forming, Stopped};
use asm_updates::summary::Summary;

/// Adds a region's set, and counts its instances. If nothing was formed before, the set is taken as
/// it is.
pub(crate) fn add_set(forming: &mut Forming, set: Summary, instances: u64) -> Result<(), Stopped>
    requires { set.count ≡ forming.old.set.count }
    ensures { (shape : Shape) (o : does.Outcome) → IsSet shape o set instances → Follows shape o forming.old forming.new result }
{
    forming.instances = forming.instances.saturating_add(instances);
    if forming.set.is_empty() {
        forming.set = set;
        return Ok(());
    }
    forming.set.union(&set)?;
    Ok(())
}
