//! Who says which candidate is taken.
ghost use Rattle.std.specs.Prelude.{◌≡◌};
ghost use Rattle.asm_reader.specs.ScriptLines.{Script, pick};

/// Picks as a script does.
pub trait Picks {
    // The script by which it picks.
    ghost script: { Self → Script };

    /// The number for the `choose` at this path, in this step. Among n candidates it takes the one
    /// with this number modulo n.
    fn pick(&self, step: u64, path: &[u64]) -> u64
        ensures { result ≡ pick (script self.now) step path.now };
}
