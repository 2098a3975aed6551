//! When the text of a step reaches the sink.
use super::LIMITS;
use asm_limits::run_limits::Limits;
use asm_run::error::RunError;
use asm_run::run::run;
use asm_run::through::Through;
use std::io;
use std::io::Write;
use std::test::Fail;

/// Takes `left` pieces whole, and refuses the next.
#[derive(Drop)]
struct Pieces {
    taken: Vec<u8>,
    left: u32,
}

impl Write for Pieces {
    fn write(&mut self, piece: &[u8]) -> io::Result<usize> {
        if self.left == 0 {
            return Err(io::Error::from(io::ErrorKind::StorageFull));
        }
        self.left -= 1;
        self.taken.extend_from_slice(piece)?;
        Ok(piece.len())
    }

    fn flush(&mut self) -> io::Result<()> {
        Ok(())
    }
}

/// Each step makes 65,536 updates, so that a million steps take hours.
const DEAR: &[u8] = b"CoreASM T\ninit M\nuniverse U = 1 .. 256\nfunction controlled n initially 0\n\
rule M = forall a in U do forall b in U do n := n + 1 endforall endforall\n";

#[test]
fn a_step_is_written_before_the_next_is_made(rt: HostRuntime) -> Result<(), Fail> {
    let limits = Limits {
        steps: 1_000_000,
        ..LIMITS
    };
    let mut out = Through::new(Pieces {
        taken: Vec::new(rt.alloc()),
        left: 2,
    });
    let answer = run(&rt, rt.alloc(), DEAR, b"", &limits, &mut out);
    assert!(rt; matches!(answer, Err(RunError::Write)));
    let steps = b"step 1 instances 65792\nn := 1\nstep 2 instances 65792\nn := 2\n";
    assert!(rt; out.into_inner().taken.as_slice() == steps.as_slice());
    Ok(())
}
