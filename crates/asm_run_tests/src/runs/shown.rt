//! What a trace shows of locations, the first time and again.
use super::LIMITS;
use asm_limits::run_limits::Limits;
use asm_run::end::End;
use asm_run::run::run;
use asm_run::through::Through;
use std::test::Fail;

/// Updates the same locations in each step, and in each a new one, until one is outside its domain.
const SHOWN: &[u8] = b"CoreASM T\ninit M\nenum Color = { red, green }\nuniverse Near = -1 .. 0\n\
function controlled n initially 0\nfunction controlled f : Color * Near initially 0\nfunction controlled late\n\
rule M = par n := n + 1 f(red, 0 - n) := n f(green, -1) := (n = 1) f(green, 0) := 0 - n * 1234567 \
if n = 0 then late := green else late := undef endif endpar\n";

const TRACE: &[u8] =
    b"step 1 instances 0\nn := 1\nf(red, 0) := 0\nf(green, -1) := false\nf(green, 0) := 0\nlate := green\n\
step 2 instances 0\nn := 2\nf(red, -1) := 1\nf(green, -1) := true\nf(green, 0) := -1234567\nlate := undef\n\
end outside step 3 f\n\
state\nn = 2\nf(red, -1) = 1\nf(red, 0) = 0\nf(green, -1) = true\nf(green, 0) = -1234567\n";

#[test]
fn locations_are_shown_again(rt: HostRuntime) -> Result<(), Fail> {
    let limits = Limits { steps: 9, ..LIMITS };
    let mut out = Through::new(Vec::new(rt.alloc()));
    let answer = run(&rt, rt.alloc(), SHOWN, b"", &limits, &mut out);
    assert!(rt;
        matches!(
            answer,
            Ok(End::Outside {
                step: 3,
                function: 1
            })
        )
    );
    assert!(rt; out.into_inner().as_slice() == TRACE);
    Ok(())
}
