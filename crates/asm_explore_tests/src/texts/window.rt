//! Items that are sent over a channel that loses them.

/// The sender has a window of two items, and numbers them modulo 4.
pub const WINDOW: &str = "
CoreASM Window
init Step
universe Item = 1 .. 6
universe Offset = 0 .. 1
enum Fate = { arrives, isLost }
function controlled base : -> NUMBER initially 1
function controlled isAcked : Item -> BOOLEAN initially false
function controlled expected : -> NUMBER initially 1
function controlled received : Item -> NUMBER
function controlled broken
derived number(i) = i mod 4
derived isSafe = (forall i in Item holds received(i) = undef or received(i) = i)

rule Step = par
  choose o in Offset with base + o <= 6 and not isAcked(base + o) do
    choose f in Fate do if f = arrives then Arrive(base + o) endif endchoose
  endchoose
  if isAcked(base) then base := base + 1 endif
  if expected <= 6 and received(expected) != undef then expected := expected + 1 endif
  if not isSafe then par broken := 1 broken := 2 endpar endif
endpar

rule Arrive(i) = par
  choose o in Offset with number(expected + o) = number(i) and expected + o <= 6 do
    if received(expected + o) = undef then received(expected + o) := i endif
  endchoose
  choose f in Fate do if f = arrives then isAcked(i) := true endif endchoose
endpar
";
