//! A stack of cells that two threads share.

/// A thread takes the top for the one that it saw if it is the same cell again.
pub const STACK_WRONG: &str = "
CoreASM StackAba
init Schedule
universe Cell = 1 .. 3
enum Thread = { a, b }
enum Place = { inStack, heldByA, heldByB }
enum Stage = { idle, popping }
enum Act = { pop, push }
function controlled top : -> Cell initially 1
function controlled next : Cell -> Cell initially { (1) -> 2, (2) -> 3, (3) -> undef }
function controlled place : Cell -> Place initially inStack
function controlled stage : Thread -> Stage initially idle
function controlled seenTop : Thread -> Cell
function controlled seenNext : Thread -> Cell
function controlled broken
derived mine(t, c) = t = a and place(c) = heldByA or t = b and place(c) = heldByB
derived isSafe = top = undef or place(top) = inStack

rule Schedule = par
  choose t in Thread do
    if stage(t) = popping then Exchange(t)
    else choose act in Act do if act = pop then Read(t) else Push(t) endif endchoose endif
  endchoose
  if not isSafe then par broken := 1 broken := 2 endpar endif
endpar

rule Read(t) = if top != undef then par
  seenTop(t) := top
  seenNext(t) := next(top)
  stage(t) := popping
endpar endif

rule Exchange(t) = par
  stage(t) := idle
  if top = seenTop(t) then par
    top := seenNext(t)
    if t = a then place(seenTop(t)) := heldByA else place(seenTop(t)) := heldByB endif
  endpar endif
endpar

rule Push(t) = choose c in Cell with mine(t, c) do par
  next(c) := top
  top := c
  place(c) := inStack
endpar endchoose
";
