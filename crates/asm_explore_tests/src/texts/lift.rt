//! A lift.

/// Somebody may call it or press a button, and then it moves, between three floors.
pub const LIFT: &str = "
CoreASM Lift
init Step
enum Direction = { up, down }
enum Mode = { halting, moving }
enum Action = { nothing, callsUp, callsDown, presses }
universe Floor = 1 .. 3
function static opposite : Direction -> Direction initially { (up) -> down, (down) -> up }
function static delta : Direction -> NUMBER initially { (up) -> 1, (down) -> -1 }
function controlled mode : -> Mode initially halting
function controlled direction : -> Direction initially up
function controlled floor : -> Floor initially 1
function controlled called : Floor * Direction -> BOOLEAN initially false
function controlled pressed : Floor -> BOOLEAN initially false
derived hasToVisit(f) = pressed(f) or (exists d in Direction with called(f, d))
derived attracted(d) =
  (exists f in Floor with hasToVisit(f) and (d = up and f > floor or d = down and f < floor))
derived canStop =
  pressed(floor) or called(floor, direction) or hasToVisit(floor) and not attracted(direction)

rule Step = seq Act Move endseq

rule Act = choose action in Action do choose f in Floor do par
  if action = callsUp and f != 3 then called(f, up) := true endif
  if action = callsDown and f != 1 then called(f, down) := true endif
  if action = presses then pressed(f) := true endif
endpar endchoose endchoose

rule Move =
  if mode = halting and pressed(floor) then pressed(floor) := false
  else if mode = halting and attracted(direction) then par
    mode := moving
    floor := floor + delta(direction)
  endpar
  else if mode = halting and canChange then par
    direction := opposite(direction)
    called(floor, opposite(direction)) := false
  endpar
  else if mode = moving and canStop then par
    mode := halting
    Cancel
  endpar
  else if mode = moving and attracted(direction) then floor := floor + delta(direction)
  endif endif endif endif endif
derived canChange = attracted(opposite(direction)) or called(floor, opposite(direction))

rule Cancel = par
  pressed(floor) := false
  called(floor, direction) := false
endpar
";
