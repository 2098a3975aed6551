//! The detection that all machines of a ring rest.

/// As in `examples/termination.asm`.
pub const TERMINATION: &str = "
CoreASM Termination
init Move
enum Colour = { white, black }
enum Action = { passToken, send, rest }
universe Machine = 0 .. 3
function controlled isActive : Machine -> BOOLEAN initially true
function controlled colour : Machine -> Colour initially white
function controlled token : -> Machine initially 3
function controlled tokenColour : -> Colour initially black
function controlled detected : -> BOOLEAN initially false
function controlled broken
derived mayPass(m) = token = m and (not isActive(m) or tokenColour = black)
derived canDo(m, a) = a = passToken and mayPass(m) or a != passToken and isActive(m)
derived isSafe = not detected or (forall m in Machine holds not isActive(m))

rule Move = par
  if not detected then choose m in Machine do
    choose a in Action with canDo(m, a) do Do(m, a) endchoose
  endchoose endif
  if not isSafe then par broken := 1 broken := 2 endpar endif
endpar

rule Do(m, a) = par
  if a = rest then isActive(m) := false endif
  if a = send then choose n in Machine with n != m do par
    isActive(n) := true
    if n > m then colour(m) := black endif
  endpar endchoose endif
  if a = passToken then Pass(m) endif
endpar

rule Pass(m) =
  if m = 0 then
    if tokenColour = white and colour(0) = white and not isActive(0) then detected := true
    else par token := 3 tokenColour := white colour(0) := white endpar endif
  else par
    token := m - 1
    if colour(m) = black then tokenColour := black endif
    colour(m) := white
  endpar endif
";

/// A message behind the token leaves no mark, as in `examples/termination_wrong.asm`.
pub const TERMINATION_WRONG: &str = "
CoreASM TerminationWrong
init Move
enum Colour = { white, black }
enum Action = { passToken, send, rest }
universe Machine = 0 .. 3
function controlled isActive : Machine -> BOOLEAN initially true
function controlled colour : Machine -> Colour initially white
function controlled token : -> Machine initially 3
function controlled tokenColour : -> Colour initially black
function controlled detected : -> BOOLEAN initially false
function controlled broken
derived mayPass(m) = token = m and (not isActive(m) or tokenColour = black)
derived canDo(m, a) = a = passToken and mayPass(m) or a != passToken and isActive(m)
derived isSafe = not detected or (forall m in Machine holds not isActive(m))

rule Move = par
  if not detected then choose m in Machine do
    choose a in Action with canDo(m, a) do Do(m, a) endchoose
  endchoose endif
  if not isSafe then par broken := 1 broken := 2 endpar endif
endpar

rule Do(m, a) = par
  if a = rest then isActive(m) := false endif
  if a = send then choose n in Machine with n != m do par
    isActive(n) := true
    if n < m then colour(m) := black endif
  endpar endchoose endif
  if a = passToken then Pass(m) endif
endpar

rule Pass(m) =
  if m = 0 then
    if tokenColour = white and colour(0) = white and not isActive(0) then detected := true
    else par token := 3 tokenColour := white colour(0) := white endpar endif
  else par
    token := m - 1
    if colour(m) = black then tokenColour := black endif
    colour(m) := white
  endpar endif
";
