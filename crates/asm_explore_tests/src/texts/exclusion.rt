//! Mutual exclusion of two processes.

/// Peterson's algorithm, as in `examples/mutex.asm`.
pub const MUTEX: &str = "
CoreASM Mutex
init Schedule
enum Stage = { resting, raised, waiting, critical }
universe Process = 0 .. 1
function controlled stage : Process -> Stage initially resting
function controlled flag : Process -> BOOLEAN initially false
function controlled turn : -> Process
function controlled broken
derived other(process) = 1 - process
derived mayEnter(process) = not flag(other(process)) or turn = process
derived isSafe = not (stage(0) = critical and stage(1) = critical)

rule Schedule = par
  choose process in Process do Move(process) endchoose
  if not isSafe then par broken := 1 broken := 2 endpar endif
endpar

rule Move(process) = par
  if stage(process) = resting then par
    flag(process) := true
    stage(process) := raised
  endpar endif
  if stage(process) = raised then par
    turn := other(process)
    stage(process) := waiting
  endpar endif
  if stage(process) = waiting and mayEnter(process) then stage(process) := critical endif
  if stage(process) = critical then par
    flag(process) := false
    stage(process) := resting
  endpar endif
endpar
";

/// A flag is tested in one step and raised in another one, as in `examples/mutex_wrong.asm`.
pub const MUTEX_WRONG: &str = "
CoreASM MutexWrong
init Schedule
enum Stage = { resting, tested, critical }
universe Process = 0 .. 1
function controlled stage : Process -> Stage initially resting
function controlled flag : Process -> BOOLEAN initially false
function controlled broken
derived other(process) = 1 - process
derived isSafe = not (stage(0) = critical and stage(1) = critical)

rule Schedule = par
  choose process in Process do Move(process) endchoose
  if not isSafe then par broken := 1 broken := 2 endpar endif
endpar

rule Move(process) = par
  if stage(process) = resting and not flag(other(process)) then stage(process) := tested endif
  if stage(process) = tested then par
    flag(process) := true
    stage(process) := critical
  endpar endif
  if stage(process) = critical then par
    flag(process) := false
    stage(process) := resting
  endpar endif
endpar
";
