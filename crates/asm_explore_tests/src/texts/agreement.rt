//! Processes that come to the same decision.

/// A commit in two phases, as in `examples/commit.asm`.
pub const COMMIT: &str = "
CoreASM Commit
init Step
enum Agent = { coordinator, ann, bob, cem }
enum Phase = { start, waiting, committed, aborted, idle, ready, crashed }
enum Vote = { yes, no, crash }
enum Message = { prepare, commit, abort }
function controlled phase : Agent -> Phase initially {
  (coordinator) -> start, (ann) -> idle, (bob) -> idle, (cem) -> idle }
function controlled inbox : Agent -> Message
function controlled vote : Agent -> Vote
function controlled patience : -> NUMBER initially 3
function controlled broken
derived isParticipant(a) = a != coordinator
derived allYes = (forall a in Agent holds a = coordinator or vote(a) = yes)
derived anyNo = (exists a in Agent with vote(a) = no)
derived anyIn(p) = (exists a in Agent with phase(a) = p)
derived isSafe = not (anyIn(committed) and anyIn(aborted))

rule Step = par
  if not isSafe then par broken := 1 broken := 2 endpar endif
  choose a in Agent with phase(a) != crashed do
    if a = coordinator then Coordinate else Participate(a) endif
  endchoose
endpar

rule Coordinate = par
  if phase(coordinator) = start then par
    Send(prepare)
    phase(coordinator) := waiting
  endpar endif
  if phase(coordinator) = waiting then
    if allYes then par phase(coordinator) := committed Send(commit) endpar
    else if anyNo or patience = 0 then par phase(coordinator) := aborted Send(abort) endpar
    else patience := patience - 1 endif endif
  endif
endpar

rule Send(m) = forall a in Agent with isParticipant(a) do inbox(a) := m endforall

rule Participate(a) = par
  if phase(a) = idle and inbox(a) = prepare then choose v in Vote do
    if v = crash then phase(a) := crashed else par
      vote(a) := v
      if v = yes then phase(a) := ready else phase(a) := aborted endif
    endpar endif
  endchoose endif
  if phase(a) = ready and inbox(a) = commit then phase(a) := committed endif
  if phase(a) = ready and inbox(a) = abort then phase(a) := aborted endif
endpar
";

/// The election of a leader on a ring, as in `examples/election.asm`.
pub const ELECTION: &str = "
CoreASM Election
init Elect
universe Process = 0 .. 5
function static number : Process -> NUMBER initially {
  (0) -> 12, (1) -> 31, (2) -> 7, (3) -> 45, (4) -> 20, (5) -> 18 }
function controlled greatest : Process -> NUMBER
function controlled leader : -> Process
derived before(process) = (process + 5) mod 6

rule Elect = if leader = undef then forall process in Process do
  Listen(process, greatest(before(process)))
endforall endif

rule Listen(process, heard) = par
  if greatest(process) = undef then greatest(process) := number(process) endif
  if heard > greatest(process) then greatest(process) := heard endif
  if heard = number(process) then leader := process endif
endpar
";
