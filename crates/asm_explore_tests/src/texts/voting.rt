//! Nodes that vote for leaders of terms.

/// Three nodes, who ask each other for votes and may crash, but remember their votes.
pub const VOTING: &str = "
CoreASM Raft
init Schedule
universe Node = 1 .. 3
universe Term = 1 .. 4
enum Role = { follower, candidate, leader }
enum Event = { timeout, ask, crash }
function controlled role : Node -> Role initially follower
function controlled term : Node -> NUMBER initially 0
function controlled votedFor : Node -> Node
function controlled hasVote : Node * Node -> BOOLEAN initially false
function controlled leads : Node * Term -> BOOLEAN initially false
function controlled broken
derived isSafe = (forall t in Term holds (forall n in Node holds (forall m in Node holds
  n = m or not (leads(n, t) and leads(m, t)))))

rule Schedule = par
  choose n in Node do
    choose e in Event do par
      if e = timeout and term(n) < 4 and role(n) != leader then Timeout(n) endif
      if e = ask and role(n) = candidate then
        choose m in Node with m != n and not hasVote(n, m) do Ask(n, m) endchoose
      endif
      if e = crash then par role(n) := follower term(n) := term(n) endpar endif
    endpar endchoose
  endchoose
  if not isSafe then par broken := 1 broken := 2 endpar endif
endpar

rule Timeout(n) = par
  role(n) := candidate
  term(n) := term(n) + 1
  votedFor(n) := n
  forall m in Node do hasVote(n, m) := m = n endforall
endpar

rule Ask(n, m) =
  if term(m) < term(n) then par
    term(m) := term(n)
    role(m) := follower
    Grant(n, m)
  endpar else if term(m) = term(n) and (votedFor(m) = undef or votedFor(m) = n) then Grant(n, m)
  endif endif

rule Grant(n, m) = par
  votedFor(m) := n
  hasVote(n, m) := true
  role(n) := leader
  leads(n, term(n)) := true
endpar
";
