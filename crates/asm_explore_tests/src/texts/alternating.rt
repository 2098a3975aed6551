//! The alternating bit protocol.

/// As in `examples/alternating.asm`.
pub const ALTERNATING: &str = "
CoreASM Alternating
init Step
enum Agent = { sender, receiver }
enum Fate = { arrives, isLost }
universe Bit = 0 .. 1
universe Index = 1 .. 4
function static item : Index -> NUMBER initially { (1) -> 17, (2) -> 4, (3) -> 42, (4) -> 8 }
function controlled received : Index -> NUMBER
function controlled next : -> NUMBER initially 1
function controlled count : -> NUMBER initially 1
function controlled sendBit : -> Bit initially 0
function controlled expectBit : -> Bit initially 0
function controlled data : -> NUMBER
function controlled dataBit : -> Bit
function controlled ack : -> Bit
function controlled broken
derived isSafe = (forall i in Index holds received(i) = undef or received(i) = item(i))

rule Step = par
  choose a in Agent do if a = sender then Send else Receive endif endchoose
  if not isSafe then par broken := 1 broken := 2 endpar endif
endpar

rule Send = seq
  if ack = sendBit then par next := next + 1 sendBit := 1 - sendBit endpar endif
  ack := undef
  if next <= 4 then choose f in Fate do
    if f = arrives then par data := item(next) dataBit := sendBit endpar endif
  endchoose endif
endseq

rule Receive = if dataBit != undef then par
  if dataBit = expectBit then par
    received(count) := data
    count := count + 1
    expectBit := 1 - expectBit
  endpar endif
  data := undef
  dataBit := undef
  choose f in Fate do if f = arrives then ack := dataBit endif endchoose
endpar endif
";

/// The receiver doesn't compare bits, as in `examples/alternating_wrong.asm`.
pub const ALTERNATING_WRONG: &str = "
CoreASM AlternatingWrong
init Step
enum Agent = { sender, receiver }
enum Fate = { arrives, isLost }
universe Bit = 0 .. 1
universe Index = 1 .. 4
function static item : Index -> NUMBER initially { (1) -> 17, (2) -> 4, (3) -> 42, (4) -> 8 }
function controlled received : Index -> NUMBER
function controlled next : -> NUMBER initially 1
function controlled count : -> NUMBER initially 1
function controlled sendBit : -> Bit initially 0
function controlled expectBit : -> Bit initially 0
function controlled data : -> NUMBER
function controlled dataBit : -> Bit
function controlled ack : -> Bit
function controlled broken
derived isSafe = (forall i in Index holds received(i) = undef or received(i) = item(i))

rule Step = par
  choose a in Agent do if a = sender then Send else Receive endif endchoose
  if not isSafe then par broken := 1 broken := 2 endpar endif
endpar

rule Send = seq
  if ack = sendBit then par next := next + 1 sendBit := 1 - sendBit endpar endif
  ack := undef
  if next <= 4 then choose f in Fate do
    if f = arrives then par data := item(next) dataBit := sendBit endpar endif
  endchoose endif
endseq

rule Receive = if dataBit != undef then par
  received(count) := data
  count := count + 1
  expectBit := 1 - expectBit
  data := undef
  dataBit := undef
  choose f in Fate do if f = arrives then ack := dataBit endif endchoose
endpar endif
";
