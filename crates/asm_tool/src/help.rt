//! What the program says of itself.

/// What `--version` prints after the program's name.
pub const VERSION: &str = "1.0.0";

pub const ABOUT: &str =
    "Runs an abstract state machine and writes the trace of its run to standard output.";

pub const SPEC: &str = "The file that has the specification [without it: standard input]";

pub const SCRIPT: &str = "Read the choices from this file [without it: none]";

/// What is below the options.
pub const AFTER: &str = "\
A specification, for `asm --steps 3 counter.asm`:
  CoreASM Counter
  init Main
  function controlled x initially 0
  rule Main = x := x + 1

Its trace shows each step with its number, the number of its instances of forall, and its updates;
then how the run ended; then the last state:
  step 1 instances 0
  x := 1
  ...
  end limit
  state
  x = 3

A script has a line for each choice: the step, the path of the choose, and a number, as in `3 0.1 2`.
The path is the way from the main rule's body to the choose: the numbers of the parts, from 0. The
body's own path is `-`; the trace shows a path behind the word `place`. The number, modulo the number
of candidates, says which one is taken, from 0. If there is no line, the first candidate is taken. A
line with `*` instead of the step, as in `* 0.1 2`, is for every step that has no line of its own with
this path.

Workers, cut and rounds change the speed alone: the trace is the same for all of them. Workers share
each par and forall that isn't inside another one. One worker starts no thread and cuts nothing.

Status:
  0  all steps were made
  1  the run ended early: `end clash`, `end outside` or `end exhausted` in the trace says how
  2  the specification or the script is refused: `read N at A`, `check N at A` or `script N line L`,
     where N is the number in docs/REFUSALS.md, A the byte in the text, from 0, and L the line
  3  `memory`: out of memory; `file`: a file can't be read; `write`: the trace can't be written
  4  the command line is wrong, or help or the version was asked for";
