//! What the program says of itself.

pub const NAME: &str = "asm-explore";

/// What `--version` prints after the program's name.
pub const VERSION: &str = "1.0.0";

pub const ABOUT: &str = "Looks for faults in the runs of an abstract state machine.";

pub const ALL: &str = "Looks at every run, and writes a shortest script to a fault";

pub const RANDOM: &str = "Looks at random runs, and writes a short script to a fault";

pub const CHOICES: &str = "Shows the choices of one run, as a script that makes it";

pub const CLASH: &str = "Shows the assignments by which one run ends";

pub const SHOW: &str = "Shows one run as a table, above a script that makes it";

pub const COMMAND_FIRST: &str = "the command comes first";

pub const SPEC: &str = "The file that has the specification; - is standard input";

pub const SCRIPT: &str = "Read the choices from this file; - is standard input [without it: none]";

pub const DRAW: &str =
    "Draw the choices by this seed, as run 0 of `random --seed`: 0 to 18446744073709551615";

pub const SCRIPT_AND_DRAW: &str = "the choices can't both be read from a script and be drawn";

pub const ONLY: &str =
    "Show this function, or this location as in `age(2)`; may be repeated [without it: all that change]";

pub const HTML: &str = "Show the run as a page of HTML";

pub const JSON: &str = "Show the run as lines of JSON: one for each row, and one for its end";

pub const PAGE_AND_JSON: &str =
    "the run can't be shown both as a page of HTML and as lines of JSON";

pub const WIDTH_WITHOUT_TABLE: &str =
    "--width is for a table, and a page of HTML and lines of JSON have no width";

pub const ONE_INPUT: &str = "the specification and the script can't both be standard input";

pub const ALWAYS: &str =
    "A condition that must be true in the first state and after each step; may be repeated";

pub const ALWAYS_FILE: &str = "A file that has such a condition; may be repeated";

pub const DEADLOCK_UNLESS: &str =
    "A condition that must be true in each state that no choice of the next step changes";

pub const WITHIN: &str = "Continue no run from a state in which this condition isn't true";

pub const SEED: &str = "Draw by this seed; another one draws other runs: 0 to 18446744073709551615";

pub const DOT: &str = "Write the graph of at most 2000 states to this file, for Graphviz";

pub const DOT_ONLY: &str =
    "Show this function, or this location as in `age(2)`, in the graph; may be repeated [without it: all]";

pub const ONLY_WITHOUT_DOT: &str = "--dot-only is for a graph, and --dot names no file for one";

pub const QUIET: &str =
    "Write a script to a first state that no choice of the next step changes to this file";

pub const ONE_FILE: &str = "the graph and the script can't both be written to one file";

pub const OVER_SPECIFICATION: &str =
    "the graph and the script can't be written to the file of the specification";

pub const OVER_CONDITION: &str =
    "the graph and the script can't be written to the file of a condition";

pub const TRACE: &str = "Show the trace of the run to a fault, before its script";

pub const TABLE: &str = "Show the run to a fault as a table, before its script";

pub const PROGRESS: &str = "Report progress on standard error; the default if that is a terminal";

/// What is below the commands.
pub const AFTER: &str = "\
`asm-explore COMMAND --help` says more of a command. The output is a script, for `asm --script FILE`:
each line is `STEP PATH NUMBER`, or a comment, which begins with `# `.";

/// What is below the options of `choices` and of `clash`.
pub const AFTER_RUN: &str = "\
The output is a script: each line is `STEP PATH NUMBER`, or a comment, which begins with `# `. The
first line says how the run ends:
  limit after step N            all of its N steps were made
  fault in step N: clash ..     step N fails as it does in asm; so do outside and exhausted
  fault after step N: condition K is false
                                after step N the Kth condition isn't true, and each is in the states
                                before; the next comment says why. The run is looked at up to this
                                state. The conditions of --always come before those of --always-file

`choices` then writes a line for each choose that was asked and had candidates, also if the first one
was taken. Before it a comment shows the line and the column of the choose, its variable, and its
candidates in order. Under the script that is written the run is the same. The lines of the given
script that no choose met come last. If the comments make the script longer than 1048576 bytes, they
are left out.

`clash` then writes a line for each assignment whose update is in the set of the step that fails, at
the location at which it fails: line and column, place (its path), location and value, and the names
that are bound there with their values, the innermost first.

Reports have a comment `# asm --steps N --script THIS`, with `--turns M` behind it if M isn't 1000.
Without --steps the run has N steps by the last such line of the script, and M turns, unless --turns
says how many. If there is no such line, both are 1000.

Status:
  0  the run made all its steps; or help or the version was asked for
  1  the run ended early: clash, outside or exhausted; or a condition isn't true
  2  the specification, the script or a condition is refused
  3  out of memory, a file can't be read, or the output can't be written
  4  the command line is wrong
  6  the run made all its steps, and a line of the script met no choose (`choices` alone)";

/// What is below the options of `show`.
pub const AFTER_SHOW: &str = "\
The output is a script: each line is `STEP PATH NUMBER`, or a comment, which begins with `# `. The
first line says how the run ends:
  limit after step N            all of its N steps were made
  fault in step N: clash ..     step N fails as it does in asm; so do outside and exhausted
  fault after step N: condition K is false
                                after step N the Kth condition isn't true; the run is shown up to
                                this state

Then come a call of asm that makes the run, where THIS is a file that has the whole output, and the
table: a row for the first state and one for each step, with what is chosen in it and the values of
the locations, a dot for a value that is as in the row before, and a hyphen for undef. If a step
fails, its row has no values, and below the table stand the assignments by which it does, as `clash`
shows them. Without --only each location is shown that changes in the run, 200 of them at most. The
script has a line for each choice that isn't the first candidate.

With --html the output is a page of HTML in place of the script, and with --json lines of JSON.

Reports have a comment `# asm --steps N --script THIS`, with `--turns M` behind it if M isn't 1000.
Without --steps the run has N steps by the last such line of the script, and M turns, unless --turns
says how many. If there is no such line, both are 1000.

Status:
  0  the run made all its steps; or help or the version was asked for
  1  the run ended early: clash, outside or exhausted; or a condition isn't true
  2  the specification, the script or a condition is refused, or a name of --only is in no location
  3  out of memory, a file can't be read, or the output can't be written
  4  the command line is wrong
  6  the run made all its steps, and a line of the given script met no choose";

/// What is below the options of `random`.
pub const AFTER_RANDOM: &str = "\
A condition COND is a term, as in `--always 'stage(0) = critical or not busy'`, or the name of a
derived function without parameters. If it begins with a minus, write an equals sign before it, as in
`--always='-x < 3'`. A condition whose value is neither true nor false isn't true.

Runs are made until one has a fault. At each choose a candidate is drawn, each as likely as another.
The same command line finds the same on every machine; another --seed draws other runs. Where a step
changes nothing, and a run may not rest, all outcomes of the step are looked at, to see whether that
is a deadlock.

The output is a script: each line is `STEP PATH NUMBER`, or a comment, which begins with `# `. The
first line says what was found:
  no fault in R runs of at most N steps
                                other runs may have one: `asm-explore all` looks at every run
  fault after step N: condition K is false
                                after step N of the run under the script the Kth condition isn't
                                true: it is false, or has another value; the conditions of --always
                                come before those of --always-file; N is 0 for the first state
  fault after step N: deadlock  no choice changes the state after step N, and the condition of
                                --deadlock-unless isn't true in it
  fault in step N: clash ..     step N fails as it does in asm; so do outside and exhausted
If there is a fault, the script leads to it: steps and choices of the drawn run are left out if the
rest has a fault, too. Further comments show the conditions, the faults that were looked for, the
seed, how many runs and steps were made, and, if a fault was found, the number of its run, from 0. The
last comment is a call of asm that makes the run, where THIS is a file that has the whole output. With
--trace the trace of that run follows.

Status:
  0  no fault was found; or help or the version was asked for
  1  a fault was found
  2  the specification or a condition is refused
  3  out of memory, a file can't be read, or the output can't be written
  4  the command line is wrong";

/// What is below the options of `all`.
pub const AFTER_ALL: &str = "\
A condition COND is a term, as in `--always 'stage(0) = critical or not busy'`, or the name of a
derived function without parameters. If it begins with a minus, write an equals sign before it, as in
`--always='-x < 3'`. A condition whose value is neither true nor false isn't true.

The output is a script: each line is `STEP PATH NUMBER`, or a comment, which begins with `# `. The
first line says what was found:
  closed                        no run has a fault, of however many steps
  safe up to N steps            no run of at most N steps has a fault, nor comes to a deadlock
  fault after step N: condition K is false
                                after step N of the run under the script the Kth condition isn't
                                true: it is false, or has another value; the conditions of --always
                                come before those of --always-file; N is 0 for the first state
  fault after step N: deadlock  no choice changes the state after step N, and the condition of
                                --deadlock-unless isn't true in it
  fault in step N: clash ..     step N fails as it does in asm; so do outside and exhausted
  too many states, safe up to N steps
  too many outcomes, safe up to N steps
  too much memory, safe up to N steps
                                the search ended early; no run of at most N steps has a fault, nor comes
                                to a deadlock; if even the first state may be one, no N is named
If there is a fault, the script leads to it, and no run of fewer steps has one. Further comments show
the conditions, the faults that were looked for, how many states were reached, how many steps lead from
one to another, how many steps lead to the farthest state (depth), how many outcomes a step has at most
(widest), and how many states no choice of the next step changes (quiet). With --quiet FILE that line
says, too, that a script is written to the file: `asm --script FILE` comes to such a state by it, and
no run comes to one by fewer steps. The last comment is a call of asm that makes the run, where THIS is
a file that has the whole output. With --trace the trace of that run follows.

Status:
  0  no fault was found; or help or the version was asked for
  1  a fault was found
  2  the specification or a condition is refused
  3  out of memory, a file can't be read, or the output can't be written
  4  the command line is wrong
  5  too many states or outcomes, or too much memory for the search";
