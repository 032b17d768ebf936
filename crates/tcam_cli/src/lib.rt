//! The library of the program `tcam`: it reads a script of changes to routes or to an access list from a source, or
//! makes one, carries it out over a device, and writes the report to a sink; or it checks a trace of device writes.
//!
//! # The one hard idea
//! The promise is a clause of one function, [`run`], over any source, sink and device. Standard input foretells
//! nothing, and standard output doesn't say what became of a failed write; so the promise is said by what the source
//! gave and the sink accepted, for every rest that may come behind (`specs/Given`).
//!
//! # How it stands
//! `command_line` says what `clap` is to take and what its answer asks for, `own_texts` what the program says about
//! itself; `top` is the loop of lines, acts and the last line, and that of made commands; `traces` prints what is told of
//! a trace. How a run may end is said by `script_runs` over any kind of acts, and `run_kind` of `specs/Headline` says at
//! which step it is ours.
//!
//! # What it cost
//! Lines are carried out before the next read, so a source that gives one line a read is read once a line. A device
//! write that fails is tried three times more, at once, before the run ends.
//!
//! # What isn't promised
//! Speed, and that memory is there.
//!
//! # Decided
//! - **Which trials are taken back rests on the number of their writes**, which the placement fixes and no rule list
//!   tells. So the sets that a script leads through and the status that the rule lists decide are functions of one
//!   thing more, a list that says of each accepted trial whether it is taken back (`judgements`, of which `sets_through`
//!   and `any_refused` are read; `decided`): `hitless` and `causes` say that there is such a list, and `carried_out` when each is (`Tries`). In a
//!   script without trials nothing is asked of the list.
//! - **What packets see is stated once above the run's steps, in rule sets alone** (`AllTheWay`): the sets that a
//!   script leads through, and after each device write the answer of one of them or of the next, in order. Each is shown
//!   whole where it is come to, but for a trial's that is taken back, which the writes may never show whole (`Led` tells
//!   them apart). It follows from `IsCarriedOut`, and stands as a clause of `run` so that no reader has to do the
//!   induction: without this, a journal that makes two commits by the last write alone would do. A run that ends
//!   for want of memory, but at a crash, or by a failed read leaves no commit half made; a failed device write may, and
//!   so may a failed line of a write.
//! - **Lines are carried out before the next read** (`in_time`). Sources and sinks have histories of their own, so no
//!   clause sees the order of their calls. But a write may always fail, which ends the run: so at its end, whatever the
//!   status, what was accepted begins with the report of all lines that were whole before the last read, and none of
//!   them was at fault. A body that reads ahead, or on after a fault, breaks this at a sink that fails. Want of memory
//!   shows in neither journal nor report, since a change has no effects: so where it ends the run, the acts before the
//!   one that wanted memory begin with those of these lines (`WantsInTime`), and where it came before the first act,
//!   nothing was read. No piece before the last is an end (`open_end`), so one empty read is enough. To read ahead over
//!   lines that can't fail, write or print (blank ones, comments, probes for which there is room) isn't refused.
//! - **A job may be made commands** (`Makes` of `Job`; `made_script`), beside a text and a script of the source: a
//!   script like any other, of which no line is read and none is at fault. So each clause of `run` says of it what it
//!   says of a script, by the same definitions, and that nothing is taken of the source; a run of its own would have
//!   needed its own outcomes, and two promises to compare. What differs is said where it differs: no read of it fails
//!   (`MatchesMade`), and words alone decide how it ends, also over a source that tells nothing (`decision`). Its acts
//!   have the line number 0, which no line has. That there is room for each change is proved from the size of the
//!   batches (`AreBatches`). The price is a case more in each definition and lemma over jobs.
//! - **The check of a trace is a job beside the others** (`Verifies` of `Job`), with the statuses 0, 1 and 2 of its three
//!   answers. It has no setting and no acts, so the definitions of a run's outcome don't speak of it: what is told of the
//!   text is `trace_check`'s, its line is printed or cut as a text of the product is (`IsPrinted`), and that no input is
//!   taken in vain is said by what the bytes before a read leave open (`LeavesOpen` of `trace_verify`). The status is no
//!   function of the text (`IsDecided`), since an orderly trace is said by relations; `answers_are_one` of `trace_check` says
//!   that there is only one.
//! - **`--help`, `-h` and `--version` print the product's own text** to the report's sink with status 0, the one answer
//!   beside the table of statuses. Where `clap` finds another fault first, as in `tcam frob --help`, the words are no
//!   command line. There is no subcommand `help`.
//! - **Each subcommand's `--help` lists what it takes** (`HelpOn`, `Asked::Help`, `Topic`). `clap`'s error has a kind
//!   and names no subcommand, so the word behind the program's name says whose help it is (`topic_in`), which is
//!   enough: `tcam` itself has no option that may stand before a subcommand, but those that print a text. The contract
//!   says whose help a text is, by the words that it begins with (`IsOwnText`), and of the version all of it; what else a
//!   help says no clause promises, and who reads the clauses has no text to read twice. `--trace` is said to have a line
//!   for each write and each drain also in the helps of routes, of which no commit drains: one line serves all.
//! - **`--placement` and `--ranges` are parts of a run's setting** (`script_setting`, `Asked::Script`, `placement_in`,
//!   `mode_in`), so that the clauses of `run` say of each commit that it is placed as the words ask (`AreCommitWrites.placed`):
//!   a body that runs the other placement breaks `given` and `carried_out`. `middle` is the default, since reports of
//!   before stay as they are. The headline names neither, and holds for all. A script of routes has no `--ranges`,
//!   since its rules take any port: its mode is covers. `clap` takes any word there, and the program says which ones
//!   are names: a list of names in `clap`'s declaration is a reference, and no definition can name the place in memory
//!   that it refers to. The price is one corner: behind a wrong word of these, `--help` still prints the help, where
//!   behind a wrong number of `--slots` the words are no command line.
//! - **With `--json` a line of a trial or a crash is at fault** (`reading_by`), behind any fault of its words: the reader
//!   of the family reads it first. A report in JSON is a trace of the family's version of IP.
//! - **`clap` takes a plus and leading zeros before a number of the command line** (`--slots +8`), and so do we;
//!   numbers of scripts have neither. **Each number is read again, in its range** (`number_of`), where `clap` has
//!   tested it. That the second test never fails where the first passed is proved (`tested`), over any argument that
//!   keeps a property of the rows (`Keeps`), so one more number is a few lines.
#![tactic(auto)]

mod command_line;
mod in_two;
mod own_texts;
mod top;
mod traces;

pub use command_line::{Asked, read_words, slots_wanted};
pub use own_texts::Topic;
pub use script_runs::Status;
pub use top::{read_family_act, run, told_act};
