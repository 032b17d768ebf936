//! What is known of a script between two of its lines, and what one act more does to it.

ghost use Rattle.std.specs.Prelude.{◌≡◌, ◌≤◌, [], false, Ok, Some, OnOk};
ghost use Rattle.rule_model.specs.declared.Key.{Key};
ghost use Rattle.script_lines.specs.Lines.{numbered};
ghost use Rattle.settled_changes.specs.Requested.{changes_in};
ghost use Rattle.tcam_cli.specs.Readings.{reading_by, told_by};
ghost use Rattle.explain.specs.Explained.{setting_for};
ghost use Rattle.explain.specs.Steps.{behind_act_in, behind_fault, behind_line, behind_line_by, faulted, is_behind_fault, is_known};

use crate::changes::Seen;
use replay::{Act, Family};
use report_lines::sizes_by;
use rule_model::Rank;
use rule_store::{Batch, Command, Mode, Store};
use script_faults::{Grammar, tell_trouble, trouble_of};
use script_lines::Line;
use settled_changes::{Request, Requested, Requests};
use std::alloc::{AllocError, Global};
use std::collections::BTreeMap;
use std::marker::Model;
use tcam_cli::{read_family_act, told_act};

/// The most probes of a script.
const PROBES: u32 = 16;

/// What a script is explained for: of which family it is, how many slots are in use, 1 to 4,096 or with the large sizes to
/// 1,048,576, how port ranges are tested, whether the report is in JSON, whether removals of commits go first where they may,
/// and whether it has the large sizes.
#[derive(Clone, Copy, Debug, PartialEq, Eq)]
pub struct Wanted {
    pub family: Family,
    pub slots: u32,
    pub mode: Mode,
    pub json: bool,
    pub parts: bool,
    pub large: bool,
}

/// How far the refusals of a script are foretold.
#[derive(Clone, Copy, Debug, PartialEq, Eq)]
pub(crate) enum Foretold {
    /// Each line so far is right, and the rule lists tell the set.
    Known,
    /// Each line so far is right, and behind this one the set isn't known: it is a trial that may be taken back.
    BehindTrial { line: u32 },
    /// This line is the first at fault.
    BehindFault { line: u32 },
}

/// What is known between two lines: the set, the pending changes with the line of each, the line of the last command that was
/// carried out on each rule, how many probes there were, and what was found.
#[derive(Drop)]
pub(crate) struct Explainer {
    pub(crate) alloc: Global,
    pub(crate) wanted: Wanted,
    pub(crate) rules: Store,
    pub(crate) batch: Batch,
    /// What is asked for beside strict commands alone.
    pub(crate) asked: Requested,
    /// The line of each pending change, in their order.
    pub(crate) lines: Vec<u32>,
    /// The line that began the last whole new set.
    pub(crate) whole_line: u32,
    pub(crate) seen: BTreeMap<Rank, Seen>,
    probes: u32,
    pub(crate) foretold: Foretold,
    /// Whether some commit came behind the line from which on none is foretold.
    pub(crate) unjudged: bool,
    /// Whether something is wrong.
    pub(crate) wrong: bool,
}

impl Model for Explainer {
    ghost use Rattle.std.specs.Prelude.{◌≡◌, ◌≤◌, vec_len};
    ghost use Rattle.replay.specs.Script.{most_probes};
    ghost use Rattle.settled_changes.specs.Requested.{changes_in};
    ghost use Rattle.explain.specs.Rounds.{Explained};

    ghost Value = { Explained };

    ghost view = { λ e. record { wanted = e.wanted; rules = e.rules.rules; batch = e.batch; asked = e.asked; probes = e.probes; foretold = e.foretold; wrong = e.wrong } };

    ghost invariant = { λ e. (vec_len e.lines ≡ changes_in e.batch e.asked) × (e.probes ≤ most_probes) };
}

/// Whether an act is judged by the rule lists.
fn is_judged(act: &Act) -> bool {
    match act {
        Act::Commit | Act::Trial(_) | Act::Crash(_) => true,
        Act::Command(_) | Act::Ask(_) | Act::All | Act::Probe(_) | Act::Packet(_) => false,
    }
}

/// The kind of script that a family has.
fn grammar_of(family: Family) -> Grammar {
    match family {
        Family::Route | Family::Route6 => Grammar::Routes(family.version()),
        Family::Acl | Family::Acl6 => Grammar::List(family.version()),
    }
}

/// Whether the rule lists tell the set.
pub(crate) fn is_known(foretold: Foretold) -> bool
    ensures { result ≡ is_known foretold }
{
    match foretold {
        Foretold::Known => true,
        Foretold::BehindTrial { .. } => false,
        Foretold::BehindFault { .. } => false,
    }
}

/// Whether a line is at fault.
fn is_behind_fault(foretold: Foretold) -> bool
    ensures { result ≡ is_behind_fault foretold }
{
    match foretold {
        Foretold::Known => false,
        Foretold::BehindTrial { .. } => false,
        Foretold::BehindFault { .. } => true,
    }
}

/// How far refusals are foretold behind a line at fault: the first one stays the first.
fn behind_fault(number: u32, foretold: Foretold) -> Foretold
    ensures { result ≡ behind_fault number foretold }
{
    match foretold {
        Foretold::Known => Foretold::BehindFault { line: number },
        Foretold::BehindTrial { .. } => Foretold::BehindFault { line: number },
        Foretold::BehindFault { line } => Foretold::BehindFault { line },
    }
}

/// What is told of a change for which a batch has no room.
fn full_batch(large: bool) -> &'static str {
    if large {
        "1048576 changes are pending, and a batch holds no more: commit"
    } else {
        "4096 changes are pending, and a batch holds no more: commit"
    }
}

impl Explainer {
    /// Nothing is read yet. It takes no memory.
    pub(crate) fn new(alloc: Global, wanted: Wanted) -> Explainer
        ensures { result ≡ record { wanted = wanted; rules = []; batch = []; asked = Requested.Nothing; probes = 0; foretold = Foretold.Known; wrong = false } }
    {
        Explainer {
            alloc,
            wanted,
            rules: Store::new(alloc),
            batch: Batch::new(alloc),
            asked: Requested::Nothing,
            lines: Vec::new(alloc),
            whole_line: 0,
            seen: BTreeMap::new(alloc),
            probes: 0,
            foretold: Foretold::Known,
            unjudged: false,
            wrong: false,
        }
    }

    /// Takes the next line, and answers what is told of it: nothing, or sentences, each with its line feed.
    pub(crate) fn take(&mut self, line: &Line) -> Result<String, AllocError>
        requires { line.now.len ≤ 512 }
        ensures { OnOk result (self.new ≡ behind_line line.now.number (reading_by (setting_for self.old.wanted) (numbered line.now).text) self.old) }
    {
        let mut text = String::new(self.alloc);
        self.take_line(line, &mut text)?;
        Ok(text)
    }

    /// Takes the next line, and writes what is told of it behind a text.
    fn take_line(&mut self, line: &Line, text: &mut String) -> Result<(), AllocError>
        requires { line.now.len ≤ 512 }
        ensures { OnOk result (self.new ≡ behind_line line.now.number (reading_by (setting_for self.old.wanted) (numbered line.now).text) self.old) }
    {
        match read_family_act(self.wanted.family, line) {
            Ok(None) => Ok(()),
            Ok(Some(act)) => self.take_told(&act, line.number, text),
            Err(fault) => self.line_fault(line, fault, text),
        }
    }

    /// Takes the act of a line: where the report is in JSON a trial and a crash are faults.
    fn take_told(&mut self, act: &Act, number: u32, text: &mut String) -> Result<(), AllocError>
        ensures { OnOk result (self.new ≡ behind_line number (told_by self.old.wanted.json act.now) self.old) }
    {
        match told_act(self.wanted.json, *act) {
            Ok(_) => self.take_act(act, number, text),
            Err(_) => self.fault(
                number,
                "a report in JSON has no trials and no crashes",
                text,
            ),
        }
    }

    /// Tells of a line that is no command, with its fault where nothing more is known.
    fn line_fault(&mut self, line: &Line, fault: &str, text: &mut String) -> Result<(), AllocError>
        requires { line.now.len ≤ 512 }
        ensures { OnOk result (self.new ≡ faulted line.now.number self.old.foretold self.old) }
    {
        let grammar = grammar_of(self.wanted.family);
        let number = line.number;
        self.stop_at(number);
        match trouble_of(grammar, line) {
            None => writeln!(text, "line {number}: {fault}"),
            Some(trouble) => {
                write!(text, "line {number}, ")?;
                tell_trouble(text, grammar, line, &trouble)?;
                text.push_str("\n")
            }
        }
    }

    /// Tells of a line at fault by one sentence.
    pub(crate) fn fault(
        &mut self,
        number: u32,
        why: &str,
        text: &mut String,
    ) -> Result<(), AllocError>
        ensures { OnOk result (self.new ≡ faulted number self.old.foretold self.old) }
    {
        self.stop_at(number);
        writeln!(text, "line {number}: {why}")
    }

    /// A line is at fault: no refusal is foretold behind the first one.
    fn stop_at(&mut self, number: u32)
        ensures { self.new ≡ faulted number self.old.foretold self.old }
    {
        self.wrong = true;
        self.unjudged = self.unjudged && is_behind_fault(self.foretold);
        self.foretold = behind_fault(number, self.foretold);
    }

    /// Takes the act of a line. Behind a line at fault there is nothing to take.
    fn take_act(&mut self, act: &Act, number: u32, text: &mut String) -> Result<(), AllocError>
        ensures { OnOk result (self.new ≡ behind_line_by self.old.foretold number (Ok (Some act.now)) self.old) }
    {
        if is_behind_fault(self.foretold) {
            self.unjudged = self.unjudged || is_judged(act);
            return Ok(());
        }
        self.act(act, number, text)
    }

    /// Takes the act of a line, where none before it is at fault.
    fn act(&mut self, act: &Act, number: u32, text: &mut String) -> Result<(), AllocError>
        ensures { OnOk result (self.new ≡ behind_act_in self.old.foretold number act.now self.old) }
    {
        match act {
            Act::Command(command) => self.change(*command, number, text),
            Act::Ask(request) => self.ask(*request, number, text),
            Act::All => self.begin_whole(number, text),
            Act::Probe(_) => self.probe(number, text),
            Act::Packet(_) => Ok(()),
            Act::Commit => self.commit(number, text),
            Act::Crash(_) => self.crash(number, text),
            Act::Trial(_) => self.try_commit(number, text),
        }
    }

    /// A strict change joins the pending ones, or finds no room.
    fn change(&mut self, command: Command, number: u32, text: &mut String) -> Result<(), AllocError>
        ensures { OnOk result (self.new ≡ behind_act_in self.old.foretold number (Act.Command command) self.old) }
    {
        let most = sizes_by(self.wanted.large).commands;
        if self.pending() >= most {
            let why = full_batch(self.wanted.large);
            return self.fault(number, why, text);
        }
        self.lines.reserve(1)?;
        match self.asked.push_within(command, &mut self.batch, most) {
            Ok(()) => {
                self.lines.push_reserved(number);
                Ok(())
            }
            Err(_) => Err(AllocError),
        }
    }

    /// A change that doesn't ask what is there joins the pending ones, or finds no room.
    fn ask(&mut self, request: Request, number: u32, text: &mut String) -> Result<(), AllocError>
        ensures { OnOk result (self.new ≡ behind_act_in self.old.foretold number (Act.Ask request) self.old) }
    {
        let most = sizes_by(self.wanted.large).commands;
        if self.pending() >= most {
            let why = full_batch(self.wanted.large);
            return self.fault(number, why, text);
        }
        self.lines.reserve(1)?;
        match self
            .asked
            .ask_within(self.alloc, request, &mut self.batch, most)
        {
            Ok(()) => {
                self.lines.push_reserved(number);
                Ok(())
            }
            Err(_) => Err(AllocError),
        }
    }

    /// The changes from here to the commit make the whole new set, unless some are pending already.
    fn begin_whole(&mut self, number: u32, text: &mut String) -> Result<(), AllocError>
        ensures { OnOk result (self.new ≡ behind_act_in self.old.foretold number Act.All self.old) }
    {
        if self.pending() > 0 {
            let why = "changes are pending, and all begins a whole new set: commit";
            return self.fault(number, why, text);
        }
        self.clear();
        self.asked = Requested::Whole(Requests::new(self.alloc));
        self.whole_line = number;
        Ok(())
    }

    /// A probe more, or one too many.
    fn probe(&mut self, number: u32, text: &mut String) -> Result<(), AllocError>
        ensures { (key : Key) → OnOk result (self.new ≡ behind_act_in self.old.foretold number (Act.Probe key) self.old) }
    {
        if self.probes == PROBES {
            let why = "16 probes stand before it, and a script has no more";
            return self.fault(number, why, text);
        }
        self.probes += 1;
        Ok(())
    }

    /// How many changes are pending.
    pub(crate) fn pending(&self) -> u32
        ensures { result ≡ changes_in self.now.batch self.now.asked }
    {
        self.asked.changes_with(&self.batch)
    }

    /// What is pending goes.
    pub(crate) fn clear(&mut self)
        ensures { self.new ≡ record self.old { batch = []; asked = Requested.Nothing } }
    {
        self.asked = Requested::Nothing;
        self.batch.clear();
        self.lines.clear();
    }
}
