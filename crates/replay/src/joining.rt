//! How changes join what is pending.

ghost use Rattle.std.specs.Prelude.{◌≡◌, ◌≤◌, ◌⊎◌, [], None, IfErr, OnOk, OnErr, length};
ghost use Rattle.report_lines.specs.Sizes.{sizes_by};
ghost use Rattle.settled_changes.specs.Requested.{asked_behind, asked_with, batch_behind, batch_with, changes_in, strict_form};
ghost use Rattle.replay.specs.declared.Act.{Act};
ghost use Rattle.replay.specs.Running.{IsChangeOf, limit_text};
ghost use Rattle.replay.specs.Script.{limit_fault};

use crate::run::Run;
use crate::{ActFault, RunFault};
use report_lines::sizes_by;
use rule_store::{Command, PushFault};
use settled_changes::{Request, Requested, Requests};
use slot_order::MOST_SLOTS;

impl Run {
    // How many changes may wait for a commit.
    fn most_changes(&self) -> u32
        ensures most { result ≡ (sizes_by self.now.large).commands }
        ensures few { result ≤ MOST_SLOTS }
    {
        sizes_by(self.watch.is_large()).commands
    }

    /// A strict change joins the pending batch, or what is asked for beside it.
    pub(crate) fn push(&mut self, command: Command) -> Result<(), ActFault>
        requires change { IsChangeOf self.old.family command }
        requires idle { self.old.manager.held ≡ None }
        ensures pushed { OnOk result (self.new ≡ record self.old {
          pending = batch_with self.old.pending self.old.asked command;
          asked = asked_with self.old.asked command;
        }) }
        ensures limit { limit_text result ≡ limit_fault (sizes_by self.old.large).commands (Act.Command command) (changes_in self.old.pending self.old.asked) (length self.old.probes) }
        ensures unchanged { OnErr result (self.new ≡ self.old) }
        ensures kind { IfErr result (λ fault. (fault ≡ ActFault.BatchFull) ⊎ (fault ≡ ActFault.Stopped RunFault.Memory)) }
    {
        let most = self.most_changes();
        match self.asked.push_within(command, &mut self.pending, most) {
            Ok(()) => Ok(()),
            Err(PushFault::Full) => Err(ActFault::BatchFull),
            Err(PushFault::Memory) => Err(ActFault::Stopped(RunFault::Memory)),
        }
    }

    /// A change that doesn't ask what is there joins what is asked for, with the commands of the batch before it.
    pub(crate) fn ask(&mut self, request: Request) -> Result<(), ActFault>
        requires change { IsChangeOf self.old.family (strict_form request) }
        requires idle { self.old.manager.held ≡ None }
        ensures asked { OnOk result (self.new ≡ record self.old {
          pending = batch_behind self.old.pending self.old.asked;
          asked = asked_behind self.old.pending self.old.asked request;
        }) }
        ensures limit { limit_text result ≡ limit_fault (sizes_by self.old.large).commands (Act.Ask request) (changes_in self.old.pending self.old.asked) (length self.old.probes) }
        ensures unchanged { OnErr result (self.new ≡ self.old) }
        ensures kind { IfErr result (λ fault. (fault ≡ ActFault.BatchFull) ⊎ (fault ≡ ActFault.Stopped RunFault.Memory)) }
    {
        let most = self.most_changes();
        match self
            .asked
            .ask_within(self.alloc, request, &mut self.pending, most)
        {
            Ok(()) => Ok(()),
            Err(PushFault::Full) => Err(ActFault::BatchFull),
            Err(PushFault::Memory) => Err(ActFault::Stopped(RunFault::Memory)),
        }
    }

    /// The changes from here to the commit make the whole new set.
    pub(crate) fn begin_whole(&mut self) -> Result<(), ActFault>
        requires idle { self.old.manager.held ≡ None }
        ensures begun { OnOk result (self.new ≡ record self.old { pending = []; asked = Requested.Whole [] }) }
        ensures limit { limit_text result ≡ limit_fault (sizes_by self.old.large).commands Act.All (changes_in self.old.pending self.old.asked) (length self.old.probes) }
        ensures unchanged { OnErr result (self.new ≡ self.old) }
        ensures kind { IfErr result (λ fault. fault ≡ ActFault.ChangesPending) }
    {
        if self.asked.changes_with(&self.pending) > 0 {
            return Err(ActFault::ChangesPending);
        }
        self.pending.clear();
        self.asked = Requested::Whole(Requests::new(self.alloc));
        Ok(())
    }
}
