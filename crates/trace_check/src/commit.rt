//! A commit under way: which pieces it is about, and how far it came.

ghost use Rattle.std.specs.Prelude.{◌≡◌, ◌↔◌, ◌⊎◌, ◌<◌, ◌^◌, ℕ, IfOk, IfErr, IsTrue, IsFalse, IfSome, IsNone, Some, None, List, Contains, length, option_map, option_copied};
ghost use Rattle.slot_order.specs.Order.{slot};
ghost use Rattle.rule_model.specs.declared.Rule as model;
ghost use Rattle.rule_model.specs.Entry.{RankedPiece, entry_for};
ghost use Rattle.rule_store.specs.declared.Mode as modes;
ghost use Rattle.rule_store.specs.declared.Command as commands;
ghost use Rattle.rule_store.specs.Verdict as verdicts;
ghost use Rattle.rule_store.specs.Verdict.{Accepted};
ghost use Rattle.tcam_device.specs.declared.Write.TheVariants as writes;
ghost use Rattle.tcam_device.specs.State.{apply, blank};
ghost use Rattle.commit_writes.specs.Bits as bitsets;
ghost use Rattle.commit_writes.specs.Actions.{have_bits};
ghost use Rattle.commit_writes.specs.Bits.{bits_left, bits_with, new_bits, no_bits};
ghost use Rattle.commit_writes.specs.Changes.{coded_by, during_of};
ghost use Rattle.commit_writes.specs.Serving.{AreTranslated, HaveFreeBits};
ghost use Rattle.range_bits.specs.FieldMap.{IsFieldMap};
ghost use Rattle.readback.specs.Fault.{AreSetBits};
ghost use Rattle.readback.specs.Progress.{AreParted, IsOutOfTurn};
ghost use Rattle.readback.specs.Stage.{IsStage};
ghost use Rattle.readback.specs.Tasks.{known_pieces, tasks_of};
ghost use Rattle.trace_check.specs.Behind.{entries_in};
ghost use Rattle.trace_check.specs.Coming.{AreAllPlaced, ComesRight, ComesWrong, FindsRules, IsFamiliar, MayLeave};
ghost use Rattle.trace_check.specs.Kept.{IsCommitOf, IsKeptRight, IsRefusal, IsJustBegun, MayJudge, pieces_kept, device_state};
ghost use Rattle.trace_check.specs.Local.{HoldsPiece};

use crate::CheckFault;
use crate::known::{Known, any_matches, changing, find, find_in_set, same_match, with_entries};
use crate::pairs::pair_behind;
use crate::placed::Placed;
use crate::slots::{Pair, copy_of, is_before_higher, is_behind_lower, standing};
use crate::tasks::{Progress, TaskKind, count};
use crate::words::is_right_table;
use call_history::History;
use commit_writes::{FieldBits, Ranked, batch_pieces};
use readback::verdict;
use rule_model::{Entry, Field};
use rule_store::{Batch, Mode, Store};
use std::alloc::{AllocError, Global};

/// What a device holds by the writes of a trace: the piece of each slot, and the words of both tables.
#[derive(Drop)]
pub(crate) struct Device {
    pub(crate) places: Placed,
    pub(crate) src: Vec<u16>,
    pub(crate) dst: Vec<u16>,
}

impl Device {
    /// A word of a table is written.
    pub(crate) fn write_word(&mut self, field: Field, port: u16, word: u16)
        requires src { length self.old.src.items ≡ 2 ^ 16 }
        requires dst { length self.old.dst.items ≡ 2 ^ 16 }
        ensures state { device_state self.new ≡ apply (device_state self.old) (writes.Table field port word) }
        ensures places { self.new.places ≡ self.old.places }
    {
        match field {
            Field::Src => self.src[port as usize] = word,
            Field::Dst => self.dst[port as usize] = word,
        }
    }
}

/// A commit that is accepted: the ranges that are live meanwhile, whether one of them is new, the pieces that it finds,
/// and those that it puts in, that get another result, and that it takes out.
///
/// Of its tasks the first are done. One entry may stand twice, and once a piece was put in the tables serve the new
/// ranges.
#[derive(Drop)]
pub(crate) struct Commit {
    live: Option<FieldBits>,
    gives_bit: bool,
    // the rules that it finds, as contracts know them
    found: History<Store>,
    inserted: Vec<Known>,
    rewritten: Vec<Known>,
    erased: Vec<Known>,
    done: u128,
    pair: Option<Pair>,
    served: bool,
}

/// What comes into a slot, and whether the commit puts it in.
#[derive(Drop)]
struct Coming {
    content: Option<Known>,
    puts: bool,
}

/// A blank device of so many slots.
pub(crate) fn blank_device(alloc: Global, slots: u32) -> Result<Device, AllocError>
    ensures { IfOk result (λ device. device_state device ≡ blank slots) }
{
    let places = Placed::new(alloc, slots)?;
    let src = vec![in alloc; 0u16; 65_536]?;
    let dst = vec![in alloc; 0u16; 65_536]?;
    Ok(Device { places, src, dst })
}

/// The commit of a batch, of which nothing is made, if it is accepted.
pub(crate) fn begin_commit(
    alloc: Global,
    bits: &FieldBits,
    rules: &Store,
    batch: &Batch,
    slots: u32,
    mode: Mode,
) -> Result<Commit, CheckFault>
    requires { verdicts.verdict slots mode rules.now.rules batch.now ≡ Accepted → MayJudge mode bits.now rules.now.rules batch.now }
    ensures accepted { IfOk result (λ commit. verdicts.verdict slots mode rules.now.rules batch.now ≡ Accepted) }
    ensures commit { IfOk result (λ commit. IsCommitOf mode bits.now rules.now.rules batch.now commit) }
    ensures begun { IfOk result IsJustBegun }
    ensures refused { IfErr result (IsRefusal slots mode rules.now.rules batch.now) }
{
    match verdict(rules, batch, slots, mode) {
        Ok(()) => accepted_commit(alloc, bits, rules, batch, mode),
        Err(_) => Err(CheckFault::Unordered),
    }
}

/// The commit of a batch that is accepted. It fails only for want of memory.
fn accepted_commit(
    alloc: Global,
    bits: &FieldBits,
    rules: &Store,
    batch: &Batch,
    mode: Mode,
) -> Result<Commit, CheckFault>
    requires { MayJudge mode bits.now rules.now.rules batch.now }
    ensures commit { IfOk result (λ commit. IsCommitOf mode bits.now rules.now.rules batch.now commit) }
    ensures begun { IfOk result IsJustBegun }
    ensures memory { IfErr result (λ fault. fault ≡ CheckFault.Memory) }
{
    let live = live_meanwhile(bits, rules, batch, mode);
    match commit_of(alloc, bits, live, rules, batch) {
        Ok(commit) => Ok(commit),
        Err(AllocError) => Err(CheckFault::Memory),
    }
}

/// The live ranges while a commit is made, where ranges have bits.
fn live_meanwhile(bits: &FieldBits, rules: &Store, batch: &Batch, mode: Mode) -> Option<FieldBits>
    requires are { AreSetBits mode rules.now.rules bits.now }
    requires src { IsFieldMap bits.now.src }
    requires dst { IsFieldMap bits.now.dst }
    requires few { HaveFreeBits mode rules.now.rules batch.now }
    ensures coded { coded_by result ≡ mode }
    ensures during { during_of result ≡ bits_with mode rules.now.rules batch.now bits.now }
{
    match mode {
        Mode::Cover => None,
        Mode::Bits => Some(bits.with_new(batch)),
    }
}

/// Whether one of the ranges that are live meanwhile has a bit that was free.
fn has_new(live: &Option<FieldBits>, bits: &FieldBits) -> bool
    requires { live.now ≡ None → bits.now ≡ no_bits }
    ensures { result ≡ have_bits (new_bits bits.now (during_of live.now)) }
{
    match live {
        None => false,
        Some(during) => during.new_since(bits).any(),
    }
}

/// The commit of an accepted batch with its pieces.
fn commit_of(
    alloc: Global,
    bits: &FieldBits,
    live: Option<FieldBits>,
    rules: &Store,
    batch: &Batch,
) -> Result<Commit, AllocError>
    requires may { MayJudge (coded_by live) bits.now rules.now.rules batch.now }
    requires during { during_of live ≡ bits_with (coded_by live) rules.now.rules batch.now bits.now }
    ensures commit { IfOk result (λ commit. IsCommitOf (coded_by live) bits.now rules.now.rules batch.now commit) }
    ensures begun { IfOk result IsJustBegun }
{
    let pieces = batch_pieces(alloc, &live, rules, batch)?;
    let inserted = with_entries(alloc, &pieces.inserted)?;
    let rewritten = changing(alloc, rules, &pieces.rewritten)?;
    let erased = with_entries(alloc, &pieces.erased)?;
    let gives_bit = has_new(&live, bits);
    Ok(Commit {
        live,
        gives_bit,
        found: History::new().and(rules),
        inserted,
        rewritten,
        erased,
        done: 0,
        pair: None,
        served: false,
    })
}

impl Commit {
    /// Whether the commit gives a range a bit that no range had.
    pub(crate) fn gives_bit(&self) -> bool
        ensures { result ≡ self.now.gives_bit }
    {
        self.gives_bit
    }

    /// Whether all tasks are done, and no entry stands twice.
    pub(crate) fn is_over(&self) -> bool
        ensures { IsTrue result ↔ ((self.now.done ≡ length (tasks_of (pieces_kept self.now))) × (self.now.pair ≡ None)) }
    {
        self.pair.is_none() && self.done == self.tasks()
    }

    /// How many tasks there are.
    fn tasks(&self) -> u128
        ensures { result ≡ length (tasks_of (pieces_kept self.now)) }
    {
        self.inserted.len() as u128 + self.rewritten.len() as u128 + self.erased.len() as u128
    }

    /// The ranges that are left live where the commit is done: those that the new set needs.
    pub(crate) fn bits_left(&self, rules: &Store) -> FieldBits
        ensures { result ≡ bits_left rules.now.rules (during_of self.now.live) }
    {
        match &self.live {
            None => FieldBits::new(),
            Some(during) => during.released(rules),
        }
    }

    /// Puts an entry into a slot, or empties it. False where that breaks the commit's order. It fails only for want of
    /// memory.
    pub(crate) fn write(
        &mut self,
        alloc: Global,
        rules: &Store,
        device: &mut Device,
        at: usize,
        entry: Option<&Entry>,
    ) -> Result<bool, AllocError>
        requires found { FindsRules self.old rules.now.rules }
        requires inside { at < length device.old.places }
        requires few { length device.old.places < 2 ^ 32 }
        requires src { length device.old.src.items ≡ 2 ^ 16 }
        requires dst { length device.old.dst.items ≡ 2 ^ 16 }
        ensures taken { IfOk result (λ taken. IsTrue taken → (slots : ℕ) (mode : modes.Mode) (bits : bitsets.FieldBits) (rules : List model.Rule) (batch : List commands.Command) → at < slots
            → IsKeptRight slots mode bits rules batch device.old self.old → IsKeptRight slots mode bits rules batch device.new self.new
            × (device_state device.new ≡ apply (device_state device.old) (writes.Slot at (option_copied entry.entry)))) }
        ensures refused { IfOk result (λ taken. IsFalse taken → (slots : ℕ) (mode : modes.Mode) (bits : bitsets.FieldBits) (rules : List model.Rule) (batch : List commands.Command) → at < slots
            → IsKeptRight slots mode bits rules batch device.old self.old
            → IsStage slots mode bits rules batch (apply (device_state device.old) (writes.Slot at (option_copied entry.entry))) → ⊥) }
    {
        let came = self.coming(alloc, rules, device, at, entry)?;
        let Some(Coming { content, puts }) = came else {
            return Ok(false);
        };
        if !self.may_go(&device.places, at, &content) {
            return Ok(false);
        }
        let Ok(pair) = pair_behind(self.pair, &device.places, at, &content) else {
            return Ok(false);
        };
        let before = device.places.set(at, content)?;
        let Some(done) = self.count_tasks(&device.places, at, &before) else {
            return Ok(false);
        };
        self.come_to(done, pair, puts);
        Ok(true)
    }

    /// How far it came behind a write, which may have put a piece in.
    fn come_to(&mut self, done: u128, pair: Option<Pair>, puts: bool)
        ensures others { self.new ≡ record self.old { done = done; pair = pair; served = self.new.served } }
        ensures served { IsTrue self.new.served → IsTrue self.old.served ⊎ IsTrue puts }
    {
        self.done = done;
        self.pair = pair;
        if puts {
            self.served = true;
        }
    }

    /// What an entry brings into a slot, or none, where it is right there. It fails only for want of memory.
    fn coming(
        &self,
        alloc: Global,
        rules: &Store,
        device: &Device,
        at: usize,
        entry: Option<&Entry>,
    ) -> Result<Option<Coming>, AllocError>
        requires found { FindsRules self.now rules.now.rules }
        requires inside { at < length device.now.places }
        requires src { length device.now.src.items ≡ 2 ^ 16 }
        requires dst { length device.now.dst.items ≡ 2 ^ 16 }
        ensures right { IfOk result (λ came. IfSome came (λ coming. ComesRight self.now device.now at (option_copied entry.entry) coming.content coming.puts)) }
        ensures wrong { IfOk result (λ came. IsNone came → ComesWrong self.now device.now at (option_copied entry.entry)) }
    {
        match entry {
            None => Ok(Some(Coming {
                content: None,
                puts: false,
            })),
            Some(entry) => self.coming_entry(alloc, rules, device, at, entry),
        }
    }

    /// What an entry brings into a slot, where it is right there. It fails only for want of memory.
    fn coming_entry(
        &self,
        alloc: Global,
        rules: &Store,
        device: &Device,
        at: usize,
        entry: &Entry,
    ) -> Result<Option<Coming>, AllocError>
        requires found { FindsRules self.now rules.now.rules }
        requires inside { at < length device.now.places }
        requires src { length device.now.src.items ≡ 2 ^ 16 }
        requires dst { length device.now.dst.items ≡ 2 ^ 16 }
        ensures right { IfOk result (λ came. IfSome came (λ coming. ComesRight self.now device.now at (Some entry.now) coming.content coming.puts)) }
        ensures wrong { IfOk result (λ came. IsNone came → ComesWrong self.now device.now at (Some entry.now)) }
    {
        let known = self.known_piece(alloc, rules, &device.places, entry)?;
        let Some(ranked) = known else {
            return Ok(None);
        };
        if is_behind_lower(&device.places, at, &ranked) {
            return Ok(None);
        }
        if is_before_higher(&device.places, at, &ranked) {
            return Ok(None);
        }
        let puts = any_matches(&self.inserted, entry);
        if !self.serves(device, puts) {
            return Ok(None);
        }
        let content = Some(Known {
            ranked,
            entry: *entry,
        });
        Ok(Some(Coming { content, puts }))
    }

    /// The piece whose entry this is, with its result: one of the commit's. A move's piece stands, so the pieces of the set
    /// are cut only where one that went is put back, or where no piece has the entry. It fails only for want of memory.
    fn known_piece(
        &self,
        alloc: Global,
        rules: &Store,
        places: &Placed,
        entry: &Entry,
    ) -> Result<Option<Ranked>, AllocError>
        requires { FindsRules self.now rules.now.rules }
        ensures found { IfOk result (λ known. IfSome known (λ ranked. (entry_for ranked ≡ entry.now) × IsFamiliar self.now places.now ranked)) }
        ensures none { IfOk result (λ known. IsNone known → (ranked : RankedPiece) → Contains (known_pieces (pieces_kept self.now)) ranked → entry_for ranked ≡ entry.now → ⊥) }
    {
        if let Some(ranked) = find(&self.inserted, entry) {
            return Ok(Some(ranked));
        }
        if let Some(ranked) = find(&self.rewritten, entry) {
            return Ok(Some(ranked));
        }
        if let Some(ranked) = standing(places, entry) {
            return Ok(Some(ranked));
        }
        find_in_set(alloc, &self.live, rules, entry)
    }

    /// Whether the tables serve the ranges that are live meanwhile, where a piece is put in. They are read up to the first
    /// one: behind it no word is written.
    fn serves(&self, device: &Device, puts: bool) -> bool
        requires src { length device.now.src.items ≡ 2 ^ 16 }
        requires dst { length device.now.dst.items ≡ 2 ^ 16 }
        ensures right { IsTrue result → IsTrue puts → IsTrue self.now.served ⊎ AreTranslated (device_state device.now) (during_of self.now.live) }
        ensures wrong { IsFalse result → IsTrue puts × IsFalse self.now.served × (AreTranslated (device_state device.now) (during_of self.now.live) → ⊥) }
    {
        if !puts {
            return true;
        }
        if self.served {
            return true;
        }
        match &self.live {
            None => true,
            Some(during) => is_translated(device, during),
        }
    }

    /// Whether what stands in a slot may go from there.
    fn may_go(&self, places: &Placed, at: usize, content: &Option<Known>) -> bool
        requires { at < length places.now }
        ensures right { IsTrue result → (ranked : RankedPiece) → slot places.now at ≡ Some ranked → MayLeave self.now places.now at content.now ranked }
        ensures wrong { IsFalse result → (ranked : RankedPiece) × (slot places.now at ≡ Some ranked) × (MayLeave self.now places.now at content.now ranked → ⊥) }
    {
        match places.at(at) {
            None => true,
            Some(before) => self.may_leave(places, at, content, before),
        }
    }

    /// Whether a piece that stands in a slot may go from there.
    fn may_leave(&self, places: &Placed, at: usize, content: &Option<Known>, before: &Known) -> bool
        ensures right { IsTrue result → MayLeave self.now places.now at content.now before.now }
        ensures wrong { IsFalse result → MayLeave self.now places.now at content.now before.now → ⊥ }
    {
        if comes_again(content, before) {
            return true;
        }
        if copy_of(places, at, &before.entry).is_some() {
            return true;
        }
        if any_matches(&self.erased, &before.entry) {
            return true;
        }
        any_matches(&self.inserted, &before.entry)
    }

    /// How many tasks are done behind a write of a slot, where this stood. None where one is done behind one that isn't.
    fn count_tasks(&self, places: &Placed, at: usize, before: &Option<Known>) -> Option<u128>
        requires { at < length places.now }
        ensures parted { IfSome result (λ done. AreAllPlaced self.now places.now at before.now
            → (left : ℕ) × AreParted (entries_in places.now) (tasks_of (pieces_kept self.now)) done left) }
        ensures early { IsNone result → AreAllPlaced self.now places.now at before.now
            → (priority : ℕ) × IsOutOfTurn (entries_in places.now) (tasks_of (pieces_kept self.now)) priority }
    {
        let none = Progress { done: 0, left: 0 };
        let inserted = count(
            places,
            at,
            before,
            TaskKind::Insert,
            &self.inserted,
            self.done,
            none,
        )?;
        let rewritten = count(
            places,
            at,
            before,
            TaskKind::Rewrite,
            &self.rewritten,
            self.done,
            inserted,
        )?;
        let erased = count(
            places,
            at,
            before,
            TaskKind::Erase,
            &self.erased,
            self.done,
            rewritten,
        )?;
        Some(erased.done)
    }
}

/// Whether both tables serve live ranges.
fn is_translated(device: &Device, during: &FieldBits) -> bool
    requires src { length device.now.src.items ≡ 2 ^ 16 }
    requires dst { length device.now.dst.items ≡ 2 ^ 16 }
    ensures { IsTrue result ↔ AreTranslated (device_state device.now) during.now }
{
    if !is_right_table(during.of(Field::Src), &device.src) {
        return false;
    }
    is_right_table(during.of(Field::Dst), &device.dst)
}

/// Whether a slot's content has the value, mask and tag of what stood there.
fn comes_again(content: &Option<Known>, before: &Known) -> bool
    ensures { IsTrue result ↔ HoldsPiece (option_map entry_for content.now) before.now }
{
    match content {
        None => false,
        Some(comes) => same_match(&before.entry, &comes.entry),
    }
}
