//! The script of a ruleset.

ghost use Rattle.std.specs.Prelude.{◌≡◌, ◌<◌, ◌≤◌, ◌+◌, ◌++◌, [], true, IfOk};
ghost use Rattle.json.specs.Json.{Items, item};
ghost use Rattle.json.specs.Value.{items_view, value_view};
ghost use Rattle.import_lines.specs.Import.{onto_script};
ghost use Rattle.json_routes.specs.Texts.{IsScriptOf};
ghost use Rattle.nft_rulesets.specs.Items.{GoesBy, first_standing, items_end, script_at};

use crate::asked::Asked;
use crate::items::tell_item;
use crate::listing::put_lines;
use import_lines::Told;
use json::Value;
use json_routes::{put_left_out, put_left_out_count, put_stop};
use script_runs::Status;
use std::alloc::{AllocError, Global};
use std::marker::Model;
use written_chains::ChainRule;

/// Where the script of a ruleset stands between two items. Contracts see the rules of chains, whether items may be left out,
/// the number of the next one, and how many are left out.
#[derive(Drop)]
pub(crate) struct Telling {
    rules: Vec<ChainRule>,
    leave_out: bool,
    number: u64,
    left_out: u64,
    // Room for what an item comes to.
    told: Vec<u8>,
}

impl Model for Telling {
    ghost use Rattle.nft_rulesets.specs.Items.{Standing};

    ghost Value = { Standing };

    ghost view = { λ t. record { rules = t.rules.items; leave_out = t.leave_out; number = t.number; left_out = t.left_out } };
}

impl Telling {
    /// No item is told yet. Takes no memory.
    pub(crate) fn new(alloc: Global, leave_out: bool) -> Telling
        ensures { result ≡ first_standing leave_out }
    {
        Telling {
            rules: Vec::new(alloc),
            leave_out,
            number: 1,
            left_out: 0,
            told: Vec::new(alloc),
        }
    }

    /// Puts the script of a ruleset there, and answers the status that it has.
    pub(crate) fn tell_all(
        &mut self,
        alloc: Global,
        asked: &Asked,
        all: &[Value],
        script: &mut Vec<u8>,
    ) -> Result<Status, AllocError>
        requires first { (self.old.number ≡ 1) × (self.old.left_out ≡ 0) }
        requires empty { script.old.items ≡ [] }
        ensures { IfOk result (λ answer. IsScriptOf (script_at asked.now (items_view all.now) self.old (items_view all.now)) script.new.items answer) }
    {
        for value in all {
            if !self.tell(alloc, asked, all, value, script)? {
                return Ok(Status::Script);
            }
        }
        self.put_end(alloc, asked, all, script)
    }

    /// Puts what stands behind all items there, and answers the status that the script has.
    fn put_end(
        &self,
        alloc: Global,
        asked: &Asked,
        all: &[Value],
        script: &mut Vec<u8>,
    ) -> Result<Status, AllocError>
        ensures { IfOk result (λ answer. IsScriptOf (onto_script script.old.items (items_end asked.now (items_view all.now) self.now.rules self.now.number self.now.left_out)) script.new.items answer) }
    {
        put_left_out_count(script, self.left_out)?;
        if put_lines(alloc, asked, all, self.rules.as_slice(), script)? {
            return Ok(Status::Done);
        }
        Ok(Status::Script)
    }

    /// Puts what an item has in the script there, and answers whether the script goes on.
    fn tell(
        &mut self,
        alloc: Global,
        asked: &Asked,
        all: &[Value],
        value: &Value,
        script: &mut Vec<u8>,
    ) -> Result<bool, AllocError>
        requires below { self.old.left_out < self.old.number }
        requires room { self.old.number < 18446744073709551615 }
        ensures goes { IfOk result (λ on. (items : Items) → GoesBy on asked.now (items_view all.now) (onto_script script.old.items (script_at asked.now (items_view all.now) self.old (item (value_view value.now) items))) script.new.items self.new items) }
        ensures number { IfOk result (λ on. on ≡ true → self.new.number ≡ self.old.number + 1) }
        ensures below { IfOk result (λ on. on ≡ true → self.new.left_out ≤ self.old.number) }
    {
        self.told.clear();
        match tell_item(alloc, asked, all, value, &mut self.rules, &mut self.told)? {
            Told::Said => {
                script.extend_from_slice(self.told.as_slice())?;
            }
            Told::Unsaid => {
                if !self.leave_out {
                    put_stop(script, self.number, self.told.as_slice())?;
                    return Ok(false);
                }
                put_left_out(script, self.number, self.told.as_slice())?;
                self.left_out += 1;
            }
        }
        self.number += 1;
        Ok(true)
    }
}
