//! The script of an array of routes.

ghost use Rattle.std.specs.Prelude.{◌≡◌, ◌<◌, ◌≤◌, ◌+◌, ◌++◌, [], true, IfOk, OnOk, decimal};
ghost use Rattle.json.specs.Json.{Items, item};
ghost use Rattle.json.specs.Value.{items_view, value_view};
ghost use Rattle.import_lines.specs.Import.{onto_script};
ghost use Rattle.ip_routes.specs.Telling.{route_closing};
ghost use Rattle.json_routes.specs.Items.{GoesBy, left_out_item, left_out_items, no_routes, script_at, stop_item};
ghost use Rattle.json_routes.specs.Texts.{IsScriptOf};

use crate::items::tell_item;
use import_lines::{LineFormat, Told};
use ip_routes::IpRoutes;
use itoa::Buffer;
use json::Value;
use rule_model::IpVersion;
use script_runs::Status;
use std::alloc::{AllocError, Global};
use std::marker::Model;

/// Where the script of an array stands between two items. Contracts see what is known, whether items may be left out, the
/// number of the next one, and how many are left out.
#[derive(Drop)]
pub(crate) struct Telling {
    routes: IpRoutes,
    leave_out: bool,
    number: u64,
    left_out: u64,
    // Room for a route as a line, and for what that comes to.
    line: Vec<u8>,
    told: Vec<u8>,
}

impl Model for Telling {
    ghost use Rattle.json_routes.specs.Items.{Standing};

    ghost Value = { Standing };

    ghost view = { λ t. record { known = t.routes; leave_out = t.leave_out; number = t.number; left_out = t.left_out } };
}

impl Telling {
    /// No item is told yet. Takes no memory.
    pub(crate) fn new(alloc: Global, version: IpVersion, leave_out: bool) -> Telling
        ensures { result ≡ record { known = no_routes version; leave_out = leave_out; number = 1; left_out = 0 } }
    {
        Telling {
            routes: IpRoutes::new(alloc, version),
            leave_out,
            number: 1,
            left_out: 0,
            line: Vec::new(alloc),
            told: Vec::new(alloc),
        }
    }

    /// Puts the script of an array there, and answers the status that it has.
    pub(crate) fn tell_all(
        &mut self,
        alloc: Global,
        values: &[Value],
        script: &mut Vec<u8>,
    ) -> Result<Status, AllocError>
        requires first { (self.old.number ≡ 1) × (self.old.left_out ≡ 0) }
        requires empty { script.old.items ≡ [] }
        ensures { IfOk result (λ answer. IsScriptOf (script_at self.old (items_view values.now)) script.new.items answer) }
    {
        for value in values {
            if !self.tell(alloc, value, script)? {
                return Ok(Status::Script);
            }
        }
        self.put_end(script)?;
        Ok(Status::Done)
    }

    /// Puts what stands behind all items there.
    fn put_end(&self, script: &mut Vec<u8>) -> Result<(), AllocError>
        ensures { OnOk result (script.new.items ≡ script.old.items ++ (left_out_items self.now.left_out ++ route_closing self.now.known)) }
    {
        put_left_out_count(script, self.left_out)?;
        script.extend_from_slice(b"commit\n")?;
        Ok(())
    }

    /// Puts what an item has in the script there, and answers whether the script goes on.
    fn tell(
        &mut self,
        alloc: Global,
        value: &Value,
        script: &mut Vec<u8>,
    ) -> Result<bool, AllocError>
        requires below { self.old.left_out < self.old.number }
        requires room { self.old.number < 18446744073709551615 }
        ensures goes { IfOk result (λ on. (items : Items) → GoesBy on (onto_script script.old.items (script_at self.old (item (value_view value.now) items))) script.new.items self.new items) }
        ensures number { IfOk result (λ on. on ≡ true → self.new.number ≡ self.old.number + 1) }
        ensures below { IfOk result (λ on. on ≡ true → self.new.left_out ≤ self.old.number) }
    {
        self.told.clear();
        match tell_item(
            alloc,
            &mut self.routes,
            &mut self.line,
            value,
            &mut self.told,
        )? {
            Told::Said => {
                script.extend_from_slice(self.told.as_slice())?;
            }
            Told::Unsaid => {
                if !self.leave_out {
                    put_stop(script, self.number, self.told.as_slice())?;
                    return Ok(false);
                }
                put_left_out(script, self.number, self.told.as_slice())?;
                self.left_out += 1;
            }
        }
        self.number += 1;
        Ok(true)
    }
}

/// Puts a number there, in decimal.
fn put_number(into: &mut Vec<u8>, number: u64) -> Result<(), AllocError>
    ensures { OnOk result (into.new.items ≡ into.old.items ++ decimal number) }
{
    let mut digits = Buffer::new();
    into.extend_from_slice(digits.format(number).as_bytes())?;
    Ok(())
}

/// Puts bytes there.
fn put_bytes(into: &mut Vec<u8>, bytes: &[u8]) -> Result<(), AllocError>
    ensures { OnOk result (into.new.items ≡ into.old.items ++ bytes.now) }
{
    into.extend_from_slice(bytes)?;
    Ok(())
}

/// Puts the last line of a script there that ends at the item of this number.
pub fn put_stop(into: &mut Vec<u8>, number: u64, why: &[u8]) -> Result<(), AllocError>
    ensures { OnOk result (into.new.items ≡ into.old.items ++ stop_item number why.now) }
{
    into.extend_from_slice(b"item ")?;
    put_number(into, number)?;
    into.extend_from_slice(b" ")?;
    into.extend_from_slice(why)?;
    into.extend_from_slice(b"\n")?;
    Ok(())
}

/// Puts the comment there that tells of the item of this number, which is left out.
pub fn put_left_out(into: &mut Vec<u8>, number: u64, why: &[u8]) -> Result<(), AllocError>
    ensures { OnOk result (into.new.items ≡ into.old.items ++ left_out_item number why.now) }
{
    put_bytes(into, b"# left out: item ")?;
    put_number(into, number)?;
    put_bytes(into, b": ")?;
    put_bytes(into, why)?;
    put_bytes(into, b"\n")?;
    Ok(())
}

/// Puts the comment there that tells how many items are left out, if there are any.
pub fn put_left_out_count(into: &mut Vec<u8>, count: u64) -> Result<(), AllocError>
    ensures { OnOk result (into.new.items ≡ into.old.items ++ left_out_items count) }
{
    if count == 0 {
        return Ok(());
    }
    put_bytes(into, b"# left out: ")?;
    put_number(into, count)?;
    put_bytes(into, b" items\n")?;
    Ok(())
}
