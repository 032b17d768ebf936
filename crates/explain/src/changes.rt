//! Changes that a set doesn't take, with the lines of both commands.

use crate::explainer::Explainer;
use replay::Family;
use rule_model::{Rank, ipv4_route_of, ipv6_route_of, list_number_of};
use rule_store::Command;
use script_faults::write_address;
use settled_changes::{Request, Requested};
use std::alloc::AllocError;
use std::collections::BTreeMap;

/// The last command that was carried out on a rule: its line, and whether the rule went with it.
#[derive(Clone, Copy, Debug, PartialEq, Eq)]
pub(crate) struct Seen {
    pub(crate) line: u32,
    pub(crate) removed: bool,
}

/// What the pending changes do to a rule that they name.
#[derive(Clone, Copy, Debug, PartialEq, Eq)]
enum Deed {
    Added,
    Changed,
    Removed,
    /// Removed, and then added.
    Replaced,
    /// Put, whether it was there or not.
    Put,
    /// Dropped, whether it was there or not.
    Dropped,
}

/// The last pending change that names a rule: its line, and what it does.
#[derive(Clone, Copy, Debug, PartialEq, Eq)]
struct Named {
    line: u32,
    deed: Deed,
}

/// What a change does to a rule, by how those before it named the rule.
fn deed_of(change: &Request, before: Option<Named>) -> Deed {
    match (change, before) {
        (Request::Put(_), _) => Deed::Put,
        (Request::Drop(_), _) => Deed::Dropped,
        (Request::Strict(Command::Add(_)), Some(named)) if named.deed == Deed::Removed => {
            Deed::Replaced
        }
        (Request::Strict(Command::Add(_)), _) => Deed::Added,
        (Request::Strict(Command::Set { .. }), _) => Deed::Changed,
        (Request::Strict(Command::Del(_)), _) => Deed::Removed,
    }
}

/// Whether a rule was named by a change that doesn't ask what is there.
fn is_forgiving(named: Named) -> bool {
    named.deed == Deed::Put || named.deed == Deed::Dropped
}

/// Tells of each pending change that the set doesn't take.
pub(crate) fn tell_changes(explainer: &Explainer, text: &mut String) -> Result<(), AllocError> {
    let mut named: BTreeMap<Rank, Named> = BTreeMap::new(explainer.alloc);
    for i in 0..explainer.pending() {
        let change = explainer.change_at(i);
        let line = explainer.lines[i as usize];
        let before = named.get(&change.priority()).copied();
        tell_change(explainer, &change, line, before, text)?;
        let deed = deed_of(&change, before);
        if named
            .insert(change.priority(), Named { line, deed })
            .is_err()
        {
            return Err(AllocError);
        }
    }
    Ok(())
}

/// Tells of a change that the set doesn't take behind those before it, if it doesn't.
fn tell_change(
    explainer: &Explainer,
    change: &Request,
    line: u32,
    before: Option<Named>,
    text: &mut String,
) -> Result<(), AllocError> {
    match change {
        Request::Strict(command) => tell_command(explainer, command, line, before, text),
        Request::Put(rule) => tell_request(explainer, rule.priority, line, before, text),
        Request::Drop(priority) => tell_request(explainer, *priority, line, before, text),
    }
}

/// Tells of a change that doesn't ask what is there, where a strict one before it names its rule.
fn tell_request(
    explainer: &Explainer,
    priority: Rank,
    line: u32,
    before: Option<Named>,
    text: &mut String,
) -> Result<(), AllocError> {
    match before {
        Some(named) if !is_forgiving(named) => tell_twice(explainer, priority, line, named, text),
        _ => Ok(()),
    }
}

/// Tells of a strict command that the set doesn't take behind the changes before it, if it doesn't.
fn tell_command(
    explainer: &Explainer,
    command: &Command,
    line: u32,
    before: Option<Named>,
    text: &mut String,
) -> Result<(), AllocError> {
    let priority = command.priority();
    let there = is_there(explainer, priority);
    match (command, before) {
        (Command::Add(_), Some(named)) if named.deed == Deed::Removed => Ok(()),
        (_, Some(named)) => tell_twice(explainer, priority, line, named, text),
        (Command::Add(_), None) if there => tell_taken(explainer, priority, line, text),
        (Command::Add(_), None) => Ok(()),
        (_, None) if there => Ok(()),
        (_, None) => tell_absent(explainer, priority, line, text),
    }
}

/// Whether the rule stands before the pending changes: of a whole new set none does.
fn is_there(explainer: &Explainer, priority: Rank) -> bool {
    match explainer.asked {
        Requested::Whole(_) => false,
        Requested::Nothing | Requested::Changes(_) => explainer.rules.rule(priority).is_some(),
    }
}

/// That a pending change names a rule already.
fn tell_twice(
    explainer: &Explainer,
    priority: Rank,
    line: u32,
    named: Named,
    text: &mut String,
) -> Result<(), AllocError> {
    let earlier = named.line;
    let deed = match named.deed {
        Deed::Added => "added",
        Deed::Changed => "changed",
        Deed::Removed => "removed",
        Deed::Replaced => "replaced",
        Deed::Put => "put",
        Deed::Dropped => "dropped",
    };
    write!(text, "line {line}: ")?;
    write_name(text, explainer.wanted.family, priority)?;
    writeln!(
        text,
        " was {deed} in line {earlier}, before the same commit"
    )
}

/// That a rule which is added stands already.
fn tell_taken(
    explainer: &Explainer,
    priority: Rank,
    line: u32,
    text: &mut String,
) -> Result<(), AllocError> {
    write!(text, "line {line}: ")?;
    write_name(text, explainer.wanted.family, priority)?;
    match explainer.seen.get(&priority) {
        Some(seen) => {
            let earlier = seen.line;
            writeln!(text, " was added in line {earlier}")
        }
        None => text.push_str(" stands already\n"),
    }
}

/// That a rule which is changed or removed doesn't stand.
fn tell_absent(
    explainer: &Explainer,
    priority: Rank,
    line: u32,
    text: &mut String,
) -> Result<(), AllocError> {
    write!(text, "line {line}: ")?;
    write_name(text, explainer.wanted.family, priority)?;
    if let Requested::Whole(_) = explainer.asked {
        return text.push_str(" isn't in the new set\n");
    }
    match explainer.seen.get(&priority) {
        Some(seen) if seen.removed => {
            let earlier = seen.line;
            writeln!(text, " was removed in line {earlier}")
        }
        _ => text.push_str(" isn't there\n"),
    }
}

/// The name of a rule of a family.
pub(crate) fn write_name(
    text: &mut String,
    family: Family,
    priority: Rank,
) -> Result<(), AllocError> {
    let route = match family {
        Family::Route => ipv4_route_of(priority),
        Family::Route6 => ipv6_route_of(priority),
        Family::Acl | Family::Acl6 => return write_number(text, priority),
    };
    match route {
        Some(prefix) => {
            let len = prefix.len();
            write_address(text, prefix.addr(), family.version())?;
            write!(text, "/{len}")
        }
        None => text.push_str("the route"),
    }
}

/// A rule of an access list by its number.
fn write_number(text: &mut String, priority: Rank) -> Result<(), AllocError> {
    match list_number_of(priority) {
        Some(number) => write!(text, "rule {number}"),
        None => text.push_str("the rule"),
    }
}
