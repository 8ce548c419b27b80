// What rows grant.

use super::files::policy_of;
use crate::fault::Fault;
use js_desc::start::{Grant, Start};
use lava_base::name::Name;
use policy_globals::start::start_of;
use std::alloc::Global;

/// What the row `a` of a policy grants.
pub fn start_in(alloc: Global, text: &str) -> Result<Start, Fault> {
    let policy = policy_of(alloc, text)?;
    let package = Name::of(alloc, "a")?;
    Ok(start_of(alloc, policy.row(&package), false)?)
}

/// `start TEXT`: what the row `a` of a policy grants.
pub fn started(alloc: Global, text: &str) -> Result<String, Fault> {
    let start = start_in(alloc, text)?;
    shown(alloc, &start)
}

/// `trusted`: what the application's own package has.
pub fn trusted(alloc: Global) -> Result<String, Fault> {
    let start = start_of(alloc, None, true)?;
    shown(alloc, &start)
}

fn shown(alloc: Global, start: &Start) -> Result<String, Fault> {
    let mut line = String::from_str(alloc, "globals")?;
    for grant in start.globals.as_slice() {
        add_grant(alloc, &mut line, grant.0.as_str(), &grant.1)?;
    }
    line.push_str("; builtin")?;
    for grant in start.builtins.as_slice() {
        add_grant(alloc, &mut line, grant.0.as_str(), &grant.1)?;
    }
    Ok(line)
}

fn add_grant(alloc: Global, line: &mut String, name: &str, grant: &Grant) -> Result<(), Fault> {
    line.push(' ')?;
    line.push_str(name)?;
    match grant {
        Grant::Whole(number) => {
            let shown = format!(in alloc; "=whole:{number}")?;
            line.push_str(shown.as_str())?;
        }
        Grant::Part(members) => {
            line.push_str("=part")?;
            for member in members.as_slice() {
                let name = member.0.as_str();
                let number = member.1;
                let shown = format!(in alloc; ":{name}:{number}")?;
                line.push_str(shown.as_str())?;
            }
        }
        Grant::Live { write } => add_live(line, "=live", *write)?,
        Grant::LivePart(members) => {
            line.push_str("=live")?;
            for member in members.as_slice() {
                line.push(':')?;
                add_live(line, member.0.as_str(), member.1)?;
            }
        }
    }
    Ok(())
}

fn add_live(line: &mut String, name: &str, write: bool) -> Result<(), Fault> {
    line.push_str(name)?;
    if write {
        line.push_str("+write")?;
    }
    Ok(())
}
