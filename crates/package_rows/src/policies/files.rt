// What policy files are read as.

use crate::bytes::bytes_of;
use crate::fault::Fault;
use crate::numbers::number_of;
use lava_base::name::Name;
use policy_row::fault::{PolicyFault, PolicyFile, shown as shown_word};
use policy_row::merging::merge;
use policy_row::policy::Policy;
use policy_row::reading::read_policy;
use policy_row::writing::write_policy;
use std::alloc::Global;

/// `policy TEXT`, `override TEXT`: the policy in one line, or the words of its refusal.
pub fn read(alloc: Global, file: PolicyFile, text: &str) -> Result<String, Fault> {
    shown(
        alloc,
        read_policy(alloc, file, bytes_of(alloc, text)?.as_slice()),
    )
}

/// `long N`: the policy of a file of N spaces and `{}`.
pub fn long_read(alloc: Global, count: &str) -> Result<String, Fault> {
    let mut text = String::new(alloc);
    for _ in 0..number_of(count)? {
        text.push(' ')?;
    }
    text.push_str("{}")?;
    read(alloc, PolicyFile::Main, text.as_str())
}

/// `merge TEXT|TEXT`: the policy with its override, in one line.
pub fn merged(alloc: Global, rest: &str) -> Result<String, Fault> {
    let (policy, over) = rest.split_once('|').unwrap_or((rest, "{}"));
    let policy = policy_of(alloc, policy)?;
    let over = policy_of(alloc, over)?;
    one_line(alloc, &merge(alloc, &policy, &over)?)
}

/// `write TEXT`: the policy as it is written.
pub fn written(alloc: Global, text: &str) -> Result<String, Fault> {
    let policy = policy_of(alloc, text)?;
    text_of(alloc, write_policy(alloc, &policy)?.as_slice())
}

/// `reach TEXT|PACKAGE|LINKED`: whether the package may import the other one.
pub fn reaches(alloc: Global, rest: &str) -> Result<String, Fault> {
    let (text, names) = rest.split_once('|').unwrap_or((rest, ""));
    let (package, linked) = names.split_once('|').unwrap_or((names, ""));
    let policy = policy_of(alloc, text)?;
    let package = Name::of(alloc, package)?;
    let linked = Name::of(alloc, linked)?;
    let word = if policy.may_import(&package, &linked) {
        "yes"
    } else {
        "no"
    };
    Ok(String::from_str(alloc, word)?)
}

/// The policy of a text that is one.
pub fn policy_of(alloc: Global, text: &str) -> Result<Policy, Fault> {
    match read_policy(alloc, PolicyFile::Main, bytes_of(alloc, text)?.as_slice()) {
        Ok(policy) => Ok(policy),
        Err(PolicyFault::OutOfMemory) => Err(Fault::OutOfMemory),
        Err(_) => Err(Fault::Line),
    }
}

fn shown(alloc: Global, read: Result<Policy, PolicyFault>) -> Result<String, Fault> {
    match read {
        Ok(policy) => one_line(alloc, &policy),
        Err(
            PolicyFault::Bad {
                file,
                row,
                key,
                what,
            },
        ) => refused(alloc, file, &row, &key, what.name()),
        Err(PolicyFault::OutOfMemory) => Err(Fault::OutOfMemory),
    }
}

fn refused(
    alloc: Global,
    file: PolicyFile,
    row: &Name,
    key: &Name,
    what: &str,
) -> Result<String, Fault> {
    let file = file.name();
    let row = shown_word(row);
    let key = shown_word(key);
    Ok(format!(in alloc; "policy {file} {row} {key} {what}")?)
}

// A policy as it is written, without its line feeds and the spaces behind them.
fn one_line(alloc: Global, policy: &Policy) -> Result<String, Fault> {
    let bytes = write_policy(alloc, policy)?;
    let mut line = String::new(alloc);
    for part in text_of(alloc, bytes.as_slice())?.as_str().split('\n') {
        line.push_str(part.trim_start())?;
    }
    Ok(line)
}

fn text_of(alloc: Global, bytes: &[u8]) -> Result<String, Fault> {
    match str::from_utf8(bytes) {
        Ok(text) => Ok(String::from_str(alloc, text)?),
        Err(_) => Err(Fault::Line),
    }
}
