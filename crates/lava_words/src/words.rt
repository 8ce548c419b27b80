// The words of a command.

ghost use Rattle.std.specs.Prelude.{◌≡◌, ◌≤◌, IfOk, IfSome, map, string_bytes};
ghost use Rattle.std.specs.Option.{option_map};
ghost use Rattle.lava_words.specs.Parsing.{given_as};
ghost use Rattle.lava_words.specs.Words.{IsAskable, IsCount, asked_by, big_named, budget_or, command_named, command_of, count_in, digits_after, digit_value, is_digit, number_in, report_named, told_command};

use crate::parsing::{GivenWords, given};
use lava_base::memory::OutOfMemory;
use lava_big::big_app::MAX_PACKAGES;
use lava_report::report::Mode;
use std::alloc::Global;

/// The word of the command that runs a folder.
pub const RUN: &str = "run";

/// The word of the command that runs a folder, and prints the trace of that.
pub const TRACE: &str = "trace";

/// The word of the command that prints a module's term.
pub const TREE: &str = "tree";

/// The word of the command that prints the policy which an application's sources ask for.
pub const POLICY: &str = "policy";

/// The word of the command that prints what an application's policy denies of it.
pub const CHECK: &str = "check";

/// The word of the command that runs an application of so many packages.
pub const BIG: &str = "big";

/// How many digits a number of packages has at most.
pub const MAX_COUNT_DIGITS: usize = 3;

/// The number of steps where no other is said.
pub const DEFAULT_BUDGET: u64 = 10000000;

/// The most steps that may be said.
pub const MAX_BUDGET: u64 = 1000000000;

/// How many digits a number of steps has at most.
pub const MAX_DIGITS: usize = 10;

/// What the words ask for.
#[derive(Clone, Copy)]
pub enum Command<'a> {
    /// Run the application of a directory with a budget: what it prints is printed, or the trace of its run.
    Run {
        mode: Mode,
        directory: &'a str,
        budget: u64,
    },
    /// Print the term of a file.
    Tree {
        file: &'a str,
    },
    /// Print the policy that the sources of the application of a directory ask for.
    Policy {
        directory: &'a str,
    },
    /// Print what its policy denies of the application of a directory.
    Check {
        directory: &'a str,
    },
    /// Run the application of so many packages, at least 1 and at most `MAX_PACKAGES`, with a budget.
    Big {
        count: u32,
        budget: u64,
    },
}

fn is_digit(byte: u8) -> bool
    ensures { result ≡ is_digit byte }
{
    byte >= b'0' && byte <= b'9'
}

/// The number of some digits before one more, which stays at the largest of its type.
fn digit_value(value: u64, byte: u8) -> u64
    ensures { result ≡ digit_value value byte }
{
    value
        .saturating_mul(10)
        .saturating_add(u64::from(byte.saturating_sub(b'0')))
}

/// The number that digits write, where there are nothing but digits.
fn digits_value(mut digits: &[u8]) -> Option<u64>
    ensures { result ≡ digits_after 0 digits.entry.now }
{
    let mut value = 0;
    while let [first, rest @ ..] = digits {
        if !is_digit(*first) {
            return None;
        }
        value = digit_value(value, *first);
        digits = rest;
    }
    Some(value)
}

/// A number from 1 to a limit, of at most so many digits.
fn number_in(text: &str, digits: usize, limit: u64) -> Option<u64>
    ensures number { result ≡ number_in text.now digits limit }
    ensures within { IfSome result (λ n. (1 ≤ n) × (n ≤ limit)) }
{
    if text.is_empty() || text.len() > digits {
        return None;
    }
    match digits_value(text.as_bytes()) {
        Some(value) if value >= 1 && value <= limit => Some(value),
        _ => None,
    }
}

/// A number of packages: 1 to 3 digits, from 1 to 200.
fn count_in(text: &str) -> Option<u32>
    ensures count { result ≡ count_in text.now }
    ensures within { IfSome result IsCount }
{
    match number_in(text, MAX_COUNT_DIGITS, u64::from(MAX_PACKAGES)) {
        Some(count) => Some(count as u32),
        None => None,
    }
}

/// The number of steps that an option says, or the one that stands for none.
fn budget_or(budget: Option<&str>) -> Option<u64>
    ensures { result ≡ budget_or (option_map (λ t. t.now) budget.entry) }
{
    match budget {
        // 1 to 10 digits, from 1 to 1,000,000,000
        Some(text) => number_in(text, MAX_DIGITS, MAX_BUDGET),
        None => Some(DEFAULT_BUDGET),
    }
}

/// The command of a word that takes a directory or a file and no budget.
fn report_named<'a>(command: &'a str, argument: &'a str) -> Option<Command<'a>>
    ensures named { option_map told_command result ≡ report_named command.now argument.now }
    ensures within { IsAskable (option_map told_command result) }
{
    if command == TREE {
        return Some(Command::Tree { file: argument });
    }
    if command == POLICY {
        return Some(Command::Policy {
            directory: argument,
        });
    }
    if command == CHECK {
        return Some(Command::Check {
            directory: argument,
        });
    }
    None
}

/// The command that runs the application of so many packages with a budget.
fn big_named<'a>(argument: &'a str, budget: u64) -> Option<Command<'a>>
    ensures named { option_map told_command result ≡ big_named (count_in argument.now) budget }
    ensures within { IsAskable (option_map told_command result) }
{
    match count_in(argument) {
        Some(count) => Some(Command::Big { count, budget }),
        None => None,
    }
}

/// The command of a word, with its argument and a budget.
fn command_named<'a>(command: &'a str, argument: &'a str, budget: u64) -> Option<Command<'a>>
    ensures named { option_map told_command result ≡ command_named command.now argument.now budget }
    ensures within { IsAskable (option_map told_command result) }
{
    if command == RUN {
        return Some(Command::Run {
            mode: Mode::Emit,
            directory: argument,
            budget,
        });
    }
    if command == TRACE {
        return Some(Command::Run {
            mode: Mode::Trace,
            directory: argument,
            budget,
        });
    }
    if command == BIG {
        return big_named(argument, budget);
    }
    report_named(command, argument)
}

/// The command of the words that were given.
fn asked_by(given: GivenWords<'_>) -> Option<Command<'_>>
    ensures asks { option_map told_command result ≡ asked_by (given_as given.entry) }
    ensures within { IsAskable (option_map told_command result) }
{
    let budget = budget_or(given.budget)?;
    command_named(given.command?, given.argument?, budget)
}

/// What the words ask for, which come without the program's own name; nothing where they are a usage fault.
pub fn command_of<'a>(
    alloc: Global,
    words: &'a [String],
) -> Result<Option<Command<'a>>, OutOfMemory>
    ensures asks { let asked = command_of (map string_bytes words.entry.now) in
        IfOk result (λ r. option_map told_command r ≡ asked) }
    // A number of packages is one that an application may have.
    ensures within { IfOk result (λ r. IsAskable (option_map told_command r)) }
{
    match given(alloc, words) {
        Ok(Some(given)) => Ok(asked_by(given)),
        Ok(None) => Ok(None),
        Err(_) => Err(OutOfMemory),
    }
}
