// The words of a command, read by clap.

ghost use Rattle.std.specs.Prelude.{◌≡◌, IfOk, IfErr, map, string_bytes, Option, Some, None};
ghost use Rattle.std.specs.Option.{option_map};
ghost use Rattle.clap.specs.Words.{app_of, found_of, first_of, matches_of, rows_of};
ghost use Rattle.lava_words.specs.Parsing.{given, given_as, given_by, words_app};

use clap::error::ErrorKind;
use clap::{Arg, ArgMatches, Command};
use lava_base::memory::OutOfMemory;
use std::alloc::{AllocError, Global};

/// What the words give at each place.
#[derive(Clone, Copy)]
pub struct GivenWords<'a> {
    pub command: Option<&'a str>,
    pub argument: Option<&'a str>,
    pub budget: Option<&'a str>,
}

/// The command that takes the words.
fn words_command<'a>(alloc: Global) -> Result<Command<'a>, AllocError>
    ensures { IfOk result (λ c. app_of c ≡ words_app) }
{
    let command = Arg::new(alloc, "COMMAND").required(true);
    let argument = Arg::new(alloc, "ARG").required(true);
    let budget = Arg::new(alloc, "budget").long("budget");
    let program = Command::new(alloc, "lava").no_binary_name(true);
    program.arg(command)?.arg(argument)?.arg(budget)
}

/// What matches give.
#[tactic(auto, using(crate::proofs::Given_laws::first_value_rows))]
fn given_in<'a>(matches: &ArgMatches<'a>) -> GivenWords<'a>
    ensures { given_as result ≡ given_by (rows_of (found_of matches.now)) }
{
    GivenWords {
        command: matches.get_str("COMMAND"),
        argument: matches.get_str("ARG"),
        budget: matches.get_str("budget"),
    }
}

/// What the words give, where the command takes them.
fn given_to<'a>(
    command: Command<'a>,
    words: &'a [String],
) -> Result<Option<GivenWords<'a>>, OutOfMemory>
    ensures { app_of command.entry ≡ words_app →
        IfOk result (λ r. option_map given_as r ≡ given (map string_bytes words.entry.now)) }
{
    match command.try_get_matches_from(words) {
        Ok(matches) => Ok(Some(given_in(&matches))),
        Err(error) => match error.kind() {
            ErrorKind::OutOfMemory => Err(OutOfMemory),
            _ => Ok(None),
        },
    }
}

/// What the words give, where clap takes them.
pub fn given<'a>(alloc: Global, words: &'a [String]) -> Result<Option<GivenWords<'a>>, OutOfMemory>
    ensures { IfOk result (λ r. option_map given_as r ≡ given (map string_bytes words.entry.now)) }
{
    match words_command(alloc) {
        Ok(command) => given_to(command, words),
        Err(_) => Err(OutOfMemory),
    }
}
