// Lines of tokens and what comes of them.

mod words;

use self::words::terminal_of;
use crate::fault::Fault;
use js_grammar::left_out::LeftOut;
use js_grammar::lexeme::Lexeme;
use js_grammar::machine::PartialTree;
use js_grammar::symbols::Terminal;
use std::alloc::{AllocError, Global};
use std::fmt;

/// What comes of tokens, and how many of them were taken before.
#[derive(Clone, Copy, Drop)]
enum Answer {
    /// All are taken.
    Taken(usize),
    /// All are taken to the end of the source, and so many events stand.
    Ended(usize, usize),
    /// The next one is refused.
    Refused(usize),
    /// The next one is taken, and is too deep.
    TooDeep(usize),
    /// The next one is taken, and shows a form that is left out.
    LeftOut(usize, LeftOut),
    /// The look ahead says another thing than what comes.
    Disagrees(usize),
    /// The next word is no token.
    Unknown(usize),
}

impl fmt::Display for Answer {
    fn fmt<W: fmt::Write>(&self, f: &mut fmt::Formatter<W>) -> fmt::Result {
        match self {
            Answer::Taken(count) => write!(f, "{count} taken"),
            Answer::Ended(count, events) => write!(f, "{count} taken, {events} events"),
            Answer::Refused(count) => write!(f, "{count} refused"),
            Answer::TooDeep(count) => write!(f, "{count} too deep"),
            Answer::LeftOut(count, form) => write!(f, "{count} {}", name_of(*form)),
            Answer::Disagrees(count) => write!(f, "{count} disagrees"),
            Answer::Unknown(count) => write!(f, "{count} unknown"),
        }
    }
}

fn name_of(form: LeftOut) -> &'static str {
    match form {
        LeftOut::Export => "export",
        LeftOut::Field => "field",
        LeftOut::Generator => "generator",
        LeftOut::Import => "import",
        LeftOut::Proto => "proto",
        LeftOut::Regexp => "regexp",
        LeftOut::Static => "static",
        LeftOut::Super => "super",
        LeftOut::Tag => "tag",
        LeftOut::With => "with",
    }
}

/// `grammar WORDS`: what comes of these tokens, and they once more.
pub fn push_row(alloc: Global, out: &mut String, line: &str) -> Result<(), Fault> {
    let answer = answer_to(alloc, line)?;
    write!(out, "{answer}: {line}")?;
    Ok(())
}

/// What comes of the tokens of a line, behind the start of a source.
fn answer_to(alloc: Global, line: &str) -> Result<Answer, AllocError> {
    let mut tree = PartialTree::new(alloc)?;
    tree.take(lexeme(Terminal::Start))?;
    let mut count: usize = 0;
    for word in line.split(' ') {
        let Some(terminal) = terminal_of(word) else {
            return Ok(Answer::Unknown(count));
        };
        if let Some(answer) = stop_at(&mut tree, terminal, count)? {
            return Ok(answer);
        }
        count = count.saturating_add(1);
    }
    Ok(if line.ends_with("end") {
        Answer::Ended(count, tree.events().len())
    } else {
        Answer::Taken(count)
    })
}

/// Takes a token, and says whether reading ends there.
fn stop_at(
    tree: &mut PartialTree,
    terminal: Terminal,
    count: usize,
) -> Result<Option<Answer>, AllocError> {
    let expected = tree.would_take(lexeme(terminal));
    if tree.take(lexeme(terminal))? != expected {
        return Ok(Some(Answer::Disagrees(count)));
    }
    if !expected {
        return Ok(Some(Answer::Refused(count)));
    }
    if let Some(form) = tree.left_out() {
        return Ok(Some(Answer::LeftOut(count, form)));
    }
    if tree.is_too_deep() {
        return Ok(Some(Answer::TooDeep(count)));
    }
    Ok(None)
}

fn lexeme(terminal: Terminal) -> Lexeme {
    Lexeme {
        terminal,
        after_line: false,
        at: 0,
    }
}
