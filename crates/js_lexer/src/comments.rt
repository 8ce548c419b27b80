// Comments (ECMA-262, "Comments").

ghost use Rattle.std.specs.Prelude.{◌≡◌};
ghost use Rattle.js_lexer.specs.Machines.{run, Gives};
ghost use Rattle.js_lexer.specs.Comments.{comment_step, comment_stop};
ghost use Rattle.js_lexer.specs.Grammar.{in_line};
ghost use Rattle.js_lexer.specs.Skipping.{skip};
ghost use Rattle.js_lexer.specs.declared.comments.Comment.TheVariants as comments;

use crate::characters::is_line_terminator;
use crate::cursor::Cursor;
use crate::machine::{Machine, Step, Stop, read};

/// How far a comment between `/*` and `*/` is read.
#[derive(Clone, Copy, Debug, PartialEq, Eq)]
pub enum Comment {
    /// The last character was no asterisk.
    Inside,
    /// The last character was an asterisk.
    Asterisk,
}

impl Machine for Comment {
    ghost steps = { comment_step };

    ghost stops = { comment_stop };

    type Outcome = ();

    fn step(self, c: char) -> Step<Comment, ()> {
        match self {
            Comment::Asterisk if c == '/' => Step::With(()),
            _ if c == '*' => Step::Go(Comment::Asterisk),
            _ => Step::Go(Comment::Inside),
        }
    }

    fn stop(self) -> Result<(), Stop> {
        Err(Stop::Cut)
    }
}

/// Takes the rest of a comment behind its `/*`. The text may end before it does.
pub fn block_comment(cursor: &mut Cursor) -> Result<(), Stop>
    ensures { Gives (run comment_step comment_stop comments.Inside cursor.old) result cursor.new }
{
    read(cursor, Comment::Inside)
}

/// Takes what is left of a line, but not what ends it.
pub fn skip_line(cursor: &mut Cursor)
    ensures { cursor.new ≡ skip in_line cursor.old }
{
    while let Some(c) = cursor.peek() {
        if is_line_terminator(c) {
            break;
        }
        cursor.bump();
    }
}
