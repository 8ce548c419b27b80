// Literals and the labels of loops.

ghost use Rattle.std.specs.Prelude.{◌≡◌, length, IfOk};
ghost use Rattle.js_code.specs.Decoded.{layer_of, texts_of};
ghost use Rattle.js_code.specs.Settled.{Extends, Gives, Holds};
ghost use Rattle.js_term.specs.declared.term.Arguments.TheOpen.{Term-F};

use crate::code::Code;
use crate::node::Node;
use js_term::term::Literal;
use js_text::text::Text;
use lava_base::memory::OutOfMemory;
use sqlite_items::Items;

/// The row of a literal, whose text is appended.
pub(crate) fn literal(code: &mut Code, value: &Literal) -> Result<Node, OutOfMemory>
    ensures extends { Extends code.old code.new }
    ensures row { Gives result (λ row. λ c low. layer_of c low row) code.new
        (Term-F.Lit value.now) }
{
    match value {
        Literal::Undefined => Ok(Node::Undefined),
        Literal::Null => Ok(Node::Null),
        Literal::Bool(truth) => Ok(Node::Bool(*truth)),
        Literal::Int(integer) => Ok(Node::Int(*integer)),
        Literal::Text(text) => {
            let text = code.push_text(text)?;
            Ok(Node::Text(text))
        }
        Literal::Iterator => Ok(Node::Iterator),
        Literal::Common(object) => Ok(Node::Common(object.0)),
    }
}

/// Appends the labels of a loop, and then the list of their places.
pub(crate) fn labels(code: &mut Code, list: &Items<Text>) -> Result<(u32, u32), OutOfMemory>
    ensures extends { Extends code.old code.new }
    ensures labels { Gives result (λ at. λ c low. texts_of c at.0 at.1) code.new
        list.now }
{
    let mut places = Vec::new(code.alloc());
    let names = list.as_slice();
    for label in names {
        let at = code.push_text(label)?;
        places.push(at)?;
    }
    code.push_numbers(&places)
}
