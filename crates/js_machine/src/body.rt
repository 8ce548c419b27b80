// A body that is open.

use js_term::term::TemplateKind;
use js_text::value::Value;
use lava_base::ids::Ref;

/// What a body runs with (ECMA-262, "Execution Contexts", "Function Environment Records"). A derived constructor has no `this` before its `super` call.
#[derive(Drop)]
pub struct Body {
    pub kind: TemplateKind,
    /// The scope where the body below it stands.
    pub back: u32,
    pub this: Option<Value>,
    pub new_target: Option<Ref>,
    pub function: Option<Ref>,
    pub home: Option<Ref>,
}
