// Asks, with their targets.

ghost use Rattle.std.specs.Prelude.{◌≡◌, IfOk, OnOk};
ghost use Rattle.lava_trace.specs.Asks as spec;

use crate::left::LineReader;
use crate::names::is_word;
use crate::natives::native_of;
use js_desc::ask::Ask;
use js_desc::crossing::CrossBody;
use js_text::native::Native;
use lava_base::ids::Ref;
use lava_base::memory::OutOfMemory;

/// The methods of asks.
#[derive(Clone, Copy)]
pub enum MethodName {
    GetPrototypeOf,
    SetPrototypeOf,
    IsExtensible,
    PreventExtensions,
    GetOwnProperty,
    DefineOwnProperty,
    HasProperty,
    Get,
    Set,
    Delete,
    OwnPropertyKeys,
    Call,
    Construct,
    Import,
    Slot,
    Make,
    Queue,
    Turn,
}

/// The method with a name, and `Turn` where none has it.
#[tactic(auto, unfolding(crate::specs::Asks::method_of))]
fn method_of(word: &[u8]) -> MethodName
    ensures { result ≡ spec.method_of word.now }
{
    if is_word(word, "GetPrototypeOf") {
        return MethodName::GetPrototypeOf;
    }
    if is_word(word, "SetPrototypeOf") {
        return MethodName::SetPrototypeOf;
    }
    if is_word(word, "IsExtensible") {
        return MethodName::IsExtensible;
    }
    if is_word(word, "PreventExtensions") {
        return MethodName::PreventExtensions;
    }
    if is_word(word, "GetOwnProperty") {
        return MethodName::GetOwnProperty;
    }
    if is_word(word, "DefineOwnProperty") {
        return MethodName::DefineOwnProperty;
    }
    if is_word(word, "HasProperty") {
        return MethodName::HasProperty;
    }
    if is_word(word, "Get") {
        return MethodName::Get;
    }
    if is_word(word, "Set") {
        return MethodName::Set;
    }
    if is_word(word, "Delete") {
        return MethodName::Delete;
    }
    if is_word(word, "OwnPropertyKeys") {
        return MethodName::OwnPropertyKeys;
    }
    if is_word(word, "Call") {
        return MethodName::Call;
    }
    if is_word(word, "Construct") {
        return MethodName::Construct;
    }
    if is_word(word, "Import") {
        return MethodName::Import;
    }
    if is_word(word, "Slot") {
        return MethodName::Slot;
    }
    if is_word(word, "Make") {
        return MethodName::Make;
    }
    if is_word(word, "Queue") {
        return MethodName::Queue;
    }
    MethodName::Turn
}

impl<'a> LineReader<'a> {
    /// Reads the native of a Slot.
    #[tactic(auto, unfolding(crate::specs::Asks::native_at))]
    fn native(&mut self, method: MethodName) -> Native
        ensures value { result ≡ (spec.native_at method self.old).0 }
        ensures left { self.new ≡ (spec.native_at method self.old).1 }
    {
        match method {
            MethodName::Slot => {
                self.skip(1);
                let word = self.word();
                self.skip(word.len());
                native_of(word)
            }
            _ => Native::GetProto,
        }
    }

    /// Reads a reference behind a space.
    #[tactic(auto, unfolding(crate::specs::Asks::spaced_object_at))]
    fn spaced_object(&mut self) -> Result<Ref, OutOfMemory>
        ensures value { IfOk result (λ r. r ≡ (spec.spaced_object_at self.old).0) }
        ensures left { OnOk result (self.new ≡ (spec.spaced_object_at self.old).1) }
    {
        self.skip(1);
        self.object()
    }

    /// Reads a target.
    #[tactic(auto, unfolding(crate::specs::Asks::spaced_target_at))]
    fn spaced_target(&mut self) -> Result<Option<Ref>, OutOfMemory>
        ensures value { IfOk result (λ r. r ≡ (spec.spaced_target_at self.old).0) }
        ensures left { OnOk result (self.new ≡ (spec.spaced_target_at self.old).1) }
    {
        Ok(Some(self.spaced_object()?))
    }

    /// Reads the target, if the method has one.
    #[tactic(auto, unfolding(crate::specs::Asks::target_at))]
    fn target(&mut self, method: MethodName) -> Result<Option<Ref>, OutOfMemory>
        ensures value { IfOk result (λ r. r ≡ (spec.target_at method self.old).0) }
        ensures left { OnOk result (self.new ≡ (spec.target_at method self.old).1) }
    {
        match method {
            MethodName::Import => Ok(None),
            MethodName::Make => Ok(None),
            MethodName::Queue => Ok(None),
            MethodName::Turn => Ok(None),
            _ => self.spaced_target(),
        }
    }

    /// Reads what SetPrototypeOf has.
    #[tactic(auto, unfolding(crate::specs::Asks::proto_at))]
    fn proto_items(&mut self) -> Result<Ask, OutOfMemory>
        ensures value { IfOk result (λ a. a ≡ (spec.proto_at self.old).0) }
        ensures left { OnOk result (self.new ≡ (spec.proto_at self.old).1) }
    {
        self.skip(1);
        Ok(Ask::SetPrototypeOf {
            proto: self.object_or_word(4)?,
        })
    }

    /// Reads what DefineOwnProperty has.
    #[tactic(auto, unfolding(crate::specs::Asks::define_at))]
    fn define_items(&mut self) -> Result<Ask, OutOfMemory>
        ensures value { IfOk result (λ a. a ≡ (spec.define_at self.old).0) }
        ensures left { OnOk result (self.new ≡ (spec.define_at self.old).1) }
    {
        let key = self.spaced_key()?;
        self.skip(1);
        let descriptor = self.fields()?;
        Ok(Ask::DefineOwnProperty { key, descriptor })
    }

    /// Reads what Get has.
    #[tactic(auto, unfolding(crate::specs::Asks::get_at))]
    fn get_items(&mut self) -> Result<Ask, OutOfMemory>
        ensures value { IfOk result (λ a. a ≡ (spec.get_at self.old).0) }
        ensures left { OnOk result (self.new ≡ (spec.get_at self.old).1) }
    {
        let key = self.spaced_key()?;
        let receiver = self.spaced_value()?;
        Ok(Ask::Get { key, receiver })
    }

    /// Reads what Set has.
    #[tactic(auto, unfolding(crate::specs::Asks::set_at))]
    fn set_items(&mut self) -> Result<Ask, OutOfMemory>
        ensures value { IfOk result (λ a. a ≡ (spec.set_at self.old).0) }
        ensures left { OnOk result (self.new ≡ (spec.set_at self.old).1) }
    {
        let key = self.spaced_key()?;
        let value = self.spaced_value()?;
        let receiver = self.spaced_value()?;
        Ok(Ask::Set {
            key,
            value,
            receiver,
        })
    }

    /// Reads what Call has.
    #[tactic(auto, unfolding(crate::specs::Asks::call_at))]
    fn call_items(&mut self) -> Result<Ask, OutOfMemory>
        ensures value { IfOk result (λ a. a ≡ (spec.call_at self.old).0) }
        ensures left { OnOk result (self.new ≡ (spec.call_at self.old).1) }
    {
        let this = self.spaced_value()?;
        let args = self.values()?;
        Ok(Ask::Call { this, args })
    }

    /// Reads what Construct has.
    #[tactic(auto, unfolding(crate::specs::Asks::construct_at))]
    fn construct_items(&mut self) -> Result<Ask, OutOfMemory>
        ensures value { IfOk result (λ a. a ≡ (spec.construct_at self.old).0) }
        ensures left { OnOk result (self.new ≡ (spec.construct_at self.old).1) }
    {
        let new_target = self.spaced_object()?;
        let args = self.values()?;
        Ok(Ask::Construct { new_target, args })
    }

    /// Reads what Import has.
    #[tactic(auto, unfolding(crate::specs::Asks::import_at))]
    fn import_items(&mut self) -> Result<Ask, OutOfMemory>
        ensures value { IfOk result (λ a. a ≡ (spec.import_at self.old).0) }
        ensures left { OnOk result (self.new ≡ (spec.import_at self.old).1) }
    {
        let link = self.spaced_text()?;
        let path = self.spaced_text()?;
        Ok(Ask::Import { link, path })
    }

    /// Reads what Make has.
    #[tactic(auto, unfolding(crate::specs::Asks::make_at))]
    fn make_items(&mut self) -> Result<Ask, OutOfMemory>
        ensures value { IfOk result (λ a. a ≡ (spec.make_at self.old).0) }
        ensures left { OnOk result (self.new ≡ (spec.make_at self.old).1) }
    {
        let globals = self.globals()?;
        let modules = self.modules()?;
        Ok(Ask::Make { globals, modules })
    }

    /// Reads the items behind the target.
    #[tactic(auto, unfolding(crate::specs::Asks::items_at))]
    fn items(&mut self, method: MethodName, which: Native) -> Result<Ask, OutOfMemory>
        ensures value { IfOk result (λ a. a ≡ (spec.items_at method which self.old).0) }
        ensures left { OnOk result (self.new ≡ (spec.items_at method which self.old).1) }
    {
        match method {
            MethodName::GetPrototypeOf => Ok(Ask::GetPrototypeOf),
            MethodName::SetPrototypeOf => self.proto_items(),
            MethodName::IsExtensible => Ok(Ask::IsExtensible),
            MethodName::PreventExtensions => Ok(Ask::PreventExtensions),
            MethodName::GetOwnProperty => Ok(Ask::GetOwnProperty {
                key: self.spaced_key()?,
            }),
            MethodName::DefineOwnProperty => self.define_items(),
            MethodName::HasProperty => Ok(Ask::HasProperty {
                key: self.spaced_key()?,
            }),
            MethodName::Get => self.get_items(),
            MethodName::Set => self.set_items(),
            MethodName::Delete => Ok(Ask::Delete {
                key: self.spaced_key()?,
            }),
            MethodName::OwnPropertyKeys => Ok(Ask::OwnPropertyKeys),
            MethodName::Call => self.call_items(),
            MethodName::Construct => self.construct_items(),
            MethodName::Import => self.import_items(),
            MethodName::Slot => Ok(Ask::Slot {
                which,
                args: self.values()?,
            }),
            MethodName::Make => self.make_items(),
            MethodName::Queue => Ok(Ask::Queue),
            MethodName::Turn => Ok(Ask::Turn),
        }
    }

    /// Reads the ask of a method, behind its name.
    #[tactic(auto, unfolding(crate::specs::Asks::named_ask_at))]
    fn named_ask(&mut self, method: MethodName) -> Result<CrossBody, OutOfMemory>
        ensures value { IfOk result (λ b. b ≡ (spec.named_ask_at method self.old).0) }
        ensures left { OnOk result (self.new ≡ (spec.named_ask_at method self.old).1) }
    {
        let which = self.native(method);
        let target = self.target(method)?;
        let ask = self.items(method, which)?;
        Ok(CrossBody::Ask { target, ask })
    }

    /// Reads an ask.
    #[tactic(auto, unfolding(crate::specs::Asks::ask_at))]
    pub(crate) fn ask(&mut self) -> Result<CrossBody, OutOfMemory>
        ensures value { IfOk result (λ b. b ≡ (spec.ask_at self.old).0) }
        ensures left { OnOk result (self.new ≡ (spec.ask_at self.old).1) }
    {
        let word = self.word();
        self.skip(word.len());
        self.named_ask(method_of(word))
    }
}
