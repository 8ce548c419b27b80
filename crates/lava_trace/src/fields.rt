// Properties and their fields.

ghost use Rattle.std.specs.Prelude.{◌≡◌, IfOk, OnOk};
ghost use Rattle.lava_trace.specs.Items as spec;

use crate::left::LineReader;
use js_desc::complete::complete;
use js_desc::descriptor::{Descriptor, PartialDescriptor};
use js_text::value::Value;
use lava_base::ids::Ref;
use lava_base::memory::OutOfMemory;

impl<'a> LineReader<'a> {
    /// Reads an attribute, if the field is there.
    #[tactic(auto, unfolding(crate::specs::Items::flag_at))]
    fn flag(&mut self, name: &str) -> Option<bool>
        ensures value { result ≡ (spec.flag_at name.now self.old).0 }
        ensures left { self.new ≡ (spec.flag_at name.now self.old).1 }
    {
        self.space();
        if self.mark(name) {
            return Some(self.truth());
        }
        None
    }

    /// Reads a function of an accessor, if the field is there.
    #[tactic(auto, unfolding(crate::specs::Items::function_at))]
    fn function(&mut self, name: &str) -> Result<Option<Option<Ref>>, OutOfMemory>
        ensures value { IfOk result (λ f. f ≡ (spec.function_at name.now self.old).0) }
        ensures left { OnOk result (self.new ≡ (spec.function_at name.now self.old).1) }
    {
        self.space();
        if self.mark(name) {
            return Ok(Some(self.object_or_word(9)?));
        }
        Ok(None)
    }

    /// Reads the value of a property, if the field is there.
    #[tactic(auto, unfolding(crate::specs::Items::value_field_at))]
    fn value_field(&mut self) -> Result<Option<Value>, OutOfMemory>
        ensures value { IfOk result (λ v. v ≡ (spec.value_field_at self.old).0) }
        ensures left { OnOk result (self.new ≡ (spec.value_field_at self.old).1) }
    {
        if self.mark("value=") {
            return Ok(Some(self.value()?));
        }
        Ok(None)
    }

    /// Reads the fields of a definition between `{` and `}`.
    #[tactic(auto, unfolding(crate::specs::Items::fields_at))]
    pub(crate) fn fields(&mut self) -> Result<PartialDescriptor, OutOfMemory>
        ensures value { IfOk result (λ d. d ≡ (spec.fields_at self.old).0) }
        ensures left { OnOk result (self.new ≡ (spec.fields_at self.old).1) }
    {
        self.skip(1);
        let value = self.value_field()?;
        let get = self.function("get=")?;
        let set = self.function("set=")?;
        let writable = self.flag("writable=");
        let enumerable = self.flag("enumerable=");
        let configurable = self.flag("configurable=");
        self.skip(1);
        Ok(PartialDescriptor {
            value,
            writable,
            get,
            set,
            enumerable,
            configurable,
        })
    }

    /// Reads a property, or `none`.
    #[tactic(auto, unfolding(crate::specs::Items::property_at))]
    pub(crate) fn property(&mut self) -> Result<Option<Descriptor>, OutOfMemory>
        ensures value { IfOk result (λ p. p ≡ (spec.property_at self.old).0) }
        ensures left { OnOk result (self.new ≡ (spec.property_at self.old).1) }
    {
        if self.byte(0) == b'{' {
            let fields = self.fields()?;
            return Ok(Some(complete(&fields)?));
        }
        self.skip(4);
        Ok(None)
    }
}
