// What a native that waits needs to go on.

ghost use Rattle.std.specs.Prelude.{◌≡◌};
ghost use Rattle.js_native_steps.specs.Steps.{of_conversion, of_maker, of_object, of_slot, of_text};

use js_desc::decision::Decision;
use js_desc::fault::FaultText;
use js_native::next::Next as TextNext;
use js_run::js_conversions::next::Next as ConversionNext;
use js_run::js_maker_natives::next::Next as MakerNext;
use js_run::js_object_natives::next::Next as ObjectNext;
use js_run::js_slot_natives::next::Next as SlotNext;

/// What a native waits for: those on objects, those that make objects, those on collections, and conversions.
#[derive(Drop)]
pub enum NativeNext {
    Object(ObjectNext),
    Maker(MakerNext),
    Slot(SlotNext),
    Conversion(ConversionNext),
}

/// A decision of a native on texts, which asks nothing.
pub fn of_text(decision: Decision<TextNext>) -> Decision<NativeNext>
    ensures { result ≡ of_text decision }
{
    match decision {
        Decision::Done(reply) => Decision::Done(reply),
        Decision::Fault(text) => Decision::Fault(text),
        Decision::End(kind) => Decision::End(kind),
        _ => Decision::Fault(FaultText::WrongKind),
    }
}

/// A decision of a native on objects.
pub fn of_object(decision: Decision<ObjectNext>) -> Decision<NativeNext>
    ensures { result ≡ of_object decision }
{
    match decision {
        Decision::Done(reply) => Decision::Done(reply),
        Decision::Fault(text) => Decision::Fault(text),
        Decision::Ask { target, ask, next } => Decision::Ask {
            target,
            ask,
            next: NativeNext::Object(next),
        },
        Decision::Number { value, next } => Decision::Number {
            value,
            next: NativeNext::Object(next),
        },
        Decision::Run {
            body,
            this,
            args,
            new_target,
        } => Decision::Run {
            body,
            this,
            args,
            new_target,
        },
        Decision::End(kind) => Decision::End(kind),
    }
}

/// A decision of a native that tells kinds or makes objects.
pub fn of_maker(decision: Decision<MakerNext>) -> Decision<NativeNext>
    ensures { result ≡ of_maker decision }
{
    match decision {
        Decision::Done(reply) => Decision::Done(reply),
        Decision::Fault(text) => Decision::Fault(text),
        Decision::Ask { target, ask, next } => Decision::Ask {
            target,
            ask,
            next: NativeNext::Maker(next),
        },
        Decision::Number { value, next } => Decision::Number {
            value,
            next: NativeNext::Maker(next),
        },
        Decision::Run {
            body,
            this,
            args,
            new_target,
        } => Decision::Run {
            body,
            this,
            args,
            new_target,
        },
        Decision::End(kind) => Decision::End(kind),
    }
}

/// A decision of a native on collections.
pub fn of_slot(decision: Decision<SlotNext>) -> Decision<NativeNext>
    ensures { result ≡ of_slot decision }
{
    match decision {
        Decision::Done(reply) => Decision::Done(reply),
        Decision::Fault(text) => Decision::Fault(text),
        Decision::Ask { target, ask, next } => Decision::Ask {
            target,
            ask,
            next: NativeNext::Slot(next),
        },
        Decision::Number { value, next } => Decision::Number {
            value,
            next: NativeNext::Slot(next),
        },
        Decision::Run {
            body,
            this,
            args,
            new_target,
        } => Decision::Run {
            body,
            this,
            args,
            new_target,
        },
        Decision::End(kind) => Decision::End(kind),
    }
}

/// A decision of a native that converts its operand.
pub fn of_conversion(decision: Decision<ConversionNext>) -> Decision<NativeNext>
    ensures { result ≡ of_conversion decision }
{
    match decision {
        Decision::Done(reply) => Decision::Done(reply),
        Decision::Fault(text) => Decision::Fault(text),
        Decision::Ask { target, ask, next } => Decision::Ask {
            target,
            ask,
            next: NativeNext::Conversion(next),
        },
        Decision::Number { value, next } => Decision::Number {
            value,
            next: NativeNext::Conversion(next),
        },
        Decision::Run {
            body,
            this,
            args,
            new_target,
        } => Decision::Run {
            body,
            this,
            args,
            new_target,
        },
        Decision::End(kind) => Decision::End(kind),
    }
}
