// The natives on texts, and those that convert their operand.

ghost use Rattle.std.specs.Prelude.{◌≡◌, ℕ, ℤ, List, Option, IfOk};
ghost use Rattle.js_run_laws.specs.js_conversions.Primitives.{ReadsNumbers};
ghost use Rattle.js_native.specs.TextNatives.{FindsFirst};
ghost use Rattle.js_natives.specs.Decided.{conversion_native, convert_value, text_native};

use js_desc::decision::Decision;
use js_desc::fault::FaultText;
use js_native::text_natives::{ascii_text, concat_texts, index_in, slice_text, unit_at};
use js_native_steps::next::{NativeNext, of_conversion, of_text};
use js_run_laws::js_conversions::conversions::{convert, convert_key, convert_text};
use js_run_laws::js_conversions::next::Wanted;
use js_text::native::Native;
use js_text::value::Value;
use lava_base::memory::OutOfMemory;
use std::alloc::Global;

/// What one of the natives on texts decides.
pub(crate) fn text_native(
    alloc: Global,
    which: Native,
    args: &[Value],
) -> Result<Decision<NativeNext>, OutOfMemory>
    ensures { (find : List ℕ → List ℕ → ℕ → Option ℕ) → FindsFirst find
        → IfOk result (λ d. d ≡ text_native find which args.now) }
{
    match which {
        Native::UnitAt => Ok(of_text(unit_at(args))),
        Native::Slice => Ok(of_text(slice_text(alloc, args)?)),
        Native::IndexIn => Ok(of_text(index_in(args))),
        Native::Concat => Ok(of_text(concat_texts(alloc, args)?)),
        Native::Ascii => Ok(of_text(ascii_text(alloc, args)?)),
        _ => Ok(Decision::Fault(FaultText::WrongKind)),
    }
}

/// What one of the natives decides that convert a value.
fn convert_value(
    alloc: Global,
    which: Native,
    value: &Value,
) -> Result<Decision<NativeNext>, OutOfMemory>
    ensures { (read : List ℕ → Option ℤ) → ReadsNumbers read
        → IfOk result (λ d. d ≡ convert_value read which value.now) }
{
    match which {
        Native::ToText => Ok(of_conversion(convert_text(alloc, value)?)),
        Native::ToNumber => Ok(of_conversion(convert(alloc, Wanted::Number, value)?)),
        Native::ToKey => Ok(of_conversion(convert_key(alloc, value)?)),
        _ => Ok(Decision::Fault(FaultText::WrongKind)),
    }
}

/// What one of the natives decides that convert their operand.
pub(crate) fn conversion_native(
    alloc: Global,
    which: Native,
    args: &[Value],
) -> Result<Decision<NativeNext>, OutOfMemory>
    ensures { (read : List ℕ → Option ℤ) → ReadsNumbers read
        → IfOk result (λ d. d ≡ conversion_native read which args.now) }
{
    match args {
        [value] => convert_value(alloc, which, value),
        _ => Ok(Decision::Fault(FaultText::WrongKind)),
    }
}
