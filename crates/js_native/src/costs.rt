// What a native costs, in steps.

ghost use Rattle.std.specs.Prelude.{◌≡◌, ◌≤◌, ◌<◌, ◌*◌, ◌^◌, length};
ghost use Rattle.js_native.specs.Costs.{makes_text, native_cost, unit_steps, units_of_values};
ghost use Rattle.js_native.specs.TextNatives.{text_of_value};

use js_text::native::Native;
use js_text::value::Value;

/// How many units count as one step.
pub const UNITS_A_STEP: u64 = 16;

/// Whether a native makes a text, whose units are charged once it is known.
pub fn makes_text(which: Native) -> bool
    ensures { result ≡ makes_text which }
{
    match which {
        Native::ClassOf
        | Native::FromUnits
        | Native::Slice
        | Native::Concat
        | Native::ToText
        | Native::ToKey
        | Native::Ascii => true,
        _ => false,
    }
}

/// The steps of so many units.
pub fn unit_steps(units: u64) -> u64
    ensures { result ≡ unit_steps units }
{
    units / UNITS_A_STEP
}

/// The units of a value that is a text, and none for any other.
fn units_of_value(value: &Value) -> u64
    ensures units { result ≡ length (text_of_value value.now) }
    ensures within { result ≤ 1048576 }
{
    match value {
        Value::Text(text) => text.len() as u64,
        _ => 0,
    }
}

/// How many units the texts among values have together.
#[tactic(auto, using(crate::proofs::Cost_laws::units_step, crate::proofs::Cost_laws::units_all))]
pub fn units_of_values(values: &[Value]) -> u64
    requires { length values.now < 2 ^ 32 }
    ensures units { result ≡ units_of_values values.now }
    ensures within { result ≤ 1048576 * length values.now }
{
    let mut units = 0;
    for value in values {
        units += units_of_value(value);
    }
    units
}

/// The steps that a native costs when it begins. `listed` is how many units the texts in the arrays have that it reads.
pub fn native_cost(which: Native, args: &[Value], listed: u64) -> u64
    requires few { length args.now < 2 ^ 32 }
    requires short { listed < 2 ^ 60 }
    ensures { result ≡ native_cost which args.now listed }
{
    if makes_text(which) {
        return 1;
    }
    1 + unit_steps(units_of_values(args) + listed)
}
