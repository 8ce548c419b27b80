// The fields of properties.

ghost use Rattle.std.specs.Prelude.{◌≡◌, ◌||◌, codes, false, is_some, Some, IfOk, OnOk};
ghost use Rattle.js_desc.specs.declared.descriptor.Descriptor.TheVariants.{Accessor, Data};
ghost use Rattle.lava_journal.specs.Bodies as spec;
ghost use Rattle.lava_journal.specs.Bodies.{field, parted};
ghost use Rattle.lava_journal.specs.Pages.{with_each};

use crate::page::{Page, write_word};
use crate::values::{write_object_or_undefined, write_spaced_word, write_truth, write_value};
use js_desc::descriptor::{Descriptor, PartialDescriptor};
use js_text::value::Value;
use lava_base::ids::Ref;
use lava_base::memory::OutOfMemory;

/// Writes the name of a field, behind a space where a field stands before it.
fn write_field_name<P: Page>(page: &mut P, any: bool, name: &str) -> Result<(), OutOfMemory>
    ensures { OnOk result (page.new ≡ with_each P.with_piece page.old
        (spec.name_pieces any name.now)) }
{
    if any {
        write_spaced_word(page, name)
    } else {
        write_word(page, name)
    }
}

/// Writes the value of a property, its first field.
#[tactic(auto, using(crate::proofs::Piece_laws::one_field))]
fn write_value_field<P: Page>(page: &mut P, value: &Value) -> Result<(), OutOfMemory>
    ensures { OnOk result (page.new ≡ with_each P.with_piece page.old
        (parted false (field (codes "value=") spec.value_pieces (Some value.now)))) }
{
    write_word(page, "value=")?;
    write_value(page, value)
}

/// Writes the value, if the field is there, and says whether it is.
#[tactic(auto, using(crate::proofs::Piece_laws::no_pieces))]
fn write_first_field<P: Page>(page: &mut P, value: &Option<Value>) -> Result<bool, OutOfMemory>
    ensures pieces { OnOk result (page.new ≡ with_each P.with_piece page.old
        (parted false (field (codes "value=") spec.value_pieces value.now))) }
    ensures any { IfOk result (λ r. r ≡ is_some value.now) }
{
    match value {
        None => Ok(false),
        Some(value) => {
            write_value_field(page, value)?;
            Ok(true)
        }
    }
}

/// Writes a function of an accessor, if the field is there, and says whether any field stands there now.
fn write_function_field<P: Page>(
    page: &mut P,
    any: bool,
    name: &str,
    function: Option<Option<Ref>>,
) -> Result<bool, OutOfMemory>
    ensures pieces { OnOk result (page.new ≡ with_each P.with_piece page.old
        (parted any (field name.now spec.object_or_undefined function))) }
    ensures any { IfOk result (λ r. r ≡ (any || is_some function)) }
{
    match function {
        None => Ok(any),
        Some(function) => {
            write_field_name(page, any, name)?;
            write_object_or_undefined(page, function)?;
            Ok(true)
        }
    }
}

/// Writes an attribute, if the field is there, and says whether any field stands there now.
fn write_flag_field<P: Page>(
    page: &mut P,
    any: bool,
    name: &str,
    flag: Option<bool>,
) -> Result<bool, OutOfMemory>
    ensures pieces { OnOk result (page.new ≡ with_each P.with_piece page.old
        (parted any (field name.now spec.truth_pieces flag))) }
    ensures any { IfOk result (λ r. r ≡ (any || is_some flag)) }
{
    match flag {
        None => Ok(any),
        Some(flag) => {
            write_field_name(page, any, name)?;
            write_truth(page, flag)?;
            Ok(true)
        }
    }
}

/// Writes the functions of an accessor, and says whether any field stands there now.
fn write_function_fields<P: Page>(
    page: &mut P,
    any: bool,
    get: Option<Option<Ref>>,
    set: Option<Option<Ref>>,
) -> Result<bool, OutOfMemory>
    ensures pieces { OnOk result (page.new ≡ with_each P.with_piece page.old
        (parted any (spec.function_fields get set))) }
    ensures any { IfOk result (λ r. r ≡ ((any || is_some get) || is_some set)) }
{
    let any = write_function_field(page, any, "get=", get)?;
    write_function_field(page, any, "set=", set)
}

/// Writes the attributes that are there.
fn write_flag_fields<P: Page>(
    page: &mut P,
    any: bool,
    writable: Option<bool>,
    enumerable: Option<bool>,
    configurable: Option<bool>,
) -> Result<(), OutOfMemory>
    ensures { OnOk result (page.new ≡ with_each P.with_piece page.old
        (parted any (spec.flag_fields writable enumerable configurable))) }
{
    let any = write_flag_field(page, any, "writable=", writable)?;
    let any = write_flag_field(page, any, "enumerable=", enumerable)?;
    write_flag_field(page, any, "configurable=", configurable)?;
    Ok(())
}

/// Writes the fields of a definition.
pub(crate) fn write_fields<P: Page>(
    page: &mut P,
    fields: &PartialDescriptor,
) -> Result<(), OutOfMemory>
    ensures { OnOk result (page.new ≡ with_each P.with_piece page.old
        (spec.fields_pieces fields.now)) }
{
    write_word(page, "{")?;
    let any = write_first_field(page, &fields.value)?;
    let any = write_function_fields(page, any, fields.get, fields.set)?;
    write_flag_fields(
        page,
        any,
        fields.writable,
        fields.enumerable,
        fields.configurable,
    )?;
    write_word(page, "}")
}

/// Writes the fields of a data property.
fn write_data_fields<P: Page>(
    page: &mut P,
    value: &Value,
    writable: bool,
    enumerable: bool,
    configurable: bool,
) -> Result<(), OutOfMemory>
    ensures { let property = Data value.now writable enumerable configurable in
        OnOk result (page.new ≡ with_each P.with_piece page.old
        (spec.property_pieces (Some property))) }
{
    write_word(page, "{")?;
    write_value_field(page, value)?;
    write_flag_fields(
        page,
        true,
        Some(writable),
        Some(enumerable),
        Some(configurable),
    )?;
    write_word(page, "}")
}

/// Writes the fields of an accessor.
fn write_accessor_fields<P: Page>(
    page: &mut P,
    get: Option<Ref>,
    set: Option<Ref>,
    enumerable: bool,
    configurable: bool,
) -> Result<(), OutOfMemory>
    ensures { let property = Accessor get set enumerable configurable in
        OnOk result (page.new ≡ with_each P.with_piece page.old
        (spec.property_pieces (Some property))) }
{
    write_word(page, "{")?;
    let any = write_function_fields(page, false, Some(get), Some(set))?;
    write_flag_fields(page, any, None, Some(enumerable), Some(configurable))?;
    write_word(page, "}")
}

/// Writes a property, or `none`.
pub(crate) fn write_property<P: Page>(
    page: &mut P,
    property: &Option<Descriptor>,
) -> Result<(), OutOfMemory>
    ensures { OnOk result (page.new ≡ with_each P.with_piece page.old
        (spec.property_pieces property.now)) }
{
    match property {
        None => write_word(page, "none"),
        Some(
            Descriptor::Data {
                value,
                writable,
                enumerable,
                configurable,
            },
        ) => write_data_fields(page, value, *writable, *enumerable, *configurable),
        Some(
            Descriptor::Accessor {
                get,
                set,
                enumerable,
                configurable,
            },
        ) => write_accessor_fields(page, *get, *set, *enumerable, *configurable),
    }
}
