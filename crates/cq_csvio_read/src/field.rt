//! The value of a field for a column.
ghost use Rattle.std.specs.Prelude.{◌≡◌};
ghost use Rattle.cq_binder_rules.specs.Fields.{field_value, is_null_field, null_in, stored_text, text_in, typed_field};
ghost use Rattle.cq_csvio_read.specs.Reading.{value_in};
ghost use Rattle.cq_values.specs.declared.ty.Ty.TheVariants as types;

use crate::number::read_number;
use cq_binder_rules::Fault;
use cq_model::MAX_TEXT;
use cq_values::{ColumnDef, Lent, Ty, date_of};

/// The value of a field for a column, where it stands, or its refusal, which may name the record.
pub(crate) fn read_field<'a>(
    at: u64,
    column: &ColumnDef,
    field: &'a [u8],
) -> Result<Lent<'a>, Fault>
    ensures { value_in result ≡ field_value at column.now field.now }
{
    if is_null(column.ty, field) {
        return null_in(column);
    }
    match column.ty {
        Ty::Integer => read_number(at, field),
        ty => match str::from_utf8(field) {
            Ok(text) => read_typed(at, ty, text),
            Err(_) => Err(Fault::BadRecord(at)),
        },
    }
}

/// The value of a text that is not NULL, in a column of this type.
fn read_typed<'a>(at: u64, ty: Ty, text: &'a str) -> Result<Lent<'a>, Fault>
    ensures { value_in result ≡ typed_field at ty text.now }
{
    match ty {
        Ty::Integer => read_number(at, text.as_bytes()),
        Ty::Text => read_text(text),
        Ty::Date => read_date(at, text),
    }
}

fn is_null(ty: Ty, field: &[u8]) -> bool
    ensures { result ≡ is_null_field ty field.now }
{
    match field {
        [] => ty != Ty::Text,
        [b'\\', b'N'] => true,
        _ => false,
    }
}

fn null_in<'a>(column: &ColumnDef) -> Result<Lent<'a>, Fault>
    ensures { value_in result ≡ null_in column.now }
{
    if column.not_null {
        return Err(Fault::NullNotAllowed);
    }
    Ok(Lent::Null)
}

fn read_text(text: &str) -> Result<Lent<'_>, Fault>
    ensures { value_in result ≡ stored_text (text_in text.now) }
{
    let stored = unescaped(text);
    if MAX_TEXT < stored.len() {
        return Err(Fault::TextTooLong);
    }
    Ok(Lent::Text(stored))
}

/// The text without the first of two backslashes in front of it.
fn unescaped(text: &str) -> &str
    ensures { result.now ≡ text_in text.now }
{
    match text.as_bytes() {
        [b'\\', b'\\', ..] => &text[1..],
        _ => text,
    }
}

fn read_date<'a>(at: u64, text: &str) -> Result<Lent<'a>, Fault>
    ensures { value_in result ≡ typed_field at types.Date text.now }
{
    if let [b'\\', ..] = text.as_bytes() {
        return Err(Fault::BadRecord(at));
    }
    match date_of(text) {
        Ok(day) => Ok(Lent::Day(day)),
        Err(_) => Err(Fault::BadDate),
    }
}
