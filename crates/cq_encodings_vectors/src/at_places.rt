//! Some places of a column that is lent.
ghost use Rattle.std.specs.Prelude.{IfOk, IfSome, length, ◌≡◌, ◌≤◌};
ghost use Rattle.cq_encodings_vectors.specs.Places.{AreAt, AreBelow};
ghost use Rattle.cq_values.specs.Lent.{owned};
ghost use Rattle.cq_vectors.specs.Form.{values_in};

use crate::days_at::days_at;
use crate::numbers_at::{above_at, numbers_at};
use crate::run_at::run_at;
use crate::texts_at::entries_at;
use cq_values::Lent;
use cq_vectors::Form;
use std::alloc::{AllocError, Global};

/// The values of some places in a form of their own, or None of forms that are read one by one.
pub(crate) fn form_at<'a>(
    alloc: Global,
    form: &Form<'a>,
    places: &[u16],
) -> Result<Option<Form<'a>>, AllocError>
    requires few { length places.now ≤ 1024 }
    requires there { AreBelow (length (values_in form.now)) places.now }
    ensures { IfOk result (λ found. IfSome found (AreAt form.now places.now)) }
{
    match form {
        Form::Codes(codes) => Ok(Some(Form::Codes(entries_at(alloc, codes, places)?))),
        Form::LentNumbers(numbers) => Ok(Some(Form::Numbers(numbers_at(alloc, numbers, places)?))),
        Form::Narrow(numbers) => Ok(Some(Form::Narrow(above_at(alloc, numbers, places)?))),
        Form::NarrowDays(days) => match days_at(alloc, days, places)? {
            Some(days) => Ok(Some(Form::Days(days))),
            None => Ok(None),
        },
        Form::Run(texts) => Ok(Some(Form::Texts(run_at(alloc, texts, places)?))),
        Form::Constant(value, _) => Ok(Some(Form::Constant(lend_again(value), places.len()))),
        _ => Ok(None),
    }
}

/// The same value, lent once more.
fn lend_again<'a>(value: &Lent<'a>) -> Lent<'a>
    ensures { owned result ≡ owned value.now }
{
    match value {
        Lent::Number(number) => Lent::Number(*number),
        Lent::Day(day) => Lent::Day(*day),
        Lent::Text(text) => Lent::Text(*text),
        Lent::Null => Lent::Null,
    }
}
