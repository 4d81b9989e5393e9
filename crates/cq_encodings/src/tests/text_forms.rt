//! The forms of texts, none of which is NULL.
use super::{are_read_back, chosen, name_of, texts};
use crate::choose_texts;
use cq_values::Value;
use std::alloc::{AllocError, Global};
use std::test::Fail;

/// The name of the form that is chosen for texts, where they are read back from it.
fn chosen_for_texts(alloc: Global, values: &[Value]) -> Result<&'static str, AllocError> {
    let mut texts = Vec::new(alloc);
    for value in values {
        if let Value::Text(text) = value {
            texts.push(text.as_str())?;
        }
    }
    let encoded = choose_texts(alloc, &texts)?;
    let same = are_read_back(alloc, &encoded, values)?;
    Ok(if same { name_of(&encoded) } else { "none" })
}

#[test]
fn texts_are_kept_as_their_values_are(rt: HostRuntime) -> Result<(), Fail> {
    // how many texts are different, of how many, and the form that they are kept in
    let cases = [
        (1, 0, "runs"),
        (1, 1, "runs"),
        (1, 1_030, "runs"),
        (2, 2, "plain"),
        (250, 1_000, "dict"),
        (251, 1_000, "plain"),
        (257, 1_030, "dict"),
        (257, 1_027, "plain"),
    ];
    for (different, len, form) in cases {
        let values = texts(rt.alloc(), different, len)?;
        assert_eq!(rt; chosen(rt.alloc(), &values)?, form, "{different} of {len}");
        assert_eq!(rt;
            chosen_for_texts(rt.alloc(), &values)?,
            form,
            "{different} of {len}"
        );
    }
    Ok(())
}
