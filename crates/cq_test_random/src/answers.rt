//! Answers of the two engines.
use crate::difference::Difference;
use cq_binder_rules::Fault;
use cq_model_step::Answer;
use cq_test_plain::PlainFault;
use cq_values::Row;
use cq_values_rows::{LentRow, RowList};

/// Whether both answer the same rows, or both refuse a total; else that they do not.
pub(crate) fn check_alike(
    answer: &Result<Answer, Fault>,
    meant: &Result<Vec<Row>, PlainFault>,
) -> Result<(), Difference> {
    match (answer, meant) {
        (Err(Fault::SumOutOfRange), Err(PlainFault::SumOutOfRange)) => Ok(()),
        (Ok(Answer::Rows { rows, .. }), Ok(meant)) => {
            if are_meant(rows, meant) {
                Ok(())
            } else {
                Err(Difference::Answer)
            }
        }
        (Err(fault), _) => Err(Difference::Refused(*fault)),
        (_, Err(fault)) => Err(Difference::NotWorkedOut(*fault)),
        _ => Err(Difference::Answer),
    }
}

/// Whether these are the rows, in their order.
pub(crate) fn are_meant(rows: &RowList, meant: &[Row]) -> bool {
    if rows.len() != meant.len() {
        return false;
    }
    for (place, row) in meant.iter().enumerate() {
        if rows.row(place).cmp(&LentRow::of(row.as_slice())).is_ne() {
            return false;
        }
    }
    true
}
