//! A value beside one that may be wanting.
ghost use Rattle.cq_values.specs.Pairs.{IsBoth};

/// The value beside what was made next. Where that is wanting, so are both, and the value is let go.
pub fn both<T: Drop, U, E>(first: T, second: Result<U, E>) -> Result<(T, U), E>
    ensures { IsBoth first second result }
{
    match second {
        Ok(second) => Ok((first, second)),
        Err(fault) => {
            drop(first);
            Err(fault)
        }
    }
}
