//! What holds of every expression that has no fault.
ghost use Rattle.cq_binder_expressions.specs.Expressions.{ArgumentsAreNarrow, TypedIsNarrow};
ghost use Rattle.cq_binder_expressions.specs.Types.{TypedIsOfItsKind};

/// Nothing in an expression without a fault is too wide where its columns and its aggregates keep their sizes.
pub fn typed_is_narrow()
    ensures { TypedIsNarrow }
{}

/// Nothing in an argument of its aggregates is too wide where the columns of the rows keep their sizes.
pub fn arguments_are_narrow()
    ensures { ArgumentsAreNarrow }
{}

/// The value of an expression without a fault over rows is of its type, or NULL, in a row whose values are of their columns'
/// types.
pub fn typed_is_of_its_kind()
    ensures { TypedIsOfItsKind }
{}
