//! What holds of queries with one core.
ghost use Rattle.cq_model_core.specs.Laws.{CoreAnswers, CoreIsTold};

/// The test tells exactly the queries that have the core of another one.
pub fn core_is_told()
    ensures { CoreIsTold }
{}

/// A query with the core of a view means the view's rows, with its own DISTINCT, and the same totals can be shown.
pub fn core_answers()
    ensures { CoreAnswers }
{}
