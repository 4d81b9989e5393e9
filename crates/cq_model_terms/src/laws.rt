//! What holds of trees whose columns are renamed, and of those that name one source alone.
ghost use Rattle.cq_model_terms.specs.Laws.{NamedColumnsAreRead, RenamedTermsAreAsWide, RenamedTermsMeanSame};

/// With its columns renamed a tree means the same, in a row that has there what the tree reads.
pub fn renamed_terms_mean_same()
    ensures { RenamedTermsMeanSame }
{}

/// What it works out on the way is as wide.
pub fn renamed_terms_are_as_wide()
    ensures { RenamedTermsAreAsWide }
{}

/// A tree that names the columns of one source alone reads no other one.
pub fn named_columns_are_read()
    ensures { NamedColumnsAreRead }
{}
