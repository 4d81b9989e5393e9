//! What holds of every tree.
ghost use Rattle.std.specs.Prelude.{◌≡◌, List};
ghost use Rattle.cq_sql_language.specs.Sentence.{IsStatement};
ghost use Rattle.cq_sql_language.specs.declared.statement.Statement.{Statement};
ghost use Rattle.cq_sql_language.specs.declared.token.Token.{Token};

/// A list of tokens has at most one tree.
pub fn one_tree()
    ensures { (ts : List Token) (s t : Statement) → IsStatement s ts → IsStatement t ts → s ≡ t }
{}
