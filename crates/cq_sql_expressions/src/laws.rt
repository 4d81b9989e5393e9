//! What holds of every expression.
ghost use Rattle.std.specs.Prelude.{◌≡◌, List};
ghost use Rattle.cq_sql_language.specs.Expression.{IsExpression};
ghost use Rattle.cq_sql_language.specs.Written.{Written};
ghost use Rattle.cq_sql_language.specs.declared.token.Token.{Token};

/// A list of tokens is at most one expression.
pub fn one_expression()
    ensures { (v w : Written) (ts : List Token) → IsExpression v ts → IsExpression w ts → v ≡ w }
{}
