//! The rows of an INSERT.
ghost use Rattle.std.specs.Prelude.{◌<◌, ◌≡◌, IfSome, false, length};
ghost use Rattle.cq_sql_language.specs.declared.statement.Constant.TheVariants as constants;
ghost use Rattle.cq_sql_expressions.specs.declared.leads.Lead.TheVariants as leads;
ghost use Rattle.cq_sql_expressions.specs.Gives.{Gives};
ghost use Rattle.cq_sql_expressions.specs.Lists.{list_at};
ghost use Rattle.cq_sql.specs.Parts.{row_at};
ghost use Rattle.cq_sql.specs.Rows.{last_row_at, more_rows_at, number_behind_comma, row_behind};

use crate::constants::Constants;
use cq_sql_expressions::{Readable, SqlFault, after_symbol, expect_symbol};
use cq_sql_language::{Constant, ConstantRows, Literal, Symbol, Token};
use std::alloc::Global;

/// At least one row, and each later one behind a comma.
#[tactic(auto, using(crate::proofs::RowReads::list_same))]
pub fn rows_at(alloc: Global, tokens: &[Token]) -> Result<(ConstantRows, &[Token]), SqlFault>
    ensures { Gives (λ x. (x.0, x.1.now)) result (list_at leads.Comma row_at tokens.now) }
{
    // A constant has a sign behind it, and a row with its comma has four tokens or more.
    let len = tokens.len();
    let mut rows = ConstantRows::with_capacity(alloc, len / 4 + 1, len / 2 + 1)?;
    let rest = read_row(alloc, &mut rows, tokens)?;
    let rest = more_rows(alloc, &mut rows, rest)?;
    Ok((rows, rest))
}

/// More rows behind those that were read before, each behind its comma.
#[tactic(auto, unfolding(crate::specs::Rows::more_rows_at, cq_sql_expressions::specs::Lists::more_at))]
fn more_rows<'a>(
    alloc: Global,
    rows: &mut ConstantRows,
    tokens: &'a [Token],
) -> Result<&'a [Token], SqlFault>
    ensures { Gives (λ rest. (rows.new, rest.now)) result (more_rows_at rows.old tokens.now) }
{
    let mut rest = tokens;
    for _ in 0..tokens.len() {
        match after_symbol(Symbol::Comma, rest) {
            Some(after) => rest = read_row(alloc, rows, after)?,
            None => return Ok(rest),
        }
    }
    Ok(rest)
}

/// A row, which comes behind those that were read before.
#[tactic(auto, unfolding(crate::specs::Rows::row_behind), using(crate::proofs::RowReads::first_pushed, crate::proofs::RowReads::first_there))]
fn read_row<'a>(
    alloc: Global,
    rows: &mut ConstantRows,
    tokens: &'a [Token],
) -> Result<&'a [Token], SqlFault>
    ensures { Gives (λ rest. (rows.new, rest.now)) result (row_behind rows.old tokens.now) }
{
    let rest = expect_symbol(Symbol::Open, tokens)?;
    let (first, rest) = Constants::read(alloc, rest)?;
    rows.begin_row()?;
    rows.push(first)?;
    let rest = more_constants(alloc, rows, rest)?;
    expect_symbol(Symbol::Close, rest)
}

/// More constants of the last row, each behind its comma.
#[tactic(auto, unfolding(crate::specs::Rows::last_row_at))]
fn more_constants<'a>(
    alloc: Global,
    rows: &mut ConstantRows,
    tokens: &'a [Token],
) -> Result<&'a [Token], SqlFault>
    requires { 0 < length rows.old }
    ensures { Gives (λ rest. (rows.new, rest.now)) result (last_row_at rows.old tokens.now) }
{
    let mut rest = tokens;
    for _ in 0..tokens.len() {
        if let Some((n, after)) = after_number(rest) {
            rows.push(whole_number(n))?;
            rest = after;
            continue;
        }
        match after_symbol(Symbol::Comma, rest) {
            Some(after) => {
                let (constant, next) = Constants::read(alloc, after)?;
                rows.push(constant)?;
                rest = next;
            }
            None => return Ok(rest),
        }
    }
    Ok(rest)
}

/// The number behind a comma, where one without a sign is there, and the tokens behind it.
fn after_number(tokens: &[Token]) -> Option<(u128, &[Token])>
    ensures { IfSome result (λ r. tokens.now ≡ number_behind_comma r.0 r.1.now) }
{
    match tokens {
        [Token::Symbol(Symbol::Comma), Token::Number(n), rest @ ..] => Some((*n, rest)),
        _ => None,
    }
}

/// A number without a sign.
fn whole_number(magnitude: u128) -> Constant
    ensures { result ≡ constants.Number (record { is_negative = false; magnitude = magnitude }) }
{
    let literal = Literal {
        is_negative: false,
        magnitude,
    };
    Constant::Number(literal)
}
