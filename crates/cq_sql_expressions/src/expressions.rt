//! The levels of the grammar of expressions, each read by one function.
//!
//! A chain is read by a loop, so that a long one takes no deep recursion; `depth` is how many pairs of parentheses may still open.
ghost use Rattle.cq_sql_language.specs.Written.{written};
ghost use Rattle.cq_sql_expressions.specs.Chains.{joined_at, more_terms};
ghost use Rattle.cq_sql_expressions.specs.Trees.{GivesTree, GivesTrees, trees};
ghost use Rattle.cq_sql_expressions.specs.Expressions.{between_of, choices_of, content_of, enclosed_choices, factor_of, later_parts, negation_of, operand_of, part_of, predicate_of, primary_of, product_of, readers, sum_of, tested};

use crate::atoms::{Opening, atom_at, opening_at, text_at};
use crate::fault::SqlFault;
use crate::nodes::{
    add_term, among, between, compared, enclosed, joined, like, negation, negative, null_test,
    only, summed,
};
use crate::predicates::{Test, test_at};
use crate::read::{after_keyword, after_symbol, expect_keyword, expect_symbol};
use crate::separators::{Operator, Separator, after_separator, sign_at};
use cq_sql_language::{ExprNode, Keyword, Sign, Symbol, Token};
use cq_values::both;
use std::alloc::Global;

#[cycle(expressions)]
#[tactic(auto, unfolding(crate::specs::Chains::joined_at))]
pub fn chain_at(
    alloc: Global,
    operator: Operator,
    depth: usize,
    tokens: &[Token],
) -> Result<(ExprNode, &[Token]), SqlFault>
    ensures { GivesTree result (joined_at operator (operand_of (readers depth) operator) tokens.now) }
{
    let separator = Separator::Operator(operator);
    let (first, rest) = part_at(alloc, separator, depth, tokens)?;
    let others = more_parts(alloc, separator, depth, Vec::new(alloc), rest);
    let (first, (others, rest)) = both(first, others)?;
    Ok((joined(alloc, operator, first, others)?, rest))
}

#[cycle(expressions)]
#[tactic(auto, unfolding(crate::specs::Chains::more_parts))]
fn more_parts(
    alloc: Global,
    separator: Separator,
    depth: usize,
    before: Vec<ExprNode>,
    tokens: &[Token],
) -> Result<(Vec<ExprNode>, &[Token]), SqlFault>
    ensures { GivesTrees result (later_parts depth separator (trees before) tokens.now) }
{
    let (mut parts, mut rest) = (before, tokens);
    for _ in 0..tokens.len() {
        match after_separator(separator, rest) {
            Some(after) => {
                let (part, next) = part_at(alloc, separator, depth, after)?;
                parts.push(part)?;
                rest = next;
            }
            None => return Ok((parts, rest)),
        }
    }
    Ok((parts, rest))
}

#[cycle(expressions)]
#[tactic(auto, unfolding(crate::specs::Expressions::operand_of))]
fn part_at(
    alloc: Global,
    separator: Separator,
    depth: usize,
    tokens: &[Token],
) -> Result<(ExprNode, &[Token]), SqlFault>
    ensures { GivesTree result (part_of (readers depth) separator tokens.now) }
{
    match separator {
        Separator::Operator(Operator::Or) => chain_at(alloc, Operator::And, depth, tokens),
        Separator::Operator(Operator::And) => negation_at(alloc, depth, tokens),
        Separator::Operator(Operator::Times) => factor_at(alloc, depth, tokens),
        Separator::Comma => sum_at(alloc, depth, tokens),
    }
}

#[cycle(expressions)]
#[tactic(auto, unfolding(crate::specs::Expressions::negation_of))]
fn negation_at(
    alloc: Global,
    depth: usize,
    tokens: &[Token],
) -> Result<(ExprNode, &[Token]), SqlFault>
    ensures { GivesTree result (negation_of (readers depth) tokens.now) }
{
    match after_keyword(Keyword::Not, tokens) {
        Some(rest) => {
            let (condition, rest) = predicate_at(alloc, depth, rest)?;
            Ok((negation(alloc, condition)?, rest))
        }
        None => predicate_at(alloc, depth, tokens),
    }
}

#[cycle(expressions)]
#[tactic(auto, unfolding(crate::specs::Expressions::predicate_of))]
fn predicate_at(
    alloc: Global,
    depth: usize,
    tokens: &[Token],
) -> Result<(ExprNode, &[Token]), SqlFault>
    ensures { GivesTree result (predicate_of (readers depth) tokens.now) }
{
    let (value, rest) = sum_at(alloc, depth, tokens)?;
    match test_at(rest) {
        Some((test, after)) => tested(alloc, depth, value, test, after),
        None => Ok((value, rest)),
    }
}

#[cycle(expressions)]
#[tactic(auto, unfolding(crate::specs::Expressions::tested))]
fn tested(
    alloc: Global,
    depth: usize,
    value: ExprNode,
    test: Test,
    tokens: &[Token],
) -> Result<(ExprNode, &[Token]), SqlFault>
    ensures { GivesTree result (tested (readers depth) (written value) test tokens.now) }
{
    match test {
        Test::Compare(comparison) => {
            let (value, (other, rest)) = both(value, sum_at(alloc, depth, tokens))?;
            Ok((compared(alloc, comparison, value, other)?, rest))
        }
        Test::Between(negated) => between_at(alloc, depth, negated, value, tokens),
        Test::In(negated) => {
            let (value, (values, rest)) = both(value, choices_at(alloc, depth, tokens))?;
            Ok((among(alloc, negated, value, values)?, rest))
        }
        Test::IsNull(negated) => Ok((null_test(alloc, negated, value)?, tokens)),
        Test::Like(negated) => {
            let (value, (pattern, rest)) = both(value, text_at(alloc, tokens))?;
            Ok((like(alloc, negated, value, pattern)?, rest))
        }
    }
}

#[cycle(expressions)]
#[tactic(auto, unfolding(crate::specs::Expressions::between_of))]
fn between_at(
    alloc: Global,
    depth: usize,
    negated: bool,
    value: ExprNode,
    tokens: &[Token],
) -> Result<(ExprNode, &[Token]), SqlFault>
    ensures { GivesTree result (between_of (readers depth) negated (written value) tokens.now) }
{
    let (value, (least, rest)) = both(value, sum_at(alloc, depth, tokens))?;
    let ((value, least), rest) = both((value, least), expect_keyword(Keyword::And, rest))?;
    let ((value, least), (greatest, rest)) = both((value, least), sum_at(alloc, depth, rest))?;
    Ok((between(alloc, negated, value, (least, greatest))?, rest))
}

#[cycle(expressions)]
#[tactic(auto, unfolding(crate::specs::Expressions::enclosed_choices))]
fn choices_at(
    alloc: Global,
    depth: usize,
    tokens: &[Token],
) -> Result<(Vec<ExprNode>, &[Token]), SqlFault>
    ensures { GivesTrees result (enclosed_choices (readers depth) tokens.now) }
{
    let rest = expect_symbol(Symbol::Open, tokens)?;
    let (choices, rest) = entries_at(alloc, depth, rest)?;
    both(choices, expect_symbol(Symbol::Close, rest))
}

#[cycle(expressions)]
fn entries_at(
    alloc: Global,
    depth: usize,
    tokens: &[Token],
) -> Result<(Vec<ExprNode>, &[Token]), SqlFault>
    ensures { GivesTrees result (choices_of (readers depth) tokens.now) }
{
    if depth == 0 {
        return Err(SqlFault::Syntax);
    }
    let (first, rest) = sum_at(alloc, depth - 1, tokens)?;
    more_parts(
        alloc,
        Separator::Comma,
        depth - 1,
        only(alloc, first)?,
        rest,
    )
}

#[cycle(expressions)]
#[tactic(auto, unfolding(crate::specs::Expressions::sum_of, crate::specs::Expressions::product_of, crate::specs::Expressions::operand_of))]
fn sum_at(alloc: Global, depth: usize, tokens: &[Token]) -> Result<(ExprNode, &[Token]), SqlFault>
    ensures { GivesTree result (sum_of (readers depth) tokens.now) }
{
    let (first, rest) = chain_at(alloc, Operator::Times, depth, tokens)?;
    more_terms(alloc, depth, first, rest)
}

#[cycle(expressions)]
#[tactic(auto, unfolding(crate::specs::Chains::more_terms))]
fn more_terms(
    alloc: Global,
    depth: usize,
    first: ExprNode,
    tokens: &[Token],
) -> Result<(ExprNode, &[Token]), SqlFault>
    ensures { GivesTree result (more_terms (product_of (readers depth)) (written first) tokens.now) }
{
    let (mut signs, mut terms, mut rest) = (Vec::new(alloc), Vec::new(alloc), tokens);
    for _ in 0..tokens.len() {
        match sign_at(rest) {
            Some((sign, after)) => {
                let (term, next) = match chain_at(alloc, Operator::Times, depth, after) {
                    Ok(read) => read,
                    Err(fault) => {
                        drop(terms);
                        drop(first);
                        return Err(fault);
                    }
                };
                match add_term(&mut signs, &mut terms, sign, term) {
                    Ok(()) => rest = next,
                    Err(fault) => {
                        drop(terms);
                        drop(first);
                        return Err(SqlFault::from(fault));
                    }
                }
            }
            None => return Ok((summed(alloc, first, signs, terms)?, rest)),
        }
    }
    Ok((summed(alloc, first, signs, terms)?, rest))
}

#[cycle(expressions)]
#[tactic(auto, unfolding(crate::specs::Expressions::factor_of))]
fn factor_at(
    alloc: Global,
    depth: usize,
    tokens: &[Token],
) -> Result<(ExprNode, &[Token]), SqlFault>
    ensures { GivesTree result (factor_of (readers depth) tokens.now) }
{
    match after_symbol(Symbol::Minus, tokens) {
        Some(rest) => {
            let (value, rest) = primary_at(alloc, depth, rest)?;
            Ok((negative(alloc, value)?, rest))
        }
        None => primary_at(alloc, depth, tokens),
    }
}

#[cycle(expressions)]
#[tactic(auto, unfolding(crate::specs::Expressions::primary_of))]
fn primary_at(
    alloc: Global,
    depth: usize,
    tokens: &[Token],
) -> Result<(ExprNode, &[Token]), SqlFault>
    ensures { GivesTree result (primary_of (readers depth) tokens.now) }
{
    match opening_at(tokens) {
        Some((opening, rest)) => {
            let (content, rest) = content_at(alloc, opening, depth, rest)?;
            let (content, rest) = both(content, expect_symbol(Symbol::Close, rest))?;
            Ok((enclosed(alloc, opening, content)?, rest))
        }
        None => atom_at(alloc, tokens),
    }
}

#[cycle(expressions)]
#[tactic(auto, using(crate::proofs::Depths::content_shut))]
fn content_at(
    alloc: Global,
    opening: Opening,
    depth: usize,
    tokens: &[Token],
) -> Result<(ExprNode, &[Token]), SqlFault>
    ensures { GivesTree result (content_of (readers depth) opening tokens.now) }
{
    if depth == 0 {
        return Err(SqlFault::Syntax);
    }
    match opening {
        Opening::Parens => chain_at(alloc, Operator::Or, depth - 1, tokens),
        Opening::Extract(_) => sum_at(alloc, depth - 1, tokens),
        Opening::Aggregate(_) => sum_at(alloc, depth - 1, tokens),
    }
}
