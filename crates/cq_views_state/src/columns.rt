//! How large the numbers in the columns of a view can be.
ghost use Rattle.std.specs.List.{AllByRecursion};
ghost use Rattle.std.specs.Prelude.{◌+◌, ◌<◌, ◌≡◌, IfOk, map, true};
ghost use Rattle.cq_model.specs.Own.{names_only};
ghost use Rattle.cq_model.specs.Sizes.{IsArgumentNarrow, column_sizes, shown_size, stored_size};
ghost use Rattle.cq_model.specs.Trees.{expr_of};
ghost use Rattle.cq_model.specs.Width.{extent_limit, limits_of as limits, number_limit, widest, width};
ghost use Rattle.cq_views_model.specs.Query.{CanBeKept, aggregates_of, group_sizes};

use crate::query::{aggregates_of, key_columns};
use cq_model::{Aggregate, COUNT_SIZE, Expr, ExprTree, Query, STORED_SIZE, Shape, TOO_WIDE};
use cq_model_eval::width_of;
use std::alloc::{AllocError, Global};

/// How large the numbers in each column of a view of the query can be.
pub fn column_sizes(alloc: Global, query: &Query) -> Result<Vec<u128>, AllocError>
    requires { CanBeKept query.now }
    ensures { IfOk result (λ v. v.items ≡ column_sizes query.now) }
{
    match &query.shape {
        Shape::Plain => sizes_over_rows(alloc, query.items.as_slice()),
        Shape::Grouped { .. } => {
            let group = group_sizes(alloc, query)?;
            sizes_over_group(alloc, query.items.as_slice(), &group)
        }
    }
}

/// How large the items can be over stored rows.
fn sizes_over_rows(alloc: Global, items: &[Expr]) -> Result<Vec<u128>, AllocError>
    requires { AllByRecursion (λ e. widest (λ i. stored_size) e < number_limit) items.now }
    ensures { IfOk result (λ v. v.items ≡ map (λ e. (width e (λ i. stored_size)).size) items.now) }
{
    let mut sizes = Vec::new(alloc);
    for item in items {
        sizes.push(size_over_rows(alloc, item)?)?;
    }
    Ok(sizes)
}

/// How large the items can be over a group's row with numbers of these sizes.
fn sizes_over_group(alloc: Global, items: &[Expr], group: &[u128]) -> Result<Vec<u128>, AllocError>
    requires { AllByRecursion (λ e. (extent_limit e group.now).widest < number_limit) items.now }
    ensures { IfOk result (λ v. v.items ≡ map (λ e. (extent_limit e group.now).size) items.now) }
{
    let mut sizes = Vec::new(alloc);
    for item in items {
        sizes.push(size_over(item, group))?;
    }
    Ok(sizes)
}

/// How large the numbers in a group's row can be.
fn group_sizes(alloc: Global, query: &Query) -> Result<Vec<u128>, AllocError>
    requires { AllByRecursion (IsArgumentNarrow (λ i. stored_size)) (aggregates_of query.now) }
    ensures { IfOk result (λ v. v.items ≡ group_sizes query.now) }
{
    let mut sizes = vec![in alloc; STORED_SIZE; key_columns(query).len()]?;
    for aggregate in aggregates_of(query) {
        sizes.push(shown_size(alloc, aggregate)?)?;
    }
    Ok(sizes)
}

/// How large what a group shows of stored rows can be.
fn shown_size(alloc: Global, aggregate: &Aggregate) -> Result<u128, AllocError>
    requires { IsArgumentNarrow (λ i. stored_size) aggregate.now }
    ensures { IfOk result (λ size. size ≡ shown_size aggregate.now) }
{
    match aggregate {
        Aggregate::CountAll | Aggregate::Count(_) | Aggregate::CountDistinct(_) => Ok(COUNT_SIZE),
        Aggregate::Sum(_) => Ok(TOO_WIDE),
        Aggregate::Min(argument) => size_over_rows(alloc, argument),
        Aggregate::Max(argument) => size_over_rows(alloc, argument),
    }
}

/// How large an expression can be over stored rows.
fn size_over_rows(alloc: Global, expr: &Expr) -> Result<u128, AllocError>
    requires { widest (λ i. stored_size) expr.now < number_limit }
    ensures { IfOk result (λ size. size ≡ (width expr.now (λ i. stored_size)).size) }
{
    let columns = stored_columns(alloc, expr)?;
    Ok(size_over(expr, &columns))
}

/// A stored number's size for each column that an expression can name.
fn stored_columns(alloc: Global, expr: &Expr) -> Result<Vec<u128>, AllocError>
    ensures { IfOk result (λ v. width expr.now (limits v.items) ≡ width expr.now (λ i. stored_size)) }
{
    let mut columns = vec![in alloc; STORED_SIZE; greatest_column(expr.tree())]?;
    columns.push(STORED_SIZE)?;
    Ok(columns)
}

/// How large an expression can be over columns of these sizes.
fn size_over(expr: &Expr, sizes: &[u128]) -> u128
    requires { (extent_limit expr.now sizes.now).widest < number_limit }
    ensures { result ≡ (extent_limit expr.now sizes.now).size }
{
    match width_of(expr, sizes) {
        Some(size) => size,
        None => unreachable!(),
    }
}

/// The greatest column that an expression names, and 0 where it names none.
fn greatest_column(tree: &ExprTree) -> usize
    ensures { names_only 0 (result + 1) (expr_of tree.now) ≡ true }
{
    match tree {
        ExprTree::Column(place) => *place,
        ExprTree::Literal(_) => 0,
        ExprTree::Negate(part) => greatest_column(part),
        ExprTree::Extract(_, part) => greatest_column(part),
        ExprTree::Sum(first, rest) | ExprTree::Product(first, rest) => {
            let mut greatest = greatest_column(first);
            for part in rest {
                greatest = greatest.max(greatest_column(part));
            }
            greatest
        }
    }
}
