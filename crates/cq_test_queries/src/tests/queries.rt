//! Queries that can be worked out on all rows, and rows for them.
ghost use Rattle.std.specs.Prelude.{◌≡◌, ◌∷◌, [], IfOk, length};
ghost use Rattle.cq_values.specs.Value.{Row as Values};
ghost use Rattle.cq_model.specs.Exact.{AreExactIn};
ghost use Rattle.cq_model.specs.Expr as terms;
ghost use Rattle.cq_hash_groups.specs.Exact.{IsExactFor};
ghost use Rattle.cq_plan.specs.Chain.{HaveValues};
ghost use Rattle.cq_test_queries.specs.Opened.{IsOpenTo};

use cq_model::{Aggregate, Cond, CondTree, Equality, Expr, ExprTree, Join, Query, Shape, Source};
use cq_values::{Comparison, Row, Seq, Value, both};
use std::alloc::{AllocError, Global};

/// Rows of two numbers each.
pub(crate) fn rows_of(alloc: Global, numbers: &[(i128, i128)]) -> Result<Vec<Row>, AllocError>
    ensures { IfOk result (λ rows. HaveValues 2 rows.items) }
{
    let mut rows = Vec::new(alloc);
    for pair in numbers {
        let mut row = Row::new(alloc);
        row.push(Value::Number(pair.0))?;
        row.push(Value::Number(pair.1))?;
        rows.push(row)?;
    }
    Ok(rows)
}

/// So many rows, of the same number and then of the place.
pub(crate) fn numbered(alloc: Global, number: i128, len: usize) -> Result<Vec<Row>, AllocError>
    ensures { IfOk result (λ rows. HaveValues 2 rows.items) }
{
    let mut rows = Vec::new(alloc);
    for place in 0..len {
        let mut row = Row::new(alloc);
        row.push(Value::Number(number))?;
        row.push(Value::Number(place as i128))?;
        rows.push(row)?;
    }
    Ok(rows)
}

/// The columns at two places.
pub(crate) fn two_columns(
    alloc: Global,
    first: usize,
    second: usize,
) -> Result<Seq<Expr>, AllocError>
    ensures { IfOk result (λ items. items ≡ terms.Column first ∷ terms.Column second ∷ []) }
{
    let mut items = Seq::new(alloc);
    items.push(Expr::column(first))?;
    items.push(Expr::column(second))?;
    Ok(items)
}

/// Both columns of one source, each row once where it is so said.
pub(crate) fn both_columns(alloc: Global, distinct: bool) -> Result<Query, AllocError>
    ensures always { IfOk result IsOpenTo }
    ensures alone { IfOk result (λ q. q.joins ≡ []) }
{
    let items = two_columns(alloc, 0, 1)?;
    Ok(Query {
        first: Source::Table(0),
        joins: Seq::new(alloc),
        filter: None,
        shape: Shape::Plain,
        items,
        distinct,
    })
}

/// The second columns of two sources, whose first ones are equal.
pub(crate) fn joined_by_the_first(alloc: Global) -> Result<Query, AllocError>
    ensures always { IfOk result IsOpenTo }
    ensures joined { IfOk result (λ q. length q.joins ≡ 1) }
{
    let items = two_columns(alloc, 1, 3)?;
    let (items, joins) = both(items, join_by_the_first(alloc))?;
    Ok(Query {
        first: Source::Table(0),
        joins,
        filter: None,
        shape: Shape::Plain,
        items,
        distinct: false,
    })
}

/// A source that is joined where its first column is the first of all.
fn join_by_the_first(alloc: Global) -> Result<Seq<Join>, AllocError>
    ensures { IfOk result (λ joins. length joins ≡ 1) }
{
    let mut on = Seq::new(alloc);
    on.push(Equality { left: 0, right: 0 })?;
    let mut joins = Seq::new(alloc);
    joins.push(Join {
        source: Source::Table(1),
        on,
    })?;
    Ok(joins)
}

/// The groups by the first column whose aggregate is shown, where HAVING keeps them: the key and the column at a place.
pub(crate) fn groups_of(
    alloc: Global,
    aggregate: Aggregate,
    having: Cond,
    second: usize,
) -> Result<Query, AllocError>
    requires aggregate { (row : Values) → IsExactFor aggregate row }
    requires having { (row : Values) → AreExactIn having row }
    ensures always { IfOk result IsOpenTo }
    ensures alone { IfOk result (λ q. q.joins ≡ []) }
{
    let (having, aggregates) = both(having, one_aggregate(alloc, aggregate))?;
    let (having, rest) = both(having, key_and_items(alloc, second))?;
    let (keys, items) = rest;
    Ok(Query {
        first: Source::Table(0),
        joins: Seq::new(alloc),
        filter: None,
        shape: Shape::Grouped {
            keys: Some(keys),
            aggregates,
            having: Some(having),
        },
        items,
        distinct: false,
    })
}

fn one_aggregate(alloc: Global, aggregate: Aggregate) -> Result<Seq<Aggregate>, AllocError>
    ensures { IfOk result (λ all. all ≡ aggregate ∷ []) }
{
    let mut all = Seq::new(alloc);
    all.push(aggregate)?;
    Ok(all)
}

/// The first column as the key, and it and the column at a place as items.
fn key_and_items(alloc: Global, second: usize) -> Result<(Seq<usize>, Seq<Expr>), AllocError>
    ensures { IfOk result (λ both. both.1 ≡ terms.Column 0 ∷ terms.Column second ∷ []) }
{
    let items = two_columns(alloc, 0, second)?;
    let mut keys = Seq::new(alloc);
    keys.push(0)?;
    Ok((keys, items))
}

/// Whether the column at a place is above a number.
pub(crate) fn is_above(place: usize, number: i128) -> Cond
    ensures { (row : Values) → AreExactIn result row }
{
    Cond::new(CondTree::Compare(
        Comparison::Greater,
        ExprTree::Column(place),
        ExprTree::Literal(Value::Number(number)),
    ))
}
