//! A query on narrower rows: which columns are left, and where its own are then.
use cq_model::{Aggregate, Cond, CondTree, Equality, Expr, ExprTree, Join, Query, Shape, Source};
use cq_values::Seq;
use cq_views_columns::NarrowQuery;
use std::alloc::{AllocError, Global};
use std::test::Fail;

fn join(alloc: Global, source: Source, left: usize, right: usize) -> Result<Join, AllocError> {
    let mut on = Seq::new(alloc);
    on.push(Equality { left, right })?;
    Ok(Join { source, on })
}

/// Table 0 as `a` and as `b`, and table 1 as `c`, by `a.2 = b.0` and `a.0 = c.1`.
fn joins(alloc: Global) -> Result<Seq<Join>, AllocError> {
    let mut joins = Seq::new(alloc);
    joins.push(join(alloc, Source::Table(0), 2, 0)?)?;
    joins.push(join(alloc, Source::Table(1), 0, 1)?)?;
    Ok(joins)
}

/// SUM of `a.4` by `c.2`.
fn groups(alloc: Global) -> Result<Shape, AllocError> {
    let mut keys = Seq::new(alloc);
    keys.push(12)?;
    let mut aggregates = Seq::new(alloc);
    aggregates.push(Aggregate::Sum(Expr::column(4)))?;
    Ok(Shape::Grouped {
        keys: Some(keys),
        aggregates,
        having: None,
    })
}

/// Of all rows where `b.3` is NULL.
fn query(alloc: Global) -> Result<Query, AllocError> {
    let mut items = Seq::new(alloc);
    items.push(Expr::column(1))?;
    Ok(Query {
        first: Source::Table(0),
        joins: joins(alloc)?,
        filter: Some(Cond::new(CondTree::IsNull(ExprTree::Column(8)))),
        shape: groups(alloc)?,
        items,
        distinct: false,
    })
}

/// Table 0 has five columns, and table 1 three.
fn narrow(alloc: Global) -> Result<NarrowQuery, AllocError> {
    let query = query(alloc)?;
    NarrowQuery::of(alloc, &query, &[5, 5, 3])
}

#[test]
fn a_table_that_is_joined_with_itself_keeps_what_either_place_reads(
    rt: HostRuntime,
) -> Result<(), Fail> {
    let narrow = narrow(rt.alloc())?;
    let columns = narrow.columns.as_slice();
    assert!(rt; columns.len() == 3);
    assert!(rt; columns[0].columns.as_slice() == [0usize, 2, 3, 4].as_slice());
    assert!(rt; columns[1].columns.as_slice() == [0usize, 2, 3, 4].as_slice());
    assert!(rt; columns[2].columns.as_slice() == [1usize, 2].as_slice());
    drop(narrow);
    Ok(())
}

/// The key's place, that of the argument of SUM, and that of the item.
fn places(query: &Query) -> Option<(usize, usize, usize)> {
    let item = column(query.items.as_slice().first()?)?;
    match &query.shape {
        Shape::Grouped {
            keys: Some(keys),
            aggregates,
            ..
        } => match aggregates.as_slice().first()? {
            Aggregate::Sum(argument) => Some((*keys.as_slice().first()?, column(argument)?, item)),
            _ => None,
        },
        _ => None,
    }
}

fn column(expr: &Expr) -> Option<usize> {
    match expr.tree() {
        ExprTree::Column(place) => Some(*place),
        _ => None,
    }
}

fn tested(filter: &Option<Cond>) -> Option<usize> {
    match filter.as_ref()?.tree() {
        CondTree::IsNull(ExprTree::Column(place)) => Some(*place),
        _ => None,
    }
}

#[test]
fn columns_go_to_their_new_places_and_items_of_groups_stay(rt: HostRuntime) -> Result<(), Fail> {
    let narrow = narrow(rt.alloc())?;
    let joins = narrow.query.joins.as_slice();
    assert!(rt; joins.len() == 2);
    assert!(rt; joins[0].on.as_slice() == [Equality { left: 1, right: 0 }].as_slice());
    assert!(rt; joins[1].on.as_slice() == [Equality { left: 0, right: 0 }].as_slice());
    assert_eq!(rt; tested(&narrow.query.filter), Some(6));
    assert_eq!(rt; places(&narrow.query), Some((9, 3, 1)));
    drop(narrow);
    Ok(())
}
