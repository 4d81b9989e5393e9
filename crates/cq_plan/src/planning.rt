//! Plans of whole queries: what is worked out of a query once, before any row is read.
//!
//! [`plan`] looks at WHERE and at how many columns each source has. The parts of WHERE that name one source alone are
//! asked of its rows before any join; WHERE as a whole is asked of the joined rows only where some part is left. Groups,
//! HAVING, items, DISTINCT, ORDER BY and LIMIT stand in the query and the order, which a [`Plan`] lends.
ghost use Rattle.std.specs.Prelude.{◌+◌, ◌≡◌, IfOk, length, map};
ghost use Rattle.cq_plan.specs.Planned.{AreAllOwn, IsPlanned, asked_below, is_asked_behind};
ghost use Rattle.cq_plan.specs.Plan.{IsPlanOf, MeansQuery};

use crate::each_own::each_is_own;
use crate::own::own_conditions;
use crate::plans::{Plan, PlannedSource};
use cq_model::{Cond, Order, Query};
use cq_segments_pieces::widened;
use std::alloc::{AllocError, Global};

/// The plan of a query whose sources have so many columns each. One source alone is not joined: WHERE is asked of its
/// rows once, as a whole.
pub fn plan<'q>(
    alloc: Global,
    query: &'q Query,
    order: &'q Order,
    widths: &[usize],
) -> Result<Plan<'q>, AllocError>
    requires { length widths.now ≡ length query.now.joins + 1 }
    ensures is { IfOk result (IsPlanOf query.now order.now widths.now) }
    ensures means { IfOk result (λ plan. MeansQuery plan) }
{
    let below = !query.joins.is_empty();
    let sources = planned_sources(alloc, &query.filter, below, widths)?;
    let asks_behind = is_asked_behind(&query.filter, below, &sources);
    Ok(Plan {
        query,
        order,
        sources,
        asks_behind,
    })
}

/// Each source, with the parts of WHERE that are its own where these are asked below the joins.
fn planned_sources<'q>(
    alloc: Global,
    filter: &'q Option<Cond>,
    below: bool,
    widths: &[usize],
) -> Result<Vec<PlannedSource<'q>>, AllocError>
    ensures own { IfOk result (λ s. AreAllOwn (asked_below below filter.now) 0 s.items) }
    ensures wide { IfOk result (λ s. map (λ source. source.wide) s.items ≡ widths.now) }
{
    let mut before = 0;
    let mut sources = Vec::new(alloc);
    for wide in widths {
        sources.push(planned_source(alloc, filter, below, before, *wide)?)?;
        before = widened(alloc, before, *wide)?;
    }
    Ok(sources)
}

/// A source of so many columns behind so many others.
fn planned_source<'q>(
    alloc: Global,
    filter: &'q Option<Cond>,
    below: bool,
    before: usize,
    wide: usize,
) -> Result<PlannedSource<'q>, AllocError>
    ensures own { IfOk result (IsPlanned (asked_below below filter.now) before) }
    ensures wide { IfOk result (λ source. source.wide ≡ wide) }
{
    let own = if below {
        own_conditions(alloc, filter, before, wide)?
    } else {
        Vec::new(alloc)
    };
    Ok(PlannedSource { before, wide, own })
}

/// Whether WHERE is asked of the joined rows: parts of it are not asked below joins, or some part is no source's own.
fn is_asked_behind(filter: &Option<Cond>, below: bool, sources: &[PlannedSource<'_>]) -> bool
    ensures { result ≡ is_asked_behind filter.now below sources.now }
{
    match filter {
        Some(condition) => !(below && each_is_own(condition.tree(), sources)),
        None => false,
    }
}
