//! What a view's state has.
ghost use Rattle.std.specs.Prelude.{◌≡◌, length};
ghost use Rattle.cq_model.specs.Views.{sources_of};

use super::ViewState;
use crate::last::Last;
use cq_deltas::Groups;
use cq_deltas_joins::Chain;
use cq_model::{Query, Shape, Source};
use cq_sides_weights::Weights;
use cq_values::Seq;
use std::alloc::Global;
use std::test::Fail;

/// A query of one table that has no items.
fn plain(alloc: Global) -> Query
    ensures { length (sources_of result) ≡ 1 }
{
    Query {
        first: Source::Table(0),
        joins: Seq::new(alloc),
        filter: None,
        shape: Shape::Plain,
        items: Seq::new(alloc),
        distinct: false,
    }
}

/// The epochs and the count of a view that is taken apart.
fn numbers(state: ViewState) -> (u64, u64, u128) {
    let ViewState {
        query,
        widths,
        epoch,
        built,
        chain,
        last,
        ticks,
    } = state;
    let query: Query = query;
    let widths: Seq<usize> = widths;
    let (epoch, built, ticks): (u64, u64, u128) = (epoch, built, ticks);
    let chain: Chain = chain;
    drop(query);
    drop(widths);
    drop(chain);
    drop_last(last);
    (epoch, built, ticks)
}

/// What stands behind the joins is groups or images.
fn drop_last(last: Last) {
    match last {
        Last::Groups(groups) => {
            let groups: Groups = groups;
            drop(groups);
        }
        Last::Images(images) => {
            let images: Weights = images;
            drop(images);
        }
    }
}

#[test]
fn a_view_is_its_query_and_what_its_joins_need(rt: HostRuntime) -> Result<(), Fail> {
    let alloc = rt.alloc();
    let widths = Seq::from_vec(vec![in alloc; 1]?);
    let state = ViewState::empty(alloc, plain(alloc), widths, 3)?;
    let (epoch, built, ticks) = numbers(state);
    assert!(rt; epoch == 3 && built == 3 && ticks == 0);
    Ok(())
}
