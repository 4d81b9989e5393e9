//! What changes of the joined rows add to images.
ghost use Rattle.std.specs.Prelude.{◌≡◌, ◌≤◌, IfOk};
ghost use Rattle.cq_deltas_joins.specs.Chains.{CanChange};
ghost use Rattle.cq_deltas_joins.specs.WaitingChanges.{AreReady};
ghost use Rattle.cq_deltas_joins.specs.Sources.{rows_at};
ghost use Rattle.cq_deltas_joins.specs.Work.{OnlyCounts};
ghost use Rattle.cq_model.specs.declared.query.Shape.TheVariants.{Plain};
ghost use Rattle.cq_views_state.specs.Counting.{CountsChange};
ghost use Rattle.cq_views_state.specs.Imaging.{AddsImagesBy};
ghost use Rattle.cq_views_model.specs.Query.{CanBeKept};

use cq_deltas_joins::{Chain, SourceRows, Takes, Waiting};
use cq_model::Query;
use cq_model_eval::{items_of, keeps};
use cq_sides_weights::{Entry, Weights};
use cq_values::{Value, both};
use std::alloc::{AllocError, Global};

/// The images of changed joined rows that WHERE keeps, as the rows come. Each row counts one tick.
#[derive(Drop)]
pub(crate) struct ImageTaker<'a> {
    query: &'a Query,
    images: Vec<Entry>,
    ticks: u128,
}

impl<'a> Takes for ImageTaker<'a> {
    ghost use Rattle.cq_views_state.specs.Imaging.{CanTake as TakesRow, Keeps as KeepsCount, Takes as TookRows};
    ghost use Rattle.cq_views_state.specs.ImageLaws.{fits-still, keeps-itself, keeps-more, takes-more, takes-none};

    ghost Fits = { TakesRow };

    ghost Took = { TookRows };

    ghost Keeps = { KeepsCount };

    fn take(&mut self, alloc: Global, row: &[Value], weight: i128) -> Result<(), AllocError> {
        self.ticks = self.ticks.saturating_add(1);
        if keeps(&self.query.filter, row) {
            let image = items_of(alloc, self.query.items.as_slice(), row)?;
            self.images.push(Entry::new(image, weight))?;
            Ok(())
        } else {
            Ok(())
        }
    }

    ghost took_none = { takes-none };

    ghost took_more = { takes-more };

    ghost keeps_itself = { keeps-itself };

    ghost keeps_more = { keeps-more };

    ghost fits_still = { fits-still };
}

/// Works out what changes add to a view's images, and how high that counts. The images themselves are not handed in.
pub(crate) fn stream_images(
    alloc: Global,
    query: &Query,
    chain: &mut Chain,
    changes: Vec<SourceRows>,
    ticks: u128,
) -> Result<(Waiting, Weights, u128), AllocError>
    requires can { CanBeKept query.now }
    requires plain { query.now.shape ≡ Plain }
    requires change { CanChange chain.old (rows_at changes.items) }
    ensures adds { IfOk result (λ r. AddsImagesBy query.now chain.old changes r.1) }
    ensures rows { IfOk result (λ r. CountsChange chain.old (rows_at changes.items) ticks r.2) }
    ensures ready { IfOk result (λ r. AreReady chain.old (rows_at changes.items) chain.new r.0) }
    ensures kept { OnlyCounts chain.old (rows_at changes.items) chain.new }
    ensures more { IfOk result (λ r. ticks ≤ r.2) }
{
    let mut taker = ImageTaker {
        query,
        images: Vec::new(alloc),
        ticks,
    };
    let streamed = chain.stream(alloc, changes, &mut taker);
    let ImageTaker {
        query: _,
        images: more,
        ticks: counted,
    } = taker;
    let (more, waiting) = both(more, streamed)?;
    let (waiting, change) = both(waiting, Weights::merged(alloc, more))?;
    Ok((waiting, change, counted))
}
