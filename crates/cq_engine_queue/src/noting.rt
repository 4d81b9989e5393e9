//! Changes that are put into the queue, and those that leave it.
ghost use Rattle.std.specs.Prelude.{[], None, ◌+◌, ◌<◌, ◌≡◌, ◌^◌, IfSome, length};
ghost use Rattle.cq_engine_queue.specs.Queued.{AreWithin, IsTrimmed, Notes};

use crate::change::Change;
use crate::queue::Queue;
use cq_engine_tables::View;

/// Puts the change of a write behind the others, for which there is room, and drops those that each view has passed.
/// Without views it is not told, and none is kept.
pub fn note(queue: &mut Queue, views: &[View], change: Option<Change>)
    requires within { AreWithin queue.old views.now }
    requires room { IfSome change (λ c. 0 < queue.old.room) }
    requires told { change ≡ None → views.now ≡ [] }
    requires range { queue.old.passed + length queue.old.changes + 1 < 2 ^ 64 }
    ensures { Notes views.now change queue.old queue.new }
{
    match change {
        Some(change) => {
            queue.push(change);
            trim(queue, views);
        }
        None => queue.pass_all(),
    }
}

/// Drops the changes from the front that each view has passed.
pub fn trim(queue: &mut Queue, views: &[View])
    requires within { AreWithin queue.old views.now }
    requires range { queue.old.passed + length queue.old.changes < 2 ^ 64 }
    ensures { IsTrimmed views.now queue.old.passed queue.old.changes queue.new }
{
    let mut count = queue.len();
    for view in views {
        let ahead = (view.epoch() - queue.passed()) as usize;
        if ahead < count {
            count = ahead;
        }
    }
    queue.trim(count);
}
