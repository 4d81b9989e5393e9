//! How much was compared.

/// Where the answer to a statement comes from.
#[derive(Clone, Copy)]
pub(crate) enum Answered {
    /// It is no query.
    Command,
    FromTables,
    FromView,
}

/// Queries, how many of them were answered from a view with their core, epochs that views came to, and how many of these
/// epochs were below the present.
#[derive(Clone, Copy)]
pub(crate) struct Counts {
    pub(crate) queries: u64,
    pub(crate) from_views: u64,
    pub(crate) epochs: u64,
    pub(crate) earlier: u64,
}

impl Counts {
    pub(crate) fn new() -> Counts {
        Counts {
            queries: 0,
            from_views: 0,
            epochs: 0,
            earlier: 0,
        }
    }

    /// Counts a statement if it is a query.
    pub(crate) fn add(&mut self, answered: Answered) {
        match answered {
            Answered::Command => {}
            Answered::FromTables => self.queries = self.queries.saturating_add(1),
            Answered::FromView => {
                self.queries = self.queries.saturating_add(1);
                self.from_views = self.from_views.saturating_add(1);
            }
        }
    }

    /// Counts an epoch that a view came to.
    pub(crate) fn add_epoch(&mut self, epoch: u64, now: u64) {
        self.epochs = self.epochs.saturating_add(1);
        if epoch < now {
            self.earlier = self.earlier.saturating_add(1);
        }
    }
}
