//! What holds of states, and of the tables at their epochs.
ghost use Rattle.cq_model_step_laws.specs.Laws.{CommandsKeepSound, EarlierEpochsStay, JoinedRowsOneEpochOn, NewTableIsEmptyBefore, OneEpochOn, PresentIsLastEpoch, StatesStaySound, WriteLeadsOn};

/// A write puts its change into the bag of its table, and leaves each other table.
pub fn write_leads_on()
    ensures { WriteLeadsOn }
{}

/// What comes later changes no table at an epoch that is past.
pub fn earlier_epochs_stay()
    ensures { EarlierEpochsStay }
{}

/// From one epoch to the next a table goes on by one change of the queue.
pub fn one_epoch_on()
    ensures { OneEpochOn }
{}

/// So do the joined rows of a view's query.
pub fn joined_rows_one_epoch_on()
    ensures { JoinedRowsOneEpochOn }
{}

/// The tables at the last epoch are those at present.
pub fn present_is_last_epoch()
    ensures { PresentIsLastEpoch }
{}

/// A new table was empty at each epoch.
pub fn new_table_is_empty_before()
    ensures { NewTableIsEmptyBefore }
{}

/// An accepted command leaves a sound state: no table has a negative row at any epoch.
pub fn commands_keep_sound()
    ensures { CommandsKeepSound }
{}

/// Every state that statements lead to from the first one is sound.
pub fn states_stay_sound()
    ensures { StatesStaySound }
{}
