//! What holds of the outputs of a script.
ghost use Rattle.cq_model_step.specs.Output.{RefusalsDecide};

use cq_model_bags::one_listing;
use cq_sql::one_tree;
use cq_sql_tokens::{one_cut, one_split};

/// Two runs of a script in which the same statements were refused for want of memory, and for the same sources that
/// failed, have the same outcomes, and so the same output.
pub fn same_output()
    ensures { RefusalsDecide }
{
    one_listing();
    one_cut();
    one_tree();
    one_split();
}
