//! An image of the disk stands for one history: two for which it stands are alike, and alike histories are told apart
//! by nothing that is added later.
//!
//! Nothing here runs: each function is a law, and its contract is the law.
#![tactic(auto)]

mod laws;

pub use laws::{
    alike_histories_stay_alike, alike_is_an_equivalence, no_other_history, one_stored_history,
    one_stored_list_of_rows,
};
