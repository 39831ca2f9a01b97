//! The verticles that a hub keeps: of each open context of a verticle the verticle itself, while no handler of it runs.
#![tactic(auto)]

mod homes;
mod instances;
mod laws;

pub use homes::Home;
pub use instances::Instances;
pub use laws::{takes_hand_out_what_is_kept, what_comes_back_is_kept};
