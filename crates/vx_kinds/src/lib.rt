//! The kinds of verticles that the host has.
#![tactic(auto)]

mod caller;
mod counter;
mod echo;
mod failer;
mod host;
mod kinds;
mod laws;
mod only;
mod parent;
mod relay;
mod rule;
mod settings;
mod silent;

pub use caller::Caller;
pub use counter::Counter;
pub use echo::Echo;
pub use failer::Failer;
pub use host::HostVerticle;
pub use kinds::{HostKinds, is_kind};
pub use laws::states_are_read_as_written;
pub use parent::Parent;
pub use relay::Relay;
pub use rule::HostRule;
pub use settings::Settings;
pub use silent::Silent;
