//! What codecs make of bodies, and what rules do with messages. (Vert.x core manual, "Message Codecs"; Vert.x core API,
//! `EventBus.addInboundInterceptor` and `addOutboundInterceptor`.)
#![tactic(auto)]

mod codecs;
mod forms;
mod rules;

pub use codecs::Codecs;
pub use forms::transform;
pub use rules::{Rules, Through};
