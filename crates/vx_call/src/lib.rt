//! The calls of the hub, their replies and the history that they make; `specs` has the machine that answers them.
#![tactic(auto)]

mod call;
mod history;
mod reply;
mod unmade;

pub use call::{Call, End};
pub use history::{Consumer, Deed, Entry, Mark, Sending, Traced};
pub use reply::{Refusal, Reply, Task, To};
pub use unmade::Unmade;
pub use vx_message::{
    CodecForm, Compose, Condition, DoneResult, FrameMessage, InFrame, JobResult, Lane, Options,
    OutFrame, Owner, Permits, Side, Verdict,
};
