use thiserror::Error;
use vx_call::Refusal;
use vx_hub::Why;

/// Why the program goes no further.
#[derive(Clone, Copy, Debug, Error)]
pub enum Fault {
    #[error("the hub refuses: {0:?}")]
    Refused(Refusal),
    #[error("memory ran out")]
    NoMemory,
    #[error("the hub does not make this call yet")]
    Unbuilt,
    #[error("the task that came is another one")]
    OtherTask,
    #[error("the reply is another one")]
    OtherReply,
}

/// Why verticles were not deployed.
pub fn fault_of(why: Why) -> Fault {
    match why {
        Why::Refused(refusal) => Fault::Refused(refusal),
        Why::NoMemory => Fault::NoMemory,
    }
}
