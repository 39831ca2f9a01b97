//! What is told of the lives of verticles: which deployments are there, which starts and stops did not end, who is told.
//! (Vert.x core manual, "Deploying verticles programmatically", "Asynchronous Verticle start and stop", "Undeploying
//! verticle deployments".)
#![tactic(auto)]

mod life;
mod record;
mod stop;

pub use life::Life;
pub use record::DeploymentRecord;
pub use stop::Stop;
