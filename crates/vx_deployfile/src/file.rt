use vx_data::{List, Text};
use vx_message::KindSpec;

/// What a host is to run.
pub struct DeployFile {
    /// How many event loops, from 1 to 16.
    pub loops: u8,
    /// How many workers, from 1 to 20.
    pub workers: u8,
    /// The named pools of workers, at most 8. Their names differ.
    pub pools: List<PoolPlan>,
    /// After how many ms the host ends, from 0 to 1,000,000,000,000. With 0 it does not end by itself.
    pub until: u64,
    /// The deployments, in order, at most 64.
    pub deployments: List<Planned>,
}

/// Written by hand, so that a function that lets go of a file has no case for each of its parts. So are the others here.
impl Drop for DeployFile {
    fn drop(self) {
        let DeployFile {
            loops: _,
            workers: _,
            pools: _,
            until: _,
            deployments: _,
        } = self;
    }
}

/// A pool of workers.
pub struct PoolPlan {
    /// 1 to 1,024 bytes.
    pub name: Text,
    /// How many workers, from 1 to 20.
    pub size: u32,
}

impl Drop for PoolPlan {
    fn drop(self) {
        let PoolPlan { name: _, size: _ } = self;
    }
}

/// A deployment.
pub struct Planned {
    pub spec: KindSpec,
    /// How many instances, from 1 to 64.
    pub instances: u32,
    /// Whether workers run it, in place of an event loop.
    pub worker: bool,
    /// The name of the pool whose workers run what it leaves to workers, if it names one.
    pub pool: Option<Text>,
}

impl Drop for Planned {
    fn drop(self) {
        let Planned {
            spec: _,
            instances: _,
            worker: _,
            pool: _,
        } = self;
    }
}
