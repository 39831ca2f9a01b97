ghost use Rattle.std.specs.Prelude.{◌≡◌, [], pos};
ghost use Rattle.vx_kinds.specs.Kinds as kinds;

use crate::settings::Settings;
use std::alloc::Global;
use vx_verticle::{End, Task};

/// Fails as it starts.
#[derive(Drop)]
pub struct Failer {
    pub(crate) settings: Settings,
    pub(crate) alloc: Global,
}

impl Failer {
    /// The code with which it fails: its first number, or the one of 32 bits that is nearest to it.
    fn code(&self) -> i32
        ensures { result ≡ kinds.nearest_code (kinds.number_or (pos 1) self.now.settings 0) }
    {
        let number = self.settings.number_or(1, 0);
        number.clamp(i64::from(i32::MIN), i64::from(i32::MAX)) as i32
    }

    /// It has no acts.
    pub(crate) fn react(&self, task: &Task) -> End
        ensures { record { acts = []; end = result } ≡ kinds.failer self.now.settings task.now }
    {
        match task {
            Task::Start(_) => End::Fail(self.code()),
            _ => End::Done,
        }
    }
}
