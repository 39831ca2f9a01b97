//! What is there to do, found without a call: a look is no entry of the history.
ghost use Rattle.std.specs.Prelude.{◌≡◌, List};
ghost use Rattle.vx_call.specs.declared.history.Traced.{Traced};
ghost use Rattle.vx_call.specs.Requests.{unsettled};
ghost use Rattle.vx_hub.specs.Stands.{StandsFor};
ghost use Rattle.vx_hub.specs.Looks.{look_at, least_due};

use crate::hub::Hub;
use vx_call::Lane;
use vx_verticle::Verticle;

/// What a lane has.
#[derive(Clone, Copy, PartialEq, Eq)]
pub enum Look {
    /// A next task, which a Take by the lane's pass would hand out, if the pass holds none.
    Ready,
    /// No next task now.
    Idle,
    /// The hub is closed: nothing is taken any more.
    Stopped,
}

impl<V: Verticle> Hub<V> {
    /// Whether a lane has a next task, or the hub is closed.
    pub fn look(&self, lane: Lane) -> Look
        ensures { (history : List Traced) → StandsFor self.entry.now history → result ≡ look_at history lane }
    {
        match (self.life.closed_at(), self.contexts.next(lane)) {
            (Some(_), _) => Look::Stopped,
            (None, Some(_)) => Look::Ready,
            (None, None) => Look::Idle,
        }
    }

    /// The least due moment of the open requests in ms, or none where no request is open.
    pub fn look_due(&self) -> Option<u64>
        ensures { (history : List Traced) → StandsFor self.entry.now history → result ≡ least_due (unsettled history) }
    {
        self.timers.next_due()
    }
}
