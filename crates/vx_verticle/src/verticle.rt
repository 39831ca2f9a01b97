//! Verticles.
ghost use Rattle.std.specs.Prelude.{◌≡◌, ℕ, ℤ, List, [], IfOk};
ghost use Rattle.vx_call.specs.declared.call.End.{End};
ghost use Rattle.vx_verticle.specs.declared.acts.Act.{Act};
ghost use Rattle.vx_verticle.specs.declared.verticle.Event.{Event};
ghost use Rattle.vx_verticle.specs.declared.verticle.ActResult.{ActResult};

use crate::acts::Acts;
use crate::once::OnceRule;
use vx_call::{End, Reply, Task};
use vx_data::{ContextId, NoMemory, Numbers};

/// What a handler is called for, and the context that it is called on.
#[derive(Drop)]
pub struct Event {
    pub context: ContextId,
    pub task: Task,
}

/// What became of an act.
#[derive(Drop)]
pub enum ActResult {
    /// The call was made, and answered.
    Made(Reply),
    /// Nobody makes verticles of this kind.
    NoKind,
    /// Memory ran out before the call was made.
    NoMemory,
}

/// What is deployed: it reacts to what reaches its context, one event at a time. (Vert.x core manual, "Verticles".)
pub trait Verticle: Send + Drop {
    /// The handlers that it hands over, to be called once.
    type Rule: OnceRule;

    // What it keeps, in numbers.
    ghost state: { Self → List ℤ };

    // From a state, on an event: the state behind it, the acts and the end.
    ghost reacts: { List ℤ → Event → List ℤ → List (Act Self.Rule) → End → Type 0 };

    // From a state, by what became of the act of this number: the state behind it.
    ghost told: { List ℤ → ℕ → ActResult → List ℤ → Type 0 };

    /// Reacts to an event. The acts are made one by one, in order, as the handler has returned, and then its task ends.
    fn handle(&mut self, event: &Event, acts: &mut Acts<Self::Rule>) -> End
        requires { acts.old ≡ [] }
        ensures { reacts (state self.old) event.now (state self.new) acts.new result };

    /// Learns what became of an act, by its number from 0.
    fn outcome(&mut self, act_no: u32, answer: &ActResult)
        ensures { told (state self.old) act_no answer.now (state self.new) };

    /// Its state.
    fn tell(&self) -> Result<Numbers, NoMemory>
        ensures { IfOk result (λ numbers. numbers ≡ state self.now) };
}
