ghost use Rattle.std.specs.Prelude.{◌≡◌};
ghost use Rattle.vx_request.specs.Leaving.{has_context, has_owner, has_home};

use vx_data::{ConsumerId, ContextId};
use vx_message::Owner;

/// What leaves, with all that it has: a consumer, a context, or all contexts.
#[derive(Clone, Copy)]
pub enum Leaver {
    Consumer(ConsumerId),
    Context(ContextId),
    All,
}

impl Leaver {
    /// Whether the context leaves.
    pub fn has(self, context: ContextId) -> bool
        ensures { result ≡ has_context self context }
    {
        match self {
            Leaver::Consumer(_) => false,
            Leaver::Context(leaving) => leaving == context,
            Leaver::All => true,
        }
    }

    /// Whether the owner is a context that leaves.
    pub fn owns(self, owner: Owner) -> bool
        ensures { result ≡ has_owner self owner }
    {
        match owner {
            Owner::Context(context) => self.has(context),
            _ => false,
        }
    }

    /// Whether this is a context, and it leaves.
    pub fn has_home(self, home: Option<ContextId>) -> bool
        ensures { result ≡ has_home self home }
    {
        match home {
            Some(context) => self.has(context),
            None => false,
        }
    }
}
