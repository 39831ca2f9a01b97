ghost use Rattle.std.specs.Prelude.{◌≡◌, ℕ, List, Option, OnErr, IfOk};
ghost use Rattle.vx_io.specs.Faults.{HasCause};
ghost use Rattle.vx_net.specs.Accepting.{Accepts};

use std::sync::Wait;
use vx_io::{Failed, Sink, Source};

/// A net on which connections come in, each with its input and a place for its output.
pub trait Net {
    type In: Source + Send + Drop + 'static;

    type Out: Sink + Send + Drop + 'static;

    /// The inputs of the connections that are still to come, where they are told.
    ghost inputs: { Self → Option (List (List ℕ)) };

    /// How many calls have failed.
    ghost faults: { Self → ℕ };

    /// Takes connections at a port from now on. A call that failed is counted.
    fn listen(&mut self, port: u16) -> Result<(), Failed>
        ensures same { inputs self.new ≡ inputs self.old }
        ensures cause { HasCause (faults self.old) (faults self.new) result };

    /// Waits for the next connection, and gives its two halves: the input is all still to be read,
    /// and nothing has been written. A call that failed takes no connection, and is counted.
    fn accept<R: Wait>(&mut self, rt: &R) -> Result<(Self::In, Self::Out), Failed>
        ensures halves { IfOk result (λ halves. Accepts (inputs self.old) (inputs self.new) (Self.In.left halves.0) (Self.Out.held halves.1)) }
        ensures same { OnErr result (inputs self.new ≡ inputs self.old) }
        ensures cause { HasCause (faults self.old) (faults self.new) result };
}
