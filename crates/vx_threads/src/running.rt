ghost use Rattle.std.specs.Prelude.{◌≡◌};

use std::marker::Model;
use std::thread::{Promise, PromisedHandle, Threads};

/// A thread that was started, with the promise that its result keeps. Contracts see it as that
/// promise. It is to be joined.
#[derive(Drop)]
pub struct Running<T, Q: Promise<T>> {
    handle: PromisedHandle<T, Q>,
}

impl<T, Q: Promise<T>> Model for Running<T, Q> {
    ghost Value = { Q };

    ghost view = { λ running. running.handle.promise };
}

impl<T: Send + Drop + 'static, Q: Promise<T>> Running<T, Q> {
    /// The thread of this handle.
    pub(crate) fn new(handle: PromisedHandle<T, Q>) -> Running<T, Q>
        ensures { result ≡ handle.promise }
    {
        Running { handle }
    }

    /// Waits for the thread's result.
    pub fn join<R: Threads>(self, rt: &R) -> T
        ensures { Q.kept_by self result }
    {
        let Running { handle } = self;
        handle.join(rt)
    }
}
