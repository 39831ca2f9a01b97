//! Handlers that are called once.
ghost use Rattle.std.specs.Prelude.{◌≡◌, ◌++◌, ℤ, List, IfOk};
ghost use Rattle.vx_verticle.specs.declared.once.OnceInput.{OnceInput};
ghost use Rattle.vx_verticle.specs.declared.plain.PlainAct.{PlainAct};
ghost use Rattle.vx_call.specs.declared.call.End.{End};
ghost use Rattle.vx_call.specs.declared.call.End.TheVariants as ends;

use crate::plain_acts::PlainActs;
use std::marker::Model;
use vx_call::End;
use vx_data::{NoMemory, Numbers};
use vx_message::Outcome;

/// What a handler that is called once is called for.
#[derive(Drop)]
pub enum OnceInput {
    /// The request that it came with has ended.
    Outcome(Outcome),
    /// Its turn in its context has come.
    Run,
    /// Its turn among blocking code has come.
    Job,
}

/// What a handler that is called once answers: what is to be done, and how its task ends.
#[derive(Drop)]
pub struct OnceEnd {
    pub acts: PlainActs,
    pub end: End,
}

/// A handler that is called once, and which answers it may give.
pub trait OnceRule: Send + Drop {
    // By its argument, on an input: which acts and which end.
    ghost allows: { List ℤ → OnceInput → List PlainAct → End → Type 0 };

    // What it was made with.
    ghost argument: { Self → List ℤ };

    /// Does the work.
    fn run(self, input: OnceInput) -> OnceEnd
        ensures { allows (argument self) input result.acts result.end };

    /// Its argument.
    fn tell(&self) -> Result<Numbers, NoMemory>
        ensures { IfOk result (λ numbers. numbers ≡ argument self.now) };

    // Memory may run out behind any of the acts.
    ghost may_run_out: { (args : List ℤ) (input : OnceInput) (acts more : List PlainAct) (end : End) → (end ≡ ends.NoMemory → ⊥) → allows args input (acts ++ more) end → allows args input acts ends.NoMemory };

    // An answer that ran out of memory is the beginning of one that did not.
    ghost ran_out: { (args : List ℤ) (input : OnceInput) (acts : List PlainAct) → allows args input acts ends.NoMemory → (more : List PlainAct) × (end : End) × (end ≡ ends.NoMemory → ⊥) × allows args input (acts ++ more) end };
}

/// A handler that is called once. Contracts see it as its argument.
#[derive(Drop)]
pub struct Once<R: OnceRule> {
    work: R,
}

impl<R: OnceRule> Model for Once<R> {
    ghost use Rattle.std.specs.Prelude.{List, ℤ};

    ghost Value = { List ℤ };

    ghost view = { λ once. R.argument once.work };
}

impl<R: OnceRule> Once<R> {
    pub fn new(work: R) -> Once<R>
        ensures { result ≡ R.argument work }
    {
        Once { work }
    }

    /// Calls the handler.
    pub fn run(self, input: OnceInput) -> OnceEnd
        ensures { R.allows self input result.acts result.end }
    {
        let Once { work } = self;
        work.run(input)
    }

    /// Its argument.
    pub fn tell(&self) -> Result<Numbers, NoMemory>
        ensures { IfOk result (λ numbers. numbers ≡ self.now) }
    {
        self.work.tell()
    }
}
