//! What a handler has done for it as it returns.
ghost use Rattle.std.specs.Prelude.{◌≡◌, ◌↔◌, ◌≤◌, ◌∷◌, ◌++◌, [], length, OnOk, OnErr, IfErr, IsErrAnd};
ghost use Rattle.vx_verticle.specs.declared.acts.ActFault.TheVariants.{TooMany};

use crate::once::{Once, OnceRule};
use crate::plain::PlainAct;
use std::alloc::Global;
use std::marker::Model;
use vx_data::{Body, ContextId, Text};
use vx_message::{KindSpec, Options};

/// How many acts a handler may have.
pub const MAX_ACTS: usize = 1024;

/// What a handler has done for it as it returns: a call, or one that hands something over.
#[derive(Drop)]
pub enum Act<R: OnceRule> {
    Plain(PlainAct),
    /// Deploys so many verticles of a kind, and tells the handler's context how that ended. More than 65 count as 65.
    Deploy {
        spec: KindSpec,
        instances: u32,
        worker: bool,
    },
    /// A request, with a handler that is called with its outcome.
    RequestWith {
        address: Text,
        body: Body,
        options: Options,
        timeout: u64,
        once: Once<R>,
    },
    /// Blocking code.
    Blocking {
        ordered: bool,
        once: Once<R>,
    },
    /// Code for a context, which may be another than the handler's.
    RunOn {
        context: ContextId,
        once: Once<R>,
    },
}

/// Why an act was not added.
#[derive(Clone, Copy, Debug, PartialEq, Eq)]
pub enum ActFault {
    /// 1,024 acts are there.
    TooMany,
    NoMemory,
}

/// The act that was not added, and why.
pub struct ActRefused<R: OnceRule> {
    pub act: Act<R>,
    pub why: ActFault,
}

impl<R: OnceRule> ActRefused<R> {
    ghost use Rattle.std.specs.Prelude.{◌≡◌};

    /// The act, to be added again.
    pub fn into_act(self) -> Act<R>
        ensures { result ≡ self.act }
    {
        let ActRefused { act, why: _ } = self;
        act
    }
}

/// Written by hand, so that a function that lets go of a refused act has no case for each kind of act.
impl<R: OnceRule> Drop for ActRefused<R> {
    fn drop(self) {
        let ActRefused { act: _, why: _ } = self;
    }
}

/// The acts of a handler, in order: at most 1,024. Contracts see them as that list.
#[derive(Drop)]
pub struct Acts<R: OnceRule> {
    items: Vec<Act<R>>,
}

impl<R: OnceRule> Model for Acts<R> {
    ghost use Rattle.std.specs.Prelude.{List, length, ◌≤◌};
    ghost use Rattle.vx_verticle.specs.declared.acts.Act.{Act};

    ghost Value = { List (Act R) };

    ghost use Rattle.std.specs.Coded.{codes};
    ghost use Rattle.vx_data.specs.contracts.body.Body as body;

    ghost coded = { Prim.hlevel (codes, body.the_row.coded) };

    ghost view = { λ acts. acts.items.items };

    ghost invariant = { λ acts. length acts.items.items ≤ 1024 };
}

impl<R: OnceRule> Acts<R> {
    /// No acts. The list keeps the allocator.
    pub fn new(alloc: Global) -> Acts<R>
        ensures { result ≡ [] }
    {
        Acts {
            items: Vec::new(alloc),
        }
    }

    /// Adds an act at the end. `TooMany` comes exactly where 1,024 are there. A refusal leaves the list as it was.
    pub fn push(&mut self, act: Act<R>) -> Result<(), ActRefused<R>>
        ensures added { OnOk result (self.new ≡ self.old ++ act ∷ []) }
        ensures full { IsErrAnd result (λ refused. refused.why ≡ TooMany) ↔ (MAX_ACTS ≤ length self.old) }
        ensures back { IfErr result (λ refused. refused.act ≡ act) }
        ensures unchanged { OnErr result (self.new ≡ self.old) }
    {
        if self.items.len() >= MAX_ACTS {
            let why = ActFault::TooMany;
            return Err(ActRefused { act, why });
        }
        match self.items.push(act) {
            Ok(()) => Ok(()),
            Err(failed) => {
                let act = failed.value;
                let why = ActFault::NoMemory;
                Err(ActRefused { act, why })
            }
        }
    }

    /// The acts, in order.
    pub fn into_items(self) -> Vec<Act<R>>
        ensures items { result.items ≡ self }
        ensures bound { length result.items ≤ MAX_ACTS }
    {
        let Acts { items } = self;
        items
    }
}
