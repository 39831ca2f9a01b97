//! What a handler that is called once has done for it.
ghost use Rattle.std.specs.Prelude.{◌≡◌, ◌↔◌, ◌≤◌, ◌∷◌, ◌++◌, [], length, OnOk, OnErr, IfErr, IsErrAnd};
ghost use Rattle.vx_verticle.specs.declared.acts.ActFault.TheVariants.{TooMany};

use crate::acts::{ActFault, MAX_ACTS};
use crate::plain::PlainAct;
use std::alloc::Global;
use std::marker::Model;

/// The acts of a handler that is called once, in order: at most 1,024. Contracts see them as that list.
#[derive(Drop)]
pub struct PlainActs {
    items: Vec<PlainAct>,
}

impl Model for PlainActs {
    ghost use Rattle.std.specs.Prelude.{List, length, ◌≤◌};
    ghost use Rattle.vx_verticle.specs.declared.plain.PlainAct.{PlainAct};

    ghost Value = { List PlainAct };

    ghost use Rattle.std.specs.Coded.{codes};
    ghost use Rattle.vx_data.specs.contracts.body.Body as body;

    ghost coded = { Prim.hlevel (codes, body.the_row.coded) };

    ghost view = { λ acts. acts.items.items };

    ghost invariant = { λ acts. length acts.items.items ≤ 1024 };
}

impl PlainActs {
    /// No acts. The list keeps the allocator.
    pub fn new(alloc: Global) -> PlainActs
        ensures { result ≡ [] }
    {
        PlainActs {
            items: Vec::new(alloc),
        }
    }

    /// Adds an act at the end. `TooMany` comes exactly where 1,024 are there. A refusal leaves the list as it was.
    pub fn push(&mut self, act: PlainAct) -> Result<(), (PlainAct, ActFault)>
        ensures added { OnOk result (self.new ≡ self.old ++ act ∷ []) }
        ensures full { IsErrAnd result (λ refused. refused.1 ≡ TooMany) ↔ (MAX_ACTS ≤ length self.old) }
        ensures back { IfErr result (λ refused. refused.0 ≡ act) }
        ensures unchanged { OnErr result (self.new ≡ self.old) }
    {
        if self.items.len() >= MAX_ACTS {
            return Err((act, ActFault::TooMany));
        }
        match self.items.push(act) {
            Ok(()) => Ok(()),
            Err(failed) => Err((failed.value, ActFault::NoMemory)),
        }
    }

    /// The acts, in order.
    pub fn into_items(self) -> Vec<PlainAct>
        ensures items { result.items ≡ self }
        ensures bound { length result.items ≤ MAX_ACTS }
    {
        let PlainActs { items } = self;
        items
    }
}
