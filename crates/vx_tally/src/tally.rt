//! A number that passes add to.
ghost use Rattle.std.specs.Prelude.{◌≡◌, ◌^◌, ◌≤◌, List, [], ◌∷◌, ◌++◌, length, IfOk, IfErr, option_map};
ghost use Rattle.vx_tally.specs.declared.tally.Entry.{Entry};
ghost use Rattle.vx_tally.specs.Tallies.{StandsFor, IsLegal, addition, last_label};

use crate::label::Label;
use std::marker::Model;
use vx_data::PassNo;
use vx_turn::{Machine, Spent};

/// How many entries a history has at most.
const LIMIT: u64 = 1 << 48;

/// A call that was answered.
pub enum Entry {
    Added(Addition),
    /// The pass, and the number of the pass that it opened.
    Opened(u64, u64),
}

/// An addition by a pass, with the name of its label and the sum that it was told.
pub struct Addition {
    pub pass: u64,
    pub amount: u64,
    pub label: u64,
    pub sum: u64,
}

/// A sum modulo 2^64, and the label of the last addition.
#[derive(Drop)]
pub struct Tally<L: Label> {
    sum: u64,
    entries: u64,
    passes: u64,
    last: Option<L>,
}

impl<L: Label> Model for Tally<L> {
    ghost use Rattle.std.specs.Prelude.{option_map};
    ghost use Rattle.vx_tally.specs.Kept.{Kept};

    ghost Value = { Kept };

    ghost view = { λ t. record { sum = t.sum; entries = t.entries; passes = t.passes; last = option_map L.name t.last } };
}

/// What an addition is told: the sum after it, and the label that was kept before.
#[derive(Drop)]
pub struct Told<L> {
    pub sum: u64,
    pub before: Option<L>,
}

impl<L: Label> Tally<L> {
    /// Stands for the empty history.
    pub fn new() -> Tally<L>
        ensures { StandsFor result [] }
    {
        Tally {
            sum: 0,
            entries: 0,
            passes: 1,
            last: None,
        }
    }

    /// Adds an amount and keeps the label. Where the history has 2^48 entries the label comes back, and nothing is added.
    pub fn add(&mut self, pass: PassNo, amount: u64, label: L) -> Result<Told<L>, L>
        ensures told { (h : List Entry) → StandsFor self.old h → IsLegal h → IfOk result (λ told. let after = h ++ addition pass.0 amount (L.name label) told.sum ∷ [] in StandsFor self.new after × IsLegal after) }
        ensures before { (h : List Entry) → StandsFor self.old h → IfOk result (λ told. option_map L.name told.before ≡ last_label h) }
        ensures full { IfErr result (λ back. (back ≡ label) × (self.new ≡ self.old) × ((h : List Entry) → StandsFor self.old h → 2 ^ 48 ≤ length h)) }
    {
        if self.entries >= LIMIT {
            return Err(label);
        }
        let sum = self.sum.wrapping_add(amount);
        self.sum = sum;
        self.entries += 1;
        let before = self.last.replace(label);
        Ok(Told { sum, before })
    }
}

impl<L: Label> Machine for Tally<L> {
    type Entry = Entry;

    ghost use Rattle.std.specs.Prelude.{refl};
    ghost use Rattle.vx_tally.specs.Tallies.{StandsFor, IsLegal, pass_of, passes_of, opens, passes_rise, opened_by, one_more};

    ghost stands_for = { StandsFor };

    ghost legal = { IsLegal };

    ghost pass_of = { pass_of };

    ghost passes = { passes_of };

    ghost opens = { opens };

    fn count(&self) -> u64 {
        self.entries
    }

    fn new_pass(&mut self, pass: PassNo) -> Result<PassNo, Spent> {
        if self.entries >= LIMIT {
            return Err(Spent);
        }
        let number = self.passes;
        self.entries += 1;
        self.passes += 1;
        Ok(PassNo(number))
    }

    ghost one_at_first = { refl };

    ghost never_falls = { passes_rise };

    ghost opened_by = { opened_by };

    ghost one_more = { one_more };
}
