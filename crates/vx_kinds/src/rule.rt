//! The handlers that the host hands in, to be called once.
ghost use Rattle.std.specs.Prelude.{◌≡◌, ◌∷◌};
ghost use Rattle.std.specs.Option.{option_to_list};

use std::alloc::Global;
use std::marker::Model;
use vx_data::{Body, NoMemory, Numbers, Text};
use vx_message::Options;
use vx_verticle::{End, OnceEnd, OnceInput, OnceRule, PlainAct, PlainActs};

/// A handler that ends with a value. It may publish a number before, at the address `once`. Contracts see it as its
/// argument: the value, and the number if there is one.
#[derive(Drop)]
pub struct HostRule {
    value: i64,
    number: Option<i64>,
    alloc: Global,
}

impl Model for HostRule {
    ghost use Rattle.std.specs.Prelude.{List, ℤ, ◌∷◌};
    ghost use Rattle.std.specs.Option.{option_to_list};

    ghost Value = { List ℤ };

    ghost view = { λ rule. rule.value ∷ option_to_list rule.number };
}

impl HostRule {
    /// The handler keeps the allocator.
    pub fn new(alloc: Global, value: i64, number: Option<i64>) -> HostRule
        ensures { result ≡ value ∷ option_to_list number }
    {
        HostRule {
            value,
            number,
            alloc,
        }
    }
}

impl OnceRule for HostRule {
    ghost use Rattle.vx_kinds.specs.Rules.{Allows, may_run_out, ran_out};

    ghost allows = { Allows };

    ghost argument = { λ rule. rule };

    fn run(self, _input: OnceInput) -> OnceEnd {
        let mut acts = PlainActs::new(self.alloc);
        let end = End::Value(self.value);
        let Some(number) = self.number else {
            return OnceEnd { acts, end };
        };
        let act = PlainAct::Publish {
            address: Text::constant("once"),
            body: Body::int(number),
            options: Options::none(self.alloc),
        };
        match acts.push(act) {
            Ok(()) => OnceEnd { acts, end },
            Err(_) => OnceEnd {
                acts,
                end: End::NoMemory,
            },
        }
    }

    fn tell(&self) -> Result<Numbers, NoMemory> {
        match self.number {
            Some(number) => Numbers::new(self.alloc, &[self.value, number]),
            None => Numbers::new(self.alloc, &[self.value]),
        }
    }

    ghost may_run_out = { may_run_out };

    ghost ran_out = { ran_out };
}
