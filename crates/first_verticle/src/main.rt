//! A verticle of one's own on a hub: it is deployed, and a customer buys of it until nothing is left.
#![tactic(auto)]

ghost use Rattle.std.specs.Prelude.{◌<◌};

mod fault;
mod market;
mod serving;
mod shop;

use crate::fault::Fault;
use crate::market::{hear, open, order};
use crate::serving::serve;
use crate::shop::Shop;
use std::alloc::Global;
use vx_data::{BodyView, ContextId};
use vx_hub::Hub;
use vx_message::Outcome;

/// The customer buys a piece: what the customer hears of the shop.
fn buy(hub: &mut Hub<Shop>, alloc: Global, customer: ContextId) -> Result<Outcome, Fault>
    requires { 0 < hub.old.passes }
    ensures { 0 < hub.new.passes }
{
    order(hub, alloc, customer)?;
    serve(hub, alloc)?;
    hear(hub, customer)
}

/// How many pieces a reply says are left.
fn left_in(outcome: &Outcome) -> Option<i64> {
    match outcome {
        Outcome::Ok { body, .. } => match body.view() {
            BodyView::Int(left) => Some(left),
            _ => None,
        },
        Outcome::Failed(_) => None,
    }
}

/// Says what the customer heard.
fn say(rt: &impl Print, outcome: &Outcome) -> anyhow::Result<()> {
    match (left_in(outcome), outcome) {
        (Some(left), _) => println!(rt; "sold, {left} left")?,
        (None, Outcome::Failed(failure)) => {
            println!(rt; "failed with {}: {}", failure.code, failure.text.as_str())?
        }
        (None, Outcome::Ok { .. }) => println!(rt; "sold")?,
    }
    Ok(())
}

/// The customer buys twice at a shop with one piece: what the customer hears each time.
fn trade(hub: &mut Hub<Shop>, alloc: Global) -> Result<(Outcome, Outcome), Fault>
    requires { 0 < hub.old.passes }
{
    let customer = open(hub, alloc, 1)?;
    let first = buy(hub, alloc, customer)?;
    let second = buy(hub, alloc, customer)?;
    Ok((first, second))
}

/// Has the trade on a hub of its own.
fn trade_alone(alloc: Global) -> Result<(Outcome, Outcome), Fault> {
    let mut hub: Hub<Shop> = Hub::new(alloc);
    trade(&mut hub, alloc)
}

fn main(rt: HostRuntime) -> anyhow::Result<()> {
    let (first, second) = trade_alone(rt.alloc())?;
    say(&rt, &first)?;
    say(&rt, &second)
}
