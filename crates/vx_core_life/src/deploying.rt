//! Deployments are made.
ghost use Rattle.std.specs.Prelude.{◌≡◌, ◌<◌, ◌≤◌, ◌+◌, ◌*◌, ◌^◌, ℤ, List, length, true, All, IfOk, OnOk, OnErr};
ghost use Rattle.vx_tree.specs.Nodes.{may_be_below};
ghost use Rattle.vx_call.specs.declared.call.Call.TheVariants as calls;
ghost use Rattle.vx_call.specs.declared.history.Traced.{Traced};
ghost use Rattle.vx_call.specs.History.{no_mark};
ghost use Rattle.vx_call.specs.Machine.{IsLegal};
ghost use Rattle.vx_context.specs.Stands.{IsNext};
ghost use Rattle.vx_bus_store.specs.Stands.{HavePlaces};
ghost use Rattle.vx_core_life.specs.Moving.{promised};
ghost use Rattle.vx_core_life.specs.Stands.{AllStand, AreAt, LivesFollow};
ghost use Rattle.vx_core_life.specs.Starting.{lane_for, new_contexts, Adds, Starts};
ghost use Rattle.vx_life.specs.Steps.{Deploys};
ghost use Rattle.vx_life_rows.specs.Moves.{entry_of};

use crate::pools::pool_lane;
use crate::refusals::{deploy_refusal, held_deployment};
use std::alloc::Global;
use vx_bus_delivery::make_room;
use vx_bus_store::Bus;
use vx_call::{Lane, Reply};
use vx_context::Contexts;
use vx_data::{ContextId, DeploymentId, EntryNo, NoMemory, PassNo, Text};
use vx_life::Life;
use vx_message::{Context, ItemKind};
use vx_timer::Timers;

/// Deploys so many verticles, below the verticle whose handler makes the call: their contexts are there, and their starts
/// wait. It fails where memory runs out, and then all stand for what they stood for.
pub fn deploy(
    life: &mut Life,
    contexts: &mut Contexts,
    timers: &Timers,
    bus: &mut Bus,
    at: EntryNo,
    pass: PassNo,
    worker: bool,
    pool: &Option<Text>,
    tell: Option<ContextId>,
    count: u64,
) -> Result<Reply, NoMemory>
    requires small { at.0 < 2 ^ 48 }
    requires one { AreAt at life.old contexts.old timers.now bus.old }
    requires places { HavePlaces contexts.old bus.old }
    requires owed { promised life.old ≤ contexts.old.owed }
    ensures ok { IfOk result (λ reply. (history : List Traced) (states : List (List ℤ)) → AllStand life.old contexts.old timers.now bus.old history → IsLegal history → IsNext at history → LivesFollow life.new contexts.new timers.now bus.new history (entry_of pass (calls.Deploy worker pool.now tell count) reply states no_mark)) }
    ensures err { OnErr result ((history : List Traced) → AllStand life.old contexts.old timers.now bus.old history → AllStand life.new contexts.new timers.now bus.new history) }
    ensures places { HavePlaces contexts.new bus.new }
    ensures owed { promised life.new ≤ contexts.new.owed }
{
    if let Some(refusal) = deploy_refusal(life, contexts, pass, pool, tell, count) {
        return Ok(Reply::Refused(refusal));
    }
    let verticles = count as u32;
    make_room(contexts, bus, 2 * verticles as usize + 2)?;
    let id = DeploymentId(at);
    let parent = held_deployment(contexts, pass);
    let lane = pool_lane(contexts, pool);
    let made = contexts_for(life, bus.alloc(), id, worker, lane, verticles)?;
    add_all(life, contexts, id, parent, worker, tell, &made)?;
    start_all(contexts, at, &made);
    Ok(Reply::Deployment(id))
}

// The contexts of so many verticles of a deployment, in order.
fn contexts_for(
    life: &Life,
    alloc: Global,
    id: DeploymentId,
    worker: bool,
    pool: Lane,
    count: u32,
) -> Result<Vec<Context>, NoMemory>
    requires { life.now.standard + count < 2 ^ 64 }
    ensures { IfOk result (λ made. made.items ≡ new_contexts life.now worker pool id count) }
{
    let mut made = Vec::new(alloc);
    for instance in 0..count {
        let lane = lane_for(life, worker, pool, instance);
        made.push(Context {
            id: ContextId {
                entry: id.0,
                instance,
            },
            maker: None,
            lane,
            jobs: pool,
        })?;
    }
    Ok(made)
}

// The lane of the instance of this number: a worker's is that of its pool, a standard one's an event loop.
fn lane_for(life: &Life, worker: bool, pool: Lane, number: u32) -> Lane
    requires { life.now.standard + number < 2 ^ 64 }
    ensures { result ≡ lane_for life.now worker pool number }
{
    if worker { pool } else { life.loop_of(number) }
}

// Adds a deployment and the contexts of its verticles: both, or neither where memory runs out.
fn add_all(
    life: &mut Life,
    contexts: &mut Contexts,
    id: DeploymentId,
    parent: Option<DeploymentId>,
    worker: bool,
    tell: Option<ContextId>,
    made: &[Context],
) -> Result<(), NoMemory>
    requires later { All (λ node. node.id.0.0 < id.0.0) life.old.tree.there }
    requires above { may_be_below parent life.old.tree.there life.old.tree.asked ≡ true }
    requires few { length made.now ≤ 64 }
    requires room { life.old.standard + length made.now < 2 ^ 64 }
    ensures lives { OnOk result (Deploys id parent worker tell (length made.now) life.old life.new) }
    ensures added { OnOk result (Adds made.now contexts.old contexts.new) }
    ensures same_lives { OnErr result (life.new ≡ life.old) }
    ensures same_contexts { OnErr result (contexts.new ≡ contexts.old) }
{
    contexts.add_all(made)?;
    let added = life.deploy(id, parent, worker, tell, made.len() as u32);
    if added.is_err() {
        contexts.take_back(made.len());
    }
    added
}

// Makes the starts of these contexts ready, and puts places by for their stops and for the ends of deploying and of
// undeploying.
fn start_all(contexts: &mut Contexts, at: EntryNo, made: &[Context])
    requires { 2 * length made.now + 2 ≤ contexts.old.room }
    ensures starts { Starts at made.now contexts.old contexts.new }
    ensures owed { contexts.new.owed ≡ contexts.old.owed + (length made.now + 2) }
    ensures room { contexts.old.room ≤ contexts.new.room + (2 * length made.now + 2) }
{
    contexts.keep(made.len() + 2);
    put_starts(contexts, at, made);
}

// Makes the starts of these contexts ready, each at the place of its number.
fn put_starts(contexts: &mut Contexts, at: EntryNo, made: &[Context])
    requires { length made.now ≤ contexts.old.room }
    ensures starts { Starts at made.now contexts.old contexts.new }
    ensures owed { contexts.new.owed ≡ contexts.old.owed }
    ensures room { contexts.old.room ≤ contexts.new.room + length made.now }
{
    for context in made.iter() {
        let place = u64::from(context.id.instance);
        contexts.put(at, place, context.id, ItemKind::Start(context.id));
    }
}
