//! Worker pools, by their names.

ghost use Rattle.std.specs.Prelude.{◌≡◌, List, find};
ghost use Rattle.std.specs.Option.{option_map};
ghost use Rattle.std.specs.Str.{bytes_eq};
ghost use Rattle.vx_message.specs.declared.Pool.{Pool};
ghost use Rattle.vx_call.specs.declared.history.Traced.{Traced};
ghost use Rattle.vx_call.specs.Pools.{pool_lane};
ghost use Rattle.vx_call.specs.Refusals as machine;
ghost use Rattle.vx_context.specs.Stands.{ContextsStand};

use vx_call::{Lane, Refusal};
use vx_context::Contexts;
use vx_data::{PoolId, Text};

/// The most worker pools.
const MAX_POOLS: usize = 8;

// The worker pool of this name, where it is there.
fn named(contexts: &Contexts, name: &Text) -> Option<PoolId>
    ensures { result ≡ option_map (λ (pool : Pool). pool.id) (find (λ (pool : Pool). bytes_eq pool.name name.now) contexts.now.pools) }
{
    contexts
        .pools()
        .iter()
        .find(|pool| pool.name.is(name))
        .map(|pool| pool.id)
}

/// The lane of a deployment's workers and blocking code: that of the pool that it names, else the one without a name.
pub fn pool_lane(contexts: &Contexts, pool: &Option<Text>) -> Lane
    ensures { (history : List Traced) → ContextsStand contexts.now history → result ≡ pool_lane history pool.now }
{
    match pool {
        Some(name) => match named(contexts, name) {
            Some(id) => Lane::Named(id),
            None => Lane::Pool,
        },
        None => Lane::Pool,
    }
}

/// `NoPool`, where a pool is named that is not there.
pub fn no_pool(contexts: &Contexts, pool: &Option<Text>) -> Option<Refusal>
    ensures { (history : List Traced) → ContextsStand contexts.now history → result ≡ machine.no_pool history pool.now }
{
    match pool {
        Some(name) => match named(contexts, name) {
            Some(_) => None,
            None => Some(Refusal::NoPool),
        },
        None => None,
    }
}

/// `PoolTaken`, where a pool has the name.
pub fn pool_taken(contexts: &Contexts, name: &Text) -> Option<Refusal>
    ensures { (history : List Traced) → ContextsStand contexts.now history → result ≡ machine.pool_taken history name.now }
{
    match named(contexts, name) {
        Some(id) => Some(Refusal::PoolTaken(id.0)),
        None => None,
    }
}

/// `BadCount`, where there are eight pools.
pub fn many_pools(contexts: &Contexts) -> Option<Refusal>
    ensures { (history : List Traced) → ContextsStand contexts.now history → result ≡ machine.many_pools history }
{
    if MAX_POOLS <= contexts.pools().len() {
        Some(Refusal::BadCount)
    } else {
        None
    }
}
