//! The pools of a file.
ghost use Rattle.std.specs.Prelude.{◌≡◌};
ghost use Rattle.vx_data.specs.Bodies.{members, elements};
ghost use Rattle.vx_deployfile.specs.Files as files;
ghost use Rattle.vx_deployfile.specs.Verdicts.{Gives};

use crate::fault::{FileRefused, FileWhy, Place};
use crate::field::{array, bad, field, name, number, object, required};
use crate::file::PoolPlan;
use std::alloc::Global;
use vx_data::{Body, Text};

/// How many pools a file may have.
const MAX_POOLS: usize = 8;

/// Whether one of the pools has this name.
pub(crate) fn has_pool(pools: &[PoolPlan], name: &Text) -> bool
    ensures { result ≡ files.has_pool pools.now name.now }
{
    pools.iter().any(|pool| name.is(&pool.name))
}

/// A pool, whose name no earlier one has.
#[tactic(auto, unfolding(crate::specs::Files::pool_in))]
fn pool(
    alloc: Global,
    item: &Body,
    earlier: &[PoolPlan],
    place: Place,
) -> Result<PoolPlan, FileRefused>
    ensures { Gives (λ pool. pool) result (files.pool_in place earlier.now item.now) }
{
    let pairs = object(item, place)?;
    let name = name(required(pairs, b"name", place)?, place)?;
    if has_pool(earlier, name) {
        return Err(bad(place, FileWhy::Range));
    }
    let size = number(required(pairs, b"size", place)?, 1, 20, place)?;
    Ok(PoolPlan {
        name: name.copy(alloc)?,
        size: size as u32,
    })
}

/// All pools of an array.
fn pools_of(alloc: Global, items: &[Body]) -> Result<Vec<PoolPlan>, FileRefused>
    ensures { Gives (λ pools. pools.items) result (files.each_pool (elements items.now)) }
{
    let mut pools = Vec::new(alloc);
    for (i, item) in items.iter().enumerate() {
        if i >= MAX_POOLS {
            return Err(bad(Place::Pool(8), FileWhy::Range));
        }
        let place = Place::Pool(i as u32);
        pools.push(pool(alloc, item, &pools, place)?)?;
    }
    Ok(pools)
}

/// The pools of a file of this version. They came with version 2.
#[tactic(auto, unfolding(crate::specs::Files::pools_in))]
pub(crate) fn pools(
    alloc: Global,
    pairs: &[(Text, Body)],
    version: u64,
) -> Result<Vec<PoolPlan>, FileRefused>
    ensures { Gives (λ pools. pools.items) result (files.pools_in version (members pairs.now)) }
{
    if version != 2 {
        return Ok(Vec::new(alloc));
    }
    match field(pairs, b"pools") {
        Some(value) => pools_of(alloc, array(value, Place::Pool(0))?),
        None => Ok(Vec::new(alloc)),
    }
}
