//! The deployments of a file.
ghost use Rattle.std.specs.Prelude.{◌≡◌, option_map, IfOk};
ghost use Rattle.vx_data.specs.Bodies.{members, elements};
ghost use Rattle.vx_deployfile.specs.Files as files;
ghost use Rattle.vx_deployfile.specs.Verdicts.{Gives};

use crate::fault::{FileRefused, FileWhy, Place};
use crate::field::{
    array, bad, field, flag, name, name_or, number_or, numbers, object, required, text,
};
use crate::file::{Planned, PoolPlan};
use crate::kinds::{is_kind, suits};
use crate::pool::has_pool;
use std::alloc::Global;
use vx_data::{Body, NoMemory, Numbers, Text};
use vx_message::KindSpec;

/// How many deployments a file may have.
const MAX_DEPLOYMENTS: usize = 64;

/// The name of a kind.
#[tactic(auto, unfolding(crate::specs::Files::kind_in))]
fn kind(pairs: &[(Text, Body)], place: Place) -> Result<&Text, FileRefused>
    ensures { Gives (λ kind. kind.now) result (files.kind_in place (members pairs.now)) }
{
    let name = text(required(pairs, b"kind", place)?, place)?;
    if !is_kind(name.bytes()) {
        return Err(bad(place, FileWhy::Range));
    }
    Ok(name)
}

#[tactic(auto, unfolding(crate::specs::Files::address_in))]
fn address(pairs: &[(Text, Body)], place: Place) -> Result<&Text, FileRefused>
    ensures { Gives (λ address. address.now) result (files.address_in place (members pairs.now)) }
{
    name(required(pairs, b"address", place)?, place)
}

/// The pool that a deployment names, if it names one. It is one of the file's.
#[tactic(auto, unfolding(crate::specs::Files::pool_of))]
fn pool<'a>(
    pairs: &'a [(Text, Body)],
    version: u64,
    pools: &[PoolPlan],
    place: Place,
) -> Result<Option<&'a Text>, FileRefused>
    ensures { Gives (option_map (λ name. name.now)) result (files.pool_of place version pools.now (members pairs.entry.now)) }
{
    if version != 2 {
        return Ok(None);
    }
    let Some(value) = field(pairs, b"pool") else {
        return Ok(None);
    };
    let name = text(value, place)?;
    if !has_pool(pools, name) {
        return Err(bad(place, FileWhy::Range));
    }
    Ok(Some(name))
}

/// The numbers that go to a deployment's kind.
#[tactic(auto, unfolding(crate::specs::Files::config_in))]
fn config(
    alloc: Global,
    pairs: &[(Text, Body)],
    kind: &Text,
    place: Place,
) -> Result<Vec<i64>, FileRefused>
    ensures { Gives (λ numbers. numbers.items) result (files.config_in place kind.now (members pairs.now)) }
{
    let config = match field(pairs, b"config") {
        Some(value) => numbers(alloc, array(value, place)?, place)?,
        None => Vec::new(alloc),
    };
    if !suits(kind.bytes(), &config) {
        return Err(bad(place, FileWhy::Range));
    }
    Ok(config)
}

/// What kind a deployment is of, and what goes to the kind.
fn spec(
    alloc: Global,
    kind: &Text,
    address: &Text,
    to: &Text,
    config: &[i64],
) -> Result<KindSpec, NoMemory>
    ensures { IfOk result (λ spec. spec ≡ record { kind = kind.now; address = address.now; to = to.now; config = config.now }) }
{
    Ok(KindSpec {
        kind: kind.copy(alloc)?,
        address: address.copy(alloc)?,
        to: to.copy(alloc)?,
        config: Numbers::new(alloc, config)?,
    })
}

/// A deployment. Without a second address the first one stands for it.
#[tactic(auto, unfolding(crate::specs::Files::planned_in))]
fn planned(
    alloc: Global,
    item: &Body,
    version: u64,
    pools: &[PoolPlan],
    place: Place,
) -> Result<Planned, FileRefused>
    ensures { Gives (λ plan. plan) result (files.planned_in version pools.now place item.now) }
{
    let pairs = object(item, place)?;
    let kind = kind(pairs, place)?;
    let address = address(pairs, place)?;
    let to = name_or(address, field(pairs, b"to"), place)?;
    let instances = number_or(1, field(pairs, b"instances"), 1, 64, place)?;
    let worker = flag(field(pairs, b"worker"), place)?;
    let pool = pool(pairs, version, pools, place)?;
    let config = config(alloc, pairs, kind, place)?;
    let pool = match pool {
        Some(name) => Some(name.copy(alloc)?),
        None => None,
    };
    Ok(Planned {
        spec: spec(alloc, kind, address, to, &config)?,
        instances: instances as u32,
        worker,
        pool,
    })
}

/// All deployments of an array.
fn deployments_of(
    alloc: Global,
    items: &[Body],
    version: u64,
    pools: &[PoolPlan],
) -> Result<Vec<Planned>, FileRefused>
    ensures { Gives (λ plans. plans.items) result (files.each_planned version pools.now (elements items.now)) }
{
    let mut plans = Vec::new(alloc);
    for (i, item) in items.iter().enumerate() {
        if i >= MAX_DEPLOYMENTS {
            return Err(bad(Place::Deployment(64), FileWhy::Range));
        }
        plans.push(planned(alloc, item, version, pools, Place::Deployment(i as u32))?)?;
    }
    Ok(plans)
}

/// The deployments of a file.
#[tactic(auto, unfolding(crate::specs::Files::deployments_in))]
pub(crate) fn deployments(
    alloc: Global,
    pairs: &[(Text, Body)],
    version: u64,
    pools: &[PoolPlan],
) -> Result<Vec<Planned>, FileRefused>
    ensures { Gives (λ plans. plans.items) result (files.deployments_in version pools.now (members pairs.now)) }
{
    let place = Place::Deployment(0);
    let items = array(required(pairs, b"deployments", place)?, place)?;
    deployments_of(alloc, items, version, pools)
}
