//! The JSON text of a file.
ghost use Rattle.std.specs.Prelude.{◌≡◌, ◌<◌, ◌^◌, ◌++◌, List, ℕ, map, option_map, IfOk, OnOk, OnErr, Ok};
ghost use Rattle.vx_data.specs.Bodies.{elements, gathered};
ghost use Rattle.vx_data.specs.Tree as tree;
ghost use Rattle.vx_deployfile.specs.Files.{ReadsAs};
ghost use Rattle.vx_deployfile.specs.Texts as texts;
ghost use Rattle.vx_deployfile.specs.Texts.{file_text};

use crate::file::{DeployFile, Planned, PoolPlan};
use std::alloc::Global;
use vx_data::{Body, NoMemory, Text};
use vx_json::write_body;

/// Adds a field, where it is there.
fn put(
    pairs: &mut Vec<(Text, Body)>,
    name: &'static str,
    value: Option<Body>,
) -> Result<(), NoMemory>
    ensures { OnOk result (pairs.new.items ≡ pairs.old.items ++ texts.if_there name.now value) }
{
    match value {
        Some(value) => Ok(pairs.push((Text::constant(name), value))?),
        None => Ok(()),
    }
}

/// The object of these fields.
fn object_of(alloc: Global, pairs: Vec<(Text, Body)>) -> Result<Body, NoMemory>
    ensures { IfOk result (λ body. body ≡ tree.object (gathered pairs.items)) }
{
    match Body::object(alloc, pairs) {
        Ok(body) => Ok(body),
        Err(_) => Err(NoMemory),
    }
}

fn array_of(items: Vec<Body>) -> Result<Body, NoMemory>
    ensures { IfOk result (λ body. body ≡ tree.array (elements items.items)) }
{
    match Body::array(items) {
        Ok(body) => Ok(body),
        Err(_) => Err(NoMemory),
    }
}

/// An array that is left out where it is empty.
fn unless_empty(items: Vec<Body>) -> Result<Option<Body>, NoMemory>
    ensures { IfOk result (λ value. value ≡ texts.unless_empty items.items) }
{
    if items.is_empty() {
        return Ok(None);
    }
    Ok(Some(array_of(items)?))
}

/// A number that is left out where it is the default.
fn unless(otherwise: u32, n: u32) -> Option<Body>
    ensures { result ≡ texts.unless otherwise n }
{
    if n == otherwise {
        None
    } else {
        Some(Body::int(i64::from(n)))
    }
}

/// After how many ms the host ends, which is left out where it does not end by itself.
fn until(ms: u64) -> Option<Body>
    requires { ms < 2 ^ 63 }
    ensures { result ≡ texts.unless 0 ms }
{
    if ms == 0 {
        None
    } else {
        Some(Body::int(ms as i64))
    }
}

/// A text that is left out where it is this other.
fn unless_same(alloc: Global, other: &Text, text: &Text) -> Result<Option<Body>, NoMemory>
    ensures { IfOk result (λ value. value ≡ texts.unless_same other.now text.now) }
{
    if text.is(other) {
        return Ok(None);
    }
    Ok(Some(text_of(alloc, text)?))
}

fn text_of(alloc: Global, text: &Text) -> Result<Body, NoMemory>
    ensures { IfOk result (λ body. body ≡ tree.text text.now) }
{
    Ok(Body::text(text.copy(alloc)?))
}

/// The name of the pool of a deployment, if it names one.
fn pool_name(alloc: Global, plan: &Planned) -> Result<Option<Body>, NoMemory>
    ensures { IfOk result (λ value. value ≡ option_map tree.text plan.now.pool) }
{
    match &plan.pool {
        Some(name) => Ok(Some(text_of(alloc, name)?)),
        None => Ok(None),
    }
}

fn if_true(flag: bool) -> Option<Body>
    ensures { result ≡ texts.if_true flag }
{
    if flag { Some(Body::bool(true)) } else { None }
}

fn numbers(alloc: Global, list: &[i64]) -> Result<Vec<Body>, NoMemory>
    ensures { IfOk result (λ items. items.items ≡ map tree.int list.now) }
{
    let mut items = Vec::new(alloc);
    for n in list {
        items.push(Body::int(*n))?;
    }
    Ok(items)
}

fn pool_body(alloc: Global, pool: &PoolPlan) -> Result<Body, NoMemory>
    ensures { IfOk result (λ body. body ≡ texts.pool_tree pool.now) }
{
    let mut pairs = Vec::new(alloc);
    put(&mut pairs, "name", Some(text_of(alloc, &pool.name)?))?;
    put(&mut pairs, "size", Some(Body::int(i64::from(pool.size))))?;
    object_of(alloc, pairs)
}

fn pool_bodies(alloc: Global, pools: &[PoolPlan]) -> Result<Vec<Body>, NoMemory>
    ensures { IfOk result (λ items. items.items ≡ map texts.pool_tree pools.now) }
{
    let mut items = Vec::new(alloc);
    for pool in pools {
        items.push(pool_body(alloc, pool)?)?;
    }
    Ok(items)
}

fn plan_body(alloc: Global, plan: &Planned) -> Result<Body, NoMemory>
    ensures { IfOk result (λ body. body ≡ texts.planned_tree plan.now) }
{
    let spec = &plan.spec;
    let mut pairs = Vec::new(alloc);
    put(&mut pairs, "address", Some(text_of(alloc, &spec.address)?))?;
    put(
        &mut pairs,
        "config",
        unless_empty(numbers(alloc, spec.config.list())?)?,
    )?;
    put(&mut pairs, "instances", unless(1, plan.instances))?;
    put(&mut pairs, "kind", Some(text_of(alloc, &spec.kind)?))?;
    put(&mut pairs, "pool", pool_name(alloc, plan)?)?;
    put(
        &mut pairs,
        "to",
        unless_same(alloc, &spec.address, &spec.to)?,
    )?;
    put(&mut pairs, "worker", if_true(plan.worker))?;
    object_of(alloc, pairs)
}

fn plan_bodies(alloc: Global, plans: &[Planned]) -> Result<Vec<Body>, NoMemory>
    ensures { IfOk result (λ items. items.items ≡ map texts.planned_tree plans.now) }
{
    let mut items = Vec::new(alloc);
    for plan in plans {
        items.push(plan_body(alloc, plan)?)?;
    }
    Ok(items)
}

fn file_body(alloc: Global, file: &DeployFile) -> Result<Body, NoMemory>
    requires { file.now.until < 2 ^ 63 }
    ensures { IfOk result (λ body. body ≡ texts.file_tree file.now) }
{
    let plans = plan_bodies(alloc, file.deployments.items())?;
    let pools = pool_bodies(alloc, file.pools.items())?;
    let mut pairs = Vec::new(alloc);
    put(&mut pairs, "deployments", Some(array_of(plans)?))?;
    put(&mut pairs, "loops", unless(2, u32::from(file.loops)))?;
    put(&mut pairs, "pools", unless_empty(pools)?)?;
    put(&mut pairs, "until", until(file.until))?;
    put(&mut pairs, "version", Some(Body::int(2)))?;
    put(&mut pairs, "workers", unless(2, u32::from(file.workers)))?;
    object_of(alloc, pairs)
}

/// Appends the text of the file: JSON without spaces, keys in byte order, version 2, and no field that has its default.
/// `NoMemory` leaves the list as it was.
pub fn write_file(alloc: Global, file: &DeployFile, into: &mut Vec<u8>) -> Result<(), NoMemory>
    // The profile has no greater number. A file that was read ends by 1,000,000,000,000 ms.
    requires { file.now.until < 2 ^ 63 }
    ensures written { OnOk result (into.new.items ≡ into.old.items ++ file_text file.now) }
    // The text of a file that was read is read as that file again.
    ensures again { (bytes : List ℕ) → ReadsAs bytes (Ok file.now) → ReadsAs (file_text file.now) (Ok file.now) }
    ensures unchanged { OnErr result (into.new.items ≡ into.old.items) }
{
    let body = file_body(alloc, file)?;
    write_body(&body, into)
}
