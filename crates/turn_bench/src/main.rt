//! How many additions a second go through the turn, and how many through std's `Mutex` round the same machine.
//!
//! The rates are printed on standard error, and `ok` on standard output. The argument is the number of additions a thread makes.
#![tactic(auto)]

ghost use Rattle.std.specs.Prelude.{◌≡◌, IfOk};
ghost use Rattle.vx_turn.specs.Passes.{place, place_of};

use anyhow::{Result, anyhow};
use std::alloc::Global;
use std::env;
use std::sync::{Mutex, Wait};
use std::thread::{Threads, join};
use std::time::{Clock, Duration, Instant};
use vx_data::PassNo;
use vx_tally::{Plain, Tally, add_many, both, twin};
use vx_turn::{Pass, Shared};

/// How many additions a thread makes, if no argument says it.
const ADDITIONS: u64 = 1_000_000;

/// How many rounds are measured.
const ROUNDS: u64 = 5;

fn opened(alloc: Global) -> Result<(Shared<Tally<Plain>>, Pass<Tally<Plain>>)>
    ensures { IfOk result (λ opened. place_of opened.1 ≡ place opened.0) }
{
    match Shared::open(alloc, Tally::new()) {
        Ok(opened) => Ok(opened),
        Err(_) => Err(anyhow!("no memory")),
    }
}

/// One pass enters, adds and leaves, without another.
fn turn_alone<R: Wait + Clock>(rt: &R, alloc: Global, count: u64) -> Result<Duration> {
    let (shared, pass) = opened(alloc)?;
    let start = Instant::now(rt)?;
    let _ = add_many(rt, &shared, pass, count);
    Ok(start.elapsed(rt)?)
}

/// Two passes do so against each other, each on a thread.
fn turn_by_two<R: Threads + Wait + Clock + Sync>(
    rt: &R,
    alloc: Global,
    count: u64,
) -> Result<Duration> {
    let (shared, one) = opened(alloc)?;
    let (one, Ok(two)) = twin(rt, &shared, one) else {
        return Err(anyhow!("spent"));
    };
    let start = Instant::now(rt)?;
    let _ = both(rt, &shared, one, two, count);
    Ok(start.elapsed(rt)?)
}

fn lock_many<R: Wait>(rt: &R, tally: &Mutex<Tally<Plain>>, count: u64) {
    for amount in 0..count {
        let _ = tally.lock(rt).add(PassNo(0), amount, Plain(amount));
    }
}

/// One thread locks, adds and unlocks, without another.
fn mutex_alone<R: Wait + Clock>(rt: &R, count: u64) -> Result<Duration> {
    let tally = Mutex::new(Tally::new());
    let start = Instant::now(rt)?;
    lock_many(rt, &tally, count);
    Ok(start.elapsed(rt)?)
}

/// Two threads do so against each other.
fn mutex_by_two<R: Threads + Wait + Clock + Sync>(rt: &R, count: u64) -> Result<Duration> {
    let tally = Mutex::new(Tally::new());
    let start = Instant::now(rt)?;
    join(
        rt,
        || lock_many(rt, &tally, count),
        || lock_many(rt, &tally, count),
    );
    Ok(start.elapsed(rt)?)
}

/// What each of the four takes, added up over rounds.
#[derive(Drop)]
struct Times {
    turn_alone: Duration,
    mutex_alone: Duration,
    turn_by_two: Duration,
    mutex_by_two: Duration,
}

impl Times {
    fn none() -> Times {
        Times {
            turn_alone: Duration::ZERO,
            mutex_alone: Duration::ZERO,
            turn_by_two: Duration::ZERO,
            mutex_by_two: Duration::ZERO,
        }
    }

    /// With one round more.
    fn plus<R: Threads + Wait + Clock + Sync>(
        &self,
        rt: &R,
        alloc: Global,
        count: u64,
    ) -> Result<Times> {
        let turn_alone = turn_alone(rt, alloc, count)?;
        let mutex_alone = mutex_alone(rt, count)?;
        let turn_by_two = turn_by_two(rt, alloc, count)?;
        let mutex_by_two = mutex_by_two(rt, count)?;
        Ok(Times {
            turn_alone: self.turn_alone.saturating_add(turn_alone),
            mutex_alone: self.mutex_alone.saturating_add(mutex_alone),
            turn_by_two: self.turn_by_two.saturating_add(turn_by_two),
            mutex_by_two: self.mutex_by_two.saturating_add(mutex_by_two),
        })
    }
}

/// How many a second that is.
fn rate(count: u64, took: Duration) -> u128 {
    u128::from(count) * 1_000_000_000 / took.as_nanos().max(1)
}

fn main(rt: HostRuntime) -> Result<()> {
    let alloc = rt.alloc();
    let count = match env::args(&rt)?.nth(1) {
        Some(word) => word.parse()?,
        None => ADDITIONS,
    };
    // A first round warms up, and is not counted.
    let _ = Times::none().plus(&rt, alloc, count)?;
    let mut times = Times::none();
    for _ in 0..ROUNDS {
        times = times.plus(&rt, alloc, count)?;
    }
    let alone = count.saturating_mul(ROUNDS);
    let by_two = alone.saturating_mul(2);
    eprintln!(rt;
        "one thread, turn:   {} a second",
        rate(alone, times.turn_alone)
    )?;
    eprintln!(rt;
        "one thread, mutex:  {} a second",
        rate(alone, times.mutex_alone)
    )?;
    eprintln!(rt;
        "two threads, turn:  {} a second",
        rate(by_two, times.turn_by_two)
    )?;
    eprintln!(rt;
        "two threads, mutex: {} a second",
        rate(by_two, times.mutex_by_two)
    )?;
    println!(rt; "ok")?;
    Ok(())
}
