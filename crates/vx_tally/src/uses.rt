//! Calls of several threads.
ghost use Rattle.std.specs.Prelude.{◌≡◌, ℕ, ◌<◌, List, [], ◌++◌, length, Contains, IfSome, IfOk, IfErr, Option};
ghost use mathlib.Core.List.{IsPrefix};
ghost use Rattle.std.specs.List.{enumerate_from};
ghost use Rattle.vx_turn.specs.Entries.{entries_of};
ghost use Rattle.vx_turn.specs.Caller.{mine_of, newcomer, IsBusy};
ghost use Rattle.vx_turn.specs.Passes.{place, place_of, place_in, caller, caller_in, number, numbers, seen, number_in, seen_in, machine_in, mine};
ghost use Rattle.vx_tally.specs.declared.tally.Entry.{Entry};
ghost use Rattle.vx_tally.specs.Tallies.{StandsFor, IsLegal, pass_of};
ghost use Rattle.vx_tally.specs.Calls.{said, Called, AddsInOrder};

use crate::label::{Label, Plain};
use crate::tally::Tally;
use std::sync::Wait;
use std::thread::{Threads, join, sleep};
use std::time::{Clock, Duration};
use vx_data::PassNo;
use vx_turn::{Busy, Pass, Shared, Spent, Turn};

// Ends the turn in which an addition was told this.
fn close<L: Label>(
    turn: Turn<'_, Tally<L>>,
    pass: u64,
    amount: u64,
    label: u64,
    told: Option<u64>,
) -> Pass<Tally<L>>
    ghost added: { List Entry }
    requires is { added ≡ said pass amount label told }
    requires pass { pass ≡ number_in turn }
    requires stands { StandsFor (machine_in turn) (seen_in turn ++ added) × IsLegal (seen_in turn ++ added) }
    ensures place { place_of result ≡ place_in turn.entry }
    ensures seen { caller result ≡ record (caller_in turn.entry) { seen = seen_in turn.entry ++ said pass amount label told } }
    ensures mine { mine result ≡ mine_of pass_of (caller_in turn.entry) ++ enumerate_from (length (seen_in turn.entry)) (said pass amount label told) }
{
    let _ = (pass, amount, label, told);
    turn.leave()
}

// Adds, and answers the sum, unless the history is full.
fn sum_after<L: Label>(tally: &mut Tally<L>, pass: PassNo, amount: u64, label: L) -> Option<u64>
    ensures { (h : List Entry) → StandsFor tally.old h → IsLegal h → let after = h ++ said pass.0 amount (L.name label) result in StandsFor tally.new after × IsLegal after }
{
    match tally.add(pass, amount, label) {
        Ok(told) => Some(told.sum),
        Err(_) => None,
    }
}

/// Adds in a turn of its own, and answers the sum, unless the history is full.
pub fn bump<R: Wait, L: Label>(
    rt: &R,
    shared: &Shared<Tally<L>>,
    pass: Pass<Tally<L>>,
    amount: u64,
    label: L,
) -> (Pass<Tally<L>>, Option<u64>)
    requires { place_of pass ≡ place shared.now }
    ensures place { place_of result.0 ≡ place_of pass }
    ensures called { Called (caller pass) amount (L.name label) result.1 (caller result.0) }
{
    let PassNo(number) = pass.number();
    let name = label.name();
    let mut turn = shared.enter(rt, pass);
    let told = sum_after(turn.machine(), PassNo(number), amount, label);
    (close(turn, number, amount, name, told), told)
}

/// Opens a second pass.
pub fn twin<R: Wait, L: Label>(
    rt: &R,
    shared: &Shared<Tally<L>>,
    pass: Pass<Tally<L>>,
) -> (Pass<Tally<L>>, Result<Pass<Tally<L>>, Spent>)
    requires { place_of pass ≡ place shared.now }
    ensures place { place_of result.0 ≡ place_of pass }
    ensures number { number result.0 ≡ number pass }
    ensures new { IfOk result.1 (λ new. (place_of new ≡ place_of pass) × (caller new ≡ newcomer (number new) (seen result.0)) × (¬ (Contains (numbers result.0) (number new)))) }
{
    let mut turn = shared.enter(rt, pass);
    let new = turn.split();
    (turn.leave(), new)
}

/// The same where no other pass has the turn or waits for it.
pub fn try_bump<L: Label>(
    shared: &Shared<Tally<L>>,
    pass: Pass<Tally<L>>,
    amount: u64,
    label: L,
) -> Result<(Pass<Tally<L>>, Option<u64>), Busy<Tally<L>>>
    requires { place_of pass ≡ place shared.now }
    ensures place { IfOk result (λ done. place_of done.0 ≡ place_of pass) }
    ensures called { IfOk result (λ done. Called (caller pass) amount (L.name label) done.1 (caller done.0)) }
    ensures back { IfErr result (λ busy. place_of busy.pass ≡ place_of pass) }
    ensures busy { IfErr result (λ busy. IsBusy (caller pass) (caller busy.pass) busy.serving busy.ticket) }
{
    let PassNo(number) = pass.number();
    let name = label.name();
    match shared.try_enter(pass) {
        Ok(mut turn) => {
            let told = sum_after(turn.machine(), PassNo(number), amount, label);
            Ok((close(turn, number, amount, name, told), told))
        }
        Err(busy) => Err(busy),
    }
}

/// Tries to add while another pass has the turn.
pub fn meet<R: Wait, L: Label>(
    rt: &R,
    shared: &Shared<Tally<L>>,
    one: Pass<Tally<L>>,
    two: Pass<Tally<L>>,
    label: L,
) -> (
    Pass<Tally<L>>,
    Result<(Pass<Tally<L>>, Option<u64>), Busy<Tally<L>>>,
)
    requires one { place_of one ≡ place shared.now }
    requires two { place_of two ≡ place shared.now }
    ensures place { place_of result.0 ≡ place_of one }
    ensures back { IfErr result.1 (λ busy. place_of busy.pass ≡ place_of two) }
{
    let turn = shared.enter(rt, one);
    let tried = try_bump(shared, two, 1, label);
    (turn.leave(), tried)
}

/// Adds in a turn that lasts for a while.
pub fn bump_slowly<R: Wait + Clock>(
    rt: &R,
    shared: &Shared<Tally<Plain>>,
    pass: Pass<Tally<Plain>>,
    pause: Duration,
) -> Pass<Tally<Plain>>
    requires { place_of pass ≡ place shared.now }
    ensures { place_of result ≡ place_of pass }
{
    let PassNo(number) = pass.number();
    let mut turn = shared.enter(rt, pass);
    sleep(rt, pause);
    let told = sum_after(turn.machine(), PassNo(number), 1, Plain(0));
    close(turn, number, 1, 0, told)
}

/// One thread waits for a change and adds then; the other adds in two long turns.
pub fn wake<R: Threads + Wait + Clock + Sync>(
    rt: &R,
    shared: &Shared<Tally<Plain>>,
    mut one: Pass<Tally<Plain>>,
    two: Pass<Tally<Plain>>,
    pause: Duration,
) -> Pass<Tally<Plain>>
    requires one { place_of one ≡ place shared.now }
    requires two { place_of two ≡ place shared.now }
    ensures { place_of result ≡ place_of one }
{
    let (one, two) = join(
        rt,
        move || -> Pass<Tally<Plain>>
            requires { place_of one ≡ place shared.now }
            ensures { place_of result ≡ place_of one }
        {
            shared.await_change(rt, &mut one);
            bump(rt, shared, one, 1, Plain(1)).0
        },
        || -> Pass<Tally<Plain>>
            requires { place_of two ≡ place shared.now }
            ensures { place_of result ≡ place_of two }
        {
            let two = bump_slowly(rt, shared, two, pause);
            bump_slowly(rt, shared, two, pause)
        },
    );
    shared.join(one, two)
}

/// Adds the amounts 0, 1, 2 and so on in as many turns, and answers how many there were: `count`, unless the history is full.
pub fn add_many<R: Wait>(
    rt: &R,
    shared: &Shared<Tally<Plain>>,
    mut pass: Pass<Tally<Plain>>,
    count: u64,
) -> (Pass<Tally<Plain>>, u64)
    requires { place_of pass ≡ place shared.now }
    ensures place { place_of result.0 ≡ place_of pass }
    ensures numbers { (number result.0 ≡ number pass) × (numbers result.0 ≡ numbers pass) }
    ensures seen { IsPrefix (seen pass) (seen result.0) }
    ensures mine { AddsInOrder (mine pass) result.1 (mine result.0) }
{
    for amount in 0..count {
        let (next, told) = bump(rt, shared, pass, amount, Plain(amount));
        pass = next;
        if told.is_none() {
            return (pass, amount);
        }
    }
    (pass, count)
}

/// Adds `count` times in each of two threads, and joins their passes. All calls stand in one legal history, those of each thread in their order.
pub fn both<R: Threads + Wait + Sync>(
    rt: &R,
    shared: &Shared<Tally<Plain>>,
    one: Pass<Tally<Plain>>,
    two: Pass<Tally<Plain>>,
    count: u64,
) -> (Pass<Tally<Plain>>, u64, u64)
    requires one { place_of one ≡ place shared.now }
    requires two { place_of two ≡ place shared.now }
    ensures place { place_of result.0 ≡ place_of one }
    ensures legal { IsLegal (seen result.0) }
    ensures seen { IsPrefix (seen one) (seen result.0) × IsPrefix (seen two) (seen result.0) }
    ensures numbers { (number result.0 ≡ number one) × (numbers result.0 ≡ numbers one ++ numbers two) }
    ensures first { AddsInOrder (mine one) result.1 (entries_of pass_of (numbers one) (seen result.0)) }
    ensures second { AddsInOrder (mine two) result.2 (entries_of pass_of (numbers two) (seen result.0)) }
{
    let ((one, first), (two, second)) = join(
        rt,
        || -> (Pass<Tally<Plain>>, u64)
            requires { place_of one ≡ place shared.now }
            ensures place { place_of result.0 ≡ place_of one }
            ensures numbers { (number result.0 ≡ number one) × (numbers result.0 ≡ numbers one) }
            ensures seen { IsPrefix (seen one) (seen result.0) }
            ensures mine { AddsInOrder (mine one) result.1 (mine result.0) }
        { add_many(rt, shared, one, count) },
        || -> (Pass<Tally<Plain>>, u64)
            requires { place_of two ≡ place shared.now }
            ensures place { place_of result.0 ≡ place_of two }
            ensures numbers { (number result.0 ≡ number two) × (numbers result.0 ≡ numbers two) }
            ensures seen { IsPrefix (seen two) (seen result.0) }
            ensures mine { AddsInOrder (mine two) result.1 (mine result.0) }
        { add_many(rt, shared, two, count) },
    );
    (shared.join(one, two), first, second)
}
