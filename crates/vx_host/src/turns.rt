//! Calls on a machine in a pass's turn.
//!
//! These functions know of the machine only what `Machine` says, so no proof here has the parts of a hub in it.
ghost use Rattle.std.specs.Prelude.{◌≡◌, List, [], ◌∷◌, ◌++◌, IfOk, IfErr, MatchResult};
ghost use Rattle.vx_turn.specs.Caller.{IsBusy};
ghost use Rattle.vx_turn.specs.Passes.{place, place_of, place_in, caller, caller_in, seen_in, machine_in};
ghost use Rattle.vx_host.specs.Turns.{MayCall, Calls, HasTurn, Adds, HasLeft, MayBeMade, AlwaysLeaves, WasMade, HasSplit};

use std::marker::Brand;
use std::sync::Wait;
use vx_data::PassNo;
use vx_turn::{Busy, Machine, Pass, Shared, Spent, Turn};

/// The entries that a call adds to a history. Each function that makes a call says its own.
pub(crate) trait Grows<E> {
    ghost adds: { List E → List E };
}

impl<E> Grows<E> for Brand {
    ghost adds = { λ history. [] };
}

// Makes a call on a machine.
fn make<M, A, B, F: FnOnce(&mut M, PassNo, A) -> B>(
    machine: &mut M,
    pass: PassNo,
    argument: A,
    call: F,
) -> B
    requires { MayCall F.FnOnce call machine.old pass argument }
    ensures { Calls F.FnOnce call machine.old pass argument result machine.new }
{
    call(machine, pass, argument)
}

// Ends a turn in which nothing was added, or nothing since it split.
fn put_back<M: Machine>(turn: Turn<'_, M>) -> Pass<M>
    requires stands { M.stands_for (machine_in turn) (seen_in turn) }
    requires legal { M.legal (seen_in turn) }
    ensures place { place_of result ≡ place_in turn.entry }
    ensures same { caller result ≡ caller_in turn.entry }
{
    turn.leave()
}

/// Waits for its turn and makes a call, which adds these entries whatever it answers.
pub(crate) fn in_turn<
    M: Machine,
    G: Grows<M::Entry>,
    R: Wait,
    A,
    B,
    F: FnOnce(&mut M, PassNo, A) -> B,
>(shared: &Shared<M>, rt: &R, pass: Pass<M>, argument: A, call: F) -> (Pass<M>, B)
    requires place { place_of pass ≡ place shared.now }
    requires may { MayBeMade M.Machine F.FnOnce call argument (caller pass) }
    requires adds { AlwaysLeaves M.Machine F.FnOnce call argument (caller pass) (λ turn result left. Adds M.Machine turn left (G.adds turn.seen)) }
    ensures place { place_of result.0 ≡ place_of pass }
    ensures called { WasMade M.Machine F.FnOnce call argument (caller pass) result.1 (λ turn. HasLeft M.Machine turn (caller result.0) (G.adds turn.seen)) }
{
    let number = pass.number();
    let mut turn = shared.enter(rt, pass);
    let result = make(turn.machine(), number, argument, call);
    (turn.leave(), result)
}

// Makes a call in a turn, which adds these entries where it succeeds, and none where it fails.
fn attempt<M: Machine, G: Grows<M::Entry>, A, B, C, F: FnOnce(&mut M, PassNo, A) -> Result<B, C>>(
    mut turn: Turn<'_, M>,
    pass: PassNo,
    argument: A,
    call: F,
) -> (Pass<M>, Result<B, C>)
    requires may { MayCall F.FnOnce call (machine_in turn) pass argument }
    requires adds { (result : B) (left : M) → Calls F.FnOnce call (machine_in turn) pass argument (Ok result) left → Adds M.Machine (caller_in turn) left (G.adds (seen_in turn)) }
    requires keeps { (why : C) (left : M) → Calls F.FnOnce call (machine_in turn) pass argument (Err why) left → M.stands_for left (seen_in turn) }
    requires legal { M.legal (seen_in turn) }
    ensures place { place_of result.0 ≡ place_in turn.entry }
    ensures called { (left : M) × Calls F.FnOnce call (machine_in turn.entry) pass argument result.1 left }
    ensures then { MatchResult result.1 (λ _. HasLeft M.Machine (caller_in turn.entry) (caller result.0) (G.adds (seen_in turn.entry))) (λ _. caller result.0 ≡ caller_in turn.entry) }
{
    match make(turn.machine(), pass, argument, call) {
        Ok(result) => (turn.leave(), Ok(result)),
        Err(why) => (put_back(turn), Err(why)),
    }
}

/// Waits for its turn and makes a call, which adds these entries where it succeeds, and none where it fails.
pub(crate) fn attempt_in_turn<
    M: Machine,
    G: Grows<M::Entry>,
    R: Wait,
    A,
    B,
    C,
    F: FnOnce(&mut M, PassNo, A) -> Result<B, C>,
>(shared: &Shared<M>, rt: &R, pass: Pass<M>, argument: A, call: F) -> (Pass<M>, Result<B, C>)
    requires place { place_of pass ≡ place shared.now }
    requires may { MayBeMade M.Machine F.FnOnce call argument (caller pass) }
    requires leaves { AlwaysLeaves M.Machine F.FnOnce call argument (caller pass) (λ turn result left. MatchResult result (λ _. Adds M.Machine turn left (G.adds turn.seen)) (λ _. M.stands_for left turn.seen)) }
    ensures place { place_of result.0 ≡ place_of pass }
    ensures called { WasMade M.Machine F.FnOnce call argument (caller pass) result.1 (λ turn. MatchResult result.1 (λ _. HasLeft M.Machine turn (caller result.0) (G.adds turn.seen)) (λ _. caller result.0 ≡ turn)) }
{
    let number = pass.number();
    let turn = shared.enter(rt, pass);
    attempt::<_, G, _, _, _, _>(turn, number, argument, call)
}

/// The same, where no other pass has the turn or waits for it. It doesn't wait.
pub(crate) fn attempt_at_once<
    M: Machine,
    G: Grows<M::Entry>,
    A,
    B,
    C,
    F: FnOnce(&mut M, PassNo, A) -> Result<B, C> + Drop,
>(
    shared: &Shared<M>,
    pass: Pass<M>,
    argument: A,
    call: F,
) -> Result<(Pass<M>, Result<B, C>), (Busy<M>, A)>
    requires place { place_of pass ≡ place shared.now }
    requires may { MayBeMade M.Machine F.FnOnce call argument (caller pass) }
    requires leaves { AlwaysLeaves M.Machine F.FnOnce call argument (caller pass) (λ turn result left. MatchResult result (λ _. Adds M.Machine turn left (G.adds turn.seen)) (λ _. M.stands_for left turn.seen)) }
    ensures place { IfOk result (λ made. place_of made.0 ≡ place_of pass) }
    ensures called { IfOk result (λ made. WasMade M.Machine F.FnOnce call argument (caller pass) made.1 (λ turn. MatchResult made.1 (λ _. HasLeft M.Machine turn (caller made.0) (G.adds turn.seen)) (λ _. caller made.0 ≡ turn))) }
    ensures back { IfErr result (λ missed. (place_of missed.0.pass ≡ place_of pass) × (missed.1 ≡ argument)) }
    ensures busy { IfErr result (λ missed. IsBusy (caller pass) (caller missed.0.pass) missed.0.serving missed.0.ticket) }
{
    let number = pass.number();
    match shared.try_enter(pass) {
        Ok(turn) => Ok(attempt::<_, G, _, _, _, _>(turn, number, argument, call)),
        Err(busy) => Err((busy, argument)),
    }
}

/// Waits for its turn and makes a pass.
pub(crate) fn split<M: Machine, R: Wait>(
    shared: &Shared<M>,
    rt: &R,
    pass: Pass<M>,
) -> (Pass<M>, Result<Pass<M>, Spent>)
    requires { place_of pass ≡ place shared.now }
    ensures place { place_of result.0 ≡ place_of pass }
    ensures placed { IfOk result.1 (λ new. place_of new ≡ place_of pass) }
    ensures split { HasSplit M.Machine (caller pass) result.1 (caller result.0) }
{
    let mut turn = shared.enter(rt, pass);
    let new = turn.split();
    (put_back(turn), new)
}
