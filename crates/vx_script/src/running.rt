ghost use Rattle.std.specs.Prelude.{◌≡◌, ◌≢◌, ◌↔◌, ◌≤◌, IsTrue, [], ◌∷◌, codes, ℕ, List, length, Some, Ok};
ghost use Rattle.vx_io.specs.Faults.{Rose};
ghost use Rattle.vx_line.specs.declared.command.Command.{Command};
ghost use Rattle.vx_script.specs.Lines.{commands_of};
ghost use Rattle.vx_call.specs.Machine.{IsLegal};
ghost use Rattle.vx_laws.specs.Deliveries.{DeliversOnce};
ghost use Rattle.vx_laws.specs.Outcomes.{EndsRequestsOnce};
ghost use Rattle.vx_laws.specs.Turns.{TakesTurns};
ghost use Rattle.vx_laws.specs.Order.{TakesInOrder};
ghost use Rattle.vx_laws.specs.Demand.{TakesAsFetched};
ghost use Rattle.vx_laws.specs.Leaving.{TakesNothingOnceEnded};
ghost use Rattle.vx_laws.specs.Overlap.{HandlersNeverOverlap, LoopsNeverOverlap};
ghost use Rattle.vx_laws.specs.Undeploying.{EndsInOrder};
ghost use Rattle.vx_script.specs.Playing.{history_of};
ghost use Rattle.vx_script.specs.Outcome.{IsOutcome, IsSettled};

use crate::fault::ScriptFault;
use crate::limit::LIMIT;
use crate::lines::read_script;
use crate::playing::play;
use crate::status::Status;
use std::alloc::Global;
use vx_data::Text;
use vx_io::{ReadAllFault, Sink, SinkFault, Source, read_all};

fn is_run(words: &[Text]) -> bool
    ensures { IsTrue result ↔ (words.now ≡ codes "run" ∷ []) }
{
    match words {
        [word] => word.bytes() == b"run".as_slice(),
        _ => false,
    }
}

fn run<S: Source, K: Sink>(alloc: Global, words: &[Text], source: &mut S, sink: &mut K) -> Status
    ensures usage { (result ≡ Status.Usage) ↔ (words.now ≢ codes "run" ∷ []) }
    ensures outcome { IsOutcome (S.left source.old) (S.left source.new) (K.held sink.old) (K.held sink.new) result }
    ensures read_fault { result ≡ Status.ReadFault → Rose (S.faults source.old) (S.faults source.new) }
    ensures write_fault { result ≡ Status.WriteFault → Rose (K.faults sink.old) (K.faults sink.new) }
{
    if !is_run(words) {
        return Status::Usage;
    }
    let bytes = match read_all(alloc, source, LIMIT) {
        Ok(bytes) => bytes,
        Err(ReadAllFault::Failed) => return Status::ReadFault,
        Err(ReadAllFault::NoMemory) => return Status::NoMemory,
        Err(ReadAllFault::TooLong(count)) => return Status::TooLong(count),
    };
    let commands = match read_script(alloc, &bytes) {
        Ok(commands) => commands,
        Err(ScriptFault::NoMemory) => return Status::NoMemory,
        Err(ScriptFault::BadLine(line, why)) => return Status::BadLine { line, why },
    };
    match play(alloc, commands, sink) {
        Ok(()) => Status::Done,
        Err(SinkFault::Failed) => Status::WriteFault,
        Err(SinkFault::NoMemory) => Status::NoMemory,
    }
}

/// Reads the source to its end, checks all lines, makes their calls on a new hub, and writes a line
/// for each reply.
pub fn script<S: Source, K: Sink>(
    alloc: Global,
    words: &[Text],
    source: &mut S,
    sink: &mut K,
) -> Status
    // `run` is the one command.
    ensures usage { (result ≡ Status.Usage) ↔ (words.now ≢ codes "run" ∷ []) }
    ensures outcome { IsOutcome (S.left source.old) (S.left source.new) (K.held sink.old) (K.held sink.new) result }
    ensures read_fault { result ≡ Status.ReadFault → Rose (S.faults source.old) (S.faults source.new) }
    ensures write_fault { result ≡ Status.WriteFault → Rose (K.faults sink.old) (K.faults sink.new) }

    // Every reply of the history of good lines is the machine's.
    ensures legal { (bytes : List ℕ) (commands : List Command) → length bytes ≤ LIMIT → commands_of bytes ≡ Ok commands → IsLegal (history_of commands) }

    // In that history each message is delivered once, each request ends once, handlers take turns, each consumer's
    // messages are taken in the order in which it accepted them, no more of them behind a Pause than are fetched, none
    // behind its end. Handlers of one context never overlap, nor do tasks of one event loop. A verticle stops only once all
    // children of its deployment are gone, and none is added then; of a closed context no task is taken.
    ensures delivered_once { (bytes : List ℕ) (commands : List Command) → length bytes ≤ LIMIT → commands_of bytes ≡ Ok commands → DeliversOnce (history_of commands) }
    ensures requests_end_once { (bytes : List ℕ) (commands : List Command) → length bytes ≤ LIMIT → commands_of bytes ≡ Ok commands → EndsRequestsOnce (history_of commands) }
    ensures handlers_take_turns { (bytes : List ℕ) (commands : List Command) → length bytes ≤ LIMIT → commands_of bytes ≡ Ok commands → TakesTurns (history_of commands) }
    ensures taken_in_order { (bytes : List ℕ) (commands : List Command) → length bytes ≤ LIMIT → commands_of bytes ≡ Ok commands → TakesInOrder (history_of commands) }
    ensures taken_as_fetched { (bytes : List ℕ) (commands : List Command) → length bytes ≤ LIMIT → commands_of bytes ≡ Ok commands → TakesAsFetched (history_of commands) }
    ensures ended_take_nothing { (bytes : List ℕ) (commands : List Command) → length bytes ≤ LIMIT → commands_of bytes ≡ Ok commands → TakesNothingOnceEnded (history_of commands) }
    ensures never_overlap { (bytes : List ℕ) (commands : List Command) → length bytes ≤ LIMIT → commands_of bytes ≡ Ok commands → HandlersNeverOverlap (history_of commands) }
    ensures loops_never_overlap { (bytes : List ℕ) (commands : List Command) → length bytes ≤ LIMIT → commands_of bytes ≡ Ok commands → LoopsNeverOverlap (history_of commands) }
    ensures ends_in_order { (bytes : List ℕ) (commands : List Command) → length bytes ≤ LIMIT → commands_of bytes ≡ Ok commands → EndsInOrder (history_of commands) }

    // Good lines, not too many, are made and answered, unless a read or a write fails, or memory runs out.
    ensures complete { (bytes : List ℕ) (commands : List Command) → words.now ≡ codes "run" ∷ [] → S.left source.old ≡ Some bytes
        → length bytes ≤ LIMIT → commands_of bytes ≡ Ok commands → ¬ Rose (S.faults source.old) (S.faults source.new)
        → ¬ Rose (K.faults sink.old) (K.faults sink.new) → IsSettled result }
{
    run(alloc, words, source, sink)
}
