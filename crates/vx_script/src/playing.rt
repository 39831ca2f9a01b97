//! Making the calls of a script, and writing a line for each reply.
ghost use Rattle.std.specs.Prelude.{◌≡◌, ◌≤◌, ◌<◌, List, [], true, length, map, replicate, unwrap_or, is_some, IfOk, OnOk, OnErr, IsErrOf, IsTrue};
ghost use Rattle.std.specs.Option.{option_map, option_to_list};
ghost use Rattle.std.specs.Io.KnownBytes.{Appends};
ghost use Rattle.vx_call.specs.declared.history.Traced.{Traced};
ghost use Rattle.vx_call.specs.Built.{is_stored};
ghost use Rattle.vx_call.specs.Machine.{answer, extended_with};
ghost use Rattle.vx_call.specs.Passes.{passes};
ghost use Rattle.vx_call.specs.Plain.{is_plain};
ghost use Rattle.vx_kinds.specs.Hosts.{first_state, state_in};
ghost use Rattle.vx_hub.specs.Handing.{gave_in};
ghost use Rattle.vx_hub.specs.Stands.{Answered, StandsFor, Meets, Keeps};
ghost use Rattle.vx_io.specs.Faults.{Rose};
ghost use Rattle.vx_io.specs.Writing.{AppendsFront};
ghost use Rattle.vx_line.specs.Grammar.{is_kind};
ghost use Rattle.vx_line.specs.Made.{first_call, is_made};
ghost use Rattle.vx_script.specs.Held.{AreHeld, Plays, kept_state, verticle_of};
ghost use Rattle.vx_script.specs.Lines.{AreThere, AreMade};
ghost use Rattle.vx_script.specs.Playing.{behind, deploys_so_many, history_of, states_with};
ghost use Rattle.vx_reply_text.specs.Replies.{reply_line, text};

use crate::held::HeldVerticles;
use crate::limit::LIMIT;
use std::alloc::Global;
use vx_call::{Call, End, Reply};
use vx_data::{EntryNo, NoMemory, PassNo};
use vx_hub::{Back, DeployOptions, Hub, Taken, Why};
use vx_io::{Sink, SinkFault, write_all};
use vx_kinds::{HostKinds, HostVerticle};
use vx_line::{Command, Instruction};
use vx_message::{KindSpec, Lane};
use vx_reply_text::write_reply;
use vx_verticle::{KindFault, Kinds};

/// Makes a plain call.
fn step(hub: &mut Hub<HostVerticle>, pass: PassNo, call: Call) -> Result<Reply, NoMemory>
    requires known { pass.0 < hub.old.passes }
    requires plain { IsTrue (is_plain call) }
    requires stored { IsTrue (is_stored call) }
    ensures reply { IfOk result (λ reply. Meets hub.old hub.new pass call reply []) }
    ensures err { OnErr result (Keeps hub.old hub.new) }
{
    match hub.step(pass, call) {
        Ok(reply) => Ok(reply),
        Err(_unmade) => Err(NoMemory),
    }
}

/// A verticle of a kind that is there. Memory may run out.
fn make_verticle(kinds: &mut HostKinds, spec: &KindSpec) -> Result<HostVerticle, NoMemory>
    requires { IsTrue (is_kind spec.now.kind) }
    ensures { IfOk result (λ verticle. state_in verticle ≡ unwrap_or (first_state spec.now) []) }
{
    match kinds.make(spec) {
        Ok(verticle) => Ok(verticle),
        Err(KindFault::NoMemory) => Err(NoMemory),
        Err(KindFault::NoKind) => unreachable!(),
    }
}

/// So many verticles of a kind that is there. Memory may run out.
fn make_verticles(
    alloc: Global,
    spec: &KindSpec,
    instances: u32,
) -> Result<Vec<HostVerticle>, NoMemory>
    requires { IsTrue (is_kind spec.now.kind) }
    ensures { IfOk result (λ verticles. map state_in verticles.items ≡ replicate instances (unwrap_or (first_state spec.now) [])) }
{
    let mut kinds = HostKinds::new(alloc);
    let mut verticles = Vec::new(alloc);
    for _ in 0..instances {
        verticles.push(make_verticle(&mut kinds, spec)?)?;
    }
    Ok(verticles)
}

/// Has verticles deployed by a call that deploys so many.
fn deploy(
    hub: &mut Hub<HostVerticle>,
    pass: PassNo,
    call: Call,
    verticles: Vec<HostVerticle>,
) -> Result<Reply, NoMemory>
    requires known { pass.0 < hub.old.passes }
    requires deploys { deploys_so_many call (length verticles.items) ≡ true }
    ensures reply { IfOk result (λ reply. Meets hub.old hub.new pass call reply (map state_in verticles.items)) }
    ensures err { OnErr result (Keeps hub.old hub.new) }
{
    let options = match call {
        Call::Deploy {
            worker,
            pool,
            tell,
            count: _,
        } => DeployOptions { worker, pool, tell },
        _ => unreachable!(),
    };
    match hub.deploy(pass, options, verticles) {
        Ok(id) => Ok(Reply::Deployment(id)),
        Err(refused) => match refused.why {
            Why::Refused(why) => Ok(Reply::Refused(why)),
            Why::NoMemory => Err(NoMemory),
        },
    }
}

/// Takes the next task of a lane, and keeps the verticle that comes with it.
fn take(
    hub: &mut Hub<HostVerticle>,
    held: &mut HeldVerticles,
    pass: PassNo,
    lane: Lane,
) -> Result<Reply, NoMemory>
    requires known { pass.0 < hub.old.passes }
    ensures reply { IfOk result (λ reply. Meets hub.old hub.new pass (Call.Take lane) reply []) }
    ensures held { IfOk result (λ reply. (history : List Traced) → StandsFor hub.old history → pass.0 < passes history → AreHeld held.old.verticles history → AreHeld held.new.verticles (extended_with history pass (Call.Take lane) reply [])) }
    ensures err { OnErr result (Keeps hub.old hub.new) }
{
    held.reserve()?;
    let Taken {
        reply,
        context: _,
        verticle,
    } = hub.take(pass, lane);
    held.keep(pass, verticle);
    Ok(reply)
}

/// Ends the task of a pass, whose verticle goes back as it was taken.
fn finish(
    hub: &mut Hub<HostVerticle>,
    held: &mut HeldVerticles,
    pass: PassNo,
    end: End,
) -> Result<Reply, NoMemory>
    requires known { pass.0 < hub.old.passes }
    requires there { is_some (verticle_of pass held.old.verticles) ≡ gave_in hub.old.contexts pass }
    ensures reply { IfOk result (λ reply. Meets hub.old hub.new pass (Call.Finish end) reply (option_to_list (kept_state pass held.old.verticles))) }
    ensures held { IfOk result (λ reply. (history : List Traced) → StandsFor hub.old history → pass.0 < passes history → AreHeld held.old.verticles history → AreHeld held.new.verticles (extended_with history pass (Call.Finish end) reply (option_to_list (kept_state pass held.old.verticles)))) }
    ensures err { OnErr result (Keeps hub.old hub.new) }
{
    held.reserve()?;
    let verticle = held.give_back(pass);
    match hub.finish(pass, Back { verticle, end }) {
        Ok(()) => Ok(Reply::Done),
        Err(refused) => {
            held.keep(pass, refused.back.verticle);
            Ok(Reply::Refused(refused.why))
        }
    }
}

/// Has an instruction of a pass done, which is one call, and gives the reply.
fn make(
    alloc: Global,
    hub: &mut Hub<HostVerticle>,
    held: &mut HeldVerticles,
    pass: PassNo,
    instruction: Instruction,
) -> Result<Reply, NoMemory>
    requires known { pass.0 < hub.old.passes }
    requires made { IsTrue (is_made instruction) }
    requires there { is_some (verticle_of pass held.old.verticles) ≡ gave_in hub.old.contexts pass }
    ensures reply { IfOk result (λ reply. (history : List Traced) → StandsFor hub.old history → pass.0 < passes history → AreHeld held.old.verticles history → Answered hub.new history pass (first_call instruction) reply (states_with history pass instruction)) }
    ensures held { IfOk result (λ reply. (history : List Traced) → StandsFor hub.old history → pass.0 < passes history → AreHeld held.old.verticles history → AreHeld held.new.verticles (extended_with history pass (first_call instruction) reply (states_with history pass instruction))) }
    ensures err { OnErr result (Keeps hub.old hub.new) }
{
    match &instruction {
        Instruction::Deploy {
            spec,
            instances,
            ..
        } => {
            let verticles = make_verticles(alloc, spec, *instances)?;
            deploy(hub, pass, instruction.into_first_call(), verticles)
        }
        Instruction::Take(lane) => take(hub, held, pass, *lane),
        Instruction::Finish(end) => finish(hub, held, pass, *end),
        Instruction::Call(_) => step(hub, pass, instruction.into_first_call()),
        Instruction::Work(_) => unreachable!(),
    }
}

/// Writes the line of a reply. The sink has all of it after an `Ok`, and a front of it else.
fn write_one<K: Sink>(
    alloc: Global,
    at: EntryNo,
    reply: &Reply,
    sink: &mut K,
) -> Result<(), SinkFault>
    ensures ok { OnOk result (Appends (K.held sink.old) (K.held sink.new) (reply_line at reply.now)) }
    ensures err { OnErr result (AppendsFront (K.held sink.old) (K.held sink.new) (reply_line at reply.now)) }
    ensures later { K.faults sink.old ≤ K.faults sink.new }
    ensures cause { IsErrOf result SinkFault.Failed → Rose (K.faults sink.old) (K.faults sink.new) }
{
    let mut line = Vec::new(alloc);
    match write_reply(alloc, at, reply, &mut line) {
        Ok(()) => write_all(sink, &line),
        Err(_) => Err(SinkFault::NoMemory),
    }
}

/// Makes one call, and writes the line of its reply. The sink has all of it after an `Ok`, and a
/// front of it else.
fn make_one<K: Sink>(
    alloc: Global,
    hub: &mut Hub<HostVerticle>,
    held: &mut HeldVerticles,
    at: EntryNo,
    command: Command,
    sink: &mut K,
) -> Result<(), SinkFault>
    requires known { command.pass.0 < hub.old.passes }
    requires made { IsTrue (is_made command.instruction) }
    requires there { is_some (verticle_of command.pass held.old.verticles) ≡ gave_in hub.old.contexts command.pass }
    ensures goes { OnOk result ((history : List Traced) → Plays hub.old held.old.verticles history → command.pass.0 < passes history → Plays hub.new held.new.verticles (behind history command)) }
    ensures written { OnOk result ((history : List Traced) → Plays hub.old held.old.verticles history → command.pass.0 < passes history → Appends (K.held sink.old) (K.held sink.new) (reply_line at (answer history command.pass (first_call command.instruction)))) }
    ensures err { OnErr result ((history : List Traced) → Plays hub.old held.old.verticles history → command.pass.0 < passes history → AppendsFront (K.held sink.old) (K.held sink.new) (reply_line at (answer history command.pass (first_call command.instruction)))) }
    ensures later { K.faults sink.old ≤ K.faults sink.new }
    ensures cause { IsErrOf result SinkFault.Failed → Rose (K.faults sink.old) (K.faults sink.new) }
{
    let (pass, instruction) = command.into_parts();
    match make(alloc, hub, held, pass, instruction) {
        Ok(reply) => {
            let written = write_one(alloc, at, &reply, sink);
            reply.let_go();
            written
        }
        Err(_) => Err(SinkFault::NoMemory),
    }
}

/// Makes all calls on a hub that made none before.
fn make_all<K: Sink>(
    alloc: Global,
    hub: &mut Hub<HostVerticle>,
    commands: Vec<Command>,
    sink: &mut K,
) -> Result<(), SinkFault>
    requires new { StandsFor hub.old [] }
    requires few { length commands.items ≤ LIMIT }
    requires there { AreThere 1 commands.items }
    requires built { AreMade commands.items }
    ensures ok { OnOk result (Appends (K.held sink.old) (K.held sink.new) (text (history_of commands.items))) }
    ensures err { OnErr result (AppendsFront (K.held sink.old) (K.held sink.new) (text (history_of commands.items))) }
    ensures later { K.faults sink.old ≤ K.faults sink.new }
    ensures cause { IsErrOf result SinkFault.Failed → Rose (K.faults sink.old) (K.faults sink.new) }
{
    let mut held = HeldVerticles::new(alloc);
    let mut at = 0u64;
    for command in commands {
        make_one(alloc, hub, &mut held, EntryNo(at), command, sink)?;
        at += 1;
    }
    Ok(())
}

/// Makes all calls on a new hub. The sink has the lines of all replies after an `Ok`, and a front of them else.
pub fn play<K: Sink>(alloc: Global, commands: Vec<Command>, sink: &mut K) -> Result<(), SinkFault>
    requires few { length commands.items ≤ LIMIT }
    requires there { AreThere 1 commands.items }
    requires built { AreMade commands.items }
    ensures ok { OnOk result (Appends (K.held sink.old) (K.held sink.new) (text (history_of commands.items))) }
    ensures err { OnErr result (AppendsFront (K.held sink.old) (K.held sink.new) (text (history_of commands.items))) }
    ensures later { K.faults sink.old ≤ K.faults sink.new }
    ensures cause { IsErrOf result SinkFault.Failed → Rose (K.faults sink.old) (K.faults sink.new) }
{
    let mut hub: Hub<HostVerticle> = Hub::new(alloc);
    make_all(alloc, &mut hub, commands, sink)
}
