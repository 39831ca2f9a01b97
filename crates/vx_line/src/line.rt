//! What a line says.
ghost use Rattle.std.specs.Prelude.{◌≡◌, ◌++◌};
ghost use Rattle.vx_line.specs.declared.instruction.Instruction.TheVariants as does;
ghost use Rattle.vx_line.specs.Grammar.{forms, call_forms, verticle_forms, message_forms, rule_forms, take_form, finish_form, work_form, pass_form, context_form, register_form, unregister_form, pause_form, resume_form, fetch_form, advance_form, close_form, loops_form, pool_form, undeploy_form, started_form, stopped_form, send_form, publish_form, request_form, reply_form, fail_form, ask_form, codec_form, uncodec_form, rule_form, unrule_form};
ghost use Rattle.vx_words.specs.Reading.{Gives};
ghost use Rattle.vx_line.specs.Reading.{form_at, form_by};
ghost use Rattle.vx_line.specs.Lines.{instruction_at, command_at, said_at};

use crate::command::Command;
use crate::deploying::deploy;
use crate::instruction::Instruction;
use crate::options::{limit, message_options, request_options, tell};
use crate::reasons::is_text;
use crate::scope::Scope;
use crate::tables::is_on;
use std::alloc::Global;
use vx_call::Call;
use vx_data::{ConsumerId, DeploymentId, EntryNo, MessageId, Moment, RuleId};
use vx_words::pass::pass;
use vx_words::word::{split_word, trim};
use vx_words::{LineFault, MISFIT, ending, piece};

/// The timeout in ms of a request that names none.
const TIMEOUT: u64 = 30_000;

/// How many messages are held for a consumer that names no limit.
const LIMIT: u32 = 1_000;

fn new_pass(tail: &[u8]) -> Result<Call, LineFault>
    ensures { Gives (λ call. does.Call call) result (form_at pass_form tail.now) }
{
    ending::end(tail)?;
    Ok(Call::NewPass)
}

fn context(tail: &[u8]) -> Result<Call, LineFault>
    ensures { Gives (λ call. does.Call call) result (form_at context_form tail.now) }
{
    ending::end(tail)?;
    Ok(Call::NewContext)
}

fn register(alloc: Global, tail: &[u8]) -> Result<Call, LineFault>
    ensures { Gives (λ call. does.Call call) result (form_at register_form tail.now) }
{
    let (limit, tail) = limit(tail)?;
    let (context, tail) = piece::context(tail)?;
    let (address, tail) = piece::text(alloc, tail)?;
    ending::end(tail)?;
    Ok(Call::Register {
        context,
        address,
        limit: limit.unwrap_or(LIMIT),
    })
}

fn unregister(tail: &[u8]) -> Result<Call, LineFault>
    ensures { Gives (λ call. does.Call call) result (form_at unregister_form tail.now) }
{
    let (consumer, tail) = piece::number(tail)?;
    ending::end(tail)?;
    Ok(Call::Unregister(ConsumerId(EntryNo(consumer))))
}

fn pause(tail: &[u8]) -> Result<Call, LineFault>
    ensures { Gives (λ call. does.Call call) result (form_at pause_form tail.now) }
{
    let (consumer, tail) = piece::number(tail)?;
    ending::end(tail)?;
    Ok(Call::Pause(ConsumerId(EntryNo(consumer))))
}

fn resume(tail: &[u8]) -> Result<Call, LineFault>
    ensures { Gives (λ call. does.Call call) result (form_at resume_form tail.now) }
{
    let (consumer, tail) = piece::number(tail)?;
    ending::end(tail)?;
    Ok(Call::Resume(ConsumerId(EntryNo(consumer))))
}

fn fetch(tail: &[u8]) -> Result<Call, LineFault>
    ensures { Gives (λ call. does.Call call) result (form_at fetch_form tail.now) }
{
    let (consumer, tail) = piece::number(tail)?;
    let (count, tail) = piece::small_number(tail)?;
    ending::end(tail)?;
    Ok(Call::Fetch(ConsumerId(EntryNo(consumer)), count))
}

fn advance(tail: &[u8]) -> Result<Call, LineFault>
    ensures { Gives (λ call. does.Call call) result (form_at advance_form tail.now) }
{
    let (moment, tail) = piece::number(tail)?;
    ending::end(tail)?;
    Ok(Call::Advance(Moment::at(moment)))
}

fn close(tail: &[u8]) -> Result<Call, LineFault>
    ensures { Gives (λ call. does.Call call) result (form_at close_form tail.now) }
{
    ending::end(tail)?;
    Ok(Call::Close)
}

fn loops(tail: &[u8]) -> Result<Call, LineFault>
    ensures { Gives (λ call. does.Call call) result (form_at loops_form tail.now) }
{
    let (count, tail) = piece::small_number(tail)?;
    ending::end(tail)?;
    Ok(Call::SetLoops(count))
}

fn pool(alloc: Global, tail: &[u8]) -> Result<Call, LineFault>
    ensures { Gives (λ call. does.Call call) result (form_at pool_form tail.now) }
{
    let (name, tail) = piece::text(alloc, tail)?;
    let (size, tail) = piece::small_number(tail)?;
    ending::end(tail)?;
    Ok(Call::AddPool { name, size })
}

fn undeploy(tail: &[u8]) -> Result<Call, LineFault>
    ensures { Gives (λ call. does.Call call) result (form_at undeploy_form tail.now) }
{
    let (tell, tail) = tell(tail)?;
    let (deployment, tail) = piece::number(tail)?;
    ending::end(tail)?;
    Ok(Call::Undeploy {
        deployment: DeploymentId(EntryNo(deployment)),
        tell,
    })
}

fn started(tail: &[u8]) -> Result<Call, LineFault>
    ensures { Gives (λ call. does.Call call) result (form_at started_form tail.now) }
{
    let ended = ending::start_result(tail)?;
    Ok(Call::StartDone(ended))
}

fn stopped(tail: &[u8]) -> Result<Call, LineFault>
    ensures { Gives (λ call. does.Call call) result (form_at stopped_form tail.now) }
{
    ending::end(tail)?;
    Ok(Call::StopDone)
}

fn send(alloc: Global, tail: &[u8]) -> Result<Call, LineFault>
    ensures { Gives (λ call. does.Call call) result (form_at send_form tail.now) }
{
    let (options, tail) = message_options(alloc, tail)?;
    let (address, tail) = piece::text(alloc, tail)?;
    let body = ending::body(alloc, tail)?;
    Ok(Call::Send {
        address,
        body,
        options,
    })
}

fn publish(alloc: Global, tail: &[u8]) -> Result<Call, LineFault>
    ensures { Gives (λ call. does.Call call) result (form_at publish_form tail.now) }
{
    let (options, tail) = message_options(alloc, tail)?;
    let (address, tail) = piece::text(alloc, tail)?;
    let body = ending::body(alloc, tail)?;
    Ok(Call::Publish {
        address,
        body,
        options,
    })
}

fn request(alloc: Global, tail: &[u8]) -> Result<Call, LineFault>
    ensures { Gives (λ call. does.Call call) result (form_at request_form tail.now) }
{
    let (options, timeout, tail) = request_options(alloc, tail)?;
    let (context, tail) = piece::context(tail)?;
    let (address, tail) = piece::text(alloc, tail)?;
    let body = ending::body(alloc, tail)?;
    Ok(Call::Request {
        context,
        address,
        body,
        options,
        timeout: timeout.unwrap_or(TIMEOUT),
        once: None,
    })
}

fn reply(alloc: Global, tail: &[u8]) -> Result<Call, LineFault>
    ensures { Gives (λ call. does.Call call) result (form_at reply_form tail.now) }
{
    let (options, tail) = message_options(alloc, tail)?;
    let (message, tail) = piece::number(tail)?;
    let body = ending::body(alloc, tail)?;
    Ok(Call::Reply {
        message: MessageId(EntryNo(message)),
        body,
        options,
    })
}

fn fail(alloc: Global, tail: &[u8]) -> Result<Call, LineFault>
    ensures { Gives (λ call. does.Call call) result (form_at fail_form tail.now) }
{
    let (message, tail) = piece::number(tail)?;
    let (code, tail) = piece::code(tail)?;
    let text = ending::rest(alloc, tail)?;
    Ok(Call::Fail {
        message: MessageId(EntryNo(message)),
        code,
        text,
    })
}

fn ask(alloc: Global, tail: &[u8]) -> Result<Call, LineFault>
    ensures { Gives (λ call. does.Call call) result (form_at ask_form tail.now) }
{
    let (options, timeout, tail) = request_options(alloc, tail)?;
    let (message, tail) = piece::number(tail)?;
    let (context, tail) = piece::context(tail)?;
    let body = ending::body(alloc, tail)?;
    Ok(Call::ReplyRequest {
        message: MessageId(EntryNo(message)),
        context,
        body,
        options,
        timeout: timeout.unwrap_or(TIMEOUT),
    })
}

fn codec(alloc: Global, tail: &[u8]) -> Result<Call, LineFault>
    ensures { Gives (λ call. does.Call call) result (form_at codec_form tail.now) }
{
    let (name, tail) = piece::text(alloc, tail)?;
    let form = ending::codec_form(alloc, tail)?;
    Ok(Call::AddCodec { name, form })
}

fn uncodec(alloc: Global, tail: &[u8]) -> Result<Call, LineFault>
    ensures { Gives (λ call. does.Call call) result (form_at uncodec_form tail.now) }
{
    let (name, tail) = piece::text(alloc, tail)?;
    ending::end(tail)?;
    Ok(Call::RemoveCodec(name))
}

fn rule(alloc: Global, tail: &[u8]) -> Result<Call, LineFault>
    ensures { Gives (λ call. does.Call call) result (form_at rule_form tail.now) }
{
    let (side, tail) = piece::side(tail)?;
    let (condition, tail) = piece::condition(alloc, tail)?;
    let (verdict, tail) = piece::verdict(alloc, tail)?;
    ending::end(tail)?;
    Ok(Call::AddRule {
        side,
        condition,
        verdict,
    })
}

fn unrule(tail: &[u8]) -> Result<Call, LineFault>
    ensures { Gives (λ call. does.Call call) result (form_at unrule_form tail.now) }
{
    let (rule, tail) = piece::number(tail)?;
    ending::end(tail)?;
    Ok(Call::RemoveRule(RuleId(EntryNo(rule))))
}

fn take(tail: &[u8]) -> Result<Instruction, LineFault>
    ensures { Gives (λ take. take) result (form_at take_form tail.now) }
{
    Ok(Instruction::Take(ending::lane(tail)?))
}

fn finish(tail: &[u8]) -> Result<Instruction, LineFault>
    ensures { Gives (λ finish. finish) result (form_at finish_form tail.now) }
{
    Ok(Instruction::Finish(ending::task_end(tail)?))
}

fn work(tail: &[u8]) -> Result<Instruction, LineFault>
    ensures { Gives (λ work. work) result (form_at work_form tail.now) }
{
    Ok(Instruction::Work(ending::lane(tail)?))
}

/// The call of a line about codecs and rules, by its first word.
fn rule_call(alloc: Global, word: &[u8], tail: &[u8]) -> Result<Call, LineFault>
    ensures { Gives (λ call. does.Call call) result (form_by rule_forms word.now tail.now) }
{
    if word == b"codec".as_slice() {
        codec(alloc, tail)
    } else if word == b"uncodec".as_slice() {
        uncodec(alloc, tail)
    } else if word == b"rule".as_slice() {
        rule(alloc, tail)
    } else if word == b"unrule".as_slice() {
        unrule(tail)
    } else {
        Err(MISFIT)
    }
}

/// The call of a line about messages, or about codecs and rules, by its first word.
fn message_call(alloc: Global, word: &[u8], tail: &[u8]) -> Result<Call, LineFault>
    ensures { Gives (λ call. does.Call call) result (form_by (message_forms ++ rule_forms) word.now tail.now) }
{
    if word == b"send".as_slice() {
        send(alloc, tail)
    } else if word == b"publish".as_slice() {
        publish(alloc, tail)
    } else if word == b"request".as_slice() {
        request(alloc, tail)
    } else if word == b"reply".as_slice() {
        reply(alloc, tail)
    } else if word == b"fail".as_slice() {
        fail(alloc, tail)
    } else if word == b"ask".as_slice() {
        ask(alloc, tail)
    } else {
        rule_call(alloc, word, tail)
    }
}

/// The call of a line about verticles, or about messages, codecs and rules, by its first word.
fn verticle_call(alloc: Global, word: &[u8], tail: &[u8]) -> Result<Call, LineFault>
    ensures { Gives (λ call. does.Call call) result (form_by (verticle_forms ++ (message_forms ++ rule_forms)) word.now tail.now) }
{
    if word == b"loops".as_slice() {
        loops(tail)
    } else if word == b"pool".as_slice() {
        pool(alloc, tail)
    } else if word == b"undeploy".as_slice() {
        undeploy(tail)
    } else if word == b"started".as_slice() {
        started(tail)
    } else if word == b"stopped".as_slice() {
        stopped(tail)
    } else {
        message_call(alloc, word, tail)
    }
}

/// The call of a line, by its first word.
fn call(alloc: Global, word: &[u8], tail: &[u8]) -> Result<Call, LineFault>
    ensures { Gives (λ call. does.Call call) result (form_by call_forms word.now tail.now) }
{
    if word == b"pass".as_slice() {
        new_pass(tail)
    } else if word == b"context".as_slice() {
        context(tail)
    } else if word == b"register".as_slice() {
        register(alloc, tail)
    } else if word == b"unregister".as_slice() {
        unregister(tail)
    } else if word == b"pause".as_slice() {
        pause(tail)
    } else if word == b"resume".as_slice() {
        resume(tail)
    } else if word == b"fetch".as_slice() {
        fetch(tail)
    } else if word == b"advance".as_slice() {
        advance(tail)
    } else if word == b"close".as_slice() {
        close(tail)
    } else {
        verticle_call(alloc, word, tail)
    }
}

/// What a line has done, by its first word.
fn by_word(alloc: Global, word: &[u8], tail: &[u8]) -> Result<Instruction, LineFault>
    ensures { Gives (λ instruction. instruction) result (form_by forms word.now tail.now) }
{
    if word == b"take".as_slice() {
        take(tail)
    } else if word == b"finish".as_slice() {
        finish(tail)
    } else if word == b"work".as_slice() {
        work(tail)
    } else if word == b"deploy".as_slice() {
        deploy(alloc, tail)
    } else {
        Ok(Instruction::Call(call(alloc, word, tail)?))
    }
}

/// The same, where these commands are on.
#[tactic(auto, unfolding(crate::specs::Lines::instruction_at))]
fn instruction(
    alloc: Global,
    scope: Scope,
    word: &[u8],
    tail: &[u8],
) -> Result<Instruction, LineFault>
    ensures { Gives (λ instruction. instruction) result (instruction_at scope word.now tail.now) }
{
    if is_on(scope, word, tail) {
        by_word(alloc, word, tail)
    } else {
        Err(MISFIT)
    }
}

/// The instruction of a line, from its first word on, and its pass.
#[tactic(auto, unfolding(crate::specs::Lines::command_at))]
fn command(alloc: Global, scope: Scope, passes: u64, bytes: &[u8]) -> Result<Command, LineFault>
    ensures { Gives (λ command. command) result (command_at scope passes bytes.now) }
{
    let (pass, bytes) = pass(passes, bytes).ok_or(MISFIT)?;
    let (word, tail) = split_word(bytes);
    let instruction = instruction(alloc, scope, word, tail)?;
    Ok(Command { pass, instruction })
}

/// What a line says, where there are so many passes and these commands are on: an instruction, or none where it is empty or a
/// comment.
#[tactic(auto, unfolding(crate::specs::Lines::said_at))]
pub fn read_line(
    alloc: Global,
    scope: Scope,
    passes: u64,
    line: &[u8],
) -> Result<Option<Command>, LineFault>
    ensures { Gives (λ said. said) result (said_at scope passes line.now) }
{
    if !is_text(line) {
        return Err(MISFIT);
    }
    if line.is_empty() || line[0] == b'#' {
        return Ok(None);
    }
    Ok(Some(command(alloc, scope, passes, trim(line))?))
}
