//! The text of replies.
ghost use Rattle.std.specs.Prelude.{◌≡◌, ◌++◌, OnOk, OnErr, IsTrue, codes, flat_map};
ghost use Rattle.std.specs.Fmt.{decimal};
ghost use Rattle.vx_reply_text.specs.Groups as groups;
ghost use Rattle.vx_reply_text.specs.Replies as texts;

use crate::pieces::{write_context, write_number, write_signed};
use crate::refusal::write_refusal;
use crate::text::append;
use std::alloc::Global;
use vx_call::{DoneResult, JobResult, OutFrame, Reply, Task, To};
use vx_data::{Body, ConsumerId, EntryNo, Headers, List, MessageId, NoMemory, ServerId, Text};
use vx_frame_write::write_json;
use vx_json::{write_body, write_text};
use vx_message::{Failure, FailureKind, Message, Outcome};

fn write_to(alloc: Global, to: To, into: &mut Vec<u8>) -> Result<(), NoMemory>
    ensures { OnOk result (into.new.items ≡ into.old.items ++ (codes " " ++ texts.to_text to)) }
{
    match to {
        To::None => append(b" to none", into),
        To::Stopped => append(b" stopped", into),
        To::Lost(consumer) => write_number(alloc, " lost", consumer.0.0, into),
        To::Consumer(consumer) => write_number(alloc, " to", consumer.0.0, into),
        To::Asker => append(b" to asker", into),
    }
}

/// Appends what was done with the message of this entry, and what it reached.
fn write_message(
    alloc: Global,
    verb: &str,
    at: EntryNo,
    to: To,
    into: &mut Vec<u8>,
) -> Result<(), NoMemory>
    ensures { OnOk result (into.new.items ≡ into.old.items ++ texts.message_text verb.now at to) }
{
    write_number(alloc, verb, at.0, into)?;
    write_to(alloc, to, into)
}

fn write_consumer(alloc: Global, consumer: ConsumerId, into: &mut Vec<u8>) -> Result<(), NoMemory>
    ensures { OnOk result (into.new.items ≡ into.old.items ++ texts.consumer_text consumer) }
{
    let text = format!(in alloc; " {}", consumer.0.0)?;
    append(text.as_bytes(), into)
}

fn write_consumers(
    alloc: Global,
    consumers: &[ConsumerId],
    into: &mut Vec<u8>,
) -> Result<(), NoMemory>
    ensures { OnOk result (into.new.items ≡ into.old.items ++ flat_map texts.consumer_text consumers.now) }
{
    for consumer in consumers {
        write_consumer(alloc, *consumer, into)?;
    }
    Ok(())
}

fn write_published(
    alloc: Global,
    at: EntryNo,
    consumers: &List<ConsumerId>,
    into: &mut Vec<u8>,
) -> Result<(), NoMemory>
    ensures { OnOk result (into.new.items ≡ into.old.items ++ texts.published_text at consumers.now) }
{
    let front = format!(in alloc; "published {} to", at.0)?;
    append(front.as_bytes(), into)?;
    match consumers.items() {
        [] => append(b" none", into),
        some => write_consumers(alloc, some, into),
    }
}

/// Appends a header: a plus sign, its name and its value as JSON texts, and a space.
fn write_header(header: &(Text, Text), into: &mut Vec<u8>) -> Result<(), NoMemory>
    ensures { OnOk result (into.new.items ≡ into.old.items ++ texts.header_text header.now) }
{
    append(b"+", into)?;
    write_text(&header.0, into)?;
    append(b"=", into)?;
    write_text(&header.1, into)?;
    append(b" ", into)
}

fn write_headers(headers: &[(Text, Text)], into: &mut Vec<u8>) -> Result<(), NoMemory>
    ensures { OnOk result (into.new.items ≡ into.old.items ++ flat_map texts.header_text headers.now) }
{
    for header in headers {
        write_header(header, into)?;
    }
    Ok(())
}

/// Appends the headers of a message and its body.
fn write_content(headers: &Headers, body: &Body, into: &mut Vec<u8>) -> Result<(), NoMemory>
    ensures { OnOk result (into.new.items ≡ into.old.items ++ texts.content_text headers.now body.now) }
{
    write_headers(headers.pairs(), into)?;
    write_body(body, into)
}

fn write_delivery(
    alloc: Global,
    consumer: ConsumerId,
    message: &Message,
    into: &mut Vec<u8>,
) -> Result<(), NoMemory>
    ensures { OnOk result (into.new.items ≡ into.old.items ++ texts.delivery_text consumer message.now) }
{
    let front = if message.request {
        format!(in alloc; "request {} {} ", consumer.0.0, message.id.0.0)?
    } else {
        format!(in alloc; "deliver {} {} ", consumer.0.0, message.id.0.0)?
    };
    append(front.as_bytes(), into)?;
    write_content(&message.headers, &message.body, into)
}

fn write_reply_content(
    alloc: Global,
    headers: &Headers,
    body: &Body,
    again: Option<MessageId>,
    into: &mut Vec<u8>,
) -> Result<(), NoMemory>
    ensures { OnOk result (into.new.items ≡ into.old.items ++ texts.outcome_text (Outcome.Ok headers.now body.now again)) }
{
    match again {
        None => append(b"ok ", into)?,
        Some(message) => {
            let front = format!(in alloc; "again {} ", message.0.0)?;
            append(front.as_bytes(), into)?;
        }
    }
    write_content(headers, body, into)
}

fn write_failure(alloc: Global, failure: &Failure, into: &mut Vec<u8>) -> Result<(), NoMemory>
    ensures { OnOk result (into.new.items ≡ into.old.items ++ texts.failure_text failure.now.kind failure.now.code failure.now.text) }
{
    match failure.kind {
        FailureKind::Timeout => {
            let text = format!(in alloc; "timeout {}", failure.code)?;
            append(text.as_bytes(), into)
        }
        FailureKind::NoHandlers => {
            let text = format!(in alloc; "no_handlers {}", failure.code)?;
            append(text.as_bytes(), into)
        }
        FailureKind::RecipientFailure => {
            let front = format!(in alloc; "recipient_failure {} ", failure.code)?;
            append(front.as_bytes(), into)?;
            write_text(&failure.text, into)
        }
    }
}

fn write_outcome(
    alloc: Global,
    request: MessageId,
    outcome: &Outcome,
    into: &mut Vec<u8>,
) -> Result<(), NoMemory>
    ensures { OnOk result (into.new.items ≡ into.old.items ++ texts.task_text (Task.Outcome request outcome.now)) }
{
    let front = format!(in alloc; "outcome {} ", request.0.0)?;
    append(front.as_bytes(), into)?;
    match outcome {
        Outcome::Ok {
            headers,
            body,
            again,
        } => write_reply_content(alloc, headers, body, *again, into),
        Outcome::Failed(failure) => write_failure(alloc, failure, into),
    }
}

/// Appends how blocking code or a promise ended.
fn write_job_result(alloc: Global, ended: JobResult, into: &mut Vec<u8>) -> Result<(), NoMemory>
    ensures { OnOk result (into.new.items ≡ into.old.items ++ texts.job_result_text ended) }
{
    match ended {
        JobResult::Value(value) => write_signed(alloc, "value", value, into),
        JobResult::Fail(code) => write_signed(alloc, "fail", i64::from(code), into),
        JobResult::NoMemory => append(b"nomemory", into),
    }
}

/// Appends a word, the number of what ended, and how it ended.
fn write_job_end(
    alloc: Global,
    word: &str,
    number: u64,
    ended: JobResult,
    into: &mut Vec<u8>,
) -> Result<(), NoMemory>
    ensures { OnOk result (into.new.items ≡ into.old.items ++ texts.job_end_text word.now number ended) }
{
    write_number(alloc, word, number, into)?;
    append(b" ", into)?;
    write_job_result(alloc, ended, into)
}

/// Appends how the starts of a deployment ended.
fn write_done_result(alloc: Global, ended: DoneResult, into: &mut Vec<u8>) -> Result<(), NoMemory>
    ensures { OnOk result (into.new.items ≡ into.old.items ++ texts.done_result_text ended) }
{
    match ended {
        DoneResult::Ok => append(b"ok", into),
        DoneResult::Fail(code) => write_signed(alloc, "fail", i64::from(code), into),
        DoneResult::NoMemory => append(b"nomemory", into),
    }
}

fn write_deploy_end(
    alloc: Global,
    number: u64,
    ended: DoneResult,
    into: &mut Vec<u8>,
) -> Result<(), NoMemory>
    ensures { OnOk result (into.new.items ≡ into.old.items ++ texts.deploy_end_text number ended) }
{
    write_number(alloc, "deployend", number, into)?;
    append(b" ", into)?;
    write_done_result(alloc, ended, into)
}

fn write_connected(
    alloc: Global,
    server: ServerId,
    at: EntryNo,
    into: &mut Vec<u8>,
) -> Result<(), NoMemory>
    ensures { OnOk result (into.new.items ≡ into.old.items ++ texts.task_text (Task.Connected server at)) }
{
    let text = format!(in alloc; "connected {} {}", server.0.0, at.0)?;
    append(text.as_bytes(), into)
}

/// Appends a task that says no more than what it is about.
fn write_named_task(alloc: Global, task: &Task, into: &mut Vec<u8>) -> Result<(), NoMemory>
    requires { IsTrue (groups.names_alone task.now) }
    ensures { OnOk result (into.new.items ≡ into.old.items ++ texts.task_text task.now) }
{
    match task {
        Task::Start(context) => write_context(alloc, "start", *context, into),
        Task::Fire(timer) => write_number(alloc, "fire", timer.0.0, into),
        Task::Run(queued) => write_number(alloc, "run", queued.0.0, into),
        Task::Job(queued) => write_number(alloc, "job", queued.0.0, into),
        Task::UndeployEnd(deployment) => {
            write_number(alloc, "undeployend", deployment.0.0, into)
        }
        Task::Stop(context) => write_context(alloc, "stop", *context, into),
        _ => unreachable!(),
    }
}

fn write_task(alloc: Global, task: &Task, into: &mut Vec<u8>) -> Result<(), NoMemory>
    ensures { OnOk result (into.new.items ≡ into.old.items ++ texts.task_text task.now) }
{
    match task {
        Task::Deliver { consumer, message } => write_delivery(alloc, *consumer, message, into),
        Task::Outcome { request, outcome } => write_outcome(alloc, *request, outcome, into),
        Task::JobDone {
            queued,
            result: ended,
        } => write_job_end(alloc, "jobdone", queued.0.0, *ended, into),
        Task::Connected(server, at) => write_connected(alloc, *server, *at, into),
        Task::PromiseEnd {
            awaited: _,
            promise,
            result: ended,
        } => write_job_end(alloc, "promiseend", promise.0.0, *ended, into),
        Task::DeployEnd {
            deployment,
            result: ended,
        } => write_deploy_end(alloc, deployment.0.0, *ended, into),
        _ => write_named_task(alloc, task, into),
    }
}

/// Appends the frame, with the length of its JSON before it.
fn write_frame(alloc: Global, frame: &OutFrame, into: &mut Vec<u8>) -> Result<(), NoMemory>
    ensures { OnOk result (into.new.items ≡ into.old.items ++ texts.outgoing_text frame.now) }
{
    let mut json = Vec::new(alloc);
    write_json(alloc, frame, &mut json)?;
    write_number(alloc, "frame", json.len() as u64, into)?;
    append(b" ", into)?;
    append(&json, into)
}

fn write_accepted(
    alloc: Global,
    at: EntryNo,
    server: ServerId,
    into: &mut Vec<u8>,
) -> Result<(), NoMemory>
    ensures { OnOk result (into.new.items ≡ into.old.items ++ texts.reply_text at (Reply.Accepted server)) }
{
    let text = format!(in alloc; "accepted {} by {}", at.0, server.0.0)?;
    append(text.as_bytes(), into)
}

/// Appends the name of what was made.
fn write_made(alloc: Global, at: EntryNo, reply: &Reply, into: &mut Vec<u8>) -> Result<(), NoMemory>
    requires { IsTrue (groups.names_made reply.now) }
    ensures { OnOk result (into.new.items ≡ into.old.items ++ texts.reply_text at reply.now) }
{
    match reply {
        Reply::Pool(pool) => write_number(alloc, "pool", pool.0.0, into),
        Reply::Deployment(deployment) => write_number(alloc, "deployment", deployment.0.0, into),
        Reply::Consumer(consumer) => write_number(alloc, "consumer", consumer.0.0, into),
        Reply::Timer(timer) => write_number(alloc, "timer", timer.0.0, into),
        Reply::Queued(queued) => write_number(alloc, "queued", queued.0.0, into),
        Reply::Promise(promise) => write_number(alloc, "promise", promise.0.0, into),
        Reply::Codec(codec) => write_number(alloc, "codec", codec.0.0, into),
        Reply::Rule(rule) => write_number(alloc, "rule", rule.0.0, into),
        _ => unreachable!(),
    }
}

/// Appends a reply that is no more than a word, or a word and a number.
fn write_short(
    alloc: Global,
    at: EntryNo,
    reply: &Reply,
    into: &mut Vec<u8>,
) -> Result<(), NoMemory>
    requires { IsTrue (groups.is_short reply.now) }
    ensures { OnOk result (into.new.items ≡ into.old.items ++ texts.reply_text at reply.now) }
{
    match reply {
        Reply::Connection(conn) => write_number(alloc, "connection", conn.0.0, into),
        Reply::Server(server) => write_number(alloc, "server", server.0.0, into),
        Reply::Fired(count) => write_number(alloc, "fired", *count, into),
        Reply::NoFrame => append(b"no frame", into),
        Reply::Idle => append(b"idle", into),
        Reply::Stopped => append(b"stopped", into),
        Reply::Done => append(b"ok", into),
        _ => write_made(alloc, at, reply, into),
    }
}

fn write_line(alloc: Global, at: EntryNo, reply: &Reply, into: &mut Vec<u8>) -> Result<(), NoMemory>
    ensures { OnOk result (into.new.items ≡ into.old.items ++ texts.reply_text at reply.now) }
{
    match reply {
        Reply::Pass(pass) => write_number(alloc, "pass", pass.0, into),
        Reply::Context(context) => write_context(alloc, "context", *context, into),
        Reply::Sent(to) => write_message(alloc, "sent", at, *to, into),
        Reply::Published(consumers) => write_published(alloc, at, consumers, into),
        Reply::Asked(to) => write_message(alloc, "asked", at, *to, into),
        Reply::Accepted(server) => write_accepted(alloc, at, *server, into),
        Reply::Frame(frame) => write_frame(alloc, frame, into),
        Reply::Task(task) => write_task(alloc, task, into),
        Reply::Refused(refusal) => write_refusal(alloc, *refusal, into),
        _ => write_short(alloc, at, reply, into),
    }
}

/// Appends the line of the reply to the call whose own entry is `at`. Without memory nothing is
/// appended.
pub fn write_reply(
    alloc: Global,
    at: EntryNo,
    reply: &Reply,
    into: &mut Vec<u8>,
) -> Result<(), NoMemory>
    ensures ok { OnOk result (into.new.items ≡ into.old.items ++ texts.reply_line at reply.now) }
    ensures err { OnErr result (into.new.items ≡ into.old.items) }
{
    let mut line = Vec::new(alloc);
    write_line(alloc, at, reply, &mut line)?;
    line.push(b'\n')?;
    append(&line, into)
}
