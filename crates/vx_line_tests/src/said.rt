//! What reading a line answers, as a line.
use std::alloc::Global;
use vx_call::{End, Lane};
use vx_data::{ContextId, NoMemory, Text};
use vx_line::{Command, DeployOptions, Instruction, Scope, read_line, reason};
use vx_message::KindSpec;
use vx_words::LineFault;

/// What the line has done, or why it is bad, of all that is read.
pub fn said_of(alloc: Global, line: &[u8]) -> Result<Vec<u8>, NoMemory> {
    let mut said = Vec::new(alloc);
    match read_line(alloc, Scope::Read, 1, line) {
        Ok(Some(command)) => append_instruction(alloc, &command, &mut said)?,
        Ok(None) => append(b"nothing", &mut said)?,
        Err(LineFault::NoMemory) => return Err(NoMemory),
        Err(LineFault::Misfit) => {
            let why = reason(Scope::Read, 1, line);
            append(format!(in alloc; "{why:?}")?.as_bytes(), &mut said)?;
        }
    }
    Ok(said)
}

fn append_instruction(
    alloc: Global,
    command: &Command,
    said: &mut Vec<u8>,
) -> Result<(), NoMemory> {
    match &command.instruction {
        Instruction::Call(_) => append(b"call", said),
        Instruction::Deploy {
            options,
            spec,
            instances,
        } => {
            append(b"deploy", said)?;
            append_options(options, said)?;
            append_spec(spec, said)?;
            append_number(i64::from(*instances), said)
        }
        Instruction::Take(lane) => {
            append(b"take", said)?;
            append_lane(*lane, said)
        }
        Instruction::Finish(end) => append_end(alloc, *end, said),
        Instruction::Work(lane) => {
            append(b"work", said)?;
            append_lane(*lane, said)
        }
    }
}

fn append_options(options: &DeployOptions, said: &mut Vec<u8>) -> Result<(), NoMemory> {
    if options.worker {
        append(b" worker", said)?;
    }
    if let Some(pool) = &options.pool {
        append(b" in", said)?;
        append_text(pool, said)?;
    }
    if let Some(context) = &options.tell {
        append(b" tells", said)?;
        append_context(*context, said)?;
    }
    Ok(())
}

fn append_spec(spec: &KindSpec, said: &mut Vec<u8>) -> Result<(), NoMemory> {
    append_text(&spec.kind, said)?;
    append_text(&spec.address, said)?;
    append_text(&spec.to, said)?;
    append(b" [", said)?;
    for number in spec.config.list() {
        append_number(*number, said)?;
    }
    append(b" ]", said)
}

fn append_lane(lane: Lane, said: &mut Vec<u8>) -> Result<(), NoMemory> {
    match lane {
        Lane::Loop(number) => {
            append(b" loop", said)?;
            append_number(i64::from(number), said)
        }
        Lane::Pool => append(b" pool", said),
        Lane::Named(pool) => {
            append(b" named ", said)?;
            append(itoa::Buffer::new().format(pool.0.0).as_bytes(), said)
        }
        Lane::Own(context) => {
            append(b" own", said)?;
            append_context(context, said)
        }
    }
}

fn append_end(alloc: Global, end: End, said: &mut Vec<u8>) -> Result<(), NoMemory> {
    match end {
        End::Done => append(b"done", said),
        End::Later => append(b"later", said),
        End::Value(value) => append(format!(in alloc; "value {value}")?.as_bytes(), said),
        End::Fail(code) => append(format!(in alloc; "fail {code}")?.as_bytes(), said),
        End::NoMemory => append(b"no memory", said),
    }
}

fn append_context(context: ContextId, said: &mut Vec<u8>) -> Result<(), NoMemory> {
    append(b" ", said)?;
    append(itoa::Buffer::new().format(context.entry.0).as_bytes(), said)?;
    append(b".", said)?;
    append(
        itoa::Buffer::new().format(context.instance).as_bytes(),
        said,
    )
}

fn append_text(text: &Text, said: &mut Vec<u8>) -> Result<(), NoMemory> {
    append(b" ", said)?;
    append(text.bytes(), said)
}

fn append_number(number: i64, said: &mut Vec<u8>) -> Result<(), NoMemory> {
    append(b" ", said)?;
    append(itoa::Buffer::new().format(number).as_bytes(), said)
}

fn append(word: &[u8], said: &mut Vec<u8>) -> Result<(), NoMemory> {
    Ok(said.extend_from_slice(word)?)
}
