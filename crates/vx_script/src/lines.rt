//! The lines of a whole script.
ghost use Rattle.std.specs.Prelude.{◌≡◌, ◌==◌, ◌∷◌, ◌<◌, ◌≤◌, ℕ, ◌+◌, length, vec_len, IfOk, IfErr, OnOk, Ok, MatchResult, option_map, None};
ghost use Rattle.std.specs.List.{position_or_len};
ghost use Rattle.std.specs.Str.Lines.{lines, strip_carriage_return};
ghost use Rattle.vx_script.specs.Lines as script;
ghost use Rattle.vx_script.specs.Lines.{commands_of, ScriptFails, Adds};
ghost use Rattle.vx_line.specs.declared.scope.Scope.TheVariants.{Made};
ghost use Rattle.vx_line.specs.Lines.{said_at};
ghost use Rattle.vx_line.specs.Made.{first_call};
ghost use Rattle.vx_words.specs.Reading.{Fails};

use crate::fault::ScriptFault;
use std::alloc::Global;
use vx_call::Call;
use vx_line::{Command, Instruction, Scope, read_line, reason};
use vx_words::LineFault;

fn newline_at(bytes: &[u8]) -> usize
    ensures value { result ≡ position_or_len (λ b. b == 10) bytes.now }
    ensures within { result ≤ length bytes.now }
{
    for (i, b) in bytes.iter().enumerate() {
        if *b == b'\n' {
            return i;
        }
    }
    bytes.len()
}

/// A line without the carriage return at its end.
fn strip(line: &[u8]) -> &[u8]
    ensures { result.now ≡ strip_carriage_return line.now }
{
    match line {
        [front @ .., b'\r'] => front,
        _ => line,
    }
}

/// The first line, and what stands behind it.
fn cut_line(bytes: &[u8]) -> (&[u8], &[u8])
    requires { 0 < length bytes.now }
    ensures cut { lines bytes.now ≡ result.0.now ∷ lines result.1.now }
    ensures shorter { length result.1.now < length bytes.now }
{
    let (line, rest) = bytes.split_at(newline_at(bytes));
    match rest {
        [_, after @ ..] => (strip(line), after),
        [] => (line, rest),
    }
}

/// How many passes are there after a call.
fn passes_with(passes: u64, call: &Call) -> u64
    requires { passes < u64.MAX }
    ensures value { result ≡ script.passes_with passes call.now }
    ensures few { result ≤ passes + 1 }
{
    match call {
        Call::NewPass => passes + 1,
        _ => passes,
    }
}

/// How many passes are there after an instruction.
fn passes_after(passes: u64, instruction: &Instruction) -> u64
    requires { passes < u64.MAX }
    ensures value { result ≡ script.passes_with passes (first_call instruction.now) }
    ensures few { result ≤ passes + 1 }
{
    match instruction {
        Instruction::Call(call) => passes_with(passes, call),
        Instruction::Deploy { .. } => passes,
        Instruction::Take(_) => passes,
        Instruction::Finish(_) => passes,
        Instruction::Work(_) => passes,
    }
}

/// Adds the instruction of a line, if it has one, and gives how many passes are there then.
fn read_into(
    alloc: Global,
    passes: u64,
    line: &[u8],
    commands: &mut Vec<Command>,
) -> Result<u64, LineFault>
    requires { passes < u64.MAX }
    ensures ok { IfOk result (λ after. Adds (said_at Made passes line.now) commands.old.items commands.new.items passes after) }
    ensures few { IfOk result (λ after. after ≤ passes + 1) }
    ensures one { vec_len commands.new ≤ vec_len commands.old + 1 }
    ensures err { IfErr result (λ fault. Fails fault (said_at Made passes line.now)) }
{
    let Some(command) = read_line(alloc, Scope::Made, passes, line)? else {
        return Ok(passes);
    };
    let after = passes_after(passes, &command.instruction);
    commands.push(command)?;
    Ok(after)
}

/// The fault of a line with its number, where there are so many passes before it.
fn bad_line(number: u64, passes: u64, line: &[u8], fault: LineFault) -> ScriptFault
    ensures { result ≡ script.numbered number passes line.now fault }
{
    match fault {
        LineFault::NoMemory => ScriptFault::NoMemory,
        LineFault::Misfit => ScriptFault::BadLine(number, reason(Scope::Made, passes, line)),
    }
}

/// The calls that the lines of a script make, in order, or the first line in no form.
pub fn read_script(alloc: Global, bytes: &[u8]) -> Result<Vec<Command>, ScriptFault>
    ensures commands { MatchResult result (λ commands. commands_of bytes.now ≡ Ok commands.items) (λ fault. ScriptFails fault (commands_of bytes.now)) }
    ensures few { IfOk result (λ commands. length commands.items ≤ length bytes.now) }
{
    let mut commands = Vec::new(alloc);
    let mut rest = bytes;
    let mut number = 0u64;
    let mut passes = 1u64;
    while !rest.is_empty() {
        let (line, after) = cut_line(rest);
        number += 1;
        match read_into(alloc, passes, line, &mut commands) {
            Ok(now) => passes = now,
            Err(fault) => return Err(bad_line(number, passes, line, fault)),
        }
        rest = after;
    }
    Ok(commands)
}
