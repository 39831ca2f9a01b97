//! Plays a script from standard input, and writes a line for each reply to standard output.
//! The process ends with the status of the script; where it went wrong, one line on standard error
//! says how.
#![tactic(auto)]

#[cfg(test)]
mod tests;

use std::alloc::Global;
use std::env::{self, Env};
use std::io::{self, Write};
use std::process::ExitCode;
use vx_data::{Text, TextFault};
use vx_io::{StdSink, StdSource};
use vx_script::{Status, script};

/// The word as a text.
fn text_of(alloc: Global, word: &str) -> Result<Text, Status> {
    match Text::new(alloc, word.as_bytes()) {
        Ok(text) => Ok(text),
        Err(TextFault::BadText) => Err(Status::Usage),
        Err(TextFault::NoMemory) => Err(Status::NoMemory),
    }
}

/// The words of the command line, without the program's name. One that is no text is faulty.
fn words_of<R: Env + Alloc>(rt: &R, alloc: Global) -> Result<Vec<Text>, Status> {
    let args = match env::args(rt) {
        Ok(args) => args,
        Err(error) if error.kind() == io::ErrorKind::InvalidData => return Err(Status::Usage),
        Err(_) => return Err(Status::NoMemory),
    };
    let mut words = Vec::new(alloc);
    for word in args.skip(1) {
        let text = text_of(alloc, word.as_str())?;
        if words.push(text).is_err() {
            return Err(Status::NoMemory);
        }
    }
    Ok(words)
}

fn main(rt: HostRuntime) -> ExitCode {
    let alloc = rt.alloc();
    let status = match words_of(&rt, alloc) {
        Ok(words) => {
            let mut source = StdSource::new(rt.reader());
            let mut sink = StdSink::new(io::writer(&rt));
            script(alloc, &words, &mut source, &mut sink)
        }
        Err(status) => status,
    };
    let mut line = Vec::new(alloc);
    if status.text(alloc, &mut line).is_ok() {
        let _ = rt.stderr().write_all(&line);
    }
    ExitCode::from(status.code())
}
