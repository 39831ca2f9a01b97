//! How long bodies take to be read, of JSON texts of three kinds that are each of about the same size.
//!
//! The times are printed on standard error, and `ok` on standard output. The argument is the size in bytes.
#![tactic(auto)]

use anyhow::{Result, anyhow};
use std::alloc::Global;
use std::env;
use std::time::{Clock, Duration, Instant};
use vx_json::read_body;

/// How many bytes a text has, if no argument says it.
const SIZE: usize = 1_048_576;

/// How deep the arrays of the first text nest.
const DEPTH: usize = 99;

/// Arrays of depth 99, side by side in one.
fn nested_arrays(alloc: Global, size: usize) -> Result<Vec<u8>> {
    let mut text = Vec::new(alloc);
    text.push(b'[')?;
    for part in 0..size / (2 * DEPTH + 1) {
        if part > 0 {
            text.push(b',')?;
        }
        for _ in 0..DEPTH {
            text.push(b'[')?;
        }
        for _ in 0..DEPTH {
            text.push(b']')?;
        }
    }
    text.push(b']')?;
    Ok(text)
}

/// One long text.
fn long_text(alloc: Global, size: usize) -> Result<Vec<u8>> {
    let mut text = Vec::new(alloc);
    text.push(b'"')?;
    for _ in 0..size {
        text.push(b'a')?;
    }
    text.push(b'"')?;
    Ok(text)
}

/// An object of many small keys, each with a number.
fn many_keys(alloc: Global, size: usize) -> Result<Vec<u8>> {
    let mut text = Vec::new(alloc);
    text.push(b'{')?;
    for key in 0..size / 16 {
        if key > 0 {
            text.push(b',')?;
        }
        let member = format!(in alloc; "\"{key}\":{key}")?;
        text.extend_from_slice(member.as_bytes())?;
    }
    text.push(b'}')?;
    Ok(text)
}

/// How long it takes to read the body of this text.
fn time_to_read<R: Clock>(rt: &R, alloc: Global, text: &[u8]) -> Result<Duration> {
    let start = Instant::now(rt)?;
    match read_body(alloc, text) {
        Ok(_) => Ok(start.elapsed(rt)?),
        Err(_) => Err(anyhow!("not read")),
    }
}

fn main(rt: HostRuntime) -> Result<()> {
    let alloc = rt.alloc();
    let size = match env::args(&rt)?.nth(1) {
        Some(word) => word.parse()?,
        None => SIZE,
    };
    let arrays = nested_arrays(alloc, size)?;
    let text = long_text(alloc, size)?;
    let keys = many_keys(alloc, size)?;
    let took = time_to_read(&rt, alloc, &arrays)?;
    eprintln!(rt;
        "nested arrays, {} bytes: {} us",
        arrays.len(),
        took.as_micros()
    )?;
    let took = time_to_read(&rt, alloc, &text)?;
    eprintln!(rt;
        "one long text, {} bytes: {} us",
        text.len(),
        took.as_micros()
    )?;
    let took = time_to_read(&rt, alloc, &keys)?;
    eprintln!(rt;
        "many small keys, {} bytes: {} us",
        keys.len(),
        took.as_micros()
    )?;
    println!(rt; "ok")?;
    Ok(())
}
