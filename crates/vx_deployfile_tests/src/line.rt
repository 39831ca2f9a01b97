//! What reading a file answers, as a line.
use std::alloc::Global;
use vx_data::NoMemory;
use vx_deployfile::{DeployFile, FileRefused, Planned, PoolPlan, read_file};

/// The line of the file that the bytes are: its loops, workers and end, its pools and its deployments. Or the first place
/// that is out of form, and how.
pub fn line_of(alloc: Global, bytes: &[u8]) -> Result<Vec<u8>, NoMemory> {
    let mut line = Vec::new(alloc);
    match read_file(alloc, bytes) {
        Ok(file) => append_file(&file, &mut line)?,
        Err(fault) => append_fault(alloc, fault, &mut line)?,
    }
    Ok(line)
}

fn append_fault(alloc: Global, fault: FileRefused, line: &mut Vec<u8>) -> Result<(), NoMemory> {
    match fault {
        FileRefused::BadFile { place, why } => {
            let text = format!(in alloc; "{place:?} {why:?}")?;
            append(text.as_bytes(), line)
        }
        FileRefused::NoMemory => append(b"no memory", line),
    }
}

fn append_file(file: &DeployFile, line: &mut Vec<u8>) -> Result<(), NoMemory> {
    append(itoa::Buffer::new().format(file.loops).as_bytes(), line)?;
    append(b" ", line)?;
    append(itoa::Buffer::new().format(file.workers).as_bytes(), line)?;
    append(b" ", line)?;
    append(itoa::Buffer::new().format(file.until).as_bytes(), line)?;
    for pool in file.pools.items() {
        append_pool(pool, line)?;
    }
    append_plans(file.deployments.items(), line)
}

fn append_pool(pool: &PoolPlan, line: &mut Vec<u8>) -> Result<(), NoMemory> {
    append(b" ", line)?;
    append(pool.name.bytes(), line)?;
    append(b":", line)?;
    append(itoa::Buffer::new().format(pool.size).as_bytes(), line)
}

fn append_plans(plans: &[Planned], line: &mut Vec<u8>) -> Result<(), NoMemory> {
    for plan in plans {
        append_plan(plan, line)?;
    }
    Ok(())
}

fn append_plan(plan: &Planned, line: &mut Vec<u8>) -> Result<(), NoMemory> {
    append(b" | ", line)?;
    append(plan.spec.kind.bytes(), line)?;
    append(b" ", line)?;
    append(plan.spec.address.bytes(), line)?;
    append(b" ", line)?;
    append(plan.spec.to.bytes(), line)?;
    append(b" ", line)?;
    append(itoa::Buffer::new().format(plan.instances).as_bytes(), line)?;
    if plan.worker {
        append(b" worker", line)?;
    }
    if let Some(pool) = &plan.pool {
        append(b" in ", line)?;
        append(pool.bytes(), line)?;
    }
    append_numbers(plan.spec.config.list(), line)
}

fn append_numbers(numbers: &[i64], line: &mut Vec<u8>) -> Result<(), NoMemory> {
    for n in numbers {
        append(b" ", line)?;
        append(itoa::Buffer::new().format(*n).as_bytes(), line)?;
    }
    Ok(())
}

fn append(word: &[u8], line: &mut Vec<u8>) -> Result<(), NoMemory> {
    Ok(line.extend_from_slice(word)?)
}
