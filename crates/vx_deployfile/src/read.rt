//! The file of a JSON text.
ghost use Rattle.std.specs.Prelude.{◌≡◌, option_map, IfOk};
ghost use Rattle.vx_data.specs.Bodies.{members};
ghost use Rattle.vx_data.specs.Tree as tree;
ghost use Rattle.vx_deployfile.specs.declared.file.DeployFile.{DeployFile as File};
ghost use Rattle.vx_deployfile.specs.Files as files;
ghost use Rattle.vx_deployfile.specs.Files.{IfTold, ReadsAs, settled_file, unread};
ghost use Rattle.vx_deployfile.specs.Limits.{IsWithinLimits};
ghost use Rattle.vx_deployfile.specs.Verdicts.{Gives, Verdict};
ghost use Rattle.vx_json_parts.specs.Parts.{AreFields};

use crate::deployment::deployments;
use crate::fault::{FileRefused, FileWhy, Place};
use crate::field::{bad, field, number, number_or, object};
use crate::file::DeployFile;
use crate::outline::members;
use crate::pool::pools;
use std::alloc::Global;
use vx_data::{Body, List, Text};
use vx_json::JsonFault;
use vx_json_parts::{Part, read_fields};

/// How many bytes a file may have.
pub const MAX_FILE_BYTES: usize = 1_048_576;

/// How many levels of a file's fields it is read from: an array of deployments, a deployment, and its numbers.
const FILE_LEVELS: u32 = 3;

/// The most ms after which a host ends by itself.
const MAX_UNTIL: u64 = 1_000_000_000_000;

/// The version of a file: 1 or 2.
#[tactic(auto, unfolding(crate::specs::Files::version_in))]
fn version(pairs: &[(Text, Body)]) -> Result<u64, FileRefused>
    ensures { result ≡ files.version_in (members pairs.now) }
{
    let misfit = bad(Place::File, FileWhy::Version);
    let Some(value) = field(pairs, b"version") else {
        return Err(misfit);
    };
    match number(value, 1, 2, Place::File) {
        Ok(version) => Ok(version),
        Err(_) => Err(misfit),
    }
}

/// Nothing is built that a bridge could be.
fn no_bridge(value: Option<&Body>) -> Result<(), FileRefused>
    ensures { Gives (λ _. tt) result (files.no_bridge (option_map (λ value. value.now) value.entry)) }
{
    match value {
        Some(_) => Err(bad(Place::Bridge, FileWhy::Unbuilt)),
        None => Ok(()),
    }
}

/// The file of an object.
#[tactic(auto, unfolding(crate::specs::Files::file_of))]
fn file_in(alloc: Global, pairs: &[(Text, Body)]) -> Result<DeployFile, FileRefused>
    ensures { Gives (λ file. file) result (files.file_of (members pairs.now)) }
{
    let version = version(pairs)?;
    let loops = number_or(2, field(pairs, b"loops"), 1, 16, Place::Loops)?;
    let workers = number_or(2, field(pairs, b"workers"), 1, 20, Place::Workers)?;
    let pools = pools(alloc, pairs, version)?;
    let until = number_or(0, field(pairs, b"until"), 0, MAX_UNTIL, Place::Until)?;
    let deployments = deployments(alloc, pairs, version, &pools)?;
    no_bridge(field(pairs, b"bridge"))?;
    Ok(DeployFile {
        loops: loops as u8,
        workers: workers as u8,
        pools: List::new(pools),
        until,
        deployments: List::new(deployments),
    })
}

/// The file of an object's members.
fn outlined_file(alloc: Global, fields: &[(Text, Part<'_>)]) -> Result<DeployFile, FileRefused>
    ensures { (ms : tree.Members) → AreFields ms fields.now → Gives (λ file. file) result (settled_file ms) }
{
    let body = members(alloc, fields, FILE_LEVELS)?;
    let pairs = object(&body, Place::File)?;
    file_in(alloc, pairs)
}

/// What it is for a file that no object was read.
fn unread(fault: JsonFault) -> FileRefused
    ensures { result ≡ unread fault }
{
    match fault {
        JsonFault::BadJson => bad(Place::File, FileWhy::NotJson),
        JsonFault::Deep => bad(Place::File, FileWhy::NotJson),
        JsonFault::NoMemory => FileRefused::NoMemory,
    }
}

/// The deployment file that the bytes are. `BadFile` comes exactly where they are none: the first place that is out of
/// form, in the order of `Place`, and how.
pub fn read_file(alloc: Global, bytes: &[u8]) -> Result<DeployFile, FileRefused>
    // What is told stands there.
    ensures found { IfTold (ReadsAs bytes.now) result }
    // What stands there is told, unless memory runs out.
    ensures only { (verdict : Verdict File) → ReadsAs bytes.now verdict → IfTold (λ told. told ≡ verdict) result }
    ensures limits { IfOk result IsWithinLimits }
{
    if bytes.len() > MAX_FILE_BYTES {
        return Err(bad(Place::File, FileWhy::TooLong));
    }
    match read_fields(alloc, bytes) {
        Ok(fields) => outlined_file(alloc, &fields),
        Err(fault) => Err(unread(fault)),
    }
}
