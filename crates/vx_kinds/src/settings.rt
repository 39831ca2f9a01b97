//! What a kind is given.
ghost use Rattle.std.specs.Prelude.{◌≡◌, ◌++◌, pos, map, slice_get, unwrap_or, OnOk, IfOk};
ghost use Rattle.vx_kinds.specs.States.{counted, state_of};

use std::alloc::Global;
use vx_data::{NoMemory, Numbers, Text};
use vx_message::KindSpec;

/// What a verticle was given: the address at which it works, the one to which it sends on, and its numbers.
#[derive(Drop)]
pub struct Settings {
    pub(crate) address: Text,
    pub(crate) to: Text,
    pub(crate) config: Numbers,
}

impl Settings {
    /// Those of a spec.
    pub(crate) fn of(alloc: Global, spec: &KindSpec) -> Result<Settings, NoMemory>
        ensures { IfOk result (λ settings. settings ≡ record { address = spec.now.address; to = spec.now.to; config = spec.now.config }) }
    {
        Ok(Settings {
            address: spec.address.copy(alloc)?,
            to: spec.to.copy(alloc)?,
            config: spec.config.copy(alloc)?,
        })
    }

    /// The number in this place, or another where none is there.
    pub(crate) fn number_or(&self, otherwise: i64, place: usize) -> i64
        ensures { result ≡ unwrap_or (slice_get self.now.config place) otherwise }
    {
        self.config.list().get(place).copied().unwrap_or(otherwise)
    }
}

/// Appends numbers, with their count before them.
fn append_counted(numbers: &[i64], into: &mut Vec<i64>) -> Result<(), NoMemory>
    ensures { OnOk result (into.new.items ≡ into.old.items ++ counted numbers.now) }
{
    into.push(numbers.len() as i64)?;
    into.extend_from_slice(numbers)?;
    Ok(())
}

/// Appends the bytes of a text, with their count before them.
fn append_text(text: &Text, into: &mut Vec<i64>) -> Result<(), NoMemory>
    ensures { OnOk result (into.new.items ≡ into.old.items ++ counted (map pos text.now)) }
{
    let bytes = text.bytes();
    into.push(bytes.len() as i64)?;
    for byte in bytes {
        into.push(i64::from(*byte))?;
    }
    Ok(())
}

/// The state of a verticle: the place of its kind, its settings, and its own numbers.
pub(crate) fn state_of(
    alloc: Global,
    kind: i64,
    settings: &Settings,
    own: &[i64],
) -> Result<Numbers, NoMemory>
    ensures { IfOk result (λ numbers. numbers ≡ state_of kind settings.now own.now) }
{
    let mut state = Vec::new(alloc);
    state.push(kind)?;
    append_text(&settings.address, &mut state)?;
    append_text(&settings.to, &mut state)?;
    append_counted(settings.config.list(), &mut state)?;
    state.extend_from_slice(own)?;
    Numbers::new(alloc, &state)
}
