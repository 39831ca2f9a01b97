//! Pieces that several texts have.
ghost use Rattle.std.specs.Prelude.{◌≡◌, ◌++◌, OnOk, codes};
ghost use Rattle.std.specs.Fmt.{decimal, signed_decimal};
ghost use Rattle.vx_reply_text.specs.Replies as texts;

use crate::text::append;
use std::alloc::Global;
use vx_data::{ContextId, NoMemory};

/// Appends a word, a space and a number.
pub(crate) fn write_number(
    alloc: Global,
    word: &str,
    number: u64,
    into: &mut Vec<u8>,
) -> Result<(), NoMemory>
    ensures { OnOk result (into.new.items ≡ into.old.items ++ (word.now ++ (codes " " ++ decimal number))) }
{
    let text = format!(in alloc; "{word} {number}")?;
    append(text.as_bytes(), into)
}

/// Appends a word, a space and a number that may be below 0.
pub(crate) fn write_signed(
    alloc: Global,
    word: &str,
    number: i64,
    into: &mut Vec<u8>,
) -> Result<(), NoMemory>
    ensures { OnOk result (into.new.items ≡ into.old.items ++ (word.now ++ (codes " " ++ signed_decimal number))) }
{
    let text = format!(in alloc; "{word} {number}")?;
    append(text.as_bytes(), into)
}

/// Appends a word, a space and the name of a context.
pub(crate) fn write_context(
    alloc: Global,
    word: &str,
    context: ContextId,
    into: &mut Vec<u8>,
) -> Result<(), NoMemory>
    ensures { OnOk result (into.new.items ≡ into.old.items ++ (word.now ++ (codes " " ++ texts.context_text context))) }
{
    let ContextId { entry, instance } = context;
    let text = if instance == 0 {
        format!(in alloc; "{word} {}", entry.0)?
    } else {
        format!(in alloc; "{word} {}.{instance}", entry.0)?
    };
    append(text.as_bytes(), into)
}
