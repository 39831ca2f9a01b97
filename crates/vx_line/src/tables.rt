//! Which commands are on.
ghost use Rattle.std.specs.Prelude.{◌≡◌, ◌&&◌};
ghost use Rattle.std.specs.List.{list_any};
ghost use Rattle.std.specs.Str.{bytes_eq};
ghost use Rattle.vx_line.specs.Tables as tables;

use crate::options::{has_option, skip_options};
use crate::scope::Scope;
use vx_words::word::{is_among, split_word, trim};

/// Commands that later versions read.
const LATER: [&str; 17] = [
    "timer", "every", "cancel", "run", "block", "promise", "complete", "break", "compose", "await",
    "listen", "accepted", "open", "shut", "frame", "json", "out",
];

/// Commands, each with an option that later versions read behind it.
const LATER_OPTIONS: [(&str, &str); 1] = [("request", "+once")];

/// Kinds that later versions have.
const LATER_KINDS: [&str; 3] = ["ticker", "blocker", "late"];

/// Commands that are read, and that the hub does not make yet. To turn one on, take it from here and from the definition.
const OFF: [&str; 1] = ["work"];

/// Whether the word is one of these commands, and an option behind it is the one that goes with it.
fn has_one_option(word: &[u8], tail: &[u8], options: &[(&str, &str)]) -> bool
    ensures { result ≡ list_any (λ pair. bytes_eq word.now pair.0.now && tables.has_option pair.1.now tail.now) options.now }
{
    options.iter().any(|(command, option)| word == command.as_bytes()
        && has_option(option.as_bytes(), tail))
}

/// Whether a later version reads an option that stands behind this command.
fn has_later_option(word: &[u8], tail: &[u8]) -> bool
    ensures { result ≡ tables.has_later_option word.now tail.now }
{
    let options: [(&str, &str); 1] = LATER_OPTIONS;
    has_one_option(word, tail, options.as_slice())
}

/// Whether the first piece behind the options of a deploy is a kind that later versions have.
fn has_later_kind(word: &[u8], tail: &[u8]) -> bool
    ensures { result ≡ tables.has_later_kind word.now tail.now }
{
    let kinds: [&str; 3] = LATER_KINDS;
    let (kind, _) = split_word(trim(skip_options(tail)));
    word == b"deploy".as_slice() && is_among(kind, kinds.as_slice())
}

/// Whether only a later version reads the command, or what stands behind it.
fn is_later(word: &[u8], tail: &[u8]) -> bool
    ensures { result ≡ tables.is_later word.now tail.now }
{
    let later: [&str; 17] = LATER;
    is_among(word, later.as_slice()) || has_later_option(word, tail) || has_later_kind(word, tail)
}

/// Whether the hub does not make the command yet.
fn is_off(word: &[u8]) -> bool
    ensures { result ≡ tables.is_off word.now }
{
    let off: [&str; 1] = OFF;
    is_among(word, off.as_slice())
}

/// Whether the command, with what stands behind it, is one of these.
pub fn is_on(scope: Scope, word: &[u8], tail: &[u8]) -> bool
    ensures { result ≡ tables.is_on scope word.now tail.now }
{
    match scope {
        Scope::Made => !is_later(word, tail) && !is_off(word),
        Scope::Read => !is_later(word, tail),
    }
}
