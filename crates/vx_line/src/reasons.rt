//! Why a line in no form is bad.
ghost use Rattle.std.specs.Prelude.{◌≡◌};
ghost use Rattle.std.specs.Str.{is_utf8};
ghost use Rattle.vx_line.specs.Reasons as reasons;

use crate::fault::LineWhy;
use crate::scope::Scope;
use crate::tables::is_on;
use vx_words::pass::pass;
use vx_words::word::{is_among, split_word, trim};

/// The commands that are read.
const COMMANDS: [&str; 28] = [
    "take",
    "finish",
    "work",
    "deploy",
    "pass",
    "context",
    "register",
    "unregister",
    "pause",
    "resume",
    "fetch",
    "advance",
    "close",
    "loops",
    "pool",
    "undeploy",
    "started",
    "stopped",
    "send",
    "publish",
    "request",
    "reply",
    "fail",
    "ask",
    "codec",
    "uncodec",
    "rule",
    "unrule",
];

fn is_command(word: &[u8]) -> bool
    ensures { result ≡ reasons.is_command word.now }
{
    let commands: [&str; 28] = COMMANDS;
    is_among(word, commands.as_slice())
}

#[tactic(auto, unfolding(crate::specs::Reasons::word_reason))]
fn word_reason(scope: Scope, word: &[u8], tail: &[u8]) -> LineWhy
    ensures { result ≡ reasons.word_reason scope word.now tail.now }
{
    if !is_on(scope, word, tail) {
        LineWhy::Unbuilt
    } else if is_command(word) {
        LineWhy::Form
    } else {
        LineWhy::Word
    }
}

/// Whether it is UTF-8.
pub fn is_text(line: &[u8]) -> bool
    ensures { result ≡ is_utf8 line.now }
{
    std::str::from_utf8(line).is_ok()
}

/// Why a line in no form is bad, where there are so many passes and these commands are on.
#[tactic(auto, unfolding(crate::specs::Reasons::reason, crate::specs::Reasons::command_reason))]
pub fn reason(scope: Scope, passes: u64, line: &[u8]) -> LineWhy
    ensures { result ≡ reasons.reason scope passes line.now }
{
    if !is_text(line) {
        return LineWhy::Utf8;
    }
    match pass(passes, trim(line)) {
        Some((_, bytes)) => {
            let (word, tail) = split_word(bytes);
            word_reason(scope, word, tail)
        }
        None => LineWhy::Pass,
    }
}
