//! How a script ends.
ghost use Rattle.std.specs.Prelude.{◌≡◌, ◌++◌, OnOk, OnErr, IfOk, string_bytes};
ghost use Rattle.vx_script.specs.Statuses as texts;

use std::alloc::{AllocError, Global};
use vx_data::NoMemory;
use vx_line::LineWhy;
use vx_reply_text::append;

/// How a script ended.
#[derive(Clone, Copy, Debug, PartialEq, Eq)]
pub enum Status {
    /// The input was read to its end, and every line was made and answered.
    Done,
    /// The words are in no form of the command line.
    Usage,
    /// The first line in no form, by its number from 1.
    BadLine { line: u64, why: LineWhy },
    /// A read failed.
    ReadFault,
    /// A write failed.
    WriteFault,
    /// So many bytes were read, which is more than a script may have.
    TooLong(u64),
    NoMemory,
}

/// The word for the reason.
fn why_text(why: LineWhy) -> &'static str
    ensures { result.now ≡ texts.why_text why }
{
    match why {
        LineWhy::Utf8 => "utf8",
        LineWhy::Pass => "pass",
        LineWhy::Word => "word",
        LineWhy::Unbuilt => "unbuilt",
        LineWhy::Form => "form",
    }
}

fn bad_line_text(alloc: Global, line: u64, why: LineWhy) -> Result<String, AllocError>
    ensures { IfOk result (λ text. string_bytes text ≡ texts.bad_line_text line why) }
{
    format!(in alloc; "vxscript: bad line {line}: {}\n", why_text(why))
}

impl Status {
    /// The status of the process that ends so.
    pub fn code(&self) -> u8
        ensures { result ≡ texts.status_code self.now }
    {
        match self {
            Status::Done => 0,
            Status::Usage => 2,
            Status::BadLine { .. } => 3,
            Status::ReadFault => 4,
            Status::WriteFault => 5,
            Status::TooLong(_) => 6,
            Status::NoMemory => 9,
        }
    }

    /// Appends the line that says what went wrong: nothing where it is done. Without memory nothing
    /// is appended.
    pub fn text(&self, alloc: Global, into: &mut Vec<u8>) -> Result<(), NoMemory>
        ensures ok { OnOk result (into.new.items ≡ into.old.items ++ texts.fault_line self.now) }
        ensures err { OnErr result (into.new.items ≡ into.old.items) }
    {
        match self {
            Status::Done => append(b"", into),
            Status::Usage => append(b"vxscript: usage\n", into),
            Status::BadLine { line, why } => {
                append(bad_line_text(alloc, *line, *why)?.as_bytes(), into)
            }
            Status::ReadFault => append(b"vxscript: read fault\n", into),
            Status::WriteFault => append(b"vxscript: write fault\n", into),
            Status::TooLong(_) => append(b"vxscript: too long\n", into),
            Status::NoMemory => append(b"vxscript: no memory\n", into),
        }
    }
}
