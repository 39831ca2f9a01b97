use vx_line::LineWhy;

/// Why a script gave no calls.
#[derive(Clone, Copy)]
pub enum ScriptFault {
    /// The first line in no form, by its number from 1.
    BadLine(u64, LineWhy),
    NoMemory,
}
