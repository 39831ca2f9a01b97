ghost use Rattle.std.specs.Prelude.{◌≡◌};

use crate::instruction::Instruction;
use vx_data::PassNo;

/// An instruction, and the pass that it is for.
#[derive(Drop)]
pub struct Command {
    pub pass: PassNo,
    pub instruction: Instruction,
}

impl Command {
    /// The pass and its instruction.
    pub fn into_parts(self) -> (PassNo, Instruction)
        ensures { result ≡ (self.pass, self.instruction) }
    {
        let Command { pass, instruction } = self;
        (pass, instruction)
    }
}
