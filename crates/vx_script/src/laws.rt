//! What reading gives, in the words of the grammar.
ghost use Rattle.std.specs.Prelude.{◌≡◌, ◌↔◌, List, ℕ, Ok, Err};
ghost use Rattle.std.specs.Str.Lines.{lines};
ghost use Rattle.vx_line.specs.declared.command.Command.{Command};
ghost use Rattle.vx_script.specs.Lines.{commands_of, Bad, Make, IsFirstBad};

/// A script is read as the calls that its lines make, in order, or as its first line in no form, and why.
pub fn scripts_are_read_as_spelled()
    ensures commands { (bytes : List ℕ) (commands : List Command) → (commands_of bytes ≡ Ok commands) ↔ Make 1 (lines bytes) commands }
    ensures bad { (bytes : List ℕ) (bad : Bad) → (commands_of bytes ≡ Err bad) ↔ IsFirstBad 1 1 (lines bytes) bad }
{}
