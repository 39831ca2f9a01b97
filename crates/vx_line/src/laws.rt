//! What reading gives, in the words of the grammar.
ghost use Rattle.std.specs.Prelude.{◌≡◌, ◌↔◌, List, ℕ, Option, Some};
ghost use Rattle.vx_line.specs.declared.command.Command.{Command};
ghost use Rattle.vx_line.specs.declared.scope.Scope.{Scope};
ghost use Rattle.vx_line.specs.Lines.{IsLine, said_at};

/// A line is read as what it says by the grammar, where there are so many passes and these commands are on, and a line in no
/// form is not read.
pub fn lines_are_read_as_spelled()
    ensures { (scope : Scope) (passes : ℕ) (line : List ℕ) (said : Option Command) → (said_at scope passes line ≡ Some said) ↔ IsLine scope passes said line }
{}
