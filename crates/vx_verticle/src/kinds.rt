//! What makes verticles.
ghost use Rattle.std.specs.Prelude.{◌≡◌, ℕ, ℤ, List, IfOk, IfErr, IsOk};
ghost use Rattle.vx_message.specs.declared.kind.KindSpec.{KindSpec};
ghost use Rattle.vx_verticle.specs.declared.kinds.KindFault.TheVariants as faults;

use crate::verticle::Verticle;
use vx_message::KindSpec;

/// Why no verticle was made.
#[derive(Clone, Copy, Debug, PartialEq, Eq)]
pub enum KindFault {
    /// The maker knows no kind of this name.
    NoKind,
    NoMemory,
}

/// Makes verticles by the names of their kinds. (That kinds go by name, in place of classes, is this project's own.)
pub trait Kinds {
    type V: Verticle;

    // Whether it knows a kind of this name.
    ghost knows: { List ℕ → Type 0 };

    // Whether what it makes of a spec may begin with a state.
    ghost makes: { KindSpec → List ℤ → Type 0 };

    /// Makes a verticle. `NoKind` comes exactly where no kind of that name is known.
    fn make(&mut self, spec: &KindSpec) -> Result<Self::V, KindFault>
        ensures made { IfOk result (λ verticle. makes spec.now (Self.V.state verticle)) }
        ensures known { IsOk result → knows spec.now.kind }
        ensures unknown { IfErr result (λ why. why ≡ faults.NoKind → ¬ knows spec.now.kind) }
        ensures without_memory { IfErr result (λ why. why ≡ faults.NoMemory → knows spec.now.kind) };
}
