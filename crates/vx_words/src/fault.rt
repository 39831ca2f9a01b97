use std::alloc::AllocFailed;
use vx_data::NoMemory;

/// Why a line gave nothing.
#[derive(Clone, Copy)]
pub enum LineFault {
    /// It is in no form.
    Misfit,
    NoMemory,
}

/// A line in no form.
pub const MISFIT: LineFault = LineFault::Misfit;

impl From<NoMemory> for LineFault {
    ghost use Rattle.std.specs.Prelude.{◌≡◌};
    ghost use Rattle.vx_words.specs.declared.fault.LineFault.TheVariants.{NoMemory};

    ghost from_gives = { λ _ fault. fault ≡ NoMemory };

    fn from(_error: NoMemory) -> LineFault {
        LineFault::NoMemory
    }
}

impl<T: Drop> From<AllocFailed<T>> for LineFault {
    ghost use Rattle.std.specs.Prelude.{◌≡◌};
    ghost use Rattle.vx_words.specs.declared.fault.LineFault.TheVariants.{NoMemory};

    ghost from_gives = { λ _ fault. fault ≡ NoMemory };

    fn from(_error: AllocFailed<T>) -> LineFault {
        LineFault::NoMemory
    }
}
