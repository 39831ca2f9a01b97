use std::alloc::AllocFailed;
use thiserror::Error;
use vx_data::NoMemory;

/// Where a file is out of form. Places are tested in this order, pools and deployments by their numbers.
#[derive(Clone, Copy, Debug, PartialEq, Eq)]
pub enum Place {
    /// The bytes as a whole, and the field `version`.
    File,
    Loops,
    Workers,
    /// A pool, from 0. The field `pools` itself is pool 0.
    Pool(u32),
    Until,
    /// A deployment, from 0. The field `deployments` itself is deployment 0.
    Deployment(u32),
    Bridge,
}

/// How a file is out of form.
#[derive(Clone, Copy, Debug, PartialEq, Eq)]
pub enum FileWhy {
    /// There are more than 1,048,576 bytes.
    TooLong,
    /// The bytes are no JSON object of the profile with nesting of at most 127.
    NotJson,
    /// The field `version` is not there, or is neither 1 nor 2.
    Version,
    /// A field that is required is not there.
    Missing,
    /// A field has another JSON type.
    Shape,
    /// A value is outside its rule.
    Range,
    /// The field is of a part that is not built.
    Unbuilt,
}

/// Why no file was read.
#[derive(Clone, Copy, Debug, Drop, Error, PartialEq, Eq)]
pub enum FileRefused {
    /// The bytes are no deployment file: the first place that is out of form, and how.
    #[error("bad file")]
    BadFile { place: Place, why: FileWhy },
    #[error("no memory")]
    NoMemory,
}

impl From<NoMemory> for FileRefused {
    ghost use Rattle.std.specs.Prelude.{◌≡◌};
    ghost use Rattle.vx_deployfile.specs.declared.fault.FileRefused.TheVariants.{NoMemory};

    ghost from_gives = { λ _ fault. fault ≡ NoMemory };

    fn from(_error: NoMemory) -> FileRefused {
        FileRefused::NoMemory
    }
}

impl<T: Drop> From<AllocFailed<T>> for FileRefused {
    ghost use Rattle.std.specs.Prelude.{◌≡◌};
    ghost use Rattle.vx_deployfile.specs.declared.fault.FileRefused.TheVariants.{NoMemory};

    ghost from_gives = { λ _ fault. fault ≡ NoMemory };

    fn from(_error: AllocFailed<T>) -> FileRefused {
        FileRefused::NoMemory
    }
}
