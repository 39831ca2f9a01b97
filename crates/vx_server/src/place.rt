ghost use Rattle.std.specs.Prelude.{◌≡◌, IfOk};

use std::alloc::Global;
use vx_data::{NoMemory, Text};

/// Where servers listen. Those at one place share what comes in there.
#[derive(Drop, PartialEq, Eq, Hash)]
pub struct Place {
    pub host: Text,
    pub port: u16,
}

impl Place {
    /// The place at a host, of which it takes a copy, and a port.
    pub fn at(alloc: Global, host: &Text, port: u16) -> Result<Place, NoMemory>
        ensures { IfOk result (λ place. place ≡ record { host = host.now; port = port }) }
    {
        Ok(Place {
            host: host.copy(alloc)?,
            port,
        })
    }
}
