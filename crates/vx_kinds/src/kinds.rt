//! The maker of the host's verticles.
ghost use Rattle.std.specs.Prelude.{◌≡◌, is_some};
ghost use Rattle.std.specs.Option.{option_map};
ghost use Rattle.vx_kinds.specs.Hosts.{Knows, Makes, place_of, own_first, state_in};
ghost use Rattle.vx_kinds.specs.States.{state_of};

use crate::caller::Caller;
use crate::counter::Counter;
use crate::echo::Echo;
use crate::failer::Failer;
use crate::host::HostVerticle;
use crate::parent::Parent;
use crate::relay::Relay;
use crate::settings::Settings;
use crate::silent::Silent;
use std::alloc::Global;
use vx_verticle::{KindFault, KindSpec, Kinds};

/// Makes the host's verticles.
#[derive(Drop)]
pub struct HostKinds {
    alloc: Global,
}

impl HostKinds {
    /// The maker keeps the allocator.
    pub fn new(alloc: Global) -> HostKinds {
        HostKinds { alloc }
    }
}

/// Whether there is a kind of this name.
pub fn is_kind(name: &[u8]) -> bool
    ensures { result ≡ is_some (place_of name.now) }
{
    name == b"echo".as_slice()
        || name == b"counter".as_slice()
        || name == b"relay".as_slice()
        || name == b"caller".as_slice()
        || name == b"parent".as_slice()
        || name == b"silent".as_slice()
        || name == b"failer".as_slice()
}

/// A verticle of the kind of this name.
fn verticle_of(alloc: Global, name: &[u8], settings: Settings) -> Option<HostVerticle>
    ensures { option_map state_in result ≡ option_map (λ kind. state_of kind settings (own_first kind)) (place_of name.now) }
{
    if name == b"echo".as_slice() {
        Some(HostVerticle::Echo(Echo { settings, alloc }))
    } else if name == b"counter".as_slice() {
        let count = 0;
        Some(HostVerticle::Counter(Counter {
            settings,
            count,
            alloc,
        }))
    } else if name == b"relay".as_slice() {
        Some(HostVerticle::Relay(Relay { settings, alloc }))
    } else if name == b"caller".as_slice() {
        Some(HostVerticle::Caller(Caller { settings, alloc }))
    } else if name == b"parent".as_slice() {
        Some(HostVerticle::Parent(Parent { settings, alloc }))
    } else if name == b"silent".as_slice() {
        Some(HostVerticle::Silent(Silent { settings, alloc }))
    } else if name == b"failer".as_slice() {
        Some(HostVerticle::Failer(Failer { settings, alloc }))
    } else {
        None
    }
}

impl Kinds for HostKinds {
    type V = HostVerticle;

    ghost knows = { Knows };

    ghost makes = { Makes };

    fn make(&mut self, spec: &KindSpec) -> Result<HostVerticle, KindFault> {
        let name = spec.kind.bytes();
        if !is_kind(name) {
            return Err(KindFault::NoKind);
        }
        match Settings::of(self.alloc, spec) {
            Ok(settings) => verticle_of(self.alloc, name, settings).ok_or(KindFault::NoKind),
            Err(_) => Err(KindFault::NoMemory),
        }
    }
}
