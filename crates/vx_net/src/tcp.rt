//! Connections over TCP. What a peer sends and gets is taken on trust: here the faults are counted,
//! and the streams handed out.
ghost use Rattle.std.specs.Prelude.{◌≡◌, if◌then◌else◌, is_err, IfOk, OnErr, None};
ghost use Rattle.vx_io.specs.Faults.{HasCause};
ghost use Rattle.vx_io.specs.Memory.{counted};

use crate::net::Net;
use std::marker::Model;
use std::net;
use std::net::{Ipv4Addr, TcpListener, TcpStream};
use std::sync::Wait;
use vx_io::{Failed, StdSink, StdSource};

/// The connections that come in at a port of 127.0.0.1. Contracts see it as its count of faults.
#[derive(Drop)]
pub struct TcpNet<R: net::Net<Stream = TcpStream, Listener = TcpListener> + Drop> {
    system: R,
    listener: Option<TcpListener>,
    faults: u64,
}

impl<R: net::Net<Stream = TcpStream, Listener = TcpListener> + Drop> Model for TcpNet<R> {
    ghost use Rattle.std.specs.Prelude.{ℕ};

    ghost Value = { ℕ };

    ghost view = { λ s. s.faults };
}

impl<R: net::Net<Stream = TcpStream, Listener = TcpListener> + Drop> TcpNet<R> {
    /// It listens at no port yet, and no call has failed.
    pub fn new(system: R) -> TcpNet<R>
        ensures { result ≡ 0 }
    {
        TcpNet {
            system,
            listener: None,
            faults: 0,
        }
    }

    // Waits for a connection, and gives its stream twice.
    fn connection(&self) -> Option<(TcpStream, TcpStream)> {
        let (stream, _peer) = self.listener.as_ref()?.accept().ok()?;
        let twin = stream.try_clone().ok()?;
        Some((stream, twin))
    }
}

impl<R: net::Net<Stream = TcpStream, Listener = TcpListener> + Drop> Net for TcpNet<R> {
    type In = StdSource<TcpStream>;

    type Out = StdSink<TcpStream>;

    ghost inputs = { λ _. None };

    ghost faults = { λ s. s };

    /// Counts a fault exactly where it fails. The count stays at 2^64 - 1. After a call that failed it
    /// listens where it did before.
    fn listen(&mut self, port: u16) -> Result<(), Failed>
        ensures faults { self.new ≡ (if is_err result then counted self.old else self.old) }
        ensures cause { HasCause self.old self.new result }
    {
        match TcpListener::bind(&self.system, (Ipv4Addr::LOCALHOST, port)) {
            Ok(listener) => {
                self.listener = Some(listener);
                Ok(())
            }
            Err(_) => {
                self.faults = self.faults.saturating_add(1);
                Err(Failed)
            }
        }
    }

    /// Counts a fault exactly where it fails, also where it does not listen yet.
    fn accept<W: Wait>(
        &mut self,
        _rt: &W,
    ) -> Result<(StdSource<TcpStream>, StdSink<TcpStream>), Failed>
        ensures faults { self.new ≡ (if is_err result then counted self.old else self.old) }
        ensures cause { HasCause self.old self.new result }
    {
        match self.connection() {
            Some((stream, twin)) => Ok((StdSource::new(stream), StdSink::new(twin))),
            None => {
                self.faults = self.faults.saturating_add(1);
                Err(Failed)
            }
        }
    }
}
