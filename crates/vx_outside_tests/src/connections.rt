use std::alloc::{AllocError, Global};
use std::io::{Read, Write};
use std::net::{Ipv4Addr, TcpListener, TcpStream};
use std::sync::Wait;
use std::test::Fail;
use std::{io, net};
use vx_io::{Failed, Sink, Source, read_all, write_all};
use vx_net::{MemNet, Net, TcpNet};

// Accepts a connection, reads all of its input, and writes that back: says whether it was so.
fn echoes<R: Wait, N: Net>(rt: &R, alloc: Global, net: &mut N, input: &[u8]) -> bool {
    let Ok((mut source, mut sink)) = net.accept(rt) else {
        return false;
    };
    match read_all(alloc, &mut source, 100) {
        Ok(bytes) => bytes.as_slice() == input && write_all(&mut sink, &bytes) == Ok(()),
        Err(_) => false,
    }
}

// Two inputs, and calls 0 and 2 fail.
fn two_inputs(alloc: Global) -> Result<MemNet, AllocError> {
    let inputs = vec![in alloc; b"ab".to_vec(alloc)?, b"c".to_vec(alloc)?]?;
    Ok(MemNet::new(alloc, inputs, vec![in alloc; 0, 2]?))
}

#[test]
fn memory_gives_its_inputs_in_order(rt: HostRuntime) -> Result<(), Fail> {
    let alloc = rt.alloc();
    let mut net = two_inputs(alloc)?;
    let refused = net.listen(1).is_err() && net.listen(1).is_ok() && net.accept(&rt).is_err();
    let met = echoes(&rt, alloc, &mut net, b"ab") && echoes(&rt, alloc, &mut net, b"c");
    assert!(rt; refused && met && net.accept(&rt).is_err());
    Ok(())
}

// The first of some ports at which it can listen.
fn free_port<N: Net>(net: &mut N) -> Option<u16> {
    (40_000..41_000).find(|port| net.listen(*port).is_ok())
}

#[test]
fn tcp_gives_what_the_peer_sent(rt: HostRuntime) -> Result<(), Fail> {
    let alloc = rt.alloc();
    let mut net = TcpNet::new(&rt);
    let early = net.accept(&rt).is_err();
    let port = free_port(&mut net).ok_or("no port is free")?;
    let mut peer = TcpStream::connect(&rt, (Ipv4Addr::LOCALHOST, port))?;
    peer.write_all(b"abc")?;
    peer.shutdown(net::Shutdown::Write)?;
    let met = echoes(&rt, alloc, &mut net, b"abc");
    let mut answer = [0; 8];
    let count = peer.read(&mut answer)?;
    assert!(rt; early && met && &answer[..count] == b"abc".as_slice());
    Ok(())
}
