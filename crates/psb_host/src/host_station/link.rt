ghost use Rattle.std.specs.Prelude.{◌≡◌, ◌≤◌, length, IfOk, OnOk, IfSome, IsSome, IsErr, None};
ghost use Rattle.std.specs.Ordering.{nat_cmp};
ghost use Rattle.std.specs.BTreeMap.{get};

use std::alloc::Global;
use std::collections::BTreeMap;
use std::io;
use std::io::ErrorKind;
use std::net::{Net, SocketAddr, ToSocketAddrs, UdpSocket};
use std::time::Duration;

/// How long one `recv` waits for a datagram, in milliseconds.
const WAIT_MILLISECONDS: u64 = 250;

/// One socket, and where the peers are.
#[derive(Drop)]
pub(crate) struct HostLink {
    pub(super) socket: Option<UdpSocket>,
    peers: BTreeMap<u32, SocketAddr>,
}

/// A socket at an address, whose reads end when nothing came for a while.
fn bound<N: Net>(net: &N, address: &str) -> io::Result<UdpSocket> {
    let socket = UdpSocket::bind(net, address)?;
    socket.set_read_timeout(Some(Duration::from_millis(WAIT_MILLISECONDS)))?;
    Ok(socket)
}

/// The first address of a text that a socket at `own` can send to.
fn resolved<N: Net>(net: &N, address: &str, own: SocketAddr) -> io::Result<SocketAddr> {
    for found in address.to_socket_addrs(net)? {
        if found.is_ipv4() == own.is_ipv4() {
            return Ok(found);
        }
    }
    Err(io::Error::from(ErrorKind::AddrNotAvailable))
}

impl HostLink {
    pub(crate) fn new(alloc: Global) -> HostLink {
        HostLink {
            socket: None,
            peers: BTreeMap::new(alloc),
        }
    }

    /// Binds the socket to the first address, and notes each later one as that of a peer, in the place
    /// of an earlier one.
    pub(crate) fn join<N: Net>(&mut self, net: &N, id: u32, address: &str) -> io::Result<()>
        ensures bound { OnOk result (IsSome self.new.socket) }
        ensures noted { IsSome self.old.socket → OnOk result (IsSome (get nat_cmp self.new.peers id)) }
    {
        match &self.socket {
            None => self.socket = Some(bound(net, address)?),
            Some(socket) => {
                let peer = resolved(net, address, socket.local_addr()?)?;
                self.peers.insert(id, peer)?;
            }
        }
        Ok(())
    }

    /// A datagram, or none where none came for a while. Over IPv6 one may be longer than the buffer;
    /// then its end is lost, and with it its tag.
    pub(crate) fn recv(&self, into: &mut [u8]) -> io::Result<Option<usize>>
        ensures unbound { self.now.socket ≡ None → IsErr result }
        ensures within { IfOk result (λ got. IfSome got (λ n. n ≤ length into.new)) }
    {
        let Some(socket) = &self.socket else {
            return Err(io::Error::from(ErrorKind::NotConnected));
        };
        match socket.recv_from(into) {
            Ok((count, _)) => Ok(Some(count)),
            Err(error) => match error.kind() {
                // A wait that a signal ended had found nothing.
                ErrorKind::WouldBlock | ErrorKind::TimedOut | ErrorKind::Interrupted => Ok(None),
                _ => Err(error),
            },
        }
    }

    /// Sends a datagram to a peer that was joined.
    pub(crate) fn send(&self, to: u32, frame: &[u8]) -> io::Result<()>
        ensures stranger { get nat_cmp self.now.peers to ≡ None → IsErr result }
    {
        let (Some(socket), Some(peer)) = (&self.socket, self.peers.get(&to)) else {
            return Err(io::Error::from(ErrorKind::HostUnreachable));
        };
        if socket.send_to(frame, *peer)? < frame.len() {
            return Err(io::Error::from(ErrorKind::WriteZero));
        }
        Ok(())
    }
}
