//! The host that serves the machine itself: a port of its loopback address, its clock and its source of
//! seeds.
ghost use Rattle.std.specs.Prelude.{◌≡◌, ◌∷◌, [], Result, IfOk, ⊤};
ghost use Rattle.std.specs.declared.io.Error.{Error as Why};
ghost use Rattle.std.specs.declared.time.Duration.{Duration as Since};
ghost use Rattle.portal_server.specs.Turns.{IsMomentOf};
ghost use Rattle.std.specs.Net.Addr.{ipv4_octets};
ghost use Rattle.std.specs.declared.net.socket_addr.SocketAddrV4.{SocketAddrV4 as Address};
ghost use Rattle.std.specs.declared.net.tcp.TcpListener.{TcpListener as Listener};
ghost use Rattle.portal_server.specs.Loopback.{BindsLoopback};
ghost use Rattle.std.specs.Net.Socket.{v4_ip, v4_port};

use crate::clock::{WallClock, moment_now};
use crate::error::ProgramError;
use crate::host::Host;
use crate::seeds::{SeedSource, fresh_seed};
use portal_model::moment::Moment;
use std::io::{self, Read};
use std::net::{Ipv4Addr, Net, Shutdown, SocketAddr, SocketAddrV4, TcpListener, TcpStream};

/// Returns the address of a port of 127.0.0.1, which no other machine can reach.
pub fn loopback_address(port: u16) -> SocketAddrV4
    ensures ip { ipv4_octets (v4_ip result) ≡ 127 ∷ 0 ∷ 0 ∷ 1 ∷ [] }
    ensures port { v4_port result ≡ port }
{
    SocketAddrV4::new(Ipv4Addr::new(127, 0, 0, 1), port)
}

/// A socket that can be bound once, since it is consumed. The ghost names what was bound at an address; no
/// contract says more about a socket.
pub trait Socket: Drop {
    /// Which listener was bound at an address.
    ghost binds: { Self → Address → Listener → Type 0 };

    /// Binds an address; connections wait from then on.
    fn bind_at(self, address: SocketAddrV4) -> io::Result<TcpListener>
        ensures { IfOk result (λ listener. binds self address listener) };
}

impl<'n, N: Net<Listener = TcpListener, Stream = TcpStream>> Socket for &'n N {
    ghost binds = { λ _ _ _. ⊤ };

    fn bind_at(self, address: SocketAddrV4) -> io::Result<TcpListener> {
        self.bind(SocketAddr::V4(address))
    }
}

/// Binds a port of the loopback address; connections wait from then on. Error: that of the system, if the
/// port cannot be bound.
pub fn bind_loopback<B: Socket>(socket: B, port: u16) -> io::Result<TcpListener>
    ensures { IfOk result (BindsLoopback (B.binds socket) port) }
{
    socket.bind_at(loopback_address(port))
}

/// A listener, with the clock and the source of seeds of its machine.
#[derive(Drop)]
pub struct Loopback<'h, H> {
    host: &'h H,
    listener: TcpListener,
}

impl<'h, H> Loopback<'h, H> {
    /// Makes a host of a listener and the machine.
    pub fn new(host: &'h H, listener: TcpListener) -> Self
        ensures { result ≡ record { host = host.entry; listener = listener } }
    {
        Loopback { host, listener }
    }
}

/// Ends the response and reads what the peer has sent by now, without waiting.
///
/// Closing a socket with unread bytes would reset the connection, and the reset can reach the peer before
/// the response (RFC 9112, section 9.6).
fn drain(mut reader: TcpStream, writer: &TcpStream) {
    if writer.shutdown(Shutdown::Write).is_err() || reader.set_nonblocking(true).is_err() {
        return;
    }
    let mut buffer = [0u8; 4096];
    for _turn in 0..64 {
        match reader.read(&mut buffer) {
            Ok(0) | Err(_) => return,
            Ok(_) => {}
        }
    }
}

impl<'h, H: WallClock + SeedSource> Host for Loopback<'h, H> {
    type Reader = TcpStream;

    type Writer = TcpStream;

    ghost accepts = { λ _ _ _. ⊤ };

    ghost stamps = { λ before given after. IfOk given (λ stamp.
        ((said : Result Since Why) × H.says before.host.now said × IsMomentOf said stamp.0)
        × H.draws before.host.now stamp.1) };

    ghost closes = { λ _ _ _ _. ⊤ };

    ghost pauses = { λ before after. H.waits before.host.now 1 };

    fn accept(&mut self) -> Option<(TcpStream, TcpStream)> {
        let (reader, _peer) = self.listener.accept().ok()?;
        let writer = reader.try_clone().ok()?;
        Some((reader, writer))
    }

    fn moment_and_seed(&mut self) -> Result<(Moment, [u8; 32]), ProgramError> {
        let moment = moment_now(self.host)?;
        let seed = fresh_seed(self.host)?;
        Ok((moment, seed))
    }

    fn close(&mut self, reader: TcpStream, writer: TcpStream) {
        drain(reader, &writer);
    }

    fn pause(&mut self) {
        self.host.wait(1);
    }
}
