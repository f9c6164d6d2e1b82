//! The machine's loopback address.
ghost use Rattle.std.specs.Prelude.{⊤};
ghost use Rattle.portal_commands.specs.Troubles.{IsUnbound};
ghost use Rattle.portal_server.specs.Loopback.{BindsLoopback};

use portal_commands::serving::Network;
use portal_commands::trouble::Trouble;
use portal_server::{Loopback, ProgramError, SeedSource, Socket, WallClock, bind_loopback};
use std::alloc::Global;
use std::fmt::Display;

/// The loopback address of the machine, 127.0.0.1: its clock and its source of seeds, and a socket, with
/// which one port can be bound.
#[derive(Drop)]
pub struct HostNetwork<'h, H, B> {
    pub host: &'h H,
    pub socket: B,
}

/// Makes the trouble of a port that cannot be bound, with the system's message.
fn trouble_of_port<T: Display>(alloc: Global, port: u16, why: &T) -> Trouble
    ensures { IsUnbound port result }
{
    match format!(in alloc; "{why}") {
        Ok(text) => Trouble::of_port(alloc, port, text.as_str()),
        Err(_) => Trouble::plain(ProgramError::Network),
    }
}

impl<'h, H: WallClock + SeedSource, B: Socket> Network for HostNetwork<'h, H, B> {
    type Bound = Loopback<'h, H>;

    ghost listens = { λ network port bound. BindsLoopback (B.binds network.socket) port bound.listener };

    ghost refuses = { λ _ _. ⊤ };

    fn listen(self, alloc: Global, port: u16) -> Result<Loopback<'h, H>, Trouble> {
        let HostNetwork { host, socket } = self;
        match bind_loopback(socket, port) {
            Ok(listener) => Ok(Loopback::new(host, listener)),
            Err(io_error) => Err(trouble_of_port(alloc, port, &io_error)),
        }
    }
}
