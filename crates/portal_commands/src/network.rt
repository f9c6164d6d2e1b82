//! Where the program accepts connections.
ghost use Rattle.std.specs.Prelude.{ℕ, IfOk, IfErr, OnErr};
ghost use Rattle.portal_commands.specs.Troubles.{IsUnbound};

use crate::trouble::Trouble;
use portal_server::Host;
use std::alloc::Global;

/// Where the program accepts connections: the loopback address of the machine, or a test's stand-in.
pub trait Network: Drop {
    /// A port that was bound.
    type Bound: Host + Drop;

    /// Which hosts may be bound at a port.
    ghost listens: { Self → ℕ → Self.Bound → Type 0 };

    /// At which ports none may be bound.
    ghost refuses: { Self → ℕ → Type 0 };

    /// Binds a port of the loopback address; connections wait from then on. Error: `Network`, if the port
    /// cannot be bound. The network is consumed, so no second port can be bound.
    fn listen(self, alloc: Global, port: u16) -> Result<Self::Bound, Trouble>
        ensures why { IfErr result (IsUnbound port) }
        ensures fails { OnErr result (refuses self port) }
        ensures bound { IfOk result (listens self port) };
}
