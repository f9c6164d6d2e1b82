//! The machine that the program runs on.

/// What lends the machine: a reference to it.
pub trait Machine: Drop {
    /// Returns the machine.
    fn runtime(&self) -> &HostRuntime;
}

impl<'h> Machine for &'h HostRuntime {
    fn runtime(&self) -> &HostRuntime {
        *self
    }
}
