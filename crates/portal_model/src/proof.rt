//! The call that marks what stands for the prover alone.

/// Takes what a call returned whose contract the prover needs, and does nothing with it.
pub fn witness<T: Drop>(_value: T) {}
