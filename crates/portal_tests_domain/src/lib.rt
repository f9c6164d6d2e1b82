//! Tests over values: the order of codes, and the greatest takings.
#![tactic(auto)]

#[cfg(test)]
mod codes;
#[cfg(test)]
mod takings;
