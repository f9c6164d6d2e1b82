//! Tests of what no request reaches: the words of a command line, the subcommands and serving over hosts and
//! places that stand in for the machine, a desk that has stopped, and files at paths.
#![tactic(auto)]

#[cfg(test)]
mod command_lines;
#[cfg(test)]
mod paths;
#[cfg(test)]
mod places;
#[cfg(test)]
mod program;
#[cfg(test)]
mod serving;
#[cfg(test)]
mod stopped;
#[cfg(test)]
mod subcommands;
