//! The program on the machine: its files as the place of the program, and its loopback address as the
//! network. A desk is opened over a database file or over an empty database in memory.
#![tactic(auto)]

mod alone;
mod cache;
mod closing;
mod copying;
mod errors;
mod files;
mod finding;
mod images;
mod lives;
mod looking;
mod machine;
mod network;
mod obstacles;
mod opening;
mod opening_error;
mod pairs;
mod remains;
mod running;
mod sessions;

pub use closing::close_desk;
pub use errors::{error_of_file, error_of_open, error_of_path, error_of_store};
pub use files::HostFiles;
pub use images::{release_conn_files, release_desk_files};
pub use lives::{Round, live};
pub use machine::Machine;
pub use network::HostNetwork;
pub use opening::{open_database_files, open_store};
pub use opening_error::OpeningError;
pub use pairs::FilePair;
pub use remains::Remains;
pub use running::{run_main, run_on_host};
pub use sessions::runs_are_kept;
