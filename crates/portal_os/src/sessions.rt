//! The law of the program's runs. The function does nothing: its contract is the law, which `Sessions.antt`
//! of portal_commands states.
ghost use Rattle.sqlite_wal.specs.Files.{image_at};
ghost use Rattle.portal_os.specs.Running.{host_network, host_place};
ghost use Rattle.portal_commands.specs.Sessions.{RunsKeep};

use portal_desk::Desk;
use portal_desk_store::StoreDesk;
use portal_server::{Host, Loopback, Socket};
use sqlite::{FileFrom, FileStore, Start};
use sqlite_disk::Disk;
use std::io::{Read, Write};
use std::net::TcpStream;

/// Law: if the two files hold a ledger, each crash state of the desk of a run of the program on the machine
/// holds that ledger, then the commands that were newly accepted with a 200, in order, and at most one
/// command more. Of a run that opened no desk, however its opening ended, each crash state of what is left of
/// the files holds that ledger. This holds as long as the disk has been fault-free.
#[tactic(auto, using(portal_commands::proofs::SessionLemmas::runs_keep))]
pub fn runs_are_kept<S: Start>(host: &HostRuntime, start: S)
    ensures { RunsKeep
        (host_place ⟦<FileFrom<S> as Disk>⟧ (image_at S.Start) ⟦<StoreDesk<FileStore<FileFrom<S>>> as Desk>⟧)
        (host_network ⟦<Loopback<'static, HostRuntime> as Host>⟧
        ⟦<TcpStream as Read>⟧ ⟦<TcpStream as Write>⟧ ⟦<&'static HostRuntime as Socket>⟧ host.entry) }
{}
