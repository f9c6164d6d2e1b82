//! The program on the machine.
ghost use Rattle.std.specs.Prelude.{map};
ghost use Rattle.sqlite_wal.specs.Files.{image_at};
ghost use Rattle.portal_os.specs.Running.{host_network, host_place};
ghost use Rattle.portal_commands.specs.Program.{EndsMain, EndsProgram};
ghost use Rattle.portal_server.specs.Turns.{wire_of};

use crate::files::HostFiles;
use crate::network::HostNetwork;
use crate::pairs::FilePair;
use portal_commands::program::run_program;
use portal_commands::words::words_of;
use portal_desk::Desk;
use portal_desk_store::StoreDesk;
use portal_server::{Host, Loopback, Socket};
use sqlite::{FileFrom, FileStore, Start};
use sqlite_disk::Disk;
use std::convert::AsStr;
use std::io::{Read, Write};
use std::net::TcpStream;

/// Runs the program over a pair of files and the machine's loopback address, as `run_program` does, and
/// returns the exit code.
fn run_over_pair<P: FilePair, T: AsStr, R: Read, W: Write, E: Write>(
    host: &HostRuntime,
    pair: P,
    words: &[T],
    input: &mut R,
    output: &mut W,
    errors: &mut E,
) -> u8
    ensures { EndsProgram
        (host_place P.File.Disk P.image ⟦<StoreDesk<FileStore<P::File>> as Desk>⟧)
        (host_network ⟦<Loopback<'static, HostRuntime> as Host>⟧
        ⟦<TcpStream as Read>⟧ ⟦<TcpStream as Write>⟧ ⟦<&'static HostRuntime as Socket>⟧ host.entry)
        (wire_of R.Read W.Write input.old input.new output.old output.new)
        (E.contents errors.old) (E.contents errors.new) (map T.text words.now) result }
{
    let files = HostFiles {
        machine: host,
        pair,
    };
    let network = HostNetwork { host, socket: host };
    run_program(host.alloc(), files, network, words, input, output, errors)
}

/// Runs the program over the machine's files and its loopback address, as `run_program` does, and returns the
/// exit code. `start` is the assumption about the disk.
pub fn run_on_host<S: Start, T: AsStr, R: Read, W: Write, E: Write>(
    host: &HostRuntime,
    start: S,
    words: &[T],
    input: &mut R,
    output: &mut W,
    errors: &mut E,
) -> u8
    ensures { EndsProgram
        (host_place ⟦<FileFrom<S> as Disk>⟧ (image_at S.Start) ⟦<StoreDesk<FileStore<FileFrom<S>>> as Desk>⟧)
        (host_network ⟦<Loopback<'static, HostRuntime> as Host>⟧
        ⟦<TcpStream as Read>⟧ ⟦<TcpStream as Write>⟧ ⟦<&'static HostRuntime as Socket>⟧ host.entry)
        (wire_of R.Read W.Write input.old input.new output.old output.new)
        (E.contents errors.old) (E.contents errors.new) (map T.text words.now) result }
{
    run_over_pair(host, start, words, input, output, errors)
}

/// Runs the program with the arguments of the process, as `run_on_host` does, and returns the exit code.
/// Arguments that could not be copied are an error, which is printed: `usage`, if one is not UTF-8;
/// `no_memory`. No contract says which arguments the process was given.
pub fn run_main<S: Start, R: Read, W: Write, E: Write>(
    host: &HostRuntime,
    start: S,
    input: &mut R,
    output: &mut W,
    errors: &mut E,
) -> u8
    ensures { EndsMain
        (host_place ⟦<FileFrom<S> as Disk>⟧ (image_at S.Start) ⟦<StoreDesk<FileStore<FileFrom<S>>> as Desk>⟧)
        (host_network ⟦<Loopback<'static, HostRuntime> as Host>⟧
        ⟦<TcpStream as Read>⟧ ⟦<TcpStream as Write>⟧ ⟦<&'static HostRuntime as Socket>⟧ host.entry)
        (wire_of R.Read W.Write input.old input.new output.old output.new)
        (E.contents errors.old) (E.contents errors.new) result }
{
    match words_of(host) {
        Ok(words) => run_on_host(host, start, words.as_slice(), input, output, errors),
        Err(trouble) => trouble.report(errors),
    }
}
