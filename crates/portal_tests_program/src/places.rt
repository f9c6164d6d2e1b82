//! A place of one settings file, with the errors that it has to give, and a network.
ghost use Rattle.std.specs.Prelude.{⊤};

use portal_commands::place::{Files, Place, Purpose};
use portal_commands::serving::Network;
use portal_commands::trouble::Trouble;
use portal_files::Settings;
use portal_model::moment::Moment;
use portal_server::{Host, ProgramError};
use std::alloc::Global;
use std::io::{self, Read, Write};
use std::marker::PhantomData;

/// A settings file in UTC, with the tokens of the sample settings.
pub const SETTINGS: &str = "zone = \"UTC0\"\n\
    portal_url = \"https://wifi.example/portal\"\n\
    desk_token = \"desk-token\"\n\
    gateway_token = \"gate-token\"\n";

/// The paths of a database and of the settings file.
pub const FILES: Files<'static> = Files {
    db: "portal.db",
    settings: "portal.toml",
};

/// The same with a database that has yet to be made.
pub const NEW: Files<'static> = Files {
    db: "new.db",
    settings: "portal.toml",
};

/// The same with a database that cannot be closed. There is no other file.
pub const STUCK: Files<'static> = Files {
    db: "stuck.db",
    settings: "portal.toml",
};

/// Stands in for the files of a machine: the text of the settings file, and the errors of reading it and of
/// opening the database.
#[derive(Clone, Copy)]
pub struct Shelf {
    pub alloc: Global,
    pub text: &'static str,
    pub reading: Option<ProgramError>,
    pub opening: Option<ProgramError>,
}

/// Makes a stand-in without errors.
pub fn good_shelf(alloc: Global) -> Shelf {
    Shelf {
        alloc,
        text: SETTINGS,
        reading: None,
        opening: None,
    }
}

impl Shelf {
    /// Makes the place of these files. Its desks are those in memory of another place.
    pub fn place<P: Place>(&self) -> GivenPlace<P> {
        GivenPlace {
            shelf: *self,
            of: PhantomData,
        }
    }
}

/// A place of given files. Each desk is one over a new database in memory of another place.
#[derive(Drop)]
pub struct GivenPlace<P: Place> {
    shelf: Shelf,
    of: PhantomData<P>,
}

impl<P: Place> Place for GivenPlace<P> {
    type Stored = P::Fresh;

    type Fresh = P::Fresh;

    type Left = ();

    ghost reads = { λ _ _ _. ⊤ };

    ghost holds_ledger = { λ _ _ _. ⊥ };

    ghost finds = { λ _ _ _. ⊤ };

    ghost opens = { λ _ _ _ _. ⊤ };

    ghost closes = { λ _ _. ⊤ };

    ghost fails_to_read = { λ _ _ _. ⊤ };

    ghost refuses = { λ _ _ _ _ _. ⊤ };

    ghost still_holds = { λ _ _ _ _. ⊤ };

    ghost fails_to_close = { λ _ _ _ _. ⊤ };

    ghost fails_to_make = { λ _. ⊤ };

    ghost is_fresh_fault_free = { λ desk. P.is_fresh_fault_free desk };

    fn read(&self, alloc: Global, path: &str) -> Result<Vec<u8>, Trouble> {
        if path != FILES.settings {
            return Err(Trouble::plain(ProgramError::File));
        }
        match self.shelf.reading {
            Some(ProgramError::NoMemory) => return Err(Trouble::plain(ProgramError::NoMemory)),
            Some(_) => return Err(Trouble::plain(ProgramError::File)),
            None => {}
        }
        match self.shelf.text.as_bytes().to_vec(alloc) {
            Ok(bytes) => Ok(bytes),
            Err(_) => Err(Trouble::plain(ProgramError::NoMemory)),
        }
    }

    fn open(
        self,
        alloc: Global,
        path: &str,
        settings: Settings,
        purpose: Purpose,
    ) -> Result<P::Fresh, (Trouble, ())> {
        if path == NEW.db {
            if let Purpose::Ask = purpose {
                return Err((Trouble::of_file(alloc, path, "no database"), ()));
            }
        } else if path != FILES.db && path != STUCK.db {
            return Err((Trouble::plain(ProgramError::File), ()));
        }
        match self.shelf.opening {
            None => match P::open_desk_in_memory(alloc, settings) {
                Ok(desk) => Ok(desk),
                Err(ProgramError::NoMemory) => Err((Trouble::plain(ProgramError::NoMemory), ())),
                Err(_) => Err((Trouble::plain(ProgramError::File), ())),
            },
            Some(ProgramError::NotOurs) => Err((Trouble::plain(ProgramError::NotOurs), ())),
            Some(ProgramError::Newer) => Err((Trouble::plain(ProgramError::Newer), ())),
            Some(ProgramError::NoMemory) => Err((Trouble::plain(ProgramError::NoMemory), ())),
            Some(_) => Err((Trouble::plain(ProgramError::File), ())),
        }
    }

    fn close(alloc: Global, path: &str, desk: P::Fresh) -> Result<(), (Trouble, ())> {
        P::close_desk_in_memory(desk);
        if path == STUCK.db {
            return Err((Trouble::of_file(alloc, path, "no room"), ()));
        }
        Ok(())
    }

    fn open_desk_in_memory(alloc: Global, settings: Settings) -> Result<P::Fresh, ProgramError> {
        P::open_desk_in_memory(alloc, settings)
    }

    fn close_desk_in_memory(desk: P::Fresh) {
        P::close_desk_in_memory(desk);
    }
}

/// A loopback address of which a port can be bound, or not. Each connection breaks before it is accepted.
#[derive(Clone, Copy)]
pub struct TestNetwork {
    pub is_free: bool,
}

/// A port at which each connection breaks.
#[derive(Clone, Copy)]
pub struct Broken;

/// A reader that gives nothing, and a writer that takes nothing.
#[derive(Clone, Copy)]
pub struct Nothing;

impl Read for Nothing {
    fn read(&mut self, _buf: &mut [u8]) -> io::Result<usize> {
        Ok(0)
    }
}

impl Write for Nothing {
    fn write(&mut self, _buf: &[u8]) -> io::Result<usize> {
        Ok(0)
    }

    fn flush(&mut self) -> io::Result<()> {
        Ok(())
    }
}

impl Host for Broken {
    type Reader = Nothing;

    type Writer = Nothing;

    ghost accepts = { λ _ _ _. ⊤ };

    ghost stamps = { λ _ _ _. ⊤ };

    ghost closes = { λ _ _ _ _. ⊤ };

    ghost pauses = { λ _ _. ⊤ };

    fn accept(&mut self) -> Option<(Nothing, Nothing)> {
        None
    }

    fn moment_and_seed(&mut self) -> Result<(Moment, [u8; 32]), ProgramError> {
        Err(ProgramError::File)
    }

    fn close(&mut self, _reader: Nothing, _writer: Nothing) {}

    fn pause(&mut self) {}
}

impl Network for TestNetwork {
    type Bound = Broken;

    ghost listens = { λ _ _ _. ⊤ };

    ghost refuses = { λ _ _. ⊤ };

    fn listen(self, alloc: Global, port: u16) -> Result<Broken, Trouble> {
        if self.is_free {
            Ok(Broken)
        } else {
            Err(Trouble::of_port(alloc, port, "no room"))
        }
    }
}
