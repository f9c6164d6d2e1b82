//! Where the program's files are.
ghost use Rattle.std.specs.Prelude.{◌≡◌, ℕ, List, [], IfOk, IfErr};
ghost use Rattle.portal_ledger.specs.Ledger.{Ledger};
ghost use Rattle.portal_ledger.specs.States.{running};
ghost use Rattle.portal_server.specs.declared.error.ProgramError.{ProgramError as Failure};
ghost use Rattle.portal_commands.specs.declared.trouble.Trouble.{Trouble as Why};
ghost use Rattle.portal_commands.specs.declared.place.Purpose.{Purpose as For};
ghost use Rattle.portal_commands.specs.Places.{
  IsFileError,
  IsSettingsError,
  IsDatabaseError,
  AreReadSettings,
  IsNotRead,
  AreNone,
  Closes,
  FailsBeforeDesk,
  FailsToOpen,
};
ghost use Rattle.portal_commands.specs.Troubles.{NamesPath};

use crate::trouble::Trouble;
use portal_desk::Desk;
use portal_files::{FileFault, Settings, read_settings};
use portal_server::ProgramError;
use std::alloc::Global;
use std::io::Write;

/// What a subcommand opens a database for.
#[derive(Clone, Copy, Debug)]
pub enum Purpose {
    /// To serve: the database is made if there is none, and its log is copied into its file first.
    Serve,
    /// To answer one request: the database is made if there is none.
    Answer,
    /// To ask one question: nothing is made.
    Ask,
}

/// A place that holds files: the machine, or a test's stand-in. No contract says what its files hold.
pub trait Place: Drop {
    /// A desk over a database file.
    type Stored: Desk;

    /// A desk over an empty database in memory, which is fault-free.
    type Fresh: Desk;

    /// What is left of a database file that was refused, or of a desk over it after its close. A caller can
    /// only let it go.
    type Left: Drop;

    /// Which bytes may be read from the file at a path.
    ghost reads: { Self → List ℕ → List ℕ → Type 0 };

    /// Which ledger the file at a path is assumed to hold.
    ghost holds_ledger: { Self → List ℕ → Ledger → Type 0 };

    /// What is assumed of the file at a path that was opened for a purpose: to ask, that a database was made.
    ghost finds: { Self → List ℕ → For → Type 0 };

    /// Which desk was opened over the file at a path for a purpose: to serve, after the log was copied into
    /// the file.
    ghost opens: { Self → List ℕ → For → Self.Stored → Type 0 };

    /// What holds of what is left after a desk over a file was closed.
    ghost closes: { Self.Stored → Self.Left → Type 0 };

    /// Which errors a read of the file at a path gives.
    ghost fails_to_read: { Self → List ℕ → Why → Type 0 };

    /// Which errors an open of the file at a path for a purpose gives, and what holds of what is left then.
    ghost refuses: { Self → Self.Left → List ℕ → For → Why → Type 0 };

    /// Which ledger what is left of the file at a path, after an open that failed, still holds: as it is, and
    /// after a crash.
    ghost still_holds: { Self → Self.Left → List ℕ → Ledger → Type 0 };

    /// Which errors a close of a desk over the file at a path gives, and what holds of what is left then.
    ghost fails_to_close: { Self.Stored → Self.Left → List ℕ → Why → Type 0 };

    /// Which errors the making of a database in memory gives.
    ghost fails_to_make: { Failure → Type 0 };

    /// Reads the bytes of a file. Errors: `File`, `NoMemory`.
    fn read(&self, alloc: Global, path: &str) -> Result<Vec<u8>, Trouble>
        ensures why { IfErr result (λ trouble. IsFileError trouble.error × NamesPath path.now trouble) }
        ensures fails { IfErr result (λ trouble. fails_to_read self.now path.now trouble) }
        ensures bytes { IfOk result (λ bytes. reads self.now path.now bytes.items) };

    /// Opens a desk over the database file at a path. To serve or to answer, the database is made if there is
    /// none; to serve, its log is then copied into the file. Errors: `File`, also to ask where there is no
    /// database, and then nothing is made; `NoMemory`; `NotOurs`, if it holds tables of another program;
    /// `Newer`, if a later version wrote it. What is left then still holds each ledger that the file held.
    fn open(
        self,
        alloc: Global,
        path: &str,
        settings: Settings,
        purpose: Purpose,
    ) -> Result<Self::Stored, (Trouble, Self::Left)>
        ensures why { IfErr result (λ e. IsDatabaseError e.0.error × NamesPath path.now e.0) }
        ensures fails { IfErr result (λ e. refuses self e.1 path.now purpose e.0) }
        ensures kept { (L : Ledger) → holds_ledger self path.now L
            → IfErr result (λ e. still_holds self e.1 path.now L) }
        ensures same_settings { IfOk result (λ desk. Self.Stored.settings desk ≡ settings) }
        ensures opened { IfOk result (λ desk. opens self path.now purpose desk) }
        ensures represents { (L : Ledger) → holds_ledger self path.now L
            → IfOk result (λ desk. Self.Stored.is_fault_free desk → Self.Stored.represents desk (running L)) }
        ensures found { IfOk result (λ desk. Self.Stored.is_fault_free desk → finds self path.now purpose) };

    /// Closes a desk over the database file at a path: its log is copied into the file, which then holds
    /// everything. Errors: `File`, `NoMemory`; then the file and its log together hold everything.
    fn close(
        alloc: Global,
        path: &str,
        desk: Self::Stored,
    ) -> Result<Self::Left, (Trouble, Self::Left)>
        ensures why { IfErr result (λ e. IsFileError e.0.error × NamesPath path.now e.0) }
        ensures fails { IfErr result (λ e. fails_to_close desk e.1 path.now e.0) }
        ensures closed { IfOk result (λ left. closes desk left) };

    /// Opens a desk over an empty database in memory. Errors: `NoMemory`; `File`, if the database failed.
    fn open_desk_in_memory(alloc: Global, settings: Settings) -> Result<Self::Fresh, ProgramError>
        ensures why { IfErr result IsFileError }
        ensures fails { IfErr result (λ error. fails_to_make error) }
        ensures same_settings { IfOk result (λ desk. Self.Fresh.settings desk ≡ settings) }
        ensures fresh { IfOk result (λ desk. Self.Fresh.represents desk (running [])) };

    /// Closes a desk over a database in memory. Its contents are gone then.
    fn close_desk_in_memory(desk: Self::Fresh);

    ghost is_fresh_fault_free: { (desk : Self.Fresh) → Self.Fresh.is_fault_free desk };
}

/// The files that a command line names.
#[derive(Clone, Copy, Debug, PartialEq, Eq)]
pub struct Files<'a> {
    /// The path of the database file.
    pub db: &'a str,
    /// The path of the settings file.
    pub settings: &'a str,
}

/// Reads the settings file at a path. Errors: `File`; `NoMemory`; `Settings`, if the file is no valid
/// settings file, with what is wrong in it.
pub fn read_settings_at<P: Place>(alloc: Global, place: &P, path: &str) -> Result<Settings, Trouble>
    ensures why { IfErr result (λ trouble. IsSettingsError trouble.error) }
    ensures read { IfOk result (AreReadSettings (P.reads place.now path.now)) }
    ensures none { IfErr result (λ trouble.
        trouble.error ≡ ProgramError.Settings → AreNone (P.reads place.now path.now)) }
    ensures not_read { IfErr result
        (IsNotRead path.now (P.reads place.now path.now) (P.fails_to_read place.now path.now)) }
{
    let bytes = place.read(alloc, path)?;
    match read_settings(alloc, bytes.as_slice()) {
        Ok(settings) => Ok(settings),
        Err(FileFault::Bad) => Err(Trouble::of_settings(alloc, path, bytes.as_slice())),
        Err(FileFault::Memory) => Err(Trouble::plain(ProgramError::NoMemory)),
    }
}

/// Reads the settings file and opens a desk over the database file. Errors: those of `read_settings_at`, then
/// those of `Place::open`.
pub fn open_desk<P: Place>(
    alloc: Global,
    place: P,
    files: Files<'_>,
    purpose: Purpose,
) -> Result<P::Stored, Trouble>
    ensures why { IfErr result
        (FailsBeforeDesk (P.reads place) (P.fails_to_read place)
        (FailsToOpen (P.refuses place) (P.holds_ledger place) (P.still_holds place)) files.entry purpose) }
    ensures same_settings { IfOk result (λ desk.
        AreReadSettings (P.reads place files.entry.settings.now) (P.Stored.settings desk)) }
    ensures opened { IfOk result (λ desk. P.opens place files.entry.db.now purpose desk) }
    ensures represents { (L : Ledger) → P.holds_ledger place files.entry.db.now L
        → IfOk result (λ desk. P.Stored.is_fault_free desk → P.Stored.represents desk (running L)) }
    ensures found { IfOk result (λ desk.
        P.Stored.is_fault_free desk → P.finds place files.entry.db.now purpose) }
{
    let settings = read_settings_at(alloc, &place, files.settings)?;
    match place.open(alloc, files.db, settings, purpose) {
        Ok(desk) => Ok(desk),
        Err((trouble, _left)) => Err(trouble),
    }
}

/// Closes a desk over the file at a path. If the close fails, prints its error on `errors`.
pub fn close_opened_desk<P: Place, E: Write>(
    alloc: Global,
    path: &str,
    desk: P::Stored,
    errors: &mut E,
)
    ensures { Closes P.closes P.fails_to_close desk path.now (E.contents errors.old) (E.contents errors.new) }
{
    match P::close(alloc, path, desk) {
        Ok(_left) => {}
        Err((trouble, _left)) => {
            trouble.report(errors);
        }
    }
}
