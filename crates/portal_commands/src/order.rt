//! What a command line asks the program to do.

/// What a command line asks the program to do. `db` is the path of the database file, and `settings` that of
/// the settings file.
#[derive(Clone, Copy, Debug, PartialEq, Eq)]
pub enum Order<'a> {
    /// Serve so many connections at a port.
    Serve {
        db: &'a str,
        settings: &'a str,
        port: u64,
        count: u64,
    },
    /// Answer the request on standard input. `now` is the time of the request in whole seconds UTC, and
    /// `seed` the text of its seed. Neither is validated yet, except that `now` fits in a `u64`.
    Answer {
        db: Option<&'a str>,
        settings: Option<&'a str>,
        now: u64,
        seed: &'a str,
    },
    /// Print the print file of a batch.
    Print {
        db: &'a str,
        settings: &'a str,
        batch: &'a str,
    },
    /// Print the takings report from one day to another.
    Takings {
        db: &'a str,
        settings: &'a str,
        from: &'a str,
        to: &'a str,
    },
    /// Compare the counters of the database with its rows.
    Check {
        db: &'a str,
        settings: &'a str,
    },
}

/// What the program prints if the command line gives no order.
#[derive(Debug, Drop)]
pub enum NoOrder {
    /// Help, on standard output: the command line asks for it.
    Help(String),
    /// The version (`version_line`), on standard output: the command line asks for it.
    Version,
    /// The message about an invalid command line, on standard error.
    Invalid(String),
    /// Out of memory.
    NoMemory,
}
