//! The texts below the help of the program and of each subcommand.
//!
//! Each text is returned by a function, and is not a constant, so that the proofs of the subcommands do not
//! have to load it.

/// Returns the text below the help of the program.
pub(crate) fn examples() -> &'static str {
    "\
Examples:
  portal serve --db portal.db --settings portal.toml
  portal print b1 --db portal.db --settings portal.toml
  portal answer --now 1583125693 \\
    --seed 0000000000000000000000000000000000000000000000000000000000000000 < request

Exit codes:
  0  done; of `answer`: the response is a 200
  1  the request was refused, or the counters differ
  2  the command line is invalid, or a value is out of range (`portal: usage`)
  3  an error of a file, the network, the output or memory, or the server has stopped
An error is one line on standard error: `portal: ` and a word. A second line may say where it is, and
its cause.

The database is the file of `--db` and its log, PATH-wal. Each subcommand copies the log into the file
as it ends; after a kill or a crash both files are needed."
}

/// Returns the text below the help of `serve`.
pub(crate) fn serve_examples() -> &'static str {
    "\
Example:
  portal serve --db portal.db --settings portal.toml --port 8080

The server listens on 127.0.0.1 alone, prints `listening 127.0.0.1:8080`, and serves one connection
after another. It locks the database while it runs: `print`, `takings` and `check` then end with
`portal: file`. Killing the server loses nothing that was acknowledged, but the database file then
needs its log, PATH-wal, beside it. The log is copied into the file at the next start, and at the end
of `--count`.

Exit codes: 0 after N connections; 3 if the port cannot be opened (`portal: network`), if a file, the
clock or memory fails, or if the server has stopped after an error of the database
(`portal: stopped`). A connection that breaks off prints `portal: cut` or `portal: network`, and the
next one is served."
}

/// Returns the text below the help of `answer`.
pub(crate) fn answer_examples() -> &'static str {
    "\
Example, for a device that has no session:
  printf 'GET /captive HTTP/1.1\\r\\nHost: api\\r\\nPortal-Device: 02:00:00:00:00:01\\r\\n\\r\\n' |
    portal answer --now 1583125693 \\
    --seed 0000000000000000000000000000000000000000000000000000000000000000

A request is HTTP/1.0 or HTTP/1.1; each line of its head ends in CR LF. The time is at most
253370764799 (end of the year 9998), and a seed has 64 hexadecimal digits. Other values, and an argument
that is not UTF-8, give `portal: usage` and exit code 2.

Exit codes: 0 if the response is a 200; 1 if the request was refused; 2 if the command line is invalid
or a value is out of range; 3 if reading, writing, a file or memory failed, or the server has stopped."
}

/// Returns the text below the help of `print`.
pub(crate) fn print_examples() -> &'static str {
    "\
Example:
  portal print b1 --db portal.db --settings portal.toml > b1.csv

Exit code 1 if there is no such batch (`portal: unknown_batch`); 3 if there is no database at PATH: none
is created (`portal: file`). While `portal serve` runs, the database is locked (`portal: file`, exit
code 3): use `GET /desk/batches/b1/print` then."
}

/// Returns the text below the help of `takings`.
pub(crate) fn takings_examples() -> &'static str {
    "\
Example:
  portal takings 2020-03-01 2020-03-31 --db portal.db --settings portal.toml

The report includes both days, in the time zone of the settings. A range has at most 366 days, in the
years 1969 to 9999 (otherwise `portal: usage`, exit code 2). If there is no database at PATH, none is
created (`portal: file`, exit code 3). While `portal serve` runs, the database is locked (`portal: file`,
exit code 3): use `GET /desk/takings` then."
}

/// Returns the text below the help of `check`.
pub(crate) fn check_examples() -> &'static str {
    "\
Example:
  portal check --db portal.db --settings portal.toml

Prints `ok` (exit code 0) or `differs` (exit code 1). If there is no database at PATH, none is created
(`portal: file`, exit code 3). While `portal serve` runs, the database is locked (`portal: file`, exit
code 3)."
}
