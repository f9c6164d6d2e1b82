//! The version of the program.
ghost use Rattle.std.specs.Prelude.{◌≡◌};
ghost use Rattle.portal_commands.specs.Version.{version_line};

/// Returns the line that `portal --version` prints: the release, and the version of the database schema that
/// the program writes. The file `VERSION` at the root of the repository has the same release.
pub fn version_line() -> &'static str
    ensures { result.now ≡ version_line }
{
    "portal 1.0.0 (database schema version 6)\n"
}
