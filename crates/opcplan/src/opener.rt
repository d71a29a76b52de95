//! What opens FILE as a plan. Nothing else of this program creates or changes it; `sight.rt` looks at it.

ghost use Rattle.std.specs.Prelude.{⊤};

use plan_files::FileOpener;
use plan_tables_opening::{OpenFault, open_connection_with};
use sqlite::{Connection, Error, FileFrom, FileStore, Leftover, Unknown};

/// Opens the file at a path, as the kit does.
#[derive(Drop)]
pub struct AtPath<'a> {
    /// What opens files.
    pub rt: &'a HostRuntime,
    /// The path, as it is.
    pub path: &'a str,
    /// Whether it gets the sums of its pages, if it is new.
    pub new_has_sums: bool,
}

impl FileOpener<Unknown> for AtPath<'_> {
    ghost refuses = { λ _ _. ⊤ };

    ghost gives_sums = { λ opener. opener.new_has_sums };

    fn open(
        self,
        start: Unknown,
    ) -> Result<
        Connection<FileStore<FileFrom<Unknown>>>,
        (OpenFault, Option<Leftover<FileFrom<Unknown>>>, Error),
    > {
        open_connection_with(self.rt, self.path, self.new_has_sums, start)
    }
}
