//! What opens the files of a run.

ghost use Rattle.std.specs.Prelude.{◌≡◌, ◌⊎◌, Bool, true, false, None, IfErr, IfOk, IfSome};
ghost use Rattle.sqlite.specs.State.{HasCleanDisk};
ghost use Rattle.sqlite.specs.Held.{IsNew};
ghost use Rattle.sqlite.specs.Files.{file_state, IsBlankAs, IsCleanLeft, IsOpened, LeavesFiles};
ghost use Rattle.sqlite.specs.Start.{FindsIn};
ghost use Rattle.sqlite.specs.declared.error.Error.{Error as ErrorValue};
ghost use Rattle.sqlite_std_file.specs.File.{IsFresh};
ghost use Rattle.sqlite_store.specs.FileStore.{view};
ghost use Rattle.sqlite_wal.specs.Files.{image_at};
ghost use Rattle.plan_tables_opening.specs.Faults.{unopened_for};
ghost use Rattle.plan_tables_opening.specs.Files.{IsRefused, IsUnreached};
ghost use Rattle.plan_tables_opening.specs.declared.faults.OpenFault.TheVariants.{Memory, Unopened};

use plan_tables_opening::OpenFault;
use sqlite::{Connection, Error, FileFrom, FileStore, Leftover, Start};

/// Opens the files of a run, once. A run can do nothing else to them before they are open.
pub trait FileOpener<S: Start> {
    // it was asked to open them, and this is what `sqlite` reported
    ghost refuses: { Self → ErrorValue → Type 0 };

    // whether a file that is new gets the sums of its pages
    ghost gives_sums: { Self → Bool };

    /// The database in the files, which are made where there are none; `start` stands for what they hold. Where it is not
    /// opened, the fault comes with what is left of the files, once they were opened, and with what `sqlite` reported.
    fn open(
        self,
        start: S,
    ) -> Result<
        Connection<FileStore<FileFrom<S>>>,
        (OpenFault, Option<Leftover<FileFrom<S>>>, Error),
    >
        ensures opened { IfOk result (λ conn. HasCleanDisk (file_state conn) → IsOpened conn) }
        ensures found { IfOk result (λ conn. HasCleanDisk (file_state conn)
            → FindsIn (image_at S.Start) (file_state conn)) }
        ensures sums { IfOk result (λ conn. HasCleanDisk (file_state conn)
            → IsBlankAs (gives_sums self) (image_at S.Start)
            → (view conn.store).has_sums ≡ gives_sums self) }
        ensures fresh { IfOk result IsNew }
        ensures told { IfErr result (λ left. left.0 ≡ unopened_for left.2) }
        ensures none { IfErr result (λ left. left.1 ≡ None → IsUnreached left.2) }
        ensures unopened { IfErr result (λ left. left.1 ≡ None → (left.0 ≡ Memory)
            ⊎ (left.0 ≡ Unopened)) }
        ensures caused { IfErr result (λ left. IfSome left.1 (λ rest. (files : _)
            × IsFresh true files.log
            × IsFresh false files.db × (IsCleanLeft rest → IsRefused files rest left.0
            × LeavesFiles files rest))) }
        ensures refused { IfErr result (λ left. refuses self left.2) };
}
