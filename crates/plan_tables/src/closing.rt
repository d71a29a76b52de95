// A store is dropped at the end of a run.

ghost use Rattle.std.specs.Prelude.{◌≡◌, ◌⊎◌, false, IfErr, IfOk, IsTrue};
ghost use Rattle.sqlite.specs.Files.{file_state};
ghost use Rattle.sqlite.specs.Held.{AreDatabases, state};
ghost use Rattle.sqlite.specs.State.{HasCleanDisk};
ghost use Rattle.sqlite.specs.Tree.{Trees};
ghost use Rattle.sqlite_disk.specs.Disk.{MoreFaults};
ghost use Rattle.sqlite_store.specs.FileStore.{faults, recovers, state as files_state, view};
ghost use Rattle.sqlite_trees.specs.View.{IsClean};
ghost use Rattle.sqlite_wal.specs.Files.{outcomes};
ghost use Rattle.sqlite_wal.specs.Reads.{AreClean};
ghost use Rattle.sqlite_wal.specs.Recovery.{Image};
ghost use Rattle.planner_machine.specs.Content.{Content as ContentValue};
ghost use Rattle.plan_store.specs.Contents.{content_of};
ghost use Rattle.plan_store.specs.declared.stores.StoreFault.TheVariants.{Device, Memory};
ghost use Rattle.plan_tables.specs.Causes.{closing_fault};
ghost use Rattle.plan_tables.specs.Found.{HoldsLeft, IsFoundIn, IsFoundInEither, KeepsAlone, Tells};
ghost use Rattle.plan_tables.specs.Kept.{kept_in};
ghost use Rattle.plan_tables.specs.Stored.{MayLeave, TellsSound};

use crate::table_store::TableStore;
use plan_store::StoreFault;
use plan_tables_content::tables_have_one_content;
use sqlite::{Alter, Error, ErrorCode, FileStore};
use sqlite_disk::{Disk, Files};

impl<S: Alter + Drop> TableStore<S> {
    /// Drops the tables, as a program does at its end. Each database that a crash may leave of them has the tables of
    /// the plan with a sound content; and if no failure was counted, and the connection is known to be open, the
    /// content that the store kept.
    pub fn into_store(self) -> S
        ensures honest { IsClean (S.Store.view result) → HasCleanDisk (state S.Store self.session.conn) }
        ensures numbered { IsClean (S.Store.view result)
            → IsTrue (S.Store.view result).is_numbered }
        ensures sound { IsClean (S.Store.view result) → AreDatabases (S.Store.recovers result) }
        ensures left { (db : Trees) → S.Store.recovers result db
            → (state S.Store self.session.conn).may_leave db }
        ensures plans { IsClean (S.Store.view result)
            → (db : Trees) → S.Store.recovers result db → ∥ TellsSound db ∥₁ }
        ensures tells { self.session.failures ≡ 0 → self.session.in_doubt ≡ false → IsClean (S.Store.view result)
            → (db : Trees) → S.Store.recovers result db
            → ∥ Tells db (kept_in (state S.Store self.session.conn) (content_of self.lists)) ∥₁ }
    {
        let conn = self.into_connection();
        let _schema = conn.schema();
        conn.into_store()
    }
}

impl<D: Disk + Drop> TableStore<FileStore<D>> {
    /// Closes the files, as a program does at its end. Whatever a crash left of them, they hold a database with a
    /// sound content. Opening them finds a content that a crash might leave of the tables; and if no failure was
    /// counted, and the connection is known to be open, what the store kept and nothing else.
    pub fn into_files(self) -> FileStore<D>
        ensures honest { IsClean (view result) → HasCleanDisk (file_state self.session.conn) }
        ensures sound { IsClean (view result) → AreDatabases (recovers result) }
        ensures opens_again { IsClean (view result) → (left : Image)
            → (files_state result).may_leave left → ∥ HoldsLeft left (file_state self.session.conn) ∥₁ }
        ensures goes_on { IsClean (view result) → (left : Image)
            → (files_state result).may_leave left
            → (c : ContentValue) → IsFoundIn left c → ∥ MayLeave (file_state self.session.conn) c ∥₁ }
        ensures found_again { self.session.failures ≡ 0 → self.session.in_doubt ≡ false → IsClean (view result)
            → (left : Image) → (files_state result).may_leave left
            → (c : ContentValue) → IsFoundIn left c
            → c ≡ kept_in (file_state self.session.conn) (content_of self.lists) }
    {
        tables_have_one_content();
        self.into_store()
    }
}

// Why files could not be closed.
fn fault_of_closing(error: &Error) -> StoreFault
    ensures value { result ≡ closing_fault error.now }
    ensures memory { error.now ≡ Error.SqliteFailure ErrorCode.OutOfMemory → result ≡ Memory }
    ensures cases { (result ≡ Memory) ⊎ (result ≡ Device) }
{
    match error {
        Error::SqliteFailure(ErrorCode::OutOfMemory) => StoreFault::Memory,
        _ => StoreFault::Device,
    }
}

impl<D: Disk + Drop> TableStore<FileStore<D>> {
    /// Copies the log into the database file and returns both files, as a program does at its end. Whatever a crash
    /// left of them, both files, and the database file without its log, hold a database that a crash might leave of
    /// the tables, with a sound content. Opening them finds a content that a crash might leave of the tables; and if
    /// no failure was counted, and the connection is known to be open, what the store kept and nothing else. If
    /// copying fails, for lack of memory or because of the device, nothing is lost: the files are returned, and each
    /// database that a crash may leave of them is one that a crash might leave of the tables; it has a sound content,
    /// which is what the store kept if no failure was counted and the connection is known to be open. If the disk was
    /// honest to the end, it was honest before.
    pub fn close(self) -> Result<Files<D>, (StoreFault, FileStore<D>)>
        ensures usable { IfOk result (λ files. IsTrue (D.Disk.is_usable files.log)
            × IsTrue (D.Disk.is_usable files.db)) }
        ensures honest { IfOk result (λ files. AreClean D.Disk files.log files.db
            → HasCleanDisk (file_state self.session.conn)) }
        ensures holds { IfOk result (λ files. AreClean D.Disk files.log files.db
            → (left : Image) → outcomes D.Disk files.log files.db left
            → ∥ KeepsAlone left (file_state self.session.conn) ∥₁) }
        ensures goes_on { IfOk result (λ files. AreClean D.Disk files.log files.db
            → (left : Image) → outcomes D.Disk files.log files.db left
            → (c : ContentValue) → IsFoundInEither left c
            → ∥ MayLeave (file_state self.session.conn) c ∥₁) }
        ensures found_again { IfOk result (λ files. self.session.failures ≡ 0 → self.session.in_doubt ≡ false
            → AreClean D.Disk files.log files.db
            → (left : Image) → outcomes D.Disk files.log files.db left
            → (c : ContentValue) → IsFoundInEither left c
            → c ≡ kept_in (file_state self.session.conn) (content_of self.lists)) }
        ensures sound { IfErr result (λ left. IsClean (view left.1)
            → AreDatabases (recovers left.1)) }
        ensures still_honest { IfErr result (λ left. IsClean (view left.1)
            → HasCleanDisk (file_state self.session.conn)) }
        ensures stays { IfErr result (λ left. (db : Trees) → recovers left.1 db
            → (file_state self.session.conn).may_leave db) }
        ensures plans { IfErr result (λ left. IsClean (view left.1)
            → (db : Trees) → recovers left.1 db → ∥ TellsSound db ∥₁) }
        ensures tells { IfErr result (λ left. self.session.failures ≡ 0 → self.session.in_doubt ≡ false
            → IsClean (view left.1) → (db : Trees) → recovers left.1 db
            → ∥ Tells db (kept_in (file_state self.session.conn) (content_of self.lists)) ∥₁) }
        ensures blames { IfErr result (λ left. IsClean (view left.1) → left.0 ≡ Device
            → ((file_state self.session.conn).is_open ≡ false)
            ⊎ MoreFaults (faults self.session.conn.store) (faults left.1)) }
    {
        tables_have_one_content();
        let connection = self.into_connection();
        let _schema = connection.schema();
        match connection.close_files() {
            Ok(files) => Ok(files),
            Err((error, left)) => Err((fault_of_closing(&error), left)),
        }
    }
}
