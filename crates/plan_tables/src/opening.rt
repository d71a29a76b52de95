// Stores over databases that are opened.

ghost use Rattle.std.specs.Prelude.{◌≡◌, false, IfErr, IfOk};
ghost use Rattle.sqlite.specs.State.{HasCleanDisk};
ghost use Rattle.sqlite.specs.Files.{file_state};
ghost use Rattle.sqlite_std_file.specs.File.{IsFresh};
ghost use Rattle.sqlite.specs.Held.{state};
ghost use Rattle.sqlite.specs.Steps.{over_memory};
ghost use Rattle.sqlite_wal.specs.Files.{image_at};
ghost use Rattle.planner_machine.specs.Content.{nothing_known};
ghost use Rattle.planner_machine.specs.Sound.{IsSound};
ghost use Rattle.plan_store.specs.Contents.{content_of};
ghost use Rattle.plan_tables.specs.Adopted.{ComesBack, IsOver};
ghost use Rattle.plan_tables.specs.Found.{IsFoundIn};
ghost use Rattle.plan_tables.specs.Kept.{IsKept, kept_in};
ghost use Rattle.plan_tables.specs.Refused.{IsGivenBack, IsNotOpened};
ghost use Rattle.plan_tables.specs.Stored.{LeavesOne};
ghost use Rattle.plan_tables.specs.Unopened.{IsUnmadeBy};
ghost use Rattle.plan_tables_opening.specs.declared.faults.OpenFault.TheVariants.{Memory};

use crate::table_store::TableStore;
use plan_tables_content::tables_have_one_content;
use plan_tables_opening::{OpenFault, open_connection_from, open_content};
use sqlite::{Alter, Connection, File, FileFrom, FileStore, Leftover, MemStore, Start, Unknown};
use std::alloc::Global;
use std::rt::HostRuntime;

impl<S: Alter + Drop> TableStore<S> {
    /// A store over the database of a connection. The database has the tables of the plan, of a known version, with
    /// rows of a sound content; or it has none and gets those of a planner before its first statement. If it is not
    /// opened, the database stays as it was, and the connection is returned.
    pub fn adopt(
        alloc: Global,
        conn: Connection<S>,
    ) -> Result<TableStore<S>, (OpenFault, Connection<S>)>
        requires { conn.in_transaction ≡ false }
        ensures opened { IfOk result (IsOver conn) }
        ensures unopened { IfErr result (ComesBack S.Store conn) }
    {
        tables_have_one_content();
        let mut conn = conn;
        match open_content(alloc, &mut conn) {
            Ok(lists) => Ok(TableStore::over(alloc, conn, lists)),
            Err(fault) => Err((fault, conn)),
        }
    }

    // The same, but if it is not opened the connection is dropped, and what held the database is returned.
    fn over_store(alloc: Global, conn: Connection<S>) -> Result<TableStore<S>, (OpenFault, S)>
        requires { conn.in_transaction ≡ false }
        ensures opened { IfOk result (IsOver conn) }
        ensures refused { IfErr result (IsGivenBack S.Store conn) }
    {
        match TableStore::adopt(alloc, conn) {
            Ok(store) => Ok(store),
            Err((fault, conn)) => Err((fault, conn.into_store())),
        }
    }

    // The same, and nothing is returned.
    fn over_connection(alloc: Global, conn: Connection<S>) -> Result<TableStore<S>, OpenFault>
        requires { conn.in_transaction ≡ false }
        ensures opened { IfOk result (IsOver conn) }
        ensures unmade { IfErr result (IsUnmadeBy S.Store conn) }
    {
        match TableStore::adopt(alloc, conn) {
            Ok(store) => Ok(store),
            Err((fault, _conn)) => Err(fault),
        }
    }
}

impl TableStore<MemStore> {
    /// A store in memory of a planner before its first statement. It fails only if memory is refused.
    pub fn open_memory(alloc: Global) -> Result<TableStore<MemStore>, OpenFault>
        ensures empty { IfOk result (λ store.
            kept_in (state over_memory store.session.conn) (content_of store.lists) ≡ nothing_known) }
        ensures sound { IfOk result (λ store.
            IsSound (kept_in (state over_memory store.session.conn) (content_of store.lists))) }
        ensures whole { IfOk result (λ store. store.session.failures ≡ 0) }
        ensures sure { IfOk result (λ store. store.session.in_doubt ≡ false) }
        ensures settled { IfOk result (λ store. LeavesOne (state over_memory store.session.conn)
            (kept_in (state over_memory store.session.conn) (content_of store.lists))) }
        ensures refused { IfErr result (λ fault. fault ≡ Memory) }
    {
        match Connection::open_in_memory(alloc) {
            Ok(conn) => TableStore::over_connection(alloc, conn),
            Err(_) => Err(OpenFault::Memory),
        }
    }
}

impl<S: Start> TableStore<FileStore<FileFrom<S>>> {
    /// A store over the database in the files at the path, which are created if there are none; `start` stands for
    /// what they hold. If it is not opened, the files hold what they held, or, if they held nothing, perhaps the
    /// tables of a planner before its first statement; and the fault comes with what is left of the files, once they
    /// were opened. The path is taken as it is.
    pub fn open_path_from(
        rt: &HostRuntime,
        alloc: Global,
        path: &str,
        start: S,
    ) -> Result<TableStore<FileStore<FileFrom<S>>>, (OpenFault, Option<Leftover<FileFrom<S>>>)>
        ensures whole { IfOk result (λ store. store.session.failures ≡ 0) }
        ensures sure { IfOk result (λ store. store.session.in_doubt ≡ false) }
        ensures opened { IfOk result (λ store. HasCleanDisk (file_state store.session.conn)
            → IsKept (file_state store.session.conn) (content_of store.lists)) }
        ensures settled { IfOk result (λ store. LeavesOne (file_state store.session.conn)
            (kept_in (file_state store.session.conn) (content_of store.lists))) }
        ensures found { IfOk result (λ store. HasCleanDisk (file_state store.session.conn)
            → IsFoundIn (image_at S.Start)
            (kept_in (file_state store.session.conn) (content_of store.lists))) }
        ensures refused { IfErr result (IsNotOpened (λ is_log file. IsFresh is_log file)
            (image_at S.Start)) }
    {
        match open_connection_from(rt, path, start) {
            Ok(conn) => match TableStore::over_store(alloc, conn) {
                Ok(store) => Ok(store),
                Err((fault, left)) => Err((fault, Some(Leftover::Store(left)))),
            },
            Err(left) => Err(left),
        }
    }
}

impl TableStore<FileStore<File>> {
    /// The same over a file of which nothing is known. The path is taken as it is. `open_path_from` says what is
    /// proved of it whatever the file holds.
    pub fn open_path(
        rt: &HostRuntime,
        alloc: Global,
        path: &str,
    ) -> Result<TableStore<FileStore<File>>, (OpenFault, Option<Leftover<File>>)>
        ensures whole { IfOk result (λ store. store.session.failures ≡ 0) }
        ensures sure { IfOk result (λ store. store.session.in_doubt ≡ false) }
        ensures opened { IfOk result (λ store. HasCleanDisk (file_state store.session.conn)
            → IsKept (file_state store.session.conn) (content_of store.lists)) }
        ensures settled { IfOk result (λ store. LeavesOne (file_state store.session.conn)
            (kept_in (file_state store.session.conn) (content_of store.lists))) }
        ensures refused { IfErr result (IsNotOpened (λ is_log file. IsFresh is_log file)
            (image_at ⟦<Unknown as Start>⟧)) }
    {
        TableStore::open_path_from(rt, alloc, path, Unknown)
    }
}
