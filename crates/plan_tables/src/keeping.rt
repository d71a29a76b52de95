// The lists and the tables of a content change together.

ghost use Rattle.std.specs.Prelude.{◌≡◌, ◌⊎◌, ◌<◌, ◌^◌, false, Some, OnOk, OnErr, IfErr, IsTrue, IfSome};
ghost use Rattle.sqlite.specs.State.{HasCleanDisk, IsRolledBack, IsUnchanged, Survives};
ghost use Rattle.sqlite.specs.Held.{state};
ghost use Rattle.sqlite_disk.specs.Disk.{MoreFaults};
ghost use Rattle.plan_tables_schema.specs.Rows.{tables_of};
ghost use Rattle.planner_machine.specs.declared.job.Job.{Job as JobValue};
ghost use Rattle.plan_store.specs.Changes.{Fits, after};
ghost use Rattle.plan_store.specs.Contents.{content_of};
ghost use Rattle.plan_store.specs.Parts.{Rest, with_rest};
ghost use Rattle.plan_store.specs.declared.stores.StoreFault.TheVariants.{Device, Memory};
ghost use Rattle.plan_tables_content.specs.Content.{answer_text};
ghost use Rattle.plan_tables_opening.specs.Opened.{IsStored};
ghost use Rattle.plan_tables_opening.specs.Stored.{AllHaveRowids};
ghost use Rattle.plan_tables_writing.specs.Redefining.{AreStorableMoves};
ghost use Rattle.plan_tables_writing.specs.Writing.{IsRepresentableChange};
ghost use Rattle.plan_tables.specs.Causes.{CanAccept, HasFailed, fault_in};
ghost use Rattle.plan_tables.specs.Found.{Tells};
ghost use Rattle.plan_store.specs.Staged.{jobless};
ghost use Rattle.plan_tables.specs.Kept.{IsMet, StaysPut};
ghost use Rattle.plan_tables.specs.Whys.{IsWhyOf};

use plan_store::{Change, Content, StoreFault};
use plan_tables_lookups::TableFault;
use plan_tables_writing::{DefinitionMoves, commit_change};
use sqlite::{Alter, Connection, Error, ErrorCode};
use std::alloc::Global;

/// Why something is not done.
#[derive(Clone, Copy)]
pub(crate) enum Unmade {
    /// Memory was refused; the tables are as they were.
    Memory,
    /// The same if the connection is open; whether it is could not be checked, because memory was refused again.
    Doubt,
    /// The device failed, or the change was refused.
    Device,
}

// Lack of memory, a failure of the device, or none if it is neither.
fn fault_in(error: &Error) -> Option<StoreFault>
    ensures { result ≡ fault_in error.now }
{
    match error {
        Error::SqliteFailure(ErrorCode::OutOfMemory) => Some(StoreFault::Memory),
        Error::SqliteFailure(
            ErrorCode::SystemIoFailure
            | ErrorCode::DatabaseCorrupt
            | ErrorCode::DiskFull
            | ErrorCode::Closed,
        ) => Some(StoreFault::Device),
        _ => None,
    }
}

/// Checks whether the connection is open, and leaves it as it is. If memory is refused, that is not known.
pub(crate) fn ask_open<S: Alter>(conn: &mut Connection<S>) -> Result<(), StoreFault>
    ensures open { HasCleanDisk (state S.Store conn.new)
        → OnOk result (IsUnchanged (state S.Store conn.old) (state S.Store conn.new)) }
    ensures unknown { HasCleanDisk (state S.Store conn.new)
        → IfErr result (λ fault. fault ≡ Memory
        → IsRolledBack (state S.Store conn.old) (state S.Store conn.new)) }
    ensures shut { HasCleanDisk (state S.Store conn.new)
        → IfErr result (λ fault. fault ≡ Device
        → MoreFaults (state S.Store conn.old).faults (state S.Store conn.new).faults
        ⊎ ((state S.Store conn.old).is_open ≡ false)) }
    ensures stays { HasCleanDisk (state S.Store conn.new)
        → StaysPut (state S.Store conn.old) (state S.Store conn.new) }
    ensures mode { conn.old.in_transaction ≡ false → conn.new.in_transaction ≡ false }
    ensures survives { Survives (state S.Store conn.old) (state S.Store conn.new) (λ _. ⊥) }
{
    match conn.prepare("no statement") {
        Ok(_statement) => Ok(()),
        Err(error) => match fault_in(&error) {
            Some(fault) => Err(fault),
            None => Ok(()),
        },
    }
}

/// Why something failed whose call returned this error.
pub(crate) fn cause_of<S: Alter>(conn: &mut Connection<S>, error: &Error) -> Unmade
    ensures open { HasCleanDisk (state S.Store conn.new) → result ≡ Unmade.Memory
        → IsUnchanged (state S.Store conn.old) (state S.Store conn.new) }
    ensures doubt { HasCleanDisk (state S.Store conn.new) → result ≡ Unmade.Doubt
        → IsRolledBack (state S.Store conn.old) (state S.Store conn.new) }
    ensures shut { HasCleanDisk (state S.Store conn.new) → result ≡ Unmade.Device
        → (fault_in error.now ≡ Some Memory → ⊥)
        ⊎ MoreFaults (state S.Store conn.old).faults (state S.Store conn.new).faults
        ⊎ ((state S.Store conn.old).is_open ≡ false) }
    ensures stays { HasCleanDisk (state S.Store conn.new)
        → StaysPut (state S.Store conn.old) (state S.Store conn.new) }
    ensures mode { conn.old.in_transaction ≡ false → conn.new.in_transaction ≡ false }
    ensures survives { Survives (state S.Store conn.old) (state S.Store conn.new) (λ _. ⊥) }
    ensures exact { (result ≡ Unmade.Device) ⊎ (fault_in error.now ≡ Some Memory) }
{
    match fault_in(error) {
        Some(StoreFault::Memory) => match ask_open(conn) {
            Ok(()) => Unmade::Memory,
            Err(StoreFault::Memory) => Unmade::Doubt,
            Err(StoreFault::Device) => Unmade::Device,
        },
        Some(StoreFault::Device) | None => Unmade::Device,
    }
}

/// Why something is not done whose look-up failed so. A row that tells no fact is a failure of the device.
pub(crate) fn why_of<S: Alter>(conn: &mut Connection<S>, fault: &TableFault) -> Unmade
    ensures { IsWhyOf S.Store conn.old conn.new fault.now result }
{
    match fault {
        TableFault::Memory => Unmade::Memory,
        TableFault::Malformed => Unmade::Device,
        TableFault::Store(error) => cause_of(conn, error),
    }
}

/// Makes a change in the lists and in the tables, all of it or nothing, even over a crash; its job in the tables
/// alone. The line is that of the reply of its job.
pub(crate) fn change_both<S: Alter>(
    conn: &mut Connection<S>,
    lists: &mut Content,
    alloc: Global,
    moves: &DefinitionMoves,
    change: Change,
    line: &[u8],
) -> Result<(), Unmade>
    requires mode { conn.old.in_transaction ≡ false }
    requires fits { Fits change (content_of lists.old) }
    requires storable { AreStorableMoves moves.now }
    requires told { IsRepresentableChange change }
    requires number { IfSome change.job (λ (job : JobValue). job.number < 2 ^ 63) }
    requires line { IfSome change.job (λ (job : JobValue). line.now ≡ answer_text job.reply) }
    ensures lists { OnOk result (content_of lists.new
        ≡ after (jobless change) (content_of lists.old)) }
    ensures same { OnErr result (content_of lists.new ≡ content_of lists.old) }
    ensures done { HasCleanDisk (state S.Store conn.new) → (rest : Rest)
        → IsMet (state S.Store conn.old) (content_of lists.old) change moves.now rest
        → OnOk result (IsStored (state S.Store conn.new)
        (after change (with_rest rest (content_of lists.old)))) }
    ensures undone { HasCleanDisk (state S.Store conn.new) → (rest : Rest)
        → IsMet (state S.Store conn.old) (content_of lists.old) change moves.now rest
        → OnErr result (IsTrue (state S.Store conn.new).is_open
        → ((state S.Store conn.new).now ≡ (state S.Store conn.old).now)
        × ((state S.Store conn.new).committed ≡ (state S.Store conn.old).committed)) }
    ensures memory { HasCleanDisk (state S.Store conn.new) → (rest : Rest)
        → IsMet (state S.Store conn.old) (content_of lists.old) change moves.now rest
        → IfErr result (λ why. why ≡ Unmade.Memory → IsTrue (state S.Store conn.new).is_open) }
    ensures blames { HasCleanDisk (state S.Store conn.new) → (rest : Rest)
        → IsMet (state S.Store conn.old) (content_of lists.old) change moves.now rest
        → CanAccept (state S.Store conn.old) (with_rest rest (content_of lists.old)) change
        → IfErr result (λ why. why ≡ Unmade.Device
        → HasFailed (state S.Store conn.old) (state S.Store conn.new)) }
    ensures schema { HasCleanDisk (state S.Store conn.new) → (rest : Rest)
        → IsMet (state S.Store conn.old) (content_of lists.old) change moves.now rest
        → OnOk result ((state S.Store conn.new).now.schema ≡ (state S.Store conn.old).now.schema) }
    ensures ended { conn.new.in_transaction ≡ false }
    ensures crash { Survives (state S.Store conn.old) (state S.Store conn.new)
        (λ db. (rest : Rest)
        → IsMet (state S.Store conn.old) (content_of lists.old) change moves.now rest
        → Tells db (after change (with_rest rest (content_of lists.old)))
        × AllHaveRowids (tables_of db)) }
{
    let mut staged = match lists.stage(alloc, change) {
        Ok(staged) => staged,
        Err(_) => return Err(Unmade::Memory),
    };
    match commit_change(conn, alloc, lists, moves, &staged, line) {
        Ok(()) => {
            staged.forget_job();
            lists.finish(staged);
            Ok(())
        }
        Err(error) => {
            lists.cancel(staged);
            Err(cause_of(conn, &error))
        }
    }
}
