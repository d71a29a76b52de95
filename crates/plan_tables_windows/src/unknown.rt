// What has to be loaded of history and of the deletions, as serials.

ghost use Rattle.std.specs.Prelude.{[], ◌≡◌, ℕ, Contains, IfOk, OnOk, false};
ghost use Rattle.plan_store_lists.specs.Rows.{of_deletion, of_row};
ghost use Rattle.plan_tables_windows.specs.Changes.{KnowsNamed};
ghost use Rattle.plan_tables_windows.specs.Unknown.{AddsUnsettled, FindsOut, IsNamed, IsNamedDeletion, IsPredecessorIn};
ghost use Rattle.plan_tables_windows.specs.Unknown.{IsPredecessorOf, IsPredecessorOfKey, IsPredecessorOfNew};
ghost use Rattle.plan_tables_windows.specs.Unknown.{IsPredecessorOfRow, IsSerialIn, is_elsewhere, is_settled};
ghost use Rattle.plan_tables_windows.specs.Unknown.{is_settled_deletion};
ghost use Rattle.plan_tables_windows.specs.Windows.{HasLastsOf, KnowsLive};
ghost use Rattle.plan_store.specs.HistoryReads.{ReadsKey};
ghost use Rattle.plan_store.specs.Contents.{content_of};
ghost use Rattle.plan_store.specs.Parts.{HasBars};

use external_dependencies::Pair;
use occurrences::{Deletion, Key, Row, Serial};
use plan_store::{Change, Content};
use plan_store_lists::PlanRow;
use std::alloc::{AllocError, Global};

/// What has to be loaded before a change, by serial: what is under each, or that nothing is.
#[derive(Drop)]
pub struct Unknown {
    /// In history.
    pub history: Vec<Serial>,
    /// In the deletions.
    pub deletions: Vec<Serial>,
}

/// What has to be loaded of history before a window on the key is lent, once the lists have the rows that the window
/// reads: the predecessors of the key's live row, if that is in history. Those of what is planned are known.
pub fn unknown_for_key(alloc: Global, lists: &Content, key: &Key) -> Result<Vec<Serial>, AllocError>
    ensures finds { IfOk result (λ serials. FindsOut (content_of lists.now) serials.items []
        (λ rest more. HasLastsOf (ReadsKey (content_of lists.now) key.now) rest (content_of lists.now)
        → KnowsLive rest key.now more)) }
    ensures only { IfOk result (λ serials. (serial : ℕ) → Contains serials.items serial
        → IsPredecessorOfKey (content_of lists.now) key.now serial
        × (is_settled (content_of lists.now).sets serial ≡ false)) }
{
    let mut serials = Vec::new(alloc);
    add_of_rows(&mut serials, lists, lists.completed_of(key))?;
    Ok(serials)
}

/// What has to be loaded by serial before the change is made: what it names of history and of the deletions, the
/// predecessors of pairs that are added, and those of rows that are added to a plan. For most changes that is nothing,
/// and needs no memory. If a change sets a plan end, the lists need the deletions from then on too.
pub fn unknown_of(alloc: Global, lists: &Content, change: &Change) -> Result<Unknown, AllocError>
    ensures finds { IfOk result (λ unknown. FindsOut (content_of lists.now) unknown.history.items
        unknown.deletions.items (λ rest more. HasBars change.now.bounds rest more
        → KnowsNamed rest change.now more)) }
    ensures history { IfOk result (λ unknown. (serial : ℕ) → Contains unknown.history.items serial
        → IsNamed change.now (content_of lists.now) serial
        × (is_settled (content_of lists.now).sets serial ≡ false)) }
    ensures deletions { IfOk result (λ unknown. (serial : ℕ)
        → Contains unknown.deletions.items serial → IsNamedDeletion change.now serial
        × (is_settled_deletion (content_of lists.now).sets serial ≡ false)) }
{
    Ok(Unknown {
        history: unknown_history(alloc, lists, change)?,
        deletions: unknown_deletions(alloc, lists, change)?,
    })
}

// What has to be loaded of history before the change.
fn unknown_history(
    alloc: Global,
    lists: &Content,
    change: &Change,
) -> Result<Vec<Serial>, AllocError>
    ensures { IfOk result (λ serials. AddsUnsettled (is_settled (content_of lists.now).sets)
        (IsNamed change.now (content_of lists.now)) [] serials.items) }
{
    let mut serials = Vec::new(alloc);
    add_rows(&mut serials, lists, &change.history.gone)?;
    add_rows(&mut serials, lists, &change.history.changed)?;
    add_predecessors(&mut serials, lists, change.pairs.added.as_slice())?;
    add_of_new(&mut serials, lists, &change.ltp.put)?;
    add_of_new(&mut serials, lists, &change.cp.put)?;
    Ok(serials)
}

// What has to be loaded of the deletions before the change.
fn unknown_deletions(
    alloc: Global,
    lists: &Content,
    change: &Change,
) -> Result<Vec<Serial>, AllocError>
    ensures { IfOk result (λ serials.
        AddsUnsettled (is_settled_deletion (content_of lists.now).sets) (IsNamedDeletion change.now)
        [] serials.items) }
{
    let mut serials = Vec::new(alloc);
    add_deletions(&mut serials, lists, &change.deletions.gone)?;
    add_deletions(&mut serials, lists, &change.deletions.changed)?;
    Ok(serials)
}

// Whether the serial is not issued, or is planned.
fn is_elsewhere(lists: &Content, serial: Serial) -> bool
    ensures { result ≡ is_elsewhere (content_of lists.now).sets serial }
{
    lists.issued < serial.get() || lists.is_planned(serial)
}

// Whether the lists already know what is under the serial in history.
fn is_settled(lists: &Content, serial: Serial) -> bool
    ensures { result ≡ is_settled (content_of lists.now).sets serial }
{
    is_elsewhere(lists, serial) || lists.has_completed(serial)
}

// Whether the lists already know what is under the serial in the deletions.
fn is_settled_deletion(lists: &Content, serial: Serial) -> bool
    ensures { result ≡ is_settled_deletion (content_of lists.now).sets serial }
{
    is_elsewhere(lists, serial) || lists.has_deleted(serial)
}

// Adds the serial, unless it is known.
fn add_serial(serials: &mut Vec<Serial>, lists: &Content, serial: Serial) -> Result<(), AllocError>
    ensures { OnOk result (AddsUnsettled (is_settled (content_of lists.now).sets) (λ n. n ≡ serial)
        serials.old.items serials.new.items) }
{
    if !is_settled(lists, serial) {
        serials.push(serial)?;
    }
    Ok(())
}

// Adds the serial, unless it is known of the deletions.
fn add_deletion(
    serials: &mut Vec<Serial>,
    lists: &Content,
    serial: Serial,
) -> Result<(), AllocError>
    ensures { OnOk result (AddsUnsettled (is_settled_deletion (content_of lists.now).sets)
        (λ n. n ≡ serial) serials.old.items serials.new.items) }
{
    if !is_settled_deletion(lists, serial) {
        serials.push(serial)?;
    }
    Ok(())
}

// Adds the serials of the rows of history.
fn add_rows(serials: &mut Vec<Serial>, lists: &Content, rows: &[Row]) -> Result<(), AllocError>
    ensures { OnOk result (AddsUnsettled (is_settled (content_of lists.now).sets)
        (IsSerialIn of_row rows.now) serials.old.items serials.new.items) }
{
    for row in rows {
        add_serial(serials, lists, row.serial)?;
    }
    Ok(())
}

// Adds the serials of the deletions.
fn add_deletions(
    serials: &mut Vec<Serial>,
    lists: &Content,
    deletions: &[Deletion],
) -> Result<(), AllocError>
    ensures { OnOk result (AddsUnsettled (is_settled_deletion (content_of lists.now).sets)
        (IsSerialIn of_deletion deletions.now) serials.old.items serials.new.items) }
{
    for deletion in deletions {
        add_deletion(serials, lists, deletion.row.serial)?;
    }
    Ok(())
}

// Adds the predecessors of the pairs.
fn add_predecessors(
    serials: &mut Vec<Serial>,
    lists: &Content,
    pairs: &[Pair],
) -> Result<(), AllocError>
    ensures { OnOk result (AddsUnsettled (is_settled (content_of lists.now).sets)
        (IsPredecessorIn pairs.now) serials.old.items serials.new.items) }
{
    for pair in pairs {
        add_serial(serials, lists, pair.predecessor)?;
    }
    Ok(())
}

// Adds the predecessors of the serial.
fn add_predecessors_of(
    serials: &mut Vec<Serial>,
    lists: &Content,
    successor: Serial,
) -> Result<(), AllocError>
    ensures { OnOk result (AddsUnsettled (is_settled (content_of lists.now).sets)
        (IsPredecessorOf (content_of lists.now) successor) serials.old.items serials.new.items) }
{
    add_predecessors(serials, lists, lists.pairs.of_successor(successor))
}

// Adds the predecessors of the rows.
fn add_of_rows(serials: &mut Vec<Serial>, lists: &Content, rows: &[Row]) -> Result<(), AllocError>
    ensures { OnOk result (AddsUnsettled (is_settled (content_of lists.now).sets)
        (IsPredecessorOfRow (content_of lists.now) rows.now) serials.old.items serials.new.items) }
{
    for row in rows {
        add_predecessors_of(serials, lists, row.serial)?;
    }
    Ok(())
}

// Adds the predecessors of the rows, which are added to a plan. Those of what is planned are known, and what is not
// issued has none.
fn add_of_new<T: PlanRow>(
    serials: &mut Vec<Serial>,
    lists: &Content,
    rows: &[T],
) -> Result<(), AllocError>
    ensures { OnOk result (AddsUnsettled (is_settled (content_of lists.now).sets)
        (IsPredecessorOfNew T.row_of (content_of lists.now) rows.now)
        serials.old.items serials.new.items) }
{
    for row in rows {
        let serial = row.row().serial;
        if !is_elsewhere(lists, serial) {
            add_predecessors_of(serials, lists, serial)?;
        }
    }
    Ok(())
}
