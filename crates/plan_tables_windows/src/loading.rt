// What was fetched is loaded into lists.

ghost use Rattle.plan_store.specs.Contents.{content_of};
ghost use Rattle.plan_store.specs.Parts.{with_completed, with_deleted};
ghost use Rattle.plan_tables_windows.specs.Loading.{Loads, LoadsEach};

use occurrences::{Deletion, Row};
use plan_store::Content;
use plan_tables_lookups::TableFault;
use std::alloc::Global;

/// Loads a row of history into the lists, unless they have one of its serial.
pub(crate) fn load_row(alloc: Global, lists: &mut Content, row: Row) -> Result<(), TableFault>
    ensures { Loads (with_completed row (content_of lists.old)) (content_of lists.old)
        (content_of lists.new) result }
{
    lists.load_completed(alloc, row)?;
    Ok(())
}

/// Loads a deletion into the lists, unless they have one of its serial.
pub(crate) fn load_deletion(
    alloc: Global,
    lists: &mut Content,
    deletion: Deletion,
) -> Result<(), TableFault>
    ensures { Loads (with_deleted deletion (content_of lists.old)) (content_of lists.old)
        (content_of lists.new) result }
{
    lists.load_deleted(alloc, deletion)?;
    Ok(())
}

/// Loads deletions into the lists, each unless they have one of its serial.
pub(crate) fn load_deletions(
    alloc: Global,
    lists: &mut Content,
    deletions: &[Deletion],
) -> Result<(), TableFault>
    ensures { LoadsEach deletions.now (content_of lists.old) (content_of lists.new) result }
{
    for deletion in deletions {
        load_deletion(alloc, lists, *deletion)?;
    }
    Ok(())
}
