// What one row of a table encodes.

ghost use Rattle.std.specs.Prelude.{◌≡◌, None, IfOk, IfSome};
ghost use Rattle.sqlite.specs.Order.{Row as Values};
ghost use Rattle.occurrences.specs.Serial.{IsSerial};
ghost use Rattle.occurrences.specs.declared.row.Row.{Row as RowValue};
ghost use Rattle.occurrences.specs.declared.place.CurrentRow.{CurrentRow as CurrentValue};
ghost use Rattle.occurrences.specs.declared.place.Deletion.{Deletion as DeletionValue};
ghost use Rattle.external_dependencies.specs.declared.links.Link.{Link as LinkValue};
ghost use Rattle.planner_machine.specs.Sound.{IsLink, IsRow};
ghost use Rattle.plan_tables_content.specs.Facts.{row_values, current_values, deletion_values, link_values};
ghost use Rattle.plan_tables_loading.specs.Cells.{IsNumberedRow, Leads};

use crate::cells::{letter_at, limit_at, moment_at, name_at, origin_at, serial_at};
use external_dependencies::Link;
use occurrences::{CurrentRow, Deletion, Key, Reason, Row, Status};
use sqlite::Row as Cells;
use std::alloc::{AllocError, Global};

/// What can be encoded in one row of a table.
pub trait Decode: Sized {
    // the values of its row
    ghost values: { Self → Values };

    // its parts have their forms and their ranges
    ghost has_form: { Self → Type 0 };

    /// What the row encodes; `None` if nothing has these values.
    fn decode(alloc: Global, cells: &Cells) -> Result<Option<Self>, AllocError>
        ensures told { IfOk result (λ found. IfSome found (λ x. values x ≡ cells.now)) }
        ensures none { IfOk result (λ found. found ≡ None → (x : Self) → has_form x
            → values x ≡ cells.now → ⊥) };
}

// The occurrence that the first five cells encode.
fn leading_row(cells: &Cells) -> Option<Row>
    ensures value { IfSome result (λ row. Leads row cells.now) }
    ensures none { result ≡ None → (row : RowValue) → IsRow row → IsSerial row.serial
        → Leads row cells.now → ⊥ }
{
    let serial = serial_at(cells, 0)?;
    let app = name_at(cells, 1)?;
    let ia = moment_at(cells, 2)?;
    let deadline = moment_at(cells, 3)?;
    let origin = origin_at(cells, 4)?;
    Some(Row {
        key: Key { ia, app },
        serial,
        deadline,
        origin,
    })
}

#[tactic(auto, using(crate::proofs::CellLemmas::of_row))]
fn decode_row(cells: &Cells) -> Option<Row>
    ensures value { IfSome result (λ row. row_values row ≡ cells.now) }
    ensures none { result ≡ None → (row : RowValue) → IsNumberedRow row → row_values row ≡ cells.now
        → ⊥ }
{
    if cells.column_count() != 5 {
        return None;
    }
    leading_row(cells)
}

#[tactic(auto, using(crate::proofs::CellLemmas::of_current))]
fn decode_current(cells: &Cells) -> Option<CurrentRow>
    ensures value { IfSome result (λ current. current_values current ≡ cells.now) }
    ensures none { result ≡ None → (current : CurrentValue) → IsNumberedRow current.row
        → current_values current ≡ cells.now → ⊥ }
{
    if cells.column_count() != 6 {
        return None;
    }
    let row = leading_row(cells)?;
    let letter = letter_at(cells, 5)?;
    let status = Status::from_letter(letter)?;
    Some(CurrentRow { row, status })
}

#[tactic(auto, using(crate::proofs::CellLemmas::of_deletion))]
fn decode_deletion(cells: &Cells) -> Option<Deletion>
    ensures value { IfSome result (λ deletion. deletion_values deletion ≡ cells.now) }
    ensures none { result ≡ None → (deletion : DeletionValue) → IsNumberedRow deletion.row
        → deletion_values deletion ≡ cells.now → ⊥ }
{
    if cells.column_count() != 6 {
        return None;
    }
    let row = leading_row(cells)?;
    let letter = letter_at(cells, 5)?;
    let reason = Reason::from_letter(letter)?;
    Some(Deletion { row, reason })
}

#[tactic(auto, using(crate::proofs::CellLemmas::link_from, crate::proofs::CellLemmas::link_is))]
fn decode_link(cells: &Cells) -> Option<Link>
    ensures value { IfSome result (λ link. link_values link ≡ cells.now) }
    ensures none { result ≡ None → (link : LinkValue) → IsLink link → link_values link ≡ cells.now
        → ⊥ }
{
    if cells.column_count() != 3 {
        return None;
    }
    let app = name_at(cells, 0)?;
    let predecessor = name_at(cells, 1)?;
    let within = limit_at(cells, 2)?;
    Some(Link {
        app,
        predecessor,
        within,
    })
}

impl Decode for Row {
    ghost values = { row_values };

    ghost has_form = { IsNumberedRow };

    fn decode(_: Global, cells: &Cells) -> Result<Option<Row>, AllocError> {
        Ok(decode_row(cells))
    }
}

impl Decode for CurrentRow {
    ghost values = { current_values };

    ghost has_form = { λ current. IsNumberedRow current.row };

    fn decode(_: Global, cells: &Cells) -> Result<Option<CurrentRow>, AllocError> {
        Ok(decode_current(cells))
    }
}

impl Decode for Deletion {
    ghost values = { deletion_values };

    ghost has_form = { λ deletion. IsNumberedRow deletion.row };

    fn decode(_: Global, cells: &Cells) -> Result<Option<Deletion>, AllocError> {
        Ok(decode_deletion(cells))
    }
}

impl Decode for Link {
    ghost values = { link_values };

    ghost has_form = { IsLink };

    fn decode(_: Global, cells: &Cells) -> Result<Option<Link>, AllocError> {
        Ok(decode_link(cells))
    }
}
