ghost use Rattle.std.specs.Prelude.{◌≡◌, ◌↔◌, ◌<◌, ◌++◌, ◌∷◌, [], List, IfOk, IfSome, IsTrue, filter};
ghost use Rattle.std.specs.Prelude.{is_none, length};
ghost use Rattle.std.specs.List.{filter_map};
ghost use Rattle.occurrences.specs.declared.row.Row.{Row as RowValue};
ghost use Rattle.planner_machine.specs.Modify.{draft_with, looks_at, stamped};
ghost use Rattle.long_term_plan.specs.Drafting.{DraftsRise};
ghost use Rattle.long_term_plan.specs.Modifying.{AreChanged, AreMet, IsDraftAt, looks, outcome};
ghost use Rattle.long_term_plan.specs.Modifying.{outcome_with};

use occurrences::{Key, Origin, Row};
use planner_machine::Draft;
use std::alloc::{AllocError, Global};
use work_calendars::App;

// The rows that stay if a statement looks at all applications, or at one, and these drafts are named for them; each as
// it is afterwards.
pub(crate) fn staying_rows(
    alloc: Global,
    rows: &[Row],
    only: &Option<App>,
    named: &[Draft],
) -> Result<Vec<Row>, AllocError>
    ensures { DraftsRise named.now
        → IfOk result (λ kept. kept.items ≡ filter_map (outcome only.now named.now) rows.now) }
{
    let mut kept = Vec::with_capacity(alloc, rows.len())?;
    for row in rows {
        if let Some(now) = outcome(row, only, named) {
            kept.push(now)?;
        }
    }
    Ok(kept)
}

// What happens to rows of the long-term plan.
pub(crate) struct Parted {
    // those that are withdrawn
    pub(crate) gone: Vec<Row>,
    // of those that stay those that change, as they are afterwards
    pub(crate) changed: Vec<Row>,
    // of each draft whether one of the rows has its key
    pub(crate) met: Vec<bool>,
}

// Looks for the draft of each row once.
pub(crate) fn parted_rows(
    alloc: Global,
    rows: &[Row],
    only: &Option<App>,
    named: &[Draft],
) -> Result<Parted, AllocError>
    ensures gone { DraftsRise named.now → IfOk result (λ parted. parted.gone.items
        ≡ filter (λ row. is_none (outcome only.now named.now row)) rows.now) }
    ensures changed { DraftsRise named.now → IfOk result (λ parted.
        AreChanged (outcome only.now named.now) rows.now parted.changed.items) }
    ensures met { DraftsRise named.now → IfOk result (λ parted.
        AreMet rows.now named.now parted.met.items) }
    ensures count { IfOk result (λ parted. length parted.met.items ≡ length named.now) }
{
    let mut gone = Vec::new(alloc);
    let mut changed = Vec::new(alloc);
    let mut met = vec![in alloc; false; named.len()]?;
    for row in rows {
        let draft = met_draft(&row.key, named, &mut met);
        match outcome_with(row, only, &draft) {
            Some(now) => {
                if !is_same(&now, row) {
                    changed.push(now)?;
                }
            }
            None => gone.push(*row)?,
        }
    }
    Ok(Parted { gone, changed, met })
}

// The draft of that key, which is then marked.
fn met_draft(key: &Key, named: &[Draft], met: &mut Vec<bool>) -> Option<Draft>
    requires { length met.old.items ≡ length named.now }
    ensures draft { DraftsRise named.now → result ≡ draft_with key.now named.now }
    ensures met { DraftsRise named.now → (rows : List RowValue) (row : RowValue)
        → row.key ≡ key.now → AreMet rows named.now met.old.items
        → AreMet (rows ++ row ∷ []) named.now met.new.items }
    ensures count { length met.new.items ≡ length met.old.items }
{
    let at = draft_at(key, named)?;
    met[at] = true;
    Some(named[at])
}

// Whether both rows are the same.
fn is_same(one: &Row, other: &Row) -> bool
    ensures { IsTrue result ↔ (one.now ≡ other.now) }
{
    *one == *other
}

// What happens to a row: a generated one of an application that the statement looks at gets what is named now under
// its key, or is withdrawn.
fn outcome(row: &Row, only: &Option<App>, named: &[Draft]) -> Option<Row>
    ensures { DraftsRise named.now → result ≡ outcome only.now named.now row.now }
{
    if !looks_at(row, only) {
        return Some(*row);
    }
    let draft = draft_with(&row.key, named)?;
    Some(stamped(row, &draft))
}

// The same, if that draft is named under its key, or none.
fn outcome_with(row: &Row, only: &Option<App>, draft: &Option<Draft>) -> Option<Row>
    ensures { result ≡ outcome_with only.now draft.now row.now }
{
    if !looks_at(row, only) {
        return Some(*row);
    }
    let Some(draft) = draft else {
        return None;
    };
    Some(stamped(row, draft))
}

// The row as the draft names it.
fn stamped(row: &Row, draft: &Draft) -> Row
    ensures { result ≡ stamped draft.now row.now }
{
    Row {
        key: row.key,
        serial: row.serial,
        deadline: draft.deadline,
        origin: draft.origin,
    }
}

// Whether the statement looks at the row.
fn looks_at(row: &Row, only: &Option<App>) -> bool
    ensures { result ≡ looks_at (looks only.now) row.now }
{
    match row.origin {
        Origin::Generated(_) => looks(&row.key.app, only),
        Origin::Added => false,
    }
}

// Whether the statement looks at the application.
pub(crate) fn looks(app: &App, only: &Option<App>) -> bool
    ensures { result ≡ looks only.now app.now }
{
    match only {
        Some(one) => *app == *one,
        None => true,
    }
}

// The draft of that key.
fn draft_with(key: &Key, named: &[Draft]) -> Option<Draft>
    ensures { DraftsRise named.now → result ≡ draft_with key.now named.now }
{
    let at = draft_at(key, named)?;
    Some(named[at])
}

// The place of the draft of that key.
fn draft_at(key: &Key, named: &[Draft]) -> Option<usize>
    ensures within { IfSome result (λ at. at < length named.now) }
    ensures is { DraftsRise named.now → IsDraftAt key.now named.now result }
{
    match named.binary_search_by_key(key, |draft| draft.key) {
        Ok(at) => Some(at),
        Err(_) => None,
    }
}
