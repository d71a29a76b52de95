// Rows of applications.

ghost use Rattle.std.specs.Prelude.{◌≡◌, ◌↔◌, ⊤, IfOk, IfSome, IsSome, IsTrue};
ghost use Rattle.plan_tables_content.specs.Content.{IsApplicationRow};
ghost use Rattle.plan_tables_content.specs.Facts.{application_values};
ghost use Rattle.std.proofs.Common.{ap};
ghost use Rattle.sqlite.specs.Order.{Row as Values, column};
ghost use Rattle.sqlite.specs.declared.types.Value.TheVariants.{Text};
ghost use Rattle.work_calendars.specs.Name.{IsName};
ghost use Rattle.app_definition_records.specs.declared.applications.Application.{Application as ApplicationValue};
ghost use Rattle.plan_tables_content.specs.Content.{ByName as Defined};
ghost use Rattle.plan_tables_definitions.specs.Adding.{HaveOwnKeys};
ghost use Rattle.plan_tables_definitions.specs.Drafted.{IsSoundApplication, application_named};
ghost use Rattle.plan_tables_definitions.specs.Gathering.{AreSound};
ghost use Rattle.plan_tables_definitions.specs.Storing.{AreRowsOf};

use crate::cells::{flag, optional_name, row_of};
use crate::columns::{flag_at, optional_name_at};
use crate::encoding::{Encoding, rows_of};
use crate::gathering::{Draft, gathered};
use app_definitions::{Application, ByName};
use sqlite::types::ValueRef;
use sqlite_value::row::Row;
use std::alloc::{AllocError, Global};
use work_calendars::Name;

// The row of an application.
fn application_row(alloc: Global, name: &Name, of: &Application) -> Result<Row, AllocError>
    ensures { IfOk result (λ row. row ≡ application_values name.now of.now) }
{
    row_of(
        alloc,
        &[
            ValueRef::Text(name.as_bytes()),
            flag(of.active),
            optional_name(&of.calendar),
        ],
    )
}

struct ApplicationRows;

impl Encoding for ApplicationRows {
    type Of = Application;

    ghost IsRow = { IsApplicationRow };

    ghost cells = { 0 };

    ghost named = { λ name d v is. ap (λ (r : Values). column r 0) is };

    fn push(
        alloc: Global,
        rows: &mut Vec<Row>,
        name: &Name,
        definition: &Application,
    ) -> Result<(), AllocError> {
        let row = application_row(alloc, name, definition)?;
        rows.push(row)?;
        Ok(())
    }
}

/// The rows of the applications in the table `application`.
pub fn application_rows(
    alloc: Global,
    applications: &ByName<Application>,
) -> Result<Vec<Row>, AllocError>
    ensures rows { IfOk result (λ rows. AreRowsOf IsApplicationRow rows.items applications.now) }
    ensures keys { IfOk result (λ rows. HaveOwnKeys 1 rows.items) }
{
    rows_of::<ApplicationRows>(alloc, applications)
}

// The application that a row of this name encodes.
fn application_at(row: &Row, name: &Name) -> Option<Application>
    requires { column row.now 0 ≡ Text name.now }
    ensures value { IfSome result (λ a. row.now ≡ application_values name.now a) }
    ensures found { (a : ApplicationValue) → IfSome a.calendar IsName
        → row.now ≡ application_values name.now a
        → result ≡ Some a }
{
    if row.len() != 3 {
        return None;
    }
    let active = flag_at(row, 1)?;
    let calendar = optional_name_at(row, 2)?;
    Some(Application { active, calendar })
}

fn is_same_name(name: &Option<Name>, other: &Option<Name>) -> bool
    ensures { IsTrue result ↔ (name.now ≡ other.now) }
{
    match (name, other) {
        (Some(name), Some(other)) => name == other,
        (None, None) => true,
        _ => false,
    }
}

fn is_same(application: &Application, other: &Application) -> bool
    ensures { IsTrue result ↔ (application.now ≡ other.now) }
{
    application.active == other.active && is_same_name(&application.calendar, &other.calendar)
}

// The one application that the rows encode, if there was a row.
#[derive(Drop)]
struct ApplicationDraft {
    application: Option<Application>,
}

impl Draft for ApplicationDraft {
    ghost use Rattle.plan_tables_definitions.specs.Drafted.{IsReadApplication, IsSoundApplication};

    type Of = Application;

    ghost IsRow = { IsApplicationRow };

    ghost IsSound = { IsSoundApplication };

    ghost IsTold = { λ _. ⊤ };

    ghost IsRead = { λ name x. IsReadApplication name x.application };

    fn begin(_alloc: Global) -> ApplicationDraft {
        ApplicationDraft { application: None }
    }

    fn join(&mut self, name: &Name, row: &Row) -> Result<bool, AllocError> {
        let Some(read) = application_at(row, name) else {
            return Ok(false);
        };
        match self.application {
            Some(application) => Ok(is_same(&application, &read)),
            None => {
                self.application = Some(read);
                Ok(true)
            }
        }
    }

    fn finish(&self, _alloc: Global, _name: &Name) -> Result<Option<Application>, AllocError> {
        Ok(self.application)
    }

    ghost named = { λ name d v is. ap (λ (r : Values). column r 0) is };

    ghost read_named = { λ name x v is. application_named name x.application v is };
}

/// The applications that have exactly these rows, or none where no sound ones have.
pub(crate) fn read_applications(
    alloc: Global,
    rows: &[Row],
) -> Result<Option<ByName<Application>>, AllocError>
    ensures made { IfOk result (λ found. IfSome found (AreRowsOf IsApplicationRow rows.now)) }
    ensures found { IfOk result (λ found. (all : Defined ApplicationValue)
        → AreSound IsSoundApplication all
        → AreRowsOf IsApplicationRow rows.now all → IsSome found) }
{
    gathered::<ApplicationDraft>(alloc, rows)
}
