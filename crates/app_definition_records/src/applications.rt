// Applications.

ghost use Rattle.csv.specs.Records.{fields_of};
ghost use Rattle.app_definition_records.specs.Applications.{FitsApplication, IsApplicationOf};
ghost use Rattle.app_definition_records.specs.ByName.{Begins};
ghost use Rattle.app_definition_records.specs.FieldCounts.{HasApplicationFields};

use crate::by_name::Definition;
use crate::columns::{APPLICATION_CALENDAR, APPLICATION_FIELDS, APPLICATION_STATUS};
use crate::fields::{field_at, optional_name_of};
use csv::ByteRecord;
use std::alloc::{AllocError, Global};
use work_calendars::Name;

/// An application.
#[derive(Clone, Copy, Debug)]
pub struct Application {
    /// Whether it is active. Otherwise it is pending, and not planned.
    pub active: bool,
    /// The name of its calendar, or none for the default calendar.
    pub calendar: Option<Name>,
}

// The application that a record gives, or none where the record is faulty.
fn application_of(row: &ByteRecord) -> Option<Application>
    ensures { Begins FitsApplication IsApplicationOf (fields_of row.now) result }
{
    let active = match field_at(row, APPLICATION_STATUS) {
        b"A" => true,
        b"P" => false,
        _ => return None,
    };
    let calendar = optional_name_of(field_at(row, APPLICATION_CALENDAR))?;
    Some(Application { active, calendar })
}

impl Definition for Application {
    ghost HasFields = { HasApplicationFields };

    ghost FitsName = { FitsApplication };

    ghost IsMadeOf = { IsApplicationOf };

    fn has_fields(count: usize) -> bool {
        count == APPLICATION_FIELDS
    }

    fn begin(_alloc: Global, row: &ByteRecord) -> Result<Option<Application>, AllocError> {
        Ok(application_of(row))
    }

    fn copy(&self) -> Result<Application, AllocError> {
        Ok(*self)
    }

    fn join(&mut self, _row: &ByteRecord) -> Result<bool, AllocError> {
        Ok(false)
    }
}
