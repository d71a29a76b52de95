// Applications.

ghost use Rattle.std.specs.Prelude.{◌↔◌, IsTrue, IfSome};
ghost use Rattle.app_definition_records.specs.Applications.{FitsApplication, IsApplicationOf};
ghost use Rattle.app_definition_records.specs.FieldCounts.{HasApplicationFields};
ghost use Rattle.app_definition_soundness.specs.Given.{IsGiven};
ghost use Rattle.app_definition_soundness.specs.Values.{IsApplicationValue};
ghost use Rattle.work_calendars.specs.Name.{IsName};

use crate::given::Given;
use crate::names::is_name;
use app_definitions::Application;
use std::alloc::{AllocError, Global};
use work_calendars::Name;

fn is_calendar_name(name: &Option<Name>) -> bool
    ensures { IsTrue result ↔ IfSome name.now IsName }
{
    match name {
        Some(name) => is_name(name),
        None => true,
    }
}

// Whether the names are names.
fn is_application(name: &Name, application: &Application) -> bool
    ensures { IsTrue result ↔ IsApplicationValue name.now application.now }
{
    is_name(name) && is_calendar_name(&application.calendar)
}

impl Given for Application {
    ghost IsGiven = { IsGiven HasApplicationFields FitsApplication IsApplicationOf };

    fn is_given(&self, _alloc: Global, name: &Name) -> Result<bool, AllocError> {
        Ok(is_application(name, self))
    }
}
