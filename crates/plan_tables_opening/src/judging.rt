// What is found of a database that has the tables of the plan, and what is reported of it.

ghost use Rattle.std.specs.Prelude.{◌≡◌};
ghost use Rattle.plan_tables_opening.specs.Judging.{found_by, told};

use crate::faults::{OpenFault, fault_for};
use plan_store::Content;
use sqlite::Error;
use std::alloc::AllocError;

/// What is found of a database that has the tables of the plan.
#[derive(Drop)]
pub(crate) enum Judged {
    /// It has this content, which is sound.
    Sound(Content),
    /// Its version is known, and it has no sound content.
    Unsound,
    /// Its version is not known.
    Unknown,
    /// Memory was refused while it was judged.
    Unjudged,
}

/// What a judgement that may be refused memory finds.
pub(crate) fn found_by(found: Result<Option<Content>, AllocError>) -> Judged
    ensures { result ≡ found_by found }
{
    match found {
        Ok(Some(content)) => Judged::Sound(content),
        Ok(None) => Judged::Unsound,
        Err(_) => Judged::Unjudged,
    }
}

/// What is reported of it, or of a call that failed.
pub(crate) fn tell(found: Result<Judged, Error>) -> Result<Content, OpenFault>
    ensures { result ≡ told found }
{
    match found {
        Ok(Judged::Sound(content)) => Ok(content),
        Ok(Judged::Unsound) => Err(OpenFault::Rows),
        Ok(Judged::Unknown) => Err(OpenFault::Unopened),
        Ok(Judged::Unjudged) => Err(OpenFault::Memory),
        Err(error) => Err(fault_for(&error, OpenFault::Tables)),
    }
}
