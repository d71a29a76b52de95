// What a block replaces, and how that is restored.

ghost use Rattle.std.specs.Prelude.{◌≡◌, IfOk};
ghost use Rattle.app_definitions.specs.Replacing.{CanPutBack, put_back, replaced_by};

use crate::definitions::Definitions;
use crate::kinds::Block;
use crate::options::Options;
use app_definition_records::{Application, ByName, DefinedPeriod, Predecessors, RunCycles};
use std::alloc::AllocError;
use work_calendars::Calendar;

/// What the names of a block had before: the definition of each, or none where it had none.
#[derive(Drop)]
pub enum Replaced {
    /// Applications by name.
    Applications(ByName<Option<Application>>),
    /// Calendars by name.
    Calendars(ByName<Option<Calendar>>),
    /// Periods by name.
    Periods(ByName<Option<DefinedPeriod>>),
    /// Lists of predecessors by application.
    Predecessors(ByName<Option<Predecessors>>),
    /// Run cycles by application.
    RunCycles(ByName<Option<RunCycles>>),
    /// The options.
    Options(Options),
}

impl Definitions {
    /// A copy of what the names of the block have now.
    pub fn replaced_by(&self, block: &Block) -> Result<Replaced, AllocError>
        ensures { IfOk result (λ was. was ≡ replaced_by self.now block.now) }
    {
        match block {
            Block::Applications(more) => Ok(Replaced::Applications(
                self.applications.replaced_by(more)?,
            )),
            Block::Calendars(more) => Ok(Replaced::Calendars(self.calendars.replaced_by(more)?)),
            Block::Periods(more) => Ok(Replaced::Periods(self.periods.replaced_by(more)?)),
            Block::Predecessors(more) => Ok(Replaced::Predecessors(
                self.predecessors.replaced_by(more)?,
            )),
            Block::RunCycles(more) => Ok(Replaced::RunCycles(self.run_cycles.replaced_by(more)?)),
            Block::Options(_) => Ok(Replaced::Options(self.options)),
        }
    }

    /// Restores what the names of a block had before it was merged. Allocates no memory.
    pub fn put_back(&mut self, was: Replaced)
        requires { CanPutBack was self.old }
        ensures { self.new ≡ put_back was self.old }
    {
        match was {
            Replaced::Applications(was) => self.applications.put_back(was),
            Replaced::Calendars(was) => self.calendars.put_back(was),
            Replaced::Periods(was) => self.periods.put_back(was),
            Replaced::Predecessors(was) => self.predecessors.put_back(was),
            Replaced::RunCycles(was) => self.run_cycles.put_back(was),
            Replaced::Options(options) => self.options = options,
        }
    }
}
