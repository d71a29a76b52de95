// All definitions.

ghost use Rattle.std.specs.Prelude.{◌≡◌, ◌↔◌, IsTrue, IfOk, OnOk, OnErr};
ghost use Rattle.app_definitions.specs.Definitions.{merged, names_given, without, IsDefined, no_definitions};

use crate::kinds::{Block, Kind};
use crate::options::Options;
use app_definition_records::{Application, ByName, DefinedPeriod, Predecessors, RunCycles};
use std::alloc::{AllocError, Global};
use work_calendars::{Calendar, Name};

/// The definitions that the planner works from.
#[derive(Drop)]
pub struct Definitions {
    /// Applications by name.
    pub applications: ByName<Application>,
    /// Calendars by name.
    pub calendars: ByName<Calendar>,
    /// Periods by name.
    pub periods: ByName<DefinedPeriod>,
    /// Lists of predecessors by application.
    pub predecessors: ByName<Predecessors>,
    /// Run cycles by application.
    pub run_cycles: ByName<RunCycles>,
    /// The options.
    pub options: Options,
}

impl Definitions {
    /// No definitions, and the options as they are where none are given.
    pub fn new(alloc: Global) -> Definitions
        ensures { result ≡ no_definitions }
    {
        Definitions {
            applications: ByName::new(alloc),
            calendars: ByName::new(alloc),
            periods: ByName::new(alloc),
            predecessors: ByName::new(alloc),
            run_cycles: ByName::new(alloc),
            options: Options::new(),
        }
    }

    // Copies of the calendars and the periods.
    fn copied_days(&self) -> Result<(ByName<Calendar>, ByName<DefinedPeriod>), AllocError>
        ensures calendars { IfOk result (λ copy. copy.0 ≡ self.now.calendars) }
        ensures periods { IfOk result (λ copy. copy.1 ≡ self.now.periods) }
    {
        Ok((self.calendars.clone()?, self.periods.clone()?))
    }

    // Copies of the lists of predecessors and the run cycles.
    fn copied_lists(&self) -> Result<(ByName<Predecessors>, ByName<RunCycles>), AllocError>
        ensures predecessors { IfOk result (λ copy. copy.0 ≡ self.now.predecessors) }
        ensures run_cycles { IfOk result (λ copy. copy.1 ≡ self.now.run_cycles) }
    {
        Ok((self.predecessors.clone()?, self.run_cycles.clone()?))
    }

    /// An owned copy.
    pub fn clone(&self) -> Result<Definitions, AllocError>
        ensures { IfOk result (λ copy. copy ≡ self.now) }
    {
        let applications = self.applications.clone()?;
        let (calendars, periods) = self.copied_days()?;
        let (predecessors, run_cycles) = self.copied_lists()?;
        Ok(Definitions {
            applications,
            calendars,
            periods,
            predecessors,
            run_cycles,
            options: self.options,
        })
    }

    /// Merges a block: each of its definitions replaces the one of its name. Returns how many names the block gave. If
    /// memory is refused, nothing changes.
    pub fn merge(&mut self, block: Block) -> Result<usize, AllocError>
        ensures ok { OnOk result (self.new ≡ merged self.old block) }
        ensures counted { IfOk result (λ n. n ≡ names_given block) }
        ensures err { OnErr result (self.new ≡ self.old) }
    {
        match block {
            Block::Applications(applications) => self.applications.append(applications),
            Block::Calendars(calendars) => self.calendars.append(calendars),
            Block::Periods(periods) => self.periods.append(periods),
            Block::Predecessors(predecessors) => self.predecessors.append(predecessors),
            Block::RunCycles(run_cycles) => self.run_cycles.append(run_cycles),
            Block::Options(options) => {
                self.options = options;
                Ok(1)
            }
        }
    }

    /// Removes the definition of one name and kind, and returns whether there was one. Options have no name.
    pub fn remove(&mut self, kind: Kind, name: &Name) -> bool
        ensures found { IsTrue result ↔ IsDefined self.old kind name.now }
        ensures removed { self.new ≡ without self.old kind name.now }
    {
        match kind {
            Kind::Applications => self.applications.remove(name),
            Kind::Calendars => self.calendars.remove(name),
            Kind::Periods => self.periods.remove(name),
            Kind::Predecessors => self.predecessors.remove(name),
            Kind::RunCycles => self.run_cycles.remove(name),
            Kind::Options => false,
        }
    }
}
