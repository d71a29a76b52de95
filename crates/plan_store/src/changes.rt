ghost use Rattle.std.specs.Prelude.{◌≡◌, []};
ghost use Rattle.plan_store.specs.Changes.{ChangesNothing};

use app_definitions::{Block, Kind};
use external_dependencies::{PairChange, Pairs};
use occurrences::{CurrentRow, Deletion, Refusal, Reply, Row};
use plan_store_lists::{AppList, LinkBlocks};
use planner_machine::{Bounds, Job};
use std::alloc::Global;
use work_calendars::Name;

/// What a change makes of the definitions.
#[derive(Drop)]
pub enum DefinitionChange {
    /// They stay.
    AsBefore,
    /// A block's definitions are added, each in place of the one of its kind and name.
    Merged(Block),
    /// The definition of one kind and name is removed.
    Removed { kind: Kind, name: Name },
}

/// Lists that are put into force.
#[derive(Drop)]
pub enum NewLists {
    /// All lists.
    All(LinkBlocks),
    /// The list of one application; the others stay.
    One(AppList),
}

/// What a change makes of one set of rows. Each list may be given in any order.
#[derive(Drop)]
pub struct Moves<T> {
    /// What is removed, as it is in the set.
    pub gone: Vec<T>,
    /// What changes and keeps its serial, application and input arrival, as it is afterwards. It needs no room.
    pub changed: Vec<T>,
    /// What is added, under serials that the set doesn't have.
    pub put: Vec<T>,
}

impl<T> Moves<T> {
    /// Nothing moves.
    pub fn none(alloc: Global) -> Moves<T>
        ensures gone { result.gone.items ≡ [] }
        ensures changed { result.changed.items ≡ [] }
        ensures put { result.put.items ≡ [] }
    {
        Moves {
            gone: Vec::new(alloc),
            changed: Vec::new(alloc),
            put: Vec::new(alloc),
        }
    }
}

/// What a statement changes.
#[derive(Drop)]
pub struct Change {
    /// In the definitions.
    pub definitions: DefinitionChange,
    /// The new bounds; `None` where they stay.
    pub bounds: Option<Bounds>,
    /// The new number of serials issued; `None` where it stays.
    pub issued: Option<u32>,
    /// The new lists in force; `None` where they stay.
    pub in_force: Option<NewLists>,
    /// In the long-term plan.
    pub ltp: Moves<Row>,
    /// In the current plan.
    pub cp: Moves<CurrentRow>,
    /// In history.
    pub history: Moves<Row>,
    /// In the deletions.
    pub deletions: Moves<Deletion>,
    /// In the pairs.
    pub pairs: PairChange,
    /// A job to keep, under a number that none has.
    pub job: Option<Job>,
}

impl Change {
    /// Nothing changes.
    pub fn none(alloc: Global) -> Change
        ensures { ChangesNothing result }
    {
        Change {
            definitions: DefinitionChange::AsBefore,
            bounds: None,
            issued: None,
            in_force: None,
            ltp: Moves::none(alloc),
            cp: Moves::none(alloc),
            history: Moves::none(alloc),
            deletions: Moves::none(alloc),
            pairs: PairChange {
                removed: Pairs::new(alloc),
                added: Pairs::new(alloc),
            },
            job: None,
        }
    }
}

/// The verdict of a decision.
#[derive(Drop)]
pub enum Verdict {
    /// The statement is accepted: what it changes, and its reply.
    Done(Change, Reply),
    /// It is refused, and changes nothing.
    Refused(Refusal),
}
