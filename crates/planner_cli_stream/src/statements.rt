//! What a line can say: a change with its job number, a trial, or something to show.
use crate::{CountWord, JobNumber, KindWord, WhatWord};
use occurrences::{Action, Key};
use work_calendars::{App, Day, Moment, Name};

/// What planning does to the long-term plan by what the definitions name. It can be tried.
#[derive(Clone, Copy, Debug, PartialEq, Eq)]
pub enum PlanFunction {
    /// `create`: to make the plan from one day to another.
    Create { from: Day, to: Day },
    /// `extend`: to extend the plan to a day.
    Extend { to: Day },
    /// `modify-all`: to make the rest of the plan what the definitions name now.
    ModifyAll,
    /// `modify-one`: to do so for one application.
    ModifyOne { app: App },
}

/// What a daily plan does to the current plan. It can be tried.
#[derive(Clone, Copy, Debug, PartialEq, Eq)]
pub enum DailyFunction {
    /// `extend`: to extend the current plan to a moment.
    Extend { to: Moment },
    /// `extend` by days: to extend it by that many, all days or work days, 1 to 21.
    ExtendBy { days: u8, count: CountWord },
    /// `replan`: to make the current plan anew.
    Replan,
}

/// What a statement on one occurrence does to it.
#[derive(Clone, Copy, Debug, PartialEq, Eq)]
pub enum KeyAct {
    /// `ltp-add`: to add it to the long-term plan.
    Add,
    /// `ltp-delete`: to delete it from the long-term plan.
    Delete,
    /// `cp-add`: to add it to the current plan.
    AddCurrent,
    /// `cp-start` to `cp-delete`: to report on it in the current plan.
    Act(Action),
}

/// A statement that changes something, without its job number, and without data.
#[derive(Clone, Copy, Debug, PartialEq, Eq)]
pub enum ChangeStatement {
    /// `undefine`: to remove one name's definition. The name of a period has at most 8 characters; for run cycles and
    /// predecessors it is the application's.
    Undefine { kind: KindWord, name: Name },
    /// `ltp-create` to `ltp-modify-one`: to plan.
    Plan(PlanFunction),
    /// `dp-extend`, `dp-replan`: to make a daily plan.
    Daily(DailyFunction),
    /// `ltp-add`, `ltp-delete`, `cp-add` to `cp-delete`: to do something to the occurrence of that key.
    OnKey { key: Key, act: KeyAct },
}

/// A statement of a job stream.
#[derive(Clone, Copy, Debug, PartialEq, Eq)]
pub enum Statement {
    /// `define`: to merge the definitions of the data block that follows, under a job number.
    Define {
        kind: KindWord,
        job: JobNumber,
    },
    /// A change under a job number.
    Change {
        change: ChangeStatement,
        job: JobNumber,
    },
    /// `days`: to show the days that the application's run cycles name, from `from` to `to`.
    Days {
        app: App,
        from: Day,
        to: Day,
    },
    /// `ltp-trial`: to show what planning would do.
    PlanTrial(PlanFunction),
    /// `dp-trial`: to show what a daily plan would do.
    DailyTrial(DailyFunction),
    /// `list`: to show a set of rows.
    List {
        what: WhatWord,
    },
    /// `list` with `--app`: to show the rows of one application in a set.
    ListApp {
        what: WhatWord,
        app: App,
    },
}
