//! `long_term_plan` and `daily_planning`: what each statement decides over a window.
use app_definitions::Definitions;
use daily_planning::Count;
use occurrences::{Action, Key};
use plan_store::{Verdict, View};
use std::alloc::Global;
use work_calendars::{App, Day, Memory, Moment};

pub fn create(alloc: Global, view: &View<'_>, from: Day, to: Day) -> Result<Verdict, Memory> {
    long_term_plan::create(alloc, view, from, to)
}

pub fn extend(alloc: Global, view: &View<'_>, to: Day) -> Result<Verdict, Memory> {
    long_term_plan::extend(alloc, view, to)
}

pub fn modify_all(alloc: Global, view: &View<'_>) -> Result<Verdict, Memory> {
    long_term_plan::modify_all(alloc, view)
}

pub fn modify_one(alloc: Global, view: &View<'_>, app: &App) -> Result<Verdict, Memory> {
    long_term_plan::modify_one(alloc, view, app)
}

pub fn add(alloc: Global, view: &View<'_>, key: &Key) -> Result<Verdict, Memory> {
    long_term_plan::add(alloc, view, key)
}

pub fn delete(alloc: Global, view: &View<'_>, key: &Key) -> Result<Verdict, Memory> {
    long_term_plan::delete(alloc, view, key)
}

pub fn daily_extend(alloc: Global, view: &View<'_>, to: Moment) -> Result<Verdict, Memory> {
    daily_planning::extend(alloc, view, to)
}

pub fn replan(alloc: Global, view: &View<'_>) -> Result<Verdict, Memory> {
    daily_planning::replan(alloc, view)
}

pub fn cp_add(alloc: Global, view: &View<'_>, key: &Key) -> Result<Verdict, Memory> {
    daily_planning::cp_add(alloc, view, key)
}

pub fn cp_action(
    alloc: Global,
    view: &View<'_>,
    key: &Key,
    action: Action,
) -> Result<Verdict, Memory> {
    daily_planning::cp_action(alloc, view, key, action)
}

pub fn new_end(
    alloc: Global,
    definitions: &Definitions,
    plan_end: Moment,
    n: u8,
    count: Count,
) -> Result<Option<Moment>, Memory> {
    daily_planning::new_end(alloc, definitions, plan_end, n, count)
}

/// How a record spells a count.
pub fn count_letter(count: Count) -> u8 {
    match count {
        Count::AllDays => b'A',
        Count::WorkDays => b'W',
    }
}
