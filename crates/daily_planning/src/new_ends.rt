ghost use Rattle.std.specs.Prelude.{ℕ, IfNone, IfOk, IfSome};
ghost use Rattle.planner_machine.specs.NewEnd.{IsNewDay, IsNewEnd, IsNthFrom, default_work};
ghost use Rattle.planner_machine.specs.declared.counts.Count.TheVariants as counts;
ghost use Rattle.work_calendars.specs.Day.{IsDay};
ghost use Rattle.work_calendars.specs.WorkIndex.{is_work_in};

use app_definitions::Definitions;
use app_occurrences::work_index;
use planner_machine::Count;
use std::alloc::{AllocError, Global};
use work_calendars::{Day, Moment, WorkIndex};

/// The new plan end that `n` days give, at the minute of the old one: `n` days after its day, or the day after the
/// `n`-th work day of the default calendar from its day on, that day counted too. `None` where that is no day.
pub fn new_end(
    alloc: Global,
    all: &Definitions,
    plan_end: Moment,
    n: u8,
    count: Count,
) -> Result<Option<Moment>, AllocError>
    ensures some { IfOk result (λ end. IfSome end (IsNewEnd all.now plan_end n count)) }
    ensures none { IfOk result (λ end. IfNone end ((t : ℕ)
        → ¬ (IsNewEnd all.now plan_end n count t))) }
{
    match new_day(alloc, all, plan_end.day(), n, count)? {
        Some(day) => Ok(Some(Moment::new(day, plan_end.minute()))),
        None => Ok(None),
    }
}

// The day of the new plan end that n days from a day on give.
fn new_day(
    alloc: Global,
    all: &Definitions,
    from: Day,
    n: u8,
    count: Count,
) -> Result<Option<Day>, AllocError>
    ensures some { IfOk result (λ day. IfSome day (IsNewDay all.now from n count)) }
    ensures none { IfOk result (λ day. IfNone day ((x : ℕ) → IsDay x
        → ¬ (IsNewDay all.now from n count x))) }
{
    match count {
        Count::AllDays => Ok(from.plus(u32::from(n))),
        Count::WorkDays => day_after_work(alloc, all, from, n),
    }
}

// The day after the n-th work day of the default calendar from a day on.
fn day_after_work(
    alloc: Global,
    all: &Definitions,
    from: Day,
    n: u8,
) -> Result<Option<Day>, AllocError>
    ensures some { IfOk result (λ day. IfSome day (IsNewDay all.now from n counts.WorkDays)) }
    ensures none { IfOk result (λ day. IfNone day ((x : ℕ) → IsDay x
        → ¬ (IsNewDay all.now from n counts.WorkDays x))) }
{
    let index = work_index(alloc, all, &all.options.default_calendar)?;
    match nth_from(&index, from, n) {
        Some(day) => Ok(day.next()),
        None => Ok(None),
    }
}

// The n-th work day from a day on.
fn nth_from(index: &WorkIndex, from: Day, n: u8) -> Option<Day>
    ensures some { IfSome result (IsNthFrom (is_work_in index.now) from n) }
    ensures none { IfNone result ((x : ℕ) → ¬ (IsNthFrom (is_work_in index.now) from n x)) }
{
    index.nth((index.rank(from) + usize::from(n)).checked_sub(1)?)
}
