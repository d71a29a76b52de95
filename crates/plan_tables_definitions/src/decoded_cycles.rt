// Run cycles as their rows encode them, without the application and the offsets.

ghost use Rattle.std.specs.Prelude.{◌≡◌, ◌<◌, ◌^◌, ℕ, Option, IfSome};
ghost use Rattle.sqlite.specs.Order.{column};
ghost use Rattle.sqlite.specs.declared.types.Value.TheVariants.{Text};
ghost use Rattle.run_cycles.specs.declared.cycles.CycleType.{CycleType as TypeValue};
ghost use Rattle.run_cycles.specs.declared.cycles.Deadline.{Deadline as DeadlineValue};
ghost use Rattle.run_cycles.specs.declared.rules.Rule.{Rule as RuleValue};
ghost use Rattle.app_definition_records.specs.CycleRecords.{rule_text};
ghost use Rattle.plan_tables_content.specs.Facts.{deadline_of, natural};
ghost use Rattle.plan_tables_definitions.specs.DraftedCycles.{HasDeadline, HasType, IsDeadline, IsReadableCycle, told_values};
ghost use Rattle.plan_tables_definitions.specs.declared.decoded_cycles.DecodedCycle.{DecodedCycle as DecodedValue};

use crate::columns::{
    day_at, is_null_at, letter_at, minute_at, name_at, number_at, optional_day_at,
};
use run_cycles::{CycleType, Deadline, Rule};
use sqlite_value::row::Row;
use work_calendars::{Day, Minute, Name, Short};

/// What the row of a run cycle encodes apart from the names.
#[derive(Clone, Copy)]
pub(crate) struct DecodedCycle {
    /// Its type, with its deadline.
    pub(crate) kind: CycleType,
    /// The name of its period.
    pub(crate) period: Short,
    /// What its offsets count, and where a free day goes.
    pub(crate) rule: Rule,
    /// The first day that it may name.
    pub(crate) in_effect: Day,
    /// The first day from which on it names nothing, or none.
    pub(crate) out_effect: Option<Day>,
    /// The input arrival time of its occurrences.
    pub(crate) ia: Minute,
}

// The rule that a letter names.
fn rule_at(row: &Row) -> Option<Rule>
    ensures value { IfSome result (λ rule. column row.now 3 ≡ Text (rule_text rule)) }
    ensures found { (rule : RuleValue) → column row.now 3 ≡ Text (rule_text rule)
        → result ≡ Some rule }
{
    match letter_at(row, 3)? {
        b'E' => Some(Rule::WorkDaysOnly),
        b'1' => Some(Rule::Before),
        b'2' => Some(Rule::After),
        b'3' => Some(Rule::Same),
        b'4' => Some(Rule::Skip),
        _ => None,
    }
}

// The days of the deadline.
fn days_at(row: &Row) -> Option<u8>
    ensures value { IfSome result (λ days. column row.now 7 ≡ natural days) }
    ensures found { (days : ℕ) → days < 2 ^ 8 → column row.now 7 ≡ natural days
        → result ≡ Some days }
{
    u8::try_from(number_at(row, 7)?).ok()
}

fn deadline_at(row: &Row) -> Option<Deadline>
    ensures value { IfSome result (λ d. (column row.now 7 ≡ natural d.days)
        × (column row.now 8 ≡ natural d.time)) }
    ensures found { (d : DeadlineValue) → IsDeadline d → column row.now 7 ≡ natural d.days
        → column row.now 8 ≡ natural d.time → result ≡ Some d }
{
    let days = days_at(row)?;
    let time = minute_at(row, 8)?;
    Some(Deadline { days, time })
}

// The deadline of type X, or none where both columns have NULL.
fn optional_deadline_at(row: &Row) -> Option<Option<Deadline>>
    ensures value { IfSome result (λ d. HasDeadline row.now d) }
    ensures found { (d : Option DeadlineValue) → IfSome d IsDeadline → HasDeadline row.now d
        → result ≡ Some d }
{
    if is_null_at(row, 7) && is_null_at(row, 8) {
        return Some(None);
    }
    match deadline_at(row) {
        Some(deadline) => Some(Some(deadline)),
        None => None,
    }
}

// The type that a row encodes, with its deadline.
fn type_at(row: &Row) -> Option<CycleType>
    ensures value { IfSome result (HasType row.now) }
    ensures found { (kind : TypeValue) → IfSome (deadline_of kind) IsDeadline → HasType row.now kind
        → result ≡ Some kind }
{
    match letter_at(row, 1)? {
        b'N' => match deadline_at(row) {
            Some(deadline) => Some(CycleType::Normal(deadline)),
            None => None,
        },
        b'X' => match optional_deadline_at(row) {
            Some(deadline) => Some(CycleType::Negative(deadline)),
            None => None,
        },
        _ => None,
    }
}

/// What the row of a run cycle of this name encodes, without the application.
pub(crate) fn told_at(row: &Row, name: &Name) -> Option<DecodedCycle>
    requires { column row.now 0 ≡ Text name.now }
    ensures value { IfSome result (λ t. row.now ≡ told_values name.now t) }
    ensures found { (t : DecodedValue) → IsReadableCycle t → row.now ≡ told_values name.now t
        → result ≡ Some t }
{
    if row.len() != 9 {
        return None;
    }
    let kind = type_at(row)?;
    let period = name_at(row, 2)?;
    let rule = rule_at(row)?;
    let in_effect = day_at(row, 4)?;
    let out_effect = optional_day_at(row, 5)?;
    let ia = minute_at(row, 6)?;
    Some(DecodedCycle {
        kind,
        period,
        rule,
        in_effect,
        out_effect,
        ia,
    })
}
