// Cells of a row.

ghost use Rattle.std.specs.Prelude.{◌≡◌, ◌<◌, ◌^◌, ◌↔◌, ◌∷◌, [], ℕ, ℤ, List, Option, None, IfSome, IsTrue, option_map};
ghost use Rattle.std.specs.Str.{IsUtf8};
ghost use Rattle.sqlite.specs.Order.{column};
ghost use Rattle.sqlite.specs.declared.types.Value.TheVariants.{Int, Null, Text};
ghost use Rattle.work_calendars.specs.Moment.{IsMoment};
ghost use Rattle.work_calendars.specs.Day.{IsDay};
ghost use Rattle.work_calendars.specs.Name.{IsNameWithin};
ghost use Rattle.work_calendars.specs.Within.{IsWithinHours};
ghost use Rattle.occurrences.specs.Serial.{IsSerial};
ghost use Rattle.occurrences.specs.Row.{run_cycle_of};
ghost use Rattle.occurrences.specs.declared.row.Origin.{Origin as OriginValue};
ghost use Rattle.planner_machine.specs.Sound.{IsOrigin};
ghost use Rattle.plan_tables_content.specs.Facts.{natural, or_null};

use occurrences::{Origin, Serial};
use sqlite::Row as Cells;
use sqlite::types::ValueRef;
use work_calendars::{Day, Moment, NameWithin, Within};

/// The number in the cell, if it holds one.
pub(crate) fn number_at(cells: &Cells, at: usize) -> Option<u32>
    ensures value { IfSome result (λ n. column cells.now at ≡ natural n) }
    ensures none { result ≡ None → (n : ℕ) → n < 2 ^ 32 → column cells.now at ≡ natural n → ⊥ }
{
    match cells.get_ref(at) {
        Ok(ValueRef::Int(n)) => match u32::try_from(n) {
            Ok(n) => Some(n),
            Err(_) => None,
        },
        _ => None,
    }
}

/// The integer in the cell, if it holds one.
pub(crate) fn integer_at(cells: &Cells, at: usize) -> Option<i64>
    ensures value { IfSome result (λ n. column cells.now at ≡ Int n) }
    ensures none { result ≡ None → (n : ℤ) → column cells.now at ≡ Int n → ⊥ }
{
    match cells.get_ref(at) {
        Ok(ValueRef::Int(n)) => Some(n),
        _ => None,
    }
}

/// The serial in the cell, if it holds one.
pub(crate) fn serial_at(cells: &Cells, at: usize) -> Option<Serial>
    ensures value { IfSome result (λ n. column cells.now at ≡ natural n) }
    ensures none { result ≡ None → (n : ℕ) → IsSerial n → column cells.now at ≡ natural n → ⊥ }
{
    Serial::new(number_at(cells, at)?)
}

/// The moment in the cell, if it holds one.
pub(crate) fn moment_at(cells: &Cells, at: usize) -> Option<Moment>
    ensures value { IfSome result (λ n. column cells.now at ≡ natural n) }
    ensures none { result ≡ None → (n : ℕ) → IsMoment n → column cells.now at ≡ natural n → ⊥ }
{
    Moment::from_number(number_at(cells, at)?)
}

/// The day in the cell, if it holds one.
pub(crate) fn day_at(cells: &Cells, at: usize) -> Option<Day>
    ensures value { IfSome result (λ n. column cells.now at ≡ natural n) }
    ensures none { result ≡ None → (n : ℕ) → IsDay n → column cells.now at ≡ natural n → ⊥ }
{
    Day::from_number(number_at(cells, at)?)
}

/// The text in the cell, if it holds one that is valid.
pub(crate) fn text_at(cells: &Cells, at: usize) -> Option<&str>
    ensures value { IfSome result (λ text. column cells.now at ≡ Text text.now) }
    ensures none { result ≡ None → (text : List ℕ) → IsUtf8 text → column cells.now at ≡ Text text
        → ⊥ }
{
    match cells.get_ref(at) {
        Ok(ValueRef::Text(bytes)) => std::str::from_utf8(bytes).ok(),
        _ => None,
    }
}

/// The name in the cell, if it holds one.
pub(crate) fn name_at<const LONGEST: usize>(cells: &Cells, at: usize) -> Option<NameWithin<LONGEST>>
    ensures value { IfSome result (λ name. column cells.now at ≡ Text name) }
    ensures none { result ≡ None → (name : List ℕ) → IsNameWithin LONGEST name
        → column cells.now at ≡ Text name → ⊥ }
{
    match text_at(cells, at) {
        Some(text) => NameWithin::from_text(text),
        None => None,
    }
}

/// The letter in the cell, if it holds one byte of text.
pub(crate) fn letter_at(cells: &Cells, at: usize) -> Option<u8>
    ensures value { IfSome result (λ letter. column cells.now at ≡ Text (letter ∷ [])) }
    ensures none { result ≡ None → (letter : ℕ) → column cells.now at ≡ Text (letter ∷ []) → ⊥ }
{
    match cells.get_ref(at) {
        Ok(ValueRef::Text(bytes)) => match bytes {
            [letter] => Some(*letter),
            _ => None,
        },
        _ => None,
    }
}

/// Whether the cell is empty.
pub(crate) fn is_null(cells: &Cells, at: usize) -> bool
    ensures { IsTrue result ↔ (column cells.now at ≡ Null) }
{
    match cells.get_ref(at) {
        Ok(value) => matches!(value, ValueRef::Null),
        Err(_) => true,
    }
}

/// The origin in the cell: the name of a run cycle, or none.
pub(crate) fn origin_at(cells: &Cells, at: usize) -> Option<Origin>
    ensures value { IfSome result (λ origin. column cells.now at ≡ or_null (option_map Text
        (run_cycle_of origin))) }
    ensures none { result ≡ None → (origin : OriginValue) → IsOrigin origin
        → column cells.now at ≡ or_null (option_map Text (run_cycle_of origin)) → ⊥ }
{
    if is_null(cells, at) {
        Some(Origin::Added)
    } else {
        match name_at(cells, at) {
            Some(name) => Some(Origin::Generated(name)),
            None => None,
        }
    }
}

// The hours of a limit in the cell, if it holds such.
fn hours_at(cells: &Cells, at: usize) -> Option<Within>
    ensures value { IfSome result (λ hours. column cells.now at ≡ natural hours) }
    ensures none { result ≡ None → (hours : ℕ) → IsWithinHours hours → column cells.now at
        ≡ natural hours
        → ⊥ }
{
    Within::from_hours(number_at(cells, at)?)
}

/// The limit in the cell: its hours, or none.
pub(crate) fn limit_at(cells: &Cells, at: usize) -> Option<Option<Within>>
    ensures value { IfSome result (λ within. column cells.now at
        ≡ or_null (option_map natural within)) }
    ensures none { result ≡ None → (within : Option ℕ) → IfSome within IsWithinHours
        → column cells.now at ≡ or_null (option_map natural within) → ⊥ }
{
    if is_null(cells, at) {
        Some(None)
    } else {
        match hours_at(cells, at) {
            Some(hours) => Some(Some(hours)),
            None => None,
        }
    }
}
