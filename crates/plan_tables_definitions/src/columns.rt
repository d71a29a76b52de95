// Values read from the columns of a row.

ghost use Rattle.std.specs.Prelude.{◌≡◌, ◌↔◌, ◌<◌, ◌^◌, ℕ, ℤ, [], ◌∷◌, List, Bool, Option, option_map, IfSome};
ghost use Rattle.std.specs.Prelude.{IsSome, IsTrue};
ghost use Rattle.sqlite.specs.Order.{column};
ghost use Rattle.sqlite.specs.declared.types.Value.TheVariants.{Int, Null, Text};
ghost use Rattle.work_calendars.specs.Day.{IsDay};
ghost use Rattle.work_calendars.specs.Minute.{IsMinute};
ghost use Rattle.work_calendars.specs.Name.{IsName, IsNameWithin};
ghost use Rattle.work_calendars.specs.Within.{IsWithinHours};
ghost use Rattle.work_calendars.specs.declared.statuses.DayStatus.{DayStatus as Status};
ghost use Rattle.plan_tables_content.specs.Facts.{flag, is_work, natural, or_null};

use sqlite::types::ValueRef;
use sqlite_value::row::Row;
use work_calendars::{Day, DayStatus, Minute, Name, NameWithin, Within};

// The name that these bytes spell.
fn name_of<const LONGEST: usize>(bytes: &[u8]) -> Option<NameWithin<LONGEST>>
    ensures valid { IsSome result ↔ IsNameWithin LONGEST bytes.now }
    ensures value { IfSome result (λ name. name ≡ bytes.now) }
{
    match std::str::from_utf8(bytes) {
        Ok(text) => NameWithin::from_text(text),
        Err(_) => None,
    }
}

/// The name in the column.
pub(crate) fn name_at<const LONGEST: usize>(row: &Row, at: usize) -> Option<NameWithin<LONGEST>>
    ensures value { IfSome result (λ name. column row.now at ≡ Text name) }
    ensures found { (name : List ℕ) → IsNameWithin LONGEST name → column row.now at ≡ Text name
        → result ≡ Some name }
{
    match row.get(at) {
        ValueRef::Text(text) => name_of(text),
        _ => None,
    }
}

/// The one letter in the column.
pub(crate) fn letter_at(row: &Row, at: usize) -> Option<u8>
    ensures value { IfSome result (λ letter. column row.now at ≡ Text (letter ∷ [])) }
    ensures found { (letter : ℕ) → column row.now at ≡ Text (letter ∷ []) → result ≡ Some letter }
{
    match row.get(at) {
        ValueRef::Text([letter]) => Some(*letter),
        _ => None,
    }
}

/// The number in the column, of either sign.
pub(crate) fn integer_at(row: &Row, at: usize) -> Option<i64>
    ensures value { IfSome result (λ k. column row.now at ≡ Int k) }
    ensures found { (k : ℤ) → column row.now at ≡ Int k → result ≡ Some k }
{
    match row.get(at) {
        ValueRef::Int(k) => Some(k),
        _ => None,
    }
}

/// The number in the column, from 0 on.
pub(crate) fn number_at(row: &Row, at: usize) -> Option<u32>
    ensures value { IfSome result (λ n. column row.now at ≡ natural n) }
    ensures found { (n : ℕ) → n < 2 ^ 32 → column row.now at ≡ natural n → result ≡ Some n }
{
    u32::try_from(integer_at(row, at)?).ok()
}

/// The day in the column.
pub(crate) fn day_at(row: &Row, at: usize) -> Option<Day>
    ensures value { IfSome result (λ day. column row.now at ≡ natural day) }
    ensures found { (day : ℕ) → IsDay day → column row.now at ≡ natural day → result ≡ Some day }
{
    Day::from_number(number_at(row, at)?)
}

/// The minute of the day in the column.
pub(crate) fn minute_at(row: &Row, at: usize) -> Option<Minute>
    ensures value { IfSome result (λ minute. column row.now at ≡ natural minute) }
    ensures found { (minute : ℕ) → IsMinute minute → column row.now at ≡ natural minute
        → result ≡ Some minute }
{
    Minute::from_number(number_at(row, at)?)
}

/// The limit of the hours in the column.
fn limit_at(row: &Row, at: usize) -> Option<Within>
    ensures value { IfSome result (λ hours. column row.now at ≡ natural hours) }
    ensures found { (hours : ℕ) → IsWithinHours hours → column row.now at ≡ natural hours
        → result ≡ Some hours }
{
    Within::from_hours(number_at(row, at)?)
}

/// Whether the column says yes.
pub(crate) fn flag_at(row: &Row, at: usize) -> Option<bool>
    ensures value { IfSome result (λ yes. column row.now at ≡ flag yes) }
    ensures found { (yes : Bool) → column row.now at ≡ flag yes → result ≡ Some yes }
{
    match number_at(row, at)? {
        0 => Some(false),
        1 => Some(true),
        _ => None,
    }
}

/// The status in the column.
pub(crate) fn status_at(row: &Row, at: usize) -> Option<DayStatus>
    ensures value { IfSome result (λ status. column row.now at ≡ is_work status) }
    ensures found { (status : Status) → column row.now at ≡ is_work status → result ≡ Some status }
{
    match number_at(row, at)? {
        0 => Some(DayStatus::Free),
        1 => Some(DayStatus::Work),
        _ => None,
    }
}

/// Whether the column has NULL.
pub(crate) fn is_null_at(row: &Row, at: usize) -> bool
    ensures { IsTrue result ↔ (column row.now at ≡ Null) }
{
    matches!(row.get(at), ValueRef::Null)
}

/// The name in the column, or none where it has NULL.
pub(crate) fn optional_name_at(row: &Row, at: usize) -> Option<Option<Name>>
    ensures value { IfSome result (λ name. column row.now at ≡ or_null (option_map Text name)) }
    ensures found { (name : Option (List ℕ)) → IfSome name IsName
        → column row.now at ≡ or_null (option_map Text name)
        → result ≡ Some name }
{
    if is_null_at(row, at) {
        return Some(None);
    }
    match name_at(row, at) {
        Some(name) => Some(Some(name)),
        None => None,
    }
}

/// The day in the column, or none where it has NULL.
pub(crate) fn optional_day_at(row: &Row, at: usize) -> Option<Option<Day>>
    ensures value { IfSome result (λ day. column row.now at ≡ or_null (option_map natural day)) }
    ensures found { (day : Option ℕ) → IfSome day IsDay
        → column row.now at ≡ or_null (option_map natural day)
        → result ≡ Some day }
{
    if is_null_at(row, at) {
        return Some(None);
    }
    match day_at(row, at) {
        Some(day) => Some(Some(day)),
        None => None,
    }
}

/// The limit of the hours in the column, or no limit where it has NULL.
pub(crate) fn optional_limit_at(row: &Row, at: usize) -> Option<Option<Within>>
    ensures value { IfSome result (λ hours. column row.now at
        ≡ or_null (option_map natural hours)) }
    ensures found { (hours : Option ℕ) → IfSome hours IsWithinHours
        → column row.now at ≡ or_null (option_map natural hours)
        → result ≡ Some hours }
{
    if is_null_at(row, at) {
        return Some(None);
    }
    match limit_at(row, at) {
        Some(within) => Some(Some(within)),
        None => None,
    }
}

/// The number in the column, from 0 on, or none where it has NULL.
pub(crate) fn optional_number_at(row: &Row, at: usize) -> Option<Option<u32>>
    ensures value { IfSome result (λ n. column row.now at ≡ or_null (option_map natural n)) }
    ensures found { (n : Option ℕ) → IfSome n (λ k. k < 2 ^ 32)
        → column row.now at ≡ or_null (option_map natural n)
        → result ≡ Some n }
{
    if is_null_at(row, at) {
        return Some(None);
    }
    match number_at(row, at) {
        Some(n) => Some(Some(n)),
        None => None,
    }
}
