// The fields of a record, taken as they are.

ghost use Rattle.std.specs.Prelude.{◌≡◌, ◌↔◌, ◌≤◌, IsSome, IfSome, IsUtf8};
ghost use Rattle.csv.specs.Records.{fields_of};
ghost use Rattle.work_calendars.specs.Name.{IsName, IsShort};
ghost use Rattle.work_calendars.specs.Spelling.{SpellsDay, SpellsMinute};
ghost use Rattle.app_definition_records.specs.Fields.{field, IsEmptyOr, some_unless_empty, IsDayText, IsMinuteText};
ghost use Rattle.app_definition_records.specs.Fields.{SpellsOptionalDay, IsNumberUpTo, number_value};

use csv::ByteRecord;
use work_calendars::{Day, Minute, Name, Short};

/// The field at a place, counted from 0, and no bytes where there is none.
pub fn field_at(row: &ByteRecord, place: usize) -> &[u8]
    ensures { result.now ≡ field (fields_of row.now) place }
{
    row.get(place).unwrap_or(b"")
}

/// The text that these bytes are, if they are any.
pub fn text_of(bytes: &[u8]) -> Option<&str>
    ensures text { IsSome result ↔ IsUtf8 bytes.now }
    ensures value { IfSome result (λ t. t.now ≡ bytes.now) }
{
    std::str::from_utf8(bytes).ok()
}

/// The name that these bytes spell.
pub fn name_of(bytes: &[u8]) -> Option<Name>
    ensures valid { IsSome result ↔ IsName bytes.now }
    ensures value { IfSome result (λ n. n ≡ bytes.now) }
{
    Name::from_text(text_of(bytes)?)
}

/// The short name that these bytes spell.
pub fn short_of(bytes: &[u8]) -> Option<Short>
    ensures valid { IsSome result ↔ IsShort bytes.now }
    ensures value { IfSome result (λ n. n ≡ bytes.now) }
{
    Short::from_text(text_of(bytes)?)
}

/// The name that these bytes spell, or no name where there are none.
pub fn optional_name_of(bytes: &[u8]) -> Option<Option<Name>>
    ensures valid { IsSome result ↔ IsEmptyOr IsName bytes.now }
    ensures value { IfSome result (λ o. o ≡ some_unless_empty bytes.now) }
{
    if bytes.is_empty() {
        return Some(None);
    }
    Some(Some(name_of(bytes)?))
}

/// The day that these bytes spell.
pub fn day_of(bytes: &[u8]) -> Option<Day>
    ensures valid { IsSome result ↔ IsDayText bytes.now }
    ensures value { IfSome result (SpellsDay bytes.now) }
{
    Day::from_text(text_of(bytes)?)
}

/// The minute of the day that these bytes spell.
pub fn minute_of(bytes: &[u8]) -> Option<Minute>
    ensures valid { IsSome result ↔ IsMinuteText bytes.now }
    ensures value { IfSome result (SpellsMinute bytes.now) }
{
    Minute::from_text(text_of(bytes)?)
}

/// The day that these bytes spell, or no day where there are none.
pub fn optional_day_of(bytes: &[u8]) -> Option<Option<Day>>
    ensures valid { IsSome result ↔ IsEmptyOr IsDayText bytes.now }
    ensures value { IfSome result (SpellsOptionalDay bytes.now) }
{
    if bytes.is_empty() {
        return Some(None);
    }
    Some(Some(day_of(bytes)?))
}

/// The number that these bytes are the decimal digits of, without leading zeros, if it is at most that one.
pub fn number_of(bytes: &[u8], greatest: u16) -> Option<u16>
    requires { greatest ≤ 9999 }
    ensures valid { IsSome result ↔ IsNumberUpTo greatest bytes.now }
    ensures value { IfSome result (λ n. n ≡ number_value bytes.now) }
{
    if bytes.is_empty() || (bytes[0] == b'0' && bytes.len() > 1) {
        return None;
    }
    let mut value: u32 = 0;
    for &byte in bytes {
        if !byte.is_ascii_digit() {
            return None;
        }
        value = value * 10 + (byte - b'0') as u32;
        if value > greatest as u32 {
            return None;
        }
    }
    Some(value as u16)
}
