//! The columns of records, counted from 0, and how many fields a record of each kind has.

/// The name that a record is about: of a calendar, a period or an application.
pub const NAME: usize = 0;

/// `A`, active, or `P`, pending.
pub const APPLICATION_STATUS: usize = 1;
/// A name, or empty for the default calendar.
pub const APPLICATION_CALENDAR: usize = 2;
/// The fields of an application's record.
pub const APPLICATION_FIELDS: usize = 3;

/// A weekday's three letters, or a day.
pub const CALENDAR_ENTRY: usize = 1;
/// `WORK` or `FREE`.
pub const CALENDAR_STATUS: usize = 2;
/// The fields of a calendar's record.
pub const CALENDAR_FIELDS: usize = 3;

/// `A`, `W` or `N`.
pub const PERIOD_TYPE: usize = 1;
/// A day.
pub const PERIOD_ORIGIN: usize = 2;
/// Of types A and W the days or work days of an interval, of type N the interval's last day or empty.
pub const PERIOD_LENGTH: usize = 3;
/// The fields of a period's record.
pub const PERIOD_FIELDS: usize = 4;

/// The predecessor's name.
pub const PREDECESSOR: usize = 1;
/// Hours, or empty for no limit.
pub const PREDECESSOR_WITHIN: usize = 2;
/// The fields of a predecessor's record without a limit.
pub const PREDECESSOR_FIELDS: usize = 2;
/// The fields of a predecessor's record where those of the block have a limit or are left empty there.
pub const LIMITED_PREDECESSOR_FIELDS: usize = 3;

/// The run cycle's own name.
pub const CYCLE_NAME: usize = 1;
/// `N` or `X`.
pub const CYCLE_TYPE: usize = 2;
/// A period's name.
pub const CYCLE_PERIOD: usize = 3;
/// `E` or `1` to `4`.
pub const CYCLE_RULE: usize = 4;
/// Offsets, separated by one blank each.
pub const CYCLE_OFFSETS: usize = 5;
/// A day.
pub const CYCLE_IN_EFFECT: usize = 6;
/// A day or empty.
pub const CYCLE_OUT_EFFECT: usize = 7;
/// The time of the input arrival.
pub const CYCLE_IA: usize = 8;
/// Days after the input arrival date, or empty.
pub const CYCLE_DEADLINE_DAY: usize = 9;
/// A time, or empty.
pub const CYCLE_DEADLINE_TIME: usize = 10;
/// The fields of a run cycle's record.
pub const CYCLE_FIELDS: usize = 11;
