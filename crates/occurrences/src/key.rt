use work_calendars::{App, Moment};

/// What names an occurrence: its input arrival and its application.
/// Keys are ordered by input arrival, then by application in byte order.
#[derive(Clone, Copy, Debug, PartialEq, Eq, PartialOrd, Ord, Hash)]
pub struct Key {
    /// The input arrival.
    pub ia: Moment,
    /// The application.
    pub app: App,
}
