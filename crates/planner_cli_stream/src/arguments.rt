//! The values of a line's options, and of its word without one.
use crate::{CountWord, FunctionWord, JobNumber, KindWord, WhatWord};
use work_calendars::{App, Day, Moment, Name};

/// Each option that a statement may have, with its value where that has the option's form, and, for those options that
/// may be missing, whether they are there.
#[derive(Clone, Copy, Debug)]
pub(crate) struct Arguments {
    pub(crate) job: Option<JobNumber>,
    pub(crate) app: Option<App>,
    pub(crate) from: Option<Day>,
    pub(crate) to: Option<Day>,
    pub(crate) to_moment: Option<Moment>,
    pub(crate) ia: Option<Moment>,
    pub(crate) days: Option<u8>,
    pub(crate) count: Option<CountWord>,
    pub(crate) name: Option<Name>,
    pub(crate) kind: Option<KindWord>,
    pub(crate) function: Option<FunctionWord>,
    pub(crate) what: Option<WhatWord>,
    pub(crate) has_app: bool,
    pub(crate) has_from: bool,
    pub(crate) has_to: bool,
    pub(crate) has_days: bool,
    pub(crate) has_count: bool,
}
