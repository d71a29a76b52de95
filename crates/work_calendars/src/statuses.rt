ghost use Rattle.std.specs.Prelude.{◌≡◌};

/// Whether a calendar says that a day is a work day or a free day.
#[derive(Clone, Copy, Debug, PartialEq, Eq, Hash)]
pub enum DayStatus {
    /// A work day.
    Work,
    /// A free day.
    Free,
}

impl DayStatus {
    ghost use Rattle.work_calendars.specs.Calendar.{is_work_status};

    /// Whether it is that of a work day.
    pub fn is_work(self) -> bool
        ensures { result ≡ is_work_status self }
    {
        match self {
            DayStatus::Work => true,
            DayStatus::Free => false,
        }
    }
}
