//! How the files of a run were left, as it is reported.

ghost use Rattle.std.specs.Prelude.{◌≡◌, ◌↔◌, false, true};
ghost use Rattle.plan_files_closing.specs.declared.copying.CopyFault.TheVariants.{Device, Memory};
ghost use Rattle.opcplan.specs.Endings.{ending_of, has_all, keeps_answers};
ghost use Rattle.opcplan.specs.declared.endings.Closed.TheVariants.{Failed, LogCut, NoMemory};
ghost use Rattle.opcplan.specs.declared.looks.Fate.TheVariants.{Same};

use crate::looks::Fate;
use plan_files_closing::CopyFault;

/// How files were closed.
#[derive(Clone, Copy, Debug, PartialEq, Eq)]
pub enum Closed {
    /// The log was copied into the database file.
    Whole,
    /// It was not, for want of memory.
    NoMemory,
    /// It was not, because the device failed.
    Failed,
    /// Somebody truncated the log before, so what it had is copied in part, if at all.
    LogCut,
}

impl Closed {
    /// How files were closed if that failed for this reason.
    pub fn after(fault: CopyFault) -> Closed
        ensures memory { fault ≡ Memory → result ≡ NoMemory }
        ensures device { fault ≡ Device → result ≡ Failed }
    {
        match fault {
            CopyFault::Memory => Closed::NoMemory,
            CopyFault::Device => Closed::Failed,
        }
    }

    /// The same of files whose log was truncated or not.
    pub fn with_log(self, was_cut: bool) -> Closed
        ensures cut { was_cut ≡ true → result ≡ LogCut }
        ensures whole { was_cut ≡ false → result ≡ self }
    {
        if was_cut { Closed::LogCut } else { self }
    }
}

/// How the files of a run were left.
#[derive(Clone, Copy, Debug, PartialEq, Eq)]
pub enum Ending {
    /// FILE has all.
    Whole,
    /// FILE was removed.
    TakenAway,
    /// Another file is at FILE.
    Replaced,
    /// Another file is at FILE, with the log of the one that was opened next to it, which has something.
    ReplacedBesideLog,
    /// FILE was truncated.
    Cut,
    /// FILE has all, and another file is at FILE-wal.
    OtherLog,
    /// FILE-wal has what was written last.
    LogStands,
    /// The same, as far as FILE-wal is whole.
    LogDamaged,
}

/// How the files of a run were left, by what became of FILE, whether it was truncated, what became of FILE-wal, and
/// how they were closed. Of several that hold, the first counts.
pub fn ending_by(file: Fate, is_cut: bool, log: Fate, closed: Closed) -> Ending
    ensures ending { result ≡ ending_of file is_cut log closed }
    ensures all { closed ≡ LogCut → has_all result ≡ false }
    ensures kept { (keeps_answers result ≡ true) ↔ ((file ≡ Same) × (is_cut ≡ false)) }
{
    match file {
        Fate::Gone => Ending::TakenAway,
        Fate::Other if closed != Closed::Whole && log == Fate::Same => Ending::ReplacedBesideLog,
        Fate::Other => Ending::Replaced,
        Fate::Same if is_cut => Ending::Cut,
        Fate::Same => ending_of_log(log, closed),
    }
}

/// The same of files of which FILE is as it should be.
fn ending_of_log(log: Fate, closed: Closed) -> Ending
    ensures ending { result ≡ ending_of Same false log closed }
    ensures all { closed ≡ LogCut → has_all result ≡ false }
{
    match (closed, log) {
        (Closed::Whole, Fate::Other) => Ending::OtherLog,
        (Closed::Whole, _) => Ending::Whole,
        (Closed::NoMemory, Fate::Same) => Ending::LogStands,
        _ => Ending::LogDamaged,
    }
}

impl Ending {
    /// Whether the files have the acknowledged statements, as far as the looks show.
    pub fn keeps_answers(self) -> bool
        ensures { result ≡ keeps_answers self }
    {
        match self {
            Ending::TakenAway | Ending::Replaced | Ending::ReplacedBesideLog | Ending::Cut => false,
            _ => true,
        }
    }

    /// The message for standard error, if there is one.
    pub fn message(self) -> Option<&'static str> {
        match self {
            Ending::Whole => None,
            Ending::TakenAway => Some(
                "the file was removed while this ran, and with it every answered statement. Move it back if it was moved, or restore the last backup (./plan restore), and run the whole stream again",
            ),
            Ending::Replaced => Some(
                "another file is at this path now. The answered statements are in the file that was opened, which is no longer here. Run the whole stream again over the file that you keep",
            ),
            Ending::ReplacedBesideLog => Some(
                "another file is at this path now. The answered statements are in the file that was opened, which is no longer here, and in the -wal file. Remove the -wal file, and run the whole stream again over the file that you keep",
            ),
            Ending::Cut => Some(
                "the file was cut or overwritten while this ran, and may be damaged. Restore the last backup (./plan restore), and run the whole stream again",
            ),
            Ending::OtherLog => Some(
                "the -wal file is not the log that this run wrote. Remove it before the next run. The file itself is whole",
            ),
            Ending::LogStands => Some(
                "memory was refused while the file was being closed. The last changes are in the -wal file, and the next run copies them into the file. Keep both together",
            ),
            Ending::LogDamaged => Some(
                "the disk failed while the file was being closed, or the -wal file was cut or removed. The last changes are in the -wal file, as far as it is whole. Keep both together, and run the whole stream again",
            ),
        }
    }
}
