//! The files of a run, which are checked while it reads its stream.

ghost use Rattle.std.specs.Prelude.{◌≡◌, IsTrue, false};
ghost use Rattle.std.specs.Io.{ReadsAtMost};
ghost use Rattle.std.specs.Io.KnownBytes.{ReadConsumes};
ghost use Rattle.opcplan.specs.Endings.{has_all, keeps_answers};

use crate::endings::{Closed, Ending, ending_by};
use crate::looks::{Growth, Look, bytes_of_pages, fate_between, is_shorter, lacks_pages};
use crate::sight::Sight;
use std::io::{self, BufReader, Read};

/// What was at FILE and FILE-wal when a run began, and whether either was truncated since.
#[derive(Drop)]
pub struct Watch<S> {
    sight: S,
    has_begun: bool,
    file: Look,
    log: Look,
    was_cut: bool,
    log_growth: Growth,
}

impl<S: Sight> Watch<S> {
    /// One of files that nobody has looked at.
    pub fn new(sight: S) -> Watch<S> {
        Watch {
            sight,
            has_begun: false,
            file: Look::Unknown,
            log: Look::Unknown,
            was_cut: false,
            log_growth: Growth {
                longest: 0,
                was_cut: false,
            },
        }
    }

    /// Looks at both files for the first time. They are open then.
    fn begin(&mut self)
        ensures file { self.new.was_cut ≡ self.old.was_cut }
        ensures log { self.new.log_growth ≡ self.old.log_growth }
    {
        self.has_begun = true;
        self.file = self.sight.file();
        self.sight.find_log();
        self.log = self.sight.log();
    }

    /// Checks whether the log was truncated: during a run it only grows, and is emptied in place when it is long.
    fn look_at_log(&mut self)
        ensures file { self.new.was_cut ≡ self.old.was_cut }
        ensures remembered { IsTrue self.old.log_growth.was_cut → IsTrue self.new.log_growth.was_cut }
    {
        if let Some(bytes) = self.sight.bytes_of_log() {
            self.log_growth = self.log_growth.seen(bytes);
        }
    }

    /// Whether FILE, as it is now, was truncated. Copying a log may leave it shorter too, but with all its pages.
    fn is_cut(&self, now: Look) -> bool {
        is_shorter(self.file, now) && lacks_pages(now, self.bytes_due())
    }

    /// How many bytes the pages of FILE take, by its first bytes; where these can't be read, more than it has.
    fn bytes_due(&self) -> u64 {
        match self.sight.head() {
            Some(head) => bytes_of_pages(&head),
            None => u64::MAX,
        }
    }

    /// Checks whether FILE or its log was truncated. A run that ends well copies its log into FILE, which then has its
    /// length again, and empties the log.
    fn look_again(&mut self)
        ensures remembered { IsTrue self.old.was_cut → IsTrue self.new.was_cut }
        ensures log { IsTrue self.old.log_growth.was_cut → IsTrue self.new.log_growth.was_cut }
    {
        if self.is_cut(self.sight.file()) {
            self.was_cut = true;
        }
        self.look_at_log();
    }

    /// How the files were left, which have to be open still, so that no other file has the inode of one.
    pub fn ending(&self, closed: Closed) -> Ending
        ensures cut { IsTrue self.now.was_cut → keeps_answers result ≡ false }
        ensures log { IsTrue self.now.log_growth.was_cut → has_all result ≡ false }
    {
        let file = self.sight.file();
        let log = self.sight.log();
        ending_by(
            fate_between(self.file, file),
            self.was_cut || self.is_cut(file),
            fate_between(self.log, log),
            closed.with_log(self.log_growth.was_cut),
        )
    }
}

/// A reader of a stream that looks at the files of its run before each read and after it.
#[derive(Drop)]
pub struct Watched<S, R> {
    reader: R,
    /// What it saw of the files.
    pub watch: Watch<S>,
}

impl<S: Sight, R: Read> Watched<S, R> {
    /// One that reads as this does.
    pub fn new(reader: R, watch: Watch<S>) -> Watched<S, R> {
        Watched { reader, watch }
    }
}

impl<S: Sight, R: Read> Read for Watched<S, R> {
    ghost remaining = { λ w. R.remaining w.reader };

    fn read(&mut self, buf: &mut [u8]) -> io::Result<usize>
        ensures bound { ReadsAtMost result buf.new }
        ensures bytes { ReadConsumes (R.remaining self.old.reader) (R.remaining self.new.reader)
            result buf.new }
        ensures remembered { IsTrue self.old.watch.was_cut → IsTrue self.new.watch.was_cut }
        ensures log { IsTrue self.old.watch.log_growth.was_cut → IsTrue self.new.watch.log_growth.was_cut }
    {
        if !self.watch.has_begun {
            self.watch.begin();
        }
        self.watch.look_at_log();
        let taken = self.reader.read(buf);
        self.watch.look_again();
        taken
    }
}

/// A reader that knows how the files of its run were left.
pub trait SeesFiles {
    /// How they were left, by how they were closed. They have to be open still.
    fn ending(&self, closed: Closed) -> Ending;
}

impl<S: Sight, R: Read> SeesFiles for BufReader<Watched<S, R>> {
    fn ending(&self, closed: Closed) -> Ending {
        self.get_ref().watch.ending(closed)
    }
}
