// A connection that may fail.

ghost use Rattle.std.specs.Prelude.{◌≡◌, false};

use crate::keeping::{Unmade, ask_open};
use plan_store::StoreFault;
use sqlite::{Alter, Connection};

/// A connection outside transactions, how often it failed, and whether it is known to be open.
#[derive(Drop)]
pub(crate) struct Session<S: Alter> {
    /// The connection.
    pub(crate) conn: Connection<S>,
    /// How often sqlite failed, or refused for another cause than memory, up to the greatest number that is counted.
    pub(crate) failures: u64,
    /// Whether memory was refused when it was checked whether the connection is open.
    pub(crate) in_doubt: bool,
    ghost settled: { conn.in_transaction ≡ false },
}

impl<S: Alter + Drop> Session<S> {
    ghost use Rattle.plan_tables.specs.Session.{Blames, Checks};

    /// Checks that nothing failed before, and that the connection is open, if that is not known.
    pub(crate) fn check(&mut self) -> Result<(), StoreFault>
        ensures { Checks S.Store self.old self.new result }
    {
        if self.failures > 0 {
            return Err(StoreFault::Device);
        }
        if !self.in_doubt {
            return Ok(());
        }
        match ask_open(&mut self.conn) {
            Ok(()) => {
                self.in_doubt = false;
                Ok(())
            }
            Err(StoreFault::Memory) => Err(StoreFault::Memory),
            Err(StoreFault::Device) => Err(self.blame(Unmade::Device)),
        }
    }

    /// The fault of a call that is not done for this reason. A failure of the device is counted, and a doubt is kept.
    pub(crate) fn blame(&mut self, why: Unmade) -> StoreFault
        ensures { Blames self.old self.new why result }
    {
        match why {
            Unmade::Memory => StoreFault::Memory,
            Unmade::Doubt => {
                self.in_doubt = true;
                StoreFault::Memory
            }
            Unmade::Device => {
                self.failures = self.failures.saturating_add(1);
                StoreFault::Device
            }
        }
    }
}
