//! The calls on one object in memory: their numbers, and which of them fail.
ghost use Rattle.std.specs.Prelude.{◌≡◌, ◌↔◌, ◌⊎◌, false, OnOk, OnErr, IsErr};
ghost use Rattle.child_ports.specs.Script.{unplayed, FailsNext, after_call, after_fault};

use crate::{Failed, Numbers};

/// The numbers of the calls that are to fail, and the counts so far.
///
/// The calls on one object are numbered from 1, all methods together.
#[derive(Debug, Drop)]
pub struct Script {
    pub fails: Numbers,
    /// How many calls there were. It stays at the last u64.
    pub calls: u64,
    /// How many calls failed. It stays at the last u64.
    pub faults: u64,
}

impl Script {
    /// A script of which nothing has been played.
    pub fn new(fails: Numbers) -> Script
        ensures { result ≡ unplayed fails }
    {
        Script {
            fails,
            calls: 0,
            faults: 0,
        }
    }

    /// Numbers a call, and says whether it fails.
    pub fn count(&mut self) -> Result<(), Failed>
        ensures ok { OnOk result (self.new ≡ after_call self.old) }
        ensures err { OnErr result (self.new ≡ after_fault self.old) }
        ensures exact { IsErr result ↔ FailsNext self.old }
    {
        self.calls = self.calls.saturating_add(1);
        if self.fails.as_slice().contains(&self.calls) {
            self.faults = self.faults.saturating_add(1);
            return Err(Failed);
        }
        Ok(())
    }

    /// Numbers a call that also fails where it doesn't fit, and says whether it fails.
    pub fn count_fitting(&mut self, fits: bool) -> Result<(), Failed>
        ensures ok { OnOk result (self.new ≡ after_call self.old) }
        ensures err { OnErr result (self.new ≡ after_fault self.old) }
        ensures exact { IsErr result ↔ (FailsNext self.old ⊎ (fits ≡ false)) }
    {
        self.count()?;
        if !fits {
            self.faults = self.faults.saturating_add(1);
            return Err(Failed);
        }
        Ok(())
    }
}
