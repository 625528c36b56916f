//! The keeper in memory.
ghost use Rattle.std.specs.Prelude.{◌≡◌, ◌↔◌, true, IfOk, OnOk, IsErrOf};
ghost use Rattle.std.specs.FinMap as map;
ghost use Rattle.child_ports.specs.Causes.{one_more};
ghost use Rattle.child_ports.specs.Keeper.{first_pairs, with_pairs};
ghost use Rattle.child_ports.specs.Script.{unplayed, FailsNext, after_call, after_fault};

use crate::memory::Script;
use crate::memory::pairs::{copies, value_of, with_more};
use crate::{Bytes, Keeper, Numbers, Pair, Pairs, PortFail};
use std::alloc::{AllocError, Global};
use std::marker::Model;

/// A keeper in memory. It fails at the calls whose numbers it is given, and only there.
#[derive(Drop)]
pub struct MemKeeper {
    alloc: Global,
    // The first pair with a key counts.
    pairs: Vec<Pair>,
    script: Script,
    stores: u64,
}

impl Model for MemKeeper {
    ghost use Rattle.child_ports.specs.MemKeeper.{KeeperState, keeper_code};

    ghost Value = { KeeperState };

    ghost coded = { keeper_code };

    ghost use Rattle.child_ports.specs.MemKeeperInside.{keeper_state};

    ghost view = { keeper_state };
}

impl MemKeeper {
    /// A keeper of these pairs, of which the first with a key counts.
    pub fn new(alloc: Global, pairs: &Pairs, fails: Numbers) -> Result<MemKeeper, AllocError>
        ensures kept { IfOk result (λ keeper. keeper.kept ≡ first_pairs pairs.now) }
        ensures script { IfOk result (λ keeper. keeper.script ≡ unplayed fails) }
        ensures stores { IfOk result (λ keeper. keeper.stores ≡ 0) }
    {
        let pairs = copies(alloc, pairs.as_slice())?;
        Ok(MemKeeper {
            alloc,
            pairs,
            script: Script::new(fails),
            stores: 0,
        })
    }

    /// How often `store` was called, whatever it answered. It stays at the last u64.
    pub fn stores(&self) -> u64
        ensures { result ≡ self.now.stores }
    {
        self.stores
    }
}

impl Keeper for MemKeeper {
    ghost faults = { λ keeper. keeper.script.faults };

    ghost tells = { λ keeper. true };

    ghost stores = { λ keeper. keeper.stores };

    ghost kept = { λ keeper. keeper.kept };

    fn load(&mut self, alloc: Global, key: &str) -> Result<Option<Bytes>, PortFail>
        ensures value { IfOk result (λ value. value ≡ map.get self.old.kept key.now) }
        ensures ok { OnOk result (self.new ≡ record self.old { script = after_call self.old.script }) }
        ensures failed { IsErrOf result PortFail.Failed → self.new ≡ record self.old { script = after_fault self.old.script } }
        ensures memory { IsErrOf result PortFail.Memory → self.new ≡ record self.old { script = after_call self.old.script } }
        ensures exact { IsErrOf result PortFail.Failed ↔ FailsNext self.old.script }
    {
        self.script.count()?;
        match value_of(&self.pairs, key) {
            Some(value) => Ok(Some(Bytes::from_slice(alloc, value)?)),
            None => Ok(None),
        }
    }

    fn store(&mut self, pairs: &Pairs) -> Result<(), PortFail>
        ensures ok { OnOk result (self.new ≡ record { kept = with_pairs self.old.kept pairs.now; script = after_call self.old.script; stores = one_more self.old.stores }) }
        ensures failed { IsErrOf result PortFail.Failed → self.new ≡ record self.old { script = after_fault self.old.script; stores = one_more self.old.stores } }
        ensures memory { IsErrOf result PortFail.Memory → self.new ≡ record self.old { script = after_call self.old.script; stores = one_more self.old.stores } }
        ensures exact { IsErrOf result PortFail.Failed ↔ FailsNext self.old.script }
    {
        self.stores = self.stores.saturating_add(1);
        self.script.count()?;
        self.pairs = with_more(self.alloc, &self.pairs, pairs.as_slice())?;
        Ok(())
    }
}
