//! Files in memory.
ghost use Rattle.std.specs.Prelude.{◌≡◌, ◌↔◌, true, IfOk, OnOk, IsErrOf};
ghost use Rattle.std.specs.FinMap as map;
ghost use Rattle.child_ports.specs.Keeper.{first_pairs};
ghost use Rattle.child_ports.specs.Script.{unplayed, FailsNext, after_call, after_fault};

use crate::memory::Script;
use crate::memory::pairs::{copies, value_of};
use crate::{Bytes, FileRoom, Numbers, Pair, Pairs, PortFail};
use std::alloc::{AllocError, Global};
use std::marker::Model;

/// Files in memory. It fails at the calls whose numbers it is given, and only there.
#[derive(Drop)]
pub struct MemRoom {
    // The first pair with a path counts.
    files: Vec<Pair>,
    script: Script,
}

impl Model for MemRoom {
    ghost use Rattle.child_ports.specs.MemRoom.{RoomState, room_code};

    ghost Value = { RoomState };

    ghost coded = { room_code };

    ghost use Rattle.child_ports.specs.MemRoomInside.{room_state};

    ghost view = { room_state };
}

impl MemRoom {
    /// Files by their paths, of which the first with a path counts.
    pub fn new(alloc: Global, files: &Pairs, fails: Numbers) -> Result<MemRoom, AllocError>
        ensures files { IfOk result (λ room. room.files ≡ first_pairs files.now) }
        ensures script { IfOk result (λ room. room.script ≡ unplayed fails) }
    {
        let files = copies(alloc, files.as_slice())?;
        Ok(MemRoom {
            files,
            script: Script::new(fails),
        })
    }
}

impl FileRoom for MemRoom {
    ghost faults = { λ room. room.script.faults };

    ghost tells = { λ room. true };

    ghost files = { λ room. room.files };

    fn read(&mut self, alloc: Global, path: &str) -> Result<Option<Bytes>, PortFail>
        ensures value { IfOk result (λ bytes. bytes ≡ map.get self.old.files path.now) }
        ensures ok { OnOk result (self.new ≡ record self.old { script = after_call self.old.script }) }
        ensures failed { IsErrOf result PortFail.Failed → self.new ≡ record self.old { script = after_fault self.old.script } }
        ensures memory { IsErrOf result PortFail.Memory → self.new ≡ record self.old { script = after_call self.old.script } }
        ensures exact { IsErrOf result PortFail.Failed ↔ FailsNext self.old.script }
    {
        self.script.count()?;
        match value_of(&self.files, path) {
            Some(bytes) => Ok(Some(Bytes::from_slice(alloc, bytes)?)),
            None => Ok(None),
        }
    }
}
