//! gpgv in memory: rows.
ghost use Rattle.std.specs.Prelude.{◌≡◌, ◌↔◌, ◌≤◌, [], true, drop, length, IfOk, OnOk, IsErrOf};
ghost use Rattle.child_ports.specs.Causes.{one_more};
ghost use Rattle.child_ports.specs.Sig.{verdict};
ghost use Rattle.child_ports.specs.Places.{ArePlaced};
ghost use Rattle.child_ports.specs.Script.{unplayed, FailsNext, after_call, after_fault};

use crate::memory::Script;
use crate::memory::places::Places;
use crate::{Bytes, Numbers, PortFail, SigPort, SigRow, SigRows};
use std::alloc::{AllocError, Global};
use std::marker::Model;

/// gpgv as rows. It fails at the calls whose numbers it is given, and only there.
#[derive(Drop)]
pub struct MemSig {
    alloc: Global,
    rows: SigRows,
    // By their payloads.
    places: Places,
    script: Script,
    loaded: Bytes,
    asked: u64,
}

impl Model for MemSig {
    ghost use Rattle.child_ports.specs.MemSig.{SigState};

    ghost Value = { SigState };

    ghost use Rattle.child_ports.specs.MemSigInside.{sig_state, IsFound};

    ghost view = { sig_state };

    ghost invariant = { IsFound };
}

// The place of the first row of each payload.
fn places_of(alloc: Global, rows: &[SigRow]) -> Result<Places, AllocError>
    ensures { IfOk result (λ places. ArePlaced (λ row. row.payload) rows.now places 0) }
{
    let mut places = Places::new(alloc);
    let mut i = rows.len();
    while i > 0 {
        i -= 1;
        places.put(alloc, rows[i].payload.as_slice(), i)?;
    }
    Ok(places)
}

// What the first row for a question says, from a place on, and nothing without one.
fn status_from<'x>(
    rows: &'x [SigRow],
    start: usize,
    keyring: &[u8],
    signature: &[u8],
    payload: &[u8],
) -> &'x [u8]
    ensures { result.now ≡ verdict (drop start rows.now) keyring.now signature.now payload.now }
{
    for i in start..rows.len() {
        let row = &rows[i];
        if row.keyring.as_slice() == keyring
            && row.signature.as_slice() == signature
            && row.payload.as_slice() == payload
        {
            return row.answer.as_slice();
        }
    }
    &[]
}

// What the first row for a question says, and nothing without one.
fn status_of<'x>(
    rows: &'x [SigRow],
    places: &Places,
    keyring: &[u8],
    signature: &[u8],
    payload: &[u8],
) -> &'x [u8]
    requires { ArePlaced (λ row. row.payload) rows.now places.now 0 }
    ensures { result.now ≡ verdict rows.now keyring.now signature.now payload.now }
{
    match places.get(payload) {
        Some(start) => status_from(rows, start, keyring, signature, payload),
        None => &[],
    }
}

impl MemSig {
    /// gpgv that answers by these rows, of which the first for a question counts. No keyring is loaded.
    pub fn new(alloc: Global, rows: SigRows, fails: Numbers) -> Result<MemSig, AllocError>
        ensures rows { IfOk result (λ sig. sig.rows ≡ rows) }
        ensures script { IfOk result (λ sig. sig.script ≡ unplayed fails) }
        ensures loaded { IfOk result (λ sig. sig.loaded ≡ []) }
        ensures asked { IfOk result (λ sig. sig.asked ≡ 0) }
    {
        let places = places_of(alloc, rows.as_slice())?;
        Ok(MemSig {
            alloc,
            rows,
            places,
            script: Script::new(fails),
            loaded: Bytes::new(alloc),
            asked: 0,
        })
    }

    /// How often `verify` was called, whatever it answered. It stays at the last u64.
    pub fn asked(&self) -> u64
        ensures { result ≡ self.now.asked }
    {
        self.asked
    }
}

impl SigPort for MemSig {
    ghost faults = { λ sig. sig.script.faults };

    ghost tells = { λ sig. true };

    ghost table = { λ sig. sig.rows };

    ghost loaded = { λ sig. sig.loaded };

    ghost asked = { λ sig. sig.asked };

    fn load(&mut self, keyring: &[u8]) -> Result<(), PortFail>
        ensures ok { OnOk result (self.new ≡ record self.old { script = after_call self.old.script; loaded = keyring.now }) }
        ensures failed { IsErrOf result PortFail.Failed → self.new ≡ record self.old { script = after_fault self.old.script } }
        ensures memory { IsErrOf result PortFail.Memory → self.new ≡ record self.old { script = after_call self.old.script } }
        ensures exact { IsErrOf result PortFail.Failed ↔ FailsNext self.old.script }
    {
        self.script.count()?;
        self.loaded = Bytes::from_slice(self.alloc, keyring)?;
        Ok(())
    }

    fn verify(&mut self, alloc: Global, signature: &[u8], payload: &[u8]) -> Result<Bytes, PortFail>
        ensures answer { IfOk result (λ status. status ≡ verdict self.old.rows self.old.loaded signature.now payload.now) }
        ensures ok { OnOk result (self.new ≡ record self.old { script = after_call self.old.script; asked = one_more self.old.asked }) }
        ensures failed { IsErrOf result PortFail.Failed → self.new ≡ record self.old { script = after_fault self.old.script; asked = one_more self.old.asked } }
        ensures memory { IsErrOf result PortFail.Memory → self.new ≡ record self.old { script = after_call self.old.script; asked = one_more self.old.asked } }
        ensures exact { IsErrOf result PortFail.Failed ↔ FailsNext self.old.script }
    {
        self.asked = self.asked.saturating_add(1);
        self.script.count()?;
        let status = status_of(
            self.rows.as_slice(),
            &self.places,
            self.loaded.as_slice(),
            signature,
            payload,
        );
        Ok(Bytes::from_slice(alloc, status)?)
    }
}
