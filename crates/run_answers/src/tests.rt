//! Answers that are shown.
use crate::{Ending, finish, tell_refusal};
use auth_engine::EngineFail;
use child_ports::{Bytes, Keeper, MemKeeper, MemSink, Numbers, Pair, Pairs, Text};
use std::alloc::{AllocError, Global};
use std::test::Fail;

fn ending_of(alloc: Global) -> Result<Ending, AllocError> {
    let value = Bytes::from_slice(alloc, b"v")?;
    let warnings = Bytes::from_slice(alloc, b"w\n")?;
    let output = Bytes::from_slice(alloc, b"o\n")?;
    let mut key = Text::new(alloc);
    key.push("k")?;
    let mut store = Pairs::new(alloc);
    store.push(Pair { key, value })?;
    Ok(Ending {
        store,
        warnings,
        output,
    })
}

// The room of standard output and of standard error, the status, and what they have taken.
static ENDINGS: [(usize, usize, u8, &[u8], &[u8]); 3] = [
    (8, 8, 0, b"o\n", b"w\n"),
    (1, 8, 5, b"", b"w\n"),
    (8, 1, 5, b"", b""),
];

fn sink_of(alloc: Global, room: usize) -> Result<MemSink, AllocError> {
    MemSink::new(alloc, room, Numbers::new(alloc))
}

// Whether the ending's pair is kept after one store.
fn is_kept_once(alloc: Global, keeper: &mut MemKeeper) -> bool {
    keeper.stores() == 1 && matches!(keeper.load(alloc, "k"), Ok(Some(_)))
}

#[test]
fn an_ending_is_stored_in_one_call_and_then_shown(rt: HostRuntime) -> Result<(), Fail> {
    let alloc = rt.alloc();
    let ending = ending_of(alloc)?;
    for (room, err_room, status, taken, warned) in &ENDINGS {
        let mut keeper = MemKeeper::new(alloc, &Pairs::new(alloc), Numbers::new(alloc))?;
        let mut out = sink_of(alloc, *room)?;
        let mut err = sink_of(alloc, *err_room)?;
        let end = finish(&ending, &mut keeper, &mut out, &mut err);
        assert!(rt; end == *status && out.taken() == *taken && err.taken() == *warned);
        assert!(rt; is_kept_once(alloc, &mut keeper));
    }
    Ok(())
}

// Whether a refusal ends so, with this line.
fn is_told(alloc: Global, fail: EngineFail, status: u8, line: &str) -> Result<bool, AllocError> {
    let mut err = sink_of(alloc, 64)?;
    let end = tell_refusal(alloc, &mut err, &fail);
    Ok(end == status && err.taken() == line.as_bytes())
}

#[test]
fn a_refusal_is_one_line_with_its_status(rt: HostRuntime) -> Result<(), Fail> {
    let alloc = rt.alloc();
    let many = "guix-auth: more than 1000000 commits\n";
    assert!(rt; is_told(alloc, EngineFail::TooMany, 3, many)?);
    assert!(rt; is_told(alloc, EngineFail::SigFault, 4, "guix-auth: gpgv failed\n")?);
    assert!(rt; is_told(alloc, EngineFail::Memory, 6, "guix-auth: out of memory\n")?);
    Ok(())
}
