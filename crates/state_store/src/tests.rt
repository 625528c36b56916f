//! Keepers over a file in the folder of the run, and over memory.
use crate::SqlKeeper;
use child_ports::{Bytes, Keeper, Pair, Pairs, PortFail, Text};
use std::alloc::{AllocError, Global};
use std::rt::Files;
use std::test::Fail;
use std::{fs, io};

fn pair_of(alloc: Global, key: &str, value: &str) -> Result<Pair, AllocError> {
    let value = Bytes::from_slice(alloc, value.as_bytes())?;
    let mut text = Text::new(alloc);
    text.push(key)?;
    Ok(Pair { key: text, value })
}

fn pairs_of(alloc: Global, rows: &[(&str, &str)]) -> Result<Pairs, AllocError> {
    let mut pairs = Pairs::new(alloc);
    for (key, value) in rows {
        pairs.push(pair_of(alloc, key, value)?)?;
    }
    Ok(pairs)
}

// Whether a key has this value, or none.
fn has(alloc: Global, keeper: &mut impl Keeper, key: &str, want: Option<&str>) -> bool {
    match (keeper.load(alloc, key), want) {
        (Ok(Some(value)), Some(text)) => value.as_slice() == text.as_bytes(),
        (Ok(None), None) => true,
        _ => false,
    }
}

// Whether pairs are stored.
fn stores(
    alloc: Global,
    keeper: &mut impl Keeper,
    rows: &[(&str, &str)],
) -> Result<bool, AllocError> {
    let pairs = pairs_of(alloc, rows)?;
    Ok(keeper.store(&pairs) == Ok(()))
}

// Keys of 200 bytes, each with its number.
fn numbered(alloc: Global, count: usize) -> Result<Pairs, AllocError> {
    let mut pairs = Pairs::new(alloc);
    for number in 0..count {
        let digits = format!(in alloc; "{number:0>200}")?;
        pairs.push(pair_of(alloc, digits.as_str(), digits.as_str())?)?;
    }
    Ok(pairs)
}

// Whether each key has itself as its value.
fn are_kept(alloc: Global, keeper: &mut impl Keeper, pairs: &Pairs) -> bool {
    for pair in pairs.as_slice() {
        let key = pair.key.as_str();
        if !has(alloc, keeper, key, Some(key)) {
            return false;
        }
    }
    true
}

// Whether the last value of a key and the empty one are kept, and nothing more.
fn has_the_last(alloc: Global, keeper: &mut impl Keeper) -> bool {
    has(alloc, keeper, "a", Some("2"))
        && has(alloc, keeper, "deployed/x", Some(""))
        && has(alloc, keeper, "b", None)
}

// Whether what is stored is loaded again, after each of three calls.
fn keeps(alloc: Global, keeper: &mut impl Keeper) -> Result<bool, AllocError> {
    let before = has(alloc, keeper, "a", None);
    let rows = [("a", "1"), ("a", "2"), ("deployed/x", "")];
    let first = stores(alloc, keeper, &rows)? && has_the_last(alloc, keeper);
    let many = numbered(alloc, 512)?;
    let second = keeper.store(&many) == Ok(()) && has_the_last(alloc, keeper);
    let third = stores(alloc, keeper, &[])? && has_the_last(alloc, keeper);
    Ok(before && first && second && third && are_kept(alloc, keeper, &many))
}

#[test]
fn what_is_stored_is_loaded_from_memory(rt: HostRuntime) -> Result<(), Fail> {
    let mut keeper = SqlKeeper::in_memory(rt.alloc())?;
    assert!(rt; keeps(rt.alloc(), &mut keeper)?);
    Ok(())
}

#[test]
fn what_is_stored_is_loaded_from_a_file_closed_and_opened(rt: HostRuntime) -> Result<(), Fail> {
    let alloc = rt.alloc();
    let mut keeper = SqlKeeper::at(rt, alloc, "made/on/the/way/kept.sqlite")?;
    assert!(rt; keeps(alloc, &mut keeper)?);
    drop(keeper);
    // The file alone has all.
    fs::copy(&rt, "made/on/the/way/kept.sqlite", "copy.sqlite")?;
    let mut copy = SqlKeeper::at(rt, alloc, "copy.sqlite")?;
    assert!(rt; has_the_last(alloc, &mut copy));
    Ok(())
}

// Whether both calls fail.
fn fails(alloc: Global, keeper: &mut impl Keeper) -> Result<bool, AllocError> {
    let pairs = pairs_of(alloc, &[("a", "two")])?;
    Ok(
        matches!(&keeper.load(alloc, "a"), Err(PortFail::Failed))
            && keeper.store(&pairs) == Err(PortFail::Failed),
    )
}

#[test]
fn a_second_keeper_fails_at_once_and_loses_nothing(rt: HostRuntime) -> Result<(), Fail> {
    let alloc = rt.alloc();
    let mut first = SqlKeeper::at(rt, alloc, "kept.sqlite")?;
    let mut second = SqlKeeper::at(rt, alloc, "kept.sqlite")?;
    assert!(rt; stores(alloc, &mut first, &[("a", "one")])?);
    assert!(rt; fails(alloc, &mut second)?);
    assert!(rt; has(alloc, &mut first, "a", Some("one")));
    drop(first);
    assert!(rt; has(alloc, &mut second, "a", Some("one")));
    Ok(())
}

// Whether both calls fail, and the file at the path is as before.
fn is_refused(rt: HostRuntime, path: &str, file: &str) -> Result<bool, Fail> {
    let alloc = rt.alloc();
    let before = fs::read(&rt, file)?;
    let mut keeper = SqlKeeper::at(rt, alloc, path)?;
    let failed = fails(alloc, &mut keeper)?;
    let after = fs::read(&rt, file)?;
    Ok(failed && after.as_slice() == before.as_slice())
}

#[test]
fn what_is_no_database_is_left_as_it_is(rt: HostRuntime) -> Result<(), Fail> {
    fs::write(&rt, "text", b"no database, but a text of some length")?;
    fs::create_dir(&rt, "folder")?;
    fs::write(&rt, "folder/file", b"a file")?;
    for (path, file) in [
        ("text", "text"),
        ("folder", "folder/file"),
        ("text/kept.sqlite", "text"),
    ] {
        assert!(rt; is_refused(rt, path, file)?, "at {path}");
    }
    Ok(())
}

#[test]
fn a_refused_opening_is_tried_again(rt: HostRuntime) -> Result<(), Fail> {
    let alloc = rt.alloc();
    fs::create_dir(&rt, "kept.sqlite")?;
    let mut keeper = SqlKeeper::at(rt, alloc, "kept.sqlite")?;
    assert!(rt; matches!(&keeper.load(alloc, "a"), Err(PortFail::Failed)));
    fs::remove_dir(&rt, "kept.sqlite")?;
    assert!(rt; has(alloc, &mut keeper, "a", None));
    assert!(rt; stores(alloc, &mut keeper, &[("a", "one")])?);
    assert!(rt; has(alloc, &mut keeper, "a", Some("one")));
    Ok(())
}
