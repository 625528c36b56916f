//! The part of `git cat-file --batch`.
use child_ports::GitRows;
use stand_world::build;
use std::io::{ErrorKind, Input, Write};
use std::{fs, io};

// What git answers over the history of a directory's script.
fn rows_of(rt: HostRuntime, dir: &str) -> io::Result<GitRows> {
    let path = format!(in rt.alloc(); "{dir}/history.script")?;
    let script = fs::read(&rt, path.as_str())?;
    match build(rt.alloc(), script.as_slice(), dir) {
        Ok(world) => Ok(world.git_rows(rt.alloc())?),
        Err(_) => Err(io::Error::from(ErrorKind::InvalidData)),
    }
}

// Puts the answer to a name: that of the first row which has the name, or that it is missing.
fn put_answer(rt: HostRuntime, rows: &GitRows, name: &str) -> io::Result<()> {
    for row in rows.as_slice() {
        if row.name.as_slice() == name.as_bytes() {
            return rt.stdout().write_all(row.answer.as_slice());
        }
    }
    let line = format!(in rt.alloc(); "{name} missing\n")?;
    rt.stdout().write_all(line.as_bytes())
}

/// Answers the names on standard input, each a line, until it ends. The script is read when the first of them comes.
pub fn answer_names(rt: HostRuntime, dir: &str) -> io::Result<()> {
    let mut rows = None;
    for name in rt.lines(rt.alloc()) {
        let name = name?;
        if rows.is_none() {
            rows = Some(rows_of(rt, dir)?);
        }
        if let Some(rows) = &rows {
            put_answer(rt, rows, name.as_str())?;
        }
    }
    Ok(())
}
