//! Whether rows can stand for git's answers.
ghost use Rattle.std.specs.Prelude.{◌≡◌, ◌↔◌, [], ◌++◌, List, ℕ, IsTrue};
ghost use Rattle.std.specs.List.{AllByRecursion};
ghost use Rattle.child_ports.specs.Git.{IsName};
ghost use Rattle.child_ports.specs.Framed.{IsFramed, IsObjectFrame, RowFits};

use crate::frame_header::read_header;
use crate::{GitRow, GitRows};
use byte_cuts::after;

/// The most bytes that a name may have which git is asked.
const LONGEST_NAME: usize = 1024;

/// Whether git can be asked this name: at most 1,024 bytes, and no line feed.
pub fn is_name(name: &[u8]) -> bool
    ensures { IsTrue result ↔ IsName name.now }
{
    name.len() <= LONGEST_NAME && !name.contains(&b'\n')
}

// Whether nothing follows such a line, if the answer begins with it.
fn stops_at_line(answer: &[u8], name: &[u8], end: &[u8]) -> bool
    ensures { IsTrue result ↔ ((rest : List ℕ) → answer.now ≡ name.now ++ end.now ++ rest → rest ≡ []) }
{
    let Some(rest) = after(answer, name) else {
        return true;
    };
    let Some(rest) = after(rest, end) else {
        return true;
    };
    rest.is_empty()
}

// Whether nothing follows the frame of an object, if the answer begins with one.
fn stops_at_object(answer: &[u8]) -> bool
    ensures { IsTrue result ↔ ((front rest : List ℕ) → answer.now ≡ front ++ rest → IsObjectFrame front → rest ≡ []) }
{
    let Some(header) = read_header(answer) else {
        return true;
    };
    let size = header.size as usize;
    header.rest.len() <= size + 1 || header.rest[size] != b'\n'
}

// Whether the answer is one whole frame for its name, or begins with none.
fn is_framed(name: &[u8], answer: &[u8]) -> bool
    ensures { IsTrue result ↔ IsFramed name.now answer.now }
{
    stops_at_line(answer, name, b" missing\n")
        && stops_at_line(answer, name, b" ambiguous\n")
        && stops_at_object(answer)
}

// Whether the row can stand for an answer of git.
fn row_fits(row: &GitRow) -> bool
    ensures { IsTrue result ↔ RowFits row.now }
{
    is_name(row.name.as_slice()) && is_framed(row.name.as_slice(), row.answer.as_slice())
}

/// Whether the rows can stand for git's answers: each name can be asked, and each answer is one whole
/// frame for its name, or has no front that is one.
pub fn rows_fit(rows: &GitRows) -> bool
    ensures { IsTrue result ↔ AllByRecursion RowFits rows.now }
{
    for row in rows.as_slice() {
        if !row_fits(row) {
            return false;
        }
    }
    true
}

#[cfg(test)]
mod tests {
    use crate::{Bytes, GitRow, GitRows, Text, rows_fit};
    use std::test::Fail;

    const ID: &str = "e69de29bb2d1d6434b8b29ae775ad8c2e48c5391";

    const LONG_ID: &str = "473a0f4c3be8a93681a267e3b1e9a7dcda1185436fe141f7749120a303721813";

    #[test]
    fn rows_fit_where_no_answer_goes_on_behind_its_frame(rt: HostRuntime) -> Result<(), Fail> {
        let alloc = rt.alloc();
        // the name, the answer's parts, and whether the row fits
        for (name, parts, fits) in [
            ("v1", [ID, " blob 0\n\n"], true),
            ("v1", [ID, " blob 0\n\nx"], false),
            ("v1", [ID, " blob 0\nx"], true),
            ("v1", [ID, " blob 3\nab"], true),
            ("v1", [ID, " tree 2\nab\n"], true),
            ("v1", [ID, " tree 2\nab\n\n"], false),
            ("v1", [ID, " blob 00\n\nx"], true),
            ("v1", [ID, " bulb 0\n\nx"], true),
            ("v1", [LONG_ID, " blob 0\n\n"], true),
            ("v1", [LONG_ID, " blob 0\n\nx"], false),
            ("v1", ["v1", " missing\n"], true),
            ("v1", ["v1", " missing\nx"], false),
            ("v1", ["v1", " ambiguous\n"], true),
            ("v1", ["v1", " ambiguous\n\n"], false),
            ("v1", ["v2", " missing\nx"], true),
            ("v1", ["", ""], true),
            ("v\n1", ["", ""], false),
        ] {
            let mut row = GitRow {
                dir: Text::new(alloc),
                name: Bytes::from_slice(alloc, name.as_bytes())?,
                answer: Bytes::new(alloc),
            };
            for part in parts {
                row.answer.extend(part.as_bytes())?;
            }
            let mut rows = GitRows::new(alloc);
            rows.push(row)?;
            assert_eq!(rt; rows_fit(&rows), fits, "at {name:?} and {parts:?}");
        }
        Ok(())
    }
}
