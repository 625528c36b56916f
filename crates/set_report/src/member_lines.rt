//! What an accepted set came to, as lines on standard output.
ghost use Rattle.std.specs.Prelude.{◌≡◌, ◌++◌, OnOk, IfOk};
ghost use Rattle.set_report.specs.MemberLines.{move_word, standing_word, member_line, set_lines_text};

use crate::names::push_text;
use auth_report::push_id;
use channel_deps::{Member, Move, SetVerdict, Standing};
use child_ports::Bytes;
use std::alloc::{AllocError, Global};

// Adds how a target stands to the deployed commit.
fn push_move(text: &mut Bytes, moved: Move) -> Result<(), AllocError>
    ensures { OnOk result (text.new ≡ text.old ++ move_word moved) }
{
    match moved {
        Move::New => text.extend(b"new"),
        Move::Same => text.extend(b"same"),
        Move::Forward => text.extend(b"forward"),
        Move::Back => text.extend(b"back"),
        Move::Unrelated => text.extend(b"unrelated"),
        Move::Lost => text.extend(b"lost"),
    }
}

// Adds whether a target is authentic.
fn push_standing(text: &mut Bytes, standing: Standing) -> Result<(), AllocError>
    ensures { OnOk result (text.new ≡ text.old ++ standing_word standing) }
{
    match standing {
        Standing::Authentic => text.extend(b"authentic"),
        Standing::Older => text.extend(b"older"),
        Standing::Unchecked => text.extend(b"unchecked"),
    }
}

// Adds the line of a member.
fn push_member(text: &mut Bytes, member: &Member) -> Result<(), AllocError>
    ensures { OnOk result (text.new ≡ text.old ++ member_line member.now) }
{
    push_text(text, &member.name)?;
    text.extend(b" ")?;
    push_id(text, member.target)?;
    text.extend(b" ")?;
    push_move(text, member.moved)?;
    text.extend(b" ")?;
    push_standing(text, member.standing)?;
    text.extend(b"\n")
}

/// A line for each member of a set, in order: its name, its target, its move and its standing.
pub fn set_lines(alloc: Global, verdict: &SetVerdict) -> Result<Bytes, AllocError>
    ensures { IfOk result (λ text. text ≡ set_lines_text verdict.now) }
{
    let mut text = Bytes::new(alloc);
    for member in verdict.members.as_slice() {
        push_member(&mut text, member)?;
    }
    Ok(text)
}
