//! Objects as git answers with them.
ghost use Rattle.std.specs.Prelude.{◌≡◌, IfOk};
ghost use Rattle.hex.specs.Hex.{encode_lower};
ghost use Rattle.child_ports.specs.Framed.{object_frame};
ghost use Rattle.object_frames.specs.Object.{type_word};
ghost use Rattle.stand_world.specs.Objects.{framed};

use crate::texts::{push_id, push_number};
use child_ports::Bytes;
use object_frames::{Id, Kind, id_of};
use std::alloc::{AllocError, Global};

/// An object: its id, and git's whole answer with it.
#[derive(Debug, Drop)]
pub struct Framed {
    pub id: Id,
    pub frame: Bytes,
}

// Git's answer with an object.
fn frame_of(alloc: Global, id: &Id, kind: Kind, content: &[u8]) -> Result<Bytes, AllocError>
    ensures { IfOk result (λ frame. frame ≡ object_frame (encode_lower id.now) (type_word kind) content.now) }
{
    let mut frame = Bytes::new(alloc);
    push_id(&mut frame, id)?;
    frame.extend(b" ")?;
    frame.extend(kind.word())?;
    frame.extend(b" ")?;
    push_number(&mut frame, content.len())?;
    frame.extend(b"\n")?;
    frame.extend(content)?;
    frame.extend(b"\n")?;
    Ok(frame)
}

/// The object of this kind and content.
#[tactic(auto, unfolding(crate::specs::Objects::framed))]
pub fn make_object(alloc: Global, kind: Kind, content: &[u8]) -> Result<Framed, AllocError>
    ensures { IfOk result (λ object. object ≡ framed kind content.now) }
{
    let id = id_of(kind, content);
    let frame = frame_of(alloc, &id, kind, content)?;
    Ok(Framed { id, frame })
}
