//! The kinds of object, and the id of one.
ghost use Rattle.std.specs.Prelude.{◌≡◌};
ghost use Rattle.object_frames.specs.Object.{type_word, object_id};

use crate::Id;
use itoa::Buffer;
use sha1::Sha1;

/// The kind of an object.
#[derive(Clone, Copy, PartialEq, Eq, Debug, Drop)]
pub enum Kind {
    Commit,
    Tree,
    Blob,
    Tag,
}

impl Kind {
    /// The word for it in an answer.
    pub fn word(self) -> &'static [u8]
        ensures { result.now ≡ type_word self }
    {
        match self {
            Kind::Commit => b"commit",
            Kind::Tree => b"tree",
            Kind::Blob => b"blob",
            Kind::Tag => b"tag",
        }
    }
}

/// The id of an object: the SHA-1 of its kind, size and content.
pub fn id_of(kind: Kind, content: &[u8]) -> Id
    ensures { result ≡ object_id kind content.now }
{
    let mut size = Buffer::new();
    let mut hasher = Sha1::new();
    hasher.update(kind.word());
    hasher.update(b" ");
    hasher.update(size.format(content.len()).as_bytes());
    hasher.update(b"\0");
    hasher.update(content);
    Id::of_bytes(hasher.finalize())
}
