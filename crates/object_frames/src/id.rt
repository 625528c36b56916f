//! The id of an object.
ghost use Rattle.std.specs.Prelude.{◌≡◌, ◌↔◌, ◌≢◌, List, ℕ, length, IfSome, IfNone, IsSome, IsTrue, Ok};
ghost use Rattle.std.specs.List.{AllPass};
ghost use Rattle.child_ports.specs.Git.{IsName};
ghost use Rattle.child_ports.specs.Named.{is_full_id};
ghost use Rattle.object_frames.specs.Id.{IsId, id_in};
ghost use Rattle.hex.specs.Hex.{decode_of, encode_lower, is_hex_digit};

use child_ports::Items;
use std::marker::Model;

/// The id of an object in Git's sha1 format: 20 bytes, ordered by them.
#[derive(Clone, Copy, PartialEq, Eq, PartialOrd, Ord, Debug, Drop)]
pub struct Id {
    bytes: [u8; 20],
}

pub type IdList = Items<Id>;

impl Model for Id {
    ghost use Rattle.std.specs.Prelude.{List, ℕ};

    ghost Value = { List ℕ };

    ghost view = { λ id. id.bytes };

    ghost use Rattle.object_frames.specs.Id.{IsId};

    ghost invariant = { λ id. IsId id.bytes };

    ghost inverse = { λ bytes. record { bytes = bytes } };
}

impl Id {
    pub fn of_bytes(bytes: [u8; 20]) -> Id
        ensures { result ≡ bytes }
    {
        Id { bytes }
    }

    pub fn bytes(&self) -> [u8; 20]
        ensures value { result ≡ self.now }
        ensures id { IsId self.now }
    {
        self.bytes
    }

    /// Reads 40 hexadecimal digits of either case.
    pub fn of_hex(text: &[u8]) -> Option<Id>
        ensures exact { result ≡ id_in text.now }
        ensures digits { IsSome result ↔ ((length text.now ≡ 40) × AllPass is_hex_digit text.now) }
        ensures value { IfSome result (λ id. decode_of text.now ≡ Ok id) }
        ensures id { IfSome result (λ id. length id ≡ 20) }
    {
        let mut bytes = [0u8; 20];
        match hex::decode_to_slice(text, &mut bytes) {
            Ok(()) => Some(Id::of_bytes(bytes)),
            Err(_) => None,
        }
    }

    /// Reads 40 hexadecimal digits of lower case.
    pub fn of_lower_hex(text: &[u8]) -> Option<Id>
        ensures some { IfSome result (λ id. IsId id × (text.now ≡ encode_lower id)) }
        ensures none { IfNone result ((id : List ℕ) → IsId id → text.now ≢ encode_lower id) }
    {
        let id = Id::of_hex(text)?;
        let mut written = [0u8; 40];
        id.write_hex(&mut written);
        if written.as_slice() == text {
            Some(id)
        } else {
            None
        }
    }

    // Writes the digits.
    fn write_digits(&self, out: &mut [u8; 40])
        ensures digits { out.new ≡ encode_lower self.now }
        ensures id { IsId self.now }
    {
        let _ = hex::encode_to_slice(self.bytes.as_slice(), out);
    }

    /// Writes the 40 digits, in lower case. They are a name that can be asked, and an id in full.
    pub fn write_hex(&self, out: &mut [u8; 40])
        ensures digits { out.new ≡ encode_lower self.now }
        ensures name { IsName out.new }
        ensures full { IsTrue (is_full_id out.new) }
        ensures id { IsId self.now }
    {
        self.write_digits(out);
    }
}
