//! The packet at the front of what is left of a file.
ghost use Rattle.std.specs.Prelude.{◌≡◌, ◌≤◌, ◌<◌, Ok, Err, length, IfOk, IfSome, MatchResult, true};
ghost use Rattle.keyring_branch.specs.PacketReading.{front_of};
ghost use Rattle.keyring_branch.specs.Packets.{tag_of, number, number_at, new_length, old_length, length_of, is_key};
ghost use Rattle.keyring_branch.specs.FrontPacket.{seen, packet_of};

use crate::KeyFail;

/// A packet as it stands in a file, and what follows it.
#[derive(Clone, Copy, Drop)]
pub struct FrontPacket<'x> {
    pub tag: u8,
    pub body: &'x [u8],
    pub rest: &'x [u8],
}

impl FrontPacket<'_> {
    /// Whether it is a version 4 key.
    pub fn is_key(&self) -> bool
        ensures { result ≡ is_key (packet_of self.now) }
    {
        (self.tag == 6 || self.tag == 14) && self.body.starts_with(&[4])
    }
}

// The tag in a first byte: of the new form six bits, of the old form four.
fn tag_of(first: u8) -> u8
    ensures { result ≡ tag_of first }
{
    if first < 192 {
        first % 64 / 4
    } else {
        first % 64
    }
}

// The number that bytes write, most significant first.
fn number(bytes: &[u8]) -> usize
    requires { length bytes.now ≤ 4 }
    ensures { result ≡ number bytes.now }
{
    let mut number = 0usize;
    for byte in bytes {
        number = 256 * number + usize::from(*byte);
    }
    number
}

// The number of so many bytes at the front, and what follows it.
fn number_at(bytes: &[u8], count: usize) -> Option<(usize, &[u8])>
    requires { count ≤ 4 }
    ensures read { seen result ≡ number_at count bytes.now }
    ensures shorter { IfSome result (λ read. length read.1.now ≤ length bytes.now) }
{
    if bytes.len() < count {
        return None;
    }
    Some((number(&bytes[..count]), &bytes[count..]))
}

// The length of a body in the new form, and what follows it.
fn new_length(bytes: &[u8]) -> Option<(usize, &[u8])>
    ensures read { seen result ≡ new_length bytes.now }
    ensures shorter { IfSome result (λ read. length read.1.now ≤ length bytes.now) }
{
    let (first, rest) = bytes.split_first()?;
    match *first {
        0..192 => Some((usize::from(*first), rest)),
        192..224 => {
            let (second, rest) = rest.split_first()?;
            Some((
                (usize::from(*first) - 192) * 256 + usize::from(*second) + 192,
                rest,
            ))
        }
        224..255 => None,
        255 => number_at(rest, 4),
    }
}

// The length of a body in the old form, by the low two bits of the first byte, and what follows it.
fn old_length(kind: u8, bytes: &[u8]) -> Option<(usize, &[u8])>
    ensures read { seen result ≡ old_length kind bytes.now }
    ensures shorter { IfSome result (λ read. length read.1.now ≤ length bytes.now) }
{
    match kind {
        0 => number_at(bytes, 1),
        1 => number_at(bytes, 2),
        2 => number_at(bytes, 4),
        _ => None,
    }
}

#[tactic(auto, unfolding(crate::specs::Packets::length_of))]
fn length_of(first: u8, bytes: &[u8]) -> Option<(usize, &[u8])>
    ensures read { seen result ≡ length_of first bytes.now }
    ensures shorter { IfSome result (λ read. length read.1.now ≤ length bytes.now) }
{
    if first < 192 {
        old_length(first % 4, bytes)
    } else {
        new_length(bytes)
    }
}

/// Reads the packet at the front of what is left, which begins at this place of the file.
#[tactic(auto, unfolding(crate::specs::PacketReading::front_of))]
pub fn front_packet(bytes: &[u8], place: u64) -> Result<FrontPacket<'_>, KeyFail>
    ensures front { MatchResult result (λ packet. front_of place bytes.now ≡ Ok (packet_of packet, packet.rest.now)) (λ fail. front_of place bytes.now ≡ Err fail) }
    ensures shorter { IfOk result (λ packet. length packet.rest.now < length bytes.now) }
    ensures short_key { IfOk result (λ packet. is_key (packet_of packet) ≡ true → length packet.body.now ≤ 65535) }
{
    let Some((first, rest)) = bytes.split_first() else {
        return Err(KeyFail::Packet(place));
    };
    if *first < 128 {
        return Err(KeyFail::Packet(place));
    }
    let tag = tag_of(*first);
    if tag == 0 {
        return Err(KeyFail::Packet(place));
    }
    let Some((size, rest)) = length_of(*first, rest) else {
        return Err(KeyFail::Length(place));
    };
    if rest.len() < size {
        return Err(KeyFail::Length(place));
    }
    let packet = FrontPacket {
        tag,
        body: &rest[..size],
        rest: &rest[size..],
    };
    if packet.is_key() && packet.body.len() > 65_535 {
        return Err(KeyFail::Length(place));
    }
    Ok(packet)
}
