//! The fingerprint of a key.
ghost use Rattle.std.specs.Prelude.{◌≡◌, ◌≢◌, ◌↔◌, Some, length, IsSome, MatchOption};
ghost use Rattle.std.specs.List.{AllPass};
ghost use Rattle.hex.specs.Hex.{encode_upper, is_hex_digit, IsBytes};
ghost use Rattle.child_ports.specs.Fingerprint.{is_blank, squeezed, fingerprint_of, fingerprint_in};

/// The fingerprint of a version 4 key: 20 bytes, ordered by them (RFC 9580, section 5.5.4.2).
#[derive(Clone, Copy, PartialEq, Eq, PartialOrd, Ord, Debug, Drop)]
pub struct Fingerprint(pub [u8; 20]);

// The 40 bytes that are left of a text once white space is out.
fn forty(text: &[u8]) -> Option<[u8; 40]>
    ensures { MatchOption result (length (squeezed text.now) ≢ 40) (λ digits. digits ≡ squeezed text.now) }
{
    let mut digits = [0u8; 40];
    let mut count = 0;
    'bytes: for byte in text {
        if is_blank(*byte) {
            continue;
        }
        if count == 40 {
            return None;
        }
        digits[count] = *byte;
        count += 1;
    }
    if count == 40 { Some(digits) } else { None }
}

// Space, tab, LF, VT, FF and CR.
fn is_blank(byte: u8) -> bool
    ensures { result ≡ is_blank byte }
{
    matches!(byte, b'\t'..=b'\r' | b' ')
}

impl Fingerprint {
    /// Reads 40 hexadecimal digits of either case.
    pub fn of_hex(digits: &[u8]) -> Option<Fingerprint>
        ensures exact { result ≡ fingerprint_of digits.now }
        ensures digits { IsSome result ↔ ((length digits.now ≡ 40) × AllPass is_hex_digit digits.now) }
    {
        let mut bytes = [0u8; 20];
        match hex::decode_to_slice(digits, &mut bytes) {
            Ok(()) => Some(Fingerprint(bytes)),
            Err(_) => None,
        }
    }

    /// Reads a text in which 40 hexadecimal digits of either case are left once space, tab, LF, VT, FF and CR
    /// are out.
    pub fn of_text(text: &str) -> Option<Fingerprint>
        ensures exact { result ≡ fingerprint_in text.now }
        ensures digits { IsSome result ↔ ((length (squeezed text.now) ≡ 40) × AllPass is_hex_digit (squeezed text.now)) }
    {
        let digits = forty(text.as_bytes())?;
        Fingerprint::of_hex(&digits)
    }

    // Writes the digits.
    #[tactic(auto, using(crate::proofs::FingerprintLemmas::raised))]
    fn write_digits(&self, out: &mut [u8; 40])
        ensures digits { out.new ≡ encode_upper self.now.0 }
        ensures count { length self.now.0 ≡ 20 }
        ensures bytes { IsBytes self.now.0 }
    {
        let bytes = self.0;
        let all = bytes.as_slice();
        let _ = hex::encode_to_slice(all, out);
        out.make_ascii_uppercase();
    }

    /// Writes the 40 digits, in upper case. They are read as this fingerprint.
    pub fn write_hex(&self, out: &mut [u8; 40])
        ensures digits { out.new ≡ encode_upper self.now.0 }
        ensures again { fingerprint_of out.new ≡ Some self.now }
    {
        self.write_digits(out);
    }
}

#[cfg(test)]
mod tests {
    use super::*;

    const BYTES: [u8; 20] = [
        0xBB, 0xB0, 0x2D, 0xDF, 0x2C, 0xEA, 0xF6, 0xA8, 0x0D, 0x1D, 0xE6, 0x43, 0xA2, 0xA0, 0x6D,
        0xF2, 0xA3, 0x3A, 0x54, 0xFA,
    ];

    #[test]
    fn of_text_takes_out_white_space_and_wants_forty_digits(rt: HostRuntime) {
        let key = Some(Fingerprint(BYTES));
        for (text, want) in [
            ("BBB0 2DDF 2CEA F6A8 0D1D  E643 A2A0 6DF2 A33A 54FA", key),
            ("bbb02ddf2ceaf6a80d1de643a2a06df2a33a54fa", key),
            (
                " \tBBB02DDF2CEA\nF6A80D1D\u{b}E643A2A0\u{c}6DF2A33A54FA\r",
                key,
            ),
            ("BBB02DDF2CEAF6A80D1DE643A2A06DF2A33A54F", None),
            ("BBB02DDF2CEAF6A80D1DE643A2A06DF2A33A54FA0", None),
            ("BBB02DDF2CEAF6A80D1DE643A2A06DF2A33A54Fg", None),
            ("BBB02DDF2CEAF6A80D1D\0E643A2A06DF2A33A54FA", None),
            ("", None),
        ] {
            assert_eq!(rt; Fingerprint::of_text(text), want, "at {text}");
        }
    }

    #[test]
    fn of_hex_takes_digits_alone(rt: HostRuntime) {
        for (digits, want) in [
            (
                "bbb02ddf2ceaf6a80d1de643a2a06df2a33A54FA",
                Some(Fingerprint(BYTES)),
            ),
            ("BBB02DDF2CEAF6A80D1D E643A2A06DF2A33A54FA", None),
            ("BBB02DDF2CEAF6A80D1DE643A2A06DF2A33A54 A", None),
        ] {
            assert_eq!(rt; Fingerprint::of_hex(digits.as_bytes()), want, "at {digits}");
        }
    }

    #[test]
    fn write_hex_writes_upper_case(rt: HostRuntime) {
        let mut out = [0u8; 40];
        Fingerprint(BYTES).write_hex(&mut out);
        assert_eq!(rt; &out, b"BBB02DDF2CEAF6A80D1DE643A2A06DF2A33A54FA");
    }
}
