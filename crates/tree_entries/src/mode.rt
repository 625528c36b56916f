//! The mode of an entry.
ghost use Rattle.std.specs.Prelude.{◌≡◌, ◌≤◌, true, false, length, IfSome, IfNone};
ghost use Rattle.std.specs.List.{list_all};
ghost use Rattle.tree_entries.specs.Tree.{is_octal, begins_mode, is_mode, octal_value, is_file_mode};

use std::marker::Model;

/// The mode of an entry. Contracts see its number and whether it is a file's.
#[derive(Clone, Copy, PartialEq, Eq, Debug, Drop)]
pub struct Mode {
    number: u32,
    is_file: bool,
}

impl Model for Mode {
    ghost use Rattle.std.specs.Prelude.{ℕ, Bool};

    ghost Value = { ℕ × Bool };

    ghost view = { λ m. (m.number, m.is_file) };

    ghost inverse = { λ v. record { number = v.0; is_file = v.1 } };
}

impl Mode {
    /// Whether the mode has six digits that begin with `100`.
    pub fn is_file(self) -> bool
        ensures { result ≡ self.1 }
    {
        self.is_file
    }

    /// The value of the octal digits.
    pub fn number(self) -> u32
        ensures { result ≡ self.0 }
    {
        self.number
    }

    /// The mode that five or six octal digits write, of which the first isn't 0.
    pub fn of_digits(digits: &[u8]) -> Option<Mode>
        ensures some { IfSome result (λ mode. (is_mode digits.now ≡ true) × (mode.0 ≡ octal_value digits.now) × (mode.1 ≡ is_file_mode digits.now)) }
        ensures none { IfNone result (is_mode digits.now ≡ false) }
    {
        if !is_mode(digits) {
            return None;
        }
        Some(Mode {
            number: octal_value(digits),
            is_file: digits.len() == 6 && digits.starts_with(b"100"),
        })
    }
}

fn is_octal(digit: u8) -> bool
    ensures { result ≡ is_octal digit }
{
    b'0' <= digit && digit <= b'7'
}

fn all_octal(digits: &[u8]) -> bool
    ensures { result ≡ list_all is_octal digits.now }
{
    digits.iter().all(|digit| is_octal(*digit))
}

/// Whether these are at most six octal digits, the first not 0.
pub fn begins_mode(digits: &[u8]) -> bool
    ensures { result ≡ begins_mode digits.now }
{
    digits.len() <= 6 && !digits.starts_with(b"0") && all_octal(digits)
}

fn is_mode(digits: &[u8]) -> bool
    ensures { result ≡ is_mode digits.now }
{
    digits.len() >= 5 && begins_mode(digits)
}

// The value of octal digits.
fn octal_value(digits: &[u8]) -> u32
    requires short { length digits.now ≤ 6 }
    requires octal { list_all is_octal digits.now ≡ true }
    ensures { result ≡ octal_value digits.now }
{
    let mut number = 0u32;
    for digit in digits {
        number = 8 * number + u32::from(*digit - b'0');
    }
    number
}
