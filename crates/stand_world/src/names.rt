//! The names of keys, commits and branches.
ghost use Rattle.std.specs.Prelude.{◌≡◌};
ghost use Rattle.std.specs.List.{list_all};
ghost use Rattle.stand_world.specs.Names.{is_name_byte, is_name};

fn is_name_byte(byte: &u8) -> bool
    ensures { result ≡ is_name_byte byte.now }
{
    matches!(*byte, b'a'..=b'z' | b'0'..=b'9')
}

fn all_name_bytes(name: &[u8]) -> bool
    ensures { result ≡ list_all is_name_byte name.now }
{
    name.iter().all(|byte| is_name_byte(byte))
}

/// Whether these are 1 to 16 letters from a to z and digits.
pub fn is_name(name: &[u8]) -> bool
    ensures { result ≡ is_name name.now }
{
    1 <= name.len() && name.len() <= 16 && all_name_bytes(name)
}
