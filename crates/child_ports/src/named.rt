//! The names that git is asked, and their count.
ghost use Rattle.std.specs.Prelude.{◌≡◌};
ghost use Rattle.std.specs.List.{list_all};
ghost use Rattle.child_ports.specs.Causes.{one_more};
ghost use Rattle.child_ports.specs.Framed.{is_lower_hex_digit};
ghost use Rattle.child_ports.specs.Named.{is_full_id, after_name};

// Whether it is a digit of an id.
fn is_lower_hex(b: u8) -> bool
    ensures { result ≡ is_lower_hex_digit b }
{
    (48 <= b && b <= 57) || (97 <= b && b <= 102)
}

fn all_lower_hex(text: &[u8]) -> bool
    ensures { result ≡ list_all is_lower_hex_digit text.now }
{
    text.iter().all(|b| is_lower_hex(*b))
}

#[tactic(auto, unfolding(crate::specs::Named::is_full_id))]
/// Whether a name is an id in full: 40 lower-case hexadecimal digits.
pub fn is_full_id(name: &[u8]) -> bool
    ensures { result ≡ is_full_id name.now }
{
    if name.len() != 40 {
        return false;
    }
    all_lower_hex(name)
}

// One more, up to the last u64.
fn one_more(count: u64) -> u64
    ensures { result ≡ one_more count }
{
    count.saturating_add(1)
}

/// The count of names once this one is asked. It stays at the last u64, and an id in full isn't counted.
pub fn after_name(named: u64, name: &[u8]) -> u64
    ensures { result ≡ after_name name.now named }
{
    if is_full_id(name) {
        return named;
    }
    one_more(named)
}
