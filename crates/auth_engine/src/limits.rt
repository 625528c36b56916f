//! The limits on names and keys.
ghost use Rattle.std.specs.Prelude.{◌≡◌};
ghost use Rattle.std.specs.List.{list_all};
ghost use Rattle.name_limits.specs.Limits.{is_askable};
ghost use Rattle.auth_engine.specs.Limits.{are_askable, task_fits};

use crate::Task;
use child_ports::Bytes;
use name_limits::{is_askable, is_cache_key};

// Whether each of the names can be asked.
fn all_askable(names: &[Bytes]) -> bool
    ensures { result ≡ list_all is_askable names.now }
{
    names.iter().all(|name| is_askable(name.as_slice()))
}

// Whether there are one to four names, and each can be asked.
fn are_askable(names: &[Bytes]) -> bool
    ensures { result ≡ are_askable names.now }
{
    1 <= names.len() && names.len() <= 4 && all_askable(names)
}

/// Whether names and key keep their limits: one to four names each, of 1 to 1,024 bytes of which none is below 32 and none is
/// 127; and a key that can be one of a cache.
pub fn task_fits(task: &Task) -> bool
    ensures { result ≡ task_fits task.now }
{
    are_askable(task.target.as_slice())
        && are_askable(task.keyring.as_slice())
        && is_cache_key(task.cache_key.as_str())
}
