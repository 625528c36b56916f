//! What a set has, where keys were put in again and again.
use crate::{Fingerprint, KeySet};
use std::test::Fail;

#[test]
fn a_set_has_the_keys_that_were_put_in(rt: HostRuntime) -> Result<(), Fail> {
    let mut keys = KeySet::new(rt.alloc());
    assert_eq!(rt; keys.len(), 0);
    for byte in [5, 2, 9, 5, 0, 2] {
        keys.insert(Fingerprint([byte; 20]))?;
    }
    assert_eq!(rt; keys.len(), 4);
    for (byte, want) in [
        (0, true),
        (1, false),
        (2, true),
        (5, true),
        (9, true),
        (255, false),
    ] {
        assert_eq!(rt; keys.contains(Fingerprint([byte; 20])), want, "at {byte}");
    }
    Ok(())
}
