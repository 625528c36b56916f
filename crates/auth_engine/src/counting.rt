//! How often each key signed.
ghost use Rattle.std.specs.Prelude.{◌≡◌, ◌≤◌, length, map, IfOk};
ghost use Rattle.std.specs.BTreeMap as tree;
ghost use Rattle.std.specs.BTreeSet as sorted;
ghost use Rattle.child_ports.specs.KeySet.{key_cmp};
ghost use Rattle.child_ports.specs.declared.fingerprint.Fingerprint.{Fingerprint};
ghost use Rattle.auth_engine.specs.Counting.{counted, row_cmp, row_of, signer_of};
ghost use Rattle.auth_engine.specs.Tally.{IsTally, count_of};

use crate::{Signer, SignerList};
use authorizations::Fingerprint;
use std::alloc::{AllocError, Global};
use std::cmp::Reverse;
use std::collections::{BTreeMap, BTreeSet};

// The number of times that each key is among the signers, for those that are.
fn count_keys(
    alloc: Global,
    signers: &[Fingerprint],
) -> Result<BTreeMap<Fingerprint, u32>, AllocError>
    requires few { length signers.now ≤ 1000000 }
    ensures { IfOk result (λ counts. (key : Fingerprint) → tree.get key_cmp counts key ≡ counted (count_of signers.now key)) }
{
    let mut counts = BTreeMap::new(alloc);
    for key in signers {
        let count = counts.get(key).copied().unwrap_or(0);
        counts.insert(*key, count + 1)?;
    }
    Ok(counts)
}

// The keys with their counts, the greatest count first.
fn rank(
    alloc: Global,
    counts: &BTreeMap<Fingerprint, u32>,
) -> Result<BTreeSet<(Reverse<u32>, Fingerprint)>, AllocError>
    ensures rows { IfOk result (sorted.IsFromIterResult row_cmp (map row_of counts.now.entries)) }
    ensures ordered { tree.IsOrdered key_cmp counts.now }
{
    counts
        .iter()
        .map(|(key, count)| (Reverse(*count), *key))
        .collect(alloc)
}

// The rows as signers, in their order.
fn list_rows(
    alloc: Global,
    rows: &BTreeSet<(Reverse<u32>, Fingerprint)>,
) -> Result<Vec<Signer>, AllocError>
    ensures { IfOk result (λ signers. signers.items ≡ map signer_of rows.now.keys) }
{
    rows.iter()
        .map(|row| Signer {
            key: row.1,
            commits: row.0.0,
        })
        .collect(alloc)
}

/// How often each key signed, by descending count and then by fingerprint. There are at most 1,000,000 signers.
pub fn tally(alloc: Global, signers: &[Fingerprint]) -> Result<SignerList, AllocError>
    requires few { length signers.now ≤ 1000000 }
    ensures { IfOk result (λ rows. IsTally signers.now rows) }
{
    let counts = count_keys(alloc, signers)?;
    let rows = rank(alloc, &counts)?;
    let list = list_rows(alloc, &rows)?;
    Ok(SignerList::from_vec(list))
}

#[cfg(test)]
mod tests {
    use super::*;
    use child_ports::Items;
    use std::process::Abort;
    use std::test::Fail;

    // The key that is twenty times this byte.
    fn key(byte: u8) -> Fingerprint {
        Fingerprint([byte; 20])
    }

    fn check_tally(
        rt: &impl Abort,
        alloc: Global,
        signers: &[u8],
        want: &[(u8, u32)],
    ) -> Result<(), Fail> {
        let mut keys = Items::new(alloc);
        for byte in signers {
            keys.push(key(*byte))?;
        }
        let keys = keys.as_slice();
        assert!(rt; keys.len() <= 1_000_000, "there are few");
        let rows = tally(alloc, keys)?;
        assert_eq!(rt; rows.len(), want.len());
        for (row, (byte, commits)) in rows.as_slice().iter().zip(want) {
            assert_eq!(rt;
                *row,
                Signer {
                    key: key(*byte),
                    commits: *commits
                }
            );
        }
        Ok(())
    }

    #[test]
    fn tally_puts_the_greatest_count_first_and_then_the_lesser_key(
        rt: HostRuntime,
    ) -> Result<(), Fail> {
        let rows: [(&[u8], &[(u8, u32)]); 6] = [
            (&[], &[]),
            (&[7, 7], &[(7, 2)]),
            (&[1, 2], &[(1, 1), (2, 1)]),
            (&[2, 1], &[(1, 1), (2, 1)]),
            (&[1, 2, 2], &[(2, 2), (1, 1)]),
            (&[1, 2, 3, 2, 3, 2], &[(2, 3), (3, 2), (1, 1)]),
        ];
        for (signers, want) in rows {
            check_tally(&rt, rt.alloc(), signers, want)?;
        }
        Ok(())
    }
}
