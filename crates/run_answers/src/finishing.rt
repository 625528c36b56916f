//! What an accepted run leaves: records, warnings and output.
ghost use Rattle.std.specs.Prelude.{◌≡◌, ◌≢◌, ◌⊎◌, [], nat_eq, MatchBool, IsErrOf, IsTrue, OnOk};
ghost use Rattle.child_ports.specs.Causes.{AtMostOnce, PortFailsByCount, Rose, Stayed};
ghost use Rattle.child_ports.specs.Keeper.{with_pairs};
ghost use Rattle.run_answers.specs.Answers.{Answer};
ghost use Rattle.run_answers.specs.Ended.{IsFinished, IsOutput, Shows, StoresOnce, stored, sunk};
ghost use Rattle.run_answers.specs.Faults.{IsEndFault, ends};
ghost use Rattle.run_answers.specs.Shown.{IsPut, IsStatus};

use crate::showing::{OUT_OF_MEMORY, STORE_FAILED, print, tell};
use child_ports::{Bytes, Keeper, Pairs, PortFail, Sink};

/// What an accepted run leaves. All of it is made before anything is stored.
#[derive(Debug, Drop)]
pub struct Ending {
    /// What is to be kept.
    pub store: Pairs,
    /// Lines for standard error.
    pub warnings: Bytes,
    /// Lines for standard output.
    pub output: Bytes,
}

// Stores pairs in one call, if there are any.
fn store_all<K: Keeper>(keeper: &mut K, pairs: &Pairs) -> Result<(), PortFail>
    ensures told { IsTrue (K.tells keeper.new) → IsTrue (K.tells keeper.old) }
    ensures ok { OnOk result (IsTrue (K.tells keeper.old) → IsTrue (K.tells keeper.new) × (K.kept keeper.new ≡ with_pairs (K.kept keeper.old) pairs.now)) }
    ensures failed { IsErrOf result PortFail.Failed → IsTrue (K.tells keeper.old) → IsTrue (K.tells keeper.new) →
        (K.kept keeper.new ≡ K.kept keeper.old) ⊎ (K.kept keeper.new ≡ with_pairs (K.kept keeper.old) pairs.now) }
    ensures memory { IsErrOf result PortFail.Memory → IsTrue (K.tells keeper.old) → IsTrue (K.tells keeper.new) × (K.kept keeper.new ≡ K.kept keeper.old) }
    ensures cause { PortFailsByCount (K.faults keeper.old) (K.faults keeper.new) result }
    ensures one_store { AtMostOnce (K.stores keeper.old) (K.stores keeper.new) }
    ensures stores { StoresOnce pairs.now (K.stores keeper.old) (K.stores keeper.new) }
{
    if pairs.len() == 0 {
        return Ok(());
    }
    keeper.store(pairs)
}

// Puts the warnings, and then the output. Where one of them can't be put it is 5, and nothing more is put.
fn show<O: Sink, E: Sink>(ending: &Ending, out: &mut O, err: &mut E) -> u8
    ensures fault { MatchBool (nat_eq result 5)
        (Rose (O.faults out.old) (O.faults out.new) ⊎ ((ending.now.warnings ≢ []) × Rose (E.faults err.old) (E.faults err.new)))
        ((O.faults out.new ≡ O.faults out.old) × (E.faults err.new ≡ E.faults err.old)) }
    ensures answer { IsStatus (Rose (O.faults out.old) (O.faults out.new) ⊎ Rose (E.faults err.old) (E.faults err.new)) 0 result }
    ensures out_told { O.tells out.new ≡ O.tells out.old }
    ensures err_told { E.tells err.new ≡ E.tells err.old }
    ensures output { IsTrue (O.tells out.old) → IsOutput ending.now.output
        (sunk (O.taken out.old) (O.faults out.old)) (sunk (O.taken out.new) (O.faults out.new))
        (sunk (E.taken err.old) (E.faults err.old)) (sunk (E.taken err.new) (E.faults err.new)) }
    ensures line { IsTrue (E.tells err.old) → IsPut (E.taken err.old) (E.taken err.new) ending.now.warnings (E.faults err.old) (E.faults err.new) }
{
    let warned = print(err, ending.warnings.as_slice());
    if warned != 0 {
        return warned;
    }
    print(out, ending.output.as_slice())
}

/// Stores what is to be kept in one call, and then puts warnings and, where they could be put, the output. It takes no memory, but
/// for the store's call.
pub fn finish<K: Keeper, O: Sink, E: Sink>(
    ending: &Ending,
    keeper: &mut K,
    out: &mut O,
    err: &mut E,
) -> u8
    ensures answer { IsTrue (K.tells keeper.old) → IsTrue (O.tells out.old) → IsTrue (E.tells err.old) →
        (answer : Answer) × IsFinished (K.kept keeper.old) ending.now (K.faults keeper.old) (K.faults keeper.new) answer
        × Shows answer result (stored (K.kept keeper.old) (K.faults keeper.old)) (stored (K.kept keeper.new) (K.faults keeper.new))
        (sunk (O.taken out.old) (O.faults out.old)) (sunk (O.taken out.new) (O.faults out.new))
        (sunk (E.taken err.old) (E.faults err.old)) (sunk (E.taken err.new) (E.faults err.new)) }
    ensures status { (result ≡ 0) ⊎ (result ≡ 5) ⊎ (result ≡ 6) }
    ensures fault { IsEndFault (ending.now.warnings ≢ []) result
        (ends (K.faults keeper.old) (O.faults out.old) (E.faults err.old)) (ends (K.faults keeper.new) (O.faults out.new) (E.faults err.new)) }
    ensures keeps { IsTrue (K.tells keeper.old) → IsTrue (K.tells keeper.new) →
        (K.kept keeper.new ≡ K.kept keeper.old) ⊎ (K.kept keeper.new ≡ with_pairs (K.kept keeper.old) ending.now.store) }
    ensures done { IsTrue (K.tells keeper.old) → IsTrue (K.tells keeper.new) → result ≡ 0 → K.kept keeper.new ≡ with_pairs (K.kept keeper.old) ending.now.store }
    ensures one_store { AtMostOnce (K.stores keeper.old) (K.stores keeper.new) }
    ensures stores { StoresOnce ending.now.store (K.stores keeper.old) (K.stores keeper.new) }
    ensures unchanged { IsTrue (K.tells keeper.old) → IsTrue (K.tells keeper.new) → result ≡ 6 → K.kept keeper.new ≡ K.kept keeper.old }
    ensures keeper_told { IsTrue (K.tells keeper.new) → IsTrue (K.tells keeper.old) }
    ensures keeper_tells { Stayed (K.faults keeper.old) (K.faults keeper.new) → IsTrue (K.tells keeper.old) → IsTrue (K.tells keeper.new) }
    ensures out_told { O.tells out.new ≡ O.tells out.old }
    ensures err_told { E.tells err.new ≡ E.tells err.old }
{
    match store_all(keeper, &ending.store) {
        Ok(()) => show(ending, out, err),
        Err(PortFail::Failed) => tell(err, STORE_FAILED, 5),
        Err(PortFail::Memory) => tell(err, OUT_OF_MEMORY, 6),
    }
}
