//! What an accepted target leaves: records and output.
ghost use Rattle.std.specs.Prelude.{◌≡◌, ◌⊎◌, IfOk, IsTrue};
ghost use Rattle.child_ports.specs.Causes.{AtMostOnce, Stayed};
ghost use Rattle.run_answers.specs.Answers.{Answer};
ghost use Rattle.run_answers.specs.Ended.{IsFinished, Shows, StoresOnce, stored, sunk};
ghost use Rattle.run_answers.specs.Faults.{IsEndFault, ends};
ghost use Rattle.authenticate_run.specs.Answers.{ending_of, output_of, pairs_of, with_store};

use auth_engine::Verdict;
use auth_report::statistics;
use auth_words::Plan;
use child_ports::{Bytes, Keeper, Pair, Pairs, Sink};
use run_answers::{Ending, OUT_OF_MEMORY, finish, tell};
use std::alloc::{AllocError, Global};

// What is printed of a verdict.
fn make_output(alloc: Global, plan: &Plan, verdict: &Verdict) -> Result<Bytes, AllocError>
    ensures { IfOk result (λ text. text ≡ output_of plan.now verdict.now) }
{
    if plan.stats {
        return statistics(alloc, verdict);
    }
    Ok(Bytes::new(alloc))
}

// A pair, if there is one, as pairs.
fn pairs_of(alloc: Global, pair: Option<Pair>) -> Result<Pairs, AllocError>
    ensures { IfOk result (λ pairs. pairs ≡ pairs_of pair) }
{
    let mut pairs = Pairs::new(alloc);
    if let Some(pair) = pair {
        pairs.push(pair)?;
    }
    Ok(pairs)
}

// All that an accepted target leaves.
fn make_ending(alloc: Global, plan: &Plan, verdict: Verdict) -> Result<Ending, AllocError>
    ensures { IfOk result (λ ending. ending ≡ ending_of plan.now verdict) }
{
    let output = make_output(alloc, plan, &verdict)?;
    let Verdict { store, .. } = verdict;
    Ok(Ending {
        store: pairs_of(alloc, store)?,
        warnings: Bytes::new(alloc),
        output,
    })
}

/// Stores what a verdict has to be kept, and then prints what the plan asks of it. All of it is made before the store is
/// called, and nothing behind it takes memory.
pub fn finish_task<K: Keeper, O: Sink, E: Sink>(
    alloc: Global,
    plan: &Plan,
    verdict: Verdict,
    keeper: &mut K,
    out: &mut O,
    err: &mut E,
) -> u8
    ensures answer { IsTrue (K.tells keeper.old) → IsTrue (O.tells out.old) → IsTrue (E.tells err.old) →
        (answer : Answer) × IsFinished (K.kept keeper.old) (ending_of plan.now verdict) (K.faults keeper.old) (K.faults keeper.new) answer
        × Shows answer result (stored (K.kept keeper.old) (K.faults keeper.old)) (stored (K.kept keeper.new) (K.faults keeper.new))
        (sunk (O.taken out.old) (O.faults out.old)) (sunk (O.taken out.new) (O.faults out.new))
        (sunk (E.taken err.old) (E.faults err.old)) (sunk (E.taken err.new) (E.faults err.new)) }
    ensures status { (result ≡ 0) ⊎ (result ≡ 5) ⊎ (result ≡ 6) }
    ensures fault { IsEndFault ⊥ result (ends (K.faults keeper.old) (O.faults out.old) (E.faults err.old)) (ends (K.faults keeper.new) (O.faults out.new) (E.faults err.new)) }
    ensures keeps { IsTrue (K.tells keeper.old) → IsTrue (K.tells keeper.new) →
        (K.kept keeper.new ≡ K.kept keeper.old) ⊎ (K.kept keeper.new ≡ with_store (K.kept keeper.old) verdict.store) }
    ensures one_store { AtMostOnce (K.stores keeper.old) (K.stores keeper.new) }
    ensures stores { StoresOnce (pairs_of verdict.store) (K.stores keeper.old) (K.stores keeper.new) ⊎ ((K.stores keeper.new ≡ K.stores keeper.old) × (result ≡ 6)) }
    ensures unchanged { IsTrue (K.tells keeper.old) → IsTrue (K.tells keeper.new) → result ≡ 6 → K.kept keeper.new ≡ K.kept keeper.old }
    ensures keeper_told { IsTrue (K.tells keeper.new) → IsTrue (K.tells keeper.old) }
    ensures keeper_tells { Stayed (K.faults keeper.old) (K.faults keeper.new) → IsTrue (K.tells keeper.old) → IsTrue (K.tells keeper.new) }
    ensures out_told { O.tells out.new ≡ O.tells out.old }
    ensures err_told { E.tells err.new ≡ E.tells err.old }
{
    let Ok(ending) = make_ending(alloc, plan, verdict) else {
        return tell(err, OUT_OF_MEMORY, 6);
    };
    finish(&ending, keeper, out, err)
}
