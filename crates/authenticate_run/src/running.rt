//! A run of `authenticate`.
ghost use Rattle.std.specs.Prelude.{◌≡◌, ◌≢◌, ◌⊎◌, IsTrue};
ghost use Rattle.child_ports.specs.Causes.{AtMostOnce, Stayed};
ghost use Rattle.child_ports.specs.Named.{NamedAtMost};
ghost use Rattle.auth_engine.specs.Outcome.{HasAuthenticTarget};
ghost use Rattle.auth_words.specs.Words.{IsFitting};
ghost use Rattle.run_answers.specs.Answers.{Answer};
ghost use Rattle.run_answers.specs.Ended.{IsItOrStopped, IsItOrUnread, Shows, stored, sunk};
ghost use Rattle.run_answers.specs.Faults.{IsChildFault, IsEndFault, IsOtherFault, counts, ends};
ghost use Rattle.authenticate_run.specs.Answers.{IsDue, IsAnswerBy, unread_of};
ghost use Rattle.channel_deps.specs.Outside.{outside};
ghost use Rattle.authenticate_run.specs.Outside.{task_for, OfKeys, HasSoundCache, HasSoundOrNone};
ghost use Rattle.authenticate_run.specs.Run.{KeepsOrStores, KeepsOrPuts, PutsFor, StoresVerdict, StoresFor, AsksAsTold, AsksFor, IsAuthenticFor};

use crate::ending::finish_task;
use crate::historical::historical_keys;
use crate::tasking::make_task;
use auth_engine::{EngineFail, authenticate};
use auth_words::Plan;
use authorizations::KeySet;
use child_ports::{FileRoom, GitPort, Keeper, SigPort, Sink};
use run_answers::tell_refusal;
use std::alloc::Global;

// Authenticates by a plan, with the historical keys of its file.
fn run_task<G: GitPort, V: SigPort, K: Keeper, O: Sink, E: Sink>(
    alloc: Global,
    plan: &Plan,
    historical: KeySet,
    git: &mut G,
    gpgv: &mut V,
    keeper: &mut K,
    out: &mut O,
    err: &mut E,
) -> u8
    requires fits { IsFitting plan.now }
    ensures answer { IsTrue (G.tells git.old) → IsTrue (V.tells gpgv.old) → IsTrue (K.tells keeper.old) → IsTrue (O.tells out.old) → IsTrue (E.tells err.old) →
        let o = outside (G.table git.old) (V.table gpgv.old) (K.kept keeper.old) in
        HasSoundOrNone o plan.now historical →
        (answer : Answer) × IsItOrStopped (IsDue o plan.now historical) (K.kept keeper.old)
        (counts (G.faults git.old) (V.faults gpgv.old) (K.faults keeper.old)) (counts (G.faults git.new) (V.faults gpgv.new) (K.faults keeper.new)) answer
        × Shows answer result (stored (K.kept keeper.old) (K.faults keeper.old)) (stored (K.kept keeper.new) (K.faults keeper.new))
        (sunk (O.taken out.old) (O.faults out.old)) (sunk (O.taken out.new) (O.faults out.new))
        (sunk (E.taken err.old) (E.faults err.old)) (sunk (E.taken err.new) (E.faults err.new)) }
    ensures accepted { IsTrue (G.tells git.old) → IsTrue (V.tells gpgv.old) → IsTrue (K.tells keeper.old) →
        let o = outside (G.table git.old) (V.table gpgv.old) (K.kept keeper.old) in
        HasSoundOrNone o plan.now historical → result ≡ 0 → HasAuthenticTarget o.answers o.verdicts (task_for plan.now historical) }
    ensures complete { IsTrue (G.tells git.old) → IsTrue (V.tells gpgv.old) → IsTrue (K.tells keeper.old) →
        let o = outside (G.table git.old) (V.table gpgv.old) (K.kept keeper.old) in
        HasSoundCache o plan.now historical → HasAuthenticTarget o.answers o.verdicts (task_for plan.now historical) →
        (result ≡ 0) ⊎ (result ≡ 4) ⊎ (result ≡ 5) ⊎ (result ≡ 6) }
    ensures child_fault { IsChildFault result (G.faults git.old) (G.faults git.new) (V.faults gpgv.old) (V.faults gpgv.new) }
    ensures store_fault { IsEndFault ⊥ result (ends (K.faults keeper.old) (O.faults out.old) (E.faults err.old)) (ends (K.faults keeper.new) (O.faults out.new) (E.faults err.new)) }
    ensures no_words { result ≢ 2 }
    ensures unchanged { IsTrue (K.tells keeper.old) → IsTrue (K.tells keeper.new) → result ≢ 0 → result ≢ 5 → K.kept keeper.new ≡ K.kept keeper.old }
    ensures keeps { IsTrue (G.tells git.old) → IsTrue (V.tells gpgv.old) → IsTrue (K.tells keeper.old) → IsTrue (K.tells keeper.new) →
        let o = outside (G.table git.old) (V.table gpgv.old) (K.kept keeper.old) in
        HasSoundOrNone o plan.now historical → KeepsOrStores o plan.now historical (K.kept keeper.new) }
    ensures puts { IsTrue (G.tells git.old) → IsTrue (V.tells gpgv.old) → IsTrue (K.tells keeper.old) → IsTrue (K.tells keeper.new) →
        KeepsOrPuts (outside (G.table git.old) (V.table gpgv.old) (K.kept keeper.old)) plan.now historical (K.kept keeper.new) }
    ensures one_store { AtMostOnce (K.stores keeper.old) (K.stores keeper.new) }
    ensures stores { IsTrue (G.tells git.old) → IsTrue (V.tells gpgv.old) → IsTrue (K.tells keeper.old) →
        StoresVerdict (outside (G.table git.old) (V.table gpgv.old) (K.kept keeper.old)) plan.now historical result (K.stores keeper.old) (K.stores keeper.new) }
    ensures unstored { result ≢ 0 → result ≢ 5 → result ≢ 6 → K.stores keeper.new ≡ K.stores keeper.old }
    ensures asked { IsTrue (G.tells git.old) → IsTrue (V.tells gpgv.old) → IsTrue (K.tells keeper.old) →
        AsksAsTold (outside (G.table git.old) (V.table gpgv.old) (K.kept keeper.old)) plan.now historical result (V.asked gpgv.old) (V.asked gpgv.new) }
    ensures named { NamedAtMost 3 (G.named git.old) (G.named git.new) }
    ensures git_told { G.tells git.new ≡ G.tells git.old }
    ensures git_table { G.table git.new ≡ G.table git.old }
    ensures gpgv_told { V.tells gpgv.new ≡ V.tells gpgv.old }
    ensures gpgv_table { V.table gpgv.new ≡ V.table gpgv.old }
    ensures keeper_told { IsTrue (K.tells keeper.new) → IsTrue (K.tells keeper.old) }
    ensures keeper_tells { Stayed (K.faults keeper.old) (K.faults keeper.new) → IsTrue (K.tells keeper.old) → IsTrue (K.tells keeper.new) }
    ensures out_told { O.tells out.new ≡ O.tells out.old }
    ensures err_told { E.tells err.new ≡ E.tells err.old }
{
    let Ok(task) = make_task(alloc, plan, historical) else {
        return tell_refusal(alloc, err, &EngineFail::Memory);
    };
    match authenticate(alloc, git, gpgv, keeper, &task) {
        Ok(verdict) => finish_task(alloc, plan, verdict, keeper, out, err),
        Err(fail) => tell_refusal(alloc, err, &fail),
    }
}

/// Authenticates by a plan: reads its file, checks its task, keeps and prints what is due, and gives the status.
pub fn run_authenticate<G: GitPort, V: SigPort, K: Keeper, R: FileRoom, O: Sink, E: Sink>(
    alloc: Global,
    plan: &Plan,
    git: &mut G,
    gpgv: &mut V,
    keeper: &mut K,
    room: &mut R,
    out: &mut O,
    err: &mut E,
) -> u8
    requires fits { IsFitting plan.now }
    ensures answer { IsTrue (G.tells git.old) → IsTrue (V.tells gpgv.old) → IsTrue (K.tells keeper.old) → IsTrue (R.tells room.old) → IsTrue (O.tells out.old) → IsTrue (E.tells err.old) →
        let o = outside (G.table git.old) (V.table gpgv.old) (K.kept keeper.old) in
        OfKeys (R.files room.old) plan.now (HasSoundOrNone o plan.now) →
        (answer : Answer) × IsItOrUnread (IsAnswerBy o (R.files room.old) plan.now) (unread_of o.kept plan.now) o.kept
        (counts (G.faults git.old) (V.faults gpgv.old) (K.faults keeper.old)) (counts (G.faults git.new) (V.faults gpgv.new) (K.faults keeper.new)) (R.faults room.old) (R.faults room.new) answer
        × Shows answer result (stored o.kept (K.faults keeper.old)) (stored (K.kept keeper.new) (K.faults keeper.new))
        (sunk (O.taken out.old) (O.faults out.old)) (sunk (O.taken out.new) (O.faults out.new))
        (sunk (E.taken err.old) (E.faults err.old)) (sunk (E.taken err.new) (E.faults err.new)) }
    ensures accepted { IsTrue (G.tells git.old) → IsTrue (V.tells gpgv.old) → IsTrue (K.tells keeper.old) → IsTrue (R.tells room.old) →
        let o = outside (G.table git.old) (V.table gpgv.old) (K.kept keeper.old) in
        OfKeys (R.files room.old) plan.now (HasSoundOrNone o plan.now) → result ≡ 0 →
        IsAuthenticFor o (R.files room.old) plan.now }
    ensures complete { IsTrue (G.tells git.old) → IsTrue (V.tells gpgv.old) → IsTrue (K.tells keeper.old) → IsTrue (R.tells room.old) →
        let o = outside (G.table git.old) (V.table gpgv.old) (K.kept keeper.old) in
        OfKeys (R.files room.old) plan.now (HasSoundCache o plan.now) → IsAuthenticFor o (R.files room.old) plan.now →
        (result ≡ 0) ⊎ (result ≡ 4) ⊎ (result ≡ 5) ⊎ (result ≡ 6) }
    ensures child_fault { IsChildFault result (G.faults git.old) (G.faults git.new) (V.faults gpgv.old) (V.faults gpgv.new) }
    ensures other_fault { IsOtherFault ⊥ result (ends (K.faults keeper.old) (O.faults out.old) (E.faults err.old)) (ends (K.faults keeper.new) (O.faults out.new) (E.faults err.new)) (R.faults room.old) (R.faults room.new) }
    ensures no_words { result ≢ 2 }
    ensures unchanged { IsTrue (K.tells keeper.old) → IsTrue (K.tells keeper.new) → result ≢ 0 → result ≢ 5 → K.kept keeper.new ≡ K.kept keeper.old }
    ensures keeps { IsTrue (G.tells git.old) → IsTrue (V.tells gpgv.old) → IsTrue (K.tells keeper.old) → IsTrue (K.tells keeper.new) → IsTrue (R.tells room.old) →
        let o = outside (G.table git.old) (V.table gpgv.old) (K.kept keeper.old) in
        OfKeys (R.files room.old) plan.now (λ keys. HasSoundOrNone o plan.now keys → KeepsOrStores o plan.now keys (K.kept keeper.new)) }
    ensures puts { IsTrue (G.tells git.old) → IsTrue (V.tells gpgv.old) → IsTrue (K.tells keeper.old) → IsTrue (K.tells keeper.new) → IsTrue (R.tells room.old) →
        PutsFor (outside (G.table git.old) (V.table gpgv.old) (K.kept keeper.old)) (R.files room.old) plan.now (K.kept keeper.new) }
    ensures one_store { AtMostOnce (K.stores keeper.old) (K.stores keeper.new) }
    ensures stores { IsTrue (G.tells git.old) → IsTrue (V.tells gpgv.old) → IsTrue (K.tells keeper.old) → IsTrue (R.tells room.old) →
        StoresFor (outside (G.table git.old) (V.table gpgv.old) (K.kept keeper.old)) (R.files room.old) plan.now result (K.stores keeper.old) (K.stores keeper.new) }
    ensures unstored { result ≢ 0 → result ≢ 5 → result ≢ 6 → K.stores keeper.new ≡ K.stores keeper.old }
    ensures asked { IsTrue (G.tells git.old) → IsTrue (V.tells gpgv.old) → IsTrue (K.tells keeper.old) → IsTrue (R.tells room.old) →
        AsksFor (outside (G.table git.old) (V.table gpgv.old) (K.kept keeper.old)) (R.files room.old) plan.now result (V.asked gpgv.old) (V.asked gpgv.new) }
    // The end and the keyring branch, here and then where a clone has it: no other name than ids in full is asked.
    ensures named { NamedAtMost 3 (G.named git.old) (G.named git.new) }
    ensures git_told { G.tells git.new ≡ G.tells git.old }
    ensures git_table { G.table git.new ≡ G.table git.old }
    ensures gpgv_told { V.tells gpgv.new ≡ V.tells gpgv.old }
    ensures gpgv_table { V.table gpgv.new ≡ V.table gpgv.old }
    ensures keeper_told { IsTrue (K.tells keeper.new) → IsTrue (K.tells keeper.old) }
    ensures keeper_tells { Stayed (K.faults keeper.old) (K.faults keeper.new) → IsTrue (K.tells keeper.old) → IsTrue (K.tells keeper.new) }
    ensures room_told { R.tells room.new ≡ R.tells room.old }
    ensures files { R.files room.new ≡ R.files room.old }
    ensures out_told { O.tells out.new ≡ O.tells out.old }
    ensures err_told { E.tells err.new ≡ E.tells err.old }
{
    match historical_keys(alloc, plan, room, err) {
        Ok(keys) => run_task(alloc, plan, keys, git, gpgv, keeper, out, err),
        Err(status) => status,
    }
}
