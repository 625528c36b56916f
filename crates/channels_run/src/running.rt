//! A run of `channels`.
ghost use Rattle.std.specs.Prelude.{◌≡◌, ◌≢◌, ◌⊎◌, false, Some, IfOk, IsTrue};
ghost use Rattle.child_ports.specs.Causes.{AtMostOnce, Stayed};
ghost use Rattle.child_ports.specs.Keeper.{with_pairs};
ghost use Rattle.auth_words.specs.Words.{IsFittingSet};
ghost use Rattle.channel_file.specs.Limits.{AreListed};
ghost use Rattle.channel_deps.specs.Limits.{FitsSet};
ghost use Rattle.channel_deps.specs.Outcome.{AreSoundOrNone, HasSoundCaches};
ghost use Rattle.channel_deps.specs.Outside.{outside};
ghost use Rattle.run_answers.specs.Answers.{Answer};
ghost use Rattle.run_answers.specs.Ended.{IsFinished, IsItOrStopped, IsItOrUnread, Shows, StoresOnce, stored, sunk};
ghost use Rattle.run_answers.specs.Faults.{IsChildFault, IsEndFault, IsOtherFault, counts, ends};
ghost use Rattle.channels_run.specs.Answers.{set_for, set_ending, IsSetDue, IsListAnswer, list_unread, HasSetVerdict, IsAcceptedSet, OfSet, KeepsOrStoresAll, KeepsOrPutsAll, SetPutsFor, StoresSetVerdict, SetStoresFor, AsksSetAsTold, SetAsksFor};

use crate::listing::listed_channels;
use crate::showing::tell_set_refusal;
use auth_words::ChannelsPlan;
use channel_deps::{SetFail, SetTask, SetVerdict, authenticate_set};
use channel_file::ChannelList;
use child_ports::{FileRoom, GitPort, Keeper, SigPort, Sink, Text};
use run_answers::{Ending, OUT_OF_MEMORY, finish, tell};
use set_report::{set_lines, set_warnings};
use std::alloc::{AllocError, Global};

// The set of a plan.
fn make_set(
    alloc: Global,
    plan: &ChannelsPlan,
    channels: ChannelList,
) -> Result<SetTask, AllocError>
    ensures { IfOk result (λ set. set ≡ set_for plan.now channels) }
{
    let mut clones = Text::new(alloc);
    clones.push(plan.clones.as_str())?;
    Ok(SetTask {
        clones,
        channels,
        allow_downgrades: plan.allow_downgrades,
        check: plan.check,
    })
}

// All that an accepted set leaves.
fn make_ending(alloc: Global, verdict: SetVerdict) -> Result<Ending, AllocError>
    ensures { IfOk result (λ ending. ending ≡ set_ending verdict) }
{
    let warnings = set_warnings(alloc, &verdict)?;
    let output = set_lines(alloc, &verdict)?;
    let SetVerdict { store, .. } = verdict;
    Ok(Ending {
        store,
        warnings,
        output,
    })
}

// Stores all that a verdict has to be kept, and then puts warnings and lines. All of it is made before the store is called.
fn finish_set<K: Keeper, O: Sink, E: Sink>(
    alloc: Global,
    verdict: SetVerdict,
    keeper: &mut K,
    out: &mut O,
    err: &mut E,
) -> u8
    ensures answer { IsTrue (K.tells keeper.old) → IsTrue (O.tells out.old) → IsTrue (E.tells err.old) →
        (answer : Answer) × IsFinished (K.kept keeper.old) (set_ending verdict) (K.faults keeper.old) (K.faults keeper.new) answer
        × Shows answer result (stored (K.kept keeper.old) (K.faults keeper.old)) (stored (K.kept keeper.new) (K.faults keeper.new))
        (sunk (O.taken out.old) (O.faults out.old)) (sunk (O.taken out.new) (O.faults out.new))
        (sunk (E.taken err.old) (E.faults err.old)) (sunk (E.taken err.new) (E.faults err.new)) }
    ensures status { (result ≡ 0) ⊎ (result ≡ 5) ⊎ (result ≡ 6) }
    ensures fault { IsEndFault (Unit {0}) result (ends (K.faults keeper.old) (O.faults out.old) (E.faults err.old)) (ends (K.faults keeper.new) (O.faults out.new) (E.faults err.new)) }
    ensures keeps { IsTrue (K.tells keeper.old) → IsTrue (K.tells keeper.new) →
        (K.kept keeper.new ≡ K.kept keeper.old) ⊎ (K.kept keeper.new ≡ with_pairs (K.kept keeper.old) verdict.store) }
    ensures one_store { AtMostOnce (K.stores keeper.old) (K.stores keeper.new) }
    ensures stores { StoresOnce verdict.store (K.stores keeper.old) (K.stores keeper.new) ⊎ ((K.stores keeper.new ≡ K.stores keeper.old) × (result ≡ 6)) }
    ensures unchanged { IsTrue (K.tells keeper.old) → IsTrue (K.tells keeper.new) → result ≡ 6 → K.kept keeper.new ≡ K.kept keeper.old }
    ensures keeper_told { IsTrue (K.tells keeper.new) → IsTrue (K.tells keeper.old) }
    ensures keeper_tells { Stayed (K.faults keeper.old) (K.faults keeper.new) → IsTrue (K.tells keeper.old) → IsTrue (K.tells keeper.new) }
    ensures out_told { O.tells out.new ≡ O.tells out.old }
    ensures err_told { E.tells err.new ≡ E.tells err.old }
{
    let Ok(ending) = make_ending(alloc, verdict) else {
        return tell(err, OUT_OF_MEMORY, 6);
    };
    finish(&ending, keeper, out, err)
}

// Checks the set of a plan with these channels.
fn run_set<G: GitPort, V: SigPort, K: Keeper, O: Sink, E: Sink>(
    alloc: Global,
    plan: &ChannelsPlan,
    channels: ChannelList,
    git: &mut G,
    gpgv: &mut V,
    keeper: &mut K,
    out: &mut O,
    err: &mut E,
) -> u8
    requires fits { IsFittingSet plan.now }
    requires listed { AreListed channels }
    ensures answer { IsTrue (G.tells git.old) → IsTrue (V.tells gpgv.old) → IsTrue (K.tells keeper.old) → IsTrue (O.tells out.old) → IsTrue (E.tells err.old) →
        let o = outside (G.table git.old) (V.table gpgv.old) (K.kept keeper.old) in
        AreSoundOrNone o (set_for plan.now channels) →
        (answer : Answer) × IsItOrStopped (IsSetDue o plan.now channels) (K.kept keeper.old)
        (counts (G.faults git.old) (V.faults gpgv.old) (K.faults keeper.old)) (counts (G.faults git.new) (V.faults gpgv.new) (K.faults keeper.new)) answer
        × Shows answer result (stored (K.kept keeper.old) (K.faults keeper.old)) (stored (K.kept keeper.new) (K.faults keeper.new))
        (sunk (O.taken out.old) (O.faults out.old)) (sunk (O.taken out.new) (O.faults out.new))
        (sunk (E.taken err.old) (E.faults err.old)) (sunk (E.taken err.new) (E.faults err.new)) }
    ensures accepted { IsTrue (G.tells git.old) → IsTrue (V.tells gpgv.old) → IsTrue (K.tells keeper.old) →
        let o = outside (G.table git.old) (V.table gpgv.old) (K.kept keeper.old) in
        AreSoundOrNone o (set_for plan.now channels) → result ≡ 0 → HasSetVerdict o (set_for plan.now channels) }
    ensures complete { IsTrue (G.tells git.old) → IsTrue (V.tells gpgv.old) → IsTrue (K.tells keeper.old) →
        let o = outside (G.table git.old) (V.table gpgv.old) (K.kept keeper.old) in
        HasSoundCaches o (set_for plan.now channels) → HasSetVerdict o (set_for plan.now channels) →
        (result ≡ 0) ⊎ (result ≡ 4) ⊎ (result ≡ 5) ⊎ (result ≡ 6) }
    ensures child_fault { IsChildFault result (G.faults git.old) (G.faults git.new) (V.faults gpgv.old) (V.faults gpgv.new) }
    ensures end_fault { IsEndFault (Unit {0}) result (ends (K.faults keeper.old) (O.faults out.old) (E.faults err.old)) (ends (K.faults keeper.new) (O.faults out.new) (E.faults err.new)) }
    ensures no_words { result ≢ 2 }
    ensures unchanged { IsTrue (K.tells keeper.old) → IsTrue (K.tells keeper.new) → result ≢ 0 → result ≢ 5 → K.kept keeper.new ≡ K.kept keeper.old }
    ensures keeps { IsTrue (G.tells git.old) → IsTrue (V.tells gpgv.old) → IsTrue (K.tells keeper.old) → IsTrue (K.tells keeper.new) →
        let o = outside (G.table git.old) (V.table gpgv.old) (K.kept keeper.old) in
        AreSoundOrNone o (set_for plan.now channels) → KeepsOrStoresAll o (K.kept keeper.new) (set_for plan.now channels) }
    ensures puts { IsTrue (G.tells git.old) → IsTrue (V.tells gpgv.old) → IsTrue (K.tells keeper.old) → IsTrue (K.tells keeper.new) →
        KeepsOrPutsAll (outside (G.table git.old) (V.table gpgv.old) (K.kept keeper.old)) (set_for plan.now channels) (K.kept keeper.new) }
    ensures one_store { AtMostOnce (K.stores keeper.old) (K.stores keeper.new) }
    ensures stores { IsTrue (G.tells git.old) → IsTrue (V.tells gpgv.old) → IsTrue (K.tells keeper.old) →
        StoresSetVerdict (outside (G.table git.old) (V.table gpgv.old) (K.kept keeper.old)) (set_for plan.now channels) result (K.stores keeper.old) (K.stores keeper.new) }
    ensures asked { IsTrue (G.tells git.old) → IsTrue (V.tells gpgv.old) → IsTrue (K.tells keeper.old) →
        AsksSetAsTold (outside (G.table git.old) (V.table gpgv.old) (K.kept keeper.old)) (set_for plan.now channels) result (V.asked gpgv.old) (V.asked gpgv.new) }
    ensures unstored { result ≢ 0 → result ≢ 5 → result ≢ 6 → K.stores keeper.new ≡ K.stores keeper.old }
    ensures unasked { plan.now.check ≡ false → V.asked gpgv.new ≡ V.asked gpgv.old }
    ensures git_told { G.tells git.new ≡ G.tells git.old }
    ensures git_table { G.table git.new ≡ G.table git.old }
    ensures gpgv_told { V.tells gpgv.new ≡ V.tells gpgv.old }
    ensures gpgv_table { V.table gpgv.new ≡ V.table gpgv.old }
    ensures keeper_told { IsTrue (K.tells keeper.new) → IsTrue (K.tells keeper.old) }
    ensures keeper_tells { Stayed (K.faults keeper.old) (K.faults keeper.new) → IsTrue (K.tells keeper.old) → IsTrue (K.tells keeper.new) }
    ensures out_told { O.tells out.new ≡ O.tells out.old }
    ensures err_told { E.tells err.new ≡ E.tells err.old }
{
    let Ok(set) = make_set(alloc, plan, channels) else {
        return tell_set_refusal(alloc, err, &SetFail::Memory);
    };
    match authenticate_set(alloc, git, gpgv, keeper, &set) {
        Ok(verdict) => finish_set(alloc, verdict, keeper, out, err),
        Err(fail) => tell_set_refusal(alloc, err, &fail),
    }
}

/// Authenticates the channels of a plan's file: reads the file, checks the set, keeps all pairs in one call and prints what is
/// due, and gives the status.
pub fn run_channels<G: GitPort, V: SigPort, K: Keeper, R: FileRoom, O: Sink, E: Sink>(
    alloc: Global,
    plan: &ChannelsPlan,
    git: &mut G,
    gpgv: &mut V,
    keeper: &mut K,
    room: &mut R,
    out: &mut O,
    err: &mut E,
) -> u8
    requires fits { IsFittingSet plan.now }
    ensures answer { IsTrue (G.tells git.old) → IsTrue (V.tells gpgv.old) → IsTrue (K.tells keeper.old) → IsTrue (R.tells room.old) → IsTrue (O.tells out.old) → IsTrue (E.tells err.old) →
        let o = outside (G.table git.old) (V.table gpgv.old) (K.kept keeper.old) in
        OfSet (R.files room.old) plan.now (AreSoundOrNone o) →
        (answer : Answer) × IsItOrUnread (IsListAnswer o (R.files room.old) plan.now) (Some (list_unread o.kept plan.now)) o.kept
        (counts (G.faults git.old) (V.faults gpgv.old) (K.faults keeper.old)) (counts (G.faults git.new) (V.faults gpgv.new) (K.faults keeper.new)) (R.faults room.old) (R.faults room.new) answer
        × Shows answer result (stored o.kept (K.faults keeper.old)) (stored (K.kept keeper.new) (K.faults keeper.new))
        (sunk (O.taken out.old) (O.faults out.old)) (sunk (O.taken out.new) (O.faults out.new))
        (sunk (E.taken err.old) (E.faults err.old)) (sunk (E.taken err.new) (E.faults err.new)) }
    ensures accepted { IsTrue (G.tells git.old) → IsTrue (V.tells gpgv.old) → IsTrue (K.tells keeper.old) → IsTrue (R.tells room.old) →
        let o = outside (G.table git.old) (V.table gpgv.old) (K.kept keeper.old) in
        OfSet (R.files room.old) plan.now (AreSoundOrNone o) → result ≡ 0 → IsAcceptedSet o (R.files room.old) plan.now }
    ensures complete { IsTrue (G.tells git.old) → IsTrue (V.tells gpgv.old) → IsTrue (K.tells keeper.old) → IsTrue (R.tells room.old) →
        let o = outside (G.table git.old) (V.table gpgv.old) (K.kept keeper.old) in
        OfSet (R.files room.old) plan.now (HasSoundCaches o) → IsAcceptedSet o (R.files room.old) plan.now →
        (result ≡ 0) ⊎ (result ≡ 4) ⊎ (result ≡ 5) ⊎ (result ≡ 6) }
    ensures child_fault { IsChildFault result (G.faults git.old) (G.faults git.new) (V.faults gpgv.old) (V.faults gpgv.new) }
    ensures other_fault { IsOtherFault (Unit {0}) result (ends (K.faults keeper.old) (O.faults out.old) (E.faults err.old)) (ends (K.faults keeper.new) (O.faults out.new) (E.faults err.new)) (R.faults room.old) (R.faults room.new) }
    ensures no_words { result ≢ 2 }
    ensures unchanged { IsTrue (K.tells keeper.old) → IsTrue (K.tells keeper.new) → result ≢ 0 → result ≢ 5 → K.kept keeper.new ≡ K.kept keeper.old }
    ensures keeps { IsTrue (G.tells git.old) → IsTrue (V.tells gpgv.old) → IsTrue (K.tells keeper.old) → IsTrue (K.tells keeper.new) → IsTrue (R.tells room.old) →
        let o = outside (G.table git.old) (V.table gpgv.old) (K.kept keeper.old) in
        OfSet (R.files room.old) plan.now (λ set. AreSoundOrNone o set → KeepsOrStoresAll o (K.kept keeper.new) set) }
    ensures sound { IsTrue (G.tells git.old) → IsTrue (V.tells gpgv.old) → IsTrue (K.tells keeper.old) → IsTrue (K.tells keeper.new) → IsTrue (R.tells room.old) →
        let o = outside (G.table git.old) (V.table gpgv.old) (K.kept keeper.old) in
        let after = outside (G.table git.old) (V.table gpgv.old) (K.kept keeper.new) in
        OfSet (R.files room.old) plan.now (λ set. HasSoundCaches o set → HasSoundCaches after set) }
    ensures puts { IsTrue (G.tells git.old) → IsTrue (V.tells gpgv.old) → IsTrue (K.tells keeper.old) → IsTrue (K.tells keeper.new) → IsTrue (R.tells room.old) →
        SetPutsFor (outside (G.table git.old) (V.table gpgv.old) (K.kept keeper.old)) (R.files room.old) plan.now (K.kept keeper.new) }
    ensures one_store { AtMostOnce (K.stores keeper.old) (K.stores keeper.new) }
    ensures stores { IsTrue (G.tells git.old) → IsTrue (V.tells gpgv.old) → IsTrue (K.tells keeper.old) → IsTrue (R.tells room.old) →
        SetStoresFor (outside (G.table git.old) (V.table gpgv.old) (K.kept keeper.old)) (R.files room.old) plan.now result (K.stores keeper.old) (K.stores keeper.new) }
    ensures asked { IsTrue (G.tells git.old) → IsTrue (V.tells gpgv.old) → IsTrue (K.tells keeper.old) → IsTrue (R.tells room.old) →
        SetAsksFor (outside (G.table git.old) (V.table gpgv.old) (K.kept keeper.old)) (R.files room.old) plan.now result (V.asked gpgv.old) (V.asked gpgv.new) }
    ensures unstored { result ≢ 0 → result ≢ 5 → result ≢ 6 → K.stores keeper.new ≡ K.stores keeper.old }
    ensures unasked { plan.now.check ≡ false → V.asked gpgv.new ≡ V.asked gpgv.old }
    ensures git_told { G.tells git.new ≡ G.tells git.old }
    ensures git_table { G.table git.new ≡ G.table git.old }
    ensures gpgv_told { V.tells gpgv.new ≡ V.tells gpgv.old }
    ensures gpgv_table { V.table gpgv.new ≡ V.table gpgv.old }
    ensures keeper_told { IsTrue (K.tells keeper.new) → IsTrue (K.tells keeper.old) }
    ensures keeper_tells { Stayed (K.faults keeper.old) (K.faults keeper.new) → IsTrue (K.tells keeper.old) → IsTrue (K.tells keeper.new) }
    ensures room_told { R.tells room.new ≡ R.tells room.old }
    ensures files { R.files room.new ≡ R.files room.old }
    ensures out_told { O.tells out.new ≡ O.tells out.old }
    ensures err_told { E.tells err.new ≡ E.tells err.old }
{
    match listed_channels(alloc, plan.file.as_str(), room, err) {
        Ok(channels) => run_set(alloc, plan, channels, git, gpgv, keeper, out, err),
        Err(status) => status,
    }
}
