//! The top call.
ghost use Rattle.std.specs.Prelude.{◌≡◌, ◌≢◌, ◌⊎◌, Some, IsTrue, MatchOption, false};
ghost use Rattle.child_ports.specs.Causes.{AtMostOnce, Stayed};
ghost use Rattle.child_ports.specs.Named.{NamedAtMost};
ghost use Rattle.auth_words.specs.declared.plan.Plan.{Plan};
ghost use Rattle.auth_words.specs.declared.plan.ChannelsPlan.{ChannelsPlan};
ghost use Rattle.auth_words.specs.declared.plan.Command.TheVariants.{Authenticate, Channels};
ghost use Rattle.auth_words.specs.Words.{command_of};
ghost use Rattle.channel_deps.specs.Outcome.{AreSoundOrNone, HasSoundCaches};
ghost use Rattle.channel_deps.specs.Outside.{outside};
ghost use Rattle.run_answers.specs.Answers.{Answer};
ghost use Rattle.run_answers.specs.Ended.{IsItOrUnread, Shows, stored, sunk};
ghost use Rattle.run_answers.specs.Faults.{IsChildFault, IsOtherFault, counts, ends};
ghost use Rattle.authenticate_run.specs.Outside.{OfKeys, HasSoundCache, HasSoundOrNone};
ghost use Rattle.authenticate_run.specs.Run.{KeepsOrStores, AsksFor, IsAuthenticFor};
ghost use Rattle.channels_run.specs.Answers.{IsAcceptedSet, KeepsOrStoresAll, OfSet, SetAsksFor};
ghost use Rattle.guix_auth_cli.specs.Answers.{IsAnswerOf, IsSoundOrNoneFor, MayWarn, PutsBy, StoresBy, asks_for_check, unread_by};

use crate::help::HELP;
use auth_words::{Command, read_words};
use authenticate_run::run_authenticate;
use channels_run::run_channels;
use child_ports::{FileRoom, GitPort, Keeper, SigPort, Sink, Words};
use run_answers::{OUT_OF_MEMORY, print, tell};
use std::alloc::Global;

const BAD_WORDS: &[u8] = b"guix-auth: bad words; see guix-auth --help\n";

/// Runs a command, and gives the program's status.
pub fn run<G: GitPort, V: SigPort, K: Keeper, R: FileRoom, O: Sink, E: Sink>(
    alloc: Global,
    words: &Words,
    git: &mut G,
    gpgv: &mut V,
    keeper: &mut K,
    room: &mut R,
    out: &mut O,
    err: &mut E,
) -> u8
    // 2: exactly where the words state no command, but for want of memory.
    ensures words { MatchOption (command_of words.now) ((result ≡ 2) ⊎ (result ≡ 6)) (λ _. result ≢ 2) }

    // 4: exactly where a call of git's or gpgv's port failed.
    ensures child_fault { IsChildFault result (G.faults git.old) (G.faults git.new) (V.faults gpgv.old) (V.faults gpgv.new) }

    // 5: exactly where a call of the keeper failed, a file of the words could not be read, or output or a warning could not be put.
    // Beside 0 no call on standard error failed either.
    ensures other_fault { IsOtherFault (MayWarn (command_of words.now)) result (ends (K.faults keeper.old) (O.faults out.old) (E.faults err.old)) (ends (K.faults keeper.new) (O.faults out.new) (E.faults err.new)) (R.faults room.old) (R.faults room.new) }

    // With any status but 0 and 5 the records stand, a child's fault among them.
    ensures unchanged { IsTrue (K.tells keeper.old) → IsTrue (K.tells keeper.new) → result ≢ 0 → result ≢ 5 → K.kept keeper.new ≡ K.kept keeper.old }

    // Whatever failed, and with whatever is kept that is sound or no cache text: status 0 comes only where the target is authentic.
    ensures accepted { (plan : Plan) → command_of words.now ≡ Some (Authenticate plan) →
        IsTrue (G.tells git.old) → IsTrue (V.tells gpgv.old) → IsTrue (K.tells keeper.old) → IsTrue (R.tells room.old) →
        let o = outside (G.table git.old) (V.table gpgv.old) (K.kept keeper.old) in
        OfKeys (R.files room.old) plan (HasSoundOrNone o plan) → result ≡ 0 → IsAuthenticFor o (R.files room.old) plan }

    // With a sound cache status 0 comes wherever the target is authentic, but for a fault and want of memory.
    ensures complete { (plan : Plan) → command_of words.now ≡ Some (Authenticate plan) →
        IsTrue (G.tells git.old) → IsTrue (V.tells gpgv.old) → IsTrue (K.tells keeper.old) → IsTrue (R.tells room.old) →
        let o = outside (G.table git.old) (V.table gpgv.old) (K.kept keeper.old) in
        OfKeys (R.files room.old) plan (HasSoundCache o plan) → IsAuthenticFor o (R.files room.old) plan →
        (result ≡ 0) ⊎ (result ≡ 4) ⊎ (result ≡ 5) ⊎ (result ≡ 6) }

    // Status, texts and records are those of the answer to the words: the outcome, with the first refused commit and its cause, or
    // what stops the check before any commit is judged. In its place stand only a fault, where a call failed, and want of memory.
    ensures answer { IsTrue (G.tells git.old) → IsTrue (V.tells gpgv.old) → IsTrue (K.tells keeper.old) → IsTrue (R.tells room.old) → IsTrue (O.tells out.old) → IsTrue (E.tells err.old) →
        let o = outside (G.table git.old) (V.table gpgv.old) (K.kept keeper.old) in
        IsSoundOrNoneFor o (R.files room.old) (command_of words.now) →
        (answer : Answer) × IsItOrUnread (IsAnswerOf o (R.files room.old) words.now) (unread_by o.kept (command_of words.now)) o.kept
        (counts (G.faults git.old) (V.faults gpgv.old) (K.faults keeper.old)) (counts (G.faults git.new) (V.faults gpgv.new) (K.faults keeper.new)) (R.faults room.old) (R.faults room.new) answer
        × Shows answer result (stored o.kept (K.faults keeper.old)) (stored (K.kept keeper.new) (K.faults keeper.new))
        (sunk (O.taken out.old) (O.faults out.old)) (sunk (O.taken out.new) (O.faults out.new))
        (sunk (E.taken err.old) (E.faults err.old)) (sunk (E.taken err.new) (E.faults err.new)) }

    // However a run ends, the records are those of before or, only where the target is accepted, those with its verdict's value.
    ensures keeps { (plan : Plan) → command_of words.now ≡ Some (Authenticate plan) →
        IsTrue (G.tells git.old) → IsTrue (V.tells gpgv.old) → IsTrue (K.tells keeper.old) → IsTrue (K.tells keeper.new) → IsTrue (R.tells room.old) →
        let o = outside (G.table git.old) (V.table gpgv.old) (K.kept keeper.old) in
        OfKeys (R.files room.old) plan (λ keys. HasSoundOrNone o plan keys → KeepsOrStores o plan keys (K.kept keeper.new)) }

    // A set of channels likewise: 0 comes only where its outcome is a verdict and, with sound caches, wherever it is; all of its
    // pairs are put, or none.
    ensures set_accepted { (plan : ChannelsPlan) → command_of words.now ≡ Some (Channels plan) →
        IsTrue (G.tells git.old) → IsTrue (V.tells gpgv.old) → IsTrue (K.tells keeper.old) → IsTrue (R.tells room.old) →
        let o = outside (G.table git.old) (V.table gpgv.old) (K.kept keeper.old) in
        OfSet (R.files room.old) plan (AreSoundOrNone o) → result ≡ 0 → IsAcceptedSet o (R.files room.old) plan }
    ensures set_complete { (plan : ChannelsPlan) → command_of words.now ≡ Some (Channels plan) →
        IsTrue (G.tells git.old) → IsTrue (V.tells gpgv.old) → IsTrue (K.tells keeper.old) → IsTrue (R.tells room.old) →
        let o = outside (G.table git.old) (V.table gpgv.old) (K.kept keeper.old) in
        OfSet (R.files room.old) plan (HasSoundCaches o) → IsAcceptedSet o (R.files room.old) plan →
        (result ≡ 0) ⊎ (result ≡ 4) ⊎ (result ≡ 5) ⊎ (result ≡ 6) }
    ensures set_keeps { (plan : ChannelsPlan) → command_of words.now ≡ Some (Channels plan) →
        IsTrue (G.tells git.old) → IsTrue (V.tells gpgv.old) → IsTrue (K.tells keeper.old) → IsTrue (K.tells keeper.new) → IsTrue (R.tells room.old) →
        let o = outside (G.table git.old) (V.table gpgv.old) (K.kept keeper.old) in
        OfSet (R.files room.old) plan (λ set. AreSoundOrNone o set → KeepsOrStoresAll o (K.kept keeper.new) set) }

    // What is kept is put in one call: `store` is called at most once, and beside a refusal never.
    ensures one_store { AtMostOnce (K.stores keeper.old) (K.stores keeper.new) }
    ensures unstored { result ≢ 0 → result ≢ 5 → result ≢ 6 → K.stores keeper.new ≡ K.stores keeper.old }

    // Where there is a verdict that has something to be kept it is called once, and it isn't called where a verdict has nothing, or
    // there is none.
    ensures stores { IsTrue (G.tells git.old) → IsTrue (V.tells gpgv.old) → IsTrue (K.tells keeper.old) → IsTrue (R.tells room.old) →
        StoresBy (outside (G.table git.old) (V.table gpgv.old) (K.kept keeper.old)) (R.files room.old) (command_of words.now) result (K.stores keeper.old) (K.stores keeper.new) }

    // Whatever is kept, sound or not: only what the verdicts over it have to be kept is put, at the keys of the plan or of the
    // channels alone.
    ensures puts { IsTrue (G.tells git.old) → IsTrue (V.tells gpgv.old) → IsTrue (K.tells keeper.old) → IsTrue (K.tells keeper.new) → IsTrue (R.tells room.old) →
        PutsBy (outside (G.table git.old) (V.table gpgv.old) (K.kept keeper.old)) (R.files room.old) (command_of words.now) (K.kept keeper.new) }

    // And a sound cache is sound behind it.
    ensures sound { (plan : Plan) → command_of words.now ≡ Some (Authenticate plan) →
        IsTrue (G.tells git.old) → IsTrue (V.tells gpgv.old) → IsTrue (K.tells keeper.old) → IsTrue (K.tells keeper.new) → IsTrue (R.tells room.old) →
        let o = outside (G.table git.old) (V.table gpgv.old) (K.kept keeper.old) in
        let after = outside (G.table git.old) (V.table gpgv.old) (K.kept keeper.new) in
        OfKeys (R.files room.old) plan (λ keys. HasSoundCache o plan keys → HasSoundCache after plan keys) }

    // So are those of a set.
    ensures set_sound { (plan : ChannelsPlan) → command_of words.now ≡ Some (Channels plan) →
        IsTrue (G.tells git.old) → IsTrue (V.tells gpgv.old) → IsTrue (K.tells keeper.old) → IsTrue (K.tells keeper.new) → IsTrue (R.tells room.old) →
        let o = outside (G.table git.old) (V.table gpgv.old) (K.kept keeper.old) in
        let after = outside (G.table git.old) (V.table gpgv.old) (K.kept keeper.new) in
        OfSet (R.files room.old) plan (λ set. HasSoundCaches o set → HasSoundCaches after set) }

    // gpgv is asked once for the introduction and once for each commit that isn't covered, up to the first that is refused: as many
    // questions as what was found takes. Over a cache that is sound or no cache text that is the outcome.
    ensures asked { (plan : Plan) → command_of words.now ≡ Some (Authenticate plan) →
        IsTrue (G.tells git.old) → IsTrue (V.tells gpgv.old) → IsTrue (K.tells keeper.old) → IsTrue (R.tells room.old) →
        AsksFor (outside (G.table git.old) (V.table gpgv.old) (K.kept keeper.old)) (R.files room.old) plan result (V.asked gpgv.old) (V.asked gpgv.new) }

    // Any name but an id in full can come to stand for something else: for one target at most its own and the keyring branch's two
    // are asked.
    ensures named { (plan : Plan) → command_of words.now ≡ Some (Authenticate plan) → NamedAtMost 3 (G.named git.old) (G.named git.new) }

    // For a set gpgv is asked likewise for each channel that is checked, up to the one that is refused.
    ensures set_asked { (plan : ChannelsPlan) → command_of words.now ≡ Some (Channels plan) →
        IsTrue (G.tells git.old) → IsTrue (V.tells gpgv.old) → IsTrue (K.tells keeper.old) → IsTrue (R.tells room.old) →
        SetAsksFor (outside (G.table git.old) (V.table gpgv.old) (K.kept keeper.old)) (R.files room.old) plan result (V.asked gpgv.old) (V.asked gpgv.new) }

    // Where the channels of a set aren't checked, gpgv isn't asked.
    ensures set_unasked { (plan : ChannelsPlan) → command_of words.now ≡ Some (Channels plan) → plan.check ≡ false → V.asked gpgv.new ≡ V.asked gpgv.old }

    // Words that ask for no check are answered before git, gpgv, the records or a file is called.
    ensures words_first { asks_for_check (command_of words.now) ≡ false →
        (git.new ≡ git.old) × (gpgv.new ≡ gpgv.old) × (keeper.new ≡ keeper.old) × (room.new ≡ room.old) }

    ensures git_told { G.tells git.new ≡ G.tells git.old }
    ensures git_table { G.table git.new ≡ G.table git.old }
    ensures gpgv_told { V.tells gpgv.new ≡ V.tells gpgv.old }
    ensures gpgv_table { V.table gpgv.new ≡ V.table gpgv.old }
    ensures keeper_told { IsTrue (K.tells keeper.new) → IsTrue (K.tells keeper.old) }
    ensures keeper_tells { Stayed (K.faults keeper.old) (K.faults keeper.new) → IsTrue (K.tells keeper.old) → IsTrue (K.tells keeper.new) }
    ensures room_told { R.tells room.new ≡ R.tells room.old }
    ensures files { R.files room.new ≡ R.files room.old }
    ensures out_told { O.tells out.new ≡ O.tells out.old }
    ensures err_told { E.tells err.new ≡ E.tells err.old }
{
    match read_words(alloc, words) {
        Ok(Some(Command::Authenticate(plan))) => {
            run_authenticate(alloc, &plan, git, gpgv, keeper, room, out, err)
        }
        Ok(Some(Command::Channels(plan))) => {
            run_channels(alloc, &plan, git, gpgv, keeper, room, out, err)
        }
        Ok(Some(Command::Help)) => print(out, HELP),
        Ok(None) => tell(err, BAD_WORDS, 2),
        Err(_) => tell(err, OUT_OF_MEMORY, 6),
    }
}
