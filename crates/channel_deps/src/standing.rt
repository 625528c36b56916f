//! The check of one channel.
ghost use Rattle.std.specs.Prelude.{◌≡◌, false, Some, IfOk, IsTrue};
ghost use Rattle.child_ports.specs.Causes.{RoseWhen};
ghost use Rattle.channel_file.specs.Limits.{IsFit, IsFitMetadata};
ghost use Rattle.channel_deps.specs.Answers.{OnFinding, IsPlain, is_git_fault, is_sig_fault, is_keep_fault};
ghost use Rattle.channel_deps.specs.Asked.{AsksChecking};
ghost use Rattle.channel_deps.specs.Outside.{outside};
ghost use Rattle.channel_deps.specs.Over.{IsCheckedOver};
ghost use Rattle.channel_deps.specs.Standings.{standing_of, introduction_for, IsChecked, HasSoundOrNone};

use crate::known::{Checked, Known};
use crate::places::make_task;
use crate::refusing::channel_fail;
use crate::{SetFail, SetTask, Standing};
use auth_engine::authenticate;
use channel_file::{Channel, Introduction};
use child_ports::{GitPort, Keeper, SigPort};
use std::alloc::Global;

// The standing of an authentic target.
fn standing_of(older: bool) -> Standing
    ensures { result ≡ standing_of older }
{
    if older {
        Standing::Older
    } else {
        Standing::Authentic
    }
}

// Checks a channel from its introduction on.
fn check_from<G: GitPort, V: SigPort, K: Keeper>(
    alloc: Global,
    git: &mut G,
    sig: &mut V,
    keeper: &mut K,
    set: &SetTask,
    channel: &Channel,
    introduction: Introduction,
    known: &Known,
) -> Result<Checked, SetFail>
    requires fit { IsFit channel.now }
    requires fit_metadata { IsFitMetadata known.now.metadata }
    ensures checked { IsTrue (G.tells git.old) → IsTrue (V.tells sig.old) → IsTrue (K.tells keeper.old) →
        let o = outside (G.table git.old) (V.table sig.old) (K.kept keeper.old) in
        HasSoundOrNone o set.now channel.now known.now (Some introduction) → OnFinding result (IsChecked o set.now channel.now known.now (Some introduction) result) }
    ensures over { IsTrue (G.tells git.old) → IsTrue (V.tells sig.old) → IsTrue (K.tells keeper.old) →
        IfOk result (IsCheckedOver (outside (G.table git.old) (V.table sig.old) (K.kept keeper.old)) set.now channel.now known.now (Some introduction)) }
    ensures asked { IsTrue (G.tells git.old) → IsTrue (V.tells sig.old) → IsTrue (K.tells keeper.old) →
        AsksChecking (outside (G.table git.old) (V.table sig.old) (K.kept keeper.old)) set.now channel.now known.now (Some introduction) result (V.asked sig.old) (V.asked sig.new) }
    ensures git_fault { RoseWhen (is_git_fault result) (G.faults git.old) (G.faults git.new) }
    ensures sig_fault { RoseWhen (is_sig_fault result) (V.faults sig.old) (V.faults sig.new) }
    ensures keep_fault { RoseWhen (is_keep_fault result) (K.faults keeper.old) (K.faults keeper.new) }
    ensures plain { IsPlain result }
    ensures git_told { G.tells git.new ≡ G.tells git.old }
    ensures git_table { G.table git.new ≡ G.table git.old }
    ensures sig_told { V.tells sig.new ≡ V.tells sig.old }
    ensures sig_table { V.table sig.new ≡ V.table sig.old }
    ensures keeper_told { K.tells keeper.new ≡ K.tells keeper.old }
    ensures kept { K.kept keeper.new ≡ K.kept keeper.old }
    ensures stores { K.stores keeper.new ≡ K.stores keeper.old }
{
    let reference = &known.metadata.keyring_reference;
    let Ok(task) = make_task(
        alloc,
        &set.clones,
        channel,
        introduction,
        reference,
        known.target,
    ) else {
        return Err(SetFail::Memory);
    };
    match authenticate(alloc, git, sig, keeper, &task) {
        Ok(verdict) => Ok(Checked {
            standing: standing_of(verdict.older),
            cache: verdict.store,
        }),
        Err(fail) => Err(channel_fail(alloc, channel, fail)),
    }
}

// What a channel is checked by, where channels are checked at all.
fn introduction_for(set: &SetTask, channel: &Channel) -> Option<Introduction>
    ensures { result ≡ introduction_for set.now channel.now }
{
    if set.check {
        channel.introduction
    } else {
        None
    }
}

/// Checks a channel, where channels are checked and it has an introduction.
pub fn check_channel<G: GitPort, V: SigPort, K: Keeper>(
    alloc: Global,
    git: &mut G,
    sig: &mut V,
    keeper: &mut K,
    set: &SetTask,
    channel: &Channel,
    known: &Known,
) -> Result<Checked, SetFail>
    requires fit { IsFit channel.now }
    requires fit_metadata { IsFitMetadata known.now.metadata }
    ensures checked { IsTrue (G.tells git.old) → IsTrue (V.tells sig.old) → IsTrue (K.tells keeper.old) →
        let o = outside (G.table git.old) (V.table sig.old) (K.kept keeper.old) in
        HasSoundOrNone o set.now channel.now known.now (introduction_for set.now channel.now) →
        OnFinding result (IsChecked o set.now channel.now known.now (introduction_for set.now channel.now) result) }
    ensures over { IsTrue (G.tells git.old) → IsTrue (V.tells sig.old) → IsTrue (K.tells keeper.old) →
        IfOk result (IsCheckedOver (outside (G.table git.old) (V.table sig.old) (K.kept keeper.old)) set.now channel.now known.now (introduction_for set.now channel.now)) }
    ensures asked { IsTrue (G.tells git.old) → IsTrue (V.tells sig.old) → IsTrue (K.tells keeper.old) →
        AsksChecking (outside (G.table git.old) (V.table sig.old) (K.kept keeper.old)) set.now channel.now known.now (introduction_for set.now channel.now) result (V.asked sig.old) (V.asked sig.new) }
    ensures git_fault { RoseWhen (is_git_fault result) (G.faults git.old) (G.faults git.new) }
    ensures sig_fault { RoseWhen (is_sig_fault result) (V.faults sig.old) (V.faults sig.new) }
    ensures keep_fault { RoseWhen (is_keep_fault result) (K.faults keeper.old) (K.faults keeper.new) }
    ensures plain { IsPlain result }
    ensures unasked { set.now.check ≡ false → V.asked sig.new ≡ V.asked sig.old }
    ensures git_told { G.tells git.new ≡ G.tells git.old }
    ensures git_table { G.table git.new ≡ G.table git.old }
    ensures sig_told { V.tells sig.new ≡ V.tells sig.old }
    ensures sig_table { V.table sig.new ≡ V.table sig.old }
    ensures keeper_told { K.tells keeper.new ≡ K.tells keeper.old }
    ensures kept { K.kept keeper.new ≡ K.kept keeper.old }
    ensures stores { K.stores keeper.new ≡ K.stores keeper.old }
{
    match introduction_for(set, channel) {
        Some(introduction) => check_from(
            alloc,
            git,
            sig,
            keeper,
            set,
            channel,
            introduction,
            known,
        ),
        None => Ok(Checked {
            standing: Standing::Unchecked,
            cache: None,
        }),
    }
}
