//! One channel of a set.
ghost use Rattle.std.specs.Prelude.{◌≡◌, false, All, IfOk, IsTrue};
ghost use Rattle.child_ports.specs.Causes.{RoseWhen};
ghost use Rattle.channel_file.specs.Limits.{IsFit};
ghost use Rattle.channel_deps.specs.Answers.{OnFinding, IsPlain, is_git_fault, is_sig_fault, is_keep_fault};
ghost use Rattle.channel_deps.specs.Asked.{AsksTaking};
ghost use Rattle.channel_deps.specs.Moves.{record_of};
ghost use Rattle.channel_deps.specs.Outcome.{cache_pairs, deployed_pair, stored_pairs, taken_as, IsTakenAs, HasSoundRecord};
ghost use Rattle.channel_deps.specs.Outside.{outside};
ghost use Rattle.channel_deps.specs.Over.{IsTakenOver};

use crate::known::{Checked, Known, Taken};
use crate::moving::find_move;
use crate::places::{clone_of, copied, deployed_key};
use crate::reading::read_known;
use crate::standing::check_channel;
use crate::{Member, Move, SetFail, SetTask};
use channel_file::{Channel, Metadata};
use child_ports::{Bytes, GitPort, Keeper, Pair, Pairs, SigPort};
use object_frames::Id;
use std::alloc::{AllocError, Global};

// The record of a deployed commit.
fn record_of(alloc: Global, id: Id) -> Result<Bytes, AllocError>
    ensures { IfOk result (λ bytes. bytes ≡ record_of id) }
{
    let mut digits = [0u8; 40];
    id.write_hex(&mut digits);
    let mut record = Bytes::new(alloc);
    record.extend(&digits)?;
    record.push(b'\n')?;
    Ok(record)
}

// The deployed commit of a channel, to be kept.
fn deployed_pair(alloc: Global, channel: &Channel, target: Id) -> Result<Pair, AllocError>
    ensures { IfOk result (λ pair. pair ≡ deployed_pair channel.now target) }
{
    let key = deployed_key(alloc, channel)?;
    let value = record_of(alloc, target)?;
    Ok(Pair { key, value })
}

// The pair of a cache, if there is one.
fn cache_pairs(alloc: Global, cache: Option<Pair>) -> Result<Pairs, AllocError>
    ensures { IfOk result (λ pairs. pairs ≡ cache_pairs cache) }
{
    let mut pairs = Pairs::new(alloc);
    if let Some(pair) = cache {
        pairs.push(pair)?;
    }
    Ok(pairs)
}

// What is to be kept for a channel: its cache, and its deployed commit where it is another.
fn store_of(
    alloc: Global,
    channel: &Channel,
    cache: Option<Pair>,
    moved: Move,
    target: Id,
) -> Result<Pairs, AllocError>
    ensures { IfOk result (λ pairs. pairs ≡ stored_pairs channel.now cache moved target) }
{
    let mut pairs = cache_pairs(alloc, cache)?;
    match moved {
        Move::Same => {}
        _ => pairs.push(deployed_pair(alloc, channel, target)?)?,
    }
    Ok(pairs)
}

// All that is found of a channel.
fn make_taken(
    alloc: Global,
    channel: &Channel,
    known: Known,
    checked: Checked,
    moved: Move,
) -> Result<Taken, AllocError>
    ensures { IfOk result (λ taken. taken ≡ taken_as channel.now known checked moved) }
{
    let Known { target, metadata } = known;
    let Metadata {
        url: primary,
        dependencies,
        ..
    } = metadata;
    let name = copied(alloc, &channel.name)?;
    let url = copied(alloc, &channel.url)?;
    let store = store_of(alloc, channel, checked.cache, moved, target)?;
    let member = Member {
        name,
        target,
        moved,
        standing: checked.standing,
        url,
        primary,
        introduced: channel.introduction.is_some(),
    };
    Ok(Taken {
        member,
        store,
        mentions: dependencies,
    })
}

/// Takes a channel: its target and metadata are read, it is checked, and its move is found.
pub fn take_channel<G: GitPort, V: SigPort, K: Keeper>(
    alloc: Global,
    git: &mut G,
    sig: &mut V,
    keeper: &mut K,
    set: &SetTask,
    channel: &Channel,
) -> Result<Taken, SetFail>
    requires { IsFit channel.now }
    ensures taken { IsTrue (G.tells git.old) → IsTrue (V.tells sig.old) → IsTrue (K.tells keeper.old) →
        let o = outside (G.table git.old) (V.table sig.old) (K.kept keeper.old) in
        HasSoundRecord o set.now channel.now → OnFinding result (IsTakenAs o set.now channel.now result) }
    ensures over { IsTrue (G.tells git.old) → IsTrue (V.tells sig.old) → IsTrue (K.tells keeper.old) →
        IfOk result (IsTakenOver (outside (G.table git.old) (V.table sig.old) (K.kept keeper.old)) set.now channel.now) }
    ensures asked { IsTrue (G.tells git.old) → IsTrue (V.tells sig.old) → IsTrue (K.tells keeper.old) →
        AsksTaking (outside (G.table git.old) (V.table sig.old) (K.kept keeper.old)) set.now channel.now result (V.asked sig.old) (V.asked sig.new) }
    ensures fit { IfOk result (λ taken. All IsFit taken.mentions) }
    ensures git_fault { RoseWhen (is_git_fault result) (G.faults git.old) (G.faults git.new) }
    ensures sig_fault { RoseWhen (is_sig_fault result) (V.faults sig.old) (V.faults sig.new) }
    ensures keep_fault { RoseWhen (is_keep_fault result) (K.faults keeper.old) (K.faults keeper.new) }
    ensures plain { IsPlain result }
    ensures unasked { set.now.check ≡ false → V.asked sig.new ≡ V.asked sig.old }
    ensures git_told { G.tells git.new ≡ G.tells git.old }
    ensures git_table { G.table git.new ≡ G.table git.old }
    ensures sig_told { V.tells sig.new ≡ V.tells sig.old }
    ensures sig_table { V.table sig.new ≡ V.table sig.old }
    ensures keeper_told { K.tells keeper.new ≡ K.tells keeper.old }
    ensures kept { K.kept keeper.new ≡ K.kept keeper.old }
    ensures stores { K.stores keeper.new ≡ K.stores keeper.old }
{
    let Ok(dir) = clone_of(alloc, &set.clones, channel) else {
        return Err(SetFail::Memory);
    };
    let known = read_known(alloc, git, dir.as_str(), channel)?;
    let checked = check_channel(alloc, git, sig, keeper, set, channel, &known)?;
    let moved = find_move(
        alloc,
        git,
        keeper,
        dir.as_str(),
        set.allow_downgrades,
        channel,
        known.target,
    )?;
    match make_taken(alloc, channel, known, checked, moved) {
        Ok(taken) => Ok(taken),
        Err(_) => Err(SetFail::Memory),
    }
}
