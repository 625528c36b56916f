//! The check of a set, channel by channel, while it grows by what they mention.
ghost use Rattle.std.specs.Prelude.{◌≡◌, ◌≤◌, ◌<◌, ◌∷◌, [], ◌++◌, false, length, All, IfOk, IsTrue};
ghost use Rattle.child_ports.specs.Causes.{RoseWhen};
ghost use Rattle.channel_file.specs.Limits.{IsFit};
ghost use Rattle.channel_deps.specs.Answers.{OnFinding, IsPlain, is_git_fault, is_sig_fault, is_keep_fault};
ghost use Rattle.channel_deps.specs.Asked.{AsksSet, GoesNext};
ghost use Rattle.channel_deps.specs.Limits.{FitsSet};
ghost use Rattle.channel_deps.specs.Outcome.{HasSoundRecord, AreSoundOrNone, IsSetOutcome};
ghost use Rattle.channel_deps.specs.Outside.{outside};
ghost use Rattle.channel_deps.specs.Over.{IsSetVerdictOver};
ghost use Rattle.channel_deps.specs.Steps.{Adds, TakesUp, IsAt, TakesNext};

use crate::known::Taken;
use crate::places::copied;
use crate::taking::take_channel;
use crate::{MemberList, SetFail, SetTask, SetVerdict};
use channel_file::{Channel, ChannelList, has_name};
use child_ports::{GitPort, Keeper, Pairs, SigPort};
use std::alloc::{AllocError, Global};

// The most channels that a set may have.
const MOST: usize = 256;

// The channels of a set as far as they are known, and what is found of those that were taken.
#[derive(Debug, Drop)]
struct Walk {
    list: ChannelList,
    members: MemberList,
    store: Pairs,
}

// A copy of a channel.
fn copied_channel(alloc: Global, channel: &Channel) -> Result<Channel, AllocError>
    ensures { IfOk result (λ copy. copy ≡ channel.now) }
{
    let name = copied(alloc, &channel.name)?;
    let url = copied(alloc, &channel.url)?;
    let branch = copied(alloc, &channel.branch)?;
    Ok(Channel {
        name,
        url,
        branch,
        commit: channel.commit,
        introduction: channel.introduction,
    })
}

// A copy of channels.
fn copied_channels(alloc: Global, channels: &[Channel]) -> Result<ChannelList, AllocError>
    ensures { IfOk result (λ list. list ≡ channels.now) }
{
    let mut list = ChannelList::new(alloc);
    for channel in channels {
        list.push(copied_channel(alloc, channel)?)?;
    }
    Ok(list)
}

// The given channels, of which none was taken.
fn begin(alloc: Global, set: &SetTask) -> Result<Walk, AllocError>
    ensures { IfOk result (λ walk. walk ≡ record { list = set.now.channels; members = []; store = [] }) }
{
    let list = copied_channels(alloc, set.channels.as_slice())?;
    Ok(Walk {
        list,
        members: MemberList::new(alloc),
        store: Pairs::new(alloc),
    })
}

// Puts a mention behind the list, unless it has one of this name. There are never more than 256.
fn add_mention(alloc: Global, list: &mut ChannelList, channel: &Channel) -> Result<(), SetFail>
    requires { length list.old ≤ 256 }
    ensures { Adds list.old (channel.now ∷ []) list.new result }
{
    if has_name(list.as_slice(), channel.name.as_str()) {
        return Ok(());
    }
    if list.len() == MOST {
        return Err(SetFail::TooManyChannels);
    }
    let Ok(copy) = copied_channel(alloc, channel) else {
        return Err(SetFail::Memory);
    };
    match list.push(copy) {
        Ok(()) => Ok(()),
        Err(_) => Err(SetFail::Memory),
    }
}

// Puts the first mention of each other name behind the list.
fn add_mentions(alloc: Global, list: &mut ChannelList, mentions: &[Channel]) -> Result<(), SetFail>
    requires { length list.old ≤ 256 }
    ensures { Adds list.old mentions.now list.new result }
{
    for channel in mentions {
        add_mention(alloc, list, channel)?;
    }
    Ok(())
}

// Pairs, and those behind them.
fn joined_pairs(front: Pairs, back: Pairs) -> Result<Pairs, AllocError>
    ensures { IfOk result (λ pairs. pairs ≡ front ++ back) }
{
    let mut pairs = front.into_vec();
    let mut more = back.into_vec();
    pairs.append(&mut more)?;
    Ok(Pairs::from_vec(pairs))
}

// Takes up what was found of the next channel.
fn take_up(alloc: Global, walk: Walk, taken: Taken) -> Result<Walk, SetFail>
    requires { length walk.list ≤ 256 }
    ensures { TakesUp walk taken result }
{
    let Walk {
        mut list,
        mut members,
        store,
    } = walk;
    let Taken {
        member,
        store: more,
        mentions,
    } = taken;
    if members.push(member).is_err() {
        return Err(SetFail::Memory);
    }
    let Ok(store) = joined_pairs(store, more) else {
        return Err(SetFail::Memory);
    };
    add_mentions(alloc, &mut list, mentions.as_slice())?;
    Ok(Walk {
        list,
        members,
        store,
    })
}

// Takes the channel of this number.
fn take_next<G: GitPort, V: SigPort, K: Keeper>(
    alloc: Global,
    git: &mut G,
    sig: &mut V,
    keeper: &mut K,
    set: &SetTask,
    walk: Walk,
    i: usize,
) -> Result<Walk, SetFail>
    requires within { i < length walk.list }
    requires few { length walk.list ≤ 256 }
    requires fit { All IsFit walk.list }
    ensures next { IsTrue (G.tells git.old) → IsTrue (V.tells sig.old) → IsTrue (K.tells keeper.old) →
        let o = outside (G.table git.old) (V.table sig.old) (K.kept keeper.old) in
        ((channel : Channel) → IsAt walk.list i channel → HasSoundRecord o set.now channel) →
        OnFinding result (TakesNext o set.now i walk result) }
    ensures goes { IsTrue (G.tells git.old) → IsTrue (V.tells sig.old) → IsTrue (K.tells keeper.old) →
        GoesNext (outside (G.table git.old) (V.table sig.old) (K.kept keeper.old)) set.now i walk result (V.asked sig.old) (V.asked sig.new) }
    ensures few { IfOk result (λ new. length new.list ≤ 256) }
    ensures fit { IfOk result (λ new. All IsFit new.list) }
    ensures git_fault { RoseWhen (is_git_fault result) (G.faults git.old) (G.faults git.new) }
    ensures sig_fault { RoseWhen (is_sig_fault result) (V.faults sig.old) (V.faults sig.new) }
    ensures keep_fault { RoseWhen (is_keep_fault result) (K.faults keeper.old) (K.faults keeper.new) }
    ensures plain { IsPlain result }
    ensures unasked { set.now.check ≡ false → V.asked sig.new ≡ V.asked sig.old }
    ensures git_told { G.tells git.new ≡ G.tells git.old }
    ensures git_table { G.table git.new ≡ G.table git.old }
    ensures sig_told { V.tells sig.new ≡ V.tells sig.old }
    ensures sig_table { V.table sig.new ≡ V.table sig.old }
    ensures keeper_told { K.tells keeper.new ≡ K.tells keeper.old }
    ensures kept { K.kept keeper.new ≡ K.kept keeper.old }
    ensures stores { K.stores keeper.new ≡ K.stores keeper.old }
{
    let channel = &walk.list.as_slice()[i];
    let taken = take_channel(alloc, git, sig, keeper, set, channel)?;
    take_up(alloc, walk, taken)
}

/// Authenticates channels, and those that they depend on. Nothing is stored: the verdict says what is to be kept.
pub fn authenticate_set<G: GitPort, V: SigPort, K: Keeper>(
    alloc: Global,
    git: &mut G,
    sig: &mut V,
    keeper: &mut K,
    set: &SetTask,
) -> Result<SetVerdict, SetFail>
    requires fits { FitsSet set.now }

    // Over records that are sound or no cache text each answer is the outcome: the verdict, or the first refusal.
    ensures outcome { IsTrue (G.tells git.old) → IsTrue (V.tells sig.old) → IsTrue (K.tells keeper.old) →
        let o = outside (G.table git.old) (V.table sig.old) (K.kept keeper.old) in
        AreSoundOrNone o set.now → OnFinding result (IsSetOutcome o set.now result) }

    // Whatever is kept, sound or not, an accepted set has a verdict on each of its channels, and only what those say is to be kept.
    ensures verdict { IsTrue (G.tells git.old) → IsTrue (V.tells sig.old) → IsTrue (K.tells keeper.old) →
        IfOk result (IsSetVerdictOver (outside (G.table git.old) (V.table sig.old) (K.kept keeper.old)) set.now) }

    // The questions to gpgv, whatever is kept: for each channel that is checked one for its introduction and one for each commit
    // that was judged, up to the channel that is refused.
    ensures asked { IsTrue (G.tells git.old) → IsTrue (V.tells sig.old) → IsTrue (K.tells keeper.old) →
        AsksSet (outside (G.table git.old) (V.table sig.old) (K.kept keeper.old)) set.now result (V.asked sig.old) (V.asked sig.new) }

    // A fault of a port comes exactly where a call on it failed.
    ensures git_fault { RoseWhen (is_git_fault result) (G.faults git.old) (G.faults git.new) }
    ensures sig_fault { RoseWhen (is_sig_fault result) (V.faults sig.old) (V.faults sig.new) }
    ensures keep_fault { RoseWhen (is_keep_fault result) (K.faults keeper.old) (K.faults keeper.new) }

    // What is told of one channel is never such a fault, nor want of memory.
    ensures plain { IsPlain result }

    // Where channels aren't checked, gpgv isn't asked.
    ensures unasked { set.now.check ≡ false → V.asked sig.new ≡ V.asked sig.old }

    ensures git_told { G.tells git.new ≡ G.tells git.old }
    ensures git_table { G.table git.new ≡ G.table git.old }
    ensures sig_told { V.tells sig.new ≡ V.tells sig.old }
    ensures sig_table { V.table sig.new ≡ V.table sig.old }
    ensures keeper_told { K.tells keeper.new ≡ K.tells keeper.old }

    // The records stand, and nothing is stored.
    ensures kept { K.kept keeper.new ≡ K.kept keeper.old }
    ensures stores { K.stores keeper.new ≡ K.stores keeper.old }
{
    let Ok(mut walk) = begin(alloc, set) else {
        return Err(SetFail::Memory);
    };
    let mut i = 0;
    while i < walk.list.len() {
        walk = take_next(alloc, git, sig, keeper, set, walk, i)?;
        i += 1;
    }
    Ok(SetVerdict {
        members: walk.members,
        store: walk.store,
    })
}
