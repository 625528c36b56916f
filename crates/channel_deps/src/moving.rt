//! How a channel's target stands to the commit that is deployed.
ghost use Rattle.std.specs.Prelude.{◌≡◌, Ok, IfSome, IfNone, IsTrue, ℕ, List, false};
ghost use Rattle.std.specs.FinMap as map;
ghost use Rattle.child_ports.specs.Causes.{RoseWhen};
ghost use Rattle.auth_rules.specs.World.{commit_at};
ghost use Rattle.channel_deps.specs.Answers.{Gives, OnFinding, IsPlainFail, IsPlain, is_git_fault, is_sig_fault, is_keep_fault};
ghost use Rattle.channel_deps.specs.Moves.{IsRecorded, IsMoveBetween, IsMoveFrom, IsMoveIn};
ghost use Rattle.channel_deps.specs.Places as places;
ghost use Rattle.channel_deps.specs.Steps.{IsOrMemory, TellsMissing, goes_on, refusal_of, judged_move, related_move};

use crate::places::{copied, deployed_key};
use crate::refusing::channel_fail;
use crate::{Move, SetFail};
use auth_rules::{ReadFail, What, read_commit_at};
use channel_clone::relate;
use channel_file::Channel;
use child_ports::{Bytes, GitPort, Keeper, PortFail};
use commit_graph::Relation;
use object_frames::Id;
use std::alloc::Global;

// The commit of a record: 40 lower-case digits and a line feed.
fn recorded(bytes: &[u8]) -> Option<Id>
    ensures some { IfSome result (λ id. IsRecorded bytes.now id) }
    ensures none { IfNone result ((id : List ℕ) → ¬ IsRecorded bytes.now id) }
{
    match bytes {
        [digits @ .., b'\n'] => Id::of_lower_hex(digits),
        _ => None,
    }
}

// What is kept as the deployed commit of a channel.
fn load_deployed<K: Keeper>(
    alloc: Global,
    keeper: &mut K,
    channel: &Channel,
) -> Result<Option<Bytes>, SetFail>
    ensures value { IsTrue (K.tells keeper.old) → Gives result (Ok (map.get (K.kept keeper.old) (places.deployed_key channel.now))) }
    ensures keep_fault { RoseWhen (is_keep_fault result) (K.faults keeper.old) (K.faults keeper.new) }
    ensures plain { IsPlain result }
    ensures no_git_fault { is_git_fault result ≡ false }
    ensures no_sig_fault { is_sig_fault result ≡ false }
    ensures told { K.tells keeper.new ≡ K.tells keeper.old }
    ensures kept { K.kept keeper.new ≡ K.kept keeper.old }
    ensures stores { K.stores keeper.new ≡ K.stores keeper.old }
{
    let Ok(key) = deployed_key(alloc, channel) else {
        return Err(SetFail::Memory);
    };
    match keeper.load(alloc, key.as_str()) {
        Ok(value) => Ok(value),
        Err(PortFail::Failed) => Err(SetFail::KeepFault),
        Err(PortFail::Memory) => Err(SetFail::Memory),
    }
}

// Whether a commit is missing.
fn is_missing<G: GitPort>(alloc: Global, git: &mut G, dir: &str, id: Id) -> Result<bool, SetFail>
    ensures missing { IsTrue (G.tells git.old) → TellsMissing (commit_at (G.table git.old) dir.now id) result }
    ensures git_fault { RoseWhen (is_git_fault result) (G.faults git.old) (G.faults git.new) }
    ensures no_sig_fault { is_sig_fault result ≡ false }
    ensures no_keep_fault { is_keep_fault result ≡ false }
    ensures plain { IsPlain result }
    ensures told { G.tells git.new ≡ G.tells git.old }
    ensures table { G.table git.new ≡ G.table git.old }
{
    match read_commit_at(alloc, git, dir, id) {
        Ok(_) => Ok(false),
        Err(ReadFail::Unreadable(What::Missing)) => Ok(true),
        Err(ReadFail::Unreadable(_)) => Ok(false),
        Err(ReadFail::GitFault) => Err(SetFail::GitFault),
        Err(ReadFail::Memory) => Err(SetFail::Memory),
    }
}

// Whether a move needs no leave.
fn goes_on(moved: Move) -> bool
    ensures { result ≡ goes_on moved }
{
    matches!(moved, Move::New | Move::Same | Move::Forward)
}

// The refusal of a move that needs leave.
fn refuse_move(alloc: Global, channel: &Channel, moved: Move, old: Id, new: Id) -> SetFail
    ensures told { IsOrMemory (refusal_of channel.now moved old new) result }
    ensures plain { IsPlainFail result }
{
    let Ok(name) = copied(alloc, &channel.name) else {
        return SetFail::Memory;
    };
    match moved {
        Move::Back => SetFail::Downgrade { name, old, new },
        Move::Unrelated => SetFail::UnrelatedMove { name, old, new },
        _ => SetFail::DeployedMissing { name, old },
    }
}

// A move, unless it needs leave and has none.
fn judge_move(
    alloc: Global,
    allowed: bool,
    channel: &Channel,
    moved: Move,
    old: Id,
    new: Id,
) -> Result<Move, SetFail>
    ensures judged { Gives result (judged_move allowed channel.now moved old new) }
    ensures no_git_fault { is_git_fault result ≡ false }
    ensures no_sig_fault { is_sig_fault result ≡ false }
    ensures no_keep_fault { is_keep_fault result ≡ false }
    ensures plain { IsPlain result }
{
    if allowed || goes_on(moved) {
        return Ok(moved);
    }
    Err(refuse_move(alloc, channel, moved, old, new))
}

// The move by how the deployed commit stands to the target.
fn related_move(relation: Relation) -> Move
    ensures { result ≡ related_move relation }
{
    match relation {
        Relation::Same => Move::Same,
        Relation::Ancestor => Move::Forward,
        Relation::Descendant => Move::Back,
        Relation::Unrelated => Move::Unrelated,
    }
}

// The move from a commit that is there.
fn move_between<G: GitPort>(
    alloc: Global,
    git: &mut G,
    dir: &str,
    allowed: bool,
    channel: &Channel,
    old: Id,
    new: Id,
) -> Result<Move, SetFail>
    ensures moved { IsTrue (G.tells git.old) → OnFinding result (IsMoveBetween (G.table git.old) dir.now allowed channel.now old new result) }
    ensures git_fault { RoseWhen (is_git_fault result) (G.faults git.old) (G.faults git.new) }
    ensures no_sig_fault { is_sig_fault result ≡ false }
    ensures no_keep_fault { is_keep_fault result ≡ false }
    ensures plain { IsPlain result }
    ensures told { G.tells git.new ≡ G.tells git.old }
    ensures table { G.table git.new ≡ G.table git.old }
{
    match relate(alloc, git, dir, old, new) {
        Ok(relation) => judge_move(alloc, allowed, channel, related_move(relation), old, new),
        Err(fail) => Err(channel_fail(alloc, channel, fail)),
    }
}

// The move from the commit of a record.
fn move_from<G: GitPort>(
    alloc: Global,
    git: &mut G,
    dir: &str,
    allowed: bool,
    channel: &Channel,
    old: Id,
    new: Id,
) -> Result<Move, SetFail>
    ensures moved { IsTrue (G.tells git.old) → OnFinding result (IsMoveFrom (G.table git.old) dir.now allowed channel.now old new result) }
    ensures git_fault { RoseWhen (is_git_fault result) (G.faults git.old) (G.faults git.new) }
    ensures no_sig_fault { is_sig_fault result ≡ false }
    ensures no_keep_fault { is_keep_fault result ≡ false }
    ensures plain { IsPlain result }
    ensures told { G.tells git.new ≡ G.tells git.old }
    ensures table { G.table git.new ≡ G.table git.old }
{
    if is_missing(alloc, git, dir, old)? {
        return judge_move(alloc, allowed, channel, Move::Lost, old, new);
    }
    move_between(alloc, git, dir, allowed, channel, old, new)
}

// The refusal of what is no record.
fn refuse_record(alloc: Global, channel: &Channel) -> SetFail
    ensures told { IsOrMemory (SetFail.Record channel.now.name) result }
    ensures plain { IsPlainFail result }
{
    match copied(alloc, &channel.name) {
        Ok(name) => SetFail::Record(name),
        Err(_) => SetFail::Memory,
    }
}

/// The move of a channel from its deployed commit to its target.
pub fn find_move<G: GitPort, K: Keeper>(
    alloc: Global,
    git: &mut G,
    keeper: &mut K,
    dir: &str,
    allowed: bool,
    channel: &Channel,
    new: Id,
) -> Result<Move, SetFail>
    ensures moved { IsTrue (G.tells git.old) → IsTrue (K.tells keeper.old) →
        OnFinding result (IsMoveIn (G.table git.old) (map.get (K.kept keeper.old) (places.deployed_key channel.now)) dir.now allowed channel.now new result) }
    ensures git_fault { RoseWhen (is_git_fault result) (G.faults git.old) (G.faults git.new) }
    ensures no_sig_fault { is_sig_fault result ≡ false }
    ensures keep_fault { RoseWhen (is_keep_fault result) (K.faults keeper.old) (K.faults keeper.new) }
    ensures plain { IsPlain result }
    ensures git_told { G.tells git.new ≡ G.tells git.old }
    ensures git_table { G.table git.new ≡ G.table git.old }
    ensures keeper_told { K.tells keeper.new ≡ K.tells keeper.old }
    ensures kept { K.kept keeper.new ≡ K.kept keeper.old }
    ensures stores { K.stores keeper.new ≡ K.stores keeper.old }
{
    let Some(bytes) = load_deployed(alloc, keeper, channel)? else {
        return Ok(Move::New);
    };
    match recorded(bytes.as_slice()) {
        Some(old) => move_from(alloc, git, dir, allowed, channel, old, new),
        None => Err(refuse_record(alloc, channel)),
    }
}
