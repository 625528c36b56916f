//! What a channel's clone says: its target and its metadata.
ghost use Rattle.std.specs.Prelude.{◌≡◌, ◌≢◌, Err, IfOk, IsTrue, false};
ghost use Rattle.child_ports.specs.Causes.{RoseWhen};
ghost use Rattle.sexp_reader.specs.declared.fail.SexpFail.TheVariants as sexp;
ghost use Rattle.channel_file.specs.Limits.{IsFit, IsFitMetadata};
ghost use Rattle.channel_file.specs.Reading as reads;
ghost use Rattle.channel_deps.specs.Answers.{Gives, IsPlain, is_git_fault, is_sig_fault, is_keep_fault};
ghost use Rattle.channel_deps.specs.Places.{target_names};
ghost use Rattle.channel_deps.specs.Reading.{in_channel, metadata_in, known_in};
ghost use Rattle.channel_clone.specs.Resolving.{resolved};

use crate::SetFail;
use crate::known::Known;
use crate::places::target_names;
use crate::refusing::{channel_fail, metadata_fail};
use channel_clone::{read_file, resolve};
use channel_file::{Channel, ChannelFail, ChannelList, Metadata, read_metadata};
use child_ports::{Bytes, GitPort};
use object_frames::Id;
use std::alloc::Global;

// The target of a channel.
fn read_target<G: GitPort>(
    alloc: Global,
    git: &mut G,
    dir: &str,
    channel: &Channel,
) -> Result<Id, SetFail>
    requires { IsFit channel.now }
    ensures exact { IsTrue (G.tells git.old) → Gives result (in_channel channel.now (resolved (G.table git.old) dir.now (target_names channel.now))) }
    ensures git_fault { RoseWhen (is_git_fault result) (G.faults git.old) (G.faults git.new) }
    ensures no_sig_fault { is_sig_fault result ≡ false }
    ensures no_keep_fault { is_keep_fault result ≡ false }
    ensures plain { IsPlain result }
    ensures told { G.tells git.new ≡ G.tells git.old }
    ensures table { G.table git.new ≡ G.table git.old }
{
    let Ok(names) = target_names(alloc, channel) else {
        return Err(SetFail::Memory);
    };
    match resolve(alloc, git, dir, &names) {
        Ok(target) => Ok(target),
        Err(fail) => Err(channel_fail(alloc, channel, fail)),
    }
}

// The metadata of a file; without one, a channel says nothing of itself.
fn metadata_in(alloc: Global, file: &Option<Bytes>) -> Result<Metadata, ChannelFail>
    ensures reads { reads.Gives result (metadata_in file.now) }
    ensures memory { result ≢ Err (ChannelFail.Sexp sexp.Memory) }
    ensures fit { IfOk result (λ metadata. IsFitMetadata metadata) }
{
    match file {
        Some(bytes) => read_metadata(alloc, bytes.as_slice()),
        None => Ok(Metadata {
            directory: None,
            url: None,
            keyring_reference: None,
            news_file: None,
            dependencies: ChannelList::new(alloc),
        }),
    }
}

/// Target and metadata of a channel.
pub fn read_known<G: GitPort>(
    alloc: Global,
    git: &mut G,
    dir: &str,
    channel: &Channel,
) -> Result<Known, SetFail>
    requires { IsFit channel.now }
    ensures exact { IsTrue (G.tells git.old) → Gives result (known_in (G.table git.old) dir.now channel.now) }
    ensures fit { IfOk result (λ known. IsFitMetadata known.metadata) }
    ensures git_fault { RoseWhen (is_git_fault result) (G.faults git.old) (G.faults git.new) }
    ensures no_sig_fault { is_sig_fault result ≡ false }
    ensures no_keep_fault { is_keep_fault result ≡ false }
    ensures plain { IsPlain result }
    ensures told { G.tells git.new ≡ G.tells git.old }
    ensures table { G.table git.new ≡ G.table git.old }
{
    let target = read_target(alloc, git, dir, channel)?;
    let file = match read_file(alloc, git, dir, target, b".guix-channel") {
        Ok(file) => file,
        Err(fail) => return Err(channel_fail(alloc, channel, fail)),
    };
    match metadata_in(alloc, &file) {
        Ok(metadata) => Ok(Known { target, metadata }),
        Err(fail) => Err(metadata_fail(alloc, channel, fail)),
    }
}
