//! Laws of the definitions. Each is the contract of a function that does nothing.
ghost use Rattle.std.specs.Prelude.{◌≡◌, Ok};
ghost use Rattle.channel_deps.specs.Outcome.{IsTakenAs, HasSoundCaches, AreSoundOrNone};
ghost use Rattle.channel_deps.specs.Outside.{Outside};
ghost use Rattle.channel_deps.specs.Reading.{known_of};
ghost use Rattle.channel_deps.specs.Standings.{introduction_for, HasAuthenticTargetFor};

use crate::SetTask;
use crate::known::{Known, Taken};
use channel_file::Channel;

/// A channel that is taken has the target that is read of it. Where it is checked, this target is authentic, whatever is kept.
pub fn taken_is_authentic()
    ensures authentic { (o : Outside) (s : SetTask) (channel : Channel) (taken : Taken) → IsTakenAs o s channel (Ok taken) →
        (known : Known) × (known_of o.answers s.clones channel ≡ Ok known) × (taken.member.target ≡ known.target)
        × HasAuthenticTargetFor o s channel known (introduction_for s channel) }
{}

/// Over sound caches the outcome of a set is told.
pub fn sound_caches_are_sound_or_none()
    ensures sound { (o : Outside) (s : SetTask) → HasSoundCaches o s → AreSoundOrNone o s }
{}
