//! Laws of the definitions. Each is the contract of a function that does nothing.
ghost use Rattle.std.specs.Prelude.{Err};
ghost use Rattle.child_ports.specs.Keeper.{with_pairs};
ghost use Rattle.channel_deps.specs.Outcome.{IsSetVerdict, IsSetOutcome, HasSoundCaches};
ghost use Rattle.channel_deps.specs.Outside.{Outside, outside};
ghost use Rattle.channel_deps.specs.declared.set.SetTask.{SetTask};
ghost use Rattle.channel_deps.specs.declared.set.SetVerdict.{SetVerdict};
ghost use Rattle.channel_deps.specs.declared.set_fail.SetFail.{SetFail};
ghost use Rattle.channel_file.specs.Limits.{AreListed};

/// Where a set has a verdict over sound caches, no refusal is its outcome, nor are its channels too many.
pub fn sound_caches_tell_the_verdict()
    ensures told { (o : Outside) (s : SetTask) (verdict : SetVerdict) (fail : SetFail) → HasSoundCaches o s → IsSetVerdict o s verdict → IsSetOutcome o s (Err fail) → ⊥ }
{}

/// With all that a verdict has to be kept, sound caches are sound behind it, where the given channels have different names.
pub fn stored_sets_are_sound()
    ensures sound { (o : Outside) (s : SetTask) (verdict : SetVerdict) → AreListed s.channels → HasSoundCaches o s → IsSetVerdict o s verdict
        → HasSoundCaches (outside o.answers o.verdicts (with_pairs o.kept verdict.store)) s }
{}
