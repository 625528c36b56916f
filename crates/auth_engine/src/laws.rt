//! Laws of the definitions. Each is the contract of a function that does nothing.
ghost use Rattle.std.specs.Prelude.{◌≡◌, ◌≢◌, ◌↔◌, ℕ, List, [], ◌∷◌, All, Option, Some, None, Result, Ok, Err, IsSome, IsTrue, IfSome};
ghost use Rattle.child_ports.specs.declared.git.GitRow.{GitRow};
ghost use Rattle.child_ports.specs.declared.sig.SigRow.{SigRow};
ghost use Rattle.child_ports.specs.KeySet.{Keys};
ghost use Rattle.authorizations.specs.declared.scope.Scope.{Scope};
ghost use Rattle.auth_cache.specs.declared.fail.CacheFail.{CacheFail};
ghost use Rattle.commit_graph.specs.Chains.{Reaches};
ghost use Rattle.commit_graph.specs.Covers.{IsNew, IsUncovered, IsCovered, HasItsParents, AreUncovered};
ghost use Rattle.keyring_branch.specs.declared.keyring.Keyring.{Keyring as Ring};
ghost use Rattle.auth_rules.specs.declared.cause.Cause.{Cause};
ghost use Rattle.auth_rules.specs.Rules.{cause};
ghost use Rattle.auth_rules.specs.World.{World, Id};
ghost use Rattle.commit_history.specs.Members.{history, IsWhole};
ghost use Rattle.auth_engine.specs.declared.task.Task.{Task};
ghost use Rattle.auth_engine.specs.declared.task.Verdict.{Verdict};
ghost use Rattle.auth_engine.specs.declared.starting.Start.{Start};
ghost use Rattle.auth_engine.specs.declared.engine_fail.EngineFail.{EngineFail};
ghost use Rattle.auth_engine.specs.declared.engine_fail.EngineFail.TheVariants.{Cache};
ghost use Rattle.auth_engine.specs.Authentic.{IsAuthentic, IsFirstRefused};
ghost use Rattle.auth_engine.specs.Growth.{KeepsObjects, KeepsVerdicts};
ghost use Rattle.auth_engine.specs.Judging.{FirstRefused};
ghost use Rattle.auth_engine.specs.Outcome.{HasAuthenticTarget, IsOutcome};
ghost use Rattle.auth_engine.specs.Series.{Check, IsSeries, HaveOwnIds};
ghost use Rattle.auth_engine.specs.SoundCache.{IsSoundEntry, IsSoundCache};
ghost use Rattle.auth_engine.specs.Starting.{start_of, world_in};

/// An authentic commit stays authentic when git and gpgv come to answer more.
pub fn authentic_stays()
    ensures stays { (rows rows' : List GitRow) (sigs sigs' : List SigRow) (task : Task) (ring : Ring) (s : Scope) (keys : Keys) (target : Id)
        → KeepsObjects task.dir rows rows' → KeepsVerdicts sigs sigs'
        → IsAuthentic (world_in rows sigs task ring) s keys target → IsAuthentic (world_in rows' sigs' task ring) s keys target }
{}

/// What is covered has its parents covered.
pub fn covered_is_closed()
    ensures closed { (w : World) (target intro : Id) (entries : List Id) → HasItsParents (history w) (IsCovered (history w) target intro entries) }
{}

/// With a sound cache, where all that target and introduction reach can be judged: each commit of the difference that has a cause
/// is uncovered, so that the first refused commit is the same with and without the cache.
pub fn cause_is_uncovered()
    ensures uncovered { (w : World) (s : Scope) (keys : Keys) (target : Id) (entries : List Id) → IsWhole w target s.intro → All (IsSoundEntry w s keys) entries
        → (c : Id) → IsNew (history w) target s.intro c → IsSome (cause w s keys c) → IsUncovered (history w) target s.intro entries c }
    ensures first { (w : World) (s : Scope) (keys : Keys) (target : Id) (entries commits : List Id) (c : Id) (why : Cause) → IsWhole w target s.intro → All (IsSoundEntry w s keys) entries
        → AreUncovered (history w) target s.intro entries commits → FirstRefused w s keys commits c why → IsFirstRefused w s keys target c why }
{}

/// An accepted target is authentic, whatever is kept.
pub fn accepted_is_authentic()
    ensures authentic { (rows : List GitRow) (sigs : List SigRow) (task : Task) (kept : Option (List ℕ)) (verdict : Verdict)
        → IsOutcome rows sigs task kept (Ok verdict) → HasAuthenticTarget rows sigs task }
{}

/// What an accepted verdict has to be kept is a sound cache, where what was kept before was sound.
pub fn stored_is_sound()
    ensures sound { (rows : List GitRow) (sigs : List SigRow) (task : Task) (kept : Option (List ℕ)) (verdict : Verdict)
        → IsSoundCache rows sigs task kept → IsOutcome rows sigs task kept (Ok verdict)
        → IfSome verdict.store (λ pair. (pair.key ≡ task.cache_key) × IsSoundCache rows sigs task (Some pair.value)) }
{}

/// A refusal that isn't of the cache is the outcome without a cache too. An accepted target is authentic, and its verdict's target
/// and age are what they are without a cache.
pub fn outcome_without_a_cache()
    ensures refusal { (rows : List GitRow) (sigs : List SigRow) (task : Task) (kept : Option (List ℕ)) (fail : EngineFail)
        → IsOutcome rows sigs task kept (Err fail) → ((why : CacheFail) → fail ≢ Cache why) → IsOutcome rows sigs task None (Err fail) }
    ensures acceptance { (rows : List GitRow) (sigs : List SigRow) (task : Task) (kept : Option (List ℕ)) (verdict : Verdict)
        → IsOutcome rows sigs task kept (Ok verdict) → (start : Start) → start_of rows task ≡ Ok start
        → (verdict.target ≡ start.target)
        × (IsTrue verdict.older ↔ (Reaches (history (world_in rows sigs task start.ring)) task.intro start.target × (start.target ≢ task.intro)))
        × HasAuthenticTarget rows sigs task }
{}

/// What is kept is sound before each check of a series: at first nothing is kept, what git gave by its id and what gpgv answered
/// they give again, and no two objects have one id. This speaks of the last check; the checks up to any other are a series too.
pub fn series_is_sound()
    ensures sound { (check : Check) (before : List Check) → IsSeries (check ∷ before) → HaveOwnIds (check ∷ before)
        → IsSoundCache check.answers check.verdicts check.task check.kept }
{}
