//! Laws of the definitions. Each is the contract of a function that does nothing.
ghost use Rattle.std.specs.Prelude.{◌≡◌, ◌≢◌, ℕ, List, [], Ok};
ghost use Rattle.authorizations.specs.declared.scope.Scope.{Scope};
ghost use Rattle.auth_cache.specs.Found.{CanBeRecorded};
ghost use Rattle.auth_cache.specs.Reading.{cache_of};
ghost use Rattle.auth_cache.specs.Text.{text_of};

/// Under its own scope a text gives its commits.
pub fn what_is_written_is_read()
    ensures read { (scope : Scope) (ids : List (List ℕ)) → CanBeRecorded scope ids → cache_of (text_of scope ids) scope ≡ Ok ids }
{}

/// Under another scope a text gives no commits.
pub fn another_scope_has_none()
    ensures none { (scope other : Scope) (ids : List (List ℕ)) → CanBeRecorded scope ids → other ≢ scope → cache_of (text_of scope ids) other ≡ Ok [] }
{}
