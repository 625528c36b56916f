//! How fields and properties are written.
ghost use Rattle.std.specs.Prelude.{◌≡◌, map};
ghost use Rattle.std.specs.Option.{option_copied};
ghost use Rattle.sexp_reader.specs.Tree.{tree};
ghost use Rattle.channel_file.specs.Fields.{quoted_name, url_in, reference_in, path_in, commit_in, signer_in};

use crate::elements::{behind, only};
use crate::names::{is_channel_name, is_url};
use child_ports::Fingerprint;
use name_limits::{is_path, is_reference};
use object_frames::Id;
use sexp_reader::Datum;

/// The name in `(quote N)`.
pub fn quoted_name(datum: &Datum) -> Option<&str>
    ensures { option_copied result ≡ quoted_name (tree datum.now) }
{
    let name = only(behind("quote", datum)?)?.as_symbol()?;
    if is_channel_name(name) {
        Some(name)
    } else {
        None
    }
}

/// The address of a channel.
pub fn url_in(datum: &Datum) -> Option<&str>
    ensures { option_copied result ≡ url_in (tree datum.now) }
{
    let url = datum.as_text()?;
    if is_url(url) { Some(url) } else { None }
}

/// A branch, or another reference of git.
pub fn reference_in(datum: &Datum) -> Option<&str>
    ensures { option_copied result ≡ reference_in (tree datum.now) }
{
    let name = datum.as_text()?;
    if is_reference(name) { Some(name) } else { None }
}

/// A text that is plain, and not empty.
pub fn path_in(datum: &Datum) -> Option<&str>
    ensures { option_copied result ≡ path_in (tree datum.now) }
{
    let path = datum.as_text()?;
    if is_path(path) { Some(path) } else { None }
}

/// The id of a commit.
pub fn commit_in(datum: &Datum) -> Option<Id>
    ensures { result ≡ commit_in (tree datum.now) }
{
    Id::of_hex(datum.as_text()?.as_bytes())
}

/// The fingerprint of a signer.
pub fn signer_in(datum: &Datum) -> Option<Fingerprint>
    ensures { result ≡ signer_in (tree datum.now) }
{
    Fingerprint::of_text(datum.as_text()?)
}
