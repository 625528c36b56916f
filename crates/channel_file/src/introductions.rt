//! How introductions are written.
ghost use Rattle.std.specs.Prelude.{◌≡◌, map, codes};
ghost use Rattle.sexp_reader.specs.Tree.{tree};
ghost use Rattle.channel_file.specs.Introductions.{made_introduction, given_in, stated_in};
ghost use Rattle.channel_file.specs.ReadingInside.{tree_in};

use crate::Introduction;
use crate::elements::{behind, only};
use crate::fields::{commit_in, signer_in};
use sexp_reader::Datum;

// The one datum behind this word.
fn given_in<'a>(word: &str, element: &'a Datum) -> Option<&'a Datum>
    ensures { tree_in result ≡ given_in word.now (tree element.now) }
{
    only(behind(word, element)?)
}

/// The introduction that a call makes.
pub fn made_introduction(datum: &Datum) -> Option<Introduction>
    ensures { result ≡ made_introduction (tree datum.now) }
{
    let [first, second] = behind("make-channel-introduction", datum)? else {
        return None;
    };
    let commit = commit_in(first)?;
    let signer = signer_in(given_in("openpgp-fingerprint", second)?)?;
    Some(Introduction { commit, signer })
}

/// The introduction that a commit and a signer state.
pub fn stated_in(parts: &[Datum]) -> Option<Introduction>
    ensures { result ≡ stated_in (map tree parts.now) }
{
    let [first, second, ..] = parts else {
        return None;
    };
    let commit = commit_in(given_in("commit", first)?)?;
    let signer = signer_in(given_in("signer", second)?)?;
    Some(Introduction { commit, signer })
}
