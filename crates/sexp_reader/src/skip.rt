//! White space and comments.
ghost use Rattle.std.specs.Prelude.{◌≡◌};
ghost use Rattle.sexp_reader.specs.Grammar as grammar;

use crate::bytes::is_blank;

/// What is left after white space and comments.
pub fn skip(text: &str) -> &str
    ensures { result.now ≡ grammar.skip text.now }
{
    let bytes = text.as_bytes();
    let mut in_comment = false;
    let mut at = 0;
    while at < bytes.len() {
        let b = bytes[at];
        if in_comment {
            in_comment = b != b'\n';
        } else if b == b';' {
            in_comment = true;
        } else if !is_blank(b) {
            break;
        }
        at += 1;
    }
    &text[at..]
}
