//! Kinds of bytes.
ghost use Rattle.std.specs.Prelude.{◌≡◌, ◌<◌, [], ◌∷◌, length, slice_index, drop, MatchOption};
ghost use Rattle.sexp_reader.specs.Grammar as grammar;

/// Space, tab, LF, FF and CR.
pub fn is_blank(b: u8) -> bool
    ensures { result ≡ grammar.is_blank b }
{
    b == b' ' || b == b'\t' || b == b'\n' || b == 12 || b == b'\r'
}

/// A byte that stands in texts and comments alone: anywhere else it is refused.
pub fn is_refused(b: u8) -> bool
    ensures { result ≡ grammar.is_refused b }
{
    b == b'#'
        || b == b'`'
        || b == b','
        || b == b'['
        || b == b']'
        || b == b'{'
        || b == b'}'
        || b == b'|'
}

/// A byte that no token has.
pub fn ends_token(b: u8) -> bool
    ensures { result ≡ grammar.ends_token b }
{
    is_blank(b) || b == b'(' || b == b')' || b == b'"' || b == b';' || is_refused(b)
}

/// The first byte, if there is one.
pub fn first_byte(text: &str) -> Option<u8>
    ensures { MatchOption result (text.now ≡ []) (λ b. text.now ≡ b ∷ drop 1 text.now) }
{
    text.as_bytes().first().copied()
}

/// What follows the first character, which is ASCII.
pub fn past_first(text: &str) -> &str
    requires some { 0 < length text.now }
    requires ascii { slice_index text.now 0 < 128 }
    ensures { result.now ≡ drop 1 text.now }
{
    &text[1..]
}
