//! The lines of a text, without the blanks at their ends.
ghost use Rattle.std.specs.Prelude.{◌≡◌, ◌<◌, ◌∷◌, [], length, IfSome, MatchOption};
ghost use Rattle.keyring_branch.specs.Lines.{is_blank, trimmed, lines_of};

use byte_cuts::cut_at;

// Space, tab or carriage return.
fn is_blank(byte: u8) -> bool
    ensures { result ≡ is_blank byte }
{
    matches!(byte, b' ' | b'\t' | b'\r')
}

// A line without the blanks at its end.
fn trimmed(line: &[u8]) -> &[u8]
    ensures { result.now ≡ trimmed line.now }
{
    let mut left = line;
    'bytes: while let Some((last, front)) = left.split_last() {
        if !is_blank(*last) {
            return left;
        }
        left = front;
    }
    left
}

/// The first line, and the text behind it; none where the text is at its end.
pub fn next_line(text: &[u8]) -> Option<(&[u8], &[u8])>
    ensures lines { MatchOption result (lines_of text.now ≡ []) (λ next. lines_of text.now ≡ next.0.now ∷ lines_of next.1.now) }
    ensures shorter { IfSome result (λ next. length next.1.now < length text.now) }
{
    if text.is_empty() {
        return None;
    }
    match cut_at(text, b'\n') {
        Some((line, rest)) => Some((trimmed(line), rest)),
        None => Some((trimmed(text), &[])),
    }
}

/// How many lines a text has.
pub fn line_count(text: &[u8]) -> u64
    ensures { result ≡ length (lines_of text.now) }
{
    let mut count = 0u64;
    let mut rest = text;
    'lines: while let Some((_, next)) = next_line(rest) {
        count += 1;
        rest = next;
    }
    count
}
