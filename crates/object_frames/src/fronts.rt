//! How far an answer that begins with no header line goes along with one.
ghost use Rattle.std.specs.Prelude.{◌≡◌, ◌≤◌, length, take, ◌++◌};
ghost use Rattle.std.specs.List.{prefix_len};
ghost use Rattle.child_ports.specs.Framed.{is_lower_hex_digit};
ghost use Rattle.object_frames.specs.Fronts.{common, is_digit, size_digits, size_front, word_front, kind_front, object_front, front_of};

/// Whether it is a digit of an id.
pub fn is_lower_hex(b: u8) -> bool
    ensures { result ≡ is_lower_hex_digit b }
{
    (48 <= b && b <= 57) || (97 <= b && b <= 102)
}

fn is_digit(b: u8) -> bool
    ensures { result ≡ is_digit b }
{
    48 <= b && b <= 57
}

// How many bytes two texts have in common at their front.
fn common(text: &[u8], other: &[u8]) -> usize
    ensures value { result ≡ common text.now other.now }
    ensures within { result ≤ length text.now }
    ensures short { result ≤ length other.now }
{
    for (i, x) in text.iter().enumerate() {
        if i >= other.len() {
            return i;
        }
        if other[i] != *x {
            return i;
        }
    }
    text.len()
}

// How many bytes a text has in common with a name and a word after it.
fn common_after(text: &[u8], name: &[u8], word: &[u8]) -> usize
    ensures value { result ≡ common text.now (name.now ++ word.now) }
    ensures within { result ≤ length text.now }
{
    let n = common(text, name);
    if n < name.len() {
        return n;
    }
    n + common(&text[n..], word)
}

// How many digits of an id the text begins with.
fn hex_len(text: &[u8]) -> usize
    ensures value { result ≡ prefix_len is_lower_hex_digit text.now }
    ensures within { result ≤ length text.now }
{
    text.iter().take_while(|b| is_lower_hex(**b)).count()
}

// How many decimal digits the text begins with.
fn digits_len(text: &[u8]) -> usize
    ensures value { result ≡ prefix_len is_digit text.now }
    ensures within { result ≤ length text.now }
{
    text.iter().take_while(|b| is_digit(**b)).count()
}

// How many digits of a size the text begins with, of which there may be so many.
fn digits_front(text: &[u8], most: usize) -> usize
    ensures value { result ≡ prefix_len is_digit (take most text.now) }
    ensures within { result ≤ length text.now }
{
    digits_len(&text[..most.min(text.len())])
}

#[tactic(auto, unfolding(crate::specs::Fronts::size_digits))]
// How many digits of a size the text begins with: one 0, or at most 18.
fn size_digits(text: &[u8]) -> usize
    ensures value { result ≡ size_digits text.now }
    ensures within { result ≤ length text.now }
{
    if !text.is_empty() && text[0] == b'0' {
        digits_front(text, 1)
    } else {
        digits_front(text, 18)
    }
}

#[tactic(auto, unfolding(crate::specs::Fronts::size_front))]
// How far the text goes along with a size and the end of its line.
fn size_front(text: &[u8]) -> usize
    ensures value { result ≡ size_front text.now }
    ensures within { result ≤ length text.now }
{
    let digits = size_digits(text);
    if 0 < digits && digits < text.len() && text[digits] == b'\n' {
        digits + 1
    } else {
        digits
    }
}

// How far the text goes along with a word and a size after it.
fn word_front(text: &[u8], word: &[u8]) -> usize
    ensures value { result ≡ word_front text.now word.now }
    ensures within { result ≤ length text.now }
{
    let n = common(text, word);
    if n < word.len() {
        return n;
    }
    n + size_front(&text[n..])
}

#[tactic(auto, unfolding(crate::specs::Fronts::kind_front))]
// How far the text goes along with what follows an id.
fn kind_front(text: &[u8]) -> usize
    ensures value { result ≡ kind_front text.now }
    ensures within { result ≤ length text.now }
{
    let commit = word_front(text, b" commit ");
    let tree = word_front(text, b" tree ");
    let blob = word_front(text, b" blob ");
    let tag = word_front(text, b" tag ");
    commit.max(tree.max(blob.max(tag)))
}

// How far the text goes along with the header line of an object.
fn object_front(text: &[u8]) -> usize
    ensures value { result ≡ object_front text.now }
    ensures within { result ≤ length text.now }
{
    let n = hex_len(&text[..text.len().min(40)]);
    if n < 40 {
        return n;
    }
    40 + kind_front(&text[40..])
}

#[tactic(auto, unfolding(crate::specs::Fronts::front_of))]
/// How many bytes of the text are the front of some header line for the name.
pub fn front_of(text: &[u8], name: &[u8]) -> usize
    ensures value { result ≡ front_of name.now text.now }
    ensures within { result ≤ length text.now }
{
    let missing = common_after(text, name, b" missing\n");
    let ambiguous = common_after(text, name, b" ambiguous\n");
    missing.max(ambiguous.max(object_front(text)))
}
