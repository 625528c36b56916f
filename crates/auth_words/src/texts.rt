//! Texts of words, and copies of them.
ghost use Rattle.std.specs.Prelude.{◌≡◌, map, IfOk};
ghost use Rattle.std.specs.List.{All};
ghost use Rattle.std.specs.Str.{IsUtf8};

use child_ports::Text;
use std::alloc::{AllocError, Global};

/// A copy of a text.
pub fn copied(alloc: Global, text: &str) -> Result<Text, AllocError>
    ensures { IfOk result (λ copy. copy ≡ text.now) }
{
    let mut copy = Text::new(alloc);
    copy.push(text)?;
    Ok(copy)
}

/// The texts of words.
pub fn texts_of(alloc: Global, words: &[Text]) -> Result<Vec<&str>, AllocError>
    ensures texts { IfOk result (λ texts. map (λ s. s.now) texts.items ≡ words.now) }
    ensures utf8 { IfOk result (λ texts. All IsUtf8 (map (λ s. s.now) texts.items)) }
{
    let mut texts = Vec::new(alloc);
    for word in words {
        texts.push(word.as_str())?;
    }
    Ok(texts)
}
