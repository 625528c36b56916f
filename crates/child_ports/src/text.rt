//! Texts, which contracts see as their bytes.
ghost use Rattle.std.specs.Prelude.{◌≡◌, [], ◌++◌, length, OnOk, OnErr};

use crate::Items;
use std::alloc::{AllocError, Global};
use std::marker::Model;

/// A text of UTF-8 that keeps its allocator.
#[derive(Debug, Drop)]
pub struct Text {
    text: String,
}

impl Model for Text {
    ghost use Rattle.std.specs.Prelude.{List, ℕ, string_bytes};

    ghost Value = { List ℕ };

    ghost view = { λ t. string_bytes t.text };
}

impl Text {
    pub fn new(alloc: Global) -> Text
        ensures { result ≡ [] }
    {
        Text {
            text: String::new(alloc),
        }
    }

    pub fn push(&mut self, part: &str) -> Result<(), AllocError>
        ensures ok { OnOk result (self.new ≡ self.old ++ part.now) }
        ensures err { OnErr result (self.new ≡ self.old) }
    {
        self.text.push_str(part)
    }

    pub fn len(&self) -> usize
        ensures { result ≡ length self.now }
    {
        self.text.len()
    }

    pub fn as_str(&self) -> &str
        ensures { result.now ≡ self.now }
    {
        self.text.as_str()
    }
}

/// The words of a command line.
pub type Words = Items<Text>;
