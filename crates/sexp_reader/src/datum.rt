//! Data.
ghost use Rattle.std.specs.Prelude.{◌≡◌, map};
ghost use Rattle.std.specs.Option.{option_copied, option_map};
ghost use Rattle.sexp_reader.specs.Tree.{list_in, number_in, symbol_in, text_in, tree};

use child_ports::Text;
use sqlite_items::Items;

/// A datum as it was read. Contracts see it as its tree.
#[derive(Debug, Drop)]
pub enum Datum {
    Symbol(Text),
    Text(Text),
    Number(u64),
    List(DatumList),
}

/// The data of a list.
pub type DatumList = Items<Datum>;

impl Datum {
    /// The symbol, if the datum is one.
    #[tactic(auto, using(crate::proofs::TreeLemmas::kinds))]
    pub fn as_symbol(&self) -> Option<&str>
        ensures { option_copied result ≡ symbol_in (tree self.now) }
    {
        match self {
            Datum::Symbol(symbol) => Some(symbol.as_str()),
            Datum::Text(_) | Datum::Number(_) | Datum::List(_) => None,
        }
    }

    /// The text, without its quotes, if the datum is one.
    #[tactic(auto, using(crate::proofs::TreeLemmas::kinds))]
    pub fn as_text(&self) -> Option<&str>
        ensures { option_copied result ≡ text_in (tree self.now) }
    {
        match self {
            Datum::Text(text) => Some(text.as_str()),
            Datum::Symbol(_) | Datum::Number(_) | Datum::List(_) => None,
        }
    }

    /// The number, if the datum is one.
    #[tactic(auto, using(crate::proofs::TreeLemmas::kinds))]
    pub fn as_number(&self) -> Option<u64>
        ensures { result ≡ number_in (tree self.now) }
    {
        match self {
            Datum::Number(number) => Some(*number),
            Datum::Symbol(_) | Datum::Text(_) | Datum::List(_) => None,
        }
    }

    /// The data of the list, if the datum is one.
    #[tactic(auto, using(crate::proofs::TreeLemmas::kinds))]
    pub fn as_list(&self) -> Option<&[Datum]>
        ensures { option_map (λ ds. map tree ds) (option_copied result) ≡ list_in (tree self.now) }
    {
        match self {
            Datum::List(items) => Some(items.as_slice()),
            Datum::Symbol(_) | Datum::Text(_) | Datum::Number(_) => None,
        }
    }
}
