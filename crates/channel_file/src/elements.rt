//! Lists that a symbol heads.
ghost use Rattle.std.specs.Prelude.{◌≡◌, map};
ghost use Rattle.std.specs.Option.{option_copied};
ghost use Rattle.authorizations.specs.Reading.{is_word};
ghost use Rattle.sexp_reader.specs.Tree.{symbol_in, tree};
ghost use Rattle.channel_file.specs.Elements.{behind, first_behind, head_of, only, version_in};
ghost use Rattle.channel_file.specs.ReadingInside.{tree_in, trees_in};

use sexp_reader::Datum;

// Whether the datum is this symbol.
fn is_symbol(datum: &Datum, word: &str) -> bool
    ensures { result ≡ is_word word.now (symbol_in (tree datum.now)) }
{
    match datum.as_symbol() {
        Some(symbol) => symbol == word,
        None => false,
    }
}

/// What stands behind this word, in a list that it heads.
pub fn behind<'a>(word: &str, datum: &'a Datum) -> Option<&'a [Datum]>
    ensures { trees_in result ≡ behind word.now (tree datum.now) }
{
    let [head, rest @ ..] = datum.as_list()? else {
        return None;
    };
    if is_symbol(head, word) {
        Some(rest)
    } else {
        None
    }
}

/// What stands behind this word, in the first list that it heads.
pub fn first_behind<'a>(word: &str, elements: &'a [Datum]) -> Option<&'a [Datum]>
    ensures { trees_in result ≡ first_behind word.now (map tree elements.now) }
{
    for element in elements {
        if let Some(rest) = behind(word, element) {
            return Some(rest);
        }
    }
    None
}

/// The one datum, if there are no more.
pub fn only(given: &[Datum]) -> Option<&Datum>
    ensures { tree_in result ≡ only (map tree given.now) }
{
    match given {
        [datum] => Some(datum),
        _ => None,
    }
}

/// The symbol that heads a list.
pub fn head_of(datum: &Datum) -> Option<&str>
    ensures { option_copied result ≡ head_of (tree datum.now) }
{
    let [head, ..] = datum.as_list()? else {
        return None;
    };
    head.as_symbol()
}

/// The number of `(version N)`.
pub fn version_in(datum: &Datum) -> Option<u64>
    ensures { result ≡ version_in (tree datum.now) }
{
    let [word, number] = datum.as_list()? else {
        return None;
    };
    if is_symbol(word, "version") {
        number.as_number()
    } else {
        None
    }
}
