//! Why bytes are no list of channels, or no metadata.
use child_ports::Text;
use sexp_reader::SexpFail;
use std::alloc::AllocError;

/// What a channel or its metadata is made of.
#[derive(Clone, Copy, Debug, PartialEq, Eq)]
pub enum Field {
    /// The whole, or an element of a channel.
    Channel,
    Name,
    Url,
    Branch,
    Commit,
    Introduction,
    Directory,
    KeyringReference,
    NewsFile,
    Dependencies,
}

/// Why bytes are no list of channels, or no metadata. The number of a channel or a dependency is from 0.
#[derive(Debug, Drop)]
pub enum ChannelFail {
    /// There is no first datum for this reason, which is never want of memory.
    Sexp(SexpFail),
    /// A list of channels would have to be evaluated: this symbol stands in it, or heads a list, where no symbol or another
    /// one has to.
    Evaluates(Text),
    /// This is of another form.
    Shape(Field),
    /// A version other than 0.
    Version(u64),
    /// The channel or the dependency of this number has no name, or one that can't be.
    Name(u64),
    /// A channel has the name of an earlier one.
    Twice(Text),
    /// Memory is wanting.
    Memory,
}

impl From<AllocError> for ChannelFail {
    ghost use Rattle.std.specs.Prelude.{◌≡◌};
    ghost use Rattle.channel_file.specs.declared.fail.ChannelFail.TheVariants.{Memory};

    ghost from_gives = { λ _ e. e ≡ Memory };

    fn from(_: AllocError) -> Self {
        ChannelFail::Memory
    }
}
