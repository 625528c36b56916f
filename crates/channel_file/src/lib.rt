//! Lists of channels, and the metadata of a channel.
//!
//! [`read_channels`] reads a list as `guix describe --format=channels` writes it, [`read_metadata`] a file `.guix-channel`.
//! Nothing is evaluated. `specs/Channels.antt` says what a list gives, `specs/Metadata.antt` what metadata gives,
//! `specs/Fields.antt` how each field is written, and `specs/Limits.antt` which limits all of it keeps.
//! `proofs/Examples.antt` computes an example of each.
#![tactic(auto)]

mod channel;
mod channels;
mod dependencies;
mod elements;
mod fail;
mod fields;
mod introductions;
mod judging;
mod listing;
mod making;
mod metadata;
mod names;
mod opening;
#[cfg(test)]
mod tests;

pub use channel::{Channel, ChannelList, Introduction, Metadata};
pub use channels::{has_name, read_channels};
pub use fail::{ChannelFail, Field};
pub use metadata::read_metadata;
