//! Lists of channels.
ghost use Rattle.std.specs.Prelude.{◌≡◌, ◌≢◌, [], map, IfOk, Err};
ghost use Rattle.std.specs.Option.{option_copied};
ghost use Rattle.sexp_reader.specs.Tree.{tree};
ghost use Rattle.sexp_reader.specs.declared.fail.SexpFail.TheVariants as sexp;
ghost use Rattle.channel_file.specs.Channels.{channels_of, each, listed_channel, has_name, repeated_name, distinct_channels};
ghost use Rattle.channel_file.specs.Limits.{AreListed};
ghost use Rattle.channel_file.specs.Reading.{Gives};

use crate::listing::{elements_of, listed_channel};
use crate::making::make_text;
use crate::opening::datum_in;
use crate::{Channel, ChannelFail, ChannelList, Field};
use sexp_reader::Datum;
use std::alloc::Global;

/// How many channels a list may have.
const MAX_CHANNELS: usize = 256;

// The channels of elements.
fn channels_in(alloc: Global, elements: &[Datum]) -> Result<ChannelList, ChannelFail>
    ensures channels { Gives result (each listed_channel 0 (map tree elements.now)) }
    ensures memory { result ≢ Err (ChannelFail.Sexp sexp.Memory) }
{
    let mut channels = ChannelList::new(alloc);
    for (index, element) in elements.iter().enumerate() {
        let channel = listed_channel(alloc, index as u64, element)?;
        channels.push(channel)?;
    }
    Ok(channels)
}

/// Whether one of the channels has this name.
pub fn has_name(channels: &[Channel], name: &str) -> bool
    ensures { result ≡ has_name channels.now name.now }
{
    channels.iter().any(|channel| channel.name.as_str() == name)
}

// The first name that a channel before has, too.
fn repeated_name(channels: &[Channel]) -> Option<&str>
    ensures { option_copied result ≡ repeated_name [] channels.now }
{
    for (index, channel) in channels.iter().enumerate() {
        let name = channel.name.as_str();
        if has_name(&channels[..index], name) {
            return Some(name);
        }
    }
    None
}

// The channels, if there are no more than 256, of different names.
fn distinct_channels(alloc: Global, channels: ChannelList) -> Result<ChannelList, ChannelFail>
    ensures channels { Gives result (distinct_channels channels) }
    ensures memory { result ≢ Err (ChannelFail.Sexp sexp.Memory) }
{
    if channels.len() > MAX_CHANNELS {
        return Err(ChannelFail::Shape(Field::Channel));
    }
    if let Some(name) = repeated_name(channels.as_slice()) {
        return Err(ChannelFail::Twice(make_text(alloc, name)?));
    }
    Ok(channels)
}

// The channels of the bytes.
fn read_list(alloc: Global, bytes: &[u8]) -> Result<ChannelList, ChannelFail>
    ensures reads { Gives result (channels_of bytes.now) }
    ensures memory { result ≢ Err (ChannelFail.Sexp sexp.Memory) }
{
    let datum = datum_in(alloc, bytes)?;
    let elements = elements_of(alloc, "list", &datum)?;
    let channels = channels_in(alloc, elements)?;
    distinct_channels(alloc, channels)
}

/// Reads a list of channels, after Guix's manual, "Channels".
///
/// Only the first datum counts. Nothing is evaluated: a symbol, or a list that another symbol heads than has to stand there,
/// is refused by its name.
pub fn read_channels(alloc: Global, bytes: &[u8]) -> Result<ChannelList, ChannelFail>
    // Unless memory is wanting, the answer is what the bytes give.
    ensures reads { Gives result (channels_of bytes.now) }
    // The channels are at most 256, have different names, and each keeps its limits.
    ensures listed { IfOk result (λ channels. AreListed channels) }
    // Want of memory is told as such, wherever it comes.
    ensures memory { result ≢ Err (ChannelFail.Sexp sexp.Memory) }
{
    read_list(alloc, bytes)
}
