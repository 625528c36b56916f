//! The words of the command line, and the plan that they state.
//!
//! [`read_words`] gives the command, or none. `specs/Words.antt` says which command words state: begin there.
//! `specs/Form.antt` says what one word is and `specs/Arguments.antt` how words are read from left to right, for any command;
//! `specs/Grammars.antt` has the options and flags of each. What values may be is said in `specs/Limits.antt` of `name_limits`.
//!
//! The words are cut by clap. That it reads them by this rule, and no others, is proved: `proofs/SameLemmas.antt` goes with
//! clap's walk from word to word, and `proofs/TakenLemmas.antt` has what its matches then give. Both hold of any command of which
//! `proofs/ReaderLemmas.antt` is shown; `proofs/AuthenticateLemmas.antt` and `proofs/ChannelsLemmas.antt` show it of each.
#![tactic(auto)]

mod app;
mod channels;
mod given;
mod limits;
mod plan;
mod reading;
#[cfg(test)]
mod tests;
mod texts;

pub use plan::{ChannelsPlan, Command, Plan};
pub use reading::read_words;
