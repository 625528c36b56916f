//! Channels that are authenticated together, with the channels that they depend on.
//!
//! [`authenticate_set`] is the check. `specs/Outcome.antt` says what a set comes to, channel by channel: `Reading.antt` its
//! target and metadata, `Standings.antt` its check, `Moves.antt` its move from the commit that is deployed. `Members.antt` says
//! which channels a set has, `Places.antt` where each stands and under which keys it is kept.
#![tactic(auto)]

mod known;
pub mod laws;
mod moving;
mod places;
mod reading;
mod refusing;
mod set;
mod set_fail;
mod standing;
mod taking;
#[cfg(test)]
mod tests;
mod walking;

pub use set::{Member, MemberList, Move, SetTask, SetVerdict, Standing};
pub use set_fail::SetFail;
pub use walking::authenticate_set;
