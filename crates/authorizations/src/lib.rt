//! Files of authorisations, and the sets of keys that they give.
//!
//! [`read_authorizations`] reads the keys of a file. `specs/Authorizations.antt` says what such a file is, and
//! `specs/Reading.antt` what any bytes give.
#![tactic(auto)]

mod fail;
mod meeting;
mod reading;
mod scope;
#[cfg(test)]
mod tests;

pub use child_ports::{Fingerprint, KeySet};
pub use fail::AuthFail;
pub use meeting::meet;
pub use reading::read_authorizations;
pub use scope::Scope;
