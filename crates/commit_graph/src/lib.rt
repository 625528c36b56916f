//! The history as a graph of commits.
//!
//! [`Graph`] holds commits with their parents. Ranked, it tells each commit's generation, how two commits stand to each other, and
//! by [`Graph::uncovered`] what a target reaches beyond an introduction and the entries of a cache. `specs/Chains.antt` says what a
//! commit reaches and what its generation is, in any history; `specs/History.antt` what a graph holds; `specs/Covers.antt` what a
//! target and an introduction reach, and what a cache covers of it; `specs/Fail.antt` what is refused where. [`covered_is_closed`]
//! is a law of these words, for the layers above.
#![tactic(auto)]

mod fail;
mod graph;
mod laws;
mod level;
mod marks;
mod node;
mod ranking;
mod reaching;
mod relation;
#[cfg(test)]
mod tests;
mod uncovering;
mod walk;

pub use fail::GraphFail;
pub use graph::Graph;
pub use laws::covered_is_closed;
pub use marks::Marks;
pub use relation::Relation;
