//! How far the generation of a commit is known.

/// How far the generation of a commit is known.
#[derive(Clone, Copy, PartialEq, Eq, Debug, Drop)]
pub enum Level {
    /// It isn't looked at yet.
    Unknown,
    /// Its ancestors are being looked at.
    Entered,
    /// This is it.
    Known(u32),
    /// It has none.
    Endless,
}

/// What is to be done with a commit whose ancestors are being looked at.
#[derive(Clone, Copy, Drop)]
pub enum Step<T> {
    /// This parent, at this place, isn't looked at yet.
    Enter(T, usize),
    /// Its generation is this.
    Settle(u32),
    /// It has no generation.
    GiveUp,
}
