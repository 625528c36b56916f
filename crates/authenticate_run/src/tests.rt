//! Runs of `authenticate` over histories that scripts declare.
mod accepted;
mod cached;
mod faults;
mod refused;
mod scripted;
mod stopped;
