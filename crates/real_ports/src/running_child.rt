//! A child that doesn't outlive its value.
use std::process::{Child, OpenProcess};

/// A started child. Where the value ends, its pipes are closed, and it is ended and waited for.
pub struct RunningChild<P: OpenProcess + Drop> {
    pub child: Child<P>,
}

impl<P: OpenProcess + Drop> Drop for RunningChild<P> {
    fn drop(self) {
        let RunningChild { mut child } = self;
        drop(child.stdin.take());
        drop(child.stdout.take());
        // A child that has ended by itself can't be ended; it is waited for all the same.
        let _ = child.kill();
        let _ = child.wait();
    }
}
