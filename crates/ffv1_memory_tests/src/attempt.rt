//! A call that can be made again.
use std::alloc::Global;

/// What a call came to.
#[derive(Clone, Copy, PartialEq, Eq)]
pub enum Tried {
    /// It succeeded, and this is the remainder of the bytes that it gave.
    Done(u32),
    /// It reported that an allocation failed.
    Memory,
    /// It returned anything else.
    Wrong,
}

/// A call, with what it is made on.
pub trait Attempt: Drop {
    /// Makes the call.
    fn attempt(&mut self, alloc: Global) -> Tried;

    /// Whether what the call is made on is as it was before the first call.
    fn is_kept(&self) -> bool {
        true
    }
}
