//! Logs, the values that stand for them, and the values that represent items.
ghost use Rattle.std.specs.Prelude.{List};

use std::collections::LinkedList;

/// The log of a shard. It exists in proofs alone: the program has no value of it.
pub struct Log<I, B> {
    /// Its head, which no step changes.
    pub head: B,

    /// Its items, the oldest first.
    pub items: LinkedList<I>,
}

/// A value that stands for a log whose head is a `B` and whose items are `I`s.
pub trait Logged<I, B> {
    // Whether the value stands for the log with this head and these items.
    ghost stands: { Self → B → List I → Type 0 };
}

/// A value that represents an item of a log.
pub trait Item<I> {
    // The item that it represents.
    ghost item: { Self → I };
}
