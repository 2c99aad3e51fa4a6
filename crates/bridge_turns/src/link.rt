//! The link to the stream, and the line of the queue's consumers.

use bridge_rule::Name;

/// How far the bridge is on the way to being called.
#[derive(Drop)]
pub enum Link {
    /// There is no connection.
    Away,
    /// It reads up to the mark of this name.
    Reading(Name),
    /// It has read what there was, and stands in line as soon as it knows its journals.
    InLine,
}
