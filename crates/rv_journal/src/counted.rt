//! What a counted delivery observes.

use rv_model::{Delivered, Entry};

/// What a counted delivery observes: its entry, and its slot's count, which is how many deliveries had changed the
/// word.
#[derive(Clone, Copy, Debug, Drop, PartialEq, Eq)]
pub struct Counted {
    /// The call's own entry: the delivery, or a Stop in its place.
    pub entry: Entry,
    /// The slot's count at the call's first load.
    pub first: u32,
    /// The slot's count just before the entry.
    pub count: u32,
    pub outcome: Delivered,
}
