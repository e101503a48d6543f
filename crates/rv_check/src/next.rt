//! Where a script stands: what its seat may do next.

/// The next delivery of a turn that the turn's look shows on.
#[derive(Clone, Copy, Drop)]
pub struct Due {
    /// The word that the look found.
    pub look: u64,
    /// The delivery's place among the work's deliveries.
    pub place: u32,
    /// The end of the turn's places.
    pub to: u32,
    /// The number of the turn behind this one.
    pub turn: usize,
    /// The delivery's slot.
    pub slot: u32,
    /// How many entries of others changed the slot's word since the seat's last entry. It stays at 3.
    pub lost: u8,
}

/// What a seat may do next.
#[derive(Clone, Copy, Drop)]
pub enum Next {
    /// A look, with which the turn of this number begins. Where there is no such turn, nothing.
    Look(usize),
    /// This delivery, or a stop of its slot where it is no end.
    Deliver(Due),
    /// A raise of the halted bit alone, and then nothing.
    Raise,
    /// Nothing.
    Over,
}
