// A session's states and flags, by the numbers in which it holds them.

// Any other number is no state.
#[derive(Clone, Copy)]
pub(crate) enum State {
    Ready = 0,
    Open = 1,
    Held = 2,
    Gone = 3,
}

// Flags by their bits.
#[derive(Clone, Copy)]
pub(crate) enum Flag {
    Initiating = 0,
    Active = 1,
    UsesTac = 2,
    Drops = 3,
    InForce = 4,
    Dynamic = 5,
    Recorded = 6,
}

impl Flag {
    // How many there are.
    pub(crate) const COUNT: u16 = 7;
}
