// What is counted at the bench. Counts stop at the largest u32.

// How often a store was a change, by place.
#[derive(Clone, Copy, Default)]
pub struct Changes {
    pub name: u32,
    pub message: u32,
    pub alert: u32,
}

#[derive(Clone, Copy, Default)]
pub struct Tally {
    pub drawn: u32,
    pub lost: u32,
    pub doubled: u32,
    pub turned: u32,
    // Turned PDUs that the monitor did not refuse.
    pub turned_accepted: u32,
    pub changes: Changes,
}
