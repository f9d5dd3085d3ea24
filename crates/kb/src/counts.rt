// How many of each a base has.

/// The six counts of a base. None passes 65,535.
#[derive(Clone, Copy, Debug, Default, PartialEq, Eq)]
pub struct Counts {
    pub entries: u16,
    pub roles: u16,
    pub individuals: u16,
    pub assertions: u16,
    pub inclusions: u16,
    pub keys: u16,
}
