//! Where a writer's datum goes with the reader, and a writer's field.

/// Where a value of a writer's node goes in a reader's node.
#[derive(Clone, Copy, Debug, PartialEq, Eq)]
pub enum Destination {
    /// Into the reader's node itself.
    Straight,
    /// Into a branch of the reader's union, at this position and with this node.
    IntoMember { position: u32, node: usize },
    /// Nowhere, since no branch of the reader's union matches.
    Nowhere,
    /// Nowhere, since the reader's node does not match.
    Unmatched,
}

/// The partner of a writer's field: its index among the reader's fields, and its node.
#[derive(Clone, Copy, Debug, PartialEq, Eq)]
pub struct Partner {
    pub position: usize,
    pub node: usize,
}

/// Where a writer's field goes: its own node, and its partner, if it has one.
#[derive(Clone, Copy, Debug, PartialEq, Eq)]
pub struct Route {
    pub node: usize,
    pub partner: Option<Partner>,
}
