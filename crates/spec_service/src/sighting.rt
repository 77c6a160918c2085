//! What the next bytes of a connection are.

/// What the next bytes of a connection are.
#[derive(Clone, Copy, Debug, PartialEq, Eq)]
pub enum Sighting {
    /// They are no whole part of a request: more have to come.
    Nothing,
    /// They are the head of a request.
    Head,
    /// They are a piece of its content.
    Piece,
    /// They are the end of the request.
    End,
    /// Nothing more is read: the request before was the last one.
    Over,
}
