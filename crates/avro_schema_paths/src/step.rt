//! Steps into the JSON value of a schema.

/// A step into the JSON value of a schema: the key of an attribute (`type`, `items`, `values` or `fields`), or the
/// position of an element, counted from 0.
#[derive(Clone, Copy, Debug, PartialEq, Eq)]
pub enum Step {
    Type,
    Items,
    Values,
    Fields,
    At(usize),
}
