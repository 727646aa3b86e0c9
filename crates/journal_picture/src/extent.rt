//! How much of a journal is drawn.

/// How much of a journal there is.
#[derive(Clone, Copy, PartialEq, Eq)]
pub enum Extent {
    /// All of it: the numbers of its entries follow each other from 0.
    Whole,
    /// Some of its entries, in their order.
    Part,
}
