//! How far a connection is.

/// What is done with a connection.
#[derive(Clone, Copy, Debug, PartialEq, Eq)]
pub enum Stage {
    /// What comes is read, asked and answered.
    Open,
    /// The world has no connection for its stream, which asks nothing, or waits for a place: once one
    /// is there for what it asks next, it goes on as another connection.
    Parked,
    /// The proxy closed it: it takes leave once all is written.
    Closing,
    /// All is written, and its client told so: what comes is dropped, for a while (RFC 9112 section
    /// 9.6).
    Leaving,
}
