//! What comes of waiting at doors.

/// What came to the doors.
#[derive(Drop)]
pub enum Came<P, A> {
    /// A connection that carries messages.
    Pad(P),
    /// A connection that carries one request and its reply.
    Api(A),
    /// Neither door had a caller for a while.
    Nothing,
    /// Nobody comes any more.
    End,
    Failed,
    NoMemory,
}
