//! The result of serving the pipes of a core.

/// The result of serving the pipes.
#[derive(Clone, Copy, PartialEq, Eq, Debug)]
pub struct Served {
    /// Whether a frame came, a message went out, an operation ended or a pipe went down.
    pub moved: bool,
    /// The number of pipes that went down, 0 to 4,096.
    pub ended: u32,
    /// The number of pipes that had something left to write when they were flushed, 0 to 4,096.
    pub waiting: u32,
    /// The number of pipes that are up now, 0 to 4,096.
    pub up: u32,
    /// How much the pipes that are up have passed on, where one of them had something left to write; else 0. While only
    /// that changes, links take bytes. Nothing is claimed of it.
    pub taken: u64,
}
