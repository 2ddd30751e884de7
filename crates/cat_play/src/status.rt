//! How a run ends.

/// How a run of nngcat(1) ended.
#[derive(Clone, Copy, Debug, PartialEq, Eq)]
pub enum Status {
    /// The play came to its end: the count is reached, or a receive timed out.
    Done,
    /// The words have no plan; `at` is the length of the longest prefix of them that begins the words of some plan.
    Usage { at: u32 },
    /// A send took longer than it may.
    SendTimedOut,
    /// The pace said that no turn is left before the play came to its end.
    Over,
    /// The net failed to listen, or a name within the process is listened on twice.
    NetFault,
    /// The output failed; a prefix of the text that it was given may have been written.
    OutFault,
    /// A file couldn't be read.
    FileFault,
    /// There was no memory, at any point of the run.
    NoMemory,
}
