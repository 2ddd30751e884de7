//! What is written into a register.

/// The element of a turn: that this value was written.
pub struct Written(pub u64);

/// Which caller wrote which value.
#[derive(Clone, Copy, Debug, PartialEq, Eq)]
pub struct Write {
    /// The caller's number.
    pub by: u32,
    /// What it wrote.
    pub value: u64,
}
