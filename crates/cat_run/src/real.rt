//! The machine's side: sockets, files, the clock and standard output.
pub use sp_real::{
    Counts, NetFault, RealFiles, RealOut, RealPace, Reason, TURN_BYTES, TcpLink, TcpNet, Wakes,
    real_side,
};
