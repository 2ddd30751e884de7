//! What the end of a run means to the program's caller.
ghost use Rattle.std.specs.Prelude.{◌≡◌, ◌++◌, OnOk, OnErr};
ghost use Rattle.cat_play.specs.Ends.{status_code, complaint_of};

use crate::status::Status;
use sp_base::{Bytes, NoMemory};
use std::alloc::Global;

/// The program's exit status.
pub fn exit_code(status: Status) -> u8
    ensures { result ≡ status_code status }
{
    match status {
        Status::Done => 0,
        Status::Usage { at: _ } => 1,
        Status::SendTimedOut => 2,
        Status::Over => 3,
        Status::NetFault => 4,
        Status::OutFault => 5,
        Status::FileFault => 6,
        Status::NoMemory => 7,
    }
}

/// Appends what is written to standard error: nothing, or one line.
pub fn complaint(alloc: Global, s: Status, out: &mut Bytes) -> Result<(), NoMemory>
    ensures ok { OnOk result (out.new ≡ out.old ++ complaint_of s) }
    ensures err { OnErr result (out.new ≡ out.old) }
{
    match s {
        Status::Done => Ok(()),
        Status::Usage { at } => {
            let line = format!(in alloc; "nngcat: bad word {at}\n")?;
            out.append(line.as_bytes())
        }
        Status::SendTimedOut => out.append(b"nngcat: send timed out\n"),
        Status::Over => out.append(b"nngcat: stopped\n"),
        Status::NetFault => out.append(b"nngcat: network fault\n"),
        Status::OutFault => out.append(b"nngcat: output fault\n"),
        Status::FileFault => out.append(b"nngcat: file fault\n"),
        Status::NoMemory => out.append(b"nngcat: out of memory\n"),
    }
}
