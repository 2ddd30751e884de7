//! A live request, and a reply that is kept.
use proto_requests::backlog::FromPipe;
use sp_base::{Ctx, PipeId, Tick};
use sp_history::parts::LastOut;
use sp_msg::Message;

/// A message that is kept, and the pipe that it came from (nng_req(7)).
#[derive(Drop)]
pub struct KeptReply {
    pub pipe: PipeId,
    pub message: Message,
}

impl FromPipe for KeptReply {
    ghost pipe_of = { λ k. k.pipe };

    fn pipe(&self) -> PipeId {
        self.pipe
    }
}

/// A live request (nng_req(7)).
#[derive(Drop)]
pub struct Live {
    pub ctx: Ctx,
    pub id: u32,
    /// What goes out after the id, with an empty header.
    pub copy: Message,
    pub birth: Tick,
    pub last_out: Option<LastOut>,
    pub reply: Option<KeptReply>,
}
