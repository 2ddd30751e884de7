//! A live survey.
ghost use Rattle.std.specs.Prelude.{◌≡◌, ◌==◌, ◌^◌, ◌<◌, true, false, length};
ghost use Rattle.sp_history.specs.Lists.{is_nil, head_of};
ghost use Rattle.proto_survey.specs.Lives.{fresh_survey, given_from, has_number, is_live_on, is_over, with_reply};

use sp_base::{Ctx, Tick};
use sp_msg::Message;
use std::alloc::Global;
use std::collections::VecDeque;
use std::marker::Model;

/// A live survey (nng_surveyor(7)).
#[derive(Drop)]
pub struct LiveSurvey {
    ctx: Ctx,
    /// The first word of what went out for it, and of each response.
    id: u32,
    /// The moment of its begin.
    birth: Tick,
    /// The responses that are kept, the oldest first.
    replies: VecDeque<Message>,
}

impl Model for LiveSurvey {
    ghost use Rattle.proto_survey.specs.Lives.{SurveyView};

    ghost Value = { SurveyView };

    ghost view = { λ x. record { ctx = x.ctx; id = x.id; birth = x.birth; replies = x.replies.items } };
}

impl LiveSurvey {
    /// A survey that begins at this moment.
    pub fn new(alloc: Global, ctx: Ctx, id: u32, birth: Tick) -> LiveSurvey
        ensures { result ≡ fresh_survey ctx id birth }
    {
        LiveSurvey {
            ctx,
            id,
            birth,
            replies: VecDeque::new(alloc),
        }
    }

    /// Returns whether it belongs to this context.
    pub fn is_on(&self, c: Ctx) -> bool
        ensures { result ≡ is_live_on c self.now }
    {
        self.ctx.0 == c.0
    }

    /// Its context.
    pub fn ctx(&self) -> Ctx
        ensures { result ≡ self.now.ctx }
    {
        self.ctx
    }

    /// Returns whether it has this id.
    pub fn has_id(&self, id: u32) -> bool
        ensures { result ≡ has_number id self.now }
    {
        self.id == id
    }

    /// Returns whether its id is below this one.
    pub fn is_below(&self, id: u32) -> bool {
        self.id < id
    }

    /// Returns whether `time` milliseconds have passed since its begin.
    pub fn is_over(&self, time: u64, now: Tick) -> bool
        ensures { result ≡ is_over time now self.now }
    {
        self.birth.0 <= now.0 && now.0 - self.birth.0 >= time
    }

    /// Returns whether no response is kept.
    pub fn is_empty(&self) -> bool
        ensures { result ≡ is_nil self.now.replies }
    {
        self.replies.is_empty()
    }

    /// Keeps the response, where fewer than `most` are kept. Returns false when out of memory; then nothing changes.
    pub fn keep(&mut self, most: u32, m: Message) -> bool
        ensures kept { result ≡ true → self.new ≡ with_reply most m self.old }
        ensures same { result ≡ false → self.new ≡ self.old }
        ensures few { result ≡ false → length self.old.replies < most }
    {
        if self.replies.len() >= most as usize {
            return true;
        }
        self.replies.push_back(m).is_ok()
    }

    /// Takes out the oldest response.
    pub fn give(&mut self) -> Option<Message>
        ensures given { result ≡ head_of self.old.replies }
        ensures rest { self.new ≡ given_from self.old }
    {
        self.replies.pop_front()
    }
}
