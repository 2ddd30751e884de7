//! Push and pull: whose turn it is, and what is queued.
use crate::checks::{holds, plays};
use crate::machines::push_plays;
use proto_pipeline::Push;
use sp_base::{NoMemory, PipeId, Role};
use sp_history::setting::Options;
use sp_msg::Message;
use sp_proto::{Proto, Verdict};
use std::alloc::Global;

#[test]
fn a_pull_gives_what_came_first(rt: HostRuntime) {
    let play = "
        reserve 2
        up 1
        up 2
        frame 2 'x
        wants 2 no
        wants 1 yes
        frame 1 'y
        down 2
        receive 0 0
        receive 1 0
        can_give 0
        loses 0
        can_give 1
        gets 1 ' 'x
        idle
    ";
    plays(&rt, rt.alloc(), "pull", play);
}

#[test]
fn a_push_sends_the_body_on_a_pipe_with_room(rt: HostRuntime) {
    let play = "
        reserve 2
        up 1
        up 2
        send 0 0 00000007' 'x
        send 1 0 00000007' 'y
        full 1
        can_send 0 2
        goes_out 0 2 ' 'x
        full 2
        idle
        fresh
        hands_back 1 00000007' 'y
        idle
    ";
    plays(&rt, rt.alloc(), "push raw", play);
}

// A frame with a header of one word.
fn headed(alloc: Global) -> Result<Message, NoMemory> {
    let mut frame = Message::from_body(alloc, b"x")?;
    match frame.header_append_u32(7) {
        Ok(()) => Ok(frame),
        Err(_) => Err(NoMemory),
    }
}

// A push with two pipes, on the first of which this frame came.
fn with_frame(alloc: Global, frame: Message) -> Result<Push, NoMemory> {
    let mut push = Push::new(alloc, Options::usual(Role::Push, 0), false)?;
    let has_room = push.reserve(2).is_ok();
    let first = push.up(PipeId(1)).is_ok();
    let second = push.up(PipeId(2)).is_ok();
    let is_fine = push.frame(PipeId(1), frame) == Verdict::Fine;
    if has_room && first && second && is_fine {
        Ok(push)
    } else {
        Err(NoMemory)
    }
}

// A push on which a frame with a header came.
fn framed(alloc: Global) -> Result<Push, NoMemory> {
    let frame = headed(alloc)?;
    with_frame(alloc, frame)
}

#[test]
fn a_push_takes_its_pipes_in_turn(rt: HostRuntime) {
    let play = "
        send 0 0 00000007' 'x
        send 1 0 00000007' 'y
        can_send 0 1
        goes_out 0 1 ' 'x
        can_send 1 2
        full 2
        can_send 1 1
    ";
    let alloc = rt.alloc();
    holds(&rt, push_plays(alloc, framed(alloc), play).is_none());
}

#[test]
fn each_does_one_thing(rt: HostRuntime) {
    let of_pull = "
        is pull cooked
        check 0 receive ok
        check 0 send not_supported
        check 5 receive not_supported
    ";
    plays(&rt, rt.alloc(), "pull", of_pull);
    let of_push = "
        is push cooked
        check 0 send ok
        check 0 receive not_supported
        check 5 send not_supported
    ";
    plays(&rt, rt.alloc(), "push", of_push);
}
