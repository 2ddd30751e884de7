//! Plays of a core as texts: each line is a call that its driver makes, and what the core returns. For tests of cores.
//!
//! Places, pipes and contexts are written as their numbers, errors as those of nng (0 where the call succeeds), and
//! operations as the number of those that began before them. HEADER and BODY are words of bytes, and so are a TOPIC and
//! each PUT, which is a message's bytes on a wire.
//!
//! | call | what it says |
//! |---|---|
//! | `joins PLACE MOST PIPE GIVE..` | a wire of the link takes MOST messages, gives this, and becomes this pipe |
//! | `joins_within PLACE LIMIT MOST PIPE GIVE..` | the same as `joins`; the pipe has this receive limit |
//! | `joins_failing PLACE MOST PIPE PULL GIVE..` | as `joins`; the pull with this number, from 0 on, fails |
//! | `joins_broken PLACE PIPE GIVE..` | the same; the wire fails where it is asked for room |
//! | `no_pipe PLACE ERROR GIVE..` | a wire that gives this is refused |
//! | `met PLACE`, `missed PLACE MISS` | a link was met, and became no pipe |
//! | `serve` | the pipes are served |
//! | `serves MOVED ENDED WAITING UP` | the same; MOVED is `true` or `false`, and the others count pipes |
//! | `serve_busy MOST` | the pipes that are busy are served, with at most MOST frames of each |
//! | `serves_busy MOST MOVED ENDED WAITING UP` | the same, with the result as in `serves` |
//! | `down PIPE WHY` | the oldest pipe that is down is this one |
//! | `down_with PIPE WHY PUT..` | the same; this was put on its wire |
//! | `down_asked PIPE WHY ASKED PUT..` | the same; its wire was asked for room ASKED times |
//! | `none_down` | no pipe is down that was not taken |
//! | `receive CONTEXT`, `receive_by CONTEXT TICK` | a receive begins, without and with a deadline |
//! | `no_receive CONTEXT ERROR` | no receive begins |
//! | `send CONTEXT HEADER BODY`, `send_by CONTEXT HEADER BODY TICK` | a send begins, without and with a deadline |
//! | `no_send CONTEXT HEADER BODY ERROR` | no send begins, and the message comes back |
//! | `is_named OPERATION SLOT GENERATION` | the name of the operation |
//! | `now CONTEXT HEADER BODY` | the context receives this at once |
//! | `not_now CONTEXT ERROR`, `not_now_for CONTEXT CAUSE` | it receives nothing at once |
//! | `passes_on CONTEXT HEADER BODY` | it receives this at once, and a send of it begins on the same context |
//! | `due TICK COUNT`, `due_is TICK OPERATION` | COUNT operations are due at this tick, and only this one |
//! | `cancel OPERATION RACED`, `cancel_by_other OPERATION RACED` | caller 1, and caller 2, cancels the operation |
//! | `expire OPERATION RACED` | the operation times out |
//! | `poll OPERATION POLLED` | the state of the operation |
//! | `swap` | of the two operations that began last the earlier one is collected first |
//! | `not_yet` | the last operation has not ended |
//! | `collected` | the last operation is collected, however it ended |
//! | `sent`, `received HEADER BODY` | it was a send that was won; it received this |
//! | `gone CAUSE CALLER` | it is gone for this cause, by this caller, and no message comes back |
//! | `back CAUSE CALLER HEADER BODY` | the same, and this message comes back |
//! | `opens CONTEXT`, `no_context ERROR` | this context is opened, and none is |
//! | `shuts CONTEXT ERROR` | the context is shut |
//! | `subscribes CONTEXT TOPIC ERROR`, `unsubscribes CONTEXT TOPIC ERROR` | it subscribes, and unsubscribes |
//! | `subscribes_zeros CONTEXT COUNT ERROR`, `unsubscribes_zeros CONTEXT COUNT ERROR` | a topic of COUNT zeros |
//! | `close BEGUN WON GONE FRAMES OUTS FULLS` | the core is closed, and counted this |
//! | `closed` | the core is closed, whatever it counted |
//!
//! | wire at the end | what it says |
//! |---|---|
//! | `put PIPE PUT..` | a pipe whose wire was not taken, with what was put on it |
//! | `asked PIPE ASKED PUT..` | the same, and the wire was asked for room ASKED times |
//!
//! A word of bytes is hex digits, an apostrophe and text, as in `80000000'a`; `'` is no bytes. A GIVE is such a word, a
//! frame, or `pause` (nothing is there, once), `end` or `malformed` (both from then on). RACED and POLLED are `won`,
//! `pending`, `stale`, or `ended PHASE CALLER`. Words have single spaces between them. Indentation, blank lines and
//! lines that begin with `//` are skipped.
//!
//! A test that is written out call by call costs the prover many times what its text costs.
#![tactic(auto)]

mod core_play;
mod line;
mod results;
mod wires;
mod words;

pub use core_play::CorePlay;
pub use wires::{Fails, PlayWire, wire};
