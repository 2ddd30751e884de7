//! A play of a socket as a text. Each line is a call, with what it returns.
//!
//! | line | what it says |
//! |---|---|
//! | `takes 2` | the last pass of the list has this number, and its caller is added |
//! | `2 CALL` | this caller makes the call |
//! | `2 for 1..16: CALL \| CALL` | it makes these calls for each number, upwards; `#` is the number |
//! | `together`, and then `+ 2 CALL`, `+ 1 for 1..16: CALL` | each makes its calls in a thread of its own |
//! | `all_out`, `all_in` | the list lacks some pass, and has all passes |
//! | `lane BODY` | the other end of the lane gets this message |
//! | `all_give_back TOTALS` | `gives_back TOTALS` of each caller that is there |
//! | `left 1` | all passes are back, and 1 wire will be left: the last line |
//! | `no_socket 3` | no socket opens, for this error: the only line |
//! | `! LINE` | the line is wrong |
//!
//! | call | what it says |
//! |---|---|
//! | `attaches 1`, `attaches error 7` | the first wire that is left becomes this pipe, or no pipe |
//! | `gives_back TOTALS` | it closes the socket, collects all that it began, closes again, and gives its pass back |
//! | `receives CONTEXT NAME`, `receives CONTEXT error 4` | a receive begins, or none does |
//! | `receives_by CONTEXT TICK NAME` | the same with a deadline |
//! | `sends BODY NAME`, `sends BODY error 7` | a send begins, or none does and the message comes back |
//! | `collects OUTCOME`, `collects_not` | its last open operation ended with this, or is pending |
//! | `collects_counted` | it has ended; a message that it has received is counted |
//! | `waits OUTCOME` | it waits for that operation, which ends with this |
//! | `now received BODY`, `now error 8` | it receives this at once, or nothing |
//! | `now_next` | it receives nothing, or one byte, the count of those before; that is counted |
//! | `cancels NAME RACED`, `polls NAME POLLED` | it cancels the operation, and polls it |
//! | `tries NAME` | it cancels the operation; where that ends it, that is counted |
//! | `guesses NAME` | the same for each generation of the slot up to this one |
//! | `ticks TICK WON LOST` | it ticks: WON due operations end, and LOST had ended |
//! | `ticks_counted TICK` | it ticks; the operations that it ends are counted |
//! | `serve`, `serves yes` | the pipes are served; the same, and whether something moved |
//! | `down PIPE WHY` | the first pipe that went down and was not taken is this one |
//! | `misses MISS` | the link with place 1 was met, and is given back |
//! | `closes TOTALS` | it closes the socket |
//! | `opens CONTEXT`, `opens error 9` | this context is opened, or none is |
//! | `shuts CONTEXT ok`, `shuts CONTEXT error 12` | the context is shut, or isn't |
//! | `subscribes TOPIC ok`, `unsubscribes TOPIC error 12` | it subscribes and unsubscribes, or doesn't |
//! | `marks held`, `sees held` | the mark is set; it is seen to be set, within a bounded time |
//! | `has_received 200`, `in_all 64` | 200 messages were counted; 64 with ended operations |
//!
//! `attaches` and `gives_back` are the only call on their line.
//!
//! A NAME is an operation's slot and generation, as `0.1`, or `any` where one begins. A BODY and a TOPIC are
//! hexadecimal digits, an apostrophe, and text, as `80000000'a` or `'x`; a body that comes may be `any`. Errors are
//! written as their numbers. WHY, CAUSE, PHASE and MISS are words of `words`, as `closed`, `timedout`, `expired` and
//! `late`. OUTCOME is `received BODY`, `sent`, `gone CAUSE CALLER`, or, for a send, `gone CAUSE CALLER BODY`. RACED and
//! POLLED are `won`, `pending`, `stale`, or `ended PHASE CALLER`. TOTALS are the numbers begun, won and gone, and the
//! frames, outs and fulls; or `counted LEAST MOST`, for what was counted, with LEAST to MOST frames. The names of marks
//! are `held`, `entered`, `returned` and `begun`. Blank lines and those that begin with `//` are skipped.
//!
//! The reader is generic over machine and wire, since calls on written-out types are costly to prove.
ghost use Rattle.std.specs.Prelude.{◌≡◌, ◌++◌, ◌∷◌, []};
ghost use Rattle.aio_word.specs.Views.{Each};
ghost use Rattle.sp_proto.specs.Kinds.{Kind, Starts};
ghost use Rattle.test_socket.specs.Calls.{Calls, IsListOf};

use crate::callers::{Caller, finish, give_back, next, opened};
use crate::line::{CallLine, number_of};
use crate::marks::ThreadMarks;
use crate::steps::does_line;
use crate::wires::UnusedWires;
use crate::words::{are_totals, is_error};
use sp_base::SpError;
use sp_lane::{LaneOut, Taken};
use sp_msg::Wire;
use sp_proto::Proto;
use sp_socket::{Socket, SocketPasses};
use std::alloc::Global;
use std::marker::Model;
use std::process::Abort;
use std::sync::Wait;
use std::thread::{self, Threads};

// Has the caller do this job, whose first word is its number, and returns whether it is right. It does no job of
// another caller.
fn does_job<P: Proto, W: Wire + Drop, R: Wait + Abort>(
    rt: &R,
    alloc: Global,
    socket: &Socket<P, W>,
    marks: &ThreadMarks,
    caller: &mut Caller<P, W>,
    job: &str,
) -> bool
    requires { Calls socket.now caller.old.pass caller.old.ops.items }
    ensures { Calls socket.now caller.new.pass caller.new.ops.items }
{
    let number = caller.pass.number() as u64;
    let mut words = CallLine::new(alloc, job, 0);
    if number_of(words.word()) != Some(number) {
        return true;
    }
    does_line(rt, alloc, socket, marks, caller, words.rest())
}

// Has the caller do its jobs in the lines that begin with a plus sign, from this line on. The first wrong one is
// marked.
fn works<P: Proto, W: Wire + Drop, R: Wait + Abort>(
    rt: &R,
    alloc: Global,
    socket: &Socket<P, W>,
    marks: &ThreadMarks,
    caller: &mut Caller<P, W>,
    play: &str,
    from: usize,
)
    requires { Calls socket.now caller.old.pass caller.old.ops.items }
    ensures { Calls socket.now caller.new.pass caller.new.ops.items }
{
    let mut at = from;
    for line in play.lines().skip(from) {
        at = at.saturating_add(1);
        let Some(job) = line.trim().strip_prefix("+ ") else {
            return;
        };
        if !does_job(rt, alloc, socket, marks, caller, job) {
            marks.wrong.set(at as u64);
            return;
        }
    }
}

// Has each of the callers do so, in a thread of its own where one can be made.
fn all_work<P: Proto + Send, W: Wire + Send + Drop, R: Wait + Abort + Threads + Sync>(
    rt: &R,
    alloc: Global,
    socket: &Socket<P, W>,
    marks: &ThreadMarks,
    play: &str,
    from: usize,
    callers: &mut [Caller<P, W>],
)
    requires { Each (λ c. Calls socket.now c.pass c.ops.items) callers.old }
    ensures { Each (λ c. Calls socket.now c.pass c.ops.items) callers.new }
{
    let count = callers.len().max(1);
    thread::for_each_mut(
        rt,
        callers,
        count,
        &|_i, caller: &mut Caller<P, W>|
            requires { Calls socket.now caller.old.pass caller.old.ops.items }
            ensures { Calls socket.entry.now caller.new.pass caller.new.ops.items }
        { works(rt, alloc, socket, marks, caller, play, from) },
    );
}

// Gives the caller's pass back, and returns whether the close returned these totals.
fn gives_back<P: Proto, W: Wire, R: Wait + Abort>(
    rt: &R,
    socket: &Socket<P, W>,
    list: &mut SocketPasses<P, W>,
    marks: &ThreadMarks,
    caller: Caller<P, W>,
    totals: CallLine<'_>,
) -> bool
    requires list { IsListOf socket.now list.old }
    requires caller { Calls socket.now caller.pass caller.ops.items }
    ensures { IsListOf socket.now list.new }
{
    let returned = give_back(rt, socket, list, caller);
    let mut line = totals;
    are_totals(&mut line, marks, returned) && line.is_read()
}

// Gives the pass of each caller back, and returns whether the closes returned these totals.
fn give_all_back<P: Proto, W: Wire, R: Wait + Abort>(
    rt: &R,
    socket: &Socket<P, W>,
    list: &mut SocketPasses<P, W>,
    marks: &ThreadMarks,
    callers: &mut Vec<Caller<P, W>>,
    totals: CallLine<'_>,
) -> bool
    requires list { IsListOf socket.now list.old }
    requires callers { Each (λ c. Calls socket.now c.pass c.ops.items) callers.old.items }
    ensures list { IsListOf socket.now list.new }
    ensures none { callers.new.items ≡ [] }
{
    let mut are_right = !callers.is_empty();
    for _ in rt.forever() {
        match callers.pop() {
            None => return are_right,
            Some(caller) => {
                are_right &= gives_back(rt, socket, list, marks, caller, totals);
            }
        }
    }
    unreachable!()
}

// Adds a caller.
fn keep<P: Proto, W: Wire>(rt: &impl Abort, callers: &mut Vec<Caller<P, W>>, caller: Caller<P, W>)
    ensures { callers.new.items ≡ callers.old.items ++ caller ∷ [] }
{
    match callers.push(caller) {
        Ok(()) => (),
        Err(_) => panic!(rt; "no memory for a caller"),
    }
}

// Returns whether the lane has this message.
fn is_in_lane<R: Wait>(rt: &R, lane: &mut Option<LaneOut>, line: &mut CallLine<'_>) -> bool {
    let Some(lane) = lane else {
        return false;
    };
    match lane.take(rt) {
        Taken::Message(m) => line.is_body(m.body()),
        _ => false,
    }
}

// The count, if `it` is true.
fn if_so(it: bool, count: usize) -> Option<usize> {
    if it { Some(count) } else { None }
}

// A socket that plays, its passes and callers, and the wires that didn't become pipes.
struct Play<P: Proto, W: Wire> {
    alloc: Global,
    socket: Socket<P, W>,
    list: SocketPasses<P, W>,
    callers: Vec<Caller<P, W>>,
    wires: UnusedWires<W>,
    lane: Option<LaneOut>,
    // Whether lines that begin with a plus sign were done by threads that have ended.
    is_together: bool,
    // The number of wires that the last line says are left.
    left: Option<usize>,
}

// Contracts see the number of callers.
impl<P: Proto, W: Wire> Model for Play<P, W> {
    ghost use Rattle.std.specs.Prelude.{ℕ, length};
    ghost use Rattle.aio_word.specs.Views.{Each};
    ghost use Rattle.test_socket.specs.Calls.{Calls, IsListOf};

    ghost Value = { ℕ };

    ghost view = { λ p. length p.callers.items };

    ghost invariant = { λ p. IsListOf p.socket p.list × Each (λ c. Calls p.socket c.pass c.ops.items) p.callers.items };
}

impl<P: Proto, W: Wire + Drop> Play<P, W> {
    // The place of the caller with this number; where there is none, a place after the last one.
    fn place(&self, number: u64) -> usize {
        for (at, caller) in self.callers.iter().enumerate() {
            if caller.pass.number() as u64 == number {
                return at;
            }
        }
        self.callers.len()
    }

    // Adds the caller of the list's last pass, and returns whether that has this number.
    fn takes<R: Abort>(&mut self, rt: &R, number: u32) -> bool {
        let caller = next(rt, self.alloc, &self.socket, &mut self.list);
        let is_right = caller.pass.number() == number;
        keep(rt, &mut self.callers, caller);
        is_right
    }

    // Attaches the first wire that is left, and returns whether it becomes this pipe, or none.
    fn attaches<R: Wait>(&mut self, rt: &R, at: usize, line: &mut CallLine<'_>) -> bool {
        if at >= self.callers.len() {
            return false;
        }
        let Some(wire) = self.wires.take() else {
            return false;
        };
        match self.callers[at].attach(rt, &self.socket, wire) {
            Ok(pipe) => line.number() == pipe.0,
            Err((e, _wire)) => is_error(line, SpError::from(e)),
        }
    }

    // Gives back the pass of the caller at this place, and returns whether the line is right.
    fn gives_back<R: Wait + Abort>(
        &mut self,
        rt: &R,
        marks: &ThreadMarks,
        at: usize,
        totals: CallLine<'_>,
    ) -> bool {
        if at >= self.callers.len() {
            return false;
        }
        let caller = self.callers.swap_remove(at);
        gives_back(rt, &self.socket, &mut self.list, marks, caller, totals)
    }

    // Has the caller at this place do the rest of the line, and returns whether it is right.
    fn does<R: Wait + Abort>(
        &mut self,
        rt: &R,
        marks: &ThreadMarks,
        at: usize,
        line: CallLine<'_>,
    ) -> bool {
        if at >= self.callers.len() {
            return false;
        }
        let mut words = line;
        match words.word() {
            "attaches" => self.attaches(rt, at, &mut words) && words.is_read(),
            "gives_back" => self.gives_back(rt, marks, at, words),
            _ => does_line(
                rt,
                self.alloc,
                &self.socket,
                marks,
                &mut self.callers[at],
                line.rest(),
            ),
        }
    }

    // Returns whether there is a caller whose number is the first word.
    fn is_of_caller(&self, job: &str) -> bool {
        let mut line = CallLine::new(self.alloc, job, 0);
        match number_of(line.word()) {
            Some(caller) => self.place(caller) < self.callers.len(),
            None => false,
        }
    }

    // Returns whether the other end of the lane has this message.
    fn has_sent<R: Wait>(&mut self, rt: &R, line: &mut CallLine<'_>) -> bool {
        is_in_lane(rt, &mut self.lane, line)
    }

    // Returns whether all passes are back. `count` wires will be left then.
    fn is_left(&mut self, count: usize) -> bool {
        let is_full = self.list.is_full();
        self.left = if_so(is_full, count);
        is_full
    }

    // Returns whether a line without a caller is right.
    fn says<R: Wait + Abort>(
        &mut self,
        rt: &R,
        marks: &ThreadMarks,
        name: &str,
        line: CallLine<'_>,
    ) -> bool {
        let mut words = line;
        let is_right = match name {
            "takes" => self.takes(rt, words.number()),
            "all_out" => !self.list.is_full(),
            "all_in" => self.list.is_full(),
            "lane" => self.has_sent(rt, &mut words),
            "left" => {
                let count = words.number() as usize;
                self.is_left(count)
            }
            "all_give_back" => return self.all_give_back(rt, marks, line),
            _ => false,
        };
        is_right && words.is_read()
    }

    // Gives the pass of each caller back, and returns whether the totals are right.
    fn all_give_back<R: Wait + Abort>(
        &mut self,
        rt: &R,
        marks: &ThreadMarks,
        totals: CallLine<'_>,
    ) -> bool {
        give_all_back(
            rt,
            &self.socket,
            &mut self.list,
            marks,
            &mut self.callers,
            totals,
        )
    }
}

impl<P: Proto + Send, W: Wire + Send + Drop> Play<P, W> {
    // Does the lines after this one that begin with a plus sign in threads, and returns whether they are right.
    fn works_together<R: Wait + Abort + Threads + Sync>(
        &mut self,
        rt: &R,
        marks: &ThreadMarks,
        play: &str,
        from: usize,
    ) -> bool {
        all_work(
            rt,
            self.alloc,
            &self.socket,
            marks,
            play,
            from,
            self.callers.as_mut_slice(),
        );
        self.is_together = true;
        marks.wrong.now() == 0
    }

    // Returns whether the line with this number is true.
    fn is_so<R: Wait + Abort + Threads + Sync>(
        &mut self,
        rt: &R,
        marks: &ThreadMarks,
        play: &str,
        number: usize,
        text: &str,
    ) -> bool {
        if text == "together" {
            return self.works_together(rt, marks, play, number);
        }
        let mut line = CallLine::new(self.alloc, text, 0);
        let name = line.word();
        match number_of(name) {
            Some(caller) => {
                let at = self.place(caller);
                self.does(rt, marks, at, line)
            }
            None => self.says(rt, marks, name, line),
        }
    }

    // Returns whether the line with this number is right. A line of threads was checked before, if there is such a
    // caller.
    fn is_right<R: Wait + Abort + Threads + Sync>(
        &mut self,
        rt: &R,
        marks: &ThreadMarks,
        play: &str,
        number: usize,
        text: &str,
    ) -> bool {
        if self.left.is_some() {
            return false;
        }
        if let Some(job) = text.strip_prefix("+ ") {
            return self.is_together && self.is_of_caller(job);
        }
        self.is_together = false;
        match text.strip_prefix("! ") {
            Some(text) => !self.is_so(rt, marks, play, number, text),
            None => self.is_so(rt, marks, play, number, text),
        }
    }

    // The number of the first line that is wrong, from 1 on.
    fn reads<R: Wait + Abort + Threads + Sync>(
        &mut self,
        rt: &R,
        marks: &ThreadMarks,
        play: &str,
    ) -> Option<usize> {
        for (at, line) in play.lines().enumerate() {
            let number = at.saturating_add(1);
            let text = line.trim();
            if text.is_empty() || text.starts_with("//") {
                self.is_together = false;
            } else if !self.is_right(rt, marks, play, number, text) {
                return Some(number);
            }
        }
        None
    }

    // Ends the socket, and returns whether as many wires are left as the last line says.
    fn ends<R: Wait + Abort>(self, rt: &R, marks: &ThreadMarks) -> bool {
        let Play {
            alloc,
            socket,
            mut list,
            mut callers,
            wires: _,
            lane: _,
            is_together: _,
            left,
        } = self;
        let none = CallLine::new(alloc, "", 0);
        give_all_back(rt, &socket, &mut list, marks, &mut callers, none);
        callers.destroy_empty();
        let last = next(rt, alloc, &socket, &mut list);
        give_back(rt, &socket, &mut list, last);
        left == Some(finish(rt, socket, list))
    }
}

// Returns whether the only line says that no socket opened, for this error.
fn is_refused(alloc: Global, play: &str, code: u32) -> bool {
    let mut line = CallLine::new(alloc, play, 0);
    line.says("no_socket") && line.number() == code && line.is_read()
}

/// The number (from 1 on) of the first line that is wrong for a socket of this size over this machine, or 0 where the
/// whole is wrong. The size is the numbers of slots and callers, as in `4 2`.
pub fn wrong_line<P: Proto + Send, W: Wire + Send + Drop, R: Wait + Abort + Threads + Sync>(
    rt: &R,
    alloc: Global,
    proto: P,
    size: &str,
    wires: UnusedWires<W>,
    lane: Option<LaneOut>,
    marks: &ThreadMarks,
    play: &str,
) -> Option<usize>
    requires { (k : Kind) × Starts P.ties proto k }
{
    let mut words = CallLine::new(alloc, size, 0);
    let (slots, callers) = (words.number(), words.number());
    if !words.is_read() {
        panic!(rt; "no size of a socket")
    }
    match opened(alloc, proto, slots, callers) {
        Err(code) => {
            if is_refused(alloc, play, code) {
                None
            } else {
                Some(0)
            }
        }
        Ok((socket, list)) => {
            let mut it = Play {
                alloc,
                socket,
                list,
                callers: Vec::new(alloc),
                wires,
                lane,
                is_together: false,
                left: None,
            };
            let wrong = it.reads(rt, marks, play);
            let is_right = it.ends(rt, marks);
            match (wrong, is_right) {
                (None, true) => None,
                (None, false) => Some(0),
                (Some(line), _) => Some(marked(marks, line)),
            }
        }
    }
}

// The line that a thread found wrong, or this one.
fn marked(marks: &ThreadMarks, line: usize) -> usize {
    match marks.wrong.now() {
        0 => line,
        wrong => wrong as usize,
    }
}
