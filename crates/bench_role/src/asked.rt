//! Requests of a req.
//!
//! - Replies come to the last request first.
//! - The pipes of the second half go down one after another, and the requests of each go out again on a pipe of the
//!   first half.
//! - Where requests are replaced, each context sends one in place of its last one, over one pipe, which is then full
//!   and goes down; after such rounds a pipe comes up, and every request goes out again.

pub const REQ: &str = "# usual 256 1024 4096
    repeat n up i+1
    repeat 1000 fresh, send 0 0, take n, receive 1 0, answer 1 i, take n
    row 1000 a trip of a req, by pipes

    # usual 256 1024 4096
    repeat n open i+1
    once up 1
    repeat n send i i, take 1
    and_repeat n receive n-1-i n-1-i, answer 1 n-1-i, take 1
    row n a trip of a req, by live requests

    # usual 256 1024 4096
    repeat n open i+1
    once up 1
    repeat n send i i, take 1
    repeat n receive i i
    repeat n answer 1 n-1-i, take 1
    row n a reply at a req, by receives that wait

    # usual 256 1024 4096
    repeat n open i+1
    repeat n up i+1
    repeat n send i i, take n
    repeat 100 fresh, down i+n/2, take n
    row 100 a pipe of a req goes down, by live requests

    # usual 256 1024 4096
    repeat n open i+1
    once up 1
    repeat n send i i, take 1
    once clock 1000000
    and_repeat n take 1
    row n a request goes out again, by live requests

    # usual 256 1024 4096
    repeat n open i+1
    repeat 100 shut i+1
    row 100 a context of a req is shut, by contexts

    # usual 256 1024 4096
    repeat n open i+1
    once up 1
    repeat n send i i, take 1
    repeat n answer 1 i
    repeat n answer 1 i
    row n a second reply, by live requests

    # usual 256 1024 4096
    repeat n open i+1
    once fresh, up 1
    repeat n send i i, take 1
    once full 1, down 1, fresh, up 2
    repeat n send i i, take 1
    once full 2, down 2, fresh, up 3
    repeat n send i i, take 1
    once full 3, down 3, fresh, up 4
    repeat n send i i, take 1
    once full 4, down 4, fresh, up 5
    repeat n take 1
    row n a request goes out again after some were replaced, by live requests

    # usual 256 1024 4096
    repeat 100 open i+1
    repeat n up i+1
    once fresh
    repeat n/4-1 full i+2, full i+n/4+2, full i+n/2+2, full i+3n/4+2
    repeat 100 send i i, take n
    row 100 a request goes out where four pipes have room, by pipes
";
