//! Requests of a req.
//!
//! - In round trips the first pipe gives the replies, one in each serve; a raw req takes no more of a pipe. The serves
//!   are timed apart.
//! - Where n - 2 others wait, the cost of what grows or shrinks once in many calls is spread over all of them.
//! - When a pipe goes down, its requests go out again on the others.
//! - Where requests are replaced, a tick lies between, so that what went out for the earlier ones is stale.
//! - The row of full pipes grows with the pipes: each turn that ends asks each pipe for room, since what is left then is
//!   only what can't go out.
//! - Where four pipes have room, the first request asks all of them.

pub const REQ: &str = "# 64 256 1024 3000 4096
    cooked n trips of a req
    pipes 1 1000000 ids_apart 0 256
    pipes n-1 1000 plain 0
    repeat 256 send 0, collect_first, receive 0, switch, serve, switch, collect_first
    row 256 a trip of a req without its serve
    row_apart 256n the serve of a trip of a req, a pipe

    # 64 256 1024 3000 4096
    cooked n trips of a req among waiting contexts
    repeat n-2 open
    pipes 1 1000000 ids_apart n-2 n
    repeat n-2 send i+1, collect_last, receive i+1
    repeat n send 0, collect_last, receive 0, serve, collect_last
    row n a trip of a req while n contexts wait

    # 64 256 1024 3000 4096
    cooked n requests in place of those whose receives wait
    repeat n-2 open
    pipes 1 1000000 ids_apart n-2 256
    repeat n-2 send i+1, collect_last, receive i+1
    repeat n-2 send i+1, collect_first, collect_last, receive i+1
    row n-2 a request in place of one whose receive waits

    # 64 256 1024 3000 4096
    cooked n requests of contexts
    repeat n-1 open
    pipes n 1000000 ids i 1
    repeat n send i, collect_first
    row n begin_send of a req and collect, a context
    repeat n receive i
    row n n begins of receives on n contexts, a receive
    once serve
    row n serve of a req that ends n receives, a pipe
    repeat n collect_first
    row n n collects of replies

    # 64 256 1024 3000 4096
    cooked n a req whose pipes go down
    repeat n-1 open
    pipes n/2 1000000 plain 0
    pipes n/2 1000000 end_after 0
    repeat n send i, collect_first
    once serve
    row n/2 a pipe of a req goes down, whose request goes out again

    # 64 256 1024 3000 4096
    cooked n requests that go out again at a tick
    repeat n-1 open
    pipes 1 1000000 plain 0
    repeat n send i, collect_first
    repeat 256 tick i
    row 256 a tick at which nothing is due, by live requests
    once tick 1000000
    row n a request goes out again at a tick, by live requests

    # 64 256 1024 3000 4096
    cooked n a req whose contexts are shut
    repeat n-1 open
    row n-1 a context of a req is opened, by contexts
    pipes 1 1000000 plain 0
    repeat n send i, collect_first
    repeat n-1 shut i+1
    row n-1 a context of a req is shut, by contexts

    # 64 256 1024 3000 4096
    cooked n requests that are replaced
    repeat n-1 open
    pipes 1 1000000 plain 0
    repeat n send i, collect_first
    once tick 1
    and_repeat n send i, collect_first
    and_once tick 2
    and_repeat n send i, collect_first
    and_once tick 3
    and_repeat n send i, collect_first
    row 3n a request is replaced, by live requests

    # 64 256 1024 3000 4096
    cooked n a req over full pipes
    repeat 15 open
    pipes n 0 plain 0
    repeat 16 send i
    row 16 begin_send of a req while all pipes are full, a call

    # 64 256 1024 4096
    raw n trips of a raw req
    pipes 1 1000000 ids 0 256
    pipes n-1 1000000 plain 0
    repeat 256 collect_first, send_raw 0, collect_first, receive 0, switch, serve, switch
    row 256 a trip of a raw req without its serve, by pipes

    # 64 256 1024 4096
    cooked n receives of a req that are given up
    repeat n-1 open
    pipes 1 1000000 plain 0
    repeat n-1 send i, collect_first
    repeat n-1 receive i
    repeat 256 forget, send n-1, collect_last, switch, receive n-1, cancel 0, collect_last, switch
    row_apart 256 a receive of a req that is cancelled and collected, while n contexts wait
    repeat 256 forget, send n-1, collect_last, switch, receive_by n-1 i+1, tick i+1, expire 0, collect_last, switch
    row_apart 256 a receive of a req that is due at a tick, expires and is collected, while n contexts wait

    # 64 256 1024 4096
    cooked n a req, four of whose pipes have room
    pipes n-4 0 plain 0
    pipes 4 1000000 plain 0
    once send 0, collect_first
    repeat 256 send 0, collect_first
    row 256 a request that goes out and is collected, while four of n pipes have room

    # 64 256 1024 4096
    cooked n attach of a req among n pipes, with its wire's making, a pipe
    pipes n-32 1000000 ids i 1
    pipes 32 1000000 ids i 1
    row 32 attach of a req among n pipes, with its wire's making, a pipe
    once serve

    # 64 256 1024 4096
    cooked n try_recv of a req whose reply is kept, a context
    repeat n-1 open
    pipes n 1000000 ids i 1
    repeat n send i, collect_first
    once serve
    repeat n receive_now i
    row n try_recv of a req whose reply is kept, a context

    # 64 256 1024 4096
    cooked n close of a req while receives wait on n contexts, a receive
    repeat n-1 open
    pipes 1 1000000 plain 0
    repeat n send i, collect_first
    repeat n receive i
    once close
    row n close of a req while receives wait on n contexts, a receive
";
