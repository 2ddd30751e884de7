//! Replies of a rep. It takes no other request of a pipe until the first is received.
//!
//! - Where contexts wait, a request goes to the one that has waited longest. It replies, and waits again.
//! - A raw reply goes where its header says that it came from.
//! - Each receive was collected, since as many begin again on contexts with scattered numbers.

pub const REP: &str = "# 64 256 1024 3000 4096
    cooked n a rep that each pipe asks
    pipes n 1000000 ids i 1
    once serve
    row n serve of a rep that keeps a request of each, a pipe
    repeat n receive 0, collect_first, send 0, collect_first
    row n a request that is kept, and its reply

    # 64 256 1024 3000 4096
    cooked n a rep whose contexts wait
    repeat n-1 open
    pipes 1 1000000 ids 0 n
    repeat n receive i
    row n n begins of receives on n contexts of a rep, a receive
    repeat n serve, collect_first, send i, collect_last, receive i
    row n a request and its reply while n contexts wait

    # 64 256 1024 3000 4096
    cooked n a rep whose contexts wait beside a reply
    repeat n-1 open
    pipes 1 0 ids 0 1
    once serve, receive n-1, collect_first
    pipes 1 1000000 ids 0 n
    repeat n-1 receive i
    once send n-1
    repeat n-1 serve, collect_first, send i, collect_last, receive i
    row n-1 a request and its reply while n contexts wait, and a reply at a full pipe

    # 64 256 1024 4096
    cooked n a rep whose replies wait
    repeat n-1 open
    pipes n 0 ids i 1
    once serve
    repeat n receive i
    repeat n collect_first
    repeat n-1 send i, collect_first
    once send n-1
    row n begin_send of a rep while n replies wait at full pipes, a pipe
    once serve
    row n serve while n replies wait at full pipes, a pipe

    # 64 256 1024 3000 4096
    cooked n a rep whose contexts are shut
    repeat n-1 open
    pipes n 1000000 ids i 1
    once serve
    repeat n receive i
    repeat n collect_first
    repeat n-1 shut i+1
    row n-1 a context of a rep is shut, by contexts

    # 64 256 1024 3000 4096
    cooked n a rep whose pipes go down
    pipes n/2 1000000 ids i 1
    pipes n/2 1000000 end_after 1
    once serve
    once serve
    row n/2 a pipe of a rep goes down while requests of others are kept

    # 64 256 1024 3000 4096
    raw n a raw rep that each pipe asks
    pipes n 1000000 ids i 1
    once serve
    row n serve of a raw rep that keeps a request of each, a pipe
    repeat n receive 0, pass_on 0, collect_first
    row n a request that is kept raw, and its reply

    # 64 256 1024 4096
    cooked n a rep whose replies wait at one full pipe
    repeat n-1 open
    pipes 1 0 ids 0 n
    repeat n serve, receive i, collect_last, send i
    repeat 256 serve
    row 256 serve while n replies wait at one full pipe, a serve
    once close
    row n close of a rep while n replies wait at one full pipe, a reply

    # 64 256 1024 4096
    cooked n a rep whose contexts are opened
    repeat n-33 open
    repeat 32 open
    row 32 open_ctx of a rep among n contexts, a context
    once receive n-1

    # 64 256 1024 4096
    cooked n attach of a rep among n pipes, with its wire's making, a pipe
    pipes n-32 1000000 ids i 1
    pipes 32 1000000 ids i 1
    row 32 attach of a rep among n pipes, with its wire's making, a pipe
    once serve

    # 64 256 1024 4096
    cooked n try_recv of a rep that keeps requests, a context
    repeat n-1 open
    pipes n 1000000 ids i 1
    once serve
    repeat n receive_now i
    row n try_recv of a rep that keeps requests, a context

    # 64 256 1024 4096
    cooked n close of a rep while receives wait on n contexts, a receive
    repeat n-1 open
    pipes 1 1000000 plain 0
    repeat n receive i
    once close
    row n close of a rep while receives wait on n contexts, a receive

    # 64 256 1024 4096
    cooked n receives on contexts with scattered numbers
    repeat n-1 open, shut 3i+1, open, shut 3i+2, open
    repeat n receive 3i
    row n n begins of receives of a rep on contexts with scattered numbers, a receive
    repeat n cancel i, collect_first
    row n n cancels and collects on contexts with scattered numbers, a receive
    repeat n receive 3i
";
