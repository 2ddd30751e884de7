//! Replies of a rep. While some wait for full pipes, the pipes of others go down in the same turn.

pub const REP: &str = "# usual 256 1024 4096
    repeat n up i+1
    repeat n answer i+1 i
    and_repeat n fresh, receive 0 0, take n, send 1 0, take n
    row n a trip of a rep, by pipes

    # usual 256 1024 4096
    repeat n up i+1
    repeat n answer i+1 i
    once unwanted n
    row n a pipe of a rep is asked, by what is kept

    # usual 256 1024 4096
    repeat n open i+1
    repeat 100 shut i+1
    row 100 a context of a rep is shut, by contexts

    # usual 256 1024 4096
    repeat n-1 open i+1
    repeat n up i+1
    repeat n answer i+1 i
    repeat n receive i i, take 1, send i i
    repeat n/2 find_full
    repeat 100 find_down, take 1
    row 100 a pipe of a rep fails, by replies that wait
";
