//! Sends of a push, and receives of a pull.

pub const PUSH: &str = "# 64 256 1024 3000 4096
    cooked 16 a push over full pipes
    pipes n 0 plain 0
    repeat 16 send 0
    row 16n begin_send over full pipes, a pipe
    once close
    row n close of a push, a pipe

    # 64 256 1024 3000 4096
    cooked 16 a push over free pipes
    pipes n 1000 plain 0
    repeat 4096 send 0, collect_first
    row 4096 begin_send over free pipes and collect
";

// A pull has n slots, so each row's receives are collected before the next row, which could not begin as many
// otherwise.
pub const PULL: &str = "# 64 256 1024 3000 4096
    cooked n receives of a pull, collected from the first
    pipes n 0 plain 1
    repeat n receive 0
    row n n begins of receives, a receive
    once serve
    row n serve that ends n receives, a pipe
    repeat n collect_first
    row n n collects from the first

    # 64 256 1024 3000 4096
    cooked n receives of a pull, collected from the last
    pipes n 0 plain 1
    repeat n receive 0
    row n n begins of receives, a receive
    once serve
    row n serve that ends n receives, a pipe
    repeat n collect_last
    row n n collects from the last

    # 64 256 1024 3000 4096
    cooked n a pull that keeps messages
    pipes n 0 plain 2
    once serve
    row n serve that keeps a message of each, a pipe
    repeat 16 serve
    row 16n serve over pipes that keep a message, a pipe
    repeat n receive 0, collect_first
    row n begin_recv of what is kept and collect

    # 64 256 1024 3000 4096
    cooked n a pull over idle pipes
    pipes n 0 plain 0
    repeat 16 serve
    row 16n serve over idle pipes, a pipe
    repeat n receive 0
    once close
    row n close with n receives, a pipe
    repeat n take_ended
    row n take_ended, a pipe

    # 64 256 1024 3000 4096
    cooked 16 a pull with one busy pipe beside idle ones
    pipes 1 0 plain 2000
    pipes n 0 plain 0
    once serve
    repeat 1000 receive_now 0, serve_busy 1
    row 1000 serve_busy with one busy pipe and a receive at once, a call
    repeat 16 receive_now 0, serve
    row 16 serve with one busy pipe and a receive at once, a call

    # 64 256 1024 3000 4096
    cooked n receives that are cancelled or expire
    pipes 1 0 plain 0
    repeat n receive_by 0 i
    row n n begins of receives, each due later than those before, a receive
    repeat n cancel i, collect_first
    row n n cancels and collects from the first due, a receive
    once forget
    repeat n receive_by 0 1000000-i
    row n n begins of receives, each due earlier than those before, a receive
    repeat n cancel i, collect_first
    row n n cancels and collects from the last due, a receive
    once forget
    repeat n receive 0
    row n n begins of receives without deadlines, a receive
    repeat n cancel i, collect_first
    row n n cancels and collects without deadlines, a receive
    once forget
    repeat n receive_by 0 i
    once tick 1000000
    row n a tick at which n receives are due, a receive
    repeat n expire i, collect_first
    row n n expires and collects of what is due, a receive
";
