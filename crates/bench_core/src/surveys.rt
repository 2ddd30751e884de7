//! Surveys through the core: of many wires, and of many contexts over one wire, from which a serve takes 64 messages.

pub const SURVEYOR: &str = "# 100 1000
    cooked n a survey of wires
    pipes n 1000000 ids 0 1
    once send 0, collect_first
    row n a survey, a wire
    once serve
    row n serve that keeps n responses, a wire
    repeat n receive 0, collect_first
    row n begin_recv of a response and collect

    # 16 256
    cooked n surveys of contexts
    repeat n-1 open
    pipes 1 1000000 ids 0 n
    repeat n send i, collect_first
    row n a survey, a context
    repeat n receive i
    row n n begins of receives on n contexts of a surveyor, a receive
    repeat n/64+1 serve
    row n serves that end n receives, a response
    repeat n collect_first
    row n n collects of responses
";
