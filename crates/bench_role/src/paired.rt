//! A trip of a pair, in both versions of its protocol: a message goes out, and one comes back.

pub const PAIR: &str = "# usual 1
    once up 1
    repeat 10000 fresh, send 0 0, take 1, hop, receive 1 0, take 1
    row 10000 a trip of a pair

    # 1 1
    once up 1
    repeat 10000 fresh, send 0 0, take 1, hop, receive 1 0, take 1
    row 10000 a trip of a pair of version 1
";
