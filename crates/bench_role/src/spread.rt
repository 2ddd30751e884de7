//! Frames at a sub, and sends of a pub.

pub const SUB: &str = "# usual 1 100 10000
    repeat n put_on 0 i
    row n a topic is put on
    repeat 1000 stranger
    row 1000 a frame at a sub, by topics
    repeat n take_off 0 n-1-i
    row n a topic is taken off

    # usual 1 8 9 4000
    repeat n put_on 0 i
    once letters 1024
    repeat 1000 stranger
    row 1000 a frame of 1 KiB at a sub, by topics of one length

    # usual 1 32 1024
    repeat n put_letters_on i
    once letters 1024
    repeat 1000 stranger
    row 1000 a frame of 1 KiB at a sub, by topics that differ in length

    # 1 1 1000
    repeat n open i+1
    repeat n put_on i 0
    repeat 1000 stranger
    row 1000n a frame at a sub, a context

    # 1 1 100 1000 4000
    repeat n open i+1
    repeat n receive i i+1, idle 1
    row n a receive begins at a sub
    once idle 1000
    row 1000 an idle offer of a sub
";

pub const PUB: &str = "# usual 256 1024 4096
    repeat n up i+1
    repeat 16 send i 0, take n
    row 16n a send of a pub, a pipe
";
