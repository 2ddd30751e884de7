//! What a pub and a bus send to all of their peers, and what a bus and a sub print.
use crate::lines::runs;

// Two messages are sent, a second apart. The greeting of the second subscriber is whole in the second round, so it gets
// only the second message.
#[test]
fn a_pub_sends_to_each_subscriber(rt: HostRuntime) {
    runs(
        &rt,
        "words --pub --listen tcp://127.0.0.1:5555 --data news --count 2 --interval 1
        link greets_sub
        link 00535000' wait:1 00210000'
        pace 3000 1
        comes done
        writes greets_pub 0000000000000004'news 0000000000000004'news
        second greets_pub 0000000000000004'news
        prints '
        words --pub --dial tcp://127.0.0.1:5555 --data news
        dials 5555
        link take:1 greets_sub
        comes done
        writes greets_pub 0000000000000004'news",
    );
}

// A peer that sends to a pub is malformed, and goes down before the first send.
#[test]
fn a_pub_waits_for_a_subscriber(rt: HostRuntime) {
    runs(
        &rt,
        "words --pub --listen tcp://127.0.0.1:5555 --data news
        comes over
        left 0
        link greets_sub 0000000000000001'x
        comes over
        writes greets_pub",
    );
}

// Without a second within the turns of the pace only the first message is sent.
#[test]
fn a_bus_sends_at_its_interval(rt: HostRuntime) {
    runs(
        &rt,
        "words --bus --listen tcp://127.0.0.1:5555 --data m --count 2 --interval 1
        link greets_bus
        pace 3000 1
        comes done
        writes greets_bus 0000000000000001'm 0000000000000001'm
        prints '
        below 2000
        link greets_bus
        pace 1000 1
        comes over
        writes greets_bus 0000000000000001'm",
    );
}

// What comes is not passed on.
#[test]
fn a_bus_prints_what_comes_of_all(rt: HostRuntime) {
    runs(
        &rt,
        "words --bus --listen tcp://127.0.0.1:5555 --ascii --count 2
        link greets_bus 0000000000000003'one
        link greets_bus wait:1 0000000000000003'two
        comes done
        prints 'one 0a'two 0a'
        writes greets_bus
        second greets_bus",
    );
}

#[test]
fn a_sub_prints_what_begins_with_its_topics(rt: HostRuntime) {
    runs(
        &rt,
        "words --sub --listen tcp://127.0.0.1:5555 --ascii
        link greets_pub 0000000000000001'a 0000000000000003'abc 0000000000000000' 0000000000000002'xy \
            0000000000000002'ab
        comes over
        prints 'a 0a'abc 0a0a'xy 0a'ab 0a'
        writes greets_sub
        words --sub --listen tcp://127.0.0.1:5555 --ascii --subscribe ''
        link greets_pub 0000000000000001'a 0000000000000003'abc 0000000000000000' 0000000000000002'xy \
            0000000000000002'ab
        comes over
        prints 'a 0a'abc 0a0a'xy 0a'ab 0a'
        writes greets_sub
        words --sub --listen tcp://127.0.0.1:5555 --ascii --subscribe ab
        link greets_pub 0000000000000001'a 0000000000000003'abc 0000000000000000' 0000000000000002'xy \
            0000000000000002'ab
        comes over
        prints 'abc 0a'ab 0a'
        writes greets_sub
        words --sub --listen tcp://127.0.0.1:5555 --ascii --subscribe abc --subscribe x
        link greets_pub 0000000000000001'a 0000000000000003'abc 0000000000000000' 0000000000000002'xy \
            0000000000000002'ab
        comes over
        prints 'abc 0a'xy 0a'
        writes greets_sub
        words --sub --listen tcp://127.0.0.1:5555 --ascii --subscribe x --subscribe=x
        link greets_pub 0000000000000001'a 0000000000000003'abc 0000000000000000' 0000000000000002'xy \
            0000000000000002'ab
        comes over
        prints 'xy 0a'
        writes greets_sub
        words --sub --listen tcp://127.0.0.1:5555 --ascii --subscribe b
        link greets_pub 0000000000000001'a 0000000000000003'abc 0000000000000000' 0000000000000002'xy \
            0000000000000002'ab
        comes over
        prints '
        writes greets_sub
        words --sub --listen tcp://127.0.0.1:5555 --ascii --subscribe abcd
        link greets_pub 0000000000000001'a 0000000000000003'abc 0000000000000000' 0000000000000002'xy \
            0000000000000002'ab
        comes over
        prints '
        writes greets_sub",
    );
}

#[test]
fn a_sub_counts_what_it_takes(rt: HostRuntime) {
    runs(
        &rt,
        "words --sub --dial tcp://127.0.0.1:5555 --subscribe ab --ascii --count 1
        dials 5555
        link greets_pub 0000000000000001'a 0000000000000003'abc 0000000000000000' 0000000000000002'xy \
            0000000000000002'ab
        comes done
        prints 'abc 0a'",
    );
}
