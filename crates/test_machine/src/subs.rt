//! A sub queues what its topics match, with a queue of two messages.
use crate::checks::plays;

#[test]
fn a_subscriber_keeps_what_its_topics_match(rt: HostRuntime) {
    let play = "
        reserve 4
        frame 1 'abc
        keeps 0 no
        put_on 0 'ab yes
        put_on 0 'ab no
        frame 1 'abc
        frame 1 'a
        frame 1 'abd
        frame 1 'abe
        receive 0 0
        can_give 0
        gets 0 ' 'abd
        receive 1 0
        can_give 1
        gets 1 ' 'abe
        keeps 0 no
        take_off 0 'zz no
    ";
    plays(&rt, rt.alloc(), "sub queue=2", play);
}

#[test]
fn a_subscriber_keeps_the_older_where_it_prefers_them(rt: HostRuntime) {
    let play = "
        reserve 4
        put_on 0 'ab yes
        frame 1 'abc
        frame 1 'abd
        frame 1 'abe
        receive 0 0
        can_give 0
        gets 0 ' 'abc
        receive 1 0
        can_give 1
        gets 1 ' 'abd
        keeps 0 no
    ";
    plays(&rt, rt.alloc(), "sub queue=2 prefer_old", play);
}

#[test]
fn a_topic_that_is_off_takes_what_no_other_matches(rt: HostRuntime) {
    let play = "
        reserve 4
        put_on 0 'ab yes
        put_on 0 'a yes
        put_on 0 'abcd yes
        frame 1 'abc
        frame 1 'ax
        take_off 0 'a yes
        take_off 0 'a no
        receive 0 0
        can_give 0
        gets 0 ' 'abc
        keeps 0 no
        put_on 0 ' yes
        frame 1 '
        receive 1 0
        can_give 1
        gets 1 ' '
    ";
    plays(&rt, rt.alloc(), "sub queue=2", play);
}

#[test]
fn the_empty_topic_is_one_of_many(rt: HostRuntime) {
    let play = "
        reserve 4
        put_on 0 ' yes
        put_on 0 'a yes
        put_on 0 'abc yes
        take_off 0 ' yes
        frame 1 'b
        keeps 0 no
        frame 1 'ab
        frame 1 'a
        receive 0 0
        can_give 0
        gets 0 ' 'ab
        receive 1 0
        can_give 1
        gets 1 ' 'a
        keeps 0 no
    ";
    plays(&rt, rt.alloc(), "sub queue=2", play);
}

#[test]
fn contexts_keep_apart(rt: HostRuntime) {
    let play = "
        reserve 4
        open 1
        put_on 0 'a yes
        put_on 1 'ab yes
        frame 1 'abc
        frame 1 'ax
        take_off 0 'a yes
        keeps 0 no
        receive 0 1
        can_give 0
        gets 0 ' 'abc
        keeps 1 no
        shut 1
        check 1 receive no_entry
        check 0 send not_supported
    ";
    plays(&rt, rt.alloc(), "sub queue=2 prefer_old", play);
}

#[test]
fn a_frame_goes_to_each_context_that_asked(rt: HostRuntime) {
    let play = "
        reserve 4
        open 1
        put_on 0 'a yes
        put_on 1 'ab yes
        frame 1 'abc
        frame 1 'ax
        receive 0 0
        can_give 0
        gets 0 ' 'abc
        receive 1 0
        can_give 1
        gets 1 ' 'ax
        receive 2 1
        can_give 2
        gets 2 ' 'abc
        keeps 0 no
        keeps 1 no
    ";
    plays(&rt, rt.alloc(), "sub queue=2 prefer_old", play);
}

#[test]
fn a_raw_one_keeps_every_frame(rt: HostRuntime) {
    let play = "
        reserve 4
        frame 1 'a
        frame 1 '
        frame 1 'c
        receive 0 0
        can_give 0
        gets 0 ' 'a
        receive 1 0
        can_give 1
        gets 1 ' '
        keeps 0 no
        check 1 receive not_supported
        receive 2 0
        idle
        frame 1 'd
        can_give 2
        close
        keeps 0 no
        loses 2
    ";
    plays(&rt, rt.alloc(), "sub queue=2 prefer_old raw", play);
}
