//! Long lives: a req and a rep treat each later request like their first, on each pipe and context and at each tick.
//! And a setting at the end of its range.
use crate::checks::plays;

// 120,000 requests go over one pipe, one a second. Then 10,000 pipes come up and go down, one after another, each for a
// request, and contexts are likewise opened and shut. On context 0 a rep sends what it received.
#[test]
fn a_rep_answers_many_requests(rt: HostRuntime) {
    let cooked = "
        up 1
        for 1..120000: fresh | clock #000ms | frame 1 80%'# | receive 1.# 0 | can_give 1.# \
            | passes_on 1.# 0.# ' '# | can_send 0.# 1 | goes_out 0.# 1 80%' '#
        down 1
        for 120001..130000: up # | fresh | clock #000ms | frame # 80%'# | receive 1.# 0 | can_give 1.# \
            | passes_on 1.# 0.# ' '# | can_send 0.# # | goes_out 0.# # 80%' '# | down #
        up 200000
        for 130001..140000: open # | fresh | clock #000ms | frame 200000 80%'# | receive 1.# # | can_give 1.# \
            | gets 1.# ' '# | send 0.# # ' '# | can_send 0.# 200000 | goes_out 0.# 200000 80%' '# | shut #
    ";
    plays(&rt, rt.alloc(), "rep", cooked);
    let raw = "
        up 1
        for 1..120000: fresh | clock #000ms | frame 1 80%'# | receive 1.# 0 | can_give 1.# \
            | passes_on 1.# 0.# 0000000180%' '# | can_send 0.# 1 | goes_out 0.# 1 80%' '#
        down 1
        for 120001..130000: up # | fresh | clock #000ms | frame # 80%'# | receive 1.# 0 | can_give 1.# \
            | passes_on 1.# 0.# 00%80%' '# | can_send 0.# # | goes_out 0.# # 80%' '# | down #
    ";
    plays(&rt, rt.alloc(), "rep raw", raw);
}

// The same with a req. A raw one sends what it receives.
#[test]
fn a_req_asks_many_times(rt: HostRuntime) {
    let cooked = "
        up 1
        for 1..120000: fresh | clock #000ms | send 0.# 0 ' '# | can_send 0.# 1 | goes_out 0.# 1 80%' '# \
            | frame 1 80%'# | receive 1.# 0 | can_give 1.# | gets 1.# ' '#
        down 1
        for 120001..130000: up # | fresh | clock #000ms | send 0.# 0 ' '# | can_send 0.# # | goes_out 0.# # 80%' '# \
            | frame # 80%'# | receive 1.# 0 | can_give 1.# | gets 1.# ' '# | down #
        up 200000
        for 130001..140000: open # | fresh | clock #000ms | send 0.# # ' '# | can_send 0.# 200000 \
            | goes_out 0.# 200000 80%' '# | frame 200000 80%'# | receive 1.# # | can_give 1.# | gets 1.# ' '# | shut #
    ";
    plays(&rt, rt.alloc(), "req dice=1", cooked);
    let raw = "
        up 1
        for 1..120000: fresh | clock #000ms | frame 1 80%'# | receive 1.# 0 | can_give 1.# \
            | passes_on 1.# 0.# 80%' '# | can_send 0.# 1 | goes_out 0.# 1 80%' '#
        down 1
        for 120001..130000: up # | fresh | clock #000ms | frame # 80%'# | receive 1.# 0 | can_give 1.# \
            | passes_on 1.# 0.# 80%' '# | can_send 0.# # | goes_out 0.# # 80%' '# | down #
    ";
    plays(&rt, rt.alloc(), "req raw", raw);
}

// Each of 10,000 contexts asks on the pipe with its number: again there at its time, and not a millisecond before it,
// and then on the next pipe, where it gets its reply.
#[test]
fn each_of_many_requests_goes_out_again_in_its_time(rt: HostRuntime) {
    let usual = "
        clock 83min
        up 84
        for 84..10083: open # | send 0.# # ' '# | can_send 0.# # | goes_out 0.# # 80%' '# | before #min | idle \
            | clock #min | can_resend # # | resend # # 80%' '# | up & | down # | can_resend # & | resend # & 80%' '# \
            | frame & 80%'# | receive 1.# # | can_give 1.# | gets 1.# ' '# | shut #
    ";
    plays(&rt, rt.alloc(), "req dice=84", usual);
    let short = "
        clock 5000000ms
        up 5000001
        for 5000001..5010000: open # | send 0.# # ' '# | can_send 0.# # | goes_out 0.# # 80%' '# | before #ms | idle \
            | clock #ms | can_resend # # | resend # # 80%' '# | up & | down # | can_resend # & | resend # & 80%' '# \
            | frame & 80%'# | receive 1.# # | can_give 1.# | gets 1.# ' '# | shut #
    ";
    plays(&rt, rt.alloc(), "req resend=1 dice=5000001", short);
}

#[test]
fn fifteen_words_are_not_too_far_where_the_limit_is_fifteen(rt: HostRuntime) {
    // Fifteen hops, a request's id, and `q`; then one hop less.
    let play = "
        reserve 2
        up 1
        frame 1 000000010000000200000003000000040000000500000006000000070000000800000009\
            0000000a0000000b0000000c0000000d0000000e0000000f80000005'q
        wants 1 yes
        frame 1 00000002000000030000000400000005000000060000000700000008000000090000000a\
            0000000b0000000c0000000d0000000e0000000f80000005'q
        wants 1 no
        receive 0 0
        can_give 0
        gets 0 ' 'q
        send 1 0 ' 'r
        can_send 1 1
        goes_out 1 1 00000002000000030000000400000005000000060000000700000008000000090000000a\
            0000000b0000000c0000000d0000000e0000000f80000005' 'r
    ";
    plays(&rt, rt.alloc(), "rep ttl=15", play);
}
