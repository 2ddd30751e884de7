//! Calls that mean nothing to a machine: resending a request where it has none, a copy for all, a topic. They return
//! nothing, and its queues and sends stay as they were.
use crate::checks::plays;

// A frame came before these calls, and a receive gets it after them.
#[test]
fn a_role_without_requests_keeps_what_came(rt: HostRuntime) {
    let alloc = rt.alloc();
    let whole = "
        reserve 1
        up 1
        frame 1 80000001'm
        no_resend 0 1
        no_copy 0 1
        receive 0 0
        can_give 0
        gets 0 ' 80000001'm
        no_resend 0 1
        idle
    ";
    plays(&rt, alloc, "pull+pair+bus", whole);
    let body = "
        reserve 1
        up 1
        frame 1 80000001'm
        no_resend 0 1
        no_copy 0 1
        receive 0 0
        can_give 0
        gets 0 ' 'm
        no_resend 0 1
        idle
    ";
    plays(&rt, alloc, "rep+respondent", body);
}

#[test]
fn a_role_without_requests_sends_what_waits(rt: HostRuntime) {
    let alloc = rt.alloc();
    let push = "
        reserve 1
        up 1
        send 0 0 ' 'm
        no_resend 0 1
        no_copy 0 1
        can_send 0 1
        goes_out 0 1 ' 'm
    ";
    plays(&rt, alloc, "push", push);
    let publisher = "
        reserve 1
        up 1
        send 0 0 ' 'm
        no_resend 0 1
        can_flood 0
        copy 0 1 ' 'm
        ends 0
    ";
    plays(&rt, alloc, "pub", publisher);
}

#[test]
fn a_sub_and_a_surveyor_keep_what_came(rt: HostRuntime) {
    let alloc = rt.alloc();
    let sub = "
        reserve 1
        up 1
        put_on 0 'm yes
        frame 1 'ma
        no_resend 0 1
        no_copy 0 1
        receive 0 0
        can_give 0
        gets 0 ' 'ma
    ";
    plays(&rt, alloc, "sub", sub);
    let surveyor = "
        reserve 2
        up 1
        send 0 0 ' 's
        no_resend 0 1
        can_flood 0
        copy 0 1 80000000' 's
        ends 0
        frame 1 80000000'a
        no_resend 0 1
        put_on 0 't no
        receive 1 0
        can_give 1
        gets 1 ' 'a
    ";
    plays(&rt, alloc, "surveyor", surveyor);
}

#[test]
fn a_req_and_a_rep_have_neither_topics_nor_copies_for_all(rt: HostRuntime) {
    let alloc = rt.alloc();
    let req = "
        reserve 2
        up 1
        send 0 0 ' 'q
        can_send 0 1
        goes_to 0 1 no
        no_copy 0 1
        goes_out 0 1 80000000' 'q
        frame 1 80000000'a
        no_copy 0 1
        put_on 0 't no
        receive 1 0
        can_give 1
        gets 1 ' 'a
    ";
    plays(&rt, alloc, "req", req);
    let rep = "
        reserve 2
        up 1
        frame 1 80000001'q
        goes_to 0 1 no
        put_on 0 't no
        receive 0 0
        can_give 0
        gets 0 ' 'q
        send 1 0 ' 'a
        no_resend 0 1
        no_copy 1 1
        can_send 1 1
        goes_out 1 1 80000001' 'a
    ";
    plays(&rt, alloc, "rep", rep);
}
