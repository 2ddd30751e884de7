//! Serves of the pipes that are busy.
use crate::roles::{bus_plays, pull_plays, push_plays};
use sp_base::Role;
use sp_history::setting::Options;

#[test]
fn a_pull_asks_the_pipe_that_floods_only(rt: HostRuntime) {
    let calls = "
        joins 0 0 1 pause 'x
        joins 1 0 2 'a 'b 'c 'd
        joins 2 0 3 pause 'y
        // A pipe that was never served isn't busy.
        serves_busy 64 false 0 0 3
        serves true 0 0 3
        now 0 ' 'a
        serves_busy 64 true 0 0 3
        now 0 ' 'b
        serves_busy 64 true 0 0 3
        now 0 ' 'c
        serves_busy 64 true 0 0 3
        now 0 ' 'd
        // It has nothing more, and then it isn't busy.
        serves_busy 64 false 0 0 3
        serves_busy 64 false 0 0 3
        not_now 0 8
        // The others had something since the whole serve.
        serves true 0 0 3
        now 0 ' 'x
        now 0 ' 'y
        not_now 0 8
        close 6 6 0 6 0 0
    ";
    let wires = "
        put 1
        put 2
        put 3
    ";
    pull_plays(&rt, false, 16, calls, wires);
}

#[test]
fn a_bus_takes_as_many_frames_as_its_queue_holds(rt: HostRuntime) {
    // Of 64 frames that are ready after the first, 16 come with each serve.
    let calls = "
        joins 0 0 1 'first pause \
            '01 '02 '03 '04 '05 '06 '07 '08 '09 '10 '11 '12 '13 '14 '15 '16 \
            '17 '18 '19 '20 '21 '22 '23 '24 '25 '26 '27 '28 '29 '30 '31 '32 \
            '33 '34 '35 '36 '37 '38 '39 '40 '41 '42 '43 '44 '45 '46 '47 '48 \
            '49 '50 '51 '52 '53 '54 '55 '56 '57 '58 '59 '60 '61 '62 '63 '64
        serves true 0 0 1
        now 0 ' 'first
        serves_busy 16 true 0 0 1
        now 0 ' '01
        now 0 ' '02
        now 0 ' '03
        now 0 ' '04
        now 0 ' '05
        now 0 ' '06
        now 0 ' '07
        now 0 ' '08
        now 0 ' '09
        now 0 ' '10
        now 0 ' '11
        now 0 ' '12
        now 0 ' '13
        now 0 ' '14
        now 0 ' '15
        now 0 ' '16
        serves_busy 16 true 0 0 1
        now 0 ' '17
        now 0 ' '18
        now 0 ' '19
        now 0 ' '20
        now 0 ' '21
        now 0 ' '22
        now 0 ' '23
        now 0 ' '24
        now 0 ' '25
        now 0 ' '26
        now 0 ' '27
        now 0 ' '28
        now 0 ' '29
        now 0 ' '30
        now 0 ' '31
        now 0 ' '32
        serves_busy 16 true 0 0 1
        now 0 ' '33
        now 0 ' '34
        now 0 ' '35
        now 0 ' '36
        now 0 ' '37
        now 0 ' '38
        now 0 ' '39
        now 0 ' '40
        now 0 ' '41
        now 0 ' '42
        now 0 ' '43
        now 0 ' '44
        now 0 ' '45
        now 0 ' '46
        now 0 ' '47
        now 0 ' '48
        serves_busy 16 true 0 0 1
        now 0 ' '49
        now 0 ' '50
        now 0 ' '51
        now 0 ' '52
        now 0 ' '53
        now 0 ' '54
        now 0 ' '55
        now 0 ' '56
        now 0 ' '57
        now 0 ' '58
        now 0 ' '59
        now 0 ' '60
        now 0 ' '61
        now 0 ' '62
        now 0 ' '63
        now 0 ' '64
        // There are no more.
        serves_busy 16 false 0 0 1
        not_now 0 8
        close 65 65 0 65 0 0
    ";
    let mut options = Options::usual(Role::Bus, 0);
    options.queue = 16;
    bus_plays(&rt, options, false, calls, "put 1");
}

#[test]
fn a_message_that_was_put_is_flushed(rt: HostRuntime) {
    let calls = "
        joins 0 8 1 pause
        joins 1 8 2 pause
        serves_busy 1 false 0 0 2
        send 0 ' 'm
        sent
        serves_busy 1 false 0 0 2
        close 1 1 0 0 1 0
    ";
    let wires = "
        put 1 'm
        put 2
    ";
    push_plays(&rt, false, 16, calls, wires);
}

#[test]
fn a_busy_pipe_that_ends_goes_down(rt: HostRuntime) {
    let calls = "
        joins 0 0 1 'a end
        joins 1 0 2 'b
        serves true 0 0 2
        now 0 ' 'a
        serves_busy 64 true 1 0 1
        down 1 ended
        now 0 ' 'b
        serves_busy 64 false 0 0 1
        not_now 0 8
        close 2 2 0 2 0 0
    ";
    pull_plays(&rt, false, 16, calls, "put 2");
}
