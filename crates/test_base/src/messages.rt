//! Messages: their size, and copies that share their bytes.
use crate::checks::same;
use crate::plays::{PlayedLine, Playing, plays};
use sp_msg::Message;
use std::alloc::Global;
use std::mem::size_of;
use std::process::Abort;
use std::sync::Wait;

fn is_send<T: Send>() {}

fn is_sync<T: Sync>() {}

#[test]
fn messages_go_to_other_threads() {
    is_send::<Message>();
    is_sync::<Message>();
}

#[test]
fn a_message_is_96_bytes_large(rt: HostRuntime) {
    same(&rt, size_of::<Message>(), 96);
}

// A message and its copy, each where there is one.
//
// | call | words |
// |---|---|
// | the message is made with this body | `new 'abc` |
// | the copy is made of the message | `copies` |
// | the message is dropped | `drops` |
// | bytes of a body are removed, at the beginning and at the end | `message trim 2`, `copy chop 1` |
// | a body gets more bytes, at the end and at the beginning | `message append 'abc`, `copy insert 'abc` |
// | a header gets a number | `message number 1` |
// | a header moves to the beginning of its body | `message join` |
// | the header and the body | `copy is ' 'abc` |
#[derive(Drop)]
struct TwoMessages {
    message: Option<Message>,
    copy: Option<Message>,
}

impl Playing for TwoMessages {
    fn is_right<R: Wait>(&mut self, _rt: &R, alloc: Global, line: &mut PlayedLine<'_>) -> bool {
        match line.word() {
            "new" => self.message = Message::from_body(alloc, line.bytes()).ok(),
            "copies" => {
                if let Some(m) = &self.message {
                    self.copy = m.copy().ok();
                }
            }
            "drops" => self.message = None,
            "message" => return is_so(&mut self.message, line),
            "copy" => return is_so(&mut self.copy, line),
            _ => return false,
        }
        true
    }
}

fn is_so(message: &mut Option<Message>, line: &mut PlayedLine<'_>) -> bool {
    let Some(m) = message else {
        return false;
    };
    match line.word() {
        "is" => m.header() == line.bytes() && m.body() == line.bytes(),
        "join" => m.join().is_ok(),
        call => takes(m, call, line),
    }
}

// Returns whether a call that takes a number or bytes is right.
fn takes(m: &mut Message, call: &str, line: &mut PlayedLine<'_>) -> bool {
    match call {
        "trim" => m.trim(line.small() as usize).is_ok(),
        "chop" => m.chop(line.small() as usize).is_ok(),
        "append" => m.append(line.bytes()).is_ok(),
        "insert" => m.insert(line.bytes()).is_ok(),
        "number" => m.header_append_u32(line.small()).is_ok(),
        _ => false,
    }
}

fn message_plays<R: Wait + Abort>(rt: &R, alloc: Global, text: &str) {
    let mut pair = TwoMessages {
        message: None,
        copy: None,
    };
    plays(rt, alloc, &mut pair, text);
}

#[test]
fn a_copy_stays_where_the_message_is_trimmed(rt: HostRuntime) {
    let text = "
        new 'abcdef
        message trim 2
        message number 1
        copies
        message trim 1
        message chop 1
        message is '\0\0\0\x01 'de
        copy is '\0\0\0\x01 'cdef
    ";
    message_plays(&rt, rt.alloc(), text);
}

#[test]
fn a_copy_stays_where_the_message_is_appended_to(rt: HostRuntime) {
    let text = "
        new 'abcdef
        message trim 2
        message number 1
        copies
        message append 'gh
        message is '\0\0\0\x01 'cdefgh
        copy is '\0\0\0\x01 'cdef
    ";
    message_plays(&rt, rt.alloc(), text);
}

#[test]
fn a_message_stays_where_its_copy_is_written(rt: HostRuntime) {
    let text = "
        new 'abcdef
        message trim 2
        message number 1
        copies
        copy chop 2
        copy append 'XY
        copy is '\0\0\0\x01 'cdXY
        message is '\0\0\0\x01 'cdef
    ";
    message_plays(&rt, rt.alloc(), text);
}

#[test]
fn a_copy_stays_where_the_message_is_joined(rt: HostRuntime) {
    let text = "
        new 'abcdef
        message trim 2
        message number 1
        copies
        message join
        message is ' '\0\0\0\x01cdef
        copy is '\0\0\0\x01 'cdef
    ";
    message_plays(&rt, rt.alloc(), text);
}

#[test]
fn a_copy_outlives_the_message(rt: HostRuntime) {
    let text = "
        new 'abcdef
        message trim 2
        message number 1
        copies
        drops
        copy is '\0\0\0\x01 'cdef
        copy insert 'AB
        copy append 'gh
        copy is '\0\0\0\x01 'ABcdefgh
    ";
    message_plays(&rt, rt.alloc(), text);
}
