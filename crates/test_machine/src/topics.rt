//! Many topics: a sub queues the messages of which one of its topics is a prefix, each tested by itself.
use crate::checks::{holds, plays};
use sp_base::{NoMemory, next_value};
use std::alloc::Global;

// Up to six letters, `a` and `b`, by the number's bits.
fn word(alloc: Global, n: u64) -> Result<String, NoMemory> {
    let mut letters = String::new(alloc);
    let mut bits = n;
    for _ in 0..(n / 64) % 7 {
        letters.push(if bits % 2 == 0 { 'a' } else { 'b' })?;
        bits /= 2;
    }
    Ok(letters)
}

// Returns whether one of the topics is a prefix of the body.
fn is_wanted(topics: &[String], body: &str) -> bool {
    topics.iter().any(|t| body.starts_with(t.as_str()))
}

// Returns whether the topic is among these.
fn is_on(topics: &[String], topic: &str) -> bool {
    topics.iter().any(|t| t.as_str() == topic)
}

// Appends a line with the text in it.
fn add(play: &mut String, begin: &str, text: &str, end: &str) -> Result<(), NoMemory> {
    play.push_str(begin)?;
    play.push_str(text)?;
    play.push_str(end)?;
    play.push_str("\n")?;
    Ok(())
}

// Appends a subscription to the topic, with whether it is a change.
fn put_on(play: &mut String, topics: &mut Vec<String>, topic: String) -> Result<(), NoMemory> {
    let is_new = !is_on(topics, topic.as_str());
    add(
        play,
        "put_on 0 '",
        topic.as_str(),
        if is_new { " yes" } else { " no" },
    )?;
    if is_new {
        topics.push(topic)?;
    }
    Ok(())
}

// Appends its unsubscription, with whether that is a change.
fn take_off(play: &mut String, topics: &mut Vec<String>, topic: &str) -> Result<(), NoMemory> {
    let was_on = is_on(topics, topic);
    topics.retain(|t| t.as_str() != topic);
    add(
        play,
        "take_off 0 '",
        topic,
        if was_on { " yes" } else { " no" },
    )
}

// Appends the frame, which is queued and received just where a topic of the list is its prefix.
fn brings(play: &mut String, topics: &[String], body: &str) -> Result<(), NoMemory> {
    add(play, "frame 1 '", body, "")?;
    if is_wanted(topics, body) {
        add(play, "receive 0 0\ncan_give 0\ngets 0 ' '", body, "")?;
    }
    add(play, "keeps 0 no", "", "")
}

// A play of `count` steps, of which some subscribe, some unsubscribe, and the others bring a frame.
fn steps(alloc: Global, count: u32) -> Result<String, NoMemory> {
    let mut play = String::new(alloc);
    let mut topics = Vec::new(alloc);
    let mut value = 1;
    for _ in 0..count {
        value = next_value(value);
        let drawn = value >> 32;
        let text = word(alloc, drawn / 4)?;
        match drawn % 4 {
            0 => put_on(&mut play, &mut topics, text)?,
            1 => take_off(&mut play, &mut topics, text.as_str())?,
            _ => brings(&mut play, &topics, text.as_str())?,
        }
    }
    Ok(play)
}

#[test]
fn a_frame_is_kept_where_a_topic_is_its_prefix(rt: HostRuntime) {
    match steps(rt.alloc(), 4_000) {
        Ok(play) => plays(&rt, rt.alloc(), "sub", play.as_str()),
        Err(_) => holds(&rt, false),
    }
}

// A body that no topic matches, and one that a topic matches. Both are longer than any topic. Then the empty topic, and
// an empty body.
#[test]
fn ten_thousand_topics_of_one_length(rt: HostRuntime) {
    let play = "
        for 0..9999: put_on 0 00%' yes
        frame 1 0000271001'
        keeps 0 no
        frame 1 0000270f01'
        receive 0 0
        can_give 0
        gets 0 ' 0000270f01'
        put_on 0 ' yes
        frame 1 '
        receive 0 0
        can_give 0
        gets 0 ' '
    ";
    plays(&rt, rt.alloc(), "sub", play);
}

// Topics of no byte, of one byte and of the greatest length, among few topics and among many.
#[test]
fn topics_of_no_byte_and_of_the_most(rt: HostRuntime) {
    let play = "
        reserve 4
        put_on 0 't*1024 yes
        frame 1 't*1023
        keeps 0 no
        frame 1 't*1024
        receive 0 0
        can_give 0
        gets 0 ' 't*1024
        for 1..20: put_on 0 %' yes
        frame 1 't*1023
        keeps 0 no
        frame 1 't*1024
        receive 0 0
        can_give 0
        gets 0 ' 't*1024
        frame 1 't*2000
        receive 0 0
        can_give 0
        gets 0 ' 't*2000
        put_on 0 't yes
        take_off 0 't*1024 yes
        frame 1 't
        receive 0 0
        can_give 0
        gets 0 ' 't
        frame 1 't*2000
        receive 0 0
        can_give 0
        gets 0 ' 't*2000
        frame 1 'x*2000
        keeps 0 no
        frame 1 '
        keeps 0 no
        put_on 0 ' yes
        frame 1 '
        receive 0 0
        can_give 0
        gets 0 ' '
        frame 1 'x*2000
        receive 0 0
        can_give 0
        gets 0 ' 'x*2000
        take_off 0 ' yes
        frame 1 'x*2000
        keeps 0 no
    ";
    plays(&rt, rt.alloc(), "sub", play);
}

// Of 1 to 200 letters. Those of fewer than 191 letters are then removed, and those of 191 to 199.
#[test]
fn two_hundred_topics_of_which_each_is_a_prefix_of_the_next(rt: HostRuntime) {
    let play = "
        reserve 4
        for 1..200: put_on 0 't*# yes
        for 1..200: put_on 0 't*# no
        frame 1 't
        receive 0 0
        can_give 0
        gets 0 ' 't
        for 1..190: take_off 0 't*# yes
        frame 1 't*190
        keeps 0 no
        frame 1 't*191
        receive 0 0
        can_give 0
        gets 0 ' 't*191
        for 191..199: take_off 0 't*# yes
        frame 1 't*199
        keeps 0 no
        frame 1 't*2000
        receive 0 0
        can_give 0
        gets 0 ' 't*2000
        take_off 0 't*200 yes
        frame 1 't*2000
        keeps 0 no
    ";
    plays(&rt, rt.alloc(), "sub", play);
}
