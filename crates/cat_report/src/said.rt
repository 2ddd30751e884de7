//! The meaning of words, as far as a complaint needs it. The words are right, or the beginning of right words.

/// An option (nngcat(1)): its name, its value, and the place of the word that has its value.
#[derive(Clone, Copy)]
pub struct Said<'a> {
    /// The option's name, with its dashes.
    pub name: &'a str,
    /// Its value, if it has one.
    pub value: Option<&'a str>,
    /// The place of the word that has its value.
    pub value_at: usize,
}

fn has_value(name: &str) -> bool {
    match name {
        "--listen" | "--dial" | "--data" | "--file" | "--subscribe" | "--count" => true,
        "--interval" | "--recv-timeout" | "--send-timeout" | "--recv-max" | "--drill" => true,
        _ => false,
    }
}

fn is_format(name: &str) -> bool {
    matches!(
        name,
        "--ascii" | "--raw" | "--quoted" | "--hex" | "--msgpack"
    )
}

/// Returns whether an option of this name adds an end.
pub fn is_end(name: &str) -> bool {
    matches!(name, "--listen" | "--dial")
}

/// The option that begins with the word at this place.
pub fn said_at(words: &[String], at: usize) -> Option<Said<'_>> {
    let word = words.get(at)?.as_str();
    let mut said = Said {
        name: word,
        value: None,
        value_at: at,
    };
    if let Some((name, value)) = word.split_once('=') {
        said.name = name;
        said.value = Some(value);
    } else if has_value(word) {
        said.value_at = at.saturating_add(1);
        said.value = match words.get(said.value_at) {
            Some(value) => Some(value.as_str()),
            None => None,
        };
    }
    Some(said)
}

fn is_role(name: &str) -> bool {
    !has_value(name) && !is_format(name)
}

/// What is missing after words that begin right ones.
pub fn missing(words: &[String]) -> &'static str {
    let mut next = 0;
    let mut has_role = false;
    let mut has_end = false;
    for _ in 0..words.len() {
        let Some(said) = said_at(words, next) else {
            break;
        };
        if said.value_at >= words.len() {
            return "the value of the last option";
        }
        has_role = has_role || is_role(said.name);
        has_end = has_end || is_end(said.name);
        next = said.value_at.saturating_add(1);
    }
    if !has_role {
        "a role"
    } else if !has_end {
        "--listen or --dial"
    } else {
        "--data or --file"
    }
}
