//! What the words of a line stand for: numbers, and steps of sessions.

/// A step of a session.
#[derive(Clone, Copy)]
pub enum Step<'a> {
    Pin,
    Unpin,
    Change(&'a str),
    Cells(&'a str),
    Versions(&'a str),
    /// So many stores of A, each with a removal of all versions before.
    Renew(u32),
}

/// The number of a word; 0 where it is none.
pub fn count_of(word: &str) -> u32 {
    word.parse::<u32>().unwrap_or(0)
}

/// The two numbers of a text as `64 100`.
pub fn pair_of(text: &str) -> (u32, u32) {
    let (one, other) = text.split_once(' ').unwrap_or((text, ""));
    (count_of(one), count_of(other))
}

/// The step that a word and the text behind it are.
fn step_in<'a>(word: &str, text: &'a str) -> Option<Step<'a>> {
    match word {
        "pin" => Some(Step::Pin),
        "unpin" => Some(Step::Unpin),
        "change" => Some(Step::Change(text)),
        "cells" => Some(Step::Cells(text)),
        "versions" => Some(Step::Versions(text)),
        "renew" => Some(Step::Renew(count_of(text))),
        _ => None,
    }
}

/// The number of the session whose step a line is, and the step; none where it is no step of a session.
pub fn step_of(line: &str) -> Option<(u32, Step<'_>)> {
    let Some((word, rest)) = line.split_once(' ') else {
        return None;
    };
    let (session, text) = rest.split_once(' ').unwrap_or((rest, ""));
    match step_in(word, text) {
        Some(step) => match session.parse::<u32>() {
            Ok(session) => Some((session, step)),
            Err(_) => None,
        },
        None => None,
    }
}
