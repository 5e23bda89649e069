//! The names that a run takes: its device, its scripts and their replies.
ghost use Rattle.std.specs.Prelude.{◌≡◌, ◌≤◌, ◌||◌, [], IfSome};
ghost use Rattle.std.specs.List.{list_any};
ghost use Rattle.std.specs.Str.{bytes_eq};
ghost use Rattle.command_words.specs.Forms.{is_dashed};
ghost use Rattle.command_words.specs.Inner.Reading.{can_stand, is_reply_of, is_taken, meets, wrong_from};

use crate::words::arg::Arg;

const MAX_SCRIPTS: usize = 16;

pub(crate) fn is_dashed(word: &str) -> bool
    ensures { result ≡ is_dashed word.now }
{
    word.starts_with("--")
}

/// Whether the reply of the script has the name.
fn is_reply_of(name: &str, script: &str) -> bool
    ensures { result ≡ is_reply_of name.now script.now }
{
    match name.strip_suffix(".out") {
        Some(front) => script != "-" && front == script,
        None => false,
    }
}

fn meets(name: &str, script: &str) -> bool
    ensures { result ≡ meets name.now script.now }
{
    script == name || is_reply_of(name, script) || is_reply_of(script, name)
}

fn meets_device(device: &str, name: &str) -> bool
    ensures { result ≡ (bytes_eq device.now name.now || is_reply_of device.now name.now) }
{
    device == name || is_reply_of(device, name)
}

fn meets_one(before: &[Arg], name: &str) -> bool
    ensures { result ≡ list_any (meets name.now) before.now }
{
    before.iter().any(|script| meets(name, script.as_str()))
}

/// Whether the device or one of the scripts before has the name of the script or of its reply.
fn is_taken(device: &str, before: &[Arg], name: &str) -> bool
    ensures { result ≡ is_taken device.now before.now name.now }
{
    let by_device = meets_device(device, name);
    by_device || meets_one(before, name)
}

fn can_stand(device: &str, before: &[Arg], word: &str) -> bool
    ensures { result ≡ can_stand device.now before.now word.now }
{
    before.len() < MAX_SCRIPTS && !is_dashed(word) && !is_taken(device, before, word)
}

/// The number of scripts before the first word that can't be one.
pub(crate) fn wrong_script(device: &str, words: &[Arg]) -> Option<u32>
    ensures wrong { result ≡ wrong_from device.now [] words.now }
    ensures near { IfSome result (λ place. place ≤ 16) }
{
    for (place, word) in words.iter().enumerate() {
        if !can_stand(device, &words[..place], word.as_str()) {
            return Some(place as u32);
        }
    }
    None
}
