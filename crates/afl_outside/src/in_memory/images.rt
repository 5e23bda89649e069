//! Images that a stop may leave, by a record of calls.
ghost use Rattle.std.specs.Prelude.{◌≡◌, ◌≤◌, ◌∷◌, List, length, drop, IfOk, OnOk};
ghost use Rattle.afl_outside.specs.declared.in_memory.device_call.DeviceCall.{DeviceCall as ACall};
ghost use Rattle.afl_outside.specs.Disk.{written};
ghost use Rattle.afl_outside.specs.Images.{is_pending, synced_count, next_content, content_after, left_bytes, with_writes, stopped_image, Leaves};

use crate::in_memory::device_call::DeviceCall;
use crate::in_memory::pieces::lay;
use cell_values::{Bytes, Memory};

/// One image that a stop right after these calls may leave on a disk that began with these bytes.
#[tactic(auto, using(crate::proofs::ImageLemmas::stopped_left))]
pub(crate) fn image_after(
    first: &Bytes,
    calls: &[DeviceCall],
    kept: &[bool],
    fill: u8,
) -> Result<Bytes, Memory>
    ensures bytes { IfOk result (λ image. image ≡ stopped_image first.now calls.now kept.now fill) }
    ensures left { IfOk result (λ image. Leaves first.now calls.now image) }
{
    let (synced, unsynced) = calls.split_at(count_synced(calls));
    let mut image = Vec::from_slice(first.allocator(), first.as_slice())?;
    replay(&mut image, synced)?;
    lay_writes(&mut image, unsynced, kept, fill)?;
    Ok(Bytes::from_vec(image))
}

/// How many calls there are up to the last sync that was done, and 0 where none was.
fn count_synced(calls: &[DeviceCall]) -> usize
    ensures value { result ≡ synced_count calls.now }
    ensures within { result ≤ length calls.now }
{
    let mut count = 0;
    for (i, call) in calls.iter().enumerate() {
        if !is_pending(call) {
            count = i + 1;
        }
    }
    count
}

/// Whether a crash after the call may still undo the writes before it.
fn is_pending(call: &DeviceCall) -> bool
    ensures { result ≡ is_pending call.now }
{
    !matches!(call, DeviceCall::Sync { done: true })
}

/// Does the writes of these calls.
fn replay(content: &mut Vec<u8>, calls: &[DeviceCall]) -> Result<(), Memory>
    ensures { OnOk result (content.new.items ≡ content_after content.old.items calls.now) }
{
    for call in calls {
        replay_call(content, call)?;
    }
    Ok(())
}

/// Does what a call writes.
fn replay_call(content: &mut Vec<u8>, call: &DeviceCall) -> Result<(), Memory>
    ensures { OnOk result (content.new.items ≡ next_content content.old.items call.now) }
{
    match call {
        DeviceCall::Length => Ok(()),
        DeviceCall::Read { at: _, length: _ } => Ok(()),
        DeviceCall::Write { at, bytes } => lay(content, *at, bytes.as_slice()),
        DeviceCall::Sync { done: _ } => Ok(()),
    }
}

/// Does what `kept` and `fill` leave of the writes of these calls.
fn lay_writes(
    image: &mut Vec<u8>,
    calls: &[DeviceCall],
    kept: &[bool],
    fill: u8,
) -> Result<(), Memory>
    ensures { OnOk result (image.new.items ≡ with_writes kept.now fill image.old.items calls.now) }
{
    let mut places = kept;
    for call in calls {
        places = lay_call(image, call, places, fill)?;
    }
    Ok(())
}

/// Does what `places` and `fill` leave of a call's write, and gives the places of the writes behind it.
fn lay_call<'a>(
    image: &mut Vec<u8>,
    call: &DeviceCall,
    places: &'a [bool],
    fill: u8,
) -> Result<&'a [bool], Memory>
    ensures { IfOk result (λ rest. (calls : List ACall)
        → with_writes rest.now fill image.new.items calls ≡ with_writes places.now fill image.old.items (call.now ∷ calls)) }
{
    match call {
        DeviceCall::Length => Ok(places),
        DeviceCall::Read { at: _, length: _ } => Ok(places),
        DeviceCall::Write { at, bytes } => {
            match lay_left(image, *at, bytes.as_slice(), places, fill) {
                Ok(()) => Ok(after_first(places)),
                Err(Memory) => Err(Memory),
            }
        }
        DeviceCall::Sync { done: _ } => Ok(places),
    }
}

/// Writes the bytes, or as many of one byte where the first place says so.
fn lay_left(
    image: &mut Vec<u8>,
    at: u64,
    bytes: &[u8],
    places: &[bool],
    fill: u8,
) -> Result<(), Memory>
    ensures { OnOk result (image.new.items ≡ written at (left_bytes places.now fill bytes.now) image.old.items) }
{
    match places {
        [false, ..] => {
            let filled = vec![in *image.allocator(); fill; bytes.len()]?;
            lay(image, at, filled.as_slice())
        }
        _ => lay(image, at, bytes),
    }
}

fn after_first(places: &[bool]) -> &[bool]
    ensures { result.now ≡ drop 1 places.now }
{
    match places {
        [_, rest @ ..] => rest,
        [] => places,
    }
}
