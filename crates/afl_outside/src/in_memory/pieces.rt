//! Copies between pieces.
ghost use Rattle.std.specs.Prelude.{◌≡◌, ◌+◌, ◌≤◌, ◌++◌, length, take, drop, min, OnOk, OnErr};
ghost use Rattle.afl_outside.specs.Disk.{written};

use cell_values::Memory;

/// Copies what fits from the front, and answers how many bytes that is.
pub(crate) fn copy_front(from: &[u8], into: &mut [u8]) -> usize
    ensures count { result ≡ min (length from.now) (length into.old) }
    ensures bytes { into.new ≡ take result from.now ++ drop result into.old }
{
    let count = from.len().min(into.len());
    into[..count].copy_from_slice(from.split_at(count).0);
    count
}

/// Puts bytes over those from a place on.
fn overwrite(content: &mut [u8], at: usize, bytes: &[u8])
    requires { at + length bytes.now ≤ length content.old }
    ensures { content.new ≡ take at content.old ++ (bytes.now ++ drop (at + length bytes.now) content.old) }
{
    content[at..at + bytes.len()].copy_from_slice(bytes);
}

/// Writes over the bytes from a place on. A gap before it is filled with zeros.
#[tactic(auto, using(crate::proofs::Memory::laid))]
pub(crate) fn lay(content: &mut Vec<u8>, at: u64, bytes: &[u8]) -> Result<(), Memory>
    ensures ok { OnOk result (content.new.items ≡ written at bytes.now content.old.items) }
    ensures err { OnErr result (content.new.items ≡ content.old.items) }
{
    let at = at as usize;
    let Some(end) = at.checked_add(bytes.len()) else {
        return Err(Memory);
    };
    content.resize(content.len().max(end), 0)?;
    overwrite(content, at, bytes);
    Ok(())
}
