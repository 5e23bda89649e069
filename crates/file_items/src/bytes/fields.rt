//! Numbers, the low byte first, and bytes at the front of some bytes. Each call gives what stands there and the bytes
//! behind it, or stops where so many bytes are not there.
ghost use Rattle.std.specs.Prelude.{◌≡◌, ◌≢◌, IfErr};
ghost use Rattle.std.specs.Int.{w8, w16, w32, w64};
ghost use Rattle.file_items.specs.Items.{IsRead, number_at, bytes_at};
ghost use Rattle.file_items.specs.declared.bytes.stop.Stop.TheVariants.{Memory as OutOfMemory};

use crate::bytes::Stop;

/// A number of one byte.
pub fn u8_at(bytes: &[u8]) -> Result<(u8, &[u8]), Stop>
    ensures read { IsRead (λ x. (x.0, x.1.now)) result (number_at w8 bytes.now) }
    ensures told { IfErr result (λ stop. stop ≢ OutOfMemory) }
{
    if bytes.is_empty() {
        return Err(Stop::Left(bytes.len()));
    }
    let (front, rest) = bytes.split_at(1);
    Ok((front[0], rest))
}

/// A number of two bytes.
pub fn u16_at(bytes: &[u8]) -> Result<(u16, &[u8]), Stop>
    ensures read { IsRead (λ x. (x.0, x.1.now)) result (number_at w16 bytes.now) }
    ensures told { IfErr result (λ stop. stop ≢ OutOfMemory) }
{
    if bytes.len() < 2 {
        return Err(Stop::Left(bytes.len()));
    }
    let (front, rest) = bytes.split_at(2);
    Ok((u16::from_le_bytes([front[0], front[1]]), rest))
}

/// A number of four bytes.
pub fn u32_at(bytes: &[u8]) -> Result<(u32, &[u8]), Stop>
    ensures read { IsRead (λ x. (x.0, x.1.now)) result (number_at w32 bytes.now) }
    ensures told { IfErr result (λ stop. stop ≢ OutOfMemory) }
{
    if bytes.len() < 4 {
        return Err(Stop::Left(bytes.len()));
    }
    let (front, rest) = bytes.split_at(4);
    let number = u32::from_le_bytes([front[0], front[1], front[2], front[3]]);
    Ok((number, rest))
}

/// A number of eight bytes.
pub fn u64_at(bytes: &[u8]) -> Result<(u64, &[u8]), Stop>
    ensures read { IsRead (λ x. (x.0, x.1.now)) result (number_at w64 bytes.now) }
    ensures told { IfErr result (λ stop. stop ≢ OutOfMemory) }
{
    if bytes.len() < 8 {
        return Err(Stop::Left(bytes.len()));
    }
    let (front, rest) = bytes.split_at(8);
    let number = u64::from_le_bytes([
        front[0], front[1], front[2], front[3], front[4], front[5], front[6], front[7],
    ]);
    Ok((number, rest))
}

/// So many bytes.
pub fn bytes_at(count: usize, bytes: &[u8]) -> Result<(&[u8], &[u8]), Stop>
    ensures read { IsRead (λ x. (x.0.now, x.1.now)) result (bytes_at count bytes.now) }
    ensures told { IfErr result (λ stop. stop ≢ OutOfMemory) }
{
    if bytes.len() < count {
        return Err(Stop::Left(bytes.len()));
    }
    let (front, rest) = bytes.split_at(count);
    Ok((front, rest))
}
