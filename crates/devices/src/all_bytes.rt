//! All the bytes of a reader, up to a limit.

ghost use Rattle.std.specs.Prelude.{◌≡◌, IfOk, IfErr, IsErrOf};
ghost use Rattle.devices.specs.declared.all_bytes.BytesFault.TheVariants.{Memory};
ghost use Rattle.devices.specs.AllBytes.{ReadsAll, StopsAfter};
ghost use Rattle.devices.specs.Watching.{device_of, failures_of, Rose};

use crate::watched::Watched;
use std::alloc::{AllocError, Global};
use std::io::Read;

/// Why the bytes of a reader aren't to be had.
#[derive(Drop)]
pub enum BytesFault {
    /// There are more than the limit.
    TooMany,
    /// The device failed.
    Device,
    /// A growth of memory was refused.
    Memory,
}

impl From<AllocError> for BytesFault {
    ghost from_gives = { λ _ fault. fault ≡ Memory };

    fn from(_e: AllocError) -> BytesFault {
        BytesFault::Memory
    }
}

/// How many bytes one read may take.
const BLOCK: usize = 8_192;

/// All the bytes that a reader has left, where they are no more than the limit.
///
/// `TooMany` where there are more: one byte past the limit was read then, and none after it. `Device` only where a call
/// of the device failed, and wherever one did: no call is tried again, not even one that was interrupted. `Memory`
/// where a growth was refused.
pub fn bytes_of<R: Read>(
    alloc: Global,
    reader: &mut Watched<R>,
    limit: usize,
) -> Result<Vec<u8>, BytesFault>
    ensures ok { IfOk result (λ bytes. ReadsAll limit (R.remaining (device_of reader.old))
        (R.remaining (device_of reader.new))
        bytes.items) }
    ensures err { IfErr result (StopsAfter limit (R.remaining (device_of reader.old))
        (R.remaining (device_of reader.new))) }
    ensures failed { IsErrOf result BytesFault.Device → Rose (failures_of reader.old) (failures_of reader.new) }
    ensures sound { ¬ IsErrOf result BytesFault.Device → failures_of reader.new ≡ failures_of reader.old }
{
    let mut bytes = Vec::new(alloc);
    let mut block = [0; BLOCK];
    while bytes.len() <= limit {
        let most = (limit - bytes.len()).min(BLOCK - 1) + 1;
        match reader.read(&mut block[..most]) {
            Ok(0) => return Ok(bytes),
            Ok(count) => bytes.extend_from_slice(&block[..count])?,
            Err(_) => return Err(BytesFault::Device),
        }
    }
    Err(BytesFault::TooMany)
}
