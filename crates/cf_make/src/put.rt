// Bytes and numbers at the end of a buffer.
ghost use Rattle.std.specs.Prelude.{◌≡◌, ◌++◌, OnOk};
ghost use Rattle.byteorder.specs.Endian.{little_bytes, big_bytes};

use crate::Memory;

pub(crate) fn put_bytes(bytes: &mut Vec<u8>, piece: &[u8]) -> Result<(), Memory>
    ensures { OnOk result (bytes.new.items ≡ bytes.old.items ++ piece.now) }
{
    bytes.extend_from_slice(piece)
}

// Adds a 16-bit number, its lowest byte first.
pub(crate) fn put_little_u16(bytes: &mut Vec<u8>, number: u16) -> Result<(), Memory>
    ensures { OnOk result (bytes.new.items ≡ bytes.old.items ++ little_bytes 2 number) }
{
    bytes.extend_from_slice(&number.to_le_bytes())
}

// Adds a 32-bit number, its lowest byte first.
pub(crate) fn put_little_u32(bytes: &mut Vec<u8>, number: u32) -> Result<(), Memory>
    ensures { OnOk result (bytes.new.items ≡ bytes.old.items ++ little_bytes 4 number) }
{
    bytes.extend_from_slice(&number.to_le_bytes())
}

// Adds a 16-bit number, its highest byte first.
pub(crate) fn put_big_u16(bytes: &mut Vec<u8>, number: u16) -> Result<(), Memory>
    ensures { OnOk result (bytes.new.items ≡ bytes.old.items ++ big_bytes 2 number) }
{
    bytes.extend_from_slice(&number.to_be_bytes())
}

// Adds a 32-bit number, its highest byte first.
pub(crate) fn put_big_u32(bytes: &mut Vec<u8>, number: u32) -> Result<(), Memory>
    ensures { OnOk result (bytes.new.items ≡ bytes.old.items ++ big_bytes 4 number) }
{
    bytes.extend_from_slice(&number.to_be_bytes())
}
