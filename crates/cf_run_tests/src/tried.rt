// What the tests have in common: captures, and files in memory.
ghost use Rattle.std.specs.Prelude.{◌<◌};

use cf_outside::MemShelf;
use cf_row::Memory;
use std::alloc::Global;

pub(crate) const WORDS: [&str; 6] = ["run", "--setup", "s", "--writers", "1", "c"];

pub(crate) const SETUP: &[u8] = b"schema packet\nask big list len>=100\n";

// A file header, little-endian, in microseconds, and two records of 2 bytes and of 1.
pub(crate) const TWO_RECORDS: [u8; 59] = [
    0xd4, 0xc3, 0xb2, 0xa1, 2, 0, 4, 0, 0, 0, 0, 0, 0, 0, 0, 0, 0xff, 0xff, 0, 0, 1, 0, 0, 0, // header
    1, 0, 0, 0, 0x20, 0xa1, 7, 0, 2, 0, 0, 0, 0x3c, 0, 0, 0, 0xaa, 0xbb, // record 0
    2, 0, 0, 0, 0, 0, 0, 0, 1, 0, 0, 0, 0x64, 0, 0, 0, 0xcc, // record 1
];

// A capture of packets without bytes: of each the second and the length.
pub(crate) fn records(alloc: Global, packets: &[(u32, u32)]) -> Result<Vec<u8>, Memory> {
    let mut capture = TWO_RECORDS.split_at(24).0.to_vec(alloc)?;
    for (second, length) in packets {
        capture.extend_from_slice(&second.to_le_bytes())?;
        capture.extend_from_slice(&[0; 8])?;
        capture.extend_from_slice(&length.to_le_bytes())?;
    }
    Ok(capture)
}

// A shelf with the setup `s` and the capture `c`, of which some calls fail, and which gives so many bytes a read.
pub(crate) fn shelf_of(
    alloc: Global,
    failing: &[u64],
    most: usize,
    files: (&[u8], &[u8]),
) -> Result<MemShelf, Memory>
    requires { 0 < most }
{
    let mut shelf = MemShelf::new(alloc, failing.to_vec(alloc)?, most);
    shelf.put("s", files.0)?;
    shelf.put("c", files.1)?;
    Ok(shelf)
}
