// The generator.
ghost use Rattle.std.specs.Prelude.{◌≡◌, ◌≤◌, ◌^◌, IfOk};
ghost use Rattle.cf_make.specs.Generated.{generated_bytes};

use crate::Memory;
use crate::draw::{Draw, next};
use crate::headers::{put_file_header, put_record};
use std::alloc::Global;

/// The capture of `count` packets that the seed determines, 2^20 packets at most.
pub fn make_capture(alloc: Global, seed: u64, count: u32) -> Result<Vec<u8>, Memory>
    requires { count ≤ 2 ^ 20 }
    ensures { IfOk result (λ bytes. bytes.items ≡ generated_bytes seed count) }
{
    let mut bytes = Vec::new(alloc);
    put_file_header(&mut bytes)?;
    let mut state = seed;
    for num in 0..count {
        state = next(state);
        put_record(&mut bytes, num, Draw::of(state))?;
    }
    Ok(bytes)
}
