// What C calls without a handle.
ghost use Rattle.std.specs.Prelude.{◌≡◌, ℕ, Result, Vec};
ghost use Rattle.std.specs.Global.{Global as GlobalValue};
ghost use Rattle.cf_handles.specs.Codes.{code_number, open_code, text_of};
ghost use Rattle.cf_handles.specs.Copied.{Copies};
ghost use Rattle.cf_handles.specs.declared.code.Code.{Code as CodeValue};
ghost use Rattle.cf_store.specs.declared.refusals.MergeRefusal.{MergeRefusal as MergeRefusalValue};
ghost use Rattle.cf_store.specs.declared.refusals.OpenRefusal.{OpenRefusal as OpenRefusalValue};
ghost use Rattle.cf_handles.specs.Calls.{MergesTo, TellsFault, coded, told_or};
ghost use Rattle.cf_store.specs.Merges.{Merges};
ghost use Rattle.cf_store.specs.Opens.{Measures};

use cf_handles::{copy_part, logs, message_of, readers};
use cf_store::{Fault, Sizes};
use std::alloc::Global;

/// The version, which is that of the release: 1,000,000 for the major number, 1,000 for the minor one, 1 for the patch.
#[unsafe(no_mangle)]
pub extern "C" fn confluo_version() -> u32
    ensures { result ≡ 24000 }
{
    24_000
}

/// Copies the text of the code of that number, from that byte on, as far as there is room. Answers how many bytes.
#[unsafe(no_mangle)]
pub extern "C" fn confluo_message(code: u32, from: usize, out: &mut [u8]) -> usize
    ensures { Copies (text_of code) from out.old out.new result }
{
    copy_part(message_of(code), from, out)
}

/// Whether the bytes are the text of a setup and a log may have these sizes, and how many bytes the words of such a log take.
#[unsafe(no_mangle)]
pub extern "C" fn confluo_check(
    alloc: Global,
    setup: &[u8],
    sizes: &Sizes,
    bytes: &mut u64,
    fault: &mut Fault,
) -> u32
    ensures { (r : Result ℕ OpenRefusalValue) × Measures setup.now sizes.now r × TellsFault r fault.old fault.new result × (bytes.new ≡ told_or (coded open_code r) bytes.old) }
{
    logs::confluo_check(alloc, setup, sizes, bytes, fault)
}

/// Merges two lists of groups, as `confluo_groups` tells them, and says how many words the merged list has.
#[unsafe(no_mangle)]
pub extern "C" fn confluo_merge(
    alloc: Global,
    one: &[u64],
    other: &[u64],
    out: &mut [u64],
    count: &mut usize,
) -> u32
    ensures { (r : Result (Vec ℕ GlobalValue) MergeRefusalValue) × (code : CodeValue) × Merges one.now other.now r × MergesTo r out.old out.new count.old count.new code × (result ≡ code_number code) }
{
    readers::confluo_merge(alloc, one, other, out, count)
}
