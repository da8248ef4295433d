// Parts of lists are copied to where C has room for them.
ghost use Rattle.std.specs.Prelude.{◌≡◌, ℕ, Result};
ghost use Rattle.cf_handles.specs.declared.code.Code.{Code as CodeValue};
ghost use Rattle.cf_handles.specs.Calls.{number_of, told_or};
ghost use Rattle.cf_handles.specs.Copied.{Copies, Puts};
ghost use Rattle.cf_handles.specs.Ends.{CopiesText};

use crate::code::Code;
use std::alloc::AllocError;

/// Copies the items from that place on, as far as there is room. Answers how many they are.
pub fn copy_part<T: Copy>(items: &[T], from: usize, out: &mut [T]) -> usize
    ensures { Copies items.now from out.old out.new result }
{
    let rest = if from < items.len() {
        &items[from..]
    } else {
        &items[items.len()..]
    };
    let count = rest.len().min(out.len());
    out[..count].copy_from_slice(&rest[..count]);
    count
}

/// Copies all words, if there is room for them, and says how many they are.
pub(crate) fn put_all(words: &[u64], out: &mut [u64], count: &mut usize) -> Code
    ensures { Puts words.now out.old out.new count.old count.new result }
{
    if out.len() < words.len() {
        return Code::Sizes;
    }
    *count = copy_part(words, 0, out);
    Code::Done
}

/// Copies the text that was made, as far as there is room, and says how long it is. Answers the number of the code.
pub(crate) fn show_text(
    made: Result<Vec<u8>, AllocError>,
    text: &mut [u8],
    count: &mut usize,
) -> u32
    ensures { (r : Result ℕ CodeValue) × CopiesText made text.old text.new r × (result ≡ number_of r) × (count.new ≡ told_or r count.old) }
{
    match made {
        Ok(found) => {
            copy_part(found.as_slice(), 0, text);
            *count = found.len();
            0
        }
        Err(_) => Code::Memory.number(),
    }
}
