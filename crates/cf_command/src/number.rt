// Numbers of the command line.
ghost use Rattle.std.specs.Prelude.{◌≡◌, ℕ, ◌<◌, ◌≤◌, ◌^◌, IfOk, IfSome, IsTrue, ◌↔◌, MatchOption, decimal};
ghost use Rattle.cf_command.specs.Call.{number_in};

use crate::Memory;
use std::alloc::Global;

fn is_same(written: &str, text: &str) -> bool
    ensures { IsTrue result ↔ (written.now ≡ text.now) }
{
    written == text
}

// The number below 2^64 that the text writes out in decimal digits, with no sign and no leading zero.
fn number_of(alloc: Global, text: &str) -> Result<Option<u64>, Memory>
    ensures { IfOk result (λ found. MatchOption found ((n : ℕ) → n < 2 ^ 64 → text.now ≡ decimal n → ⊥) (λ n. (text.now ≡ decimal n) × (n < 2 ^ 64))) }
{
    let Ok(number) = text.parse::<u64>() else {
        return Ok(None);
    };
    let written = format!(in alloc; "{number}")?;
    if is_same(written.as_str(), text) {
        return Ok(Some(number));
    }
    Ok(None)
}

/// The number from `low` to `high` that the text writes out in decimal digits, with no sign and no leading zero.
pub(crate) fn number_between(
    alloc: Global,
    text: &str,
    low: u64,
    high: u64,
) -> Result<Option<u64>, Memory>
    ensures number { IfOk result (λ found. found ≡ number_in low high text.now) }
    ensures within { IfOk result (λ found. IfSome found (λ number. (low ≤ number) × (number ≤ high))) }
{
    let Some(number) = number_of(alloc, text)? else {
        return Ok(None);
    };
    if number < low {
        return Ok(None);
    }
    if number > high {
        return Ok(None);
    }
    Ok(Some(number))
}
