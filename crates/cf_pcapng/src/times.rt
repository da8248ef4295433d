// Times in nanoseconds.
ghost use Rattle.std.specs.Prelude.{◌≡◌, ◌≤◌, ◌*◌, ◌/◌, ◌<◌, ◌^◌};
ghost use Rattle.cf_pcapng.specs.Blocks.{units, nanoseconds_of as whole_nanoseconds};

/// The nanoseconds of a second.
const SECOND: u128 = 1_000_000_000;

/// The largest number of 64 bits.
const LARGEST: u128 = u64::MAX as u128;

// A power of 10.
fn power_of_ten(exponent: u8) -> u128
    requires { exponent ≤ 28 }
    ensures { result ≡ 10 ^ exponent }
{
    let mut power = 1;
    for i in 0..exponent {
        power *= 10;
    }
    power
}

// A power of 2.
fn power_of_two(exponent: u8) -> u128
    requires { exponent < 128 }
    ensures { result ≡ 2 ^ exponent }
{
    1u128 << exponent
}

// The whole nanoseconds in so many units of this resolution.
fn whole_of(resolution: u8, time: u64) -> u128
    ensures { result ≡ time * 10 ^ 9 / units resolution }
{
    let scaled = time as u128 * SECOND;
    if resolution >= 128 {
        return scaled / power_of_two(resolution - 128);
    }
    if resolution <= 28 {
        return scaled / power_of_ten(resolution);
    }
    // A time of 64 bits, times 10^9, is below 10^29.
    0
}

// The whole nanoseconds in so many units of this resolution, or the largest number of 64 bits.
#[tactic(auto, unfolding(crate::specs::Blocks::nanoseconds_of))]
pub(crate) fn nanoseconds_of(resolution: u8, time: u64) -> u64
    ensures { result ≡ whole_nanoseconds resolution time }
{
    whole_of(resolution, time).min(LARGEST) as u64
}
