// The options of an interface.
ghost use Rattle.std.specs.Prelude.{◌≡◌, ◌≤◌, ◌+◌, ◌<◌, ◌^◌, length, true, false};
ghost use Rattle.cf_pcapng.specs.Blocks.{padded as padded_length, option_size as size_of_option, has_option as option_stands, resolved as resolved_by, resolution_of as resolution_in_options};

use cf_pcap::Order;

/// The code of if_tsresol.
const RESOLUTION: u16 = 9;

/// Units of 10^-6 seconds.
const MICROSECONDS: u8 = 6;

// How many bytes the option at the front takes: a header of 4 bytes, and its value with padding.
fn option_size(order: Order, options: &[u8]) -> usize
    requires { 4 ≤ length options.now }
    ensures { result ≡ size_of_option order options.now }
{
    let size = order.read_u16(&options[2..]) as usize;
    4 + (size + 3) / 4 * 4
}

// Whether an option stands at the front.
fn has_option(order: Order, options: &[u8]) -> bool
    ensures value { result ≡ option_stands order options.now }
    ensures fits { result ≡ true → size_of_option order options.now ≤ length options.now }
{
    if options.len() < 4 || order.read_u16(options) == 0 {
        return false;
    }
    option_size(order, options) <= options.len()
}

// The resolution after the option at the front.
fn resolved(order: Order, found: u8, options: &[u8]) -> u8
    requires stands { option_stands order options.now ≡ true }
    ensures { result ≡ resolved_by order found options.now }
{
    if order.read_u16(options) == RESOLUTION && order.read_u16(&options[2..]) == 1 {
        return options[4];
    }
    found
}

// The resolution that the options state: the last if_tsresol counts.
pub(crate) fn resolution_of(order: Order, options: &[u8]) -> u8
    ensures { result ≡ resolution_in_options order options.now }
{
    let mut found = MICROSECONDS;
    let mut rest = options;
    while has_option(order, rest) {
        found = resolved(order, found, rest);
        rest = rest.split_at(option_size(order, rest)).1;
    }
    found
}
