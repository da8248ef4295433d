// The number of a conversation.
ghost use Rattle.std.specs.Prelude.{◌≡◌, fold};
ghost use Rattle.cf_headers.specs.Flow.{fnv_step, flow_of as flow_by, HasOneFlow};

use std::cmp::Ordering;

/// The offset basis of FNV-1a of 64 bits.
const BASIS: u64 = 0xcbf2_9ce4_8422_2325;

/// Its prime.
const PRIME: u64 = 0x100_0000_01b3;

/// The 16 bytes of an address and the two of a port.
pub(crate) type Endpoint = [u8; 18];

// The hash of more bytes behind those that gave `hash`.
fn hash_on(hash: u64, bytes: &[u8]) -> u64
    ensures { result ≡ fold fnv_step hash bytes.now }
{
    bytes.iter().fold(hash, |hash, byte| {
        (hash ^ u64::from(*byte)).wrapping_mul(PRIME)
    })
}

// The flow of packets between two endpoints.
#[tactic(auto, unfolding(crate::specs::Flow::flow_of, crate::specs::Flow::fnv))]
pub(crate) fn flow_of(source: &Endpoint, target: &Endpoint, protocol: u8) -> u64
    ensures { result ≡ flow_by source.now target.now protocol }
{
    let (lesser, greater) = match source.cmp(target) {
        Ordering::Greater => (target, source),
        _ => (source, target),
    };
    hash_on(hash_on(hash_on(BASIS, lesser), greater), &[protocol])
}

/// A packet from one endpoint to another and a packet back, of the same protocol, have the same flow.
pub fn both_directions_have_one_flow()
    ensures { HasOneFlow }
{}
