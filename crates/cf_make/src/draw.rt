// What the bits of a draw say of a packet.
ghost use Rattle.std.specs.Prelude.{◌≡◌, ◌<◌, ◌%◌, ◌/◌, ◌^◌};
ghost use Rattle.cf_make.specs.Generated.{next_state, is_udp as holds_udp, wire_length as length_on_the_wire, source_port as port_of_source, destination_port as port_of_destination, protocol as protocol_number, captured_length as length_captured};

/// The factor of a step of the generator.
const MULTIPLIER: u64 = 6_364_136_223_846_793_005;

/// What a step of the generator adds.
const INCREMENT: u64 = 1_442_695_040_888_963_407;

/// The protocol number of UDP.
const UDP: u8 = 17;

/// The protocol number of TCP.
const TCP: u8 = 6;

// The state after this one.
pub(crate) fn next(state: u64) -> u64
    ensures { result ≡ next_state state }
{
    state.wrapping_mul(MULTIPLIER).wrapping_add(INCREMENT)
}

/// The high half of a state, from which a packet is made.
#[derive(Clone, Copy)]
pub(crate) struct Draw {
    pub bits: u32,
}

impl Draw {
    // The draw of a state.
    pub(crate) fn of(state: u64) -> Self
        ensures { result.bits ≡ state / 2 ^ 32 }
    {
        Draw {
            bits: (state >> 32) as u32,
        }
    }

    // Whether the packet is UDP, and not TCP.
    pub(crate) fn is_udp(self) -> bool
        ensures { result ≡ holds_udp self.bits }
    {
        (self.bits >> 8) % 4 == 0
    }

    // The protocol number.
    pub(crate) fn protocol(self) -> u8
        ensures { result ≡ protocol_number self.bits }
    {
        if self.is_udp() { UDP } else { TCP }
    }

    // The bytes of the headers.
    pub(crate) fn captured_length(self) -> u32
        ensures { result ≡ length_captured self.bits }
    {
        if self.is_udp() { 42 } else { 54 }
    }

    // The length of the frame on the wire.
    pub(crate) fn wire_length(self) -> u16
        ensures value { result ≡ length_on_the_wire self.bits }
        ensures small { result < 1088 }
    {
        64 + ((self.bits >> 20) % 1024) as u16
    }

    // The last number of the source's address.
    pub(crate) fn source(self) -> u8
        ensures { result ≡ self.bits % 16 }
    {
        (self.bits % 16) as u8
    }

    // The last number of the destination's address.
    pub(crate) fn destination(self) -> u8
        ensures { result ≡ self.bits / 16 % 16 }
    {
        (self.bits / 16 % 16) as u8
    }

    pub(crate) fn source_port(self) -> u16
        ensures { result ≡ port_of_source self.bits }
    {
        40_000 + ((self.bits >> 10) % 256) as u16
    }

    // The port of one of four services.
    pub(crate) fn destination_port(self) -> u16
        ensures { result ≡ port_of_destination self.bits }
    {
        match (self.bits >> 18) % 4 {
            0 => 53,
            1 => 80,
            2 => 443,
            _ => 8080,
        }
    }
}
