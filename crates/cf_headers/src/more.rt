// What is asked of a packet beyond the fields of its headers.
ghost use Rattle.std.specs.Prelude.{◌≡◌, ◌+◌, ◌-◌, ◌≤◌, length, map, ◌++◌, IfSome, IsTrue};
ghost use Rattle.cf_row.specs.declared.row.Value.TheVariants.{Num};
ghost use Rattle.cf_headers.specs.Carried.{IsWithin};
ghost use Rattle.cf_headers.specs.More.{payload_in as payload_by, message_values as message_values_of, flag_in as flag_by};
ghost use Rattle.cf_headers.specs.More.{address_of as address_by, port_of as port_by, flow_in as flow_by, source_at, target_at, more_values as more_values_of};

use crate::carried::Carried;
use crate::fields::byte_at;
use crate::flow::{Endpoint, flow_of};
use crate::transport::Transport;
use byteorder::{BigEndian, ByteOrder};

// How many bytes TCP or UDP carries, whether or not they were captured.
#[tactic(auto, unfolding(crate::specs::More::payload_in))]
fn payload_in(transport: Transport, stop: usize, frame: &[u8]) -> usize
    requires { IsWithin transport frame.now }
    ensures { result ≡ payload_by transport stop frame.now }
{
    match transport {
        Transport::Unread => 0,
        Transport::Tcp(at) => {
            let header = 4 * (frame[at + 12] / 16) as usize;
            stop.saturating_sub(at).saturating_sub(header)
        }
        Transport::Udp(at) => {
            let length = BigEndian::read_u16(&frame[at + 4..]) as usize;
            length.saturating_sub(8)
        }
    }
}

// icmp_type and icmp_code.
fn message_words(message: Option<usize>, frame: &[u8]) -> [u64; 2]
    requires { IfSome message (λ place. place + 2 ≤ length frame.now) }
    ensures { map Num result ≡ message_values_of message frame.now }
{
    match message {
        Some(at) => [byte_at(frame, at), byte_at(frame, at + 1)],
        None => [0; 2],
    }
}

// A flag of TCP, 0 being the last.
#[tactic(auto, unfolding(crate::specs::More::flag_in))]
fn flag_in(flag: u8, transport: Transport, frame: &[u8]) -> u64
    requires few { flag ≤ 7 }
    requires within { IsWithin transport frame.now }
    ensures { result ≡ flag_by flag transport frame.now }
{
    match transport {
        Transport::Tcp(at) => u64::from((frame[at + 13] >> flag) % 2),
        Transport::Unread | Transport::Udp(_) => 0,
    }
}

// An address as 16 bytes.
#[tactic(auto, unfolding(crate::specs::More::address_of))]
fn address_of(ipv6: bool, at: usize, frame: &[u8]) -> [u8; 16]
    requires short { at + 4 ≤ length frame.now }
    requires long { IsTrue ipv6 → at + 16 ≤ length frame.now }
    ensures { result ≡ address_by ipv6 at frame.now }
{
    let mut bytes = [0; 16];
    if ipv6 {
        bytes.copy_from_slice(&frame[at..at + 16]);
    } else {
        bytes[10] = 0xff;
        bytes[11] = 0xff;
        bytes[12..].copy_from_slice(&frame[at..at + 4]);
    }
    bytes
}

// A port as two bytes, or zeros if there is none.
#[tactic(auto, unfolding(crate::specs::More::port_of))]
fn port_of(by: usize, transport: Transport, frame: &[u8]) -> [u8; 2]
    requires few { by ≤ 2 }
    requires within { IsWithin transport frame.now }
    ensures { result ≡ port_by by transport frame.now }
{
    match transport {
        Transport::Unread => [0, 0],
        Transport::Tcp(at) | Transport::Udp(at) => [frame[at + by], frame[at + by + 1]],
    }
}

// Both of an endpoint.
fn endpoint(address: [u8; 16], port: [u8; 2]) -> Endpoint
    ensures { result ≡ address ++ port }
{
    let mut bytes = [0; 18];
    bytes[..16].copy_from_slice(&address);
    [bytes[16], bytes[17]] = port;
    bytes
}

// The number of the conversation.
fn flow_in(ipv6: bool, at: usize, carried: Carried, frame: &[u8]) -> u64
    requires near { at ≤ 28 }
    requires short { at + 20 ≤ length frame.now }
    requires long { IsTrue ipv6 → at + 40 ≤ length frame.now }
    requires within { IsWithin carried.transport frame.now }
    ensures { result ≡ flow_by ipv6 at carried frame.now }
{
    let (source, target) = if ipv6 {
        (at + 8, at + 24)
    } else {
        (at + 12, at + 16)
    };
    let from = endpoint(
        address_of(ipv6, source, frame),
        port_of(0, carried.transport, frame),
    );
    let to = endpoint(
        address_of(ipv6, target, frame),
        port_of(2, carried.transport, frame),
    );
    flow_of(&from, &to, carried.protocol)
}

// payload, icmp_type, icmp_code, is_fin, is_syn, is_rst, is_ack and flow.
pub(crate) fn more_words(ipv6: bool, at: usize, carried: Option<Carried>, frame: &[u8]) -> [u64; 8]
    requires near { at ≤ 28 }
    requires short { IfSome carried (λ c. at + 20 ≤ length frame.now) }
    requires long { IsTrue ipv6 → at + 40 ≤ length frame.now }
    requires transport { IfSome carried (λ c. IsWithin c.transport frame.now) }
    requires message { IfSome carried (λ c. IfSome c.message (λ place. place + 2 ≤ length frame.now)) }
    ensures { map Num result ≡ more_values_of ipv6 at carried frame.now }
{
    let Some(carried) = carried else {
        return [0; 8];
    };
    let transport = carried.transport;
    let payload = payload_in(transport, carried.stop, frame);
    let [icmp_type, icmp_code] = message_words(carried.message, frame);
    [
        payload as u64,
        icmp_type,
        icmp_code,
        flag_in(0, transport, frame),
        flag_in(1, transport, frame),
        flag_in(2, transport, frame),
        flag_in(4, transport, frame),
        flow_in(ipv6, at, carried, frame),
    ]
}
