// The headers of a file, a record and a packet, at the end of a buffer.
ghost use Rattle.std.specs.Prelude.{◌≡◌, ◌++◌, OnOk};
ghost use Rattle.cf_make.specs.Generated.{file_header, record_header, link_header, network_header, ports as both_ports, datagram_header, segment_header, transport_header, record_of};

use crate::Memory;
use crate::draw::Draw;
use crate::put::{put_big_u16, put_big_u32, put_bytes, put_little_u16, put_little_u32};

/// The magic of times in microseconds.
const MICROSECONDS: u32 = 0xa1b2_c3d4;

/// The longest frame that is captured.
const SNAPSHOT_LENGTH: u32 = 65_535;

/// LINKTYPE_ETHERNET.
const ETHERNET: u32 = 1;

/// The EtherType of IPv4.
const IPV4: u16 = 0x0800;

/// The window of each TCP segment.
const WINDOW: u16 = 1024;

pub(crate) fn put_file_header(bytes: &mut Vec<u8>) -> Result<(), Memory>
    ensures { OnOk result (bytes.new.items ≡ bytes.old.items ++ file_header) }
{
    put_little_u32(bytes, MICROSECONDS)?;
    put_little_u16(bytes, 2)?;
    put_little_u16(bytes, 4)?;
    put_little_u32(bytes, 0)?;
    put_little_u32(bytes, 0)?;
    put_little_u32(bytes, SNAPSHOT_LENGTH)?;
    put_little_u32(bytes, ETHERNET)?;
    Ok(())
}

// A thousand records a second, a millisecond apart.
fn put_record_header(bytes: &mut Vec<u8>, num: u32, draw: Draw) -> Result<(), Memory>
    ensures { OnOk result (bytes.new.items ≡ bytes.old.items ++ record_header num draw.bits) }
{
    put_little_u32(bytes, 1 + num / 1000)?;
    put_little_u32(bytes, num % 1000 * 1000)?;
    put_little_u32(bytes, draw.captured_length())?;
    put_little_u32(bytes, draw.wire_length() as u32)?;
    Ok(())
}

fn put_link_header(bytes: &mut Vec<u8>) -> Result<(), Memory>
    ensures { OnOk result (bytes.new.items ≡ bytes.old.items ++ link_header) }
{
    put_bytes(bytes, &[2, 0, 0, 0, 0, 1])?;
    put_bytes(bytes, &[2, 0, 0, 0, 0, 2])?;
    put_big_u16(bytes, IPV4)?;
    Ok(())
}

fn put_network_header(bytes: &mut Vec<u8>, draw: Draw) -> Result<(), Memory>
    ensures { OnOk result (bytes.new.items ≡ bytes.old.items ++ network_header draw.bits) }
{
    put_bytes(bytes, &[0x45, 0])?;
    put_big_u16(bytes, draw.wire_length() - 14)?;
    put_bytes(bytes, &[0, 0, 0, 0])?;
    put_bytes(bytes, &[64, draw.protocol(), 0, 0])?;
    put_bytes(bytes, &[10, 0, 0, draw.source()])?;
    put_bytes(bytes, &[10, 0, 1, draw.destination()])?;
    Ok(())
}

fn put_ports(bytes: &mut Vec<u8>, draw: Draw) -> Result<(), Memory>
    ensures { OnOk result (bytes.new.items ≡ bytes.old.items ++ both_ports draw.bits) }
{
    put_big_u16(bytes, draw.source_port())?;
    put_big_u16(bytes, draw.destination_port())?;
    Ok(())
}

fn put_datagram_header(bytes: &mut Vec<u8>, draw: Draw) -> Result<(), Memory>
    ensures { OnOk result (bytes.new.items ≡ bytes.old.items ++ datagram_header draw.bits) }
{
    put_ports(bytes, draw)?;
    put_big_u16(bytes, draw.wire_length() - 34)?;
    put_bytes(bytes, &[0, 0])?;
    Ok(())
}

fn put_segment_header(bytes: &mut Vec<u8>, num: u32, draw: Draw) -> Result<(), Memory>
    ensures { OnOk result (bytes.new.items ≡ bytes.old.items ++ segment_header num draw.bits) }
{
    put_ports(bytes, draw)?;
    put_big_u32(bytes, num)?;
    put_big_u32(bytes, 0)?;
    put_bytes(bytes, &[0x50, 0x10])?;
    put_big_u16(bytes, WINDOW)?;
    put_bytes(bytes, &[0, 0, 0, 0])?;
    Ok(())
}

#[tactic(auto, unfolding(crate::specs::Generated::transport_header))]
fn put_transport_header(bytes: &mut Vec<u8>, num: u32, draw: Draw) -> Result<(), Memory>
    ensures { OnOk result (bytes.new.items ≡ bytes.old.items ++ transport_header num draw.bits) }
{
    if draw.is_udp() {
        put_datagram_header(bytes, draw)
    } else {
        put_segment_header(bytes, num, draw)
    }
}

// Adds the record of a draw.
pub(crate) fn put_record(bytes: &mut Vec<u8>, num: u32, draw: Draw) -> Result<(), Memory>
    ensures { OnOk result (bytes.new.items ≡ bytes.old.items ++ record_of num draw.bits) }
{
    put_record_header(bytes, num, draw)?;
    put_link_header(bytes)?;
    put_network_header(bytes, draw)?;
    put_transport_header(bytes, num, draw)?;
    Ok(())
}
