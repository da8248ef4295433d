// The schemas of captured packets: `packet`, and `packet6` with IPv6 addresses and more.
ghost use Rattle.std.specs.Prelude.{◌≡◌, IfOk, codes};
ghost use Rattle.cf_row.specs.Schema.{IsSchema};
ghost use Rattle.cf_row.specs.Schema6.{attrs_by, packet6_attrs};

use crate::{Attr, Kind, Memory, Name, Schema, packet_schema};
use std::alloc::Global;

/// Which schema captured packets have, by its name in a setup.
#[derive(Clone, Copy, Debug, PartialEq, Eq)]
pub enum PacketSchema {
    /// `packet`, of 20 attributes.
    Packet,
    /// `packet6`, of these and twelve more.
    Packet6,
}

impl PacketSchema {
    /// The schema of that name.
    pub fn schema(self, alloc: Global) -> Result<Schema, Memory>
        ensures { IfOk result (λ schema. schema ≡ attrs_by self) }
    {
        match self {
            PacketSchema::Packet => packet_schema(alloc),
            PacketSchema::Packet6 => packet6_schema(alloc),
        }
    }
}

// An attribute of that name and kind.
fn attr(alloc: Global, name: &str, kind: Kind) -> Result<Attr, Memory>
    ensures { IfOk result (λ attr. attr ≡ record { name = name.now; kind = kind }) }
{
    Ok(Attr {
        name: Name::new(alloc, name)?,
        kind,
    })
}

/// The schema of a captured packet, and then the high and the low 64 bits of its IPv6 source and
/// destination addresses (RFC 8200), how many bytes TCP or UDP carries, the type and the code of an ICMP message (RFC 792,
/// RFC 4443), the flags FIN, SYN, RST and ACK of TCP (RFC 9293), and the number of its conversation.
pub fn packet6_schema(alloc: Global) -> Result<Schema, Memory>
    ensures { IfOk result (λ schema. schema ≡ packet6_attrs) }
{
    let mut attrs = packet_schema(alloc)?.into_attrs();
    attrs.push(attr(alloc, "src6", Kind::U64)?)?;
    attrs.push(attr(alloc, "src6_low", Kind::U64)?)?;
    attrs.push(attr(alloc, "dst6", Kind::U64)?)?;
    attrs.push(attr(alloc, "dst6_low", Kind::U64)?)?;
    attrs.push(attr(alloc, "payload", Kind::U32)?)?;
    attrs.push(attr(alloc, "icmp_type", Kind::U8)?)?;
    attrs.push(attr(alloc, "icmp_code", Kind::U8)?)?;
    attrs.push(attr(alloc, "is_fin", Kind::U8)?)?;
    attrs.push(attr(alloc, "is_syn", Kind::U8)?)?;
    attrs.push(attr(alloc, "is_rst", Kind::U8)?)?;
    attrs.push(attr(alloc, "is_ack", Kind::U8)?)?;
    attrs.push(attr(alloc, "flow", Kind::U64)?)?;
    Ok(Schema::built_in(attrs))
}

/// Its attributes are lawful.
pub fn the_packet6_schema_is_lawful()
    ensures { IsSchema packet6_attrs }
{}
