// The packets that a seed draws go into a log as they are read.
ghost use Rattle.std.specs.Prelude.{◌≡◌, ◌≤◌, ◌^◌, [], IfOk};
ghost use Rattle.cf_make.specs.Generated.{generated_bytes, generated_frames};
ghost use Rattle.cf_row.specs.Schema6.{attrs_by};
ghost use Rattle.cf_row.specs.declared.packet6.PacketSchema.TheVariants.{Packet};
ghost use Rattle.cf_fill.specs.Filling.{IsFilled, KeepsLog};
ghost use Rattle.cf_intake.specs.Rows.{packet_rows};

use crate::context::Context;
use crate::fill::fill_packets;
use crate::filling::Filling;
use cf_intake::{Halt, Stop};
use cf_make::make_capture;
use cf_outside::{Gate, Shelf, SteadyShelf};
use cf_row::{Memory, PacketSchema};
use std::alloc::{AllocError, Global};
use std::thread::Threads;

/// The name of the drawn capture, which has a shelf of its own.
const NAME: &str = "drawn";

// A shelf on which the capture of the packets that the seed draws is open.
fn open_drawn(alloc: Global, seed: u64, count: u32) -> Result<SteadyShelf, Memory>
    requires { count ≤ 2 ^ 20 }
    ensures { IfOk result (λ shelf. shelf.rest ≡ generated_bytes seed count) }
{
    let bytes = make_capture(alloc, seed, count)?;
    let mut shelf = SteadyShelf::new(alloc);
    shelf.put(NAME, &bytes)?;
    match shelf.open(NAME) {
        Ok(()) => Ok(shelf),
        Err(_) => unreachable!(),
    }
}

/// Fills the log with the rows of the packets that the seed draws. They are loaded while the rest is still to be read.
pub fn fill_drawn<R: Threads + Sync, G: Gate>(
    context: &Context<'_, R, G>,
    seed: u64,
    count: u32,
    filling: &mut Filling,
) -> Result<(), Memory>
    requires count { count ≤ 2 ^ 20 }
    requires attrs { filling.old.segments.shape.schema ≡ attrs_by Packet }
    requires none { IsFilled filling.old [] }
    ensures keeps { KeepsLog filling.old filling.new }
    ensures filled { IfOk result (λ _. IsFilled filling.new (packet_rows Packet (generated_frames seed count))) }
{
    let mut shelf = open_drawn(context.alloc, seed, count)?;
    match fill_packets(context, &mut shelf, PacketSchema::Packet, false, filling) {
        Ok(_) => Ok(()),
        Err(Halt::Stopped(Stop::Memory)) => Err(AllocError),
        // What is made is a capture, and no read of it fails.
        Err(_) => unreachable!(),
    }
}
