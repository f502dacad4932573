//! What stands over a table.
ghost use Rattle.std.specs.Prelude.{◌≡◌, ◌+◌, ◌-◌, ◌++◌, codes, OnOk};
ghost use Rattle.std.specs.Fmt.{decimal};
ghost use Rattle.snoop_trace.specs.Output.{address_of};
ghost use Rattle.snoop_states.specs.Tables.{heading_text};

use snoop_engine::capitals;
use snoop_machine::Machine;
use snoop_trace::streams::{push_numbered, push_text};
use snoop_trace::{NoMemory, Shape};

// The last byte of a block.
fn last_byte(shape: Shape, block: u32) -> u64
    ensures { result ≡ address_of shape (block + 1) - 1 }
{
    ((block as u64 + 1) * shape.block_bytes() as u64).saturating_sub(1)
}

/// Appends the protocol, the block and its bytes, and an empty line.
pub(crate) fn push_heading(out: &mut Vec<u8>, machine: &Machine, block: u32) -> Result<(), NoMemory>
    ensures { OnOk result (out.new.items ≡ out.old.items ++ heading_text machine.now.situation.protocol machine.now.situation.shape block) }
{
    let shape = machine.shape();
    push_text(out, capitals(machine.protocol()))?;
    push_numbered(out, ", block ", block as u64)?;
    push_numbered(out, " (bytes ", shape.address_of(block))?;
    push_numbered(out, " to ", last_byte(shape, block))?;
    push_text(out, ")\n\n")
}
