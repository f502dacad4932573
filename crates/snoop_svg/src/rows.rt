//! How many rows a drawing has: one for each step that is drawn.
ghost use Rattle.std.specs.Prelude.{◌≡◌, ◌++◌, IfOk, OnOk, length};
ghost use Rattle.snoop_svg.specs.Size.{HasRows, mark_text};

use snoop_engine::{Choice, Seen, View, show_steps};
use snoop_machine::Machine;
use snoop_rules::Protocol;
use snoop_trace::streams::push_byte;
use snoop_trace::{NoMemory, Shape, Step};
use std::alloc::Global;

/// A view that writes one byte for each step that is drawn.
#[derive(Drop)]
struct Rows {
    choice: Choice,
}

// Appends a byte where the step is drawn.
fn push_mark(out: &mut Vec<u8>, choice: Choice, seen: &Seen<'_>) -> Result<(), NoMemory>
    ensures { OnOk result (out.new.items ≡ out.old.items ++ mark_text choice seen.now.number seen.now.block) }
{
    if choice.has_step(seen.block, seen.number) {
        push_byte(out, b'\n')
    } else {
        Ok(())
    }
}

impl View for Rows {
    ghost use Rattle.std.specs.Prelude.{◌≡◌, ◌+◌, [], length};
    ghost use Rattle.snoop_engine.specs.Views.{block_of_step};
    ghost use Rattle.snoop_svg.specs.Size.{mark_text};

    ghost has_seen = { λ first protocol shape frames now. now ≡ first };

    ghost heading = { λ rows protocol shape. [] };

    ghost shows = { λ rows protocol shape frames frame. mark_text rows.choice (1 + length frames) (block_of_step frame.before frame.step) };

    ghost ending = { λ rows protocol shape frames final. [] };

    fn begin(&mut self, _out: &mut Vec<u8>, _machine: &Machine) -> Result<(), NoMemory> {
        Ok(())
    }

    fn see(
        &mut self,
        out: &mut Vec<u8>,
        _machine: &Machine,
        seen: Seen<'_>,
    ) -> Result<(), NoMemory> {
        push_mark(out, self.choice, &seen)
    }

    fn end(&mut self, _out: &mut Vec<u8>, _machine: &Machine) -> Result<(), NoMemory> {
        Ok(())
    }
}

// How many marks there are.
fn count(marks: &[u8]) -> u64
    ensures { result ≡ length marks.now }
{
    marks.len() as u64
}

/// How many of the steps are drawn: which block an Order is of is known once the steps before it are taken.
pub(crate) fn rows_of(
    alloc: Global,
    protocol: Protocol,
    shape: Shape,
    choice: Choice,
    steps: &[Step],
) -> Result<u64, NoMemory>
    ensures { IfOk result (HasRows protocol shape choice steps.now) }
{
    let mut marks: Vec<u8> = Vec::new(alloc);
    let mut rows = Rows { choice };
    match show_steps(alloc, &mut marks, protocol, shape, steps, &mut rows) {
        Ok(()) => Ok(count(&marks)),
        Err(_) => Err(NoMemory),
    }
}
