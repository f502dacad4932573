//! A view of one's own: what the machine answered to each step of a load.
ghost use Rattle.std.specs.Prelude.{[], ◌++◌, codes, ⊤};
ghost use Rattle.snoop_engine.specs.Line.{outcome_text};

use snoop_engine::{Input, Seen, View, push_outcome, simulate_view};
use snoop_machine::Machine;
use snoop_rules::Protocol;
use snoop_trace::streams::push_byte;
use snoop_trace::{NoMemory, Shape};
use std::test::Fail;

/// Each answer on a line.
#[derive(Clone, Copy)]
struct Answers;

impl View for Answers {
    ghost has_seen = { λ first protocol shape frames now. ⊤ };

    ghost heading = { λ view protocol shape. [] };

    ghost shows = { λ view protocol shape frames frame. outcome_text frame.outcome ++ codes "\n" };

    ghost ending = { λ view protocol shape frames final. [] };

    fn begin(&mut self, _out: &mut Vec<u8>, _machine: &Machine) -> Result<(), NoMemory> {
        Ok(())
    }

    fn see(
        &mut self,
        out: &mut Vec<u8>,
        _machine: &Machine,
        seen: Seen<'_>,
    ) -> Result<(), NoMemory> {
        push_outcome(out, seen.outcome)?;
        push_byte(out, b'\n')
    }

    fn end(&mut self, _out: &mut Vec<u8>, _machine: &Machine) -> Result<(), NoMemory> {
        Ok(())
    }
}

const ANSWERS: &str = "issued GetS\nordered GetS\nData from memory, load 0\n";

#[test]
fn the_answers_to_a_text(rt: HostRuntime) -> Result<(), Fail> {
    let shape = Shape::new(2, 4, 64)?;
    let mut shown = Vec::new(rt.alloc());
    let mut reader = b"L,0,64\nO,0\nR,64\n".as_slice();
    simulate_view(
        rt.alloc(),
        &mut reader,
        &mut shown,
        Protocol::Msi,
        shape,
        Input::Steps,
        &mut Answers,
    )?;
    if shown.as_slice() != ANSWERS.as_bytes() {
        return Err(Fail::from("the answers that are shown"));
    }
    Ok(())
}
