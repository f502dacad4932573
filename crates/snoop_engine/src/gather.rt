//! The steps that come of a text.
ghost use Rattle.std.specs.Prelude.{◌≡◌, ◌≢◌, ◌++◌, ◌∷◌, [], true, Err, IfErr, IfOk, List, Ok, OnOk, Result};
ghost use Rattle.snoop_model.specs.Pictures.Situation.{Situation};
ghost use Rattle.snoop_model.specs.declared.replies.Refused.{Refused as Cause};
ghost use Rattle.snoop_model.specs.declared.replies.Reply.{Reply as Answer};
ghost use Rattle.snoop_trace.specs.Text.{BlamesReader};
ghost use Rattle.snoop_trace.specs.declared.step.Row.{Row as Given};
ghost use Rattle.snoop_engine.specs.Courses.{CanEnd};
ghost use Rattle.snoop_engine.specs.Inputs.{GivesSteps, IsRefusedText};
ghost use Rattle.snoop_engine.specs.Journey.{IsAtTheEnd, IsAtTheStart};
ghost use Rattle.snoop_engine.specs.SimulatedRun.{ReadsRows};

use crate::asks::AskQueue;
use crate::course::Course;
use crate::driver::Driver;
use crate::input::Input;
use crate::serial_driver::SerialDriver;
use snoop_rules::Protocol;
use snoop_trace::streams::{Source, gather_asked};
use snoop_trace::{NoMemory, Shape, Step, TextFault, read_rows, read_steps};
use std::alloc::Global;

/// Reads a text to its end, and returns its steps, or those that serve its rows, for the protocol and the shape. `NoMemory` may
/// come in serving rows, too.
pub fn read_input<R: Source>(
    alloc: Global,
    reader: &mut R,
    protocol: Protocol,
    shape: Shape,
    input: Input,
) -> Result<Vec<Step>, TextFault>
    ensures steps { IfOk result (λ steps. GivesSteps protocol shape input (R.remaining reader.old) steps.items) }
    ensures fault { IfErr result (IsRefusedText protocol shape input (R.remaining reader.old)) }
    ensures never_blamed { R.never_fails ≡ true → result ≢ Err TextFault.Read }
    ensures blamed { BlamesReader (R.failed reader.old) (R.failed reader.new) (result ≡ Err TextFault.Read) }
{
    match input {
        Input::Steps => read_steps(alloc, reader, protocol, shape),
        Input::Rows => {
            let mut driver = read_driver(alloc, reader, protocol, shape)?;
            Ok(gather(alloc, &mut driver)?)
        }
        Input::SerialRows => {
            let rows = read_rows(alloc, reader, shape)?;
            let mut driver = SerialDriver::new(alloc, protocol, shape, &rows)?;
            Ok(gather(alloc, &mut driver)?)
        }
    }
}

/// Reads a text of rows to its end, and returns a driver that has them to do. `NoMemory` may come in dealing them or in making
/// the machine, too.
#[tactic(auto, using(crate::proofs::Dealing::asks_within))]
pub(crate) fn read_driver<R: Source>(
    alloc: Global,
    reader: &mut R,
    protocol: Protocol,
    shape: Shape,
) -> Result<Driver, TextFault>
    ensures rows { IfOk result (λ driver. (rows : List Given) × (ReadsRows shape (R.remaining reader.old) (Ok rows) × IsAtTheStart protocol shape rows driver)) }
    ensures can_end { IfOk result (λ driver. CanEnd (IsAtTheEnd driver)) }
    ensures fault { IfErr result (λ fault. ReadsRows shape (R.remaining reader.old) (Err fault)) }
    ensures never_blamed { R.never_fails ≡ true → result ≢ Err TextFault.Read }
    ensures blamed { BlamesReader (R.failed reader.old) (R.failed reader.new) (result ≡ Err TextFault.Read) }
{
    shape.within_limits();
    let asks = gather_asked(alloc, reader, shape, AskQueue::new(alloc))?;
    Ok(Driver::new(alloc, protocol, shape, asks)?)
}

/// The steps of a course, to its end.
fn gather<C: Course>(alloc: Global, course: &mut C) -> Result<Vec<Step>, NoMemory>
    ensures { IfOk result (λ steps. (outcomes : List (Result Answer Cause)) × ((final : Situation) × C.leads course.old steps.items outcomes final)) }
{
    let mut steps = Vec::new(alloc);
    while let Some(step) = course.find() {
        let _ = course.take(step)?;
        add(&mut steps, step)?;
    }
    Ok(steps)
}

/// Adds a step.
fn add(steps: &mut Vec<Step>, step: Step) -> Result<(), NoMemory>
    ensures { OnOk result (steps.new.items ≡ steps.old.items ++ step ∷ []) }
{
    match steps.push(step) {
        Ok(()) => Ok(()),
        Err(_) => Err(NoMemory),
    }
}
