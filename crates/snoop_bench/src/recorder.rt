//! A machine whose steps are recorded, and whose items are published as they come.
ghost use Rattle.std.specs.Prelude.{◌≡◌, ◌<◌, ◌^◌, [], ◌∷◌, ◌++◌, IfOk, OnOk, OnErr, Ok, Option, option_to_list};
ghost use Rattle.snoop_trace.specs.Output.{IsReadableStep};
ghost use Rattle.snoop_model.specs.declared.replies.Refused.{Refused};
ghost use Rattle.snoop_model.specs.Pictures.Situation.{reset};
ghost use Rattle.snoop_model.specs.Moves.Refuses.{Refuses};
ghost use Rattle.snoop_model.specs.Moves.Replies.{Tells};
ghost use Rattle.snoop_model.specs.Runs.Once.{OnceMore};
ghost use Rattle.snoop_model.specs.Runs.Safe.{IsSafe};
ghost use Rattle.snoop_machine.specs.Prepared.{IsPrepared};
ghost use Rattle.snoop_bench.specs.Recording.{IsRecorded, TakesAndPublishes};

use snoop_history::Item;
use snoop_machine::{Machine, Refused, Reply};
use snoop_rules::Protocol;
use snoop_trace::{NoMemory, Shape, Step};
use snoop_versions::{Readers, VersionWriter};
use std::alloc::Global;
use std::marker::Model;
use std::sync::Wait;

/// A machine at the end of the run of its recorded steps, and the writer that has published its log.
pub(crate) struct Recorder {
    machine: Machine,
    steps: Vec<Step>,
    writer: VersionWriter,
}

impl Model for Recorder {
    ghost use Rattle.snoop_bench.specs.Recording.{Recording, Records, recording};

    ghost Value = { Recording };

    ghost view = { recording };

    ghost invariant = { Records };
}

impl Recorder {
    /// A machine at reset, with `readers` reading places.
    pub(crate) fn new(
        alloc: Global,
        protocol: Protocol,
        shape: Shape,
        readers: usize,
    ) -> Result<Recorder, NoMemory>
        requires { (0 < readers) × (readers < 2 ^ 32) }
        ensures { IfOk result (λ recorder. recorder ≡ record { situation = reset protocol shape; steps = []; published = [] }) }
    {
        let machine = Machine::reset(alloc, protocol, shape)?;
        let writer = VersionWriter::new(alloc, shape, readers)?;
        Ok(Recorder {
            machine,
            steps: Vec::new(alloc),
            writer,
        })
    }

    /// What makes readers of the published versions.
    pub(crate) fn readers(&self) -> Result<Readers, NoMemory>
        ensures { IfOk result (λ readers. readers ≡ self.now.situation.shape) }
    {
        self.writer.readers()
    }

    pub(crate) fn machine(&self) -> &Machine
        ensures { result.now.situation ≡ self.now.situation }
    {
        &self.machine
    }

    pub(crate) fn steps(&self) -> &[Step]
        ensures { result.now ≡ self.now.steps }
    {
        self.steps.as_slice()
    }

    /// Every recorder's machine is where the run of its steps leads, and is coherent. This does nothing: a proof calls it for what it ensures.
    pub(crate) fn recorded(&self)
        ensures recorded { IsRecorded self.now }
        ensures safe { IsSafe self.now.situation }
    {
        self.machine.coherent();
    }

    /// Takes a step that no cause refuses, and publishes its item. `NoMemory` changes nothing: all that needs memory comes before the step.
    pub(crate) fn take<R: Wait>(&mut self, rt: &R, step: Step) -> Result<Reply, NoMemory>
        requires allowed { (cause : Refused) → ¬ Refuses self.old.situation step cause }
        requires within { IsReadableStep self.old.situation.shape step }
        ensures takes { IfOk result (λ answer. TakesAndPublishes step answer self.old self.new) }
        ensures told { IfOk result (λ answer. Tells self.old.situation.log step (Ok answer) self.new.situation.log) }
        ensures once { IfOk result (λ answer. OnceMore self.old.situation (step ∷ []) (Ok answer ∷ []) self.new.situation) }
        ensures stays { (self.new.situation.protocol ≡ self.old.situation.protocol) × (self.new.situation.shape ≡ self.old.situation.shape) }
        ensures err { OnErr result (self.new ≡ self.old) }
    {
        let Ok(()) = self.steps.reserve(1) else {
            return Err(NoMemory);
        };
        let Ok(item) = prepared(&mut self.machine, step) else {
            return Err(NoMemory);
        };
        let Ok(()) = ready(&mut self.writer, item) else {
            return Err(NoMemory);
        };
        let Ok(reply) = self.machine.step(step) else {
            unreachable!()
        };
        self.steps.push_reserved(step);
        publish(rt, &self.machine, &self.steps, &mut self.writer);
        Ok(reply)
    }

    /// Waits for the readers that are inside, gives the versions up, and hands over the steps.
    pub(crate) fn end<R: Wait>(self, rt: &R) -> Vec<Step>
        ensures { result.items ≡ self.steps }
    {
        let Recorder {
            machine: _,
            steps,
            writer,
        } = self;
        writer.end(rt);
        steps
    }
}

/// Makes the room for a step that no cause refuses, and reports the item that it will add.
fn prepared(machine: &mut Machine, step: Step) -> Result<Option<Item>, NoMemory>
    requires { (cause : Refused) → ¬ Refuses machine.old.situation step cause }
    ensures ok { IfOk result (λ item. IsPrepared machine.new step item) }
    ensures unchanged { machine.new.situation ≡ machine.old.situation }
{
    match machine.prepare(step) {
        Ok(item) => Ok(item),
        Err(Refused::NoMemory) => Err(NoMemory),
        Err(_) => unreachable!(),
    }
}

/// Appends the item, if there is one, for the next publication.
fn ready(writer: &mut VersionWriter, item: Option<Item>) -> Result<(), NoMemory>
    requires { writer.old.ready ≡ [] }
    ensures ok { OnOk result (writer.new ≡ record writer.old { ready = option_to_list item }) }
    ensures err { OnErr result (writer.new ≡ writer.old) }
{
    match item {
        Some(item) => writer.prepare(item),
        None => Ok(()),
    }
}

/// Publishes the item that is ready, if there is one; the published list is then the machine's log. The steps are there for the
/// contract.
fn publish<R: Wait>(rt: &R, machine: &Machine, steps: &[Step], writer: &mut VersionWriter)
    requires shape { writer.old.shape ≡ machine.now.situation.shape }
    requires recorded { IsRecorded (record { situation = machine.now.situation; steps = steps.now; published = writer.old.list ++ writer.old.ready }) }
    ensures published { writer.new ≡ record writer.old { list = writer.old.list ++ writer.old.ready; ready = [] } }
    ensures recorded { IsRecorded (record { situation = machine.now.situation; steps = steps.now; published = writer.new.list }) }
{
    machine.coherent();
    machine.log().kept();
    writer.publish(rt);
}
