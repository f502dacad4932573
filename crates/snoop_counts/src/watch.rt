//! What can be counted of each step of a run.
ghost use Rattle.std.specs.Prelude.{◌≡◌, ◌++◌, ◌∷◌, [], List, None, OnOk, map, option_to_list};
ghost use Rattle.std.specs.Option.{option_map_or};
ghost use Rattle.snoop_trace.specs.Extent.{Extent};
ghost use Rattle.snoop_trace.specs.declared.protocol.Protocol.{Protocol};
ghost use Rattle.snoop_history.specs.History.{operation_of};
ghost use Rattle.snoop_model.specs.Pictures.Situation.{Situation};
ghost use Rattle.snoop_engine.specs.Frames.{Frame};
ghost use Rattle.snoop_engine.specs.Views.{IsNextSeen, frame_seen};
ghost use Rattle.snoop_counts.specs.Causes.{cause_of};
ghost use Rattle.snoop_counts.specs.Happenings.{seen_in};
ghost use Rattle.snoop_counts.specs.LastSteps.{KnowsLastSteps};
ghost use Rattle.snoop_counts.specs.Views.{HasWatched};
ghost use Rattle.snoop_counts.specs.declared.count.Happening.TheVariants as happening;

use crate::copies::Copies;
use crate::count::Happening;
use snoop_engine::{Seen, Taken};
use snoop_history::{Did, Item, Log};
use snoop_machine::{Refused, Reply};
use snoop_trace::{NoMemory, Step};
use std::alloc::Global;

// The operation that an item performs, if any.
fn operation_of(item: Option<Item>) -> Option<Did>
    ensures { result ≡ option_map_or operation_of item None }
{
    item?.did()
}

fn push(all: &mut Vec<Happening>, happening: Happening) -> Result<(), NoMemory>
    ensures { OnOk result (all.new.items ≡ all.old.items ++ happening ∷ []) }
{
    match all.push(happening) {
        Ok(()) => Ok(()),
        Err(_) => Err(NoMemory),
    }
}

// Writes the lines of a step anew, with the causes of misses.
#[tactic(auto, using(std::proofs::lemmas::List::map_more))]
fn write_lines(
    all: &mut Vec<Happening>,
    copies: &Copies,
    step: Step,
    outcome: Result<Reply, Refused>,
    lines: &[Taken],
    operation: Option<Did>,
) -> Result<(), NoMemory>
    ensures { (frames : List Frame) → KnowsLastSteps frames copies.now → OnOk result (all.new.items ≡ map (λ line. happening.Line step outcome line (cause_of frames operation line)) lines.now) }
{
    all.clear();
    for line in lines {
        let line = *line;
        let cause = copies.cause_of(operation, line);
        push(
            all,
            Happening::Line {
                step,
                outcome,
                line,
                cause,
            },
        )?;
    }
    Ok(())
}

// Appends an item, if there is one.
fn push_item(all: &mut Vec<Happening>, item: Option<Item>) -> Result<(), NoMemory>
    ensures { OnOk result (all.new.items ≡ all.old.items ++ map happening.Item (option_to_list item)) }
{
    match item {
        None => Ok(()),
        Some(item) => push(all, Happening::Item(item)),
    }
}

/// Follows a run, and says of its last step what can be counted.
#[derive(Drop)]
pub(crate) struct Watch {
    copies: Copies,
    /// How many items of the history were seen.
    items: usize,
    /// What can be counted of the last step.
    seen: Vec<Happening>,
}

impl Watch {
    /// No step was taken yet.
    pub(crate) fn new(alloc: Global) -> Watch
        ensures { (protocol : Protocol) (shape : Extent) → HasWatched protocol shape [] result }
    {
        Watch {
            copies: Copies::new(alloc),
            items: 0,
            seen: Vec::new(alloc),
        }
    }

    /// Sees the next step, after which the history is this.
    pub(crate) fn see(&mut self, log: &Log, seen: Seen<'_>) -> Result<(), NoMemory>
        ensures { (protocol : Protocol) (shape : Extent) (frames : List Frame) (before after : Situation)
            → HasWatched protocol shape frames self.old → IsNextSeen protocol shape frames before seen.entry after → log.now.items ≡ after.log
            → OnOk result (HasWatched protocol shape (frames ++ frame_seen before seen.entry after ∷ []) self.new
            × (self.new.seen.items ≡ seen_in frames (frame_seen before seen.entry after))) }
    {
        let item = log.item(self.items);
        let operation = operation_of(item);
        self.items = log.len();
        write_lines(
            &mut self.seen,
            &self.copies,
            seen.step,
            seen.outcome,
            seen.lines,
            operation,
        )?;
        push_item(&mut self.seen, item)?;
        self.copies.follow(seen.number, seen.lines, operation)
    }

    /// What can be counted of the step that was seen last.
    pub(crate) fn happenings(&self) -> &[Happening]
        ensures { result.now ≡ self.now.seen.items }
    {
        &self.seen
    }
}
