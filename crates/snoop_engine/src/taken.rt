//! Which rows of the tables the controllers take at a step.
ghost use Rattle.std.specs.Prelude.{◌≡◌, ◌<◌, ◌⊎◌, ◌++◌, ◌∷◌, [], ℕ, true, false, IfOk, OnOk, Option, Some, None};
ghost use Rattle.std.specs.List.{flat_map, range_with_len};
ghost use Rattle.std.specs.Option.{option_map_or};
ghost use Rattle.snoop_rules.specs.declared.names.CacheState.TheVariants.{I};
ghost use Rattle.snoop_rules.specs.Takers.{seen_by};
ghost use Rattle.snoop_blocks.specs.CoreSet.{has};
ghost use Rattle.snoop_bus.specs.Traffic.{Open};
ghost use Rattle.snoop_model.specs.Moves.Refuses.{Refuses};
ghost use Rattle.snoop_model.specs.Runs.Run.{GoesFirst};
ghost use Rattle.snoop_model.specs.declared.replies.Refused.{Refused as Cause};
ghost use Rattle.snoop_model.specs.Pictures.Situation.{Situation};
ghost use Rattle.snoop_engine.specs.PossibleHolders.{ArePossibleHolders, AreOthersInI, IsHeadFor};
ghost use Rattle.snoop_engine.specs.Courses.{CanEndFrom, LeadsOn};
ghost use Rattle.snoop_engine.specs.Views.{block_of_step};
ghost use Rattle.snoop_engine.specs.declared.taken.Taken.TheVariants as Line;
ghost use Rattle.snoop_engine.specs.Taken.{IsTransfer, lines_of_step, memory_at, of_arrival, of_arrival_at_memory, of_ask, of_core, of_holder, of_memory, of_request, of_requestor, of_respond, refused_by, state_at, taken_by, of_waiting_memory, unless_i};

use crate::course::Course;
use crate::events::event_asked;
use crate::possible_holders::PossibleHolders;
use snoop_blocks::CoreSet;
use snoop_machine::{Machine, Refused, Reply};
use snoop_rules::{
    CacheEvent, CacheState, MemEvent, MemState, Payload, Request, arrival, arrival_at_memory,
    event_at_memory, event_seen, takes_payload,
};
use snoop_trace::{NoMemory, Op, Step};

/// A controller that meets an event in a state, or what a refused step names.
#[derive(Clone, Copy, Debug)]
pub enum Taken {
    /// The core meets the event, or none.
    Core {
        core: u32,
        block: u32,
        event: Option<CacheEvent>,
        before: CacheState,
    },
    /// Memory meets the event.
    Memory {
        block: u32,
        event: MemEvent,
        before: MemState,
    },
    /// No controller meets anything.
    Nobody {
        core: Option<u32>,
        block: Option<u32>,
    },
}

/// The core's state of the block, where both are there.
#[tactic(auto, using(std::proofs::lemmas::Bool::Decides::nat_tests))]
pub fn state_at(machine: &Machine, core: u32, block: u32) -> Option<CacheState>
    ensures { result ≡ state_at machine.now.situation core block }
{
    machine.state(core, block)
}

/// Memory's state of the block, where it is there.
#[tactic(auto, using(std::proofs::lemmas::Bool::Decides::nat_tests))]
pub fn memory_at(machine: &Machine, block: u32) -> Option<MemState>
    ensures { result ≡ memory_at machine.now.situation block }
{
    machine.mem_state(block)
}

fn add(lines: &mut Vec<Taken>, line: Taken) -> Result<(), NoMemory>
    ensures { OnOk result (lines.new.items ≡ lines.old.items ++ line ∷ []) }
{
    match lines.push(line) {
        Ok(()) => Ok(()),
        Err(_) => Err(NoMemory),
    }
}

fn add_core(
    lines: &mut Vec<Taken>,
    machine: &Machine,
    core: u32,
    block: u32,
    event: Option<CacheEvent>,
) -> Result<(), NoMemory>
    ensures { OnOk result (lines.new.items ≡ lines.old.items ++ of_core machine.now.situation core block event) }
{
    match state_at(machine, core, block) {
        None => Ok(()),
        Some(before) => add(
            lines,
            Taken::Core {
                core,
                block,
                event,
                before,
            },
        ),
    }
}

fn add_memory(
    lines: &mut Vec<Taken>,
    machine: &Machine,
    block: u32,
    event: MemEvent,
) -> Result<(), NoMemory>
    ensures { OnOk result (lines.new.items ≡ lines.old.items ++ of_memory machine.now.situation block event) }
{
    match memory_at(machine, block) {
        None => Ok(()),
        Some(before) => add(
            lines,
            Taken::Memory {
                block,
                event,
                before,
            },
        ),
    }
}

fn add_ask(
    lines: &mut Vec<Taken>,
    machine: &Machine,
    core: u32,
    block: u32,
    op: Op,
) -> Result<(), NoMemory>
    ensures { OnOk result (lines.new.items ≡ lines.old.items ++ of_ask machine.now.situation core block op) }
{
    match state_at(machine, core, block) {
        None => Ok(()),
        Some(before) => {
            let event = event_asked(op, before);
            add(
                lines,
                Taken::Core {
                    core,
                    block,
                    event,
                    before,
                },
            )
        }
    }
}

fn add_unless_i(lines: &mut Vec<Taken>, state: CacheState, line: Taken) -> Result<(), NoMemory>
    ensures { OnOk result (lines.new.items ≡ lines.old.items ++ unless_i state line) }
{
    match state {
        CacheState::I => Ok(()),
        _ => add(lines, line),
    }
}

// Adds the line of a core in this state, where the core is there, and takes it out of the set where it is in I.
fn add_holder_in(
    lines: &mut Vec<Taken>,
    held: Option<CacheState>,
    cores: &mut CoreSet,
    requestor: u32,
    block: u32,
    request: Request,
    core: u32,
) -> Result<(), NoMemory>
    requires { core < 256 }
    ensures lines { OnOk result (lines.new.items ≡ lines.old.items ++ option_map_or (λ before. unless_i before (Line.Core core block (Some (seen_by core requestor request)) before)) held []) }
    ensures others { (k : ℕ) → has cores.new k ≡ false → (has cores.old k ≡ false) ⊎ ((k ≡ core) × (held ≡ Some I)) }
{
    match held {
        None => Ok(()),
        Some(CacheState::I) => {
            cores.set(core, false);
            Ok(())
        }
        Some(before) => {
            let event = Some(event_seen(core, requestor, request));
            add_unless_i(
                lines,
                before,
                Taken::Core {
                    core,
                    block,
                    event,
                    before,
                },
            )
        }
    }
}

// Adds the line of a core of the set, or takes it out of the set where it is in I.
fn add_holder(
    lines: &mut Vec<Taken>,
    machine: &Machine,
    cores: &mut CoreSet,
    requestor: u32,
    block: u32,
    request: Request,
    core: u32,
) -> Result<(), NoMemory>
    requires { core < 256 }
    ensures lines { OnOk result (lines.new.items ≡ lines.old.items ++ of_holder machine.now.situation requestor block request core) }
    ensures others { AreOthersInI machine.now.situation block cores.old → AreOthersInI machine.now.situation block cores.new }
{
    let held = state_at(machine, core, block);
    add_holder_in(lines, held, cores, requestor, block, request, core)
}

fn add_holders(
    lines: &mut Vec<Taken>,
    machine: &Machine,
    possible_holders: &mut PossibleHolders,
    requestor: u32,
    block: u32,
    request: Request,
) -> Result<(), NoMemory>
    requires { ArePossibleHolders machine.now.situation possible_holders.old.sets }
    ensures lines { OnOk result (lines.new.items ≡ lines.old.items ++ flat_map (of_holder machine.now.situation requestor block request) (range_with_len 0 machine.now.situation.shape.cores)) }
    ensures possible_holders { ArePossibleHolders machine.now.situation possible_holders.new.sets }
{
    let mut cores = possible_holders.of(block);
    let mut from = 0;
    while let Some(core) = cores.next(from) {
        add_holder(lines, machine, &mut cores, requestor, block, request, core)?;
        from = core + 1;
    }
    possible_holders.leave(block, cores);
    Ok(())
}

fn add_request(
    lines: &mut Vec<Taken>,
    machine: &Machine,
    possible_holders: &mut PossibleHolders,
    requestor: u32,
    block: u32,
    request: Request,
) -> Result<(), NoMemory>
    requires { ArePossibleHolders machine.now.situation possible_holders.old.sets }
    ensures lines { OnOk result (lines.new.items ≡ lines.old.items ++ of_request machine.now.situation requestor block request) }
    ensures possible_holders { ArePossibleHolders machine.now.situation possible_holders.new.sets }
{
    add_holders(lines, machine, possible_holders, requestor, block, request)?;
    add_memory(lines, machine, block, event_at_memory(request))
}

fn add_arrival(
    lines: &mut Vec<Taken>,
    machine: &Machine,
    core: u32,
    block: u32,
    event: Option<CacheEvent>,
) -> Result<(), NoMemory>
    ensures { OnOk result (lines.new.items ≡ lines.old.items ++ of_arrival machine.now.situation core block event) }
{
    match event {
        None => Ok(()),
        Some(event) => add_core(lines, machine, core, block, Some(event)),
    }
}

fn add_requestor(
    lines: &mut Vec<Taken>,
    machine: &Machine,
    block: u32,
    core: u32,
    request: Request,
    payload: Payload,
) -> Result<(), NoMemory>
    ensures { (opened : Open) → IsTransfer opened core request payload → OnOk result (lines.new.items ≡ lines.old.items ++ of_requestor opened.request machine.now.situation block opened) }
{
    match request {
        Request::PutM => Ok(()),
        Request::GetS | Request::GetM => {
            add_arrival(lines, machine, core, block, arrival(payload))
        }
    }
}

fn add_arrival_at_memory(
    lines: &mut Vec<Taken>,
    machine: &Machine,
    block: u32,
    event: Option<MemEvent>,
) -> Result<(), NoMemory>
    ensures { OnOk result (lines.new.items ≡ lines.old.items ++ of_arrival_at_memory machine.now.situation block event) }
{
    match event {
        None => Ok(()),
        Some(event) => add_memory(lines, machine, block, event),
    }
}

fn add_waiting_memory(
    lines: &mut Vec<Taken>,
    machine: &Machine,
    block: u32,
    request: Request,
    payload: Payload,
) -> Result<(), NoMemory>
    ensures { (opened : Open) (core : ℕ) → IsTransfer opened core request payload → OnOk result (lines.new.items ≡ lines.old.items ++ of_waiting_memory machine.now.situation block opened) }
{
    match memory_at(machine, block) {
        Some(before) if takes_payload(request, before) => {
            add_arrival_at_memory(lines, machine, block, arrival_at_memory(payload))
        }
        _ => Ok(()),
    }
}

#[tactic(auto, using(std::proofs::lemmas::List::append_assoc))]
fn add_respond(
    lines: &mut Vec<Taken>,
    machine: &Machine,
    block: u32,
    core: u32,
    request: Request,
    payload: Payload,
) -> Result<(), NoMemory>
    ensures { (opened : Open) → IsTransfer opened core request payload → OnOk result (lines.new.items ≡ lines.old.items ++ of_respond machine.now.situation block opened) }
{
    add_requestor(lines, machine, block, core, request, payload)?;
    add_waiting_memory(lines, machine, block, request, payload)
}

// Adds the rows that the controllers take at a step, if it is taken.
fn add_taken(
    lines: &mut Vec<Taken>,
    machine: &Machine,
    possible_holders: &mut PossibleHolders,
    step: Step,
    head: Option<(Request, u32)>,
) -> Result<(), NoMemory>
    requires possible_holders { ArePossibleHolders machine.now.situation possible_holders.old.sets }
    requires head { IsHeadFor machine.now.situation step head }
    ensures lines { OnOk result (lines.new.items ≡ lines.old.items ++ taken_by machine.now.situation step) }
    ensures possible_holders { ArePossibleHolders machine.now.situation possible_holders.new.sets }
{
    match step {
        Step::Ask {
            core,
            block,
            word: _,
            op,
        } => add_ask(lines, machine, core, block, op),
        Step::Order { core } => match head {
            None => Ok(()),
            Some((request, block)) => {
                add_request(lines, machine, possible_holders, core, block, request)
            }
        },
        Step::Respond { block } => match machine.transfer(block) {
            None => Ok(()),
            Some((core, request, payload)) => {
                add_respond(lines, machine, block, core, request, payload)
            }
        },
    }
}

// Adds what there is to say of a step that was refused.
fn add_refused(
    lines: &mut Vec<Taken>,
    machine: &Machine,
    step: Step,
    cause: Refused,
) -> Result<(), NoMemory>
    ensures { OnOk result (lines.new.items ≡ lines.old.items ++ refused_by machine.now.situation step cause) }
{
    let nobody = |core, block| Taken::Nobody { core, block };
    match (step, cause) {
        (
            Step::Ask {
                core,
                block,
                word: _,
                op,
            },
            Refused::Stalled(_),
        ) => { add_ask(lines, machine, core, block, op) }
        (Step::Order { core }, Refused::BusTaken(block)) => {
            add_core(lines, machine, core, block, None)
        }
        (Step::Order { core }, Refused::NothingWaiting) => add(lines, nobody(Some(core), None)),
        (Step::Respond { block }, Refused::NoTransaction) => add(lines, nobody(None, Some(block))),
        _ => add(lines, nobody(None, None)),
    }
}

/// Whether the step is an Order whose block has an open transaction: such a step is refused, and takes no row.
fn is_bus_taken(machine: &Machine, step: Step, head: Option<(Request, u32)>) -> bool
    requires { IsHeadFor machine.now.situation step head }
    ensures { result ≡ true → (cause : Cause) × Refuses machine.now.situation step cause }
{
    let Step::Order { core } = step else {
        return false;
    };
    if core >= machine.shape().cores() {
        return false;
    }
    match head {
        None => false,
        Some((_, block)) => machine.requestor(block).is_some(),
    }
}

/// Takes the step that was found, and adds what there is to say of it to the lines, which are empty.
#[inline(always)]
pub(crate) fn take_step<C: Course>(
    lines: &mut Vec<Taken>,
    course: &mut C,
    possible_holders: &mut PossibleHolders,
    step: Step,
    head: Option<(Request, u32)>,
) -> Result<Result<Reply, Refused>, NoMemory>
    requires empty { lines.old.items ≡ [] }
    requires found { (before : C) × C.finds before step course.old }
    requires possible_holders { ArePossibleHolders (C.situation course.old) possible_holders.old.sets }
    requires head { IsHeadFor (C.situation course.old) step head }
    ensures goes { IfOk result (λ outcome. GoesFirst (C.situation course.old) step outcome (C.situation course.new)) }
    ensures fewer { (before : C) → C.finds before step course.old → IfOk result (λ outcome. C.left course.new < C.left before) }
    ensures leads { (before : C) → C.finds before step course.old → IfOk result (λ outcome. LeadsOn (C.leads before) step outcome (C.leads course.new)) }
    ensures can_end { IfOk result (λ _. CanEndFrom (C.situation course.new) (C.leads course.new)) }
    ensures lines { IfOk result (λ outcome. lines.new.items ≡ lines_of_step (C.situation course.old) step outcome) }
    ensures possible_holders { IfOk result (λ outcome. ArePossibleHolders (C.situation course.new) possible_holders.new.sets) }
{
    let machine = course.machine();
    machine.shape().within_limits();
    if !is_bus_taken(machine, step, head) {
        add_taken(lines, machine, possible_holders, step, head)?;
    }
    let outcome = course.take(step)?;
    match outcome {
        Ok(_) => possible_holders.follow(step),
        Err(cause) => {
            lines.clear();
            add_refused(lines, course.machine(), step, cause)?;
        }
    }
    Ok(outcome)
}

/// The oldest request of the core of an Order, and its block; `None` where none waits, and at another step.
pub(crate) fn head_for(machine: &Machine, step: Step) -> Option<(Request, u32)>
    ensures { IsHeadFor machine.now.situation step result }
{
    match step {
        Step::Order { core } => machine.head(core),
        Step::Ask { .. } | Step::Respond { .. } => None,
    }
}

/// The block that a step is of: that of an Ask or a Respond, at an Order that of the core's oldest request, which is handed
/// in; `None` where none waits.
pub(crate) fn block_of(step: Step, head: Option<(Request, u32)>) -> Option<u32>
    ensures { (s : Situation) → IsHeadFor s step head → result ≡ block_of_step s step }
{
    match step {
        Step::Ask {
            core: _,
            block,
            word: _,
            op: _,
        } => Some(block),
        Step::Order { core: _ } => match head {
            None => None,
            Some((_, block)) => Some(block),
        },
        Step::Respond { block } => Some(block),
    }
}
