//! What happens at a step, in the panel of its block.
ghost use Rattle.std.specs.Prelude.{◌≡◌, ◌+◌, ◌++◌, codes, OnOk};
ghost use Rattle.snoop_svg.specs.Elements.{text_closed, text_opened};
ghost use Rattle.snoop_svg.specs.Happenings.{answer_mark, answer_words, arriving_arrow, ask_text, asked_text, barred_text, barrier, event_text, from_core, from_memory, is_hit, missing_text, opened_text, operation_name, order_line, order_text, ordered_text, payload_text, performed_text, ray, request_text, respond_text, sent_text, square, to_core, to_memory, to_requestor};

use crate::columns::{Column, Subject, column_for};
use crate::elements::{
    close_text, open_operation, open_text, push_cross, push_dot, push_left_arrow, push_line,
    push_right_arrow, push_words,
};
use snoop_bus::Open;
use snoop_draw::any_of_memory;
use snoop_engine::{Seen, push_outcome};
use snoop_history::Did;
use snoop_machine::{Machine, Refused, Reply};
use snoop_rules::{Payload, Request};
use snoop_trace::streams::{push_decimal, push_text};
use snoop_trace::{NoMemory, Op, Step};

fn is_hit(outcome: Result<Reply, Refused>) -> bool
    ensures { result ≡ is_hit outcome }
{
    matches!(outcome, Ok(Reply::Hit(_) | Reply::StoreHit))
}

fn square(is_done: bool) -> &'static str
    ensures { result.now ≡ square is_done }
{
    if is_done { "done" } else { "ask" }
}

// Appends what a core asks for.
fn push_asked(out: &mut Vec<u8>, x: u32, y: u32, op: Op, is_done: bool) -> Result<(), NoMemory>
    ensures { OnOk result (out.new.items ≡ out.old.items ++ asked_text x y op is_done) }
{
    match op {
        Op::Load => {
            open_operation(out, x, y, square(is_done))?;
            push_text(out, "load")?;
            close_text(out)
        }
        Op::Store(value) => {
            open_operation(out, x, y, square(is_done))?;
            push_text(out, "store ")?;
            push_decimal(out, value)?;
            close_text(out)
        }
        Op::Evict => push_words(out, x as u64 + 8, y as u64 + 13, b"evict", "o"),
    }
}

fn push_answer_words(out: &mut Vec<u8>, outcome: Result<Reply, Refused>) -> Result<(), NoMemory>
    ensures { OnOk result (out.new.items ≡ out.old.items ++ answer_words outcome) }
{
    match outcome {
        Ok(_) => push_outcome(out, outcome),
        Err(_) => push_text(out, "stall"),
    }
}

// Appends what an Ask is answered.
fn push_answer(
    out: &mut Vec<u8>,
    x: u32,
    y: u32,
    outcome: Result<Reply, Refused>,
) -> Result<(), NoMemory>
    ensures { OnOk result (out.new.items ≡ out.old.items ++ (text_opened (x + 8) (y + 31) (codes "a") ++ answer_words outcome ++ text_closed)) }
{
    open_text(out, x as u64 + 8, y as u64 + 31, "a")?;
    push_answer_words(out, outcome)?;
    close_text(out)
}

// Appends the mark of an answer.
fn push_answer_mark(
    out: &mut Vec<u8>,
    y: u32,
    column: Column,
    outcome: Result<Reply, Refused>,
) -> Result<(), NoMemory>
    ensures { OnOk result (out.new.items ≡ out.old.items ++ answer_mark y column outcome) }
{
    match outcome {
        Err(_) => push_cross(out, column.x as u64 + 58, y as u64 + 27),
        Ok(Reply::Issued(_)) => push_dot(out, column.rail() as u64, y as u64, "i"),
        Ok(_) => Ok(()),
    }
}

fn push_ask(
    out: &mut Vec<u8>,
    y: u32,
    column: Option<Column>,
    op: Op,
    outcome: Result<Reply, Refused>,
) -> Result<(), NoMemory>
    ensures { OnOk result (out.new.items ≡ out.old.items ++ ask_text y column op outcome) }
{
    let Some(column) = column else {
        return Ok(());
    };
    push_asked(out, column.x, y, op, is_hit(outcome))?;
    push_answer(out, column.x, y, outcome)?;
    push_answer_mark(out, y, column, outcome)
}

// Appends the name of a message, in the column that begins at x.
fn push_payload(out: &mut Vec<u8>, x: u32, y: u32, payload: Payload) -> Result<(), NoMemory>
    ensures { OnOk result (out.new.items ≡ out.old.items ++ payload_text x y payload) }
{
    let words = payload.name().as_bytes();
    push_words(out, x as u64 + 8, y as u64 + 31, words, "a")
}

fn push_from_memory(
    out: &mut Vec<u8>,
    y: u32,
    bus: Column,
    memory: Column,
    payload: Payload,
) -> Result<(), NoMemory>
    ensures { OnOk result (out.new.items ≡ out.old.items ++ from_memory y bus memory payload) }
{
    push_payload(out, memory.x, y, payload)?;
    push_left_arrow(out, memory.x as u64 + 4, bus.end, y as u64 + 19, "g")
}

fn push_from_core(
    out: &mut Vec<u8>,
    y: u32,
    bus: Column,
    sender: Option<Column>,
    payload: Payload,
) -> Result<(), NoMemory>
    ensures { OnOk result (out.new.items ≡ out.old.items ++ from_core y bus sender payload) }
{
    let Some(sender) = sender else {
        return Ok(());
    };
    let rail = sender.rail() as u64;
    push_payload(out, sender.x, y, payload)?;
    push_right_arrow(out, rail, bus.x as u64, y as u64 + 19, "g")
}

// Appends how the message of a transaction leaves its sender.
fn push_sent(
    out: &mut Vec<u8>,
    y: u32,
    columns: &[Column],
    block: u32,
    bus: Column,
    memory: Column,
    opened: &Open,
) -> Result<(), NoMemory>
    ensures { OnOk result (out.new.items ≡ out.old.items ++ sent_text y columns.now block bus memory opened.now.from opened.now.payload) }
{
    match opened.from {
        None => push_from_memory(out, y, bus, memory, opened.payload),
        Some(core) => {
            let sender = column_for(columns, Subject::Core { block, core });
            push_from_core(out, y, bus, sender, opened.payload)
        }
    }
}

// Appends the name of a request, in the column that begins at x.
fn push_request(out: &mut Vec<u8>, x: u32, y: u32, request: Request) -> Result<(), NoMemory>
    ensures { OnOk result (out.new.items ≡ out.old.items ++ request_text x y request) }
{
    let words = request.name().as_bytes();
    push_words(out, x as u64 + 8, y as u64 + 13, words, "o")
}

// Appends a line across a panel, and an arrow from a rail to the bus.
fn push_ray(
    out: &mut Vec<u8>,
    y: u64,
    start: u64,
    rail: u64,
    bus: u64,
    end: u64,
) -> Result<(), NoMemory>
    ensures { OnOk result (out.new.items ≡ out.old.items ++ ray y start rail bus end) }
{
    push_line(out, start, y, end, y, "u")?;
    push_right_arrow(out, rail, bus, y, "p")?;
    push_dot(out, rail, y, "p")
}

// Appends the line of an Order.
fn push_order_line(
    out: &mut Vec<u8>,
    y: u32,
    column: Column,
    bus: Column,
    memory: Column,
    request: Request,
) -> Result<(), NoMemory>
    ensures { OnOk result (out.new.items ≡ out.old.items ++ order_line y column bus memory request) }
{
    let rail = column.rail() as u64;
    push_request(out, column.x, y, request)?;
    push_ray(
        out,
        y as u64,
        column.start as u64,
        rail,
        bus.x as u64,
        memory.end as u64,
    )
}

fn push_opened(
    out: &mut Vec<u8>,
    y: u32,
    columns: &[Column],
    block: u32,
    column: Option<Column>,
    bus: Option<Column>,
    memory: Option<Column>,
    opened: &Open,
) -> Result<(), NoMemory>
    ensures { OnOk result (out.new.items ≡ out.old.items ++ opened_text y columns.now block column bus memory opened.now) }
{
    let (Some(column), Some(bus), Some(memory)) = (column, bus, memory) else {
        return Ok(());
    };
    push_order_line(out, y, column, bus, memory, opened.request)?;
    push_sent(out, y, columns, block, bus, memory, opened)
}

fn push_ordered(
    out: &mut Vec<u8>,
    y: u32,
    columns: &[Column],
    block: u32,
    core: u32,
    opened: Option<Open>,
) -> Result<(), NoMemory>
    ensures { OnOk result (out.new.items ≡ out.old.items ++ ordered_text y columns.now block core opened) }
{
    let Some(opened) = opened else {
        return Ok(());
    };
    let column = column_for(columns, Subject::Core { block, core });
    let bus = column_for(columns, Subject::Bus { block });
    let memory = column_for(columns, Subject::Memory { block });
    push_opened(out, y, columns, block, column, bus, memory, &opened)
}

// Appends a broken line that ends before the bus, and a cross there.
fn push_barrier(out: &mut Vec<u8>, rail: u64, bus: u64, y: u64) -> Result<(), NoMemory>
    ensures { OnOk result (out.new.items ≡ out.old.items ++ barrier rail bus y) }
{
    let end = bus.saturating_sub(8);
    let middle = bus.saturating_sub(4);
    push_line(out, rail, y, end, y, "v")?;
    push_cross(out, middle, y)
}

fn push_barred(
    out: &mut Vec<u8>,
    y: u32,
    column: Option<Column>,
    bus: Option<Column>,
) -> Result<(), NoMemory>
    ensures { OnOk result (out.new.items ≡ out.old.items ++ barred_text y column bus) }
{
    let (Some(column), Some(bus)) = (column, bus) else {
        return Ok(());
    };
    let rail = column.rail() as u64;
    push_words(out, column.x as u64 + 8, y as u64 + 13, b"bus taken", "o")?;
    push_barrier(out, rail, bus.x as u64, y as u64)
}

fn push_order(
    out: &mut Vec<u8>,
    y: u32,
    columns: &[Column],
    machine: &Machine,
    of: Option<u32>,
    core: u32,
    outcome: Result<Reply, Refused>,
) -> Result<(), NoMemory>
    ensures { OnOk result (out.new.items ≡ out.old.items ++ order_text y columns.now machine.now.situation of core outcome) }
{
    let Some(block) = of else {
        return Ok(());
    };
    match outcome {
        Ok(_) => push_ordered(out, y, columns, block, core, machine.open(block)),
        Err(_) => {
            let column = column_for(columns, Subject::Core { block, core });
            push_barred(out, y, column, column_for(columns, Subject::Bus { block }))
        }
    }
}

fn push_operation_name(out: &mut Vec<u8>, is_load: bool) -> Result<(), NoMemory>
    ensures { OnOk result (out.new.items ≡ out.old.items ++ operation_name is_load) }
{
    if is_load {
        push_text(out, "load ")
    } else {
        push_text(out, "store ")
    }
}

fn push_performed(out: &mut Vec<u8>, x: u32, y: u32, did: Did) -> Result<(), NoMemory>
    ensures { OnOk result (out.new.items ≡ out.old.items ++ performed_text x y did) }
{
    open_operation(out, x, y, "done")?;
    push_operation_name(out, did.load)?;
    push_decimal(out, did.value)?;
    close_text(out)
}

// Appends the end of a rail, where an arrow comes from the bus.
fn push_arrival(out: &mut Vec<u8>, y: u32, rail: u32, bus: u32) -> Result<(), NoMemory>
    ensures { OnOk result (out.new.items ≡ out.old.items ++ arriving_arrow y rail bus) }
{
    push_line(out, rail as u64, y as u64, rail as u64, y as u64 + 19, "d")?;
    push_left_arrow(out, bus as u64, rail, y as u64 + 19, "g")
}

fn push_to_core(
    out: &mut Vec<u8>,
    y: u32,
    column: Option<Column>,
    bus: Option<Column>,
    payload: Payload,
    did: Did,
) -> Result<(), NoMemory>
    ensures { OnOk result (out.new.items ≡ out.old.items ++ to_core y column bus payload did) }
{
    let (Some(column), Some(bus)) = (column, bus) else {
        return Ok(());
    };
    let rail = column.rail();
    push_performed(out, column.x, y, did)?;
    push_payload(out, column.x, y, payload)?;
    push_arrival(out, y, rail, bus.x)
}

fn push_to_requestor(
    out: &mut Vec<u8>,
    y: u32,
    columns: &[Column],
    block: u32,
    payload: Payload,
    did: Option<Did>,
) -> Result<(), NoMemory>
    ensures { OnOk result (out.new.items ≡ out.old.items ++ to_requestor y columns.now block payload did) }
{
    let Some(did) = did else {
        return Ok(());
    };
    let core = did.core;
    let column = column_for(columns, Subject::Core { block, core });
    let bus = column_for(columns, Subject::Bus { block });
    push_to_core(out, y, column, bus, payload, did)
}

fn push_to_memory(
    out: &mut Vec<u8>,
    y: u32,
    bus: Option<Column>,
    memory: Option<Column>,
    payload: Payload,
    is_met: bool,
) -> Result<(), NoMemory>
    ensures { OnOk result (out.new.items ≡ out.old.items ++ to_memory y bus memory payload is_met) }
{
    let (Some(bus), Some(memory)) = (bus, memory) else {
        return Ok(());
    };
    if !is_met {
        return Ok(());
    }
    push_payload(out, memory.x, y, payload)?;
    push_right_arrow(out, bus.end as u64, memory.x as u64, y as u64 + 19, "g")
}

fn push_missing(out: &mut Vec<u8>, y: u32, bus: Option<Column>) -> Result<(), NoMemory>
    ensures { OnOk result (out.new.items ≡ out.old.items ++ missing_text y bus) }
{
    match bus {
        None => Ok(()),
        Some(bus) => push_cross(out, bus.x as u64 + 12, y as u64 + 13),
    }
}

fn push_respond(
    out: &mut Vec<u8>,
    y: u32,
    columns: &[Column],
    block: u32,
    outcome: Result<Reply, Refused>,
    is_met: bool,
) -> Result<(), NoMemory>
    ensures { OnOk result (out.new.items ≡ out.old.items ++ respond_text y columns.now block outcome is_met) }
{
    let bus = column_for(columns, Subject::Bus { block });
    match outcome {
        Ok(
            Reply::Came {
                payload,
                from: _,
                did,
            },
        ) => {
            push_to_requestor(out, y, columns, block, payload, did)?;
            let memory = column_for(columns, Subject::Memory { block });
            push_to_memory(out, y, bus, memory, payload, is_met)
        }
        Ok(_) => Ok(()),
        Err(_) => push_missing(out, y, bus),
    }
}

/// Appends what happens at the step, after which the machine is this.
pub(crate) fn push_event(
    out: &mut Vec<u8>,
    y: u32,
    columns: &[Column],
    machine: &Machine,
    seen: &Seen<'_>,
) -> Result<(), NoMemory>
    ensures { OnOk result (out.new.items ≡ out.old.items ++ event_text y columns.now machine.now.situation seen.now.block seen.now.step seen.now.outcome seen.now.lines.now) }
{
    match seen.step {
        Step::Ask {
            core,
            block,
            word: _,
            op,
        } => {
            let column = column_for(columns, Subject::Core { block, core });
            push_ask(out, y, column, op, seen.outcome)
        }
        Step::Order { core } => push_order(
            out,
            y,
            columns,
            machine,
            seen.block,
            core,
            seen.outcome,
        ),
        Step::Respond { block } => {
            let is_met = any_of_memory(seen.lines, block);
            push_respond(out, y, columns, block, seen.outcome, is_met)
        }
    }
}
