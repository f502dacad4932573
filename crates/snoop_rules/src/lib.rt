//! The tables of MSI and MESI.
#![tactic(auto)]

mod display;
mod matrix;
mod names;
mod permission;
mod table;
mod table_text;

pub use matrix::write_matrix;
pub use names::{
    CacheAction, CacheCell, CacheEvent, CacheState, MemAction, MemCell, MemEvent, MemState,
    Payload, Request, Target,
};
pub use permission::{may_load, may_store};
pub use snoop_trace::Protocol;
pub use table::{
    CACHE_EVENTS, CACHE_STATES, MEM_EVENTS, MEM_STATES, arrival, arrival_at_memory, cache_cell,
    carries_value, event_asked, event_at_memory, event_seen, mem_cell, takes_payload, waits,
};
pub use table_text::{Which, write_table};
