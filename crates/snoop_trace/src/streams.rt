//! Readers and writers that know whether they can fail, what entries are gathered in, and the pieces that texts are made of.

mod append;
pub(crate) mod entries;
mod source_and_sink;

pub use crate::text::{gather_asked, gather_steps};
pub use append::{push_byte, push_decimal, push_numbered, push_step, push_text};
pub use entries::Entries;
pub use source_and_sink::{AnyReader, AnyWriter, CHUNK, Sink, Source, spill, write_whole};
