//! The rule of the published versions.
use crate::version::Version;
use crossbeam_utils::rule::{Outcome, Protocol};
use left_right::reader::{Factory, Reader};
use left_right::writer::Writer;
use snoop_history::Item;
use std::collections::LinkedList;

/// What a handle to the versions, the writer or a reader, knows. No value of it is made.
pub(crate) struct View {
    /// It names the shape below.
    pub(crate) used: bool,
    /// It is the writer's, and something was published.
    pub(crate) writes: bool,
    pub(crate) cores: u64,
    pub(crate) blocks: u64,
    pub(crate) words: u64,
    /// The list that was seen. The writer's is the published one.
    pub(crate) seen: LinkedList<Item>,
}

/// There is one list, the history of a machine of one shape, whose version is published. What each handle has seen is a
/// beginning of it.
pub(crate) struct Published;

impl Protocol<Version, View> for Published {
    ghost use Rattle.snoop_versions.specs.Rule.{Kept, newcomer};

    ghost holds = { Kept };

    ghost first = { newcomer };
}

/// The writer adds an item.
pub(crate) struct AddsItem;

impl Outcome<Version, View> for AddsItem {
    ghost use Rattle.snoop_versions.specs.Rule.{Adds};

    ghost then = { Adds };
}

/// A reader sees the published list.
pub(crate) struct SeesList;

impl Outcome<Version, View> for SeesList {
    ghost use Rattle.snoop_versions.specs.Rule.{Sees};

    ghost then = { Sees };
}

pub(crate) type RuledReader = Reader<Version, View, Published>;

pub(crate) type RuledWriter = Writer<Version, Item, View, Published>;

pub(crate) type RuledFactory = Factory<Version, View, Published>;
