//! What is counted of a run, and for whom.
ghost use Rattle.std.specs.Prelude.{◌≡◌};
ghost use Rattle.snoop_counts.specs.CoreTable.{count_name};

use snoop_engine::Taken;
use snoop_history::Item;
use snoop_machine::{Refused, Reply};
use snoop_trace::Step;

/// A count of a core or a block, in the order of the fields.
#[derive(Clone, Copy)]
pub(crate) enum Count {
    /// Loads that were performed.
    Loads,
    /// Those that were hits.
    LoadHits,
    /// Stores that were performed.
    Stores,
    /// Those that were hits.
    StoreHits,
    /// Requests that were ordered: GetS.
    GetS,
    /// GetM.
    GetM,
    /// PutM.
    PutM,
    /// Responses that memory sent.
    FromMemory,
    /// Responses to GetS and GetM that a core sent.
    FromCaches,
    /// Responses to PutM that carry the block's data.
    Writebacks,
    /// Responses to PutM of a clean copy.
    Clean,
    /// Responses to PutM that came too late.
    Stale,
    /// Operations that were performed with data that came because the core had no copy.
    Misses,
    /// Misses by cause: the core had no copy before.
    Cold,
    /// It gave its last copy up.
    GivenUp,
    /// It lost its last copy, and the word was stored to since.
    TrueSharing,
    /// It lost its last copy, and the word was not stored to since.
    FalseSharing,
    /// GetMs that were ordered while the core might read.
    Upgrades,
    /// Upgrades that another's GetM came before.
    UpgradesLost,
    /// Shared copies that were lost to another's GetM.
    Invalidated,
    /// Copies of an owner that were lost to another's GetM.
    Taken,
    /// Owners that became sharers at another's GetS.
    Downgraded,
    /// Owners whose PutM another's request came before.
    Overtaken,
    /// Shared copies that were lost to the core's own GetM.
    Invalidates,
    /// Responses to GetS and GetM that the core sent.
    Supplied,
    /// Refused Asks: the line waits for something.
    Stalled,
    /// Refused Orders: the block's transaction is open.
    BusTaken,
    /// Refused Orders: the queue is empty.
    NothingWaiting,
    /// Refused Responds: no transaction is open.
    NoTransaction,
    /// Lines of steps. Not a field: whatever has none is left out.
    Lines,
    /// Operations that were performed. Not a field: they say which blocks and words are shared.
    Operations,
}

impl Count {
    /// What its field is called.
    #[tactic(auto, unfolding(crate::specs::CoreTable::count_name))]
    pub(crate) fn name(self) -> &'static str
        ensures { result.now ≡ count_name self }
    {
        match self {
            Count::Loads => "loads",
            Count::LoadHits => "load_hits",
            Count::Stores => "stores",
            Count::StoreHits => "store_hits",
            Count::GetS => "gets",
            Count::GetM => "getm",
            Count::PutM => "putm",
            Count::FromMemory => "from_memory",
            Count::FromCaches => "from_caches",
            Count::Writebacks => "writebacks",
            Count::Clean => "clean",
            Count::Stale => "stale",
            Count::Misses => "misses",
            Count::Cold => "cold",
            Count::GivenUp => "given_up",
            Count::TrueSharing => "true_sharing",
            Count::FalseSharing => "false_sharing",
            Count::Upgrades => "upgrades",
            Count::UpgradesLost => "upgrades_lost",
            Count::Invalidated => "invalidated",
            Count::Taken => "taken",
            Count::Downgraded => "downgraded",
            Count::Overtaken => "overtaken",
            Count::Invalidates => "invalidates",
            Count::Supplied => "supplied",
            Count::Stalled => "stalled",
            Count::BusTaken => "bus_taken",
            Count::NothingWaiting => "nothing_waiting",
            Count::NoTransaction => "no_transaction",
            Count::Lines => "lines",
            Count::Operations => "operations",
        }
    }
}

// The counts that cores, blocks and the machine all have, in the order of the fields, and then these.
macro_rules! counts {
    ($($own:ident),+) => {
        [
            Count::Loads,
            Count::LoadHits,
            Count::Stores,
            Count::StoreHits,
            Count::GetS,
            Count::GetM,
            Count::PutM,
            Count::FromMemory,
            Count::FromCaches,
            Count::Writebacks,
            Count::Clean,
            Count::Stale,
            Count::Misses,
            Count::Cold,
            Count::GivenUp,
            Count::TrueSharing,
            Count::FalseSharing,
            Count::Upgrades,
            Count::UpgradesLost,
            Count::Invalidated,
            Count::Taken,
            Count::Downgraded,
            Count::Overtaken,
            $(Count::$own),+
        ]
    };
}

/// The counts of a core, in the order of the fields.
pub(crate) static CORE_COUNTS: [Count; 28] = counts!(
    Invalidates,
    Supplied,
    Stalled,
    BusTaken,
    NothingWaiting
);

/// The counts of a block, in the order of the fields.
pub(crate) static BLOCK_COUNTS: [Count; 26] = counts!(Stalled, BusTaken, NoTransaction);

/// The counts of the machine, in the order of the fields.
pub(crate) static MACHINE_COUNTS: [Count; 29] = counts!(
    Invalidates,
    Supplied,
    Stalled,
    BusTaken,
    NothingWaiting,
    NoTransaction
);

/// Why a core had no copy at a miss: how its last one went.
#[derive(Clone, Copy)]
pub(crate) enum Cause {
    /// There was none.
    Cold,
    /// The core gave it up.
    GivenUp,
    /// Another core took it, and the word was stored to since.
    TrueSharing,
    /// Another core took it, and the word was not stored to since.
    FalseSharing,
}

/// What is counted: an item of the history, or a line of a step with what was answered to the step; a miss has a cause.
#[derive(Clone, Copy)]
pub(crate) enum Happening {
    Item(Item),
    Line {
        step: Step,
        outcome: Result<Reply, Refused>,
        line: Taken,
        cause: Option<Cause>,
    },
}

/// What there is a row of counters for.
#[derive(Clone, Copy)]
pub(crate) enum Subjects {
    Cores,
    Blocks,
    /// The words of all blocks; each block has this many.
    Words(u32),
    /// All of the machine's, as one.
    Machine,
}
