//! Worked scenes of the MSI and MESI protocols: what the definitions say of short lists of steps, computed.
//!
//! Each function is a theorem alone: it does nothing, and its contract is proved. `scene`: the run of the scene's steps from
//! reset, which is the only one (`snoop_model::laws::runs_are_one`), has the replies and the end that the scene's file of `specs/`
//! shows, with the states of the two caches and of memory after each step. `totals` and `values`: the counts of the history at the
//! end, and the blocks that it mentions with flat memory's values. `performed`: core 0's operations, in the order of performing.
#![tactic(auto)]

mod scenes;

pub use scenes::{
    clean_eviction, drop_then_absent, exclusive_shared, exclusive_shared_while_evicting,
    first_load, head_of_queue_blocks, load_hits_while_store_waits, nothing_enabled,
    outside_the_shape, ownership_returns, refused_and_repeated, silent_upgrade, stale_writeback,
    store_hit_while_evicting, store_miss_keeps_words, two_blocks_open, upgrade_race,
    writeback_after_downgrade,
};
