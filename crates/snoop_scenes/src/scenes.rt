//! Scenes of the protocols, each a theorem about the run of its steps from reset.
ghost use Rattle.std.specs.Prelude.{◌≡◌, [], ◌∷◌, slice_set};
ghost use Rattle.snoop_trace.specs.Words.{zero_words};
ghost use Rattle.snoop_trace.specs.declared.protocol.Protocol.TheVariants.{Msi, Mesi};
ghost use Rattle.snoop_history.specs.History.{answers_of, flat_words};
ghost use Rattle.snoop_history.specs.Totals.{totals_of};
ghost use Rattle.snoop_scenes.specs.Scene.{two_cores, two_blocks, two_words, no_totals, values_of, missed_load, hit_load, missed_store, IsPlayed};
ghost use Rattle.snoop_scenes.specs.FirstLoad;
ghost use Rattle.snoop_scenes.specs.UpgradeRace;
ghost use Rattle.snoop_scenes.specs.StaleWriteback;
ghost use Rattle.snoop_scenes.specs.StoreHitWhileEvicting;
ghost use Rattle.snoop_scenes.specs.RefusedAndRepeated;
ghost use Rattle.snoop_scenes.specs.WritebackAfterDowngrade;
ghost use Rattle.snoop_scenes.specs.LoadHitsWhileStoreWaits;
ghost use Rattle.snoop_scenes.specs.SilentUpgrade;
ghost use Rattle.snoop_scenes.specs.CleanEviction;
ghost use Rattle.snoop_scenes.specs.ExclusiveShared;
ghost use Rattle.snoop_scenes.specs.ExclusiveSharedWhileEvicting;
ghost use Rattle.snoop_scenes.specs.OwnershipReturns;
ghost use Rattle.snoop_scenes.specs.DropThenAbsent;
ghost use Rattle.snoop_scenes.specs.TwoBlocksOpen;
ghost use Rattle.snoop_scenes.specs.HeadOfQueueBlocks;
ghost use Rattle.snoop_scenes.specs.NothingEnabled;
ghost use Rattle.snoop_scenes.specs.OutsideTheShape;
ghost use Rattle.snoop_scenes.specs.StoreMissKeepsWords;

/// A first load: the miss is ordered, memory answers, and the load reads 0.
pub fn first_load()
    ensures scene { IsPlayed Msi two_cores FirstLoad.frames FirstLoad.end }
    ensures totals { totals_of FirstLoad.end.log ≡ record no_totals { loads = 1; get_s = 1; from_memory = 1 } }
    ensures values { values_of FirstLoad.end.log ≡ (0, 0) ∷ [] }
{}

/// The upgrade race: two sharers ask to store at once. The one that is ordered second has lost its copy by then, so it waits
/// for data, and takes them from the winner.
pub fn upgrade_race()
    ensures scene { IsPlayed Msi two_cores UpgradeRace.frames UpgradeRace.end }
    ensures totals { totals_of UpgradeRace.end.log ≡ record no_totals { loads = 2; stores = 2; get_s = 2; get_m = 2; from_memory = 3; from_caches = 1 } }
    ensures values { values_of UpgradeRace.end.log ≡ (0, 5) ∷ [] }
{}

/// The stale writeback: an owner that evicts is overtaken by another core's store, so that its PutM brings memory no data.
pub fn stale_writeback()
    ensures scene { IsPlayed Msi two_cores StaleWriteback.frames StaleWriteback.end }
    ensures totals { totals_of StaleWriteback.end.log ≡ record no_totals { loads = 1; load_hits = 1; stores = 2; get_m = 2; put_m = 1; from_memory = 1; from_caches = 1; stale = 1 } }
    ensures values { values_of StaleWriteback.end.log ≡ (0, 9) ∷ [] }
{}

/// A store hits while the block is being evicted, and the writeback takes the new value to memory.
pub fn store_hit_while_evicting()
    ensures scene { IsPlayed Msi two_cores StoreHitWhileEvicting.frames StoreHitWhileEvicting.end }
    ensures totals { totals_of StoreHitWhileEvicting.end.log ≡ record no_totals { loads = 1; stores = 2; store_hits = 1; get_s = 1; get_m = 1; put_m = 1; from_memory = 2; writebacks = 1 } }
    ensures values { values_of StoreHitWhileEvicting.end.log ≡ (0, 8) ∷ [] }
{}

/// A core whose eviction still waits is stalled when it asks for the block again; once the stale writeback is through, it may.
pub fn refused_and_repeated()
    ensures scene { IsPlayed Msi two_cores RefusedAndRepeated.frames RefusedAndRepeated.end }
    ensures totals { totals_of RefusedAndRepeated.end.log ≡ record no_totals { loads = 1; stores = 2; get_s = 1; get_m = 2; put_m = 1; from_memory = 1; from_caches = 2; stale = 1 } }
    ensures values { values_of RefusedAndRepeated.end.log ≡ (0, 9) ∷ [] }
{}

/// Another core's load takes the data of an owner that evicts, memory takes them too, and the PutM that comes after it is stale.
pub fn writeback_after_downgrade()
    ensures scene { IsPlayed Msi two_cores WritebackAfterDowngrade.frames WritebackAfterDowngrade.end }
    ensures totals { totals_of WritebackAfterDowngrade.end.log ≡ record no_totals { loads = 1; stores = 1; get_s = 1; get_m = 1; put_m = 1; from_memory = 1; from_caches = 1; stale = 1 } }
    ensures values { values_of WritebackAfterDowngrade.end.log ≡ (0, 7) ∷ [] }
{}

/// A sharer's load hits while its store waits, until another core's store takes the copy away: then a load is stalled.
pub fn load_hits_while_store_waits()
    ensures scene { IsPlayed Msi two_cores LoadHitsWhileStoreWaits.frames LoadHitsWhileStoreWaits.end }
    ensures performed { answers_of LoadHitsWhileStoreWaits.end.log 0 ≡ missed_load 0 0 0 0 ∷ hit_load 0 1 0 0 ∷ missed_store 0 2 0 5 ∷ [] }
    ensures totals { totals_of LoadHitsWhileStoreWaits.end.log ≡ record no_totals { loads = 2; load_hits = 1; stores = 2; get_s = 1; get_m = 2; from_memory = 2; from_caches = 1 } }
    ensures values { values_of LoadHitsWhileStoreWaits.end.log ≡ (0, 5) ∷ [] }
{}

/// MESI's silent upgrade: a core that alone has the block stores without a request, and its eviction is a writeback.
pub fn silent_upgrade()
    ensures scene { IsPlayed Mesi two_cores SilentUpgrade.frames SilentUpgrade.end }
    ensures totals { totals_of SilentUpgrade.end.log ≡ record no_totals { loads = 1; stores = 1; store_hits = 1; get_s = 1; put_m = 1; from_memory = 1; writebacks = 1 } }
    ensures values { values_of SilentUpgrade.end.log ≡ (0, 3) ∷ [] }
{}

/// MESI's clean eviction: a block in E is given up without data, and the next load finds it exclusive again.
pub fn clean_eviction()
    ensures scene { IsPlayed Mesi two_cores CleanEviction.frames CleanEviction.end }
    ensures totals { totals_of CleanEviction.end.log ≡ record no_totals { loads = 2; get_s = 2; put_m = 1; from_memory = 2; clean = 1 } }
    ensures values { values_of CleanEviction.end.log ≡ (0, 0) ∷ [] }
{}

/// MESI: another core's load makes a block in E shared, and memory shares it too.
pub fn exclusive_shared()
    ensures scene { IsPlayed Mesi two_cores ExclusiveShared.frames ExclusiveShared.end }
    ensures totals { totals_of ExclusiveShared.end.log ≡ record no_totals { loads = 2; get_s = 2; from_memory = 1; from_caches = 1 } }
    ensures values { values_of ExclusiveShared.end.log ≡ (0, 0) ∷ [] }
{}

/// MESI: the load of another core overtakes the eviction of a block in E, and leaves the block shared.
pub fn exclusive_shared_while_evicting()
    ensures scene { IsPlayed Mesi two_cores ExclusiveSharedWhileEvicting.frames ExclusiveSharedWhileEvicting.end }
    ensures totals { totals_of ExclusiveSharedWhileEvicting.end.log ≡ record no_totals { loads = 2; get_s = 2; put_m = 1; from_memory = 1; from_caches = 1; stale = 1 } }
    ensures values { values_of ExclusiveSharedWhileEvicting.end.log ≡ (0, 0) ∷ [] }
{}

/// MESI: the new owner writes back before the old owner's stale PutM is ordered, and ownership stays with memory.
pub fn ownership_returns()
    ensures scene { IsPlayed Mesi two_cores OwnershipReturns.frames OwnershipReturns.end }
    ensures totals { totals_of OwnershipReturns.end.log ≡ record no_totals { stores = 2; get_m = 2; put_m = 2; from_memory = 1; from_caches = 1; writebacks = 1; stale = 1 } }
    ensures values { values_of OwnershipReturns.end.log ≡ (0, 9) ∷ [] }
{}

/// A sharer drops its copy without a request; a second eviction finds the block absent.
pub fn drop_then_absent()
    ensures scene { IsPlayed Msi two_cores DropThenAbsent.frames DropThenAbsent.end }
    ensures totals { totals_of DropThenAbsent.end.log ≡ record no_totals { loads = 1; get_s = 1; from_memory = 1 } }
    ensures values { values_of DropThenAbsent.end.log ≡ (0, 0) ∷ [] }
{}

/// Two blocks have open transactions at once, and their responses come in the other order: the younger load is performed first.
pub fn two_blocks_open()
    ensures scene { IsPlayed Msi two_blocks TwoBlocksOpen.frames TwoBlocksOpen.end }
    ensures performed { answers_of TwoBlocksOpen.end.log 0 ≡ missed_load 0 0 1 0 ∷ missed_load 0 1 0 0 ∷ [] }
    ensures totals { totals_of TwoBlocksOpen.end.log ≡ record no_totals { loads = 2; get_s = 2; from_memory = 2 } }
    ensures values { values_of TwoBlocksOpen.end.log ≡ (0, 0) ∷ (1, 0) ∷ [] }
{}

/// The oldest request holds the queue: while its block's transaction is open, the core's younger request for a free block waits too.
pub fn head_of_queue_blocks()
    ensures scene { IsPlayed Msi two_blocks HeadOfQueueBlocks.frames HeadOfQueueBlocks.end }
    ensures totals { totals_of HeadOfQueueBlocks.end.log ≡ record no_totals { loads = 3; get_s = 3; from_memory = 3 } }
    ensures values { values_of HeadOfQueueBlocks.end.log ≡ (0, 0) ∷ (1, 0) ∷ [] }
{}

/// With no request waiting and no transaction open, an Order and a Respond are refused, and nothing changes.
pub fn nothing_enabled()
    ensures scene { IsPlayed Msi two_cores NothingEnabled.frames NothingEnabled.end }
    ensures totals { totals_of NothingEnabled.end.log ≡ no_totals }
    ensures values { values_of NothingEnabled.end.log ≡ [] }
{}

/// A step of a core, a block or a word that there is not is refused, the core being looked at first; an eviction's word is not looked at.
pub fn outside_the_shape()
    ensures scene { IsPlayed Msi two_cores OutsideTheShape.frames OutsideTheShape.end }
    ensures totals { totals_of OutsideTheShape.end.log ≡ no_totals }
    ensures values { values_of OutsideTheShape.end.log ≡ [] }
{}

/// A store miss keeps the other words of its block: two cores store in two words of one block, and neither value is lost.
pub fn store_miss_keeps_words()
    ensures scene { IsPlayed Msi two_words StoreMissKeepsWords.frames StoreMissKeepsWords.end }
    ensures totals { totals_of StoreMissKeepsWords.end.log ≡ record no_totals { loads = 2; load_hits = 2; stores = 2; get_m = 2; from_memory = 1; from_caches = 1 } }
    ensures values { flat_words StoreMissKeepsWords.end.log 0 ≡ slice_set (slice_set zero_words 0 7) 1 9 }
{}
