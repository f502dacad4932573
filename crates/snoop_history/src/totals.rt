//! How an item adds to the counts.
ghost use Rattle.std.specs.Prelude.{◌≡◌, None};
ghost use Rattle.snoop_history.specs.Journal.{counted, tallied};

use crate::items::{Came, Did, Item, Sent, Totals};
use snoop_rules::{Payload, Request};

// Counts one more where it is here; the count stops at the largest `u64`.
fn count(n: &mut u64, here: bool)
    ensures { n.new ≡ counted n.old here }
{
    if here {
        *n = n.saturating_add(1);
    }
}

impl Totals {
    /// Counts one more item; each count stops at the largest `u64`.
    #[inline(always)]
    pub(crate) fn add(&mut self, item: Item)
        ensures { self.new ≡ tallied self.old item }
    {
        match item {
            Item::Did(did) => self.add_operation(did),
            Item::Sent(sent) => self.add_request(sent),
            Item::Came(came, None) => self.add_response(came),
            Item::Came(came, Some(did)) => {
                self.add_response(came);
                self.add_operation(did);
            }
        }
    }

    fn add_operation(&mut self, did: Did)
        ensures { self.new ≡ tallied self.old (Item.Did did) }
    {
        if did.load {
            count(&mut self.loads, true);
            count(&mut self.load_hits, did.hit);
        } else {
            count(&mut self.stores, true);
            count(&mut self.store_hits, did.hit);
        }
    }

    fn add_request(&mut self, sent: Sent)
        ensures { self.new ≡ tallied self.old (Item.Sent sent) }
    {
        match sent.request {
            Request::GetS => count(&mut self.get_s, true),
            Request::GetM => count(&mut self.get_m, true),
            Request::PutM => count(&mut self.put_m, true),
        }
    }

    // Counts a response, the operation that it performed aside.
    fn add_response(&mut self, came: Came)
        ensures { self.new ≡ tallied self.old (Item.Came came None) }
    {
        let writeback = matches!(&came.request, Request::PutM);
        count(&mut self.from_memory, came.from.is_none());
        count(&mut self.from_caches, came.from.is_some() && !writeback);
        match came.payload {
            Payload::Data => count(&mut self.writebacks, writeback),
            Payload::DataE => {}
            Payload::NoDataE => count(&mut self.clean, writeback),
            Payload::NoData => count(&mut self.stale, writeback),
        }
    }
}
