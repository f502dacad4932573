//! The bus of a machine: the queue of each core, and the open transaction of each block.
ghost use Rattle.std.specs.Prelude.{◌≡◌, ◌+◌, ◌-◌, ◌<◌, ◌≤◌, ◌↔◌, [], ◌∷◌, ◌++◌, drop, length, replicate, All, IsTrue, IsNone, IsSome, IfOk, OnOk, OnErr, IfSome, None, option_copied, option_map, position, slice_get, slice_set, ◌==◌};
ghost use Rattle.snoop_bus.specs.Traffic.{Waiting, waiting_of, head_of, transaction_on, Starts};

use snoop_blocks::BlockTable;
use snoop_rules::{Payload, Request};
use snoop_trace::{NoMemory, Shape, Words};
use std::alloc::Global;
use std::collections::VecDeque;
use std::marker::Model;

// The requests of one core that wait, in order of issue.
#[derive(Debug, Drop)]
struct Queue {
    requests: VecDeque<(Request, u32)>,
}

impl Model for Queue {
    ghost use Rattle.std.specs.Prelude.{◌-◌};
    ghost use Rattle.std.specs.VecDeque.{deque_len, deque_capacity};
    ghost use Rattle.snoop_bus.specs.Traffic.{Waiting};

    ghost Value = { Waiting };

    ghost view = { λ q. record { requests = q.requests.items; room = deque_capacity q.requests - deque_len q.requests } };
}

impl Queue {
    fn has_room(&self) -> bool
        ensures { IsTrue result ↔ (0 < self.now.room) }
    {
        self.requests.len() < self.requests.capacity()
    }

    fn head(&self) -> Option<(Request, u32)>
        ensures { result ≡ slice_get self.now.requests 0 }
    {
        self.requests.front().copied()
    }

    // How many requests are older than the one for the block, if that one waits.
    fn older(&self, block: u32) -> Option<usize>
        ensures value { result ≡ position (λ request. request.1 == block) self.now.requests }
        ensures few { IfSome result (λ older. older < usize.MAX) }
    {
        self.requests
            .iter()
            .position(|(_, waiting)| *waiting == block)
    }

    fn place(&self, block: u32) -> Option<usize>
        ensures { result ≡ option_map (λ older. older + 1) (position (λ request. request.1 == block) self.now.requests) }
    {
        let older = self.older(block)?;
        Some(older + 1)
    }

    fn pop(&mut self) -> Option<(Request, u32)>
        ensures first { result ≡ slice_get self.old.requests 0 }
        ensures rest { self.new.requests ≡ drop 1 self.old.requests }
        ensures room { IsSome result → self.new.room ≡ self.old.room + 1 }
    {
        self.requests.pop_front()
    }
}

/// An open transaction: the requestor, its request, and the message that lies in it.
#[derive(Clone, Copy, Debug, PartialEq, Eq)]
pub struct Open<K = Words> {
    /// The requestor.
    pub core: u32,
    pub request: Request,
    pub block: u32,
    pub payload: Payload,
    /// The block's words, where the payload carries data, else words of 0.
    pub value: K,
    /// The core that sent the message, or `None` for memory.
    pub from: Option<u32>,
}

/// The requests that wait, by core in order of issue, and the open transactions, by block. `K` is what a message carries of a block.
///
/// Memory is asked for in `new` and `reserve` alone. Outside the shape a core has no request and no
/// room, and a block no transaction.
#[derive(Debug, Drop)]
pub struct Bus<K = Words> {
    queues: Vec<Queue>,
    transactions: BlockTable<Option<Open<K>>>,
}

impl<K> Model for Bus<K> {
    ghost use Rattle.std.specs.Prelude.{length};
    ghost use Rattle.snoop_bus.specs.Traffic.{TrafficOf, AreBlocksWithin};

    ghost Value = { TrafficOf K };

    ghost view = { λ b. record { queues = b.queues.items; transactions = b.transactions } };

    ghost invariant = { λ b. AreBlocksWithin b.queues.items (length b.transactions) };
}

impl<K: Copy> Bus<K> {
    /// A bus with no request and no transaction.
    pub fn new(alloc: Global, shape: Shape) -> Result<Self, NoMemory>
        ensures queues { IfOk result (λ bus. (length bus.queues ≡ shape.cores) × All (λ queue. queue.requests ≡ []) bus.queues) }
        ensures transactions { IfOk result (λ bus. bus.transactions ≡ replicate shape.blocks None) }
    {
        let cores = shape.cores() as usize;
        let mut queues = Vec::with_capacity(alloc, cores)?;
        for _ in 0..cores {
            queues.push_reserved(Queue {
                requests: VecDeque::new(alloc),
            });
        }
        let transactions = BlockTable::new(alloc, shape.blocks(), None)?;
        Ok(Bus {
            queues,
            transactions,
        })
    }

    /// Makes room for one more request of the core, where there is none. `NoMemory` leaves all as it
    /// was, and comes only where there was no room.
    pub fn reserve(&mut self, core: u32) -> Result<(), NoMemory>
        requires { core < length self.old.queues }
        ensures ok { OnOk result (0 < (waiting_of self.new core).room) }
        ensures full { OnErr result ((waiting_of self.old core).room ≡ 0) }
        ensures refused { OnErr result (self.new ≡ self.old) }
        ensures idle { 0 < (waiting_of self.old core).room → self.new ≡ self.old }

        // Nothing but the core's room changes, and it doesn't shrink.
        ensures room { (waiting_of self.old core).room ≤ (waiting_of self.new core).room }
        ensures queue { self.new.queues ≡ slice_set self.old.queues core (record { requests = (waiting_of self.old core).requests; room = (waiting_of self.new core).room }) }
        ensures transactions { self.new.transactions ≡ self.old.transactions }
    {
        let queue = &mut self.queues[core as usize];
        // The usual case, at no cost.
        if queue.has_room() {
            return Ok(());
        }
        // The room alone decides: a refused growth may have left some.
        let grown = queue.requests.reserve(1);
        if !queue.has_room() {
            grown?;
        }
        Ok(())
    }

    /// Whether the core can issue one more request.
    pub fn has_room(&self, core: u32) -> bool
        ensures { IsTrue result ↔ (0 < (waiting_of self.now core).room) }
    {
        self.queues
            .get(core as usize)
            .is_some_and(|queue| queue.has_room())
    }

    /// Puts a request for a block last in the core's queue.
    pub fn issue(&mut self, core: u32, request: Request, block: u32)
        requires core { core < length self.old.queues }
        requires block { block < length self.old.transactions }
        requires room { 0 < (waiting_of self.old core).room }
        ensures queue { self.new.queues ≡ slice_set self.old.queues core (record { requests = (waiting_of self.old core).requests ++ (request, block) ∷ []; room = (waiting_of self.old core).room - 1 }) }
        ensures transactions { self.new.transactions ≡ self.old.transactions }
    {
        let queue = &mut self.queues[core as usize];
        queue.requests.push_back_reserved((request, block));
    }

    /// The core's oldest request and its block.
    pub fn head(&self, core: u32) -> Option<(Request, u32)>
        ensures { result ≡ head_of self.now core }
    {
        self.queues.get(core as usize)?.head()
    }

    /// The place of the core's request for the block, if it waits, the oldest request's being 1.
    pub fn place(&self, core: u32, block: u32) -> Option<usize>
        ensures { result ≡ option_map (λ older. older + 1) (position (λ request. request.1 == block) (waiting_of self.now core).requests) }
    {
        self.queues.get(core as usize)?.place(block)
    }

    /// The transaction that is open on the block.
    pub fn open(&self, block: u32) -> Option<Open<K>>
        ensures { result ≡ transaction_on self.now block }
    {
        self.opened(block).copied()
    }

    /// The same where it stands, without a copy of its words.
    pub fn opened(&self, block: u32) -> Option<&Open<K>>
        ensures { option_copied result ≡ transaction_on self.now block }
    {
        self.transactions.get_ref(block)?.as_ref()
    }

    /// Orders the core's oldest request: it leaves the queue, and its transaction opens with the
    /// message that the core `from`, or memory, sends.
    pub fn start(&mut self, core: u32, payload: Payload, value: K, from: Option<u32>)
        requires core { core < length self.old.queues }
        requires head { IsSome (head_of self.old core) }
        requires free { IfSome (head_of self.old core) (λ head. transaction_on self.old head.1 ≡ None) }
        ensures { IfSome (head_of self.old core) (λ head. Starts self.old self.new core head.0 head.1 payload value from) }
    {
        let queue = &mut self.queues[core as usize];
        let (request, block) = queue.pop().unwrap();
        let opened = Open {
            core,
            request,
            block,
            payload,
            value,
            from,
        };
        self.transactions.set(block, Some(opened));
    }

    /// Closes the block's transaction and hands it out; where none is open, nothing changes.
    pub fn finish(&mut self, block: u32) -> Option<Open<K>>
        ensures closed { result ≡ transaction_on self.old block }
        ensures after { self.new ≡ record self.old { transactions = slice_set self.old.transactions block None } }
        ensures unchanged { IsNone result → self.new ≡ self.old }
    {
        let closed = self.open(block);
        if closed.is_some() {
            self.transactions.set(block, None);
        }
        closed
    }
}
