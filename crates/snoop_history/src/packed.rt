//! Items as a log keeps them.
ghost use Rattle.std.specs.Prelude.{◌≡◌, ◌<◌, ◌^◌, Some};
ghost use Rattle.std.specs.Option.{ForSome};
ghost use Rattle.snoop_history.specs.declared.packed.Packed.{Packed};
ghost use Rattle.snoop_history.specs.declared.items.Item.TheVariants as item;
ghost use Rattle.snoop_history.specs.History.{operation_of};
ghost use Rattle.snoop_history.specs.Within.{IsItemWithin};
ghost use Rattle.snoop_history.specs.Packed.{NumberFits, request_of, is_hit_kind, is_load_kind, is_of_core, item_of, operation_in, payload_in, request_in, response_in, unpacked};

use crate::items::{Came, Did, Item, Sent};
use snoop_rules::{Payload, Request};

/// What an item is, and how its operation was performed, if it has one.
#[derive(Clone, Copy, Debug)]
pub(crate) enum Kind {
    /// An ordered request.
    Sent,
    /// A response that performed no operation.
    Came,
    LoadHit,
    LoadMiss,
    StoreHit,
    StoreMiss,
    /// A response that performed the operation.
    CameLoadHit,
    CameLoadMiss,
    CameStoreHit,
    CameStoreMiss,
}

impl Kind {
    /// Of an operation alone.
    fn of_operation(load: bool, hit: bool) -> Self
        ensures load { is_load_kind result ≡ load }
        ensures hit { is_hit_kind result ≡ hit }
        ensures item { (packed : Packed) → item_of result packed ≡ item.Did (operation_in packed) }
    {
        match (load, hit) {
            (true, true) => Kind::LoadHit,
            (true, false) => Kind::LoadMiss,
            (false, true) => Kind::StoreHit,
            (false, false) => Kind::StoreMiss,
        }
    }

    /// Of a response that performed an operation.
    fn of_response(load: bool, hit: bool) -> Self
        ensures load { is_load_kind result ≡ load }
        ensures hit { is_hit_kind result ≡ hit }
        ensures item { (packed : Packed) → item_of result packed ≡ item.Came (response_in packed) (Some (operation_in packed)) }
    {
        match (load, hit) {
            (true, true) => Kind::CameLoadHit,
            (true, false) => Kind::CameLoadMiss,
            (false, true) => Kind::CameStoreHit,
            (false, false) => Kind::CameStoreMiss,
        }
    }

    fn is_load(self) -> bool
        ensures { result ≡ is_load_kind self }
    {
        matches!(
            &self,
            Kind::LoadHit | Kind::LoadMiss | Kind::CameLoadHit | Kind::CameLoadMiss
        )
    }

    fn is_hit(self) -> bool
        ensures { result ≡ is_hit_kind self }
    {
        matches!(
            &self,
            Kind::LoadHit | Kind::StoreHit | Kind::CameLoadHit | Kind::CameStoreHit
        )
    }
}

/// A request, and of a response what it carries and whether memory or a core sent it.
#[derive(Clone, Copy, Debug)]
pub(crate) enum Message {
    GetSDataOfMemory,
    GetMDataOfMemory,
    PutMDataOfMemory,
    GetSDataEOfMemory,
    GetMDataEOfMemory,
    PutMDataEOfMemory,
    GetSNoDataOfMemory,
    GetMNoDataOfMemory,
    PutMNoDataOfMemory,
    GetSNoDataEOfMemory,
    GetMNoDataEOfMemory,
    PutMNoDataEOfMemory,
    GetSDataOfCore,
    GetMDataOfCore,
    PutMDataOfCore,
    GetSDataEOfCore,
    GetMDataEOfCore,
    PutMDataEOfCore,
    GetSNoDataOfCore,
    GetMNoDataOfCore,
    PutMNoDataOfCore,
    GetSNoDataEOfCore,
    GetMNoDataEOfCore,
    PutMNoDataEOfCore,
}

impl Message {
    fn new(request: Request, payload: Payload, of_core: bool) -> Self
        ensures request { request_of result ≡ request }
        ensures payload { payload_in result ≡ payload }
        ensures sender { is_of_core result ≡ of_core }
    {
        match (of_core, payload, request) {
            (false, Payload::Data, Request::GetS) => Message::GetSDataOfMemory,
            (false, Payload::Data, Request::GetM) => Message::GetMDataOfMemory,
            (false, Payload::Data, Request::PutM) => Message::PutMDataOfMemory,
            (false, Payload::DataE, Request::GetS) => Message::GetSDataEOfMemory,
            (false, Payload::DataE, Request::GetM) => Message::GetMDataEOfMemory,
            (false, Payload::DataE, Request::PutM) => Message::PutMDataEOfMemory,
            (false, Payload::NoData, Request::GetS) => Message::GetSNoDataOfMemory,
            (false, Payload::NoData, Request::GetM) => Message::GetMNoDataOfMemory,
            (false, Payload::NoData, Request::PutM) => Message::PutMNoDataOfMemory,
            (false, Payload::NoDataE, Request::GetS) => Message::GetSNoDataEOfMemory,
            (false, Payload::NoDataE, Request::GetM) => Message::GetMNoDataEOfMemory,
            (false, Payload::NoDataE, Request::PutM) => Message::PutMNoDataEOfMemory,
            (true, Payload::Data, Request::GetS) => Message::GetSDataOfCore,
            (true, Payload::Data, Request::GetM) => Message::GetMDataOfCore,
            (true, Payload::Data, Request::PutM) => Message::PutMDataOfCore,
            (true, Payload::DataE, Request::GetS) => Message::GetSDataEOfCore,
            (true, Payload::DataE, Request::GetM) => Message::GetMDataEOfCore,
            (true, Payload::DataE, Request::PutM) => Message::PutMDataEOfCore,
            (true, Payload::NoData, Request::GetS) => Message::GetSNoDataOfCore,
            (true, Payload::NoData, Request::GetM) => Message::GetMNoDataOfCore,
            (true, Payload::NoData, Request::PutM) => Message::PutMNoDataOfCore,
            (true, Payload::NoDataE, Request::GetS) => Message::GetSNoDataEOfCore,
            (true, Payload::NoDataE, Request::GetM) => Message::GetMNoDataEOfCore,
            (true, Payload::NoDataE, Request::PutM) => Message::PutMNoDataEOfCore,
        }
    }

    fn request(self) -> Request
        ensures { result ≡ request_of self }
    {
        match self {
            Message::GetSDataOfMemory
            | Message::GetSDataEOfMemory
            | Message::GetSNoDataOfMemory
            | Message::GetSNoDataEOfMemory
            | Message::GetSDataOfCore
            | Message::GetSDataEOfCore
            | Message::GetSNoDataOfCore
            | Message::GetSNoDataEOfCore => Request::GetS,
            Message::GetMDataOfMemory
            | Message::GetMDataEOfMemory
            | Message::GetMNoDataOfMemory
            | Message::GetMNoDataEOfMemory
            | Message::GetMDataOfCore
            | Message::GetMDataEOfCore
            | Message::GetMNoDataOfCore
            | Message::GetMNoDataEOfCore => Request::GetM,
            Message::PutMDataOfMemory
            | Message::PutMDataEOfMemory
            | Message::PutMNoDataOfMemory
            | Message::PutMNoDataEOfMemory
            | Message::PutMDataOfCore
            | Message::PutMDataEOfCore
            | Message::PutMNoDataOfCore
            | Message::PutMNoDataEOfCore => Request::PutM,
        }
    }

    fn payload(self) -> Payload
        ensures { result ≡ payload_in self }
    {
        match self {
            Message::GetSDataOfMemory
            | Message::GetMDataOfMemory
            | Message::PutMDataOfMemory
            | Message::GetSDataOfCore
            | Message::GetMDataOfCore
            | Message::PutMDataOfCore => Payload::Data,
            Message::GetSDataEOfMemory
            | Message::GetMDataEOfMemory
            | Message::PutMDataEOfMemory
            | Message::GetSDataEOfCore
            | Message::GetMDataEOfCore
            | Message::PutMDataEOfCore => Payload::DataE,
            Message::GetSNoDataOfMemory
            | Message::GetMNoDataOfMemory
            | Message::PutMNoDataOfMemory
            | Message::GetSNoDataOfCore
            | Message::GetMNoDataOfCore
            | Message::PutMNoDataOfCore => Payload::NoData,
            Message::GetSNoDataEOfMemory
            | Message::GetMNoDataEOfMemory
            | Message::PutMNoDataEOfMemory
            | Message::GetSNoDataEOfCore
            | Message::GetMNoDataEOfCore
            | Message::PutMNoDataEOfCore => Payload::NoDataE,
        }
    }

    fn is_of_core(self) -> bool
        ensures { result ≡ is_of_core self }
    {
        matches!(
            &self,
            Message::GetSDataOfCore
                | Message::GetMDataOfCore
                | Message::PutMDataOfCore
                | Message::GetSDataEOfCore
                | Message::GetMDataEOfCore
                | Message::PutMDataEOfCore
                | Message::GetSNoDataOfCore
                | Message::GetMNoDataOfCore
                | Message::PutMNoDataOfCore
                | Message::GetSNoDataEOfCore
                | Message::GetMNoDataEOfCore
                | Message::PutMNoDataEOfCore
        )
    }
}

/// An item of a machine's shape, in fewer bytes than an `Item`. A field that its kind does not need is arbitrary.
#[derive(Clone, Copy, Debug)]
pub(crate) struct Packed {
    // The operation's value, and its number in six bytes.
    value: u64,
    number_low: u32,
    number_high: u16,
    block: u16,
    did_block: u16,
    core: u8,
    did_core: u8,
    word: u8,
    // The sender, where it is a core.
    from: u8,
    kind: Kind,
    // The request, of a response or alone.
    message: Message,
}

/// What each packed item is made from.
const EMPTY: Packed = Packed {
    value: 0,
    number_low: 0,
    number_high: 0,
    block: 0,
    did_block: 0,
    core: 0,
    did_core: 0,
    word: 0,
    from: 0,
    kind: Kind::Came,
    message: Message::GetSDataOfMemory,
};

/// How many numbers the low four bytes hold.
const LOW: u64 = 1 << 32;

impl Packed {
    /// Packs an item of the largest shape or a smaller one.
    #[inline(always)]
    pub(crate) fn new(item: Item) -> Self
        requires within { IsItemWithin 256 65536 64 item }
        requires number { NumberFits item }
        ensures { unpacked result ≡ item }
    {
        match item {
            Item::Did(did) => Packed::of_operation(Kind::of_operation(did.load, did.hit), did),
            Item::Sent(sent) => Packed::of_request(sent),
            Item::Came(came, None) => EMPTY.with_response(came),
            Item::Came(came, Some(did)) => {
                let kind = Kind::of_response(did.load, did.hit);
                Packed::of_operation(kind, did).with_response(came)
            }
        }
    }

    fn of_operation(kind: Kind, did: Did) -> Self
        requires core { did.core < 256 }
        requires block { did.block < 65536 }
        requires word { did.word < 64 }
        requires number { did.number < 2 ^ 48 }
        requires load { is_load_kind kind ≡ did.load }
        requires hit { is_hit_kind kind ≡ did.hit }
        ensures kind { result.kind ≡ kind }
        ensures operation { operation_in result ≡ did }
    {
        Packed {
            value: did.value,
            number_low: (did.number % LOW) as u32,
            number_high: (did.number / LOW) as u16,
            did_block: did.block as u16,
            did_core: did.core as u8,
            word: did.word as u8,
            kind,
            ..EMPTY
        }
    }

    fn of_request(sent: Sent) -> Self
        requires core { sent.core < 256 }
        requires block { sent.block < 65536 }
        ensures { unpacked result ≡ item.Sent sent }
    {
        Packed {
            block: sent.block as u16,
            core: sent.core as u8,
            kind: Kind::Sent,
            message: Message::new(sent.request, Payload::Data, false),
            ..EMPTY
        }
    }

    // The response, with the operation that it performed, where there is one.
    fn with_response(self, came: Came) -> Self
        requires core { came.core < 256 }
        requires block { came.block < 65536 }
        requires sender { ForSome came.from (λ core. core < 256) }
        ensures kind { result.kind ≡ self.kind }
        ensures response { response_in result ≡ came }
        ensures operation { operation_in result ≡ operation_in self }
    {
        Packed {
            from: came.from.unwrap_or(0) as u8,
            block: came.block as u16,
            core: came.core as u8,
            message: Message::new(came.request, came.payload, came.from.is_some()),
            ..self
        }
    }

    /// The item.
    pub(crate) fn unpack(&self) -> Item
        ensures { result ≡ unpacked self.now }
    {
        match self.kind {
            Kind::Sent => Item::Sent(self.sent()),
            Kind::Came => Item::Came(self.came(), None),
            Kind::LoadHit | Kind::LoadMiss | Kind::StoreHit | Kind::StoreMiss => {
                Item::Did(self.did())
            }
            Kind::CameLoadHit | Kind::CameLoadMiss | Kind::CameStoreHit | Kind::CameStoreMiss =>
                Item::Came(self.came(), Some(self.did())),
        }
    }

    /// The operation that the item performed, if any.
    pub(crate) fn operation(&self) -> Option<Did>
        ensures { result ≡ operation_of (unpacked self.now) }
    {
        self.unpack().did()
    }

    fn did(&self) -> Did
        ensures { result ≡ operation_in self.now }
    {
        Did {
            core: self.did_core as u32,
            number: self.number_low as u64 + self.number_high as u64 * LOW,
            block: self.did_block as u32,
            word: self.word as u32,
            load: self.kind.is_load(),
            value: self.value,
            hit: self.kind.is_hit(),
        }
    }

    fn sent(&self) -> Sent
        ensures { result ≡ request_in self.now }
    {
        Sent {
            core: self.core as u32,
            request: self.message.request(),
            block: self.block as u32,
        }
    }

    fn came(&self) -> Came
        ensures { result ≡ response_in self.now }
    {
        Came {
            core: self.core as u32,
            request: self.message.request(),
            block: self.block as u32,
            from: if self.message.is_of_core() {
                Some(self.from as u32)
            } else {
                None
            },
            payload: self.message.payload(),
        }
    }
}
