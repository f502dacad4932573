//! The names of the tables as fields of a record, each with the comma after it, so that they are appended in one piece.
ghost use Rattle.std.specs.Prelude.{◌≡◌, ◌++◌, codes};
ghost use Rattle.snoop_rules.specs.Names.{action_text, event_name, memory_action_text, memory_event_name, memory_state_name, payload_name, request_name, state_name, target_name};

use snoop_rules::{
    CacheAction, CacheEvent, CacheState, MemAction, MemEvent, MemState, Payload, Request, Target,
};

pub(crate) fn state_field(state: CacheState) -> &'static str
    ensures { result.now ≡ state_name state ++ codes "," }
{
    match state {
        CacheState::I => "I,",
        CacheState::IsAd => "IS_AD,",
        CacheState::IsD => "IS_D,",
        CacheState::ImAd => "IM_AD,",
        CacheState::ImD => "IM_D,",
        CacheState::S => "S,",
        CacheState::SmAd => "SM_AD,",
        CacheState::SmD => "SM_D,",
        CacheState::E => "E,",
        CacheState::M => "M,",
        CacheState::EiA => "EI_A,",
        CacheState::MiA => "MI_A,",
        CacheState::IiA => "II_A,",
    }
}

pub(crate) fn event_field(event: CacheEvent) -> &'static str
    ensures { result.now ≡ event_name event ++ codes "," }
{
    match event {
        CacheEvent::Load => "Load,",
        CacheEvent::Store => "Store,",
        CacheEvent::Evict => "Evict,",
        CacheEvent::OwnGetS => "OwnGetS,",
        CacheEvent::OwnGetM => "OwnGetM,",
        CacheEvent::OwnPutM => "OwnPutM,",
        CacheEvent::OtherGetS => "OtherGetS,",
        CacheEvent::OtherGetM => "OtherGetM,",
        CacheEvent::OtherPutM => "OtherPutM,",
        CacheEvent::Data => "Data,",
        CacheEvent::DataE => "DataE,",
    }
}

pub(crate) fn memory_state_field(state: MemState) -> &'static str
    ensures { result.now ≡ memory_state_name state ++ codes "," }
{
    match state {
        MemState::IorS => "IorS,",
        MemState::M => "M,",
        MemState::IorSD => "IorS_D,",
        MemState::MD => "M_D,",
        MemState::I => "I,",
        MemState::S => "S,",
        MemState::EorM => "EorM,",
        MemState::ID => "I_D,",
        MemState::SD => "S_D,",
        MemState::EorMD => "EorM_D,",
    }
}

pub(crate) fn memory_event_field(event: MemEvent) -> &'static str
    ensures { result.now ≡ memory_event_name event ++ codes "," }
{
    match event {
        MemEvent::GetS => "GetS,",
        MemEvent::GetM => "GetM,",
        MemEvent::PutM => "PutM,",
        MemEvent::Data => "Data,",
        MemEvent::NoData => "NoData,",
        MemEvent::NoDataE => "NoDataE,",
    }
}

fn issued_field(request: Request) -> &'static str
    ensures { result.now ≡ codes "issue " ++ request_name request ++ codes "," }
{
    match request {
        Request::GetS => "issue GetS,",
        Request::GetM => "issue GetM,",
        Request::PutM => "issue PutM,",
    }
}

fn sent_field(payload: Payload, target: Target) -> &'static str
    ensures { result.now ≡ payload_name payload ++ codes " to " ++ target_name target ++ codes "," }
{
    match (payload, target) {
        (Payload::Data, Target::Requestor) => "Data to requestor,",
        (Payload::Data, Target::Memory) => "Data to memory,",
        (Payload::Data, Target::Both) => "Data to requestor and memory,",
        (Payload::DataE, Target::Requestor) => "DataE to requestor,",
        (Payload::DataE, Target::Memory) => "DataE to memory,",
        (Payload::DataE, Target::Both) => "DataE to requestor and memory,",
        (Payload::NoData, Target::Requestor) => "NoData to requestor,",
        (Payload::NoData, Target::Memory) => "NoData to memory,",
        (Payload::NoData, Target::Both) => "NoData to requestor and memory,",
        (Payload::NoDataE, Target::Requestor) => "NoDataE to requestor,",
        (Payload::NoDataE, Target::Memory) => "NoDataE to memory,",
        (Payload::NoDataE, Target::Both) => "NoDataE to requestor and memory,",
    }
}

/// What a cache controller does.
pub(crate) fn action_field(action: CacheAction) -> &'static str
    ensures { result.now ≡ action_text action ++ codes "," }
{
    match action {
        CacheAction::None => "none,",
        CacheAction::Hit => "hit,",
        CacheAction::Stall => "stall,",
        CacheAction::Issue(request) => issued_field(request),
        CacheAction::Drop => "drop,",
        CacheAction::FillLoad => "fill load,",
        CacheAction::FillStore => "fill store,",
        CacheAction::Send(payload, target) => sent_field(payload, target),
    }
}

fn memory_sent_field(payload: Payload) -> &'static str
    ensures { result.now ≡ codes "send " ++ payload_name payload ++ codes "," }
{
    match payload {
        Payload::Data => "send Data,",
        Payload::DataE => "send DataE,",
        Payload::NoData => "send NoData,",
        Payload::NoDataE => "send NoDataE,",
    }
}

/// What the memory controller does.
pub(crate) fn memory_action_field(action: MemAction) -> &'static str
    ensures { result.now ≡ memory_action_text action ++ codes "," }
{
    match action {
        MemAction::None => "none,",
        MemAction::Send(payload) => memory_sent_field(payload),
        MemAction::Write => "write,",
    }
}
