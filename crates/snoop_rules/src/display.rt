//! How the words of the protocols are printed: names with underscores, as in the tables.
ghost use Rattle.std.specs.Prelude.{◌≡◌, Some};
ghost use Rattle.std.specs.Fmt.{styled_text};
ghost use Rattle.snoop_rules.specs.Names.{state_name, event_name, memory_state_name, memory_event_name, request_name, payload_name, target_name, action_text, memory_action_text};

use crate::names::{
    CacheAction, CacheEvent, CacheState, MemAction, MemEvent, MemState, Payload, Request, Target,
};
use std::fmt;

impl CacheState {
    /// The state's name in the cache tables.
    pub fn name(self) -> &'static str
        ensures { result.now ≡ state_name self }
    {
        match self {
            CacheState::I => "I",
            CacheState::IsAd => "IS_AD",
            CacheState::IsD => "IS_D",
            CacheState::ImAd => "IM_AD",
            CacheState::ImD => "IM_D",
            CacheState::S => "S",
            CacheState::SmAd => "SM_AD",
            CacheState::SmD => "SM_D",
            CacheState::E => "E",
            CacheState::M => "M",
            CacheState::EiA => "EI_A",
            CacheState::MiA => "MI_A",
            CacheState::IiA => "II_A",
        }
    }
}

impl fmt::Display for CacheState {
    ghost output = { λ state. Some (state_name state) };

    ghost styled_output = { λ state style. Some (styled_text style (state_name state)) };

    fn fmt<W: fmt::Write>(&self, f: &mut fmt::Formatter<W>) -> fmt::Result {
        f.pad(self.name())
    }
}

impl CacheEvent {
    /// The event's name in the cache tables.
    pub fn name(self) -> &'static str
        ensures { result.now ≡ event_name self }
    {
        match self {
            CacheEvent::Load => "Load",
            CacheEvent::Store => "Store",
            CacheEvent::Evict => "Evict",
            CacheEvent::OwnGetS => "OwnGetS",
            CacheEvent::OwnGetM => "OwnGetM",
            CacheEvent::OwnPutM => "OwnPutM",
            CacheEvent::OtherGetS => "OtherGetS",
            CacheEvent::OtherGetM => "OtherGetM",
            CacheEvent::OtherPutM => "OtherPutM",
            CacheEvent::Data => "Data",
            CacheEvent::DataE => "DataE",
        }
    }
}

impl fmt::Display for CacheEvent {
    ghost output = { λ event. Some (event_name event) };

    ghost styled_output = { λ event style. Some (styled_text style (event_name event)) };

    fn fmt<W: fmt::Write>(&self, f: &mut fmt::Formatter<W>) -> fmt::Result {
        f.pad(self.name())
    }
}

impl MemState {
    /// The state's name in the memory tables.
    pub fn name(self) -> &'static str
        ensures { result.now ≡ memory_state_name self }
    {
        match self {
            MemState::IorS => "IorS",
            MemState::M => "M",
            MemState::IorSD => "IorS_D",
            MemState::MD => "M_D",
            MemState::I => "I",
            MemState::S => "S",
            MemState::EorM => "EorM",
            MemState::ID => "I_D",
            MemState::SD => "S_D",
            MemState::EorMD => "EorM_D",
        }
    }
}

impl fmt::Display for MemState {
    ghost output = { λ state. Some (memory_state_name state) };

    ghost styled_output = { λ state style. Some (styled_text style (memory_state_name state)) };

    fn fmt<W: fmt::Write>(&self, f: &mut fmt::Formatter<W>) -> fmt::Result {
        f.pad(self.name())
    }
}

impl MemEvent {
    /// The event's name in the memory tables.
    pub fn name(self) -> &'static str
        ensures { result.now ≡ memory_event_name self }
    {
        match self {
            MemEvent::GetS => "GetS",
            MemEvent::GetM => "GetM",
            MemEvent::PutM => "PutM",
            MemEvent::Data => "Data",
            MemEvent::NoData => "NoData",
            MemEvent::NoDataE => "NoDataE",
        }
    }
}

impl fmt::Display for MemEvent {
    ghost output = { λ event. Some (memory_event_name event) };

    ghost styled_output = { λ event style. Some (styled_text style (memory_event_name event)) };

    fn fmt<W: fmt::Write>(&self, f: &mut fmt::Formatter<W>) -> fmt::Result {
        f.pad(self.name())
    }
}

impl Request {
    /// The request's name.
    pub fn name(self) -> &'static str
        ensures { result.now ≡ request_name self }
    {
        match self {
            Request::GetS => "GetS",
            Request::GetM => "GetM",
            Request::PutM => "PutM",
        }
    }
}

impl fmt::Display for Request {
    ghost output = { λ request. Some (request_name request) };

    ghost styled_output = { λ request style. Some (styled_text style (request_name request)) };

    fn fmt<W: fmt::Write>(&self, f: &mut fmt::Formatter<W>) -> fmt::Result {
        f.pad(self.name())
    }
}

impl Payload {
    /// The payload's name.
    pub fn name(self) -> &'static str
        ensures { result.now ≡ payload_name self }
    {
        match self {
            Payload::Data => "Data",
            Payload::DataE => "DataE",
            Payload::NoData => "NoData",
            Payload::NoDataE => "NoDataE",
        }
    }
}

impl fmt::Display for Payload {
    ghost output = { λ payload. Some (payload_name payload) };

    ghost styled_output = { λ payload style. Some (styled_text style (payload_name payload)) };

    fn fmt<W: fmt::Write>(&self, f: &mut fmt::Formatter<W>) -> fmt::Result {
        f.pad(self.name())
    }
}

impl Target {
    /// To whom, as the tables have it.
    pub fn name(self) -> &'static str
        ensures { result.now ≡ target_name self }
    {
        match self {
            Target::Requestor => "requestor",
            Target::Memory => "memory",
            Target::Both => "requestor and memory",
        }
    }
}

impl fmt::Display for Target {
    ghost output = { λ target. Some (target_name target) };

    ghost styled_output = { λ target style. Some (styled_text style (target_name target)) };

    fn fmt<W: fmt::Write>(&self, f: &mut fmt::Formatter<W>) -> fmt::Result {
        f.pad(self.name())
    }
}

impl fmt::Display for CacheAction {
    ghost output = { λ action. Some (action_text action) };

    fn fmt<W: fmt::Write>(&self, f: &mut fmt::Formatter<W>) -> fmt::Result {
        match self {
            CacheAction::None => f.write_str("none"),
            CacheAction::Hit => f.write_str("hit"),
            CacheAction::Stall => f.write_str("stall"),
            CacheAction::Issue(request) => write!(f, "issue {request}"),
            CacheAction::Drop => f.write_str("drop"),
            CacheAction::FillLoad => f.write_str("fill load"),
            CacheAction::FillStore => f.write_str("fill store"),
            CacheAction::Send(payload, target) => write!(f, "{payload} to {target}"),
        }
    }
}

impl fmt::Display for MemAction {
    ghost output = { λ action. Some (memory_action_text action) };

    fn fmt<W: fmt::Write>(&self, f: &mut fmt::Formatter<W>) -> fmt::Result {
        match self {
            MemAction::None => f.write_str("none"),
            MemAction::Send(payload) => write!(f, "send {payload}"),
            MemAction::Write => f.write_str("write"),
        }
    }
}
