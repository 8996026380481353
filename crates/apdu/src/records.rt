// The ten messages. Where a field may be absent, has_.. tells whether it is there. `rows` counts the attribute rows of the message, nested ones too: at
// most 32 where the list is there, and 23 above. A BST and a VST have the rows of their entries.

// Action or event request: `service` is the action's or the event's type.
#[derive(Clone, Copy, Debug, PartialEq, Eq)]
pub struct Request {
    pub mode: bool,
    pub eid: u64,
    pub service: u64,
    pub has_credentials: bool,
    pub credentials: usize,
    pub credentials_length: u64,
    pub has_parameter: bool,
    pub kind: u64,
    pub n: u64,
    pub start: usize,
    pub rows: usize,
    pub has_iid: bool,
    pub iid: u64,
}

#[derive(Clone, Copy, Debug, PartialEq, Eq)]
pub struct ActionResponse {
    pub fill: u64,
    pub eid: u64,
    pub has_iid: bool,
    pub iid: u64,
    pub has_parameter: bool,
    pub kind: u64,
    pub n: u64,
    pub start: usize,
    pub rows: usize,
    pub has_ret: bool,
    pub ret: u64,
}

// Event or set response.
#[derive(Clone, Copy, Debug, PartialEq, Eq)]
pub struct Response {
    pub fill: u64,
    pub eid: u64,
    pub has_iid: bool,
    pub iid: u64,
    pub has_ret: bool,
    pub ret: u64,
}

// `count` attributes, whose rows stand beside the message.
#[derive(Clone, Copy, Debug, PartialEq, Eq)]
pub struct SetRequest {
    pub fill: u64,
    pub mode: bool,
    pub eid: u64,
    pub has_credentials: bool,
    pub credentials: usize,
    pub credentials_length: u64,
    pub count: u64,
    pub rows: usize,
    pub has_iid: bool,
    pub iid: u64,
}

// `count` ids from bit place `ids` on.
#[derive(Clone, Copy, Debug, PartialEq, Eq)]
pub struct GetRequest {
    pub fill: u64,
    pub eid: u64,
    pub has_credentials: bool,
    pub credentials: usize,
    pub credentials_length: u64,
    pub has_iid: bool,
    pub iid: u64,
    pub has_ids: bool,
    pub ids: usize,
    pub count: u64,
}

#[derive(Clone, Copy, Debug, PartialEq, Eq)]
pub struct GetResponse {
    pub fill: u64,
    pub eid: u64,
    pub has_iid: bool,
    pub iid: u64,
    pub has_attributes: bool,
    pub count: u64,
    pub rows: usize,
    pub has_ret: bool,
    pub ret: u64,
}

// The entries of the mandatory applications, and behind them those of the others; `profile_count` profiles from bit place `profiles` on.
#[derive(Clone, Copy, Debug, PartialEq, Eq)]
pub struct Bst {
    pub manufacturer: u64,
    pub individual: u64,
    pub time: u64,
    pub profile: u64,
    pub mandatory: u64,
    pub has_others: bool,
    pub others: u64,
    pub profiles: usize,
    pub profile_count: u64,
}

#[derive(Clone, Copy, Debug, PartialEq, Eq)]
pub struct Vst {
    pub fill: u64,
    pub profile: u64,
    pub applications: u64,
    pub class: u64,
    pub maker: u64,
    pub has_status: bool,
    pub status: u64,
}

#[derive(Clone, Copy, Debug, PartialEq, Eq)]
pub enum Message {
    ActionRequest(Request),
    ActionResponse(ActionResponse),
    EventRequest(Request),
    EventResponse(Response),
    SetRequest(SetRequest),
    SetResponse(Response),
    GetRequest(GetRequest),
    GetResponse(GetResponse),
    Bst(Bst),
    Vst(Vst),
}
