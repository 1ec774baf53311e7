// A command, the payload of a data frame (document 01, "Bytes on the line": "Command payload"): eight bytes in front, then its data.
#![tactic(auto)]

pub mod writer; // a command into a lent part
pub mod reader; // a command out of a payload
mod matching; // which fields answer which

// A request ID: 16 bits, apart from the 8-bit sequence IDs.
#[derive(Clone, Copy, Default, PartialEq, Eq)]
pub struct RequestId(pub u16);

// What a caller chooses: target category, target ID, source ID, instance ID and command ID.
#[derive(Clone, Copy, Default, PartialEq, Eq)]
pub struct Fields {
    pub tc: u8,
    pub tid: u8,
    pub sid: u8,
    pub iid: u8,
    pub cid: u8,
}

// A command without its data.
#[derive(Clone, Copy)]
pub struct Head {
    pub fields: Fields,
    pub id: RequestId,
}

// The first byte of a command.
pub const COMMAND_MARK: u8 = 0x80;

// The bytes before the data: the mark, TC, TID, SID, IID, RQID (2) and CID.
pub const HEAD_LENGTH: usize = 8;

// The most data of a command, in bytes ("0 to 248 data bytes").
pub const MAX_DATA: usize = 248;
