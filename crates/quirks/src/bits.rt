// Each quirk's bit in a set: p0f's QUIRK_*. The contract of `Quirk::bit` holds them to document 01's numbers.
pub const ECN: u32 = 0x0000_0001;

pub const DF: u32 = 0x0000_0002;

pub const NON_ZERO_ID: u32 = 0x0000_0004;

pub const ZERO_ID: u32 = 0x0000_0008;

pub const MUST_BE_ZERO: u32 = 0x0000_0010;

pub const FLOW_ID: u32 = 0x0000_0020;

pub const SEQ_NUM_ZERO: u32 = 0x0000_1000;

pub const ACK_NUM_NON_ZERO: u32 = 0x0000_2000;

pub const ACK_NUM_ZERO: u32 = 0x0000_4000;

pub const NON_ZERO_URG: u32 = 0x0000_8000;

pub const URG: u32 = 0x0001_0000;

pub const PUSH: u32 = 0x0002_0000;

pub const OWN_TIMESTAMP_ZERO: u32 = 0x0100_0000;

pub const PEER_TIMESTAMP_NON_ZERO: u32 = 0x0200_0000;

pub const TRAILINIG_NON_ZERO: u32 = 0x0400_0000;

pub const EXCESSIVE_WINDOW_SCALING: u32 = 0x0800_0000;

pub const OPT_BAD: u32 = 0x1000_0000;
