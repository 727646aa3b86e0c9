//! The limits of the gateway and the times of its message layer, each once: code and definitions
//! cite them from here.
//!
//! Moments and times are milliseconds, lengths are bytes.
#![tactic(auto)]

/// The least time after which a message is sent again (ACK_TIMEOUT, RFC 7252 section 4.8).
pub const ACK_TIMEOUT: u64 = 2000;

/// The longest such time: ACK_TIMEOUT times ACK_RANDOM_FACTOR (RFC 7252 section 4.8).
pub const LONGEST_ACK_TIMEOUT: u64 = 3000;

/// How often a message that nobody answers is sent again (MAX_RETRANSMIT, RFC 7252 section 4.8).
pub const MAX_RETRANSMIT: u8 = 4;

/// How long a message ID stands for one message (EXCHANGE_LIFETIME, RFC 7252 section 4.8.2).
pub const EXCHANGE_LIFETIME: u64 = 247_000;

/// From the first sending of a message until its sender gives up the wait for an answer
/// (MAX_TRANSMIT_WAIT, RFC 7252 section 4.8.2).
pub const MAX_TRANSMIT_WAIT: u64 = 93_000;

/// After this time a message ID may be used again: twice EXCHANGE_LIFETIME, since the last copy may
/// be heard that much later (RFC 7252 section 4.4).
pub const MESSAGE_ID_LIFETIME: u64 = 494_000;

/// The longest datagram that is read.
pub const MAX_DATAGRAM_LEN: usize = 2048;

/// How many messages wait for their turn at one endpoint.
pub const MAX_WAITING: usize = 64;

/// How many message IDs are in use to one endpoint.
pub const MAX_MESSAGE_IDS: usize = 32_768;

/// How many messages of one endpoint are remembered.
pub const MAX_REMEMBERED: usize = 1024;

/// How many clients the demonstration device knows.
pub const MAX_CLIENTS: usize = 256;

/// How many responses are stored.
pub const MAX_STORED: usize = 256;

/// How many connections are open.
pub const MAX_CONNECTIONS: usize = 256;

/// How many exchanges are open.
pub const MAX_EXCHANGES: usize = 256;

/// The longest message that asks a device: 960 bytes of its target's options, 1,024 of its body,
/// and 40 for the header, the token, the other options and the payload marker.
pub const MAX_MESSAGE_LEN: usize = 2024;

/// What the entry of an answer counts at most.
pub const MAX_ANSWER_SIZE: u64 = 90_000;

/// How many entries a journal has.
pub const MAX_ENTRIES: u64 = 65_536;

/// How many bytes the entries of a journal count.
pub const MAX_JOURNAL_LEN: u64 = 268_435_456;

/// From how many entries on a journal counts as nearly full: about a tenth is left.
pub const NEARLY_ALL_ENTRIES: u64 = 58_982;

/// From how many bytes on it does: a quarter is left.
pub const NEARLY_ALL_LEN: u64 = 201_326_592;

/// How many copies of an older journal's entries a journal begins with at most: half of it.
pub const MAX_COPIES: u64 = 32_768;

/// How many bytes these count at most.
pub const MAX_COPIES_LEN: u64 = 134_217_728;

/// How many tokens have been issued at most, and how many connections opened, when a journal
/// begins. Each is numbered in four bytes, and one journal numbers at most 65,536 of each.
pub const MAX_NUMBERED: u32 = 4_294_836_224;

/// What a request counts: its method, its target, its fields and its body. No reader of connections
/// gives one of more, with its head of 8,192 bytes and its body of 65,536.
pub const MAX_REQUEST_SIZE: u64 = 2_097_152;

/// How many bytes of a connection wait unread.
pub const MAX_UNREAD: usize = 1_048_576;

/// The longest body, of a request, of a response, and of a device's resource.
pub const MAX_BODY_LEN: usize = 65_536;

/// The last moment, in milliseconds: a later one is taken for this.
pub const LAST_MOMENT: u64 = 1 << 62;
