// How a slot lies in lent memory: its words, each with its place, and the most that its rooms have.

pub const SLOT_WORDS: usize = 9;

// The places of its words. They stay a slice of numbers: C lends them so, and pe_reassembler a part of its own.
pub const ACTIVE: usize = 0;

pub const REQUEST_ID: usize = 1;

pub const LAST_ACTIVITY_MS: usize = 2;

pub const LRU_TICK: usize = 3;

pub const NUM_CHUNKS: usize = 4;

pub const HEADER_SET: usize = 5;

pub const HEADER_LEN: usize = 6;

pub const INDEX_LEN: usize = 7;

pub const PROPERTY_BYTES: usize = 8;

// Its words by their names.
#[derive(Clone, Copy)]
pub struct TxSlot {
    pub active: u64,
    pub request_id: u64,
    pub last_activity_ms: u64,
    pub lru_tick: u64,
    pub num_chunks: u64,
    pub header_set: u64,
    pub header_len: u64,
    pub index_len: u64,
    pub property_bytes: u64,
}

// Full size: the arena and the records; the header room is MAX_HEADER_BYTES of pe_frame.
pub const MAX_TX_BYTES: usize = 65_536;

pub const MAX_FRAGMENT_RECORDS: usize = 2048;
