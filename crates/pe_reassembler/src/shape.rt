// The shape of a table: peers, and for each of their four slots header bytes, body bytes and fragment records. C programs pass it by value.
#[repr(C)]
#[derive(Clone, Copy)]
pub struct Shape {
    pub max_peers: usize,
    pub header_bytes: usize,
    pub tx_bytes: usize,
    pub fragment_records: usize,
}
