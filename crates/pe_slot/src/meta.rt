// A slot's records as structs.
ghost use Rattle.std.specs.Prelude.{◌≡◌, ◌==◌, map, take};
ghost use Rattle.pe_slot.specs.Meta.{meta_of, word_of};
ghost use Rattle.pe_slot.specs.Memory.{meta_number};
ghost use Rattle.pe_slot.specs.Records.{place_of};

use super::layout::MAX_FRAGMENT_RECORDS;

// A record: chunk number, length, and offset in the arena. In this order it has 8 bytes.
#[derive(Clone, Copy, Debug, PartialEq, Eq)]
pub struct FragmentMeta {
    pub chunk_num: u16,
    pub len: u16,
    pub offset: u32,
}

// The record of a word.
impl From<u64> for FragmentMeta {
    ghost from_gives = { λ x m. m ≡ meta_of x };

    fn from(x: u64) -> FragmentMeta {
        FragmentMeta {
            chunk_num: (x % 65536) as u16,
            len: (x / 65536 % 65536) as u16,
            offset: (x / 4_294_967_296) as u32,
        }
    }
}

// The word of a record.
impl From<FragmentMeta> for u64 {
    ghost from_gives = { λ m x. x ≡ word_of m };

    fn from(m: FragmentMeta) -> u64 {
        m.chunk_num as u64 + 65536 * m.len as u64 + 4_294_967_296 * m.offset as u64
    }
}

// The place of the first record with a chunk number, if there is one.
pub fn position(index: &[FragmentMeta], chunk_num: u16) -> Option<usize>
    ensures { result ≡ place_of chunk_num (map word_of index.now) }
{
    index.iter().position(
        |m| -> bool
            ensures { result ≡ meta_number (word_of m.now) == chunk_num }
        { m.chunk_num == chunk_num },
    )
}

// The lookup over lent numbers, by way of their structs: of the first 2,048, the most that a slot has.
pub fn position_of(index: &[u64], chunk_num: u16) -> Option<usize>
    ensures { result ≡ place_of chunk_num (take 2048 index.now) }
{
    let mut table = [FragmentMeta::from(0); MAX_FRAGMENT_RECORDS];
    let len = index.len().min(MAX_FRAGMENT_RECORDS);
    for (i, x) in index[..len].iter().enumerate() {
        table[i] = FragmentMeta::from(*x);
    }
    position(&table[..len], chunk_num)
}
