// Are all bytes of a chunk up to 7F? `each_low` asks them one by one; in `all_low` the largest bytes of whole blocks are gathered side by side,
// which is quicker (docs/BENCHMARKS.md).
ghost use Rattle.std.specs.Prelude.{◌&&◌, ◌≡◌, ◌+◌, ◌*◌, ◌≤◌, length};
ghost use Rattle.seven_bit.specs.Parts.{part};
ghost use Rattle.seven_bit.specs.SevenBit.{is_seven_bit};

pub(crate) fn each_low(s: &[u8]) -> bool
    ensures { result ≡ is_seven_bit s.now }
{
    s.iter().all(|&b| b <= 0x7F)
}

#[tactic(auto, unfolding(seven_bit::specs::SevenBit::is_seven_bit))]
pub(crate) fn all_low(s: &[u8]) -> bool
    requires { 8 ≤ length s.now }
    ensures { result ≡ is_seven_bit s.now }
{
    let mut largest = [0u8; 32];
    gather_all(&mut largest, s);
    let mut of_both = [0u8; 16];
    gather_ends(&mut of_both, &largest, 16);
    // Their number is known here, and the compiler asks them at once.
    each_low(&of_both)
}

// Gathers all bytes into 32 others.
fn gather_all(largest: &mut [u8], s: &[u8])
    requires { (length largest.old ≡ 32) × (8 ≤ length s.now) }
    ensures { is_seven_bit largest.new ≡ (is_seven_bit largest.old && is_seven_bit s.now) }
{
    if s.len() >= 32 {
        gather_blocks(largest, s);
    } else if s.len() >= 16 {
        gather_ends(largest, s, 16);
    } else {
        gather_ends(largest, s, 8);
    }
}

// The same block by block. The last block may overlap the one before it. A `for` over the blocks' numbers is unrolled by the compiler, which
// makes chunks of 40 to 241 bytes some 1 ns slower.
fn gather_blocks(largest: &mut [u8], s: &[u8])
    requires { (length largest.old ≡ 32) × (32 ≤ length s.now) }
    ensures { is_seven_bit largest.new ≡ (is_seven_bit largest.old && is_seven_bit s.now) }
{
    let mut at = 0;
    while at + 32 <= s.len() {
        gather(largest, s, at, 32);
        at += 32;
    }
    gather(largest, s, s.len() - 32, 32);
}

// The same by the first k bytes and the last k, which may overlap.
fn gather_ends(largest: &mut [u8], s: &[u8], k: usize)
    requires { (k ≤ length largest.old) × (k ≤ length s.now) × (length s.now ≤ 2 * k) }
    ensures { is_seven_bit largest.new ≡ (is_seven_bit largest.old && is_seven_bit s.now) }
{
    gather(largest, s, 0, k);
    gather(largest, s, s.len() - k, k);
}

// Gathers the k bytes from at on into the first k others, each of which becomes the larger of the two.
fn gather(largest: &mut [u8], s: &[u8], at: usize, k: usize)
    requires { (k ≤ length largest.old) × (at + k ≤ length s.now) }
    ensures { is_seven_bit largest.new ≡ (is_seven_bit largest.old && is_seven_bit (part at k s.now)) }
{
    for i in 0..k {
        largest[i] = largest[i].max(s[at + i]);
    }
}
