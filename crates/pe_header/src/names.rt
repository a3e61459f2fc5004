// Names as 16-bit units, escapes resolved. A name is told by the place behind its opening quotation mark.
// `table` and `text` stay two parameters: a struct's ghost field can't hold `RightTable`, which antt doesn't prove to be a proposition (tried).
ghost use Rattle.std.specs.Prelude.{◌≡◌, true, false, List, ◌+◌, ◌<◌, ◌≤◌, length, take, get_or, IfSome, MatchOption};
ghost use Rattle.flat_json.specs.Table.{RightTable};
ghost use Rattle.flat_json.specs.Tree.{Piece, is_hex, Entry};
ghost use Rattle.pe_header.specs.Find.{units, short_unit, hex_value, same_units, repeated};
ghost use Rattle.pe_header.specs.Names.{NameAt, PairAt, EscapeAt, First, NamesAt, print_of, Lacks, IsAmong};

use flat_json::states::{IN_NAME, NAME_ESCAPE};
use flat_json::step;

// Blocks of so many fingerprints are passed at once.
const LONG_BLOCK: usize = 32;

const SHORT_BLOCK: usize = 8;

// A unit of a name, and the place behind it.
#[derive(Clone, Copy)]
struct Unit {
    unit: u32,
    next: usize,
}

// The unit of an escape of one letter. Escapes are rare: this and `hex_pair` are kept out of the loops that read names. (`escaped_at` kept out as a
// whole made names of many escapes slower, since its answer goes through memory.)
#[inline(never)]
#[tactic(auto, unfolding(crate::specs::Find::short_unit))]
fn short_unit(c: u8) -> u32
    ensures upper_bound { result < 256 }
    ensures value { result ≡ short_unit c }
{
    match c {
        0x62 => 0x08,
        0x66 => 0x0C,
        0x6E => 0x0A,
        0x72 => 0x0D,
        0x74 => 0x09,
        _ => c as u32,
    }
}

// Letters of either size lie nine behind the low four bits of their code.
#[tactic(auto, using(crate::proofs::UnitLaws::hex_digit, crate::proofs::UnitLaws::hex_letter))]
fn hex_value(b: u8) -> u32
    ensures upper_bound { result < 25 }
    ensures value { is_hex b ≡ true → result ≡ hex_value b }
{
    let low = (b % 16) as u32;
    if b <= 0x39 { low } else { low + 9 }
}

// Two hexadecimal digits.
#[inline(never)]
fn hex_pair(text: &[u8], at: usize) -> u32
    requires { at + 1 < length text.now }
    ensures upper_bound { result < 409 }
    ensures pair_at { PairAt text.now at result }
{
    hex_value(text[at]) * 16 + hex_value(text[at + 1])
}

// The unit of an escape, from behind its reverse solidus; None if there is none.
fn escaped_at(table: &[u8; 3840], text: &[u8], at: usize) -> Option<Unit>
    requires { RightTable table.now × (at ≤ length text.now) }
    ensures within { IfSome result (λ u. (at ≤ u.next) × (u.next ≤ length text.now) × (u.unit < 131072)) }
    ensures escape_at { EscapeAt text.now at result }
{
    if at == text.len() {
        return None;
    }
    let c = text[at];
    if step(table, NAME_ESCAPE, c) == IN_NAME {
        return Some(Unit {
            unit: short_unit(c),
            next: at + 1,
        });
    }
    if text.len() - at < 5 {
        return None;
    }
    Some(Unit {
        unit: hex_pair(text, at + 1) * 256 + hex_pair(text, at + 3),
        next: at + 5,
    })
}

// The next unit of a name; None where the name is over.
fn unit_at(table: &[u8; 3840], text: &[u8], at: usize) -> Option<Unit>
    requires { RightTable table.now }
    ensures within { IfSome result (λ u. (at < u.next) × (u.next ≤ length text.now) × (u.unit < 131072)) }
    ensures unit_at { First text.now at result }
{
    if text.len() <= at {
        return None;
    }
    let b = text[at];
    let state = step(table, IN_NAME, b);
    if state == IN_NAME {
        return Some(Unit {
            unit: b as u32,
            next: at + 1,
        });
    }
    if state == NAME_ESCAPE {
        return escaped_at(table, text, at + 1);
    }
    None
}

// Do two names have the same units?
fn same_name(table: &[u8; 3840], text: &[u8], one: usize, other: usize) -> bool
    requires { RightTable table.now }
    ensures { (ps qs : List Piece) → NameAt text.now one ps → NameAt text.now other qs → result ≡ same_units (units ps) (units qs) }
{
    let mut i = one;
    let mut j = other;
    while let Some(a) = unit_at(table, text, i) {
        match unit_at(table, text, j) {
            Some(b) if a.unit == b.unit => {
                i = a.next;
                j = b.next;
            }
            _ => return false,
        }
    }
    unit_at(table, text, j).is_none()
}

// Are these the units of a name?
pub(crate) fn is_named(table: &[u8; 3840], text: &[u8], at: usize, name: &[u8]) -> bool
    requires { RightTable table.now }
    ensures { (ps : List Piece) → NameAt text.now at ps → result ≡ same_units (units ps) name.now }
{
    let mut i = at;
    for b in name {
        match unit_at(table, text, i) {
            Some(a) if a.unit == *b as u32 => i = a.next,
            _ => return false,
        }
    }
    unit_at(table, text, i).is_none()
}

// A number that equal names have in common.
fn fingerprint(table: &[u8; 3840], text: &[u8], at: usize) -> u16
    requires { RightTable table.now }
    ensures { (ps : List Piece) → NameAt text.now at ps → result ≡ print_of (units ps) }
{
    let mut print = 0u32;
    let mut i = at;
    while let Some(a) = unit_at(table, text, i) {
        print = (print * 40503 + a.unit) % 65536;
        i = a.next;
    }
    print as u16
}

// Is one of these fingerprints the one that is asked for? The loop has no early end, so that many are asked at once.
fn has_print(prints: &[u16], print: u16) -> bool
    ensures { result ≡ false → Lacks prints.now print 0 (length prints.now) }
{
    let mut found = false;
    for p in prints {
        found |= *p == print;
    }
    found
}

// Passes whole blocks of other fingerprints. A while, as in syx's `skip`, where `chunks_exact(block).take_while(..).count()` was slower.
fn pass_blocks(prints: &[u16], from: usize, to: usize, print: u16, block: usize) -> usize
    requires { (from ≤ to) × (to ≤ length prints.now) × (0 < block) }
    ensures { (from ≤ result) × (result ≤ to) × Lacks prints.now print from result }
{
    let mut i = from;
    while block <= to - i {
        if has_print(&prints[i..i + block], print) {
            return i;
        }
        i += block;
    }
    i
}

// The next place with a fingerprint: long blocks of others are passed first, then short ones.
// Proved is that none with it is passed over: whether names are the same is for their units to say.
fn next_equal(prints: &[u16], from: usize, to: usize, print: u16) -> Option<usize>
    requires { (from ≤ to) × (to ≤ length prints.now) }
    ensures { MatchOption result (Lacks prints.now print from to) (λ at. (from ≤ at) × (at < to) × Lacks prints.now print from at) }
{
    let near = pass_blocks(prints, from, to, print, LONG_BLOCK);
    let nearer = pass_blocks(prints, near, to, print, SHORT_BLOCK);
    let at = pass_blocks(prints, nearer, to, print, 1);
    if at < to { Some(at) } else { None }
}

// Is name k, whose fingerprint is given, one of the names before it? Only where fingerprints are equal are units compared.
fn seen(
    table: &[u8; 3840],
    text: &[u8],
    names: &[u16],
    prints: &[u16],
    k: usize,
    print: u16,
) -> bool
    requires { RightTable table.now × (k < length names.now) × (k ≤ length prints.now) }
    ensures { (ps : List Piece) → NameAt text.now (get_or names.now k 0) ps → print ≡ print_of (units ps)
        → IsAmong text.now (take k names.now) (take k prints.now) ps result }
{
    let mut j = 0;
    while let Some(at) = next_equal(prints, j, k, print) {
        if same_name(table, text, names[at] as usize, names[k] as usize) {
            return true;
        }
        j = at + 1;
    }
    false
}

// Does one of the names stand twice? Their fingerprints are kept in `prints`.
pub(crate) fn stands_twice(
    table: &[u8; 3840],
    text: &[u8],
    names: &[u16],
    prints: &mut [u16],
    count: usize,
) -> bool
    requires { RightTable table.now × (count ≤ length names.now) × (count ≤ length prints.old) }
    ensures { (es : List Entry) → NamesAt text.now (take count names.now) es → result ≡ repeated es }
{
    for k in 0..count {
        let print = fingerprint(table, text, names[k] as usize);
        if seen(table, text, names, prints, k, print) {
            return true;
        }
        prints[k] = print;
    }
    false
}
