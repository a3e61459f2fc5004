// How a stage lies in lent memory: whose turn is next, and the words of each place.
ghost use Rattle.std.specs.Prelude.{◌≡◌, ◌<◌, [], ◌∷◌, length, MatchResult};
ghost use Rattle.pe_wire.specs.declared.error.PeError.TheVariants.{BadShape};
ghost use Rattle.pe_stage.specs.declared.error.StageError.TheVariants.{Pe};
ghost use Rattle.pe_stage.specs.Stage.{holding, is_free, place_at, next_waiting};
ghost use Rattle.pe_stage.specs.Words.{place_words_at, stage_in, stage_words, words_of, HasPlaces, placed};

use crate::error::StageError;
use pe_wire::error::PeError;

// Whose turn is next, and where the places start.
pub(crate) const TURN: usize = 0;

const PLACES_AT: usize = 1;

pub(crate) const PLACES: usize = 16;

const PLACE_WORDS: usize = 7;

pub(crate) const STAGE_WORDS: usize = PLACES_AT + PLACE_WORDS * PLACES;

// A list on its way out: where its header and its body lie in the lent buffer, its request id, and the limit of a message. C programs pass it by
// value. Numbers that are too large for the cutter are refused or clamped like those that are just too large, and never cut short.
#[repr(C)]
#[derive(Clone, Copy, Debug, PartialEq, Eq)]
pub struct Outgoing {
    pub header_at: u64,
    pub header_len: u64,
    pub body_at: u64,
    pub body_len: u64,
    pub request_id: u64,
    pub max_sysex: u64,
}

// What a place notes: its list, and the number of the chunk that leaves next, 0 where nobody waits, as it lies in memory that C programs lend.
#[derive(Clone, Copy)]
pub(crate) struct Place {
    pub list: Outgoing,
    pub next_chunk: u64,
}

impl Place {
    pub fn is_free(self) -> bool
        ensures { result ≡ is_free (holding self.list self.next_chunk) }
    {
        self.next_chunk == 0
    }

    // As it lies in a stage's memory.
    #[tactic(auto, unfolding(crate::specs::Words::words_of))]
    fn to_words(self) -> [u64; PLACE_WORDS]
        ensures { result ≡ words_of (holding self.list self.next_chunk ∷ []) }
    {
        [
            self.list.header_at,
            self.list.header_len,
            self.list.body_at,
            self.list.body_len,
            self.list.request_id,
            self.list.max_sysex,
            self.next_chunk,
        ]
    }
}

// Refuses memory that is too short for a stage.
pub(crate) fn check_memory(stage: &[u64]) -> Result<(), StageError>
    ensures { MatchResult result (λ _. HasPlaces stage.now)
        (λ e. (length stage.now < stage_words) × (e ≡ Pe BadShape)) }
{
    if stage.len() < STAGE_WORDS {
        return Err(StageError::Pe(PeError::BadShape));
    }
    Ok(())
}

// Where the words of a place start.
fn words_at(p: usize) -> usize
    requires { p < 16 }
    ensures { result ≡ place_words_at p }
{
    PLACES_AT + PLACE_WORDS * p
}

// The place that a stage's memory holds.
#[tactic(auto, using(crate::proofs::WordLaws::place_seen))]
pub(crate) fn place_at(stage: &[u64], p: usize) -> Place
    requires { HasPlaces stage.now × (p < 16) }
    ensures { holding result.list result.next_chunk ≡ place_at (stage_in stage.now) p }
{
    let words = &stage[words_at(p)..];
    Place {
        list: Outgoing {
            header_at: words[0],
            header_len: words[1],
            body_at: words[2],
            body_len: words[3],
            request_id: words[4],
            max_sysex: words[5],
        },
        next_chunk: words[6],
    }
}

// Stores a place.
#[tactic(auto, using(crate::proofs::WordLaws::placed_stores))]
pub(crate) fn put_place(stage: &mut [u64], p: usize, place: Place)
    requires { HasPlaces stage.old × (p < 16) }
    ensures { stage.new ≡ placed p place.list place.next_chunk stage.old }
{
    let at = words_at(p);
    stage[at..at + PLACE_WORDS].copy_from_slice(&place.to_words());
}

// The first place, going round from the one whose turn is next, from which something is to leave.
#[tactic(auto, using(crate::proofs::WordLaws::asks))]
pub(crate) fn next_waiting(stage: &[u64]) -> Option<usize>
    requires { HasPlaces stage.now }
    ensures { result ≡ next_waiting (stage_in stage.now) }
{
    let first = (stage[TURN] % PLACES as u64) as usize;
    for asked in 0..PLACES {
        let p = (first + asked) % PLACES;
        if !place_at(stage, p).is_free() {
            return Some(p);
        }
    }
    None
}
