// What a call answers, as a struct of numbers: include/midici_pe.h has these structs, with a flag and zeros in place of an Option.
ghost use Rattle.std.specs.Prelude.{◌≡◌};
ghost use Rattle.seven_bit.specs.Reply.{told};
ghost use Rattle.pe_slot.specs.Feed.{fed_told};
ghost use Rattle.pe_reassembler.specs.Calls.{stats_told};
ghost use Rattle.hub.specs.Answers.{answer_of, fed_answer_of, stats_answer_of};

use pe_reassembler::calls::MemoryStats;
use pe_slot::slot::Whole;
use pe_wire::error::PeError;
use seven_bit::refusal::Refusal;

// The refusal's number, 0 where there is none; the kind that refusal 24 carries, else 0; what is counted, 0 with a refusal.
#[repr(C)]
#[derive(Clone, Copy, Default)]
pub struct Answer {
    pub refusal: u8,
    pub value: u8,
    pub count: u64,
}

impl<E: Refusal + Copy> From<Result<u64, E>> for Answer {
    ghost from_gives = { λ r answer. answer ≡ answer_of (told (λ n. n) E.number E.value r) };

    fn from(r: Result<u64, E>) -> Answer {
        match r {
            Ok(count) => Answer {
                count,
                ..Answer::default()
            },
            Err(e) => Answer {
                refusal: e.number(),
                value: e.value(),
                ..Answer::default()
            },
        }
    }
}

// What feeding a chunk answers: whole is 1 with a whole list, whose lengths then stand here.
#[repr(C)]
#[derive(Clone, Copy, Default)]
pub struct FedAnswer {
    pub refusal: u8,
    pub value: u8,
    pub whole: u8,
    pub header_len: u64,
    pub body_len: u64,
}

impl From<Result<Option<Whole>, PeError>> for FedAnswer {
    ghost from_gives = { λ r answer. answer ≡ fed_answer_of (fed_told r) };

    fn from(r: Result<Option<Whole>, PeError>) -> FedAnswer {
        match r {
            Ok(None) => FedAnswer::default(),
            Ok(Some(list)) => FedAnswer {
                whole: 1,
                header_len: list.header_len as u64,
                body_len: list.body_len as u64,
                ..FedAnswer::default()
            },
            Err(e) => FedAnswer {
                refusal: e.number(),
                value: e.value(),
                ..FedAnswer::default()
            },
        }
    }
}

// The totals; all 0 with a refusal.
#[repr(C)]
#[derive(Clone, Copy, Default)]
pub struct StatsAnswer {
    pub refusal: u8,
    pub value: u8,
    pub reserved_bytes: u64,
    pub active_bytes: u64,
    pub active_slots: u64,
}

impl From<Result<MemoryStats, PeError>> for StatsAnswer {
    ghost from_gives = { λ r answer. answer ≡ stats_answer_of (stats_told r) };

    fn from(r: Result<MemoryStats, PeError>) -> StatsAnswer {
        match r {
            Ok(totals) => StatsAnswer {
                reserved_bytes: totals.reserved_bytes,
                active_bytes: totals.active_bytes,
                active_slots: totals.active_slots,
                ..StatsAnswer::default()
            },
            Err(e) => StatsAnswer {
                refusal: e.number(),
                value: e.value(),
                ..StatsAnswer::default()
            },
        }
    }
}
