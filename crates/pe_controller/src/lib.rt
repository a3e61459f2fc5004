// From controller.rs: the request counter, and how many requests two sides settle on.
#![tactic(auto)]

ghost use Rattle.std.specs.Prelude.{◌≡◌};
ghost use Rattle.pe_controller.specs.Controller.{stepped, negotiated};

// The counter of request ids, any of 256 values.
#[derive(Clone, Copy, Debug, PartialEq, Eq)]
pub struct RequestCounter {
    pub next: u8,
}

impl RequestCounter {
    // As the Rust's controller starts.
    pub fn new() -> RequestCounter
        ensures { result.next ≡ 1 }
    {
        RequestCounter { next: 1 }
    }

    // Hands out the number that is next, and steps the counter.
    #[tactic(auto, unfolding(crate::specs::Controller::stepped))]
    pub fn alloc_out_request_id(&mut self) -> u8
        ensures request_id { result ≡ self.old.next }
        ensures counter { self.new ≡ record { next = stepped self.old.next } }
    {
        let request_id = self.next;
        let next = request_id.wrapping_add(1) % 128;
        self.next = if next == 0 { 1 } else { next };
        request_id
    }
}

// The smaller of both sides' simultaneous requests, at least 1.
#[tactic(auto, unfolding(crate::specs::Controller::negotiated))]
pub fn negotiated_requests(ours: u8, theirs: u8) -> u8
    ensures { result ≡ negotiated ours theirs }
{
    ours.min(theirs).max(1)
}
