// The request counter.
ghost use Rattle.std.specs.Prelude.{◌≡◌};
ghost use Rattle.pe_controller.specs.Controller.{stepped};

use pe_controller::RequestCounter;

// The id that is handed out, and the counter after it.
#[repr(C)]
#[derive(Clone, Copy)]
pub struct RequestId {
    pub request_id: u8,
    pub counter: u8,
}

// Hands out the counter's number and steps the counter.
pub fn midici_pe_alloc_out_request_id(counter: u8) -> RequestId
    ensures { result ≡ record { request_id = counter; counter = stepped counter } }
{
    let mut counter = RequestCounter { next: counter };
    let request_id = counter.alloc_out_request_id();
    RequestId {
        request_id,
        counter: counter.next,
    }
}
