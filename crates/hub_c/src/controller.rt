// The request counter.
ghost use Rattle.std.specs.Prelude.{◌≡◌};
ghost use Rattle.pe_controller.specs.Controller.{stepped};

use hub::controller::RequestId;

// Hands out the counter's number and steps the counter.
#[unsafe(no_mangle)]
pub extern "C" fn midici_pe_alloc_out_request_id(counter: u8) -> RequestId
    ensures { result ≡ record { request_id = counter; counter = stepped counter } }
{
    hub::controller::midici_pe_alloc_out_request_id(counter)
}
