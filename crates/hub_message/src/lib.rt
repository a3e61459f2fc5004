// The whole-message entry, in a library of its own: `make lib` puts it beside hub's exports. The compiler builds a function into the one
// place that calls it, so each of the two entries has the feed built in.
#![tactic(auto)]

ghost use Rattle.std.specs.Prelude.{◌≡◌};
ghost use Rattle.pe_reassembler.specs.Feed.{memory, message_call};
ghost use Rattle.hub.specs.Answers.{left};
ghost use Rattle.hub.specs.Table.{fed_of};

use hub::answer::FedAnswer;
use pe_reassembler::feed::feed_message;
use pe_reassembler::shape::Shape;

// Feeds the chunk of a whole CI message under its source.
#[unsafe(no_mangle)]
pub extern "C" fn midici_pe_feed_message(
    shape: Shape,
    numbers: &mut [u64],
    index: &mut [u64],
    headers: &mut [u8],
    arenas: &mut [u8],
    body: &[u8],
    now_ms: u64,
    out_header: &mut [u8],
    out_body: &mut [u8],
) -> FedAnswer
    ensures { left result (memory numbers.new index.new headers.new arenas.new
        out_header.new out_body.new)
        ≡ fed_of (message_call shape (memory numbers.old index.old headers.old arenas.old
        out_header.old out_body.old) body.now now_ms) }
{
    feed_message(
        shape, numbers, index, headers, arenas, body, now_ms, out_header, out_body,
    )
    .into()
}
