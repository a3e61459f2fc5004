// The exports of midici_core.
ghost use Rattle.std.specs.Prelude.{◌≡◌, length};
ghost use Rattle.seven_bit.specs.Reply.{writing};
ghost use Rattle.midici_core.specs.Caps.{read_caps, write_caps};
ghost use Rattle.midici_core.specs.Header.{read_header, write_header};
ghost use Rattle.midici_core.specs.Kinds.{carries_chunk, kind_of};
ghost use Rattle.midici_core.specs.Message.{read_message, write_message};
ghost use Rattle.midici_core.specs.Muid.{muid_from, ordinary_muid, is_broadcast, is_reserved, read_muid, muid_bytes, first_ordinary};
ghost use Rattle.hub.specs.Answers.{answer_of, written, written_of};
ghost use Rattle.codec_exports.specs.Answers.{header_in, header_answer_of, caps_in, caps_answer_of, message_answer_of, kind_answer_of, generated_answer_of};

use codec_exports::answer::{
    CapsAnswer, GeneratedAnswer, HeaderAnswer, HeaderFields, KindAnswer, MessageAnswer,
};
use hub::answer::Answer;

#[unsafe(no_mangle)]
pub extern "C" fn codec_muid_from_u32(value: u32) -> Answer
    ensures { result ≡ answer_of (muid_from value) }
{
    codec_exports::ci::codec_muid_from_u32(value)
}

#[unsafe(no_mangle)]
pub extern "C" fn codec_muid_ordinary(value: u32) -> Answer
    ensures { result ≡ answer_of (ordinary_muid value) }
{
    codec_exports::ci::codec_muid_ordinary(value)
}

#[unsafe(no_mangle)]
pub extern "C" fn codec_muid_is_broadcast(value: u32) -> bool
    ensures { result ≡ is_broadcast value }
{
    codec_exports::ci::codec_muid_is_broadcast(value)
}

#[unsafe(no_mangle)]
pub extern "C" fn codec_muid_is_reserved(value: u32) -> bool
    ensures { result ≡ is_reserved value }
{
    codec_exports::ci::codec_muid_is_reserved(value)
}

#[unsafe(no_mangle)]
pub extern "C" fn codec_muid_encode_7bit_le(value: u32, out: &mut [u8; 4])
    ensures { out.new ≡ muid_bytes value }
{
    codec_exports::ci::codec_muid_encode_7bit_le(value, out);
}

#[unsafe(no_mangle)]
pub extern "C" fn codec_muid_decode_7bit_le(bytes: &[u8; 4]) -> Answer
    ensures { result ≡ answer_of (read_muid bytes.now) }
{
    codec_exports::ci::codec_muid_decode_7bit_le(bytes)
}

#[unsafe(no_mangle)]
pub extern "C" fn codec_muid_generate(words: &[u32]) -> GeneratedAnswer
    ensures { result ≡ generated_answer_of (first_ordinary words.now) }
{
    codec_exports::ci::codec_muid_generate(words)
}

#[unsafe(no_mangle)]
pub extern "C" fn codec_header_decode(body: &[u8]) -> HeaderAnswer
    ensures { result ≡ header_answer_of (read_header body.now) }
{
    codec_exports::ci::codec_header_decode(body)
}

#[unsafe(no_mangle)]
pub extern "C" fn codec_header_encode(header: HeaderFields, out: &mut [u8]) -> Answer
    ensures { written result out.new ≡ written_of (writing (write_header (header_in header) (length out.old)) out.old) }
{
    codec_exports::ci::codec_header_encode(header, out)
}

#[unsafe(no_mangle)]
pub extern "C" fn codec_is_pe_chunked_sub_id(sub_id2: u8) -> bool
    ensures { result ≡ carries_chunk sub_id2 }
{
    codec_exports::ci::codec_is_pe_chunked_sub_id(sub_id2)
}

#[unsafe(no_mangle)]
pub extern "C" fn codec_kind_of(sub_id2: u8) -> KindAnswer
    ensures { result ≡ kind_answer_of (kind_of sub_id2) }
{
    codec_exports::ci::codec_kind_of(sub_id2)
}

#[unsafe(no_mangle)]
pub extern "C" fn codec_caps_decode(body: &[u8]) -> CapsAnswer
    ensures { result ≡ caps_answer_of (read_caps body.now) }
{
    codec_exports::ci::codec_caps_decode(body)
}

#[unsafe(no_mangle)]
pub extern "C" fn codec_caps_encode(
    header: HeaderFields,
    simultaneous_requests: u8,
    pe_major: u8,
    pe_minor: u8,
    out: &mut [u8],
) -> Answer
    ensures { written result out.new
        ≡ written_of (writing (write_caps (caps_in header simultaneous_requests pe_major pe_minor) (length out.old)) out.old) }
{
    codec_exports::ci::codec_caps_encode(header, simultaneous_requests, pe_major, pe_minor, out)
}

#[unsafe(no_mangle)]
pub extern "C" fn codec_message_decode(body: &[u8]) -> MessageAnswer
    ensures { result ≡ message_answer_of (read_message body.now) }
{
    codec_exports::ci::codec_message_decode(body)
}

#[unsafe(no_mangle)]
pub extern "C" fn codec_message_encode(
    header: HeaderFields,
    payload: &[u8],
    out: &mut [u8],
) -> Answer
    ensures { written result out.new
        ≡ written_of (writing (write_message (header_in header) payload.now (length out.old)) out.old) }
{
    codec_exports::ci::codec_message_encode(header, payload, out)
}
