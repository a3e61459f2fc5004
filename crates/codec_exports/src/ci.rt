// The exports of midici_core.
ghost use Rattle.std.specs.Prelude.{◌≡◌, length};
ghost use Rattle.seven_bit.specs.Reply.{writing};
ghost use Rattle.midici_core.specs.Caps.{read_caps, write_caps};
ghost use Rattle.midici_core.specs.Header.{read_header, write_header};
ghost use Rattle.midici_core.specs.Kinds.{carries_chunk, kind_of};
ghost use Rattle.midici_core.specs.Message.{read_message, write_message};
ghost use Rattle.midici_core.specs.Muid.{muid_from, ordinary_muid, is_broadcast, is_reserved, read_muid, muid_bytes, first_ordinary};
ghost use Rattle.hub.specs.Answers.{answer_of, written, written_of};
ghost use Rattle.codec_exports.specs.Answers.{header_in, header_answer_of, caps_in, caps_answer_of, message_answer_of, kind_answer_of, generated_answer_of};

use crate::answer::{
    CapsAnswer, GeneratedAnswer, HeaderAnswer, HeaderFields, KindAnswer, MessageAnswer,
};
use hub::answer::Answer;
use midici_core::header::CiHeader;
use midici_core::muid::Muid;
use midici_core::pe_caps::PeCapabilities;
use midici_core::pe_msg::PeMessage;

pub fn codec_muid_from_u32(value: u32) -> Answer
    ensures { result ≡ answer_of (muid_from value) }
{
    Muid::from_u32(value).map(|m| m.to_u32() as u64).into()
}

pub fn codec_muid_ordinary(value: u32) -> Answer
    ensures { result ≡ answer_of (ordinary_muid value) }
{
    Muid::ordinary(value).map(|m| m.to_u32() as u64).into()
}

pub fn codec_muid_is_broadcast(value: u32) -> bool
    ensures { result ≡ is_broadcast value }
{
    Muid(value).is_broadcast()
}

pub fn codec_muid_is_reserved(value: u32) -> bool
    ensures { result ≡ is_reserved value }
{
    Muid(value).is_reserved()
}

pub fn codec_muid_encode_7bit_le(value: u32, out: &mut [u8; 4])
    ensures { out.new ≡ muid_bytes value }
{
    *out = Muid(value).encode_7bit_le();
}

pub fn codec_muid_decode_7bit_le(bytes: &[u8; 4]) -> Answer
    ensures { result ≡ answer_of (read_muid bytes.now) }
{
    Muid::decode_7bit_le(bytes)
        .map(|m| m.to_u32() as u64)
        .into()
}

pub fn codec_muid_generate(words: &[u32]) -> GeneratedAnswer
    ensures { result ≡ generated_answer_of (first_ordinary words.now) }
{
    Muid::generate(words).into()
}

pub fn codec_header_decode(body: &[u8]) -> HeaderAnswer
    ensures { result ≡ header_answer_of (read_header body.now) }
{
    CiHeader::decode(body).into()
}

pub fn codec_header_encode(header: HeaderFields, out: &mut [u8]) -> Answer
    ensures { written result out.new ≡ written_of (writing (write_header (header_in header) (length out.old)) out.old) }
{
    CiHeader::from(header).encode(out).map(|n| n as u64).into()
}

pub fn codec_is_pe_chunked_sub_id(sub_id2: u8) -> bool
    ensures { result ≡ carries_chunk sub_id2 }
{
    midici_core::spec::is_pe_chunked_sub_id(sub_id2)
}

pub fn codec_kind_of(sub_id2: u8) -> KindAnswer
    ensures { result ≡ kind_answer_of (kind_of sub_id2) }
{
    midici_core::spec::kind_of(sub_id2).into()
}

pub fn codec_caps_decode(body: &[u8]) -> CapsAnswer
    ensures { result ≡ caps_answer_of (read_caps body.now) }
{
    PeCapabilities::decode(body).into()
}

pub fn codec_caps_encode(
    header: HeaderFields,
    simultaneous_requests: u8,
    pe_major: u8,
    pe_minor: u8,
    out: &mut [u8],
) -> Answer
    ensures { written result out.new
        ≡ written_of (writing (write_caps (caps_in header simultaneous_requests pe_major pe_minor) (length out.old)) out.old) }
{
    let caps = PeCapabilities {
        header: header.into(),
        simultaneous_requests,
        pe_major,
        pe_minor,
    };
    caps.encode(out).map(|n| n as u64).into()
}

pub fn codec_message_decode(body: &[u8]) -> MessageAnswer
    ensures { result ≡ message_answer_of (read_message body.now) }
{
    PeMessage::decode(body).into()
}

pub fn codec_message_encode(header: HeaderFields, payload: &[u8], out: &mut [u8]) -> Answer
    ensures { written result out.new
        ≡ written_of (writing (write_message (header_in header) payload.now (length out.old)) out.old) }
{
    PeMessage::encode(header.into(), payload, out)
        .map(|n| n as u64)
        .into()
}
