// What the exports of midici_core answer, as structs of numbers. With a refusal every other field is 0; else the refusal's
// number and value are 0. A caller in another language has no Option and no Result, so these have a flag or a number in their place.
ghost use Rattle.std.specs.Prelude.{◌≡◌, option_map};
ghost use Rattle.midici_core.specs.Caps.{caps_of};
ghost use Rattle.midici_core.specs.Errors.{ci_told};
ghost use Rattle.midici_core.specs.Header.{header_of};
ghost use Rattle.midici_core.specs.Kinds.{row_of};
ghost use Rattle.midici_core.specs.Message.{message_of};
ghost use Rattle.midici_core.specs.Muid.{muid_number};
ghost use Rattle.codec_exports.specs.Answers.{kind_answer_of, generated_answer_of, header_in, header_out, header_answer_of, caps_answer_of, message_answer_of};

use midici_core::error::CiError;
use midici_core::header::CiHeader;
use midici_core::muid::Muid;
use midici_core::pe_caps::PeCapabilities;
use midici_core::pe_msg::PeMessage;
use midici_core::spec::Kind;
use seven_bit::refusal::Refusal;

// A kind's row; all 0 where it is none of the nine.
#[repr(C)]
#[derive(Clone, Copy, Default)]
pub struct KindAnswer {
    pub known: bool,
    pub sub_id2: u8,
    pub chunked: bool,
    pub reply: u8,
}

impl From<Option<Kind>> for KindAnswer {
    ghost from_gives = { λ kind answer. answer ≡ kind_answer_of (option_map row_of kind) };

    fn from(kind: Option<Kind>) -> KindAnswer {
        match kind {
            Some(kind) => KindAnswer {
                known: true,
                sub_id2: kind.sub_id2,
                chunked: kind.chunked,
                // 0 is no kind that replies.
                reply: kind.reply,
            },
            None => KindAnswer::default(),
        }
    }
}

#[repr(C)]
#[derive(Clone, Copy, Default)]
pub struct GeneratedAnswer {
    pub found: bool,
    pub number: u32,
}

impl From<Option<Muid>> for GeneratedAnswer {
    ghost from_gives = { λ muid answer. answer ≡ generated_answer_of (option_map muid_number muid) };

    fn from(muid: Option<Muid>) -> GeneratedAnswer {
        match muid {
            Some(muid) => GeneratedAnswer {
                found: true,
                number: muid.to_u32(),
            },
            None => GeneratedAnswer::default(),
        }
    }
}

#[repr(C)]
#[derive(Clone, Copy, Default)]
pub struct HeaderFields {
    pub device_id: u8,
    pub sub_id2: u8,
    pub version: u8,
    pub source: u32,
    pub dest: u32,
}

impl From<HeaderFields> for CiHeader {
    ghost from_gives = { λ fields header. header_of header ≡ header_in fields };

    fn from(fields: HeaderFields) -> CiHeader {
        CiHeader {
            device_id: fields.device_id,
            sub_id2: fields.sub_id2,
            version: fields.version,
            source: Muid(fields.source),
            dest: Muid(fields.dest),
        }
    }
}

impl From<CiHeader> for HeaderFields {
    ghost from_gives = { λ header fields. fields ≡ header_out (header_of header) };

    fn from(header: CiHeader) -> HeaderFields {
        HeaderFields {
            device_id: header.device_id,
            sub_id2: header.sub_id2,
            version: header.version,
            source: header.source.0,
            dest: header.dest.0,
        }
    }
}

#[repr(C)]
#[derive(Clone, Copy, Default)]
pub struct HeaderAnswer {
    pub refusal: u8,
    pub value: u8,
    pub header: HeaderFields,
}

impl From<Result<CiHeader, CiError>> for HeaderAnswer {
    ghost from_gives = { λ r answer. answer ≡ header_answer_of (ci_told header_of r) };

    fn from(r: Result<CiHeader, CiError>) -> HeaderAnswer {
        match r {
            Ok(header) => HeaderAnswer {
                header: header.into(),
                ..HeaderAnswer::default()
            },
            Err(e) => HeaderAnswer {
                refusal: e.number(),
                value: e.value(),
                ..HeaderAnswer::default()
            },
        }
    }
}

#[repr(C)]
#[derive(Clone, Copy, Default)]
pub struct CapsAnswer {
    pub refusal: u8,
    pub value: u8,
    pub header: HeaderFields,
    pub simultaneous_requests: u8,
    pub pe_major: u8,
    pub pe_minor: u8,
}

impl From<Result<PeCapabilities, CiError>> for CapsAnswer {
    ghost from_gives = { λ r answer. answer ≡ caps_answer_of (ci_told caps_of r) };

    fn from(r: Result<PeCapabilities, CiError>) -> CapsAnswer {
        match r {
            Ok(caps) => CapsAnswer {
                header: caps.header.into(),
                simultaneous_requests: caps.simultaneous_requests,
                pe_major: caps.pe_major,
                pe_minor: caps.pe_minor,
                ..CapsAnswer::default()
            },
            Err(e) => CapsAnswer {
                refusal: e.number(),
                value: e.value(),
                ..CapsAnswer::default()
            },
        }
    }
}

#[repr(C)]
#[derive(Clone, Copy, Default)]
pub struct MessageAnswer {
    pub refusal: u8,
    pub value: u8,
    pub header: HeaderFields,
    pub payload_at: u64,
    pub payload_len: u64,
}

impl From<Result<PeMessage, CiError>> for MessageAnswer {
    ghost from_gives = { λ r answer. answer ≡ message_answer_of (ci_told message_of r) };

    fn from(r: Result<PeMessage, CiError>) -> MessageAnswer {
        match r {
            Ok(message) => MessageAnswer {
                header: message.header.into(),
                payload_at: message.payload_at as u64,
                payload_len: message.payload_len as u64,
                ..MessageAnswer::default()
            },
            Err(e) => MessageAnswer {
                refusal: e.number(),
                value: e.value(),
                ..MessageAnswer::default()
            },
        }
    }
}
