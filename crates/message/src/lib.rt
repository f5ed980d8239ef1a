// Ports MessageStart, MessageBody, GetListResponseStart and GetListResponseEnd of parser/streaming.rs.
#![tactic(auto)]

ghost use Rattle.std.specs.Prelude.{◌≡◌};
ghost use Rattle.refusals.specs.Answers.{reads_as};
ghost use Rattle.refusals.specs.declared.Span.{Span};
ghost use Rattle.message.specs.Messages as Messages;
ghost use Rattle.message.specs.Messages.{list_start_at, list_end_at, content_at, body_at, start_at};
ghost use Rattle.message.specs.Answers.{list_start, list_end, message_body, message_start};

use common::{CloseResponse, OpenResponse};
use numbers::SmlParse;
use refusals::{ParseError, ResTy, Span};
use tlf::TypeLengthField;
use value::Time;

#[derive(Clone, Copy, PartialEq, Eq)]
pub struct GetListResponseStart {
    pub client_id: Option<Span>,
    pub server_id: Span,
    pub list_name: Option<Span>,
    pub act_sensor_time: Option<Time>,
    pub num_vals: u32,
}

impl SmlParse for GetListResponseStart {
    ghost Meaning = { Messages.ListStart Span };

    ghost means = { list_start };

    ghost read_at = { list_start_at };

    // GetListResponseStart of streaming.rs: seven elements, of which the start reads up to the entries' head.
    #[tactic(auto, unfolding(crate::specs::Messages::list_start_at, refusals::specs::Read::then, refusals::specs::Read::guard))]
    fn parse(input: &[u8], at: usize) -> ResTy<GetListResponseStart> {
        let n = tlf::parse_list_of(input, at, 7)?;
        let (client_id, n) = Option::<Span>::parse(input, n)?;
        let (server_id, n) = Span::parse(input, n)?;
        let (list_name, n) = Option::<Span>::parse(input, n)?;
        let (act_sensor_time, n) = Option::<Time>::parse(input, n)?;
        let (tlf, next) = TypeLengthField::parse(input, n)?;
        if !tlf.ty.is_list() {
            return Err(ParseError::TlfMismatch.at(n));
        }
        let response = GetListResponseStart {
            client_id,
            server_id,
            list_name,
            act_sensor_time,
            num_vals: tlf.len,
        };
        Ok((response, next))
    }
}

#[derive(Clone, Copy, PartialEq, Eq)]
pub struct GetListResponseEnd {
    pub list_signature: Option<Span>,
    pub act_gateway_time: Option<Time>,
}

impl SmlParse for GetListResponseEnd {
    ghost Meaning = { Messages.ListEnd Span };

    ghost means = { list_end };

    ghost read_at = { list_end_at };

    // GetListResponseEnd of streaming.rs: signature and gateway time, behind the entries.
    #[tactic(auto, unfolding(crate::specs::Messages::list_end_at, refusals::specs::Read::then))]
    fn parse(input: &[u8], at: usize) -> ResTy<GetListResponseEnd> {
        let (list_signature, n) = Option::<Span>::parse(input, at)?;
        let (act_gateway_time, n) = Option::<Time>::parse(input, n)?;
        let response = GetListResponseEnd {
            list_signature,
            act_gateway_time,
        };
        Ok((response, n))
    }
}

#[derive(Clone, Copy, PartialEq, Eq)]
pub enum MessageBody {
    OpenResponse(OpenResponse),
    CloseResponse(CloseResponse),
    GetListResponse(GetListResponseStart),
}

// The content that a tag names; the tag stands at `place`.
#[tactic(auto, unfolding(crate::specs::Messages::content_at, refusals::specs::Read::then))]
fn parse_content(input: &[u8], place: usize, tag: u32, at: usize) -> ResTy<MessageBody>
    ensures { reads_as message_body result ≡ content_at input.now place tag at }
{
    match tag {
        0x00000101 => {
            let (response, n) = OpenResponse::parse(input, at)?;
            Ok((MessageBody::OpenResponse(response), n))
        }
        0x00000201 => {
            let (response, n) = CloseResponse::parse(input, at)?;
            Ok((MessageBody::CloseResponse(response), n))
        }
        0x00000701 => {
            let (response, n) = GetListResponseStart::parse(input, at)?;
            Ok((MessageBody::GetListResponse(response), n))
        }
        _ => Err(ParseError::UnexpectedVariant.at(place)),
    }
}

impl SmlParse for MessageBody {
    ghost Meaning = { Messages.Body Span };

    ghost means = { message_body };

    ghost read_at = { body_at };

    // MessageBody of streaming.rs: a list of tag and content.
    #[tactic(auto, unfolding(crate::specs::Messages::body_at, refusals::specs::Read::then))]
    fn parse(input: &[u8], at: usize) -> ResTy<MessageBody> {
        let n = tlf::parse_list_of(input, at, 2)?;
        let (tag, next) = u32::parse(input, n)?;
        parse_content(input, n, tag, next)
    }
}

#[derive(Clone, Copy, PartialEq, Eq)]
pub struct MessageStart {
    pub transaction_id: Span,
    pub group_no: u8,
    pub abort_on_error: u8,
    pub message_body: MessageBody,
}

impl SmlParse for MessageStart {
    ghost Meaning = { Messages.MessageStart Span };

    ghost means = { message_start };

    ghost read_at = { start_at };

    // MessageStart of streaming.rs: a message up to its trailer, of a list response up to its entries.
    #[tactic(auto, unfolding(crate::specs::Messages::start_at, refusals::specs::Read::then))]
    fn parse(input: &[u8], at: usize) -> ResTy<MessageStart> {
        let n = tlf::parse_list_of(input, at, 6)?;
        let (transaction_id, n) = Span::parse(input, n)?;
        let (group_no, n) = u8::parse(input, n)?;
        let (abort_on_error, n) = u8::parse(input, n)?;
        let (message_body, n) = MessageBody::parse(input, n)?;
        let message = MessageStart {
            transaction_id,
            group_no,
            abort_on_error,
            message_body,
        };
        Ok((message, n))
    }
}
