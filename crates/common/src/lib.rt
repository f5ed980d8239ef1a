// Ports OpenResponse, CloseResponse and ListEntry of parser/common.rs; Time, Status and Value stand in crate value, EndOfSmlMessage in crate trailer.
#![tactic(auto)]

ghost use Rattle.common.specs.Fields as Fields;
ghost use Rattle.common.specs.Fields.{open_at, close_at, entry_at};
ghost use Rattle.common.specs.Answers.{open_response, close_response, list_entry};
ghost use Rattle.refusals.specs.declared.Span.{Span};

use numbers::SmlParse;
use refusals::{ResTy, Span};
use value::{Status, Time, Value};

#[derive(Clone, Copy, PartialEq, Eq)]
pub struct OpenResponse {
    pub codepage: Option<Span>,
    pub client_id: Option<Span>,
    pub req_file_id: Span,
    pub server_id: Span,
    pub ref_time: Option<Time>,
    pub sml_version: Option<u8>,
}

impl SmlParse for OpenResponse {
    ghost Meaning = { Fields.OpenResponse Span };

    ghost means = { open_response };

    ghost read_at = { open_at };

    // OpenResponse of common.rs: check_tlf, then parse_with_tlf field by field.
    #[tactic(auto, unfolding(crate::specs::Fields::open_at, refusals::specs::Read::then))]
    fn parse(input: &[u8], at: usize) -> ResTy<OpenResponse> {
        let n = tlf::parse_list_of(input, at, 6)?;
        let (codepage, n) = Option::<Span>::parse(input, n)?;
        let (client_id, n) = Option::<Span>::parse(input, n)?;
        let (req_file_id, n) = Span::parse(input, n)?;
        let (server_id, n) = Span::parse(input, n)?;
        let (ref_time, n) = Option::<Time>::parse(input, n)?;
        let (sml_version, n) = Option::<u8>::parse(input, n)?;
        let response = OpenResponse {
            codepage,
            client_id,
            req_file_id,
            server_id,
            ref_time,
            sml_version,
        };
        Ok((response, n))
    }
}

#[derive(Clone, Copy, PartialEq, Eq)]
pub struct CloseResponse {
    pub global_signature: Option<Span>,
}

impl SmlParse for CloseResponse {
    ghost Meaning = { Fields.CloseResponse Span };

    ghost means = { close_response };

    ghost read_at = { close_at };

    // CloseResponse of common.rs.
    #[tactic(auto, unfolding(crate::specs::Fields::close_at, refusals::specs::Read::then))]
    fn parse(input: &[u8], at: usize) -> ResTy<CloseResponse> {
        let n = tlf::parse_list_of(input, at, 1)?;
        let (global_signature, n) = Option::<Span>::parse(input, n)?;
        Ok((CloseResponse { global_signature }, n))
    }
}

#[derive(Clone, Copy, PartialEq, Eq)]
pub struct ListEntry {
    pub obj_name: Span,
    pub status: Option<Status>,
    pub val_time: Option<Time>,
    pub unit: Option<u8>,
    pub scaler: Option<i8>,
    pub value: Value,
    pub value_signature: Option<Span>,
}

impl SmlParse for ListEntry {
    ghost Meaning = { Fields.ListEntry Span };

    ghost means = { list_entry };

    ghost read_at = { entry_at };

    // ListEntry of common.rs: check_tlf, then parse_with_tlf field by field.
    #[tactic(auto, unfolding(crate::specs::Fields::entry_at, refusals::specs::Read::then))]
    fn parse(input: &[u8], at: usize) -> ResTy<ListEntry> {
        let n = tlf::parse_list_of(input, at, 7)?;
        let (obj_name, n) = Span::parse(input, n)?;
        let (status, n) = Option::<Status>::parse(input, n)?;
        let (val_time, n) = Option::<Time>::parse(input, n)?;
        let (unit, n) = Option::<u8>::parse(input, n)?;
        let (scaler, n) = Option::<i8>::parse(input, n)?;
        let (value, n) = Value::parse(input, n)?;
        let (value_signature, n) = Option::<Span>::parse(input, n)?;
        let entry = ListEntry {
            obj_name,
            status,
            val_time,
            unit,
            scaler,
            value,
            value_signature,
        };
        Ok((entry, n))
    }
}
