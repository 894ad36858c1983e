//! Responses as octets (RFC 9112 section 2.1).
ghost use Rattle.std.specs.Prelude.{◌≡◌, ◌++◌, length, option_copied, IfOk, OnOk};
ghost use Rattle.std.specs.Fmt.{decimal};
ghost use Rattle.dq_web.specs.Responses.{content_type, extra_fields, has_content, guarding_fields, closing_field, date_field, origin_field, viewer_fields, literal_field, unknown_field, full_field, warning_fields, content, type_field, length_field, body_fields, head_text, whole_head_text};
ghost use Rattle.dq_web.specs.Answers.{IsWritten};

use crate::refusal::Allowed;
use crate::resource::ResourceKind;
use crate::status::Status;
use dq_list::Listed;
use httpdate::HttpDate;
use std::alloc::{AllocError, Global};

/// The kind of a body.
#[derive(Clone, Copy, Debug, PartialEq, Eq)]
pub enum Kind {
    Page,
    Style,
    Script,
    Text,
    Json,
    DicomJson,
    Metrics,
}

/// A response, before it is octets.
#[derive(Drop)]
pub struct Reply {
    pub status: Status,
    pub kind: Kind,
    pub body: Listed<u8>,
    /// Whether fuzzy matching was asked for, of which there is none.
    pub is_literal: bool,
    /// Whether a parameter was unknown, and passed over.
    pub has_unknown: bool,
    /// Whether its page is full, so that there may be more.
    pub is_full: bool,
}

/// A response as octets, its status, and the kind of the resource that was asked for.
#[derive(Drop)]
pub struct Written {
    pub status: Status,
    pub kind: ResourceKind,
    pub octets: Vec<u8>,
}

/// How a response is framed in the octets of its connection.
#[derive(Debug, Drop)]
pub struct Framing {
    /// Whether no request is read behind it.
    pub is_last: bool,
    /// Whether it has no content, as a response to HEAD.
    pub is_head: bool,
    /// When it was made, if the clock says so.
    pub date: Option<HttpDate>,
    /// The origin of another site whose pages may read it.
    pub viewer: Option<Listed<u8>>,
    /// The kind of the resource that was asked for.
    pub kind: ResourceKind,
}

impl Framing {
    /// Returns the octets of the origin whose pages may read it.
    fn viewer(&self) -> Option<&[u8]>
        ensures { option_copied result ≡ self.now.viewer }
    {
        match &self.viewer {
            Some(origin) => Some(origin.as_slice()),
            None => None,
        }
    }
}

impl Kind {
    /// Returns the value of Content-Type.
    fn content_type(self) -> &'static str
        ensures { result.now ≡ content_type self }
    {
        match self {
            Kind::Page => "text/html; charset=utf-8",
            Kind::Style => "text/css; charset=utf-8",
            Kind::Script => "text/javascript; charset=utf-8",
            Kind::Text => "text/plain; charset=utf-8",
            Kind::Json => "application/json",
            Kind::DicomJson => "application/dicom+json",
            Kind::Metrics => "text/plain; version=0.0.4; charset=utf-8",
        }
    }
}

/// The fields that a status asks for (RFC 9110 sections 11.6.1 and 10.2.1; the CORS-preflight response
/// of the Fetch standard).
fn extra_fields(status: Status) -> &'static str
    ensures { result.now ≡ extra_fields status }
{
    match status {
        Status::Preflight => {
            "Access-Control-Allow-Methods: GET, HEAD\r\n\
            Access-Control-Allow-Headers: Accept, Authorization\r\n\
            Access-Control-Max-Age: 600\r\n"
        }
        Status::Unauthorized => "WWW-Authenticate: Bearer\r\n",
        Status::MethodNotAllowed(Allowed::Get) => "Allow: GET, HEAD\r\n",
        Status::MethodNotAllowed(Allowed::Post) => "Allow: POST\r\n",
        Status::MethodNotAllowed(Allowed::Delete) => "Allow: DELETE\r\n",
        Status::MethodNotAllowed(Allowed::GetAndPost) => "Allow: GET, HEAD, POST\r\n",
        _ => "",
    }
}

/// Adds a text.
pub(crate) fn put(octets: &mut Vec<u8>, text: &str) -> Result<(), AllocError>
    ensures { OnOk result (octets.new.items ≡ octets.old.items ++ text.now) }
{
    octets.extend_from_slice(text.as_bytes())
}

/// Adds a number in decimal digits.
pub(crate) fn put_number(alloc: Global, octets: &mut Vec<u8>, number: u64) -> Result<(), AllocError>
    ensures { OnOk result (octets.new.items ≡ octets.old.items ++ decimal number) }
{
    let text = format!(in alloc; "{number}")?;
    put(octets, text.as_str())
}

/// Whether a response of a status has content (RFC 9110 section 6.4).
fn has_content(status: Status) -> bool
    ensures { result ≡ has_content status }
{
    match status {
        Status::NoContent | Status::Preflight => false,
        _ => true,
    }
}

/// Adds what a body is.
fn put_type(octets: &mut Vec<u8>, kind: Kind) -> Result<(), AllocError>
    ensures { OnOk result (octets.new.items ≡ octets.old.items ++ type_field kind) }
{
    put(octets, "Content-Type: ")?;
    put(octets, kind.content_type())?;
    put(octets, "\r\n")?;
    Ok(())
}

/// Adds how many octets a body has.
fn put_length(alloc: Global, octets: &mut Vec<u8>, size: usize) -> Result<(), AllocError>
    ensures { OnOk result (octets.new.items ≡ octets.old.items ++ length_field size) }
{
    put(octets, "Content-Length: ")?;
    put_number(alloc, octets, size as u64)?;
    put(octets, "\r\n")?;
    Ok(())
}

/// The fields that each response has: nothing is kept, nothing is guessed of a body, and a page may
/// load and call only what is of its own host.
#[tactic(auto, unfolding(crate::specs::Responses::guarding_fields))]
fn guarding_fields() -> &'static str
    ensures { result.now ≡ guarding_fields }
{
    "Cache-Control: no-store\r\n\
    X-Content-Type-Options: nosniff\r\n\
    Referrer-Policy: no-referrer\r\n\
    Content-Security-Policy: default-src 'none'; script-src 'self'; style-src 'self'; \
    connect-src 'self'; base-uri 'none'; form-action 'none'; frame-ancestors 'none'\r\n"
}

/// The field that says that no request is read behind the response.
fn closing_field(is_last: bool) -> &'static str
    ensures { result.now ≡ closing_field is_last }
{
    if is_last { "Connection: close\r\n" } else { "" }
}

/// The status line and the fields that each response has.
fn head_start(alloc: Global, status: Status) -> Result<Vec<u8>, AllocError>
    ensures { IfOk result (λ head. head.items ≡ head_text status) }
{
    let mut head = Vec::from_slice(alloc, b"HTTP/1.1 ")?;
    put(&mut head, status.line())?;
    put(&mut head, "\r\n")?;
    put(&mut head, guarding_fields())?;
    put(&mut head, extra_fields(status))?;
    Ok(head)
}

/// Adds what the body is and how many octets it has. A response without content says neither.
fn put_body_fields(alloc: Global, head: &mut Vec<u8>, reply: &Reply) -> Result<(), AllocError>
    ensures { OnOk result (head.new.items ≡ head.old.items
        ++ body_fields reply.now.status reply.now.kind (length reply.now.body)) }
{
    if !has_content(reply.status) {
        return Ok(());
    }
    put_type(head, reply.kind)?;
    put_length(alloc, head, reply.body.len())?;
    Ok(())
}

/// Adds when a response was made.
fn put_date(head: &mut Vec<u8>, date: Option<HttpDate>) -> Result<(), AllocError>
    ensures { OnOk result (head.new.items ≡ head.old.items ++ date_field date) }
{
    let Some(date) = date else {
        return Ok(());
    };
    put(head, "Date: ")?;
    head.extend_from_slice(&date.to_bytes())?;
    put(head, "\r\n")?;
    Ok(())
}

/// Adds an origin whose pages may read a response.
fn put_origin(head: &mut Vec<u8>, origin: &[u8]) -> Result<(), AllocError>
    ensures { OnOk result (head.new.items ≡ head.old.items ++ origin_field origin.now) }
{
    put(head, "Access-Control-Allow-Origin: ")?;
    head.extend_from_slice(origin)?;
    put(head, "\r\n")?;
    Ok(())
}

/// Adds that the pages of an origin may read a response, if there is one.
fn put_viewer(head: &mut Vec<u8>, viewer: Option<&[u8]>) -> Result<(), AllocError>
    ensures { OnOk result (head.new.items ≡ head.old.items
        ++ viewer_fields (option_copied viewer.entry)) }
{
    let Some(origin) = viewer else {
        return Ok(());
    };
    put_origin(head, origin)?;
    put(
        head,
        "Access-Control-Expose-Headers: Warning\r\nVary: Origin\r\n",
    )?;
    Ok(())
}

/// The field that says that matching was not fuzzy.
fn literal_field(is_literal: bool) -> &'static str
    ensures { result.now ≡ literal_field is_literal }
{
    if is_literal {
        "Warning: 299 newtiron \"The fuzzymatching parameter is not supported. \
        Only literal matching has been performed.\"\r\n"
    } else {
        ""
    }
}

/// The field that says that a parameter was passed over.
fn unknown_field(has_unknown: bool) -> &'static str
    ensures { result.now ≡ unknown_field has_unknown }
{
    if has_unknown {
        "Warning: 299 newtiron \"An unknown parameter was ignored.\"\r\n"
    } else {
        ""
    }
}

/// The field that says that there may be more than the page.
fn full_field(is_full: bool) -> &'static str
    ensures { result.now ≡ full_field is_full }
{
    if is_full {
        "Warning: 299 newtiron \"The page is full. Additional results can be requested by offset.\"\r\n"
    } else {
        ""
    }
}

/// Adds what is warned of.
fn put_warnings(head: &mut Vec<u8>, reply: &Reply) -> Result<(), AllocError>
    ensures { OnOk result (head.new.items ≡ head.old.items ++ warning_fields reply.now) }
{
    put(head, literal_field(reply.is_literal))?;
    put(head, unknown_field(reply.has_unknown))?;
    put(head, full_field(reply.is_full))?;
    Ok(())
}

/// The whole head of a response.
fn head_of(alloc: Global, reply: &Reply, framing: &Framing) -> Result<Vec<u8>, AllocError>
    ensures { IfOk result (λ head. head.items ≡ whole_head_text reply.now framing.now) }
{
    let mut head = head_start(alloc, reply.status)?;
    put_date(&mut head, framing.date)?;
    put(&mut head, closing_field(framing.is_last))?;
    put_viewer(&mut head, framing.viewer())?;
    put_warnings(&mut head, reply)?;
    put_body_fields(alloc, &mut head, reply)?;
    put(&mut head, "\r\n")?;
    Ok(head)
}

/// Returns the part of a body that is sent.
fn content(is_head: bool, body: &[u8]) -> &[u8]
    ensures { result.now ≡ content is_head body.now }
{
    if is_head { &[] } else { body }
}

/// A response, as it is framed.
pub(crate) fn printed(
    alloc: Global,
    reply: &Reply,
    framing: &Framing,
) -> Result<Written, AllocError>
    ensures { IfOk result (IsWritten reply.now framing.now) }
{
    let mut octets = head_of(alloc, reply, framing)?;
    octets.extend_from_slice(content(framing.is_head, reply.body.as_slice()))?;
    Ok(Written {
        status: reply.status,
        kind: framing.kind,
        octets,
    })
}
