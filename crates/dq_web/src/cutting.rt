//! Requests, cut off the octets of a connection (RFC 9112).
ghost use Rattle.std.specs.Prelude.{◌≡◌, ◌<◌, ◌≤◌, ◌||◌, ◌==◌, ℕ, List, Some, length, map, codes, not, All, IfOk, IfErr, MatchResult, option_copied};
ghost use Rattle.std.specs.Char.{is_ascii_digit};
ghost use Rattle.std.specs.List.{list_all};
ghost use Rattle.httparse.specs.Spans.{IsHeaderWithin, IsRequestWithin, IsRequestOf, header_bytes};
ghost use Rattle.dq_web.specs.declared.cutting.Test.TheVariants as test;
ghost use Rattle.dq_web.specs.Requests.{is_named, values_named, HasRepeated, is_numeral, IsBadLength, HasBadHead, IsSole, IsLast, AreFields, IsBodyLength, IsHead, IsCutOff, IsContentLength, is_between, is_dicom_json_range, is_json_range, is_dicom_type, passes_word, passes, any_passes, body_form, is_expecting, is_of_head};

use crate::refusal::Refusal;
use httparse::spans::{EMPTY_HEADER_SPAN, HeaderSpan, RequestSpans, parse_request};
use httparse::{Error, Status as Parsed};

/// The most octets of a request's head.
pub const HEAD_MOST: usize = 16_384;

/// The most octets of its body: those of a data set with an entry of the worklist.
pub const BODY_MOST: usize = 1_048_576;

/// The most fields of a head.
const MOST_FIELDS: usize = 64;

/// The form of a body with an entry of the worklist, by its media type.
#[derive(Clone, Copy, Debug, PartialEq, Eq)]
pub enum BodyForm {
    /// A data set in Explicit VR Little Endian.
    Dicom,
    /// A DICOM JSON Model object (PS3.18 annex F).
    DicomJson,
    /// Another form.
    Other,
}

/// The values of the fields of a head that count here.
#[derive(Clone, Copy)]
pub struct Fields<'a> {
    pub host: Option<&'a [u8]>,
    pub origin: Option<&'a [u8]>,
    pub fetch_site: Option<&'a [u8]>,
    pub fetch_dest: Option<&'a [u8]>,
    /// The method that a page of another origin asks leave for.
    pub request_method: Option<&'a [u8]>,
    pub authorization: Option<&'a [u8]>,
    pub expect: Option<&'a [u8]>,
    /// The last X-Forwarded-For and the last Forwarded, by which proxies say where a request came from.
    pub forwarded_for: Option<&'a [u8]>,
    pub forwarded: Option<&'a [u8]>,
    pub content_length: Option<&'a [u8]>,
    pub transfer_encoding: Option<&'a [u8]>,
    /// Whether a Connection says that no request follows.
    pub closes: bool,
    /// Whether JSON is accepted: an Accept says so, or there is none.
    pub accepts_json: bool,
    /// Whether an Accept allows DICOM JSON, by its name or by a range.
    pub asks_dicom_json: bool,
    /// The form that the Content-Type says.
    pub body_form: BodyForm,
}

/// The head of a request: its method and target, and the fields that count here.
#[derive(Clone, Copy)]
pub struct Head<'a> {
    pub method: &'a [u8],
    pub target: &'a [u8],
    pub fields: Fields<'a>,
    /// Whether it is of HTTP/1.0.
    pub is_old: bool,
    /// Whether no request comes after it on its connection.
    pub is_last: bool,
    /// How many octets of the connection it takes.
    pub extent: usize,
    /// How many octets its body has.
    pub body_length: usize,
}

/// A request of HTTP: its head, and its body.
#[derive(Clone, Copy)]
pub struct HttpRequest<'a> {
    pub head: Head<'a>,
    pub body: &'a [u8],
    /// How many octets of the connection it takes.
    pub extent: usize,
}

/// The result of reading the front of a connection's octets.
#[derive(Clone, Copy)]
pub enum Cut<'a> {
    /// No whole head yet.
    Unfinished,
    /// A whole head, whose body has not come.
    Begun(Head<'a>),
    Whole(HttpRequest<'a>),
    Refused(Refusal),
}

/// A test of the words of a list in a field.
#[derive(Clone, Copy)]
enum Test {
    /// That there is one.
    Present,
    Close,
    DicomJson,
    Json,
    /// The media type of a DICOM JSON Model object.
    JsonBody,
    /// One under which a data set is sent.
    DicomBody,
}

/// Whether a name is that of a field. Letters of either case are one.
pub(crate) fn is_named(name: &[u8], field: &[u8]) -> bool
    ensures { result ≡ is_named name.now field.now }
{
    field.eq_ignore_ascii_case(name)
}

/// The value of the only field with a name. A field that stands twice is refused.
fn sole_value<'a>(
    octets: &'a [u8],
    headers: &[HeaderSpan],
    name: &[u8],
) -> Result<Option<&'a [u8]>, Refusal>
    requires { All (IsHeaderWithin (length octets.now)) headers.now }
    ensures { MatchResult result
        (λ found. IsSole name.now (map (header_bytes octets.now) headers.now) (option_copied found))
        (λ why. (why ≡ Refusal.Request)
        × (1 < length (values_named name.now (map (header_bytes octets.now) headers.now)))) }
{
    let mut found = None;
    for header in headers {
        if is_named(name, header.name.of(octets)) {
            if found.is_some() {
                return Err(Refusal::Request);
            }
            found = Some(header.value.of(octets));
        }
    }
    Ok(found)
}

/// The value of the last field with a name.
fn last_value<'a>(octets: &'a [u8], headers: &[HeaderSpan], name: &[u8]) -> Option<&'a [u8]>
    requires { All (IsHeaderWithin (length octets.now)) headers.now }
    ensures { IsLast name.now (map (header_bytes octets.now) headers.now) (option_copied result) }
{
    let mut found = None;
    for header in headers {
        if is_named(name, header.name.of(octets)) {
            found = Some(header.value.of(octets));
        }
    }
    found
}

fn is_between(octet: u8) -> bool
    ensures { result ≡ is_between octet }
{
    octet == b',' || octet == b' ' || octet == b'\t' || octet == b';'
}

/// Whether a word is a range of media types in which DICOM JSON is.
fn is_dicom_json_range(word: &[u8]) -> bool
    ensures { result ≡ is_dicom_json_range word.now }
{
    is_named(word, b"application/dicom+json")
        || is_named(word, b"application/*")
        || is_named(word, b"*/*")
}

/// Whether a word is one in which JSON is, of DICOM or any.
fn is_json_range(word: &[u8]) -> bool
    ensures { result ≡ is_json_range word.now }
{
    is_dicom_json_range(word) || is_named(word, b"application/json")
}

/// Whether a word is a media type under which a data set is sent: its own, that of any octets, or
/// the one that senders give what they know no type of.
fn is_dicom_type(word: &[u8]) -> bool
    ensures { result ≡ is_dicom_type word.now }
{
    is_named(word, b"application/dicom")
        || is_named(word, b"application/octet-stream")
        || is_named(word, b"application/x-www-form-urlencoded")
}

/// Whether a word of a list passes a test.
fn passes_word(wanted: Test, word: &[u8]) -> bool
    ensures { result ≡ passes_word wanted word.now }
{
    match wanted {
        Test::Present => true,
        Test::Close => is_named(word, b"close"),
        Test::DicomJson => is_dicom_json_range(word),
        Test::Json => is_json_range(word),
        Test::JsonBody => is_named(word, b"application/dicom+json"),
        Test::DicomBody => is_dicom_type(word),
    }
}

/// Whether one of the words of a list does.
fn passes(wanted: Test, list: &[u8]) -> bool
    ensures { result ≡ passes wanted list.now }
{
    let mut is_found = false;
    for word in list.split(|octet| is_between(*octet)) {
        is_found = is_found || passes_word(wanted, word);
    }
    is_found
}

/// Whether one of the values of the fields with a name passes a test.
fn any_passes(octets: &[u8], headers: &[HeaderSpan], name: &[u8], wanted: Test) -> bool
    requires { All (IsHeaderWithin (length octets.now)) headers.now }
    ensures { result ≡ any_passes wanted name.now (map (header_bytes octets.now) headers.now) }
{
    let mut is_found = false;
    for header in headers {
        if is_named(name, header.name.of(octets)) {
            is_found = is_found || passes(wanted, header.value.of(octets));
        }
    }
    is_found
}

/// Whether the fields accept JSON.
fn accepts_json(octets: &[u8], headers: &[HeaderSpan]) -> bool
    requires { All (IsHeaderWithin (length octets.now)) headers.now }
    ensures { result ≡ (any_passes test.Json (codes "accept") (map (header_bytes octets.now) headers.now)
        || not (any_passes test.Present (codes "accept") (map (header_bytes octets.now) headers.now))) }
{
    any_passes(octets, headers, b"accept", Test::Json)
        || !any_passes(octets, headers, b"accept", Test::Present)
}

/// The form that the fields say the body has. Without a Content-Type it is a data set.
fn body_form(octets: &[u8], headers: &[HeaderSpan]) -> BodyForm
    requires { All (IsHeaderWithin (length octets.now)) headers.now }
    ensures { result ≡ body_form (map (header_bytes octets.now) headers.now) }
{
    if any_passes(octets, headers, b"content-type", Test::JsonBody) {
        return BodyForm::DicomJson;
    }
    if any_passes(octets, headers, b"content-type", Test::DicomBody) {
        return BodyForm::Dicom;
    }
    if any_passes(octets, headers, b"content-type", Test::Present) {
        BodyForm::Other
    } else {
        BodyForm::Dicom
    }
}

/// The values of the fields that count.
fn fields_of<'a>(octets: &'a [u8], headers: &[HeaderSpan]) -> Result<Fields<'a>, Refusal>
    requires { All (IsHeaderWithin (length octets.now)) headers.now }
    ensures { MatchResult result (AreFields (map (header_bytes octets.now) headers.now))
        (λ why. (why ≡ Refusal.Request)
        × HasRepeated (map (header_bytes octets.now) headers.now)) }
{
    let host = sole_value(octets, headers, b"host")?;
    let origin = sole_value(octets, headers, b"origin")?;
    let fetch_site = sole_value(octets, headers, b"sec-fetch-site")?;
    let fetch_dest = sole_value(octets, headers, b"sec-fetch-dest")?;
    let request_method = sole_value(octets, headers, b"access-control-request-method")?;
    let authorization = sole_value(octets, headers, b"authorization")?;
    let expect = sole_value(octets, headers, b"expect")?;
    let content_length = sole_value(octets, headers, b"content-length")?;
    let transfer_encoding = sole_value(octets, headers, b"transfer-encoding")?;
    Ok(Fields {
        host,
        origin,
        fetch_site,
        fetch_dest,
        request_method,
        authorization,
        expect,
        forwarded_for: last_value(octets, headers, b"x-forwarded-for"),
        forwarded: last_value(octets, headers, b"forwarded"),
        content_length,
        transfer_encoding,
        closes: any_passes(octets, headers, b"connection", Test::Close),
        accepts_json: accepts_json(octets, headers),
        asks_dicom_json: any_passes(octets, headers, b"accept", Test::DicomJson),
        body_form: body_form(octets, headers),
    })
}

pub(crate) fn are_digits(text: &[u8]) -> bool
    ensures { result ≡ list_all is_ascii_digit text.now }
{
    text.iter().all(|octet| octet.is_ascii_digit())
}

fn is_numeral(text: &[u8]) -> bool
    ensures { result ≡ is_numeral text.now }
{
    !text.is_empty() && are_digits(text)
}

/// A length of a body, unless it is over what a body may have.
fn within_most(length: usize) -> Result<usize, Refusal>
    ensures { MatchResult result (λ it. (it ≡ length) × (it ≤ 0x100000))
        (λ why. (why ≡ Refusal.Length) × (0x100000 < length)) }
{
    if length <= BODY_MOST {
        Ok(length)
    } else {
        Err(Refusal::Length)
    }
}

/// The number of octets that a Content-Length says (RFC 9110 section 8.6).
fn length_in(value: &[u8]) -> Result<usize, Refusal>
    ensures { MatchResult result (IsContentLength value.now) (IsBadLength value.now) }
{
    if !is_numeral(value) {
        return Err(Refusal::Request);
    }
    let Ok(text) = str::from_utf8(value) else {
        return Err(Refusal::Request);
    };
    match text.parse::<usize>() {
        Ok(length) => within_most(length),
        Err(_) => Err(Refusal::Length),
    }
}

/// The number of octets of the body. A head without a Content-Length has none.
fn body_length(value: Option<&[u8]>) -> Result<usize, Refusal>
    ensures { MatchResult result (IsBodyLength (option_copied value.entry))
        (λ why. (text : List ℕ) × (option_copied value.entry ≡ Some text) × IsBadLength text why) }
{
    match value {
        Some(value) => length_in(value),
        None => Ok(0),
    }
}

fn ends_here(is_old: bool, closes: bool) -> bool
    ensures { result ≡ (is_old || closes) }
{
    is_old || closes
}

/// The whole head at the front of octets.
fn head_at<'a>(
    octets: &'a [u8],
    headers: &[HeaderSpan],
    spans: RequestSpans,
) -> Result<Head<'a>, Refusal>
    requires within { IsRequestWithin octets.now headers.now spans }
    requires head { IsRequestOf octets.now headers.now spans }
    requires bound { spans.len ≤ 16384 }
    ensures head { IfOk result (IsHead octets.now) }
    ensures extent { IfOk result (λ head. head.extent ≡ spans.len) }
    ensures bad { IfErr result (HasBadHead octets.now) }
{
    let fields = fields_of(octets, &headers[..spans.headers])?;
    if fields.transfer_encoding.is_some() {
        return Err(Refusal::Coding);
    }
    let body_length = body_length(fields.content_length)?;
    let is_old = spans.version == 0;
    let is_last = ends_here(is_old, fields.closes);
    Ok(Head {
        method: spans.method.of(octets),
        target: spans.path.of(octets),
        fields,
        is_old,
        is_last,
        extent: spans.len,
        body_length,
    })
}

/// The request of a whole head, if its body is there too.
fn request_at<'a>(
    octets: &'a [u8],
    headers: &[HeaderSpan],
    spans: RequestSpans,
) -> Result<Cut<'a>, Refusal>
    requires within { IsRequestWithin octets.now headers.now spans }
    requires head { IsRequestOf octets.now headers.now spans }
    ensures { MatchResult result (IsCutOff octets.now) (HasBadHead octets.now) }
{
    if spans.len > HEAD_MOST {
        return Err(Refusal::Head);
    }
    let head = head_at(octets, headers, spans)?;
    let (_, rest) = octets.split_at(spans.len);
    match rest.split_at_checked(head.body_length) {
        Some((body, _)) => Ok(Cut::Whole(HttpRequest {
            head,
            body,
            extent: head.extent + body.len(),
        })),
        None => Ok(Cut::Begun(head)),
    }
}

/// The request at the front of the octets that came on a connection, once it is whole. One that the
/// grammar does not allow is refused with 400, as one with a field twice that counts here; a head of
/// over 16 KiB or 64 fields with 431, a body of over 1 MiB with 413, and a body in chunks with 501.
pub fn cut_off(octets: &[u8]) -> Cut<'_>
    ensures { IsCutOff octets.now result }
{
    let mut headers = [EMPTY_HEADER_SPAN; MOST_FIELDS];
    match parse_request(octets, &mut headers) {
        Ok(Parsed::Complete(spans)) => match request_at(octets, &headers, spans) {
            Ok(cut) => cut,
            Err(refusal) => Cut::Refused(refusal),
        },
        Ok(Parsed::Partial) => {
            if octets.len() <= HEAD_MOST {
                Cut::Unfinished
            } else {
                Cut::Refused(Refusal::Head)
            }
        }
        Err(Error::TooManyHeaders) => Cut::Refused(Refusal::Head),
        Err(_) => Cut::Refused(Refusal::Request),
    }
}

impl Head<'_> {
    /// Whether a response to it has no content (RFC 9110 section 9.3.2).
    pub fn is_head(&self) -> bool
        ensures { result ≡ is_of_head self.now }
    {
        self.method == b"HEAD".as_slice()
    }

    /// Whether its sender waits for leave to send the body, as none of HTTP/1.0 does (RFC 9110 section
    /// 10.1.1).
    pub fn is_expecting(&self) -> bool
        ensures { result ≡ is_expecting self.now }
    {
        match self.fields.expect {
            Some(value) => !self.is_old && is_named(value, b"100-continue"),
            None => false,
        }
    }
}
