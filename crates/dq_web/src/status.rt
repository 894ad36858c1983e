//! The statuses of responses (RFC 9110 section 15).
ghost use Rattle.std.specs.Prelude.{◌≡◌};
ghost use Rattle.dq_web.specs.Responses.{status_line, status_code, refusal_status};

use crate::refusal::{Allowed, Refusal};

/// The status that a response gives for its request.
#[derive(Clone, Copy, Debug, PartialEq, Eq)]
pub enum Status {
    Done,
    Created,
    NoContent,
    /// No content, and leave to look.
    Preflight,
    BadRequest,
    Unauthorized,
    Forbidden,
    NotFound,
    MethodNotAllowed(Allowed),
    NotAcceptable,
    RequestTimeout,
    Conflict,
    TooLarge,
    UnsupportedMediaType,
    Misdirected,
    HeadTooLarge,
    ServerError,
    NotImplemented,
    Unavailable,
    Full,
}

impl Status {
    /// Returns the status code.
    pub fn code(self) -> u16
        ensures { result ≡ status_code self }
    {
        match self {
            Status::Done => 200,
            Status::Created => 201,
            Status::NoContent | Status::Preflight => 204,
            Status::BadRequest => 400,
            Status::Unauthorized => 401,
            Status::Forbidden => 403,
            Status::NotFound => 404,
            Status::MethodNotAllowed(_) => 405,
            Status::NotAcceptable => 406,
            Status::RequestTimeout => 408,
            Status::Conflict => 409,
            Status::TooLarge => 413,
            Status::UnsupportedMediaType => 415,
            Status::Misdirected => 421,
            Status::HeadTooLarge => 431,
            Status::ServerError => 500,
            Status::NotImplemented => 501,
            Status::Unavailable => 503,
            Status::Full => 507,
        }
    }

    /// Returns the status code and the reason phrase.
    pub(crate) fn line(self) -> &'static str
        ensures { result.now ≡ status_line self }
    {
        match self {
            Status::Done => "200 OK",
            Status::Created => "201 Created",
            Status::NoContent | Status::Preflight => "204 No Content",
            Status::BadRequest => "400 Bad Request",
            Status::Unauthorized => "401 Unauthorized",
            Status::Forbidden => "403 Forbidden",
            Status::NotFound => "404 Not Found",
            Status::MethodNotAllowed(_) => "405 Method Not Allowed",
            Status::NotAcceptable => "406 Not Acceptable",
            Status::RequestTimeout => "408 Request Timeout",
            Status::Conflict => "409 Conflict",
            Status::TooLarge => "413 Content Too Large",
            Status::UnsupportedMediaType => "415 Unsupported Media Type",
            Status::Misdirected => "421 Misdirected Request",
            Status::HeadTooLarge => "431 Request Header Fields Too Large",
            Status::ServerError => "500 Internal Server Error",
            Status::NotImplemented => "501 Not Implemented",
            Status::Unavailable => "503 Service Unavailable",
            Status::Full => "507 Insufficient Storage",
        }
    }

    /// Returns the status of a refusal of the front.
    pub(crate) fn of(refusal: Refusal) -> Status
        ensures { result ≡ refusal_status refusal }
    {
        match refusal {
            Refusal::Request => Status::BadRequest,
            Refusal::Head => Status::HeadTooLarge,
            Refusal::Length => Status::TooLarge,
            Refusal::Coding => Status::NotImplemented,
            Refusal::Host => Status::Misdirected,
            Refusal::Origin => Status::Forbidden,
            Refusal::Path => Status::NotFound,
            Refusal::Method(allowed) => Status::MethodNotAllowed(allowed),
            Refusal::Key => Status::Unauthorized,
            Refusal::Right => Status::Forbidden,
            Refusal::Accept => Status::NotAcceptable,
            Refusal::MediaType => Status::UnsupportedMediaType,
            Refusal::Unsupported => Status::NotImplemented,
            Refusal::Time => Status::RequestTimeout,
        }
    }
}
