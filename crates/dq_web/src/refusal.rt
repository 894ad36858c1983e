//! Why a request is refused.
ghost use Rattle.std.specs.Prelude.{◌≡◌};
ghost use Rattle.dq_web.specs.Responses.{refusal_word};

/// The methods of what stands at a path.
#[derive(Clone, Copy, Debug, PartialEq, Eq)]
pub enum Allowed {
    Get,
    Post,
    Delete,
    GetAndPost,
}

/// Why a request is refused before the server is asked.
#[derive(Clone, Copy, Debug, PartialEq, Eq)]
pub enum Refusal {
    /// The request is none of the grammar, or asks for nothing that can be.
    Request,
    /// The head has too many octets or fields.
    Head,
    /// The body has too many octets.
    Length,
    /// The body comes in a transfer coding.
    Coding,
    /// The host is another server's.
    Host,
    /// A page of another origin sent it.
    Origin,
    /// Nothing stands at the path.
    Path,
    /// The resource at the path has other methods.
    Method(Allowed),
    /// The key does not open the path.
    Key,
    /// The key opens the path, and may not do what is asked there.
    Right,
    /// The resource at the path is in no form that is accepted.
    Accept,
    /// The body has another media type than those that are read.
    MediaType,
    /// The search is not supported.
    Unsupported,
    /// The head or the body did not come in the time that it has.
    Time,
}

impl Allowed {
    /// Returns the methods as the field Allow lists them (RFC 9110 section 10.2.1).
    pub fn list(self) -> &'static str {
        match self {
            Allowed::Get => "GET, HEAD",
            Allowed::Post => "POST",
            Allowed::Delete => "DELETE",
            Allowed::GetAndPost => "GET, HEAD, POST",
        }
    }
}

impl Refusal {
    /// Returns the one word for it in the body of a response.
    pub fn word(self) -> &'static str
        ensures { result.now ≡ refusal_word self }
    {
        match self {
            Refusal::Request => "request",
            Refusal::Head => "head",
            Refusal::Length => "length",
            Refusal::Coding => "coding",
            Refusal::Host => "host",
            Refusal::Origin => "origin",
            Refusal::Path => "path",
            Refusal::Method(_) => "method",
            Refusal::Key => "key",
            Refusal::Right => "right",
            Refusal::Accept => "accept",
            Refusal::MediaType => "media type",
            Refusal::Unsupported => "unsupported",
            Refusal::Time => "time",
        }
    }
}
