//! The answer to an association request (PS3.8 sections 7.1.1 and 9.3.2 to 9.3.4, PS3.7 annex D.3).
ghost use Rattle.std.specs.Prelude.{◌≡◌, map, Some, None, IfOk, MatchResult};
ghost use Rattle.dq_assoc.specs.Negotiation.{syntax_uid, offers, preferred_syntax, context_result, is_accepted, answered_context, agreement_of, peer_limit, acceptance_of, is_dicom, rejection, rejection_numbers};

use crate::agreement::{AcceptedContext, Agreement, PeerLimit};
use crate::association::Verdict;
use crate::classes::SopClass;
use dq_dataset::Syntax;
use dq_list::Listed;
use dq_pdu::{Accept, AnsweredContext, LONGEST_BODY, Pdu, ProposedContext, Request};
use std::alloc::{AllocError, Global};

/// The DICOM application context (PS3.7 annex A.2.1).
const DICOM_CONTEXT: &[u8] = b"1.2.840.10008.3.1.1.1";

/// Implicit VR Little Endian (PS3.5 annex A.1).
const IMPLICIT_SYNTAX: &[u8] = b"1.2.840.10008.1.2";

/// Explicit VR Little Endian (PS3.5 annex A.2).
const EXPLICIT_SYNTAX: &[u8] = b"1.2.840.10008.1.2.1";

/// The protocol's version, a field of bits: version 1 is bit 0 (PS3.8 section 9.3.2).
const PROTOCOL_VERSION: u16 = 0x0001;

/// The result of a presentation context that is accepted (PS3.8 table 9-18).
const ACCEPTANCE: u8 = 0x00;

/// The result of a refused presentation context (PS3.8 table 9-18).
#[derive(Clone, Copy, Debug, PartialEq, Eq)]
pub enum ContextRefusal {
    /// Its class is not served.
    AbstractSyntaxNotSupported = 0x03,
    /// It offers none of the transfer syntaxes that are taken.
    TransferSyntaxesNotSupported = 0x04,
}

fn syntax_uid(syntax: Syntax) -> &'static [u8]
    ensures { result.now ≡ syntax_uid syntax }
{
    match syntax {
        Syntax::Implicit => IMPLICIT_SYNTAX,
        Syntax::Explicit => EXPLICIT_SYNTAX,
    }
}

fn offers(syntaxes: &[Listed<u8>], syntax: Syntax) -> bool
    ensures { result ≡ offers syntaxes.now (syntax_uid syntax) }
{
    let uid = syntax_uid(syntax);
    syntaxes.iter().any(|offered| offered.as_slice() == uid)
}

fn preferred_syntax(offered: &[Listed<u8>]) -> Option<Syntax>
    ensures { result ≡ preferred_syntax offered.now }
{
    if offers(offered, Syntax::Explicit) {
        Some(Syntax::Explicit)
    } else if offers(offered, Syntax::Implicit) {
        Some(Syntax::Implicit)
    } else {
        None
    }
}

/// Returns the result of a proposed context: the context that is agreed on, in Explicit VR Little
/// Endian if that is offered, else in Implicit, or why it is refused.
pub fn context_result(context: &ProposedContext) -> Result<AcceptedContext, ContextRefusal>
    ensures { result ≡ context_result context.now }
{
    let Some(class) = SopClass::of(context.abstract_syntax.as_slice()) else {
        return Err(ContextRefusal::AbstractSyntaxNotSupported);
    };
    let Some(syntax) = preferred_syntax(context.transfer_syntaxes.as_slice()) else {
        return Err(ContextRefusal::TransferSyntaxesNotSupported);
    };
    Ok(AcceptedContext {
        id: context.id,
        class,
        syntax,
    })
}

/// Whether a context is accepted.
pub fn is_accepted(context: &ProposedContext) -> bool
    ensures { result ≡ is_accepted context.now }
{
    context_result(context).is_ok()
}

/// Returns the agreement on a request once it is accepted: the contexts that are accepted, in
/// order, its called title and its limit.
pub(crate) fn agreement_of(
    alloc: Global,
    request: &Request,
    limit: PeerLimit,
) -> Result<Agreement, AllocError>
    requires { limit ≡ peer_limit request.now }
    ensures { IfOk result (λ agreement. agreement ≡ agreement_of request.now) }
{
    let mut contexts = Listed::empty(alloc);
    for context in request.contexts.as_slice() {
        if let Ok(agreed) = context_result(context) {
            contexts.push(agreed)?;
        }
    }
    Ok(Agreement {
        contexts,
        called: request.called,
        limit,
    })
}

fn answered_context(alloc: Global, context: &ProposedContext) -> Result<AnsweredContext, AllocError>
    ensures { IfOk result (λ answer. answer ≡ answered_context context.now) }
{
    let (result, syntax) = match context_result(context) {
        Ok(agreed) => (ACCEPTANCE, agreed.syntax),
        Err(refusal) => (refusal as u8, Syntax::Implicit),
    };
    Ok(AnsweredContext {
        id: context.id,
        result,
        transfer_syntax: Listed::copy_of(alloc, syntax_uid(syntax))?,
    })
}

fn answered_contexts(
    alloc: Global,
    contexts: &[ProposedContext],
) -> Result<Listed<AnsweredContext>, AllocError>
    ensures { IfOk result (λ answers. answers ≡ map answered_context contexts.now) }
{
    let mut answers = Listed::empty(alloc);
    for context in contexts {
        answers.push(answered_context(alloc, context)?)?;
    }
    Ok(answers)
}

/// The acceptance of a request: version 1, both titles and the reserved octets as received, each
/// context answered in order, and the longest PDU that is received (PS3.8 section 9.3.3).
pub(crate) fn acceptance(alloc: Global, request: &Request) -> Result<Pdu, AllocError>
    ensures { IfOk result (λ answer. answer ≡ acceptance_of request.now) }
{
    Ok(Pdu::Accept(Accept {
        version: PROTOCOL_VERSION,
        called: request.called,
        calling: request.calling,
        reserved: request.reserved,
        application_context: Some(Listed::copy_of(alloc, DICOM_CONTEXT)?),
        contexts: answered_contexts(alloc, request.contexts.as_slice())?,
        maximum_length: Some(LONGEST_BODY as u32),
    }))
}

fn is_dicom(name: &Option<Listed<u8>>) -> bool
    ensures { result ≡ is_dicom name.now }
{
    match name {
        None => false,
        Some(name) => name.as_slice() == DICOM_CONTEXT,
    }
}

/// The results of a rejection: for good, or for now (PS3.8 table 9-21).
const PERMANENT: u8 = 0x01;

const TRANSIENT: u8 = 0x02;

/// The sources of a rejection: the service user, and the association and presentation parts of the
/// provider.
const SERVICE_USER: u8 = 0x01;

const ASSOCIATION_PROVIDER: u8 = 0x02;

const PRESENTATION_PROVIDER: u8 = 0x03;

/// The reasons of a rejection, by source: two of the user's, one of each part of the provider.
const NO_REASON: u8 = 0x01;

const APPLICATION_CONTEXT_NOT_SUPPORTED: u8 = 0x02;

const PROTOCOL_VERSION_NOT_SUPPORTED: u8 = 0x02;

const LOCAL_LIMIT_EXCEEDED: u8 = 0x02;

/// The reason why a request is rejected (PS3.8 section 9.3.4).
#[derive(Clone, Copy, Debug, PartialEq, Eq)]
pub enum Rejection {
    /// It asks for another version of the protocol.
    ProtocolVersion,
    /// Its application context is not that of DICOM.
    ApplicationContext,
    /// Its maximum length leaves no room for data (PS3.8 annex D.1).
    MaximumLength,
    /// Its titles name no institution.
    Titles,
    /// The institution has as many associations as it may have.
    Associations,
}

impl Rejection {
    /// Returns the result, the source and the reason. Unknown titles have those of a maximum length
    /// without room: nobody is told which title is unknown, and PS3.8 has no reason for such a length.
    pub fn numbers(self) -> (u8, u8, u8)
        ensures { result ≡ rejection_numbers self }
    {
        match self {
            Rejection::ProtocolVersion => {
                (
                    PERMANENT,
                    ASSOCIATION_PROVIDER,
                    PROTOCOL_VERSION_NOT_SUPPORTED,
                )
            }
            Rejection::ApplicationContext => {
                (PERMANENT, SERVICE_USER, APPLICATION_CONTEXT_NOT_SUPPORTED)
            }
            Rejection::MaximumLength | Rejection::Titles => (PERMANENT, SERVICE_USER, NO_REASON),
            Rejection::Associations => (TRANSIENT, PRESENTATION_PROVIDER, LOCAL_LIMIT_EXCEEDED),
        }
    }
}

/// The rejection of a request, or the peer's limit where there is none: its version, its
/// application context, its maximum length and then its titles are looked at (PS3.8 section 9.3.4).
pub(crate) fn peer_limit(request: &Request, verdict: Verdict) -> Result<PeerLimit, Rejection>
    ensures { MatchResult result
        (λ limit. (rejection request.now verdict ≡ None) × (limit ≡ peer_limit request.now))
        (λ why. rejection request.now verdict ≡ Some why) }
{
    if request.version % 2 == 0 {
        return Err(Rejection::ProtocolVersion);
    }
    if !is_dicom(&request.application_context) {
        return Err(Rejection::ApplicationContext);
    }
    let Some(limit) = PeerLimit::of(request.maximum_length) else {
        return Err(Rejection::MaximumLength);
    };
    match verdict {
        Verdict::Accept => Ok(limit),
        Verdict::Nowhere => Err(Rejection::Titles),
        Verdict::Busy => Err(Rejection::Associations),
    }
}
