//! Rules that the parts of a PDU have to keep (PS3.8 section 9.3).
ghost use Rattle.std.specs.Prelude.{◌≡◌, ℕ, map};
ghost use Rattle.std.specs.List.{list_all};
ghost use Rattle.dq_pdu.specs.Octets.{is_uid_padding, is_number_among, are_distinct};
ghost use Rattle.dq_pdu.specs.Writing.{is_bare, is_uid_name, is_proposable, is_answerable, has_parts};

use crate::pdu::{AnsweredContext, Pdu, ProposedContext};
use dq_list::Listed;

/// A presentation context, by its id.
pub(crate) trait Identified {
    ghost id_of: { Self → ℕ };

    fn id(&self) -> u8
        ensures { result ≡ id_of self.now };
}

impl Identified for ProposedContext {
    ghost id_of = { λ c. c.id };

    fn id(&self) -> u8 {
        self.id
    }
}

impl Identified for AnsweredContext {
    ghost id_of = { λ c. c.id };

    fn id(&self) -> u8 {
        self.id
    }
}

/// Whether a context has the id.
fn has_id<C: Identified>(id: u8, contexts: &[C]) -> bool
    ensures { result ≡ is_number_among id (map C.id_of contexts.now) }
{
    for context in contexts {
        if context.id() == id {
            return true;
        }
    }
    false
}

/// Whether no id comes again.
pub(crate) fn are_distinct<C: Identified>(contexts: &[C]) -> bool
    ensures { result ≡ are_distinct (map C.id_of contexts.now) }
{
    let mut rest = contexts;
    while let [first, others @ ..] = rest {
        if has_id(first.id(), others) {
            return false;
        }
        rest = others;
    }
    true
}

/// Whether a unique identifier may be padded with the octet (PS3.5 section 9.1).
pub(crate) fn is_padding(octet: u8) -> bool
    ensures { result ≡ is_uid_padding octet }
{
    octet == 0x00 || octet == b' '
}

/// Whether no padding stands at the end.
#[tactic(auto, using(crate::proofs::Lists::bare_last))]
fn is_bare(octets: &[u8]) -> bool
    ensures { result ≡ is_bare octets.now }
{
    match octets {
        [] => true,
        [.., last] => !is_padding(*last),
    }
}

fn are_bare(names: &[Listed<u8>]) -> bool
    ensures { result ≡ list_all is_bare names.now }
{
    names.iter().all(|name| is_bare(name.inner()))
}

fn is_name(name: &Option<Listed<u8>>) -> bool
    ensures { result ≡ is_uid_name name.now }
{
    match name {
        None => true,
        Some(name) => is_bare(name.inner()),
    }
}

#[tactic(auto, using(crate::proofs::Lists::empty_by_length))]
fn is_proposable(context: &ProposedContext) -> bool
    ensures { result ≡ is_proposable context.now }
{
    let names = context.transfer_syntaxes.inner();
    context.id % 2 == 1
        && is_bare(context.abstract_syntax.inner())
        && !names.is_empty()
        && are_bare(names)
}

fn are_proposable(contexts: &[ProposedContext]) -> bool
    ensures { result ≡ list_all is_proposable contexts.now }
{
    contexts.iter().all(|context| is_proposable(context))
}

fn is_answerable(context: &AnsweredContext) -> bool
    ensures { result ≡ is_answerable context.now }
{
    context.id % 2 == 1 && is_bare(context.transfer_syntax.inner())
}

fn are_answerable(contexts: &[AnsweredContext]) -> bool
    ensures { result ≡ list_all is_answerable contexts.now }
{
    contexts.iter().all(|context| is_answerable(context))
}

/// Whether a PDU has the parts that it needs.
pub(crate) fn has_parts(pdu: &Pdu) -> bool
    ensures { result ≡ has_parts pdu.now }
{
    match pdu {
        Pdu::Request(request) => {
            let contexts = request.contexts.inner();
            is_name(&request.application_context)
                && are_proposable(contexts)
                && are_distinct(contexts)
        }
        Pdu::Accept(accept) => {
            let contexts = accept.contexts.inner();
            is_name(&accept.application_context)
                && are_answerable(contexts)
                && are_distinct(contexts)
        }
        Pdu::PData(values) => !values.inner().is_empty(),
        Pdu::Reject(..) | Pdu::ReleaseRq | Pdu::ReleaseRp | Pdu::Abort(..) => true,
    }
}
