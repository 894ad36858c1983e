//! The parts of a PDU, as they are written.
ghost use Rattle.std.specs.Prelude.{◌≡◌, ◌≤◌, ◌<◌, ◌+◌, ◌∷◌, ◌++◌, ℕ, List, length, OnOk};
ghost use Rattle.std.specs.Int.{w16, to_be_bytes};
ghost use Rattle.std.specs.List.{flat_map};
ghost use Rattle.dq_pdu.specs.Numbers.{transfer_syntax_item, longest_body};
ghost use Rattle.dq_pdu.specs.Writing.{item, proposed_context_octets, proposed_body, answered_context_octets, control_header, pdv};
ghost use Rattle.dq_pdu.specs.Widths.{capped_count};

use crate::numbers::{CONTEXT_FIELDS, ITEM_HEADER, PDV_FIELDS, PDV_HEADER, item_type};
use crate::pdu::{AnsweredContext, Pdv, ProposedContext};
use dq_list::Listed;
use std::alloc::AllocError;

/// A part of a PDU that stands in a list of its kind.
pub(crate) trait Part {
    ghost octets: { Self → List ℕ };

    /// How many octets it takes, or the greatest `usize`.
    fn size(&self) -> usize
        ensures { result ≡ capped_count (length (octets self.now)) };

    /// Writes it at the end.
    fn put(&self, out: &mut Vec<u8>) -> Result<(), AllocError>
        requires { length (octets self.now) ≤ longest_body }
        ensures { OnOk result (out.new.items ≡ out.old.items ++ octets self.now) };
}

/// How many octets the parts take, or the greatest `usize`.
pub(crate) fn size_of_parts<P: Part>(parts: &[P]) -> usize
    ensures { result ≡ capped_count (length (flat_map P.octets parts.now)) }
{
    let mut total: usize = 0;
    for part in parts {
        total = total.saturating_add(part.size());
    }
    total
}

/// Writes parts one after the other.
pub(crate) fn put_parts<P: Part>(out: &mut Vec<u8>, parts: &[P]) -> Result<(), AllocError>
    requires { length (flat_map P.octets parts.now) ≤ longest_body }
    ensures { OnOk result (out.new.items ≡ out.old.items ++ flat_map P.octets parts.now) }
{
    for part in parts {
        part.put(out)?;
    }
    Ok(())
}

/// Writes an item's header: its type, a reserved octet and the length of its body (PS3.8 section
/// 9.3.2).
pub(crate) fn put_item_header(out: &mut Vec<u8>, kind: u8, size: usize) -> Result<(), AllocError>
    requires { size < 65536 }
    ensures { OnOk result (out.new.items ≡ out.old.items ++ kind ∷ 0 ∷ to_be_bytes w16 size) }
{
    out.extend_from_slice(&[kind, 0])?;
    out.extend_from_slice(&(size as u16).to_be_bytes())
}

/// Writes an item: its type, a reserved octet, its length and its body (PS3.8 section 9.3.2).
pub(crate) fn put_item(out: &mut Vec<u8>, kind: u8, body: &[u8]) -> Result<(), AllocError>
    requires { length body.now < 65536 }
    ensures { OnOk result (out.new.items ≡ out.old.items ++ item kind body.now) }
{
    put_item_header(out, kind, body.len())?;
    out.extend_from_slice(body)
}

/// A transfer syntax, as a sub-item (PS3.8 section 9.3.2.2.2).
impl Part for Listed<u8> {
    ghost octets = { item transfer_syntax_item };

    fn size(&self) -> usize {
        self.len().saturating_add(ITEM_HEADER)
    }

    fn put(&self, out: &mut Vec<u8>) -> Result<(), AllocError> {
        put_item(out, item_type::TRANSFER_SYNTAX, self.as_slice())
    }
}

fn proposed_size(context: &ProposedContext) -> usize
    ensures { result ≡ capped_count (length (proposed_body context.now)) }
{
    let names = size_of_parts(context.transfer_syntaxes.as_slice());
    let name = context.abstract_syntax.len();
    names
        .saturating_add(name)
        .saturating_add(CONTEXT_FIELDS + ITEM_HEADER)
}

impl Part for ProposedContext {
    ghost octets = { proposed_context_octets };

    fn size(&self) -> usize {
        proposed_size(self).saturating_add(ITEM_HEADER)
    }

    fn put(&self, out: &mut Vec<u8>) -> Result<(), AllocError> {
        put_item_header(out, item_type::PROPOSED_CONTEXT, proposed_size(self))?;
        out.extend_from_slice(&[self.id, 0, 0, 0])?;
        let abstract_syntax = self.abstract_syntax.as_slice();
        put_item(out, item_type::ABSTRACT_SYNTAX, abstract_syntax)?;
        put_parts(out, self.transfer_syntaxes.as_slice())
    }
}

impl Part for AnsweredContext {
    ghost octets = { answered_context_octets };

    fn size(&self) -> usize {
        self.transfer_syntax
            .len()
            .saturating_add(ITEM_HEADER + CONTEXT_FIELDS + ITEM_HEADER)
    }

    fn put(&self, out: &mut Vec<u8>) -> Result<(), AllocError> {
        let size = CONTEXT_FIELDS + ITEM_HEADER + self.transfer_syntax.len();
        put_item_header(out, item_type::ANSWERED_CONTEXT, size)?;
        out.extend_from_slice(&[self.id, 0, self.result, 0])?;
        let transfer_syntax = self.transfer_syntax.as_slice();
        put_item(out, item_type::TRANSFER_SYNTAX, transfer_syntax)
    }
}

/// The control header of a PDV: whether it is of a command, and whether it is the last (PS3.8 annex
/// E.2).
fn control_header(command: bool, last: bool) -> u8
    ensures { result ≡ control_header command last }
{
    u8::from(command) + 2 * u8::from(last)
}

/// Writes a PDV: its length, its context's id, its control header and its fragment (PS3.8 section
/// 9.3.5.1).
pub(crate) fn put_pdv(
    out: &mut Vec<u8>,
    context: u8,
    command: bool,
    last: bool,
    fragment: &[u8],
) -> Result<(), AllocError>
    requires { length fragment.now ≤ longest_body }
    ensures { OnOk result (out.new.items ≡ out.old.items ++ pdv (record {
      context = context;
      command = command;
      last = last;
      octets = fragment.now;
    })) }
{
    let size = fragment.len() + PDV_FIELDS;
    out.extend_from_slice(&(size as u32).to_be_bytes())?;
    out.extend_from_slice(&[context, control_header(command, last)])?;
    out.extend_from_slice(fragment)
}

impl Part for Pdv {
    ghost octets = { pdv };

    fn size(&self) -> usize {
        self.octets.len().saturating_add(PDV_HEADER)
    }

    fn put(&self, out: &mut Vec<u8>) -> Result<(), AllocError> {
        let fragment = self.octets.as_slice();
        put_pdv(out, self.context, self.command, self.last, fragment)
    }
}
