//! The elements of one level, lent from the octets that spell them (PS3.5 section 7.1).
ghost use Rattle.std.specs.Prelude.{◌≡◌, ◌<◌, length, IfOk};
ghost use Rattle.dq_dataset.specs.DataSetReader.{Answers};
ghost use Rattle.dq_dataset.specs.Agreement.{AgreesWith};
ghost use Rattle.dq_dataset.specs.Lending.{next_at, inner_syntax, lent_elements};

use crate::checking::value_end;
use crate::data_set_reader::DEPTH;
use crate::fault::ReadFault;
use crate::header::{Content, Header, Syntax, header_at, length_of};
use dq_vr::{Tag, Vr};
use std::marker::Model;

/// An element, with the octets of its value as spelled, without the end of an undefined length, and
/// the syntax in which they spell items where the VR is SQ.
#[derive(Clone, Copy, PartialEq, Eq)]
pub struct Lent<'a> {
    pub tag: Tag,
    pub vr: Vr,
    pub syntax: Syntax,
    pub octets: &'a [u8],
}

/// Goes over the elements of the outer level, and ends after the first fault. Group lengths are
/// left out.
#[derive(Drop)]
pub struct Elements<'a> {
    syntax: Syntax,
    last: Option<Tag>,
    rest: &'a [u8],
}

impl<'a> Model for Elements<'a> {
    ghost use Rattle.std.specs.Prelude.{List, Result};
    ghost use Rattle.dq_dataset.specs.declared.fault.ReadFault.{ReadFault};
    ghost use Rattle.dq_dataset.specs.Lending.{Spelled, lent_from};
    ghost use Rattle.dq_list.specs.Octets.{AreOctets};

    ghost Value = { List (Result Spelled ReadFault) };

    ghost view = { λ e. lent_from e.syntax e.last e.rest.now };

    ghost invariant = { λ e. AreOctets e.rest.now };
}

type Next<'a> = ((Header, &'a [u8]), &'a [u8]);

/// The next element: its header, the octets of its value, and what is left.
#[tactic(auto, unfolding(crate::specs::Lending::next_at))]
fn next_at<'a>(syntax: Syntax, last: Option<Tag>, octets: &'a [u8]) -> Result<Next<'a>, ReadFault>
    ensures value { Answers (λ x. ((x.0.0, x.0.1.now), x.1.now)) result
        (next_at syntax last octets.now) }
    ensures shorter { IfOk result (λ x. length x.1.now < length octets.now) }
{
    let (header, behind) = header_at(syntax, DEPTH, last, octets)?;
    let rest = value_end(DEPTH, header.content, behind)?;
    let length = match length_of(header.content) {
        Some(length) => length as usize,
        // The end of a sequence takes 8 octets.
        None => (behind.len() - rest.len()).saturating_sub(8),
    };
    let (value, _) = behind.split_at(length);
    Ok(((header, value), rest))
}

/// The syntax of a value's items.
fn inner_syntax(outer: Syntax, content: Content) -> Syntax
    ensures { result ≡ inner_syntax outer content }
{
    match content {
        Content::Plain(_) => outer,
        Content::Sequence(inner, _) => inner,
    }
}

impl<'a> Elements<'a> {
    /// The elements that the octets spell in the syntax.
    pub fn new(octets: &'a [u8], syntax: Syntax) -> Elements<'a>
        ensures lent { result ≡ lent_elements syntax octets.now }
        // One for each element of the data set, or for each before the first fault, then that.
        ensures agrees { AgreesWith syntax octets.now result }
    {
        Elements {
            syntax,
            last: None,
            rest: octets,
        }
    }
}

impl<'a> Iterator for Elements<'a> {
    ghost use Rattle.std.specs.Iterator.{YieldsFirstBy, item_count};
    ghost use Rattle.dq_dataset.specs.LentView.{lent_view};

    type Item = Result<Lent<'a>, ReadFault>;

    ghost next_gives = { YieldsFirstBy lent_view (λ left. left) };

    ghost remaining = { item_count (λ left. left) };

    fn next(&mut self) -> Option<Result<Lent<'a>, ReadFault>> {
        while !self.rest.is_empty() {
            match next_at(self.syntax, self.last, self.rest) {
                Err(fault) => {
                    self.rest = &[];
                    return Some(Err(fault));
                }
                Ok(((header, octets), rest)) => {
                    let Header { tag, vr, content } = header;
                    self.last = Some(tag);
                    self.rest = rest;
                    if tag.element != 0 {
                        let syntax = inner_syntax(self.syntax, content);
                        return Some(Ok(Lent {
                            tag,
                            vr,
                            syntax,
                            octets,
                        }));
                    }
                }
            }
        }
        None
    }
}
