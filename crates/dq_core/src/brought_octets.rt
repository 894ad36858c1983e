//! The values that events bring are octets, by their type.
ghost use Rattle.dq_list.specs.Octets.{AreOctets};
ghost use Rattle.dq_core.specs.Soundness.{BringsOctets, BringOctets};

use crate::event::Event;

/// The octets of a slice are below 256.
fn are_octets(_octets: &[u8])
    ensures { AreOctets _octets.now }
{}

/// The values that one event brings are octets.
fn brings_octets(event: &Event)
    ensures { BringsOctets event.now }
{
    match event {
        Event::Piece(_, octets) | Event::Schedule { inst: _, octets } => {
            are_octets(octets.as_slice());
        }
        Event::Open(_) | Event::End(_) | Event::Pull(_) | Event::Withdraw { inst: _, id: _ } => {}
    }
}

/// The values that events bring are octets. Nothing is done: contracts learn it from the types.
pub(crate) fn bring_octets(events: &[Event])
    ensures { BringOctets events.now }
{
    for event in events {
        brings_octets(event);
    }
}
