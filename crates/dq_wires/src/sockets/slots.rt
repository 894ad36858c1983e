//! The places of connections over sockets.
ghost use Rattle.std.specs.Prelude.{◌≡◌, length, map, filter, replicate, None, option_map, IfOk};
ghost use Rattle.std.specs.List.{list_any};
ghost use Rattle.std.specs.Option.{option_copied};
ghost use Rattle.dq_wires.specs.Limits.{most_wires};
ghost use Rattle.dq_wires.specs.SocketTurns.{turn_begun, passed_over, put_off, connection_at, with_changed, slot_goes_before, slot_goes_on_before, has_precedent};
ghost use Rattle.dq_wires.specs.SocketLimits.{slot_has_address};

use crate::limits::MOST_WIRES;
use crate::sockets::socket_connection::SocketConnection;
use std::alloc::{AllocError, Global};
use std::net::SocketAddr;

/// Returns as many places as there may be connections, with none held.
pub(crate) fn none(alloc: Global) -> Result<Vec<Option<SocketConnection>>, AllocError>
    ensures { IfOk result (λ slots. slots.items ≡ replicate most_wires None) }
{
    let mut slots = Vec::new(alloc);
    for _place in 0..MOST_WIRES {
        slots.push(None)?;
    }
    Ok(slots)
}

/// Returns the connection at a place, if one is held there.
pub(crate) fn connection_at(
    slots: &[Option<SocketConnection>],
    place: usize,
) -> Option<&SocketConnection>
    ensures { option_copied result ≡ connection_at place slots.now }
{
    match slots.get(place) {
        Some(Some(connection)) => Some(connection),
        _ => None,
    }
}

/// A turn begins, in which no connection was read yet.
pub(crate) fn begin_turn(slots: &mut [Option<SocketConnection>])
    ensures { slots.new ≡ map (option_map turn_begun) slots.old }
{
    for slot in slots.iter_mut() {
        if let Some(connection) = slot {
            connection.begin_turn();
        }
    }
}

/// The connection at a place leaves its read to another.
pub(crate) fn pass_over(slots: &mut [Option<SocketConnection>], place: usize)
    ensures { slots.new ≡ with_changed passed_over place slots.old }
{
    if place < slots.len()
        && let Some(connection) = &mut slots[place]
    {
        connection.give_way();
    }
}

/// What the connection at a place is offered is left to a later turn.
pub(crate) fn put_off(slots: &mut [Option<SocketConnection>], place: usize)
    ensures { slots.new ≡ with_changed put_off place slots.old }
{
    if place < slots.len()
        && let Some(connection) = &mut slots[place]
    {
        connection.put_off();
    }
}

/// Whether a connection at another place is read before one.
pub(crate) fn has_precedent(
    slots: &[Option<SocketConnection>],
    place: usize,
    connection: &SocketConnection,
    is_long: bool,
) -> bool
    ensures { result ≡ has_precedent is_long connection.now place 0 slots.now }
{
    slots.iter().enumerate().any(|(at, slot)| at != place && goes_before(slot, connection, is_long))
}

/// Whether the answer of another goes on before that of one.
pub(crate) fn has_older(slots: &[Option<SocketConnection>], connection: &SocketConnection) -> bool
    ensures { result ≡ list_any (slot_goes_on_before connection.now) slots.now }
{
    slots.iter().any(|slot| goes_on_before(slot, connection))
}

/// How many connections have the same address.
pub(crate) fn count_of(slots: &[Option<SocketConnection>], peer: SocketAddr) -> usize
    ensures { result ≡ length (filter (slot_has_address peer) slots.now) }
{
    slots.iter().filter(|slot| is_of(slot, peer)).count()
}

// Whether a slot has a connection that is read before another.
fn goes_before(slot: &Option<SocketConnection>, other: &SocketConnection, is_long: bool) -> bool
    ensures { result ≡ slot_goes_before is_long other.now slot.now }
{
    match slot {
        Some(connection) => connection.goes_before(other, is_long),
        None => false,
    }
}

// Whether a slot has a connection whose answer goes on before another's.
fn goes_on_before(slot: &Option<SocketConnection>, other: &SocketConnection) -> bool
    ensures { result ≡ slot_goes_on_before other.now slot.now }
{
    match slot {
        Some(connection) => connection.goes_on_before(other),
        None => false,
    }
}

// Whether a slot has a connection of an address.
fn is_of(slot: &Option<SocketConnection>, peer: SocketAddr) -> bool
    ensures { result ≡ slot_has_address peer slot.now }
{
    match slot {
        Some(connection) => connection.is_of(peer),
        None => false,
    }
}
