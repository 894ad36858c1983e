//! The address from which a proxy says that a request came.

use crate::cutting::{Fields, is_named};
use std::net::{IpAddr, Ipv6Addr, SocketAddr};

/// Returns the last element of a list (RFC 9110 section 5.6.1).
fn last_element(list: &str) -> &str {
    match list.rsplit_once(',') {
        Some((_, element)) => element.trim(),
        None => list.trim(),
    }
}

/// Returns the IPv6 address between brackets.
fn bracketed(node: &str) -> Option<IpAddr> {
    let rest = node.strip_prefix('[')?;
    let text = rest.strip_suffix(']')?;
    match text.parse::<Ipv6Addr>() {
        Ok(address) => Some(IpAddr::V6(address)),
        Err(_) => None,
    }
}

/// Returns the address of a node, with or without a port (RFC 7239 section 6).
fn address_of(node: &str) -> Option<IpAddr> {
    if let Ok(address) = node.parse::<IpAddr>() {
        return Some(address);
    }
    match node.parse::<SocketAddr>() {
        Ok(address) => Some(address.ip()),
        Err(_) => bracketed(node),
    }
}

/// Returns a value without its quotes.
fn unquoted(value: &str) -> &str {
    let Some(rest) = value.strip_prefix('"') else {
        return value;
    };
    rest.strip_suffix('"').unwrap_or(value)
}

/// Returns the node for which a pair of Forwarded says that the request is made (RFC 7239 section 5.2).
fn node_of(pair: &str) -> Option<&str> {
    let (name, value) = pair.split_once('=')?;
    if is_named(name.trim().as_bytes(), b"for") {
        Some(unquoted(value.trim()))
    } else {
        None
    }
}

/// Returns the address for which an element of Forwarded says that the request is made.
fn forwarded_in(element: &str) -> Option<IpAddr> {
    for pair in element.split(';') {
        if let Some(node) = node_of(pair) {
            return address_of(node);
        }
    }
    None
}

/// Returns the address that the last proxy says: in X-Forwarded-For, or in Forwarded (RFC 7239) where
/// that is absent.
pub(crate) fn forwarded_address(fields: &Fields<'_>) -> Option<IpAddr> {
    match (fields.forwarded_for, fields.forwarded) {
        (Some(octets), _) => {
            let list = str::from_utf8(octets).ok()?;
            address_of(last_element(list))
        }
        (None, Some(octets)) => {
            let list = str::from_utf8(octets).ok()?;
            forwarded_in(last_element(list))
        }
        (None, None) => None,
    }
}
