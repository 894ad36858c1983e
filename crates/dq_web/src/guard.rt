//! Whom the front admits: by host, by origin and by key.
ghost use Rattle.std.specs.Prelude.{◌≡◌, IsTrue, IfOk, IfErr, OnOk, IfSome, MatchResult, option_copied};
ghost use Rattle.dq_web.specs.Guards.{is_port, is_at, is_own_host, is_known_host, is_origin, is_same_origin, is_same_site, is_document, is_allowed_site, is_of_site, may_send, IsAdmitted, IsTurnedAway, is_to_viewer, is_to_tab, is_of_viewer, viewer_of, is_look, is_preflight, IsProxy, key_told, IsOpenedBy, IsOpened, IsShut};

use crate::cutting::{Fields, are_digits, is_named};
use crate::forwarding::forwarded_address;
use crate::keys::{KeyEntry, Keys, Right};
use crate::refusal::Refusal;
use dq_list::Listed;
use std::alloc::{AllocError, Global};
use std::net::{IpAddr, SocketAddr};

/// The scheme of an Authorization that tells a key, and the space behind it.
const SCHEME: &[u8] = b"bearer ";

/// The keys that the front admits; a host of its own that it admits beside those of the loopback; the
/// origin of a viewer, whose pages may read what is searched; and the address of a proxy, which is
/// believed where requests came from.
#[derive(Drop)]
pub struct Guard {
    pub keys: Keys,
    pub host: Option<Listed<u8>>,
    pub viewer: Option<Listed<u8>>,
    pub proxy: Option<IpAddr>,
}

/// The pages of other sites that may send a request.
#[derive(Clone, Copy)]
pub enum Openness {
    /// None.
    Closed,
    /// Each one, if it opens a tab.
    Tab,
    /// Those of the viewer's origin.
    Viewer,
}

impl Openness {
    fn is_to_tab(self) -> bool
        ensures { result ≡ is_to_tab self }
    {
        matches!(self, Openness::Tab)
    }

    fn is_to_viewer(self) -> bool
        ensures { result ≡ is_to_viewer self }
    {
        matches!(self, Openness::Viewer)
    }
}

/// Whether a text behind a host is empty, or a colon and the digits of a port.
fn is_port(text: &[u8]) -> bool
    ensures { result ≡ is_port text.now }
{
    match text {
        [] => true,
        [octet, digits @ ..] => *octet == b':' && are_digits(digits),
    }
}

/// Whether a Host is this one, in letters of either case, with or without a port.
fn is_at(value: &[u8], host: &[u8]) -> bool
    ensures { result ≡ is_at host.now value.now }
{
    match value.split_at_checked(host.len()) {
        Some((name, rest)) => is_named(name, host) && is_port(rest),
        None => false,
    }
}

/// Whether an origin is a host, by this scheme.
fn is_origin(origin: &[u8], scheme: &[u8], host: &[u8]) -> bool
    ensures { result ≡ is_origin scheme.now host.now origin.now }
{
    match origin.strip_prefix(scheme) {
        Some(rest) => is_named(rest, host),
        None => false,
    }
}

/// Whether an Origin, if there is one, is that of a page of the same host.
fn is_same_origin(host: &[u8], value: Option<&[u8]>) -> bool
    ensures { result ≡ is_same_origin host.now (option_copied value.entry) }
{
    match value {
        Some(origin) => is_origin(origin, b"http://", host) || is_origin(origin, b"https://", host),
        None => true,
    }
}

/// Whether a browser says that a page of the front made a request, or none.
fn is_same_site(value: Option<&[u8]>) -> bool
    ensures { result ≡ is_same_site (option_copied value.entry) }
{
    match value {
        Some(site) => site == b"same-origin".as_slice() || site == b"none".as_slice(),
        None => true,
    }
}

fn is_document(value: Option<&[u8]>) -> bool
    ensures { result ≡ is_document (option_copied value.entry) }
{
    match value {
        Some(octets) => octets == b"document".as_slice(),
        None => false,
    }
}

/// Whether no other site made a request, unless it opens the page in a tab.
fn is_allowed_site(is_page: bool, fields: &Fields<'_>) -> bool
    ensures { result ≡ is_allowed_site is_page fields.now }
{
    (is_page && is_document(fields.fetch_dest)) || is_same_site(fields.fetch_site)
}

/// Whether no page of another site sent a request, unless it opens the page in a tab.
fn is_of_site(host: &[u8], is_page: bool, fields: &Fields<'_>) -> bool
    ensures { result ≡ is_of_site host.now is_page fields.now }
{
    is_same_origin(host, fields.origin) && is_allowed_site(is_page, fields)
}

fn is_look(method: Option<&[u8]>) -> bool
    ensures { result ≡ is_look (option_copied method.entry) }
{
    match method {
        Some(method) => method == b"GET".as_slice() || method == b"HEAD".as_slice(),
        None => false,
    }
}

/// The key that an Authorization tells (RFC 6750 section 2.1).
fn key_in(value: Option<&[u8]>) -> Option<&[u8]>
    ensures { option_copied result ≡ key_told (option_copied value.entry) }
{
    let Some(octets) = value else {
        return None;
    };
    let Some((scheme, rest)) = octets.split_at_checked(SCHEME.len()) else {
        return None;
    };
    if !is_named(scheme, SCHEME) {
        return None;
    }
    match str::from_utf8(rest) {
        Ok(rest) => Some(rest.trim_start().as_bytes()),
        Err(_) => None,
    }
}

impl Guard {
    fn is_own(&self, host: &[u8]) -> bool
        ensures { result ≡ is_own_host self.now.host host.now }
    {
        match &self.host {
            Some(own) => is_at(host, own.as_slice()),
            None => false,
        }
    }

    fn is_known(&self, host: &[u8]) -> bool
        ensures { result ≡ is_known_host self.now.host host.now }
    {
        is_at(host, b"127.0.0.1")
            || is_at(host, b"localhost")
            || is_at(host, b"[::1]")
            || self.is_own(host)
    }

    /// Whether a page of the viewer's origin sent a request, by the octets of its Origin.
    fn is_of_viewer(&self, origin: Option<&[u8]>) -> bool
        ensures { result ≡ is_of_viewer self.now.viewer (option_copied origin.entry) }
    {
        match (&self.viewer, origin) {
            (Some(viewer), Some(origin)) => viewer.as_slice() == origin,
            _ => false,
        }
    }

    /// Whether a request asks leave for a page of the viewer's origin to look at something.
    pub(crate) fn is_preflight(&self, fields: &Fields<'_>) -> bool
        ensures { result ≡ is_preflight self.now fields.now }
    {
        self.is_of_viewer(fields.origin) && is_look(fields.request_method)
    }

    /// Returns the viewer's origin, if a page of it sent the request.
    pub fn viewer_of(
        &self,
        alloc: Global,
        fields: &Fields<'_>,
    ) -> Result<Option<Listed<u8>>, AllocError>
        ensures { IfOk result (λ viewer. viewer ≡ viewer_of self.now fields.now) }
    {
        if !self.is_of_viewer(fields.origin) {
            return Ok(None);
        }
        match fields.origin {
            Some(origin) => Ok(Some(Listed::copy_of(alloc, origin)?)),
            None => Ok(None),
        }
    }

    /// Whether a peer is the proxy.
    pub fn is_proxy(&self, peer: Option<SocketAddr>) -> bool
        ensures { IsTrue result → IsProxy self.now.proxy peer }
    {
        match (self.proxy, peer) {
            (Some(proxy), Some(peer)) => peer.ip() == proxy,
            _ => false,
        }
    }

    /// Returns the address from which a request came, as the proxy says it.
    pub fn forwarded(&self, peer: Option<SocketAddr>, fields: &Fields<'_>) -> Option<IpAddr>
        ensures { IfSome result (λ _. IsProxy self.now.proxy peer) }
    {
        if self.is_proxy(peer) {
            forwarded_address(fields)
        } else {
            None
        }
    }

    /// Whether no page of another origin sent a request, but for one to which what it aims at is open.
    fn may_send(&self, host: &[u8], openness: Openness, fields: &Fields<'_>) -> bool
        ensures { result ≡ may_send self.now host.now openness fields.now }
    {
        (openness.is_to_viewer() && self.is_of_viewer(fields.origin))
            || is_of_site(host, openness.is_to_tab(), fields)
    }

    /// Refuses a request to another host, or of a page of another origin to which what it aims at is
    /// not open.
    pub(crate) fn admit(
        &self,
        host: &[u8],
        openness: Openness,
        fields: &Fields<'_>,
    ) -> Result<(), Refusal>
        ensures { MatchResult result (λ _. IsAdmitted self.now host.now openness fields.now)
            (IsTurnedAway self.now host.now openness fields.now) }
    {
        if !self.is_known(host) {
            return Err(Refusal::Host);
        }
        if self.may_send(host, openness, fields) {
            Ok(())
        } else {
            Err(Refusal::Origin)
        }
    }

    /// The entry whose key opens the name with a right. A request without such a key is refused.
    pub(crate) fn open(
        &self,
        name: &[u8],
        right: Right,
        authorization: Option<&[u8]>,
    ) -> Result<&KeyEntry, Refusal>
        ensures by { IfOk result (λ entry. IsOpenedBy self.now.keys name.now right
            (option_copied authorization.entry) entry.now) }
        ensures opened { OnOk result (IsOpened self.now.keys name.now right
            (option_copied authorization.entry)) }
        ensures shut { IfErr result (IsShut self.now.keys name.now right
            (option_copied authorization.entry)) }
    {
        match key_in(authorization) {
            Some(key) => self.keys.entry_for(name, right, key),
            None => Err(Refusal::Key),
        }
    }
}
