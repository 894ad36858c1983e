//! Where a request of HTTP aims, and whether it is let in there.
ghost use Rattle.std.specs.Prelude.{◌≡◌, ℕ, ◌++◌, ◌||◌, List, codes, IsTrue, IfOk, MatchResult, option_copied};
ghost use Rattle.std.specs.List.{list_all};
ghost use Rattle.std.specs.Str.{bytes_eq};
ghost use Rattle.dq_web.specs.Aims.{is_visible, IsPathAndQuery, IsTarget, HasNoTarget, is_plain_segment, is_plain_path, method_of, is_leave_asked, only_looks, is_searched, allowed_at, allows, is_allowed, IsAllowed, HasNoMethod, is_page, openness_of, owner_of, right_of, is_open, is_free, names_host, IsAt, IsAimed, HasNoAim, IsLetIn, IsKeptOut, IsUnasked};
ghost use Rattle.dq_web.specs.declared.aim.Unasked.TheVariants as unasked;
ghost use Rattle.dq_web.specs.ParsedRequests.{IsResourceAt, IsKindAt};
ghost use Rattle.dq_web.specs.Resources.{beneath, is_segment, has_no_slash};

use crate::cutting::Head;
use crate::guard::{Guard, Openness};
use crate::keys::{OPERATOR, Right};
use crate::refusal::{Allowed, Refusal};
use crate::resource::{Resource, ResourceKind, at_slash, behind, kind_of, resource_of};
use percent_encoding::percent_decode;
use std::alloc::{AllocError, Global};

/// The method of a request, as far as it counts here.
#[derive(Clone, Copy, PartialEq, Eq)]
pub enum Method {
    Get,
    Head,
    Post,
    Delete,
    /// OPTIONS, by which leave is asked for a page of the viewer's origin to look at something.
    Preflight,
    Other,
}

/// The aim of a head: a resource, a method, and the query after the path.
#[derive(Clone, Copy)]
pub struct Aim<'a> {
    pub resource: Resource<'a>,
    pub method: Method,
    pub query: &'a str,
}

impl Method {
    pub(crate) fn is_preflight(self) -> bool
        ensures { result ≡ is_leave_asked self }
    {
        matches!(self, Method::Preflight)
    }
}

/// Why nothing is asked.
pub(crate) enum Unasked {
    Refused(Refusal),
    NoMemory,
}

impl From<AllocError> for Unasked {
    ghost from_gives = { λ _ it. it ≡ unasked.NoMemory };

    fn from(_error: AllocError) -> Unasked {
        Unasked::NoMemory
    }
}

impl From<Refusal> for Unasked {
    ghost from_gives = { λ why it. it ≡ unasked.Refused why };

    fn from(refusal: Refusal) -> Unasked {
        Unasked::Refused(refusal)
    }
}

fn is_visible(octet: u8) -> bool
    ensures { result ≡ is_visible octet }
{
    0x21 <= octet && octet <= 0x7e
}

fn are_visible(octets: &[u8]) -> bool
    ensures { result ≡ list_all is_visible octets.now }
{
    octets.iter().all(|octet| is_visible(*octet))
}

/// The text of the target of a head, if all its octets are visible.
fn target_text<'a>(head: &Head<'a>) -> Result<&'a str, Refusal>
    ensures { MatchResult result (λ text. (text.now ≡ head.now.target.now)
        × IsTrue (list_all is_visible head.now.target.now)) (HasNoAim head.now) }
{
    if !are_visible(head.target) {
        return Err(Refusal::Request);
    }
    match str::from_utf8(head.target) {
        Ok(text) => Ok(text),
        Err(_) => Err(Refusal::Request),
    }
}

/// The path of a target, and its query.
fn path_and_query(text: &str) -> (&str, &str)
    ensures { IsPathAndQuery text.now result.0.now result.1.now }
{
    match text.split_once('?') {
        Some(parts) => parts,
        None => (text, ""),
    }
}

/// The host of an absolute-form behind its scheme, and the path and query behind that. One without a path
/// is refused.
fn at_path(text: &str) -> Result<(&[u8], &str), Refusal>
    ensures { MatchResult result
        (λ parts. (below : List ℕ) × (text.now ≡ beneath parts.0.now below)
        × IsTrue (is_segment parts.0.now) × (parts.1.now ≡ codes "/" ++ below))
        (λ why. (why ≡ Refusal.Path) × IsTrue (is_segment text.now)) }
{
    let Some((host, _)) = at_slash(text) else {
        return Err(Refusal::Path);
    };
    match behind(text, host) {
        Some(path) => Ok((host.as_bytes(), path)),
        None => Err(Refusal::Path),
    }
}

/// The host of a target, and its path and query.
fn host_and_path<'a>(
    target: &'a str,
    field: Option<&'a [u8]>,
) -> Result<(&'a [u8], &'a str), Refusal>
    ensures { MatchResult result
        (λ parts. IsTarget target.now (option_copied field.entry) parts.0.now parts.1.now)
        (HasNoTarget target.now (option_copied field.entry)) }
{
    if let Some(rest) = behind(target, "http://") {
        return at_path(rest);
    }
    if let Some(rest) = behind(target, "https://") {
        return at_path(rest);
    }
    match field {
        Some(host) => Ok((host, target)),
        None => Err(Refusal::Host),
    }
}

/// Whether a segment is one of those by which a path goes nowhere or up.
fn is_dots(segment: &[u8]) -> bool
    ensures { result ≡ (bytes_eq segment.now (codes ".") || bytes_eq segment.now (codes "..")) }
{
    segment == b".".as_slice() || segment == b"..".as_slice()
}

fn has_no_slash(segment: &[u8]) -> bool
    ensures { result ≡ list_all has_no_slash segment.now }
{
    segment.iter().all(|octet| *octet != b'/')
}

/// Whether a segment, with its octets decoded, names itself.
fn is_plain_segment(alloc: Global, segment: &str) -> Result<bool, AllocError>
    ensures { IfOk result (λ is_plain. is_plain ≡ is_plain_segment segment.now) }
{
    let mut octets = Vec::new(alloc);
    percent_decode(segment.as_bytes()).append_to(&mut octets)?;
    Ok(!is_dots(octets.as_slice()) && has_no_slash(octets.as_slice()))
}

/// Whether each segment of a path does.
fn is_plain_path(alloc: Global, path: &str) -> Result<bool, AllocError>
    ensures { IfOk result (λ is_plain. is_plain ≡ is_plain_path path.now) }
{
    let mut are_plain = true;
    for segment in path.split('/') {
        let is_plain = is_plain_segment(alloc, segment)?;
        are_plain = are_plain && is_plain;
    }
    Ok(are_plain)
}

fn method_of(guard: &Guard, head: &Head<'_>) -> Method
    ensures { result ≡ method_of guard.now head.now }
{
    if head.method == b"GET".as_slice() {
        Method::Get
    } else if head.method == b"HEAD".as_slice() {
        Method::Head
    } else if head.method == b"POST".as_slice() {
        Method::Post
    } else if head.method == b"DELETE".as_slice() {
        Method::Delete
    } else if head.method == b"OPTIONS".as_slice() && guard.is_preflight(&head.fields) {
        Method::Preflight
    } else {
        Method::Other
    }
}

/// Whether a resource is searched for what an institution keeps, or counts it.
fn is_searched(resource: Resource<'_>) -> bool
    ensures { result ≡ is_searched resource.entry }
{
    match resource {
        Resource::Counts(_)
        | Resource::Studies(_)
        | Resource::Series(..)
        | Resource::Images(..)
        | Resource::StudyImages(..)
        | Resource::Unsearched(_)
        | Resource::Worklist(_)
        | Resource::Steps(_) => true,
        _ => false,
    }
}

/// Whether a method only looks, or asks leave for that.
fn only_looks(method: Method) -> bool
    ensures { result ≡ only_looks method }
{
    match method {
        Method::Get | Method::Head | Method::Preflight => true,
        Method::Post | Method::Delete | Method::Other => false,
    }
}

/// The methods of a resource, if there is one.
fn allowed_at(resource: Resource<'_>) -> Option<Allowed>
    ensures { result ≡ allowed_at resource.entry }
{
    match resource {
        Resource::Nowhere => None,
        Resource::Backup => Some(Allowed::Post),
        Resource::Entry(..) => Some(Allowed::Delete),
        Resource::Worklist(_) => Some(Allowed::GetAndPost),
        _ => Some(Allowed::Get),
    }
}

/// Whether a method is one of these.
fn allows(allowed: Allowed, method: Method) -> bool
    ensures { result ≡ allows allowed method }
{
    match (allowed, method) {
        (Allowed::Get | Allowed::GetAndPost, Method::Get | Method::Head) => true,
        (Allowed::Post | Allowed::GetAndPost, Method::Post) => true,
        (Allowed::Delete, Method::Delete) => true,
        _ => false,
    }
}

/// Whether it is one of a resource that has these.
fn is_allowed(resource: Resource<'_>, allowed: Allowed, method: Method) -> bool
    ensures { result ≡ is_allowed resource.entry allowed method }
{
    match method {
        Method::Preflight => is_searched(resource),
        _ => allows(allowed, method),
    }
}

/// Refuses a path where there is nothing, and a method that is not one of the resource there.
fn check_method(resource: Resource<'_>, method: Method) -> Result<(), Refusal>
    ensures { MatchResult result (λ _. IsAllowed resource.entry method)
        (HasNoMethod resource.entry method) }
{
    let Some(allowed) = allowed_at(resource) else {
        return Err(Refusal::Path);
    };
    if is_allowed(resource, allowed, method) {
        Ok(())
    } else {
        Err(Refusal::Method(allowed))
    }
}

fn is_page(resource: Resource<'_>) -> bool
    ensures { result ≡ is_page resource.entry }
{
    matches!(resource, Resource::Page)
}

/// Whether everybody may see a resource.
fn is_open(resource: Resource<'_>) -> bool
    ensures { result ≡ is_open resource.entry }
{
    matches!(
        resource,
        Resource::Page | Resource::Style | Resource::Script | Resource::Health
    )
}

/// Whether everybody may do what a head aims at: it asks leave to look, or the resource is open.
pub(crate) fn is_free(aim: Aim<'_>) -> bool
    ensures { result ≡ is_free aim.entry }
{
    aim.method.is_preflight() || is_open(aim.resource)
}

/// The pages of other sites that may send a request of a method for a resource.
fn openness_of(resource: Resource<'_>, method: Method) -> Openness
    ensures { result ≡ openness_of resource.entry method }
{
    if is_page(resource) {
        Openness::Tab
    } else if is_searched(resource) && only_looks(method) {
        Openness::Viewer
    } else {
        Openness::Closed
    }
}

/// Whose key opens a resource: an institution's, or the operator's.
pub(crate) fn owner_of<'a>(resource: Resource<'a>) -> &'a [u8]
    ensures { result.now ≡ owner_of resource.entry }
{
    match resource {
        Resource::Counts(name)
        | Resource::Studies(name)
        | Resource::Series(name, _)
        | Resource::Images(name, _, _)
        | Resource::StudyImages(name, _)
        | Resource::Unsearched(name)
        | Resource::Worklist(name)
        | Resource::Entry(name, _)
        | Resource::Steps(name) => name.as_bytes(),
        _ => OPERATOR,
    }
}

/// The right that a method needs at a resource.
pub(crate) fn right_of(resource: Resource<'_>, method: Method) -> Right
    ensures { result ≡ right_of resource.entry method }
{
    match (resource, method) {
        (Resource::Metrics, _) => Right::Metrics,
        (Resource::Backup, _) => Right::Backup,
        (_, Method::Post | Method::Delete) => Right::Order,
        _ => Right::Read,
    }
}

/// Refuses a head of HTTP/1.1 that names no host (RFC 9112 section 3.2).
fn check_host(head: &Head<'_>) -> Result<(), Refusal>
    ensures { MatchResult result (λ _. IsTrue (names_host head.now)) (HasNoAim head.now) }
{
    if head.is_old || head.fields.host.is_some() {
        Ok(())
    } else {
        Err(Refusal::Request)
    }
}

/// The host, the path and the query that a head names.
fn place_of<'a>(head: &Head<'a>) -> Result<(&'a [u8], &'a str, &'a str), Refusal>
    ensures { MatchResult result (λ it. IsAt head.now it.0.now it.1.now it.2.now)
        (HasNoAim head.now) }
{
    check_host(head)?;
    let target = target_text(head)?;
    let (host, text) = host_and_path(target, head.fields.host)?;
    let (path, query) = path_and_query(text);
    Ok((host, path, query))
}

/// The host of a head, and its aim.
fn aim_of<'a>(alloc: Global, guard: &Guard, head: &Head<'a>) -> Result<(&'a [u8], Aim<'a>), Unasked>
    ensures { MatchResult result (λ it. IsAimed guard.now head.now it.0.now it.1)
        (IsUnasked (HasNoAim head.now)) }
{
    let (host, path, query) = place_of(head)?;
    if !is_plain_path(alloc, path)? {
        return Err(Unasked::Refused(Refusal::Request));
    }
    let aim = Aim {
        resource: resource_of(path),
        method: method_of(guard, head),
        query,
    };
    Ok((host, aim))
}

/// Returns the aim of a head, if it is let in.
pub(crate) fn let_in<'a>(alloc: Global, guard: &Guard, head: &Head<'a>) -> Result<Aim<'a>, Unasked>
    ensures { MatchResult result (IsLetIn guard.now head.now)
        (IsUnasked (IsKeptOut guard.now head.now)) }
{
    let (host, aim) = aim_of(alloc, guard, head)?;
    guard.admit(host, openness_of(aim.resource, aim.method), &head.fields)?;
    check_method(aim.resource, aim.method)?;
    Ok(aim)
}

/// The resource at the path of a head.
fn resource_at<'a>(head: &Head<'a>) -> Result<Resource<'a>, Refusal>
    ensures { IfOk result (IsResourceAt head.now) }
{
    let target = target_text(head)?;
    let place = host_and_path(target, head.fields.host)?;
    let (path, _) = path_and_query(place.1);
    Ok(resource_of(path))
}

/// Returns the kind of the resource at the path of a head.
pub fn kind_at(head: &Head<'_>) -> ResourceKind
    ensures { IsKindAt head.now result }
{
    match resource_at(head) {
        Ok(resource) => kind_of(resource),
        Err(_) => ResourceKind::Nowhere,
    }
}
