//! The questions that HTTP requests ask of the server.
ghost use Rattle.std.specs.Prelude.{◌≡◌, ◌⊎◌, ◌==◌, ◌<◌, ◌++◌, ◌∷◌, [], length, IsTrue, IsFalse, IfOk, IfErr, OnOk, MatchResult, MatchOption, MatchBool, option_copied};
ghost use Rattle.std.specs.List.{list_all, list_any, starts_with};
ghost use Rattle.percent_encoding.specs.Percent.{percent_decode};
ghost use Rattle.dq_web.specs.Guards.{IsOpenedBy};
ghost use Rattle.dq_web.specs.declared.guard.Guard.{Guard};
ghost use Rattle.dq_request.specs.declared.request.Request.TheVariants as ask;
ghost use Rattle.dq_request.specs.Searches.{TakesWords, StopsAt, name_in, value_most};
ghost use Rattle.dq_web.specs.declared.cutting.BodyForm.TheVariants as form;
ghost use Rattle.dq_web.specs.declared.parsed_request.Wanted.TheVariants as wanted;
ghost use Rattle.dq_web.specs.Aims.{owner_of, right_of, is_free, IsLetIn, IsUnasked};
ghost use Rattle.dq_web.specs.ParsedRequests.{is_printable, is_silent, is_attribute, is_of_page, is_unknown, is_left_out, parts_of, words_among, words_in, uid_key, hundred_of, series_of, images_of, study_images_of, IsSearchAt, HasNoSearch, IsSought, IsUnsought, IsLooked, HasNoLook, is_file_path, IsBackup, IsEntryPosted, IsPosted, HasNoPost, Deleting, HasNoDelete, IsWanted, HasNoWish, IsFreeAnswer, IsAimOpened, IsAimShut, IsRefusedFor, IsJudged, label_of, is_fuzzy, passes_part, has_unknown, wish_of, AsksNothing, IsAsked};

use crate::aim::{Aim, Method, Unasked, is_free, let_in, owner_of, right_of};
use crate::cutting::{BodyForm, Fields, Head, HttpRequest};
use crate::guard::Guard;
use crate::keys::KeyEntry;
use crate::refusal::Refusal;
use crate::replies::Framing;
use crate::resource::{Resource, ResourceKind};
use dq_dataset::PackedDataSet;
use dq_json::{JsonFault, data_set_of, tag_named};
use dq_list::Listed;
use dq_request::{Request, Search, Subject};
use dq_vr::{Tag, lookup, tags};
use percent_encoding::percent_decode;
use std::alloc::{AllocError, Global};

/// The most that a search shows where its query says no limit.
const LIMIT: usize = 100;

/// How the answers to a search are wanted.
#[derive(Clone, Copy, Debug, PartialEq, Eq)]
pub struct Wish {
    /// Whether an empty array is wanted where none is found, in place of no content.
    pub wants_array: bool,
    /// Whether matching is to be fuzzy, which none is.
    pub is_fuzzy: bool,
    /// Whether a parameter is unknown, and was passed over.
    pub has_unknown: bool,
}

/// A request to the server, and how its response is sent back.
#[derive(Debug, Drop)]
pub struct Question {
    pub asked: Request,
    pub wish: Wish,
    /// How its response is framed. Whoever holds the connection says so.
    pub framing: Framing,
}

/// A document of the page for people.
#[derive(Clone, Copy, Debug, PartialEq, Eq)]
pub enum Document {
    Page,
    Style,
    Script,
}

/// The action to take for a request.
#[derive(Debug, Drop)]
pub enum ParsedRequest {
    Refused(Refusal),
    /// A part of its query is no word of a search.
    Misspelled(String),
    /// Its body is to be DICOM JSON, and is none.
    Unreadable(JsonFault),
    Document(Document),
    Health,
    /// Leave for a page of the viewer's origin to look at something.
    Preflight,
    Question(Question),
}

/// The judgement of a head.
#[derive(Clone, Copy)]
pub enum Judgement<'a> {
    Refused(Refusal),
    /// Everybody may see what it aims at, or it asks leave to look and nothing else.
    Open { aim: Aim<'a> },
    /// The key of this entry opens what it aims at.
    Opened { aim: Aim<'a>, entry: &'a KeyEntry },
}

/// The result of reading a path, a method, a query and a body.
#[derive(Drop)]
enum Wanted {
    Request(Request),
    /// The part of the query that is no word of the search.
    Misspelled(String),
    /// Why the body is not DICOM JSON.
    Unreadable(JsonFault),
}

/// A test of the parts of a query.
#[derive(Clone, Copy)]
enum PartTest {
    /// That it asks for fuzzy matching.
    Fuzzy,
    /// That it names neither an attribute nor the page of a search of this subject.
    Unknown(Subject),
}

fn is_printable(octet: u8) -> bool
    ensures { result ≡ is_printable octet }
{
    0x20 <= octet && octet != 0x7f
}

fn are_printable(octets: &[u8]) -> bool
    ensures { result ≡ list_all is_printable octets.now }
{
    octets.iter().all(|octet| is_printable(*octet))
}

pub(crate) fn begins(text: &str, word: &str) -> bool
    ensures { result ≡ starts_with ◌==◌ text.now word.now }
{
    text.starts_with(word)
}

/// Whether a part of a query asks for no search: it is empty, or it says which attributes are asked
/// for, since all are answered, or that matching is fuzzy, which none is.
fn is_silent(part: &str) -> bool
    ensures { result ≡ is_silent part.now }
{
    part.is_empty() || begins(part, "includefield=") || begins(part, "fuzzymatching=")
}

/// The name of a part of a query, before the first equals sign.
fn name_in(part: &str) -> &str
    ensures { result.now ≡ name_in part.now }
{
    match part.split_once('=') {
        Some((name, _)) => name,
        None => part,
    }
}

fn is_attribute(name: &str) -> bool
    ensures { result ≡ is_attribute name.now }
{
    match tag_named(name) {
        Some(tag) => lookup(tag).is_some(),
        None => false,
    }
}

/// Whether a name is of what the page of a search shows.
fn is_of_page(subject: Subject, name: &str) -> bool
    ensures { result ≡ is_of_page subject name.now }
{
    name == "limit" || name == "offset" || subject.pages_by_key() && name == "after"
}

/// Whether a part of a query names neither an attribute nor the page.
fn is_unknown(subject: Subject, part: &str) -> bool
    ensures { result ≡ is_unknown subject part.now }
{
    let name = name_in(part);
    !is_silent(part) && !is_of_page(subject, name) && !is_attribute(name)
}

fn is_left_out(subject: Subject, part: &str) -> bool
    ensures { result ≡ is_left_out subject part.now }
{
    is_silent(part) || is_unknown(subject, part)
}

/// Takes a part of a query as a word of a search of this subject, unless it is left out. The answer is
/// whether the search goes on.
fn take_part(
    alloc: Global,
    search: &mut Search,
    subject: Subject,
    part: &str,
) -> Result<bool, AllocError>
    ensures { IfOk result (λ is_taken. MatchBool is_taken
        (TakesWords (words_among subject (part.now ∷ [])) search.old search.new)
        (StopsAt part.now (words_among subject (part.now ∷ [])) search.old)) }
{
    if is_left_out(subject, part) {
        return Ok(true);
    }
    search.take_word(alloc, part)
}

/// Takes the parts of a query as words of a search. The answer is the first that is none, if there
/// is one.
fn take_parts<'a>(
    alloc: Global,
    search: &mut Search,
    query: &'a str,
) -> Result<Option<&'a str>, AllocError>
    ensures { IfOk result (λ refused. MatchOption refused
        (TakesWords (words_in search.old.subject query.now) search.old search.new)
        (λ part. StopsAt part.now (words_in search.old.subject query.now) search.old)) }
{
    let subject = search.subject;
    for part in query.split('&') {
        if !take_part(alloc, search, subject, part)? {
            return Ok(Some(part));
        }
    }
    Ok(None)
}

fn is_fuzzy(part: &str) -> bool
    ensures { result ≡ is_fuzzy part.now }
{
    part == "fuzzymatching=true"
}

/// Whether a part of a query passes a test.
fn passes_part(wanted: PartTest, part: &str) -> bool
    ensures { result ≡ passes_part wanted part.now }
{
    match wanted {
        PartTest::Fuzzy => is_fuzzy(part),
        PartTest::Unknown(subject) => is_unknown(subject, part),
    }
}

/// Whether one of the parts of a query does.
fn has_part(wanted: PartTest, query: &str) -> bool
    ensures { result ≡ list_any (passes_part wanted) (parts_of query.now) }
{
    let mut is_found = false;
    for part in query.split('&') {
        is_found = is_found || passes_part(wanted, part);
    }
    is_found
}

/// Whether a parameter of a search is unknown.
fn has_unknown(asked: &Request, query: &str) -> bool
    ensures { result ≡ has_unknown asked.now query.now }
{
    match asked {
        Request::Search(search) => has_part(PartTest::Unknown(search.subject), query),
        _ => false,
    }
}

/// How the answers to a search are wanted.
fn wish_of(fields: &Fields<'_>, query: &str, asked: &Request) -> Wish
    ensures { result ≡ wish_of fields.now query.now asked.now }
{
    Wish {
        wants_array: fields.asks_dicom_json,
        is_fuzzy: has_part(PartTest::Fuzzy, query),
        has_unknown: has_unknown(asked, query),
    }
}

/// A search of what an institution keeps.
fn search_of(alloc: Global, subject: Subject, name: &str) -> Result<Search, AllocError>
    ensures { IfOk result (λ search. search ≡ hundred_of subject name.now []) }
{
    let institution = Listed::copy_of(alloc, name.as_bytes())?;
    Ok(Search::new(alloc, subject, institution, LIMIT))
}

/// Gives a search a UID of the path, unless it is too long.
fn put_uid(alloc: Global, search: &mut Search, tag: Tag, text: &str) -> Result<(), Unasked>
    ensures { MatchResult result
        (λ _. search.new ≡ record search.old { keys = search.old.keys ++ uid_key tag text.now ∷ [] })
        (IsUnasked (λ why. (why ≡ Refusal.Request)
        × (value_most < length (percent_decode text.now)))) }
{
    if search.take_value(alloc, tag, text)? {
        Ok(())
    } else {
        Err(Unasked::Refused(Refusal::Request))
    }
}

/// The search of the series of a study.
fn series_of(alloc: Global, name: &str, study: &str) -> Result<Search, Unasked>
    ensures { MatchResult result (λ search. search ≡ series_of name.now study.now)
        (IsUnasked (λ why. (why ≡ Refusal.Request)
        × (value_most < length (percent_decode study.now)))) }
{
    let mut search = search_of(alloc, Subject::Series, name)?;
    put_uid(alloc, &mut search, tags::STUDY_INSTANCE_UID, study)?;
    Ok(search)
}

/// The search of the images of a series.
fn images_of(alloc: Global, name: &str, study: &str, series: &str) -> Result<Search, Unasked>
    ensures { MatchResult result (λ search. search ≡ images_of name.now study.now series.now)
        (IsUnasked (λ why. (why ≡ Refusal.Request)
        × ((value_most < length (percent_decode study.now))
        ⊎ (value_most < length (percent_decode series.now))))) }
{
    let mut search = search_of(alloc, Subject::Images, name)?;
    put_uid(alloc, &mut search, tags::STUDY_INSTANCE_UID, study)?;
    put_uid(alloc, &mut search, tags::SERIES_INSTANCE_UID, series)?;
    Ok(search)
}

/// The search of the images of a study.
fn study_images_of(alloc: Global, name: &str, study: &str) -> Result<Search, Unasked>
    ensures { MatchResult result (λ search. search ≡ study_images_of name.now study.now)
        (IsUnasked (λ why. (why ≡ Refusal.Request)
        × (value_most < length (percent_decode study.now)))) }
{
    let mut search = search_of(alloc, Subject::StudyImages, name)?;
    put_uid(alloc, &mut search, tags::STUDY_INSTANCE_UID, study)?;
    Ok(search)
}

/// The search at a path, before its query says more.
fn search_at(alloc: Global, resource: Resource<'_>) -> Result<Search, Unasked>
    ensures { MatchResult result (IsSearchAt resource.entry)
        (IsUnasked (HasNoSearch resource.entry)) }
{
    match resource {
        Resource::Studies(name) => Ok(search_of(alloc, Subject::Studies, name)?),
        Resource::Series(name, study) => series_of(alloc, name, study),
        Resource::Images(name, study, series) => images_of(alloc, name, study, series),
        Resource::StudyImages(name, study) => study_images_of(alloc, name, study),
        Resource::Worklist(name) => Ok(search_of(alloc, Subject::Worklist, name)?),
        Resource::Steps(name) => Ok(search_of(alloc, Subject::Steps, name)?),
        Resource::Unsearched(_) => Err(Unasked::Refused(Refusal::Unsupported)),
        _ => Err(Unasked::Refused(Refusal::Path)),
    }
}

/// Refuses a search whose answers are in no form that is accepted.
fn check_accept(fields: &Fields<'_>) -> Result<(), Refusal>
    ensures { MatchResult result (λ _. IsTrue fields.now.accepts_json)
        (λ why. (why ≡ Refusal.Accept) × IsFalse fields.now.accepts_json) }
{
    if fields.accepts_json {
        Ok(())
    } else {
        Err(Refusal::Accept)
    }
}

/// Returns the search that GET asks for.
fn search_for(
    alloc: Global,
    resource: Resource<'_>,
    fields: &Fields<'_>,
    query: &str,
) -> Result<Wanted, Unasked>
    ensures { MatchResult result (IsSought resource.entry fields.now query.now)
        (IsUnasked (IsUnsought resource.entry fields.now)) }
{
    let mut search = search_at(alloc, resource)?;
    check_accept(fields)?;
    match take_parts(alloc, &mut search, query)? {
        None => Ok(Wanted::Request(Request::Search(search))),
        Some(part) => Ok(Wanted::Misspelled(String::from_str(alloc, part)?)),
    }
}

/// Returns what GET asks.
fn look_at(
    alloc: Global,
    resource: Resource<'_>,
    fields: &Fields<'_>,
    query: &str,
) -> Result<Wanted, Unasked>
    ensures { MatchResult result (IsLooked resource.entry fields.now query.now)
        (IsUnasked (HasNoLook resource.entry fields.now)) }
{
    match resource {
        Resource::Counts(name) => {
            let name = Listed::copy_of(alloc, name.as_bytes())?;
            Ok(Wanted::Request(Request::Counts(name)))
        }
        Resource::Metrics => Ok(Wanted::Request(Request::Report)),
        _ => search_for(alloc, resource, fields, query),
    }
}

/// An order to copy all rows to a path.
fn back_up(alloc: Global, path: &[u8]) -> Result<Request, Unasked>
    ensures { MatchResult result (IsBackup path.now)
        (IsUnasked (λ why. (why ≡ Refusal.Request) × IsFalse (is_file_path path.now))) }
{
    if path.is_empty() || !are_printable(path) {
        return Err(Unasked::Refused(Refusal::Request));
    }
    match str::from_utf8(path) {
        Ok(path) => Ok(Request::Backup(String::from_str(alloc, path)?)),
        Err(_) => Err(Unasked::Refused(Refusal::Request)),
    }
}

/// An order to keep an entry, whose data set has these octets.
fn schedule(alloc: Global, name: &str, octets: Listed<u8>) -> Result<Wanted, AllocError>
    ensures { IfOk result (λ it. it ≡ wanted.Request (ask.Schedule name.now octets)) }
{
    Ok(Wanted::Request(Request::Schedule {
        institution: Listed::copy_of(alloc, name.as_bytes())?,
        octets,
    }))
}

/// An order to keep the entry that a body spells as DICOM JSON.
fn schedule_json(alloc: Global, name: &str, body: &[u8]) -> Result<Wanted, AllocError>
    ensures { IfOk result (IsEntryPosted name.now form.DicomJson body.now) }
{
    match data_set_of(alloc, body) {
        Ok(data_set) => {
            let packed = PackedDataSet::new(alloc, &data_set)?;
            schedule(alloc, name, packed.into_octets())
        }
        Err(JsonFault::NoMemory) => Err(AllocError),
        Err(fault) => Ok(Wanted::Unreadable(fault)),
    }
}

/// What POST at the worklist comes to.
fn post_entry(alloc: Global, name: &str, form: BodyForm, body: &[u8]) -> Result<Wanted, Unasked>
    ensures { MatchResult result (IsEntryPosted name.now form body.now)
        (IsUnasked (λ why. (why ≡ Refusal.MediaType) × (form ≡ BodyForm.Other))) }
{
    match form {
        BodyForm::Dicom => Ok(schedule(alloc, name, Listed::copy_of(alloc, body)?)?),
        BodyForm::DicomJson => Ok(schedule_json(alloc, name, body)?),
        BodyForm::Other => Err(Unasked::Refused(Refusal::MediaType)),
    }
}

/// What POST comes to.
fn post_at(
    alloc: Global,
    resource: Resource<'_>,
    form: BodyForm,
    body: &[u8],
) -> Result<Wanted, Unasked>
    ensures { MatchResult result (IsPosted resource.entry form body.now)
        (IsUnasked (HasNoPost resource.entry form body.now)) }
{
    match resource {
        Resource::Worklist(name) => post_entry(alloc, name, form, body),
        Resource::Backup => Ok(Wanted::Request(back_up(alloc, body)?)),
        _ => Err(Unasked::Refused(Refusal::Path)),
    }
}

/// Returns the request that DELETE makes.
fn delete_at(alloc: Global, resource: Resource<'_>) -> Result<Request, Unasked>
    ensures { MatchResult result (Deleting resource.entry)
        (IsUnasked (HasNoDelete resource.entry)) }
{
    let Resource::Entry(name, id) = resource else {
        return Err(Unasked::Refused(Refusal::Path));
    };
    let mut octets = Vec::new(alloc);
    percent_decode(id.as_bytes()).append_to(&mut octets)?;
    Ok(Request::Withdraw {
        institution: Listed::copy_of(alloc, name.as_bytes())?,
        id: Listed::from_inner(octets),
    })
}

/// Returns what a head and a body ask.
fn wanted_by(
    alloc: Global,
    aim: Aim<'_>,
    fields: &Fields<'_>,
    body: &[u8],
) -> Result<Wanted, Unasked>
    ensures { MatchResult result (IsWanted aim.entry fields.now body.now)
        (IsUnasked (HasNoWish aim.entry.method aim.entry.resource fields.now body.now)) }
{
    match aim.method {
        Method::Get | Method::Head => look_at(alloc, aim.resource, fields, aim.query),
        Method::Post => post_at(alloc, aim.resource, fields.body_form, body),
        Method::Delete => Ok(Wanted::Request(delete_at(alloc, aim.resource)?)),
        Method::Preflight | Method::Other => Err(Unasked::Refused(Refusal::Path)),
    }
}

/// The entry whose key opens what a head aims at.
fn entry_for<'a>(guard: &'a Guard, aim: Aim<'_>, head: &Head<'_>) -> Result<&'a KeyEntry, Refusal>
    ensures by { IfOk result (λ entry. IsOpenedBy guard.now.keys (owner_of aim.entry.resource)
        (right_of aim.entry.resource aim.entry.method) (option_copied head.now.fields.authorization)
        entry.now) }
    ensures opened { OnOk result (IsAimOpened guard.now head.now aim.entry) }
    ensures shut { IfErr result (IsAimShut guard.now head.now aim.entry) }
{
    let right = right_of(aim.resource, aim.method);
    guard.open(owner_of(aim.resource), right, head.fields.authorization)
}

/// The answer to what everybody may do, where a head aims at that.
fn free_answer(aim: Aim<'_>) -> ParsedRequest
    ensures { IsTrue (is_free aim.entry) → IsFreeAnswer aim.entry result }
{
    if aim.method.is_preflight() {
        return ParsedRequest::Preflight;
    }
    match aim.resource {
        Resource::Page => ParsedRequest::Document(Document::Page),
        Resource::Style => ParsedRequest::Document(Document::Style),
        Resource::Script => ParsedRequest::Document(Document::Script),
        _ => ParsedRequest::Health,
    }
}

/// A question, before its framing is known.
fn question_of(asked: Request, wish: Wish) -> Question
    ensures asked { result.asked ≡ asked }
    ensures wish { result.wish ≡ wish }
{
    Question {
        asked,
        wish,
        framing: Framing {
            is_last: false,
            is_head: false,
            date: None,
            viewer: None,
            kind: ResourceKind::Nowhere,
        },
    }
}

/// Returns the action to take for a request whose key opens what it aims at.
fn opened_answer(
    alloc: Global,
    aim: Aim<'_>,
    request: &HttpRequest<'_>,
) -> Result<ParsedRequest, Unasked>
    ensures { (guard : Guard) → IsLetIn guard request.now.head aim.entry
        → IsFalse (is_free aim.entry) → IsAimOpened guard request.now.head aim.entry
        → MatchResult result (IsAsked guard request.now)
        (IsUnasked (AsksNothing guard request.now)) }
{
    match wanted_by(alloc, aim, &request.head.fields, request.body)? {
        Wanted::Request(asked) => {
            let wish = wish_of(&request.head.fields, aim.query, &asked);
            Ok(ParsedRequest::Question(question_of(asked, wish)))
        }
        Wanted::Misspelled(word) => Ok(ParsedRequest::Misspelled(word)),
        Wanted::Unreadable(fault) => Ok(ParsedRequest::Unreadable(fault)),
    }
}

/// Returns what a request asks of the server whose head is judged so, what else answers it, or why it is
/// refused: a host that is not the front's, a page of another origin, a path, a method, a key that does not
/// open the path or may not do there what is asked, or a body in a form that is not read.
pub fn ask(
    alloc: Global,
    judgement: Judgement<'_>,
    request: &HttpRequest<'_>,
) -> Result<ParsedRequest, AllocError>
    ensures { (guard : Guard) → IsJudged guard request.now.head judgement.entry
        → IfOk result (IsAsked guard request.now) }
{
    match judgement {
        Judgement::Refused(refusal) => Ok(ParsedRequest::Refused(refusal)),
        Judgement::Open { aim } => Ok(free_answer(aim)),
        Judgement::Opened { aim, .. } => match opened_answer(alloc, aim, request) {
            Ok(answer) => Ok(answer),
            Err(Unasked::Refused(refusal)) => Ok(ParsedRequest::Refused(refusal)),
            Err(Unasked::NoMemory) => Err(AllocError),
        },
    }
}

/// Returns the judgement of a head that is not refused: it is let in, and everybody may do what it aims at,
/// or a key opens that.
fn judgement_of<'a>(
    alloc: Global,
    guard: &'a Guard,
    head: &Head<'a>,
) -> Result<Judgement<'a>, Unasked>
    ensures { MatchResult result (IsJudged guard.now head.now)
        (IsUnasked (IsRefusedFor guard.now head.now)) }
{
    let aim = let_in(alloc, guard, head)?;
    if is_free(aim) {
        return Ok(Judgement::Open { aim });
    }
    let entry = entry_for(guard, aim, head)?;
    Ok(Judgement::Opened { aim, entry })
}

/// Returns the judgement of a request by its head, before its body has come.
pub fn judge<'a>(
    alloc: Global,
    guard: &'a Guard,
    head: &Head<'a>,
) -> Result<Judgement<'a>, AllocError>
    ensures { IfOk result (IsJudged guard.now head.now) }
{
    match judgement_of(alloc, guard, head) {
        Ok(judgement) => Ok(judgement),
        Err(Unasked::Refused(refusal)) => Ok(Judgement::Refused(refusal)),
        Err(Unasked::NoMemory) => Err(AllocError),
    }
}

impl<'a> Judgement<'a> {
    /// Returns the label of the key that let the head in, which is empty if it has none.
    pub fn label(self) -> &'a [u8]
        ensures { result.now ≡ label_of self.entry }
    {
        match self {
            Judgement::Opened { entry, .. } => entry.label.as_slice(),
            Judgement::Refused(_) | Judgement::Open { .. } => &[],
        }
    }
}
