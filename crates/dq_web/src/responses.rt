//! Responses: what the server answered, and what the front answers by itself.
ghost use Rattle.std.specs.Prelude.{◌≡◌, ◌≤◌, ◌++◌, ◌∷◌, [], suc, length, flat_map, codes, find, option_copied, IfOk, OnOk};
ghost use Rattle.std.specs.Str.{bytes_eq};
ghost use Rattle.dq_web.specs.Answers.{plain, escaped_octet, escaped_text, refused_reply, misspelled_reply, unreadable_reply, server_reply, order_status, search_status, copy_status, cause_status, cause_reply, behind_comma, array_text, fitting, shown_answers, is_full, search_reply, empty_reply, found_reply, limit_text, study_counts_text, step_counts_text, counts_text, is_named_so, is_counted_of, counts_reply, done_reply, IsMetricsReply, IsReplyTo, IsResponse, IsWritten, refusal_reply, document_reply, preflight_reply, health_reply};

use crate::counters::Counters;
use crate::metrics::metrics_text;
use crate::page::{INDEX, SCRIPT, STYLE};
use crate::parsed_request::{Document, Question, Wish};
use crate::refusal::Refusal;
use crate::replies::{Framing, Kind, Reply, Written, printed, put, put_number};
use crate::status::Status;
use dq_config::Institution;
use dq_dataset::DataSet;
use dq_json::{JsonFault, json_of};
use dq_list::Listed;
use dq_match::ShownPage;
use dq_request::{BackupError, Cause, Counted, Counts, Request, Response};
use std::alloc::{AllocError, Global};

pub(crate) const STUDIES: &str = "{\"studies\":{\"kept\":";

pub(crate) const SERIES: &str = "},\"series\":{\"kept\":";

pub(crate) const IMAGES: &str = "},\"images\":{\"kept\":";

pub(crate) const ENTRIES: &str = "},\"entries\":{\"kept\":";

pub(crate) const STEPS: &str = "},\"steps\":{\"kept\":";

pub(crate) const LIMIT: &str = ",\"limit\":";

pub(crate) const CLOSE: &str = "}}";

/// The most octets of a page's array, unless its first answer alone is longer.
const LONGEST_ARRAY: usize = 0x80_0000;

/// A response with a body.
fn plain(status: Status, kind: Kind, body: Vec<u8>) -> Reply
    ensures { result ≡ plain status kind body.items }
{
    Reply {
        status,
        kind,
        body: Listed::from_inner(body),
        is_literal: false,
        has_unknown: false,
        is_full: false,
    }
}

/// Adds an octet to a text of JSON (RFC 8259 section 7). What is not ASCII becomes a question mark.
fn put_escaped_octet(body: &mut Vec<u8>, octet: u8) -> Result<(), AllocError>
    ensures { OnOk result (body.new.items ≡ body.old.items ++ escaped_octet octet) }
{
    if octet == b'"' || octet == b'\\' {
        body.push(b'\\')?;
    }
    body.push(if 0x20 <= octet && octet <= 0x7e {
        octet
    } else {
        b'?'
    })?;
    Ok(())
}

/// Adds a text as one of JSON.
fn put_escaped(body: &mut Vec<u8>, text: &str) -> Result<(), AllocError>
    ensures { OnOk result (body.new.items ≡ body.old.items ++ escaped_text text.now) }
{
    for octet in text.as_bytes() {
        put_escaped_octet(body, *octet)?;
    }
    Ok(())
}

/// A refusal by its status, with a word that says why.
fn refused_reply(alloc: Global, status: Status, word: &str) -> Result<Reply, AllocError>
    ensures { IfOk result (λ reply. reply ≡ refused_reply status word.now) }
{
    let mut body = Vec::new(alloc);
    put(&mut body, "{\"refused\":\"")?;
    put_escaped(&mut body, word)?;
    put(&mut body, "\"}")?;
    Ok(plain(status, Kind::Json, body))
}

/// The response where a word is none of a search.
fn misspelled_reply(alloc: Global, word: &str) -> Result<Reply, AllocError>
    ensures { IfOk result (λ reply. reply ≡ misspelled_reply word.now) }
{
    let mut why = String::from_str(alloc, "keyword ")?;
    why.push_str(word)?;
    refused_reply(alloc, Status::BadRequest, why.as_str())
}

/// The response where the body is not the DICOM JSON that it is to be.
fn unreadable_reply(alloc: Global, fault: JsonFault) -> Result<Reply, AllocError>
    ensures { IfOk result (λ reply. reply ≡ unreadable_reply fault) }
{
    refused_reply(alloc, Status::BadRequest, fault.text(alloc)?.as_str())
}

/// The response where the server answered what is no answer to the request.
fn server_reply(alloc: Global) -> Result<Reply, AllocError>
    ensures { IfOk result (λ reply. reply ≡ server_reply) }
{
    refused_reply(alloc, Status::ServerError, "server")
}

/// The status of an order that is refused, by the number of its refusal.
fn order_status(number: u16) -> Status
    ensures { result ≡ order_status number }
{
    match number {
        1 | 2 => Status::BadRequest,
        3 => Status::Conflict,
        4 => Status::Full,
        5 | 6 => Status::NotFound,
        _ => Status::ServerError,
    }
}

/// The status of a search that is refused, by that of its operation (PS3.4 section C.4.1.1.4).
fn search_status(number: u16) -> Status
    ensures { result ≡ search_status number }
{
    if number == 0xa700 {
        Status::TooLarge
    } else {
        Status::BadRequest
    }
}

/// The status of a copy that is refused.
fn copy_status(refusal: BackupError) -> Status
    ensures { result ≡ copy_status refusal }
{
    match refusal {
        BackupError::Taken | BackupError::NoStore => Status::Conflict,
        BackupError::Full => Status::Full,
        BackupError::NoMemory => Status::Unavailable,
        BackupError::Failed => Status::ServerError,
    }
}

/// The status of what is not done.
fn cause_status(cause: Cause) -> Status
    ensures { result ≡ cause_status cause }
{
    match cause {
        Cause::Order(number) => order_status(number),
        Cause::Search(number) => search_status(number),
        Cause::Institution => Status::NotFound,
        Cause::Copy(refusal) => copy_status(refusal),
    }
}

/// The response where what is asked is not done.
fn cause_reply(alloc: Global, cause: Cause) -> Result<Reply, AllocError>
    ensures { IfOk result (λ reply. reply ≡ cause_reply cause) }
{
    let word = cause.text(alloc)?;
    refused_reply(alloc, cause_status(cause), word.as_str())
}

/// Adds the JSON of answers, each behind a comma, up to the first that has no room. Returns how many
/// these are.
fn put_fitting(
    alloc: Global,
    body: &mut Vec<u8>,
    answers: &[DataSet],
    room: usize,
) -> Result<usize, AllocError>
    ensures octets { OnOk result (body.new.items
        ≡ body.old.items ++ flat_map behind_comma (fitting room answers.now)) }
    ensures count { IfOk result (λ count. count ≡ length (fitting room answers.now)) }
    ensures most { IfOk result (λ count. count ≤ length answers.now) }
{
    let mut left = room;
    let mut count = 0;
    for answer in answers {
        let text = json_of(alloc, answer)?;
        if text.len() >= left {
            return Ok(count);
        }
        body.push(b',')?;
        body.extend_from_slice(text.as_slice())?;
        left -= text.len() + 1;
        count += 1;
    }
    Ok(count)
}

/// Adds the array of the answers that a page shows: the first, and others that have room. Returns how
/// many others these are.
fn put_shown(
    alloc: Global,
    body: &mut Vec<u8>,
    first: &DataSet,
    others: &[DataSet],
) -> Result<usize, AllocError>
    ensures octets { OnOk result (body.new.items
        ≡ body.old.items ++ array_text (shown_answers (first.now ∷ others.now))) }
    ensures count { IfOk result (λ count.
        suc count ≡ length (shown_answers (first.now ∷ others.now))) }
    ensures most { IfOk result (λ count. count ≤ length others.now) }
{
    let text = json_of(alloc, first)?;
    let room = LONGEST_ARRAY.saturating_sub(text.len() + 2);
    body.push(b'[')?;
    body.extend_from_slice(text.as_slice())?;
    let count = put_fitting(alloc, body, others, room)?;
    body.push(b']')?;
    Ok(count)
}

/// Whether there may be more answers than a response shows: it shows fewer than were found, or these fill
/// the page.
fn is_full(page: ShownPage, found: &[DataSet], shown: usize) -> bool
    ensures { result ≡ is_full page found.now shown }
{
    shown < found.len() || page.is_filled_by(found)
}

/// A response to a search.
fn search_reply(wish: Wish, status: Status, body: Vec<u8>, is_full: bool) -> Reply
    ensures { result ≡ search_reply wish status body.items is_full }
{
    Reply {
        status,
        kind: Kind::DicomJson,
        body: Listed::from_inner(body),
        is_literal: wish.is_fuzzy,
        has_unknown: wish.has_unknown,
        is_full,
    }
}

/// The response to a search that found nothing.
fn empty_reply(alloc: Global, wish: Wish) -> Result<Reply, AllocError>
    ensures { IfOk result (λ reply. reply ≡ empty_reply wish) }
{
    if wish.wants_array {
        let body = Vec::from_slice(alloc, b"[]")?;
        Ok(search_reply(wish, Status::Done, body, false))
    } else {
        let body = Vec::new(alloc);
        Ok(search_reply(wish, Status::NoContent, body, false))
    }
}

/// The response to a search for a page that found these answers.
fn found_reply(
    alloc: Global,
    wish: Wish,
    page: ShownPage,
    answers: &[DataSet],
) -> Result<Reply, AllocError>
    ensures { IfOk result (λ reply. reply ≡ found_reply wish page answers.now) }
{
    let Some((first, others)) = answers.split_first() else {
        return empty_reply(alloc, wish);
    };
    let mut body = Vec::new(alloc);
    let shown = put_shown(alloc, &mut body, first, others)?;
    let is_full = is_full(page, answers, shown + 1);
    Ok(search_reply(wish, Status::Done, body, is_full))
}

/// Adds the limit of a kind.
fn put_limit(alloc: Global, body: &mut Vec<u8>, limit: u32) -> Result<(), AllocError>
    ensures { OnOk result (body.new.items ≡ body.old.items ++ limit_text limit) }
{
    put(body, LIMIT)?;
    put_number(alloc, body, u64::from(limit))
}

/// Adds the counts of what studies have.
fn put_study_counts(
    alloc: Global,
    body: &mut Vec<u8>,
    counts: Counts,
    institution: &Institution,
) -> Result<(), AllocError>
    ensures { OnOk result (body.new.items ≡ body.old.items
        ++ study_counts_text counts institution.now) }
{
    put(body, STUDIES)?;
    put_number(alloc, body, counts.studies)?;
    put_limit(alloc, body, institution.studies)?;
    put(body, SERIES)?;
    put_number(alloc, body, counts.series)?;
    put(body, IMAGES)?;
    put_number(alloc, body, counts.images)?;
    put_limit(alloc, body, institution.images)
}

/// Adds the counts of what is scheduled and performed.
fn put_step_counts(
    alloc: Global,
    body: &mut Vec<u8>,
    counts: Counts,
    institution: &Institution,
) -> Result<(), AllocError>
    ensures { OnOk result (body.new.items ≡ body.old.items
        ++ step_counts_text counts institution.now) }
{
    put(body, ENTRIES)?;
    put_number(alloc, body, counts.entries)?;
    put_limit(alloc, body, institution.entries)?;
    put(body, STEPS)?;
    put_number(alloc, body, counts.steps)?;
    put_limit(alloc, body, institution.steps)?;
    put(body, CLOSE)
}

/// The counts of an institution beside its limits, as JSON.
fn counts_text(
    alloc: Global,
    counts: Counts,
    institution: &Institution,
) -> Result<Vec<u8>, AllocError>
    ensures { IfOk result (λ body. body.items ≡ counts_text counts institution.now) }
{
    let mut body = Vec::new(alloc);
    put_study_counts(alloc, &mut body, counts, institution)?;
    put_step_counts(alloc, &mut body, counts, institution)?;
    Ok(body)
}

/// The institution of a name.
fn institution_of<'a>(institutions: &'a [Institution], name: &[u8]) -> Option<&'a Institution>
    ensures { option_copied result ≡ find (is_named_so name.now) institutions.now }
{
    institutions
        .iter()
        .find(|institution| institution.name.as_slice() == name)
}

/// How much the institution of a name keeps.
fn counted_of<'a>(counted: &'a [Counted], name: &[u8]) -> Option<&'a Counted>
    ensures { option_copied result ≡ find (is_counted_of name.now) counted.now }
{
    counted
        .iter()
        .find(|counted| counted.institution.as_slice() == name)
}

/// The response with what an institution keeps: nothing that others keep enters it.
fn counts_reply(
    alloc: Global,
    name: &[u8],
    counted: &[Counted],
    institutions: &[Institution],
) -> Result<Reply, AllocError>
    ensures { IfOk result (λ reply. reply ≡ counts_reply name.now counted.now institutions.now) }
{
    let Some(counted) = counted_of(counted, name) else {
        return server_reply(alloc);
    };
    let Some(institution) = institution_of(institutions, name) else {
        return server_reply(alloc);
    };
    let body = counts_text(alloc, counted.counts, institution)?;
    Ok(plain(Status::Done, Kind::Json, body))
}

/// The response with what the server counts of itself and of each institution.
fn metrics_reply(
    alloc: Global,
    counted: &[Counted],
    institutions: &[Institution],
    counters: &Counters,
) -> Result<Reply, AllocError>
    ensures { IfOk result IsMetricsReply }
{
    let body = metrics_text(alloc, counted, institutions, counters)?;
    Ok(plain(Status::Done, Kind::Metrics, body))
}

/// The response to an order that is done.
fn done_reply(alloc: Global, asked: &Request) -> Result<Reply, AllocError>
    ensures { IfOk result (λ reply. reply ≡ done_reply asked.now) }
{
    let status = match asked {
        Request::Schedule { .. } => Status::Created,
        Request::Withdraw { .. } => Status::NoContent,
        Request::Backup(_) => Status::Done,
        _ => return server_reply(alloc),
    };
    Ok(plain(status, Kind::Json, Vec::new(alloc)))
}

/// The response to a question.
fn reply_to(
    alloc: Global,
    question: &Question,
    response: &Response,
    institutions: &[Institution],
    counters: &Counters,
) -> Result<Reply, AllocError>
    ensures { IfOk result (IsReplyTo question.now response.now institutions.now) }
{
    match (&question.asked, response) {
        (_, Response::Refused(cause)) => cause_reply(alloc, *cause),
        (asked, Response::Done) => done_reply(alloc, asked),
        (Request::Search(search), Response::Found(answers)) => {
            found_reply(alloc, question.wish, search.page, answers.as_slice())
        }
        (Request::Counts(name), Response::Counted(counted)) => {
            counts_reply(alloc, name.as_slice(), counted.as_slice(), institutions)
        }
        (Request::Report, Response::Counted(counted)) => {
            metrics_reply(alloc, counted.as_slice(), institutions, counters)
        }
        _ => server_reply(alloc),
    }
}

/// The response to a question, as octets, by what the server answered.
pub fn answered(
    alloc: Global,
    question: &Question,
    response: &Response,
    institutions: &[Institution],
    counters: &Counters,
) -> Result<Written, AllocError>
    ensures { IfOk result (IsResponse (IsReplyTo question.now response.now institutions.now)
        question.now.framing) }
{
    let reply = reply_to(alloc, question, response, institutions, counters)?;
    printed(alloc, &reply, &question.framing)
}

/// The response to a request that the front refuses, as octets.
pub fn refused(alloc: Global, refusal: Refusal, framing: &Framing) -> Result<Written, AllocError>
    ensures { IfOk result (IsWritten (refusal_reply refusal) framing.now) }
{
    let reply = refused_reply(alloc, Status::of(refusal), refusal.word())?;
    printed(alloc, &reply, framing)
}

/// The response to a search with a word that is none of it, as octets.
pub fn misspelled(alloc: Global, word: &str, framing: &Framing) -> Result<Written, AllocError>
    ensures { IfOk result (IsWritten (misspelled_reply word.now) framing.now) }
{
    printed(alloc, &misspelled_reply(alloc, word)?, framing)
}

/// The response to an entry that is not the DICOM JSON that it is to be, as octets.
pub fn unreadable(alloc: Global, fault: JsonFault, framing: &Framing) -> Result<Written, AllocError>
    ensures { IfOk result (IsWritten (unreadable_reply fault) framing.now) }
{
    printed(alloc, &unreadable_reply(alloc, fault)?, framing)
}

/// A document of the page for people.
fn document_reply(alloc: Global, document: Document) -> Result<Reply, AllocError>
    ensures { IfOk result (λ reply. reply ≡ document_reply document) }
{
    match document {
        Document::Page => Ok(plain(
            Status::Done,
            Kind::Page,
            Vec::from_slice(alloc, INDEX.as_bytes())?,
        )),
        Document::Style => Ok(plain(
            Status::Done,
            Kind::Style,
            Vec::from_slice(alloc, STYLE.as_bytes())?,
        )),
        Document::Script => Ok(plain(
            Status::Done,
            Kind::Script,
            Vec::from_slice(alloc, SCRIPT.as_bytes())?,
        )),
    }
}

/// A document of the page for people, as octets of a response.
pub fn document(alloc: Global, document: Document, framing: &Framing) -> Result<Written, AllocError>
    ensures { IfOk result (IsWritten (document_reply document) framing.now) }
{
    printed(alloc, &document_reply(alloc, document)?, framing)
}

/// Leave for a page of the viewer's origin to look, as octets of a response.
pub fn permitted(alloc: Global, framing: &Framing) -> Result<Written, AllocError>
    ensures { IfOk result (IsWritten preflight_reply framing.now) }
{
    let reply = plain(Status::Preflight, Kind::Text, Vec::new(alloc));
    printed(alloc, &reply, framing)
}

/// The response that the front is there, as octets.
pub fn healthy(alloc: Global, framing: &Framing) -> Result<Written, AllocError>
    ensures { IfOk result (IsWritten health_reply framing.now) }
{
    let reply = plain(Status::Done, Kind::Text, Vec::from_slice(alloc, b"ok\n")?);
    printed(alloc, &reply, framing)
}
