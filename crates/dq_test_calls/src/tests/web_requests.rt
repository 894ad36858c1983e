//! Calls of dq_web, with the examples of RFC 9110, RFC 9112 and FIPS 180-4.

use dq_dataset::DataSet;
use dq_list::Listed;
use dq_request::{Cause, Counted, Counts, Request, Response, Search, Subject};
use dq_vr::tags;
use dq_web::{
    Allowed, Counters, Cut, Framing, Guard, Judgement, Keys, KeysFault, ParsedRequest, Question,
    Refusal, ResourceKind, Right, Service, Status, Wish, answered, ask, cut_off, judge, misspelled,
    permitted, refused,
};
use std::alloc::Global;
use std::test::Fail;

/// The example of RFC 9110 section 3.9.
const EXAMPLE: &[u8] = b"GET /hello.txt HTTP/1.1\r\nUser-Agent: curl/7.64.1\r\n\
    Host: www.example.com\r\nAccept-Language: en, mi\r\n\r\n";

/// The digest of `abc`, of the examples for FIPS 180-4, in lines with a right and a label.
const KEYS: &str = "# one key\r\n\
    NORTH order ba7816bf8f01cfea414140de5dae2223b00361a396177a9cb410ff61f20015ad\r\n\
    NORTH read ba7816bf8f01cfea414140de5dae2223b00361a396177a9cb410ff61f20015ad ris\r\n\
    * metrics ba7816bf8f01cfea414140de5dae2223b00361a396177a9cb410ff61f20015ad\r\n";

const SEARCH: &[u8] =
    b"GET /NORTH/rs/studies?PatientName=ROE%2A&includefield=all&offset=2 HTTP/1.1\r\n\
    host: localhost:8080\r\nAuthorization: Bearer abc\r\n\r\n";

const SERIES: &[u8] =
    b"GET /NORTH/rs/studies/1.2/series?StudyInstanceUID=9&Modality=CT HTTP/1.1\r\n\
    host: localhost:8080\r\nAuthorization: Bearer abc\r\n\r\n";

const MISSPELLED: &[u8] = b"GET /NORTH/rs/studies?offset=1&limit=ROE HTTP/1.1\r\n\
    host: localhost:8080\r\nAuthorization: Bearer abc\r\n\r\n";

const UNKNOWN: &[u8] = b"GET /NORTH/rs/studies?Patient=ROE&StudyInstanceUID=1.2,1.3 HTTP/1.1\r\n\
    host: localhost:8080\r\nAuthorization: Bearer abc\r\n\r\n";

const FOREIGN: &[u8] = b"GET /SOUTH/rs/studies HTTP/1.1\r\n\
    host: localhost:8080\r\nAuthorization: Bearer abc\r\n\r\n";

const PREFLIGHT: &[u8] = b"OPTIONS /NORTH/rs/studies HTTP/1.1\r\n\
    Host: localhost\r\nOrigin: https://viewer.example\r\nSec-Fetch-Site: cross-site\r\n\
    Access-Control-Request-Method: GET\r\n\r\n";

const ENTRY: &[u8] = b"POST /NORTH/worklist HTTP/1.1\r\nHost: 127.0.0.1\r\n\
    Authorization: Bearer abc\r\nConnection: close\r\nContent-Length: 2\r\n\r\n\x08\x00";

fn guard_of(alloc: Global) -> Result<Guard, Fail> {
    Ok(Guard {
        keys: Keys::read(alloc, KEYS)?,
        host: None,
        viewer: Some(Listed::copy_of(alloc, b"https://viewer.example")?),
        proxy: None,
    })
}

fn framing_of(is_last: bool, is_head: bool) -> Framing {
    Framing {
        is_last,
        is_head,
        date: None,
        viewer: None,
        kind: ResourceKind::Studies,
    }
}

fn schedule_of(alloc: Global) -> Result<Request, Fail> {
    Ok(Request::Schedule {
        institution: Listed::copy_of(alloc, b"NORTH")?,
        octets: Listed::empty(alloc),
    })
}

fn search_of(alloc: Global) -> Result<Request, Fail> {
    let name = Listed::copy_of(alloc, b"NORTH")?;
    Ok(Request::Search(Search::new(alloc, Subject::Studies, name, 100)))
}

/// So many empty data sets, found.
fn found_of(alloc: Global, count: usize) -> Result<Response, Fail> {
    let mut answers = Listed::empty(alloc);
    for _ in 0..count {
        answers.push(DataSet::new(alloc))?;
    }
    Ok(Response::Found(answers))
}

fn sent(
    alloc: Global,
    asked: Request,
    response: Response,
    is_wished: bool,
) -> Result<Vec<u8>, Fail> {
    let question = Question {
        asked,
        wish: Wish {
            wants_array: is_wished,
            is_fuzzy: is_wished,
            has_unknown: false,
        },
        framing: framing_of(false, false),
    };
    let mut counters = Counters::default();
    counters.accept();
    counters.serve(Service::Find, 0xa900);
    counters.turn(2_500_000);
    counters
        .requests
        .count(ResourceKind::Worklist, Status::Created);
    counters.requests.count(ResourceKind::Nowhere, Status::Full);
    counters.requests.count(ResourceKind::Nowhere, Status::Full);
    Ok(answered(alloc, &question, &response, &[], &counters)?.octets)
}

fn question_in(alloc: Global, octets: &[u8]) -> Result<Question, Fail> {
    let Cut::Whole(request) = cut_off(octets) else {
        return Err("no request")?;
    };
    let guard = guard_of(alloc)?;
    match ask(alloc, judge(alloc, &guard, &request.head)?, &request)? {
        ParsedRequest::Question(question) => Ok(question),
        _ => Err("no question")?,
    }
}

#[test]
fn requests_are_cut_off(rt: HostRuntime) -> Result<(), Fail> {
    let Cut::Whole(request) = cut_off(EXAMPLE) else {
        return Err("no request")?;
    };
    assert_eq!(rt; request.head.target, b"/hello.txt".as_slice());
    assert_eq!(rt;
        request.head.fields.host.unwrap_or(b""),
        b"www.example.com".as_slice()
    );
    assert_eq!(rt; request.extent, EXAMPLE.len());
    assert!(rt; !request.head.is_last);
    assert!(rt;
        matches!(
            cut_off(b"GET /hello.txt HTTP/1.1\r\nUser-"),
            Cut::Unfinished
        )
    );
    let waiting = b"PUT / HTTP/1.1\r\nExpect: 100-continue\r\nContent-Length: 9\r\n\r\n";
    let Cut::Begun(head) = cut_off(waiting) else {
        return Err("no head")?;
    };
    assert!(rt; head.is_expecting());
    let guard = guard_of(rt.alloc())?;
    let judgement = judge(rt.alloc(), &guard, &head)?;
    assert!(rt; matches!(judgement, Judgement::Refused(Refusal::Request)));
    let chunked = b"POST / HTTP/1.1\r\nTransfer-Encoding: chunked\r\n\r\n";
    assert!(rt; matches!(cut_off(chunked), Cut::Refused(Refusal::Coding)));
    let long = b"POST / HTTP/1.1\r\nContent-Length: 1048577\r\n\r\n";
    assert!(rt; matches!(cut_off(long), Cut::Refused(Refusal::Length)));
    Ok(())
}

#[test]
fn keys_are_read(rt: HostRuntime) -> Result<(), Fail> {
    let keys = Keys::read(rt.alloc(), KEYS)?;
    let first = keys.entry_for(b"NORTH", Right::Order, b"abc");
    assert!(rt; matches!(first, Ok(entry) if entry.label.is_empty()));
    let last = keys.entry_for(b"NORTH", Right::Read, b"abc");
    assert!(rt; matches!(last, Ok(entry) if entry.label.as_slice() == b"ris".as_slice()));
    let metrics = keys.entry_for(b"*", Right::Metrics, b"abc");
    assert!(rt; matches!(metrics, Ok(_)));
    let backup = keys.entry_for(b"*", Right::Backup, b"abc");
    assert!(rt; matches!(backup, Err(Refusal::Right)));
    let south = keys.entry_for(b"SOUTH", Right::Read, b"abc");
    assert!(rt; matches!(south, Err(Refusal::Key)));
    let other = keys.entry_for(b"NORTH", Right::Read, b"abd");
    assert!(rt; matches!(other, Err(Refusal::Key)));
    let bad = Keys::read(rt.alloc(), "\nNORTH ba78\n");
    assert!(rt; matches!(bad, Err(KeysFault::Line(2))));
    let none = Keys::read(rt.alloc(), "# none\n");
    assert!(rt; matches!(none, Err(KeysFault::Line(0))));
    Ok(())
}

#[test]
fn searches_are_asked(rt: HostRuntime) -> Result<(), Fail> {
    let asked = question_in(rt.alloc(), SEARCH)?.asked;
    let Request::Search(search) = asked else {
        return Err("no search")?;
    };
    assert_eq!(rt; search.subject, Subject::Studies);
    assert_eq!(rt; search.institution.as_slice(), b"NORTH".as_slice());
    let keys = search.keys.as_slice();
    assert_eq!(rt; keys.len(), 1);
    assert_eq!(rt; keys[0].tag, tags::PATIENT_NAME);
    assert_eq!(rt; keys[0].value.as_slice(), b"ROE*".as_slice());
    assert_eq!(rt; search.page.offset, 2);
    assert_eq!(rt; search.page.limit, 100);
    let asked = question_in(rt.alloc(), SERIES)?.asked;
    let Request::Search(search) = asked else {
        return Err("no search")?;
    };
    let keys = search.keys.as_slice();
    assert_eq!(rt; keys.len(), 3);
    assert_eq!(rt; keys[0].tag, tags::STUDY_INSTANCE_UID);
    assert_eq!(rt; keys[0].value.as_slice(), b"1.2".as_slice());
    Ok(())
}

#[test]
fn unknown_parameters_are_passed_over(rt: HostRuntime) -> Result<(), Fail> {
    let question = question_in(rt.alloc(), UNKNOWN)?;
    assert!(rt; question.wish.has_unknown);
    let asked = question.asked;
    let Request::Search(search) = asked else {
        return Err("no search")?;
    };
    let keys = search.keys.as_slice();
    assert_eq!(rt; keys.len(), 1);
    assert_eq!(rt; keys[0].tag, tags::STUDY_INSTANCE_UID);
    assert_eq!(rt; keys[0].value.as_slice(), b"1.2\\1.3".as_slice());
    Ok(())
}

#[test]
fn searches_are_refused(rt: HostRuntime) -> Result<(), Fail> {
    let guard = guard_of(rt.alloc())?;
    let Cut::Whole(request) = cut_off(FOREIGN) else {
        return Err("no request")?;
    };
    let judgement = judge(rt.alloc(), &guard, &request.head)?;
    let asked = ask(rt.alloc(), judgement, &request)?;
    assert!(rt; matches!(asked, ParsedRequest::Refused(Refusal::Key)));
    let Cut::Whole(request) = cut_off(MISSPELLED) else {
        return Err("no request")?;
    };
    let judgement = judge(rt.alloc(), &guard, &request.head)?;
    let ParsedRequest::Misspelled(word) = ask(rt.alloc(), judgement, &request)? else {
        return Err("no word")?;
    };
    assert_eq!(rt; word.as_str(), "limit=ROE");
    let refused = misspelled(rt.alloc(), "a\"b", &framing_of(false, false))?.octets;
    assert!(rt; refused.starts_with(b"HTTP/1.1 400 Bad Request\r\n"));
    assert!(rt; refused.ends_with(b"\r\n\r\n{\"refused\":\"keyword a\\\"b\"}"));
    Ok(())
}

#[test]
fn leave_is_given_to_the_viewer(rt: HostRuntime) -> Result<(), Fail> {
    let alloc = rt.alloc();
    let guard = guard_of(alloc)?;
    let Cut::Whole(request) = cut_off(PREFLIGHT) else {
        return Err("no request")?;
    };
    let asked = ask(alloc, judge(alloc, &guard, &request.head)?, &request)?;
    assert!(rt; matches!(asked, ParsedRequest::Preflight));
    let mut framing = framing_of(false, false);
    framing.viewer = guard.viewer_of(alloc, &request.head.fields)?;
    let leave = permitted(alloc, &framing)?.octets;
    assert!(rt; leave.starts_with(b"HTTP/1.1 204 No Content\r\n"));
    assert!(rt;
        leave.ends_with(
            b"\r\nAccess-Control-Allow-Origin: https://viewer.example\r\n\
        Access-Control-Expose-Headers: Warning\r\nVary: Origin\r\n\r\n"
        )
    );
    Ok(())
}

#[test]
fn entries_are_asked(rt: HostRuntime) -> Result<(), Fail> {
    let asked = question_in(rt.alloc(), ENTRY)?.asked;
    let Request::Schedule {
        institution,
        octets,
    } = asked
    else {
        return Err("no entry")?;
    };
    assert_eq!(rt; institution.as_slice(), b"NORTH".as_slice());
    assert_eq!(rt; octets.as_slice(), b"\x08\x00".as_slice());
    Ok(())
}

#[test]
fn answers_are_sent(rt: HostRuntime) -> Result<(), Fail> {
    let alloc = rt.alloc();
    let found = sent(alloc, search_of(alloc)?, found_of(alloc, 2)?, false)?;
    assert!(rt; found.starts_with(b"HTTP/1.1 200 OK\r\nCache-Control: no-store\r\n"));
    assert!(rt;
        found.ends_with(
            b"\r\nContent-Type: application/dicom+json\r\n\
        Content-Length: 7\r\n\r\n[{},{}]"
        )
    );
    let none = sent(alloc, search_of(alloc)?, found_of(alloc, 0)?, false)?;
    assert!(rt; none.starts_with(b"HTTP/1.1 204 No Content\r\n"));
    assert!(rt; none.ends_with(b"frame-ancestors 'none'\r\n\r\n"));
    let none = sent(alloc, search_of(alloc)?, found_of(alloc, 0)?, true)?;
    assert!(rt; none.ends_with(b"\r\nContent-Length: 2\r\n\r\n[]"));
    assert!(rt;
        none.windows(25).any(|octets| octets == b"\r\nWarning: 299 newtiron \"".as_slice())
    );
    let kept = sent(alloc, schedule_of(alloc)?, Response::Done, false)?;
    assert!(rt; kept.starts_with(b"HTTP/1.1 201 Created\r\n"));
    let full = Response::Refused(Cause::Order(4));
    let full = sent(alloc, schedule_of(alloc)?, full, false)?;
    assert!(rt; full.starts_with(b"HTTP/1.1 507 Insufficient Storage\r\n"));
    assert!(rt; full.ends_with(b"\r\n\r\n{\"refused\":\"4\"}"));
    Ok(())
}

#[test]
fn metrics_are_sent(rt: HostRuntime) -> Result<(), Fail> {
    let mut counted = Listed::empty(rt.alloc());
    counted.push(Counted {
        institution: Listed::copy_of(rt.alloc(), b"NORTH")?,
        counts: Counts {
            studies: 1,
            series: 2,
            images: 3,
            entries: 4,
            steps: 5,
        },
    })?;
    let metrics = sent(
        rt.alloc(),
        Request::Report,
        Response::Counted(counted),
        false,
    )?;
    let text = str::from_utf8(metrics.as_slice()).unwrap_or("");
    assert!(rt; text.contains("\nnewtiron_rows{institution=\"NORTH\",kind=\"images\"} 3\n"));
    assert!(rt; text.contains("\nnewtiron_associations_total{outcome=\"accepted\"} 1\n"));
    assert!(rt;
        text.contains("\nnewtiron_operations_total{service=\"find\",status=\"refused\"} 1\n")
    );
    assert!(rt;
        text.contains("\nnewtiron_http_requests_total{kind=\"worklist\",status=\"201\"} 1\n")
    );
    assert!(rt; text.contains("\nnewtiron_http_requests_total{kind=\"none\",status=\"507\"} 2\n"));
    assert!(rt; text.contains("\nnewtiron_turn_seconds_bucket{le=\"1\"} 0\n"));
    assert!(rt; text.contains("\nnewtiron_turn_seconds_bucket{le=\"+Inf\"} 1\n"));
    assert!(rt; text.contains("\nnewtiron_turn_seconds_sum 2.500000\n"));
    let refused = refused(
        rt.alloc(),
        Refusal::Method(Allowed::GetAndPost),
        &framing_of(true, false),
    )?
    .octets;
    assert!(rt; refused.starts_with(b"HTTP/1.1 405 Method Not Allowed\r\n"));
    assert!(rt;
        refused
            .windows(21)
            .any(|octets| octets == b"\r\nConnection: close\r\n".as_slice())
    );
    assert!(rt; refused.ends_with(b"\r\n\r\n{\"refused\":\"method\"}"));
    Ok(())
}
