//! The server's counts, in the Prometheus text format 0.0.4.

use crate::counters::{Counters, Operations, RequestCounts, Turns};
use crate::refusal::Allowed;
use crate::replies::{put, put_number};
use crate::resource::ResourceKind;
use crate::status::Status;
use dq_config::Institution;
use dq_request::Counted;
use std::alloc::{AllocError, Global};

/// The kinds of resources by which requests are counted.
const KINDS: [ResourceKind; 11] = [
    ResourceKind::Studies,
    ResourceKind::Series,
    ResourceKind::Instances,
    ResourceKind::Worklist,
    ResourceKind::Steps,
    ResourceKind::Counts,
    ResourceKind::Page,
    ResourceKind::Health,
    ResourceKind::Metrics,
    ResourceKind::Backup,
    ResourceKind::Nowhere,
];

/// A status of each code.
const STATUSES: [Status; 19] = [
    Status::Done,
    Status::Created,
    Status::NoContent,
    Status::BadRequest,
    Status::Unauthorized,
    Status::Forbidden,
    Status::NotFound,
    Status::MethodNotAllowed(Allowed::Get),
    Status::NotAcceptable,
    Status::RequestTimeout,
    Status::Conflict,
    Status::TooLarge,
    Status::UnsupportedMediaType,
    Status::Misdirected,
    Status::HeadTooLarge,
    Status::ServerError,
    Status::NotImplemented,
    Status::Unavailable,
    Status::Full,
];

/// Adds a sample: a name with its labels, and a value.
fn put_sample(
    alloc: Global,
    text: &mut Vec<u8>,
    sample: &str,
    value: u64,
) -> Result<(), AllocError> {
    put(text, sample)?;
    put(text, " ")?;
    put_number(alloc, text, value)?;
    put(text, "\n")
}

/// Adds a sample of what an institution keeps of a kind.
fn put_rows(
    alloc: Global,
    text: &mut Vec<u8>,
    name: &[u8],
    kind: &str,
    value: u64,
) -> Result<(), AllocError> {
    put(text, "newtiron_rows{institution=\"")?;
    put_kind(alloc, text, name, kind, value)
}

/// Adds a sample of what an institution may keep of a kind.
fn put_limit(
    alloc: Global,
    text: &mut Vec<u8>,
    name: &[u8],
    kind: &str,
    limit: u32,
) -> Result<(), AllocError> {
    put(text, "newtiron_rows_limit{institution=\"")?;
    put_kind(alloc, text, name, kind, u64::from(limit))
}

/// Adds the labels of an institution and a kind, and a value.
fn put_kind(
    alloc: Global,
    text: &mut Vec<u8>,
    name: &[u8],
    kind: &str,
    value: u64,
) -> Result<(), AllocError> {
    text.extend_from_slice(name)?;
    put(text, "\",kind=\"")?;
    put(text, kind)?;
    put_sample(alloc, text, "\"}", value)
}

/// Adds how many rows an institution keeps.
fn put_counts(alloc: Global, text: &mut Vec<u8>, counted: &Counted) -> Result<(), AllocError> {
    let name = counted.institution.as_slice();
    put_rows(alloc, text, name, "studies", counted.counts.studies)?;
    put_rows(alloc, text, name, "series", counted.counts.series)?;
    put_rows(alloc, text, name, "images", counted.counts.images)?;
    put_rows(alloc, text, name, "entries", counted.counts.entries)?;
    put_rows(alloc, text, name, "steps", counted.counts.steps)
}

/// Adds how many rows each institution keeps.
fn put_report(alloc: Global, text: &mut Vec<u8>, counted: &[Counted]) -> Result<(), AllocError> {
    put(
        text,
        "# HELP newtiron_rows Rows that an institution keeps.\n",
    )?;
    put(text, "# TYPE newtiron_rows gauge\n")?;
    for one in counted {
        put_counts(alloc, text, one)?;
    }
    Ok(())
}

/// Adds how many rows each institution may keep.
fn put_limits(
    alloc: Global,
    text: &mut Vec<u8>,
    institutions: &[Institution],
) -> Result<(), AllocError> {
    put(
        text,
        "# HELP newtiron_rows_limit Rows that an institution may keep.\n",
    )?;
    put(text, "# TYPE newtiron_rows_limit gauge\n")?;
    for institution in institutions {
        let name = institution.name.as_slice();
        put_limit(alloc, text, name, "studies", institution.studies)?;
        put_limit(alloc, text, name, "images", institution.images)?;
        put_limit(alloc, text, name, "entries", institution.entries)?;
        put_limit(alloc, text, name, "steps", institution.steps)?;
    }
    Ok(())
}

/// Adds the associations.
fn put_associations(
    alloc: Global,
    text: &mut Vec<u8>,
    counters: &Counters,
) -> Result<(), AllocError> {
    put(
        text,
        "# HELP newtiron_associations_open Associations that are open.\n",
    )?;
    put(text, "# TYPE newtiron_associations_open gauge\n")?;
    put_sample(alloc, text, "newtiron_associations_open", counters.current)?;
    put(
        text,
        "# HELP newtiron_associations_total Associations, by what came of them.\n",
    )?;
    put(text, "# TYPE newtiron_associations_total counter\n")?;
    put_outcome(alloc, text, "accepted", counters.accepted)?;
    put_outcome(alloc, text, "rejected", counters.rejected)?;
    put_outcome(alloc, text, "released", counters.released)?;
    put_outcome(alloc, text, "aborted", counters.aborted)?;
    put_outcome(alloc, text, "lost", counters.lost)
}

fn put_outcome(
    alloc: Global,
    text: &mut Vec<u8>,
    outcome: &str,
    value: u64,
) -> Result<(), AllocError> {
    put(text, "newtiron_associations_total{outcome=\"")?;
    put(text, outcome)?;
    put_sample(alloc, text, "\"}", value)
}

fn put_status(
    alloc: Global,
    text: &mut Vec<u8>,
    service: &str,
    status: &str,
    value: u64,
) -> Result<(), AllocError> {
    put(text, "newtiron_operations_total{service=\"")?;
    put(text, service)?;
    put(text, "\",status=\"")?;
    put(text, status)?;
    put_sample(alloc, text, "\"}", value)
}

/// Adds the operations of a service.
fn put_operations(
    alloc: Global,
    text: &mut Vec<u8>,
    service: &str,
    operations: Operations,
) -> Result<(), AllocError> {
    put_status(alloc, text, service, "success", operations.success)?;
    put_status(alloc, text, service, "warning", operations.warning)?;
    put_status(alloc, text, service, "refused", operations.refused)
}

/// Adds the operations of all services.
fn put_services(alloc: Global, text: &mut Vec<u8>, counters: &Counters) -> Result<(), AllocError> {
    put(
        text,
        "# HELP newtiron_operations_total Operations, by the class of their status.\n",
    )?;
    put(text, "# TYPE newtiron_operations_total counter\n")?;
    put_operations(alloc, text, "echo", counters.echo)?;
    put_operations(alloc, text, "store", counters.store)?;
    put_operations(alloc, text, "find", counters.find)?;
    put_operations(alloc, text, "worklist", counters.worklist)?;
    put_operations(alloc, text, "step", counters.step)
}

fn put_bucket(alloc: Global, text: &mut Vec<u8>, most: &str, value: u64) -> Result<(), AllocError> {
    put(text, "newtiron_turn_seconds_bucket{le=\"")?;
    put(text, most)?;
    put_sample(alloc, text, "\"}", value)
}

/// Adds the turns of the server, as a histogram in seconds.
fn put_turns(alloc: Global, text: &mut Vec<u8>, turns: Turns) -> Result<(), AllocError> {
    put(
        text,
        "# HELP newtiron_turn_seconds How long turns of the server took.\n",
    )?;
    put(text, "# TYPE newtiron_turn_seconds histogram\n")?;
    put_bucket(alloc, text, "0.001", turns.within_1_ms)?;
    put_bucket(alloc, text, "0.005", turns.within_5_ms)?;
    put_bucket(alloc, text, "0.01", turns.within_10_ms)?;
    put_bucket(alloc, text, "0.05", turns.within_50_ms)?;
    put_bucket(alloc, text, "0.1", turns.within_100_ms)?;
    put_bucket(alloc, text, "0.5", turns.within_500_ms)?;
    put_bucket(alloc, text, "1", turns.within_1_s)?;
    put_bucket(alloc, text, "+Inf", turns.all)?;
    let seconds = turns.micros / 1_000_000;
    let micros = turns.micros % 1_000_000;
    let sum = format!(in alloc; "newtiron_turn_seconds_sum {seconds}.{micros:06}\n")?;
    put(text, sum.as_str())?;
    put_sample(alloc, text, "newtiron_turn_seconds_count", turns.all)
}

fn put_request(
    alloc: Global,
    text: &mut Vec<u8>,
    kind: ResourceKind,
    status: Status,
    value: u64,
) -> Result<(), AllocError> {
    put(text, "newtiron_http_requests_total{kind=\"")?;
    put(text, kind.word())?;
    put(text, "\",status=\"")?;
    put_number(alloc, text, u64::from(status.code()))?;
    put_sample(alloc, text, "\"}", value)
}

/// Adds the requests for resources of a kind, by the statuses that there were.
fn put_statuses(
    alloc: Global,
    text: &mut Vec<u8>,
    kind: ResourceKind,
    requests: &RequestCounts,
) -> Result<(), AllocError> {
    for status in STATUSES {
        let count = requests.of(kind, status);
        if count > 0 {
            put_request(alloc, text, kind, status, count)?;
        }
    }
    Ok(())
}

/// Adds the requests of the web front.
fn put_requests(
    alloc: Global,
    text: &mut Vec<u8>,
    requests: &RequestCounts,
) -> Result<(), AllocError> {
    put(
        text,
        "# HELP newtiron_http_requests_total Requests of the web front, by the status of the response.\n",
    )?;
    put(text, "# TYPE newtiron_http_requests_total counter\n")?;
    for kind in KINDS {
        put_statuses(alloc, text, kind, requests)?;
    }
    Ok(())
}

/// Returns how much each institution keeps, their limits, and the server's counts of itself.
pub(crate) fn metrics_text(
    alloc: Global,
    counted: &[Counted],
    institutions: &[Institution],
    counters: &Counters,
) -> Result<Vec<u8>, AllocError> {
    let mut text = Vec::new(alloc);
    put_report(alloc, &mut text, counted)?;
    put_limits(alloc, &mut text, institutions)?;
    put_associations(alloc, &mut text, counters)?;
    put_services(alloc, &mut text, counters)?;
    put_requests(alloc, &mut text, &counters.requests)?;
    put_turns(alloc, &mut text, counters.turns)?;
    put(
        &mut text,
        "# HELP newtiron_memory_bytes Memory that the server holds.\n",
    )?;
    put(&mut text, "# TYPE newtiron_memory_bytes gauge\n")?;
    put_sample(alloc, &mut text, "newtiron_memory_bytes", counters.memory)?;
    Ok(text)
}
