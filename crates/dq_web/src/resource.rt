//! The resources that paths name.
ghost use Rattle.std.specs.Prelude.{◌≡◌, ◌≢◌, ℕ, ◌++◌, List, IsTrue, MatchOption};
ghost use Rattle.dq_web.specs.Resources.{kind_of, beneath, is_segment, IsFound, IsPath, IsOwnPath, IsPathBelow, IsPathOfStudies};

/// The resource at a path. Only the path of a request names an institution.
#[derive(Clone, Copy)]
pub enum Resource<'a> {
    Page,
    Style,
    Script,
    Health,
    Metrics,
    Backup,
    Counts(&'a str),
    Studies(&'a str),
    Series(&'a str, &'a str),
    Images(&'a str, &'a str, &'a str),
    /// The images of all series of a study.
    StudyImages(&'a str, &'a str),
    /// The series or the images of all studies, which are not searched.
    Unsearched(&'a str),
    Worklist(&'a str),
    Entry(&'a str, &'a str),
    Steps(&'a str),
    Nowhere,
}

/// The kind of a resource, by which requests are counted.
#[derive(Clone, Copy, Debug, PartialEq, Eq)]
pub enum ResourceKind {
    Studies,
    Series,
    Instances,
    Worklist,
    Steps,
    Counts,
    Page,
    Health,
    Metrics,
    Backup,
    /// No resource, or one that has no kind of its own.
    Nowhere,
}

impl ResourceKind {
    /// Returns the word for it in a label of the metrics.
    pub(crate) fn word(self) -> &'static str {
        match self {
            ResourceKind::Studies => "studies",
            ResourceKind::Series => "series",
            ResourceKind::Instances => "instances",
            ResourceKind::Worklist => "worklist",
            ResourceKind::Steps => "steps",
            ResourceKind::Counts => "counts",
            ResourceKind::Page => "page",
            ResourceKind::Health => "health",
            ResourceKind::Metrics => "metrics",
            ResourceKind::Backup => "backup",
            ResourceKind::Nowhere => "none",
        }
    }
}

/// Returns the kind of a resource.
pub(crate) fn kind_of(resource: Resource<'_>) -> ResourceKind
    ensures { result ≡ kind_of resource.entry }
{
    match resource {
        Resource::Studies(_) => ResourceKind::Studies,
        Resource::Series(..) => ResourceKind::Series,
        Resource::Images(..) | Resource::StudyImages(..) => ResourceKind::Instances,
        Resource::Worklist(_) | Resource::Entry(..) => ResourceKind::Worklist,
        Resource::Steps(_) => ResourceKind::Steps,
        Resource::Counts(_) => ResourceKind::Counts,
        Resource::Page | Resource::Style | Resource::Script => ResourceKind::Page,
        Resource::Health => ResourceKind::Health,
        Resource::Metrics => ResourceKind::Metrics,
        Resource::Backup => ResourceKind::Backup,
        Resource::Unsearched(_) | Resource::Nowhere => ResourceKind::Nowhere,
    }
}

/// Returns the text before the first slash, and the text after it.
pub(crate) fn at_slash(text: &str) -> Option<(&str, &str)>
    ensures { MatchOption result (IsTrue (is_segment text.now))
        (λ parts. (text.now ≡ beneath parts.0.now parts.1.now) × IsTrue (is_segment parts.0.now)) }
{
    match text.split_once('/') {
        Some(parts) => Some(parts),
        None => None,
    }
}

/// Returns the rest of a text after a word at its front.
pub(crate) fn behind<'a>(text: &'a str, word: &str) -> Option<&'a str>
    ensures { MatchOption result ((rest : List ℕ) → text.now ≢ word.now ++ rest)
        (λ rest. text.now ≡ word.now ++ rest.now) }
{
    text.strip_prefix(word)
}

/// The resource of what is below a study, by what stands behind the words of its studies.
fn resource_in_study<'a>(institution: &'a str, rest: &'a str) -> Resource<'a>
    ensures { IsFound (IsPathOfStudies institution.now rest.now) result }
{
    let Some((study, rest)) = at_slash(rest) else {
        return Resource::Nowhere;
    };
    if rest == "series" {
        return Resource::Series(institution, study);
    }
    if rest == "instances" {
        return Resource::StudyImages(institution, study);
    }
    let Some(rest) = behind(rest, "series/") else {
        return Resource::Nowhere;
    };
    let Some((series, rest)) = at_slash(rest) else {
        return Resource::Nowhere;
    };
    if rest == "instances" {
        Resource::Images(institution, study, series)
    } else {
        Resource::Nowhere
    }
}

/// The resource of an institution, by what stands behind its name.
fn resource_of_institution<'a>(institution: &'a str, rest: &'a str) -> Resource<'a>
    ensures { IsFound (IsPathBelow institution.now rest.now) result }
{
    match rest {
        "counts" => return Resource::Counts(institution),
        "worklist" => return Resource::Worklist(institution),
        "steps" => return Resource::Steps(institution),
        "rs/studies" => return Resource::Studies(institution),
        "rs/series" | "rs/instances" => return Resource::Unsearched(institution),
        _ => {}
    }
    if let Some(id) = behind(rest, "worklist/") {
        return Resource::Entry(institution, id);
    }
    match behind(rest, "rs/studies/") {
        Some(rest) => resource_in_study(institution, rest),
        None => Resource::Nowhere,
    }
}

/// The resource at the path of an institution.
fn resource_below(path: &str) -> Resource<'_>
    ensures { IsFound (IsOwnPath path.now) result }
{
    let Some(rest) = behind(path, "/") else {
        return Resource::Nowhere;
    };
    let Some((institution, rest)) = at_slash(rest) else {
        return Resource::Nowhere;
    };
    // (the operator's name is no institution's)
    if institution == "*" {
        return Resource::Nowhere;
    }
    resource_of_institution(institution, rest)
}

/// Returns the resource at a path.
pub fn resource_of(path: &str) -> Resource<'_>
    ensures { IsPath path.now result }
{
    match path {
        "/" => Resource::Page,
        "/page.css" => Resource::Style,
        "/page.js" => Resource::Script,
        "/health" => Resource::Health,
        "/metrics" => Resource::Metrics,
        "/backup" => Resource::Backup,
        _ => resource_below(path),
    }
}
