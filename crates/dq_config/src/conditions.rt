//! Whether institutions meet the conditions on a configuration.
ghost use Rattle.std.specs.Prelude.{◌≡◌, [], length};
ghost use Rattle.std.specs.Result.{result_err};
ghost use Rattle.std.specs.List.{list_all, list_any};
ghost use Rattle.dq_config.specs.Routing.{joins, has_route};
ghost use Rattle.dq_config.specs.Conditions.{is_between, is_name_octet, is_institution_name, is_title_octet, is_title, is_limit, is_association_limit, is_name_taken, is_route_taken, route_conditions, routes_conditions, limit_conditions, institution_conditions, conditions, first_unmet_fault};

use crate::config::{Institution, Route};
use crate::fault::ConfigFault;

const LONGEST_TEXT: usize = 16;

const MOST_ROWS: u32 = 1_000_000;

const MOST_ASSOCIATIONS: u32 = 64;

/// The fault of the first condition that institutions do not meet.
pub(crate) fn judge(institutions: &[Institution]) -> Result<(), ConfigFault>
    ensures { result_err result ≡ first_unmet_fault (conditions [] institutions.now) }
{
    for i in 0..institutions.len() {
        judge_institution(&institutions[..i], &institutions[i])?;
    }
    Ok(())
}

fn judge_institution(before: &[Institution], institution: &Institution) -> Result<(), ConfigFault>
    ensures { result_err result ≡ first_unmet_fault (institution_conditions before.now institution.now) }
{
    if !is_name(institution.name.as_slice()) {
        return Err(ConfigFault::BadName);
    }
    if is_name_taken(before, institution.name.as_slice()) {
        return Err(ConfigFault::NameTaken);
    }
    judge_routes(before, institution.routes.as_slice())?;
    judge_limits(institution)
}

fn judge_routes(before: &[Institution], routes: &[Route]) -> Result<(), ConfigFault>
    ensures { result_err result ≡ first_unmet_fault (routes_conditions before.now [] routes.now) }
{
    for i in 0..routes.len() {
        judge_route(before, &routes[..i], &routes[i])?;
    }
    Ok(())
}

fn judge_route(before: &[Institution], done: &[Route], route: &Route) -> Result<(), ConfigFault>
    ensures { result_err result ≡ first_unmet_fault (route_conditions before.now done.now route.now) }
{
    if !is_title(route.called.as_slice()) || !is_title(route.calling.as_slice()) {
        return Err(ConfigFault::BadTitle);
    }
    if is_route_taken(before, done, route) {
        return Err(ConfigFault::RouteTaken);
    }
    Ok(())
}

fn judge_limits(institution: &Institution) -> Result<(), ConfigFault>
    ensures { result_err result ≡ first_unmet_fault (limit_conditions institution.now) }
{
    if is_limit(institution.studies)
        && is_limit(institution.images)
        && is_limit(institution.entries)
        && is_limit(institution.steps)
        && is_association_limit(institution.associations)
    {
        Ok(())
    } else {
        Err(ConfigFault::BadLimit)
    }
}

#[tactic(auto, unfolding(crate::specs::Conditions::is_limit))]
fn is_limit(limit: u32) -> bool
    ensures { result ≡ is_limit limit }
{
    1 <= limit && limit <= MOST_ROWS
}

#[tactic(auto, unfolding(crate::specs::Conditions::is_association_limit))]
fn is_association_limit(limit: u32) -> bool
    ensures { result ≡ is_association_limit limit }
{
    1 <= limit && limit <= MOST_ASSOCIATIONS
}

#[tactic(auto, unfolding(crate::specs::Conditions::is_name_taken))]
fn is_name_taken(before: &[Institution], name: &[u8]) -> bool
    ensures { result ≡ is_name_taken before.now name.now }
{
    before.iter().any(|other| other.is_named(name))
}

#[tactic(auto, unfolding(crate::specs::Conditions::is_route_taken))]
fn is_route_taken(before: &[Institution], done: &[Route], route: &Route) -> bool
    ensures { result ≡ is_route_taken before.now done.now route.now }
{
    have_route(before, route) || contain_route(done, route)
}

fn have_route(institutions: &[Institution], route: &Route) -> bool
    ensures { result
        ≡ list_any (has_route route.now.called route.now.calling) institutions.now }
{
    institutions.iter().any(|other| other.has_route(
        route.called.as_slice(),
        route.calling.as_slice(),
    ))
}

fn contain_route(routes: &[Route], route: &Route) -> bool
    ensures { result ≡ list_any (joins route.now.called route.now.calling) routes.now }
{
    routes.iter().any(|other| other.joins(route.called.as_slice(), route.calling.as_slice()))
}

/// Whether octets are the name of an institution: 1 to 16 of A to Z, 0 to 9 and the underscore.
#[tactic(auto, unfolding(crate::specs::Conditions::is_institution_name))]
pub fn is_name(name: &[u8]) -> bool
    ensures { result ≡ is_institution_name name.now }
{
    has_text_length(name) && are_name_octets(name)
}

fn are_name_octets(octets: &[u8]) -> bool
    ensures { result ≡ list_all is_name_octet octets.now }
{
    octets.iter().all(|octet| is_name_octet(*octet))
}

#[tactic(auto, unfolding(crate::specs::Conditions::is_name_octet))]
fn is_name_octet(octet: u8) -> bool
    ensures { result ≡ is_name_octet octet }
{
    is_between(b'A', b'Z', octet) || is_between(b'0', b'9', octet) || octet == b'_'
}

#[tactic(auto, unfolding(crate::specs::Conditions::is_title))]
fn is_title(title: &[u8]) -> bool
    ensures { result ≡ is_title title.now }
{
    has_text_length(title) && are_title_octets(title)
}

fn are_title_octets(octets: &[u8]) -> bool
    ensures { result ≡ list_all is_title_octet octets.now }
{
    octets.iter().all(|octet| is_title_octet(*octet))
}

fn has_text_length(text: &[u8]) -> bool
    ensures { result ≡ is_between 1 16 (length text.now) }
{
    1 <= text.len() && text.len() <= LONGEST_TEXT
}

#[tactic(auto, unfolding(crate::specs::Conditions::is_title_octet))]
fn is_title_octet(octet: u8) -> bool
    ensures { result ≡ is_title_octet octet }
{
    is_between(b' ', b'~', octet) && octet != b'\\'
}

fn is_between(least: u8, most: u8, octet: u8) -> bool
    ensures { result ≡ is_between least most octet }
{
    least <= octet && octet <= most
}
