//! A configuration that is checked, and listed.
ghost use Rattle.std.specs.Prelude.{◌≡◌, ◌≢◌, ◌++◌, IfOk, IfErr, IfSome, OnOk, string_bytes};
ghost use Rattle.std.specs.Fmt.{decimal};
ghost use Rattle.std.specs.Option.{option_copied};
ghost use Rattle.std.specs.Str.{IsUtf8};
ghost use Rattle.dq_config.specs.Conditions.{configuration};
ghost use Rattle.dq_config.specs.Faults.{config_fault_number};
ghost use Rattle.dq_config.specs.declared.fault.ConfigFault.TheVariants.{NoMemory};
ghost use Rattle.dq_cli.specs.CommandLine.{checking_in};
ghost use Rattle.dq_app.specs.Places.{IsLineOf};
ghost use Rattle.dq_app.specs.Program.{IsConfigured, RefusesChecked, AsFarAsHonest};
ghost use Rattle.dq_app.specs.Checks.{route_line, limit_text, limits_text, institution_lines, check_text, counted_lines, counted_check_text, IsListed, EndsList, IsChecked, StopsCheck};

use crate::placing::line_of_fault;
use crate::reporting::{Kept, put_whole};
use crate::stop::{Misfit, Stop};
use crate::stores::Stores;
use dq_captures::{Folder, Sink, Unread};
use dq_cli::Inspection;
use dq_config::{Config, ConfigFault, Institution, Route};
use dq_console::{AnswerError, Counting, counted, put_counted_line};
use dq_core::Fault;
use dq_tables::Tables;
use std::alloc::{AllocError, Global};

/// A file that cannot be read, or is no text.
const UNREADABLE: Misfit = Misfit { number: 0, line: 0 };

/// Returns the error of a text that is refused with a fault.
fn misfit_of(alloc: Global, text: &[u8], fault: ConfigFault) -> Result<Misfit, AllocError>
    ensures number { IfOk result (λ misfit. misfit.number ≡ config_fault_number fault) }
    ensures line { fault ≢ NoMemory → IfOk result (λ misfit. IsLineOf text.now fault misfit.line) }
{
    let line = line_of_fault(alloc, text, fault)?;
    Ok(Misfit {
        number: fault.number(),
        line: line as u64,
    })
}

/// The configuration of a file. It is refused as a check tells it.
fn fit_config<Rt: AllocGlobal + Folder>(rt: &Rt, path: &str) -> Result<Config, Stop>
    ensures read { IfOk result (λ config. IfSome (Rt.held rt.now path.now) (λ octets.
        IsUtf8 octets × (configuration octets ≡ Ok config))) }
    ensures refused { IfErr result
        (RefusesChecked (Rt.may_fail rt.now path.now) (Rt.held rt.now path.now)) }
{
    let octets = match rt.read_file(rt.alloc(), path) {
        Ok(octets) => octets,
        Err(Unread::NoMemory) => return Err(Stop::from(AllocError)),
        Err(Unread::Failed) => return Err(Stop::Unfit(UNREADABLE)),
    };
    let Ok(text) = str::from_utf8(octets.as_slice()) else {
        return Err(Stop::Unfit(UNREADABLE));
    };
    match Config::read(rt.alloc(), text) {
        Ok(config) => Ok(config),
        Err(ConfigFault::NoMemory) => Err(Stop::from(AllocError)),
        Err(fault) => Err(Stop::Unfit(misfit_of(rt.alloc(), octets.as_slice(), fault)?)),
    }
}

/// Adds the line of a pair of titles.
fn put_route(text: &mut Vec<u8>, name: &[u8], route: &Route) -> Result<(), AllocError>
    ensures { OnOk result
        (text.new.items ≡ text.old.items ++ route_line name.now route.now) }
{
    text.extend_from_slice(name)?;
    text.extend_from_slice(b" called ")?;
    text.extend_from_slice(route.called.as_slice())?;
    text.extend_from_slice(b" calling ")?;
    text.extend_from_slice(route.calling.as_slice())?;
    text.push(b'\n')?;
    Ok(())
}

/// A limit in decimal digits.
fn limit_digits(alloc: Global, limit: u32) -> Result<String, AllocError>
    ensures { IfOk result (λ text. string_bytes text ≡ decimal limit) }
{
    format!(in alloc; "{limit}")
}

/// Adds a limit, after the words for what it limits.
fn put_limit(alloc: Global, text: &mut Vec<u8>, words: &str, limit: u32) -> Result<(), AllocError>
    ensures { OnOk result (text.new.items ≡ text.old.items ++ limit_text words.now limit) }
{
    text.extend_from_slice(words.as_bytes())?;
    text.extend_from_slice(limit_digits(alloc, limit)?.as_bytes())?;
    Ok(())
}

/// Adds the limits of an institution.
fn put_limits(
    alloc: Global,
    text: &mut Vec<u8>,
    institution: &Institution,
) -> Result<(), AllocError>
    ensures { OnOk result (text.new.items ≡ text.old.items ++ limits_text institution.now) }
{
    put_limit(alloc, text, " limits studies ", institution.studies)?;
    put_limit(alloc, text, " images ", institution.images)?;
    put_limit(alloc, text, " entries ", institution.entries)?;
    put_limit(alloc, text, " steps ", institution.steps)?;
    put_limit(alloc, text, " associations ", institution.associations)?;
    text.push(b'\n')?;
    Ok(())
}

/// Adds the lines of an institution.
fn put_institution(
    alloc: Global,
    text: &mut Vec<u8>,
    institution: &Institution,
) -> Result<(), AllocError>
    ensures { OnOk result
        (text.new.items ≡ text.old.items ++ institution_lines institution.now) }
{
    let name = institution.name.as_slice();
    for route in institution.routes.as_slice() {
        put_route(text, name, route)?;
    }
    text.extend_from_slice(name)?;
    put_limits(alloc, text, institution)
}

/// The lines of institutions.
fn list_of(alloc: Global, institutions: &[Institution]) -> Result<Vec<u8>, AllocError>
    ensures { IfOk result (λ text. text.items ≡ check_text institutions.now) }
{
    let mut text = Vec::new(alloc);
    for institution in institutions {
        put_institution(alloc, &mut text, institution)?;
    }
    Ok(text)
}

/// Adds the lines of an institution, and that of its rows.
fn put_counted<C: Counting>(
    alloc: Global,
    text: &mut Vec<u8>,
    counts: &mut C,
    institution: &Institution,
) -> Result<(), AnswerError>
    ensures lines { C.is_honest counts.new → OnOk result (text.new.items ≡ text.old.items
        ++ counted_lines (C.rows counts.old) institution.now) }
    ensures leads { OnOk result (C.leads counts.old counts.new) }
    ensures fails { IfErr result (C.fails counts.old counts.new) }
{
    put_institution(alloc, text, institution)?;
    let counted = counted(alloc, counts, institution.name.as_slice())?;
    Ok(put_counted_line(alloc, text, &counted)?)
}

/// The lines of institutions, each with that of its rows.
fn counted_list_of<C: Counting>(
    alloc: Global,
    counts: &mut C,
    institutions: &[Institution],
) -> Result<Vec<u8>, AnswerError>
    ensures lines { C.is_honest counts.new → IfOk result (λ text. text.items
        ≡ counted_check_text (C.rows counts.old) institutions.now) }
    ensures leads { OnOk result (C.leads counts.old counts.new) }
    ensures fails { IfErr result (C.fails counts.old counts.new) }
{
    let mut text = Vec::new(alloc);
    for institution in institutions {
        put_counted(alloc, &mut text, counts, institution)?;
    }
    Ok(text)
}

/// The lines of institutions, each with that of its rows in tables, which are only read.
fn list_over<T: Tables + Drop>(
    alloc: Global,
    tables: T,
    institutions: &[Institution],
) -> Result<Vec<u8>, Fault>
    ensures lines { IfOk result (λ text. AsFarAsHonest T.state ((T.state tables).honest
        × (text.items ≡ counted_check_text (T.state tables).rows institutions.now))) }
    ensures fault { IfErr result (λ fault. fault ≢ Fault.Stopped) }
{
    let mut kept = Kept { tables };
    let text = counted_list_of(alloc, &mut kept, institutions)?;
    Ok(text)
}

/// Returns the list that a check prints: institutions, with their rows in the store at a path, if
/// one is named.
fn listed<Rt: AllocGlobal + Stores>(
    rt: &Rt,
    store: Option<&str>,
    institutions: &[Institution],
) -> Result<Vec<u8>, Stop>
    ensures lines { IfOk result (λ text.
        IsListed Rt.File.state (Rt.stored rt.now) (option_copied store.entry) institutions.now text.items) }
    ensures ends { IfErr result (EndsList (option_copied store.entry)) }
{
    match store {
        None => Ok(list_of(rt.alloc(), institutions)?),
        Some(path) => {
            let tables = rt.store(rt.alloc(), path)?;
            Ok(list_over(rt.alloc(), tables, institutions)?)
        }
    }
}

/// Checks a configuration: it is refused where `serve` refuses it, and else its institutions are
/// listed. No capture is read. A store that is named is only read.
pub fn check<Rt: AllocGlobal + Folder + Stores, W: Sink>(
    rt: &Rt,
    inspection: Inspection<'_>,
    output: &mut W,
) -> Result<(), Stop>
    ensures done { OnOk result (IsChecked Rt.File.state (Rt.held rt.now) (Rt.stored rt.now)
        (W.written output.old) (W.written output.new) (checking_in inspection.entry)) }
    ensures flushed { OnOk result (W.is_flushed output.new) }
    ensures stops { IfErr result (StopsCheck Rt.File.state (Rt.held rt.now) (Rt.stored rt.now)
        (W.written output.old) (W.written output.new) (Rt.may_fail rt.now)
        (W.may_fail output.old) (checking_in inspection.entry)) }
{
    let config = fit_config(rt, inspection.config)?;
    let text = listed(rt, inspection.store, config.institutions())?;
    put_whole(text.as_slice(), output)
}
