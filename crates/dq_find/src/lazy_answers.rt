//! The answers to a query, found as they are asked for.
ghost use Rattle.std.specs.Prelude.{◌≡◌, ◌<◌, ◌++◌, ◌∷◌, [], true, length, IfOk, OnOk, MatchOption};
ghost use Rattle.std.specs.Result.{result_ok};
ghost use Rattle.dq_dimse.specs.Statuses.{success};
ghost use Rattle.dq_dimse.specs.Holding.{plain_message};
ghost use Rattle.dq_dimse.specs.Receiving.{identifier_in};
ghost use Rattle.dq_match.specs.Identifiers.{HasKnownTags};
ghost use Rattle.dq_tables.specs.TableStates.{Reads};
ghost use Rattle.dq_tables.specs.Rows.{of};
ghost use Rattle.dq_tables.specs.ServiceEffects.{Serves};
ghost use Rattle.dq_archive.specs.PastArchives.{QueriesOnly};
ghost use Rattle.dq_find.specs.Queries.{found_by, query_outcome};
ghost use Rattle.dq_find.specs.LazyAnswers.{BeginsAt, LooksFurther, Finds, HasFound, found_then};

use crate::open_search::{MOST_AT_ONCE, OpenSearch};
use crate::query::{Query, query_of};
use dq_archive::Past;
use dq_config::Institution;
use dq_dataset::{DataSet, Syntax};
use dq_dimse::Message;
use dq_dimse::status::SUCCESS;
use dq_list::Listed;
use dq_match::Found;
use dq_tables::{TableFault, Tables};
use std::alloc::{AllocError, Global};
use std::collections::VecDeque;
use std::marker::Model;

/// The answers to a query: those that were found and not given yet, and the search for the others.
#[derive(Drop)]
pub struct LazyAnswers {
    found: VecDeque<DataSet>,
    search: OpenSearch,
}

impl Model for LazyAnswers {
    ghost use Rattle.std.specs.Prelude.{ℕ};
    ghost use Rattle.std.specs.Coded.{codes};
    ghost use Rattle.dq_dataset.specs.contracts.data_set.DataSet as data_set;
    ghost use Rattle.dq_match.specs.Identifiers.{HasKnownTags};
    ghost use Rattle.dq_find.specs.PartialAnswers.{PartialAnswers};
    ghost use Rattle.dq_find.specs.contracts.open_search.OpenSearch as open_search;

    ghost Value = { PartialAnswers };

    ghost coded = { Prim.hlevel (codes, data_set.the_row.coded, open_search.the_row.coded) };

    ghost view = { λ lazy. record { found = lazy.found.items; search = lazy.search } };

    ghost invariant = { λ lazy. HasKnownTags lazy.search.query.keys };
}

/// Begins to answer a Study Root C-FIND from the records of an institution. The answers are those of
/// `find` at this moment, and are found as they are asked for; the statuses that refuse it are the
/// same. Gives back the identifier too, if it can be read.
pub fn begin_find<T: Tables>(
    tables: &mut T,
    institution: &Institution,
    called: &[u8],
    message: &Message,
    syntax: Syntax,
) -> Result<(Result<LazyAnswers, u16>, Option<DataSet>), TableFault>
    ensures found { (T.state tables.new).honest → IfOk result (λ begun.
        found_then begun.0 (of institution.now.name (T.state tables.old).rows)
        ≡ query_outcome (of institution.now.name (T.state tables.old).rows) called.now
        (plain_message message.now) syntax) }
    ensures identifier { IfOk result (λ begun.
        begun.1 ≡ result_ok (identifier_in (plain_message message.now) syntax)) }
    ensures reads { Reads (T.state tables.old) (T.state tables.new) result }
{
    let mut archive = Past::new(tables, institution, &[]);
    let identifier = message.identifier(archive.alloc, syntax)?;
    let asked = query_of(archive.alloc, &identifier)?;
    let found = begin_at(&mut archive, called, asked)?;
    Ok((found, identifier.ok()))
}

/// Answers a Study Root C-FIND from the records of an institution: of the query's level those that
/// fit, in order of the octets of their unique key, each with what the keys ask for. It is refused
/// with status A700 where the identifier is too long, C000 where it is unreadable, and A900 where
/// it names no level, lacks a unique key of a level above, or has values that are not well formed
/// (PS3.4 section C.4.1.1.4).
#[tactic(auto, using(dq_tables::proofs::TableCalls::serves_read), unfolding(crate::specs::Queries::query_outcome))]
pub fn find<T: Tables>(
    tables: &mut T,
    institution: &Institution,
    called: &[u8],
    message: &Message,
    syntax: Syntax,
) -> Result<Found, TableFault>
    ensures { Serves (T.state tables.old) (T.state tables.new) institution.now.name
        (λ records. (query_outcome records called.now (plain_message message.now) syntax, [])) result }
{
    let mut past = Past::new(tables, institution, &[]);
    let identifier = message.identifier(past.alloc, syntax)?;
    let asked = query_of(past.alloc, &identifier)?;
    let found = all_answers(&mut past, called, asked)?;
    Ok(found)
}

/// All answers to a query, or the status that refuses it.
fn all_answers<T: Tables>(
    archive: &mut Past<'_, T>,
    called: &[u8],
    asked: Result<Query, u16>,
) -> Result<Found, TableFault>
    requires { IfOk asked (λ query. HasKnownTags query.keys) }
    ensures { QueriesOnly T.state archive.old archive.new
        (λ records. found_by records called.now asked) result }
{
    let begun = begin_at(archive, called, asked)?;
    let mut lazy = match begun {
        Ok(lazy) => lazy,
        Err(status) => return Ok(Found::refused(archive.alloc, status)),
    };
    lazy.find(archive, None)?;
    Ok(lazy.into_found())
}

/// Begins to answer a query, unless it is refused.
fn begin_at<T: Tables>(
    archive: &mut Past<'_, T>,
    called: &[u8],
    asked: Result<Query, u16>,
) -> Result<Result<LazyAnswers, u16>, TableFault>
    requires { IfOk asked (λ query. HasKnownTags query.keys) }
    ensures { BeginsAt T.state archive.old archive.new called.now asked result }
{
    let query = match asked {
        Ok(query) => query,
        Err(status) => return Ok(Err(status)),
    };
    let alloc = archive.alloc;
    let search = OpenSearch::begin(archive, called, query, None)?;
    Ok(Ok(LazyAnswers::new(alloc, search)))
}

/// Puts answers behind those that were found.
fn append(found: &mut VecDeque<DataSet>, page: Listed<DataSet>) -> Result<(), AllocError>
    ensures { OnOk result (found.new.items ≡ found.old.items ++ page) }
{
    for answer in page.into_inner() {
        found.push_back(answer)?;
    }
    Ok(())
}

impl LazyAnswers {
    /// The answers of a search, of which none was found yet.
    pub(crate) fn new(alloc: Global, search: OpenSearch) -> LazyAnswers
        requires { HasKnownTags search.query.keys }
        ensures { result ≡ record { found = []; search = search } }
    {
        LazyAnswers {
            found: VecDeque::new(alloc),
            search,
        }
    }

    /// Looks at the next records, at most so many, for answers. The answers stay as they are.
    fn look_further<T: Tables>(
        &mut self,
        archive: &mut Past<'_, T>,
        most: usize,
    ) -> Result<(), TableFault>
        requires { 0 < most }
        ensures { LooksFurther T.state archive.old archive.new most self.old self.new result }
    {
        let page = self.search.next_page(archive, most)?;
        append(&mut self.found, page)?;
        Ok(())
    }

    /// Looks for answers until so many were found that are not given, or all; all where there is no
    /// number.
    pub fn find<T: Tables>(
        &mut self,
        archive: &mut Past<'_, T>,
        number: Option<usize>,
    ) -> Result<(), TableFault>
        ensures { Finds T.state archive.old archive.new number self.old self.new result }
    {
        let mut most = number.unwrap_or(MOST_AT_ONCE).min(MOST_AT_ONCE).max(1);
        for _ in 0..u64::MAX {
            if self.has(number) {
                return Ok(());
            }
            self.look_further(archive, most)?;
            most = most.saturating_mul(2).min(MOST_AT_ONCE);
        }
        Err(TableFault::NoMemory)
    }

    /// Whether so many answers were found, or all that there are.
    fn has(&self, number: Option<usize>) -> bool
        ensures { result ≡ true → HasFound number self.now }
    {
        match number {
            Some(number) => number <= self.found.len() || self.search.is_done(),
            None => self.search.is_done(),
        }
    }

    /// The answers that were found.
    fn into_found(self) -> Found
        ensures { result ≡ record {
          status = success;
          optional = self.search.query.optional;
          answers = self.found;
        } }
    {
        let optional = self.optional();
        Found {
            status: SUCCESS,
            optional,
            answers: Listed::from_inner(self.found.into_vec()),
        }
    }

    /// The first of the answers that were found; after it the others are left.
    pub fn next(&mut self) -> Option<DataSet>
        ensures { MatchOption result ((self.old.found ≡ []) × (self.new ≡ self.old))
            (λ answer. (self.old.found ≡ answer ∷ self.new.found)
            × (self.new.search ≡ self.old.search)) }
    {
        self.found.pop_front()
    }

    /// How many answers were found that are not given yet.
    pub fn found(&self) -> usize
        ensures { result ≡ length self.now.found }
    {
        self.found.len()
    }

    /// Whether the query had keys that are not supported.
    pub fn optional(&self) -> bool
        ensures { result ≡ self.now.search.query.optional }
    {
        self.search.query.optional
    }
}
