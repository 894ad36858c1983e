//! A page of the answers to keys that no message brought.
ghost use Rattle.std.specs.Prelude.{◌≡◌, [], IfOk};
ghost use Rattle.std.specs.Option.{option_copied};
ghost use Rattle.dq_match.specs.Identifiers.{HasKnownTags};
ghost use Rattle.dq_match.specs.ShownPages.{found_page};
ghost use Rattle.dq_tables.specs.TableStates.{Reads};
ghost use Rattle.dq_tables.specs.Rows.{of};
ghost use Rattle.dq_archive.specs.PastArchives.{QueriesOnly};
ghost use Rattle.dq_find.specs.Queries.{found_behind, keys_outcome_after};

use crate::open_search::OpenSearch;
use crate::query::{Query, query_at};
use dq_archive::Past;
use dq_config::Institution;
use dq_dataset::DataSet;
use dq_dimse::status::SUCCESS;
use dq_match::{Found, PageCollector, ShownPage};
use dq_tables::{TableFault, Tables};

/// Answers keys that no message brought, an identifier with its Query/Retrieve Level, as `find`
/// answers the identifier of a message. With a key, only the records whose unique keys come behind it
/// in the order of octets are answers. Returns a page of the answers. Nobody called a title, so they
/// tell an empty one. Nothing is changed.
#[tactic(auto, unfolding(crate::specs::Queries::keys_outcome_after))]
pub fn find_by_keys<T: Tables>(
    tables: &mut T,
    institution: &Institution,
    identifier: &DataSet,
    after: Option<&[u8]>,
    page: ShownPage,
) -> Result<Found, TableFault>
    ensures found { (T.state tables.new).honest → IfOk result (λ found. found ≡ found_page page
        (keys_outcome_after (option_copied after.entry)
        (of institution.now.name (T.state tables.old).rows) [] identifier.now)) }
    ensures reads { Reads (T.state tables.old) (T.state tables.new) result }
{
    let mut kept = Past::new(tables, institution, &[]);
    let asked = query_at(kept.alloc, identifier)?;
    answers_behind(&mut kept, asked, after, page)
}

/// A page of the answers that the records behind a key give to a query, or the status that refuses it.
fn answers_behind<T: Tables>(
    archive: &mut Past<'_, T>,
    asked: Result<Query, u16>,
    after: Option<&[u8]>,
    page: ShownPage,
) -> Result<Found, TableFault>
    requires { IfOk asked (λ query. HasKnownTags query.keys) }
    ensures { QueriesOnly T.state archive.old archive.new
        (λ records. found_page page (found_behind (option_copied after.entry) records [] asked)) result }
{
    let query = match asked {
        Ok(query) => query,
        Err(status) => return Ok(Found::refused(archive.alloc, status)),
    };
    let optional = query.optional;
    let mut search = OpenSearch::begin(archive, &[], query, after)?;
    let offset = search.skip(archive, page.offset)?;
    let rest = ShownPage {
        offset,
        limit: page.limit,
    };
    let mut collector = PageCollector::of_page(archive.alloc, rest);
    search.fill(archive, &mut collector, page.limit)?;
    Ok(Found {
        status: SUCCESS,
        optional,
        answers: collector.into_answers(),
    })
}
