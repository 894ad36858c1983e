//! Laws of queries. Each function's contract is a law; its body changes nothing.
ghost use Rattle.std.specs.Prelude.{◌≡◌, ◌≢◌, ◌≤◌, ◌+◌, ◌*◌, ◌++◌, ℕ, List, [], ◌∷◌, length, slice_get, take, drop, Option, Some, None, Ok, codes};
ghost use Rattle.std.specs.List.{AllByRecursion, flat_map};
ghost use Rattle.dq_dataset.specs.declared.header.Syntax.{Syntax};
ghost use Rattle.dq_dataset.specs.declared.header.Syntax.TheVariants.{Explicit};
ghost use Rattle.dq_dataset.specs.Tree.{ElementList};
ghost use Rattle.dq_dimse.specs.Statuses.{success};
ghost use Rattle.dq_dimse.specs.Received.{Message};
ghost use Rattle.dq_dimse.specs.Receiving.{identifier_in};
ghost use Rattle.dq_match.specs.declared.responses.Found.{Found};
ghost use Rattle.dq_tables.specs.declared.row.Row.{Row};
ghost use Rattle.dq_tables.specs.Rows.{Record, Edit, IsRising, of, by, after};
ghost use Rattle.dq_tables.specs.Records.{data_set_of};
ghost use Rattle.dq_tables.specs.Sound.{IsSound};
ghost use Rattle.dq_find.specs.declared.query.Query.{Query};
ghost use Rattle.dq_find.specs.Levels.{level_of};
ghost use Rattle.dq_find.specs.Queries.{level_query, message_query, record_answer, answers_of_records, query_outcome, keys_outcome_after};
ghost use Rattle.dq_find.specs.ComputedKeys.{modalities_in};
ghost use Rattle.dq_find.specs.Answers.{answering_behind, MatchesQuery, HasKeyAbove, AreQueryAnswers, TellsLevel};
ghost use Rattle.dq_find.specs.Modalities.{AreModalities};
ghost use Rattle.dq_archive.specs.Additions.{lasting_records};
ghost use Rattle.dq_find.specs.declared.open_search.OpenSearch.{OpenSearch};
ghost use Rattle.dq_find.specs.OpenSearches.{left_of};
ghost use Rattle.dq_find.specs.Pages.{HasGiven, GivesInTurn, IsPage, ArePages};
ghost use Rattle.dq_find.specs.Examples.{query_request, identifier, kept_studies, jane_doe_answer, found_studies};

use dq_match::laws::keys_are_met_alone_and_as_a_period;

/// A query is answered with what is told of the records that match it, each once, in the order of
/// their keys, and no other list of answers is that (PS3.4 section C.4.1.2.1).
pub fn answers_are_the_matching_records_in_order()
    ensures answered { (institution : List ℕ) (rows : List Row) (called : List ℕ)
        (message : Message) (syntax : Syntax) (query : Query) → IsSound rows
        → message_query message syntax ≡ Ok query → AreQueryAnswers (of institution rows) called query
        (query_outcome (of institution rows) called message syntax).answers }
    ensures succeeded { (institution : List ℕ) (rows : List Row) (called : List ℕ)
        (message : Message) (syntax : Syntax) → IsSound rows
        → (query_outcome (of institution rows) called message syntax).status ≡ success
        → (query : Query) × (message_query message syntax ≡ Ok query)
        × AreQueryAnswers (of institution rows) called query
        (query_outcome (of institution rows) called message syntax).answers }
    ensures alone { (records : List Record) (called : List ℕ) (query : Query)
        (one other : List ElementList) → AreQueryAnswers records called query one
        → AreQueryAnswers records called query other → one ≡ other }
{
    keys_are_met_alone_and_as_a_period();
}

/// A record that matches a query has the unique key above that the query gives: a series that fits is
/// one of the study that is named, and an image one of the series (PS3.4 section C.4.1.2.1).
pub fn what_matches_has_the_key_above()
    ensures { (institution : List ℕ) (rows : List Row) (message : Message) (syntax : Syntax)
        (query : Query) → IsSound rows → message_query message syntax ≡ Ok query → (r : Record)
        → MatchesQuery (of institution rows) query r
        → HasKeyAbove query.level query.keys (data_set_of r.octets) }
{
    keys_are_met_alone_and_as_a_period();
}

/// Keys that no message brought are answered as the identifier of a message is.
#[tactic(auto, using(crate::proofs::QueryLaws::same_by_keys))]
pub fn keys_are_answered_as_in_a_message()
    ensures { (records : List Record) (called : List ℕ) (message : Message) (syntax : Syntax)
        (identifier : ElementList) → identifier_in message syntax ≡ Ok identifier
        → query_outcome records called message syntax
        ≡ keys_outcome_after None records called identifier }
{}

/// Whoever asks for what comes behind the key of the record that gave the last answer of a page is given
/// the answers after that page: none is left out, and none comes twice.
pub fn a_page_behind_a_key_goes_on()
    ensures last { (institution : List ℕ) (rows : List Row) (after : Option (List ℕ)) (called : List ℕ)
        (identifier : ElementList) (query : Query) (number : ℕ) (last : Record) → IsRising rows
        → level_query identifier (level_of identifier) ≡ Ok query
        → slice_get (answering_behind after (of institution rows) called query) number ≡ Some last
        → slice_get (keys_outcome_after after (of institution rows) called identifier).answers number
        ≡ record_answer (of institution rows) called query last }
    ensures behind { (institution : List ℕ) (rows : List Row) (after : Option (List ℕ)) (called : List ℕ)
        (identifier : ElementList) (query : Query) (number : ℕ) (last : Record) → IsRising rows
        → level_query identifier (level_of identifier) ≡ Ok query
        → slice_get (answering_behind after (of institution rows) called query) number ≡ Some last
        → (keys_outcome_after (Some last.key) (of institution rows) called identifier).answers
        ≡ drop (number + 1) (keys_outcome_after after (of institution rows) called identifier).answers }
{}

/// A query that is refused has no answers (PS3.4 section C.4.1.1.4).
#[tactic(auto, using(crate::proofs::QueryLaws::none_refused))]
pub fn what_is_refused_has_no_answers()
    ensures { (records : List Record) (called : List ℕ) (message : Message) (syntax : Syntax)
        → (query_outcome records called message syntax).status ≢ success
        → (query_outcome records called message syntax).answers ≡ [] }
{}

/// Other institutions' records do not affect any answer.
#[tactic(auto, using(crate::proofs::QueryLaws::same_found))]
pub fn other_institutions_change_no_answer()
    ensures { (own other : List ℕ) → other ≢ own → (edits : List Edit) (rows : List Row)
        → IsRising rows → (called : List ℕ) (message : Message) (syntax : Syntax)
        → query_outcome (of own (after (by other edits) rows)) called message syntax
        ≡ query_outcome (of own rows) called message syntax }
{}

/// Each answer tells its level, the title that was called, and that nothing can be retrieved (PS3.4
/// section C.4.1.1.3.2).
#[tactic(auto, using(crate::proofs::QueryLaws::each_tells))]
pub fn each_answer_tells_who_answers()
    ensures { (records : List Record) (called : List ℕ) (query : Query)
        → AllByRecursion (TellsLevel called query.level) (answers_of_records records called query) }
{}

/// Modalities in Study are the modalities of the study's series, each once, in the order of their
/// octets: all of them, or the first 1,000 (PS3.4 section C.3.4). No other list is that.
pub fn modalities_are_those_of_the_series()
    ensures told { (series : List Record) → AreModalities series (modalities_in series) }
    ensures alone { (series : List Record) (told : List (List ℕ))
        → AreModalities series told → told ≡ modalities_in series }
{}

/// The answers that `Pages` gives, one after the other or in pages, are those that stood first,
/// each once, in their order, with the others left; they are all where none is left. A page of at
/// most so many takes the first so many, and none is left after as many pages as that takes.
pub fn answers_are_given_once_in_order()
    ensures in_turn { (before left : Found) (given : List ElementList)
        → GivesInTurn before given left → HasGiven before given left }
    ensures in_pages { (most : ℕ) (before left : Found) (pages : List (List ElementList))
        → ArePages most before pages left → HasGiven before (flat_map (λ page. page) pages) left }
    ensures all { (before left : Found) (given : List ElementList) → HasGiven before given left
        → left.answers ≡ [] → given ≡ before.answers }
    ensures page { (most : ℕ) (before left : Found) (page : List ElementList)
        → IsPage most before page left
        → (page ≡ take most before.answers) × (left.answers ≡ drop most before.answers) }
    ensures ended { (most : ℕ) (before left : Found) (pages : List (List ElementList))
        → ArePages most before pages left → length before.answers ≤ most * length pages
        → left.answers ≡ [] }
{}

/// The answers left of an open search follow from the studies, the series and the images alone.
#[tactic(auto, using(crate::proofs::LastingRecords::left_by))]
pub fn open_searches_follow_what_lasts()
    ensures { (search : OpenSearch) (one other : List Record) → lasting_records one ≡ lasting_records other
        → left_of search one ≡ left_of search other }
{}

/// On a worked example: of no records nothing is found, with status 0000, and of the studies of two
/// patients that of the patient whose name was asked for.
pub fn one_study_of_two_is_found()
    ensures nothing { query_outcome [] (codes "ARCHIVE") (query_request identifier) Explicit ≡ found_studies [] }
    ensures one { query_outcome kept_studies (codes "ARCHIVE") (query_request identifier) Explicit
        ≡ found_studies (jane_doe_answer ∷ []) }
{}
