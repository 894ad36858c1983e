//! Laws of the definitions, which the contracts of functions with no body name.
ghost use Rattle.std.specs.Prelude.{◌≡◌, ◌↔◌, ◌⊎◌, ◌+◌, ◌<◌, ◌≤◌, ◌≤ℤ◌, ◌<ℤ◌, true, false, ◌&&◌, ℕ, ℤ, min, List, [], ◌∷◌, ◌++◌, Some, None, map, filter, length, drop};
ghost use Rattle.dq_vr.specs.declared.Vr.{Vr};
ghost use Rattle.dq_dataset.specs.Tree.{ElementList, ItemList, item};
ghost use Rattle.dq_dataset.specs.View.{elements_of};
ghost use Rattle.dq_dataset.specs.declared.data_set.Element.{Element};
ghost use Rattle.dq_dataset.specs.declared.data_set.Value.TheVariants.{Items};
ghost use Rattle.dq_match.specs.declared.keys.Nesting.{Nesting};
ghost use Rattle.dq_match.specs.declared.keys.Nesting.TheVariants.{Outer};
ghost use Rattle.dq_match.specs.declared.supported.KeyScope.{KeyScope};
ghost use Rattle.dq_match.specs.declared.wildcards.Casing.{Casing};
ghost use Rattle.dq_match.specs.Wildcards.{FitsPattern, wild};
ghost use Rattle.std.specs.Char.{to_ascii_lowercase};
ghost use Rattle.dq_value.specs.Day.{day};
ghost use Rattle.dq_value.specs.Time.{Span, span};
ghost use Rattle.dq_value.specs.Range.{IsRange, range_ends, end_of};
ghost use Rattle.dq_match.specs.declared.values.Matching.TheVariants.{Name, WildCard, Equality};
ghost use Rattle.dq_match.specs.Ranges.{Bounds, has_day, has_time, date_meets, time_meets, is_from, is_until};
ghost use Rattle.dq_match.specs.Values.{is_name_pad, compared_name, value_meets, is_universal, octets_meet};
ghost use Rattle.dq_match.specs.Keys.{is_key};
ghost use Rattle.dq_match.specs.Matching.{fits, items_meet, all_met};
ghost use Rattle.dq_match.specs.StandardMatching.{EachIsMet, PeriodIsMet, SomeItemFits};
ghost use Rattle.dq_match.specs.Universal.{all_universal, asks_nothing};
ghost use Rattle.dq_match.specs.Supported.{is_supported, supported_part, supported_value, supported_element, has_unsupported};
ghost use Rattle.dq_match.specs.Responses.{no_value, character_set, cut_keys, before, shown_element, shown_elements, shown_data_set};
ghost use Rattle.dq_match.specs.ShownTags.{tags_of, set_tags};
ghost use Rattle.dq_match.specs.declared.shown_page.ShownPage.{ShownPage};
ghost use Rattle.dq_match.specs.ShownPages.{page_most, page_octets, octets_of_answers, shown_page, is_filled};

use dq_value::range_law;

/// A pattern fits a text by the cases of PS3.4 section C.2.2.2.4 just where it is computed to.
#[tactic(auto, using(crate::proofs::WildFits::wild_is_fits))]
pub fn wild_cards_fit()
    ensures { (casing : Casing) (pattern text : List ℕ)
        → (wild casing pattern text ≡ true) ↔ FitsPattern casing pattern text }
{}

/// A record, or an item of one, fits keys where each key that stands alone is met by the element
/// with its tag, and the period, if there is one, is met too (PS3.4 section C.2.2.2 and table
/// K.6-1). A sequence key is met where one item fits the keys of its item, and where there are no
/// items (PS3.4 section C.2.2.2.6).
#[tactic(auto, using(crate::proofs::Fitting::fits_each))]
pub fn keys_are_met_alone_and_as_a_period()
    ensures each { (place : Nesting) (keys held : ElementList)
        → (all_met place keys held ≡ true) ↔ (EachIsMet place keys held × PeriodIsMet keys held) }
    ensures items { (keys : ElementList) (others : ItemList) (items : List ElementList)
        → (items_meet (item keys others) items ≡ true) ↔ SomeItemFits keys items }
{}

/// A value is met by itself, whatever its kind (PS3.4 section C.2.2.2.1). Of dates
/// `ranges_take_what_is_between` says so.
#[tactic(auto, using(crate::proofs::Itself::met_by_itself))]
pub fn a_value_meets_itself()
    ensures text { (value : List ℕ) → value_meets WildCard value value ≡ true }
    ensures name { (value : List ℕ) → value_meets Name value value ≡ true }
    ensures equal { (value : List ℕ) → value_meets Equality value value ≡ true }
    ensures time { (value : List ℕ) (first last : ℕ) → range_ends value ≡ None
        → span value ≡ Some (first, last) → first ≤ last → time_meets value value ≡ true }
{}

/// A universal key is met by every record, keys that are all universal are met together, and every
/// record fits an identifier that asks nothing (PS3.4 section C.2.2.2.3).
#[tactic(auto, using(crate::proofs::Universal::universal_keys))]
pub fn universal_keys_are_met()
    ensures one { (vr : Vr) (key held : List ℕ)
        → is_universal vr key ≡ true → octets_meet vr key held ≡ true }
    ensures all { (place : Nesting) (keys held : ElementList)
        → all_universal keys ≡ true → all_met place keys held ≡ true }
    ensures nothing { (identifier held : ElementList)
        → asks_nothing identifier ≡ true → fits identifier held ≡ true }
{}

/// A range of dates takes the days from its first to its last, a date that is its own key is met,
/// and a range is the meeting of its two halves (PS3.4 sections C.2.2.2.1 and C.2.2.2.5).
#[tactic(auto, using(crate::proofs::Moments::ranges))]
pub fn ranges_take_what_is_between()
    ensures between { (first last date : ℤ)
        → (has_day (Some first, Some last) date ≡ true) ↔ ((first ≤ℤ date) × (date ≤ℤ last)) }
    ensures spelled { (key from to value : List ℕ) (first last date : ℤ)
        → range_ends key ≡ Some (end_of from, end_of to)
        → day from ≡ Some first → day to ≡ Some last → day value ≡ Some date
        → date_meets key value ≡ has_day (Some first, Some last) date }
    ensures single { (value : List ℕ) (date : ℤ)
        → range_ends value ≡ None → day value ≡ Some date → date_meets value value ≡ true }
    ensures days { (range : Bounds ℤ) (date : ℤ)
        → has_day range date ≡ (has_day (range.0, None) date && has_day (None, range.1) date) }
    ensures times { (range : Bounds Span) (time : Span)
        → has_time range time ≡ (has_time (range.0, None) time && has_time (None, range.1) time) }
{}

/// A time is met by the times that begin in it, and a range of times by those that begin between its
/// ends, both of them included: not before the first microsecond of the one, nor after the last
/// microsecond of the other. An end that is left open sets no bound (PS3.4 sections C.2.2.2.1 and
/// C.2.2.2.5).
pub fn a_range_of_times_is_met_between_its_ends()
    ensures closed { (key from to value : List ℕ) (first last time : Span) → IsRange key from to
        → span from ≡ Some first → span to ≡ Some last → span value ≡ Some time
        → (time_meets key value ≡ true) ↔ ((first.0 ≤ time.0) × (time.0 ≤ last.1)) }
    ensures from { (key from value : List ℕ) (first time : Span) → IsRange key from []
        → span from ≡ Some first → span value ≡ Some time
        → (time_meets key value ≡ true) ↔ (first.0 ≤ time.0) }
    ensures until { (key to value : List ℕ) (last time : Span) → IsRange key [] to
        → span to ≡ Some last → span value ≡ Some time
        → (time_meets key value ≡ true) ↔ (time.0 ≤ last.1) }
    ensures single { (key value : List ℕ) (asked time : Span) → range_ends key ≡ None
        → span key ≡ Some asked → span value ≡ Some time
        → (time_meets key value ≡ true) ↔ ((asked.0 ≤ time.0) × (time.0 ≤ asked.1)) }
    ensures unread { (key value : List ℕ) → span value ≡ None → time_meets key value ≡ false }
{
    range_law();
}

/// A date is met by its day, and a range of dates by the days between its ends, both of them
/// included. An end that is left open sets no bound (PS3.4 sections C.2.2.2.1 and C.2.2.2.5).
pub fn a_range_of_dates_is_met_between_its_ends()
    ensures closed { (key from to value : List ℕ) (first last date : ℤ) → IsRange key from to
        → day from ≡ Some first → day to ≡ Some last → day value ≡ Some date
        → (date_meets key value ≡ true) ↔ ((first ≤ℤ date) × (date ≤ℤ last)) }
    ensures from { (key from value : List ℕ) (first date : ℤ) → IsRange key from []
        → day from ≡ Some first → day value ≡ Some date
        → (date_meets key value ≡ true) ↔ (first ≤ℤ date) }
    ensures until { (key to value : List ℕ) (last date : ℤ) → IsRange key [] to
        → day to ≡ Some last → day value ≡ Some date
        → (date_meets key value ≡ true) ↔ (date ≤ℤ last) }
    ensures single { (key value : List ℕ) (asked date : ℤ) → range_ends key ≡ None
        → day key ≡ Some asked → day value ≡ Some date
        → (date_meets key value ≡ true) ↔ ((asked ≤ℤ date) × (date ≤ℤ asked)) }
    ensures unread { (key value : List ℕ) → day value ≡ None → date_meets key value ≡ false }
{
    range_law();
}

/// A period is an order of moments, by day and then by microsecond (PS3.4 table K.6-1).
#[tactic(auto, using(crate::proofs::Moments::periods))]
pub fn periods_are_an_order()
    ensures from { (first : ℤ) (time : Span) (date : ℤ) (microsecond : ℕ)
        → (is_from (Some first) (Some time) date microsecond ≡ true)
        ↔ ((first <ℤ date) ⊎ ((first ≡ date) × (time.0 ≤ microsecond))) }
    ensures until { (last : ℤ) (time : Span) (date : ℤ) (microsecond : ℕ)
        → (is_until (Some last) (Some time) date microsecond ≡ true)
        ↔ ((date <ℤ last) ⊎ ((date ≡ last) × (microsecond ≤ time.1))) }
{}

/// A name is met whatever its case, and whatever spaces and delimiters are at its end.
#[tactic(auto, using(crate::proofs::Names::name_case, crate::proofs::Names::name_pad))]
pub fn names_are_met_in_any_case()
    ensures letters { (key value other : List ℕ)
        → map to_ascii_lowercase (compared_name value) ≡ map to_ascii_lowercase (compared_name other)
        → value_meets Name key value ≡ value_meets Name key other }
    ensures pads { (key value : List ℕ) (pad : ℕ) → is_name_pad pad ≡ true
        → value_meets Name key (value ++ pad ∷ []) ≡ value_meets Name key value }
{}

/// The rest of an identifier has nothing that is not supported, and nothing is struck just where
/// it is left as it was.
#[tactic(auto, using(crate::proofs::Struck::nothing_left, crate::proofs::Struck::nothing_struck))]
pub fn striking_again_strikes_nothing()
    ensures again { (scope : KeyScope) (identifier : ElementList)
        → has_unsupported scope (supported_part scope identifier) ≡ false }
    ensures nothing { (scope : KeyScope) (identifier : ElementList)
        → (has_unsupported scope identifier ≡ false)
        ↔ (supported_part scope identifier ≡ identifier) }
{}

/// The part of an identifier that stays is each element whose tag is in the list of its place, in
/// order, and of a sequence the items. In each item stays what is in the list of the items.
#[tactic(auto, using(crate::proofs::Struck::what_stays, crate::proofs::Struck::inside_stays))]
pub fn what_is_supported_stays()
    ensures elements { (scope : KeyScope) (identifier : ElementList)
        → elements_of (supported_part scope identifier)
        ≡ map (supported_element scope)
        (filter (λ e. is_supported scope e.tag) (elements_of identifier)) }
    ensures items { (scope : KeyScope) (items : List ElementList)
        → supported_value scope (Items items) ≡ Items (map (supported_part scope) items) }
{}

/// Each key is shown with the record's element, in the order of the keys. A key without keys in an
/// item of its own shows that element whole, and one that the record has not is shown without a
/// value (PS3.4 section C.4.1.1.3.2).
#[tactic(auto, using(crate::proofs::Showing::keys_show, crate::proofs::Showing::plain_whole))]
pub fn each_key_shows_the_element_of_the_record()
    ensures each { (identifier held : ElementList)
        → elements_of (shown_data_set identifier held)
        ≡ before (character_set held) (shown_elements (elements_of identifier) held) }
    ensures whole { (key found : Element)
        → cut_keys key.value ≡ None → shown_element key (Some found) ≡ found }
    ensures absent { (key : Element) → shown_element key None
        ≡ record { tag = key.tag; vr = key.vr; value = no_value key.value } }
{}

/// The shown data set of a record has the tags of the keys, after that of the character set where
/// the record has one (PS3.4 section C.4.1.1.3.2).
#[tactic(auto, using(crate::proofs::ShownTags::tags_shown))]
pub fn what_is_asked_is_shown()
    ensures { (identifier held : ElementList)
        → tags_of (shown_data_set identifier held)
        ≡ set_tags (character_set held) (filter (is_key Outer) (tags_of identifier)) }
{}

/// A page shows answers from its offset on, in their order, and a page at the offset behind them goes on
/// with the next one. They are no more than its limit and 1,000, and those before the last have less than
/// 8 MiB. There is one where there may be one. A page that they do not fill shows all that there are.
pub fn a_page_ends_where_it_is_filled()
    ensures goes_on { (page : ShownPage) (all : List ElementList)
        → shown_page page all ++ drop (page.offset + length (shown_page page all)) all
        ≡ drop page.offset all }
    ensures few { (page : ShownPage) (all : List ElementList)
        → length (shown_page page all) ≤ min page.limit page_most }
    ensures short { (page : ShownPage) (all before : List ElementList) (last : ElementList)
        → shown_page page all ≡ before ++ last ∷ [] → octets_of_answers before < page_octets }
    ensures one { (page : ShownPage) (all : List ElementList)
        → 0 < page.limit → page.offset < length all → 0 < length (shown_page page all) }
    ensures all { (page : ShownPage) (all : List ElementList)
        → is_filled page (shown_page page all) ≡ false → shown_page page all ≡ drop page.offset all }
{}
