//! Laws that hold of each question that is asked, and of the page that answers a search. Each function's
//! contract is a law; its body does nothing.
ghost use Rattle.std.specs.Prelude.{◌≡◌, ◌≢◌, ◌++◌, ◌∷◌, [], ◌<◌, ◌≤◌, ℕ, List, false, length, drop, String, codes, string_bytes, IsTrue, option_copied};
ghost use Rattle.std.specs.Global.{Global};
ghost use Rattle.dq_dataset.specs.Tree.{ElementList};
ghost use Rattle.dq_request.specs.declared.request.Request.TheVariants as ask;
ghost use Rattle.dq_request.specs.declared.search.Search.{Search};
ghost use Rattle.dq_match.specs.declared.shown_page.ShownPage.{ShownPage};
ghost use Rattle.dq_match.specs.ShownPages.{shown_page};
ghost use Rattle.dq_web.specs.Answers.{array_text, longest_array, shown_answers, found_reply, GoesOn};
ghost use Rattle.dq_web.specs.declared.parsed_request.Wish.{Wish};
ghost use Rattle.dq_web.specs.declared.parsed_request.ParsedRequest.TheVariants as asked;
ghost use Rattle.dq_web.specs.declared.parsed_request.Question.{Question};
ghost use Rattle.dq_web.specs.declared.cutting.HttpRequest.{HttpRequest};
ghost use Rattle.dq_web.specs.declared.guard.Guard.{Guard};
ghost use Rattle.dq_web.specs.ParsedRequests.{IsAsked, IsQuestion, IsLook, IsForeign, IsBelow, IsScheduling, IsWithdrawing, IsBackingUp, owner_of_request, right_of_request};
ghost use Rattle.dq_web.specs.Guards.{IsOpened, is_of_viewer};

use dq_match::laws::a_page_ends_where_it_is_filled;

/// Without a key of the institution that it names, or of the operator where it names none, that may do what is
/// asked, nothing is asked.
pub fn a_question_has_its_key()
    ensures { (guard : Guard) (request : HttpRequest) (question : Question)
        → (IsOpened guard.keys (owner_of_request question.asked) (right_of_request question.asked)
        (option_copied request.head.fields.authorization) → ⊥)
        → IsAsked guard request (asked.Question question) → ⊥ }
{}

/// A request that is neither POST nor DELETE asks for what changes nothing.
pub fn a_get_only_looks()
    ensures { (guard : Guard) (request : HttpRequest) (question : Question)
        → IsQuestion guard request question → request.head.method.now ≢ codes "POST"
        → request.head.method.now ≢ codes "DELETE" → IsLook question.asked }
{}

/// Of pages of other sites only those of the viewer's origin ask, and for what changes nothing.
pub fn another_site_only_looks()
    ensures { (guard : Guard) (request : HttpRequest) (question : Question)
        → IsQuestion guard request question → IsForeign request.head
        → IsTrue (is_of_viewer guard.viewer (option_copied request.head.fields.origin))
        × IsLook question.asked }
{}

/// A search is of what the institution of the path keeps.
pub fn a_search_stays_in_its_institution()
    ensures { (guard : Guard) (request : HttpRequest) (question : Question) (search : Search)
        → IsQuestion guard request question → question.asked ≡ ask.Search search
        → IsBelow request search.institution }
{}

/// An order comes from the one method and path that give it, about what they say.
pub fn orders_are_exact()
    ensures schedules { (guard : Guard) (request : HttpRequest) (question : Question)
        (institution octets : List ℕ) → IsQuestion guard request question
        → question.asked ≡ ask.Schedule institution octets
        → IsScheduling request institution octets }
    ensures withdraws { (guard : Guard) (request : HttpRequest) (question : Question)
        (institution id : List ℕ) → IsQuestion guard request question
        → question.asked ≡ ask.Withdraw institution id → IsWithdrawing request institution id }
    ensures backs_up { (guard : Guard) (request : HttpRequest) (question : Question)
        (path : String Global) → IsQuestion guard request question
        → question.asked ≡ ask.Backup path → IsBackingUp request (string_bytes path) }
{}

/// A response shows the longest front of the page's answers whose array has at most 8 MiB, or the first
/// answer where that alone has more. What it shows and what it leaves out are together the answers, in their
/// order.
pub fn a_page_is_the_longest_front_that_has_room()
    ensures in_order { (answers : List ElementList)
        → shown_answers answers ++ drop (length (shown_answers answers)) answers ≡ answers }
    ensures some { (answer : ElementList) (answers : List ElementList)
        → 0 < length (shown_answers (answer ∷ answers)) }
    ensures fits { (answers : List ElementList) → 1 < length (shown_answers answers)
        → length (array_text (shown_answers answers)) ≤ longest_array }
    ensures longest { (answers rest : List ElementList) (next : ElementList)
        → answers ≡ shown_answers answers ++ next ∷ rest
        → longest_array < length (array_text (shown_answers answers ++ next ∷ [])) }
{}

/// A program that reads page after page gets each answer once: a response begins with the answer at its
/// offset, the offset behind what it shows goes on with the next one, and a response that does not say that
/// there may be more has shown all that there are from its offset on. A limit of 0 asks for no answers.
pub fn a_response_without_more_has_shown_all()
    ensures goes_on { (page : ShownPage) (rows : List ElementList) → GoesOn page rows }
    ensures some { (page : ShownPage) (rows : List ElementList)
        → 0 < page.limit → page.offset < length rows
        → 0 < length (shown_answers (shown_page page rows)) }
    ensures all { (wish : Wish) (page : ShownPage) (rows : List ElementList) → 0 < page.limit
        → (found_reply wish page (shown_page page rows)).is_full ≡ false
        → shown_answers (shown_page page rows) ≡ drop page.offset rows }
{
    a_page_ends_where_it_is_filled();
}
