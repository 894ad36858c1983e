//! Laws of the definitions, which the contracts of functions with no body name.
ghost use Rattle.std.specs.Prelude.{◌≡◌, ◌++◌, ℕ, List, [], ◌∷◌, false, All, Contains};
ghost use Rattle.std.specs.Str.{IsAscii};
ghost use Rattle.dq_vr.specs.declared.Tag.{Tag};
ghost use Rattle.dq_vr.specs.Dictionary.{Entry, dictionary};
ghost use Rattle.dq_dataset.specs.View.{elements_of};
ghost use Rattle.dq_request.specs.declared.search.Key.{Key};
ghost use Rattle.dq_request.specs.declared.search.Subject.{Subject};
ghost use Rattle.dq_request.specs.Searches.{IsMatched, is_of_tag, matched_element, value_in, in_spellings, identifier_of};

/// The identifier of each search has each attribute that keys match, with the value of its key.
pub fn each_attribute_is_asked_for()
    ensures { (subject : Subject) (keys : List Key) (entry : Entry) → Contains dictionary entry → IsMatched entry
        → Contains (elements_of (identifier_of subject keys)) (matched_element keys entry) }
{}

/// The first key of an attribute gives its value, and an attribute without a key has the empty one.
pub fn first_key_counts()
    ensures first { (before after : List Key) (key : Key)
        → All (λ other. is_of_tag key.tag other ≡ false) before
        → value_in (before ++ key ∷ after) key.tag ≡ key.value }
    ensures none { (keys : List Key) (tag : Tag) → All (λ key. is_of_tag tag key ≡ false) keys
        → value_in keys tag ≡ [] }
{}

/// ASCII is asked for as it was given: it is the same in each character set.
pub fn ascii_is_asked_for_as_given()
    ensures { (octets : List ℕ) → IsAscii octets → in_spellings octets ≡ octets }
{}
