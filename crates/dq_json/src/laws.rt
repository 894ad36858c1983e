//! Laws of the definitions, which the contracts of functions with no body name.
ghost use Rattle.std.specs.Prelude.{◌≡◌, ◌≢◌, ◌<◌, ◌⊎◌, ℕ, List, map, Some, None};
ghost use Rattle.std.specs.Str.{IsUtf8};
ghost use Rattle.dq_list.specs.Among.{IsAmong};
ghost use Rattle.dq_dataset.specs.Tree.{ElementList};
ghost use Rattle.dq_dataset.specs.View.{elements_of};
ghost use Rattle.dq_json.specs.declared.code_tables.CodeTable.{CodeTable};
ghost use Rattle.dq_json.specs.declared.json_fault.JsonFault.{JsonFault};
ghost use Rattle.dq_json.specs.declared.json_fault.JsonFault.TheVariants.{NoMemory};
ghost use Rattle.dq_json.specs.declared.text.Repertoire.TheVariants.{OneOctet};
ghost use Rattle.dq_json.specs.Json.{json_tokens};
ghost use Rattle.dq_json.specs.JsonReader.{Spells, HasFault};
ghost use Rattle.dq_json.specs.OutermostKeys.{outermost_keys};
ghost use Rattle.dq_json.specs.Text.{tag_digits, character_in, text_in};
ghost use Rattle.dq_json.specs.Spellings.{octet_in, spellings, HaveCharacters};

/// The JSON of a data set has one member for each element and no other, by its tag, in order.
pub fn each_element_is_a_member()
    ensures { (d : ElementList)
        → outermost_keys (json_tokens d) ≡ map (λ e. tag_digits e.tag) (elements_of d) }
{}

/// The octet of a character in a set stands for it. If a character other than U+FFFD has none, no octet of the set
/// stands for it.
pub fn octets_stand_for_characters()
    ensures some { (table : CodeTable) (character octet : ℕ) → octet_in table character ≡ Some octet
        → (octet < 0x100) × (character_in table octet ≡ character) }
    ensures none { (table : CodeTable) (character octet : ℕ) → octet_in table character ≡ None
        → octet < 0x100 → character ≢ 0xFFFD → character_in table octet ≢ character }
{}

/// The spellings of a text are the octets that are shown as it.
pub fn spellings_are_shown_as_the_text()
    // Each is the text itself, or a set shows it as the text.
    ensures only { (text octets : List ℕ) → IsUtf8 text → IsAmong octets (spellings text)
        → (octets ≡ text) ⊎ ((table : CodeTable) × (text_in (OneOctet table) octets ≡ text)) }
    // The text itself is one.
    ensures itself { (text : List ℕ) → IsAmong text (spellings text) }
    // What a set shows as a text is one, where each octet has a character.
    ensures set { (table : CodeTable) (octets : List ℕ) → HaveCharacters table octets
        → IsAmong octets (spellings (text_in (OneOctet table) octets)) }
{}

/// A text spells at most one data set, and if it does it has no fault.
pub fn a_text_spells_one_data_set()
    ensures one { (text : List ℕ) (a b : ElementList) → Spells text a → Spells text b → a ≡ b }
    ensures no_fault { (text : List ℕ) (d : ElementList) (fault : JsonFault) → Spells text d
        → HasFault text fault → fault ≡ NoMemory }
{}
