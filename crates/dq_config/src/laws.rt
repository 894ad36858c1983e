//! Laws that hold of institutions that meet the conditions on a configuration. Each function's
//! contract is a law; its body does nothing.

ghost use Rattle.std.specs.Prelude.{◌≡◌, ◌≢◌, ℕ, List, Some, None, IsTrue, Contains, AllPairs, false};
ghost use Rattle.dq_value.specs.Title.{without_spaces};
ghost use Rattle.dq_config.specs.declared.config.Institution.{Institution};
ghost use Rattle.dq_config.specs.Routing.{has_route, institution_routed, institution_named, IsRouted};
ghost use Rattle.dq_config.specs.Conditions.{is_sound_configuration, AreLimits};

/// No two institutions have one name.
pub fn names_are_distinct()
    ensures { (institutions : List Institution) → IsTrue (is_sound_configuration institutions)
        → AllPairs (λ (one other : Institution). one.name ≢ other.name) institutions }
{}

/// A name finds the one institution that has it, and finds none where none has it.
pub fn a_name_is_of_one()
    ensures found { (institutions : List Institution) (institution : Institution)
        → IsTrue (is_sound_configuration institutions) → Contains institutions institution
        → institution_named institutions institution.name ≡ Some institution }
    ensures listed { (institutions : List Institution) (name : List ℕ) (institution : Institution)
        → institution_named institutions name ≡ Some institution → Contains institutions institution }
    ensures so_named { (institutions : List Institution) (name : List ℕ) (institution : Institution)
        → institution_named institutions name ≡ Some institution → institution.name ≡ name }
    ensures missing { (institutions : List Institution) (name : List ℕ) (institution : Institution)
        → institution_named institutions name ≡ None → Contains institutions institution
        → institution.name ≢ name }
{}

/// A pair of titles is routed to the one institution that has it, and to none where none has it.
pub fn a_pair_is_of_one()
    ensures routed { (institutions : List Institution) (called calling : List ℕ)
        (institution : Institution) → IsTrue (is_sound_configuration institutions)
        → institution_routed institutions called calling ≡ Some institution
        → IsRouted institutions called calling institution }
    ensures found { (institutions : List Institution) (called calling : List ℕ)
        (institution : Institution) → IsTrue (is_sound_configuration institutions)
        → IsRouted institutions called calling institution
        → institution_routed institutions called calling ≡ Some institution }
    ensures missing { (institutions : List Institution) (called calling : List ℕ)
        (institution : Institution) → institution_routed institutions called calling ≡ None
        → Contains institutions institution
        → has_route (without_spaces called) (without_spaces calling) institution ≡ false }
{}

/// The limits of each institution are in range.
pub fn limits_are_in_range()
    ensures { (institutions : List Institution) (institution : Institution)
        → IsTrue (is_sound_configuration institutions) → Contains institutions institution
        → AreLimits institution }
{}
