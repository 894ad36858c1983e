//! Laws of the definitions, which the contracts of functions with no body name.
ghost use Rattle.std.specs.Prelude.{◌≡◌, ◌≢◌, ◌⊎◌, ◌↔◌, ◌<◌, ◌^◌, ◌++◌, List, ℕ, length, None, true};
ghost use Rattle.dq_list.specs.Octets.{AreOctets};
ghost use Rattle.dq_dataset.specs.declared.fault.ReadFault.{ReadFault};
ghost use Rattle.dq_dataset.specs.declared.fault.ReadFault.TheVariants.{Truncated};
ghost use Rattle.dq_dataset.specs.declared.header.Syntax.{Syntax};
ghost use Rattle.dq_dataset.specs.Tree.{ElementList};
ghost use Rattle.dq_dataset.specs.DataSetReader.{data_set_read};
ghost use Rattle.dq_dataset.specs.Grammar.{IsSpelled};
ghost use Rattle.dq_dataset.specs.Facts.{IsDataSet};
ghost use Rattle.dq_dataset.specs.Faults.{IsFaulty};
ghost use Rattle.dq_dataset.specs.Canonical.{canonical, HasLengths};
ghost use Rattle.dq_dataset.specs.Written.{IsReadBack};
ghost use Rattle.dq_dataset.specs.Editing.{cut_out, merged_data_set};
ghost use Rattle.dq_dataset.specs.Same.{same_element};
ghost use Rattle.dq_dataset.specs.declared.data_set.Element.{Element};
ghost use Rattle.dq_dataset.specs.Lending.{lent_elements};
ghost use Rattle.dq_dataset.specs.Agreement.{FaultAfter, AgreesWith};
ghost use Rattle.dq_vr.specs.declared.Tag.{Tag};

use dq_vr::Vr;

/// Octets spell at most one data set, and reading answers it (PS3.5 section 7).
pub fn spelling_law()
    // No octets spell two data sets.
    ensures one { (syntax : Syntax) (octets : List ℕ) (a b : ElementList)
        → IsSpelled syntax octets a → IsSpelled syntax octets b → a ≡ b }
    // A data set that is spelled has the facts of every data set.
    ensures facts { (syntax : Syntax) (octets : List ℕ) (d : ElementList)
        → IsSpelled syntax octets d → IsDataSet d }
    // A data set that is spelled is read, so octets with a fault spell nothing.
    ensures read { (syntax : Syntax) (octets : List ℕ) (d : ElementList) → IsSpelled syntax octets d
        → data_set_read syntax octets ≡ Ok d }
    // A data set that is read is spelled.
    ensures spelled { (syntax : Syntax) (octets : List ℕ) (d : ElementList) → AreOctets octets
        → data_set_read syntax octets ≡ Ok d → IsSpelled syntax octets d }
    // A data set that fewer than 2^31 octets spell has a canonical spelling, in both syntaxes.
    ensures lengths { (from to : Syntax) (octets : List ℕ) (d : ElementList)
        → IsSpelled from octets d → length octets < 2 ^ 31 → HasLengths to d }
{}

/// A data set that is written is read back: in Explicit always, and in Implicit if the dictionary
/// has the tag of each sequence.
pub fn written_law()
    ensures spelled { (syntax : Syntax) (d : ElementList) → IsDataSet d → HasLengths syntax d
        → IsReadBack syntax d → IsSpelled syntax (canonical syntax d) d }
    ensures read_back { (syntax : Syntax) (d : ElementList) → IsDataSet d → HasLengths syntax d
        → IsReadBack syntax d → data_set_read syntax (canonical syntax d) ≡ Ok d }
{
    Vr::letters_law();
}

/// Octets spell a data set or have a first fault, and reading answers which. But for octets that
/// are missing, the fault stays whatever octets follow.
pub fn fault_law()
    // Octets spell a data set, or have a fault.
    ensures some { (syntax : Syntax) (octets : List ℕ) → AreOctets octets
        → ((d : ElementList) × IsSpelled syntax octets d)
        ⊎ ((fault : ReadFault) × IsFaulty syntax octets fault) }
    // Not both, and no two faults.
    ensures no_other { (syntax : Syntax) (octets : List ℕ) (d : ElementList) (fault : ReadFault)
        → IsSpelled syntax octets d → IsFaulty syntax octets fault → ⊥ }
    ensures one { (syntax : Syntax) (octets : List ℕ) (f g : ReadFault) → IsFaulty syntax octets f
        → IsFaulty syntax octets g → f ≡ g }
    // Reading answers it.
    ensures read { (syntax : Syntax) (octets : List ℕ) (fault : ReadFault)
        → IsFaulty syntax octets fault → data_set_read syntax octets ≡ Err fault }
    ensures faulty { (syntax : Syntax) (octets : List ℕ) (fault : ReadFault) → AreOctets octets
        → data_set_read syntax octets ≡ Err fault → IsFaulty syntax octets fault }
    // It stays.
    ensures stays_faulty { (syntax : Syntax) (octets more : List ℕ) (fault : ReadFault)
        → AreOctets (octets ++ more) → fault ≢ Truncated
        → IsFaulty syntax octets fault → IsFaulty syntax (octets ++ more) fault }
    ensures stays { (syntax : Syntax) (octets more : List ℕ) (fault : ReadFault) → AreOctets octets
        → fault ≢ Truncated
        → data_set_read syntax octets ≡ Err fault → data_set_read syntax (octets ++ more) ≡ Err fault }
{}

/// The elements that are lent of one level are those that its octets spell. The first fault
/// follows, if there is one.
pub fn lending_law()
    ensures lent { (syntax : Syntax) (octets : List ℕ) → AreOctets octets
        → AgreesWith syntax octets (lent_elements syntax octets) }
    // The elements before the first fault are those that the front of the octets spells.
    ensures front { (syntax : Syntax) (octets : List ℕ) (d : ElementList) (fault : ReadFault)
        → FaultAfter syntax None octets d fault
        → (front : List ℕ) × (rest : List ℕ) × (octets ≡ front ++ rest) × IsSpelled syntax front d }
    ensures fault { (syntax : Syntax) (octets : List ℕ) (d : ElementList) (fault : ReadFault)
        → FaultAfter syntax None octets d fault → IsFaulty syntax octets fault }
{}

/// The elements cut out of a data set, and those merged from two, are a data set, and have lengths
/// that can be written.
pub fn editing_law()
    ensures cut { (tags : List Tag) (d : ElementList) → IsDataSet d → IsDataSet (cut_out tags d) }
    ensures cut_lengths { (syntax : Syntax) (tags : List Tag) (d : ElementList)
        → HasLengths syntax d → HasLengths syntax (cut_out tags d) }
    ensures merged { (kept sent : ElementList) → IsDataSet kept → IsDataSet sent
        → IsDataSet (merged_data_set kept sent) }
    ensures merged_lengths { (syntax : Syntax) (kept sent : ElementList) → HasLengths syntax kept
        → HasLengths syntax sent → HasLengths syntax (merged_data_set kept sent) }
{}

/// The same elements are those with the same tag, VR and value.
#[tactic(auto, using(crate::proofs::Same::same_is_equal))]
pub fn same_elements_are_equal()
    ensures { (e f : Element) → (same_element e f ≡ true) ↔ (e ≡ f) }
{}
