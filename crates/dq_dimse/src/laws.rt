//! The meaning of the definitions: laws that hold of them, each proved as the contract of a
//! function that does nothing.
ghost use Rattle.std.specs.Prelude.{◌≡◌, ◌≤◌, ◌<◌, ◌⊎◌, ℕ, Bool, true, false, IsTrue, List, [], ◌∷◌};
ghost use Rattle.std.specs.Prelude.{◌++◌, length, map, Option, Some, None};
ghost use Rattle.dq_list.specs.Octets.{AreOctets};
ghost use Rattle.dq_pdu.specs.declared.pdu.Pdv.{Pdv};
ghost use Rattle.dq_pdu.specs.Writing.{body, is_writable, p_data};
ghost use Rattle.dq_dataset.specs.declared.header.Syntax.{Syntax};
ghost use Rattle.dq_dimse.specs.declared.command.Command.{Command};
ghost use Rattle.dq_dimse.specs.declared.command.Message.{Message as HeldMessage};
ghost use Rattle.dq_dimse.specs.Received.{Message};
ghost use Rattle.dq_dimse.specs.declared.fault.DimseFault.{DimseFault};
ghost use Rattle.dq_pdu.specs.Octets.{is_number_among};
ghost use Rattle.dq_pdu.specs.Stream.{pdus_in};
ghost use Rattle.dq_dimse.specs.Carrying.{Carries, IsDataOf, pdu_with};
ghost use Rattle.dq_dimse.specs.Commands.{command_of};
ghost use Rattle.dq_dimse.specs.CommandSets.{IsCommandSet, HasFields, SaysResponse};
ghost use Rattle.dq_dimse.specs.declared.assembler.Accepted.{Accepted};
ghost use Rattle.dq_dimse.specs.declared.assembler.PendingMessage.{PendingMessage};
ghost use Rattle.dq_dimse.specs.declared.assembler.PartialMessage.TheVariants as held;
ghost use Rattle.dq_dimse.specs.Holding.{Refines, Holding, WasGivenPdvs, is_stored, plain_message};
ghost use Rattle.dq_dimse.specs.Holding.{octets_gathered, gathered_limit, SiftsWithin};
ghost use Rattle.dq_dimse.specs.Messages.{AreMessages, AreLeft, command_limit, store_limit};
ghost use Rattle.dq_dimse.specs.Assembling.{Assembly, AssemblerAfter, messages, messages_from};
ghost use Rattle.dq_dimse.specs.Assembling.{assembly_from, followed_by, spent_by};
ghost use Rattle.dq_dimse.specs.Sending.{IsFragmentSize, AreFragmentsOf, command_set, pdu_limit};
ghost use Rattle.dq_dimse.specs.Sending.{fragment_size, fragments, message_pdus, IsPduLimit};
ghost use Rattle.dq_dimse.specs.declared.status.TheConstants as coded_status;
ghost use Rattle.dq_dimse.specs.Statuses as status;
ghost use Rattle.dq_dimse.specs.declared.command_field.TheConstants as coded_field;
ghost use Rattle.dq_dimse.specs.CommandFields as field;
ghost use Rattle.dq_vr.specs.declared.study_root.TheConstants.{KEPT_ATTRIBUTES};
ghost use Rattle.dq_vr.specs.StudyRoot.{kept_attributes};

use dq_dataset::laws::spelling_law;
use dq_pdu::laws::{fragments_are_writable, written_pdus_are_read};

/// The statuses, the command fields and the attributes that the code names are those of the
/// definitions, which have them as numbers.
pub fn code_has_the_numbers()
    ensures statuses { (coded_status.SUCCESS ≡ status.success)
        × (coded_status.PENDING ≡ status.pending_with_optional_keys)
        × (coded_status.PENDING_WITHOUT_OPTIONAL_KEYS ≡ status.pending_without_optional_keys)
        × (coded_status.CANCEL ≡ status.cancel)
        × (coded_status.OUT_OF_RESOURCES ≡ status.out_of_resources)
        × (coded_status.DOES_NOT_MATCH_SOP_CLASS ≡ status.does_not_match_sop_class)
        × (coded_status.CANNOT_UNDERSTAND ≡ status.cannot_understand)
        × (coded_status.INSTANCE_KEPT_ELSEWHERE ≡ status.instance_kept_elsewhere)
        × (coded_status.SERIES_KEPT_ELSEWHERE ≡ status.series_kept_elsewhere)
        × (coded_status.ELEMENTS_DISCARDED ≡ status.elements_discarded)
        × (coded_status.INVALID_ATTRIBUTE_VALUE ≡ status.invalid_attribute_value)
        × (coded_status.PROCESSING_FAILURE ≡ status.processing_failure)
        × (coded_status.DUPLICATE_SOP_INSTANCE ≡ status.duplicate_sop_instance)
        × (coded_status.NO_SUCH_SOP_INSTANCE ≡ status.no_such_sop_instance)
        × (coded_status.INVALID_SOP_INSTANCE ≡ status.invalid_sop_instance)
        × (coded_status.MISSING_ATTRIBUTE ≡ status.missing_attribute)
        × (coded_status.MISSING_ATTRIBUTE_VALUE ≡ status.missing_attribute_value)
        × (coded_status.SOP_CLASS_NOT_SUPPORTED ≡ status.sop_class_not_supported)
        × (coded_status.UNRECOGNIZED_OPERATION ≡ status.unrecognized_operation)
        × (coded_status.RESOURCE_LIMITATION ≡ status.resource_limitation) }
    ensures fields { (coded_field.C_STORE ≡ field.c_store)
        × (coded_field.C_FIND ≡ field.c_find)
        × (coded_field.C_ECHO ≡ field.c_echo)
        × (coded_field.N_SET ≡ field.n_set)
        × (coded_field.N_CREATE ≡ field.n_create)
        × (coded_field.C_CANCEL ≡ field.c_cancel)
        × (coded_field.RESPONSE_BIT ≡ field.response_bit) }
    ensures kept { KEPT_ATTRIBUTES ≡ kept_attributes }
{}

/// Octets are read as what they are: a command set is read exactly.
pub fn command_sets_are_read()
    ensures are { (octets : List ℕ) (command : Command) → AreOctets octets →
        command_of octets ≡ Some command → IsCommandSet octets command }
    ensures only { (octets : List ℕ) (command : Command) →
        IsCommandSet octets command → command_of octets ≡ Some command }
{
    spelling_law();
}

/// The octets that are written for a response are a command set, and are read as that response.
pub fn responses_are_command_sets()
    ensures { (command : Command) → HasFields command → SaysResponse command (command_set command) }
{}

/// The messages of PDVs are messages, one after the other, and after them stands what is left.
pub fn messages_are_messages()
    ensures { (ids : List ℕ) (pdvs : List Pdv) → (rest : List Pdv)
        × AreMessages ids (messages ids pdvs).list pdvs rest
        × AreLeft ids rest (messages ids pdvs).fault }
{}

/// The PDVs carry no other list of messages, and nothing else is left after it.
pub fn messages_are_the_only()
    ensures messages { (ids : List ℕ) (pdvs rest : List Pdv) (list : List Message)
        (fault : Option DimseFault) → AreMessages ids list pdvs rest → AreLeft ids rest fault →
        messages ids pdvs ≡ record { list = list; fault = fault } }
    ensures rest { (ids : List ℕ) (pdvs rest others : List Pdv) (list : List Message) →
        AreMessages ids list pdvs rest → AreMessages ids list pdvs others → rest ≡ others }
{}

/// More PDVs only add messages, and after a fault nothing changes.
pub fn more_pdvs_add()
    ensures adds { (ids : List ℕ) (xs ys : List Pdv) → (later : List Message)
        × ((messages ids (xs ++ ys)).list ≡ (messages ids xs).list ++ later) }
    ensures fault_stays { (ids : List ℕ) (xs ys : List Pdv) (fault : DimseFault) →
        (messages ids xs).fault ≡ Some fault → messages ids (xs ++ ys) ≡ messages ids xs }
    // The assembler that was given the PDVs before them tells what they add.
    ensures goes_on { (ids : List ℕ) (xs ys : List Pdv) (assembly : Assembly) →
        AssemblerAfter ids xs assembly →
        messages ids (xs ++ ys) ≡ followed_by (messages ids xs).list (messages_from assembly ys) }
    ensures stands { (ids : List ℕ) (xs ys : List Pdv) (assembly : Assembly) →
        AssemblerAfter ids xs assembly →
        AssemblerAfter ids (xs ++ ys) (assembly_from assembly ys) }
{}

/// An assembler that was given PDVs is one alone, and it is spent by their fault.
pub fn assemblers_stand_for_pdvs()
    ensures only { (ids : List ℕ) (pdvs : List Pdv) (assembly other : Assembly) →
        AssemblerAfter ids pdvs assembly → AssemblerAfter ids pdvs other → assembly ≡ other }
    ensures fault { (ids : List ℕ) (pdvs : List Pdv) (assembly : Assembly) →
        AssemblerAfter ids pdvs assembly → (messages ids pdvs).fault ≡ spent_by assembly }
{}

/// The additions of PDVs to any assembler: in parts as in one, and nothing to one that is spent.
pub fn assemblers_go_on()
    ensures nothing { (assembly : Assembly) →
        (messages_from assembly [] ≡ record { list = []; fault = spent_by assembly })
        × (assembly_from assembly [] ≡ assembly) }
    ensures parts { (assembly : Assembly) (xs ys : List Pdv) →
        messages_from assembly (xs ++ ys) ≡ followed_by (messages_from assembly xs).list
        (messages_from (assembly_from assembly xs) ys) }
    ensures next { (assembly : Assembly) (xs ys : List Pdv) →
        assembly_from assembly (xs ++ ys) ≡ assembly_from (assembly_from assembly xs) ys }
    ensures fault { (assembly : Assembly) (pdvs : List Pdv) →
        (messages_from assembly pdvs).fault ≡ spent_by (assembly_from assembly pdvs) }
    ensures spent { (assembly : Assembly) (pdvs : List Pdv) (fault : DimseFault) →
        spent_by assembly ≡ Some fault →
        (messages_from assembly pdvs ≡ record { list = []; fault = Some fault })
        × (assembly_from assembly pdvs ≡ assembly) }
{}

/// A message that is no C-STORE is held with its octets, and so is one that passed its limit.
pub fn plain_messages_are_held()
    ensures { (syntax : Syntax) (held : HeldMessage) (message : Message) →
        Refines syntax held message →
        (is_stored message.command ≡ false) ⊎ (message.over ≡ true) →
        plain_message held ≡ message }
{}

/// Whatever PDVs an assembler was given, of an unfinished message it holds at most 16,384 octets of
/// a command set, or 1,048,576 of a data set. The data set of a C-STORE is in a sieve, which was fed
/// at most 4,294,967,295 octets (PS3.7 section 6.3.1).
pub fn unfinished_messages_are_short()
    ensures held { (accepted : List Accepted) (pdvs : List Pdv) (holding : Holding) →
        WasGivenPdvs accepted pdvs holding →
        length (octets_gathered holding.gathered) ≤ gathered_limit holding.gathered }
    ensures sifted { (accepted : List Accepted) (pdvs : List Pdv) (holding : Holding)
        (begun : PendingMessage) → WasGivenPdvs accepted pdvs holding →
        holding.gathered ≡ held.DataPart begun →
        SiftsWithin begun.context.syntax begun.data_set store_limit }
{}

/// The length of a fragment is the largest that a PDU for the peer has room for (PS3.8 annex D.1).
pub fn fragments_leave_room()
    ensures { (limit : ℕ) → IsPduLimit limit →
        IsFragmentSize limit (fragment_size limit) }
{}

/// A fragment's PDU is no longer than the peer takes, and it can be written.
pub fn pdus_fit()
    ensures short { (limit context : ℕ) (command last : Bool) (octets : List ℕ) →
        IsPduLimit limit → length octets ≤ fragment_size limit →
        length (body (p_data context command last octets)) ≤ pdu_limit limit }
    ensures writable { (limit context : ℕ) (command last : Bool) (octets : List ℕ) →
        IsPduLimit limit → length octets ≤ fragment_size limit →
        IsTrue (is_writable (p_data context command last octets)) }
{}

/// The fragments of octets, joined, are the octets. No other fragments of that size are.
pub fn fragments_are_the_only()
    ensures are { (size : ℕ) (octets : List ℕ) → 0 < size →
        AreFragmentsOf size octets (fragments size octets) }
    ensures only { (size : ℕ) (octets : List ℕ) (run : List (List ℕ)) → 0 < size →
        AreFragmentsOf size octets run → run ≡ fragments size octets }
{}

/// A message that is sent is read again: as PDUs of one PDV each, with no rest and no fault, and
/// the PDVs carry the command set and the data set.
pub fn what_is_sent_is_read()
    ensures { (context limit : ℕ) (command : Command) (octets : Option (List ℕ)) →
        IsPduLimit limit → (pdvs : List Pdv)
        × (pdus_in (message_pdus context command octets limit)
        ≡ record { list = map pdu_with pdvs; rest = []; fault = None })
        × Carries context (command_set command) octets pdvs }
{
    fragments_are_writable();
    written_pdus_are_read();
}

/// PDVs of an accepted context that carry a command set and its data set are their message, and no
/// other.
pub fn what_is_carried_is_read()
    ensures { (ids : List ℕ) (message : Message) (set : List ℕ) (octets : Option (List ℕ))
        (pdvs : List Pdv) → IsTrue (is_number_among message.context ids) → length set ≤ command_limit →
        command_of set ≡ Some message.command → IsDataOf message octets →
        Carries message.context set octets pdvs →
        messages ids pdvs ≡ record { list = message ∷ []; fault = None } }
{}
