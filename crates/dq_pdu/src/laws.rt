//! Laws that hold of all PDUs and of all streams. Each law is what a function with no body ensures.
ghost use Rattle.std.specs.Prelude.{◌≡◌, ◌≤◌, ◌<◌, ◌+◌, ℕ, Bool, List, [], ◌++◌, length, take, Some, None, IsTrue};
ghost use Rattle.std.specs.List.{flat_map, list_all};
ghost use Rattle.dq_list.specs.Octets.{AreOctets};
ghost use Rattle.dq_pdu.specs.declared.fault.PduFault.{PduFault};
ghost use Rattle.dq_pdu.specs.declared.inbox.InboxState.{InboxState};
ghost use Rattle.dq_pdu.specs.declared.inbox.InboxState.TheVariants.{Spent};
ghost use Rattle.dq_pdu.specs.declared.pdu.Pdu.{Pdu};
ghost use Rattle.dq_pdu.specs.declared.pdu.Pdu.TheVariants.{Request as request_pdu, Accept as accept_pdu};
ghost use Rattle.dq_pdu.specs.declared.pdu.Request.{Request};
ghost use Rattle.dq_pdu.specs.declared.pdu.Accept.{Accept};
ghost use Rattle.dq_pdu.specs.declared.pdu_reader.FirstPdu.TheVariants.{Whole};
ghost use Rattle.dq_pdu.specs.Numbers.{longest_body, pdu_header, pdv_header};
ghost use Rattle.dq_pdu.specs.Octets.{is_uid_padding, without_uid_padding};
ghost use Rattle.dq_pdu.specs.Spelling.{SpellsPdu};
ghost use Rattle.dq_pdu.specs.PduReader.{first_pdu};
ghost use Rattle.dq_pdu.specs.Writing.{pdu_octets, p_data, is_bare, IsWritable, AreWritable};
ghost use Rattle.dq_pdu.specs.Stream.{Splits, pdus_in, fault_at_front, with_list, stream_read_on};
ghost use Rattle.dq_pdu.specs.Inboxes.{InboxAfter, inbox_fault, inbox_octets};
ghost use Rattle.dq_pdu.specs.Acceptances.{AreContextIds, IsReceived, IsAcceptance};

/// Octets spell at most one PDU.
pub fn spelling_is_unique()
    ensures { (octets : List ℕ) (pdu other : Pdu)
        → SpellsPdu pdu octets → SpellsPdu other octets → pdu ≡ other }
{}

/// A PDU that is read is spelled so, and one that is spelled so is read, whatever follows it.
pub fn reading_is_spelling()
    ensures spelled { (octets : List ℕ) (pdu : Pdu) (count : ℕ)
        → first_pdu octets ≡ Whole pdu count → SpellsPdu pdu (take count octets) }
    ensures read { (octets others : List ℕ) (pdu : Pdu) → SpellsPdu pdu octets
        → first_pdu (octets ++ others) ≡ Whole pdu (length octets) }
{}

/// The octets that are written for a PDU are read as that PDU, whatever follows them.
pub fn writing_is_read()
    ensures { (pdu : Pdu) (others : List ℕ) → IsWritable pdu
        → first_pdu (pdu_octets pdu ++ others) ≡ Whole pdu (length (pdu_octets pdu)) }
{}

/// PDUs that are written one after the other are read as those PDUs, whatever follows them; where
/// nothing does, nothing is left, and there is no fault.
pub fn written_pdus_are_read()
    ensures all { (pdus : List Pdu) → AreWritable pdus
        → pdus_in (flat_map pdu_octets pdus) ≡ record { list = pdus; rest = []; fault = None } }
    ensures more { (pdus : List Pdu) (more : List ℕ) → AreWritable pdus
        → pdus_in (flat_map pdu_octets pdus ++ more) ≡ with_list pdus (pdus_in more) }
{}

/// A fragment of at most 65,530 octets is written as a PDU of one PDV.
pub fn fragments_are_writable()
    ensures { (context : ℕ) (command last : Bool) (octets : List ℕ)
        → length octets + pdv_header ≤ longest_body
        → IsWritable (p_data context command last octets) }
{}

/// Of an identifier nothing but padding at its end is lost, and no padding is left there (PS3.5
/// section 9.1).
pub fn padding_is_stripped()
    ensures lost { (octets : List ℕ) → (padding : List ℕ)
        × (octets ≡ without_uid_padding octets ++ padding) × IsTrue (list_all is_uid_padding padding) }
    ensures left { (octets : List ℕ) → IsTrue (is_bare (without_uid_padding octets)) }
{}

/// A stream is its PDUs, one after the other, and then a rest of which no prefix spells a PDU; and
/// it is so in one way.
pub fn pdus_split_a_stream()
    ensures split { (stream : List ℕ) → Splits stream (pdus_in stream).list (pdus_in stream).rest }
    ensures only { (stream : List ℕ) (pdus : List Pdu) (rest : List ℕ) → Splits stream pdus rest
        → (pdus ≡ (pdus_in stream).list) × (rest ≡ (pdus_in stream).rest) }
{}

/// The fault of a stream is the one that its rest has.
pub fn a_fault_is_of_the_rest()
    ensures { (stream : List ℕ) → (pdus_in stream).fault ≡ fault_at_front (pdus_in stream).rest }
{}

/// An empty stream has no PDUs, no rest and no fault.
pub fn an_empty_stream_has_none()
    ensures { pdus_in [] ≡ record { list = []; rest = []; fault = None } }
{}

/// A longer stream has the PDUs of the shorter one and may have more; a fault stays, and no PDU
/// comes after it.
pub fn a_longer_stream_adds()
    ensures more { (stream more : List ℕ) → (added : List Pdu)
        × ((pdus_in (stream ++ more)).list ≡ (pdus_in stream).list ++ added) }
    ensures fault { (stream more : List ℕ) (fault : PduFault) → (pdus_in stream).fault ≡ Some fault
        → ((pdus_in (stream ++ more)).list ≡ (pdus_in stream).list)
        × ((pdus_in (stream ++ more)).fault ≡ Some fault) }
    ensures faultless { (stream more : List ℕ) → (pdus_in (stream ++ more)).fault ≡ None
        → (pdus_in stream).fault ≡ None }
    ensures exact { (stream more : List ℕ) → pdus_in (stream ++ more)
        ≡ stream_read_on (pdus_in stream).fault (pdus_in stream).list (pdus_in stream).rest more }
{}

/// An inbox stands for the stream that it was fed, whatever its pieces were: it is the only one
/// that does, it is not spent, and it has the fault of the stream.
pub fn an_inbox_stands_for_its_stream()
    ensures only { (stream : List ℕ) (inbox other : InboxState)
        → InboxAfter stream inbox → InboxAfter stream other → inbox ≡ other }
    ensures not_spent { (stream : List ℕ) → InboxAfter stream Spent → ⊥ }
    ensures fault { (stream : List ℕ) (inbox : InboxState)
        → InboxAfter stream inbox → inbox_fault inbox ≡ (pdus_in stream).fault }
{}

/// The rest of a stream that has no fault is less than a PDU of the greatest length, and so is what
/// an inbox holds, whatever it was fed: at most 65,541 octets (PS3.8 section 9.3.1).
pub fn a_rest_is_less_than_a_pdu()
    ensures rest { (stream : List ℕ) → (pdus_in stream).fault ≡ None
        → length (pdus_in stream).rest < pdu_header + longest_body }
    ensures held { (stream : List ℕ) (inbox : InboxState) → InboxAfter stream inbox
        → length (inbox_octets inbox) < pdu_header + longest_body }
{}

/// There are at most 128 contexts: their ids are odd octets of their own (PS3.8 section 9.3.2.2).
pub fn contexts_are_few()
    ensures { (ids : List ℕ) → AreContextIds ids → length ids ≤ 128 }
{}

/// The contexts of a request that octets spell have odd ids of their own, and its titles and
/// reserved octets have their lengths (PS3.8 section 9.3.2).
pub fn requests_have_context_ids()
    ensures { (octets : List ℕ) (request : Request) → AreOctets octets
        → SpellsPdu (request_pdu request) octets → IsReceived request }
{}

/// An acceptance that answers the contexts of a request can be written: its contexts are few, and
/// its identifiers short (PS3.8 section 9.3.3, PS3.5 section 9.1).
pub fn answers_are_writable()
    ensures { (accept : Accept) → IsAcceptance accept → IsWritable (accept_pdu accept) }
{}
