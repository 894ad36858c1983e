//! Laws of the definitions, each as what a function ensures that does nothing.
ghost use Rattle.std.specs.Prelude.{◌≡◌, ◌≢◌, ◌≤◌, ℕ, true, IsTrue, List, [], ◌∷◌, ◌++◌};
ghost use Rattle.std.specs.Prelude.{length, map, filter, Contains, Option, Some, None, if◌then◌else◌};
ghost use Rattle.dq_list.specs.Octets.{AreOctets};
ghost use Rattle.dq_dataset.specs.declared.header.Syntax.{Syntax};
ghost use Rattle.dq_dataset.specs.declared.header.Syntax.TheVariants.{Explicit};
ghost use Rattle.dq_pdu.specs.declared.pdu.Pdu.{Pdu};
ghost use Rattle.dq_pdu.specs.declared.pdu.Pdu.TheVariants.{Request as request_pdu};
ghost use Rattle.dq_pdu.specs.declared.pdu.Request.{Request};
ghost use Rattle.dq_pdu.specs.declared.pdu.ProposedContext.{ProposedContext};
ghost use Rattle.dq_pdu.specs.declared.pdu.AnsweredContext.{AnsweredContext};
ghost use Rattle.dq_pdu.specs.declared.fault.PduFault.{PduFault};
ghost use Rattle.dq_pdu.specs.declared.pdu.Pdv.{Pdv};
ghost use Rattle.dq_pdu.specs.Octets.{are_distinct};
ghost use Rattle.dq_pdu.specs.Spelling.{SpellsPdu};
ghost use Rattle.dq_pdu.specs.Writing.{IsWritable};
ghost use Rattle.dq_pdu.specs.Stream.{pdus_in};
ghost use Rattle.dq_dimse.specs.Holding.{Holding, WasGivenPdvs, octets_gathered, gathered_limit};
ghost use Rattle.dq_assoc.specs.declared.agreement.Agreement.{Agreement};
ghost use Rattle.dq_assoc.specs.declared.association.Held.TheVariants as code;
ghost use Rattle.dq_assoc.specs.Holding.{WasGivenPdus, accepted_by};
ghost use Rattle.dq_assoc.specs.declared.classes.SopClass.{SopClass};
ghost use Rattle.dq_assoc.specs.declared.agreement.AcceptedContext.{AcceptedContext};
ghost use Rattle.dq_assoc.specs.Associations.{HeldState};
ghost use Rattle.dq_assoc.specs.declared.association.State.{State};
ghost use Rattle.dq_assoc.specs.declared.association.State.TheVariants.{Waiting, Open, Closed};
ghost use Rattle.dq_assoc.specs.declared.association.Verdict.{Verdict};
ghost use Rattle.dq_assoc.specs.Classes.{uid_of, class_of};
ghost use Rattle.dq_assoc.specs.Negotiation.{syntax_uid, acceptance, agreed_context, is_accepted, answer_with, answered_context, acceptance_of, agreement_of, context_ids, rejection};
ghost use Rattle.dq_assoc.specs.Table.{Input, Requested, goes, line, is_message};
ghost use Rattle.dq_assoc.specs.Inputs.{inputs_of, inputs, AreInputs};
ghost use Rattle.dq_assoc.specs.After.{AssociationAfter, state_of, agreement_in, association_from, inputs_from};
ghost use Rattle.dq_assoc.specs.Steps.{step_of_inputs, joined_step, fault_inputs};

use dq_pdu::laws::a_longer_stream_adds;

/// The classes that are served have UIDs of their own.
#[tactic(auto, unfolding(crate::specs::Classes::class_of))]
pub fn classes_are_named()
    ensures found { (class : SopClass) → class_of (uid_of class) ≡ Some class }
    ensures named { (uid : List ℕ) (class : SopClass) →
        class_of uid ≡ Some class → uid_of class ≡ uid }
{}

/// A context that is agreed on was offered so (PS3.8 section 7.1.1): its id and class are those of
/// the context, and the context offers its syntax, which is Explicit VR Little Endian wherever that
/// is offered.
pub fn contexts_are_negotiated()
    ensures id { (c : ProposedContext) (a : AcceptedContext) → agreed_context c ≡ Some a →
        a.id ≡ c.id }
    ensures class { (c : ProposedContext) (a : AcceptedContext) → agreed_context c ≡ Some a →
        uid_of a.class ≡ c.abstract_syntax }
    ensures offered { (c : ProposedContext) (a : AcceptedContext) → agreed_context c ≡ Some a →
        Contains c.transfer_syntaxes (syntax_uid a.syntax) }
    ensures explicit { (c : ProposedContext) (a : AcceptedContext) → agreed_context c ≡ Some a →
        Contains c.transfer_syntaxes (syntax_uid Explicit) → a.syntax ≡ Explicit }
    // Every context of a class that is served is, where it offers a syntax that is taken.
    ensures accepted { (c : ProposedContext) (class : SopClass) (syntax : Syntax) →
        class_of c.abstract_syntax ≡ Some class →
        Contains c.transfer_syntaxes (syntax_uid syntax) → is_accepted c ≡ true }
    // The answer says what is agreed on: each context is answered, in order.
    ensures answer { (c : ProposedContext) (a : AcceptedContext) → agreed_context c ≡ Some a →
        answered_context c ≡ answer_with a.id acceptance a.syntax }
    ensures refused { (c : ProposedContext) → agreed_context c ≡ None →
        (answered_context c).result ≢ acceptance }
    ensures answers { (contexts : List ProposedContext) →
        map (λ (a : AnsweredContext). a.id) (map answered_context contexts)
        ≡ map (λ (c : ProposedContext). c.id) contexts }
{}

/// The contexts that are agreed on are those that are accepted, in order.
pub fn agreements_are_of_accepted_contexts()
    ensures contexts { (request : Request) →
        map (λ (a : AcceptedContext). Some a) (agreement_of request).contexts
        ≡ map agreed_context (filter is_accepted request.contexts) }
    ensures ids { (request : Request) →
        context_ids (agreement_of request)
        ≡ map (λ (c : ProposedContext). c.id) (filter is_accepted request.contexts) }
    ensures distinct { (request : Request) →
        IsTrue (are_distinct (map (λ (c : ProposedContext). c.id) request.contexts)) →
        IsTrue (are_distinct (context_ids (agreement_of request))) }
{}

/// The table of states (PS3.8 section 9.2). Nothing leads back to Waiting, and nothing leads out of
/// Closed.
pub fn table_of_states()
    ensures closed { (verdict : Verdict) (input : Input) →
        line Closed verdict input ≡ goes None Closed }
    // In Open all but a message closes.
    ensures open { (verdict : Verdict) (input : Input) →
        (line Open verdict input).next ≡ (if is_message input then Open else Closed) }
    // A request alone opens, one that is not rejected.
    ensures opens { (verdict : Verdict) (input : Input) → (line Waiting verdict input).next ≡ Open →
        (request : Request) × (input ≡ Requested request) × (rejection request verdict ≡ None) }
    ensures leaves { (state : State) (verdict : Verdict) (input : Input) →
        (line state verdict input).next ≢ Waiting }
{}

/// The acceptance of a request that octets spell can be written (PS3.8 sections 9.3.2 and 9.3.3),
/// so that such a request is accepted wherever it is not rejected. The abort of one that cannot is
/// for requests that no octets spell.
pub fn acceptances_are_writable()
    ensures written { (octets : List ℕ) (request : Request) → AreOctets octets →
        SpellsPdu (request_pdu request) octets → IsWritable (acceptance_of request) }
    ensures line { (octets : List ℕ) (request : Request) (verdict : Verdict) → AreOctets octets →
        SpellsPdu (request_pdu request) octets → rejection request verdict ≡ None →
        line Waiting verdict (Requested request) ≡ goes (Some (acceptance_of request)) Open }
{}

/// Only the last input closes: a stream has a request, messages and at most one input that closes,
/// or one in the request's place.
pub fn the_last_input_closes()
    ensures pdus { (pdus : List Pdu) (fault : Option PduFault) → AreInputs (inputs_of pdus fault) }
    ensures stream { (stream : List ℕ) → AreInputs (inputs stream) }
{}

/// An association after PDUs: what more PDUs and a fault add to the inputs follows from it alone.
pub fn an_association_after_pdus()
    ensures inputs { (pdus more : List Pdu) (fault : Option PduFault) (association : HeldState) →
        AssociationAfter pdus association →
        inputs_of (pdus ++ more) fault ≡ inputs_of pdus None ++ inputs_from association more fault }
    ensures none { (pdus : List Pdu) (association : HeldState) → AssociationAfter pdus association →
        inputs_from association [] None ≡ [] }
    ensures fault { (pdus : List Pdu) (fault : PduFault) (association : HeldState) →
        AssociationAfter pdus association →
        inputs_from association [] (Some fault) ≡ fault_inputs (state_of association) fault }
    ensures waits { (pdus : List Pdu) (association : HeldState) → AssociationAfter pdus association →
        state_of association ≡ Waiting → pdus ≡ [] }
    // One that is open was opened by the first PDU, and agrees on what that requests.
    ensures opens { (pdus : List Pdu) (association : HeldState) → AssociationAfter pdus association →
        state_of association ≡ Open →
        (request : Request) × (later : List Pdu) × (pdus ≡ request_pdu request ∷ later)
        × (agreement_in association ≡ Some (agreement_of request)) }
    // Nothing is added once it is closed.
    ensures ends { (pdus : List Pdu) (fault : Option PduFault) (association : HeldState) →
        state_of association ≡ Closed → inputs_from association pdus fault ≡ [] }
{}

/// PDUs may be taken in parts: what the later ones add follows from where the earlier ones leave
/// the association.
pub fn pdus_in_parts()
    ensures after { (pdus more : List Pdu) (association : HeldState) →
        AssociationAfter pdus association →
        AssociationAfter (pdus ++ more) (association_from association more) }
    ensures inputs { (pdus more : List Pdu) (fault : Option PduFault) (association : HeldState) →
        inputs_from association (pdus ++ more) fault ≡ inputs_from association pdus None
        ++ inputs_from (association_from association pdus) more fault }
    ensures association { (pdus more : List Pdu) (association : HeldState) →
        association_from association (pdus ++ more)
        ≡ association_from (association_from association pdus) more }
{}

/// The assembler of an open association was given the PDVs of its PDUs, on the contexts that are
/// agreed on. So of an unfinished message it holds at most 16,384 octets of a command set, or
/// 1,048,576 of a data set, besides the sieve of a C-STORE (`dq_dimse::laws`).
pub fn unfinished_messages_are_short()
    ensures pdvs { (pdus : List Pdu) (agreement : Agreement) (holding : Holding) →
        WasGivenPdus pdus (code.Open agreement holding) →
        (pdvs : List Pdv) × WasGivenPdvs (accepted_by agreement) pdvs holding }
    ensures held { (pdus : List Pdu) (agreement : Agreement) (holding : Holding) →
        WasGivenPdus pdus (code.Open agreement holding) →
        length (octets_gathered holding.gathered) ≤ gathered_limit holding.gathered }
{}

/// The outcome of PDUs after the first that are taken one by one is read off the inputs that they
/// add together.
pub fn pdus_taken_one_by_one()
    ensures { (first : Pdu) (pdus more : List Pdu) (association : HeldState) →
        AssociationAfter (first ∷ pdus) association →
        joined_step association more
        ≡ step_of_inputs (state_of association) (inputs_from association more None) }
{}

/// A prefix of a stream has a prefix of its inputs. An association after its PDUs adds the others,
/// where it has no fault; where it has one, nothing is added.
pub fn a_longer_stream_adds_inputs()
    ensures adds { (stream more : List ℕ) →
        (added : List Input) × (inputs (stream ++ more) ≡ inputs stream ++ added) }
    ensures further { (stream more : List ℕ) (pdus : List Pdu) (association : HeldState) →
        (pdus_in stream).fault ≡ None → AssociationAfter (pdus_in stream).list association →
        (pdus_in (stream ++ more)).list ≡ (pdus_in stream).list ++ pdus →
        inputs (stream ++ more)
        ≡ inputs stream ++ inputs_from association pdus (pdus_in (stream ++ more)).fault }
    ensures fault { (stream more : List ℕ) (fault : PduFault) →
        (pdus_in stream).fault ≡ Some fault → inputs (stream ++ more) ≡ inputs stream }
{
    a_longer_stream_adds();
}
