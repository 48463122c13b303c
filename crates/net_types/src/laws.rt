//! Laws of the definitions: where a rule of `specs/` is computed, it is also a set or a relation in the words of the
//! subject, and both agree. Each function here is a statement; its body is empty.

ghost use Rattle.std.specs.Prelude.{◌≡◌, ◌≢◌, ◌≤◌, ◌↔◌, ℕ, List, [], Some, IsNone, IsTrue, Contains, map, filter_map, ◌==◌};
ghost use Rattle.hdr_bits.specs.declared.header.Header.{Header};
ghost use Rattle.hdr_bits.specs.HeaderBits.{header_of};
ghost use Rattle.net_types.specs.declared.config.Config.{Config};
ghost use Rattle.net_types.specs.declared.config.Route.{Route};
ghost use Rattle.net_types.specs.declared.label.Outcome.{Outcome};
ghost use Rattle.net_types.specs.declared.network.Hop.{Hop};
ghost use Rattle.net_types.specs.declared.network.Place.{Place};
ghost use Rattle.net_types.specs.declared.network.Rib.{Rib};
ghost use Rattle.net_types.specs.declared.network.State.{State};
ghost use Rattle.net_types.specs.declared.question.Answer.{Answer};
ghost use Rattle.net_types.specs.declared.question.Question.{Question};
ghost use Rattle.net_types.specs.Routes.{IsValid, valid, IsInstalled, installed, IsChoice, hops};
ghost use Rattle.net_types.specs.World.{World};
ghost use Rattle.net_types.specs.Moves.{moves};
ghost use Rattle.net_types.specs.Order.{in_order, outcome_cmp, IsLabel};
ghost use Rattle.net_types.specs.Walks.{IsWalk, states_after, End, IsEnd, ends, end_of, outcome_of, state_at, SameEnds, HasEnd, label};
ghost use Rattle.net_types.specs.Visits.{Visits};
ghost use Rattle.net_types.specs.SameWalks.{SameWalksUnder};
ghost use Rattle.net_types.specs.Edits.{DiffersOnlyAt, AreEdited};
ghost use Rattle.net_types.specs.Report.{same_label, affected};
ghost use Rattle.net_types.specs.Questions.{IsAnswer, Reaches, Loops, HasOutcomeAt};

/// The computed valid routes are the least set that the two rules of a valid route make.
pub fn valid_is_least()
    ensures { (c : Config) (r : Route) → Contains (valid c) r ↔ IsValid c r }
{}

/// The computed installed routes are the valid ones of the smallest distance among those of their prefix.
pub fn installed_is_best()
    ensures { (c : Config) (r : Route) → Contains (installed c) r ↔ IsInstalled c r }
{}

/// The computed choices of a lookup are the union over the routes of the longest prefix.
pub fn hops_are_choices()
    ensures { (rib : Rib) (a : ℕ) (hop : Hop) → Contains (hops rib a) hop ↔ IsChoice rib.routes rib.count a hop }
{}

/// The computed states after some moves are where the walks of so many moves lead.
pub fn states_are_walks()
    ensures { (w : World) (n : ℕ) (s u : State) → Contains (states_after w n s) u ↔ IsWalk w n s u }
{}

/// The computed ends are those of the walks that the TTL allows.
pub fn ends_are_ends_of_walks()
    ensures { (w : World) (t : ℕ) (s : State) (e : End) → Contains (ends w t s) e ↔ IsEnd w t s e }
{}

/// A label has exactly the outcomes of the header's ends, in order, each once, and under a TTL of at least 1 at least
/// one.
pub fn labels_have_outcomes()
    ensures outcomes { (w : World) (t : ℕ) (p : Place) (h : Header) (o : Outcome) → Contains (label w t p h) o ↔ HasEnd w t p h o }
    ensures some { (w : World) (t : ℕ) (p : Place) (h : Header) → 1 ≤ t → IsLabel (label w t p h) }
{}

/// Two labels of one header are equal exactly where its sets of ends are: since no rule changes the protocol or the
/// flags, nothing is lost by writing a last header relative to the first.
pub fn labels_tell_ends()
    ensures { (old new : World) (t : ℕ) (p : Place) (h : Header) → (label old t p h ≡ label new t p h) ↔ SameEnds old new t p h }
{}

/// A header is affected exactly where its labels differ, and then it has that pair; that labels are equal is decided by
/// a test.
pub fn affected_is_difference()
    ensures same { (old new : World) (t : ℕ) (p : Place) (x : ℕ) → IsNone (affected old new t p x) ↔ (label old t p (header_of x) ≡ label new t p (header_of x)) }
    ensures other { (old new : World) (t : ℕ) (p : Place) (x : ℕ) → label old t p (header_of x) ≢ label new t p (header_of x) → affected old new t p x ≡ Some (label old t p (header_of x), label new t p (header_of x)) }
    ensures test { (a b : List Outcome) → IsTrue (same_label a b) ↔ (a ≡ b) }
{}

/// Without segments and under a TTL of at least 1 a packet ends at the device where it enters, by that device's moves.
pub fn alone_is_one_device()
    ensures { (w : World) → w.links.segments ≡ [] → (t : ℕ) (p : Place) (h : Header) → 1 ≤ t → label w t p h ≡ in_order outcome_cmp (map (outcome_of h) (filter_map (end_of (t == 1)) (moves w p h))) }
{}

/// A question has one answer.
pub fn answers_are_unique()
    ensures { (w : World) (t : ℕ) (q : Question) (a b : Answer) → IsAnswer w t q a → IsAnswer w t q b → a ≡ b }
{}

/// A header reaches a place exactly where an outcome of its label is at that place.
pub fn reaches_by_label()
    ensures { (w : World) (t : ℕ) (p q : Place) (h : Header) → Reaches w t p q h ↔ HasOutcomeAt q (label w t p h) }
{}

/// A header that loops has a walk of each number of moves; and what loops under a TTL does so under every greater one.
pub fn loops_last()
    ensures walks { (w : World) (t : ℕ) (p : Place) (h : Header) → Loops w t p h → (n : ℕ) → (u : State) × IsWalk w n (state_at p h) u }
    ensures longer { (w : World) (t s : ℕ) (p : Place) (h : Header) → t ≤ s → Loops w t p h → Loops w s p h }
{}

/// A header that walks alike in two networks has the same label in both, loops in both or in neither, and visits the same
/// devices, under each TTL up to the one for which it does.
pub fn same_walks_tell()
    ensures labels { (old new : World) (t : ℕ) (p : Place) (h : Header) → SameWalksUnder old new t p h → (s : ℕ) → s ≤ t → label old s p h ≡ label new s p h }
    ensures loops { (old new : World) (t : ℕ) (p : Place) (h : Header) → SameWalksUnder old new t p h → (s : ℕ) → s ≤ t → Loops old s p h ↔ Loops new s p h }
    ensures visits { (old new : World) (t : ℕ) (p : Place) (h : Header) → SameWalksUnder old new t p h → (s : ℕ) → s ≤ t → (device : ℕ) → Visits old s p h device ↔ Visits new s p h device }
{}

/// A header that doesn't visit the one device in which two networks differ walks alike in both.
pub fn unvisited_walks_stay()
    ensures { (old new : World) (device : ℕ) → DiffersOnlyAt old new device → (t : ℕ) (p : Place) (h : Header) → (Visits old t p h device → ⊥) → SameWalksUnder old new t p h }
{}

/// Two networks with the same links differ only in the device of a name, where their devices are the same one for one, but
/// for those of that name, which have the same interfaces.
pub fn edited_differs_there_only()
    ensures { (old new : World) (device : ℕ) → old.links ≡ new.links → AreEdited device old.network.devices new.network.devices → DiffersOnlyAt old new device }
{}
