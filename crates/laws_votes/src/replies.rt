//! Replies in every run with falls: the contracts of functions with nothing to
//! do.

ghost use Rattle.std.specs.Prelude.{◌≡◌, ℕ, true, List, [], ◌∷◌, ◌++◌, Some, None};
ghost use Rattle.qc_decl.specs.Actors.{is_client};
ghost use Rattle.qc_msg.specs.Steps.{Entry, marked};
ghost use Rattle.qc_msg.specs.declared.reply.Reply.{Reply};
ghost use Rattle.qc_msg.specs.declared.reply.Reply.TheVariants.{Absent, Response};
ghost use Rattle.qc_msg.specs.declared.step.Step.TheVariants.{Told};
ghost use Rattle.laws_guarantees.specs.Ordered.{Records};
ghost use Rattle.laws_votes.specs.Replies.{EndsTurn};
ghost use Rattle.laws_turns.specs.EachRun.{OfEachKeptRun};

use qc_script::ConductWithFalls;

/// A client's reply ends its turn: the entries up to it are a run, in which the
/// client has no open input. Only Unknown is told at a fall: the fall comes right
/// behind it, with the commit record that was being written.
pub fn replies_end_their_turns_through_falls<C: ConductWithFalls>()
    ensures { OfEachKeptRun C.fits (λ decl script h open_inputs. (before after : List Entry) (a : ℕ) (reply : Reply)
        → is_client decl a ≡ true → h ≡ before ++ marked a (Told reply) ∷ after
        → EndsTurn C.fits decl script h a before reply) }
{}

/// With each Response and each Absent of a client an operation is recorded, which
/// was answered from the view that its client has then, and still has behind it.
/// So behind the reply is the first moment of which the ordering lemma speaks,
/// and the view is the one that the operation was answered from.
pub fn replies_record_operations_through_falls<C: ConductWithFalls>()
    ensures response { OfEachKeptRun C.fits (λ decl script h open_inputs. (before after : List Entry) (a resp : ℕ)
        → is_client decl a ≡ true → h ≡ before ++ marked a (Told (Response resp)) ∷ after
        → Records decl a before (Response resp) (Some resp)) }
    ensures absent { OfEachKeptRun C.fits (λ decl script h open_inputs. (before after : List Entry) (a : ℕ)
        → is_client decl a ≡ true → h ≡ before ++ marked a (Told Absent) ∷ after → Records decl a before Absent None) }
{}
