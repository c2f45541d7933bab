//! Wrong histories, and what the definitions take and refuse of them: the
//! contracts of functions with nothing to do.

ghost use Rattle.std.specs.Prelude.{List, [], ◌∷◌};
ghost use Rattle.qc_decl.specs.One.{three};
ghost use Rattle.qc_msg.specs.Steps.{Entry};
ghost use Rattle.qc_msg.specs.declared.record.Record.TheVariants.{Commit};
ghost use Rattle.qc_msg.specs.declared.reply.Reply.TheVariants.{Response, Unknown};
ghost use Rattle.laws_guarantees.specs.WrongOrder.{line, read, reads, writes};
ghost use Rattle.laws_votes.specs.Ordered.{DependsOn, IsToldBy};
ghost use Rattle.laws_votes.specs.Replies.{IsToldAtFall};
ghost use Rattle.laws_votes.specs.WrongPrecedence.{all_fit, fell_bare, fell_later, reader_fell, writer_fell};
ghost use Rattle.qc_promise.specs.Account.{Current};
ghost use Rattle.qc_script.specs.declared.script.Script.{Script};

/// A record that was being written as its client fell, and didn't rise, is no
/// committed one: nothing depends on its lines, and it depends on none. One that
/// rose is as if it had been written.
pub fn records_that_never_rose_are_refused()
    ensures writer { DependsOn three (writer_fell (Commit writes ∷ [])) reads read line }
    ensures lost { DependsOn three (writer_fell []) reads read line → ⊥ }
    ensures reader { DependsOn three (reader_fell (Commit reads ∷ [])) reads read line }
    ensures untold { (script : Script) (t : Current) → IsToldBy all_fit three script (reader_fell []) reads read t → ⊥ }
{}

/// No client that falls behind a reply was told another one than Unknown, nor does
/// it do anything between, nor was it writing no record.
pub fn other_replies_at_falls_are_refused()
    ensures other { (script : Script) (h : List Entry) → IsToldAtFall all_fit three script h 4 [] (Response 0) → ⊥ }
    ensures later { (script : Script) → IsToldAtFall all_fit three script fell_later 4 [] Unknown → ⊥ }
    ensures bare { (script : Script) → IsToldAtFall all_fit three script fell_bare 4 [] Unknown → ⊥ }
{}
