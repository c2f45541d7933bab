//! How results, sites and summaries read, each line computed from its definition.

ghost use Rattle.std.specs.Prelude.{◌≡◌, ◌∷◌, ◌++◌, [], List, None, Some, codes};
ghost use Rattle.qc_decl.specs.declared.declaration.Declaration.{Declaration};
ghost use Rattle.qc_decl.specs.One.{three};
ghost use Rattle.qc_entry.specs.declared.line.Line.{Line};
ghost use Rattle.qc_entry.specs.declared.line.ReadLock.{ReadLock};
ghost use Rattle.qc_msg.specs.Steps.{by};
ghost use Rattle.qc_msg.specs.declared.record.Record.TheVariants as records;
ghost use Rattle.qc_msg.specs.declared.reply.Half.TheVariants as halves;
ghost use Rattle.qc_msg.specs.declared.reply.Reply.TheVariants as replies;
ghost use Rattle.qc_msg.specs.declared.reply.AbortCause.TheVariants as whys;
ghost use Rattle.qc_msg.specs.declared.step.Command.{Command};
ghost use Rattle.qc_msg.specs.declared.step.Fall.TheVariants as falls;
ghost use Rattle.qc_msg.specs.declared.step.Step.TheVariants as steps;
ghost use Rattle.qc_msg.specs.Payloads.{start_with};
ghost use Rattle.qc_stamp.specs.declared.stamp.Stamp.{Stamp};
ghost use Rattle.qc_stamp.specs.declared.stamp.TxId.{TxId};
ghost use Rattle.qc_text.specs.Results.{reply_text};
ghost use Rattle.qc_text.specs.Sites.{site_line};
ghost use Rattle.qc_text.specs.Summary.{summary_of};

/// A reply reads so, whatever the command that it is told for; a response is
/// the name that the declaration gives it.
pub fn replies_read_so()
    ensures began { (decl : Declaration) (command : Command)
        → reply_text decl command (replies.Began (record { client = 0; life = 1; number = 2 })) ≡ codes "0.1.2" }
    ensures already { (decl : Declaration) (command : Command)
        → reply_text decl command (replies.Already (record { client = 0; life = 1; number = 2 }))
        ≡ codes "! already 0.1.2" }
    ensures conflict { (decl : Declaration) (command : Command)
        → reply_text decl command (replies.Conflict (record { client = 0; life = 1; number = 2 }) 3)
        ≡ codes "! conflict 0.1.2 s3" }
    ensures closed { (decl : Declaration) (command : Command)
        → reply_text decl command (replies.Closed 2 3) ≡ codes "! closed 2 s3" }
    ensures quorum { (decl : Declaration) (command : Command)
        → reply_text decl command (replies.Quorum halves.Append 1 2) ≡ codes "! quorum append 1 of 2" }
    ensures committed { (decl : Declaration) (command : Command)
        → reply_text decl command (replies.Committed (record { clock = 4; client = 1 })) ≡ codes "4.1" }
    ensures restarted { (decl : Declaration) (command : Command)
        → reply_text decl command (replies.Aborted (whys.Restarted 1 2 3)) ≡ codes "! restarted s1 2 3" }
    ensures no_answer { (decl : Declaration) (command : Command)
        → reply_text decl command (replies.Aborted (whys.NoAnswer 1)) ≡ codes "! no answer s1" }
    ensures order { (decl : Declaration) (command : Command)
        → reply_text decl command (replies.Order 1) ≡ codes "! order 1" }
    ensures in_doubt { (decl : Declaration) (command : Command)
        → reply_text decl command (replies.InDoubt (record { client = 0; life = 1; number = 2 }) 3)
        ≡ codes "! in doubt 0.1.2 s3" }
    ensures moved { (decl : Declaration) (command : Command)
        → reply_text decl command (replies.Moved 3 7) ≡ codes "closed s0 s1 installed s0 s1 s2" }
    ensures moved_nobody { (decl : Declaration) (command : Command)
        → reply_text decl command (replies.Moved 0 0) ≡ codes "closed - installed -" }
{}

/// A site is down from its own fall to its own rise. That it rises is its own
/// record, and another's fall isn't its own. As it closes an epoch it holds what
/// it has promised; with one that it installs nothing, and it has that one's
/// lines.
pub fn sites_read_so()
    ensures began { site_line [] 0 ≡ codes "s0 life 1 epoch 1 lines 0 held 0\n" }
    ensures fell { site_line (by 0 (steps.Fell falls.Script None ∷ [])) 0 ≡ codes "s0 down\n" }
    ensures another_fell { site_line (by 0 (steps.Fell falls.Script None ∷ [])) 1
        ≡ codes "s1 life 1 epoch 1 lines 0 held 0\n" }
    ensures damaged { site_line (by 0 (steps.Fell falls.Disk None ∷ steps.Damaged 7 ∷ [])) 0 ≡ codes "s0 down\n" }
    ensures rose { site_line (by 0 (steps.Fell falls.Stop None ∷ steps.Rose [] ∷ steps.Wrote records.Life ∷ [])) 0
        ≡ codes "s0 life 2 epoch 1 lines 0 held 0\n" }
    ensures fell_again { site_line (by 0 (steps.Fell falls.Stop None ∷ steps.Rose [] ∷ steps.Fell falls.Script None
        ∷ [])) 0 ≡ codes "s0 down\n" }
    ensures closed { (tx : TxId) (lock : ReadLock) → site_line (by 0 (steps.Wrote (records.Prepare (record {
      tx = tx;
      epoch = 1;
      locks = lock ∷ [];
      own = [];
      lines = [];
    })) ∷ steps.Wrote (records.Close 2) ∷ [])) 0
        ≡ codes "s0 life 2 epoch 1 lines 0 held 1\n" }
    ensures installed { (tx : TxId) (lock : ReadLock) (line : Line) → site_line (by 0 (steps.Wrote (records.Prepare
        (record { tx = tx; epoch = 1; locks = lock ∷ []; own = []; lines = [] }))
        ∷ steps.Wrote (records.Install (start_with 2 5 (line ∷ []))) ∷ [])) 0
        ≡ codes "s0 life 1 epoch 2 lines 1 held 0\n" }
{}

/// A summary of a load reads so. Of `@three`, c0 is actor 3. Two transactions
/// committed, the one with the greater stamp first, and one aborted; an operation
/// without a response doesn't count.
pub fn summaries_read_so()
    ensures nothing { summary_of three 1 0 []
        ≡ codes "load 1 0\ncommitted 0\naborted 0\noperations 0\nwrites 0\nones 0\nlast -\n" }
    ensures some { summary_of three 3 7 (by 3 (steps.Wrote (records.Commit (record {
      stamp = record { clock = 2; client = 0 };
      tx = record { client = 0; life = 1; number = 1 };
      ops = record { object = 0; inv = 2; resp = Some 2 } ∷ record { object = 0; inv = 0; resp = Some 1 } ∷ [];
    })) ∷ steps.Told (replies.Committed (record { clock = 2; client = 0 })) ∷ [])
        ++ (by 4 (steps.Wrote (records.Commit (record {
          stamp = record { clock = 1; client = 1 };
          tx = record { client = 1; life = 1; number = 1 };
          ops = record { object = 0; inv = 0; resp = Some 0 } ∷ record { object = 0; inv = 1; resp = None } ∷ [];
        })) ∷ []) ++ by 5 (steps.Told (replies.Aborted whys.Doomed) ∷ [])))
        ≡ codes "load 3 7\ncommitted 2\naborted 1\noperations 3\nwrites 1\nones 1\nlast 2.0\n" }
{}
