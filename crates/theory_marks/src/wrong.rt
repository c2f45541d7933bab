//! What goes wrong where a rule is left out.

ghost use Rattle.std.specs.Prelude.{◌≡◌, ◌∷◌, []};
ghost use Rattle.theory_marks.specs.Wrong.{in_line_order, line, overlapping, same_life, short_after_a_fall};

/// With two open Reads of a site: the site had lines 1 and 2.
#[tactic(auto, using(crate::proofs::Wronged::overlapping_reads_lose_lines))]
pub fn overlapping_reads_lose_lines()
    ensures { overlapping.log ≡ line 2 ∷ [] }
{}

/// With marks that don't name a life: the site had lines 1 and 3.
#[tactic(auto, using(crate::proofs::Wronged::marks_without_lives_lose_lines))]
pub fn marks_without_lives_lose_lines()
    ensures { same_life.log ≡ line 1 ∷ line 2 ∷ [] }
{}

/// With counts in line order: the site had lines 1, 2 and 3.
#[tactic(auto, using(crate::proofs::Wronged::counts_in_line_order_lose_lines))]
pub fn counts_in_line_order_lose_lines()
    ensures { in_line_order.log ≡ line 2 ∷ line 3 ∷ [] }
{}

/// With a short Append that names no life: the view had lines 1 and 2.
#[tactic(auto, using(crate::proofs::Wronged::short_appends_without_lives_lose_lines))]
pub fn short_appends_without_lives_lose_lines()
    ensures { short_after_a_fall ≡ line 2 ∷ [] }
{}
