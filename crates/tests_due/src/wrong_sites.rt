//! Wrong histories of sites, each refused.

ghost use Rattle.std.specs.Prelude.{[]};
ghost use Rattle.qc_decl.specs.One.{three};
ghost use Rattle.qc_msg.specs.Deeds.{deeds};
ghost use Rattle.qc_promise.specs.SiteDue.{AreDue};
ghost use Rattle.tests_due.specs.WrongRefusals as wrong_refusals;
ghost use Rattle.tests_due.specs.WrongPosts as wrong_posts;

/// These aren't due: sites that refuse what they are to grant, or grant what they are to refuse.
pub fn wrong_refusals_are_refused()
    ensures stale { AreDue three [] (deeds 0 [] wrong_refusals.stale) → ⊥ }
    ensures held_off { AreDue three [] (deeds 0 [] wrong_refusals.held_off) → ⊥ }
    ensures lets_in { AreDue three [] (deeds 1 [] wrong_refusals.lets_in) → ⊥ }
    ensures lets_append_in { AreDue three [] (deeds 1 [] wrong_refusals.lets_append_in) → ⊥ }
    ensures keeps_out { AreDue three [] (deeds 1 [] wrong_refusals.keeps_out) → ⊥ }
    ensures other_holder { AreDue three [] (deeds 1 [] wrong_refusals.other_holder) → ⊥ }
    ensures asks_nobody { AreDue three [] (deeds 1 [] wrong_refusals.asks_nobody) → ⊥ }
    ensures closed { AreDue three [] (deeds 0 [] wrong_refusals.closed) → ⊥ }
    ensures behind { AreDue three [] (deeds 0 [] wrong_refusals.behind) → ⊥ }
    ensures restarted { AreDue three [] (deeds 0 [] wrong_refusals.restarted) → ⊥ }
{}

/// These aren't due: sites that answer or write something else than is due.
pub fn wrong_posts_are_refused()
    ensures promises_to_a_read { AreDue three [] (deeds 0 [] wrong_posts.promises_to_a_read) → ⊥ }
    ensures lines_left_out { AreDue three [] (deeds 1 [] wrong_posts.lines_left_out) → ⊥ }
    ensures clock_left_behind { AreDue three [] (deeds 1 [] wrong_posts.clock_left_behind) → ⊥ }
    ensures answers_nobody { AreDue three [] (deeds 0 [] wrong_posts.answers_nobody) → ⊥ }
    ensures answers_twice { AreDue three [] (deeds 0 [] wrong_posts.answers_twice) → ⊥ }
    ensures unkept { AreDue three [] (deeds 0 [] wrong_posts.unkept) → ⊥ }
    ensures kept_without_its_line { AreDue three [] (deeds 0 [] wrong_posts.kept_without_its_line) → ⊥ }
    ensures done_without_a_record { AreDue three [] (deeds 0 [] wrong_posts.done_without_a_record) → ⊥ }
    ensures done_though_aborted { AreDue three [] (deeds 0 [] wrong_posts.done_though_aborted) → ⊥ }
{}
