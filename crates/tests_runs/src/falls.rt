//! What waits for an actor through falls, computed on short histories: copies
//! and lost requests that are gone, and lines that have nothing to do.

ghost use Rattle.std.specs.Prelude.{◌≡◌, ◌++◌, [], ◌∷◌, Some, None};
ghost use Rattle.qc_decl.specs.One.{three};
ghost use Rattle.qc_msg.specs.declared.step.Control.TheVariants.{Crash, Restart};
ghost use Rattle.qc_msg.specs.declared.step.Fall.TheVariants.{Disk, Stop};
ghost use Rattle.qc_msg.specs.declared.step.Input.TheVariants.{Got, Lost};
ghost use Rattle.qc_script.specs.Ready.{controls_left, ready};
ghost use Rattle.tests_runs.specs.Falls.{asked, asking, asking_in_vain, asking_lately, asking_who_is_down, begun};
ghost use Rattle.tests_runs.specs.Falls.{crash_and_restart, fell, fell_by_script, of_lines, request_to, rose};
ghost use Rattle.tests_runs.specs.Falls.{rose_in_vain};

/// A request is lost where its receiver falls before it answered, or is down as
/// it is sent; no copy of it comes to a site that is down. To a client that fell
/// nothing is told to be lost.
pub fn requests_are_lost_by_falls()
    ensures receiver { ready three asking 3 (begun 1 ∷ asked ++ fell 1 Stop ∷ []) ≡ Some (Lost 1) }
    ensures copy { ready three asking 1 (begun 1 ∷ asked) ≡ Some (Got (request_to 1)) }
    ensures gone { ready three asking 1 (begun 1 ∷ asked ++ fell 1 Stop ∷ []) ≡ None }
    ensures down { ready three asking_who_is_down 3 (begun 1 ∷ fell_by_script 1 ∷ asked) ≡ Some (Lost 1) }
    ensures never { ready three asking_who_is_down 1 (begun 1 ∷ fell_by_script 1 ∷ asked) ≡ None }
    ensures sender { ready three asking_in_vain 3 (begun 1 ∷ asked) ≡ Some (Lost 0) }
    ensures fallen { ready three asking_in_vain 3 (begun 1 ∷ asked ++ fell 3 Stop ∷ []) ≡ None }
{}

/// A late copy comes to a site that is up again as it is ready, and is gone where
/// the site is down then.
pub fn late_copies_come_to_who_is_up()
    ensures again { ready three (asking_lately crash_and_restart) 1
        (begun 1 ∷ asked ++ (begun 2 ∷ fell_by_script 1 ∷ rose 1)) ≡ Some (Got (request_to 1)) }
    ensures gone { ready three (asking_lately (Crash 1 ∷ [])) 1
        (begun 1 ∷ asked ++ (begun 2 ∷ fell_by_script 1 ∷ [])) ≡ None }
    ensures in_vain { ready three (asking_lately crash_and_restart) 1
        (begun 1 ∷ asked ++ (begun 2 ∷ fell_by_script 1 ∷ rose_in_vain 1)) ≡ None }
{}

/// No line restarts an actor that is up, or crashes one that is down: such a line
/// acts without a step, also where an actor rises in vain before it. A line that
/// has something to do stays, and no command is ready before it acted.
pub fn lines_without_effect_have_no_step()
    ensures up { controls_left (of_lines (Restart 1 ∷ Crash 2 ∷ [])) (begun 1 ∷ []) ≡ Crash 2 ∷ [] }
    ensures down { controls_left (of_lines (Crash 2 ∷ Crash 2 ∷ Crash 1 ∷ [])) (begun 1 ∷ fell_by_script 2 ∷ [])
        ≡ Crash 1 ∷ [] }
    ensures risen { controls_left (of_lines (Crash 1 ∷ Restart 1 ∷ Restart 1 ∷ []))
        (begun 1 ∷ fell_by_script 1 ∷ rose 1) ≡ [] }
    ensures once_more { controls_left (of_lines (Crash 1 ∷ Restart 1 ∷ Restart 1 ∷ []))
        (begun 1 ∷ fell_by_script 1 ∷ rose_in_vain 1) ≡ Restart 1 ∷ [] }
    ensures in_vain { controls_left (of_lines (Crash 1 ∷ Restart 1 ∷ Crash 1 ∷ []))
        (begun 1 ∷ fell_by_script 1 ∷ rose_in_vain 1) ≡ [] }
    ensures unopened { controls_left (of_lines (Crash 1 ∷ Restart 1 ∷ Crash 1 ∷ []))
        (begun 1 ∷ fell_by_script 1 ∷ fell 1 Disk ∷ []) ≡ [] }
    ensures between { ready three (of_lines (Crash 1 ∷ [])) 3 (begun 1 ∷ []) ≡ None }
{}
