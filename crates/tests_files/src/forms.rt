//! Each form of a line, and whole scripts.

ghost use Rattle.qc_decl.specs.Accepted.{IsAccepted};
ghost use Rattle.qc_decl.specs.Named.{IsNamed};

use crate::reading::{declared, script_of};
use qc_decl::Declaration;
use qc_link::{Link, Rule};
use qc_msg::{Command, Control};
use qc_outside::ArmKind;
use qc_script::{CommandLine, Script, ScriptFault};
use std::alloc::Global;
use std::process::Abort;

/// Phases, each with its controls and its commands.
type Phases<'a> = &'a [(&'a [Control], &'a [CommandLine])];

/// A script has these links and phases.
fn check_script(rt: &impl Abort, script: &Script, links: &[Link], phases: Phases<'_>) {
    assert_eq!(rt; script.links.items(), links);
    assert_eq!(rt; script.phases.items().len(), phases.len());
    for (phase, (controls, commands)) in script.phases.items().iter().zip(phases) {
        assert_eq!(rt; phase.controls.items(), *controls);
        assert_eq!(rt; phase.commands.items(), *commands);
    }
}

/// A text is read as a script with these links and phases.
fn check_text(
    rt: &impl Abort,
    alloc: Global,
    decl: &Declaration,
    text: &str,
    want: (&[Link], Phases<'_>),
) -> Result<(), ScriptFault>
    requires accepted { IsAccepted decl.now }
    requires named { IsNamed decl.now }
{
    let script = script_of(rt, alloc, decl, text)?;
    check_script(rt, &script, want.0, want.1);
    Ok(())
}

fn link(from: Option<u8>, to: Option<u8>, ordinal: Option<u32>, rule: Rule) -> Link {
    Link {
        from,
        to,
        ordinal,
        rule,
    }
}

/// Each text is read as one link, with no phase.
fn check_links(
    rt: &impl Abort,
    alloc: Global,
    decl: &Declaration,
    rows: &[(&str, Link)],
) -> Result<(), ScriptFault>
    requires accepted { IsAccepted decl.now }
    requires named { IsNamed decl.now }
{
    for (text, want) in rows {
        check_text(rt, alloc, decl, text, (&[*want], &[]))?;
    }
    Ok(())
}

#[test]
fn links_are_read(rt: HostRuntime) -> Result<(), ScriptFault> {
    let decl = declared(&rt, rt.alloc())?;
    check_links(
        &rt,
        rt.alloc(),
        &decl,
        &[
            (
                "link s0 c2 3 drop",
                link(Some(0), Some(4), Some(3), Rule::Drop),
            ),
            ("link * * * twice", link(None, None, None, Rule::Twice)),
            (
                "link admin s1 * late",
                link(Some(5), Some(1), None, Rule::Late),
            ),
            (
                "link c0 admin 1 again",
                link(Some(2), Some(5), Some(1), Rule::Again),
            ),
            (
                "link s1 * 99999 drop",
                link(Some(1), None, Some(99_999), Rule::Drop),
            ),
            (
                "link * c1 00007 late",
                link(None, Some(3), Some(7), Rule::Late),
            ),
            (
                "link s0 s0 1 twice",
                link(Some(0), Some(0), Some(1), Rule::Twice),
            ),
        ],
    )
}

fn armed(actor: u8, kind: ArmKind, at: u32) -> Control {
    Control::Armed { actor, kind, at }
}

/// Each text is read as one phase with this control.
fn check_controls(
    rt: &impl Abort,
    alloc: Global,
    decl: &Declaration,
    rows: &[(&str, Control)],
) -> Result<(), ScriptFault>
    requires accepted { IsAccepted decl.now }
    requires named { IsNamed decl.now }
{
    for (text, want) in rows {
        check_text(rt, alloc, decl, text, (&[], &[(&[*want], &[])]))?;
    }
    Ok(())
}

#[test]
fn controls_are_read(rt: HostRuntime) -> Result<(), ScriptFault> {
    let decl = declared(&rt, rt.alloc())?;
    check_controls(
        &rt,
        rt.alloc(),
        &decl,
        &[
            ("phase\ncut s0 c0", Control::Cut(0, 2)),
            ("phase\ncut admin s1", Control::Cut(5, 1)),
            ("phase\nheal c2 s0", Control::Heal(4, 0)),
            ("phase\ncrash s1", Control::Crash(1)),
            ("phase\ncrash admin", Control::Crash(5)),
            ("phase\nrestart c1", Control::Restart(3)),
            ("phase\nstop s0 at 1", armed(0, ArmKind::Stop, 1)),
            ("phase\nstop admin at 00012", armed(5, ArmKind::Stop, 12)),
            ("phase\nfail c1 at 99999", armed(3, ArmKind::Fail, 99_999)),
        ],
    )
}

fn asked(actor: u8, command: Command) -> CommandLine {
    CommandLine { actor, command }
}

/// Each text is read as one phase with this command.
fn check_commands(
    rt: &impl Abort,
    alloc: Global,
    decl: &Declaration,
    rows: &[(&str, CommandLine)],
) -> Result<(), ScriptFault>
    requires accepted { IsAccepted decl.now }
    requires named { IsNamed decl.now }
{
    for (text, want) in rows {
        check_text(rt, alloc, decl, text, (&[], &[(&[], &[*want])]))?;
    }
    Ok(())
}

#[test]
fn commands_are_read(rt: HostRuntime) -> Result<(), ScriptFault> {
    let decl = declared(&rt, rt.alloc())?;
    check_commands(
        &rt,
        rt.alloc(),
        &decl,
        &[
            ("phase\nc0 begin", asked(2, Command::Begin)),
            (
                "phase\nc1 do x W1",
                asked(3, Command::Do { object: 0, inv: 2 }),
            ),
            (
                "phase\nc2 do f TAS",
                asked(4, Command::Do { object: 1, inv: 0 }),
            ),
            ("phase\nc2 commit", asked(4, Command::Commit)),
            ("phase\nc0 abort", asked(2, Command::Abort)),
            (
                "phase\nadmin epoch 2",
                asked(5, Command::Epoch { number: 2 }),
            ),
            (
                "phase\nadmin epoch 00002",
                asked(5, Command::Epoch { number: 2 }),
            ),
        ],
    )
}

/// Each text is read as a script with these links and phases.
fn check_texts(
    rt: &impl Abort,
    alloc: Global,
    texts: &[&str],
    want: (&[Link], Phases<'_>),
) -> Result<(), ScriptFault> {
    let decl = declared(rt, alloc)?;
    check_all(rt, alloc, &decl, texts, want)
}

/// The same over a declaration.
fn check_all(
    rt: &impl Abort,
    alloc: Global,
    decl: &Declaration,
    texts: &[&str],
    want: (&[Link], Phases<'_>),
) -> Result<(), ScriptFault>
    requires accepted { IsAccepted decl.now }
    requires named { IsNamed decl.now }
{
    for text in texts {
        check_text(rt, alloc, decl, text, want)?;
    }
    Ok(())
}

/// The links of a whole script, its first phase's controls and commands, and its
/// last phase's control.
const LINKS: [Link; 2] = [
    Link {
        from: Some(0),
        to: None,
        ordinal: None,
        rule: Rule::Drop,
    },
    Link {
        from: None,
        to: None,
        ordinal: Some(2),
        rule: Rule::Again,
    },
];

const FIRST: [Control; 2] = [
    Control::Cut(0, 2),
    Control::Armed {
        actor: 1,
        kind: ArmKind::Fail,
        at: 4,
    },
];

const ASKED: [CommandLine; 3] = [
    CommandLine {
        actor: 2,
        command: Command::Begin,
    },
    CommandLine {
        actor: 5,
        command: Command::Epoch { number: 2 },
    },
    CommandLine {
        actor: 2,
        command: Command::Do { object: 1, inv: 1 },
    },
];

const LAST: [Control; 1] = [Control::Heal(2, 0)];

#[test]
fn whole_scripts_are_read(rt: HostRuntime) -> Result<(), ScriptFault> {
    check_texts(
        &rt,
        rt.alloc(),
        &[
            "link s0 * * drop\nlink * * 2 again\nphase\ncut s0 c0\nfail s1 at 4\nc0 begin\nadmin epoch 2\n\
             c0 do f Reset\nphase\nphase\nheal c0 s0",
            "link s0 * * drop\r\nlink * * 2 again\r\nphase\r\ncut s0 c0\r\nfail s1 at 4\r\nc0 begin\r\n\
             admin epoch 2\r\nc0 do f Reset\r\nphase\r\nphase\r\nheal c0 s0\r",
            "# first\n\nlink s0 * * drop\n#phase\nlink * * 2 again\n\r\n\nphase\n# crash s0\ncut s0 c0\n\
             fail s1 at 4\n\nc0 begin\nadmin epoch 2\nc0 do f Reset\n#\nphase\nphase\nheal c0 s0\n\n#",
        ],
        (&LINKS, &[(&FIRST, &ASKED), (&[], &[]), (&LAST, &[])]),
    )
}

#[test]
fn scripts_may_have_no_phase(rt: HostRuntime) -> Result<(), ScriptFault> {
    check_texts(
        &rt,
        rt.alloc(),
        &["", "\n", "\r\n", "\r", "# nothing", "#", "# \u{e9}\n\n"],
        (&[], &[]),
    )
}
