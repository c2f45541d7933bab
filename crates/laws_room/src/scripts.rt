//! Some scripts have room, and others don't: the contract of a function with
//! nothing to do. Without the first the laws on such scripts would speak of
//! none.

ghost use Rattle.std.specs.Prelude.{◌≤◌};
ghost use Rattle.qc_decl.specs.Limits.{most_committed_operations};
ghost use Rattle.qc_decl.specs.declared.declaration.Declaration.{Declaration};
ghost use Rattle.qc_script.specs.declared.script.Script.{Script};
ghost use Rattle.laws_room.specs.Asked.{dos_of};
ghost use Rattle.laws_room.specs.Room.{HasRoom};
ghost use Rattle.laws_room.specs.Scripts.{doubled, one_site, small};

/// One transaction of one operation has room. Under a rule of links it doesn't,
/// nor where as many operations are asked as may be committed.
#[tactic(auto, using(crate::proofs::Examples::has_room, crate::proofs::Examples::none_under_a_link, crate::proofs::Examples::none_for_so_many))]
pub fn scripts_with_room_are_told_apart()
    ensures taken { HasRoom one_site small }
    ensures link { HasRoom one_site doubled → ⊥ }
    ensures many { (decl : Declaration) (script : Script) → most_committed_operations ≤ dos_of script
        → HasRoom decl script → ⊥ }
{}
