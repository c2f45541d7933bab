//! The built-in declarations, by their names.

use qc_decl::built_in;
use std::alloc::Global;

/// How many sites and clients a declaration has, and how much weight a read of
/// its object needs; `None` where none is built in.
fn found(alloc: Global, name: &str) -> Result<Option<(u8, u8, u16)>, &'static str> {
    match built_in(alloc, name) {
        Ok(Some(decl)) => Ok(Some((decl.sites, decl.clients, decl.read_need(1, 0, 0)))),
        Ok(None) => Ok(None),
        Err(_) => Err("no memory"),
    }
}

#[test]
fn two_are_built_in(rt: HostRuntime) {
    for (name, want) in [
        ("@one", Some((1, 1, 1))),
        ("@three", Some((3, 3, 2))),
        ("@two", None),
        ("one", None),
        ("@One", None),
        ("@one ", None),
        ("@three ", None),
        ("", None),
    ] {
        assert!(rt; found(rt.alloc(), name) == Ok(want), "at {name}");
    }
}
