//! Sinks that fail: what was put of a reply, and what was stored before it.

use crate::cases::{Case, is_answered};
use crate::files::BEFORE;
use fsmd_replies::answer::Status;
use std::alloc::Global;

const REPLY: &str = "equivalent: 3 nodes\n";

const CERTIFICATE: &str =
    r#"{"format":1,"nodes":[{"conds":[],"equations":{"L.x":"0","L.y":"0","R.a":"L.a","R.b":"L.b","R.c":"L.c","R.x":"0","R.y":"0"},"left":"start","mode":"left","rank":0,"right":"start"},{"conds":[],"equations":{"L.x":"L.a + L.b","L.y":"0","R.a":"L.a","R.b":"L.b","R.c":"L.c","R.x":"0","R.y":"0"},"left":"s1","mode":"both","rank":0,"right":"start"},{"conds":[],"equations":{"L.x":"L.a + L.b","R.a":"L.a","R.b":"L.b","R.c":"L.c","R.x":"L.a + L.b","R.y":"L.y"},"left":"done","mode":"end","rank":0,"right":"done"}]}"#;

// Whether a check whose sink takes so many bytes and then none puts so much of its reply. The certificate is stored before.
fn is_cut(alloc: Global, bytes: u64) -> bool {
    let case = Case {
        words: "check before.fsmd behind.fsmd --cert c.json",
        fails: &[],
        takes: &[bytes, 0],
        reply: REPLY.get(..bytes as usize).unwrap_or(""),
        status: Status::Fault,
        stored: CERTIFICATE,
    };
    is_answered(alloc, &case)
}

#[test]
fn sinks_that_fail_at_each_byte(rt: HostRuntime) {
    for bytes in 0..20 {
        assert!(rt; is_cut(rt.alloc(), bytes), "{bytes} bytes");
    }
}

// Nothing is put and nothing stored where the first call of the files and that of the sink fail.
const NOTHING: Case = Case {
    words: "check before.fsmd behind.fsmd --cert c.json",
    fails: &[0, 1],
    takes: &[0],
    reply: "",
    status: Status::Fault,
    stored: BEFORE,
};

// A reply to `check` without a certificate is cut at the byte where the sink fails.
const A_PART: Case = Case {
    words: "check a.fsmd b.fsmd",
    fails: &[],
    takes: &[5, 0],
    reply: "equiv",
    status: Status::Fault,
    stored: BEFORE,
};

#[test]
fn sinks_that_fail(rt: HostRuntime) {
    assert!(rt; is_answered(rt.alloc(), &NOTHING) && is_answered(rt.alloc(), &A_PART));
}
