//! Files that fail: each call of a command in turn, and how many calls a command makes.

use crate::cases::{Case, is_answered};
use crate::files::BEFORE;
use fsmd_replies::answer::Status;

// Words, the calls that fail, the reply and the status. The files are loaded in the order of the words, but for a chain each
// machine before the certificate that leads to it. The first rows have the calls that fail one after the other; none is made
// behind one that fails. In the others the call that fails is the first that is not made: none is behind a text that is
// refused, nor behind a link that does not hold, and no certificate is loaded of machines with other interfaces.
static ANSWERS: [(&str, &[u64], &str, Status); 44] = [
    (
        "check a.fsmd b.fsmd",
        &[0, 1],
        "fault: cannot read a.fsmd\n",
        Status::Fault,
    ),
    (
        "check a.fsmd b.fsmd",
        &[1, 2],
        "fault: cannot read b.fsmd\n",
        Status::Fault,
    ),
    (
        "check a.fsmd b.fsmd --cert c.json",
        &[0, 1],
        "fault: cannot read a.fsmd\n",
        Status::Fault,
    ),
    (
        "check a.fsmd b.fsmd --cert c.json",
        &[1, 2],
        "fault: cannot read b.fsmd\n",
        Status::Fault,
    ),
    (
        "check a.fsmd b.fsmd --cert c.json",
        &[2, 3],
        "fault: cannot write c.json\n",
        Status::Fault,
    ),
    (
        "verify a.fsmd b.fsmd c.json",
        &[0, 1],
        "fault: cannot read a.fsmd\n",
        Status::Fault,
    ),
    (
        "verify a.fsmd b.fsmd c.json",
        &[1, 2],
        "fault: cannot read b.fsmd\n",
        Status::Fault,
    ),
    (
        "verify a.fsmd b.fsmd c.json",
        &[2, 3],
        "fault: cannot read c.json\n",
        Status::Fault,
    ),
    (
        "run a.fsmd i.json",
        &[0, 1],
        "fault: cannot read a.fsmd\n",
        Status::Fault,
    ),
    (
        "run a.fsmd i.json",
        &[1, 2],
        "fault: cannot read i.json\n",
        Status::Fault,
    ),
    (
        "replay a.fsmd b.fsmd i.json",
        &[0, 1],
        "fault: cannot read a.fsmd\n",
        Status::Fault,
    ),
    (
        "replay a.fsmd b.fsmd i.json",
        &[1, 2],
        "fault: cannot read b.fsmd\n",
        Status::Fault,
    ),
    (
        "replay a.fsmd b.fsmd i.json",
        &[2, 3],
        "fault: cannot read i.json\n",
        Status::Fault,
    ),
    (
        "shrink a.fsmd b.fsmd i.json",
        &[0, 1],
        "fault: cannot read a.fsmd\n",
        Status::Fault,
    ),
    (
        "shrink a.fsmd b.fsmd i.json",
        &[1, 2],
        "fault: cannot read b.fsmd\n",
        Status::Fault,
    ),
    (
        "shrink a.fsmd b.fsmd i.json",
        &[2, 3],
        "fault: cannot read i.json\n",
        Status::Fault,
    ),
    (
        "chain a.fsmd c.json b.fsmd",
        &[0, 1],
        "fault: cannot read a.fsmd\n",
        Status::Fault,
    ),
    (
        "chain a.fsmd c.json b.fsmd",
        &[1, 2],
        "link 1: fault: cannot read b.fsmd\n",
        Status::Fault,
    ),
    (
        "chain a.fsmd c.json b.fsmd",
        &[2, 3],
        "link 1: fault: cannot read c.json\n",
        Status::Fault,
    ),
    (
        "fmt a.fsmd",
        &[0, 1],
        "fault: cannot read a.fsmd\n",
        Status::Fault,
    ),
    (
        "cuts a.fsmd",
        &[0, 1],
        "fault: cannot read a.fsmd\n",
        Status::Fault,
    ),
    (
        "compile p.prog",
        &[0, 1],
        "fault: cannot read p.prog\n",
        Status::Fault,
    ),
    (
        "schedule idle.fsmd u.json",
        &[0, 1],
        "fault: cannot read idle.fsmd\n",
        Status::Fault,
    ),
    (
        "schedule idle.fsmd u.json",
        &[1, 2],
        "fault: cannot read u.json\n",
        Status::Fault,
    ),
    (
        "bind idle.fsmd u.json",
        &[0, 1],
        "fault: cannot read idle.fsmd\n",
        Status::Fault,
    ),
    (
        "bind idle.fsmd u.json",
        &[1, 2],
        "fault: cannot read u.json\n",
        Status::Fault,
    ),
    (
        "check idle.fsmd idle.fsmd",
        &[2],
        "equivalent: 2 nodes\n",
        Status::Fine,
    ),
    (
        "run idle.fsmd u.json",
        &[2],
        "ended: 1 steps\ny = 0\n",
        Status::Fine,
    ),
    (
        "schedule idle.fsmd u.json",
        &[2],
        "fsmd 1;\noutput y;\nreset s0;\nstate s0:\n  goto s0;\n",
        Status::Fine,
    ),
    (
        "bind idle.fsmd u.json",
        &[2],
        "fsmd 1;\noutput y;\nreset s0;\nstate s0:\n  goto s0;\n",
        Status::Fine,
    ),
    (
        "compile p.prog",
        &[1],
        "fsmd 1;\nreset k0;\nstate k0:\n  goto k0;\n",
        Status::Fine,
    ),
    (
        "verify a.fsmd b.fsmd n.json",
        &[3],
        "fault: cannot read n.json\n",
        Status::Fault,
    ),
    (
        "check x.fsmd b.fsmd",
        &[1],
        "bad input: x.fsmd:1:1: Ended\n",
        Status::BadInput,
    ),
    (
        "verify x.fsmd b.fsmd c.json",
        &[1],
        "bad input: x.fsmd:1:1: Ended\n",
        Status::BadInput,
    ),
    (
        "run x.fsmd i.json",
        &[1],
        "bad input: x.fsmd:1:1: Ended\n",
        Status::BadInput,
    ),
    (
        "replay x.fsmd b.fsmd i.json",
        &[1],
        "bad input: x.fsmd:1:1: Ended\n",
        Status::BadInput,
    ),
    (
        "replay a.fsmd x.fsmd i.json",
        &[2],
        "bad input: x.fsmd:1:1: Ended\n",
        Status::BadInput,
    ),
    (
        "shrink x.fsmd b.fsmd i.json",
        &[1],
        "bad input: x.fsmd:1:1: Ended\n",
        Status::BadInput,
    ),
    (
        "schedule x.fsmd u.json",
        &[1],
        "bad input: x.fsmd:1:1: Ended\n",
        Status::BadInput,
    ),
    (
        "bind x.fsmd m.json",
        &[1],
        "bad input: x.fsmd:1:1: Ended\n",
        Status::BadInput,
    ),
    (
        "chain copy.fsmd none.json copy.fsmd copy.json copy.fsmd",
        &[3],
        "link 1: no: obligation 1, no start node\n",
        Status::Differ,
    ),
    (
        "chain copy.fsmd copy.json other.fsmd copy.json copy.fsmd",
        &[2],
        "link 1: bad input: interface: a\n",
        Status::BadInput,
    ),
    (
        "chain copy.fsmd copy.json copy.fsmd copy.json other.fsmd copy.json copy.fsmd",
        &[4],
        "link 2: bad input: interface: a\n",
        Status::BadInput,
    ),
    (
        "chain copy.fsmd copy.json copy.fsmd copy.json copy.fsmd copy.fsmd copy.fsmd copy.json copy.fsmd",
        &[7],
        "link 3: bad input: copy.fsmd: NotJson\n",
        Status::BadInput,
    ),
];

#[test]
fn files_that_fail(rt: HostRuntime) {
    for (words, fails, reply, status) in &ANSWERS {
        let case = Case {
            words,
            fails,
            takes: &[],
            reply,
            status: *status,
            stored: BEFORE,
        };
        assert!(rt; is_answered(rt.alloc(), &case), "{words} {reply}");
    }
}
