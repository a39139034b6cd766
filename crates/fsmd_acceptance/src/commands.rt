//! Each command once, with ample memory: the calls that are proved answer. All else that the program puts is shown by tests/,
//! over the program itself.

use crate::cases::{Case, is_answered};
use crate::files::BEFORE;
use fsmd_replies::answer::Status;

// Words, the reply and the status.
static ANSWERS: [(&str, &str, Status); 17] = [
    ("check a.fsmd b.fsmd", "equivalent: 2 nodes\n", Status::Fine),
    (
        "check a.fsmd d.fsmd",
        "counterexample\na = 1\nb = 1\nleft: y = 4\nright: y = 2\n",
        Status::Differ,
    ),
    (
        "check copy.fsmd divided.fsmd",
        "undecided: output y at start.0>done | start.0>done\n",
        Status::Undecided,
    ),
    ("verify a.fsmd b.fsmd c.json", "yes\n", Status::Fine),
    (
        "verify copy.fsmd copy.fsmd none.json",
        "no: obligation 1, no start node\n",
        Status::Differ,
    ),
    (
        "chain copy.fsmd copy.json copy.fsmd",
        "yes: 2 machines\n",
        Status::Fine,
    ),
    ("run a.fsmd i.json", "ended: 2 steps\ny = 4\n", Status::Fine),
    (
        "replay a.fsmd d.fsmd i.json",
        "differ\nleft: y = 4\nright: y = 2\n",
        Status::Differ,
    ),
    (
        "shrink a.fsmd d.fsmd i.json",
        "counterexample\na = 1\nb = 1\nleft: y = 4\nright: y = 2\n",
        Status::Differ,
    ),
    (
        "fmt idle.fsmd",
        "fsmd 1;\noutput y;\nreset s0;\nstate s0:\n  goto s0;\n",
        Status::Fine,
    ),
    ("cuts a.fsmd", "start.0>done: 2 steps\n", Status::Fine),
    (
        "generate 3",
        "generated: 3 loops\nequivalent: 5 nodes\n",
        Status::Fine,
    ),
    (
        "compile p.prog",
        "fsmd 1;\nreset k0;\nstate k0:\n  goto k0;\n",
        Status::Fine,
    ),
    (
        "schedule line.fsmd u.json",
        "# s1: 1 to 1, chain 1\nfsmd 1;\ninput a;\noutput y;\nreset s0;\nstate s0:\n  goto s1;\nstate s1:\n  goto s0: y = a * a;\n",
        Status::Fine,
    ),
    (
        "bind locals.fsmd m.json",
        "fsmd 1;\ninput a, b;\noutput y;\nlocal r;\nreset s0;\nstate s0:\n  goto s1: r = a + b;\nstate s1:\n  goto s2: y = r;\nstate s2:\n  goto s3: r = a - b;\nstate s3:\n  goto s0: y = y * r;\n",
        Status::Fine,
    ),
    (
        "fmt x.fsmd",
        "bad input: x.fsmd:1:1: Ended\n",
        Status::BadInput,
    ),
    (
        "fmt",
        "usage: fsmd check A B [--cert F] [--steps N] | verify A B C | run A I [--steps N] | replay A B I [--steps N] | fmt A | cuts A | generate N | compile P | schedule A U | bind A M | shrink A B I [--steps N] | chain A C B [C B ..]\n",
        Status::Usage,
    ),
];

#[test]
fn each_command_answers(rt: HostRuntime) {
    for (words, reply, status) in &ANSWERS {
        let case = Case {
            words,
            fails: &[],
            takes: &[],
            reply,
            status: *status,
            stored: BEFORE,
        };
        assert!(rt; is_answered(rt.alloc(), &case), "{words}");
    }
}
