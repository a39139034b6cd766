//! The files that the cases ask about.

/// What `c.json` holds before a command: a certificate that the squares are the same.
pub const BEFORE: &str =
    r#"{"format":1,"nodes":[{"conds":[],"equations":{"L.t":"0","L.y":"0","R.a":"L.a","R.b":"L.b","R.y":"0"},"left":"start","mode":"both","rank":0,"right":"start"},{"conds":[],"equations":{"R.y":"L.y"},"left":"done","mode":"end","rank":0,"right":"done"}]}"#;

/// Their names and their texts.
pub static FILES: [(&str, &str); 19] = [
    // A square, the same multiplied out, and something else.
    (
        "a.fsmd",
        "fsmd 1;\ninput a, b;\noutput y;\nlocal t;\nreset s0;\nstate s0: goto s1: t = a + b;\nstate s1: goto s0: y = t * t;",
    ),
    (
        "b.fsmd",
        "fsmd 1;\ninput a, b;\noutput y;\nreset q0;\nstate q0: goto q0: y = a * a + 2 * a * b + b * b;",
    ),
    (
        "d.fsmd",
        "fsmd 1;\ninput a, b;\noutput y;\nreset q0;\nstate q0: goto q0: y = a * a + b * b;",
    ),
    ("c.json", BEFORE),
    ("i.json", "{\"a\": 1, \"b\": 1}"),
    // A sum moved past a test.
    (
        "before.fsmd",
        "fsmd 1;\ninput a, b, c;\noutput y;\nlocal x;\nreset s0;\nstate s0: goto s1: x = a + b;\nstate s1: when c > 0 goto s0: y = x + 1; goto s0: y = x - 1;",
    ),
    (
        "behind.fsmd",
        "fsmd 1;\ninput a, b, c;\noutput y;\nlocal x;\nreset q0;\nstate q0: when c > 0 goto q1: x = a + b; goto q2: x = a + b;\nstate q1: goto q0: y = x + 1;\nstate q2: goto q0: y = x - 1;",
    ),
    // A machine, and files that ask nothing of it.
    (
        "idle.fsmd",
        "fsmd 1; output y; reset s0; state s0: goto s0;",
    ),
    ("u.json", "{}"),
    ("x.fsmd", ""),
    // A copy of an input, as it is written and divided by one; its certificate, and one without nodes.
    (
        "copy.fsmd",
        "fsmd 1; input a; output y; reset s; state s: goto s: y = a;",
    ),
    (
        "divided.fsmd",
        "fsmd 1; input a; output y; reset s; state s: goto s: y = a / 1;",
    ),
    (
        "other.fsmd",
        "fsmd 1; input b; output y; reset s; state s: goto s: y = b;",
    ),
    (
        "copy.json",
        "{\"format\":1,\"nodes\":[{\"conds\":[],\"equations\":{\"L.y\":\"0\",\"R.a\":\"L.a\",\"R.y\":\"0\"},\"left\":\"start\",\"mode\":\"both\",\"rank\":0,\"right\":\"start\"},{\"conds\":[],\"equations\":{\"R.y\":\"L.y\"},\"left\":\"done\",\"mode\":\"end\",\"rank\":0,\"right\":\"done\"}]}",
    ),
    ("none.json", "{\"format\":1,\"nodes\":[]}"),
    // A line, locals that are never live together with their register, and a program.
    (
        "line.fsmd",
        "fsmd 1; input a; output y; reset s0; state s0: goto s1; state s1: goto s0: y = a * a;",
    ),
    (
        "locals.fsmd",
        "fsmd 1; input a, b; output y; local t, u; reset s0; state s0: goto s1: t = a + b; state s1: goto s2: y = t; state s2: goto s3: u = a - b; state s3: goto s0: y = y * u;",
    ),
    ("m.json", "{\"t\": \"r\", \"u\": \"r\"}"),
    ("p.prog", "prog; { }"),
];
