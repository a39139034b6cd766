//! Words of the command line with what they ask. Words that are refused are shown by tests/commands/usage.test.

use crate::cases::words_of;
use fsmd_words::asking::Ask;
use fsmd_words::words::ask;
use std::alloc::Global;

// Words, and what they ask.
static ROWS: [(&str, &str); 26] = [
    (
        "check a.fsmd b.fsmd",
        r#"Check { left: "a.fsmd", right: "b.fsmd", cert: None, steps: 10000 }"#,
    ),
    (
        "check a.fsmd b.fsmd --steps 5",
        r#"Check { left: "a.fsmd", right: "b.fsmd", cert: None, steps: 5 }"#,
    ),
    (
        "check --steps=5 a.fsmd b.fsmd",
        r#"Check { left: "a.fsmd", right: "b.fsmd", cert: None, steps: 5 }"#,
    ),
    (
        "check a.fsmd --cert c.json --steps 100000 b.fsmd",
        r#"Check { left: "a.fsmd", right: "b.fsmd", cert: Some("c.json"), steps: 100000 }"#,
    ),
    (
        "check --cert=c.json a.fsmd --steps=1 b.fsmd",
        r#"Check { left: "a.fsmd", right: "b.fsmd", cert: Some("c.json"), steps: 1 }"#,
    ),
    (
        "check -- -a.fsmd --steps",
        r#"Check { left: "-a.fsmd", right: "--steps", cert: None, steps: 10000 }"#,
    ),
    (
        "check fmt check",
        r#"Check { left: "fmt", right: "check", cert: None, steps: 10000 }"#,
    ),
    (
        "verify a.fsmd b.fsmd c.json",
        r#"Verify { left: "a.fsmd", right: "b.fsmd", cert: "c.json" }"#,
    ),
    (
        "run a.fsmd i.json",
        r#"Run { machine: "a.fsmd", inputs: "i.json", steps: 10000 }"#,
    ),
    (
        "run a.fsmd --steps 5 i.json",
        r#"Run { machine: "a.fsmd", inputs: "i.json", steps: 5 }"#,
    ),
    (
        "replay a.fsmd b.fsmd i.json",
        r#"Replay { left: "a.fsmd", right: "b.fsmd", inputs: "i.json", steps: 10000 }"#,
    ),
    (
        "replay --steps=007 a.fsmd b.fsmd i.json",
        r#"Replay { left: "a.fsmd", right: "b.fsmd", inputs: "i.json", steps: 7 }"#,
    ),
    ("fmt a.fsmd", r#"Fmt { machine: "a.fsmd" }"#),
    ("fmt -", r#"Fmt { machine: "-" }"#),
    ("cuts a.fsmd", r#"Cuts { machine: "a.fsmd" }"#),
    ("generate 200", "Generate { n: 200 }"),
    ("generate +1", "Generate { n: 1 }"),
    ("compile p.prog", r#"Compile { program: "p.prog" }"#),
    (
        "schedule a.fsmd u.json",
        r#"Schedule { machine: "a.fsmd", units: "u.json" }"#,
    ),
    (
        "bind -- a.fsmd -m.json",
        r#"Bind { machine: "a.fsmd", binding: "-m.json" }"#,
    ),
    (
        "shrink a.fsmd b.fsmd i.json",
        r#"Shrink { left: "a.fsmd", right: "b.fsmd", inputs: "i.json", steps: 10000 }"#,
    ),
    (
        "shrink a.fsmd --steps 3 b.fsmd i.json",
        r#"Shrink { left: "a.fsmd", right: "b.fsmd", inputs: "i.json", steps: 3 }"#,
    ),
    (
        "chain a.fsmd c.json b.fsmd",
        r#"Chain { files: ["a.fsmd", "c.json", "b.fsmd"] }"#,
    ),
    (
        "chain a.fsmd c.json b.fsmd d.json b.fsmd",
        r#"Chain { files: ["a.fsmd", "c.json", "b.fsmd", "d.json", "b.fsmd"] }"#,
    ),
    (
        "chain a.fsmd -- --steps -",
        r#"Chain { files: ["a.fsmd", "--steps", "-"] }"#,
    ),
    (
        "chain -- -- check chain",
        r#"Chain { files: ["--", "check", "chain"] }"#,
    ),
];

// Whether words ask what a text says.
fn asks(alloc: Global, ask: &Ask, wanted: &str) -> bool {
    match format!(in alloc; "{ask:?}") {
        Ok(given) => given.as_str() == wanted,
        Err(_) => false,
    }
}

// The same of words in a list.
fn are_answered(alloc: Global, words: &[String], wanted: &str) -> bool {
    match ask(alloc, words) {
        Ok(ask) => asks(alloc, &ask, wanted),
        Err(_) => false,
    }
}

// The same of the words of a text, which blanks part.
fn holds(alloc: Global, words: &str, wanted: &str) -> bool {
    match words_of(alloc, words) {
        Ok(words) => are_answered(alloc, words.as_slice(), wanted),
        Err(_) => false,
    }
}

#[test]
fn words_of_commands(rt: HostRuntime) {
    for (words, wanted) in &ROWS {
        assert!(rt; holds(rt.alloc(), words, wanted), "{words}");
    }
}
