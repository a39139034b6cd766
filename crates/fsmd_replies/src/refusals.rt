//! The lines of files that are refused.

ghost use Rattle.std.specs.Prelude.{◌≡◌, ◌++◌, IfOk, codes, decimal, string_bytes};
ghost use Rattle.hls_unit_counts.specs.Counts.{kind_key};
ghost use Rattle.fsmd_replies.specs.Replies.{kind_name, rule_name, key_fault_name, cert_error_name, node_in, node_count_text};

use crate::answer::KeyFault;
use cert_facts::faults::CertError;
use fs_ast::check::{CheckFault, CheckRule};
use fs_grammar::fault::{TextFault, TextKind};
use hls_unit_counts::Unit;
use std::alloc::{AllocError, Global};

fn kind_name(kind: TextKind) -> &'static str
    ensures { result.now ≡ kind_name kind }
{
    match kind {
        TextKind::BadByte => "BadByte",
        TextKind::BadWord => "BadWord",
        TextKind::NumberTooBig => "NumberTooBig",
        TextKind::Unexpected => "Unexpected",
        TextKind::Operators => "Operators",
        TextKind::Nested => "Nested",
        TextKind::Ended => "Ended",
    }
}

fn rule_name(rule: CheckRule) -> &'static str
    ensures { result.now ≡ rule_name rule }
{
    match rule {
        CheckRule::TwiceNamed => "TwiceNamed",
        CheckRule::UnknownName => "UnknownName",
        CheckRule::WrongSort => "WrongSort",
        CheckRule::AssignInput => "AssignInput",
        CheckRule::AssignedTwice => "AssignedTwice",
        CheckRule::NoElse => "NoElse",
        CheckRule::AfterElse => "AfterElse",
        CheckRule::TooManyBranches => "TooManyBranches",
        CheckRule::EndlessLine => "EndlessLine",
        CheckRule::UnknownState => "UnknownState",
        CheckRule::TooMany => "TooMany",
        CheckRule::TooManyEmits => "TooManyEmits",
    }
}

fn key_fault_name(fault: KeyFault) -> &'static str
    ensures { result.now ≡ key_fault_name fault }
{
    match fault {
        KeyFault::Shape => "Shape",
        KeyFault::UnknownName => "UnknownName",
        KeyFault::NumberTooBig => "NumberTooBig",
        KeyFault::BadName => "BadName",
        KeyFault::Taken => "Taken",
    }
}

fn cert_error_name(error: CertError) -> &'static str
    ensures { result.now ≡ cert_error_name error }
{
    match error {
        CertError::NotJson => "NotJson",
        CertError::Shape => "Shape",
        CertError::UnknownState { .. } => "UnknownState",
        CertError::NotCutpoint { .. } => "NotCutpoint",
        CertError::UnknownName { .. } => "UnknownName",
        CertError::SortOf { .. } => "SortOf",
        CertError::NotSolved { .. } => "NotSolved",
        CertError::TwiceNode { .. } => "TwiceNode",
        CertError::NumberTooBig { .. } => "NumberTooBig",
        CertError::TooMany => "TooMany",
        CertError::NoMemory => "NoMemory",
        CertError::BadTerm { .. } => "BadTerm",
        CertError::NotNormal { .. } => "NotNormal",
    }
}

// The node where something is wrong, if it is of a node.
fn node_of(error: CertError) -> Option<u32>
    ensures { result ≡ node_in error }
{
    match error {
        CertError::UnknownState { node }
        | CertError::NotCutpoint { node }
        | CertError::UnknownName { node }
        | CertError::SortOf { node }
        | CertError::NotSolved { node, .. }
        | CertError::TwiceNode { node }
        | CertError::NumberTooBig { node }
        | CertError::BadTerm { node }
        | CertError::NotNormal { node } => Some(node),
        CertError::NotJson | CertError::Shape | CertError::TooMany | CertError::NoMemory => None,
    }
}

/// The line of a file that spells no parts.
pub fn text_refused(alloc: Global, word: &str, fault: &TextFault) -> Result<String, AllocError>
    ensures { IfOk result
        (λ text. string_bytes text ≡ codes "bad input: "
        ++ (word.now
        ++ (codes ":"
        ++ (decimal fault.now.line
        ++ (codes ":" ++ (decimal fault.now.column ++ (codes ": " ++ (kind_name fault.now.kind ++ codes "\n")))))))) }
{
    let TextFault { line, column, kind } = *fault;
    let kind = kind_name(kind);
    format!(in alloc; "bad input: {word}:{line}:{column}: {kind}\n")
}

/// The line of a file whose parts break a rule.
pub fn check_refused(alloc: Global, word: &str, fault: &CheckFault) -> Result<String, AllocError>
    ensures { IfOk result
        (λ text. string_bytes text ≡ codes "bad input: "
        ++ (word.now ++ (codes ":" ++ (decimal fault.now.line ++ (codes ": " ++ (rule_name fault.now.rule ++ codes "\n")))))) }
{
    let CheckFault { rule, line } = *fault;
    let rule = rule_name(rule);
    format!(in alloc; "bad input: {word}:{line}: {rule}\n")
}

/// The line of a file that is not JSON.
pub fn not_json(alloc: Global, word: &str) -> Result<String, AllocError>
    ensures { IfOk result (λ text. string_bytes text ≡ codes "bad input: " ++ (word.now ++ codes ": NotJson\n")) }
{
    format!(in alloc; "bad input: {word}: NotJson\n")
}

// The line of a refused file, of a cause, up to a name.
fn refused_before(alloc: Global, word: &str, cause: &str) -> Result<String, AllocError>
    ensures { IfOk result
        (λ text. string_bytes text ≡ codes "bad input: " ++ (word.now ++ (codes ": " ++ (cause.now ++ codes " ")))) }
{
    format!(in alloc; "bad input: {word}: {cause} ")
}

/// The line of a file of keys and values with a fault at a key.
pub fn key_refused(
    alloc: Global,
    word: &str,
    fault: KeyFault,
    key: &[u8],
) -> Result<Vec<u8>, AllocError>
    ensures { IfOk result
        (λ bytes. bytes.items ≡ codes "bad input: "
        ++ (word.now ++ (codes ": " ++ (key_fault_name fault ++ (codes " " ++ (key.now ++ codes "\n")))))) }
{
    let mut bytes = refused_before(alloc, word, key_fault_name(fault))?.into_bytes();
    bytes.extend_from_slice(key)?;
    bytes.extend_from_slice(b"\n")?;
    Ok(bytes)
}

fn unit_name(unit: Unit) -> &'static str
    ensures { result.now ≡ kind_key unit }
{
    match unit {
        Unit::Add => "add",
        Unit::Mul => "mul",
        Unit::Div => "div",
        Unit::Mem => "mem",
    }
}

// The line of a file of unit counts, up to the name of a state.
fn over_before(alloc: Global, word: &str) -> Result<String, AllocError>
    ensures { IfOk result (λ text. string_bytes text ≡ codes "bad input: " ++ (word.now ++ codes ": Over ")) }
{
    format!(in alloc; "bad input: {word}: Over ")
}

// The last word of a line.
fn last_word(alloc: Global, word: &str) -> Result<String, AllocError>
    ensures { IfOk result (λ text. string_bytes text ≡ codes " " ++ (word.now ++ codes "\n")) }
{
    format!(in alloc; " {word}\n")
}

/// The line of a file of unit counts of which a state needs more of a unit.
pub fn over(alloc: Global, word: &str, state: &[u8], unit: Unit) -> Result<Vec<u8>, AllocError>
    ensures { IfOk result
        (λ bytes. bytes.items ≡ codes "bad input: "
        ++ (word.now ++ (codes ": Over " ++ (state.now ++ (codes " " ++ (kind_key unit ++ codes "\n")))))) }
{
    let mut bytes = over_before(alloc, word)?.into_bytes();
    let unit = last_word(alloc, unit_name(unit))?;
    bytes.extend_from_slice(state)?;
    bytes.extend_from_slice(unit.as_bytes())?;
    Ok(bytes)
}

// A node, where there is one.
fn node_text(alloc: Global, node: Option<u32>) -> Result<String, AllocError>
    ensures { IfOk result (λ text. string_bytes text ≡ node_count_text node) }
{
    match node {
        Some(node) => format!(in alloc; " node {node}"),
        None => Ok(String::new(alloc)),
    }
}

// The line of a refused file, of a kind and a node.
fn refusal_line(alloc: Global, word: &str, kind: &str, node: &str) -> Result<String, AllocError>
    ensures { IfOk result
        (λ text. string_bytes text ≡ codes "bad input: "
        ++ (word.now ++ (codes ": " ++ (kind.now ++ (node.now ++ codes "\n"))))) }
{
    format!(in alloc; "bad input: {word}: {kind}{node}\n")
}

/// The line of a file that spells no certificate.
pub fn cert_refused(alloc: Global, word: &str, error: CertError) -> Result<String, AllocError>
    ensures { IfOk result
        (λ text. string_bytes text ≡ codes "bad input: "
        ++ (word.now ++ (codes ": " ++ (cert_error_name error ++ (node_count_text (node_in error) ++ codes "\n"))))) }
{
    let node = node_text(alloc, node_of(error))?;
    refusal_line(alloc, word, cert_error_name(error), node.as_str())
}

/// The line of a file that has more bytes than are read.
pub fn too_long(alloc: Global, word: &str, limit: u64) -> Result<String, AllocError>
    ensures { IfOk result
        (λ text. string_bytes text ≡ codes "bad input: "
        ++ (word.now ++ (codes ": longer than " ++ (decimal limit ++ codes " bytes\n")))) }
{
    format!(in alloc; "bad input: {word}: longer than {limit} bytes\n")
}

/// The line of a file that could not be read.
pub fn cannot_read(alloc: Global, word: &str) -> Result<String, AllocError>
    ensures { IfOk result (λ text. string_bytes text ≡ codes "fault: cannot read " ++ (word.now ++ codes "\n")) }
{
    format!(in alloc; "fault: cannot read {word}\n")
}
