//! The JSON values that a certificate is written as.

ghost use Rattle.std.specs.Prelude.{◌≡◌, codes, IfOk, OnOk};
ghost use Rattle.serde_json.specs.Data.{number, unsigned, string, object, member, no_members, put};
ghost use Rattle.serde_json.specs.View.{view, members_view};

use serde_json::{Map, Value};
use std::alloc::{AllocError, Global};

// Puts two members in. The one refusal is out of memory.
fn put_two(
    alloc: Global,
    members: &mut Map<String, Value>,
    first_name: &str,
    first: Value,
    second_name: &str,
    second: Value,
) -> Result<(), AllocError>
    ensures { OnOk result (members_view members.new.entries
        ≡ put second_name.now (view second) (put first_name.now (view first) (members_view members.old.entries))) }
{
    serde_json::put(members, alloc, first_name, first)?;
    serde_json::put(members, alloc, second_name, second)?;
    Ok(())
}

// Puts a text in. The one refusal is out of memory.
fn put_text(
    alloc: Global,
    members: &mut Map<String, Value>,
    name: &str,
    text: &str,
) -> Result<(), AllocError>
    ensures { OnOk result
        (members_view members.new.entries ≡ put name.now (string text.now) (members_view members.old.entries)) }
{
    let value = Value::try_from_str(alloc, text)?;
    serde_json::put(members, alloc, name, value)?;
    Ok(())
}

// Puts in the members of a node that are no lists of terms. The one refusal is out of memory.
fn put_points(
    alloc: Global,
    members: &mut Map<String, Value>,
    left: &str,
    mode: &str,
    rank: u64,
    right: &str,
) -> Result<(), AllocError>
    ensures { OnOk result (members_view members.new.entries
        ≡ put (codes "right") (string right.now) (put (codes "rank") (number (unsigned rank))
        (put (codes "mode") (string mode.now) (put (codes "left") (string left.now) (members_view members.old.entries))))) }
{
    put_text(alloc, members, "left", left)?;
    put_text(alloc, members, "mode", mode)?;
    serde_json::put(members, alloc, "rank", Value::from(rank))?;
    put_text(alloc, members, "right", right)?;
    Ok(())
}

/// A node of these parts. The one refusal is out of memory.
pub fn node_value(
    alloc: Global,
    conds: Value,
    equations: Value,
    left: &str,
    mode: &str,
    rank: u64,
    right: &str,
) -> Result<Value, AllocError>
    ensures { IfOk result
        (λ v. view v ≡ object
        (member (codes "conds") (view conds)
        (member (codes "equations") (view equations)
        (member (codes "left") (string left.now)
        (member (codes "mode") (string mode.now)
        (member (codes "rank") (number (unsigned rank)) (member (codes "right") (string right.now) no_members))))))) }
{
    let mut members = Map::new(alloc);
    put_two(alloc, &mut members, "conds", conds, "equations", equations)?;
    put_points(alloc, &mut members, left, mode, rank, right)?;
    Ok(Value::Object(members))
}

/// A file of these nodes. The one refusal is out of memory.
pub fn file_value(alloc: Global, format: u64, nodes: Value) -> Result<Value, AllocError>
    ensures { IfOk result
        (λ v. view v ≡ object
        (member (codes "format") (number (unsigned format)) (member (codes "nodes") (view nodes) no_members))) }
{
    let mut members = Map::new(alloc);
    put_two(
        alloc,
        &mut members,
        "format",
        Value::from(format),
        "nodes",
        nodes,
    )?;
    Ok(Value::Object(members))
}
