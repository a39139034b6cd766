//! The moves of a node.

ghost use Rattle.std.specs.Prelude.{◌≡◌, ◌≤◌, ◌++◌, map, option_map, length, OnOk, IfOk};
ghost use Rattle.fs_model.specs.Limits.{most_branches};
ghost use Rattle.fs_cut.specs.View.{path_of};
ghost use Rattle.search_places.specs.Moves.{rights_beside, lefts_alone, pairs, moves_in_mode, path_in, most_moves};

use cert_bisimulation::mode::Mode;
use fs_cut::cover::Path;
use nf_terms::stop::NoMemory;
use search_tables::moves::Move;
use std::alloc::Global;

// Adds the moves by each right path, beside this left one or alone.
fn push_rights(
    out: &mut Vec<Move>,
    node: u32,
    left: Option<u32>,
    rights: &[Path],
) -> Result<(), NoMemory>
    ensures { OnOk result (out.new.items ≡ out.old.items ++ rights_beside node left (map path_of rights.now)) }
{
    for path in rights {
        out.push(Move {
            node,
            left,
            right: Some(path.branch),
        })?;
    }
    Ok(())
}

// Adds the moves by each left path alone.
fn push_lefts(out: &mut Vec<Move>, node: u32, lefts: &[Path]) -> Result<(), NoMemory>
    ensures { OnOk result (out.new.items ≡ out.old.items ++ lefts_alone node (map path_of lefts.now)) }
{
    for path in lefts {
        out.push(Move {
            node,
            left: Some(path.branch),
            right: None,
        })?;
    }
    Ok(())
}

// Adds the moves by each left path with each right one.
fn push_pairs(
    out: &mut Vec<Move>,
    node: u32,
    lefts: &[Path],
    rights: &[Path],
) -> Result<(), NoMemory>
    ensures { OnOk result (out.new.items ≡ out.old.items ++ pairs node (map path_of lefts.now) (map path_of rights.now)) }
{
    for path in lefts {
        push_rights(out, node, Some(path.branch), rights)?;
    }
    Ok(())
}

// Adds the moves of a mode.
fn push_moves(
    out: &mut Vec<Move>,
    node: u32,
    lefts: &[Path],
    rights: &[Path],
    mode: Mode,
) -> Result<(), NoMemory>
    ensures { OnOk result
        (out.new.items ≡ out.old.items ++ moves_in_mode node (map path_of lefts.now) (map path_of rights.now) mode) }
{
    match mode {
        Mode::Both => push_pairs(out, node, lefts, rights),
        Mode::Left => push_lefts(out, node, lefts),
        Mode::Right => push_rights(out, node, None, rights),
        Mode::End => Ok(()),
    }
}

/// The moves of a node in a mode by these paths of its points, in order of the left branch and then of the right one: at most
/// 4,096. The one refusal is out of memory.
pub fn moves(
    alloc: Global,
    node: u32,
    lefts: &[Path],
    rights: &[Path],
    mode: Mode,
) -> Result<Vec<Move>, NoMemory>
    requires few_left { length lefts.now ≤ most_branches }
    requires few_right { length rights.now ≤ most_branches }
    ensures moves { IfOk result (λ out. out.items ≡ moves_in_mode node (map path_of lefts.now) (map path_of rights.now) mode) }
    ensures few { IfOk result (λ out. length out.items ≤ most_moves) }
{
    let mut out = Vec::new(alloc);
    push_moves(&mut out, node, lefts, rights, mode)?;
    Ok(out)
}

/// The path of a side by its branch, which stays where there is none.
pub fn path_by(paths: &[Path], branch: Option<u32>) -> Option<&Path>
    ensures { option_map (λ p. path_of p.now) result ≡ path_in (map path_of paths.now) branch }
{
    match branch {
        Some(branch) => paths.get(branch as usize),
        None => None,
    }
}
