//! Makes the moves of a search.

ghost use Rattle.std.specs.Prelude.{◌≡◌, [], None, IfOk, OnOk};
ghost use Rattle.fs_cut.specs.Covers.{cover_of};
ghost use Rattle.fs_pair.specs.Interfaces.{interface_fault};
ghost use Rattle.fs_pair.specs.Positions.{positions};
ghost use Rattle.search_tables.specs.SearchTables.{first_table};
ghost use Rattle.search_tables.specs.Legal.{Makes};
ghost use Rattle.search_worklist.specs.Endings.{IsEndedWith};
ghost use Rattle.search_worklist.specs.SearchEnds.{IsEnded, EndsSo};
ghost use Rattle.search_worklist.specs.States.{table as table_now, IsReady};
ghost use Rattle.search_worklist.specs.View.{machines_in};

use fs_ast::machine::Machine;
use fs_cut::cover::Cover;
use fs_pair::positions::Pairing;
use nf_terms::stop::NoMemory;
use search_tables::moves::Move;
use search_tables::outcome::Obstacle;
use search_worklist::ends::Ended;
use search_worklist::nodes::table;
use search_worklist::outputs::output_at;
use search_worklist::sides::Sides;
use search_worklist::state::{State, begin, make};
use search_worklist::turns::{Step, next};
use std::alloc::Global;

// Ends a search: the nodes alone, with the moves that made them and how these end. The one refusal is out of memory.
fn end_search(
    alloc: Global,
    state: State,
    moves: Vec<Move>,
    obstacle: Option<Obstacle>,
) -> Result<Ended, NoMemory>
    ensures { IfOk result (IsEndedWith (table_now state) moves obstacle) }
{
    Ok(Ended {
        nodes: table(alloc, state.entries)?,
        moves,
        obstacle,
    })
}

// Makes moves from the start node, each the one that is next, up to the first obstacle, if there is one.
fn make_moves(
    alloc: Global,
    m: &Sides<'_>,
    state: &mut State,
    moves: &mut Vec<Move>,
) -> Result<Option<Obstacle>, NoMemory>
    requires ready { IsReady (machines_in m.now) state.old }
    requires start { table_now state.old ≡ first_table (machines_in m.now) }
    requires none { moves.old.items ≡ [] }
    ensures makes { OnOk result (Makes (machines_in m.now) moves.new.items (table_now state.new)) }
    ensures ends { IfOk result (EndsSo (machines_in m.now) (table_now state.new)) }
{
    let _left = m.left.vars(); // These two calls tell the proof that both machines are sound.
    let _right = m.right.vars();
    let mut changed = 0;
    'moves: loop {
        match output_at(alloc, m, &state.entries, changed)? {
            Some(var) => {
                let node = changed as u32;
                return Ok(Some(Obstacle::Stuck { node, var }));
            }
            None => match next(alloc, m, state)? {
                Step::Stops(obstacle) => return Ok(Some(obstacle)),
                Step::Closed => return Ok(None),
                Step::Changes { at, change } => {
                    changed = make(alloc, state, change)?;
                    moves.push(at)?;
                }
            },
        }
    }
}

// As `run`, for references that live equally long.
fn run_sides<'a>(
    alloc: Global,
    a: &'a Machine,
    b: &'a Machine,
    p: &'a Pairing,
    ca: &'a Cover,
    cb: &'a Cover,
) -> Result<Ended, NoMemory>
    requires paired { p.now ≡ positions a.now b.now }
    requires left_cover { ca.now ≡ cover_of a.now }
    requires right_cover { cb.now ≡ cover_of b.now }
    ensures { IfOk result (IsEnded (record { left = a.now; right = b.now })) }
{
    let sides = Sides {
        left: a,
        right: b,
        pairing: p,
        left_cover: ca,
        right_cover: cb,
    };
    let mut state = begin(alloc, &sides)?;
    let mut moves = Vec::new(alloc);
    let obstacle = make_moves(alloc, &sides, &mut state, &mut moves)?;
    end_search(alloc, state, moves, obstacle)
}

/// Makes a table from the start node by the moves that are next, up to the first obstacle or until nothing is next. The one
/// refusal is out of memory.
pub fn run(
    alloc: Global,
    a: &Machine,
    b: &Machine,
    p: &Pairing,
    ca: &Cover,
    cb: &Cover,
) -> Result<Ended, NoMemory>
    requires paired { p.now ≡ positions a.now b.now }
    requires interface { interface_fault a.now b.now ≡ None }
    requires left_cover { ca.now ≡ cover_of a.now }
    requires right_cover { cb.now ≡ cover_of b.now }
    ensures { IfOk result (IsEnded (record { left = a.now; right = b.now })) }
{
    run_sides(alloc, a, b, p, ca, cb)
}
