//! The cover of a machine: its points, each with its paths (cutpoints and paths as in Karfa and others,
//! IEEE TCAD 2008, and Banerjee and others, IEEE TCAD 2014).

ghost use Rattle.std.specs.Prelude.{◌≡◌, map};
ghost use Rattle.fs_cut.specs.Covers.{points_with_paths, paths_from, same_point};
ghost use Rattle.fs_cut.specs.Paths.{Done};
ghost use Rattle.fs_cut.specs.View.{point_of, path_of, listed_paths, ListsPoints};

use fs_model::parts::StateId;
use std::marker::Model;

/// Where runs are cut.
#[derive(Clone, Copy)]
pub enum Point {
    /// The reset state as a run begins.
    Start,
    /// A state with more than one branch that isn't the reset state.
    At(StateId),
    /// The return to the reset state.
    Done,
}

impl Point {
    /// Whether two points are the same. Takes no memory.
    pub fn is_same(self, other: Point) -> bool
        ensures { result ≡ same_point (point_of self) (point_of other) }
    {
        match self {
            Point::Start => matches!(other, Point::Start),
            Point::At(state) => match other {
                Point::At(second) => state.0 == second.0,
                Point::Start | Point::Done => false,
            },
            Point::Done => matches!(other, Point::Done),
        }
    }

    /// Whether a run is over here. Takes no memory.
    pub fn is_done(self) -> bool
        ensures { result ≡ same_point (point_of self) Done }
    {
        matches!(self, Point::Done)
    }
}

/// A path: one branch of the state of a point, and then states with one branch, up to the next point.
#[derive(Drop)]
pub struct Path {
    pub from: Point,
    /// The number of the branch among those of the point's state, from 0.
    pub branch: u32,
    /// The states that are left on the way, that of the first point included: one for each step.
    pub states: Vec<StateId>,
    pub to: Point,
}

/// The points of a machine, each with its paths.
#[derive(Drop)]
pub struct Cover {
    points: Vec<Point>,
    start: Vec<Path>,
    /// By the number of the state; none where the state is no point.
    forks: Vec<Vec<Path>>,
}

impl Model for Cover {
    ghost use Rattle.std.specs.Prelude.{List, map};
    ghost use Rattle.fs_cut.specs.Covers.{PointPaths, points_with_paths};
    ghost use Rattle.fs_cut.specs.View.{point_of, path_of, listed_paths, ListsPoints};

    ghost Value = { List PointPaths };

    ghost view = { λ c. points_with_paths
        (listed_paths (map path_of c.start.items) (map (λ ps. map path_of ps.items) c.forks.items))
        (map point_of c.points.items) };

    ghost invariant = { λ c. ListsPoints (map point_of c.points.items) (map path_of c.start.items)
        (map (λ ps. map path_of ps.items) c.forks.items) };
}

impl Cover {
    /// The points: `Start`, then `At` for each state with more than one branch in order of states,
    /// the reset state left out, then `Done`. Takes no memory.
    pub fn points(&self) -> &[Point]
        ensures { map point_of result.now ≡ map (λ e. e.point) self.now }
    {
        self.points.as_slice()
    }

    /// The paths of a point, one for each branch of its state in order of branches. None of `Done`, and
    /// none of what isn't among the points. Takes no memory.
    pub fn from(&self, p: Point) -> &[Path]
        ensures { map path_of result.now ≡ paths_from self.now (point_of p) }
    {
        match p {
            Point::Start => self.start.as_slice(),
            Point::At(state) => match self.forks.get(state.0 as usize) {
                Some(paths) => paths.as_slice(),
                None => &[],
            },
            Point::Done => &[],
        }
    }

    /// The cover of these points, with the paths of the reset state and those of each other state that is a point.
    pub(crate) fn of(points: Vec<Point>, start: Vec<Path>, forks: Vec<Vec<Path>>) -> Cover
        requires { ListsPoints (map point_of points.items) (map path_of start.items)
            (map (λ ps. map path_of ps.items) forks.items) }
        ensures { result ≡ points_with_paths
            (listed_paths (map path_of start.items) (map (λ ps. map path_of ps.items) forks.items))
            (map point_of points.items) }
    {
        Cover {
            points,
            start,
            forks,
        }
    }
}
