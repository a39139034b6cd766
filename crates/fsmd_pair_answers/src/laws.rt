//! Laws of answers, over the definitions alone. The functions do nothing.

ghost use Rattle.fsmd_pair_answers.specs.PairAnswerLaws.{OnePairAnswer, ClosedIsNotOpen, LimitIsNotOpen};
ghost use Rattle.fsmd_pair_answers.specs.PairAnswerLaws.{LinesNameWhatIsThere, SameShowNothing, AlikeAreAnswered};

/// Two machines have one answer, whatever answers them: one certificate, one counterexample, or one line. Where the search is
/// left open, and no stated candidate shows a difference, it is any certificate that holds, or the line.
pub fn two_machines_have_one_answer()
    ensures { OnePairAnswer }
{}

/// A search that closes, or that a limit stops, is not left open: there two machines have one answer, and a certificate is that
/// of the search.
pub fn closed_searches_and_limits_leave_nothing_open()
    ensures closed { ClosedIsNotOpen }
    ensures limit { LimitIsNotOpen }
{}

/// What the line of an obstacle names is there: the output, the node and each path of a move, which is one of its machine from
/// the node's point by that branch, and the first node of a cycle.
pub fn lines_name_what_is_there()
    ensures { LinesNameWhatIsThere }
{}

/// Machines with the same behaviour differ on no stated candidate.
pub fn same_behaviour_shows_no_difference()
    ensures { SameShowNothing }
{}

/// Alike machines are answered by a search that closes, or that a limit stops: they have no counterexample and no other obstacle.
pub fn alike_machines_are_answered()
    ensures { AlikeAreAnswered }
{}
