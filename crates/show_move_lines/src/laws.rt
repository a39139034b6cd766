//! A law of moves that are made again. The function does nothing.

ghost use Rattle.show_move_lines.specs.MoveLaws.{TheSameTableIsMade};

/// Made again one after another, the moves of a search make the table of the search: what is told of them is what they did there.
pub fn moves_make_the_same_table()
    ensures { TheSameTableIsMade }
{}
