//! Laws as calls: each makes nothing, and its contract is the law.

ghost use Rattle.kept_numbers.specs.Laws.{ALineLessKeepsOthers, ALineMoreKeepsAll, KeptAreOlder, KeptWhereRoom, NewAreByTens, NumbersRise, SameAgain};
ghost use Rattle.kept_numbers.specs.Written.{IsReadBack};

/// The numbers of a list rise, as many as there are lines, from 1 to the greatest one that a line can have; and a line that
/// is to keep its number has it, or all are numbered anew.
pub fn numbers_rise()
    ensures { NumbersRise }
{}

/// All lines are numbered anew where there is no room for a new one, and there alone.
pub fn kept_where_there_is_room()
    ensures { KeptWhereRoom }
{}

/// A line that keeps a number has the words of the older line of this number, and lines that keep theirs stand in the same
/// order in both lists.
pub fn kept_lines_are_older_ones()
    ensures { KeptAreOlder }
{}

/// A list that didn't change has the same numbers again.
pub fn same_list_same_numbers()
    ensures { SameAgain }
{}

/// Where one line comes into a list, wherever, all its older lines are kept.
pub fn a_line_more_keeps_all()
    ensures { ALineMoreKeepsAll }
{}

/// Where one line goes whose words don't come behind it, all other ones are kept.
pub fn a_line_less_keeps_others()
    ensures { ALineLessKeepsOthers }
{}

/// Without an older list lines are numbered by tens.
pub fn new_lists_are_by_tens()
    ensures { NewAreByTens }
{}

/// The script of a list, with comments, is read by `older_lines` as the lines of that list.
pub fn scripts_are_read_back()
    ensures { IsReadBack }
{}
