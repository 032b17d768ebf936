//! The texts that are printed as they are.

/// What is told of words that are no command line.
pub(crate) const USAGE: &str = "usage\n";

/// The help of the subcommand.
pub(crate) const DRAW_HELP: &str = "\
tcam draw: draws the writes of a commit, or how full the table is, as an SVG. It
reads a trace, to its end, and then writes the picture.

    tcam draw [--commit N | --commits A-B | --occupancy] < TRACE > PICTURE

Options:
    --commit N       commit N, by default the last one that was carried out
    --commits A-B    the commits from A to B
    --occupancy      the table behind each commit, as a bar of its slots, with
                     the used and the free ones, the writes of the commit, and
                     the most writes of an insertion

A trace has the lines that tcam verify --help lists, as tcam route --json and
its like print. Of commits a picture has a row for each write and a column for
each slot that is written or copied from.

What a write does is told by the shape and the sign of its cell:
    square, +             a new entry
    round, two squares    a copy, with an arrow from the slot that has it too
    six corners, =        a new result
    dashed, x             an erase

Words of tables stand in a strip that counts them, and a drain is a line across.
Of more than 4096 rows the first and the last hundred are drawn.

What is told in place of a picture, and the exit status:
    no commit N, no commit     1: the trace has no such commit, or none that was
                               carried out
    line N bad trace           2: line N is none of a trace, or may not stand
                               there; or the last line is missing
    line N line too long       2: line N has more than 512 bytes
    line N bad byte            2: a byte of line N is not printable

The manual is docs/SCRIPT.md.
";
