//! The text that the program prints about `explain`.

/// The help of `explain`.
pub(crate) const EXPLAIN_HELP: &str = "\
tcam explain: tells what is wrong with a command line, or else with its script.
It carries nothing out.

    tcam explain WORDS.. < SCRIPT

WORDS are those of the command line that is to be explained, without tcam, as
route --slots 8. Each wrong word has a line, with what it may be. Where none is
wrong the script is read to its end.

Of a script each of these has a line:
    a line at fault             its number, the number of the word, and what was
                                meant
    a change that the set       its line and that of the command which it meets
    doesn't take
    a batch without room        how much it needs, which rules take most, and
                                what --ranges bits would take

What a trial leaves, and what a line at fault was to be, isn't guessed: no
refusal is foretold behind these, and none of a router's script. Of gen, verify,
draw, import and judge the words alone are explained.

Exit status:
    0     nothing is wrong
    2     something is wrong
    3     standard input could not be read
    4     standard output could not be written
    6     memory was wanting

The manual is docs/SCRIPT.md.
";
