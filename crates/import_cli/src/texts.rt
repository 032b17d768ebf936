//! The texts that the program prints about importers.

/// What is printed where words are no command line.
pub(crate) const USAGE: &str = "usage\n";

/// The help.
pub(crate) const IMPORT_HELP: &str = "\
tcam import: reads what another program prints, and writes a script.

    ip -o route show | tcam import ip-routes | tcam route
    ip -6 -o route show | tcam import ip-routes --version 6 | tcam route6
    ip -o monitor route | tcam import ip-monitor | tcam route --trace
    ip -j route show | tcam import ip-json | tcam route
    tcam import cisco --list EDGE < lists.conf | tcam acl
    nc -l -p 2620 | tcam import fpm | tcam route --trace
    iptables-save | tcam import iptables --chain INPUT | tcam acl
    nft -j list ruleset | tcam import nft --chain 'ip t in' | tcam acl

    tcam import FORMAT [--version V] [--leave-out] [--list NAME] [--chain C]
        [--in NAME] [--since FILE]

FORMAT is ip-routes: the lines of ip -o route show, of one table; ip-monitor:
those of ip -o monitor route, each a commit; ip-json: the array of
ip -j route show, an item a route; cisco: extended lists of Cisco IOS and
Arista EOS, of which one is taken; fpm: what zebra sends with its module
dplane_fpm_nl, a frame a commit; iptables: the lines of iptables-save, of whose
table filter one chain is taken; or nft: the ruleset of nft -j list ruleset, of
which one chain is taken. Where packets of a route go gets a number, which a
comment tells before its first use.

Each line, item or frame is said, or the script ends at it: its last line has
the number of it, why it can't be said, and the word. No commit follows, and no
reader of scripts takes its last line for a command.

Options:
    --version V     the version of IP, 4 or 6, by default 4
    --leave-out     a line, an item or a frame that can't be said is a comment,
                    and how many of them there are stands at the end
    --list NAME     the list of cisco, by default the only one
    --chain C       the chain of iptables, INPUT, FORWARD or OUTPUT, by default
                    INPUT; of nft the family and the name of its table and its
                    own name, by default 'inet filter input'
    --in NAME       of INPUT or FORWARD the packets that come in by this
                    interface, by default by any
    --since FILE    of iptables and nft: FILE is the script of an earlier import;
                    a line that it has keeps its number, and a new one gets one
                    between

Exit status:
    0   the input was read to its end
    2   a line, an item or a frame can't be said, a line is too long or has a
        bad byte, the input is no array or ruleset, what should end it is
        wanting, or there is no list; or FILE is no script of one
    3   standard input, or FILE, could not be read
    4   standard output could not be written
    6   memory is wanting
    64  the words are no command line

The manual is docs/IMPORT.md.
";
