//! The texts that the program prints about itself.

ghost use Rattle.tcam_cli.specs.OwnTexts.{HelpOn, IsOwnText};

/// A subcommand, whose help is asked for.
#[derive(Clone, Copy, Debug, PartialEq, Eq)]
pub enum Topic {
    /// A script of routes of IPv4.
    Route,
    /// A script of an access list of IPv4.
    Acl,
    /// A script of routes of IPv6.
    Route6,
    /// A script of an access list of IPv6.
    Acl6,
    /// Made commands.
    Gen,
    /// The check of a trace.
    Verify,
}

/// The help of the program.
const HELP: &str = "\
tcam: the table manager of a ternary content-addressable memory.
It reads a script from standard input, or makes one, carries its commits out
over a modelled device one write at a time, and writes a report to standard
output. Or it checks a trace of writes, its own or another driver's.

    tcam route [OPTIONS] < FILE    a script of routes
    tcam acl [OPTIONS] < FILE      a script of an access list
    tcam route6 [OPTIONS] < FILE   a script of IPv6 routes
    tcam acl6 [OPTIONS] < FILE     a script of an IPv6 access list
    tcam router [OPTIONS] < FILE   a script of two tables, a list and routes
    tcam router6 [OPTIONS] < FILE  likewise, of IPv6
    tcam gen SEED RULES BATCHES [OPTIONS]
                                   changes of an access list, made from SEED
    tcam verify < FILE             a check of a trace of device writes
    tcam draw [OPTIONS] < TRACE    a picture of a trace's commits, as an SVG
    tcam import FORMAT [OPTIONS]   a script of what another program prints
    tcam judge [OPTIONS] < TRACE   which write of any driver's trace leaks
    tcam route --help              the commands of a script of routes
    tcam acl --help                the commands of a script of an access list
    tcam route6 --help             those of a script of IPv6 routes
    tcam acl6 --help               those of a script of an IPv6 access list
    tcam router --help             those of a script of two tables
    tcam gen --help                what SEED, RULES and BATCHES make
    tcam verify --help             the lines of a trace, and what is told of it
    tcam draw --help               what a picture shows, and of which commits
    tcam import --help             the formats that are read, and their options
    tcam judge --help              the lines of such a trace, and what is told
    tcam --help                    this text
    tcam --version                 name and version

Options:
    --slots N        N slots in use, 1 to 4096, by default 4096
    --ranges R       of what has a list, how port ranges are tested: cover, by
                     an entry for each block of a range, which is the default,
                     and has no limit but slots; or bits, by one entry a rule,
                     for at most 16 distinct ranges a field that come seldom:
                     words of a table are written when one comes
    --placement P    where a new entry aims: middle, of the gap between the
                     entries that it must stand between, which is the default;
                     rank, its place among all entries, for a table that is
                     loaded in one commit; or ends, for a list that grows: by
                     rank, but what is lower than all goes right behind what it
                     must stand behind, and what is higher right before it
    --removals R     of scripts of one table, when removals of commits go: last,
                     the default; or first where they may, as a commit of their
                     own, so that their slots are free for the rest
    --trace          a line for each device write and drain; not for gen
    --names          with --trace, of scripts of one table: what each write does
                     and what an entry tests, by the names and words of scripts
    --json           of scripts of one table, a report in JSON: a value a line
                     for each command, device write and drain of a commit
    --depth K        of these, after how many further writes the words of the
                     probes are searched: 0 to 15, by default 0, at once
    --large          of scripts, up to 1048576 slots, as many changes of a table
                     a commit, and 256 MiB of script; not with --json

When something is wrong:
    tcam explain WORDS.. < FILE    tells which of WORDS is wrong, and what it may
                                   be, or each fault and refusal of the script

Exit status:
    0     the script was read, or made, to its end and no commit was refused,
          or a text like this one was printed; of verify, the trace is orderly
    1     the script was read, or made, to its end, and some commit was refused;
          of verify, a line breaks the order
    2     a line of the script is at fault, or of the trace
    3     standard input could not be read
    4     standard output could not be written
    5     a device write failed four times
    6     memory was wanting
    64    the words are no command line

The manual is docs/SCRIPT.md.
";

/// The help of a script of routes.
const ROUTE_HELP: &str = "\
tcam route: carries out a script of routes, and writes a report.

    tcam route [--slots N] [--placement P] [--removals R] [--trace] [--names] [--depth K] [--json] [--large] < FILE

Commands of a script, one a line:
    route add PREFIX RESULT    a new route: packets to the prefix get RESULT,
                               unless a route of a longer prefix holds
    route set PREFIX RESULT    the route of this prefix gives RESULT
    route del PREFIX           the route of this prefix goes
    route put PREFIX RESULT    the prefix gets RESULT, whether it stood or not
    route drop PREFIX          the prefix goes, whether it stood or not
    route all                  the changes up to the commit are the whole set
    commit                     carries out all changes since the last, or none
    trial K                    the same, and takes it back after write K of more
    crash K                    the same, and restarts after write K of more
    packet SRC DST PROTO SPORT DPORT    looks this packet up
    probe SRC DST PROTO SPORT DPORT     looks it up after each later write
    frame HEX                           looks up an IPv4 packet in hexadecimal
    # TEXT                              a comment

    PREFIX         an address, / and a length, as 10.0.0.0/8 or 10.0.0.1/32
    RESULT         a number up to 4294967295
    SRC, DST       an address, as 10.1.2.3
    PROTO          icmp, tcp, udp, or a number up to 255
    SPORT, DPORT   a number up to 65535

Options, of which tcam --help says more:
    --slots N        N slots in use, 1 to 4096, by default 4096
    --placement P    where a new entry aims: middle, the default, rank or ends
    --removals R     when removals go: last, by default, or first where they may
    --trace          a line for each device write and drain
    --names          with --trace, what each write does, by the names of rules
    --depth K        probes are searched K writes later, 0 to 15, by default 0
    --json           a report in JSON, a value a line; no trial, no crash
    --large          up to 1048576 slots, as many changes a commit, and 256 MiB
                     of script; not with --json

Example of a script, whose packet gets the answer 10.0.0.0/8 7:
    route add 10.0.0.0/8 7
    commit
    packet 0.0.0.0 10.1.2.3 tcp 1024 443

The manual is docs/SCRIPT.md.
";

/// The help of a script of an access list.
const ACL_HELP: &str = "\
tcam acl: carries out a script of an access list, and writes a report.

    tcam acl [--slots N] [--ranges R] [--placement P] [--removals R] [--trace] [--names] [--depth K] [--json] [--large] < FILE

Commands of a script, one a line, with the source's side and ports first:
    acl add SEQ ACTION SIDE SIDE PROTOSPEC PORTSPEC PORTSPEC
                               a new rule: packets that meet its conditions
                               get ACTION, unless a rule of lower SEQ holds
    acl set SEQ ACTION         the rule of this number gives ACTION
    acl del SEQ                the rule of this number goes
    acl put SEQ ..             as acl add, whether the number stood or not
    acl drop SEQ               the number goes, whether it stood or not
    acl all                    the changes up to the commit are the whole list
    commit                     carries out all changes since the last, or none
    trial K                    the same, and takes it back after write K of more
    crash K                    the same, and restarts after write K of more
    packet SRC DST PROTO SPORT DPORT    looks this packet up
    probe SRC DST PROTO SPORT DPORT     looks it up after each later write
    frame HEX                           looks up an IPv4 packet in hexadecimal
    # TEXT                              a comment

    SEQ            the rule's place in the list, from 1 to 4294967295
    ACTION         permit, deny or =NUMBER
    SIDE           any, or a prefix as 10.0.0.0/8 or 10.0.0.1/32
    PROTOSPEC      any, or a PROTO: icmp, tcp, udp, or a number up to 255
    PORTSPEC       any, a port up to 65535, or two of them as 1024-65535
    SRC, DST       an address, as 10.1.2.3
    SPORT, DPORT   a number up to 65535

Options, of which tcam --help says more:
    --slots N        N slots in use, 1 to 4096, by default 4096
    --ranges R       how port ranges are tested: cover, the default, or bits
    --placement P    where a new entry aims: middle, the default, rank or ends
    --removals R     when removals go: last, by default, or first where they may
    --trace          a line for each device write and drain
    --names          with --trace, what each write does, by the names of rules
    --depth K        probes are searched K writes later, 0 to 15, by default 0
    --json           a report in JSON, a value a line; no trial, no crash
    --large          up to 1048576 slots, as many changes a commit, and 256 MiB
                     of script; not with --json

Example of a script, whose packet gets the answer 10 permit:
    acl add 10 permit any 10.0.0.0/8 tcp any 443
    commit
    packet 192.0.2.1 10.1.2.3 tcp 1024 443

The manual is docs/SCRIPT.md.
";

/// The help of a script of IPv6 routes.
const ROUTE6_HELP: &str = "\
tcam route6: carries out a script of IPv6 routes, and writes a report.

    tcam route6 [--slots N] [--placement P] [--removals R] [--trace] [--names] [--depth K] [--json] [--large] < FILE

Commands of a script, one a line:
    route add PREFIX RESULT    a new route: packets to the prefix get RESULT,
                               unless a route of a longer prefix holds
    route set PREFIX RESULT    the route of this prefix gives RESULT
    route del PREFIX           the route of this prefix goes
    route put PREFIX RESULT    the prefix gets RESULT, whether it stood or not
    route drop PREFIX          the prefix goes, whether it stood or not
    route all                  the changes up to the commit are the whole set
    commit                     carries out all changes since the last, or none
    trial K                    the same, and takes it back after write K of more
    crash K                    the same, and restarts after write K of more
    packet SRC DST PROTO SPORT DPORT    looks this packet up
    probe SRC DST PROTO SPORT DPORT     looks it up after each later write
    frame HEX                           looks up an IPv6 packet in hexadecimal
    # TEXT                              a comment

    PREFIX         an address, / and a length, as 2001:db8::/32 or ::1/128
    RESULT         a number up to 4294967295
    SRC, DST       an address, as 2001:db8::1
    PROTO          icmp, tcp, udp, or a number up to 255
    SPORT, DPORT   a number up to 65535

Options, of which tcam --help says more:
    --slots N        N slots in use, 1 to 4096, by default 4096
    --placement P    where a new entry aims: middle, the default, rank or ends
    --removals R     when removals go: last, by default, or first where they may
    --trace          a line for each device write and drain
    --names          with --trace, what each write does, by the names of rules
    --depth K        probes are searched K writes later, 0 to 15, by default 0
    --json           a report in JSON, a value a line; no trial, no crash
    --large          up to 1048576 slots, as many changes a commit, and 256 MiB
                     of script; not with --json

Example of a script, whose packet gets the answer 2001:db8::/32 7:
    route add 2001:db8::/32 7
    commit
    packet :: 2001:db8::1 tcp 1024 443

The manual is docs/SCRIPT.md.
";

/// The help of a script of an IPv6 access list.
const ACL6_HELP: &str = "\
tcam acl6: carries out a script of an IPv6 access list, and writes a report.

    tcam acl6 [--slots N] [--ranges R] [--placement P] [--removals R] [--trace] [--names] [--depth K] [--json] [--large] < FILE

Commands of a script, one a line, with the source's side and ports first:
    acl add SEQ ACTION SIDE SIDE PROTOSPEC PORTSPEC PORTSPEC
                               a new rule: packets that meet its conditions
                               get ACTION, unless a rule of lower SEQ holds
    acl set SEQ ACTION         the rule of this number gives ACTION
    acl del SEQ                the rule of this number goes
    acl put SEQ ..             as acl add, whether the number stood or not
    acl drop SEQ               the number goes, whether it stood or not
    acl all                    the changes up to the commit are the whole list
    commit                     carries out all changes since the last, or none
    trial K                    the same, and takes it back after write K of more
    crash K                    the same, and restarts after write K of more
    packet SRC DST PROTO SPORT DPORT    looks this packet up
    probe SRC DST PROTO SPORT DPORT     looks it up after each later write
    frame HEX                           looks up an IPv6 packet in hexadecimal
    # TEXT                              a comment

    SEQ            the rule's place in the list, from 1 to 4294967295
    ACTION         permit, deny or =NUMBER
    SIDE           any, or a prefix as 2001:db8::/32 or ::1/128
    PROTOSPEC      any, or a PROTO: icmp, tcp, udp, or a number up to 255
    PORTSPEC       any, a port up to 65535, or two of them as 1024-65535
    SRC, DST       an address, as 2001:db8::1
    SPORT, DPORT   a number up to 65535

Options, of which tcam --help says more:
    --slots N        N slots in use, 1 to 4096, by default 4096
    --ranges R       how port ranges are tested: cover, the default, or bits
    --placement P    where a new entry aims: middle, the default, rank or ends
    --removals R     when removals go: last, by default, or first where they may
    --trace          a line for each device write and drain
    --names          with --trace, what each write does, by the names of rules
    --depth K        probes are searched K writes later, 0 to 15, by default 0
    --json           a report in JSON, a value a line; no trial, no crash
    --large          up to 1048576 slots, as many changes a commit, and 256 MiB
                     of script; not with --json

Example of a script, whose packet gets the answer 10 permit:
    acl add 10 permit any 2001:db8::/32 tcp any 443
    commit
    packet 2001:db8:1::1 2001:db8::1 tcp 1024 443

The manual is docs/SCRIPT.md.
";

/// The help of made commands.
const GEN_HELP: &str = "\
tcam gen: carries out changes of an access list that it makes from a number, and
writes a report. It reads no script.

    tcam gen SEED RULES BATCHES [--slots N] [--ranges R] [--placement P]

    SEED       the number, from 0 to 2147483647: the same gives the same changes
    RULES      how many rules a batch adds, from 1 to 256
    BATCHES    how many batches there are, from 1 to 64

A batch first removes all rules of the one before, then adds its own, and is
ended by a commit. The report has a line for each commit, and the last line.

Options, of which tcam --help says more:
    --slots N        N slots in use, 1 to 4096, by default 4096
    --ranges R       how port ranges are tested: cover, the default, or bits
    --placement P    where a new entry aims: middle, the default, rank or ends

Example, of two commits of one rule each:
    tcam gen 1 1 2

The manual is docs/SCRIPT.md.
";

/// The help of the check of a trace.
const VERIFY_HELP: &str = "\
tcam verify: checks a trace of device writes. Where it says yes, each write is
hitless: each packet gets the answer of the rules before its commit or of those
after it. A no says that a line breaks tcam's own order, be it hitless or not.

    tcam verify < FILE

A trace has a JSON value a line, as tcam route --json and its like print:
    {\"family\":F,\"mode\":M,\"slots\":N}
                         first: route, acl, route6 or acl6; cover or bits; the
                         slots in use
    {\"commit\":N}         commit N begins, counted from 1
    {\"add\":[P,SA,SL,DA,DL,PR,A,B,C,D,R]}
                         it adds a rule of priority P
    {\"set\":[P,R]}        it gives the rule of priority P the result R
    {\"del\":P}            it removes the rule of priority P
    {\"put\":[5 values,5 masks,P,R],\"slot\":S}
                         slot S gets an entry
    {\"erase\":S}          slot S is emptied
    {\"port\":P,\"table\":F,\"word\":W}
                         a word of the table of src or dst is written
    {\"drain\":true}       the words in flight are searched
    {\"done\":N}           commit N is done
    {\"refused\":N}        commit N was refused
    {\"end\":W}            last: the trace has W writes
    {\"fault\":TEXT,\"line\":N}
                         or last: line N of a script was at fault

Of route6 and acl6 a P stands for five numbers, its high part and four words of
32 bits, the highest first; in a del they are an array. SA and DA are four words
each, and a put has 11 values and 11 masks.

Spaces and the order of members are free, blank lines are skipped, and a line
has at most 512 bytes.

What is told, and the exit status:
    yes commits N writes W    0: each write is hitless; N commits were accepted
    no line N                 1: line N is the first that breaks the order
    line N bad trace          2: it is none of a trace, or may not stand there,
                              or the last line is missing

The manual is docs/SCRIPT.md.
";

/// What `--version` prints.
pub const VERSION: &str = "tcam 0.2.0\n";

/// The help of a subcommand, or of the program where none is named.
pub fn help_of(topic: Option<Topic>) -> &'static str
    ensures { IsOwnText (HelpOn topic) result.now }
{
    match topic {
        None => HELP,
        Some(topic) => match topic {
            Topic::Route => ROUTE_HELP,
            Topic::Acl => ACL_HELP,
            Topic::Route6 => ROUTE6_HELP,
            Topic::Acl6 => ACL6_HELP,
            Topic::Gen => GEN_HELP,
            Topic::Verify => VERIFY_HELP,
        },
    }
}
