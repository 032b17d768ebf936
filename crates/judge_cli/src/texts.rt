//! The texts that the program prints about the judge.

/// What is printed where words are no command line.
pub(crate) const USAGE: &str = "usage\n";

/// The help.
pub(crate) const JUDGE_HELP: &str = "\
tcam judge: reads the trace of any driver's device writes, and says whether one
of them lets a packet get a wrong answer, and which packet.

    tcam judge [--results] < FILE

A trace has a JSON value a line: those of tcam verify --help, whatever order the
driver writes in and however it cuts rules into entries, and two more:
    {\"move\":[FROM,TO,COUNT]}  what stood in COUNT slots from FROM on stands from
                             TO on, by one event
    {\"back\":N}              commit N was taken back, in the place of done

Behind each write every packet has to get what the rules before its commit
answer, or what those after it do; at done the latter, at back the former.

Options:
    --results       answers are compared by their result alone, where the log
                    doesn't know the priority of an entry

What is told, and the exit status:
    yes commits N writes W    0: each write is hitless
    no line N packet SRC DST PROTO SPORT DPORT gets A, old B, new C
                              1: line N is the first behind which a packet gets
                              a wrong answer, and this packet does. A, B and C
                              are none, or HIGH:LOW RESULT: both parts of a
                              priority, and a result
    line N bad trace          2: it is none of a trace, or may not stand there,
                              or the last line is missing
    line N not judged         5: whether it is wasn't found out; those before it
                              are hitless
    3 and 6: standard input could not be read, or memory was wanting. 4: standard
    output could not be written. 64: the words are no command line.

The manual is docs/JUDGE.md.
";
