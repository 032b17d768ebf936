//! The text that the program prints about a router's scripts.

/// The help of a router's script.
pub const ROUTER_HELP: &str = "\
tcam router: carries out a script of two tables, an access list and routes,
each over a device of its own, and writes a report; router6 one of IPv6.

    tcam router [--slots N] [--ranges R] [--placement P] [--trace] [--large] < FILE
    tcam router6 [--slots N] [--ranges R] [--placement P] [--trace] [--large] < FILE

Commands of a script, one a line, with the source's side and ports first:
    acl add SEQ ACTION SIDE SIDE PROTOSPEC PORTSPEC PORTSPEC
                               a new rule: packets that meet its conditions
                               get ACTION, unless a rule of lower SEQ holds
    acl set SEQ ACTION         the rule of this number gives ACTION
    acl del SEQ                the rule of this number goes
    route add PREFIX RESULT    a new route: packets to the prefix get RESULT,
                               unless a route of a longer prefix holds
    route set PREFIX RESULT    the route of this prefix gives RESULT
    route del PREFIX           the route of this prefix goes
    commit                     carries out all changes since the last, the
                               list's and then the routes', or none of either
    packet SRC DST PROTO SPORT DPORT    looks this packet up in both tables
    frame HEX                           looks up an IP packet in hexadecimal
    # TEXT                              a comment

    SEQ            the rule's place in the list, from 1 to 4294967295
    ACTION         permit, deny or =NUMBER
    SIDE           any, or a prefix as 10.0.0.0/8 or 10.0.0.1/32
    PROTOSPEC      any, or a PROTO: icmp, tcp, udp, or a number up to 255
    PORTSPEC       any, a port up to 65535, or two of them as 1024-65535
    PREFIX         an address, / and a length, as 10.0.0.0/8 or 10.0.0.1/32
    RESULT         a number up to 4294967295
    SRC, DST       an address, as 10.1.2.3
    SPORT, DPORT   a number up to 65535

In a script of router6 each address is one of IPv6, as 2001:db8::1, and the
length of a prefix is at most 128.

Options, of which tcam --help says more:
    --slots N        N slots of each device in use, 1 to 4096, by default 4096
    --ranges R       how port ranges are tested: cover, the default, or bits
    --placement P    where a new entry aims: middle, the default, rank or ends
    --trace          a line for each device write and drain
    --large          up to 1048576 slots, as many changes of a table a commit,
                     and 256 MiB of script

Example of a script, whose packet gets the answers 10 permit and 10.0.0.0/8 7:
    acl add 10 permit any 10.0.0.0/8 tcp any 443
    route add 10.0.0.0/8 7
    commit
    packet 192.0.2.1 10.1.2.3 tcp 1024 443

The manual is docs/SCRIPT.md.
";
