//! The names of protocols and of ports.

ghost use Rattle.std.specs.Prelude.{◌≡◌};
ghost use Rattle.cisco_lists.specs.Names.{common_port, known_protocol, less_common_protocol, mail_port, named_port, number_port, other_udp_port, port_names, protocol_number, shell_port, some_udp_port, tcp_port, udp_port, net_port};

use ip_routes::is_named;
use line_words::{port_of, protocol_of};

/// Whose names ports have.
#[derive(Clone, Copy, Debug, PartialEq, Eq)]
pub(crate) enum PortNames {
    /// Those of TCP.
    Tcp,
    /// Those of UDP.
    Udp,
    /// The protocol has no ports, or it isn't one.
    Without,
}

/// Whose names the ports of a protocol have.
pub(crate) fn port_names(protocol: Option<u8>) -> PortNames
    ensures { result ≡ port_names protocol }
{
    match protocol {
        None => PortNames::Without,
        Some(number) => {
            if number == 6 {
                PortNames::Tcp
            } else if number == 17 {
                PortNames::Udp
            } else {
                PortNames::Without
            }
        }
    }
}

/// The number of a protocol by its name or its number.
pub(crate) fn protocol_number(word: &[u8]) -> Option<u8>
    ensures { result ≡ protocol_number word.now }
{
    match known_protocol(word) {
        Some(number) => Some(number),
        None => match protocol_of(word) {
            Ok(number) => Some(number),
            Err(_) => None,
        },
    }
}

/// The number of a protocol that has a name in lists alone.
fn known_protocol(word: &[u8]) -> Option<u8>
    ensures { result ≡ known_protocol word.now }
{
    if is_named(word, b"igmp") {
        Some(2)
    } else if is_named(word, b"gre") {
        Some(47)
    } else if is_named(word, b"esp") {
        Some(50)
    } else if is_named(word, b"ahp") {
        Some(51)
    } else if is_named(word, b"eigrp") {
        Some(88)
    } else if is_named(word, b"ospf") {
        Some(89)
    } else if is_named(word, b"pim") {
        Some(103)
    } else {
        less_common_protocol(word)
    }
}

/// One of the others.
fn less_common_protocol(word: &[u8]) -> Option<u8>
    ensures { result ≡ less_common_protocol word.now }
{
    if is_named(word, b"ipinip") {
        Some(4)
    } else if is_named(word, b"nos") {
        Some(94)
    } else if is_named(word, b"pcp") {
        Some(108)
    } else if is_named(word, b"vrrp") {
        Some(112)
    } else {
        None
    }
}

/// The port of a name or a number.
pub(crate) fn named_port(names: PortNames, word: &[u8]) -> Option<u16>
    ensures { result ≡ named_port names word.now }
{
    match names {
        PortNames::Tcp => tcp_port(word),
        PortNames::Udp => udp_port(word),
        PortNames::Without => None,
    }
}

/// A port of TCP.
fn tcp_port(word: &[u8]) -> Option<u16>
    ensures { result ≡ tcp_port word.now }
{
    if is_named(word, b"www") {
        Some(80)
    } else if is_named(word, b"https") {
        Some(443)
    } else if is_named(word, b"ssh") {
        Some(22)
    } else if is_named(word, b"telnet") {
        Some(23)
    } else if is_named(word, b"smtp") {
        Some(25)
    } else if is_named(word, b"bgp") {
        Some(179)
    } else if is_named(word, b"ftp") {
        Some(21)
    } else if is_named(word, b"ftp-data") {
        Some(20)
    } else {
        mail_port(word)
    }
}

/// One of mail and news.
fn mail_port(word: &[u8]) -> Option<u16>
    ensures { result ≡ mail_port word.now }
{
    if is_named(word, b"pop2") {
        Some(109)
    } else if is_named(word, b"pop3") {
        Some(110)
    } else if is_named(word, b"nntp") {
        Some(119)
    } else if is_named(word, b"irc") {
        Some(194)
    } else if is_named(word, b"ident") {
        Some(113)
    } else if is_named(word, b"lpd") {
        Some(515)
    } else if is_named(word, b"gopher") {
        Some(70)
    } else if is_named(word, b"finger") {
        Some(79)
    } else {
        shell_port(word)
    }
}

/// One of a machine's users.
fn shell_port(word: &[u8]) -> Option<u16>
    ensures { result ≡ shell_port word.now }
{
    if is_named(word, b"cmd") {
        Some(514)
    } else if is_named(word, b"exec") {
        Some(512)
    } else if is_named(word, b"login") {
        Some(513)
    } else if is_named(word, b"klogin") {
        Some(543)
    } else if is_named(word, b"kshell") {
        Some(544)
    } else if is_named(word, b"uucp") {
        Some(540)
    } else if is_named(word, b"hostname") {
        Some(101)
    } else if is_named(word, b"whois") {
        Some(43)
    } else {
        net_port(word)
    }
}

/// One of a network's own.
fn net_port(word: &[u8]) -> Option<u16>
    ensures { result ≡ net_port word.now }
{
    if is_named(word, b"chargen") {
        Some(19)
    } else if is_named(word, b"daytime") {
        Some(13)
    } else if is_named(word, b"drip") {
        Some(3949)
    } else if is_named(word, b"msrpc") {
        Some(135)
    } else if is_named(word, b"syslog") {
        Some(514)
    } else {
        common_port(word)
    }
}

/// A port that TCP and UDP have under one name.
fn common_port(word: &[u8]) -> Option<u16>
    ensures { result ≡ common_port word.now }
{
    if is_named(word, b"domain") {
        Some(53)
    } else if is_named(word, b"discard") {
        Some(9)
    } else if is_named(word, b"echo") {
        Some(7)
    } else if is_named(word, b"pim-auto-rp") {
        Some(496)
    } else if is_named(word, b"sunrpc") {
        Some(111)
    } else if is_named(word, b"tacacs") {
        Some(49)
    } else if is_named(word, b"talk") {
        Some(517)
    } else if is_named(word, b"time") {
        Some(37)
    } else {
        number_port(word)
    }
}

/// A port by its number.
fn number_port(word: &[u8]) -> Option<u16>
    ensures { result ≡ number_port word.now }
{
    match port_of(word) {
        Ok(port) => Some(port),
        Err(_) => None,
    }
}

/// A port of UDP.
fn udp_port(word: &[u8]) -> Option<u16>
    ensures { result ≡ udp_port word.now }
{
    if is_named(word, b"snmp") {
        Some(161)
    } else if is_named(word, b"snmptrap") {
        Some(162)
    } else if is_named(word, b"ntp") {
        Some(123)
    } else if is_named(word, b"bootps") {
        Some(67)
    } else if is_named(word, b"bootpc") {
        Some(68)
    } else if is_named(word, b"tftp") {
        Some(69)
    } else if is_named(word, b"isakmp") {
        Some(500)
    } else if is_named(word, b"non500-isakmp") {
        Some(4500)
    } else {
        some_udp_port(word)
    }
}

/// One of names and of routing.
fn some_udp_port(word: &[u8]) -> Option<u16>
    ensures { result ≡ some_udp_port word.now }
{
    if is_named(word, b"netbios-ns") {
        Some(137)
    } else if is_named(word, b"netbios-dgm") {
        Some(138)
    } else if is_named(word, b"netbios-ss") {
        Some(139)
    } else if is_named(word, b"rip") {
        Some(520)
    } else if is_named(word, b"syslog") {
        Some(514)
    } else if is_named(word, b"nameserver") {
        Some(42)
    } else if is_named(word, b"mobile-ip") {
        Some(434)
    } else {
        other_udp_port(word)
    }
}

/// One of the others.
fn other_udp_port(word: &[u8]) -> Option<u16>
    ensures { result ≡ other_udp_port word.now }
{
    if is_named(word, b"biff") {
        Some(512)
    } else if is_named(word, b"who") {
        Some(513)
    } else if is_named(word, b"dnsix") {
        Some(195)
    } else if is_named(word, b"xdmcp") {
        Some(177)
    } else if is_named(word, b"ripv6") {
        Some(521)
    } else {
        common_port(word)
    }
}
