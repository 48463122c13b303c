//! The names in access lists: protocols, ports, ICMP messages and TCP flags.
ghost use Rattle.std.specs.Prelude.{◌≡◌, map};
ghost use Rattle.ios_words.specs.Names.{row_of, value_of, proto_of, port_of, ports_of, tcp_ports, udp_ports, icmp_of, flag_of};

use crate::number;

/// The IP protocol, 1 to 255, that the word names or writes.
///
/// None exactly where it is neither; `ip`, which stands for any protocol, is none.
pub fn proto(word: &[u8]) -> Option<u8>
    ensures { result ≡ proto_of word.now }
{
    let rows: [(&[u8], u8); 11] = [
        (b"icmp", 1),
        (b"igmp", 2),
        (b"ipinip", 4),
        (b"tcp", 6),
        (b"udp", 17),
        (b"gre", 47),
        (b"esp", 50),
        (b"ahp", 51),
        (b"eigrp", 88),
        (b"ospf", 89),
        (b"pim", 103),
    ];
    if let Some(proto) = named(word, &rows) {
        return Some(proto);
    }
    let value = number(word, 1, 255)?;
    Some(value as u8)
}

/// The port that the word names for this protocol, 6 for TCP and 17 for UDP, or writes.
///
/// None exactly where it does neither.
pub fn port(word: &[u8], proto: u8) -> Option<u16>
    ensures { result ≡ port_of word.now proto }
{
    if let Some(port) = named_port(word, proto) {
        return Some(port);
    }
    let value = number(word, 0, 65535)?;
    Some(value as u16)
}

fn named_port(word: &[u8], proto: u8) -> Option<u16>
    ensures { result ≡ value_of (ports_of proto) word.now }
{
    if proto == 6 {
        return tcp_port(word);
    }
    if proto == 17 {
        return udp_port(word);
    }
    None
}

fn tcp_port(word: &[u8]) -> Option<u16>
    ensures { result ≡ value_of tcp_ports word.now }
{
    let rows: [(&[u8], u16); 31] = [
        (b"echo", 7),
        (b"discard", 9),
        (b"daytime", 13),
        (b"chargen", 19),
        (b"ftp-data", 20),
        (b"ftp", 21),
        (b"telnet", 23),
        (b"smtp", 25),
        (b"time", 37),
        (b"whois", 43),
        (b"tacacs", 49),
        (b"domain", 53),
        (b"gopher", 70),
        (b"finger", 79),
        (b"www", 80),
        (b"hostname", 101),
        (b"pop2", 109),
        (b"pop3", 110),
        (b"sunrpc", 111),
        (b"ident", 113),
        (b"nntp", 119),
        (b"bgp", 179),
        (b"irc", 194),
        (b"exec", 512),
        (b"login", 513),
        (b"cmd", 514),
        (b"lpd", 515),
        (b"talk", 517),
        (b"uucp", 540),
        (b"klogin", 543),
        (b"kshell", 544),
    ];
    named(word, &rows)
}

fn udp_port(word: &[u8]) -> Option<u16>
    ensures { result ≡ value_of udp_ports word.now }
{
    let rows: [(&[u8], u16); 25] = [
        (b"echo", 7),
        (b"discard", 9),
        (b"time", 37),
        (b"nameserver", 42),
        (b"tacacs", 49),
        (b"domain", 53),
        (b"bootps", 67),
        (b"bootpc", 68),
        (b"tftp", 69),
        (b"sunrpc", 111),
        (b"ntp", 123),
        (b"netbios-ns", 137),
        (b"netbios-dgm", 138),
        (b"netbios-ss", 139),
        (b"snmp", 161),
        (b"snmptrap", 162),
        (b"xdmcp", 177),
        (b"mobile-ip", 434),
        (b"isakmp", 500),
        (b"biff", 512),
        (b"who", 513),
        (b"syslog", 514),
        (b"talk", 517),
        (b"rip", 520),
        (b"non500-isakmp", 4500),
    ];
    named(word, &rows)
}

/// The ICMP type, and the code if it has one, that the word names.
///
/// None exactly where it is no such name.
pub fn icmp(word: &[u8]) -> Option<(u8, Option<u8>)>
    ensures { result ≡ icmp_of word.now }
{
    let rows: [(&[u8], (u8, Option<u8>)); 13] = [
        (b"echo-reply", (0, None)),
        (b"unreachable", (3, None)),
        (b"net-unreachable", (3, Some(0))),
        (b"host-unreachable", (3, Some(1))),
        (b"port-unreachable", (3, Some(3))),
        (b"packet-too-big", (3, Some(4))),
        (b"administratively-prohibited", (3, Some(13))),
        (b"source-quench", (4, None)),
        (b"redirect", (5, None)),
        (b"echo", (8, None)),
        (b"time-exceeded", (11, None)),
        (b"ttl-exceeded", (11, Some(0))),
        (b"parameter-problem", (12, None)),
    ];
    named(word, &rows)
}

/// The TCP flag that the word names, as its bit.
///
/// None exactly where it is no such name.
pub fn flag(word: &[u8]) -> Option<u8>
    ensures { result ≡ flag_of word.now }
{
    let rows: [(&[u8], u8); 6] = [
        (b"fin", 1),
        (b"syn", 2),
        (b"rst", 4),
        (b"psh", 8),
        (b"ack", 16),
        (b"urg", 32),
    ];
    named(word, &rows)
}

/// What the name stands for.
fn named<V: Copy>(word: &[u8], rows: &[(&[u8], V)]) -> Option<V>
    ensures { result ≡ value_of (map row_of rows.now) word.now }
{
    for row in rows {
        if row.0 == word {
            return Some(row.1);
        }
    }
    None
}
