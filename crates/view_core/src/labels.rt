//! What numbers are called: the names that access lists have for protocols, ports and ICMP messages.
ghost use Rattle.std.specs.Prelude.{◌≡◌, map, option_map};
ghost use Rattle.ios_words.specs.Names.{protocols, row_of};
ghost use Rattle.view_core.specs.NumberNames.{name_of, tcp_names, udp_names, type_names, code_names};
ghost use Rattle.view_core.specs.FieldWords.{port_name, option_same};

/// The protocols whose names the ports have.
#[derive(Clone, Copy)]
pub(crate) enum Service {
    /// None: a port has no name.
    Unknown,
    Tcp,
    Udp,
    /// Both of these: a port has a name that is the same for them.
    Both,
}

/// The name of a port.
pub(crate) fn port_name(number: u32, service: Service) -> Option<&'static [u8]>
    ensures { option_map (λ name. name.now) result ≡ port_name service number }
{
    match service {
        Service::Unknown => None,
        Service::Tcp => tcp_name(number),
        Service::Udp => udp_name(number),
        Service::Both => {
            if are_same(tcp_name(number), udp_name(number)) {
                tcp_name(number)
            } else {
                None
            }
        }
    }
}

fn are_same(a: Option<&[u8]>, b: Option<&[u8]>) -> bool
    ensures { result ≡ option_same (option_map (λ name. name.now) a.entry) (option_map (λ name. name.now) b.entry) }
{
    match (a, b) {
        (Some(a), Some(b)) => a == b,
        _ => false,
    }
}

// The name of a number, where it has one.
fn named<'n>(number: u32, rows: &[(&'n [u8], u32)]) -> Option<&'n [u8]>
    ensures { option_map (λ name. name.now) result ≡ name_of (map row_of rows.now) number }
{
    for row in rows {
        if row.1 == number {
            return Some(row.0);
        }
    }
    None
}

/// The name of an IP protocol.
pub(crate) fn protocol_name(number: u32) -> Option<&'static [u8]>
    ensures { option_map (λ name. name.now) result ≡ name_of protocols number }
{
    let rows: [(&'static [u8], u32); 11] = [
        (b"icmp", 1),
        (b"igmp", 2),
        (b"ipinip", 4),
        (b"tcp", 6),
        (b"udp", 17),
        (b"gre", 47),
        (b"esp", 50),
        (b"ahp", 51),
        (b"eigrp", 88),
        (b"ospf", 89),
        (b"pim", 103),
    ];
    named(number, &rows)
}

fn tcp_name(number: u32) -> Option<&'static [u8]>
    ensures { option_map (λ name. name.now) result ≡ name_of tcp_names number }
{
    let rows: [(&'static [u8], u32); 33] = [
        (b"echo", 7),
        (b"discard", 9),
        (b"daytime", 13),
        (b"chargen", 19),
        (b"ftp-data", 20),
        (b"ftp", 21),
        (b"telnet", 23),
        (b"smtp", 25),
        (b"time", 37),
        (b"whois", 43),
        (b"tacacs", 49),
        (b"domain", 53),
        (b"gopher", 70),
        (b"finger", 79),
        (b"www", 80),
        (b"hostname", 101),
        (b"pop2", 109),
        (b"pop3", 110),
        (b"sunrpc", 111),
        (b"ident", 113),
        (b"nntp", 119),
        (b"bgp", 179),
        (b"irc", 194),
        (b"exec", 512),
        (b"login", 513),
        (b"cmd", 514),
        (b"lpd", 515),
        (b"talk", 517),
        (b"uucp", 540),
        (b"klogin", 543),
        (b"kshell", 544),
        (b"ssh", 22),
        (b"https", 443),
    ];
    named(number, &rows)
}

fn udp_name(number: u32) -> Option<&'static [u8]>
    ensures { option_map (λ name. name.now) result ≡ name_of udp_names number }
{
    let rows: [(&'static [u8], u32); 26] = [
        (b"echo", 7),
        (b"discard", 9),
        (b"time", 37),
        (b"nameserver", 42),
        (b"tacacs", 49),
        (b"domain", 53),
        (b"bootps", 67),
        (b"bootpc", 68),
        (b"tftp", 69),
        (b"sunrpc", 111),
        (b"ntp", 123),
        (b"netbios-ns", 137),
        (b"netbios-dgm", 138),
        (b"netbios-ss", 139),
        (b"snmp", 161),
        (b"snmptrap", 162),
        (b"xdmcp", 177),
        (b"mobile-ip", 434),
        (b"isakmp", 500),
        (b"biff", 512),
        (b"who", 513),
        (b"syslog", 514),
        (b"talk", 517),
        (b"rip", 520),
        (b"non500-isakmp", 4500),
        (b"https", 443),
    ];
    named(number, &rows)
}

/// The name of an ICMP type, whatever its code is.
pub(crate) fn type_name(number: u32) -> Option<&'static [u8]>
    ensures { option_map (λ name. name.now) result ≡ name_of type_names number }
{
    let rows: [(&'static [u8], u32); 7] = [
        (b"echo-reply", 0),
        (b"unreachable", 3),
        (b"source-quench", 4),
        (b"redirect", 5),
        (b"echo", 8),
        (b"time-exceeded", 11),
        (b"parameter-problem", 12),
    ];
    named(number, &rows)
}

/// The name of an ICMP message, a type times 256 plus a code, whose code has one.
pub(crate) fn code_name(number: u32) -> Option<&'static [u8]>
    ensures { option_map (λ name. name.now) result ≡ name_of code_names number }
{
    let rows: [(&'static [u8], u32); 6] = [
        (b"net-unreachable", 768),
        (b"host-unreachable", 769),
        (b"port-unreachable", 771),
        (b"packet-too-big", 772),
        (b"administratively-prohibited", 781),
        (b"ttl-exceeded", 2816),
    ];
    named(number, &rows)
}
