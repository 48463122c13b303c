//! The configurations of small networks.

// ---- two routers, each with a default route by the other

pub(crate) const AT_EACH_OTHER: [&str; 2] = [
    "hostname R1
interface Ethernet0
 ip address 10.0.0.1 255.255.255.0
interface Ethernet1
 ip address 10.0.12.1 255.255.255.252
ip route 0.0.0.0 0.0.0.0 10.0.12.2
",
    "hostname R2
interface Ethernet0
 ip address 10.0.12.2 255.255.255.252
ip route 0.0.0.0 0.0.0.0 10.0.12.1
",
];

// ---- two equal routes to 192.168.0.0/24: by a router that passes web traffic there, and by one that lacks it

const SENDS_BY_TWO: &str = "hostname R1
interface Ethernet0
 ip address 10.0.0.1 255.255.255.0
interface Ethernet1
 ip address 10.0.12.1 255.255.255.252
interface Ethernet2
 ip address 10.0.13.1 255.255.255.252
ip route 192.168.0.0 255.255.255.0 10.0.12.2
ip route 192.168.0.0 255.255.255.0 10.0.13.2
";

const PASSES_WEB: &str = "hostname R2
interface Ethernet0
 ip address 10.0.12.2 255.255.255.252
 ip access-group 101 in
interface Ethernet1
 ip address 192.168.0.1 255.255.255.0
access-list 101 permit tcp any any eq www
";

const LACKS_ROUTE: &str = "hostname R3
interface Ethernet0
 ip address 10.0.13.2 255.255.255.252
";

pub(crate) const EQUAL_CHOICES: [&str; 3] = [SENDS_BY_TWO, PASSES_WEB, LACKS_ROUTE];

const PASSES_SECURE: &str = "hostname R2
interface Ethernet0
 ip address 10.0.12.2 255.255.255.252
 ip access-group 101 in
interface Ethernet1
 ip address 192.168.0.1 255.255.255.0
access-list 101 permit tcp any any eq 443
";

const LACKS_ALL: &str = "hostname R3
interface Ethernet0
 ip address 10.0.13.2 255.255.255.252
 shutdown
";

pub(crate) const OTHER_CHOICE: [&str; 3] = [SENDS_BY_TWO, PASSES_SECURE, LACKS_ROUTE];

pub(crate) const SHUT_CHOICE: [&str; 3] = [SENDS_BY_TWO, PASSES_WEB, LACKS_ALL];

// ---- two links in a circle: over the one the source 10.0.0.5 is translated to 203.0.113.5, and over the other, or on
// the way out to 9.9.9.0/24, back

pub(crate) const THERE_AND_BACK: [&str; 2] = [
    "hostname R1
interface Ethernet0
 ip address 10.2.0.1 255.255.255.252
 ip nat inside
interface Ethernet1
 ip address 10.1.0.1 255.255.255.252
 ip nat outside
ip route 0.0.0.0 0.0.0.0 10.1.0.2
ip nat inside source static 10.0.0.5 203.0.113.5
",
    "hostname R2
interface Ethernet0
 ip address 10.2.0.2 255.255.255.252
 ip nat outside
interface Ethernet1
 ip address 10.1.0.2 255.255.255.252
 ip nat inside
interface Ethernet2
 ip address 9.9.9.1 255.255.255.0
 ip nat outside
ip route 0.0.0.0 0.0.0.0 10.2.0.1
ip nat inside source static 203.0.113.5 10.0.0.5
",
];

// ---- a lan of four ends: the first router sends by the second, which leads on, by the third, which is shut down, by
// the fourth, which may send back, and by an address that no end has

const SENDS_BY_ALL: &str = "hostname R1
interface Ethernet0
 ip address 10.0.0.1 255.255.255.0
interface Ethernet1
 ip address 10.0.5.1 255.255.255.0
ip route 172.16.0.0 255.255.255.0 10.0.5.2
ip route 172.16.1.0 255.255.255.0 10.0.5.3
ip route 172.16.2.0 255.255.255.0 10.0.5.4
ip route 172.16.3.0 255.255.255.0 10.0.5.9
";

const LEADS_ON: &str = "hostname R2
interface Ethernet0
 ip address 10.0.5.2 255.255.255.0
interface Ethernet1
 ip address 172.16.0.1 255.255.255.0
";

const IS_SHUT: &str = "hostname R3
interface Ethernet0
 ip address 10.0.5.3 255.255.255.0
 shutdown
";

const SENDS_BACK: &str = "hostname R4
interface Ethernet0
 ip address 10.0.5.4 255.255.255.0
ip route 172.16.0.0 255.255.0.0 10.0.5.1
";

const SENDS_NOWHERE: &str = "hostname R4
interface Ethernet0
 ip address 10.0.5.4 255.255.255.0
";

pub(crate) const FOUR_ENDS: [&str; 4] = [SENDS_BY_ALL, LEADS_ON, IS_SHUT, SENDS_BACK];

pub(crate) const NO_WAY_BACK: [&str; 4] = [SENDS_BY_ALL, LEADS_ON, IS_SHUT, SENDS_NOWHERE];

const LEADS_ON_FROM_ELSEWHERE: &str = "hostname R2
interface Ethernet0
 ip address 10.0.5.7 255.255.255.0
interface Ethernet1
 ip address 172.16.0.1 255.255.255.0
";

pub(crate) const MOVED_END: [&str; 4] = [
    SENDS_BY_ALL,
    LEADS_ON_FROM_ELSEWHERE,
    IS_SHUT,
    SENDS_BACK,
];

// ---- a router that passes everything on

const PASSES_ON: &str = "hostname R
interface Ethernet0
 ip address 10.1.0.1 255.255.255.252
interface Ethernet1
 ip address 10.2.0.1 255.255.255.252
ip route 0.0.0.0 0.0.0.0 Ethernet1
";

/// As many as a packet with the TTL 255 passes, and one with the TTL 254 doesn't.
pub(crate) const LONG_CHAIN: [&str; 254] = [PASSES_ON; 254];

// ---- one router with two links

pub(crate) const TWO_LINKS: [&str; 1] = [
    "hostname R1
interface Ethernet0
 ip address 10.0.0.1 255.255.255.252
interface Ethernet1
 ip address 10.0.1.1 255.255.255.252
",
];

// ---- two equal routes, one of them by an interface whose list stops the traffic

pub(crate) const STOPPED_CHOICE: [&str; 1] = [
    "hostname R1
interface Ethernet0
 ip address 10.0.0.1 255.255.255.0
interface Ethernet1
 ip address 10.0.1.1 255.255.255.252
interface Ethernet2
 ip address 10.0.2.1 255.255.255.252
 ip access-group 102 out
ip route 192.168.0.0 255.255.255.0 10.0.1.2
ip route 192.168.0.0 255.255.255.0 10.0.2.2
access-list 102 deny ip any 192.168.0.0 0.0.0.255
access-list 102 permit ip any any
",
];

// ---- two routers, of which the first translates 10.0.0.5 to 203.0.113.5 on the way out, and the second back

const TRANSLATES: &str = "hostname R1
interface Ethernet0
 ip address 10.0.0.1 255.255.255.0
 ip access-group 1 in
 ip nat inside
interface Ethernet1
 ip address 10.0.12.1 255.255.255.252
 ip nat outside
ip nat inside source static 10.0.0.5 203.0.113.5
ip route 10.9.0.0 255.255.255.252 10.0.12.2
access-list 1 permit 10.0.0.0 0.0.0.255
";

const TRANSLATES_BACK: &str = "hostname R2
interface Ethernet0
 ip address 10.0.12.2 255.255.255.252
 ip nat inside
interface Ethernet1
 ip address 10.9.0.1 255.255.255.252
 ip nat outside
ip nat inside source static 203.0.113.5 10.0.0.5
";

pub(crate) const TRANSLATED_TWICE: [&str; 2] = [TRANSLATES, TRANSLATES_BACK];

const TRANSLATES_NOT: &str = "hostname R2
interface Ethernet0
 ip address 10.0.12.2 255.255.255.252
 ip nat inside
interface Ethernet1
 ip address 10.9.0.1 255.255.255.252
 ip nat outside
";

pub(crate) const TRANSLATED_ONCE: [&str; 2] = [TRANSLATES, TRANSLATES_NOT];

// ---- a lan whose other end is shut down

const HAS_LAN: &str = "hostname R1
interface Ethernet0
 ip address 10.0.0.1 255.255.255.0
interface Ethernet1
 ip address 10.0.1.1 255.255.255.248
";

const SHUTS_END: &str = "hostname R2
interface Ethernet0
 ip address 10.0.1.2 255.255.255.248
 shutdown
";

pub(crate) const SHUT_END: [&str; 2] = [HAS_LAN, SHUTS_END];

const HAS_END: &str = "hostname R2
interface Ethernet0
 ip address 10.0.1.2 255.255.255.248
";

pub(crate) const END_UP: [&str; 2] = [HAS_LAN, HAS_END];

// ---- the router of an office, with a server behind its one address

pub(crate) const OFFICE: [&str; 1] = [
    "hostname EDGE
interface GigabitEthernet0/0
 ip address 192.168.10.1 255.255.255.0
 ip nat inside
interface GigabitEthernet0/1
 ip address 198.51.100.2 255.255.255.252
 ip access-group 101 in
 ip nat outside
interface GigabitEthernet0/2
 no ip address
 shutdown
ip nat inside source static tcp 192.168.10.20 443 198.51.100.2 443 extendable
ip route 0.0.0.0 0.0.0.0 198.51.100.1
access-list 10 permit 192.168.10.0 0.0.0.255
access-list 101 permit tcp any any established
access-list 101 permit tcp any host 198.51.100.2 eq 443
access-list 101 permit icmp any any echo-reply
access-list 101 permit udp any host 198.51.100.2 eq isakmp
",
];

// ---- a router that knows hosts outside by addresses of its own, on a lan with two others. One of these addresses is on the
// lan itself, so that it is the next address

pub(crate) const OUTER_RULES: [&str; 3] = [
    "hostname R1
interface Ethernet0
 ip address 10.0.0.1 255.255.255.0
 ip nat inside
interface Ethernet1
 ip address 10.0.5.1 255.255.255.0
 ip access-group 101 out
 ip nat outside
ip nat inside source static tcp 10.0.0.5 80 203.0.113.5 443
ip nat outside source static 10.0.5.3 10.0.5.2
ip nat outside source static 198.51.100.7 10.8.0.7
ip route 10.8.0.7 255.255.255.255 10.0.5.2
access-list 101 deny ip any host 10.8.0.7
access-list 101 permit ip any any
",
    "hostname R2
interface Ethernet0
 ip address 10.0.5.2 255.255.255.0
ip route 203.0.113.5 255.255.255.255 10.0.5.1
",
    "hostname R3
interface Ethernet0
 ip address 10.0.5.3 255.255.255.0
",
];
