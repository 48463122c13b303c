//! The configurations of small networks.

/// Two routers, each with a default route by the other. What neither knows goes to and fro until its TTL runs out.
pub(crate) const AT_EACH_OTHER: [&str; 2] = [
    "hostname R1
interface Ethernet0
 ip address 10.0.0.1 255.255.255.0
interface Ethernet1
 ip address 10.0.12.1 255.255.255.252
ip route 0.0.0.0 0.0.0.0 10.0.12.2
",
    "hostname R2
interface Ethernet0
 ip address 10.0.12.2 255.255.255.252
ip route 0.0.0.0 0.0.0.0 10.0.12.1
",
];

/// Two equal routes to 192.168.0.0/24: by a router that has it, and by one that lacks it.
pub(crate) const EQUAL_CHOICES: [&str; 3] = [
    "hostname R1
interface Ethernet0
 ip address 10.0.0.1 255.255.255.0
interface Ethernet1
 ip address 10.0.12.1 255.255.255.252
interface Ethernet2
 ip address 10.0.13.1 255.255.255.252
ip route 192.168.0.0 255.255.255.0 10.0.12.2
ip route 192.168.0.0 255.255.255.0 10.0.13.2
",
    "hostname R2
interface Ethernet0
 ip address 10.0.12.2 255.255.255.252
interface Ethernet1
 ip address 192.168.0.1 255.255.255.0
",
    "hostname R3
interface Ethernet0
 ip address 10.0.13.2 255.255.255.252
",
];

/// The first of the two routers at each other, with its link shut.
pub(crate) const SHUT: &str = "hostname R1
interface Ethernet0
 ip address 10.0.0.1 255.255.255.0
interface Ethernet1
 ip address 10.0.12.1 255.255.255.252
 shutdown
ip route 0.0.0.0 0.0.0.0 10.0.12.2
";
