//! Packets that tests look up.
use rule_model::Key;

/// A packet to an address.
pub fn packet_to(addr: u32) -> Key {
    Key::v4(0, addr, 0, 0, 0)
}

/// A packet from a port to a port.
pub fn packet_of_ports(from: u16, to: u16) -> Key {
    Key::v4(0, 0, 0, from, to)
}

/// Packets to 10.1.2.3, 10.1.3.1 and 10.2.0.1.
pub fn routed_packets() -> [Key; 3] {
    [
        packet_to(0x0a01_0203),
        packet_to(0x0a01_0301),
        packet_to(0x0a02_0001),
    ]
}
