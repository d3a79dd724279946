use base::{Handle, Kind, MemoryAttributes, PartitionId, Permissions, Version};
use descr::{Endpoint, RetrieveDesc, read_retrieve};
use std::process::Abort;

/// 0x8002 asks for what 0x8001 lent under handle 0x0807060504030201, read-write, in the layout of
/// FF-A 1.1.
const REQUEST: [u8; 64] = [
    0x01, 0x80, 0x2f, 0x00, 0x10, 0x00, 0x00, 0x00, 0x01, 0x02, 0x03, 0x04, 0x05, 0x06, 0x07, 0x08,
    0x11, 0x12, 0x13, 0x14, 0x15, 0x16, 0x17, 0x18, 0x10, 0x00, 0x00, 0x00, 0x01, 0x00, 0x00, 0x00,
    0x30, 0x00, 0x00, 0x00, 0x00, 0x00, 0x00, 0x00, 0x00, 0x00, 0x00, 0x00, 0x00, 0x00, 0x00, 0x00,
    0x02, 0x80, 0x02, 0x00, 0x00, 0x00, 0x00, 0x00, 0x00, 0x00, 0x00, 0x00, 0x00, 0x00, 0x00, 0x00,
];

/// The same in the layout of FF-A 1.0.
const REQUEST_1_0: [u8; 48] = [
    0x01, 0x80, 0x2f, 0x00, 0x10, 0x00, 0x00, 0x00, 0x01, 0x02, 0x03, 0x04, 0x05, 0x06, 0x07, 0x08,
    0x11, 0x12, 0x13, 0x14, 0x15, 0x16, 0x17, 0x18, 0x00, 0x00, 0x00, 0x00, 0x01, 0x00, 0x00, 0x00,
    0x02, 0x80, 0x02, 0x00, 0x00, 0x00, 0x00, 0x00, 0x00, 0x00, 0x00, 0x00, 0x00, 0x00, 0x00, 0x00,
];

/// The request with two bytes of its flags.
fn with_flags(low: u8, high: u8) -> [u8; 64] {
    let mut bytes = REQUEST;
    bytes[4] = low;
    bytes[5] = high;
    bytes
}

/// The request with these flags is read so.
fn assert_flags(rt: &impl Abort, low: u8, high: u8, kind: Option<Kind>, bypass: bool) {
    let desc = read_retrieve(&with_flags(low, high), Version::V11).expect(rt, "a request");
    assert_eq!(rt; desc.kind, kind);
    assert_eq!(rt; desc.bypass, bypass);
}

#[test]
fn reads_each_layout(rt: HostRuntime) {
    let request = RetrieveDesc {
        sender: PartitionId::new(0x8001),
        attributes: MemoryAttributes::normal_write_back(),
        kind: Some(Kind::Lend),
        bypass: false,
        handle: Handle::from_bits(0x0807_0605_0403_0201),
        tag: 0x1817_1615_1413_1211,
        endpoint: Endpoint {
            partition: PartitionId::new(0x8002),
            permissions: Permissions::new(2),
        },
    };
    assert_eq!(rt; read_retrieve(&REQUEST, Version::V11), Some(request));
    assert_eq!(rt; read_retrieve(&REQUEST_1_0, Version::V10), Some(request));
    assert!(rt; read_retrieve(&REQUEST, Version::V10).is_none());
    assert!(rt; read_retrieve(&REQUEST_1_0, Version::V11).is_none());
}

#[test]
fn reads_flags(rt: HostRuntime) {
    assert_flags(&rt, 0x00, 0x00, None, false);
    assert_flags(&rt, 0x08, 0x00, Some(Kind::Share), false);
    assert_flags(&rt, 0x18, 0x04, Some(Kind::Donate), true);
    for (low, high) in [(0x01, 0x00), (0x20, 0x00), (0x00, 0x02), (0x00, 0x08)] {
        assert!(rt; read_retrieve(&with_flags(low, high), Version::V11).is_none());
    }
}

#[test]
fn refuses_cut_bytes(rt: HostRuntime) {
    for len in 0..64 {
        assert!(rt;
            read_retrieve(&REQUEST[..len], Version::V11).is_none(),
            "{len} bytes"
        );
    }
}
