use base::{Handle, Kind, MemoryAttributes, Page, PartitionId, Permissions, Run, Version};
use descr::{
    Endpoint, RelinquishDesc, RetrieveDesc, SendDesc, read_relinquish, read_retrieve, read_send,
};
use descw::{
    HeaderFields, RangeFields, RelinquishFields, ResponseFields, RetrieveFields, SendFields,
    write_relinquish, write_response, write_retrieve, write_send,
};
use std::process::Abort;

/// 0x8001 lends page 0x80001 to 0x8002, read-write, in the layout of FF-A 1.1.
const LEND: [u8; 96] = [
    // The sender, attributes, flags and handle; the tag, the access descriptors' size and count.
    0x01, 0x80, 0x00, 0x00, 0x00, 0x00, 0x00, 0x00, 0x00, 0x00, 0x00, 0x00, 0x00, 0x00, 0x00, 0x00,
    0x00, 0x00, 0x00, 0x00, 0x00, 0x00, 0x00, 0x00, 0x10, 0x00, 0x00, 0x00, 0x01, 0x00, 0x00, 0x00,
    // Where the access descriptors begin.
    0x30, 0x00, 0x00, 0x00, 0x00, 0x00, 0x00, 0x00, 0x00, 0x00, 0x00, 0x00, 0x00, 0x00, 0x00, 0x00,
    // The receiver, its permissions, and where the composite descriptor begins.
    0x02, 0x80, 0x02, 0x00, 0x40, 0x00, 0x00, 0x00, 0x00, 0x00, 0x00, 0x00, 0x00, 0x00, 0x00, 0x00,
    // The total of pages and the count of ranges; the range's address and page count.
    0x01, 0x00, 0x00, 0x00, 0x01, 0x00, 0x00, 0x00, 0x00, 0x00, 0x00, 0x00, 0x00, 0x00, 0x00, 0x00,
    0x00, 0x10, 0x00, 0x80, 0x00, 0x00, 0x00, 0x00, 0x01, 0x00, 0x00, 0x00, 0x00, 0x00, 0x00, 0x00,
];

/// The same in the layout of FF-A 1.0.
const LEND_1_0: [u8; 80] = [
    0x01, 0x80, 0x00, 0x00, 0x00, 0x00, 0x00, 0x00, 0x00, 0x00, 0x00, 0x00, 0x00, 0x00, 0x00, 0x00,
    0x00, 0x00, 0x00, 0x00, 0x00, 0x00, 0x00, 0x00, 0x00, 0x00, 0x00, 0x00, 0x01, 0x00, 0x00, 0x00,
    0x02, 0x80, 0x02, 0x00, 0x30, 0x00, 0x00, 0x00, 0x00, 0x00, 0x00, 0x00, 0x00, 0x00, 0x00, 0x00,
    0x01, 0x00, 0x00, 0x00, 0x01, 0x00, 0x00, 0x00, 0x00, 0x00, 0x00, 0x00, 0x00, 0x00, 0x00, 0x00,
    0x00, 0x10, 0x00, 0x80, 0x00, 0x00, 0x00, 0x00, 0x01, 0x00, 0x00, 0x00, 0x00, 0x00, 0x00, 0x00,
];

/// The response to 0x8002, which may read, write and not execute page 0x80001, in the layout of FF-A
/// 1.1.
const RESPONSE: [u8; 96] = [
    // The sender, attributes, flags and handle 0x0000800100000001; the tag, the size and count.
    0x01, 0x80, 0x2f, 0x00, 0x10, 0x00, 0x00, 0x00, 0x01, 0x00, 0x00, 0x00, 0x01, 0x80, 0x00, 0x00,
    0x00, 0x00, 0x00, 0x00, 0x00, 0x00, 0x00, 0x00, 0x10, 0x00, 0x00, 0x00, 0x01, 0x00, 0x00, 0x00,
    0x30, 0x00, 0x00, 0x00, 0x00, 0x00, 0x00, 0x00, 0x00, 0x00, 0x00, 0x00, 0x00, 0x00, 0x00, 0x00,
    0x02, 0x80, 0x06, 0x00, 0x40, 0x00, 0x00, 0x00, 0x00, 0x00, 0x00, 0x00, 0x00, 0x00, 0x00, 0x00,
    0x01, 0x00, 0x00, 0x00, 0x01, 0x00, 0x00, 0x00, 0x00, 0x00, 0x00, 0x00, 0x00, 0x00, 0x00, 0x00,
    0x00, 0x10, 0x00, 0x80, 0x00, 0x00, 0x00, 0x00, 0x01, 0x00, 0x00, 0x00, 0x00, 0x00, 0x00, 0x00,
];

/// The same in the layout of FF-A 1.0.
const RESPONSE_1_0: [u8; 80] = [
    0x01, 0x80, 0x2f, 0x00, 0x10, 0x00, 0x00, 0x00, 0x01, 0x00, 0x00, 0x00, 0x01, 0x80, 0x00, 0x00,
    0x00, 0x00, 0x00, 0x00, 0x00, 0x00, 0x00, 0x00, 0x00, 0x00, 0x00, 0x00, 0x01, 0x00, 0x00, 0x00,
    0x02, 0x80, 0x06, 0x00, 0x30, 0x00, 0x00, 0x00, 0x00, 0x00, 0x00, 0x00, 0x00, 0x00, 0x00, 0x00,
    0x01, 0x00, 0x00, 0x00, 0x01, 0x00, 0x00, 0x00, 0x00, 0x00, 0x00, 0x00, 0x00, 0x00, 0x00, 0x00,
    0x00, 0x10, 0x00, 0x80, 0x00, 0x00, 0x00, 0x00, 0x01, 0x00, 0x00, 0x00, 0x00, 0x00, 0x00, 0x00,
];

/// A receiver with its permissions.
fn endpoint(partition: u16, permissions: u8) -> Endpoint {
    Endpoint {
        partition: PartitionId::new(partition),
        permissions: Permissions::new(permissions),
    }
}

/// A header of 0x8001 with these attributes, flags and handle.
fn header(attributes: u16, flags: u32, handle: u64) -> HeaderFields {
    HeaderFields {
        sender: PartitionId::new(0x8001),
        attributes: MemoryAttributes::new(attributes),
        flags,
        handle: Handle::from_bits(handle),
        tag: 0,
    }
}

/// The receivers and the ranges are these, in this order.
fn assert_parts(
    rt: &impl Abort,
    desc: &SendDesc<'_>,
    receivers: &[Endpoint],
    ranges: &[(u32, u32)],
) {
    assert_eq!(rt; desc.receivers.len(), receivers.len());
    for (i, receiver) in receivers.iter().enumerate() {
        assert!(rt; i < desc.receivers.len());
        assert_eq!(rt; desc.receivers[i], *receiver);
    }
    let mut rest = desc.ranges();
    for (first, count) in ranges {
        let run = rest.next().expect(rt, "a range");
        assert_eq!(rt; run.first().number(), *first);
        assert_eq!(rt; run.count(), *count);
    }
    assert!(rt; rest.next().is_none());
}

#[test]
fn writes_a_send(rt: HostRuntime) {
    let fields = SendFields {
        header: header(0, 0, 0),
        receivers: &[endpoint(0x8002, 2)],
        total: 1,
        ranges: &[RangeFields {
            address: 0x8000_1000,
            count: 1,
        }],
    };
    for (version, bytes) in [
        (Version::V11, LEND.as_slice()),
        (Version::V10, LEND_1_0.as_slice()),
    ] {
        let written = write_send(rt.alloc(), version, &fields).expect(&rt, "memory");
        assert_eq!(rt; written.as_slice(), bytes);
    }
}

/// Bit 0 of the flags stands in byte 4.
#[test]
fn writes_a_send_that_clears(rt: HostRuntime) {
    let fields = SendFields {
        header: header(0, 1, 0),
        receivers: &[endpoint(0x8002, 2)],
        total: 1,
        ranges: &[RangeFields {
            address: 0x8000_1000,
            count: 1,
        }],
    };
    let mut bytes = LEND;
    bytes[4] = 1;
    let written = write_send(rt.alloc(), Version::V11, &fields).expect(&rt, "memory");
    assert_eq!(rt; written.as_slice(), bytes.as_slice());
}

#[test]
fn writes_a_response(rt: HostRuntime) {
    let fields = ResponseFields {
        sender: PartitionId::new(0x8001),
        kind: Kind::Lend,
        handle: Handle::new(PartitionId::new(0x8001), 1),
        tag: 0,
        endpoint: endpoint(0x8002, 6),
        ranges: &[Run::new(Page::new(0x80001), 1)],
    };
    for (version, bytes) in [
        (Version::V11, RESPONSE.as_slice()),
        (Version::V10, RESPONSE_1_0.as_slice()),
    ] {
        let written = write_response(Vec::new(rt.alloc()), version, &fields).expect(&rt, "memory");
        assert_eq!(rt; written.as_slice(), bytes);
    }
}

#[test]
fn sends_are_read_back(rt: HostRuntime) {
    let receivers = [endpoint(0x8002, 2), endpoint(0x8003, 1)];
    let fields = SendFields {
        header: header(0x2f, 1, 0),
        receivers: &receivers,
        total: 4,
        ranges: &[
            RangeFields {
                address: 0x8000_1000,
                count: 1,
            },
            RangeFields {
                address: 0x8001_0000,
                count: 3,
            },
        ],
    };
    for version in [Version::V10, Version::V11] {
        let written = write_send(rt.alloc(), version, &fields).expect(&rt, "memory");
        let desc = read_send(&written, version).expect(&rt, "a send");
        assert_eq!(rt; desc.sender.number(), 0x8001);
        assert_eq!(rt; desc.attributes, MemoryAttributes::normal_write_back());
        assert!(rt; desc.clears);
        assert_parts(&rt, &desc, &receivers, &[(0x80001, 1), (0x80010, 3)]);
    }
}

#[test]
fn requests_are_read_back(rt: HostRuntime) {
    let fields = RetrieveFields {
        header: header(0x2f, 0x410, 0x0807_0605_0403_0201),
        endpoint: endpoint(0x8002, 2),
    };
    let request = RetrieveDesc {
        sender: PartitionId::new(0x8001),
        attributes: MemoryAttributes::normal_write_back(),
        kind: Some(Kind::Lend),
        bypass: true,
        handle: Handle::from_bits(0x0807_0605_0403_0201),
        tag: 0,
        endpoint: endpoint(0x8002, 2),
    };
    for version in [Version::V10, Version::V11] {
        let written = write_retrieve(rt.alloc(), version, &fields).expect(&rt, "memory");
        assert_eq!(rt; read_retrieve(&written, version), Some(request));
    }
}

#[test]
fn relinquishes_are_read_back(rt: HostRuntime) {
    for (flags, clears) in [(0, false), (1, true)] {
        let fields = RelinquishFields {
            handle: Handle::from_bits(0x0807_0605_0403_0201),
            flags,
            endpoint: PartitionId::new(0x8002),
        };
        let relinquish = RelinquishDesc {
            handle: Handle::from_bits(0x0807_0605_0403_0201),
            clears,
            endpoint: PartitionId::new(0x8002),
        };
        let written = write_relinquish(rt.alloc(), &fields).expect(&rt, "memory");
        assert_eq!(rt; written.len(), 18);
        assert_eq!(rt; read_relinquish(&written), Some(relinquish));
    }
}
