use descr::read_relinquish;

/// 0x8002 gives up handle 0x0807060504030201; two bytes stand behind the descriptor.
const RELINQUISH: [u8; 20] = [
    0x01, 0x02, 0x03, 0x04, 0x05, 0x06, 0x07, 0x08, 0x00, 0x00, 0x00, 0x00, 0x01, 0x00, 0x00, 0x00,
    0x02, 0x80, 0xff, 0xff,
];

#[test]
fn reads_the_first_bytes(rt: HostRuntime) {
    for len in 18..21 {
        let desc = read_relinquish(&RELINQUISH[..len]).expect(&rt, "a relinquish");
        assert_eq!(rt; desc.handle.bits(), 0x0807_0605_0403_0201);
        assert_eq!(rt; desc.endpoint.number(), 0x8002);
        assert!(rt; !desc.clears);
    }
}

#[test]
fn reads_an_ordered_clear(rt: HostRuntime) {
    let mut bytes = RELINQUISH;
    bytes[8] = 0x01;
    let desc = read_relinquish(&bytes).expect(&rt, "a relinquish");
    assert!(rt; desc.clears);
    assert_eq!(rt; desc.handle.bits(), 0x0807_0605_0403_0201);
    assert_eq!(rt; desc.endpoint.number(), 0x8002);
}

#[test]
fn refuses_cut_bytes_and_changed_words(rt: HostRuntime) {
    for len in 0..18 {
        assert!(rt;
            read_relinquish(&RELINQUISH[..len]).is_none(),
            "{len} bytes"
        );
    }
    for (at, byte) in [(8, 0x02), (8, 0x03), (9, 0x01), (12, 0x00), (12, 0x02)] {
        assert!(rt; at < 20);
        let mut bytes = RELINQUISH;
        bytes[at] = byte;
        assert!(rt; read_relinquish(&bytes).is_none(), "byte {at}");
    }
}
