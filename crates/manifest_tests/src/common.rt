use base::{MemoryKind, Page, PartitionId, Rights};
use manifest::{Grant, common_manifest};
use std::test::Fail;

#[test]
fn common_partitions_need_6_4_and_2_tables(rt: HostRuntime) -> Result<(), Fail> {
    let manifest = common_manifest(rt.alloc())?;
    assert_eq!(rt; manifest.need(PartitionId::new(0x8001)), 6);
    assert_eq!(rt; manifest.need(PartitionId::new(0x8002)), 4);
    assert_eq!(rt; manifest.need(PartitionId::new(0x8003)), 2);
    assert_eq!(rt; manifest.need(PartitionId::new(0x8004)), 0);
    Ok(())
}

#[test]
fn common_regions_are_looked_up_by_page(rt: HostRuntime) -> Result<(), Fail> {
    let manifest = common_manifest(rt.alloc())?;
    assert_eq!(rt; manifest.table_pages(), 51);
    assert_eq!(rt; manifest.pool().number(), 0x4_0000);
    assert_eq!(rt; manifest.quota(PartitionId::new(0x8002)), 16);
    assert_eq!(rt;
        manifest.owner(Page::new(0xa_01ff)),
        Some(PartitionId::new(0x8002))
    );
    assert!(rt; manifest.owner(Page::new(0xa_0200)).is_none());
    let device = manifest.region_at(Page::new(0x9000)).ok_or("no device")?;
    assert_eq!(rt; device.kind(), MemoryKind::Device);
    assert_eq!(rt; device.pages().count(), 1);
    let reader = Grant {
        partition: PartitionId::new(0x8002),
        rights: Rights::Ro,
        exec: false,
    };
    let shared = manifest
        .region_at(Page::new(0xd_0000))
        .ok_or("no shared page")?;
    assert_eq!(rt; shared.grants().last().copied(), Some(reader));
    assert_eq!(rt; shared.owner(), PartitionId::new(0x8001));
    let granted = manifest.grant(PartitionId::new(0x8002), Page::new(0xd_0000));
    assert_eq!(rt; granted.map(|access| access.rights()), Some(Rights::Ro));
    Ok(())
}
