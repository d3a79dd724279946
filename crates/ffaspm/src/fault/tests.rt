use super::Fault;
use manifest::{ManifestFault, Place, Table};
use std::test::Fail;

/// The status of each fault, and its line on standard error.
#[test]
fn has_a_status_and_a_line(rt: HostRuntime) -> Result<(), Fail> {
    let alloc = rt.alloc();
    let place = Place {
        table: Table::Partition(1),
        key: None,
    };
    let usage = "usage: ffaspm run MANIFEST SCRIPT or check MANIFEST";
    let faults = [
        (
            Fault::Manifest(ManifestFault::NotToml),
            1,
            "manifest: fault 1",
        ),
        (
            Fault::Manifest(ManifestFault::Quota(place)),
            1,
            "manifest: fault 10",
        ),
        (Fault::Usage, 2, usage),
        (Fault::Line(7), 3, "script: line 7"),
        (Fault::TooLong, 3, "script: too long"),
        (Fault::Memory, 4, "out of memory"),
        (Fault::from(ManifestFault::OutOfMemory), 4, "out of memory"),
        (Fault::ManifestFile, 5, "file: manifest"),
        (Fault::ScriptFile, 5, "file: script"),
        (Fault::Output, 5, "file: output"),
    ];
    for (fault, status, line) in faults {
        assert_eq!(rt; fault.status(), status, "{line}");
        assert_eq!(rt; fault.to_string(alloc)?.as_str(), line);
    }
    Ok(())
}
