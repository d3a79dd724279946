//! Reads the rows of a manifest from a TOML document.

ghost use Rattle.std.specs.Prelude.{◌≡◌, is_some, codes};
ghost use Rattle.std.specs.Option.{option_map};
ghost use Rattle.toml.specs.View.{view, array_view, items_view};
ghost use Rattle.manifest.specs.Document as spec;
ghost use Rattle.manifest.specs.Document.{Reads, ReadsRows};
ghost use Rattle.manifest.specs.Numbers.{Tests};

use crate::draft::{Draft, PartitionDraft, RegionDraft};
use crate::fault::{Key, ManifestFault, Place, Table};
use crate::manifest::Partition;
use crate::region::Grant;
use base::limits::PAGE_SIZE;
use base::{MemoryKind, PartitionId, Rights};
use std::alloc::Global;
use toml::Value;

/// The integer at a key of a table.
fn integer_at(value: &Value, key: &str) -> Option<i64>
    ensures { result ≡ spec.integer_at key.now (view value.now) }
{
    match value.get(key) {
        Some(value) => value.as_integer(),
        None => None,
    }
}

/// The boolean at a key of a table.
fn bool_at(value: &Value, key: &str) -> Option<bool>
    ensures { result ≡ spec.bool_at key.now (view value.now) }
{
    match value.get(key) {
        Some(value) => value.as_bool(),
        None => None,
    }
}

/// The array at a key of a table.
fn array_at<'a>(value: &'a Value, key: &str) -> Option<&'a Vec<Value>>
    ensures { option_map (λ a. array_view a.now) result ≡ spec.array_at key.now (view value.now) }
{
    match value.get(key) {
        Some(value) => value.as_array(),
        None => None,
    }
}

/// Whether a table has a key.
fn has_key(value: &Value, key: &str) -> bool
    ensures { result ≡ spec.has_key key.now (view value.now) }
{
    value.get(key).is_some()
}

/// How many keys a table has.
fn keys_count(value: &Value) -> usize
    ensures { result ≡ spec.keys_count (view value.now) }
{
    match value {
        Value::Table(table) => table.len(),
        _ => 0,
    }
}

/// An identifier of 16 bits; 0 for a number that is none.
fn identifier_of(number: i64) -> u16
    ensures { result ≡ spec.identifier_of number }
{
    if 0 <= number && number < 0x1_0000 {
        number as u16
    } else {
        0
    }
}

/// A number of 32 bits; the largest for a number that is none.
fn count_of(number: i64) -> u32
    ensures { result ≡ spec.count_of number }
{
    if 0 <= number && number < 0x1_0000_0000 {
        number as u32
    } else {
        u32::MAX
    }
}

/// The page of 4 KB that begins at an address below 2^39; the page after the last where none does.
fn page_of(address: i64) -> u32
    ensures { result ≡ spec.page_of address }
{
    if 0 <= address && address < 0x80_0000_0000 {
        let address = address as u64;
        if address % PAGE_SIZE == 0 {
            return (address / PAGE_SIZE) as u32;
        }
    }
    0x800_0000
}

/// The data access that a text names.
fn rights_of(text: &str) -> Option<Rights>
    ensures { result ≡ spec.rights_of text.now }
{
    if text == "ro" {
        Some(Rights::Ro)
    } else if text == "rw" {
        Some(Rights::Rw)
    } else {
        None
    }
}

/// The kind of memory that a text names.
fn kind_of(text: &str) -> Option<MemoryKind>
    ensures { result ≡ spec.kind_of text.now }
{
    if text == "normal" {
        Some(MemoryKind::Normal)
    } else if text == "device" {
        Some(MemoryKind::Device)
    } else {
        None
    }
}

/// The text at a key of a table.
fn text_at<'a>(value: &'a Value, key: &str) -> Option<&'a str>
    ensures { option_map (λ s. s.now) result ≡ spec.text_at key.now (view value.now) }
{
    match value.get(key) {
        Some(value) => value.as_str(),
        None => None,
    }
}

/// The keys of a document.
const DOCUMENT_KEYS: [Key; 3] = [Key::Pool, Key::Partition, Key::Region];

/// The keys of a partition.
const PARTITION_KEYS: [Key; 2] = [Key::Id, Key::Quota];

/// The keys of a region.
const REGION_KEYS: [Key; 5] = [Key::Base, Key::Pages, Key::Kind, Key::Owner, Key::Grants];

/// The keys of a grant.
const GRANT_KEYS: [Key; 3] = [Key::Id, Key::Data, Key::Exec];

/// The first key that a table lacks; the table as a whole where a key stands there that is unknown.
fn missing_key(value: &Value, table: Table, keys: &[Key]) -> Place {
    for key in keys {
        if !has_key(value, key.name()) {
            return table.at(*key);
        }
    }
    table.whole()
}

/// Whether a table has a value of the key's kind at the key.
fn has_value(value: &Value, key: Key) -> bool {
    match key {
        Key::Pool | Key::Id | Key::Quota | Key::Base | Key::Pages | Key::Owner => {
            integer_at(value, key.name()).is_some()
        }
        Key::Partition | Key::Region | Key::Grants => array_at(value, key.name()).is_some(),
        Key::Kind => text_at(value, "kind").and_then(kind_of).is_some(),
        Key::Data => text_at(value, "data").and_then(rights_of).is_some(),
        Key::Exec => bool_at(value, "exec").is_some(),
    }
}

/// The first key of a table whose value is of another kind; the table as a whole where it is none.
fn wrong_value(value: &Value, table: Table, keys: &[Key]) -> Place {
    if !value.is_table() {
        return table.whole();
    }
    for key in keys {
        if !has_value(value, *key) {
            return table.at(*key);
        }
    }
    table.whole()
}

/// Whether a partition has its keys, and no others.
fn has_partition_keys(value: &Value) -> bool
    ensures { result ≡ spec.has_partition_keys (view value.now) }
{
    has_key(value, "id") && has_key(value, "quota") && keys_count(value) == 2
}

/// Whether a grant has its keys, and no others.
fn has_grant_keys(value: &Value) -> bool
    ensures { result ≡ spec.has_grant_keys (view value.now) }
{
    has_key(value, "id")
        && has_key(value, "data")
        && has_key(value, "exec")
        && keys_count(value) == 3
}

/// Whether a region has its keys, and no others.
fn has_region_keys(value: &Value) -> bool
    ensures { result ≡ spec.has_region_keys (view value.now) }
{
    has_key(value, "base")
        && has_key(value, "pages")
        && has_key(value, "kind")
        && has_key(value, "owner")
        && has_key(value, "grants")
        && keys_count(value) == 5
}

/// Whether a document has its keys, and no others.
fn has_document_keys(value: &Value) -> bool
    ensures { result ≡ spec.has_document_keys (view value.now) }
{
    has_key(value, "pool")
        && has_key(value, "partition")
        && has_key(value, "region")
        && keys_count(value) == 3
}

/// Each table among the partitions has its keys, and no others.
fn check_partition_tables(values: &[Value]) -> Result<(), ManifestFault>
    ensures { Tests (spec.tables_pass spec.has_partition_keys (items_view values.now)) 2 result }
{
    for (i, value) in values.iter().enumerate() {
        if value.is_table() && !has_partition_keys(value) {
            return Err(ManifestFault::Key(missing_key(
                value,
                Table::Partition(i + 1),
                &PARTITION_KEYS,
            )));
        }
    }
    Ok(())
}

/// Each table among the grants of a region has its keys, and no others.
fn check_grant_tables(values: &[Value], region: usize) -> Result<(), ManifestFault>
    ensures { Tests (spec.tables_pass spec.has_grant_keys (items_view values.now)) 2 result }
{
    for (i, value) in values.iter().enumerate() {
        if value.is_table() && !has_grant_keys(value) {
            let grant = i + 1;
            let table = Table::Grant { region, grant };
            return Err(ManifestFault::Key(missing_key(value, table, &GRANT_KEYS)));
        }
    }
    Ok(())
}

/// A region and the tables among its grants have their keys, and no others.
fn check_region_keys(value: &Value, region: usize) -> Result<(), ManifestFault>
    ensures { Tests (spec.has_all_region_keys (view value.now)) 2 result }
{
    if !has_region_keys(value) {
        return Err(ManifestFault::Key(missing_key(value, Table::Region(region), &REGION_KEYS)));
    }
    match array_at(value, "grants") {
        Some(grants) => check_grant_tables(grants, region),
        None => Ok(()),
    }
}

/// Each table among the regions has its keys, and no others.
fn check_region_tables(values: &[Value]) -> Result<(), ManifestFault>
    ensures { Tests (spec.tables_pass spec.has_all_region_keys (items_view values.now)) 2 result }
{
    for (i, value) in values.iter().enumerate() {
        if value.is_table() {
            check_region_keys(value, i + 1)?;
        }
    }
    Ok(())
}

/// The tables in the document's array of partitions have their keys, and no others.
fn check_partitions(value: &Value) -> Result<(), ManifestFault>
    ensures { Tests (spec.partitions_have_keys (view value.now)) 2 result }
{
    match array_at(value, "partition") {
        Some(partitions) => check_partition_tables(partitions),
        None => Ok(()),
    }
}

/// The tables in the document's array of regions have their keys, and no others.
fn check_regions(value: &Value) -> Result<(), ManifestFault>
    ensures { Tests (spec.regions_have_keys (view value.now)) 2 result }
{
    match array_at(value, "region") {
        Some(regions) => check_region_tables(regions),
        None => Ok(()),
    }
}

/// The tables of a document have their keys, and no others.
pub(crate) fn check_keys(value: &Value) -> Result<(), ManifestFault>
    ensures { Tests (spec.keys_are_right (view value.now)) 2 result }
{
    if !has_document_keys(value) {
        return Err(ManifestFault::Key(missing_key(value, Table::Document, &DOCUMENT_KEYS)));
    }
    check_partitions(value)?;
    check_regions(value)
}

/// A partition, if its values are of their types.
fn partition_of(value: &Value, number: usize) -> Option<PartitionDraft>
    ensures { result ≡ spec.partition_of (view value.now) }
{
    let id = integer_at(value, "id")?;
    let quota = integer_at(value, "quota")?;
    let partition = Partition {
        id: PartitionId::new(identifier_of(id)),
        quota: count_of(quota),
    };
    Some(PartitionDraft { number, partition })
}

/// A grant, if its values are of their types.
fn grant_of(value: &Value) -> Option<Grant>
    ensures { result ≡ spec.grant_of (view value.now) }
{
    let id = integer_at(value, "id")?;
    let rights = rights_of(text_at(value, "data")?)?;
    let exec = bool_at(value, "exec")?;
    Some(Grant {
        partition: PartitionId::new(identifier_of(id)),
        rights,
        exec,
    })
}

/// The partitions of an array.
fn partition_rows(alloc: Global, values: &[Value]) -> Result<Vec<PartitionDraft>, ManifestFault>
    ensures { ReadsRows (spec.rows_in spec.partition_of (items_view values.now)) result }
{
    let mut rows = Vec::new(alloc);
    for (i, value) in values.iter().enumerate() {
        match partition_of(value, i + 1) {
            Some(row) => rows.push(row)?,
            None => return Err(ManifestFault::Value(wrong_value(
                value,
                Table::Partition(i + 1),
                &PARTITION_KEYS,
            ))),
        }
    }
    Ok(rows)
}

/// The grants of an array in a region.
fn grant_rows(alloc: Global, values: &[Value], region: usize) -> Result<Vec<Grant>, ManifestFault>
    ensures { ReadsRows (spec.rows_in spec.grant_of (items_view values.now)) result }
{
    let mut rows = Vec::new(alloc);
    for (i, value) in values.iter().enumerate() {
        match grant_of(value) {
            Some(row) => rows.push(row)?,
            None => {
                let grant = i + 1;
                let table = Table::Grant { region, grant };
                return Err(ManifestFault::Value(wrong_value(value, table, &GRANT_KEYS)));
            }
        }
    }
    Ok(rows)
}

/// The grants of a region.
fn grants_of(alloc: Global, value: &Value, region: usize) -> Result<Vec<Grant>, ManifestFault>
    ensures { ReadsRows (spec.grants_of (view value.now)) result }
{
    match array_at(value, "grants") {
        Some(grants) => grant_rows(alloc, grants, region),
        None => Err(ManifestFault::Value(Table::Region(region).at(Key::Grants))),
    }
}

/// A region with these grants, if its other values are of their types.
fn region_with(value: &Value, number: usize, grants: Vec<Grant>) -> Option<RegionDraft>
    ensures { result ≡ spec.region_with grants.items (view value.now) }
{
    let base = integer_at(value, "base")?;
    let pages = integer_at(value, "pages")?;
    let kind = kind_of(text_at(value, "kind")?)?;
    let owner = integer_at(value, "owner")?;
    Some(RegionDraft {
        number,
        first: page_of(base),
        count: count_of(pages),
        kind,
        owner: PartitionId::new(identifier_of(owner)),
        grants,
    })
}

/// A region.
fn region_of(alloc: Global, value: &Value, number: usize) -> Result<RegionDraft, ManifestFault>
    ensures { Reads (spec.region_of (view value.now)) result }
{
    let grants = grants_of(alloc, value, number)?;
    match region_with(value, number, grants) {
        Some(region) => Ok(region),
        None => Err(ManifestFault::Value(wrong_value(value, Table::Region(number), &REGION_KEYS))),
    }
}

/// The regions of an array.
fn region_rows(alloc: Global, values: &[Value]) -> Result<Vec<RegionDraft>, ManifestFault>
    ensures { ReadsRows (spec.rows_in spec.region_of (items_view values.now)) result }
{
    let mut rows = Vec::new(alloc);
    for (i, value) in values.iter().enumerate() {
        let row = region_of(alloc, value, i + 1)?;
        rows.push(row)?;
    }
    Ok(rows)
}

/// The partitions of a document.
fn partitions_of(alloc: Global, value: &Value) -> Result<Vec<PartitionDraft>, ManifestFault>
    ensures { ReadsRows (spec.partitions_of (view value.now)) result }
{
    match array_at(value, "partition") {
        Some(partitions) => partition_rows(alloc, partitions),
        None => Err(ManifestFault::Value(Table::Document.at(Key::Partition))),
    }
}

/// The regions of a document.
fn regions_of(alloc: Global, value: &Value) -> Result<Vec<RegionDraft>, ManifestFault>
    ensures { ReadsRows (spec.regions_of (view value.now)) result }
{
    match array_at(value, "region") {
        Some(regions) => region_rows(alloc, regions),
        None => Err(ManifestFault::Value(Table::Document.at(Key::Region))),
    }
}

/// The first page of a document's pool.
fn pool_of(value: &Value) -> Result<u32, ManifestFault>
    ensures { Reads (spec.pool_of (view value.now)) result }
{
    match integer_at(value, "pool") {
        Some(pool) => Ok(page_of(pool)),
        None => Err(ManifestFault::Value(Table::Document.at(Key::Pool))),
    }
}

/// The rows of a document, in its order.
pub(crate) fn rows_of(alloc: Global, value: &Value) -> Result<Draft, ManifestFault>
    ensures { Reads (spec.rows_of (view value.now)) result }
{
    let pool = pool_of(value)?;
    let partitions = partitions_of(alloc, value)?;
    let regions = regions_of(alloc, value)?;
    Ok(Draft {
        pool,
        partitions,
        regions,
    })
}
