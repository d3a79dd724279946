ghost use Rattle.std.specs.Prelude.{◌≡◌, ◌≢◌, ◌<◌, ◌≤◌, ◌*◌, ◌%◌, ◌^◌, ℕ, IsTrue};
ghost use Rattle.base.specs.Access.{IsLegal};
ghost use Rattle.words.specs.Words.{leaf_fields, leaf_word_of, table_word_of, leaf_level, page_at, access_at, leaf_at, entry_of, SpellsEntry};

use base::{Access, MemoryKind, Page, Rights};

/// What a word of a translation table is (Arm ARM, VMSAv8-64 stage 2 descriptors).
#[derive(Clone, Copy, Debug, PartialEq, Eq)]
pub enum Entry {
    /// An invalid descriptor: nothing is mapped.
    Invalid,
    /// A table descriptor, with the page that the next-level table fills.
    Table(Page),
    /// A block or page descriptor, with the page at its output address and the access.
    Leaf(Page, Access),
    /// None of these, at the level where it was read.
    Wrong,
}

/// Bit 0, which is 0 in an invalid descriptor.
const VALID: u64 = 1;

/// Bits 1:0 of a block descriptor.
const BLOCK: u64 = 1;

/// Bits 1:0 of a table descriptor, and of a page descriptor.
const TABLE_OR_PAGE: u64 = 3;

/// MemAttr, bits 5:2.
const MEMORY_ATTRIBUTES: u64 = 15 << 2;

/// MemAttr of normal memory, write-back.
const NORMAL_WRITE_BACK: u64 = 15 << 2;

/// MemAttr of device memory, nGnRE.
const DEVICE_NGNRE: u64 = 1 << 2;

/// S2AP, bits 7:6.
const ACCESS_PERMISSIONS: u64 = 3 << 6;

/// S2AP of read-only data.
const READ_ONLY: u64 = 1 << 6;

/// S2AP of data that is read and written.
const READ_WRITE: u64 = 3 << 6;

/// SH, bits 9:8, of normal memory. Device memory has 0 there.
const INNER_SHAREABLE: u64 = 3 << 8;

/// AF, bit 10.
const ACCESS_FLAG: u64 = 1 << 10;

/// XN, bits 54:53, which is 0 where execution is permitted.
const EXECUTE_NEVER: u64 = 3 << 53;

/// XN where execution is not permitted.
const NEVER_EXECUTABLE: u64 = 2 << 53;

/// Bits 38:12, where the address lies.
const ADDRESS: u64 = 0x0000_007f_ffff_f000;

/// An address has a page's number from this bit on.
const PAGE_SHIFT: u32 = 12;

/// How many pages a block of 2 MB has.
const BLOCK_PAGES: u32 = 512;

/// The word of a leaf: the level 2 descriptor of a block of 2 MB, which begins at the page, or the
/// level 3 descriptor of the page (Arm ARM, VMSAv8-64 stage 2 descriptors).
#[tactic(auto, using(crate::proofs::RoundTrip::written))]
pub fn leaf_word(page: Page, access: Access, block: bool) -> u64
    requires { IsTrue block → page % 512 ≡ 0 }
    ensures value { result ≡ leaf_word_of block page access }
    ensures read_back { entry_of (leaf_level block) result ≡ Entry.Leaf page access }
{
    address_of(page) | fields_of(access, block)
}

/// The level 1 or level 2 descriptor of the next-level table that fills the page (Arm ARM,
/// VMSAv8-64 stage 2 descriptors).
#[tactic(auto, using(crate::proofs::RoundTrip::written))]
pub fn table_word(page: Page) -> u64
    ensures value { result ≡ table_word_of page }
    ensures read_back { (level : ℕ) → level < 3 → entry_of level result ≡ Entry.Table page }
{
    address_of(page) | TABLE_OR_PAGE
}

/// What a word in a table of level 1, 2 or 3 is (Arm ARM, VMSAv8-64 stage 2 descriptors). It is
/// `Wrong` where it has none of the forms of its level, as a block at level 1, or an address from
/// 2^39 on.
#[tactic(auto, using(crate::proofs::RoundTrip::spelled), unfolding(crate::specs::Words::entry_of))]
pub fn read_entry(level: u8, word: u64) -> Entry
    requires least { 1 ≤ level }
    requires most { level ≤ 3 }
    ensures value { result ≡ entry_of level word }
    ensures spelled { SpellsEntry level word result }
{
    if word & VALID == 0 {
        return Entry::Invalid;
    }
    let page = page_of(word);
    if level < 3 && word == table_word(page) {
        return Entry::Table(page);
    }
    match level {
        2 => read_leaf(word, true),
        3 => read_leaf(word, false),
        _ => Entry::Wrong,
    }
}

/// The same of a word that is known to have a form of its level, as those that this core has written: its type tells which, and
/// no other bit is compared.
#[tactic(auto, using(crate::proofs::Known::known))]
pub fn known_entry(level: u8, word: u64) -> Entry
    requires least { 1 ≤ level }
    requires most { level ≤ 3 }
    requires known { entry_of level word ≢ Entry.Wrong }
    ensures { result ≡ entry_of level word }
{
    if word & VALID == 0 {
        return Entry::Invalid;
    }
    let page = page_of(word);
    if level < 3 && word % 4 == TABLE_OR_PAGE {
        return Entry::Table(page);
    }
    Entry::Leaf(page, access_of(word))
}

/// The leaf that the word is. Some values of its fields are no access's, so the whole word is
/// compared.
#[tactic(auto, unfolding(crate::specs::Words::leaf_at))]
fn read_leaf(word: u64, block: bool) -> Entry
    ensures { result ≡ leaf_at block word }
{
    let page = page_of(word);
    if block && page.number() % BLOCK_PAGES != 0 {
        return Entry::Wrong;
    }
    let access = access_of(word);
    if word == leaf_word(page, access, block) {
        Entry::Leaf(page, access)
    } else {
        Entry::Wrong
    }
}

/// The address of the page, in its place in a word.
fn address_of(page: Page) -> u64
    ensures value { result ≡ page * 2 ^ 12 }
    ensures in_range { page < 2 ^ 27 }
{
    u64::from(page.number()) << PAGE_SHIFT
}

/// The page whose address is in the word.
#[tactic(auto, using(crate::proofs::Bits::masks))]
fn page_of(word: u64) -> Page
    ensures { result ≡ page_at word }
{
    Page::new(((word & ADDRESS) >> PAGE_SHIFT) as u32)
}

/// The fields of a leaf beside its output address.
#[tactic(auto, unfolding(crate::specs::Words::leaf_fields))]
fn fields_of(access: Access, block: bool) -> u64
    ensures value { result ≡ leaf_fields block access }
    ensures legal { IsLegal access }
{
    let descriptor_type = if block { BLOCK } else { TABLE_OR_PAGE };
    let memory = match access.kind() {
        MemoryKind::Normal => NORMAL_WRITE_BACK | INNER_SHAREABLE,
        MemoryKind::Device => DEVICE_NGNRE,
    };
    let rights = match access.rights() {
        Rights::Ro => READ_ONLY,
        Rights::Rw => READ_WRITE,
    };
    let execution = if access.is_executable() {
        0
    } else {
        NEVER_EXECUTABLE
    };
    descriptor_type | memory | rights | ACCESS_FLAG | execution
}

/// The access that the fields of a leaf name.
#[tactic(auto, using(crate::proofs::Bits::masks), unfolding(crate::specs::Words::access_at))]
fn access_of(word: u64) -> Access
    ensures { result ≡ access_at word }
{
    let rights = if word & ACCESS_PERMISSIONS == READ_WRITE {
        Rights::Rw
    } else {
        Rights::Ro
    };
    if word & MEMORY_ATTRIBUTES == NORMAL_WRITE_BACK {
        Access::normal(rights, word & EXECUTE_NEVER == 0)
    } else {
        Access::device(rights)
    }
}

#[cfg(test)]
mod tests {
    use super::*;

    #[test]
    fn pages_are_written_and_read(rt: HostRuntime) {
        let page = Page::new(0x708_0203);
        for (access, word) in [
            (Access::normal(Rights::Rw, true), 0x0000_0070_8020_37ff),
            (Access::normal(Rights::Rw, false), 0x0040_0070_8020_37ff),
            (Access::normal(Rights::Ro, true), 0x0000_0070_8020_377f),
            (Access::normal(Rights::Ro, false), 0x0040_0070_8020_377f),
            (Access::device(Rights::Rw), 0x0040_0070_8020_34c7),
            (Access::device(Rights::Ro), 0x0040_0070_8020_3447),
        ] {
            assert_eq!(rt; leaf_word(page, access, false), word);
            assert_eq!(rt; read_entry(3, word), Entry::Leaf(page, access));
        }
    }

    #[test]
    fn blocks_are_written_and_read(rt: HostRuntime) {
        let page = Page::new(0x708_0200);
        for (access, word) in [
            (Access::normal(Rights::Rw, true), 0x0000_0070_8020_07fd),
            (Access::normal(Rights::Rw, false), 0x0040_0070_8020_07fd),
            (Access::normal(Rights::Ro, true), 0x0000_0070_8020_077d),
            (Access::normal(Rights::Ro, false), 0x0040_0070_8020_077d),
            (Access::device(Rights::Rw), 0x0040_0070_8020_04c5),
            (Access::device(Rights::Ro), 0x0040_0070_8020_0445),
        ] {
            assert_eq!(rt; leaf_word(page, access, true), word);
            assert_eq!(rt; read_entry(2, word), Entry::Leaf(page, access));
        }
    }

    #[test]
    fn tables_are_written_and_read(rt: HostRuntime) {
        let page = Page::new(0x4_0009);
        assert_eq!(rt; table_word(page), 0x0000_0000_4000_9003);
        assert_eq!(rt; read_entry(1, 0x0000_0000_4000_9003), Entry::Table(page));
        assert_eq!(rt; read_entry(2, 0x0000_0000_4000_9003), Entry::Table(page));
    }

    #[test]
    fn words_without_bit_0_are_invalid(rt: HostRuntime) {
        for word in [0, 0x0000_0070_8020_37fe, 0xffff_ffff_ffff_fffe] {
            assert_eq!(rt; read_entry(1, word), Entry::Invalid, "{word:#x}");
            assert_eq!(rt; read_entry(2, word), Entry::Invalid, "{word:#x}");
            assert_eq!(rt; read_entry(3, word), Entry::Invalid, "{word:#x}");
        }
    }

    #[test]
    fn other_words_are_wrong(rt: HostRuntime) {
        let at_level_1 = [
            0x0000_0070_8020_07fd, // a block
            0x0000_0070_8020_37ff, // a page
            0x8000_0000_4000_9003, // a table with bit 63
        ];
        for word in at_level_1 {
            assert_eq!(rt; read_entry(1, word), Entry::Wrong, "{word:#x}");
        }
        let at_level_2 = [
            0x0000_0070_8020_37fd, // a block at no multiple of 2 MB
            0x0000_0070_8020_37ff, // a page
            0x0000_0080_4000_9003, // a table with address bit 39
        ];
        for word in at_level_2 {
            assert_eq!(rt; read_entry(2, word), Entry::Wrong, "{word:#x}");
        }
        let at_level_3 = [
            0x0000_0070_8020_37fd, // bits 1:0 = 1
            0x0000_0000_4000_9003, // a table
            0x0000_0070_8020_34c7, // device memory that is executable
            0x0000_00f0_8020_37ff, // address bit 39
            0x0000_0070_8020_37fb, // MemAttr 14
            0x0000_0070_8020_37bf, // S2AP 2
            0x0000_0070_8020_36ff, // SH 2
            0x0000_0070_8020_33ff, // AF 0
            0x0000_0070_8020_3fff, // bit 11
            0x0020_0070_8020_37ff, // XN 1
            0x0080_0070_8020_37ff, // bit 55
            0x8000_0070_8020_37ff, // bit 63
        ];
        for word in at_level_3 {
            assert_eq!(rt; read_entry(3, word), Entry::Wrong, "{word:#x}");
        }
    }
}
