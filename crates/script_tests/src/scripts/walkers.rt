//! What walkers see at every write of a call.

ghost use Rattle.std.specs.Prelude.{◌<◌};
ghost use Rattle.lines.specs.Lines.{HasParts};

use super::PAIRS;
use super::documents::{common_document, sparse_document};
use super::operations::GIVEN_BACK;
use base::{Access, OutOfMemory, Page, PartitionId};
use lines::{Line, read_line};
use manifest::{Manifest, Region, read};
use pool::{Image, ListPool, Op, RawPool, TableMem};
use script::World;
use spm::Spm;
use stage2::{Walked, walk_image};
use std::alloc::Global;
use std::process::Abort;
use std::test::Fail;

/// How many pages the level 3 table of a chunk maps.
const CHUNK: u32 = 512;

/// What a partition reaches of the pages of a chunk.
#[derive(Drop)]
struct Part {
    who: PartitionId,
    chunk: u32,
    before: Vec<Option<Access>>,
    after: Vec<Option<Access>>,
    /// How many pages are looked at between two operations.
    looks: u32,
}

/// The words before a call, and what each partition reached of each chunk that a region touches.
#[derive(Drop)]
struct Watch {
    image: Image,
    parts: Vec<Part>,
}

fn page_of(chunk: u32, index: u32) -> Page {
    Page::new(chunk.wrapping_mul(CHUNK).wrapping_add(index) % Page::COUNT)
}

/// What a partition reaches of the pages of a chunk.
fn views<M: TableMem + Drop>(
    alloc: Global,
    spm: &Spm<M>,
    who: PartitionId,
    chunk: u32,
) -> Result<Vec<Option<Access>>, OutOfMemory> {
    let mut views = Vec::new(alloc);
    for index in 0..CHUNK {
        views.push(spm.translate(who, page_of(chunk, index)))?;
    }
    Ok(views)
}

fn push_chunks(chunks: &mut Vec<u32>, region: &Region) -> Result<(), OutOfMemory> {
    let pages = region.pages();
    for chunk in pages.first().number() / CHUNK..pages.end().div_ceil(CHUNK) {
        if !chunks.contains(&chunk) {
            chunks.push(chunk)?;
        }
    }
    Ok(())
}

/// The chunks that regions touch.
fn chunks_of(alloc: Global, manifest: &Manifest) -> Result<Vec<u32>, OutOfMemory> {
    let mut chunks = Vec::new(alloc);
    for region in manifest.regions() {
        push_chunks(&mut chunks, region)?;
    }
    Ok(chunks)
}

fn push_parts<M: TableMem + Drop>(
    alloc: Global,
    spm: &Spm<M>,
    who: PartitionId,
    chunks: &[u32],
    parts: &mut Vec<Part>,
) -> Result<(), OutOfMemory> {
    for chunk in chunks {
        parts.push(Part {
            who,
            chunk: *chunk,
            before: views(alloc, spm, who, *chunk)?,
            after: Vec::new(alloc),
            looks: 1,
        })?;
    }
    Ok(())
}

/// What is there before a call.
fn take_watch<M: TableMem + Drop>(alloc: Global, spm: &Spm<M>) -> Result<Watch, OutOfMemory> {
    let chunks = chunks_of(alloc, spm.manifest())?;
    let mut parts = Vec::new(alloc);
    for row in spm.manifest().partitions() {
        push_parts(alloc, spm, row.id, &chunks, &mut parts)?;
    }
    let image = spm.image(alloc)?;
    Ok(Watch { image, parts })
}

/// Looks up what is reached after the call, and notes the chunks that it touched.
fn look_again<M: TableMem + Drop>(
    alloc: Global,
    spm: &Spm<M>,
    parts: &mut [Part],
) -> Result<Vec<u32>, OutOfMemory> {
    let mut touched = Vec::new(alloc);
    for part in parts {
        part.after = views(alloc, spm, part.who, part.chunk)?;
        if part.after != part.before {
            touched.push(part.chunk)?;
        }
    }
    Ok(touched)
}

/// All pages of a touched chunk are looked at, for each partition.
fn look_closely(touched: &[u32], parts: &mut [Part]) {
    for part in parts {
        if touched.contains(&part.chunk) {
            part.looks = CHUNK;
        }
    }
}

fn apply(rt: &impl Abort, image: &mut Image, operation: &Op) {
    if let Op::Set { page, index, .. } = operation {
        assert!(rt; (*page as usize) < image.pages() && *index < CHUNK);
    }
    image.apply(operation);
}

/// A walk gives what it gave before the call or gives after it, or nothing where the call touches the
/// chunk.
fn expect_walk(rt: &impl Abort, part: &Part, index: u32, walked: Walked) {
    let page = page_of(part.chunk, index);
    let before = part.before.get(index as usize);
    let after = part.after.get(index as usize);
    let seen = match walked {
        Walked::None => None,
        Walked::Leaf(found, access) => {
            assert_eq!(rt; found, page);
            Some(access)
        }
        Walked::Wrong => {
            assert!(rt; false, "{page:?}");
            None
        }
    };
    let is_broken = seen.is_none() && part.before != part.after;
    assert!(rt;
        is_broken || before == Some(&seen) || after == Some(&seen),
        "{page:?}"
    );
}

/// No partition reaches a page that is cleared.
fn expect_unreached(rt: &impl Abort, manifest: &Manifest, image: &Image, run: base::Run) {
    assert_eq!(rt; image.pages(), manifest.table_pages() as usize);
    for partition in manifest.partitions() {
        for index in 0..run.count() {
            let page = Page::new(run.first().number().wrapping_add(index) % Page::COUNT);
            let walked = walk_image(manifest, image, partition.id, page);
            assert_eq!(rt; walked, Walked::None);
        }
    }
}

/// Looks at a chunk in a copy of the words.
fn expect_part(rt: &impl Abort, manifest: &Manifest, image: &Image, part: &Part) {
    assert_eq!(rt; image.pages(), manifest.table_pages() as usize);
    for index in 0..part.looks {
        let page = page_of(part.chunk, index);
        expect_walk(rt, part, index, walk_image(manifest, image, part.who, page));
    }
}

fn expect_parts(rt: &impl Abort, manifest: &Manifest, image: &Image, parts: &[Part]) {
    for part in parts {
        expect_part(rt, manifest, image, part);
    }
}

/// From the last operation on, all is as after the call.
fn settle(parts: &mut [Part]) -> Result<(), OutOfMemory> {
    for part in parts {
        part.before = part.after.clone()?;
    }
    Ok(())
}

fn expect_page(rt: &impl Abort, page: u32, one: &Image, other: &Image) {
    assert!(rt; (page as usize) < one.pages() && one.pages() == other.pages());
    for index in 0..CHUNK {
        assert_eq!(rt; one.word(page, index), other.word(page, index));
    }
}

fn expect_image(rt: &impl Abort, pages: u32, one: &Image, other: &Image) {
    for page in 0..pages {
        expect_page(rt, page, one, other);
    }
}

/// Replays the operations of a call on the words before it.
fn expect_replay<M: TableMem + Drop>(
    rt: &impl Abort,
    alloc: Global,
    spm: &Spm<M>,
    watch: Watch,
) -> Result<(), OutOfMemory> {
    let Watch {
        mut image,
        mut parts,
    } = watch;
    let touched = look_again(alloc, spm, &mut parts)?;
    look_closely(&touched, &mut parts);
    for operation in spm.last_ops() {
        apply(rt, &mut image, operation);
        if let Op::Clear { run } = operation {
            expect_unreached(rt, spm.manifest(), &image, *run);
        }
        expect_parts(rt, spm.manifest(), &image, &parts);
    }
    settle(&mut parts)?;
    expect_parts(rt, spm.manifest(), &image, &parts);
    let pages = spm.manifest().table_pages();
    expect_image(rt, pages, &image, &spm.image(alloc)?);
    Ok(())
}

/// Runs a line, and looks at what walkers see during its call, if it is one. Answers whether tables
/// changed.
fn watch_line<M: TableMem + Drop>(
    rt: &impl Abort,
    alloc: Global,
    world: &mut World<M>,
    line: Line,
    text: &mut Vec<u8>,
) -> Result<bool, Fail>
    requires { HasParts line }
{
    match line {
        Line::Call(..)
        | Line::Send(..)
        | Line::Retrieve(..)
        | Line::Relinquish(..)
        | Line::Reclaim(..) => {
            let watch = take_watch(alloc, world.spm())?;
            world.line(line, text)?;
            expect_replay(rt, alloc, world.spm(), watch)?;
            Ok(!world.spm().last_ops().is_empty())
        }
        _ => {
            world.line(line, text)?;
            Ok(false)
        }
    }
}

/// Runs a script up to its first bad line, and looks at what walkers see at every write. Answers how
/// many calls changed tables.
fn watch_over<M: TableMem + Drop>(
    rt: &impl Abort,
    alloc: Global,
    manifest: Manifest,
    script: &str,
) -> Result<u32, Fail> {
    let mut world: World<M> = World::boot(alloc, manifest)?;
    let mut text = Vec::new(alloc);
    let mut changes = 0u32;
    for bytes in script.as_bytes().split(|byte| *byte == b'\n') {
        let Some(line) = read_line(alloc, bytes)? else {
            break;
        };
        if watch_line(rt, alloc, &mut world, line, &mut text)? {
            changes = changes.saturating_add(1);
        }
    }
    Ok(changes)
}

/// The same over either table memory, from what a document says.
fn watch_script(rt: &impl Abort, alloc: Global, document: &str, script: &str) -> Result<u32, Fail> {
    let manifest = read(alloc, document.as_bytes())?;
    let changes = watch_over::<ListPool>(rt, alloc, manifest, script)?;
    let manifest = read(alloc, document.as_bytes())?;
    assert_eq!(rt;
        watch_over::<RawPool>(rt, alloc, manifest, script)?,
        changes
    );
    Ok(changes)
}

/// Numbers from a fixed seed, by a linear congruential generator.
#[derive(Drop)]
struct Draw {
    state: u64,
}

impl Draw {
    /// A number below a limit.
    fn below(&mut self, limit: u32) -> u32
        requires { 0 < limit }
        ensures { result < limit }
    {
        self.state = self
            .state
            .wrapping_mul(6_364_136_223_846_793_005)
            .wrapping_add(1_442_695_040_888_963_407);
        (self.state >> 33) as u32 % limit
    }

    /// Appends a lend, or now and then a donation, of one to three ranges of the pages from an address
    /// on.
    fn push_send(
        &mut self,
        text: &mut String,
        from: &str,
        base: u32,
        pages: u32,
    ) -> Result<(), Fail>
        requires { 0 < pages }
    {
        if self.below(8) == 0 {
            write!(text, "donate {from} 0 8003:00 ")?;
        } else {
            write!(text, "lend {from} 0 8003:02 ")?;
        }
        for i in 0..=self.below(3) {
            let comma = if i == 0 { "" } else { "," };
            let (first, count) = self.range(pages);
            let address = u64::from(base) + 0x1000 * u64::from(first);
            write!(text, "{comma}{address:x}+{count}")?;
        }
        writeln!(text, "{}", self.order())?;
        Ok(())
    }

    /// Now and then the pages are to be cleared.
    fn order(&mut self) -> &'static str {
        if self.below(3) == 0 { " zero" } else { "" }
    }

    /// A few pages of so many, or now and then a whole chunk of them.
    fn range(&mut self, pages: u32) -> (u32, u32)
        requires { 0 < pages }
    {
        let first = self.below(pages);
        if self.below(16) == 0 {
            (first - first % CHUNK, CHUNK)
        } else {
            (first, 1 + self.below(4))
        }
    }

    /// Appends a call on one of so many transactions of a sender.
    fn push_step(&mut self, text: &mut String, from: &str, sends: u32) -> Result<(), Fail>
        requires { 0 < sends }
    {
        let number = 1 + self.below(sends);
        match self.below(4) {
            0 => writeln!(text, "reclaim {from} {from}{number:08x}{}", self.order())?,
            1 => writeln!(text, "relinquish 8003 {from}{number:08x}{}", self.order())?,
            _ => writeln!(
                text,
                "retrieve 8003 {from}{number:08x} {from} 0 0 00\ncall 8003 84000065"
            )?,
        }
        Ok(())
    }

    /// A script of sends by two partitions, after which neither has 32 live transactions, and of calls
    /// on them.
    fn script(&mut self, alloc: Global) -> Result<String, Fail> {
        let mut text = String::from_str(alloc, PAIRS)?;
        for i in 0..50u32 {
            let sends = 1 + i / 2;
            if i % 2 == 0 {
                self.push_send(&mut text, "8002", 0xa000_0000, 512)?;
                self.push_step(&mut text, "8002", sends)?;
            } else {
                self.push_send(&mut text, "8001", 0x8000_0000, 1024)?;
                self.push_step(&mut text, "8001", sends)?;
            }
        }
        Ok(text)
    }
}

/// Calls after the buffer pairs are there, and how many of them change tables.
const ROWS: [(&str, u32); 14] = [
    (
        "lend 8001 0 8002:02 80001000+1 zero\n\
        reclaim 8001 800100000001 zero\n",
        2,
    ),
    (
        "lend 8001 0 8002:02 80001000+1 zero\n\
        retrieve 8002 800100000001 8001 0 2 02\n\
        relinquish 8002 800100000001 zero\n\
        reclaim 8001 800100000001\n",
        4,
    ),
    ("lend 8001 0 8002:02 80001000+1\n", 1),
    (
        "share 8001 5 8002:01 80000000+1\nlend 8001 0 8002:02 d0000000+1\n",
        0,
    ),
    (
        "lend 8001 0 8002:02 80000000+512\nlend 8001 0 8002:02 80000000+1\n",
        1,
    ),
    ("lend 8001 0 8002:02 801ff000+2\n", 1),
    ("lend 8001 0 8002:02,8003:01 80300000+1\n", 1),
    ("lend 8001 7 8002:01 80000000+256,80100000+255\n", 1),
    ("lend 8002 0 8003:02 a0000000+512\n", 1),
    (
        "lend 8001 0 8002:02 80001000+1\nlend 8001 0 8002:02 80003000+2,80006000+1\n",
        2,
    ),
    (
        "lend 8001 0 8002:02 80000000+256\nlend 8001 0 8002:02 80100000+256\n",
        2,
    ),
    (
        "lend 8001 0 8002:02 80001000+1\n\
        retrieve 8002 800100000001 8001 0 2 02\n\
        reclaim 8001 800100000001\n\
        relinquish 8002 800100000001\n\
        reclaim 8001 800100000001\n",
        4,
    ),
    (
        "donate 8001 0 8002:00 80001000+1\n\
        retrieve 8002 800100000001 8001 0 3 01\n\
        donate 8002 0 8001:00 80001000+1\n\
        retrieve 8001 800200000001 8002 0 3 00\n",
        4,
    ),
    (
        "lend 8001 0 8002:02,8003:02 80200000+1\n\
        retrieve 8002 800100000001 8001 0 2 02 alone\n\
        retrieve 8003 800100000001 8001 0 0 00 alone\n",
        3,
    ),
];

/// The calls whose operations other tests list.
#[test]
fn sees_old_new_or_none_in_rows(rt: HostRuntime) -> Result<(), Fail> {
    let alloc = rt.alloc();
    let document = common_document(alloc, 16, 16)?;
    for (lines, wanted) in ROWS {
        let script = format!(in alloc; "{PAIRS}{lines}")?;
        let changes = watch_script(&rt, alloc, &document, &script)?;
        assert_eq!(rt; changes, wanted, "{lines}");
    }
    Ok(())
}

/// In one call a table page is a level 2 table first, and then a level 3 table.
#[test]
fn sees_no_table_that_was_given_back(rt: HostRuntime) -> Result<(), Fail> {
    let alloc = rt.alloc();
    let changes = watch_script(&rt, alloc, &sparse_document(alloc)?, GIVEN_BACK)?;
    assert_eq!(rt; changes, 1);
    Ok(())
}

/// Three hundred drawn calls, of which some are refused.
fn expect_drawn<M: TableMem + Drop>(rt: &impl Abort, alloc: Global, seed: u64) -> Result<(), Fail> {
    let document = common_document(alloc, 16, 16)?;
    let mut draw = Draw { state: seed };
    let mut changes = 0u32;
    for _ in 0..3 {
        let script = draw.script(alloc)?;
        let manifest = read(alloc, document.as_bytes())?;
        let changed = watch_over::<M>(rt, alloc, manifest, &script)?;
        changes = changes.saturating_add(changed);
    }
    assert!(rt; 90 < changes && changes < 300, "{changes}");
    Ok(())
}

#[test]
fn sees_old_new_or_none_in_drawn_calls(rt: HostRuntime) -> Result<(), Fail> {
    expect_drawn::<ListPool>(&rt, rt.alloc(), 1)
}

#[test]
fn sees_old_new_or_none_in_other_drawn_calls(rt: HostRuntime) -> Result<(), Fail> {
    expect_drawn::<ListPool>(&rt, rt.alloc(), 2)
}

#[test]
fn sees_old_new_or_none_in_raw_memory(rt: HostRuntime) -> Result<(), Fail> {
    expect_drawn::<RawPool>(&rt, rt.alloc(), 3)
}

#[test]
fn sees_old_new_or_none_in_raw_memory_again(rt: HostRuntime) -> Result<(), Fail> {
    expect_drawn::<RawPool>(&rt, rt.alloc(), 4)
}
