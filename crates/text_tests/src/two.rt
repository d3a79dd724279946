//! Two managers that are booted from one manifest.

use crate::calls::{Sending, granted, release, retrieve, send};
use crate::compared::{audit_across, entries_in, plain_audit};
use crate::fault::Fault;
use crate::house::{House, booted, border, id_of};
use crate::plain::first_apart;
use crate::shapes::{Span, ranges};
use crate::table_words::{Entry, TableWords};
use base::Kind;
use pool::RawPool;
use spm::Spm;
use std::alloc::Global;
use std::process::Abort;

/// Two partitions, whose lands are two chunks and a part of one on both sides of the border.
pub(crate) const HOUSE: House = House {
    partitions: 2,
    before: 1_100,
    behind: 1_100,
    quota: 24,
};

/// The page that the cases count from.
fn origin() -> u32 {
    border(id_of(HOUSE, 0)).wrapping_sub(1_024)
}

/// What the first partition sends to the second: the pages of a case.
pub(crate) fn sending(
    alloc: Global,
    kind: Kind,
    pages: [u32; 2],
    writes: bool,
) -> Result<Sending, Fault> {
    let [first, count] = pages;
    let mut receivers = Vec::new(alloc);
    receivers.push(id_of(HOUSE, 1))?;
    Ok(Sending {
        kind,
        sender: id_of(HOUSE, 0),
        receivers,
        ranges: ranges(alloc, Span::new(origin().wrapping_add(first), count), false)?,
        writes,
    })
}

/// Sends pages, and answers the handle.
pub(crate) fn send_pages(
    alloc: Global,
    spm: &mut Spm<RawPool>,
    sending: &Sending,
) -> Result<u64, Fault> {
    let reply = spm.handle(&send(alloc, sending)?)?;
    granted(&reply).ok_or(Fault::Refused)
}

/// The second partition retrieves.
pub(crate) fn retrieve_pages(
    alloc: Global,
    spm: &mut Spm<RawPool>,
    sending: &Sending,
    handle: u64,
) -> Result<(), Fault> {
    let taker = id_of(HOUSE, 1);
    let reply = spm.handle(&retrieve(alloc, sending, taker, handle)?)?;
    spm.handle(&release(alloc, taker))?;
    if granted(&reply).is_none() {
        return Err(Fault::Refused);
    }
    Ok(())
}

/// Sends pages, which the second partition retrieves.
pub(crate) fn pass_pages(
    alloc: Global,
    spm: &mut Spm<RawPool>,
    sending: &Sending,
) -> Result<(), Fault> {
    let handle = send_pages(alloc, spm, sending)?;
    retrieve_pages(alloc, spm, sending, handle)
}

/// Two managers of one manifest.
#[derive(Drop)]
pub(crate) struct Two {
    alloc: Global,
    ours: Spm<RawPool>,
    theirs: Spm<RawPool>,
}

impl Two {
    pub(crate) fn new(alloc: Global) -> Result<Self, Fault> {
        Ok(Two {
            alloc,
            ours: booted(alloc, HOUSE)?,
            theirs: booted(alloc, HOUSE)?,
        })
    }

    /// Pages are sent in both, and retrieved in both.
    pub(crate) fn pass_in_both(&mut self, sending: &Sending) -> Result<(), Fault> {
        pass_pages(self.alloc, &mut self.ours, sending)?;
        pass_pages(self.alloc, &mut self.theirs, sending)
    }

    /// Pages are sent in both, which answer the same handle.
    pub(crate) fn send_in_both(&mut self, sending: &Sending) -> Result<u64, Fault> {
        let handle = send_pages(self.alloc, &mut self.ours, sending)?;
        let other = send_pages(self.alloc, &mut self.theirs, sending)?;
        if handle == other {
            Ok(handle)
        } else {
            Err(Fault::Refused)
        }
    }

    /// What was sent is retrieved in the one.
    pub(crate) fn retrieve_in_ours(&mut self, sending: &Sending, handle: u64) -> Result<(), Fault> {
        retrieve_pages(self.alloc, &mut self.ours, sending, handle)
    }

    /// What was sent is retrieved in the other.
    pub(crate) fn retrieve_in_theirs(
        &mut self,
        sending: &Sending,
        handle: u64,
    ) -> Result<(), Fault> {
        retrieve_pages(self.alloc, &mut self.theirs, sending, handle)
    }

    /// What may be done with the pages is another in each.
    pub(crate) fn pass_otherwise(&mut self, ours: &Sending, theirs: &Sending) -> Result<(), Fault> {
        pass_pages(self.alloc, &mut self.ours, ours)?;
        pass_pages(self.alloc, &mut self.theirs, theirs)
    }

    /// The audits of both by each other write what the plain comparison says.
    pub(crate) fn audit(&self, rt: &impl Abort, wanted: &str) -> Result<(), Fault> {
        let (here, there) = self.entries()?;
        assert_eq!(rt; plain_audit(&here, &there), wanted);
        let text = audit_across(self.alloc, &self.ours, &self.theirs)?;
        assert_eq!(rt; text.as_str(), wanted);
        let text = audit_across(self.alloc, &self.theirs, &self.ours)?;
        assert_eq!(rt; text.as_str(), wanted);
        Ok(())
    }

    /// The entries of both.
    fn entries(&self) -> Result<(Vec<Vec<Entry>>, Vec<Vec<Entry>>), Fault> {
        let here = entries_in(self.alloc, &self.ours)?;
        let there = entries_in(self.alloc, &self.theirs)?;
        Ok((here, there))
    }

    /// The level of the first entry of the second partition that the other has not, and its page, counted as those of
    /// the cases are.
    pub(crate) fn first_apart(&self) -> Result<[u32; 2], Fault> {
        let (here, there) = self.entries()?;
        let (Some(here), Some(there)) = (here.get(1), there.get(1)) else {
            return Err(Fault::Alike);
        };
        let entry = first_apart(here, there).ok_or(Fault::Alike)?;
        Ok([entry.level, entry.first.wrapping_sub(origin())])
    }

    /// Whether all words of both table pools are the same.
    pub(crate) fn have_same_words(&self) -> Result<bool, Fault> {
        let here = self.ours.image(self.alloc)?;
        let there = self.theirs.image(self.alloc)?;
        let ours = TableWords::new(self.ours.manifest(), &here);
        let theirs = TableWords::new(self.theirs.manifest(), &there);
        for page in 0..100u32 {
            if !is_same_page(ours, theirs, page) {
                return Ok(false);
            }
        }
        Ok(true)
    }
}

/// Whether the words of a page of the pool are the same in both.
fn is_same_page(ours: TableWords<'_>, theirs: TableWords<'_>, page: u32) -> bool {
    for index in 0..512u32 {
        if ours.word(page, index) != theirs.word(page, index) {
            return false;
        }
    }
    true
}
