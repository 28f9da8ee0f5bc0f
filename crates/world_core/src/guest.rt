//! A domain's page, with what its guest has still to put.

ghost use Rattle.std.specs.Prelude.{◌≡◌, ◌+◌, ◌≤◌, ◌++◌, ℕ, length, take, drop, min, IfOk, OnOk, OnErr, false};
ghost use Rattle.world_model.specs.Fronts.{intake};
ghost use Rattle.world_model.specs.Rings.{free, is_bad, filled, held, put_all, take_some, with_request, with_reply, with_error, poked};
ghost use Rattle.world_model.specs.Worlds.{fresh_guest, page_words};
ghost use Rattle.ring_index.specs.Answers.{unless_bad};
ghost use Rattle.msg_reassembly.specs.Cuts.{one_step};
ghost use Rattle.world_core.specs.Guests.{queued_more, put_from, with_page_of};

use crate::outbox::Outbox;
use msg_reassembly::Inbox;
use ring_index::{BadIndex, Index, PlainPage};
use std::alloc::Global;
use std::marker::Model;
use world_model::Said;
use xs_base::NoMemory;

/// The bytes of a ring, one way.
pub const RING_SIZE: usize = 1024;

/// A domain's page, and the bytes that its guest has still to put. Contracts see a `Guest`.
#[derive(Drop)]
pub struct Guest {
    page: PlainPage,
    outbox: Outbox,
}

impl Model for Guest {
    ghost use Rattle.world_model.specs.Worlds as worlds;

    ghost Value = { worlds.Guest };

    ghost view = { λ guest. record { page = guest.page; outbox = guest.outbox } };
}

impl Guest {
    /// A fresh page whose indices start here, and nothing to put. It takes no memory.
    pub fn fresh(alloc: Global, start: u32) -> Guest
        ensures { result ≡ fresh_guest start }
    {
        Guest {
            page: PlainPage::fresh(start),
            outbox: Outbox::new(alloc),
        }
    }

    /// The bytes join those to put. Refused, nothing has changed. O(their number) on average.
    pub fn queue(&mut self, bytes: &[u8]) -> Result<(), NoMemory>
        ensures ok { OnOk result (self.new ≡ queued_more bytes.now self.old) }
        ensures err { OnErr result (self.new ≡ self.old) }
    {
        self.outbox.push(bytes)
    }

    /// The guest puts at most so many of its bytes into the request ring, and is told how many. O(bytes moved).
    pub fn put(&mut self, max: u32) -> usize
        ensures count { result ≡ min max (min (length self.old.outbox) (free self.old.page.request)) }
        ensures after { self.new ≡ put_from result self.old }
    {
        let bytes = self.outbox.bytes();
        let most = bytes.len().min(max as usize);
        let count = self.page.guest_put(&bytes[..most]) as usize;
        self.outbox.skip(count);
        count
    }

    /// The guest takes at most so many bytes from the reply ring into the first bytes of `into`, and is told how
    /// many. O(bytes moved).
    pub fn take(&mut self, max: u32, into: &mut [u8; 1024]) -> usize
        ensures count { result ≡ min max (filled self.old.page.reply) }
        ensures bytes { take result into.new ≡ take result (held self.old.page.reply) }
        ensures after { self.new ≡ with_page_of (with_reply (take_some result self.old.page.reply)) self.old }
    {
        let most = (max as usize).min(RING_SIZE);
        self.page.guest_take(&mut into[..most]) as usize
    }

    /// The index words and the error word. O(1).
    pub fn words(&self) -> Said
        ensures { result ≡ page_words self.now.page }
    {
        let words = self.page.words();
        Said::Page {
            req_cons: words.req_cons,
            req_prod: words.req_prod,
            rsp_cons: words.rsp_cons,
            rsp_prod: words.rsp_prod,
            error: words.error,
        }
    }

    /// The guest overwrites an index word.
    pub fn poke(&mut self, which: Index, value: u32)
        ensures { self.new ≡ with_page_of (poked which value) self.old }
    {
        self.page.poke(which, value);
    }

    /// Sets the error word.
    pub fn set_error(&mut self, value: u32)
        ensures { self.new ≡ with_page_of (with_error value) self.old }
    {
        self.page.set_error(value);
    }

    /// The server takes at most so many bytes from the request ring into an inbox, up to the end of the header or
    /// of the message in front. O(bytes moved).
    fn take_step(&mut self, inbox: &mut Inbox, max: usize) -> Result<usize, BadIndex>
        ensures count { result ≡ unless_bad self.old.page.request (one_step inbox.old (take max (held self.old.page.request))) }
        ensures inbox { IfOk result (λ n. inbox.new ≡ inbox.old ++ take n (held self.old.page.request)) }
        ensures after { IfOk result (λ n. self.new ≡ with_page_of (with_request (take_some n self.old.page.request)) self.old) }
        ensures content { IfOk result (λ n. held self.new.page.request ≡ drop n (held self.old.page.request)) }
        ensures good { IfOk result (λ _. is_bad self.new.page.request ≡ false) }
        ensures err { OnErr result ((self.new ≡ self.old) × (inbox.new ≡ inbox.old)) }
    {
        let mut piece = [0; RING_SIZE];
        let most = inbox.room().min(max).min(RING_SIZE);
        let count = self.page.server_take(&mut piece[..most])? as usize;
        inbox.feed(&piece[..count]);
        Ok(count)
    }

    /// The server takes at most so many bytes from the request ring into an inbox, and never past the message in
    /// front: first up to the end of its header, and then up to its own. O(bytes moved).
    pub fn intake(&mut self, inbox: &mut Inbox, max: u32) -> Result<usize, BadIndex>
        ensures count { result ≡ unless_bad self.old.page.request (intake inbox.old (take max (held self.old.page.request))) }
        ensures inbox { IfOk result (λ n. inbox.new ≡ inbox.old ++ take n (held self.old.page.request)) }
        ensures after { IfOk result (λ n. self.new ≡ with_page_of (with_request (take_some n self.old.page.request)) self.old) }
        // An inbox that takes bytes is no longer than a message then.
        ensures short { (limit : ℕ) → 4112 ≤ limit → length inbox.old ≤ limit → length inbox.new ≤ limit }
        ensures err { OnErr result ((self.new ≡ self.old) × (inbox.new ≡ inbox.old)) }
    {
        let head = self.take_step(inbox, max as usize)?;
        let rest = self.take_step(inbox, max as usize - head)?;
        Ok(head + rest)
    }

    /// For how many bytes the reply ring has room. O(1).
    pub fn reply_free(&self) -> Result<u32, BadIndex>
        ensures free { result ≡ unless_bad self.now.page.reply (free self.now.page.reply) }
        ensures within { IfOk result (λ n. n ≤ 1024) }
    {
        self.page.reply_free()
    }

    /// The server puts bytes for which the reply ring has room. O(their number).
    pub fn reply(&mut self, bytes: &[u8])
        requires good { is_bad self.old.page.reply ≡ false }
        requires room { length bytes.now ≤ free self.old.page.reply }
        ensures { self.new ≡ with_page_of (with_reply (put_all bytes.now self.old.page.reply)) self.old }
    {
        let _all = self.page.server_put(bytes);
    }
}
