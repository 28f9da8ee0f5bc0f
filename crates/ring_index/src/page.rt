//! The page.
ghost use Rattle.std.specs.Prelude.{◌≡◌, ◌++◌, false, IfOk, OnErr, length, take, drop, min};
ghost use Rattle.world_model.specs.Rings.{free, filled, used, is_bad, held, put_all, take_some, fresh_page, with_request, with_reply, with_error, poked};
ghost use Rattle.ring_index.specs.Answers.{unless_bad, used_unless_bad, free_unless_bad, words_of};
ghost use Rattle.ring_index.specs.Pipes.{IsPage};

use crate::index::{BadIndex, RING_SIZE};
use crate::ring::Ring;
use std::marker::Model;
use world_model::Which as Index;

/// The index words and the error word of a page.
#[derive(Clone, Copy, Debug, PartialEq, Eq)]
pub struct Words {
    /// Where the server takes the next request byte.
    pub req_cons: u32,
    /// Where the guest puts the next request byte.
    pub req_prod: u32,
    /// Where the guest takes the next reply byte.
    pub rsp_cons: u32,
    /// Where the server puts the next reply byte.
    pub rsp_prod: u32,
    /// 0 for none, 2 for bad indices, 3 for a header that is too long.
    pub error: u32,
}

/// A ring page in plain memory: 1024 request bytes, 1024 reply bytes, their indices and the error word.
///
/// Contracts see a `Page`, whose indices are those of the words and whose bytes stand as they were put.
#[derive(Debug, Drop)]
pub struct PlainPage {
    request: Ring,
    reply: Ring,
    error: u32,
}

impl Model for PlainPage {
    ghost use Rattle.world_model.specs.Rings.{Page};

    ghost Value = { Page };

    ghost view = { λ page. record { request = page.request; reply = page.reply; error = page.error } };
}

impl PlainPage {
    /// A page of zero bytes without an error, whose four indices start here.
    pub fn fresh(start: u32) -> PlainPage
        ensures { result ≡ fresh_page start }
    {
        PlainPage {
            request: Ring::empty(start),
            reply: Ring::empty(start),
            error: 0,
        }
    }

    /// The guest puts as many of the bytes as find room in the request ring, and is told how many. Where the
    /// indices are bad it moves nothing. O(bytes moved).
    pub fn guest_put(&mut self, from: &[u8]) -> u32
        ensures count { result ≡ min (length from.now) (free self.old.request) }
        ensures after { self.new ≡ with_request (put_all (take result from.now) self.old.request) self.old }
        ensures content { held self.new.request ≡ held self.old.request ++ take result from.now }
    {
        let free = self.request.free().unwrap_or(0);
        let n = from.len().min(free as usize);
        self.request.put(&from[..n]);
        n as u32
    }

    /// The guest takes as many bytes of the reply ring as `into` has room for, and is told how many. Where the
    /// indices are bad it moves nothing. The rest of `into` is as before. O(bytes moved).
    pub fn guest_take(&mut self, into: &mut [u8]) -> u32
        ensures count { result ≡ min (length into.old) (filled self.old.reply) }
        ensures bytes { into.new ≡ take result (held self.old.reply) ++ drop result into.old }
        ensures after { self.new ≡ with_reply (take_some result self.old.reply) self.old }
        ensures content { held self.new.reply ≡ drop result (held self.old.reply) }
    {
        let filled = self.reply.used().unwrap_or(0);
        let n = into.len().min(filled as usize);
        self.reply.take(&mut into[..n]);
        n as u32
    }

    /// The server takes as many bytes of the request ring as `into` has room for, and is told how many. The
    /// rest of `into` is as before. Where the indices are bad it is told these, and nothing changes; a take
    /// leaves indices that are good. O(bytes moved).
    pub fn server_take(&mut self, into: &mut [u8]) -> Result<u32, BadIndex>
        ensures count { result ≡ unless_bad self.old.request (min (length into.old) (used self.old.request)) }
        ensures bytes { IfOk result (λ n. into.new ≡ take n (held self.old.request) ++ drop n into.old) }
        ensures after { IfOk result (λ n. self.new ≡ with_request (take_some n self.old.request) self.old) }
        ensures content { IfOk result (λ n. held self.new.request ≡ drop n (held self.old.request)) }
        ensures good { IfOk result (λ _. is_bad self.new.request ≡ false) }
        ensures err { OnErr result ((self.new ≡ self.old) × (into.new ≡ into.old)) }
    {
        let n = into.len().min(self.request.used()? as usize);
        self.request.take(&mut into[..n]);
        Ok(n as u32)
    }

    /// The server puts as many of the bytes as find room in the reply ring, and is told how many. Where the
    /// indices are bad it is told these, and nothing changes. O(bytes moved).
    pub fn server_put(&mut self, from: &[u8]) -> Result<u32, BadIndex>
        ensures count { result ≡ unless_bad self.old.reply (min (length from.now) (free self.old.reply)) }
        ensures after { IfOk result (λ n. self.new ≡ with_reply (put_all (take n from.now) self.old.reply) self.old) }
        ensures content { IfOk result (λ n. held self.new.reply ≡ held self.old.reply ++ take n from.now) }
        ensures err { OnErr result (self.new ≡ self.old) }
    {
        let n = from.len().min(self.reply.free()? as usize);
        self.reply.put(&from[..n]);
        Ok(n as u32)
    }

    /// How many request bytes the server can take. O(1).
    pub fn request_used(&self) -> Result<u32, BadIndex>
        ensures { result ≡ used_unless_bad self.now.request }
    {
        self.request.used()
    }

    /// How many reply bytes the server can put. O(1).
    pub fn reply_free(&self) -> Result<u32, BadIndex>
        ensures { result ≡ free_unless_bad self.now.reply }
    {
        self.reply.free()
    }

    /// A guest writes over one index word.
    pub fn poke(&mut self, which: Index, value: u32)
        ensures { self.new ≡ poked which value self.old }
    {
        match which {
            Index::ReqCons => self.request.set_cons(value),
            Index::ReqProd => self.request.set_prod(value),
            Index::RspCons => self.reply.set_cons(value),
            Index::RspProd => self.reply.set_prod(value),
        }
    }

    /// Sets the error word: 2 for bad indices, 3 for a header that is too long.
    pub fn set_error(&mut self, value: u32)
        ensures { self.new ≡ with_error value self.old }
    {
        self.error = value;
    }

    /// The five words.
    pub fn words(&self) -> Words
        ensures words { result ≡ words_of self.now }
        ensures shape { IsPage self.now }
    {
        let (req_cons, req_prod) = self.request.indices();
        let (rsp_cons, rsp_prod) = self.reply.indices();
        Words {
            req_cons,
            req_prod,
            rsp_cons,
            rsp_prod,
            error: self.error,
        }
    }
}
