//! One page of memory.

ghost use Rattle.std.specs.Prelude.{◌≡◌, ◌≢◌, ◌<◌, IfNone, IfOk, IfSome, OnOk, OnErr, length, slice_index, slice_set};
ghost use Rattle.std.specs.Str.{bytes_eq};
ghost use Rattle.std.proofs.Common.{rules};
ghost use Rattle.std.specs.Cmp.Rules.{comparing};
ghost use Rattle.riscv.specs.Memories.{zero_page};
ghost use Rattle.riscv.specs.Decoding.{instruction_of};
ghost use Rattle.riscv.specs.Predecoding.{meaning, KeepsCode};

use crate::body::Body;
use crate::predecoded::Predecoded;
use std::alloc::{AllocError, Global};
use std::marker::Model;

/// 1,024 words, seen as their list. A page that was never written has no body, and its words are 0.
#[derive(Drop)]
pub(crate) struct Page {
    body: Option<Box<Body>>,
}

// So a list of 64 has no more than the allocator keeps at hand.
const _: () = prove!(size_of::<Page>() == 16);

impl Model for Page {
    ghost use Rattle.std.specs.Prelude.{List, ℕ};
    ghost use Rattle.riscv.specs.Pages.{body_words};

    ghost Value = { List ℕ };

    ghost view = { λ p. body_words p.body };
}

impl PartialEq for Page {
    ghost eq = { bytes_eq };

    ghost laws = { Prim.search (comparing, rules) };

    fn eq(&self, other: &Page) -> bool {
        match (&self.body, &other.body) {
            (None, None) => true,
            (Some(body), Some(other)) => **body == **other,
            (Some(body), None) => body.is_zero(),
            (None, Some(other)) => other.is_zero(),
        }
    }
}

impl Eq for Page {
    ghost laws = { Prim.search (comparing, rules) };
}

impl Page {
    /// Zeros, which lie nowhere.
    pub(crate) fn zero() -> Page
        ensures { result ≡ zero_page }
    {
        Page { body: None }
    }

    /// These words.
    pub(crate) fn of(alloc: Global, words: Vec<u32>) -> Result<Page, AllocError>
        requires { length words.items ≡ 1024 }
        ensures { IfOk result (λ p. p ≡ words.items) }
    {
        let body = Box::new(alloc, Body::of(words))?;
        Ok(Page { body: Some(body) })
    }

    /// An equal page, which shares the place of the words where that was shared.
    #[inline]
    pub(crate) fn copy(&self, alloc: Global) -> Result<Page, AllocError>
        ensures { IfOk result (λ p. p ≡ self.now) }
    {
        let body = match &self.body {
            None => None,
            Some(body) => Some(Box::new(alloc, body.copy(alloc)?)?),
        };
        Ok(Page { body })
    }

    /// Lets copies share the place: it stays the same page.
    #[inline]
    pub(crate) fn share(&mut self, alloc: Global) -> Result<(), AllocError>
        ensures { self.new ≡ self.old }
    {
        match &mut self.body {
            None => Ok(()),
            Some(body) => body.share(alloc),
        }
    }

    /// Whether all words are zeros.
    pub(crate) fn is_zero(&self) -> bool
        ensures { result ≡ bytes_eq self.now zero_page }
    {
        match &self.body {
            None => true,
            Some(body) => body.is_zero(),
        }
    }

    /// The words; nothing where all are zeros.
    pub(crate) fn words(&self) -> Option<&[u32]>
        ensures none { IfNone result (self.now ≡ zero_page) }
        ensures some { IfSome result (λ words. words.now ≡ self.now) }
        ensures written { IfSome result (λ words. words.now ≢ zero_page) }
        ensures size { IfSome result (λ words. length words.now ≡ 1024) }
    {
        match &self.body {
            None => None,
            Some(body) => {
                if body.is_zero() {
                    None
                } else {
                    Some(body.as_slice())
                }
            }
        }
    }

    #[tactic(auto, using(crate::proofs::Pages::zero_page_read))]
    #[inline]
    pub(crate) fn word(&self, at: usize) -> u32
        requires { at < 1024 }
        ensures { result ≡ slice_index self.now at }
    {
        match &self.body {
            None => 0,
            Some(body) => body.word(at),
        }
    }

    #[inline]
    pub(crate) fn set_word(&mut self, alloc: Global, at: usize, n: u32) -> Result<(), AllocError>
        requires { at < 1024 }
        ensures ok { OnOk result (self.new ≡ slice_set self.old at n) }
        ensures err { OnErr result (self.new ≡ self.old) }
    {
        match &mut self.body {
            None => self.set_first_word(alloc, at, n),
            Some(body) => body.set_word(alloc, at, n),
        }
    }

    /// The same, where no word was ever written.
    #[inline(never)]
    fn set_first_word(&mut self, alloc: Global, at: usize, n: u32) -> Result<(), AllocError>
        requires never { self.old ≡ zero_page }
        requires within { at < 1024 }
        ensures ok { OnOk result (self.new ≡ slice_set self.old at n) }
        ensures err { OnErr result (self.new ≡ self.old) }
    {
        let mut body = Body::zero();
        body.set_word(alloc, at, n)?;
        self.body = Some(Box::new(alloc, body)?);
        Ok(())
    }

    /// What is kept of what the words say; nothing, where none of it is.
    #[tactic(auto, using(crate::proofs::Pages::length_zero_page))]
    #[inline(always)]
    pub(crate) fn code(&self) -> &[Predecoded]
        ensures keeps { 0 < length result.now → KeepsCode result.now self.now }
        ensures size { length self.now ≡ 1024 }
    {
        match &self.body {
            None => &[],
            Some(body) => body.code(),
        }
    }

    /// Keeps what the word at a place says, unless none was ever written: then none is an instruction.
    pub(crate) fn keep(
        &mut self,
        alloc: Global,
        at: usize,
        said: &Predecoded,
    ) -> Result<(), AllocError>
        requires within { at < 1024 }
        requires said { meaning said.now ≡ instruction_of (slice_index self.old at) }
        ensures { self.new ≡ self.old }
    {
        match &mut self.body {
            None => Ok(()),
            Some(body) => body.keep(alloc, at, said),
        }
    }
}
