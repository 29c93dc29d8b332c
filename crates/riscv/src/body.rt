//! What a page of memory has that was written.

ghost use Rattle.std.specs.Prelude.{◌≡◌, ◌<◌, IfOk, OnOk, OnErr, length, slice_index, slice_set};
ghost use Rattle.std.specs.Str.{bytes_eq};
ghost use Rattle.std.proofs.Common.{rules};
ghost use Rattle.std.specs.Cmp.Rules.{comparing};
ghost use Rattle.riscv.specs.Storages.{words_of};
ghost use Rattle.riscv.specs.Memories.{zero_page};
ghost use Rattle.riscv.specs.Decoding.{instruction_of};
ghost use Rattle.riscv.specs.Predecoding.{meaning, KeepsCode};

use crate::predecoded::{PAGE_WORDS, Predecoded, unread};
use crate::storage::Storage;
use std::alloc::{AllocError, Global};
use std::marker::Model;

/// What is read of a page that was never written.
static ZEROS: [u32; PAGE_WORDS] = [0; PAGE_WORDS];

fn zeros() -> &'static [u32]
    ensures { result.now ≡ zero_page }
{
    &ZEROS
}

/// 1,024 words, seen as their list. Copies share one place, until one of them is written.
///
/// Beside the words it keeps what those say that were carried out. A word that is written over is forgotten, and the
/// others stay, since data and code may lie in one page.
#[derive(Drop)]
pub(crate) struct Body {
    words: Storage<u32>,
    code: Storage<Predecoded>,
}

impl Model for Body {
    ghost use Rattle.std.specs.Prelude.{List, ℕ};
    ghost use Rattle.riscv.specs.Storages.{words_of};
    ghost use Rattle.riscv.specs.Predecoding.{IsPage};

    ghost Value = { List ℕ };

    ghost view = { λ p. words_of p.words };

    ghost invariant = { λ p. IsPage p.words p.code };
}

impl PartialEq for Body {
    ghost eq = { bytes_eq };

    ghost laws = { Prim.search (comparing, rules) };

    fn eq(&self, other: &Body) -> bool {
        match (&self.words, &other.words) {
            (Storage::Nowhere, Storage::Nowhere) => true,
            _ => self.as_slice() == other.as_slice(),
        }
    }
}

impl Eq for Body {
    ghost laws = { Prim.search (comparing, rules) };
}

impl Body {
    /// Zeros, which lie nowhere.
    #[tactic(auto, using(crate::proofs::Pages::length_zero_page))]
    pub(crate) fn zero() -> Body
        ensures { result ≡ zero_page }
    {
        Body {
            words: Storage::Nowhere,
            code: Storage::Nowhere,
        }
    }

    /// These words.
    pub(crate) fn of(words: Vec<u32>) -> Body
        requires { length words.items ≡ 1024 }
        ensures { result ≡ words.items }
    {
        Body {
            words: Storage::Own(words),
            code: Storage::Nowhere,
        }
    }

    /// An equal page, which shares the place where that was shared.
    #[inline]
    pub(crate) fn copy(&self, alloc: Global) -> Result<Body, AllocError>
        ensures { IfOk result (λ p. p ≡ self.now) }
    {
        let words = self.words.copy(alloc)?;
        let code = self.code.copy(alloc)?;
        Ok(Body { words, code })
    }

    /// Lets copies share the place: it stays the same page.
    #[inline]
    pub(crate) fn share(&mut self, alloc: Global) -> Result<(), AllocError>
        ensures { self.new ≡ self.old }
    {
        self.words.share(alloc)?;
        self.code.share(alloc)
    }

    /// Whether all words are zeros.
    pub(crate) fn is_zero(&self) -> bool
        ensures { result ≡ bytes_eq self.now zero_page }
    {
        match self.words {
            Storage::Nowhere => true,
            _ => self.as_slice() == zeros(),
        }
    }

    /// The words.
    pub(crate) fn as_slice(&self) -> &[u32]
        ensures value { result.now ≡ self.now }
        ensures size { length self.now ≡ 1024 }
    {
        match &self.words {
            Storage::Nowhere => zeros(),
            Storage::Own(words) => words.as_slice(),
            Storage::Shared(words) => words.as_slice(),
        }
    }

    #[tactic(auto, using(crate::proofs::Pages::zero_page_read))]
    #[inline]
    pub(crate) fn word(&self, at: usize) -> u32
        requires { at < 1024 }
        ensures { result ≡ slice_index self.now at }
    {
        match &self.words {
            Storage::Own(words) => words[at],
            Storage::Shared(words) => words.as_slice()[at],
            Storage::Nowhere => 0,
        }
    }

    #[tactic(auto, using(crate::proofs::KeptCode::keeps_set))]
    #[inline]
    pub(crate) fn set_word(&mut self, alloc: Global, at: usize, n: u32) -> Result<(), AllocError>
        requires { at < 1024 }
        ensures ok { OnOk result (self.new ≡ slice_set self.old at n) }
        ensures err { OnErr result (self.new ≡ self.old) }
    {
        if let Storage::Own(words) = &mut self.words {
            match &mut self.code {
                Storage::Nowhere => {
                    words[at] = n;
                    return Ok(());
                }
                Storage::Own(code) => {
                    words[at] = n;
                    code[at] = Predecoded::Unread;
                    return Ok(());
                }
                Storage::Shared(_) => {}
            }
        }
        self.set_word_apart(alloc, at, n)
    }

    /// The same, where the page has no place of its own yet.
    #[tactic(auto, using(crate::proofs::KeptCode::decodes_set, crate::proofs::KeptCode::code_within))]
    #[inline(never)]
    fn set_word_apart(&mut self, alloc: Global, at: usize, n: u32) -> Result<(), AllocError>
        requires { at < 1024 }
        ensures ok { OnOk result (self.new ≡ slice_set self.old at n) }
        ensures err { OnErr result (self.new ≡ self.old) }
    {
        self.words.own(alloc, zeros())?;
        self.code.part(alloc)?;
        self.words.put(at, n);
        self.code.put(at, Predecoded::Unread);
        Ok(())
    }

    /// What is kept of what the words say; nothing, where none of it is.
    #[inline(always)]
    pub(crate) fn code(&self) -> &[Predecoded]
        ensures keeps { 0 < length result.now → KeepsCode result.now self.now }
        ensures size { length self.now ≡ 1024 }
    {
        let _ = &self.words;
        match &self.code {
            Storage::Own(code) => code.as_slice(),
            Storage::Shared(code) => code.as_slice(),
            Storage::Nowhere => &[],
        }
    }

    /// Makes room for what the words say, unless none was ever written: then none is an instruction.
    #[tactic(auto, using(crate::proofs::KeptCode::nothing_read))]
    fn make_code(&mut self, alloc: Global) -> Result<(), AllocError>
        ensures { self.new ≡ self.old }
    {
        if let Storage::Nowhere = self.words {
            return Ok(());
        }
        if let Storage::Nowhere = self.code {
            let code = unread(alloc)?;
            self.code = Storage::Own(code);
        }
        Ok(())
    }

    /// Keeps what the word at a place says, where there is room.
    #[tactic(auto, using(crate::proofs::KeptCode::decodes_read, crate::proofs::KeptCode::code_within))]
    fn put_code(&mut self, alloc: Global, at: usize, said: &Predecoded) -> Result<(), AllocError>
        requires within { at < 1024 }
        requires said { meaning said.now ≡ instruction_of (slice_index self.old at) }
        ensures { self.new ≡ self.old }
    {
        self.code.part(alloc)?;
        self.code.put(at, *said);
        Ok(())
    }

    /// Keeps what the word at a place says.
    pub(crate) fn keep(
        &mut self,
        alloc: Global,
        at: usize,
        said: &Predecoded,
    ) -> Result<(), AllocError>
        requires within { at < 1024 }
        requires said { meaning said.now ≡ instruction_of (slice_index self.old at) }
        ensures { self.new ≡ self.old }
    {
        self.make_code(alloc)?;
        self.put_code(alloc, at, said)
    }
}
