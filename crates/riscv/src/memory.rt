//! The memory of a machine.

ghost use Rattle.std.specs.Prelude.{◌≡◌, ◌≢◌, ◌+◌, ◌/◌, ◌<◌, ◌≤◌, ◌%◌, IfOk, IfNone, IfSome, OnOk, OnErr, [], length};
ghost use Rattle.std.specs.Prelude.{slice_index_or, slice_set};
ghost use Rattle.std.proofs.Common.{rules};
ghost use Rattle.std.specs.Cmp.Rules.{comparing};
ghost use Rattle.riscv.specs.Decoding.{instruction_of};
ghost use Rattle.riscv.specs.Predecoding.{meaning};
ghost use Rattle.riscv.specs.Harts.{Says};
ghost use Rattle.riscv.specs.Bytes.{byte_in, half_in, with_byte, with_half};
ghost use Rattle.riscv.specs.Memories.{pages_equal, zero_page, zeros, byte_at, half_at, word_at, put_byte, put_half};
ghost use Rattle.riscv.specs.Memories.{put_word, bytes_from, put_bytes};

use crate::page::Page;
use crate::predecoded::{Predecoded, predecode};
use crate::storage::Storage;
use std::alloc::{AllocError, Global};
use std::marker::Model;

/// Pages of a memory.
const PAGES: usize = 64;

/// How many bytes a memory has: 256 KiB.
pub const MEMORY_BYTES: usize = 262_144;

/// 262,144 bytes from address 0 on, all 0 at first. Contracts see them as 64 pages of 1,024 words of 32
/// bits, lowest byte first. An address is in bytes.
///
/// Copies share the pages that neither wrote since, so a copy takes memory only for what is written to it.
/// A page that was never written takes none, and a memory of zeros is 32 bytes. A page of which an
/// instruction was carried out takes 12 KiB, any other 4 KiB.
#[derive(Drop)]
pub struct Memory {
    // Nowhere: all pages are zeros.
    pages: Storage<Page>,
}

// A memory of zeros takes no more than this.
const _: () = prove!(size_of::<Memory>() == 32);

impl Model for Memory {
    ghost use Rattle.std.specs.Prelude.{◌≡◌, List, ℕ, length};
    ghost use Rattle.riscv.specs.Pages.{pages_of};

    ghost Value = { List (List ℕ) };

    ghost view = { λ m. pages_of m.pages };

    ghost invariant = { λ m. length (pages_of m.pages) ≡ 64 };
}

impl PartialEq for Memory {
    ghost eq = { pages_equal };

    ghost laws = { Prim.search (comparing, rules) };

    #[tactic(auto, using(crate::proofs::Pages::zeros_are_equal, crate::proofs::Pages::zeros_are_same))]
    fn eq(&self, other: &Memory) -> bool {
        match (self.pages(), other.pages()) {
            (None, None) => true,
            (Some(pages), Some(others)) => pages == others,
            (Some(pages), None) => are_zero(pages),
            (None, Some(pages)) => are_zero(pages),
        }
    }
}

impl Eq for Memory {
    ghost laws = { Prim.search (comparing, rules) };
}

/// Whether all words of all pages are zeros.
fn are_zero(pages: &[Page]) -> bool
    requires { length pages.now ≡ 64 }
    ensures { result ≡ pages_equal pages.now zeros }
{
    pages.iter().all(Page::is_zero)
}

/// Pages of zeros.
fn zero_pages(alloc: Global) -> Result<Vec<Page>, AllocError>
    ensures { IfOk result (λ v. v.items ≡ zeros) }
{
    let mut pages = Vec::with_capacity(alloc, PAGES)?;
    for _ in 0..PAGES {
        pages.push(Page::zero())?;
    }
    Ok(pages)
}

/// Equal pages.
fn copied(alloc: Global, pages: &[Page]) -> Result<Vec<Page>, AllocError>
    ensures { IfOk result (λ v. v.items ≡ pages.now) }
{
    let mut copies = Vec::with_capacity(alloc, PAGES)?;
    for page in pages {
        copies.push(page.copy(alloc)?)?;
    }
    Ok(copies)
}

/// Lets copies share each page.
fn share_each(alloc: Global, pages: &mut [Page]) -> Result<(), AllocError>
    ensures { pages.new ≡ pages.old }
{
    for i in 0..pages.len() {
        pages[i].share(alloc)?;
    }
    Ok(())
}

#[inline]
fn page_index(address: u32) -> usize
    ensures { result ≡ address / 4096 }
{
    (address / 4096) as usize
}

#[inline]
pub(crate) fn word_index(address: u32) -> usize
    ensures { result ≡ address / 4 % 1024 }
{
    (address / 4 % 1024) as usize
}

/// A byte of a word.
#[inline]
fn byte_of(word: u32, place: u32) -> u8
    requires { place < 4 }
    ensures { result ≡ byte_in word place }
{
    ((word >> (8 * place)) % 0x100) as u8
}

/// A half of a word.
#[inline]
fn half_of(word: u32, place: u32) -> u16
    requires { place < 4 }
    ensures { result ≡ half_in word place }
{
    ((word >> (8 * place)) % 0x1_0000) as u16
}

/// A word with another byte.
#[inline]
fn put_byte_in(word: u32, place: u32, n: u32) -> u32
    requires { place < 4 }
    ensures { result ≡ with_byte word place n }
{
    match place {
        0 => word - word % 0x100 + n % 0x100,
        1 => word - word / 0x100 % 0x100 * 0x100 + n % 0x100 * 0x100,
        2 => word - word / 0x1_0000 % 0x100 * 0x1_0000 + n % 0x100 * 0x1_0000,
        3 => word - word / 0x100_0000 % 0x100 * 0x100_0000 + n % 0x100 * 0x100_0000,
        _ => unreachable!(),
    }
}

/// A word with another half.
#[inline]
fn put_half_in(word: u32, place: u32, n: u32) -> u32
    requires aligned { place % 2 ≡ 0 }
    requires below { place < 4 }
    ensures { result ≡ with_half word place n }
{
    match place {
        0 => word - word % 0x1_0000 + n % 0x1_0000,
        2 => word - word / 0x1_0000 % 0x1_0000 * 0x1_0000 + n % 0x1_0000 * 0x1_0000,
        _ => unreachable!(),
    }
}

impl Memory {
    /// A memory of zeros. Takes no memory.
    ///
    /// # Errors
    ///
    /// None: whoever makes one where memory can fail need not tell this case apart.
    #[tactic(auto, using(crate::proofs::Pages::length_zeros))]
    pub fn new(_alloc: Global) -> Result<Memory, AllocError>
        ensures { IfOk result (λ m. m ≡ zeros) }
    {
        Ok(Memory {
            pages: Storage::Nowhere,
        })
    }

    /// An equal memory. After `share` it takes no memory and a constant time; before, each page that was
    /// written since is copied.
    ///
    /// # Errors
    ///
    /// `AllocError` where a page finds no memory.
    pub fn copy(&self, alloc: Global) -> Result<Memory, AllocError>
        ensures { IfOk result (λ m. m ≡ self.now) }
    {
        let pages = match &self.pages {
            Storage::Nowhere => Storage::Nowhere,
            Storage::Own(pages) => Storage::Own(copied(alloc, pages.as_slice())?),
            Storage::Shared(pages) => Storage::Shared(pages.clone()?),
        };
        Ok(Memory { pages })
    }

    /// Lets copies share all pages, in a time by the count of pages. It stays the same memory, whatever is
    /// returned.
    ///
    /// # Errors
    ///
    /// `AllocError` where there is no memory to count the copies of a page. Some pages may be shared by then.
    pub fn share(&mut self, alloc: Global) -> Result<(), AllocError>
        ensures { self.new ≡ self.old }
    {
        if let Storage::Own(pages) = &mut self.pages {
            share_each(alloc, pages.as_mut_slice())?;
        }
        self.pages.share(alloc)
    }

    /// The pages, where they lie somewhere.
    fn pages(&self) -> Option<&[Page]>
        ensures none { IfNone result (self.now ≡ zeros) }
        ensures some { IfSome result (λ pages. pages.now ≡ self.now) }
        ensures count { length self.now ≡ 64 }
    {
        match &self.pages {
            Storage::Nowhere => None,
            Storage::Own(pages) => Some(pages.as_slice()),
            Storage::Shared(pages) => Some(pages.as_slice()),
        }
    }

    /// The pages, in a vector of their own.
    fn to_vec(&self, alloc: Global) -> Result<Vec<Page>, AllocError>
        ensures { IfOk result (λ v. v.items ≡ self.now) }
    {
        match self.pages() {
            Some(pages) => copied(alloc, pages),
            None => zero_pages(alloc),
        }
    }

    /// The word that has the byte at an address: the address need not be a multiple of 4. Takes no memory.
    #[tactic(auto, using(crate::proofs::Pages::page_read, crate::proofs::Pages::zero_read))]
    #[inline]
    pub fn word(&self, address: u32) -> u32
        requires { address < 262144 }
        ensures { result ≡ word_at self.now address }
    {
        match &self.pages {
            Storage::Own(pages) => pages[page_index(address)].word(word_index(address)),
            Storage::Shared(pages) => {
                pages.as_slice()[page_index(address)].word(word_index(address))
            }
            Storage::Nowhere => 0,
        }
    }

    /// What is kept of what the words of a page say; nothing, where none of it is.
    #[tactic(auto, using(crate::proofs::Pages::page_read))]
    #[inline(always)]
    pub(crate) fn code(&self, address: u32) -> &[Predecoded]
        requires aligned { address % 4 ≡ 0 }
        requires within { address < 262144 }
        ensures { 0 < length result.now → Says result.now self.now address }
    {
        match &self.pages {
            Storage::Own(pages) => pages[page_index(address)].code(),
            Storage::Shared(pages) => pages.as_slice()[page_index(address)].code(),
            Storage::Nowhere => &[],
        }
    }

    /// What the word at an address says, for the first time since it was written. Its page keeps it.
    ///
    /// # Errors
    ///
    /// `AllocError` where there is no memory to keep it. The memory stays as it was.
    #[tactic(auto, using(crate::proofs::Pages::page_read))]
    #[cold]
    #[inline(never)]
    pub(crate) fn read_code(
        &mut self,
        alloc: Global,
        address: u32,
    ) -> Result<Predecoded, AllocError>
        requires { address < 262144 }
        ensures same { self.new ≡ self.old }
        ensures said { IfOk result (λ p. meaning p ≡ instruction_of (word_at self.old address)) }
        ensures read { IfOk result (λ p. p ≢ Predecoded.Unread) }
    {
        let said = predecode(self.word(address));
        self.keep_code(alloc, address, &said)?;
        Ok(said)
    }

    /// Keeps what the word at an address says.
    #[tactic(auto, using(crate::proofs::Pages::page_read))]
    fn keep_code(
        &mut self,
        alloc: Global,
        address: u32,
        said: &Predecoded,
    ) -> Result<(), AllocError>
        requires within { address < 262144 }
        requires said { meaning said.now ≡ instruction_of (word_at self.old address) }
        ensures { self.new ≡ self.old }
    {
        match &mut self.pages {
            Storage::Nowhere => Ok(()),
            Storage::Own(pages) => pages[page_index(address)].keep(
                alloc,
                word_index(address),
                said,
            ),
            Storage::Shared(shared) => {
                let mut pages = copied(alloc, shared.as_slice())?;
                pages[page_index(address)].keep(alloc, word_index(address), said)?;
                self.pages = Storage::Own(pages);
                Ok(())
            }
        }
    }

    /// The byte at an address. Takes no memory.
    #[inline]
    pub fn byte(&self, address: u32) -> u8
        requires { address < 262144 }
        ensures { result ≡ byte_at self.now address }
    {
        byte_of(self.word(address), address % 4)
    }

    /// The half of 16 bits at an even address. Takes no memory.
    #[inline]
    pub fn half(&self, address: u32) -> u16
        requires { address < 262144 }
        ensures { result ≡ half_at self.now address }
    {
        half_of(self.word(address), address % 4)
    }

    /// Writes a word in the place of the one that has the byte at an address.
    ///
    /// # Errors
    ///
    /// `AllocError` where the page is shared and finds no memory of its own. The memory stays as it was.
    #[tactic(auto, using(crate::proofs::Pages::page_read))]
    #[inline]
    pub fn set_word(&mut self, alloc: Global, address: u32, n: u32) -> Result<(), AllocError>
        requires { address < 262144 }
        ensures ok { OnOk result (self.new ≡ put_word self.old address n) }
        ensures err { OnErr result (self.new ≡ self.old) }
    {
        match &mut self.pages {
            Storage::Own(pages) => {
                pages[page_index(address)].set_word(alloc, word_index(address), n)
            }
            _ => self.set_word_apart(alloc, address, n),
        }
    }

    /// The same, where the pages have no place of their own yet.
    #[tactic(auto, using(crate::proofs::Pages::page_read))]
    #[cold]
    #[inline(never)]
    fn set_word_apart(&mut self, alloc: Global, address: u32, n: u32) -> Result<(), AllocError>
        requires { address < 262144 }
        ensures ok { OnOk result (self.new ≡ put_word self.old address n) }
        ensures err { OnErr result (self.new ≡ self.old) }
    {
        let mut pages = self.to_vec(alloc)?;
        pages[page_index(address)].set_word(alloc, word_index(address), n)?;
        self.pages = Storage::Own(pages);
        Ok(())
    }

    /// Writes the lowest byte of a number at an address.
    ///
    /// # Errors
    ///
    /// `AllocError` as in [`Memory::set_word`].
    #[inline]
    pub fn set_byte(&mut self, alloc: Global, address: u32, n: u32) -> Result<(), AllocError>
        requires { address < 262144 }
        ensures ok { OnOk result (self.new ≡ put_byte self.old address n) }
        ensures err { OnErr result (self.new ≡ self.old) }
    {
        let word = put_byte_in(self.word(address), address % 4, n);
        self.set_word(alloc, address, word)
    }

    /// Writes the lower half of a number, 16 bits, at an even address.
    ///
    /// # Errors
    ///
    /// `AllocError` as in [`Memory::set_word`].
    #[inline]
    pub fn set_half(&mut self, alloc: Global, address: u32, n: u32) -> Result<(), AllocError>
        requires below { address < 262144 }
        requires aligned { address % 2 ≡ 0 }
        ensures ok { OnOk result (self.new ≡ put_half self.old address n) }
        ensures err { OnErr result (self.new ≡ self.old) }
    {
        let word = put_half_in(self.word(address), address % 4, n);
        self.set_word(alloc, address, word)
    }

    /// The words of a page; nothing where all are zeros. Takes no memory.
    #[tactic(auto, using(crate::proofs::Places::zero_page_in, crate::proofs::Places::page_in))]
    pub fn page(&self, index: usize) -> Option<&[u32]>
        requires { index < 64 }
        ensures none { IfNone result (slice_index_or self.now index [] ≡ zero_page) }
        ensures some { IfSome result (λ words. words.now ≡ slice_index_or self.now index []) }
        ensures written { IfSome result (λ words. words.now ≢ zero_page) }
        ensures size { IfSome result (λ words. length words.now ≡ 1024) }
        ensures count { length self.now ≡ 64 }
    {
        match self.pages() {
            Some(pages) => pages[index].words(),
            None => None,
        }
    }

    /// Puts 1,024 words in the place of those of a page.
    ///
    /// # Errors
    ///
    /// `AllocError` where there is no memory for the page. The memory stays as it was.
    pub fn set_page(
        &mut self,
        alloc: Global,
        index: usize,
        words: Vec<u32>,
    ) -> Result<(), AllocError>
        requires within { index < 64 }
        requires size { length words.items ≡ 1024 }
        ensures ok { OnOk result (self.new ≡ slice_set self.old index words.items) }
        ensures err { OnErr result (self.new ≡ self.old) }
    {
        let page = Page::of(alloc, words)?;
        match &mut self.pages {
            Storage::Own(pages) => {
                pages[index] = page;
                Ok(())
            }
            _ => self.set_page_apart(alloc, index, page),
        }
    }

    /// The same, where the pages have no place of their own yet.
    fn set_page_apart(&mut self, alloc: Global, index: usize, page: Page) -> Result<(), AllocError>
        requires { index < 64 }
        ensures ok { OnOk result (self.new ≡ slice_set self.old index page) }
        ensures err { OnErr result (self.new ≡ self.old) }
    {
        let mut pages = self.to_vec(alloc)?;
        pages[index] = page;
        self.pages = Storage::Own(pages);
        Ok(())
    }

    /// So many bytes from an address on. They end within the memory.
    ///
    /// # Errors
    ///
    /// `AllocError` where the vector finds no memory.
    #[tactic(auto, using(crate::proofs::Pages::bytes_from_step))]
    pub fn bytes(&self, alloc: Global, address: u32, count: u32) -> Result<Vec<u8>, AllocError>
        requires { address + count ≤ 262144 }
        ensures { IfOk result (λ v. v.items ≡ bytes_from self.now address count) }
    {
        let mut bytes = Vec::with_capacity(alloc, count as usize)?;
        for i in 0..count {
            bytes.push(self.byte(address + i))?;
        }
        Ok(bytes)
    }

    /// Writes bytes from an address on. They end within the memory.
    ///
    /// # Errors
    ///
    /// `AllocError` as in [`Memory::set_word`]. Some of the bytes may be written by then.
    #[tactic(auto, using(crate::proofs::Pages::put_bytes_step))]
    pub fn set_bytes(&mut self, alloc: Global, address: u32, bytes: &[u8]) -> Result<(), AllocError>
        requires { address + length bytes.now ≤ 262144 }
        ensures { OnOk result (self.new ≡ put_bytes self.old address bytes.now) }
    {
        let mut at = address;
        for byte in bytes {
            self.set_byte(alloc, at, *byte as u32)?;
            at += 1;
        }
        Ok(())
    }
}
