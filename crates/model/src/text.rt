//! Texts and lists that contracts see by their content.

ghost use Rattle.std.specs.Prelude.{◌≡◌, ◌+◌, ◌<◌, ◌^◌, ℕ, List, Some, None, if◌then◌else◌, IfOk, length};
ghost use Rattle.std.specs.Prelude.{string_bytes, IsTrue};
ghost use Rattle.std.specs.List.{list_all};
ghost use Rattle.std.specs.Str.{bytes_eq};
ghost use Rattle.std.proofs.Common.{rules};
ghost use Rattle.std.specs.Cmp.Lexicographic.{pointwise};
ghost use Rattle.std.specs.Cmp.Rules.{comparing, hashing};
ghost use Rattle.std.specs.Hash as fed;
ghost use Rattle.model.specs.Lists.{numbers_from};
ghost use Rattle.model.specs.Names.{is_name_byte, is_tenant_name};
ghost use Rattle.model.specs.Storage.{stored_bytes};

use crate::fault::NoMemory;
use crate::limits::MAX_NAME_BYTES;
use crate::names::Letter;
use crate::short_list::ShortList;
use arrayvec::ArrayString;
use std::alloc::Global;
use std::hash::{Hash, Hasher};
use std::marker::Model;
use std::sync::{ArcSlice, ArcStr};

/// How many bytes a text may have that lies in the value itself.
const MAX_INLINE_BYTES: usize = 16;

/// Where the bytes of a text lie.
#[derive(Debug, Drop)]
enum Storage {
    // In the value itself.
    Inline(ArrayString<MAX_INLINE_BYTES>),
    // In one place in memory, which goes with the last of its copies.
    Shared(ArcStr),
}

impl Storage {
    #[inline(always)]
    fn as_str(&self) -> &str
        ensures { result.now ≡ stored_bytes self.now }
    {
        match self {
            Storage::Inline(string) => string.as_str(),
            Storage::Shared(string) => string.as_str(),
        }
    }

    /// Whether they lie in the value itself.
    #[inline(always)]
    fn is_inline(&self) -> bool {
        match self {
            Storage::Inline(_) => true,
            Storage::Shared(_) => false,
        }
    }

    #[inline(always)]
    fn copy(&self) -> Result<Storage, NoMemory>
        ensures { IfOk result (λ s. stored_bytes s ≡ stored_bytes self.now) }
    {
        match self {
            Storage::Inline(string) => Ok(Storage::Inline(*string)),
            Storage::Shared(string) => Ok(Storage::Shared(string.clone()?)),
        }
    }
}

/// A text, seen as its bytes. A short one lies in the value itself; copies of any other share one place in memory,
/// which goes with the last of them.
#[derive(Debug, Drop)]
pub struct Text {
    storage: Storage,
}

impl Model for Text {
    ghost use Rattle.std.specs.Prelude.{List, ℕ};
    ghost use Rattle.model.specs.Storage.{stored_bytes};

    ghost Value = { List ℕ };

    ghost view = { λ t. stored_bytes t.storage };
}

impl Text {
    /// The string as a text. A long one takes a few bytes more, a short one none.
    pub fn new(string: String) -> Result<Text, NoMemory>
        ensures { IfOk result (λ t. t ≡ string_bytes string) }
    {
        let storage = match ArrayString::from(string.as_str()) {
            Ok(inline) => Storage::Inline(inline),
            Err(_) => Storage::Shared(ArcStr::from_string(string)?),
        };
        Ok(Text { storage })
    }

    /// A text of its own with these characters. A short one takes no memory.
    #[inline(always)]
    pub fn of(alloc: Global, text: &str) -> Result<Text, NoMemory>
        ensures { IfOk result (λ t. t ≡ text.now) }
    {
        let storage = match ArrayString::from(text) {
            Ok(inline) => Storage::Inline(inline),
            Err(_) => Storage::Shared(ArcStr::from_str(alloc, text)?),
        };
        Ok(Text { storage })
    }

    #[inline(always)]
    pub fn as_str(&self) -> &str
        ensures { result.now ≡ self.now }
    {
        self.storage.as_str()
    }

    /// How many bytes it has.
    pub fn len(&self) -> usize
        ensures { result ≡ length self.now }
    {
        self.as_str().len()
    }

    /// An equal text, which takes no memory.
    ///
    /// # Errors
    ///
    /// `NoMemory` where there are 2^63 - 1 of it already.
    #[inline(always)]
    pub fn copy(&self) -> Result<Text, NoMemory>
        ensures { IfOk result (λ t. t ≡ self.now) }
    {
        let storage = self.storage.copy()?;
        Ok(Text { storage })
    }

    /// Gives its place up for the other's, where it is long and has the same bytes: then both share one. It stays the
    /// same text, and this takes no memory.
    #[inline(always)]
    pub fn share_with(&mut self, other: &Text)
        ensures { self.new ≡ self.old }
    {
        if self.storage.is_inline() || *self != *other {
            return;
        }
        if let Ok(shared) = other.copy() {
            *self = shared;
        }
    }
}

impl PartialEq for Text {
    ghost eq = { bytes_eq };

    ghost laws = { Prim.search (comparing, rules) };

    fn eq(&self, other: &Text) -> bool {
        self.as_str() == other.as_str()
    }
}

impl Eq for Text {
    ghost laws = { Prim.search (comparing, rules) };
}

/// A list of texts, seen as the list of their bytes. Copies share one place in memory, which goes with the last of
/// them.
#[derive(Debug, Drop)]
pub struct Texts {
    texts: ArcSlice<Text>,
}

impl Model for Texts {
    ghost use Rattle.std.specs.Prelude.{List, ℕ};
    ghost use Rattle.std.specs.Arc.{arc_slice_items};

    ghost Value = { List (List ℕ) };

    ghost view = { λ t. arc_slice_items t.texts };
}

impl Texts {
    /// These texts, where they lie, for copies to share. Gives the room behind them back, and takes a few bytes.
    ///
    /// # Errors
    ///
    /// `NoMemory` where these bytes find no memory. The texts are let go of then.
    pub fn new(texts: Vec<Text>) -> Result<Texts, NoMemory>
        ensures { IfOk result (λ t. t ≡ texts.items) }
    {
        let mut exact = texts;
        exact.shrink_to_fit();
        let texts = ArcSlice::from_vec(exact)?;
        Ok(Texts { texts })
    }

    /// A list of its own of these texts.
    ///
    /// # Errors
    ///
    /// `NoMemory` where the list finds no memory, or there are 2^63 - 1 copies of a text already.
    pub fn of(alloc: Global, texts: &[Text]) -> Result<Texts, NoMemory>
        ensures { IfOk result (λ t. t ≡ texts.now) }
    {
        let mut copies = Vec::with_capacity(alloc, texts.len())?;
        for text in texts {
            copies.push(text.copy()?)?;
        }
        Texts::new(copies)
    }

    #[inline(always)]
    pub fn as_slice(&self) -> &[Text]
        ensures { result.now ≡ self.now }
    {
        self.texts.as_slice()
    }

    /// An equal list, which takes no memory.
    ///
    /// # Errors
    ///
    /// `NoMemory` where there are 2^63 - 1 of it already.
    #[inline(always)]
    pub fn copy(&self) -> Result<Texts, NoMemory>
        ensures { IfOk result (λ t. t ≡ self.now) }
    {
        let texts = self.texts.clone()?;
        Ok(Texts { texts })
    }
}

impl PartialEq for Texts {
    ghost eq = { pointwise bytes_eq };

    ghost laws = { Prim.search (comparing, rules) };

    fn eq(&self, other: &Texts) -> bool {
        self.as_slice() == other.as_slice()
    }
}

impl Eq for Texts {
    ghost laws = { Prim.search (comparing, rules) };
}

/// A list of letters, seen as the list of their numbers.
pub type Letters = ShortList<Letter>;

/// The letter that comes so many after the first.
fn nth(first: usize, i: usize) -> Letter
    requires { first + i < 2 ^ 32 }
    ensures { result ≡ first + i }
{
    Letter::new((first + i) as u32)
}

/// The `n` letters from `first` on, in a place of their own.
fn letters_from(alloc: Global, first: usize, n: usize) -> Result<Vec<Letter>, NoMemory>
    requires { first + n < 2 ^ 32 }
    ensures { IfOk result (λ ls. ls.items ≡ numbers_from first n) }
{
    let mut letters = Vec::new(alloc);
    for i in 0..n {
        letters.push(nth(first, i))?;
    }
    Ok(letters)
}

impl ShortList<Letter> {
    /// The `n` letters from `first` on.
    ///
    /// # Errors
    ///
    /// `NoMemory` where they find no memory. One or two take none.
    #[inline(always)]
    pub fn from_first(alloc: Global, first: usize, n: usize) -> Result<Letters, NoMemory>
        requires { first + n < 2 ^ 32 }
        ensures { IfOk result (λ ls. ls ≡ numbers_from first n) }
    {
        match n {
            0 => ShortList::of(alloc, &[]),
            1 => ShortList::of(alloc, &[nth(first, 0)]),
            2 => ShortList::of(alloc, &[nth(first, 0), nth(first, 1)]),
            _ => ShortList::of(alloc, letters_from(alloc, first, n)?.as_slice()),
        }
    }
}

impl PartialEq for ShortList<Letter> {
    ghost eq = { bytes_eq };

    ghost laws = { Prim.search (comparing, rules) };

    fn eq(&self, other: &ShortList<Letter>) -> bool {
        self.as_slice() == other.as_slice()
    }
}

impl Eq for ShortList<Letter> {
    ghost laws = { Prim.search (comparing, rules) };
}

/// The name of a tenant: 1 to 32 bytes of a to z, 0 to 9 and hyphen, which lie in the value itself.
#[derive(Debug, Drop)]
pub struct TenantName {
    string: ArrayString<MAX_NAME_BYTES>,
}

impl Model for TenantName {
    ghost use Rattle.std.specs.Prelude.{List, ℕ, IsTrue};
    ghost use Rattle.model.specs.Names.{is_tenant_name};

    ghost Value = { List ℕ };

    ghost view = { λ t. t.string.bytes };

    ghost invariant = { λ t. IsTrue (is_tenant_name t.string.bytes) };
}

fn is_name_char(byte: u8) -> bool
    ensures { result ≡ is_name_byte byte }
{
    (97 <= byte && byte <= 122) || (48 <= byte && byte <= 57) || byte == 45
}

fn are_name_bytes(bytes: &[u8]) -> bool
    ensures { result ≡ list_all is_name_byte bytes.now }
{
    bytes.iter().all(|byte| is_name_char(*byte))
}

fn is_name(text: &str) -> bool
    ensures { result ≡ is_tenant_name text.now }
{
    1 <= text.len() && text.len() <= MAX_NAME_BYTES && are_name_bytes(text.as_bytes())
}

impl TenantName {
    /// The text as a name, where it is one.
    pub fn new(text: &str) -> Option<TenantName>
        ensures { result ≡ (if is_tenant_name text.now then Some text.now else None) }
    {
        if !is_name(text) {
            return None;
        }
        match ArrayString::from(text) {
            Ok(string) => Some(TenantName { string }),
            Err(_) => None,
        }
    }

    #[inline(always)]
    pub fn as_str(&self) -> &str
        ensures text { result.now ≡ self.now }
        ensures name { IsTrue (is_tenant_name self.now) }
    {
        let name = &self.string;
        name.as_str()
    }

    /// An equal name.
    #[inline(always)]
    pub fn copy(&self) -> TenantName
        ensures { result ≡ self.now }
    {
        TenantName {
            string: self.string,
        }
    }
}

impl PartialEq for TenantName {
    ghost eq = { bytes_eq };

    ghost laws = { Prim.search (comparing, rules) };

    fn eq(&self, other: &TenantName) -> bool {
        self.string.as_str() == other.string.as_str()
    }
}

impl Eq for TenantName {
    ghost laws = { Prim.search (comparing, rules) };
}

impl Hash for TenantName {
    ghost hash_input = { fed.str };

    ghost respects_eq = { Prim.search (hashing, rules) };

    fn hash<H: Hasher>(&self, state: &mut H) {
        self.string.as_str().hash(state);
    }
}
