//! What is left to be decoded.

ghost use Rattle.std.specs.Prelude.{◌≡◌, ◌∷◌, ◌<◌, [], drop, length, take, IfErr, IfOk};

use crate::fault::DecodeFault;
use std::marker::Model;

/// The bytes that are left to be decoded, seen as their list.
#[derive(Drop)]
pub struct Input<'a> {
    rest: &'a [u8],
}

impl<'a> Model for Input<'a> {
    ghost use Rattle.std.specs.Prelude.{List, ℕ};

    ghost Value = { List ℕ };

    ghost view = { λ i. i.rest.now };
}

impl<'a> Input<'a> {
    /// These bytes.
    pub fn new(bytes: &'a [u8]) -> Input<'a>
        ensures { result ≡ bytes.now }
    {
        Input { rest: bytes }
    }

    /// How many bytes are left.
    pub fn len(&self) -> usize
        ensures { result ≡ length self.now }
    {
        self.rest.len()
    }

    /// The bytes that are left.
    pub fn as_slice(&self) -> &'a [u8]
        ensures { result.now ≡ self.now }
    {
        self.rest
    }

    /// Takes the next byte.
    ///
    /// # Errors
    ///
    /// `Cut` where there is none.
    pub fn byte(&mut self) -> Result<u8, DecodeFault>
        ensures ok { IfOk result (λ b. self.old ≡ b ∷ self.new) }
        ensures err { IfErr result (λ _. self.old ≡ []) }
    {
        match self.rest.split_first() {
            Some((first, rest)) => {
                self.rest = rest;
                Ok(*first)
            }
            None => Err(DecodeFault::Cut),
        }
    }

    /// Takes the next 8 bytes.
    ///
    /// # Errors
    ///
    /// `Cut` where there are fewer.
    pub fn eight(&mut self) -> Result<[u8; 8], DecodeFault>
        ensures taken { IfOk result (λ bytes. bytes ≡ take 8 self.old) }
        ensures rest { IfOk result (λ _. self.new ≡ drop 8 self.old) }
        ensures err { IfErr result (λ _. length self.old < 8) }
    {
        match self.rest.split_first_chunk::<8>() {
            Some((first, rest)) => {
                self.rest = rest;
                Ok(*first)
            }
            None => Err(DecodeFault::Cut),
        }
    }

    /// Takes the next so many bytes.
    ///
    /// # Errors
    ///
    /// `Cut` where there are fewer.
    pub fn bytes(&mut self, count: usize) -> Result<&'a [u8], DecodeFault>
        ensures taken { IfOk result (λ bytes. bytes.now ≡ take count self.old) }
        ensures rest { IfOk result (λ _. self.new ≡ drop count self.old) }
        ensures err { IfErr result (λ _. length self.old < count) }
    {
        if self.rest.len() < count {
            return Err(DecodeFault::Cut);
        }
        let (first, rest) = self.rest.split_at(count);
        self.rest = rest;
        Ok(first)
    }
}
