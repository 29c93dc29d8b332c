//! Several values.

ghost use Rattle.std.specs.Prelude.{◌≡◌, ◌<◌, ◌^◌, ◌++◌, ◌∷◌, [], IfErr, IfOk, List, length};
ghost use Rattle.codec.specs.Codes.{AllFit, each_code, list_code, option_code, pair_code, Decodes, DecodesEach};
ghost use Rattle.codec.specs.Codes.{Encodes};
ghost use Rattle.codec.specs.Codes.{FitEach, FitsSome, Unless, UnlessEach};
ghost use Rattle.codec.specs.declared.fault.DecodeFault.{DecodeFault as FaultOf};

use crate::coded::Coded;
use crate::fault::DecodeFault;
use crate::input::Input;
use model::NoMemory;
use std::alloc::Global;

/// Appends the bytes of each item.
fn encode_each<T: Coded>(items: &[T], out: &mut Vec<u8>) -> Result<(), NoMemory>
    ensures code { IfOk result (λ _. Encodes (each_code T.code) items.now out.old.items out.new.items) }
    ensures fits { IfOk result (λ _. AllFit T.fits items.now) }
{
    for item in items {
        item.encode(out)?;
    }
    Ok(())
}

/// Appends the bytes of a list: how many items there are, and each.
pub fn encode_list<T: Coded>(items: &[T], out: &mut Vec<u8>) -> Result<(), NoMemory>
    ensures code { IfOk result (λ _. Encodes (list_code T.code) items.now out.old.items out.new.items) }
    ensures fits { IfOk result (λ _. FitEach T.fits items.now) }
{
    items.len().encode(out)?;
    encode_each(items, out)
}

/// Appends the bytes of the list of a vector.
pub fn encode_vec<T: Coded>(items: &Vec<T>, out: &mut Vec<u8>) -> Result<(), NoMemory>
    ensures code { IfOk result (λ _. Encodes (list_code T.code) items.now.items out.old.items out.new.items) }
    ensures fits { IfOk result (λ _. FitEach T.fits items.now.items) }
{
    encode_list(items.as_slice(), out)
}

/// Adds an item at the end.
pub fn put<T: Drop>(items: &mut Vec<T>, item: T) -> Result<(), NoMemory>
    ensures { IfOk result (λ _. items.new.items ≡ items.old.items ++ item ∷ []) }
{
    items.push(item)?;
    Ok(())
}

/// Takes the bytes of so many items off the input.
fn decode_each<T: Coded>(
    alloc: Global,
    input: &mut Input,
    count: usize,
) -> Result<Vec<T>, DecodeFault>
    ensures ok { IfOk result (λ xs. DecodesEach T.code T.fits count input.old xs.items input.new) }
    ensures err { IfErr result (λ e. UnlessEach T.code T.fits count input.old (e ≡ FaultOf.NoMemory)) }
{
    let mut items = Vec::new(alloc);
    for _ in 0..count {
        let item = T::decode(alloc, input)?;
        put(&mut items, item)?;
    }
    Ok(items)
}

/// Takes the bytes of a list off the input: how many items there are, and each.
pub fn decode_list<T: Coded>(alloc: Global, input: &mut Input) -> Result<Vec<T>, DecodeFault>
    ensures ok { IfOk result (λ xs. Decodes (list_code T.code) (FitEach T.fits) input.old xs.items input.new) }
    ensures err { IfErr result (λ e. Unless (list_code T.code) (FitEach T.fits) input.old (e ≡ FaultOf.NoMemory)) }
{
    let count = usize::decode(alloc, input)?;
    decode_each(alloc, input, count)
}

impl<T: Coded> Coded for Option<T> {
    ghost code = { option_code T.code };

    ghost fits = { FitsSome T.fits };

    fn encode(&self, out: &mut Vec<u8>) -> Result<(), NoMemory> {
        match self {
            None => {
                out.push(0)?;
                Ok(())
            }
            Some(value) => {
                out.push(1)?;
                value.encode(out)
            }
        }
    }

    fn decode(alloc: Global, input: &mut Input) -> Result<Option<T>, DecodeFault> {
        match input.byte()? {
            0 => Ok(None),
            1 => {
                let value = T::decode(alloc, input)?;
                Ok(Some(value))
            }
            _ => Err(DecodeFault::Damaged),
        }
    }
}

impl<A: Coded, B: Coded> Coded for (A, B) {
    ghost code = { pair_code A.code B.code };

    ghost fits = { λ p. A.fits p.0 × B.fits p.1 };

    fn encode(&self, out: &mut Vec<u8>) -> Result<(), NoMemory> {
        self.0.encode(out)?;
        self.1.encode(out)
    }

    fn decode(alloc: Global, input: &mut Input) -> Result<(A, B), DecodeFault> {
        let first = A::decode(alloc, input)?;
        let second = B::decode(alloc, input)?;
        Ok((first, second))
    }
}
