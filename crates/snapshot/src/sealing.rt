//! What stands before the tenants and the log: a head, a digest, and which handler it is about.

ghost use Rattle.std.specs.Prelude.{◌≡◌, ◌≢◌, ◌<◌, ◌^◌, ◌++◌, ℕ, IfErr, IfOk, List, length};
ghost use Rattle.sha2.specs.Sha256.{sha256};
ghost use Rattle.codec.specs.Codes.{bytes_code, Decodes, Encodes};
ghost use Rattle.snapshot.specs.Faults.{RefusesName};
ghost use Rattle.snapshot.specs.Hosts.{head_code};
ghost use Rattle.snapshot.specs.declared.load_fault.LoadFault.{LoadFault as FaultOf};

use crate::load_fault::LoadFault;
use codec::{Coded, DecodeFault, Input, decode_bytes, encode_bytes};
use model::NoMemory;
use sha2::{Digest, Sha256};
use std::alloc::Global;

/// The version of the form.
const VERSION: u8 = 3;

/// Appends the head.
fn encode_head(out: &mut Vec<u8>) -> Result<(), NoMemory>
    ensures { IfOk result (λ _. (rest : List ℕ) → out.new.items ++ rest ≡ out.old.items ++ head_code rest) }
{
    b'R'.encode(out)?;
    b'E'.encode(out)?;
    b'C'.encode(out)?;
    b'A'.encode(out)?;
    b'L'.encode(out)?;
    b'L'.encode(out)?;
    b'S'.encode(out)?;
    b'N'.encode(out)?;
    VERSION.encode(out)?;
    Ok(())
}

/// A body behind the head and its digest.
pub(crate) fn sealed(alloc: Global, body: &[u8]) -> Result<Vec<u8>, NoMemory>
    ensures digest { IfOk result (λ _. length (sha256 body.now) < 2 ^ 64) }
    ensures bytes { IfOk result (λ all. all.items ≡ head_code (bytes_code (sha256 body.now) body.now)) }
{
    let digest = Sha256::digest(body);
    let mut all = Vec::new(alloc);
    encode_head(&mut all)?;
    encode_bytes(&digest, &mut all)?;
    all.extend_from_slice(body)?;
    Ok(all)
}

/// Takes the head off the input, and tells which version of the form follows.
pub(crate) fn head_version(input: &mut Input) -> Result<u8, LoadFault>
    ensures ok { IfOk result (λ version. (rest : List ℕ) → input.old ≡ head_code rest → rest ≡ input.new) }
    ensures version { IfOk result (λ version. (rest : List ℕ) → input.old ≡ head_code rest → version ≡ VERSION) }
    ensures err { IfErr result (λ _. (rest : List ℕ) → input.old ≢ head_code rest) }
{
    let Ok(head) = input.eight() else {
        return Err(LoadFault::NotASnapshot);
    };
    if head != *b"RECALLSN" {
        return Err(LoadFault::NotASnapshot);
    }
    let version = input.byte()?;
    Ok(version)
}

/// Takes the head off the input.
fn check_head(input: &mut Input) -> Result<(), LoadFault>
    ensures ok { IfOk result (λ _. (rest : List ℕ) → input.old ≡ head_code rest → rest ≡ input.new) }
    ensures err { IfErr result (λ _. (rest : List ℕ) → input.old ≢ head_code rest) }
{
    if head_version(input)? != VERSION {
        return Err(LoadFault::AnotherVersion);
    }
    Ok(())
}

/// Takes the digest of what follows off the input.
pub(crate) fn check_digest(alloc: Global, input: &mut Input) -> Result<(), LoadFault>
    ensures ok { IfOk result (λ _. (digest rest : List ℕ) → length digest < 2 ^ 64
        → input.old ≡ bytes_code digest rest → rest ≡ input.new) }
    ensures err { IfErr result (λ e. (rest : List ℕ) → length (sha256 rest) < 2 ^ 64
        → input.old ≡ bytes_code (sha256 rest) rest → e ≡ FaultOf.NoMemory) }
{
    let digest = decode_bytes(alloc, input)?;
    let found = Sha256::digest(input.as_slice());
    if digest != found.as_slice() {
        return Err(LoadFault::Damaged);
    }
    Ok(())
}

/// Takes which handler it is about off the input, which must be this one.
pub(crate) fn check_about(alloc: Global, input: &mut Input, about: &str) -> Result<(), LoadFault>
    ensures ok { IfOk result (λ _. (named rest : List ℕ) → length named < 2 ^ 64
        → input.old ≡ bytes_code named rest → rest ≡ input.new) }
    ensures named { IfOk result (λ _. (named rest : List ℕ) → length named < 2 ^ 64
        → input.old ≡ bytes_code named rest → named ≡ about.now) }
    ensures err { IfErr result (λ e. (named rest : List ℕ) → length named < 2 ^ 64
        → input.old ≡ bytes_code named rest → RefusesName about.now named e) }
{
    let named = decode_bytes(alloc, input)?;
    if named != about.as_bytes() {
        return Err(LoadFault::AnotherHandler);
    }
    Ok(())
}

/// Takes what stands before the tenants off the input.
pub(crate) fn unsealed(alloc: Global, input: &mut Input, about: &str) -> Result<(), LoadFault>
    ensures ok { IfOk result (λ _. (digest named rest : List ℕ) → length digest < 2 ^ 64 → length named < 2 ^ 64
        → input.old ≡ head_code (bytes_code digest (bytes_code named rest)) → rest ≡ input.new) }
    ensures named { IfOk result (λ _. (digest named rest : List ℕ) → length digest < 2 ^ 64 → length named < 2 ^ 64
        → input.old ≡ head_code (bytes_code digest (bytes_code named rest)) → named ≡ about.now) }
    ensures err { IfErr result (λ e. (named rest : List ℕ) → length named < 2 ^ 64
        → length (sha256 (bytes_code named rest)) < 2 ^ 64
        → input.old ≡ head_code (bytes_code (sha256 (bytes_code named rest)) (bytes_code named rest))
        → RefusesName about.now named e) }
{
    check_head(input)?;
    check_digest(alloc, input)?;
    check_about(alloc, input, about)?;
    Ok(())
}
