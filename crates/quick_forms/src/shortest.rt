//! The step of a line in its shortest form: the keys in the order of their bytes, with no space and no escape.
//!
//! Such a line is compared with its form, and no token of it is made.

ghost use Rattle.std.specs.Prelude.{◌≡◌, ◌≤◌, ◌++◌, ◌∷◌, [], IfOk, IfSome, IsTrue, Some, length, take, decimal, codes};
ghost use Rattle.json.specs.Lex.{tokens};
ghost use Rattle.json.specs.Print.{escape, escape_byte, quoted as quoted_text};
ghost use Rattle.quick_forms.specs.Seen.{step_of_tokens};
ghost use Rattle.quick_forms.specs.Tails.{post_tail, deliver_tail, place_tail};

use crate::steps::{delivery, place};
use model::AddressedStep;

/// How long a line may be that is compared byte by byte. The tokens of a longer one are found faster.
pub(crate) const MOST_BYTES: usize = 512;

/// Where the first byte of the verb stands.
pub(crate) const VERB: usize = 7;

/// The step, where the line is a delivery in its shortest form.
pub(crate) fn delivery_line(line: &str) -> Option<AddressedStep>
    ensures { IfSome result (λ s. step_of_tokens (tokens line.now) ≡ Some s) }
{
    let (letter, tenant) = deliver_parts(behind_deliver(line)?)?;
    delivery(letter, tenant)
}

/// The step, where the line is the shortest form of one that names a tenant and a unit alone.
pub(crate) fn place_line(line: &str) -> Option<AddressedStep>
    ensures { IfSome result (λ s. step_of_tokens (tokens line.now) ≡ Some s) }
{
    let (verb, rest) = head(line)?;
    let (tenant, unit) = place_parts(rest)?;
    place(verb, tenant, unit)
}

/// What stands behind the verb of a delivery and the key of its letter.
#[tactic(auto, unfolding(json::specs::Print::escape_byte))]
fn behind_deliver(line: &str) -> Option<&str>
    ensures { IfSome result (λ rest.
        line.now ≡ codes "{\"do\":" ++ (quoted_text (codes "deliver") ++ (codes ",\"letter\":" ++ rest.now))) }
{
    after(line, "{\"do\":\"deliver\",\"letter\":")
}

/// The verb, and what stands behind it.
fn head(line: &str) -> Option<(&str, &str)>
    ensures { IfSome result (λ p. line.now ≡ codes "{\"do\":" ++ (quoted_text p.0.now ++ p.1.now)) }
{
    plain_before(after(line, "{\"do\":\"")?, "\"")
}

/// What a post in its shortest form says: its number, tenant, text and unit.
pub(crate) fn post_parts(line: &str) -> Option<(u64, &str, &str, u64)>
    ensures { IfSome result (λ p. line.now
        ≡ codes "{\"do\":" ++ (quoted_text (codes "post") ++ post_tail p.0 p.1.now p.2.now p.3)) }
{
    let (number, rest) = whole(after(line, "{\"do\":\"post\",\"number\":")?)?;
    let (tenant, rest) = plain_before(after(rest, ",\"tenant\":\"")?, "\",\"text\":\"")?;
    let (text, rest) = plain_before(rest, "\",\"unit\":")?;
    let (unit, rest) = whole(rest)?;
    if rest == "}" {
        Some((number, tenant, text, unit))
    } else {
        None
    }
}

/// What a delivery says behind the key of its letter: that letter and tenant.
fn deliver_parts(rest: &str) -> Option<(u64, &str)>
    ensures { IfSome result (λ p. codes ",\"letter\":" ++ rest.now ≡ deliver_tail p.0 p.1.now) }
{
    let (letter, rest) = whole(rest)?;
    let (tenant, rest) = plain_before(after(rest, ",\"tenant\":\"")?, "\"}")?;
    if rest.is_empty() {
        Some((letter, tenant))
    } else {
        None
    }
}

/// What a step says behind its verb that names a tenant and a unit alone.
fn place_parts(rest: &str) -> Option<(&str, u64)>
    ensures { IfSome result (λ p. rest.now ≡ place_tail p.0.now p.1) }
{
    let (tenant, rest) = plain_before(after(rest, ",\"tenant\":\"")?, "\",\"unit\":")?;
    let (unit, rest) = whole(rest)?;
    if rest == "}" {
        Some((tenant, unit))
    } else {
        None
    }
}

/// What stands behind these words, where the text begins with them.
fn after<'a>(text: &'a str, words: &str) -> Option<&'a str>
    ensures { IfSome result (λ rest. text.now ≡ words.now ++ rest.now) }
{
    text.strip_prefix(words)
}

/// The string without an escape that the text begins with, up to these words, and what stands behind them. The words
/// begin with the quote that ends the string.
fn plain_before<'a>(text: &'a str, words: &str) -> Option<(&'a str, &'a str)>
    ensures text { IfSome result (λ p. text.now ≡ p.0.now ++ (words.now ++ p.1.now)) }
    ensures plain { IfSome result (λ p. escape p.0.now ≡ p.0.now) }
{
    let (string, rest) = text.split_at_checked(plain_len(text.as_bytes()))?;
    let rest = after(rest, words)?;
    Some((string, rest))
}

/// How many bytes stand there that a string can have without an escape.
pub(crate) fn plain_len(bytes: &[u8]) -> usize
    ensures within { result ≤ length bytes.now }
    ensures plain { escape (take result bytes.now) ≡ take result bytes.now }
{
    let mut at = 0;
    while at < bytes.len() && is_plain(bytes[at]) {
        at += 1;
    }
    at
}

/// Whether a byte needs no escape in a string.
fn is_plain(byte: u8) -> bool
    ensures { IsTrue result → escape_byte byte ≡ byte ∷ [] }
{
    byte >= 32 && byte != b'"' && byte != b'\\'
}

/// The whole number that the text begins with, and what stands behind it. None is given for one with a zero ahead, or
/// of 2^32 and more.
fn whole(text: &str) -> Option<(u64, &str)>
    ensures { IfSome result (λ p. text.now ≡ decimal p.0 ++ p.1.now) }
{
    let count = text
        .bytes()
        .take_while(|byte| byte.is_ascii_digit())
        .count();
    let (digits, rest) = text.split_at_checked(count)?;
    let bytes = digits.as_bytes();
    if bytes.is_empty() || bytes[0] == b'+' || (bytes[0] == b'0' && bytes.len() > 1) {
        return None;
    }
    match digits.parse::<u32>() {
        Ok(number) => Some((u64::from(number), rest)),
        Err(_) => None,
    }
}
