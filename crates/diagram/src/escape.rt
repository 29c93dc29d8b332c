//! Text as XML, and as HTML: of a picture or a page, `add_text` adds each text of a step.

ghost use Rattle.std.specs.Prelude.{◌≡◌, false, IfOk, MatchOption, string_bytes};
ghost use Rattle.diagram.specs.Escaped.{GrewByText, IsEscaped, IsPiece, is_markup};

use model::NoMemory;
use std::alloc::Global;

/// What stands for a character that may not stand in a page as it is; none where it may. A character
/// that XML doesn't allow at all is replaced.
fn reference(character: char) -> Option<&'static str>
    ensures { MatchOption result (is_markup character ≡ false) (λ r. IsPiece r.now) }
{
    match character {
        '<' => Some("&lt;"),
        '>' => Some("&gt;"),
        '&' => Some("&amp;"),
        '"' => Some("&quot;"),
        '\'' => Some("&#39;"),
        '\r' => Some("&#13;"),
        '\t' | '\n' => None,
        '\0'..='\u{1f}' | '\u{fffe}' | '\u{ffff}' => Some("\u{fffd}"),
        _ => None,
    }
}

/// The text with a reference for each character that markup is made of, and a mark of replacement for
/// each that XML doesn't allow.
fn escape(alloc: Global, text: &str) -> Result<String, NoMemory>
    ensures { IfOk result (λ s. IsEscaped (string_bytes s)) }
{
    let mut escaped = String::new(alloc);
    for character in text.chars() {
        match reference(character) {
            Some(reference) => escaped.push_str(reference)?,
            None => escaped.push(character)?,
        }
    }
    Ok(escaped)
}

/// Adds a text to the page, escaped: it ends no element and no attribute there, and begins none.
pub(crate) fn add_text(alloc: Global, page: &mut String, text: &str) -> Result<(), NoMemory>
    ensures { IfOk result (λ _. GrewByText (string_bytes page.old) (string_bytes page.new)) }
{
    let escaped = escape(alloc, text)?;
    page.push_str(escaped.as_str())?;
    Ok(())
}
