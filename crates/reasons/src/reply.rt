//! What a reply line tells.

/// How a refusal's name begins in a reply line. No text of a reply has these bytes: its quotes are escaped.
const REFUSAL: &str = "\"no\":\"";

/// The name of the refusal that a reply line tells, if it tells one.
pub fn refusal_in(reply: &str) -> Option<&str> {
    let (_, rest) = reply.split_once(REFUSAL)?;
    let (name, _) = rest.split_once('"')?;
    Some(name)
}
