//! Space-time diagrams (Lamport 1978) of a tenant's history, as SVG.
//!
//! - `draw`: the picture of one tenant. A line for each unit; on it a mark for each interval, told
//!   apart by shape and colour as firm, stable, volatile, lost or cut; arrows for letters; signs for
//!   flushes, releases, checkpoints, kills, restarts and notices.
//! - `draw_page`: a page of HTML that has the same picture, and shows what depends on what.
//! - `find_tenant`: whose picture to draw.
//! - `why_waits`: for what a letter has to wait, which the same replay tells.
//! - `Situation`: how each unit stands, and what its held outputs wait for, by the same replay.
//! - `Window`: which columns of it. Each event that changed something has a column of its own, in
//!   the order of the tenant's history, so that time goes from left to right.
//!
//! The picture follows from the entries alone: `replay` works the handler's turns over the accepted
//! receipts, which tell to whom each letter went and what was put out, and the replies tell the rest.
//! `interval` and `picture` have what it then knows, as plain values, and `page`, `marks`, `letters`
//! and `notes` write that as SVG. `html`, `html_marks` and `html_letters` write the page, whose elements have as
//! attributes what its script asks for (`facts`); the script (`page_script`), the style and the page's frame
//! (`template`) are made of the files in `page/` by `page/make`. All are written to a `Writer`, which tells at the end
//! whether there was memory. `escape` carries a contract: no text from a step can end or open an element.
#![tactic(auto)]

mod escape;
mod facts;
mod html;
mod html_letters;
mod html_marks;
mod interval;
mod layout;
mod letters;
mod marks;
mod missing_notice;
mod notes;
mod page;
mod page_script;
mod page_style;
mod picture;
mod recovery;
mod replay;
mod situation;
mod style;
mod template;
mod window;
mod writer;

pub use html::draw_page;
pub use missing_notice::{MissingNotice, why_waits};
pub use page::{draw, find_tenant};
pub use situation::{Awaited, Held, Situation, Standing};
pub use window::Window;
