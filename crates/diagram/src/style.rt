//! What each page has, whatever it shows.

/// The colours, as plain values that whatever draws SVG takes: light ones, and dark ones on top for those that know
/// what the reader prefers. They stand in a `style` element.
pub(crate) const COLOURS: &str = r#"
svg { background: #ffffff; font: 12px sans-serif; }
text { fill: #1f2328; stroke: #ffffff; paint-order: stroke; stroke-width: 3px; stroke-linejoin: round; }
.name { font-size: 18px; font-weight: bold; }
.kind, .column { fill: #6b7280; }
.mark, .column, .row { font-size: 11px; text-anchor: middle; }
.page { fill: #ffffff; }
.lane { stroke: #9aa3ad; stroke-width: 2; }
.down { stroke: #ffffff; stroke-width: 4; stroke-dasharray: 5 5; }
.tick { stroke: #9aa3ad; stroke-width: 1; stroke-dasharray: 1 5; }
.interval > .shape { fill: #ffffff; stroke-width: 2; }
.interval.firm > .shape { fill: #0b6fb8; stroke: #0b6fb8; }
.interval.stable > .shape { fill: #0a8a5f; stroke: #0a8a5f; }
.interval.volatile > .shape { stroke: #b7791f; stroke-dasharray: 4 2.3; }
.interval.lost > .shape { fill: none; stroke: #c8321f; stroke-width: 3.5; }
.interval.cut > .shape { stroke: #9b4d96; }
.held { fill: #ffffff; stroke: #1f2328; stroke-width: 1.5; }
.released { fill: #1f2328; stroke: #ffffff; stroke-width: 1.5; }
.letter { stroke: #1f2328; fill: none; stroke-width: 1.5; }
.letter.gone { stroke: #6b7280; stroke-width: 1; opacity: .75; }
.letter.undelivered { stroke-dasharray: 3 3; }
.sign { stroke: #1f2328; fill: none; stroke-width: 2; stroke-linejoin: round; stroke-linecap: round; }
.sign.kill { fill: #c8321f; stroke: none; }
.sign.restart { fill: #0a8a5f; stroke: none; }
.sign.rollback { fill: #9b4d96; stroke: none; }
.sign.notice { fill: #ffffff; stroke: #9b4d96; }
.sign.checkpoint { fill: #ffffff; }
@media (prefers-color-scheme: dark) {
  svg { background: #14171c; }
  text { fill: #e7eaee; stroke: #14171c; }
  .kind, .column { fill: #9aa4b1; }
  .page { fill: #14171c; }
  .lane { stroke: #66707d; }
  .down { stroke: #14171c; }
  .tick { stroke: #66707d; }
  .interval > .shape { fill: #14171c; }
  .interval.firm > .shape { fill: #5db2f2; stroke: #5db2f2; }
  .interval.stable > .shape { fill: #3ecf9a; stroke: #3ecf9a; }
  .interval.volatile > .shape { stroke: #f0b84a; }
  .interval.lost > .shape { fill: none; stroke: #ff7b68; }
  .interval.cut > .shape { stroke: #da96d4; }
  .held { fill: #14171c; stroke: #e7eaee; }
  .released { fill: #e7eaee; stroke: #14171c; }
  .letter { stroke: #e7eaee; }
  .letter.gone { stroke: #9aa4b1; }
  .sign { stroke: #e7eaee; }
  .sign.kill { fill: #ff7b68; }
  .sign.restart { fill: #3ecf9a; }
  .sign.rollback { fill: #da96d4; }
  .sign.notice { fill: #14171c; stroke: #da96d4; }
  .sign.checkpoint { fill: #14171c; }
}
"#;

/// The heads of arrows.
pub(crate) const HEADS: &str =
    r#"<defs><marker id="head" viewBox="0 0 10 10" refX="21" refY="5" markerWidth="8" markerHeight="8" markerUnits="userSpaceOnUse" orient="auto"><path d="M0 0L10 5L0 10Z" style="fill: context-stroke"/></marker><marker id="tip" viewBox="0 0 10 10" refX="9" refY="5" markerWidth="7" markerHeight="7" markerUnits="userSpaceOnUse" orient="auto"><path d="M0 0L10 5L0 10Z" style="fill: context-stroke"/></marker></defs>
"#;

/// The same in a page, whose style colours them, since its policy allows no attribute for that.
pub(crate) const ARROWS: &str =
    r#"<defs><marker id="head" viewBox="0 0 10 10" refX="21" refY="5" markerWidth="8" markerHeight="8" markerUnits="userSpaceOnUse" orient="auto"><path d="M0 0L10 5L0 10Z" class="tip"/></marker><marker id="tip" viewBox="0 0 10 10" refX="9" refY="5" markerWidth="7" markerHeight="7" markerUnits="userSpaceOnUse" orient="auto"><path d="M0 0L10 5L0 10Z" class="tip"/></marker></defs>
"#;

/// The shapes of intervals.
pub(crate) const FIRM: &str = r#"<circle class="shape" r="9"/>"#;

pub(crate) const STABLE: &str = r#"<rect class="shape" x="-8" y="-8" width="16" height="16"/>"#;

pub(crate) const VOLATILE: &str = r#"<circle class="shape" r="8.5"/>"#;

pub(crate) const LOST: &str = r#"<path class="shape" d="M-7-7L7 7M7-7L-7 7"/>"#;

pub(crate) const CUT: &str = r#"<path class="shape" d="M0-10L10 0L0 10L-10 0Z"/>"#;

/// The badges of outputs.
pub(crate) const HELD: &str = r#"<circle class="held" cx="11" cy="-12" r="4"/>"#;

pub(crate) const RELEASED: &str = r#"<circle class="released" cx="11" cy="-12" r="4.5"/>"#;

/// What is pointed at on a page, wider than what is seen.
pub(crate) const HIT: &str = r#"<circle class="hit" r="15"/>"#;

pub(crate) const BADGE_HIT: &str = r#"<circle class="hit" cx="11" cy="-12" r="8"/>"#;

/// The signs.
pub(crate) const FLUSH: &str = r#"<path class="sign flush" d="M0-9V9"/>"#;

pub(crate) const RELEASE: &str = r#"<path class="sign release" d="M0 8V-9M-5-4L0-9L5-4"/>"#;

pub(crate) const CHECKPOINT: &str = r#"<path class="sign checkpoint" d="M-7-7H7V7H-7ZM-7 0H7"/>"#;

pub(crate) const KILL: &str = r#"<path class="sign kill" d="M-4-13H4L2 4H-2ZM-3 8H3V13H-3Z"/>"#;

pub(crate) const RESTART: &str = r#"<path class="sign restart" d="M-7-10L10 0L-7 10Z"/>"#;

pub(crate) const ROLLBACK: &str = r#"<path class="sign rollback" d="M7-10L-10 0L7 10Z"/>"#;

pub(crate) const NOTICE: &str = r#"<path class="sign notice" d="M-8-7H8L0 8Z"/>"#;

/// What the shapes, badges, arrows and signs stand for. Its top left is at 0, 0.
pub(crate) const LEGEND: &str =
    r#"<g transform="translate(24 16)"><g class="interval firm"><circle class="shape" r="9"/></g><text x="18" y="4">firm: all of its past is logged</text></g>
<g transform="translate(24 44)"><g class="interval stable"><rect class="shape" x="-8" y="-8" width="16" height="16"/></g><text x="18" y="4">stable: logged, not yet firm</text></g>
<g transform="translate(24 72)"><g class="interval volatile"><circle class="shape" r="8.5"/></g><text x="18" y="4">volatile: not logged</text></g>
<g transform="translate(24 100)"><g class="interval lost"><path class="shape" d="M-7-7L7 7M7-7L-7 7"/></g><text x="18" y="4">lost: cut by a kill</text></g>
<g transform="translate(24 128)"><g class="interval cut"><path class="shape" d="M0-10L10 0L0 10L-10 0Z"/></g><text x="18" y="4">cut: an orphan, rolled back</text></g>
<g transform="translate(276 16)"><path class="letter" d="M-10 0H27" marker-end="url(#head)"/><text x="34" y="4">letter</text></g>
<g transform="translate(276 44)"><path class="letter undelivered" d="M-10 0H20" marker-end="url(#tip)"/><text x="34" y="4">letter, not delivered</text></g>
<g transform="translate(276 72)"><path class="letter gone" d="M-10 0H27" marker-end="url(#head)"/><text x="34" y="4">letter of what is undone</text></g>
<g transform="translate(265 112)"><circle class="held" cx="11" cy="-12" r="4"/><text x="45" y="-8">outputs, held</text></g>
<g transform="translate(265 140)"><circle class="released" cx="11" cy="-12" r="4.5"/><text x="45" y="-8">outputs, released</text></g>
<g transform="translate(496 16)"><path class="sign flush" d="M0-9V9"/><text x="18" y="4">flush: logs what is volatile</text></g>
<g transform="translate(496 44)"><path class="sign release" d="M0 8V-9M-5-4L0-9L5-4"/><text x="18" y="4">release of outputs</text></g>
<g transform="translate(496 72)"><path class="sign checkpoint" d="M-7-7H7V7H-7ZM-7 0H7"/><text x="18" y="4">checkpoint</text></g>
<g transform="translate(496 100)"><path class="sign kill" d="M-4-13H4L2 4H-2ZM-3 8H3V13H-3Z"/><text x="18" y="4">kill</text><g transform="translate(66 0)"><path class="sign restart" d="M-7-10L10 0L-7 10Z"/><text x="18" y="4">restart, with its row</text></g></g>
<g transform="translate(496 128)"><path class="sign notice" d="M-8-7H8L0 8Z"/><text x="18" y="4">notice</text><g transform="translate(84 0)"><path class="sign rollback" d="M7-10L-10 0L7 10Z"/><text x="18" y="4">notice that cut</text></g></g>
"#;
