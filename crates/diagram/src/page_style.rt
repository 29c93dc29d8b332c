//! The style of a page. Made by `page/make` of `page/page.css`.

/// What stands behind the colours.
pub(crate) const STYLE: &str = r#":root { color-scheme: light dark; }
html, body { margin: 0; height: 100%; }
body { display: grid; grid-template-rows: auto 1fr; font: 14px/1.45 sans-serif; color: #1f2328; background: #ffffff; }
#controls { display: flex; flex-wrap: wrap; gap: 6px 18px; align-items: center; padding: 8px 16px; }
#controls { border-bottom: 1px solid #9aa3ad; }
#controls[hidden] { display: none; }
#controls > div { display: flex; gap: 6px; align-items: center; }
#controls .time { flex: 1 1 24rem; }
#time { flex: 1 1 8rem; }
#now { flex: 2 1 12rem; overflow-wrap: anywhere; max-height: 2.9em; overflow: auto; }
button, input { font: inherit; }
main { display: grid; grid-template-columns: 1fr 24rem; min-height: 0; }
#view { overflow: auto; min-width: 0; outline-offset: -2px; }
aside { overflow: auto; padding: 4px 16px 16px; border-left: 1px solid #9aa3ad; }
aside h2 { font-size: 15px; margin: 12px 0 4px; }
aside h3 { font-size: 14px; margin: 10px 0 2px; }
aside p { margin: 4px 0; overflow-wrap: anywhere; }
aside ol { margin: 0; padding-left: 2em; }
#text, .output a { display: block; max-height: 7em; overflow: auto; white-space: pre-wrap; overflow-wrap: anywhere; }
#now, #text, .output a { unicode-bidi: isolate; }
#state { font-weight: bold; }
.keys { color: #6b7280; font-size: 12px; }
.none, .more { color: #6b7280; }
a { color: #0b6fb8; }
#diagram { display: block; }
#diagram [tabindex] { cursor: pointer; outline: none; }
.off, .undrawn { display: none; }
.hit { fill: transparent; stroke: transparent; stroke-width: 2; pointer-events: all; }
path.hit { fill: none; stroke-width: 14; pointer-events: stroke; }
.tip { fill: context-stroke; }
.lit .interval[id], .lit .outputs, .lit .send, .lit .event { opacity: .22; }
.lit .past, .lit .chosen { opacity: 1 !important; }
.send.past > .letter, .send.chosen > .letter { stroke-width: 2.5; }
.interval.open > .shape { stroke: #b42318; stroke-width: 4; }
.interval.open > .mark { font-weight: bold; fill: #b42318; }
.found > .hit { stroke: #b7791f; stroke-dasharray: 3 2; }
.chosen > .hit { stroke: #1f2328; stroke-dasharray: none; }
path.hit { stroke-opacity: .25; }
.label rect { fill: #ffffff; opacity: .85; }
@media (prefers-color-scheme: dark) {
  body { color: #e7eaee; background: #14171c; }
  .keys, .none, .more { color: #9aa4b1; }
  a { color: #5db2f2; }
  .interval.open > .shape { stroke: #ff9d8f; }
  .interval.open > .mark { fill: #ff9d8f; }
  .found > .hit { stroke: #f0b84a; }
  .chosen > .hit { stroke: #e7eaee; }
  .label rect { fill: #14171c; }
}
@media (max-width: 60rem) {
  main { grid-template-columns: 1fr; grid-template-rows: 3fr 2fr; }
  aside { border-left: 0; border-top: 1px solid #9aa3ad; }
}
"#;
