//! The frame of a page. Made by `page/make` of `page/page.html`.

/// The beginning, up to the style.
pub(crate) const HEAD: &str = r#"<!DOCTYPE html>
<html lang="en">
<head>
<meta charset="utf-8">
<meta http-equiv="Content-Security-Policy" content="default-src 'none'; style-src 'sha256-qMkYKEzR/XNz5zPXjNtyeZOXU4zGda5Dg+J/ogmMgJM='; script-src 'sha256-mW7naRGXfasf5Kn74u3x1SrAeN/mWB54aJzc6YQUcKs='; base-uri 'none'; form-action 'none'">
<meta name="viewport" content="width=device-width, initial-scale=1">
<title>recall: what depends on what</title>
<style>"#;

/// From the end of the style to the events that the slider goes over.
pub(crate) const CONTROLS: &str = r#"</style>
</head>
<body>
<div id="controls" role="group" aria-label="the diagram at an event" hidden>
<div>
<button id="back" type="button" aria-label="one event back">back</button>
<button id="play" type="button">play</button>
<button id="on" type="button" aria-label="one event on">on</button>
</div>
<div class="time"><label for="time">event</label><input id="time" type="range" "#;

/// From there to the diagram.
pub(crate) const VIEW: &str = r#"><span id="now"></span></div>
<div>
<button id="smaller" type="button" aria-label="smaller">&#8722;</button>
<button id="larger" type="button" aria-label="larger">+</button>
<button id="fit" type="button" aria-label="fit the width">fit</button>
</div>
<div>
<label for="search">find</label><input id="search" type="search" placeholder="text, mark or line">
<output id="count" for="search"></output>
</div>
</div>
<main>
<div id="view" role="application" aria-label="diagram; the arrow keys go from one to the next">
"#;

/// From the end of the diagram to the released outputs.
pub(crate) const SIDE: &str = r#"</div>
<aside>
<section role="status" aria-label="what is pointed at">
<h2 id="what"></h2>
<p id="text"></p>
<p id="state"></p>
<p id="loses"></p>
<p id="lines"></p>
</section>
<p class="keys">Keys, once something is chosen: arrows, Home and End move; comma and full stop go an event back and on;
space plays; plus, minus and 0 change the size; Escape lets go.</p>
<h2>Released outputs</h2>
<p id="none">none</p>
"#;

/// From the end of these to the script.
pub(crate) const CLOSE: &str = r#"</aside>
</main>
<script>"#;

/// The end.
pub(crate) const END: &str = r#"</script>
</body>
</html>
"#;
