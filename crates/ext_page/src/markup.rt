//! The page's text in HTML.
ghost use Rattle.std.specs.Prelude.{◌≡◌};
ghost use Rattle.ext_page.specs.Page.{after_data, after_script, after_style, before_style};

/// What stands before its style.
const BEFORE_STYLE: &str = r#"<!DOCTYPE html>
<html lang="en">
<head>
<meta charset="utf-8">
<meta name="viewport" content="width=device-width, initial-scale=1">
<meta name="color-scheme" content="light dark">
<meta http-equiv="Content-Security-Policy" content="default-src 'none'; style-src 'unsafe-inline'; script-src 'unsafe-inline'; img-src data:">
<link rel="icon" href="data:,">
<title>Test run</title>
<style>
"#;

/// What stands between the style and the data.
const AFTER_STYLE: &str = r#"
</style>
</head>
<body>
<svg id="symbols" width="0" height="0" aria-hidden="true">
<symbol id="s0" viewBox="0 0 16 16"><path d="M3 8.5 6.5 12 13 4.5" fill="none" stroke="currentColor" stroke-width="2"/></symbol>
<symbol id="s1" viewBox="0 0 16 16"><path d="M1 1h14v14H1z" fill="currentColor"/><path d="M4.5 4.5l7 7m0-7l-7 7" stroke="var(--back)" stroke-width="2"/></symbol>
<symbol id="s2" viewBox="0 0 16 16"><circle cx="8" cy="8" r="6" fill="none" stroke="currentColor" stroke-width="2"/><path d="M4 12l8-8" stroke="currentColor" stroke-width="2"/></symbol>
<symbol id="s3" viewBox="0 0 16 16"><path d="M3 8h10" stroke="currentColor" stroke-width="2" stroke-dasharray="4 2"/></symbol>
<symbol id="s4" viewBox="0 0 16 16"><path d="M8 1.5 15 14.5H1z" fill="currentColor"/><path d="M8 6v4m0 1.2v1.6" stroke="var(--back)" stroke-width="1.8"/></symbol>
</svg>
<noscript><p>This page shows its data by a script, which is switched off. The same results: <code>--report text</code>.</p></noscript>
<header>
<h1 id="name">Test run</h1>
<p id="verdict"></p>
<dl id="facts"></dl>
</header>
<main>
<section id="failures" aria-labelledby="h-failures" hidden>
<h2 id="h-failures">Failures</h2>
<ol id="failed"></ol>
</section>
<section id="lanes" aria-labelledby="h-lanes">
<h2 id="h-lanes">Lanes</h2>
<div class="bar">
<button type="button" id="in" aria-label="zoom in">+</button>
<button type="button" id="out" aria-label="zoom out">&minus;</button>
<button type="button" id="all">whole run</button>
<button type="button" id="left" aria-label="earlier">&larr;</button>
<button type="button" id="right" aria-label="later">&rarr;</button>
<span id="window" class="dim num"></span>
</div>
<div id="chart" tabindex="0" role="application" aria-label="Lanes over time" aria-describedby="chart-help"></div>
<div id="overview" aria-hidden="true"></div>
<div id="legend"></div>
<p id="chart-help" class="dim">Drag to move, Ctrl and wheel to zoom, drag in the strip below to choose a part. Keys: arrows go from test to test, + &minus; 0 zoom, Enter opens the test in the tree.</p>
<div id="card" role="status" hidden></div>
</section>
<section id="tests" aria-labelledby="h-tests">
<h2 id="h-tests">Tests</h2>
<div class="bar" role="group" aria-label="Which tests are shown">
<input type="search" id="text" placeholder="filter: part of an id or a message" aria-label="filter by a part of an id or a message" autocomplete="off" spellcheck="false">
<span id="statuses"></span>
<span id="shown" class="dim num" role="status"></span>
</div>
<div id="tree"></div>
</section>
<section id="values" aria-labelledby="h-values">
<h2 id="h-values">Shared values</h2>
<div class="bar"><button type="button" id="own" aria-pressed="false"></button></div>
<div id="table"></div>
</section>
</main>
<script type="application/json" id="data">"#;

/// What stands between the data and the script.
const AFTER_DATA: &str = r#"</script>
<script>
"#;

/// What stands behind the script.
const AFTER_SCRIPT: &str = r#"
</script>
</body>
</html>
"#;

#[tactic(auto, unfolding(crate::specs::Page::before_style))]
pub(crate) fn before_style() -> &'static str
    ensures { result.now ≡ before_style }
{
    BEFORE_STYLE
}

#[tactic(auto, unfolding(crate::specs::Page::after_style))]
pub(crate) fn after_style() -> &'static str
    ensures { result.now ≡ after_style }
{
    AFTER_STYLE
}

#[tactic(auto, unfolding(crate::specs::Page::after_data))]
pub(crate) fn after_data() -> &'static str
    ensures { result.now ≡ after_data }
{
    AFTER_DATA
}

#[tactic(auto, unfolding(crate::specs::Page::after_script))]
pub(crate) fn after_script() -> &'static str
    ensures { result.now ≡ after_script }
{
    AFTER_SCRIPT
}
