//! The page's style.
ghost use Rattle.std.specs.Prelude.{◌≡◌};
ghost use Rattle.ext_page.specs.Page.{style};

/// In CSS.
const STYLE: &str =
    r#":root { --back: #fff; --fore: #1b1f24; --dim: #58616d; --line: #dce1e6; --soft: #f4f6f8; --link: #1d5fa8;
  --c0: #6a8fb8; --c1: #c2400a; --c2: #6d4aa3; --c3: #6b7280; --c4: #9a6400; --make: #0f766e; }
@media (prefers-color-scheme: dark) { :root { --back: #14171b; --fore: #e3e6ea; --dim: #9ba5b1; --line: #2d343c; --soft: #1c2127; --link: #7db4f0;
  --c0: #5d86b3; --c1: #ff7d4d; --c2: #b79ae8; --c3: #8b949e; --c4: #e2b13c; --make: #3fb8a8; } }
* { box-sizing: border-box; }
html { background: var(--back); color: var(--fore); font: 14px/1.45 system-ui, sans-serif; -webkit-text-size-adjust: 100%; overflow-y: scroll; }
body { margin: 0 auto; padding: 16px 20px 48px; max-width: 1400px; }
#symbols { position: absolute; }
h1 { font-size: 20px; font-weight: 600; margin: 0; overflow-wrap: anywhere; }
h2 { font-size: 15px; font-weight: 600; margin: 28px 0 8px; padding-top: 10px; border-top: 1px solid var(--line); }
p { margin: 4px 0; }
code, pre, .id { font-family: ui-monospace, SFMono-Regular, Consolas, "Liberation Mono", monospace; font-size: 12.5px; }
.id { overflow-wrap: anywhere; unicode-bidi: isolate; }
.id b { font-weight: 600; }
.dim, .id .up { color: var(--dim); }
.num { font-variant-numeric: tabular-nums; white-space: nowrap; }
.sr { position: absolute; width: 1px; height: 1px; overflow: hidden; clip-path: inset(50%); white-space: nowrap; }
.s { width: 12px; height: 12px; flex: none; vertical-align: -1.5px; }
.k0 { color: var(--c0); } .k1 { color: var(--c1); } .k2 { color: var(--c2); } .k3 { color: var(--c3); } .k4 { color: var(--c4); }
#verdict { display: flex; flex-wrap: wrap; gap: 2px 18px; margin: 8px 0 10px; font-size: 16px; }
#verdict span { white-space: nowrap; }
#verdict b { font-weight: 600; font-variant-numeric: tabular-nums; }
#verdict .none { color: var(--dim); }
#facts { display: flex; flex-wrap: wrap; gap: 2px 24px; margin: 0; }
#facts div { display: flex; gap: 6px; min-width: 0; }
#facts dt { color: var(--dim); } #facts dd { margin: 0; font-variant-numeric: tabular-nums; overflow-wrap: anywhere; }
button, input { font: inherit; font-size: 13px; color: inherit; background: var(--back); border: 1px solid var(--line); border-radius: 3px; padding: 2px 9px; min-height: 28px; }
button { cursor: pointer; white-space: nowrap; } button:hover { background: var(--soft); }
button[aria-pressed=true] { background: var(--soft); border-color: var(--fore); box-shadow: inset 0 -2px var(--fore); }
button:disabled { color: var(--dim); cursor: default; }
button.link { border: 0; padding: 0; min-height: 0; background: none; color: var(--link); }
button.link:hover { text-decoration: underline; }
:focus-visible { outline: 2px solid var(--link); outline-offset: 1px; }
.bar { display: flex; flex-wrap: wrap; gap: 6px; align-items: center; margin: 6px 0; }
#statuses { display: contents; }
input { flex: 0 1 300px; min-width: 180px; }
pre { margin: 4px 0 0; padding: 6px 10px; background: var(--soft); border-left: 3px solid var(--c1); white-space: pre-wrap; overflow-wrap: anywhere; unicode-bidi: isolate; }
pre.k2 { border-color: var(--c2); } pre.k4 { border-color: var(--c4); } pre[class] { color: inherit; }
#failed { list-style: none; margin: 0; padding: 0; }
#failed > li { padding: 0 0 12px; }
#failed .who { display: flex; flex-wrap: wrap; gap: 0 12px; align-items: baseline; }
#failed .who > span { display: flex; gap: 6px; align-items: baseline; }
.where { font-size: 13px; margin: 2px 0 0; }
#chart { position: relative; touch-action: pan-y; cursor: grab; user-select: none; overflow: hidden; }
#chart svg, #overview svg { display: block; width: 100%; }
#chart text, #overview text { font: 11px system-ui, sans-serif; font-variant-numeric: tabular-nums; fill: var(--dim); }
.grid { stroke: var(--line); } .track { fill: var(--soft); }
#chart path { shape-rendering: crispEdges; }
.b0 { fill: var(--c0); } .b1 { fill: var(--c1); } .b4 { fill: var(--c4); } .b2 { fill: var(--back); stroke: var(--c2); stroke-width: 1.5; }
.other { fill: var(--line); }
.make { fill: var(--make); } .close { fill: var(--dim); } .bad { fill: var(--c1); }
.hatch { stroke: var(--dim); stroke-opacity: .6; stroke-width: 1; fill: none; }
.thin { fill: var(--dim); fill-opacity: .45; }
.wait { stroke: var(--dim); stroke-opacity: .7; stroke-width: .75; }
.at { fill: none; stroke: var(--fore); stroke-width: 2; }
#overview { margin-top: 4px; touch-action: none; cursor: crosshair; user-select: none; }
#overview .win { fill: var(--fore); fill-opacity: .07; stroke: var(--dim); }
#legend { display: flex; flex-wrap: wrap; gap: 2px 18px; margin-top: 6px; font-size: 12.5px; color: var(--dim); }
#legend svg { width: 24px; height: 18px; vertical-align: -5px; margin-right: 5px; }
#chart-help { font-size: 12.5px; }
#card { position: fixed; z-index: 2; max-width: min(480px, calc(100vw - 16px)); background: var(--back); border: 1px solid var(--dim); padding: 6px 10px; font-size: 13px; pointer-events: none; box-shadow: 0 2px 8px rgb(0 0 0 / .18); }
#card p { margin: 1px 0; overflow-wrap: anywhere; }
#tree ul { list-style: none; margin: 0; padding: 0 0 0 18px; }
#tree > ul { padding: 0; }
#tree li > .row, #tree summary { display: flex; gap: 8px; align-items: baseline; padding: 1px 4px; border-bottom: 1px solid var(--soft); }
#tree .row { padding-left: 19px; }
#tree summary { cursor: pointer; list-style: none; }
#tree summary::-webkit-details-marker { display: none; }
#tree summary::before { content: ""; flex: none; width: 7px; height: 7px; border: solid var(--dim); border-width: 0 1.5px 1.5px 0; transform: rotate(-45deg) translate(-2px, 0); }
#tree details[open] > summary::before { transform: rotate(45deg) translate(-3px, 0); }
#tree summary:hover, #tree .row:hover { background: var(--soft); }
#tree .id { flex: 1; min-width: 0; }
#tree .s { align-self: center; }
#tree .tally, #tree .tries { color: var(--dim); font-size: 12.5px; }
#tree .t { width: 84px; text-align: right; flex: none; }
#tree .head { color: var(--dim); font-size: 12.5px; border-bottom: 1px solid var(--line); }
#tree .told { margin: 2px 0 6px 39px; }
#tree .found { outline: 2px solid var(--link); }
.more { margin: 4px 0 4px 19px; }
table { border-collapse: collapse; width: 100%; font-size: 13px; }
th { text-align: left; font-weight: 400; color: var(--dim); font-size: 12.5px; vertical-align: bottom; }
th, td { padding: 3px 14px 3px 0; border-bottom: 1px solid var(--line); }
td { vertical-align: top; } td.r, th.r { text-align: right; font-variant-numeric: tabular-nums; white-space: nowrap; }
td > .id { display: inline-block; max-width: 30ch; overflow-wrap: break-word; text-align: left; white-space: normal; }
#table { overflow-x: auto; }
td ul { list-style: none; margin: 2px 0 0; padding: 0; font-size: 12.5px; }
td li { display: flex; gap: 8px; } td li .num { min-width: 80px; text-align: right; }
td summary { cursor: pointer; }
@media (max-width: 760px) {
  body { padding: 12px 12px 40px; } button { white-space: normal; text-align: left; }
  #tree summary, #tree li > .row { flex-wrap: wrap; gap: 0 8px; } #tree ul { padding-left: 12px; } #tree .told { margin-left: 20px; }
  #tree .id { flex: 1 1 50%; } #tree .t { width: auto; } #tree .tally, #tree .tries { order: 1; flex-basis: 100%; padding-left: 34px; white-space: normal; } #tree .row .tries { padding-left: 20px; } #tree .tries:empty { display: none; }
  td > .id { max-width: none; min-width: 0; overflow-wrap: anywhere; }
  table, tbody { display: block; } thead { display: none; }
  tr { display: block; border-bottom: 1px solid var(--line); padding: 6px 0; }
  td, td.r { display: flex; gap: 10px; border: 0; padding: 1px 0; text-align: left; white-space: normal; } td:empty { display: none; }
  td::before { content: attr(data-l); flex: 0 0 112px; color: var(--dim); }
}
@media print {
  :root { --back: #fff; --fore: #000; --dim: #444; --line: #bbb; --soft: #f2f2f2; --link: #000; --c0: #6a8fb8; --c1: #c2400a; --c2: #6d4aa3; --c3: #6b7280; --c4: #9a6400; --make: #0f766e; }
  html { font-size: 11px; print-color-adjust: exact; -webkit-print-color-adjust: exact; } body { padding: 0; max-width: none; }
  .bar, #overview, #chart-help, #card, .more, #failed button { display: none !important; }
  #table { overflow: visible; } td, th { font-size: 10px; padding-right: 8px; } td > .id { font-size: 10px; }
  #failed > li, #tree summary, #tree .row, tr, pre { break-inside: avoid; } h2 { break-after: avoid; }
}"#;

#[tactic(auto, unfolding(crate::specs::Page::style))]
pub(crate) fn style() -> &'static str
    ensures { result.now ≡ style }
{
    STYLE
}
