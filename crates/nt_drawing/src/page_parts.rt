//! The fixed parts of a page: how it looks, its tools, and its script.

/// How a page looks, light and dark.
pub(crate) const STYLE: &str = "\
<style>\n\
:root { color-scheme: light dark; --page: #ffffff; --text: #1f2328; --line: #d1d9e0; --mark: #fff8c5; --focus: #0969da; }\n\
@media (prefers-color-scheme: dark) { :root { --page: #0d1117; --text: #e6edf3; --line: #3d444d; --mark: #4b3e0a; --focus: #4493f8; } }\n\
body { margin: 0 1rem 2rem; background: var(--page); color: var(--text); font: 14px/1.4 ui-sans-serif, system-ui, sans-serif; }\n\
.tools { position: sticky; top: 0; padding: .6rem 0; background: var(--page); display: flex; gap: .5rem; align-items: center; flex-wrap: wrap; }\n\
.tools input { flex: 0 1 22rem; padding: .3rem .5rem; } .tools button { padding: .3rem .7rem; }\n\
#view { overflow: auto; max-height: 65vh; border: 1px solid var(--line); border-radius: 8px; }\n\
#tip { position: fixed; z-index: 2; max-width: 40rem; padding: .3rem .5rem; border: 1px solid var(--line); border-radius: 6px;\n\
  background: var(--page); pointer-events: none; } #tip:empty { display: none }\n\
table { border-collapse: collapse; margin-top: 1rem; width: 100%; } th, td { padding: .2rem .6rem; border-bottom: 1px solid var(--line); text-align: left;\n\
  font-family: ui-monospace, \"DejaVu Sans Mono\", monospace; } tr.chosen { background: var(--mark) }\n\
tr:focus-visible, svg g:focus-visible { outline: 2px solid var(--focus) }\n\
svg g.chosen .wait, svg g.chosen .dot, svg g.chosen .diamond, svg g.chosen .cross { stroke: var(--focus); stroke-width: 3 }\n\
svg g.blocks .arrow { stroke-width: 4 } svg.narrowed g[data-line]:not(.found) { opacity: .2 } tr.hidden { display: none }\n\
</style>\n";

/// The tools over the picture.
pub(crate) const TOOLS: &str = "\
<div class=\"tools\" role=\"toolbar\" aria-label=\"tools\"><label>find <input id=\"find\" type=\"search\" placeholder=\"t1, an object, a line\"></label>\n\
<span id=\"count\" role=\"status\"></span><button id=\"out\" aria-label=\"smaller\">-</button><button id=\"whole\">fit</button>\n\
<button id=\"in\" aria-label=\"larger\">+</button><span>keys: / finds, j and k go on and back, + - 0 zoom, Esc clears</span></div>\n\
<div id=\"tip\" aria-hidden=\"true\"></div>\n";

/// How the list begins.
pub(crate) const LISTED: &str = "\
<section aria-label=\"what each line did\"><table><thead><tr><th scope=\"col\">line</th><th scope=\"col\">who</th><th scope=\"col\">call</th>\
<th scope=\"col\">answer</th><th scope=\"col\">waits that it ended</th></tr></thead><tbody>\n";

/// What links the picture and the list: each mark has the line's number in its title.
pub(crate) const SCRIPT: &str = "\
<script>\n\
\"use strict\";\n\
const all = (what) => Array.from(document.querySelectorAll(what)), by = (id) => document.getElementById(id);\n\
const svg = document.querySelector(\"#view svg\"), wide = svg.viewBox.baseVal.width, rows = all(\"tr[data-line]\"), tip = by(\"tip\");\n\
let zoom = 1, chosen = -1;\n\
for (const title of all(\"#view g > title\")) {\n\
  const mark = title.parentNode, line = /^line (\\d+)/.exec(title.textContent);\n\
  mark.dataset.tip = title.textContent; mark.setAttribute(\"aria-label\", title.textContent);\n\
  if (line) mark.dataset.line = line[1];\n\
  title.remove();\n\
}\n\
const marks = all(\"#view g[data-line]\");\n\
const texts = (row) => Array.from(row.cells, (cell) => cell.textContent).join(\" \");\n\
const shown = () => rows.filter((row) => !row.classList.contains(\"hidden\"));\n\
function choose(row) {\n\
  for (const it of all(\".chosen, .blocks\")) it.classList.remove(\"chosen\", \"blocks\");\n\
  chosen = row ? shown().indexOf(row) : -1;\n\
  if (!row) return;\n\
  row.classList.add(\"chosen\"); row.focus({ preventScroll: true }); row.scrollIntoView({ block: \"nearest\" });\n\
  const line = row.dataset.line, own = marks.filter((mark) => mark.dataset.line === line);\n\
  for (const mark of own) mark.classList.add(\"chosen\");\n\
  for (const arrow of all(`#view g[data-since=\"${line}\"]`)) arrow.classList.add(\"blocks\");\n\
  if (own.length) own[0].scrollIntoView({ block: \"nearest\", inline: \"center\" });\n\
}\n\
function find() {\n\
  const words = by(\"find\").value.toLowerCase().split(/\\s+/).filter(Boolean), kept = new Set();\n\
  for (const row of rows) {\n\
    const own = texts(row).toLowerCase().split(/[^\\w.]+/), has = words.every((word) => own.includes(word));\n\
    row.classList.toggle(\"hidden\", !has);\n\
    if (has) kept.add(row.dataset.line);\n\
  }\n\
  for (const mark of marks) mark.classList.toggle(\"found\", kept.has(mark.dataset.line));\n\
  svg.classList.toggle(\"narrowed\", words.length > 0);\n\
  by(\"count\").textContent = words.length ? `${kept.size} of ${rows.length} lines` : \"\";\n\
}\n\
function scale(to) { zoom = Math.min(8, Math.max(0.1, to)); svg.setAttribute(\"width\", wide * zoom); svg.removeAttribute(\"height\"); }\n\
function fit() { scale(by(\"view\").clientWidth / wide); }\n\
function step(by) { const list = shown(); choose(list[Math.min(list.length - 1, Math.max(0, chosen + by))]); }\n\
for (const row of rows) row.addEventListener(\"click\", () => choose(row));\n\
for (const mark of marks) mark.addEventListener(\"click\", () => choose(rows.find((row) => row.dataset.line === mark.dataset.line)));\n\
svg.addEventListener(\"mousemove\", (event) => {\n\
  const mark = event.target.closest(\"g[data-tip]\");\n\
  tip.textContent = mark ? mark.dataset.tip : \"\";\n\
  tip.style.left = `${Math.min(event.clientX + 12, innerWidth - tip.offsetWidth - 8)}px`; tip.style.top = `${event.clientY + 16}px`;\n\
});\n\
svg.addEventListener(\"mouseleave\", () => { tip.textContent = \"\"; });\n\
by(\"find\").addEventListener(\"input\", find);\n\
by(\"in\").addEventListener(\"click\", () => scale(zoom * 1.25)); by(\"out\").addEventListener(\"click\", () => scale(zoom / 1.25));\n\
by(\"whole\").addEventListener(\"click\", fit);\n\
const keys = { \"/\": () => by(\"find\").focus(), j: () => step(1), k: () => step(-1), ArrowDown: () => step(1), ArrowUp: () => step(-1),\n\
  \"+\": () => scale(zoom * 1.25), \"-\": () => scale(zoom / 1.25), \"0\": fit };\n\
addEventListener(\"keydown\", (event) => {\n\
  if (event.ctrlKey || event.altKey || event.metaKey) return;\n\
  if (event.key === \"Escape\") { by(\"find\").value = \"\"; by(\"find\").blur(); find(); choose(null); return; }\n\
  if (event.target === by(\"find\") || !(event.key in keys)) return;\n\
  event.preventDefault(); keys[event.key]();\n\
});\n\
</script>\n";
