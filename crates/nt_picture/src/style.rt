//! How a picture looks, light and dark: the style sheet, and the marks that it uses.

/// What stands after the root element begins.
pub(crate) const STYLE: &str = "\
<style>\n\
svg { --paper: #ffffff; --ink: #1f2328; --soft: #59636e; --rule: #d1d9e0; --band: #f6f8fa; --granted: #1a7f37; --abandoned: #bc4c00; --alerted: #8250df;\n\
  --timed: #57606a; --pending: #cf222e; --call: #0969da; --on: #dafbe1; --on-ink: #116329; --off: #eef1f4; --armed: #ddf4ff; --armed-ink: #0550ae;\n\
  --o0: #ffd8b5; --o1: #d8e6ff; --o2: #e9dcff; --o3: #ffd9ea; --o4: #d3f2e4; --o5: #fff1b8; --o6: #dbe3ea; --o7: #f4dcc8; --own-ink: #24292f;\n\
  font-family: ui-sans-serif, system-ui, \"DejaVu Sans\", sans-serif; }\n\
@media (prefers-color-scheme: dark) { svg { --paper: #0d1117; --ink: #e6edf3; --soft: #9198a1; --rule: #3d444d; --band: #151b23; --granted: #3fb950; --abandoned: #f0883e;\n\
  --alerted: #ab7df8; --timed: #9198a1; --pending: #f85149; --call: #4493f8; --on: #12381f; --on-ink: #7ee787; --off: #212830; --armed: #0c2d6b; --armed-ink: #a5d6ff;\n\
  --o0: #5a3210; --o1: #1d3a66; --o2: #3f2a66; --o3: #5a2140; --o4: #144a36; --o5: #4f4300; --o6: #39424c; --o7: #4a3626; --own-ink: #e6edf3; } }\n\
.paper { fill: #ffffff; fill: var(--paper) } .band { fill: #f6f8fa; fill: var(--band) }\n\
.title { font-size: 14px; font-weight: 600; fill: #1f2328; fill: var(--ink) }\n\
.thread { font-size: 13px; font-weight: 600; fill: #24292f; fill: var(--own-ink); text-anchor: middle }\n\
.verdict { font-size: 13px; font-weight: 600; fill: #cf222e; fill: var(--pending) }\n\
.label, .more, .end, .open, .number, .moment { paint-order: stroke; stroke: #ffffff; stroke: var(--paper); stroke-width: 3.5px; stroke-linejoin: round }\n\
.head { font-size: 11px; fill: #59636e; fill: var(--soft); text-transform: uppercase; letter-spacing: .06em }\n\
.lane { stroke: #d1d9e0; stroke: var(--rule); stroke-width: 2 }\n\
.cap { stroke: #59636e; stroke: var(--soft); stroke-width: 3; stroke-linecap: round }\n\
.number { font-size: 10px; fill: #59636e; fill: var(--soft); text-anchor: middle; font-family: ui-monospace, \"DejaVu Sans Mono\", monospace }\n\
.tick { stroke: #59636e; stroke: var(--soft); stroke-width: 1; stroke-dasharray: 3 4 }\n\
.moment { font-size: 11px; fill: #59636e; fill: var(--soft); text-anchor: middle }\n\
.label { font-size: 12px; fill: #1f2328; fill: var(--ink) } .more { font-size: 10px; fill: #59636e; fill: var(--soft) }\n\
.dot { fill: #0969da; fill: var(--call); stroke: #ffffff; stroke: var(--paper); stroke-width: 1.5 }\n\
.wait { opacity: .9 } .granted .wait, .granted .diamond { fill: #1a7f37; fill: var(--granted) }\n\
.abandoned .wait, .abandoned .diamond { fill: #bc4c00; fill: var(--abandoned) }\n\
.alerted .wait, .alerted .diamond { fill: #8250df; fill: var(--alerted) }\n\
.timed .wait, .timed .diamond { fill: #57606a; fill: var(--timed) } .pending .wait { fill: #cf222e; fill: var(--pending) }\n\
.diamond { fill: #1a7f37; fill: var(--granted); stroke: #ffffff; stroke: var(--paper); stroke-width: 1.5 }\n\
.diamond.plain { fill: none; stroke: #59636e; stroke: var(--soft) }\n\
.hatch { fill: url(#hatch) } .end, .open { font-size: 10px; text-anchor: end } .open { fill: #cf222e; fill: var(--pending); font-weight: 600 }\n\
.granted .end { fill: #1a7f37; fill: var(--granted) } .abandoned .end { fill: #bc4c00; fill: var(--abandoned) }\n\
.alerted .end { fill: #8250df; fill: var(--alerted) } .timed .end { fill: #57606a; fill: var(--timed) }\n\
.cross { stroke: #cf222e; stroke: var(--pending); stroke-width: 2.5; stroke-linecap: round; fill: none }\n\
.refused .more { fill: #cf222e; fill: var(--pending) }\n\
.arrow { fill: none; stroke-width: 1.8 } .arrow.granted { stroke: #1a7f37; stroke: var(--granted) }\n\
.arrow.abandoned { stroke: #bc4c00; stroke: var(--abandoned) } .arrow.alerted { stroke: #8250df; stroke: var(--alerted) }\n\
.arrow.pending { stroke: #cf222e; stroke: var(--pending); stroke-dasharray: 5 3 }\n\
.object { font-size: 12px; fill: #1f2328; fill: var(--ink) } .kind { font-size: 10px; fill: #59636e; fill: var(--soft) }\n\
.value { font-size: 10.5px; fill: #59636e; fill: var(--soft) }\n\
.state.on { fill: #dafbe1; fill: var(--on) } .value.on { fill: #116329; fill: var(--on-ink) } .state.off { fill: #eef1f4; fill: var(--off) }\n\
.state.armed { fill: #ddf4ff; fill: var(--armed) } .value.armed { fill: #0550ae; fill: var(--armed-ink) }\n\
.value.own { fill: #24292f; fill: var(--own-ink); font-weight: 600 }\n\
.o0 { fill: #ffd8b5; fill: var(--o0) } .o1 { fill: #d8e6ff; fill: var(--o1) } .o2 { fill: #e9dcff; fill: var(--o2) }\n\
.o3 { fill: #ffd9ea; fill: var(--o3) } .o4 { fill: #d3f2e4; fill: var(--o4) } .o5 { fill: #fff1b8; fill: var(--o5) }\n\
.o6 { fill: #dbe3ea; fill: var(--o6) } .o7 { fill: #f4dcc8; fill: var(--o7) }\n\
.legend { font-size: 11px; fill: #59636e; fill: var(--soft) } .calm { font-size: 13px; fill: #59636e; fill: var(--soft) }\n\
</style>\n\
<defs><pattern id=\"hatch\" width=\"8\" height=\"8\" patternUnits=\"userSpaceOnUse\" patternTransform=\"rotate(45)\"><rect width=\"3\" height=\"8\" fill=\"#ffffff\" opacity=\".28\"/></pattern>\n\
<marker id=\"tip-granted\" viewBox=\"0 0 8 8\" refX=\"6\" refY=\"4\" markerWidth=\"6\" markerHeight=\"6\" orient=\"auto\"><path d=\"M0 0 L8 4 L0 8 z\" style=\"fill: #1a7f37; fill: var(--granted)\"/></marker>\n\
<marker id=\"tip-abandoned\" viewBox=\"0 0 8 8\" refX=\"6\" refY=\"4\" markerWidth=\"6\" markerHeight=\"6\" orient=\"auto\"><path d=\"M0 0 L8 4 L0 8 z\" style=\"fill: #bc4c00; fill: var(--abandoned)\"/></marker>\n\
<marker id=\"tip-alerted\" viewBox=\"0 0 8 8\" refX=\"6\" refY=\"4\" markerWidth=\"6\" markerHeight=\"6\" orient=\"auto\"><path d=\"M0 0 L8 4 L0 8 z\" style=\"fill: #8250df; fill: var(--alerted)\"/></marker>\n\
<marker id=\"tip-pending\" viewBox=\"0 0 8 8\" refX=\"6\" refY=\"4\" markerWidth=\"6\" markerHeight=\"6\" orient=\"auto\"><path d=\"M0 0 L8 4 L0 8 z\" style=\"fill: #cf222e; fill: var(--pending)\"/></marker></defs>\n";
