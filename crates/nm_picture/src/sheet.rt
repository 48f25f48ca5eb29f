//! What stands in each picture: its colours, its signs and its caption.

/// The style of a picture, for light and dark backgrounds and for print, the signs, and the caption.
pub const SHEET: &str = "<style>
svg { background: #ffffff; color: #1a1a1a; font-family: sans-serif; font-size: 12px; }
text { fill: currentColor; }
.rank, .waits { text-anchor: middle; }
.waits { fill: #c04a00; font-weight: bold; }
.note { font-weight: bold; }
.lane { stroke: #9a9a9a; stroke-width: 1; }
.eager, .ask { fill: none; stroke-width: 1.4; }
.link { fill: none; stroke: #009e73; stroke-width: 1.4; }
.eager:hover, .ask:hover, .link:hover, .back:hover { stroke-width: 4; }
.eager { stroke: #0072b2; marker-end: url(#eager-head); }
.ask { stroke: #c77f00; stroke-dasharray: 6 3; marker-end: url(#ask-head); }
.back { fill: none; stroke: #b0568a; stroke-width: 1; stroke-dasharray: 2 3; marker-end: url(#back-head); }
.solid { stroke: none; }
.hollow { fill: #ffffff; stroke-width: 2; }
.stroke { fill: none; stroke-width: 3; }
.ring { fill: none; stroke: currentColor; stroke-width: 1.4; stroke-dasharray: 3 2; }
.blue { color: #0072b2; }
.orange { color: #c77f00; }
.green { color: #009e73; }
.red { color: #d55e00; }
.purple { color: #b0568a; }
.ink { color: #1a1a1a; }
.solid { fill: currentColor; }
.hollow, .stroke { stroke: currentColor; }
.rank, .waits, .label { paint-order: stroke; stroke: #ffffff; stroke-width: 3; stroke-linejoin: round; }
.axis, .label { font-size: 9px; }
.label { font-family: monospace; }
.axis { text-anchor: end; }
.grid { stroke: #e8e8e8; stroke-width: 1; }
@media screen and (prefers-color-scheme: dark) {
svg { background: #161616; color: #ececec; }
.hollow { fill: #161616; }
.waits { fill: #ff9a4d; }
.lane { stroke: #6a6a6a; }
.eager { stroke: #56b4e9; }
.link { stroke: #1fc499; }
.ask { stroke: #e69f00; }
.back { stroke: #cc79a7; }
.blue { color: #56b4e9; }
.orange { color: #e69f00; }
.green { color: #1fc499; }
.red { color: #ff7a2b; }
.purple { color: #cc79a7; }
.ink { color: #ececec; }
.rank, .waits, .label { stroke: #161616; }
.grid { stroke: #303030; }
}
@page { size: landscape; margin: 8mm; }
@media print {
svg { background: #ffffff; color: #000000; max-width: 100%; height: auto; }
.waits { fill: #000000; }
.lane { stroke: #000000; }
.eager, .ask, .link, .back { stroke: #000000; }
.link { stroke: #707070; stroke-width: 0.7; }
.blue, .orange, .green, .red, .purple, .ink { color: #000000; }
.grid { stroke: #c8c8c8; }
}
</style>
<defs>
<marker id=\"eager-head\" class=\"blue\" viewBox=\"0 0 8 8\" refX=\"13\" refY=\"4\" markerWidth=\"7\" markerHeight=\"7\" orient=\"auto\"><path d=\"M 0 0 L 8 4 L 0 8 Z\" class=\"solid\"></path></marker>
<marker id=\"ask-head\" class=\"orange\" viewBox=\"0 0 8 8\" refX=\"13\" refY=\"4\" markerWidth=\"7\" markerHeight=\"7\" orient=\"auto\"><path d=\"M 0 0 L 8 4 L 0 8 Z\" class=\"solid\"></path></marker>
<marker id=\"back-head\" class=\"purple\" viewBox=\"0 0 8 8\" refX=\"15\" refY=\"4\" markerWidth=\"8\" markerHeight=\"8\" orient=\"auto\"><path d=\"M 0 0 L 8 4 L 0 8 Z\" class=\"solid\"></path></marker>
<g id=\"send\"><circle r=\"5.5\" class=\"blue solid\"></circle></g>
<g id=\"ask\"><circle r=\"5\" class=\"orange hollow\"></circle></g>
<g id=\"post\"><rect x=\"-5\" y=\"-5\" width=\"10\" height=\"10\" class=\"green hollow\"></rect></g>
<g id=\"arrive\"><path d=\"M -6 -5 H 6 L 0 6 Z\" class=\"red solid\"></path></g>
<g id=\"whole\"><path d=\"M 0 -7 L 7 0 L 0 7 L -7 0 Z\" class=\"green solid\"></path></g>
<g id=\"out\"><path d=\"M -7 0 H 7\" class=\"blue stroke\"></path></g>
<g id=\"cancel\"><path d=\"M -5 -5 L 5 5 M 5 -5 L -5 5\" class=\"purple stroke\"></path></g>
<g id=\"recall\"><path d=\"M -6 5 H 6 L 0 -6 Z\" class=\"purple hollow\"></path></g>
<g id=\"withdraw\"><path d=\"M -6 5 H 6 L 0 -6 Z\" class=\"purple solid\"></path></g>
<g id=\"undone\"><path d=\"M 0 -7 L 7 0 L 0 7 L -7 0 Z\" class=\"purple hollow\"></path></g>
<g id=\"claim\"><rect x=\"-5\" y=\"-5\" width=\"10\" height=\"10\" class=\"orange solid\"></rect></g>
<g id=\"match\"><path d=\"M -7 0 L -3.5 -6 H 3.5 L 7 0 L 3.5 6 H -3.5 Z\" class=\"orange hollow\"></path></g>
<g id=\"ran\"><circle r=\"2.5\" class=\"ink solid\"></circle></g>
<g id=\"waits\"><path d=\"M -6 -7 H 6 L -6 7 H 6 Z\" class=\"red hollow\"></path></g>
<g id=\"eagerway\"><path class=\"eager\" d=\"M -16 0 H 16\"></path></g>
<g id=\"askway\"><path class=\"ask\" d=\"M -16 0 H 16\"></path></g>
<g id=\"backway\"><path class=\"back\" d=\"M -16 0 H 16\"></path></g>
<g id=\"left\"><circle r=\"10\" class=\"red ring\"></circle></g>
<g id=\"taken\"><path class=\"link\" d=\"M 6 -8 C -12 -8 -12 8 6 8\"></path></g>
</defs>
<text class=\"note\" x=\"20\" y=\"26\">Space-time diagram of a run</text>
<text x=\"20\" y=\"46\">Time runs downwards, by stamps.</text>
<text x=\"20\" y=\"62\">m message, r receive, &lt; source, t tag, b bytes,</text>
<text x=\"20\" y=\"78\">c context; a number: a line of the script.</text>
";
