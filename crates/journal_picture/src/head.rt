//! What stands on each page.

/// What stands before the picture.
pub(crate) const HEAD: &str = "<!DOCTYPE html>
<html lang=\"en\">
<head>
<meta charset=\"utf-8\">
<title>hcproxy: what happened</title>
<style>body { margin: 0 }</style>
</head>
<body>
";

/// What stands after it.
pub(crate) const FOOT: &str = "</svg>
</body>
</html>
";

/// How the picture looks. It stands in the picture itself, which can so be taken out of its page.
pub(crate) const STYLE: &str = "<style>
text { font: 13px 'DejaVu Sans Mono', ui-monospace, Menlo, Consolas, monospace; fill: #1f2937; stroke: #fff; stroke-width: 4px; stroke-linejoin: round; paint-order: stroke }
.title { font: bold 20px system-ui, 'DejaVu Sans', sans-serif }
.plain { font: 13px system-ui, 'DejaVu Sans', sans-serif; fill: #6b7280 }
.number { fill: #9ca3af }
.small { font-size: 11px; fill: #6b7280 }
.mark { font-size: 11px; fill: #b91c1c }
.bold, .good, .refused, .failed { font-weight: bold }
.good { fill: #15803d }
.refused { fill: #b45309 }
.failed { fill: #b91c1c }
.name { font-weight: bold; fill: #fff; stroke: none }
.client { fill: #2563eb }
.gateway, circle { fill: #1f2937 }
.device { fill: #0f766e }
.page { fill: #fff }
.row { fill: none; pointer-events: all }
g:hover .row, g:target .row { fill: #fef9c3 }
path { fill: none; stroke-width: 1.5 }
.life { stroke: #d1d5db; stroke-width: 1 }
.open { stroke: #93c5fd; stroke-dasharray: 2 4 }
.http { stroke: #2563eb; marker-end: url(#http) }
.coap { stroke: #0f766e; marker-end: url(#coap) }
.copy { stroke: #0f766e; stroke-dasharray: 7 4; marker-end: url(#coap) }
.lost { stroke: #b91c1c; stroke-dasharray: 7 4; marker-end: url(#lost) }
.rests, .cause { stroke: #15803d; stroke-dasharray: 1 3; stroke-linecap: round }
.cause { stroke: #b91c1c }
.tip { fill: #0f766e; stroke: none }
#http .tip { fill: #2563eb }
.cross { stroke: #b91c1c; stroke-width: 2 }
a { fill: #2563eb; text-decoration: underline }
</style>
<defs>
<marker id=\"http\" orient=\"auto\" markerUnits=\"userSpaceOnUse\" markerWidth=\"10\" markerHeight=\"10\" refX=\"9\" refY=\"5\"><path class=\"tip\" d=\"M0,1L9,5L0,9Z\"/></marker>
<marker id=\"coap\" orient=\"auto\" markerUnits=\"userSpaceOnUse\" markerWidth=\"10\" markerHeight=\"10\" refX=\"9\" refY=\"5\"><path class=\"tip\" d=\"M0,1L9,5L0,9Z\"/></marker>
<marker id=\"lost\" orient=\"auto\" markerUnits=\"userSpaceOnUse\" markerWidth=\"12\" markerHeight=\"12\" refX=\"20\" refY=\"6\"><path class=\"cross\" d=\"M1,1L11,11M1,11L11,1\"/></marker>
</defs>
<rect class=\"page\" width=\"100%\" height=\"100%\"/>
";
