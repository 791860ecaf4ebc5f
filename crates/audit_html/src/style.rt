//! How a page looks, and the symbols in its pictures.

/// Colours, texts and tables.
pub(crate) const TEXTS: &str =
    ":root{--ink:#1b1f24;--soft:#57606a;--rule:#d8dde3;--paper:#fff;--fill:#f6f7f9;--f:#2f5d8a;--l:#a9c7e4;--b:#e3e9f0;--a:#2b7a5b;--w:#a15c00;--wl:#f3d9b1;--ok:#1f7a4d;--bad:#b3261e;--okb:#eef7f1;--badb:#fdf0ef;color-scheme:light}
@media screen and (prefers-color-scheme:dark){:root{--ink:#e6e9ed;--soft:#9aa5b1;--rule:#333b45;--paper:#14181d;--fill:#1b2027;--f:#6ea3d8;--l:#2f4a66;--b:#252d37;--a:#56b48d;--w:#e0a458;--wl:#5a4320;--ok:#5fc08f;--bad:#ff8a80;--okb:#16251d;--badb:#2c1a19;color-scheme:dark}}
*{box-sizing:border-box}
html{-webkit-text-size-adjust:100%}
body{margin:0 auto;max-width:1040px;padding:28px 24px 64px;background:var(--paper);color:var(--ink);font:15px/1.5 -apple-system,\"Segoe UI\",\"Helvetica Neue\",Arial,\"Liberation Sans\",sans-serif;font-variant-numeric:tabular-nums;overflow-wrap:break-word}
header p,.q{color:var(--soft);font-size:13px;margin:.25em 0}
h1{font-size:26px;line-height:1.25;font-weight:600;margin:0}
h2{font-size:20px;font-weight:600;margin:0 0 12px}
h3{font-size:15px;font-weight:600;margin:26px 0 6px}
small{font-weight:400;font-size:13px;color:var(--soft);margin-left:.5em}
h3.dv{font-size:18px;margin-top:32px}
section{margin-top:44px}
p{margin:.5em 0;max-width:72ch}
code,pre{font:12.5px/1.5 ui-monospace,\"DejaVu Sans Mono\",\"Liberation Mono\",Consolas,monospace}
pre{background:var(--fill);border:1px solid var(--rule);padding:10px 14px;margin:8px 0;overflow-x:auto}
.v{margin-top:20px;border-left:6px solid var(--ok);background:var(--okb);padding:16px 20px}
.v.bad{border-color:var(--bad);background:var(--badb)}
.v h2{font-size:28px;margin:0;color:var(--ok);display:flex;align-items:center}
.v.bad h2{color:var(--bad)}
.v.mid{border-color:var(--w);background:var(--fill)}.v.mid h2{color:var(--w)}
.v p{margin:.4em 0}
.ic{width:30px;height:30px;margin-right:10px;flex:none}
.cut{margin-top:44px;border:1px solid var(--bad);padding:10px 16px;color:var(--bad)}
table{border-collapse:collapse;font-size:14px;width:100%}
.tw{overflow-x:auto}
th,td{text-align:left;padding:5px 14px 5px 0;vertical-align:baseline;border-bottom:1px solid var(--rule)}
th:last-child,td:last-child{padding-right:0}
th{font-weight:400}
thead th{color:var(--soft);font-size:12.5px;vertical-align:bottom}
.n{text-align:right;white-space:nowrap}
tr.sum>*{border-bottom:0;font-weight:600}
time,data{white-space:nowrap}
table.nw td:first-child,table.nw th:first-child{white-space:nowrap}
table.mo{max-width:620px}.mo th .q{margin-left:.3em}
.sw{display:inline-block;width:12px;height:12px;margin-right:6px;vertical-align:-1px;border:1px solid var(--soft)}
.swl{display:inline-block;width:14px;border-top:2.5px solid var(--a);margin-right:6px;vertical-align:4px}
i.s-f{background:var(--f)}i.s-l{background:var(--l)}i.s-b{background:var(--b)}i.s-a{background:var(--a)}i.s-g{background:var(--a)}
i.s-w{background:repeating-linear-gradient(135deg,var(--w) 0 2px,var(--wl) 2px 5px)}
";

/// Pictures, lists and the rest.
pub(crate) const PICTURES: &str = "svg{display:block;overflow:visible}
svg.c{margin:8px 0 8px 62px;width:calc(100% - 66px)}
svg.top{margin-top:46px}
svg.bar{width:100%}
svg .s-f{fill:var(--f)}svg .s-l{fill:var(--l);stroke:var(--soft);stroke-width:.5}svg .s-b{fill:var(--b);stroke:var(--soft);stroke-width:.5}svg .s-a,svg .s-g{fill:var(--a)}svg .s-w{fill:url(#hatch);stroke:var(--w);stroke-width:.5}
.f-f{fill:var(--f)}.f-l,.f-b{fill:var(--l);stroke:var(--f);stroke-width:1.2;vector-effect:non-scaling-stroke}.f-b{fill:var(--b)}
.ac,.ha{fill:none;stroke:var(--a);stroke-width:2.5;vector-effect:non-scaling-stroke}.ha{stroke:var(--paper);stroke-width:5}
.gr{stroke:var(--rule)}.tk{stroke:var(--soft)}.now{stroke:var(--ink);stroke-width:1.5}
svg text{fill:var(--soft);font-size:12px}
.ay,.end{text-anchor:end}.mid{text-anchor:middle}
svg text.lb{font-size:11px}
svg text.ga{font-size:13px;fill:var(--ink);paint-order:stroke;stroke:var(--paper);stroke-width:5px;stroke-linejoin:round}
.bo{font-weight:600}
.mk{overflow:visible}
.m-up,.ky .m-up{fill:var(--f)}.m-down{fill:var(--ink)}.m-dot{fill:var(--paper);stroke:var(--a);stroke-width:2}.m-bolt{fill:var(--bad)}
.ky{display:inline-block;width:14px;height:14px;margin-right:1px;vertical-align:-3px}
.lg{max-width:none}.lg span{white-space:nowrap;margin-right:14px}
.hb{width:100%;min-width:160px;height:10px}
.mm td.wide{width:34%}
tr.sp td{padding:4px 0 12px;white-space:normal}
.pk{display:block}
.fa{display:flex;flex-wrap:wrap;gap:4px 32px;margin:2px 0}
.fa dt{font-size:12.5px;color:var(--soft)}.fa dd{margin:0;font-size:17px}
ul.do{list-style:none;margin:0;padding:0}
ul.do li{display:grid;grid-template-columns:52px 1fr auto;gap:4px 12px;padding:9px 0;border-bottom:1px solid var(--rule);align-items:baseline}
.tag{font-size:12px;text-align:center;border:1px solid var(--soft);border-radius:3px;color:var(--soft);line-height:1.5}
.now .tag{background:var(--bad);border-color:var(--bad);color:var(--paper);font-weight:600}
.soon .tag{border-color:var(--w);color:var(--w);font-weight:600}
.none{color:var(--soft)}
details{margin:10px 0}
summary{cursor:pointer;color:var(--f);font-size:14px}
.fd{margin:4px 0}.fd th{color:var(--soft);width:9em}.fd td:not(:last-child){width:auto}
mark{background:none;color:var(--bad);font-weight:700;text-decoration:underline;text-underline-offset:3px}
tr.hit>*{background:var(--badb);font-weight:700;border-bottom-color:var(--bad)}
.cx .n{padding-right:14px;color:var(--soft)}
.rn code{font-size:11px;white-space:nowrap}
.dg code{font-size:14px}
code,.fd td,.cut,.v,h1{overflow-wrap:anywhere}
footer{margin-top:56px;border-top:1px solid var(--rule);padding-top:12px}
footer dl{display:grid;grid-template-columns:max-content 1fr;gap:3px 18px;margin:0 0 12px;font-size:13px}footer dt{font-weight:600}footer dd{margin:0;color:var(--soft)}
";

/// Narrow pages, and paper.
pub(crate) const NARROW: &str =
    "@media(max-width:640px){body{padding:16px 14px 40px;font-size:15px}h1{font-size:21px}.wide,.alt{display:none}th,td{padding-right:8px}table{font-size:13px}.mo .q{display:block;margin-left:18px!important}ul.do li{grid-template-columns:46px 1fr}ul.do code{grid-column:2}svg.c{margin-left:48px;width:calc(100% - 50px)}.fa{gap:4px 22px}.v h2{font-size:24px}.cu th:first-child .q{display:block}
.nw thead{display:none}.nw tr{display:block;padding:8px 0;border-bottom:1px solid var(--rule)}.nw td,.nw th{display:inline;border:0;padding:0;text-align:left;white-space:normal}.nw th:first-child{font-weight:600}.nw td:not(:empty)::before{content:\" \\00b7  \"}}
@media print{@page{size:A4;margin:16mm 14mm}body{max-width:none;padding:0;font-size:10.5pt;color:#000}h2,h3{break-after:avoid}tr,svg,li,.v,dl{break-inside:avoid}*{print-color-adjust:exact;-webkit-print-color-adjust:exact}table{font-size:9.5pt}summary{break-after:avoid;list-style:none;font-size:9.5pt;font-weight:600;color:#000}details:not(.long)::details-content{content-visibility:visible;block-size:auto}details.long{display:none}.dev,.tw,footer{break-inside:avoid}footer{margin-top:16pt}section{margin-top:16pt}.tw{overflow:visible}}";

/// The symbols, and the hatching.
pub(crate) const SYMBOLS: &str =
    "<svg width=\"0\" height=\"0\" style=\"position:absolute\" aria-hidden=\"true\"><defs><pattern id=\"hatch\" width=\"6\" height=\"6\" patternUnits=\"userSpaceOnUse\" patternTransform=\"rotate(45)\"><rect width=\"6\" height=\"6\" style=\"fill:var(--wl)\"/><rect width=\"2\" height=\"6\" style=\"fill:var(--w)\"/></pattern><g id=\"up\"><path class=\"m-up\" d=\"M0 12L6 1L12 12Z\" transform=\"translate(-6 0)\"/></g><g id=\"down\"><path class=\"m-down\" d=\"M0 1L12 1L6 12Z\" transform=\"translate(-6 0)\"/></g><g id=\"dot\"><circle class=\"m-dot\" cx=\"0\" cy=\"7\" r=\"5\"/></g><g id=\"bolt\"><path class=\"m-bolt\" d=\"M2 0L-5 8H-1L-3 14L5 5H1Z\"/></g><g id=\"yes\"><circle cx=\"15\" cy=\"15\" r=\"14\" style=\"fill:var(--ok)\"/><path d=\"M8 15L13 20L22 10\" style=\"fill:none;stroke:var(--paper);stroke-width:3\"/></g><g id=\"mid\"><path d=\"M15 2L29 28H1Z\" style=\"fill:var(--w)\"/><path d=\"M15 11V19M15 22V25\" style=\"stroke:var(--paper);stroke-width:3\"/></g><g id=\"no\"><circle cx=\"15\" cy=\"15\" r=\"14\" style=\"fill:var(--bad)\"/><path d=\"M9 9L21 21M21 9L9 21\" style=\"fill:none;stroke:var(--paper);stroke-width:3\"/></g></defs></svg>";

/// What words mean, and the end of the page.
pub(crate) const FOOTER: &str =
    "<footer><dl><dt>franked</dt><dd>debited from a device for a piece of mail; its ascending register</dd><dt>left</dt><dd>what a device can still frank; its descending register</dd><dt>reset</dt><dd>postage that is loaded from the customer's balance to a device</dd><dt>in flight</dt><dd>granted by the centre, and not yet settled between it and the device</dd><dt>accepted</dt><dd>scanned by the verifier, each piece once</dd><dt>commit</dt><dd>a change that a node has written for good</dd></dl><p class=\"q\">Amounts are in dollars; meters count in mills, a tenth of a cent. Each curve shows the end of each day. Made from scripts, reports and rates alone.</p></footer></body></html>
";
