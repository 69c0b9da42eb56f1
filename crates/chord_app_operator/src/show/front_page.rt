//! The page for a browser.

/// What the page may do: run its own script and style, and ask its own server. It may load nothing
/// else, and no page may show it in a frame.
pub const PAGE_POLICY: &str =
    "default-src 'none'; script-src 'unsafe-inline'; style-src 'unsafe-inline'; connect-src 'self'; frame-ancestors 'none'; base-uri 'none'; form-action 'none'";

/// The page. It stands alone: it loads nothing but `/ring`.
pub const FRONT_PAGE: &str = r##"<!doctype html>
<html lang="en">
<head>
<meta charset="utf-8">
<meta name="viewport" content="width=device-width, initial-scale=1">
<title>Nolthrani ring</title>
<style>
:root { color-scheme: light dark; --bg: #fff; --soft: #f3f3f6; --fg: #1b1b1f; --dim: #62626b; --line: #d4d4da; --bad: #b3261e; --blue: #2468b4; }
@media (prefers-color-scheme: dark) { :root { --bg: #16161a; --soft: #26262c; --fg: #ececf0; --dim: #a2a2ac; --line: #44444d; --bad: #ff8a80; --blue: #6cacf0; } }
* { box-sizing: border-box; }
body { margin: 0; background: var(--bg); color: var(--fg); font: 15px/1.4 system-ui, sans-serif; }
header, main { max-width: 1280px; margin: 0 auto; padding: 10px 16px; }
header { display: flex; flex-wrap: wrap; align-items: baseline; gap: 2px 16px; }
h1 { font-size: 20px; margin: 0; }
h2 { font-size: 15px; margin: 12px 0 4px; }
h2 span { font-weight: normal; color: var(--dim); }
h2 span.bad { color: var(--bad); }
p { margin: 0; }
#state { color: var(--dim); }
.gone #state, .bad { color: var(--bad); }
.gone main { opacity: 0.55; }
main { display: grid; grid-template-columns: minmax(0, 1fr); gap: 16px 24px; }
@media (min-width: 1120px) { main { grid-template-columns: minmax(0, 4fr) minmax(0, 6fr); } }
svg { display: block; width: 100%; height: auto; }
#circle { max-width: 640px; margin: 0 auto; }
table { border-collapse: collapse; width: 100%; font-variant-numeric: tabular-nums; }
th, td { text-align: left; padding: 3px 8px; border-bottom: 1px solid var(--line); white-space: nowrap; }
th { color: var(--dim); font-size: 13px; font-weight: normal; }
tbody td { height: 35px; }
.number { text-align: right; }
.off td { color: var(--dim); }
code { font-size: 13px; }
form { display: flex; flex-wrap: wrap; gap: 8px; align-items: end; }
label { display: grid; gap: 2px; color: var(--dim); font-size: 13px; }
label.line { display: flex; align-items: center; gap: 6px; min-height: 34px; }
input, select, button { font: inherit; color: inherit; background: var(--soft); border: 1px solid var(--line); border-radius: 6px; min-height: 32px; padding: 2px 10px; }
label input, label select { color: var(--fg); font-size: 15px; }
input[type="checkbox"] { min-height: 0; width: 16px; height: 16px; margin: 0; }
#id { font: 13px monospace; width: 34ch; max-width: 100%; }
button { cursor: pointer; }
button:hover { border-color: currentColor; }
.acts { text-align: right; }
.acts button { min-height: 28px; margin-left: 6px; }
.acts button:last-child { color: var(--bad); }
.mark { width: 14px; height: 14px; display: inline-block; vertical-align: -2px; margin-right: 5px; }
.holder { display: inline-block; width: 6px; height: 16px; border-radius: 3px; vertical-align: -3px; margin-right: 8px; }
.legend { display: flex; flex-wrap: wrap; gap: 0 14px; }
.note { color: var(--dim); font-size: 13px; margin: 6px 0 0; }
@media (max-width: 700px) {
  table, tbody { display: block; }
  thead { position: absolute; width: 1px; height: 1px; overflow: hidden; clip-path: inset(50%); }
  tr { display: grid; grid-template-columns: 4fr 3fr 3fr 3fr; align-items: center; padding: 6px 0; border-bottom: 1px solid var(--line); }
  td, td.number { border: 0; padding: 1px 4px; text-align: left; order: 2; }
  tbody td { height: auto; }
  td[data-name]::before { content: attr(data-name); display: block; color: var(--dim); font-size: 12px; }
  td.first { order: 0; }
  td.acts { order: 1; grid-column: 3 / 5; text-align: right; min-height: 38px; }
  .acts button { min-height: 36px; }
  label.line { min-height: 40px; }
}
</style>
</head>
<body>
<header>
<h1>Nolthrani ring</h1>
<p id="state" role="status">Asking the server.</p>
</header>
<main>
<section aria-label="The circle">
<svg id="circle" viewBox="0 0 400 400" role="img" aria-label="The nodes and the segments that they hold, on the circle of identifiers"></svg>
<h2>Answers a second <span id="rate"></span> <span id="missed" class="bad"></span></h2>
<svg id="strip" viewBox="0 0 400 66" role="img" aria-label="Answers a second over the last minute, and in red those that say that the ring gave none"></svg>
<p class="note legend" id="legend"></p>
<p class="note">Identifiers rise clockwise from the top. An arc is a held segment in its holder's colour, the thicker the more of the pairs its holder has; dotted where that crashed, and nobody answers for it. A thin line leads to the first successor. A dashed arrow is a handover under way. Each node is looked at in a moment of its own.</p>
</section>
<section aria-label="The nodes">
<form id="join">
<label>Identifier, 32 hexadecimal digits <input id="id" maxlength="32" pattern="[0-9a-fA-F]{32}" title="32 hexadecimal digits" placeholder="picked by the server" autocomplete="off" spellcheck="false"></label>
<label>Store <select id="store"><option>tree</option><option>list</option><option>capped</option></select></label>
<button type="submit">Join a node</button>
</form>
<label class="line"><input id="force" type="checkbox"> Crash a node even if the ring does not stand without it</label>
<p id="said" role="status"></p>
<table>
<thead><tr><th>Node</th><th>Identifier</th><th>Phase</th><th class="number">Pairs</th><th class="number">Segments</th><th class="number">Requests/s</th><th class="acts">Actions</th></tr></thead>
<tbody id="nodes"></tbody>
</table>
</section>
</main>
<script>
"use strict";
const SVG = "http://www.w3.org/2000/svg";
const PHASES = { staying: "#2e9e5b", leaving: "#d98e04", crashed: "#d0342c", rescuing: "#3b7dd8" };
// The most pairs that a part of a handover has.
const PART_PAIRS = 64;
const MINUTE = 60000;
const REFUSALS = {
  IdTaken: "a node has this identifier.",
  NoSlot: "all slots are taken.",
  NoStore: "the server makes stores of another kind.",
  Unsettled: "the ring is not settled there. Try again soon.",
  NoSuchNode: "there is no such node.",
  Stopped: "the ring is stopped.",
  NotStaying: "the node leaves already, or is gone.",
  NotLive: "the node is gone or crashed already.",
  NotCrashed: "the node did not crash, or is rescued already.",
  NoMember: "no node stays that could take over what it holds.",
  Unsafe: "the ring would not stand without the node. Tick the box to crash it all the same.",
  BadId: "an identifier has 32 hexadecimal digits.",
  Memory: "the server is out of memory.",
};
const byId = (name) => document.getElementById(name);
const shown = (number) => Math.round(number).toLocaleString("en");
const several = (number, word) => `${shown(number)} ${word}${number === 1 ? "" : "s"}`;
const live = (node) => node.phase === "staying" || node.phase === "leaving";
const colour = (number) => `hsl(${(number * 137.5) % 360} 60% 50%)`;
let last = null;
let rates = [];
let nodeRates = new Map();
let rows = new Map();

// An element with attributes; text is only ever set as text.
function make(name, attributes, text) {
  const element = name.startsWith("svg:") ? document.createElementNS(SVG, name.slice(4)) : document.createElement(name);
  for (const key in attributes) element.setAttribute(key, attributes[key]);
  if (text !== undefined) element.textContent = text;
  return element;
}

function titled(element, text) {
  element.append(make("svg:title", {}, text));
  return element;
}

// Puts the elements in, if they are not what is there, so that a pointer may rest on one.
function fill(svg, elements) {
  const fresh = make("svg:g", {});
  fresh.append(...elements);
  if (!svg.firstChild || svg.firstChild.outerHTML !== fresh.outerHTML) svg.replaceChildren(fresh);
}

function say(element, text) {
  if (element.textContent !== String(text)) element.textContent = text;
}

// Where an identifier stands on the circle, from 0 to 1.
function turn(id) { return parseInt(String(id).slice(0, 12), 16) / 2 ** 48; }

function point(part, radius) {
  const angle = 2 * Math.PI * part - Math.PI / 2;
  return [200 + radius * Math.cos(angle), 200 + radius * Math.sin(angle)].map((place) => place.toFixed(1));
}

function arc(from, upto, radius) {
  let width = upto - from;
  if (width <= 0) width += 1;
  if (width > 0.9999) {
    const a = point(0, radius), b = point(0.5, radius);
    return `M${a} A${radius} ${radius} 0 1 1 ${b} A${radius} ${radius} 0 1 1 ${a}`;
  }
  return `M${point(from, radius)} A${radius} ${radius} 0 ${width > 0.5 ? 1 : 0} 1 ${point(upto, radius)}`;
}

// A phase's mark: told apart by its shape as well as by its colour.
function mark(phase, x, y, size) {
  const fill = PHASES[phase] || "gray";
  if (phase === "crashed") {
    return make("svg:path", { d: `M${x - size} ${y - size} l${2 * size} ${2 * size} M${x - size} ${+y + size} l${2 * size} ${-2 * size}`, stroke: fill, "stroke-width": 3 });
  }
  if (phase === "rescuing") return make("svg:path", { d: `M${x - size} ${y} h${2 * size} M${x} ${y - size} v${2 * size}`, stroke: fill, "stroke-width": 3 });
  if (phase === "leaving") return make("svg:path", { d: `M${x} ${y - size - 2} l${size + 2} ${size + 2} l${-size - 2} ${size + 2} l${-size - 2} ${-size - 2} z`, fill, stroke: "var(--bg)", "stroke-width": 1.5 });
  return make("svg:circle", { cx: x, cy: y, r: size, fill, stroke: "var(--bg)", "stroke-width": 1.5 });
}

// How many requests of clients were answered, and how many of these were told that the ring gave
// no answer.
function answered(ring) {
  const all = { count: 0, missed: 0 };
  for (const answers of [ring.answers.frames, ring.answers.redis]) {
    all.count += answers.reply + answers.full + answers.noanswer + answers.memory + answers.refused;
    all.missed += answers.noanswer;
  }
  return all;
}

function asked(node) {
  const asks = node.asks;
  return asks.told + asks.forwarded + asks.dropped + asks.full;
}

function drawSegments(ring) {
  const most = Math.max(1, ...ring.nodes.map((node) => node.pairs));
  return ring.nodes.flatMap((node) => node.segments.map((segment) => {
    const line = { d: arc(turn(segment.after), turn(segment.upto), 160), fill: "none", stroke: colour(node.node), "stroke-width": (3 + (15 * node.pairs) / most).toFixed(1) };
    if (node.phase === "crashed") line["stroke-dasharray"] = "2 4";
    return titled(make("svg:path", line), `Node ${node.node} holds ${segment.after} to ${segment.upto}`);
  }));
}

function drawLinks(ring, places) {
  return ring.nodes.filter((node) => live(node) && places.has(node.successors[0])).map((node) => {
    const a = point(places.get(node.node), 148), b = point(places.get(node.successors[0]), 148);
    return make("svg:path", { d: `M${a} L${b}`, stroke: "var(--dim)", "stroke-width": 0.7, opacity: 0.7 });
  });
}

// One arrow for all that a node gives to another.
function drawHandovers(ring, places) {
  const gifts = new Map();
  for (const node of ring.nodes) {
    for (const item of node.outbox) {
      const name = `${node.node} ${item.to}`;
      const gift = gifts.get(name) || { from: node.node, to: item.to, pairs: 0, parts: 0 };
      gift.pairs += item.pairs;
      gift.parts += Math.max(1, Math.ceil(item.pairs / PART_PAIRS));
      if (places.has(item.to)) gifts.set(name, gift);
    }
  }
  return [...gifts.values()].map((gift) => {
    const from = places.get(gift.from), to = places.get(gift.to);
    const gap = ((to - from + 1.5) % 1) - 0.5;
    const depth = Math.max(10, 115 - 200 * Math.abs(gap));
    const line = make("svg:path", { d: `M${point(from, 148)} Q${point(from + gap / 2, depth)} ${point(to, 148)}`, fill: "none", stroke: "currentColor", "stroke-width": 1.6, "stroke-dasharray": "6 4", "marker-end": "url(#head)" });
    return { line, text: `${gift.from} to ${gift.to}: ${several(gift.pairs, "pair")} in ${several(gift.parts, "part")}` };
  });
}

// What is in the middle: the counts, and below them what is given; of more than four the number.
function drawMiddle(ring, gifts) {
  const all = ring.nodes.filter(live).reduce((sum, node) => sum + node.pairs, 0);
  const texts = gifts.length > 4 ? [several(gifts.length, "handover")] : gifts.map((gift) => gift.text);
  const given = texts.map((text, place) => make("svg:text", { x: 200, y: 240 + 15 * place, "font-size": 11, "text-anchor": "middle", class: "over" }, text));
  return [
    make("svg:text", { x: 200, y: 198, "font-size": 22, "text-anchor": "middle", class: "over" }, several(all, "pair")),
    make("svg:text", { x: 200, y: 218, "font-size": 13, "text-anchor": "middle", class: "over dim" }, several(ring.nodes.filter(live).length, "live node")),
    ...given,
  ];
}

// Where the names of nodes stand: each at its node, or pushed along the circle to clear the others.
function namePlaces(nodes, places) {
  const names = nodes.map((node) => ({ node, at: places.get(node.node) })).sort((a, b) => a.at - b.at);
  const gap = Math.min(0.017, 0.9 / names.length);
  for (let round = 0; round < 60 && names.length > 1; round++) {
    for (let place = 0; place < names.length; place++) {
      const before = names[place], behind = names[(place + 1) % names.length];
      const room = behind.at - before.at + (place + 1 === names.length ? 1 : 0);
      if (room < gap) { before.at -= (gap - room) / 2; behind.at += (gap - room) / 2; }
    }
  }
  return names;
}

function drawNodes(ring, places) {
  const order = ["staying", "leaving", "crashed", "rescuing"];
  const sorted = [...ring.nodes].sort((a, b) => order.indexOf(a.phase) - order.indexOf(b.phase));
  const dots = sorted.map((node) => {
    const [x, y] = point(places.get(node.node), 160);
    return titled(mark(node.phase, +x, +y, live(node) ? 7 : 5), `Node ${node.node}, ${node.phase}, ${several(node.pairs, "pair")}`);
  });
  if (sorted.length > 100) return dots;
  const names = namePlaces(sorted, places).flatMap(({ node, at }) => {
    const [x, y] = point(at, 188);
    const line = make("svg:path", { d: `M${point(places.get(node.node), 169)} L${point(at, 178)}`, stroke: "var(--dim)", "stroke-width": 0.7 });
    return [line, make("svg:text", { x, y, fill: live(node) ? "currentColor" : "var(--dim)", "font-size": sorted.length > 40 ? 9 : 13, "text-anchor": "middle", "dominant-baseline": "central" }, node.node)];
  });
  return [...names, ...dots];
}

function drawCircle(ring) {
  const places = new Map(ring.nodes.map((node) => [node.node, turn(node.id)]));
  const gifts = drawHandovers(ring, places);
  const head = make("svg:marker", { id: "head", viewBox: "0 0 8 8", refX: 7, refY: 4, markerWidth: 7, markerHeight: 7, orient: "auto" });
  head.append(make("svg:path", { d: "M0 0 L8 4 L0 8 z", fill: "currentColor" }));
  const defs = make("svg:defs", {});
  defs.append(head, make("svg:style", {}, ".over { fill: currentColor; stroke: var(--bg); stroke-width: 3px; paint-order: stroke; } .dim { fill: var(--dim); }"));
  fill(byId("circle"), [
    defs,
    make("svg:circle", { cx: 200, cy: 200, r: 160, fill: "none", stroke: "var(--line)" }),
    ...drawSegments(ring),
    ...drawLinks(ring, places),
    ...gifts.map((gift) => titled(gift.line, `Handover from node ${gift.text}`)),
    ...drawMiddle(ring, gifts),
    ...drawNodes(ring, places),
  ]);
}

function button(text, label, act) {
  const element = make("button", { type: "button", "aria-label": label }, text);
  element.addEventListener("click", act);
  return element;
}

function leave(node) { post(`/nodes/${node}/leave`, {}, `Node ${node} begins to leave.`); }

function crash(node) {
  if (!confirm(`Crash node ${node}? Nobody answers for what it holds until it is rescued.`)) return;
  post(`/nodes/${node}/crash`, byId("force").checked ? { force: true } : {}, `Node ${node} crashed.`);
}

function rescue(node) { post(`/nodes/${node}/rescue`, {}, `Node ${node} is being rescued.`); }

// A node's row. It stays in the table, so that a button is there from the press to the release.
function rowOf(node) {
  if (rows.has(node.node)) return rows.get(node.node);
  const cell = (name, kind) => make("td", name ? { "data-name": name, class: kind } : { class: kind });
  const row = { all: make("tr", {}), phase: "", word: make("span", {}), mark: make("svg:svg", { viewBox: "0 0 18 18", class: "mark", "aria-hidden": "true" }), pairs: cell("Pairs", "number"), segments: cell("Segments", "number"), rate: cell("Requests/s", "number"), acts: cell("", "acts") };
  const name = cell("", "first"), id = cell("Identifier", ""), phase = cell("", "first");
  const holder = make("span", { class: "holder" });
  holder.style.background = colour(node.node);
  name.append(holder, String(node.node));
  id.append(make("code", { title: node.id }, `${String(node.id).slice(0, 8)}\u2026`));
  phase.append(row.mark, row.word);
  row.leave = button("Leave", `Leave: node ${node.node}`, () => leave(node.node));
  row.rescue = button("Rescue", `Rescue: node ${node.node}`, () => rescue(node.node));
  row.crash = button("Crash", `Crash: node ${node.node}`, () => crash(node.node));
  row.acts.append(row.leave, row.rescue, row.crash);
  row.all.append(name, id, phase, row.pairs, row.segments, row.rate, row.acts);
  rows.set(node.node, row);
  byId("nodes").append(row.all);
  return row;
}

function drawTable(ring) {
  const there = new Set(ring.nodes.map((node) => node.node));
  for (const [node, row] of rows) {
    if (there.has(node)) continue;
    row.all.remove();
    rows.delete(node);
  }
  for (const node of ring.nodes) {
    const row = rowOf(node);
    say(row.pairs, shown(node.pairs));
    say(row.segments, shown(node.segments.length));
    say(row.rate, shown(nodeRates.get(node.node) || 0));
    if (row.phase === node.phase) continue;
    row.phase = node.phase;
    say(row.word, node.phase);
    row.mark.replaceChildren(mark(node.phase, 9, 9, 7));
    row.all.className = live(node) ? "" : "off";
    row.leave.hidden = node.phase !== "staying";
    row.crash.hidden = !live(node);
    row.rescue.hidden = node.phase !== "crashed";
  }
}

function drawStrip(now) {
  const top = Math.max(1, ...rates.map((look) => look.rate));
  const lineOf = (value) => rates.map((look) => `${(400 - (400 * (now - look.time)) / MINUTE).toFixed(1)},${(48 - (44 * value(look)) / top).toFixed(1)}`);
  const line = lineOf((look) => look.rate);
  const label = (x, anchor, text) => make("svg:text", { x, y: 62, fill: "var(--dim)", "font-size": 11, "text-anchor": anchor }, text);
  const parts = [make("svg:path", { d: "M0 48 H400", stroke: "var(--line)" }), label(0, "start", "a minute ago"), label(400, "end", "now")];
  if (line.length > 1) {
    const ends = [line[0], line[line.length - 1]].map((place) => place.split(",")[0]);
    parts.push(make("svg:path", { d: `M${ends[0]},48 L${line.join(" L")} L${ends[1]},48 z`, fill: "var(--blue)", opacity: 0.18 }));
    parts.push(make("svg:path", { d: `M${line.join(" L")}`, fill: "none", stroke: "var(--blue)", "stroke-width": 1.5, "stroke-linejoin": "round" }));
    const missed = rates[rates.length - 1].missed;
    if (rates.some((look) => look.missed > 0)) parts.push(make("svg:path", { d: `M${lineOf((look) => look.missed).join(" L")}`, fill: "none", stroke: "var(--bad)", "stroke-width": 1.5, "stroke-linejoin": "round" }));
    say(byId("rate"), `${shown(rates[rates.length - 1].rate)} now, ${shown(top)} at most`);
    say(byId("missed"), missed > 0 ? `${shown(Math.ceil(missed))} without a reply` : "");
  }
  fill(byId("strip"), parts);
}

// The answers a second, and the requests a second at each node, since the last look. A server that
// was started anew begins anew here.
function measure(ring) {
  const counts = new Map(ring.nodes.map((node) => [node.node, asked(node)]));
  const answers = answered(ring);
  if (last && ring.uptime_ms < last.time) {
    last = null;
    rates = [];
    rows = new Map();
    byId("nodes").replaceChildren();
  }
  nodeRates = new Map();
  if (last && ring.uptime_ms > last.time) {
    const seconds = (ring.uptime_ms - last.time) / 1000;
    for (const [node, count] of counts) {
      nodeRates.set(node, Math.max(0, count - (last.counts.get(node) || 0)) / seconds);
    }
    const rate = (answers.count - last.answers.count) / seconds;
    const missed = (answers.missed - last.answers.missed) / seconds;
    rates = rates.concat({ time: ring.uptime_ms, rate, missed }).filter((look) => look.time > ring.uptime_ms - MINUTE);
  }
  last = { time: ring.uptime_ms, counts, answers };
}

function answer(text, bad) {
  byId("said").textContent = text;
  byId("said").className = bad ? "bad" : "";
}

async function post(path, body, done) {
  answer("", false);
  try {
    const response = await fetch(path, { method: "POST", body: JSON.stringify(body), signal: AbortSignal.timeout(10000) });
    const told = await response.json().catch(() => ({}));
    if (response.ok) answer(done || `Node ${told.node} joined.`, false);
    else answer(`Refused: ${REFUSALS[told.refused] || told.refused || response.status}`, true);
  } catch (error) {
    answer("The server did not answer.", true);
  }
}

async function look() {
  try {
    const response = await fetch("/ring", { cache: "no-store", signal: AbortSignal.timeout(4000) });
    if (!response.ok) throw new Error(String(response.status));
    const ring = await response.json();
    measure(ring);
    drawCircle(ring);
    drawTable(ring);
    drawStrip(ring.uptime_ms);
    say(byId("state"), `${several(ring.nodes.length, "node")} in ${several(ring.slots, "slot")}, ${shown(ring.nodes_gone)} gone, ${several(ring.connections, "connection")}, ${ring.callers.open} of ${several(ring.callers.all, "caller")} open${ring.premise ? "" : ". A crash was forced that the ring did not allow: start a new ring"}`);
    byId("state").className = ring.premise ? "" : "bad";
    document.body.className = "";
  } catch (error) {
    say(byId("state"), "The server is gone. What is shown is the last that it told.");
    document.body.className = "gone";
  }
  setTimeout(look, 500);
}

byId("join").addEventListener("submit", (event) => {
  event.preventDefault();
  const body = { store: byId("store").value };
  const id = byId("id").value.trim();
  if (id) body.id = id;
  post("/nodes", body, "");
});
for (const phase in PHASES) {
  const symbol = make("svg:svg", { viewBox: "0 0 18 18", class: "mark", "aria-hidden": "true" });
  symbol.append(mark(phase, 9, 9, 7));
  const word = make("span", {});
  word.append(symbol, phase);
  byId("legend").append(word);
}
look();
</script>
</body>
</html>
"##;
