//! What stands in each page before and after the picture: its style and its script.
//!
//! The script reads each fact from the picture, and prints none of its own. It is written without the
//! three bytes that markup gives a meaning, so that the page is well formed as it is.

/// The line that names the language of the page.
pub const DOCTYPE: &str = "<!DOCTYPE html>
";

/// What stands before the picture.
pub const FRONT: &str = "<html lang=\"en\">
<head>
<title>Space-time diagram of a run</title>
<style>
html, body { margin: 0; height: 100%; }
body { display: grid; grid-template-rows: auto minmax(0, 1fr) auto; background: #ffffff; color: #1a1a1a; font-family: sans-serif; font-size: 13px; }
#bar { display: flex; gap: 8px; align-items: center; padding: 4px 8px; border-bottom: 1px solid #9a9a9a; }
#bar input { flex: 1; }
#view { overflow: auto; }
#sheet { display: grid; width: max-content; }
#sheet svg { grid-area: 1 / 1; display: block; align-self: start; justify-self: start; }
#sheet #names { position: sticky; top: 0; z-index: 2; }
#sheet #axis { position: sticky; left: 0; z-index: 1; }
.ground { fill: #ffffff; }
.light { fill: #ffd400; stroke: #7a6400; stroke-width: 1; }
.way { fill: transparent; stroke: #ffd400; stroke-width: 7; }
#moment { stroke: #d55e00; stroke-width: 2; }
#foot { display: grid; grid-template-columns: 1fr 2fr; gap: 12px; height: 26vh; overflow: auto; padding: 6px 8px; border-top: 1px solid #9a9a9a; }
#said { margin: 0; white-space: pre-wrap; }
table { border-collapse: collapse; align-self: start; }
th { white-space: nowrap; }
th, td { border: 1px solid #c8c8c8; padding: 1px 6px; text-align: left; font-weight: normal; font-family: monospace; }
@media screen and (prefers-color-scheme: dark) {
body { background: #161616; color: #ececec; }
.ground { fill: #161616; }
.light { fill: #8a7300; stroke: #ffd400; }
.way { stroke: #8a7300; }
}
</style>
</head>
<body>
<div id=\"bar\"></div>
<div id=\"view\"><div id=\"sheet\">
";

/// What follows the picture: the panels, and the script's first part, which reads the picture.
pub const FACTS: &str = "</div></div>
<div id=\"foot\"><p id=\"said\"></p><table id=\"queues\"></table></div>
<script>
'use strict';
// Each fact is read from the picture: a mark's title has its rank, stamp and words, a bow's the receive and its message.
const byId = function (id) { return document.getElementById(id); };
const svg = document.querySelector('svg');
const wide = svg.viewBox.baseVal.width, high = svg.viewBox.baseVal.height;
const all = function (what) { return Array.from(svg.querySelectorAll(what)); };
const make = function (name, has, where) {
  const it = document.createElementNS(svg.namespaceURI, name);
  Object.keys(has).forEach(function (key) { it.setAttribute(key, has[key]); });
  return where.appendChild(it);
};
const number = function (it, name) { return Number(it.getAttribute(name)); };
const isBy = function (a, b) { return Math.max(a, b) === b; };
const titleOf = function (it) { const title = it.querySelector('title'); return title ? title.textContent : ''; };

// The lines of the ranks, the events, the messages and the receives.
const lanes = [], events = [], messages = {}, receives = {}, known = new Map();
const message = function (from, to, n) {
  const key = [from, to, n].join(' ');
  messages[key] = messages[key] || { from: Number(from), to: Number(to), n: Number(n), shapes: [], events: [] };
  return messages[key];
};
const receive = function (rank, n) {
  const key = [rank, n].join(' ');
  receives[key] = receives[key] || { rank: Number(rank), n: Number(n), taken: Infinity, off: Infinity };
  return receives[key];
};
all('.rank').forEach(function (it) {
  if (it.getAttribute('y') === '56') lanes.push({ rank: Number(it.textContent.split(' ').pop()), x: number(it, 'x'), it: it });
});
const rankAt = function (x) { return lanes.find(function (lane) { return lane.x === Number(x); }).rank; };
const OWN = { send: 0, out: 0, recall: 0, undone: 0 }, OTHER = { arrive: 0, whole: 0, claim: 0, withdraw: 0 };
all('use').forEach(function (it) {
  const words = titleOf(it).split(' ');
  if (words[0] !== 'rank') return;
  const e = { it: it, rank: Number(words[1]), stamp: parseInt(words[3], 10), what: words[4], has: words.slice(5), y: number(it, 'y') };
  events.push(e);
  known.set(it, e);
  if (e.what in OWN) e.of = message(e.rank, e.has[0], e.has[1]);
  if (e.what in OTHER) e.of = message(e.has[0], e.rank, e.has[1]);
  if (e.what === 'match') e.of = message(e.has[1], e.rank, e.has[2]);
  if (e.of) { e.of.events.push(e); e.of[e.what] = e; }
  if (e.what === 'post' || e.what === 'match') { e.by = receive(e.rank, e.has[0]); e.by.start = e; }
  if (e.what === 'cancel') { if (e.has[1] === 'done') receive(e.rank, e.has[0]).off = e.stamp; }
});
all('.eager, .ask').forEach(function (it) {
  const words = titleOf(it).split(' ');
  if (words[0] !== 'message') return;
  const of = message(words[3], words[5], words[1]);
  of.shapes.push(it);
  known.set(it, { of: of });
});
all('.link').forEach(function (it) {
  const words = titleOf(it).split(' ');
  if (words[0] !== 'receive') return;
  const rank = rankAt(it.getAttribute('d').split(' ')[1]), by = receive(rank, words[1]), of = message(words[6], rank, words[4]);
  of.shapes.push(it);
  of.by = by;
  by.of = of;
  by.taken = Math.max(by.start.stamp, of.arrive.stamp);
  if (by.start.what === 'post') { of.events.push(by.start); by.start.of = of; }
  known.set(it, { of: of });
});

";

/// The script's second part: what is said and lit of a thing that is pointed at.
pub const POINTING: &str =
    "// What an event says: its command, its answer, and the section of MPI 3.1.
const SECTION = { send: '3.4, 3.7.2', post: '3.2.4, 3.7.2', arrive: '3.5', whole: '3.5', out: '3.4', cancel: '3.8.4', recall: '3.8.4',
  withdraw: '3.8.4', undone: '3.8.4', claim: '3.8.2', match: '3.8.3', started: '3.7.2', busy: '3.7.1', 'null': '3.7.1', no: '3.7.3',
  sent: '3.7.3', got: '3.7.3', cut: '3.2.4', seen: '3.8.1', none: '3.8.1', cancelled: '3.8.4', done: '3.8.4', late: '3.8.4', asked: '3.8.4' };
const nameOf = function (of) { return 'message ' + of.n + ' from rank ' + of.from + ' to rank ' + of.to; };
const SAYS = {
  send: function (h) { return 'isend, or issend, to rank ' + h[0] + ': tag ' + h[2] + ', context ' + h[3] + ', ' + h[4] + ' bytes, ' + (h[5] === 'ask' ? 'by rendezvous' : 'eager'); },
  post: function (h) { return 'irecv from ' + h[1] + ': tag ' + h[2] + ', context ' + h[3] + ', at most ' + h[4] + ' bytes (receive ' + h[0] + ')'; },
  arrive: function (h) { return 'arrives: tag ' + h[2] + ', context ' + h[3] + ', ' + h[4] + ' bytes'; },
  whole: function (h) { return 'all its bytes have arrived'; },
  out: function (h) { return 'has left'; },
  cancel: function (h) { return 'cancel of receive ' + h[0] + ': ' + h[1]; },
  recall: function (h) { return 'its send is cancelled'; },
  withdraw: function (h) { return 'withdrawal: ' + h[2]; },
  undone: function (h) { return 'the answer to its withdrawal: ' + h[2]; },
  claim: function (h) { return 'mprobe takes it out of matching'; },
  match: function (h) { return 'mrecv: at most ' + h[3] + ' bytes (receive ' + h[0] + ')'; },
  ran: function (h) { return 'answer: ' + h.slice(1).join(' '); }
};
const LINE = { send: 6, post: 5, claim: 2, match: 4, ran: 0 };
const wordsOf = function (e) {
  const line = e.has[LINE[e.what]];
  return 'rank ' + e.rank + ' at ' + e.stamp + (line ? ', line ' + line : '') + ': ' + SAYS[e.what](e.has)
    + '  [MPI 3.1, ' + SECTION[e.what === 'ran' ? e.has[1] : e.what] + ']';
};
const answersOf = function (e) {
  const line = e.has[LINE[e.what]];
  if (!line || e.what === 'ran') return [];
  return events.filter(function (a) { return [a.rank, a.what, a.has[0]].join(' ') === [e.rank, 'ran', line].join(' '); }).map(wordsOf);
};

// A thing that is pointed at lights its message, from the send up to the receive.
const lights = make('g', { id: 'lights' }, svg);
svg.firstElementChild.before(lights);
let lit = null;
const light = function (e) {
  lit = e;
  lights.replaceChildren();
  if (!e) { byId('said').textContent = HELP; return; }
  const of = e.of || (e.by ? e.by.of : null), shown = of ? of.events.slice() : [];
  if (e.it) { if (!shown.includes(e)) shown.push(e); }
  shown.sort(function (a, b) { return a.stamp - b.stamp; });
  (of ? of.shapes : []).forEach(function (it) {
    const way = it.cloneNode(false);
    way.setAttribute('class', 'way');
    lights.appendChild(way);
  });
  shown.forEach(function (s) { make('circle', { 'class': 'light', r: 11, cx: s.it.getAttribute('x'), cy: s.y }, lights); });
  const said = e.it ? [wordsOf(e)].concat(answersOf(e)) : [];
  byId('said').textContent = said.concat(of ? [nameOf(of)] : [], of ? shown.map(wordsOf) : []).join(String.fromCharCode(10));
};
const HELP = 'Point at a mark, an arrow or a bow. Keys: left and right move the stamp, n and p go to the next and the previous mark, + and - zoom, 0 fits, Escape lets go.';

";

/// The script's third part: the queues at a stamp, zoom, and keys; and the end.
pub const QUEUES: &str =
    "// The queues of each rank at a stamp: a receive is posted from its start, and a message unexpected from its arrival, until one takes the other.
const stamps = Array.from(new Set(events.map(function (e) { return e.stamp; }))).sort(function (a, b) { return a - b; });
const goneAt = function (m) {
  return Math.min(m.by ? m.by.taken : Infinity, m.claim ? m.claim.stamp : Infinity, m.withdraw ? (m.withdraw.has[2] === 'done' ? m.withdraw.stamp : Infinity) : Infinity);
};
const queuesAt = function (rank, stamp) {
  const isIn = function (from, to) { return isBy(from, stamp) ? !isBy(to, stamp) : false; };
  const order = function (a, b) { return a.stamp - b.stamp; };
  return {
    posted: Object.values(receives).filter(function (r) {
      return r.rank === rank ? (r.start ? (r.start.what === 'post' ? isIn(r.start.stamp, Math.min(r.taken, r.off)) : false) : false) : false;
    }).map(function (r) { return r.start; }).sort(order),
    unexpected: Object.values(messages).filter(function (m) {
      return m.to === rank ? (m.arrive ? isIn(m.arrive.stamp, goneAt(m)) : false) : false;
    }).map(function (m) { return m.arrive; }).sort(order)
  };
};
const shortOf = function (e) {
  const h = e.has, ctx = h[3] === '0' ? '' : ' c' + h[3];
  return e.what === 'post' ? 'r' + h[0] + ' from ' + h[1] + ' t' + h[2] + ctx : 'm' + h[1] + ' of ' + h[0] + ' t' + h[2] + ' ' + h[4] + 'b' + ctx;
};
const moment = make('line', { id: 'moment', x1: 296, x2: wide }, svg);
const slider = document.createElement('input'), told = document.createElement('output');
const row = function (cells, name) {
  const tr = byId('queues').insertRow();
  cells.forEach(function (text) { tr.appendChild(document.createElement(name)).textContent = text; });
};
const yOf = function (stamp) { return events.find(function (e) { return e.stamp === stamp; }).y; };
const go = function () {
  const at = Number(slider.value), stamp = stamps[at];
  if (stamp === undefined) return;
  told.textContent = 'stamp ' + stamp;
  const y = stamps[at + 1] === undefined ? yOf(stamp) + 8 : (yOf(stamp) + yOf(stamps[at + 1])) / 2;
  moment.setAttribute('y1', y);
  moment.setAttribute('y2', y);
  byId('queues').replaceChildren();
  row(['after stamp ' + stamp, 'posted receives', 'unexpected messages'], 'th');
  lanes.forEach(function (lane) {
    const q = queuesAt(lane.rank, stamp);
    row(['rank ' + lane.rank, q.posted.map(shortOf).join(', '), q.unexpected.map(shortOf).join(', ')], 'td');
  });
};

// Zoom, and names and axis that stay in view.
const sheet = byId('sheet'), parts = [{ it: svg, x: 0, y: 0, w: wide, h: high }];
const stay = function (id, x, y, w, h, texts) {
  const it = make('svg', { id: id, viewBox: [x, y, w, h].join(' ') }, sheet);
  make('rect', { 'class': 'ground', x: x, y: y, width: w, height: h }, it);
  texts.forEach(function (text) { it.appendChild(text.cloneNode(true)); });
  parts.push({ it: it, x: x, y: y, w: w, h: h });
};
stay('axis', 262, 70, 34, Math.max(high - 70, 1), all('.axis'));
stay('names', 300, 42, wide - 300, 20, lanes.map(function (lane) { return lane.it; }));
let scale = 1;
const zoom = function (to) {
  scale = Math.min(Math.max(to, 0.1), 8);
  parts.forEach(function (p) {
    p.it.style.width = p.w * scale + 'px';
    p.it.style.height = p.h * scale + 'px';
    p.it.style.marginLeft = p.x * scale + 'px';
    p.it.style.marginTop = p.y * scale + 'px';
  });
};
const fit = function () { zoom(Math.min(byId('view').clientWidth / wide, 1.5)); };
const step = function (by) {
  slider.value = Number(slider.value) + by;
  go();
  moment.scrollIntoView({ block: 'nearest', inline: 'nearest' });
};
const next = function (by) {
  const at = events.indexOf(lit), to = events[at + by] || events[0];
  light(to);
  if (to) to.it.scrollIntoView({ block: 'center', inline: 'center' });
};
const ACTIONS = {
  '+': function () { zoom(scale * 1.25); }, '-': function () { zoom(scale / 1.25); }, 0: fit,
  ArrowLeft: function () { step(-1); }, ArrowRight: function () { step(1); },
  n: function () { next(1); }, p: function () { next(-1); }, Escape: function () { light(null); }
};
[['-', '-'], ['+', '+'], ['fit', 0]].forEach(function (it) {
  const button = document.createElement('button');
  button.textContent = it[0];
  button.addEventListener('click', ACTIONS[it[1]]);
  byId('bar').appendChild(button);
});
slider.type = 'range';
slider.min = 0;
slider.max = Math.max(stamps.length - 1, 0);
slider.value = slider.max;
slider.addEventListener('input', go);
byId('bar').append(slider, told);
document.addEventListener('keydown', function (key) {
  if (key.ctrlKey || key.metaKey || key.altKey || !(key.key in ACTIONS)) return;
  key.preventDefault();
  ACTIONS[key.key]();
});
svg.addEventListener('mouseover', function (e) {
  const it = e.target.closest('use, line, path');
  if (known.has(it)) light(known.get(it));
});
fit();
light(null);
go();
</script>
</body>
</html>
";
