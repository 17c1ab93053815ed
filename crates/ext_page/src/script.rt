//! The page's script.
ghost use Rattle.std.specs.Prelude.{◌≡◌};
ghost use Rattle.ext_page.specs.Page.{script};

/// In JavaScript.
const SCRIPT: &str = r#"'use strict';
// All times are whole microseconds since the run began.
const D = JSON.parse(document.getElementById('data').textContent);
const STATUS = ['passed', 'failed', 'aborted', 'skipped', 'flaky']; // flaky: passed, but not at the first attempt
const ORDER = [1, 4, 2, 3, 0]; // the worst first
const PASSED = 0, FAILED = 1, FLAKY = 4;
const PAGE = 50; // so many rows are added at a time
const $ = id => document.getElementById(id);

// --- Texts. All of the data gets into the page as text nodes only.

/** The text with controls and marks that turn the direction as \u{202e}; lines and tabs stay. */
const show = text => String(text).replace(/[\0-\x08\x0b-\x1f\x7f-\x9f\u00ad\u061c\u200b\u200e\u200f\u2028-\u202e\u2060-\u2069\ufeff\ufff9-\ufffb]|[\ud800-\udbff](?![\udc00-\udfff])|(?<![\ud800-\udbff])[\udc00-\udfff]/g, c => `\\u{${c.charCodeAt(0).toString(16)}}`);

/** An element with attributes (a function is a listener) and children; a child that is no node is shown as text. */
function el(tag, attributes, ...children) {
  const it = document.createElement(tag);
  for (const [name, value] of Object.entries(attributes || {}))
    if (typeof value === 'function') it.addEventListener(name, value);
    else if (value !== null && value !== false) it.setAttribute(name, value === true ? '' : value);
  for (const child of children) if (child !== null && child !== undefined) it.append(child instanceof Node ? child : show(child));
  return it;
}
const SVG = 'http://www.w3.org/2000/svg';
function svg(tag, attributes, text) {
  const it = document.createElementNS(SVG, tag);
  for (const [name, value] of Object.entries(attributes || {})) it.setAttribute(name, value);
  if (text !== undefined) it.textContent = text;
  return it;
}
function mark(status, spoken = true) {
  const it = svg('svg', { class: `s k${status}`, 'aria-hidden': 'true' });
  it.append(svg('use', { href: `#s${status}` }));
  const box = document.createDocumentFragment();
  box.append(it);
  if (spoken) box.append(el('span', { class: 'sr' }, STATUS[status] + ' '));
  return box;
}
const grouped = n => String(n).replace(/\B(?=(\d{3})+$)/g, '\u202f');
const count = (n, one, many = one + 's') => `${grouped(n)} ${n === 1 ? one : many}`;
/** In milliseconds, for columns: with two decimals, or one where the run is long. */
const DECIMALS = D.run.wall < 1e7 ? 2 : 1;
const ms = us => us === null ? '' : (us / 1e3).toFixed(DECIMALS).replace(/\B(?=(\d{3})+\.)/g, '\u202f');
/** With the unit that fits, for sentences. */
function time(us) {
  if (us < 1e3) return `${us} µs`;
  if (us < 1e6) return `${(us / 1e3).toFixed(1)} ms`;
  if (us < 6e7) return `${(us / 1e6).toFixed(2)} s`;
  const s = Math.round(us / 1e6);
  return `${Math.floor(s / 60)} min ${String(s % 60).padStart(2, '0')} s`;
}

// --- The data, as columns. A parent stands before its children.

const N = D.nodes.length, A = D.attempts.length;
const parent = new Int32Array(N), name = new Array(N), isTest = new Uint8Array(N), status = new Uint8Array(N);
const children = new Map(), attemptsOf = new Array(N), faultsOf = new Map(), waitsOf = new Map(), waitsFor = new Map();
const tests = []; // the tests' nodes
const tally = new Uint32Array(5 * N); // of each node: the tests at and below it, by status
const from = new Float64Array(N).fill(Infinity), to = new Float64Array(N).fill(-1); // when it and what is below it ran
const put = (map, key, value) => { const list = map.get(key); if (list) list.push(value); else map.set(key, [value]); };

D.nodes.forEach(([p, label, test, st], n) => {
  parent[n] = p === null ? -1 : p; name[n] = label; isTest[n] = test; status[n] = st;
  put(children, parent[n], n);
  if (test) tests.push(n);
});
D.attempts.forEach(([n, lane, begun, ended], a) => {
  (attemptsOf[n] ||= []).push(a);
  from[n] = Math.min(from[n], begun); to[n] = Math.max(to[n], ended);
});
D.faults.forEach(f => put(faultsOf, f[0], f));
D.waits.forEach(w => { put(waitsOf, w[1], w); if (w[4] === 1) put(waitsFor, w[5], w); });
for (const n of tests) if (status[n] === PASSED && attemptsOf[n]?.length > 1) status[n] = FLAKY;
for (let n = N - 1; n >= 0; n--) {
  if (isTest[n]) tally[5 * n + status[n]]++;
  const p = parent[n];
  if (p < 0) continue;
  for (let s = 0; s < 5; s++) tally[5 * p + s] += tally[5 * n + s];
  from[p] = Math.min(from[p], from[n]); to[p] = Math.max(to[p], to[n]);
}
const totals = STATUS.map((_, s) => tests.reduce((sum, n) => sum + (status[n] === s), 0));
const failedContainers = status.reduce((sum, st, n) => sum + (!isTest[n] && st === FAILED), 0);
const path = n => (parent[n] < 0 ? '' : path(parent[n]) + '/') + name[n];
const took = n => isTest[n] ? (attemptsOf[n] || []).reduce((sum, a) => sum + D.attempts[a][3] - D.attempts[a][2], 0) : to[n] - from[n];
/** An id, of which the last segment stands out. */
const idOf = (n, whole = true) => el('span', { class: 'id', dir: 'ltr' }, whole && parent[n] >= 0 ? el('span', { class: 'up' }, path(parent[n]) + '/') : null, el('b', {}, name[n]));
const lockName = i => i === null ? 'to run alone' : `for lock ${D.locks[i]}`;
const waitText = ([, , begun, ended, kind, what, by]) => `waited ${time(ended - begun)} ${kind ? `for ${D.values[what][0]}` : lockName(what)}${by === null ? '' : (kind ? ', made by ' : ', held by ') + name[by]}`;

/** Rows of a list, a page at a time, with a button for the next. */
function pages(list, make, into, what) {
  let at = 0;
  const more = el('button', { type: 'button', class: 'more', click: next });
  function next() {
    more.remove();
    const end = Math.min(at + PAGE, list.length), box = document.createDocumentFragment();
    for (; at < end; at++) box.append(make(list[at]));
    into.append(box);
    if (at < list.length) { more.textContent = `${grouped(list.length - at)} more ${what}: show ${Math.min(PAGE, list.length - at)}`; (into.tagName === 'TBODY' ? into.parentNode : into).after(more); }
  }
  next();
  return more;
}

// --- Head.

const failed = totals[FAILED] + failedContainers;
document.title = `${failed ? `${failed} failed` : 'passed'}: ${show(D.run.name)}`;
$('name').textContent = show(D.run.name);
for (const s of [FAILED, FLAKY, 2, 3, PASSED]) $('verdict').append(el('span', { class: totals[s] ? null : 'none' }, mark(s, false), ' ', el('b', {}, grouped(totals[s])), ' ', STATUS[s]));
if (failedContainers) $('verdict').children[0].after(el('span', {}, mark(FAILED, false), ' ', el('b', {}, grouped(failedContainers)), failedContainers === 1 ? ' failed container' : ' failed containers'));
const share = us => `${Math.round(100 * us / (D.run.wall * D.run.lanes || 1))} %`;
const waited = D.waits.reduce((sum, w) => sum + w[3] - w[2], 0);
const busy = D.attempts.reduce((sum, a) => sum + a[3] - a[2], 0) - D.waits.reduce((sum, w) => sum + (w[4] === 1 ? w[3] - w[2] : 0), 0); // a value is waited for within an attempt, a lock before it
for (const [what, value] of [
  ['tests', grouped(tests.length)], ['wall time', time(D.run.wall)], ['lanes', D.run.lanes],
  ['lanes busy', share(busy)], ['waiting', share(waited)],
  ['note', D.run.note]])
  if (value !== null) $('facts').append(el('div', {}, el('dt', {}, what), el('dd', {}, value)));

// --- Failures: those that failed by the same messages together.

function whereOf([n, attempt, place]) {
  const a = attempt === null ? undefined : attemptsOf[n]?.[attempt - 1];
  return [place, attemptsOf[n]?.length > 1 && attempt !== null ? `attempt ${attempt} of ${attemptsOf[n].length}` : null,
    a === undefined ? null : `lane ${D.attempts[a][1]}, at ${time(D.attempts[a][2])}, ran ${time(D.attempts[a][3] - D.attempts[a][2])}`].filter(it => it).join(' · ');
}
const told = (f, st) => [el('p', { class: 'where dim' }, whereOf(f)), el('pre', { dir: 'ltr', class: `k${st}` }, f[3])];
{
  const alike = new Map(); // failed nodes by their messages, each message once
  for (const [n, faults] of faultsOf) if (status[n] === FAILED) put(alike, JSON.stringify([...new Set(faults.map(f => f[3]))]), n);
  const jump = (what, go) => el('button', { type: 'button', class: 'link', click: go }, what);
  const where = faults => faults.map(f => el('p', { class: 'where dim' }, whereOf(f)));
  $('failures').hidden = alike.size === 0;
  $('h-failures').textContent = `${grouped(failed)} failed${alike.size < failed ? ` in ${count(alike.size, 'way')}` : ''}`;
  pages([...alike], ([key, nodes]) => {
    const texts = JSON.parse(key), item = el('li'), box = el('div'), rest = el('div');
    const who = n => el('div', {}, el('div', { class: 'who' }, el('span', {}, mark(FAILED), ' ', idOf(n)), attemptsOf[n] ? jump('in the lanes', () => lookAt(n)) : null, jump('in the tree', () => unfold(n))), ...(texts.length === 1 ? where(faultsOf.get(n)) : []));
    pages(nodes.slice(0, 3), who, box, '');
    item.append(box);
    if (nodes.length > 3) {
      const all = jump(`${grouped(nodes.length - 3)} more that failed alike`, () => { all.remove(); pages(nodes.slice(3), who, rest, 'that failed alike'); });
      item.append(rest, all);
    }
    for (const text of texts) item.append(...(texts.length > 1 ? where(faultsOf.get(nodes[0]).filter(f => f[3] === text)) : []), el('pre', { dir: 'ltr' }, text));
    return item;
  }, $('failed'), 'ways to fail');
}

// --- The tree. A list is made when its node is unfolded.

const filter = { text: '', shown: new Set() };
let match = null; // of each node: whether it or a test below it is shown; null while nothing is filtered
const summaryOf = n => {
  const parts = ORDER.filter(s => tally[5 * n + s]).map(s => `${grouped(tally[5 * n + s])} ${STATUS[s]}`);
  return el('span', { class: 'tally num' }, parts.join(', '));
};
const worst = n => status[n] === FAILED || status[n] === 2 ? status[n] : ORDER.find(s => tally[5 * n + s]) ?? status[n];

function row(n, open) {
  const kids = children.get(n), faults = faultsOf.get(n);
  const st = kids ? worst(n) : status[n], tries = attemptsOf[n]?.length || 0;
  const line = [mark(st), idOf(n, false), kids ? summaryOf(n) : el('span', { class: 'tries num' }, isTest[n] && tries > 1 ? `${tries} attempts` : tries ? `lane ${D.attempts[attemptsOf[n][0]][1]}` : ''), el('span', { class: 't num' }, to[n] < 0 ? '' : ms(took(n)))];
  if (!kids && !faults) return el('li', { 'data-n': n }, el('div', { class: 'row' }, ...line));
  const details = el('details', {}, el('summary', {}, ...line));
  const atFirst = open(n);
  let made = false;
  const make = () => {
    if (made) return;
    made = true;
    if (faults) details.append(el('div', { class: 'told' }, ...faults.flatMap(f => told(f, st))));
    if (kids) details.append(list());
  };
  details.addEventListener('toggle', () => { if (details.open) make(); });
  if (atFirst) { make(); details.open = true; }
  return el('li', { 'data-n': n }, details);
  function list() {
    const ul = el('ul');
    const all = match ? kids.filter(it => match[it]) : kids;
    // Of a long list that is open from the start only what did not pass is shown at first.
    const first = !match && kids.length > 20 && atFirst ? all.filter(it => worst(it) !== PASSED) : all;
    const box = el('div');
    box.append(ul);
    const fill = which => pages(which, it => row(it, open), ul, 'here');
    fill(first);
    if (first.length < all.length) {
      const rest = el('button', { type: 'button', class: 'more', click: () => { box.replaceChildren(ul); ul.replaceChildren(); fill(all); } }, `${grouped(all.length - first.length)} passed: show them too`);
      box.append(rest);
    }
    return box;
  }
}

function search() {
  const words = filter.text.toLowerCase();
  match = words || filter.shown.size ? new Uint8Array(N) : null;
  let found = tests.length;
  if (match) {
    found = 0;
    const ids = new Array(N);
    for (let n = 0; n < N; n++) {
      ids[n] = (parent[n] < 0 ? '' : ids[parent[n]] + '/') + show(name[n]).toLowerCase();
      if (!isTest[n] || (filter.shown.size && !filter.shown.has(status[n]))) continue;
      if (words && !ids[n].includes(words) && !faultsOf.get(n)?.some(f => show(f[3]).toLowerCase().includes(words))) continue;
      found++;
      for (let it = n; it >= 0 && !match[it]; it = parent[it]) match[it] = 1;
    }
  }
  $('shown').textContent = match ? `${grouped(found)} of ${count(tests.length, 'test')}` : count(tests.length, 'test');
  // What failed is unfolded at first, and all that is found, unless it is much.
  let unfolded = 0;
  const open = n => match ? found <= 300 && children.has(n) : children.has(n) && (parent[n] < 0 || (worst(n) === FAILED && unfolded++ < 30));
  const ul = el('ul', {}, el('li', { class: 'head', 'aria-hidden': 'true' }, el('div', { class: 'row' }, el('span', { class: 'id' }, 'id'), el('span', { class: 't' }, 'ms'))));
  $('tree').replaceChildren(ul);
  const roots = (children.get(-1) || []).filter(it => !match || match[it]);
  if (roots.length) pages(roots, it => row(it, open), ul, 'here'); else ul.append(el('li', { class: 'dim' }, 'nothing fits'));
  draw();
}
let typing;
$('text').addEventListener('input', () => { clearTimeout(typing); typing = setTimeout(() => { filter.text = $('text').value.trim(); search(); }, 120); });
for (const s of ORDER) {
  const button = el('button', { type: 'button', 'aria-pressed': 'false', disabled: !totals[s], click: () => {
    if (!filter.shown.delete(s)) filter.shown.add(s);
    button.setAttribute('aria-pressed', String(filter.shown.has(s)));
    search();
  } }, mark(s, false), ` ${STATUS[s]} `, el('span', { class: 'num' }, grouped(totals[s])));
  $('statuses').append(button);
}

/** Shows a node in the tree: unfolds what is above it. */
function unfold(n) {
  const up = [];
  for (let it = n; it >= 0; it = parent[it]) up.unshift(it);
  let box = $('tree'), item;
  for (const it of up) {
    item = box.querySelector(`li[data-n="${it}"]`);
    while (!item) { // not among the rows so far
      const more = [...box.querySelectorAll('button.more')].pop();
      if (!more) break;
      more.click();
      item = box.querySelector(`li[data-n="${it}"]`);
    }
    if (!item) { if (match) { clear(); return unfold(n); } return; }
    const details = item.querySelector(':scope > details');
    if (details && !details.open) { details.open = true; details.dispatchEvent(new Event('toggle')); }
    box = item;
  }
  document.querySelectorAll('.found').forEach(it => it.classList.remove('found'));
  const line = item.querySelector('summary, .row');
  line.classList.add('found');
  line.scrollIntoView({ block: 'center' });
  if (line.tagName === 'SUMMARY') line.focus({ preventScroll: true });
}
function clear() {
  $('text').value = filter.text = '';
  filter.shown.clear();
  document.querySelectorAll('#statuses button').forEach(it => it.setAttribute('aria-pressed', 'false'));
  search();
}

// --- Lanes over time. Only what is in sight is drawn; bars narrower than a pixel are drawn as one, which has the worst status of them.

const WALL = Math.max(D.run.wall, 1), L = D.run.lanes;
const GUTTER = 48, TOP = 20, H = L > 12 ? 22 : 30, BAR = H > 24 ? 18 : 12;
const view = { a: 0, b: WALL };
let width = 0, at = null; // at: what is pointed at, as { kind, i, lane }
/** Of each lane, sorted by begin: attempts, waits, factories and closes, as { i, a, b }. */
const lanes = Array.from({ length: L }, () => ({ bar: [], wait: [], make: [], close: [] }));
D.attempts.forEach((t, i) => lanes[t[1]].bar.push({ i, a: t[2], b: t[3] }));
D.waits.forEach((w, i) => lanes[w[0]].wait.push({ i, a: w[2], b: w[3] }));
D.values.forEach((v, i) => {
  if (v[4] !== null) lanes[v[3]].make.push({ i, a: v[4], b: v[5] });
  if (v[9] !== null) lanes[v[8]].close.push({ i, a: v[9], b: v[10] });
});
for (const lane of lanes) for (const kind of Object.keys(lane)) lane[kind].sort((x, y) => x.a - y.a || x.b - y.b);
/** The first of a sorted list that ends after this time (in one lane nothing of a kind overlaps). */
function after(list, t) {
  let low = 0, high = list.length;
  while (low < high) { const mid = (low + high) >> 1; if (list[mid].b < t) low = mid + 1; else high = mid; }
  return low;
}
const attemptStatus = i => { const n = D.attempts[i][0]; return D.attempts[i][4] === FAILED && status[n] === FLAKY ? FLAKY : D.attempts[i][4]; };
const RANK = [1, 5, 3, 2, 4]; // which status wins where bars are drawn as one
const SHAPE = { 0: [.28, .44], 1: [0, 1], 2: [.2, .6], 3: [.4, .2], 4: [0, .62] }; // top and height of a bar, as parts

/** Draws the items of a list as rectangles: gives each run of narrow ones, and each wide one, to `add(x, w, class, narrow)`. */
function runs(list, scale, classOf, rank, add) {
  let x = 0, end = -1, cls = null, narrow = false;
  const flush = () => { if (cls !== null) add(x, Math.max(end - x, 1), cls, narrow); };
  for (let k = after(list, view.a); k < list.length && list[k].a <= view.b; k++) {
    const x0 = Math.max((list[k].a - view.a) * scale, -2), x1 = Math.min((list[k].b - view.a) * scale, width + 2), c = classOf(list[k].i), thin = x1 - x0 < 1;
    if (cls !== null && narrow && thin && x0 - end < 1 && (c === cls || x0 - x < 1.5)) { if (rank(c) > rank(cls)) cls = c; end = Math.max(end, x1); }
    else { flush(); x = x0; end = x1; cls = c; narrow = thin; }
  }
  flush();
}
function niceStep(span, most) {
  const raw = span / most, ten = 10 ** Math.floor(Math.log10(raw));
  return Math.max([1, 2, 5, 10].find(it => it * ten >= raw) * ten, 1);
}
const hatch = (id, d) => { const it = svg('pattern', { id, width: 6, height: 6, patternUnits: 'userSpaceOnUse' }); it.append(svg('rect', { class: 'track', width: 6, height: 6 }), svg('path', { d, class: 'hatch' })); return it; };
const HATCH = ['M-1 7 7 -1', 'M-1 -1 7 7'];

function draw() {
  const box = $('chart');
  width = Math.max(box.clientWidth - GUTTER - 2, 60);
  const scale = width / (view.b - view.a), high = TOP + L * H + 2;
  const s = svg('svg', { height: high, viewBox: `0 0 ${width + GUTTER + 2} ${high}`, 'aria-hidden': 'true' });
  const defs = svg('defs');
  defs.append(hatch('h0', HATCH[0]), hatch('h1', HATCH[1]));
  const clip = svg('clipPath', { id: 'clip' });
  clip.append(svg('rect', { x: 0, y: 0, width, height: high }));
  defs.append(clip);
  const g = svg('g', { transform: `translate(${GUTTER} 0)`, 'clip-path': 'url(#clip)' }), labels = svg('g');
  s.append(defs, labels, g);
  for (let l = 0; l < L; l++) {
    const y = TOP + l * H;
    g.append(svg('rect', { class: 'track', x: 0, y: y + 1, width, height: BAR + 2 }));
    labels.append(svg('text', { x: 0, y: y + BAR / 2 + 6 }, H > 24 || GUTTER ? `lane ${l}` : l));
  }
  const step = niceStep(view.b - view.a, Math.max(width / 90, 2)), unit = view.b < 1e4 ? [1, 'µs'] : view.b < 2e6 ? [1e3, 'ms'] : [1e6, 's'];
  const digits = Math.max(0, Math.ceil(-Math.log10(step / unit[0]) - 1e-9));
  for (let t = Math.ceil(view.a / step) * step; t <= view.b; t += step) {
    const x = (t - view.a) * scale;
    g.append(svg('line', { class: 'grid', x1: x, x2: x, y1: TOP - 4, y2: high }));
    if (x < width - 46) g.append(svg('text', { x: x + 3, y: 12 }, `${(t / unit[0]).toFixed(digits)} ${unit[1]}`));
  }
  const d = {};
  const rect = (cls, x, y, w, h) => { const r = Math.round(w * 10) / 10; (d[cls] ||= []).push(`M${Math.round(x * 10) / 10} ${y}h${r}v${h}h${-r}z`); };
  lanes.forEach((lane, l) => {
    const y = TOP + l * H + 2, low = y + BAR + 2;
    runs(lane.wait, scale, i => D.waits[i][4], c => c, (x, w, c, narrow) => rect(narrow || w < 3 ? 'thin' : `h${c}`, x, y, w, BAR));
    runs(lane.bar, scale, i => match && !match[D.attempts[i][0]] ? 'other' : attemptStatus(i), c => c === 'other' ? 0 : RANK[c], (x, w, c) => {
      const [top, part] = SHAPE[c === 'other' ? 0 : c];
      rect(c === 'other' ? c : `b${c}`, x, y + top * BAR, c === FAILED || c === FLAKY ? Math.max(w, 2) : w > 3 ? w - .6 : w, part * BAR);
    });
    runs(lane.make, scale, i => D.values[i][6] === null ? 'make' : 'bad', c => c === 'bad', (x, w, c) => {
      rect(c, x, low, Math.max(w, 1.5), 4);
      if (w > 8) (d[c] ||= []).push(`M${x + w} ${low - 2}l4 4-4 4-4-4z`);
    });
    runs(lane.close, scale, i => D.values[i][11] === null ? 'close' : 'bad', c => c === 'bad', (x, w, c) => rect(c, x, low - 1, Math.max(w, 1), 6));
  });
  for (const cls of ['thin', 'other', 'b0', 'b3', 'b2', 'b4', 'b1', 'h0', 'h1', 'make', 'close', 'bad'])
    if (d[cls]) g.append(svg('path', { d: d[cls].join(''), ...(cls[0] === 'h' ? { fill: `url(#${cls})`, class: 'wait' } : { class: cls }) }));
  if (at) {
    const it = timesOf(at), x = (it.a - view.a) * scale;
    g.append(svg('rect', { class: 'at', x, y: TOP + at.lane * H + 1, width: Math.max((it.b - it.a) * scale, 2), height: BAR + 2 }));
  }
  box.replaceChildren(s);
  $('window').textContent = `${time(Math.round(view.a))} to ${time(Math.round(view.b))}`;
  $('out').disabled = $('all').disabled = view.a <= 0 && view.b >= WALL;
  $('left').disabled = view.a <= 0;
  $('right').disabled = view.b >= WALL;
  drawOverview();
}
let soon = 0;
const later = () => { soon ||= requestAnimationFrame(() => { soon = 0; draw(); }); };
function look(a, b) {
  const span = Math.min(Math.max(b - a, 20), WALL);
  view.a = Math.min(Math.max(a, 0), WALL - span);
  view.b = view.a + span;
  later();
}
const zoom = (factor, t = (view.a + view.b) / 2) => look(t - (t - view.a) * factor, t + (view.b - t) * factor);
const pan = part => look(view.a + (view.b - view.a) * part, view.b + (view.b - view.a) * part);
$('in').onclick = () => zoom(.5);
$('out').onclick = () => zoom(2);
$('all').onclick = () => look(0, WALL);
$('left').onclick = () => pan(-.5);
$('right').onclick = () => pan(.5);

/** The strip of the whole run: how many lanes ran a test, where tests failed, and the part that is in sight. */
const overview = { s: null, win: null, width: 0 };
function drawOverview() {
  const box = $('overview'), w = width, high = 34;
  if (overview.width !== w) {
    overview.width = w;
    overview.s = svg('svg', { height: high, viewBox: `0 0 ${w + GUTTER + 2} ${high}` });
    const columns = Math.floor(w / 2), full = new Float64Array(columns + 1), bad = new Set(), each = WALL / columns;
    D.attempts.forEach(([, , a, b], i) => {
      for (let c = Math.floor(a / each); c <= columns && c * each < b; c++) full[c] += (Math.min(b, (c + 1) * each) - Math.max(a, c * each)) / each / L;
      if (attemptStatus(i) === FAILED) bad.add(Math.floor(a / each));
    });
    let load = 'M0 34', marks = '';
    for (let c = 0; c < columns; c++) load += `L${2 * c} ${(34 - 26 * Math.min(full[c], 1)).toFixed(1)}h2`;
    for (const c of bad) marks += `M${2 * c} 0h2v6h-2z`;
    const g = svg('g', { transform: `translate(${GUTTER} 0)` });
    overview.win = svg('rect', { class: 'win', y: .5, height: 33 });
    g.append(svg('rect', { class: 'track', width: w, height: high }), svg('path', { class: 'b0', d: load + 'V34z' }), svg('path', { class: 'b1', d: marks }), overview.win);
    overview.s.append(svg('text', { x: 0, y: 22 }, 'whole'), g);
    box.replaceChildren(overview.s);
  }
  overview.win.setAttribute('x', view.a / WALL * w);
  overview.win.setAttribute('width', Math.max((view.b - view.a) / WALL * w, 2));
}
{
  let start = null;
  const when = e => Math.min(Math.max((e.clientX - $('overview').getBoundingClientRect().left - GUTTER) / width, 0), 1) * WALL;
  $('overview').addEventListener('pointerdown', e => { start = when(e); $('overview').setPointerCapture(e.pointerId); });
  $('overview').addEventListener('pointermove', e => { if (start !== null && Math.abs(when(e) - start) > WALL / 200) look(Math.min(start, when(e)), Math.max(start, when(e))); });
  $('overview').addEventListener('pointerup', e => {
    if (start !== null && Math.abs(when(e) - start) <= WALL / 200) { const half = (view.b - view.a) / 2; look(start - half, start + half); }
    start = null;
  });
}

// What is pointed at, and its card.

const timesOf = ({ kind, i }) => { const v = kind === 'bar' ? D.attempts[i] : kind === 'wait' ? D.waits[i] : D.values[i]; return kind === 'make' ? { a: v[4], b: v[5] } : kind === 'close' ? { a: v[9], b: v[10] } : { a: v[2], b: v[3] }; };
function hit(x, y) {
  const l = Math.floor((y - TOP) / H), t = view.a + x * (view.b - view.a) / width, slack = 3 * (view.b - view.a) / width;
  if (l < 0 || l >= L || x < 0) return null;
  const low = (y - TOP) % H > BAR + 2;
  for (const kind of low ? ['close', 'make', 'bar', 'wait'] : ['bar', 'wait', 'make', 'close'])
    for (const off of [0, slack]) {
      const list = lanes[l][kind], k = after(list, t - off);
      if (k < list.length && list[k].a <= t + off) return { kind, i: list[k].i, lane: l };
    }
  return null;
}
function cardOf({ kind, i, lane }) {
  const line = (...parts) => el('p', {}, ...parts), { a, b } = timesOf({ kind, i });
  const when = `${time(b - a)}: ${ms(a)} to ${ms(b)} ms, lane ${lane}`;
  if (kind === 'make' || kind === 'close') {
    const v = D.values[i], fault = kind === 'make' ? v[6] : v[11];
    return [line(el('b', {}, kind === 'make' ? 'made' : 'closed'), ' ', v[0] === name[v[1]] ? null : `${v[0]} of `, idOf(v[1])), line(when), kind === 'make' ? line('by ', idOf(v[2])) : null, fault === null ? null : line('failed: ', fault)];
  }
  const n = kind === 'bar' ? D.attempts[i][0] : D.waits[i][1], tries = attemptsOf[n] || [];
  const st = kind === 'bar' ? attemptStatus(i) : status[n];
  const f = st === PASSED ? null : (faultsOf.get(n) || []).find(it => kind !== 'bar' || it[1] === null || tries[it[1] - 1] === i);
  const which = kind !== 'bar' ? '' : !isTest[n] ? ', calls of its own' : tries.length > 1 ? `, attempt ${tries.indexOf(i) + 1} of ${tries.length}` : '';
  return [line(mark(st, false), ` ${STATUS[st]} `, idOf(n)), line(kind === 'bar' ? when : `waiting ${when}`, which),
    ...(waitsOf.get(n) || []).map(w => line(waitText(w))), f ? line(el('span', { class: 'id' }, f[3].split('\n', 1)[0])) : null];
}
function point(what, x, y) {
  const same = what && at && what.kind === at.kind && what.i === at.i;
  const card = $('card');
  card.hidden = !what;
  if (what && !same) card.replaceChildren(...cardOf(what).filter(it => it));
  if (what) {
    const { width: w, height: h } = card.getBoundingClientRect();
    card.style.left = `${Math.max(8, Math.min(x + 14, innerWidth - w - 8))}px`;
    card.style.top = `${y + 18 + h > innerHeight ? Math.max(8, y - h - 14) : y + 18}px`;
  }
  at = what;
  if (!same) later();
}
/** Shows the card of an item that keys or a button have chosen, and brings it in sight. */
function choose(what) {
  const { a, b } = timesOf(what), span = view.b - view.a;
  if (a < view.a || b > view.b) look((a + b) / 2 - Math.max(span, (b - a) * 1.5) / 2, (a + b) / 2 + Math.max(span, (b - a) * 1.5) / 2);
  const box = $('chart').getBoundingClientRect();
  point(what, box.left + GUTTER + Math.max(0, (a - view.a) / (view.b - view.a) * width), box.top + TOP + (what.lane + 1) * H - 12);
}
function lookAt(n) {
  const all = attemptsOf[n] || [], i = all.find(it => !isTest[n] && D.attempts[it][4] !== PASSED) ?? all.at(-1);
  if (i === undefined) return;
  const [, lane, a, b] = D.attempts[i], span = Math.max(b - a, 10) * 8;
  $('lanes').scrollIntoView({ block: 'start' });
  if (span < view.b - view.a) look((a + b) / 2 - span / 2, (a + b) / 2 + span / 2);
  $('chart').focus({ preventScroll: true });
  choose({ kind: 'bar', i, lane });
}
{
  const chart = $('chart');
  let drag = null;
  const place = e => { const box = chart.getBoundingClientRect(); return [e.clientX - box.left - GUTTER, e.clientY - box.top]; };
  chart.addEventListener('pointerdown', e => { drag = { x: e.clientX, a: view.a, moved: false }; });
  chart.addEventListener('pointermove', e => {
    if (drag && e.buttons) {
      const by = (drag.x - e.clientX) * (view.b - view.a) / width;
      if (Math.abs(drag.x - e.clientX) > 3 && !drag.moved) { drag.moved = true; chart.setPointerCapture(e.pointerId); }
      if (drag.moved) { point(null); look(drag.a + by, drag.a + by + view.b - view.a); }
      return;
    }
    point(hit(...place(e)), e.clientX, e.clientY);
  });
  chart.addEventListener('pointerup', () => { drag = null; });
  chart.addEventListener('pointerleave', () => { if (!drag?.moved) point(null); });
  chart.addEventListener('dblclick', () => { if (at?.kind === 'bar') unfold(D.attempts[at.i][0]); });
  chart.addEventListener('blur', () => point(null));
  chart.addEventListener('wheel', e => {
    if (e.ctrlKey || e.metaKey) { e.preventDefault(); zoom(Math.exp(Math.max(-60, Math.min(60, e.deltaY)) * .01), view.a + place(e)[0] * (view.b - view.a) / width); }
    else if (e.shiftKey || Math.abs(e.deltaX) > Math.abs(e.deltaY)) { e.preventDefault(); pan((e.deltaX || e.deltaY) / width); }
  }, { passive: false });
  chart.addEventListener('keydown', e => {
    if (e.ctrlKey || e.metaKey || e.altKey) return;
    const lane = at?.lane ?? Math.max(0, lanes.findIndex(it => it.bar.length)), list = lanes[lane].bar, t = at ? timesOf(at).a : view.a;
    const near = by => { let l = lane + by; while (lanes[l] && !lanes[l].bar.length) l += by; const list = lanes[l]?.bar; if (list) choose({ kind: 'bar', lane: l, i: list[Math.min(after(list, t), list.length - 1)].i }); };
    const step = by => { const k = at?.kind === 'bar' ? list.findIndex(it => it.i === at.i) + by : after(list, t); if (list[k]) choose({ kind: 'bar', lane, i: list[k].i }); };
    const keys = { ArrowRight: () => step(1), ArrowLeft: () => step(-1), ArrowDown: () => near(1), ArrowUp: () => near(-1), '+': () => zoom(.5, t), '=': () => zoom(.5, t), '-': () => zoom(2, t), 0: () => look(0, WALL),
      Enter: () => { if (at?.kind === 'bar') unfold(D.attempts[at.i][0]); }, Escape: () => point(null) };
    if (keys[e.key]) { e.preventDefault(); keys[e.key](); }
  });
  const sample = (text, ...shapes) => { const s = svg('svg', { viewBox: '0 0 24 18', 'aria-hidden': 'true' }); shapes.forEach(([tag, a]) => s.append(svg(tag, a))); $('legend').append(el('span', {}, s, text)); };
  for (const c of [0, 1, 4, 2]) if (totals[c]) sample(c === 4 ? 'failed attempt of a flaky test' : STATUS[c], ['rect', { class: `b${c}`, x: 1, y: SHAPE[c][0] * 18, width: 22, height: SHAPE[c][1] * 18 }]);
  const kinds = new Set(D.waits.map(w => w[4]));
  if (kinds.has(0)) sample('waits for a lock', ['rect', { fill: 'url(#h0)', class: 'wait', x: 1, y: 1, width: 22, height: 16 }]);
  if (kinds.has(1)) sample('waits for a value that another test makes', ['rect', { fill: 'url(#h1)', class: 'wait', x: 1, y: 1, width: 22, height: 16 }]);
  if (D.values.some(v => v[4] !== null)) sample('makes a value', ['path', { class: 'make', d: 'M1 7h17v4H1zM18 5l4 4-4 4-4-4z' }]);
  if (D.values.some(v => v[9] !== null)) sample('closes a value', ['rect', { class: 'close', x: 11, y: 6, width: 1.5, height: 6 }]);
  if (D.values.some(v => v[6] !== null || v[11] !== null)) sample('making or closing failed', ['rect', { class: 'bad', x: 9, y: 6, width: 5, height: 6 }]);
}

// --- Shared values.

const shared = D.values.map((_, i) => i).filter(i => { const v = D.values[i]; return v[4] !== null || v[7] || v[11] !== null || waitsFor.has(i); });
const linkTo = n => el('button', { type: 'button', class: 'link id', title: show(path(n)), click: () => lookAt(n) }, name[n]);
let allValues = false;
function values() {
  const rows = allValues ? D.values.map((_, i) => i) : shared, own = D.values.length - shared.length;
  $('own').hidden = !own;
  $('own').textContent = `also ${count(own, 'value')} that one test put for itself`;
  $('own').setAttribute('aria-pressed', String(allValues));
  if (!rows.length) { $('table').replaceChildren(el('p', { class: 'dim' }, 'none')); return; }
  const heads = [['key'], ['context'], ['made by'], ['lane', 'r'], ['at, ms', 'r'], ['took, ms', 'r'], ['found by', 'r'], ['waited for by'], ['closed at, ms', 'r'], ['fault']];
  const body = el('tbody');
  $('table').replaceChildren(el('table', {}, el('thead', {}, el('tr', {}, ...heads.map(([text, c]) => el('th', { class: c || null, scope: 'col' }, text)))), body));
  pages(rows, i => {
    const [key, context, maker, lane, begun, ended, fault, found, , closed, , closeFault] = D.values[i], waits = waitsFor.get(i);
    const who = waits && el('details', {}, el('summary', { class: 'num' }, `${count(waits.length, 'test')}, ${ms(waits.reduce((sum, w) => sum + w[3] - w[2], 0))} ms`));
    who?.addEventListener('toggle', () => { const ul = el('ul'); who.append(ul); pages(waits, w => el('li', {}, el('span', { class: 'num' }, `${ms(w[3] - w[2])} ms`), linkTo(w[1])), ul, 'waited'); }, { once: true });
    const cells = [el('span', { class: 'id' }, key), idOf(context, false), linkTo(maker), lane, ms(begun ?? ended), begun === null ? 'put' : ms(ended - begun), grouped(found), who || null, ms(closed),
      fault === null && closeFault === null ? null : el('span', {}, mark(FAILED), ' ', fault === null ? 'close: ' : '', el('span', { class: 'id' }, fault ?? closeFault))];
    return el('tr', {}, ...cells.map((it, c) => el('td', { class: heads[c][1] || null, 'data-l': heads[c][0] }, it)));
  }, body, 'values');
}
$('own').onclick = () => { allValues = !allValues; values(); };

// The head and the failures are painted first, and then the rest.
requestAnimationFrame(() => setTimeout(() => {
  performance.mark('head');
  search();
  values();
  new ResizeObserver(() => { if ($('chart').clientWidth - GUTTER - 2 !== width) later(); }).observe($('chart'));
  document.body.dataset.ready = '';
}));"#;

#[tactic(auto, unfolding(crate::specs::Page::script))]
pub(crate) fn script() -> &'static str
    ensures { result.now ≡ script }
{
    SCRIPT
}
