//! The script of a page. Made by `page/make` of `page/page.js`.

/// All of it.
pub(crate) const SCRIPT: &str = r#"
'use strict';
// What the page of `recall draw --html` does: what an interval, a letter or an output depends on, and the diagram as it
// stood at an event. Texts of steps are data: read off titles, and shown by textContent and setAttribute alone.

const one = (id) => document.getElementById(id);
const all = (selector) => [...document.querySelectorAll(selector)];
const view = one('view');
const svg = one('diagram');
const slider = one('time');
const NEVER = Infinity;
const STATUSES = ['firm', 'stable', 'volatile', 'lost', 'cut'];

let now = NEVER; // the last event that has happened
let pinned = null; // what was chosen, by a click or the keyboard
let rover = null; // where the keyboard is
let shown = null; // what is lit up

// What the elements say: events, units and lines by their numbers. A number that isn't there is NEVER.

function number(element, name) {
  const text = element.dataset[name];
  return text === undefined ? NEVER : Number(text);
}

const numbers = (element, ...names) => Object.fromEntries(names.map((name) => [name, number(element, name)]));

function readInterval(element) {
  const { before, past, mark } = element.dataset;
  const read = numbers(element, 'unit', 'column', 'line', 'logged', 'lost', 'cut', 'released');
  const gone = Math.min(read.lost, read.cut);
  return { ...read, element, kind: 'interval', id: element.id, mark, before, tops: past.split(' '), gone };
}

function readOutputs(element) {
  const base = intervals.get(element.dataset.of);
  return { element, kind: 'outputs', base, unit: base.unit, column: base.column };
}

function readLetter(element) {
  const { from, to } = element.dataset;
  const read = numbers(element, 'letter', 'receiver', 'column', 'until', 'gone');
  const base = intervals.get(from);
  return { ...read, element, kind: 'letter', base, to, unit: base ? base.unit : read.receiver };
}

const readSign = (element) => ({ ...numbers(element, 'unit', 'column', 'line'), element, kind: 'sign' });
const readDowntime = (element) => ({ ...numbers(element, 'unit', 'first', 'end'), element });

function grouped(some, keyOf) {
  const groups = new Map();
  for (const each of some) groups.set(keyOf(each), [...(groups.get(keyOf(each)) || []), each]);
  return groups;
}

const intervals = new Map(all('#diagram .interval[id]').map(readInterval).map((read) => [read.id, read]));
const drawn = [...intervals.values()].filter((read) => !read.element.classList.contains('undrawn'));
const outputs = all('#diagram .outputs').map(readOutputs);
const letters = all('#diagram .send').map(readLetter);
const receipts = grouped(letters.filter((read) => read.to), (read) => read.letter);
const signs = all('#diagram .event').map(readSign);
const downtimes = all('#diagram .down').map(readDowntime);
const items = [...drawn, ...outputs, ...letters.filter((read) => read.base), ...signs];
const itemOf = new Map(items.map((item) => [item.element, item]));
const shapes = Object.fromEntries(STATUSES.map((name) => [name, document.querySelector(`.legend .${name} > .shape`)]));

// How things stand at the present event.

const isGone = (interval) => interval.gone <= now;
const isStable = (interval) => interval.logged <= now && !isGone(interval);
// A unit's intervals in one past lie on one line, and what is logged of a line is its front: its last one tells of them
// all. One that the page doesn't have was logged for good before the first event that is drawn.
const isFirm = (interval) => interval.tops.every((id) => !intervals.has(id) || isStable(intervals.get(id)));

function statusOf(interval) {
  if (interval.lost <= now) return 'lost';
  if (interval.cut <= now) return 'cut';
  if (!isStable(interval)) return 'volatile';
  return isFirm(interval) ? 'firm' : 'stable';
}

/** The interval and all that it depends on, as far as the page has them. */
function pastOf(interval) {
  const past = new Set();
  for (const top of interval.tops) {
    for (let each = intervals.get(top); each; each = intervals.get(each.before)) past.add(each);
  }
  return past;
}

/** Whether some of the past isn't in the page. */
function hasEarlier(interval, past) {
  return [...interval.tops, ...[...past].map((each) => each.before)].some((id) => id && !intervals.has(id));
}

const isDown = (unit) => downtimes.some((time) => time.unit === unit && time.first <= now && now < time.end);
// That a kill lost an interval is told to other units by the row of the restart behind it.
const isOfKill = (time, { unit, lost }) => time.unit === unit && time.first === lost;
const hasNoRow = (interval) => downtimes.some((time) => isOfKill(time, interval) && now < time.end);

// Sentences.

const noteOf = (item) => item.element.querySelector('title').textContent;
const baseOf = (item) => (item.kind === 'interval' ? item : item.base);

function listed(words, last = 'and') {
  return words.length < 2 ? words.join('') : `${words.slice(0, -1).join(', ')} ${last} ${words[words.length - 1]}`;
}

const unitsOf = (some) => [...new Set(some.map((each) => each.unit))].sort((a, b) => a - b);
const namesOf = (units, last) => listed(units.map((unit) => `unit ${unit}`), last);

function marksOf(some) {
  const marks = [...some].sort((a, b) => a.column - b.column).map((each) => `[${each.mark}]`);
  return marks.length > 4 ? `${marks[0]} to ${marks[marks.length - 1]} (${marks.length} intervals)` : listed(marks);
}

const ownOf = (some, unit) => some.filter((each) => each.unit === unit);

/** The line of what happened at this event. */
function by(event) {
  const sign = signs.find((each) => each.column === event);
  return sign ? `by line ${sign.line}` : `at event ${event}`;
}

/** Why an interval that is undone is. */
function undone(interval) {
  return interval.lost <= now
    ? `unit ${interval.unit} was killed ${by(interval.lost)} before it logged this`
    : `unit ${interval.unit} was rolled back ${by(interval.cut)}, since this rested on what was lost`;
}

/** What an orphan rests on, and what undoes it. */
function orphaned(interval, gone) {
  const units = unitsOf(gone);
  const lost = listed(units.map((unit) => `${marksOf(ownOf(gone, unit))} of unit ${unit}`));
  const after = gone.every(hasNoRow) ? `, once ${namesOf(units, 'or')} is restarted` : '';
  const undoes = isDown(interval.unit) ? `restart ${interval.unit}` : `notice ${interval.unit}`;
  return `rests on ${lost}, undone for good, so it can never be firm; ${undoes} would undo it${after}`;
}

/** What isn't logged yet, and what would log it. */
function awaited(open) {
  const units = unitsOf(open);
  const missing = units.map((unit) => `unit ${unit} has not logged ${marksOf(ownOf(open, unit))}`).join('; ');
  return `${missing}; ${listed(units.map((unit) => `flush ${unit}`))} would make it firm`;
}

/** What would lose it before that. */
function losses(interval, open, it) {
  const [own, others] = [true, false].map((is) => unitsOf(open).filter((unit) => (unit === interval.unit) === is));
  const other = `a kill of ${namesOf(others, 'or')}`;
  if (!own.length) return `${other.replace('a', 'A')} before that would lose what ${it} rests on.`;
  const rest = others.length ? `, ${other} what ${it} rests on` : '';
  return `A kill of ${namesOf(own)} before that would lose ${it}${rest}.`;
}

/** How an interval stands: what it waits for, and what would lose it. */
function standing(interval, it = 'it') {
  if (isGone(interval)) return { waits: undone(interval), loses: '' };
  const open = [...pastOf(interval)].filter((each) => !isStable(each));
  const gone = open.filter(isGone);
  if (gone.length) return { waits: orphaned(interval, gone), loses: '' };
  if (!open.length) return { waits: 'all of its past is logged', loses: `Nothing can undo ${it}.` };
  return { waits: awaited(open), loses: losses(interval, open, it) };
}

function outputSentence({ base }) {
  const { waits, loses } = standing(base);
  if (base.released <= now) return { state: `released ${by(base.released)}`, loses: 'It is never withdrawn.' };
  if (isGone(base)) return { state: `undone: ${waits}`, loses };
  if (!isFirm(base)) return { state: `held: ${waits}`, loses };
  const release = isDown(base.unit) ? `restart ${base.unit} and release ${base.unit}` : `release ${base.unit}`;
  return { state: `held: ${waits}; ${release} would let it out`, loses };
}

function letterSentence(letter) {
  const { waits, loses } = standing(letter.base, 'its sender');
  const taken = letter.to ? `received by unit ${letter.receiver}` : 'not received';
  return { state: `${taken}; its sender is ${statusOf(letter.base)}: ${waits}`, loses };
}

function sentence(item) {
  if (item.kind === 'sign') return { state: '', loses: '' };
  if (item.kind === 'outputs') return outputSentence(item);
  if (item.kind === 'letter') return letterSentence(item);
  const { waits, loses } = standing(item);
  return { state: `${statusOf(item)}: ${waits}`, loses };
}

/** Numbers in rising order, those in a row as a first and a last one. */
function ranges(some) {
  const runs = [];
  for (const each of [...new Set(some)].sort((a, b) => a - b)) {
    const run = runs[runs.length - 1];
    if (run && each === run[1] + 1) run[1] = each;
    else runs.push([each, each]);
  }
  return runs.flatMap(([first, last]) => (last < first + 2 ? [...new Set([first, last])] : [`${first} to ${last}`]));
}

/** The lines that made an item, and those that made its past. */
function lineSentence(item) {
  const base = baseOf(item);
  if (!base) return `Line ${item.line}.`;
  const past = pastOf(base);
  const others = [...past].filter((each) => each !== base && each.line !== base.line).map((each) => each.line);
  const logged = base.logged <= now && base.logged > base.column ? `, logged ${by(base.logged)}` : '';
  const lines = others.length ? `; its past by lines ${listed(ranges(others))}` : '';
  const earlier = hasEarlier(base, past) ? `${lines ? ', and' : '; its past'} by lines that are not in this page` : '';
  return `Made by line ${base.line}${logged}${lines}${earlier}.`;
}

// Lighting up.

const mark = (element, name, is) => element.classList.toggle(name, is);

function light(item) {
  const base = item && baseOf(item);
  const past = base ? pastOf(base) : new Set();
  mark(svg, 'lit', Boolean(base));
  for (const each of drawn) {
    mark(each.element, 'past', past.has(each));
    mark(each.element, 'open', past.has(each) && !isStable(each));
  }
  for (const each of letters) mark(each.element, 'past', past.has(intervals.get(each.to)));
  for (const each of items) mark(each.element, 'chosen', each === item);
}

function tell(item) {
  const [what, ...text] = item ? noteOf(item).split('\n') : ['Point at an interval, a letter or an output'];
  const { state, loses } = item ? sentence(item) : { state: '', loses: '' };
  const told = { what, text: text.join('\n'), state, loses, lines: item ? lineSentence(item) : '' };
  Object.entries(told).forEach(([id, words]) => (one(id).textContent = words));
}

function show(item) {
  shown = item;
  light(item);
  tell(item);
}

// The diagram at an event.

const isOff = (item) => item.element.classList.contains('off');
const ifThere = (item) => (item && !isOff(item) ? item : null);

function drawInterval(interval) {
  const { element, column } = interval;
  const status = statusOf(interval);
  mark(element, 'off', now < column);
  if (!element.classList.contains(status)) {
    STATUSES.forEach((name) => mark(element, name, name === status));
    element.querySelector('.shape').replaceWith(shapes[status].cloneNode());
  }
  element.setAttribute('aria-label', `${noteOf(interval)}, ${status}`);
}

function drawOutputs(item) {
  const { element, base } = item;
  const isReleased = base.released <= now;
  mark(element, 'off', now < base.column || isGone(base));
  const badge = element.querySelector('.held, .released');
  mark(badge, 'released', isReleased);
  mark(badge, 'held', !isReleased);
  element.setAttribute('aria-label', `${noteOf(item)}, ${isReleased ? 'released' : 'held'}`);
}

const isReceived = ({ letter }) => (receipts.get(letter) || []).some((each) => each.column <= now && now < each.until);

function drawLetter(letter) {
  const { element, column, gone, to } = letter;
  mark(element, 'off', now < column || (!to && isReceived(letter)));
  mark(element.querySelector('.letter'), 'gone', gone <= now);
  element.setAttribute('aria-label', noteOf(letter));
}

function drawSign(sign) {
  mark(sign.element, 'off', now < sign.column);
  sign.element.setAttribute('aria-label', noteOf(sign));
}

/** A unit that is down is so up to the present event. */
function drawDowntime({ element, first, end }) {
  const { first: from, left, step, right } = numbers(svg, 'first', 'left', 'step', 'right');
  const x = left + step * (Math.min(end, now + 1) - from) + step / 2;
  mark(element, 'off', now < first);
  element.setAttribute('d', element.getAttribute('d').replace(/H.*/, `H${Math.min(x, right)}`));
}

function drawList(section) {
  const entries = [...section.querySelectorAll('.output')];
  entries.forEach((entry) => mark(entry, 'off', now < intervals.get(entry.dataset.of).released));
  mark(section, 'off', !section.querySelector('.more, .output:not(.off)'));
}

function nowSentence() {
  if (now === NEVER) return 'the end';
  const there = [...drawn, ...signs].filter((item) => item.column === now);
  const notes = there.map((item) => noteOf(item).replace('\n', ': ')).join('; ');
  return there.length ? `${now}, line ${there[0].line}: ${notes}` : String(now);
}

function draw() {
  drawn.forEach(drawInterval);
  outputs.forEach(drawOutputs);
  letters.forEach(drawLetter);
  signs.forEach(drawSign);
  downtimes.forEach(drawDowntime);
  all('.unit').forEach(drawList);
  mark(one('counts'), 'off', slider.value !== slider.max);
  mark(one('none'), 'off', Boolean(document.querySelector('.unit:not(.off)')));
  one('now').textContent = nowSentence();
  slider.setAttribute('aria-valuetext', nowSentence());
  if (!rover || isOff(rover)) rove(items.find((item) => !isOff(item)));
  show(ifThere(shown));
}

/** Shows the diagram as it stood at this event; behind the last one that is drawn, as it stands at the end. */
function goTo(event) {
  slider.value = event;
  now = Number(slider.value) < number(svg, 'end') ? Number(slider.value) : NEVER;
  draw();
}

const step = (count) => goTo(Number(slider.value) + count);
const isAtEnd = () => slider.value === slider.max;

let playing = 0;

function play(isWanted) {
  clearInterval(playing);
  playing = isWanted ? setInterval(() => (isAtEnd() ? play(false) : step(1)), 800) : 0;
  one('play').textContent = isWanted ? 'pause' : 'play';
}

function togglePlay() {
  if (!playing && isAtEnd()) goTo(slider.min);
  play(!playing);
}

// From item to item: along a unit's line, and from line to line.

const RANKS = { interval: 0, sign: 0, outputs: 1, letter: 2 };
const inOrder = (a, b) => a.column - b.column || RANKS[a.kind] - RANKS[b.kind];
const lanes = grouped([...items].sort(inOrder), (item) => item.unit);
const present = (unit) => (lanes.get(unit) || []).filter((item) => !isOff(item));

/** One item can be reached by the Tab key: the one that the arrow keys go on from. */
function rove(item) {
  if (rover) rover.element.setAttribute('tabindex', '-1');
  rover = item || null;
  if (rover) rover.element.setAttribute('tabindex', '0');
}

function choose(item) {
  if (!item) return;
  rove(item);
  pinned = item;
  item.element.focus({ preventScroll: true });
  item.element.scrollIntoView({ block: 'nearest', inline: 'nearest' });
  show(item);
}

function along(count) {
  const lane = present(rover.unit);
  choose(lane[lane.indexOf(rover) + count]);
}

function across(count) {
  const there = present(rover.unit + count).filter((item) => item.kind === 'interval');
  const gap = (item) => Math.abs(item.column - rover.column);
  choose(there.sort((a, b) => gap(a) - gap(b))[0]);
}

function unpin() {
  pinned = null;
  show(null);
}

// Size and search.

let zoom = 1;

function zoomTo(factor) {
  zoom = Math.min(4, Math.max(0.05, factor));
  const { width, height } = svg.viewBox.baseVal;
  svg.setAttribute('width', Math.round(zoom * width));
  svg.setAttribute('height', Math.round(zoom * height));
  if (shown) shown.element.scrollIntoView({ block: 'nearest', inline: 'nearest' });
  keepLabels();
}

const fit = () => zoomTo(view.clientWidth / svg.viewBox.baseVal.width);
const keepLabels = () => one('labels').setAttribute('transform', `translate(${view.scrollLeft / zoom} 0)`);

const MARK = /^\[?(\d+,\d+)\]?$/;

function isFound(item, wanted) {
  const { line, mark: name } = baseOf(item) || item;
  if (MARK.test(wanted)) return item.kind === 'interval' && name === MARK.exec(wanted)[1];
  return [`${line}`, `line ${line}`].includes(wanted) || noteOf(item).toLowerCase().includes(wanted);
}

// A letter that was received is drawn twice: on its way, and as received.
const isTwin = (item) => item.kind === 'letter' && !item.to && receipts.has(item.letter);

let found = [];
let sought = null;

function search() {
  const wanted = one('search').value.trim().toLowerCase();
  found = wanted ? items.filter((item) => !isTwin(item) && isFound(item, wanted)).sort(inOrder) : [];
  sought = null;
  items.forEach((item) => mark(item.element, 'found', found.includes(item)));
  one('count').textContent = wanted ? `${found.length} found` : '';
}

/** Chooses an item, at an event where it is there; of what is undone, or received, the interval that it is of. */
function reach(item) {
  if (item.column > now) goTo(item.column);
  choose(ifThere(item) || baseOf(item));
}

function nextFound(count) {
  if (!found.length) return;
  const from = found.indexOf(sought);
  const place = (from < 0 ? 0 : from + count + found.length) % found.length;
  sought = found[place];
  reach(sought);
  one('count').textContent = `${place + 1} of ${found.length}`;
  one('search').focus();
}

// What is listened to.

const KEYS = {
  ArrowRight: () => along(1),
  ArrowLeft: () => along(-1),
  ArrowDown: () => across(1),
  ArrowUp: () => across(-1),
  Home: () => choose(present(rover.unit)[0]),
  End: () => choose(present(rover.unit).pop()),
  Escape: unpin,
  '+': () => zoomTo(zoom * 1.25),
  '=': () => zoomTo(zoom * 1.25),
  '-': () => zoomTo(zoom / 1.25),
  0: fit,
  ',': () => step(-1),
  '.': () => step(1),
  ' ': togglePlay,
};

function onKey(event) {
  const act = KEYS[event.key];
  if (!act || !rover || event.ctrlKey || event.metaKey || event.altKey) return;
  event.preventDefault();
  act();
}

const itemAt = (target) => itemOf.get(target.closest('.outputs, .send, .event, .interval'));

function follow(event) {
  event.preventDefault();
  reach(intervals.get(event.target.closest('.output').dataset.of));
}

function listen() {
  view.addEventListener('keydown', onKey);
  view.addEventListener('scroll', keepLabels);
  svg.addEventListener('pointerover', (event) => show(itemAt(event.target) || ifThere(pinned)));
  svg.addEventListener('pointerleave', () => show(ifThere(pinned)));
  svg.addEventListener('click', (event) => choose(itemAt(event.target)));
  svg.addEventListener('focusin', (event) => shown !== itemAt(event.target) && choose(itemAt(event.target)));
  slider.addEventListener('input', () => goTo(slider.value));
  const clicks = { play: togglePlay, back: KEYS[','], on: KEYS['.'], larger: KEYS['+'], smaller: KEYS['-'], fit };
  Object.entries(clicks).forEach(([id, act]) => one(id).addEventListener('click', act));
  one('search').addEventListener('input', search);
  one('search').addEventListener('keydown', (event) => event.key === 'Enter' && nextFound(event.shiftKey ? -1 : 1));
  all('.output a').forEach((link) => link.addEventListener('click', follow));
}

items.forEach((item) => item.element.setAttribute('tabindex', '-1'));
listen();
one('controls').hidden = false;
goTo(slider.max);
"#;
