//! The fixed text of a page: the part before its data, and the part after it. The second part has two scripts: `model`
//! gives the states and turns as functions, and the other one shows them.

/// The part before the data.
pub(crate) const HEAD: &[u8] = br##"<!doctype html>
<html lang="en">
<meta charset="utf-8">
<meta name="viewport" content="width=device-width, initial-scale=1">
<meta http-equiv="Content-Security-Policy"
 content="default-src 'none'; style-src 'unsafe-inline'; script-src 'unsafe-inline'">
<title>txc explore</title>
<style>
:root{color-scheme:light dark;--back:#fff;--text:#1b1f24;--dim:#57606a;--line:#d8dee4;--mark:#fff3bf;--ahead:#8c959f;
 --bad:#b3261e;--good:#1a7f37;--button:#f6f8fa;--press:#eaeef2}
@media (prefers-color-scheme:dark){:root{--back:#15181c;--text:#e6e8ea;--dim:#9aa4ae;--line:#343a42;--mark:#4d4200;
 --ahead:#6e7781;--bad:#ff8a80;--good:#7ee08f;--button:#21262d;--press:#30363d}}
*{box-sizing:border-box}
body{margin:0;background:var(--back);color:var(--text);font:14px/1.45 ui-monospace,Menlo,Consolas,monospace;
 display:grid;height:100vh;grid-template:"head head head" auto "source next state" auto "source log state" minmax(0,1fr)
 /minmax(0,1.3fr) minmax(0,1fr) minmax(15em,.7fr)}
header{grid-area:head;padding:.5em 1em;border-bottom:1px solid var(--line);display:flex;flex-wrap:wrap;
 gap:.2em 1.5em;align-items:baseline}
h1,h2{font:600 14px/1.45 system-ui,sans-serif;margin:0}
h2{color:var(--dim);margin:1em 0 .3em}
section>h2:first-child{margin-top:0}
header span,small,.dim{color:var(--dim)}
section{padding:.7em 1em;overflow:auto;border-right:1px solid var(--line);min-width:0}
#source{grid-area:source;padding-left:0;padding-right:0}
#next{grid-area:next;max-height:50vh}
#state{grid-area:state;border-right:0}
#log{grid-area:log}
#source h2{padding-left:1em}
#lines{width:max-content;min-width:100%}
#lines div{white-space:pre;display:flex}
#lines i{font-style:normal;color:var(--dim);flex:none;width:3em;text-align:right;padding-right:1em}
#lines span{flex:1 0 auto;padding-right:1em}
#lines b{position:sticky;right:.3em;font-weight:400}
.here,.now,.changed{background:var(--mark)}
.tag{border-radius:4px;padding:0 .4em;color:#fff;font-weight:700;margin-right:.5em;display:inline-block}
#lines .tag{margin:0 0 0 .3em;padding:0 .4em}
button{font:inherit;color:inherit;background:var(--button);border:1px solid var(--line);border-radius:6px;
 padding:.35em .6em;cursor:pointer;text-align:left;overflow-wrap:anywhere;min-height:2.2em}
button:hover:not(:disabled){background:var(--press)}
button:focus-visible,a:focus-visible{outline:2px solid #0969da;outline-offset:1px}
button:disabled{color:var(--ahead);cursor:default}
#threads button,#from button{display:block;width:100%;margin:.25em 0}
#moves{display:flex;flex-wrap:wrap;gap:.4em;margin:.6em 0}
ol{list-style:none;margin:0;padding:0}
li button{display:block;width:100%;border:0;border-left:4px solid;border-radius:0;background:none;padding:.2em .6em}
li small{display:block;padding-left:2em}
li.ahead{color:var(--ahead)}
table{border-collapse:collapse;width:100%}
td{padding:.05em .6em .05em .2em;vertical-align:top;overflow-wrap:anywhere}
pre{margin:.1em 0 .3em;white-space:pre-wrap;overflow-wrap:anywhere}
p{margin:.2em 0;overflow-wrap:anywhere}
.bad{color:var(--bad);font-weight:700}
.good{color:var(--good)}
code{user-select:all;overflow-wrap:anywhere}
@media (max-width:1000px){body{grid-template:"head head" auto "source next" auto "source state" minmax(0,1fr)
 "source log" minmax(0,1fr)/minmax(0,1.1fr) minmax(0,1fr)}section{border-right:0;border-bottom:1px solid var(--line)}
 #source{border-right:1px solid var(--line)}#next{max-height:40vh}}
@media (max-width:640px){body{display:block;height:auto}#source{max-height:42vh;border-right:0}#next{max-height:none}}
</style>
<header><h1 id="title"></h1><span id="size"></span><span><code id="command"></code></span></header>
<section id="source"><h2>Source</h2><div id="lines"></div></section>
<section id="next"><h2>Next turn</h2><div id="threads"></div><div id="moves"></div></section>
<section id="state"><h2>Memory</h2><table id="memory"></table><h2>Threads</h2><div id="ends"></div>
<h2>Properties</h2><div id="properties"></div><h2>From here</h2><div id="from"></div></section>
<section id="log"><h2>Turns</h2><ol id="turns"></ol></section>
<noscript>This page needs JavaScript.</noscript>
<script type="application/json" id="data">"##;

/// The part after the data.
pub(crate) const TAIL: &[u8] = br##"</script>
<script id="model">
"use strict";
// The states and turns of a page, as functions. A state is a number, and so is a thread; 0 is the first state. A state
// that the page lacks is null.
function modelOf(data) {
  const states = data.states, threads = data.threads;
  const memory = state => states[state][0];
  const rest = (state, thread) => data.rests[states[state][1][thread]];
  const runs = (state, thread) => rest(state, thread).end === "";
  const next = (state, thread) => states[state][2][thread];
  const all = [...Array(threads).keys()];
  const isEnd = state => !all.some(thread => runs(state, thread));

  // The states that an order passes, the first one included, up to the first one that the page lacks.
  function path(order) {
    const passed = [0];
    for (const thread of order) {
      const to = next(passed[passed.length - 1], thread);
      if (to === null) break;
      passed.push(to);
    }
    return passed;
  }

  // What a turn reads, writes and prints, and how the thread ends with it.
  function effects(state, thread) {
    const after = next(state, thread), [reads, writes] = data.touched[states[state][3][thread]];
    const before = rest(state, thread), then = rest(after, thread);
    return {
      reads: reads.filter(cell => !writes.includes(cell)).map(cell => [data.cells[cell], memory(state)[cell]]),
      writes: writes.map(cell => [data.cells[cell], memory(after)[cell], memory(state)[cell]]),
      printed: then.printed.slice(before.printed.length),
      end: runs(state, thread) ? then.end : "",
    };
  }

  // The states that can be reached, nearest first, and the turn that leads to each.
  function search(from) {
    const found = [from], led = new Map([[from, null]]);
    for (const state of found)
      for (const thread of all) {
        const to = next(state, thread);
        if (to !== null && !led.has(to)) { led.set(to, [state, thread]); found.push(to); }
      }
    return { found, led };
  }

  // A shortest order to a state that was found.
  function orderTo(led, to) {
    const order = [];
    for (let turn = led.get(to); turn; turn = led.get(turn[0])) order.push(turn[1]);
    return order.reverse();
  }

  // For each state, whether some order leads from it to an end.
  function ending() {
    const sources = states.map(() => []), can = states.map(() => false), work = [];
    for (let state = 0; state < states.length; state++) {
      for (const thread of all) if (next(state, thread) !== null) sources[next(state, thread)].push(state);
      if (isEnd(state)) { can[state] = true; work.push(state); }
    }
    for (const state of work)
      for (const source of sources[state]) if (!can[source]) { can[source] = true; work.push(source); }
    return can;
  }

  // What a state shows if all threads have ended in it: equal for equal outcomes.
  const outcome = state =>
    JSON.stringify([memory(state), all.map(thread => [rest(state, thread).end, rest(state, thread).printed])]);
  const outcomes = new Set();
  for (let state = 0; state < states.length; state++) if (isEnd(state)) outcomes.add(outcome(state));
  return { data, all, memory, rest, runs, next, isEnd, path, effects, search, orderTo, outcome, outcomes,
    can: ending() };
}
</script>
<script>
"use strict";
const model = modelOf(JSON.parse(document.getElementById("data").textContent)), data = model.data;
const COLORS = ["#0b5cad", "#a8480a", "#1f7a33", "#6639ba", "#a4262c", "#0b6e6e", "#7a5d00", "#545d68"];
const MOST_SHOWN = 12;
const PART = "The program has too many states for a page. This one has the states of one order, and those one turn from "
  + "it. It does not show what else can be reached.";
// The order, and how many of its turns are made.
let order = [], made = 0;
const lines = data.source.replace(/\r?\n$/, "").split(/\r?\n/);

const element = id => document.getElementById(id);
function make(kind, className, ...inside) {
  const it = document.createElement(kind);
  if (className) it.className = className;
  it.append(...inside);
  return it;
}
function button(text, press, inside = []) {
  const it = make("button", "", ...inside, text);
  it.type = "button";
  it.onclick = press;
  return it;
}
function tag(thread) {
  const it = make("span", "tag", "T" + thread);
  it.style.background = COLORS[thread % COLORS.length];
  return it;
}
const turns = count => count === 1 ? "1 turn" : count + " turns";
const listed = rest => rest.end ? rest.end : rest.line + ": " + rest.words;

// Makes an order the shown one, after so many of its turns.
function show(turnsOf, count) {
  order = turnsOf.slice(0, model.path(turnsOf).length - 1);
  made = Math.min(count, order.length);
  const at = made < order.length ? "&at=" + made : "";
  history.replaceState(null, "", "#order=" + order.join(",") + at);
  draw();
}
function play(thread) {
  const done = order.slice(0, made);
  if (order[made] === thread) show(order, made + 1);
  else show([...done, thread], made + 1);
}
// Puts a continuation after the turns that are made.
function follow(more) { show([...order.slice(0, made), ...more], made); }
function move(count) { show(order, Math.max(0, Math.min(order.length, count))); }

function drawSource(state) {
  const marks = new Map();
  for (const thread of model.all)
    if (model.runs(state, thread)) {
      const line = model.rest(state, thread).line;
      marks.set(line, [...(marks.get(line) || []), thread]);
    }
  element("lines").replaceChildren(...lines.map((text, index) => {
    const here = marks.get(index + 1) || [];
    return make("div", here.length ? "here" : "", make("i", "", String(index + 1)), make("span", "", text || " "),
      make("b", "", ...here.map(tag)));
  }));
}

function drawThreads(state) {
  element("threads").replaceChildren(...model.all.map(thread => {
    const it = button(listed(model.rest(state, thread)), () => play(thread), [tag(thread)]);
    const lacks = model.next(state, thread) === null;
    it.disabled = !model.runs(state, thread) || lacks;
    it.title = lacks ? "not on this page" : thread < 10 ? "key " + thread : "";
    return it;
  }));
  const back = button("\u2190 back", () => move(made - 1)), ahead = button("forward \u2192", () => move(made + 1));
  const start = button("start", () => move(0)), clear = button("clear", () => show([], 0));
  back.disabled = start.disabled = made === 0;
  ahead.disabled = made === order.length;
  clear.disabled = order.length === 0;
  element("moves").replaceChildren(back, ahead, start, clear);
}

function wordsOf(effects) {
  const words = [
    ...effects.reads.map(([name, value]) => "read " + name + " = " + value),
    ...effects.writes.map(([name, value, was]) => "wrote " + name + " = " + value + " (was " + was + ")"),
  ];
  if (effects.printed) words.push("printed " + JSON.stringify(effects.printed));
  if (effects.end) words.push(effects.end);
  return words.join(" \u00b7 ");
}

function drawLog(path) {
  element("turns").replaceChildren(...order.map((thread, index) => {
    const state = path[index], rest = model.rest(state, thread);
    const it = button(listed(rest), () => move(index + 1), [(index + 1) + " ", tag(thread)]);
    const words = wordsOf(model.effects(state, thread));
    if (words) it.append(make("small", "", words));
    it.style.borderLeftColor = COLORS[thread % COLORS.length];
    return make("li", index + 1 === made ? "now" : index >= made ? "ahead" : "", it);
  }));
  const now = document.querySelector("li.now");
  if (now && matchMedia("(min-width:641px)").matches) now.scrollIntoView({ block: "nearest" });
}

function drawMemory(state, before) {
  element("memory").replaceChildren(...data.cells.map((name, cell) => {
    const value = model.memory(state)[cell], was = model.memory(before)[cell];
    const changed = value !== was;
    return make("tr", changed ? "changed" : "", make("td", "", name),
      make("td", "", String(value), ...(changed ? [make("small", "", " (was " + was + ")")] : [])));
  }));
  element("ends").replaceChildren(...model.all.map(thread => {
    const rest = model.rest(state, thread);
    const where = rest.end ? rest.end : "at " + rest.line + ":" + rest.column;
    const it = make("p", "", tag(thread), where);
    if (rest.printed) it.append(make("pre", "", rest.printed));
    return it;
  }));
}

// A button that plays a shortest order to the first state found of which this holds; nothing if there is none.
function shortest({ found, led }, holds, text) {
  const to = found.find(holds);
  if (to === undefined) return null;
  const more = model.orderTo(led, to);
  return button(text + " (" + turns(more.length) + ")", () => follow(more));
}

function drawProperties(state) {
  const shown = [];
  for (const { name, values } of data.properties) {
    const is = values[state];
    const words = is === "1" ? " holds here" : is === "0" ? " fails here" : " takes too many ticks here";
    shown.push(make("p", is === "1" ? "good" : "bad", name + words));
  }
  if (!shown.length) shown.push(make("p", "dim", "none: see --always"));
  element("properties").replaceChildren(...shown);
}

function outcomeWords(state) {
  const ends = model.all.map(thread => model.rest(state, thread)).filter(rest => rest.end !== "ended" || rest.printed)
    .map(rest => rest.end + (rest.printed ? " " + JSON.stringify(rest.printed) : ""));
  return [...data.cells.map((name, cell) => name + " = " + model.memory(state)[cell]), ...ends].join(", ");
}

function drawFrom(state, search) {
  const shown = [];
  for (const { name, values } of data.properties) {
    if (values[state] !== "1") continue;
    shown.push(shortest(search, it => values[it] === "0", "Show how " + name + " fails")
      || shortest(search, it => values[it] === "?", "Show where " + name + " takes too many ticks")
      || (data.are_all
        ? make("p", "good", name + " holds in every state from here (" + search.found.length + ")") : ""));
  }
  if (!data.are_all) {
    element("from").replaceChildren(make("p", "", PART), ...shown);
    return;
  }
  if (!model.can[state]) shown.push(make("p", "bad", "Stuck: no order lets all threads end"));
  else shown.push(shortest(search, it => !model.can[it], "Show how it gets stuck")
    || make("p", "good", "Cannot get stuck from here"));
  const first = new Map();
  for (const it of search.found)
    if (model.isEnd(it) && !first.has(model.outcome(it))) first.set(model.outcome(it), it);
  shown.push(make("p", "", first.size + " of " + model.outcomes.size
    + (model.outcomes.size === 1 ? " outcome" : " outcomes") + " can be reached"));
  if (!model.isEnd(state))
    for (const it of [...first.values()].slice(0, MOST_SHOWN))
      shown.push(shortest(search, other => other === it, outcomeWords(it)));
  if (first.size > MOST_SHOWN) shown.push(make("p", "dim", "and " + (first.size - MOST_SHOWN) + " more"));
  element("from").replaceChildren(...shown);
}

function draw() {
  const path = model.path(order), state = path[made], search = model.search(state);
  const done = order.slice(0, made).join(",");
  element("command").textContent =
    "txc trace " + data.file + (data.options ? " " + data.options : "") + " --threads " + data.threads + " --order "
    + (done || "''");
  drawSource(state);
  drawThreads(state);
  drawLog(path);
  drawMemory(state, made ? path[made - 1] : state);
  drawProperties(state);
  drawFrom(state, search);
}

// The order and the number of turns that the address names, or those of `--order`.
function load() {
  const named = /^#order=([\d,]*)(?:&at=(\d+))?$/.exec(location.hash);
  const list = named ? named[1].split(",").filter(word => word).map(Number) : data.order;
  order = list.filter(thread => thread < data.threads);
  order = order.slice(0, model.path(order).length - 1);
  made = named && named[2] !== undefined ? Math.min(+named[2], order.length) : order.length;
  draw();
}

addEventListener("hashchange", load);
addEventListener("keydown", event => {
  if (event.ctrlKey || event.metaKey || event.altKey) return;
  if (event.key === "ArrowLeft") move(made - 1);
  else if (event.key === "ArrowRight") move(made + 1);
  else if (event.key === "Home") move(0);
  else if (event.key === "End") move(order.length);
  else if (/^\d$/.test(event.key) && +event.key < data.threads) {
    const state = model.path(order)[made];
    if (model.runs(state, +event.key) && model.next(state, +event.key) !== null) play(+event.key);
  } else return;
  event.preventDefault();
});
document.title = data.file + ": " + (data.are_all ? "every" : "one") + " order of " + data.threads + " threads";
element("title").textContent = data.file;
element("size").textContent = data.threads + " threads, " + data.states.length + " states"
  + (data.are_all ? "" : " of more");
load();
</script>
</html>
"##;
