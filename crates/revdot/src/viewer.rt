//! What is the same in every page: written by page/into-revdot from page/viewer.

/// What a page begins with.
pub const FIRST_PART: &str = "\
<!doctype html>
<html lang='en'>
<meta charset='utf-8'>
<meta name='viewport' content='width=device-width,initial-scale=1'>
<meta name='color-scheme' content='light dark'>
<meta http-equiv='Content-Security-Policy' content='default-src &#39;none&#39;; script-src &#39;unsafe-inline&#39;; style-src &#39;unsafe-inline&#39;'>
<title>revroute</title>
<style>
:root{--back:#fbfbf9;--panel:#fff;--ink:#1d2329;--soft:#5c6670;--edge:#d5d9dd;--link:#39434d;--hop:#1259b5;--turn:#b35c00;--gold:#ffd24d;
--grey:#828a92;--route:#0b7a4b;--face:#eef3f9;--bad:#a8261c;--push:#c4dcfb;--way:#7b2fa8}
@media (prefers-color-scheme:dark){:root{--back:#14181c;--panel:#1b2126;--ink:#e8ecef;--soft:#a0abb5;--edge:#343c44;--link:#d3dae0;--hop:#76b2ff;
--turn:#ffab4a;--gold:#7a5c00;--grey:#707b85;--route:#4fd39a;--face:#26303a;--bad:#ff8a80;--push:#1b477d;--way:#d5a3ff}}
*{box-sizing:border-box}
html{font:15px/1.45 system-ui,sans-serif;font-size:clamp(15px,min(1.05vw,1.86vh),60px);-webkit-text-size-adjust:100%;text-size-adjust:100%}
body{margin:0;background:var(--back);color:var(--ink);height:100vh;height:100dvh;overflow:hidden;display:grid;
grid-template:'head head' auto 'side net' minmax(0,1fr) 'side bar' auto 'foot foot' auto/22rem minmax(0,1fr)}
header{grid-area:head;padding:.4rem 1rem;border-bottom:1px solid var(--edge);display:flex;gap:.1rem 1.4rem;
align-items:center}
h1{font-size:1.05rem;line-height:1.3;margin:0;flex:none}
#say{margin:0;color:var(--soft);flex:1;min-width:0;line-height:1.3;min-height:2.8rem;max-height:30vh;overflow:auto;display:grid;
align-content:safe center}
aside{grid-area:side;border-right:1px solid var(--edge);background:var(--panel);display:flex;flex-direction:column;
min-height:0}
#list{list-style:none;margin:0;padding:.3rem;overflow:auto;flex:1 1 0;min-height:5rem}
#list button{display:grid;grid-template-columns:2.2em minmax(0,1fr) minmax(0,1fr);gap:0 .5em;align-items:baseline;
width:100%;text-align:left;border:0;border-radius:6px;background:none;color:inherit;padding:.2rem .5rem;font:inherit;
white-space:nowrap;cursor:pointer}
#list button>*{overflow:hidden;text-overflow:ellipsis}
#list button:hover{background:var(--face)}
#list button[aria-current]{background:var(--face);box-shadow:inset 3px 0 var(--hop)}
#list b{color:var(--soft);font-weight:400}
#list code{font-size:.85em}
#list .no{color:var(--bad)}
#list small{grid-column:2/4;white-space:normal;line-height:1.3}
#list.long small{display:none}#list.long button{grid-template-columns:3.6em minmax(0,1fr) minmax(0,1fr)}
#about{border-top:1px solid var(--edge);padding:.6rem .9rem;overflow:auto;flex:0 1 auto}
#about p{margin:0 0 .4rem;overflow-wrap:anywhere}
#about p:empty{margin:0}
#request,#answer{max-height:7rem;overflow:auto;font-family:ui-monospace,monospace;font-size:.9em}
#chart{width:100%;aspect-ratio:4;max-height:6rem;display:block}
#ring{display:block;margin:auto;max-width:100%}
main{grid-area:net;position:relative;min-height:0;min-width:0;overflow:hidden}
#net{display:block;width:100%;height:100%;touch-action:none;user-select:none;-webkit-user-select:none;cursor:grab}
#net.moved{cursor:grabbing}
#none{color:var(--soft);max-width:34rem;padding:1rem;margin:2rem auto;text-align:center}
#zoom{position:absolute;top:.5rem;right:.5rem;display:flex;flex-direction:column;gap:.3rem}
button,select{font:inherit;line-height:1.3;color:inherit;background:var(--face);border:1px solid var(--edge);border-radius:6px;
padding:.25rem .6rem;cursor:pointer}
#zoom button{width:2.4rem;padding:.2rem 0;text-align:center}
#bar{grid-area:bar;display:flex;gap:.4rem .6rem;align-items:center;padding:.45rem 1rem;border-top:1px solid var(--edge);
flex-wrap:wrap;background:var(--panel)}
#bar button{min-width:2.6rem}
#play{min-width:4.2rem}
#slide{flex:1 1 5rem;min-width:5rem;accent-color:var(--hop)}
#at{color:var(--soft);text-align:right;font-variant-numeric:tabular-nums;white-space:nowrap}
footer{grid-area:foot;border-top:1px solid var(--edge);padding:.3rem 1rem;color:var(--soft);font-size:.87rem;
position:relative}
summary{cursor:pointer;width:max-content}
#keysopen{position:absolute;right:1rem;top:.15rem;padding:.05rem .6rem;font-size:.95em;background:none}
#below p{margin:0 0 .2rem}
dialog{width:min(40rem,92vw);max-height:calc(100dvh - 2rem);border:1px solid var(--edge);border-radius:10px;
background:var(--panel);color:inherit;padding:1rem}
dialog::backdrop{background:#0007}
dialog p{margin:0 0 .6rem}
dialog menu{margin:.7rem 0 0;padding:0;display:flex;gap:.5rem;flex-wrap:wrap;justify-content:flex-end}
#keybox table{border-collapse:collapse;width:100%}
#keybox th,#keybox td{text-align:left;vertical-align:top;padding:.15rem .6rem .15rem 0;font-weight:400}
#keybox tr+tr>*{border-top:1px solid var(--edge)}
#keybox tbody th[colspan]{font-weight:600;padding-top:.6rem}
#keybox tr>th:first-child:not([colspan]){white-space:nowrap}
kbd{font:.9em ui-monospace,monospace;border:1px solid var(--edge);border-radius:4px;padding:0 .3em;background:var(--face)}
#legend{list-style:none;margin:.2rem 0 .3rem;padding:0;display:flex;flex-wrap:wrap;gap:.1rem 1.1rem;color:var(--ink)}
#legend li{display:flex;align-items:center;gap:.35rem}
#legend svg{flex:none}
#legend .node{cursor:auto}
:focus-visible{outline:2px solid var(--hop);outline-offset:2px}
[hidden]{display:none!important}
.link path{stroke:var(--link);stroke-width:1.3;fill:none}
.link .tip{fill:var(--link);stroke:none}
.link.hop path{stroke:var(--hop);stroke-width:3.2}
.link.hop .tip{fill:var(--hop);stroke:none}
.link.old path{stroke-dasharray:2 4}
.link.first path{stroke:var(--way);stroke-width:3.8}
.link.other path{stroke:var(--way);stroke-width:1.1}
.link:is(.first,.other) .tip{fill:var(--way);stroke:none}
.link.next .tip{fill:var(--back);stroke:var(--way);stroke-width:1.6}
.link.out path{stroke:var(--grey)}
.link.out .tip{fill:var(--grey);stroke:none}
.link.now path{stroke:var(--turn);stroke-width:2.6}
.link.now .tip{fill:var(--turn);stroke:none}
.link.way path{stroke:var(--route);stroke-width:4.2}
.link.way .tip{fill:var(--route);stroke:none}
.link.next.way .tip{fill:var(--back);stroke:var(--route);stroke-width:1.6}
.link.closed path{stroke:var(--bad);stroke-width:4.6;stroke-dasharray:14 3 3 3}
.link.closed .tip{fill:var(--bad);stroke:none}
.link.asked path{stroke-dasharray:7 5}
.node{cursor:pointer;outline:none}
.node .face{fill:var(--panel);stroke:var(--ink);stroke-width:1.5}
.node text{text-anchor:middle;fill:var(--ink);font:600 13px system-ui,sans-serif}
.node .count{font:400 11px system-ui,sans-serif}
.node .name{font:400 12px system-ui,sans-serif;paint-order:stroke;stroke:var(--back);stroke-width:3px;stroke-linejoin:round;pointer-events:none}
.small .count{display:none}
.small .node text{font-size:17px;transform:translateY(6px)}
.small .node .name{font-size:15px}
.node .ring{fill:none;stroke:none}
.node.home .ring{stroke:var(--ink);stroke-width:1.5}
.node.out .face{stroke:var(--grey)}
.node.out text{fill:var(--soft)}
.node.now .face{fill:var(--gold);stroke:var(--turn);stroke-width:2.6}
.node.new .ring{stroke:var(--hop);stroke-width:1.6;stroke-dasharray:3 3}
.node.push .face{fill:var(--push);stroke:var(--hop);stroke-width:2.6}
.node.way .face{stroke:var(--route);stroke-width:3}
.node.pick .face{stroke-width:3.4}
.node:focus-visible .ring{stroke:var(--hop);stroke-width:3}
#chart path{fill:none;stroke:var(--hop);stroke-width:1.5}
#chart line{stroke:var(--turn);stroke-width:1}
#chart text{fill:var(--soft);font:10px system-ui,sans-serif}
@media (max-height:800px),(max-width:760px){#below{position:absolute;left:0;width:22rem;bottom:100%;max-height:70vh;overflow:auto;
padding:.6rem 1rem;background:var(--panel);border:solid var(--edge);border-width:1px 1px 0 0;z-index:1}}
@media (max-height:500px),(max-width:1100px){#bar label span{display:none}}
@media (max-width:1100px){#say{min-height:4rem}}
@media (max-height:500px),(max-width:760px) and (orientation:portrait){aside{overflow:auto}#about{flex:none;overflow:visible}}
@media (max-height:500px){html{font-size:13px}#below{width:17rem}#say{min-height:2.8rem}body{grid-template-columns:17rem minmax(0,1fr)}header{padding:.1rem .8rem}
h1{max-width:11rem}#bar{padding:.2rem .8rem}#zoom{top:.3rem;right:.3rem}button,select{padding:.15rem .45rem}
footer{padding:.15rem .8rem}}
@media (max-width:760px) and (orientation:portrait){html{font-size:14px}#below{width:auto;right:0;border-width:1px 0 0;max-height:36vh}
body{grid-template:'head' auto 'net' minmax(0,1fr) 'bar' auto 'side' 36vh 'foot' auto/minmax(0,1fr)}
header{display:block;padding:.4rem .8rem}h1{white-space:nowrap;overflow:hidden;text-overflow:ellipsis}
#say{align-content:start}aside{border:0;border-top:1px solid var(--edge)}#list{min-height:3.4rem}#request,#answer{max-height:2.9em}
#bar{padding:.4rem .8rem;gap:.35rem}#bar button{min-width:2.3rem;padding:.25rem .4rem}#bar #play{min-width:3.6rem}
#bar select{padding:.25rem .1rem}#slide,#bar label:nth-last-child(-n+2){order:1}#slide{flex-basis:15%}#at{flex:1}}
</style>
<header><h1 id='title'>revroute</h1><p id='say' role='status' aria-live='polite'></p></header>
<aside aria-label='Requests'>
<ol id='list' aria-label='Requests and their answers'></ol>
<div id='about'>
<p id='request' tabindex='0' aria-label='What this line asks'></p><p id='answer' tabindex='0' aria-label='The answer to this line'></p><p id='more'></p>
<svg id='ring' role='img' hidden></svg><p id='changed'></p>
<p id='picked'>Choose a node to see its route and its count over time.</p><p id='route'></p>
<svg id='chart' role='img' hidden></svg>
</div>
</aside>
<main aria-label='The network'><svg id='net' role='group' hidden></svg><p id='none' hidden></p>
<div id='zoom' role='group' aria-label='Size of the drawing'>
<button id='larger' aria-label='Larger'>+</button>
<button id='smaller' aria-label='Smaller'>&#8722;</button><button id='whole'>Fit</button></div></main>
<div id='bar' role='group' aria-label='Steps'>
<button id='back' aria-label='One step back'>&#9664;</button><button id='play'>Play</button><button id='next' aria-label='One step on'>&#9654;</button>
<input id='slide' type='range' min='0' value='0' aria-label='Step'><span id='at'></span>
<label><span>Speed </span><select id='speed' aria-label='Speed' title='Speed'>
<option value='1600'>slow</option><option value='800' selected>normal</option>
<option value='300'>fast</option><option value='60'>very fast</option></select></label>
<label><span>Pushes </span><select id='order' aria-label='Pushes' title='The order of the pushes'>
<option value='push' selected>in push order</option><option value='rising'>by rising number</option></select></label>
<label><span>Bold </span><select id='lines' aria-label='Bold lines' title='What bold lines lead to'>
<option value='hops' selected>next hops</option><option value='ways'>first ways</option></select></label>
</div>
<footer><details id='fold'><summary>Legend, and what is proved</summary>
<div id='below' tabindex='0' role='group' aria-label='Legend, and what is proved'>
<ul id='legend' aria-label='What is drawn'>
<li><svg width='26' height='26' aria-hidden='true'><g class='node home' transform='translate(13 13)'><circle r='12' class='ring'/><circle r='9.5' class='face'/></g></svg>the destination</li>
<li><svg width='38' height='26' aria-hidden='true'><g class='link hop'><path d='M2 13H28'/><path class='tip' d='M36 13L27 8.4V17.6Z'/></g></svg>to the next hop</li>
<li><svg width='38' height='26' aria-hidden='true'><g class='link first'><path d='M2 13H28'/><path class='tip' d='M36 13L27 8.4V17.6Z'/></g></svg>to the first way, which is the nearest</li>
<li><svg width='38' height='26' aria-hidden='true'><g class='link other'><path d='M2 13H28'/><path class='tip' d='M36 13L27 8.4V17.6Z'/></g></svg>to another way</li>
<li><svg width='38' height='26' aria-hidden='true'><g class='link other next'><path d='M2 13H28'/><path class='tip' d='M36 13L27 8.4V17.6Z'/></g></svg>a hollow head: to the next hop, where ways are shown</li>
<li><svg width='38' height='26' aria-hidden='true'><g class='link'><path d='M2 13H28'/><path class='tip' d='M36 13L27 8.4V17.6Z'/></g></svg>another link</li>
<li><svg width='64' height='26' aria-hidden='true'><g class='node now' transform='translate(13 13)'><circle r='12' class='ring'/><circle r='9.5' class='face'/></g><g class='link now'><path d='M28 13H54'/><path class='tip' d='M62 13L53 8.4V17.6Z'/></g></svg>turns next</li>
<li><svg width='64' height='26' aria-hidden='true'><g class='node out' transform='translate(13 13)'><circle r='12' class='ring'/><circle r='9.5' class='face'/></g><g class='link out'><path d='M28 13H54'/><path class='tip' d='M62 13L53 8.4V17.6Z'/></g></svg>cut off</li>
<li><svg width='26' height='26' aria-hidden='true'><g class='node new' transform='translate(13 13)'><circle r='12' class='ring'/><circle r='9.5' class='face'/></g></svg>has a new next hop</li>
<li><svg width='26' height='26' aria-hidden='true'><g class='node push' transform='translate(13 13)'>
<circle r='12' class='ring'/><circle r='9.5' class='face'/></g></svg>gets its next hop now</li>
<li><svg width='38' height='26' aria-hidden='true'><g class='link hop old'><path d='M2 13H28'/>
<path class='tip' d='M36 13L27 8.4V17.6Z'/></g></svg>to an old next hop</li>
<li><svg width='64' height='26' aria-hidden='true'><g class='node way' transform='translate(13 13)'><circle r='12' class='ring'/><circle r='9.5' class='face'/></g><g class='link way'><path d='M28 13H54'/><path class='tip' d='M62 13L53 8.4V17.6Z'/></g></svg>a route</li>
<li><svg width='38' height='26' aria-hidden='true'><g class='link closed'><path d='M2 13H28'/>
<path class='tip' d='M36 13L27 8.4V17.6Z'/></g></svg>a cycle that was refused, or a loop in the tables</li>
<li><svg width='38' height='26' aria-hidden='true'><g class='link closed asked'><path d='M2 13H28'/><path class='tip' d='M36 13L27 8.4V17.6Z'/></g></svg>its link that was asked for</li>
<li>below a number, if the drawing is large enough: how often the node has turned</li>
</ul>
<p id='proof'><b>Proved:</b> the data of this page: each request, answer, link, turn, count, next hop, push and way.
<b>Not proved:</b> the drawing. A script in this page makes it, and is tested in a browser.</p>
</div></details><button id='keysopen' title='Keys (?)'>Keys</button></footer>
<dialog id='keybox' aria-label='Keys'>
<p><label><input id='letters' type='checkbox' checked> Keys that are letters, digits or signs. Without them, Tab goes to each node.</label></p>
<table id='keytable'>
<tbody><tr><th colspan='2' scope='rowgroup'>Steps</th></tr>
<tr class='steps'><th scope='row'><kbd>&#8592;</kbd> <kbd>&#8594;</kbd></th><td>one step back, one step on</td></tr>
<tr class='steps'><th scope='row'><kbd>&#8593;</kbd> <kbd>&#8595;</kbd></th><td>the line before, the next line</td></tr>
<tr class='steps'><th scope='row'><kbd>Home</kbd> <kbd>End</kbd></th><td>the first step, the last step</td></tr>
<tr class='steps'><th scope='row'><kbd>Space</kbd></th><td>play, pause</td></tr>
<tr class='steps'><th scope='row'><kbd>w</kbd></th><td>next hops, or ways</td></tr>
<tr class='steps'><th scope='row'><kbd>r</kbd></th><td>pushes by rising number, or in push order</td></tr>
<tr><th scope='row'><kbd>n</kbd> <kbd>p</kbd></th><td>the next node, the node before</td></tr>
<tr><th scope='row'><kbd>Esc</kbd></th><td>no node is chosen</td></tr></tbody>
<tbody><tr><th colspan='2' scope='rowgroup'>The drawing</th></tr>
<tr><th scope='row'><kbd>+</kbd> <kbd>-</kbd></th><td>larger, smaller</td></tr>
<tr><th scope='row'><kbd>0</kbd> <kbd>f</kbd></th><td>fit it into the page</td></tr>
<tr><th scope='row'><kbd>Shift</kbd> and an arrow</th><td>move it</td></tr>
<tr><th scope='row'><kbd>?</kbd></th><td>this table</td></tr></tbody>
</table>
<form method='dialog'><menu><button>Close</button></menu></form></dialog>
<script type='text/plain' id='story'>
";

/// What a page ends with.
pub const LAST_PART: &str = "\
</script>
<script>
const viewer = (() => {
'use strict';
// What all parts of the viewer use.

const by = id => document.getElementById(id), SVG = 'http://www.w3.org/2000/svg', NL = String.fromCharCode(10),
      BLANK = String.fromCharCode(160), ARROW = BLANK + String.fromCharCode(8594) + BLANK,
      ELLIPSIS = String.fromCharCode(8230);
const isLab = document.querySelector('meta[name=lab]') !== null;

function make(parent, name, attributes) {
  const element = document.createElementNS(SVG, name);
  for (const key in attributes) element.setAttribute(key, attributes[key]);
  parent.append(element);
  return element;
}

// Sets attributes, and touches only what changes.
function mark(element, attributes) {
  for (const key in attributes) {
    const value = attributes[key];
    if (value === null) {
      if (element.hasAttribute(key)) element.removeAttribute(key);
    } else if (element.getAttribute(key) !== String(value)) element.setAttribute(key, value);
  }
}
// What a page knows beside its story. In a page of the lab this is the text with requests, one a line; blank lines and
// comments are none. In a page of revdot it is comments alone, which its story has percent-encoded. Comments may say
// where nodes are and what they are called: for the place of a request from which on a network is laid out, the places
// of its nodes, and the names of those that have one.

const PLACES = '# places ', NAMES = '# names ';

const isRequest = line => !/^[ \\t\\r]*(#|$)/.test(line);
const isPlace = at => Array.isArray(at) && at.length === 2 && at.every(Number.isFinite);
const arePlaces = nodes => Array.isArray(nodes) && nodes.every(isPlace);
const areNames = nodes => nodes !== null && typeof nodes === 'object' && !Array.isArray(nodes) &&
    Object.entries(nodes).every(([node, name]) => /^[0-9]{1,4}$/.test(node) && typeof name === 'string');

// What the last comment of a kind says, where it is what it must be.
function commentIn(lines, kind, isGood) {
  const comment = lines.findLast(line => line.startsWith(kind));
  if (!comment) return {};
  try {
    return Object.fromEntries(Object.entries(JSON.parse(comment.slice(kind.length))).filter(([, it]) => isGood(it)));
  } catch { return {}; }
}

function readText(text) {
  const all = text.split(NL);
  return {
    lines: all.filter(isRequest),
    places: commentIn(all, PLACES, arePlaces),
    names: commentIn(all, NAMES, areNames)
  };
}

function textOf(lines, places, names) {
  const comment = (kind, said) => Object.keys(said).length ? [kind + JSON.stringify(said)] : [];
  return [...lines, ...comment(PLACES, places), ...comment(NAMES, names)].map(line => line + NL).join('');
}

// The comments of a story. One that is no text is left out.
function commentsOf(story) {
  return [...story.matchAll(/^#.*/gm)].map(([comment]) => {
    try {
      return decodeURIComponent(comment);
    } catch { return ''; }
  });
}

const givenText = by('given') ? JSON.parse(by('given').textContent) : commentsOf(by('story').textContent).join(NL),
      given = readText(givenText);

// The places and the names of the nodes of a drawing, if they are known.
const placesIn = (places, view) =>
    places[view.first] && places[view.first].length === view.nodes ? places[view.first] : null;
const namesIn = (names, view) => names[view.first] ?? {};
// The story of a page, read: its lines, their requests and answers, and what each round changed.

// What is wrong with a line that is refused, by the number of the refusal. The engine names the nodes.
const faults = {
  1: () => 'the line is no JSON, or nests too deep',
  2: () => 'the value is no request',
  3: () => 'there is no network yet',
  4: node => node + ' is not a node',
  5: node => 'a link joins node ' + node + ' with itself',
  6: (u, v) => 'a second link would join ' + u + ' and ' + v,
  7: () => 'the links would contain a cycle',
  8: (u, v) => 'there is no link between ' + u + ' and ' + v,
  9: () => 'more nodes, links or edits than the limits'
};
const roundLines = new Set(['turns', 'gone', 'new', 'counted', 'listed', 'links', 'counts', 'hops', 'ways', 'pushes']);
const listed = (text, item) => text.split(' ').slice(1).map(item);
const linkOf = word => word.split('>').map(Number);
const hopIn = word => {
  const [node, hop] = word.split(':');
  return [Number(node), hop];
};

// A node and its ways, as 3:1:2; and the ways of one node in an answer, as 1,2.
const numbersIn = word => word.split(':').map(Number);
const waysIn = word => word === 'here' || word === 'cut' ? [] : word.split(',').map(Number);

// How many items a line has after its first word.
function itemsIn(line) {
  let items = 0;
  for (let at = line.indexOf(' '); at >= 0; at = line.indexOf(' ', at + 1)) items++;
  return items;
}

const stepsOf = walk => new Set(walk.slice(1).map((node, at) => walk[at] + '>' + node));
const short = text => text.length > 300 ? text.slice(0, 300) + ' ..' : text;

// A number for two nodes, in either order.
const WIDTH = 65536, keyOf = (a, b) => a < b ? a * WIDTH + b : b * WIDTH + a;

// A round of the story. Its lines are read when they are needed: the story may have thousands of rounds.
class Round {
  constructor([nodes, home], before, block) {
    Object.assign(this, {nodes, home, before, block, drawn: true, said: {}, view: null, kept: null});
  }
  get turns() { return this.listed ??= listed(this.said.turns, Number); }
  get turned() { return itemsIn(this.said.turns); }
  // All turns of the round, also those that the story leaves out.
  get total() { return Number(this.block.answer.split(' ')[1]); }
  get pushes() { return listed(this.said.pushes, word => hopIn(word)[0]); }
  get pushed() { return itemsIn(this.said.pushes); }
  get gone() { return listed(this.said.gone, linkOf); }
  get fresh() { return listed(this.said.new, linkOf); }
  get isWhole() { return this.said.links !== undefined; }
  // The links, counts, hops and ways after the round.
  get links() { return settled(this).links; }
  get counts() { return settled(this).counts; }
  get hops() { return settled(this).hops; }
  get ways() { return settled(this).ways; }
  // The links before the round: a link points as it did if its ends turned equally often.
  get first() { return this.links.map(([a, b]) => this.counts[a] === this.counts[b] ? [a, b] : [b, a]); }
}

// The states of the rounds that were needed last.
const keeping = [], MOST_KEPT = 8;

function keep(round, state) {
  const sorted = [...state.links.values()].sort((a, b) => a[0] - b[0] || a[1] - b[1]);
  round.kept = {links: sorted, counts: state.counts.slice(), hops: state.hops.slice(), ways: state.ways.slice()};
  keeping.push(round);
  if (keeping.length > MOST_KEPT) keeping.shift().kept = null;
  return round.kept;
}

const byKey = links => new Map(links.map(link => [keyOf(...link), link]));

// The state after a round: the last whole state before it, and what each round since then changed.
function settled(round) {
  if (round.kept) return round.kept;
  const later = [];
  let from = round;
  for (; !from.kept && !from.isWhole; from = from.before) later.push(from);
  const {links, counts, hops, ways} = from.kept ?? wholeState(from);
  const state = {links: byKey(links), counts: counts.slice(), hops: hops.slice(), ways: ways.slice()};
  while (later.length) change(state, later.pop());
  return keep(round, state);
}

const wholeState = ({said}) => ({
  links: listed(said.links, linkOf),
  counts: listed(said.counts, Number),
  hops: listed(said.hops, String),
  ways: listed(said.ways, waysIn)
});

function change(state, round) {
  for (const link of round.gone) state.links.delete(keyOf(...link));
  for (const link of round.fresh) state.links.set(keyOf(...link), link);
  state.counts.fill(0);
  for (const [node, count] of listed(round.said.counted, hopIn)) state.counts[node] = Number(count);
  for (const [node, hop] of listed(round.said.pushes, hopIn)) state.hops[node] = hop;
  for (const [node, ...ways] of listed(round.said.listed, numbersIn)) state.ways[node] = ways;
}

// The story, read: a block for each line of the input; a round has what its block says, and a question the round before
// it.
function readStory(text, before) {
  const blocks = [];
  let block = null;
  for (const line of text.split(NL)) {
    const name = line.split(' ', 1)[0];
    if (name === 'line') {
      block = {line: Number(line.slice(5)), answer: null, round: before, own: false, asks: null};
      blocks.push(block);
    } else if (!block) continue;
    else if (block.answer === null) block.answer = line;
    else if (name === 'asks') block.asks = line.slice(5);
    else if (name === 'refusal') block.refusal = JSON.parse(line.slice(8));
    else if (name === 'net') {
      before = block.round = new Round(listed(line, Number), before, block);
      block.own = true;
    } else if (name === 'omitted') block.round.drawn = false;
    else if (roundLines.has(name)) block.round.said[name] = line;
  }
  return blocks;
}

// Why a line was refused, in words. A line that is no request has a number only.
function faultOf({answer, refusal, asks}) {
  if (!answer.startsWith('refused ')) return null;
  if (!refusal) return faults[answer.slice(8)]();
  if (asks === 'pushes' && refusal.refused === 7) return 'the wanted table has a loop';
  const edit = refusal.edit === undefined ? '' : JSON.stringify(editsOf(asks.split(' ').slice(1))[refusal.edit]) + ': ';
  return edit + faults[refusal.refused](...refusal.nodes);
}

// The cycle that the engine names for a line that is refused for one, and no nodes for any other line.
const cycleOf = ({refusal}) => refusal && refusal.refused === 7 ? refusal.nodes : [];

// What a line asks, as a line, or why nobody knows: one that is no request has no words here.
function requestOf(block) {
  if (!block.asks) return block.answer === 'refused 1' ? 'no JSON' : 'no request';
  const [name, ...words] = block.asks.split(' ');
  if (name === 'net') return JSON.stringify([name, Number(words[0]), Number(words[1]), words.slice(2).map(linkOf)]);
  return JSON.stringify(name === 'batch' ? [name, editsOf(words)] : [name, ...words.map(Number)]);
}

// The edits of a batch, each by a name and two numbers.
function editsOf(words) {
  const edits = [];
  for (let place = 0; place < words.length; place += 3)
    edits.push([words[place], Number(words[place + 1]), Number(words[place + 2])]);
  return edits;
}
// The steps of a page: the lines, their turns and pushes, and the tables of routers after each.

let blocks = [], starts = [], steps = 0, now = 0, picked = null, shown = null, timer = null;

// Keeps so many lines, and puts those of a story after them.
function load(kept, text) {
  blocks.length = kept;
  const last = kept ? blocks[kept - 1].round : null;
  blocks.push(...readStory(text, last));
  layOut(kept);
  starts = [];
  steps = 0;
  chart = null;
  for (const block of blocks) {
    starts.push(steps);
    steps += stepsIn(block);
  }
  by('slide').max = Math.max(0, steps - 1);
  // Its width stays the same, so that the bar and the drawing beside it do.
  by('at').style.minWidth = 2 * String(steps).length + 3 + 'ch';
  list(kept);
}

// The pushes of a round: in push order, or for teaching by rising number.
const isRising = () => by('order').value === 'rising';
const pushesOf = round => isRising() ? [...round.pushes].sort((a, b) => a - b) : round.pushes;

function chooseOrder(name) {
  by('order').value = name;
  show(now);
}

// How many steps a line has: a round has one before each turn, one after them, and one for each push.
function stepsIn(block) {
  const round = block.round;
  return block.own && round.drawn ? round.turned + 1 + (isTableKnown(round) ? round.pushed : 0) : 1;
}

function blockAt(step) {
  let low = 0, high = blocks.length;
  while (high - low > 1) {
    const mid = (low + high) >> 1;
    if (starts[mid] <= step) low = mid;
    else high = mid;
  }
  return low;
}

// A round after some of its turns. A link points as at first where both its ends have turned equally often, and else
// the other way. After all turns that the story has, the round has settled, and the hops are those of the tables after
// so many pushes.
function stateOf(round, turn, push) {
  if (turn === round.turned) {
    const hops = push ? tableAfter(round, push) : round.hops, node = push ? pushesOf(round)[push - 1] : null;
    return {links: round.links, counts: round.counts, sink: null, hops, push, node, loop: push ? loopIn(hops) : []};
  }
  const counts = Array(round.nodes).fill(0);
  for (let k = 0; k < turn; k++) counts[round.turns[k]]++;
  const links = round.first.map(([tail, head]) => counts[tail] === counts[head] ? [tail, head] : [head, tail]);
  return {links, counts, sink: round.turns[turn], hops: null, push: 0, node: null, loop: []};
}

// The routers' tables before the first push, or null where they are not known. They have a hop for each node of this
// network and of the one before it. A node that is not in a network has no hop there.
const isTableKnown = round => !round.before || round.before.drawn;

function tableBefore(round) {
  const before = round.before;
  if (!isTableKnown(round)) return null;
  const nodes = Math.max(round.nodes, before ? before.nodes : 0);
  return Array.from({length: nodes}, (_, node) => before && before.hops[node] || 'cut');
}

function tableAfter(round, pushed) {
  const table = tableBefore(round);
  for (const node of pushesOf(round).slice(0, pushed)) table[node] = hopAfter(round, node);
  return table;
}

const hopAfter = (round, node) => round.hops[node] || 'cut';
const nextIn = (table, node) => table[node] === 'here' || table[node] === 'cut' ? null : Number(table[node]);

// A loop of a table, from a node back to itself, or no nodes. Each hop is followed once.
function loopIn(table) {
  const from = [];
  for (const start of table.keys()) {
    let node = start;
    while (node !== null && from[node] === undefined) {
      from[node] = start;
      node = nextIn(table, node);
    }
    if (node === null || from[node] !== start) continue;
    const loop = [node];
    do loop.push(nextIn(table, loop.at(-1)));
    while (loop.at(-1) !== node);
    return loop;
  }
  return [];
}

function routeOf(table, node) {
  const route = [node];
  while (route.length <= table.length && nextIn(table, route.at(-1)) !== null) route.push(nextIn(table, route.at(-1)));
  return route;
}

// The nodes whose next hop this round changed, in push order; those of a new network are no news.
function changedHops(round) {
  return round.before && round.before.drawn && round.before.nodes === round.nodes ? round.pushes : [];
}

function routeShown(block, state, ways) {
  const walked = acts.packet();
  if (!state.hops) return [];
  if (walked) return walked;
  if (/^(walk|nearest) /.test(block.answer))
    return block.answer.split(' ').slice(1).filter(word => word !== 'cut').map(Number);
  if (picked === null || picked >= block.round.nodes) return [];
  return ways ? walkOf(ways, picked) : routeOf(state.hops, picked);
}

// The hops of a table between nodes of the network, as steps.
function hopsIn(table, nodes) {
  const hops = new Set();
  for (const node of table.keys()) {
    const next = nextIn(table, node);
    if (next !== null && node < nodes && next < nodes) hops.add(node + '>' + next);
  }
  return hops;
}
// The ways of nodes: the nodes to which the links of a settled network point, nearest first. The page shows them if a
// reader asks for them.

const isOfWays = () => by('lines').value === 'ways';

// The ways that packets can take at a step, or null where the page shows next hops: within a round, and while hops are
// pushed, it always does. In the lab some ways may have failed; then it has the ways as the engine answers them.
function waysShown(round, state) {
  if (!state.hops || state.push || !isOfWays()) return null;
  return (acts.ways() ?? round.ways).map((list, node) => list.filter(way => !acts.hasFailed(node, way)));
}

// From a node along the first way of each.
function walkOf(ways, node) {
  const walk = [node];
  while (ways[walk.at(-1)].length) walk.push(ways[walk.at(-1)][0]);
  return walk;
}

function chooseLines(name) {
  by('lines').value = name;
  show(now);
}
// Where nodes are, and how links go round them.

// Rounds that share a node number and most links are of one network: it is laid out once, as its last round leaves it.
function layOut(from) {
  let view = null;
  for (const [at, {own, round}] of blocks.entries()) {
    if (!own || !round.drawn) continue;
    if (at < from) {
      view = Object.assign(round.view, {round, pairs: null});
      continue;
    }
    const pairs = view && (view.pairs ??= new Set(byKey(view.round.links).keys())),
          share = pairs && sharedPairs(pairs, round);
    if (!view || view.nodes !== round.nodes || 2 * share.both < Math.min(share.before, share.pairs.size)) {
      view = {
        nodes: round.nodes,
        first: at,
        all: new Set(share ? share.pairs : byKey(round.links).keys()),
        shapes: new Map(),
        group: null
      };
      view.pairs = new Set(view.all);
    } else {
      view.pairs = share.pairs;
      for (const key of share.fresh) view.all.add(key);
    }
    view.round = round;
    round.view = view;
  }
}

// The pairs of nodes that are joined after a round, with those that are new, and how many were there before it and how
// many stayed.
function sharedPairs(pairs, round) {
  const before = pairs.size;
  if (round.said.gone === undefined) {
    const fresh = [...byKey(round.links).keys()];
    return {pairs: new Set(fresh), fresh, before, both: fresh.filter(key => pairs.has(key)).length};
  }
  const keysOf = line => listed(line, word => keyOf(...linkOf(word))), gone = keysOf(round.said.gone),
        fresh = keysOf(round.said.new);
  for (const key of gone) pairs.delete(key);
  for (const key of fresh) pairs.add(key);
  return {pairs, fresh, before, both: before - gone.length};
}

// Parts of a network, each a list of nodes: that of the destination first, then by size.
function partsOf(round) {
  const near = Array.from({length: round.nodes}, () => []), part = Array(round.nodes).fill(-1), parts = [];
  for (const [a, b] of round.links) {
    near[a].push(b);
    near[b].push(a);
  }
  for (const start of [round.home, ...near.keys()]) {
    if (part[start] >= 0) continue;
    const nodes = [start];
    part[start] = parts.length;
    for (const node of nodes)
      for (const other of near[node])
        if (part[other] < 0) {
          part[other] = parts.length;
          nodes.push(other);
        }
    parts.push(nodes);
  }
  return {near, parts: [parts[0], ...parts.slice(1).sort((a, b) => b.length - a.length)]};
}

// The layer of each node: the longest way down along the links.
function layersOf(round) {
  const layer = Array(round.nodes).fill(0), left = Array(round.nodes).fill(0), tails = layer.map(() => []);
  for (const [tail, head] of round.links) {
    left[tail]++;
    tails[head].push(tail);
  }
  const ready = [...left.keys()].filter(node => !left[node]);
  for (const node of ready)
    for (const tail of tails[node]) {
      layer[tail] = Math.max(layer[tail], layer[node] + 1);
      if (!--left[tail]) ready.push(tail);
    }
  return layer;
}

// Places in a row that keep their order and distance, as near as can be to those wished for: neighbours that meet move
// as one.
function spread(wishes, gap) {
  const groups = [];
  wishes.forEach((wish, at) => {
    let group = {sum: wish - at * gap, size: 1};
    while (groups.length && groups.at(-1).sum / groups.at(-1).size >= group.sum / group.size) {
      const last = groups.pop();
      group = {sum: last.sum + group.sum, size: last.size + group.size};
    }
    groups.push(group);
  });
  const places = [];
  for (const group of groups)
    for (let i = 0; i < group.size; i++) places.push(group.sum / group.size + places.length * gap);
  return places;
}

// Each row in turn is ordered by the middle of the nodes that its nodes are joined with.
function placePart(nodes, near, layer, gap) {
  const rows = [], x = new Map(nodes.map(node => [node, 0]));
  for (const node of nodes) (rows[layer[node]] ||= []).push(node);
  const settle = row => spread(row.map(node => x.get(node)), gap).forEach((place, at) => x.set(row[at], place));
  rows.forEach(settle);
  for (let pass = 0; pass < 24; pass++)
    for (const row of pass % 2 ? rows : rows.slice().reverse()) {
      for (const node of row) {
        const others = near[node].map(other => x.get(other));
        if (others.length) x.set(node, others.reduce((sum, place) => sum + place, 0) / others.length + node * 1e-6);
      }
      row.sort((a, b) => x.get(a) - x.get(b));
      settle(row);
    }
  return x;
}

// Places from 0 on, before they are stretched: the destination of the first part is below its other nodes.
function placesOf(view) {
  const {near, parts} = partsOf(view.round), layer = layersOf(view.round), place = [];
  const [across, down] = view.nodes > 60 ? [48, 54] : [62, 66];
  const height = Math.max(...layer);
  let left = 0, alone = 0;
  for (const nodes of parts) {
    const single = nodes.length === 1 && nodes[0] !== view.round.home;
    const x = single ? new Map([[nodes[0], 0]]) : placePart(nodes, near, layer, across);
    const least = Math.min(...x.values()), most = Math.max(...x.values()), tall = Math.max(4, height + 1);
    const row = single ? alone++ % tall : 0;
    if (single && row === 0 && alone > 1) left += across;
    const bottom = Math.max(height, single ? Math.min(alone, tall) - 1 : 0);
    for (const node of nodes) place[node] = [left + x.get(node) - least, (bottom - layer[node] - row) * down];
    if (!single) left += most - least + across * 1.3;
  }
  const lowest = Math.min(...place.map(at => at[1]));
  for (const at of place) at[1] -= lowest;
  return place;
}

// The rows of a drawing that lies on its side, cut into so many strips: one below the other, each beginning where the
// last one ends.
function folded(lying, strips) {
  const columns = [...new Set(lying.map(([x]) => x))].sort((a, b) => a - b),
        at = new Map(columns.map((x, i) => [x, i]));
  const gap = columns.length > 1 ? columns[1] - columns[0] : 0, long = Math.ceil(columns.length / strips);
  const down = Math.max(...lying.map(([, y]) => y)) + 1.5 * gap;
  return lying.map(([x, y]) => {
    const strip = Math.floor(at.get(x) / long), part = at.get(x) % long;
    return [(strip % 2 ? long - 1 - part : part) * gap, strip * down + y];
  });
}

// The places in a pane of this size: stretched, so that the drawing fills it. Where the nodes get much larger by that,
// the drawing lies on its side, with the destination on the left. One that is long and thin is folded, so that its
// nodes can still be read.
const MOST_STRIPS = 24, READABLE = 0.6;
function stretched(plain, width, height) {
  const most = (places, side) => Math.max(...places.map(at => at[side])), rim = 64;
  const sizeOf = places => Math.min(MOST_SCALE, width / (most(places, 0) + rim), height / (most(places, 1) + rim));
  const tall = most(plain, 1), lying = plain.map(([x, y]) => [tall - y, x]);
  let places = sizeOf(lying) > 1.3 * sizeOf(plain) ? lying : plain;
  if (sizeOf(places) < READABLE) {
    const folds = Array.from({length: MOST_STRIPS - 1}, (_, strips) => folded(lying, strips + 2));
    const best = folds.reduce((one, other) => sizeOf(other) > sizeOf(one) ? other : one);
    if (sizeOf(best) > 1.3 * sizeOf(places)) places = best;
  }
  const scale = sizeOf(places);
  const factor = (pane, side) => Math.max(1, Math.min(8, (pane / scale - rim) / (most(places, side) || 1)));
  const [across, down] = [factor(width, 0), factor(height, 1)];
  return places.map(([x, y]) => [x * across, y * down]);
}

// Makes room for the curves: moves all to the right of them and below them, and takes the size.
function makeRoom(view) {
  const points = view.place.map(at => [at, 32]), named = acts.names(view);
  // A name is below its node.
  for (const node of view.place.keys())
    if (named[node]) points.push([[view.place[node][0], view.place[node][1] + 12], 32]);
  for (const {a, b, bend} of view.shapes.values()) {
    const from = view.place[a], to = view.place[b], long = Math.hypot(to[0] - from[0], to[1] - from[1]) || 1;
    const [across, down] = [to[0] - from[0], to[1] - from[1]].map(side => side / long * bend / 2);
    points.push([[(from[0] + to[0]) / 2 - down, (from[1] + to[1]) / 2 + across], 8]);
  }
  const [left, top] = [0, 1].map(side => Math.min(...points.map(([at, rim]) => at[side] - rim)));
  view.size = [0, 1].map(side => Math.max(...points.map(([at, rim]) => at[side] + rim)) - (side ? top : left));
  view.place = view.place.map(([x, y]) => [x - left, y - top]);
  view.corner = [left, top];
}

// The bend of a link's curve: none where it passes no other node, else the least that takes it round them.
function bendOf(view, a, b) {
  const [ax, ay] = view.place[a], [bx, by] = view.place[b], long = Math.hypot(bx - ax, by - ay) || 1;
  const clear = bend => {
    for (let other = 0; other < view.nodes; other++) {
      if (other === a || other === b) continue;
      const [ox, oy] = view.place[other];
      const far = 25 + Math.abs(bend) / 2;
      if (oy < Math.min(ay, by) - far || oy > Math.max(ay, by) + far) continue;
      if (ox < Math.min(ax, bx) - far || ox > Math.max(ax, bx) + far) continue;
      for (let t = 0.08; t < 0.95; t += 0.07) {
        const off = 2 * t * (1 - t) * bend, px = ax + (bx - ax) * t - (by - ay) / long * off,
              py = ay + (by - ay) * t + (bx - ax) / long * off;
        if ((px - ox) ** 2 + (py - oy) ** 2 < 460) return false;
      }
    }
    return true;
  };
  if (view.all.size > MOST_CURVES) return 0;
  for (const bend of [0, 50, -50, 90, -90, 140, -140, 200, -200, 280, -280])
    if (clear(bend)) return bend;
  return 30;
}

// A link's curve from its tail to its head, and its tip.
function curve(view, shape, tail, head) {
  const from = view.place[tail], to = view.place[head], long = Math.hypot(to[0] - from[0], to[1] - from[1]) || 1;
  const bend = tail === shape.a ? shape.bend : -shape.bend;
  const mid = [
    (from[0] + to[0]) / 2 - (to[1] - from[1]) / long * bend, (from[1] + to[1]) / 2 + (to[0] - from[0]) / long * bend
  ];
  const dx = to[0] - mid[0], dy = to[1] - mid[1], end = Math.hypot(dx, dy) || 1, ux = dx / end, uy = dy / end;
  const reach = 22, edge = [to[0] - ux * reach, to[1] - uy * reach], base = [edge[0] - ux * 9, edge[1] - uy * 9];
  const fix = point => point.map(value => value.toFixed(1)).join(' ');
  return {
    line: 'M' + fix(from) + 'Q' + fix(mid) + ' ' + fix(base),
    tip: 'M' + fix(edge) + 'L' + fix([base[0] - uy * 4.6, base[1] + ux * 4.6]) + 'L' +
        fix([base[0] + uy * 4.6, base[1] - ux * 4.6]) + 'Z'
  };
}
// The drawing of a network at a step.

// The shape of a link. In the lab a broad line that is not seen takes its clicks.
function shapeOf(view, key) {
  const a = Math.floor(key / WIDTH), b = key % WIDTH, g = make(view.lines, 'g', {class: 'link'});
  const shape = {a, b, bend: bendOf(view, a, b), g, line: make(g, 'path', {}), tip: make(g, 'path', {class: 'tip'})};
  if (isLab) {
    shape.hit = make(g, 'path', {class: 'hit'});
    mark(g, {role: 'button'});
  }
  view.shapes.set(key, shape);
}

function build(view) {
  view.group = document.createElementNS(SVG, 'g');
  view.lines = make(view.group, 'g', {});
  view.more = make(view.group, 'g', {class: 'more'});
  view.bends = new Map();
  view.spots = Array.from({length: view.nodes}, (_, node) => {
    const g = make(view.group, 'g', {class: 'node', role: 'button', tabindex: -1});
    make(g, 'circle', {r: 22, class: 'ring'});
    make(g, 'circle', {r: 18, class: 'face'});
    make(g, 'text', {y: 0}).textContent = node;
    return {g, count: make(g, 'text', {y: 12, class: 'count'}), name: make(g, 'text', {y: 35, class: 'name'})};
  });
  const given = acts.places(view);
  view.isGiven = given !== null;
  view.plain = given ?? placesOf(view);
}

// Gives each node and link its place in the pane as it is. A link that came later gets its own.
function arrange(view) {
  const {clientWidth, clientHeight} = pane;
  view.pane = clientWidth + ' ' + clientHeight;
  view.place = view.isGiven ? view.plain.map(at => [...at]) : stretched(view.plain, ...room());
  view.shapes.clear();
  view.lines.replaceChildren();
  view.bends.clear();
  addShapes(view);
  makeRoom(view);
  for (const node of view.spots.keys()) putSpot(view, node);
}

function putSpot(view, node) {
  mark(view.spots[node].g, {transform: 'translate(' + view.place[node].map(at => at.toFixed(1)).join(' ') + ')'});
}

function setUp(view) {
  if (!view.group) build(view);
  if (view.pane !== pane.clientWidth + ' ' + pane.clientHeight) {
    arrange(view);
    return true;
  }
  addShapes(view);
  return false;
}

// The links of all rounds get their shapes at once, if they are few; otherwise each when it is drawn.
function addShapes(view) {
  if (view.all.size > MOST_CURVES) return;
  for (const key of view.all)
    if (!view.shapes.has(key)) shapeOf(view, key);
}

// How a link is drawn that is in the network. Where ways are shown, that to the first way of its tail is bold.
function kindOf([tail, head], round, {state, ways, hop}) {
  if (head === state.sink) return ' now';
  if (acts.hasFailed(tail, head)) return ' failed';
  if (ways && round.hops[tail] !== 'cut') return (ways[tail][0] === head ? ' first' : ' other') + (hop ? ' next' : '');
  if (hop) return round.hops[tail] === String(head) ? ' hop' : ' hop old';
  return round.hops[tail] === 'cut' ? ' out' : '';
}

function drawLinks(view, round, {state, ways}, way, walk) {
  const there = new Set(), steps = stepsOf(way), closed = stepsOf(walk), hops = hopsIn(state.hops || [], round.nodes);
  const marks = step => (steps.has(step) ? ' way' : '') + (closed.delete(step) ? ' closed' : '');
  for (const [tail, head] of state.links) {
    const key = keyOf(tail, head), step = tail + '>' + head;
    if (!view.shapes.has(key)) shapeOf(view, key);
    const shape = view.shapes.get(key);
    there.add(key);
    if (shape.tail !== tail) {
      const drawn = curve(view, shape, tail, head);
      shape.line.setAttribute('d', drawn.line);
      shape.tip.setAttribute('d', drawn.tip);
      if (shape.hit) shape.hit.setAttribute('d', drawn.line);
      shape.tail = tail;
    }
    const hop = hops.delete(step);
    mark(shape.g, {
      class: 'link' + kindOf([tail, head], round, {state, ways, hop}) + marks(step),
      'data-tail': tail,
      'data-head': head,
      'data-hop': hop ? 1 : null,
      visibility: null
    });
    if (!isLab) continue;
    const label = 'link from ' + tail + ' to ' + head + (acts.hasFailed(tail, head) ? ', failed' : '');
    mark(shape.g, {'aria-label': label, tabindex: hasLetters() ? -1 : 0});
  }
  for (const [key, shape] of view.shapes) {
    if (!there.has(key))
      mark(shape.g, {class: 'link', visibility: 'hidden', 'data-tail': null, 'data-head': null, 'data-hop': null});
  }
  // What is left of both is no link: old next hops, and links that a refused line asked for.
  view.more.replaceChildren();
  for (const shape of view.shapes.values())
    if (shape.g.classList.contains('failed')) drawCross(view, shape);
  for (const step of hops) mark(arrowMore(view, there, step, 'link hop old' + marks(step)), {'data-hop': 1});
  for (const step of state.push ? [] : closed) arrowMore(view, there, step, 'link closed asked');
}

// A cross on a link that has failed.
function drawCross(view, {line}) {
  const {x, y} = line.getPointAtLength(line.getTotalLength() / 2);
  make(view.more, 'path', {class: 'cross', d: 'M-8-8L8 8M-8 8L8-8', transform: 'translate(' + x + ' ' + y + ')'});
}

// An arrow that is no link of the network, beside the link of its ends where there is one.
function arrowMore(view, there, step, kinds) {
  const [tail, head] = linkOf(step), a = Math.min(tail, head), b = Math.max(tail, head), key = keyOf(a, b);
  if (!view.bends.has(key)) view.bends.set(key, view.shapes.has(key) ? view.shapes.get(key).bend : bendOf(view, a, b));
  return arrow(view, view.more, {a, b, bend: view.bends.get(key) + (there.has(key) ? 36 : 0)}, tail, head, kinds);
}

function arrow(view, group, shape, tail, head, kinds) {
  const drawn = curve(view, shape, tail, head);
  const g = make(group, 'g', {class: kinds, 'data-tail': tail, 'data-head': head});
  make(g, 'path', {d: drawn.line});
  make(g, 'path', {class: 'tip', d: drawn.tip});
  return g;
}

// The cycle of a network that is refused, or the loop of a table, where it is short: its nodes in a circle.
function drawRing(cycle) {
  const ring = by('ring'), nodes = cycle.slice(1), isDrawn = nodes.length > 0 && nodes.length <= 24,
        far = Math.max(46, 9 * nodes.length);
  ring.toggleAttribute('hidden', !isDrawn);
  ring.replaceChildren();
  if (!isDrawn) return;
  const wide = 2 * far + 52, turn = 2 * Math.PI / nodes.length, view = {place: {}, round: {home: null}};
  nodes.forEach((node, at) => {
    view.place[node] = [wide / 2 + far * Math.sin(at * turn), wide / 2 - far * Math.cos(at * turn)];
  });
  mark(
      ring,
      {viewBox: '0 0 ' + wide + ' ' + wide, width: Math.min(wide, 300), 'aria-label': 'The nodes ' + cycle.join(' ')});
  for (const [tail, head] of [...stepsOf(cycle)].map(linkOf)) {
    arrow(view, ring, {a: tail, b: head, bend: 0}, tail, head, 'link closed asked');
  }
  for (const node of nodes) {
    const g = make(ring, 'g', {
      class: 'node',
      'data-node': node,
      transform: 'translate(' + view.place[node].map(at => at.toFixed(1)).join(' ') + ')'
    });
    make(g, 'circle', {r: 18, class: 'face'});
    make(g, 'text', {y: 4}).textContent = node;
  }
}

function drawNodes(view, round, {state, ways}, way, news) {
  view.spots.forEach((spot, node) => {
    const count = state.counts[node], isCut = round.hops[node] === 'cut', isHome = node === round.home;
    const hop = state.hops && state.hops[node], isSaid = hop === 'here' ? isHome : hop === 'cut' && isCut;
    const kinds = [
      ['home', isHome], ['out', isCut], ['now', node === state.sink], ['new', news.includes(node)],
      ['push', node === state.node], ['way', way.includes(node)], ['pick', node === picked],
      ['stuck', acts.isStuck(node)]
    ];
    if (spot.count.textContent !== String(count)) spot.count.textContent = count;
    const name = acts.names(view)[node] ?? '';
    if (spot.name.textContent !== shortName(name)) spot.name.textContent = shortName(name);
    const label = 'node ' + node + (name && ' (' + name + ')') + (isHome ? ', the destination' : '') + ', turned ' +
        timesText(count) + (node === state.sink ? ', turns next' : '') +
        (node === state.node ? ', gets its next hop now' : '') + (isCut ? ', cut off' : '') +
        (hop && !isSaid ? ', ' + (ways ? waysText(ways[node]) : hopText(hop)) : '') +
        (acts.isStuck(node) ? ', a packet is stuck here' : '');
    mark(spot.g, {
      class: 'node' + kinds.filter(kind => kind[1]).map(kind => ' ' + kind[0]).join(''),
      'aria-label': label,
      'aria-pressed': node === picked,
      'data-node': node,
      'data-count': count,
      'data-hop': hop,
      'data-cut': isCut ? 1 : null,
      'data-turns': node === state.sink ? 1 : null,
      tabindex: node === (picked ?? round.home) || !hasLetters() ? 0 : -1
    });
  });
}
// What of the drawing the pane shows, and how pointers move it.

// What of the drawing the pane shows: where its corner is, and how large it is.
const pane = document.querySelector('main'), camera = {
  x: 0,
  y: 0,
  scale: 1,
  isFitted: true
};
const MOST_SCALE = 2.4, LARGEST = 6, EDGE = 8, MOST_CURVES = 1500;

// The width and height that the drawing may take: beside it are the buttons for its size.
const room = () => [by('zoom').offsetLeft - EDGE, pane.clientHeight - 2 * EDGE].map(side => Math.max(64, side));

function fitted(view) {
  const [wide, high] = view.size, [width, height] = room(), scale = Math.min(MOST_SCALE, width / wide, height / high);
  return {x: EDGE + (width - wide * scale) / 2, y: EDGE + (height - high * scale) / 2, scale, isFitted: true};
}

// Moves and sizes the drawing. A part of it stays in sight. Counts that are too small to read give way to larger
// numbers.
function look(change) {
  if (!shown) return;
  Object.assign(camera, {isFitted: false}, change);
  const [wide, high] = shown.size.map(side => side * camera.scale), rim = 48;
  camera.x = Math.max(rim - wide, Math.min(pane.clientWidth - rim, camera.x));
  camera.y = Math.max(rim - high, Math.min(pane.clientHeight - rim, camera.y));
  const {x, y, scale} = camera;
  mark(shown.group, {class: scale < 0.5 ? 'small' : null});
  mark(shown.group, {transform: 'translate(' + x.toFixed(2) + ' ' + y.toFixed(2) + ')scale(' + scale.toFixed(4) + ')'});
}

const fit = () => {
  if (shown) look(fitted(shown));
};
const move = (across, down) => look({x: camera.x + across, y: camera.y + down});

// Makes the drawing larger or smaller, and keeps the point of the pane where it is.
function zoom(factor, [x, y] = [pane.clientWidth / 2, pane.clientHeight / 2]) {
  if (!shown) return;
  const least = Math.min(0.2, fitted(shown).scale), scale = Math.max(least, Math.min(LARGEST, camera.scale * factor));
  const grown = scale / camera.scale;
  look({scale, x: x - (x - camera.x) * grown, y: y - (y - camera.y) * grown});
}

// Moves a node of the drawing, and its links with it.
function moveNode(view, node, [across, down]) {
  view.place[node] = [view.place[node][0] + across, view.place[node][1] + down];
  putSpot(view, node);
  view.bends.clear();
  for (const shape of view.shapes.values()) {
    if (shape.a === node || shape.b === node) Object.assign(shape, {bend: bendOf(view, shape.a, shape.b), tail: null});
  }
  show(now, true);
}

// The places of the nodes whatever else is drawn: those in the drawing begin at its corner.
const fixedPlaces = view => view.place.map(at => at.map((side, of) => side + view.corner[of]));

// What the pane shows, with the corner of the drawing and the size of the pane then.
const lookNow = view => ({...camera, corner: view.corner, pane: view.pane});

// After nodes were moved: the curves of all links go round them, and what is drawn stays where it is on the screen.
function keepPlaces(view) {
  const was = lookNow(view);
  Object.assign(view, {plain: fixedPlaces(view), isGiven: true});
  arrange(view);
  lookAs(was, view);
  show(now, true);
}

// Shows a drawing as it was looked at, also if it begins at another corner now.
function lookAs({x, y, scale, isFitted, corner}, view) {
  const [across, down] = view.corner.map((side, of) => (side - corner[of]) * scale);
  look({x: x + across, y: y + down, scale, isFitted});
}

// A drag moves the drawing, two fingers and the wheel size it. A drag of a node moves the node, in the lab. After a
// drag nothing is clicked.
function listenToPointers() {
  const net = by('net'), fingers = new Map(), far = (a, b) => Math.hypot(a[0] - b[0], a[1] - b[1]);
  const inPane = ([x, y]) => {
    const frame = pane.getBoundingClientRect();
    return [x - frame.left, y - frame.top];
  };
  let isDrag = false, held = null;
  const lift = event => {
    fingers.delete(event.pointerId);
    if (held !== null && isDrag && !fingers.size) acts.drop(held);
    if (!fingers.size) held = null;
    if (!fingers.size) net.classList.remove('moved');
  };
  net.addEventListener('pointerdown', event => {
    fingers.set(event.pointerId, [event.clientX, event.clientY]);
    isDrag = fingers.size > 1;
    const g = !isDrag && acts.drag && event.target.closest('.node');
    held = g ? Number(g.dataset.node) : null;
  });
  addEventListener('pointermove', event => {
    const was = fingers.get(event.pointerId), at = [event.clientX, event.clientY];
    if (!event.buttons) fingers.clear();
    if (!was || !event.buttons || !isDrag && far(was, at) < 5) return;
    isDrag = true;
    net.classList.add('moved');
    const other = [...fingers].find(([id]) => id !== event.pointerId);
    fingers.set(event.pointerId, at);
    const way = [at[0] - was[0], at[1] - was[1]];
    if (!other && held !== null) return acts.drag(held, way.map(side => side / camera.scale));
    if (!other) return move(...way);
    const middle = [0, 1].map(side => (was[side] + other[1][side]) / 2);
    zoom(far(at, other[1]) / (far(was, other[1]) || 1), inPane(middle));
    move(...way.map(side => side / 2));
  });
  for (const kind of ['pointerup', 'pointercancel']) addEventListener(kind, lift);
  net.addEventListener('click', event => {
    if (isDrag) {
      isDrag = false;
      event.stopPropagation();
    }
  }, true);
  pane.addEventListener('wheel', event => {
    event.preventDefault();
    const steps = event.deltaY * (event.deltaMode ? 16 : 1) * (event.ctrlKey ? 0.01 : 0.0015);
    zoom(Math.exp(-steps), inPane([event.clientX, event.clientY]));
  }, {passive: false});
}

// Moves the drawing if this node is outside of the pane.
function keepInSight(view, node) {
  const rim = 24, sizes = [pane.clientWidth, pane.clientHeight], corner = [camera.x, camera.y];
  const [across, down] = view.place[node].map((place, side) => {
    const at = place * camera.scale + corner[side];
    return at < rim || at > sizes[side] - rim ? sizes[side] / 2 - at : 0;
  });
  if (across || down) move(across, down);
}
// What is said of a step, and of a chosen node.

const hopText = hop => hop === 'here' ? 'is the destination' : hop === 'cut' ? 'has no next hop' : 'sends to ' + hop;
const waysText = list => list.length ? (list.length === 1 ? 'way to ' : 'ways to ') + list.join(', ') : 'no way';
const timesText = count => count + (count === 1 ? ' time' : ' times');
const hopName = hop => hop === 'here' ? 'destination' : hop === 'cut' ? 'none' : hop;
const changeText = (node, old, next) => node + BLANK + '(' + hopName(old) + ARROW + hopName(next) + ')';

// A node by its number and its name, and as much of a name as the drawing has.
const MOST_DRAWN_NAME = 18;
const shortName = name => name.length > MOST_DRAWN_NAME ? name.slice(0, MOST_DRAWN_NAME - 1) + ELLIPSIS : name;

function nodeName(node, view) {
  const name = view ? acts.names(view)[node] : null;
  return 'Node ' + node + (name ? ' (' + name + ')' : '');
}

// A turn, the end of the turns, or a push, in words; and what is pushed next.
function roundText(round, turn, state) {
  const {turned, total} = round,
                 left = turned < total ? '. Turns ' + (turned + 1) + ' to ' + total + ' are not shown' : '';
  if (!state.hops) return 'turn ' + turn + ' of ' + total + '. Node ' + state.sink + ' is a sink, and turns next.';
  if (state.push) return pushText(round, state) + nextText(round, state.push);
  return (total ? 'turn ' + total + ' of ' + total + ', the round has ended' + left + '.' : 'no node turns.') +
      nextText(round, 0);
}

function pushText(round, {push, node, hops, loop}) {
  const gone = node < round.nodes ? '' : ', which is gone,', before = hopName(tableBefore(round)[node]);
  const order = isRising() ? ', by rising number' : '';
  return 'push ' + push + ' of ' + round.pushed + order + '. Node ' + node + gone + ' now ' + hopText(hops[node]) +
      ' (before: ' + before + '). ' +
      (loop.length ? 'A loop is in the tables: ' + loop.join(' ') + '.' : 'No loop is in the tables.');
}

// The push after so many, where there is one.
function nextText(round, pushed) {
  const table = tableBefore(round), node = pushesOf(round)[pushed];
  if (!table) return ' The hops before it are not known, so no push is shown.';
  if (node === undefined) return '';
  return ' Next push: node ' + changeText(node, table[node], hopAfter(round, node)) + '.';
}

function tellStep(block, turn, state, news) {
  const round = block.round;
  const refusal = faultOf(block);
  by('say').textContent = 'Line ' + block.line + ': ' +
      (refusal          ? 'refused: ' + refusal + '. Nothing has changed.' :
           !block.own   ? 'a question; the network stays as it was.' :
           !round.drawn ? 'only the answer is shown.' :
                          roundText(round, turn, state));
  const request = requestOf(block), cycle = cycleOf(block);
  by('request').textContent = short(request);
  mark(by('request'), {'data-request': request});
  by('answer').textContent = block.answer;
  const name = block.asks === 'pushes' ? 'loop' : 'cycle';
  by('more').textContent = (refusal ? 'Refused: ' + refusal + '.' : '') +
      (cycle.length ? ' The ' + name + ': ' + cycle.join(' ') + '.' : '');
  mark(by('more'), {'data-closed': cycle.length ? cycle.join(' ') : null});
  const change = node => changeText(node, round.before.hops[node], round.hops[node]);
  by('changed').textContent =
      news.length ? 'Next hops that the round changed, in push order: ' + news.map(change).join(', ') + '.' : '';
  mark(by('changed'), {'data-changed': news.join(' ')});
  by('at').textContent = (now + 1) + ' / ' + steps;
  by('slide').value = now;
  by('slide').setAttribute('aria-valuetext', by('say').textContent);
  const count = (number, name) => number.toLocaleString('en') + ' ' + name + (number === 1 ? '' : 's');
  by('title').textContent = !round ? 'No network yet' :
                                     count(round.nodes, 'node') +
          (round.drawn ? ', ' + count(round.links.length, 'link') : '') + ', destination ' + round.home;
  document.title = 'revroute: ' + by('title').textContent;
}

// How often a node has turned, at each step of the whole page: the steps at which this changes.
function chartOf(node) {
  const points = [[0, 0]], word = ' ' + node;
  let most = 1, count = 0;
  const put = (step, value) => {
    if (value !== count) points.push([step, value]);
    count = value;
  };
  blocks.forEach(({own, round}, at) => {
    if (!own) return;
    put(starts[at], 0);
    if (!round.drawn || !round.said.turns.includes(word)) return;
    listed(round.said.turns, Number).forEach((turned, turn) => {
      if (turned === node) put(starts[at] + turn + 1, count + 1);
    });
    most = Math.max(most, count);
  });
  return {node, most, points: [...points, [steps, count]]};
}

let chart = null;

function drawChart(node) {
  if (!chart || chart.node !== node) chart = chartOf(node);
  const {points, most} = chart, svg = by('chart'), wide = 280, high = 70;
  const x = step => (4 + (wide - 8) * step / Math.max(1, steps)).toFixed(1),
        y = value => (high - 8 - (high - 24) * value / most).toFixed(1);
  // One value for each half of a pixel, the greatest, is all that can be seen.
  const seen = new Map();
  for (const [step, value] of points) {
    const place = Math.round(2 * x(step)) / 2;
    seen.set(place, Math.max(value, seen.get(place) ?? 0));
  }
  svg.replaceChildren();
  mark(svg, {
    viewBox: '0 0 ' + wide + ' ' + high,
    'aria-label': 'The count of node ' + node + ' over all steps; at most ' + most
  });
  make(
      svg, 'path',
      {d: 'M' + [...seen].map(([place, value], at) => (at ? 'H' + place + 'V' : place + ' ') + y(value)).join('')});
  make(svg, 'line', {x1: x(now), x2: x(now), y1: 10, y2: high - 6});
  make(svg, 'text', {x: 4, y: 10}).textContent = 'count of node ' + node + ', at most ' + most;
  svg.removeAttribute('hidden');
}

// The distance and the ways of the chosen node, once the round has ended.
function tellWays(round, state) {
  const list = state.hops ? round.ways[picked] : null, far = list ? walkOf(round.ways, picked).length - 1 : 0,
        isAny = Boolean(list && list.length);
  mark(by('picked'), {'data-ways': list ? list.join(' ') : null, 'data-distance': isAny ? far : null});
  if (!isAny) return '.';
  const named = list.map(way => way + (acts.hasFailed(picked, way) ? ' (failed)' : ''));
  return ', distance ' + far + ', ' + waysText(named) + '.';
}

// A route as the engine answers it, and in words. A line may end before an arrow.
function routeAnswer({hops}, route, ways) {
  const isCut = hops[route.at(-1)] === 'cut';
  return (ways ? 'nearest ' : 'walk ') + route.join(' ') + (isCut ? ' cut' : '');
}

function routeText({hops}, route, ways) {
  const isCut = hops[route.at(-1)] === 'cut';
  if (isCut && route.length === 1) return 'It has no route.';
  return (ways ? 'Route by first ways: ' : 'Route: ') + route.join(ARROW.replace(BLANK, ' ')) +
      (isCut ? ', which has no next hop.' : '.');
}

function tellNode(round, state, ways) {
  const known = state && picked !== null && picked < round.nodes;
  by('picked').textContent = known ? nodeName(picked, round.view) + (picked === round.home ? ', the destination' : '') +
          ': turned ' + timesText(state.counts[picked]) + ' in this round' + tellWays(round, state) :
      isLab ? '' :
              'Choose a node to see its route and its count over time.';
  const route = !known || !state.hops ? null : ways ? walkOf(ways, picked) : routeOf(state.hops, picked);
  by('route').textContent = !known ? '' :
      route                        ? routeText(state, route, ways) :
                                     'It has a route once the round has ended.';
  mark(by('route'), {'data-route': route ? routeAnswer(state, route, ways) : null});
  if (known) drawChart(picked);
  else by('chart').setAttribute('hidden', '');
}
// The list of lines.

// The list of lines, from this one on.
function list(from) {
  const box = by('list'), items = document.createDocumentFragment(), wasLong = box.classList.contains('long');
  rows.first = rows.last = 0;
  box.classList.toggle('long', blocks.length > MOST_ROWS);
  if (blocks.length > MOST_ROWS) return placeRows();
  const kept = wasLong ? 0 : from;
  while (box.children.length > kept) box.lastChild.remove();
  for (let at = kept; at < blocks.length; at++) items.append(itemOf(blocks[at], at));
  box.append(items);
}

// A list of more lines than this has only those near its sight, all of one height, and room for the others.
const MOST_ROWS = 1000, MARGIN = 40, RIM = 5, rows = {
  first: 0,
  last: 0,
  height: 0
};

function placeRows() {
  const box = by('list');
  rows.height ||= heightOfRow();
  const seen = Math.floor(box.scrollTop / rows.height),
        last = Math.min(blocks.length, seen + Math.ceil(box.clientHeight / rows.height) + 1);
  if (rows.first <= seen && last <= rows.last) return;
  Object.assign(rows, {first: Math.max(0, seen - MARGIN), last: Math.min(blocks.length, last + MARGIN)});
  const top = box.scrollTop, focus = box.contains(document.activeElement) ? document.activeElement.at : null,
        items = [];
  for (let at = rows.first; at < rows.last; at++) items.push(itemOf(blocks[at], at));
  box.replaceChildren(roomFor(rows.first), ...items, roomFor(blocks.length - rows.last));
  box.scrollTop = top;
  for (const item of items) {
    mark(item, {'aria-setsize': blocks.length, 'aria-posinset': item.firstChild.at + 1});
    if (current && item.firstChild.at === current.at) (current = item.firstChild).setAttribute('aria-current', 'step');
    if (item.firstChild.at === focus) item.firstChild.focus({preventScroll: true});
  }
}

function heightOfRow() {
  const item = itemOf(blocks[0], 0);
  by('list').append(item);
  const {height} = item.getBoundingClientRect();
  item.remove();
  return height || 28;
}

function roomFor(lines) {
  const item = document.createElement('li');
  mark(item, {'aria-hidden': true, style: 'height:' + lines * rows.height + 'px'});
  return item;
}

function itemOf(block, at) {
  const item = document.createElement('li'), button = document.createElement('button');
  const request = requestOf(block).slice(0, 80), answer = block.answer.slice(0, 80), fault = faultOf(block);
  const put = (name, text) => button.append(Object.assign(document.createElement(name), {textContent: text}));
  put('b', block.line);
  put('code', request);
  put('span', answer);
  if (fault) {
    button.className = 'no';
    put('small', fault);
  }
  const told = 'Line ' + block.line + ', ' + request + ': ' + answer;
  button.setAttribute('aria-label', fault ? told + ', ' + fault : told);
  button.at = at;
  item.append(button);
  return item;
}

// The button of a line in the list, scrolled into sight.
function buttonOf(at) {
  const box = by('list');
  if (!box.classList.contains('long')) {
    const {firstChild, offsetTop, offsetHeight} = box.children[at], top = offsetTop - box.offsetTop - RIM;
    box.scrollTop = Math.min(top, Math.max(top + offsetHeight + 2 * RIM - box.clientHeight, box.scrollTop));
    return firstChild;
  }
  const top = at * rows.height, least = top + rows.height + 2 * RIM - box.clientHeight;
  box.scrollTop = Math.min(top, Math.max(least, box.scrollTop));
  placeRows();
  return box.children[1 + at - rows.first].firstChild;
}

let current = null;

function currentButton(at) {
  if (current) current.removeAttribute('aria-current');
  current = buttonOf(at);
  current.setAttribute('aria-current', 'step');
}

function listenToList() {
  const box = by('list'), isLong = () => box.classList.contains('long');
  box.addEventListener('scroll', () => {
    if (isLong()) placeRows();
  }, {passive: true});
  new ResizeObserver(() => {
    if (!isLong()) return;
    Object.assign(rows, {first: 0, last: 0, height: 0});
    placeRows();
    currentButton(blockAt(now));
  }).observe(box);
}
// What the page shows now, and its keys and buttons.

function show(step, keep) {
  if (!blocks.length) return showNothing();
  now = Math.max(0, Math.min(steps - 1, step));
  const at = blockAt(now), block = blocks[at], round = block.round, drawn = round && round.drawn;
  const place = now - starts[at], last = drawn ? round.turned : 0;
  const turn = block.own ? Math.min(place, last) : last, push = block.own ? place - turn : 0;
  const state = drawn ? stateOf(round, turn, push) : null, net = by('net'), none = by('none');
  const changes = drawn && block.own && state.hops ? changedHops(round) : [];
  const news = push ? pushesOf(round).slice(0, push - 1) : changes;
  // The cycle of a new network, and the loop of a table, are not in the network that is drawn.
  const cycle = cycleOf(block), isApart = cycle.length > 0 && /^(net |pushes$)/.test(block.asks);
  net.toggleAttribute('hidden', !drawn);
  none.toggleAttribute('hidden', Boolean(drawn));
  mark(net, {'data-line': block.line, 'data-turn': block.own ? turn : 0, 'data-push': push});
  mark(net, {'data-loop': push ? state.loop.join(' ') : null});
  if (drawn) {
    const view = round.view, ways = waysShown(round, state), way = routeShown(block, state, ways);
    const isNew = setUp(view);
    if (shown !== view) {
      net.replaceChildren(view.group);
      shown = view;
      fit();
    } else if (isNew && camera.isFitted) fit();
    mark(net, {'aria-label': 'A network of ' + round.nodes + ' nodes, destination ' + round.home});
    drawLinks(view, round, {state, ways}, way, push ? state.loop : isApart ? [] : cycle);
    drawNodes(view, round, {state, ways}, way, news);
    const moved = state.sink ?? state.node;
    if (moved !== null && moved < round.nodes) keepInSight(view, moved);
  } else
    none.textContent = !round ? 'There is no network yet.' :
                                'This network is larger than a page shows (256 nodes). The answers are in the list.';
  drawRing(isApart ? cycle : []);
  tellNode(round, state, drawn ? waysShown(round, state) : null);
  tellStep(block, turn, state, changes);
  currentButton(at);
  clearTimeout(show.later);
  const part = push ? '&push=' + push : block.own ? '&turn=' + turn : '';
  const named = '#line=' + block.line + part + (isRising() ? '&order=rising' : '') + (isOfWays() ? '&lines=ways' : '');
  if (!keep) show.later = setTimeout(() => history.replaceState(null, '', named), 400);
  acts.shown();
}

function showNothing() {
  for (const id of ['net', 'ring', 'chart']) by(id).setAttribute('hidden', '');
  for (const id of ['request', 'answer', 'more', 'changed', 'route', 'picked', 'at']) by(id).textContent = '';
  by('title').textContent = 'No network yet';
  by('say').textContent = isLab ? 'There are no requests.' : 'The input held no line.';
  by('none').textContent =
      isLab ? 'Click here to add the first node, or take a sample.' : 'There is nothing to show: no line was read.';
  by('none').removeAttribute('hidden');
  acts.shown();
}

function pick(node) {
  picked = picked === node ? null : node;
  show(now);
}

function pickNext(on) {
  const round = blocks[blockAt(now)].round;
  if (!round || !round.drawn) return;
  picked = picked === null ? round.home : (picked + on + round.nodes) % round.nodes;
  show(now);
  round.view.spots[picked].g.focus({preventScroll: true});
  keepInSight(round.view, picked);
}

function goLine(on) {
  const at = Math.max(0, Math.min(blocks.length - 1, blockAt(now) + on));
  show(starts[at]);
}

function play(on) {
  clearTimeout(timer);
  timer = null;
  by('play').textContent = on ? 'Pause' : 'Play';
  by('say').setAttribute('aria-live', on ? 'off' : 'polite');
  if (!on) return;
  if (now === steps - 1) show(acts.again());
  const pace = () => acts.pace(Number(by('speed').value));
  const tick = () => {
    show(now + 1);
    if (now === steps - 1) play(false);
    else timer = setTimeout(tick, pace());
  };
  timer = setTimeout(tick, pace());
}

// Goes to the step that the fragment names, as #line=3&turn=2 or #line=3&push=1; a line alone is the end of its turns.
function goFragment() {
  const words = new URLSearchParams(location.hash.slice(1)),
        at = blocks.findIndex(block => block.line === Number(words.get('line')));
  if (at < 0) return false;
  by('order').value = words.get('order') === 'rising' ? 'rising' : 'push';
  by('lines').value = words.get('lines') === 'ways' ? 'ways' : 'hops';
  const block = blocks[at], turns = block.own && block.round.drawn ? block.round.turned : 0;
  const number = name => Math.max(0, Number(words.get(name)) || 0);
  const turn = words.has('turn') ? Math.min(turns, number('turn')) : turns;
  const place = words.has('push') ? turns + number('push') : turn;
  show(Math.min((starts[at + 1] ?? steps) - 1, starts[at] + place), true);
  return true;
}

const keys = {
  ArrowRight: () => show(now + 1),
  ArrowLeft: () => show(now - 1),
  ArrowDown: () => goLine(1),
  ArrowUp: () => goLine(-1),
  Home: () => show(0),
  End: () => show(steps - 1),
  ' ': () => play(timer === null),
  n: () => pickNext(1),
  p: () => pickNext(-1),
  w: () => chooseLines(isOfWays() ? 'hops' : 'ways'),
  r: () => chooseOrder(isRising() ? 'push' : 'rising'),
  Escape: () => {
    if (picked !== null) pick(picked);
  },
  '+': () => zoom(1.25),
  '=': () => zoom(1.25),
  '-': () => zoom(0.8),
  0: fit,
  f: fit,
  '?': openKeys
};

// The keys are a table in a dialog, which Escape closes.
function openKeys() { by('keybox').showModal(); }

const shifted = {
  ArrowRight: () => move(-60, 0),
  ArrowLeft: () => move(60, 0),
  ArrowDown: () => move(0, -60),
  ArrowUp: () => move(0, 60)
};

// Keys with Ctrl, which only the lab has.
const controlled = {};

// What a click on a node, on a link or beside them does, who says where nodes are and what they are called, where a
// page that was played to its end begins again, and what has failed without the engine's knowing. The lab has its own.
const acts = {
  node: pick,
  link: () => {},
  fail: () => {},
  empty: () => {},
  drag: null,
  drop: () => {},
  places: view => placesIn(given.places, view),
  names: view => namesIn(given.names, view),
  shown: () => {},
  again: () => 0,
  hasFailed: () => false,
  ways: () => null,
  packet: () => null,
  isStuck: () => false,
  pace: wait => wait
};

// What a key does: nothing where it is typed or scrolls a text, or where it is a letter and these are turned off. A
// dialog that was closed has the focus until the browser draws the page again. Then the key acts on the page.
function actionOf({key, target: focused, shiftKey, ctrlKey, metaKey, altKey}) {
  const target = focused.closest('dialog:not([open])') ? document.body : focused;
  if (altKey || target.closest('dialog, select, textarea, input:not([type=range])')) return null;
  // On a Mac the key Cmd goes with letters, as Ctrl does elsewhere.
  if (ctrlKey || metaKey && isLetter(key)) return controlled[shiftKey && isLetter(key) ? key.toUpperCase() : key];
  if (metaKey) return null;
  if (scrolling.has(key) && isScrolled(target) || isLetter(key) && !hasLetters()) return null;
  if (key === ' ' && target.matches('button, summary')) return null;
  const g = key === 'Enter' && target.closest('.node, .link');
  return g ? () => act(g, shiftKey) : shiftKey && shifted[key] || keys[key];
}

function listenToKeys() {
  document.addEventListener('keydown', event => {
    const action = actionOf(event);
    if (!action) return;
    event.preventDefault();
    if (event.key.startsWith('Arrow') && !event.shiftKey || event.key === 'Home' || event.key === 'End') play(false);
    action();
  });
}

// Keys that a text needs itself, where it does not fit its box.
const scrolling = new Set(['ArrowUp', 'ArrowDown', 'ArrowLeft', 'ArrowRight', 'Home', 'End', ' ']);

function isScrolled(target) {
  if (target.matches('button, input, summary')) return false;
  for (let it = target; it && it !== document.body; it = it.parentElement) {
    if (it.scrollHeight > it.clientHeight && getComputedStyle(it).overflowY === 'auto') return true;
  }
  return false;
}

// Keys that are letters, digits or signs can be turned off, for people who speak to their computer.
const isLetter = key => key.length === 1 && key !== ' ', hasLetters = () => by('letters').checked;

// With Shift a link fails without the engine's knowing, in the lab.
function act(g, isShift) {
  if (g.classList.contains('node')) acts.node(Number(g.dataset.node));
  else (isShift ? acts.fail : acts.link)(Number(g.dataset.tail), Number(g.dataset.head));
}

// A button or a choice that a pointer has used lets the focus go, so that the next key acts on the page. Who goes there
// by Tab keeps the focus.
function listenToFocus() {
  let pointed = null;
  const letGo = kind => event => {
    if (pointed && pointed === event.target.closest(kind)) pointed.blur();
  };
  document.addEventListener('pointerdown', event => {
    pointed = event.target.closest('button, select');
  }, true);
  document.addEventListener('keydown', event => {
    if (event.key === 'Tab') pointed = null;
  }, true);
  document.addEventListener('click', letGo('button'), true);
  document.addEventListener('change', letGo('select'), true);
}

// What a reader has chosen is kept in the browser. Where nothing can be kept, the page goes on without it.
function kept(name) {
  try {
    return localStorage.getItem('revroute-' + name);
  } catch { return null; }
}

function keepWord(name, word) {
  try {
    localStorage.setItem('revroute-' + name, word);
  } catch { return; }
}

// Whether the legend is open is kept.
function listenToFold() {
  const fold = by('fold'), isRoomy = innerWidth > 760 && innerHeight > 800;
  fold.open = (kept('legend') ?? (isRoomy ? 'open' : 'folded')) === 'open';
  // This comes before the change.
  fold.firstElementChild.addEventListener('click', () => keepWord('legend', fold.open ? 'folded' : 'open'));
}

function listenToLetters() {
  const box = by('letters');
  box.checked = kept('letters') !== 'off';
  box.addEventListener('change', () => {
    keepWord('letters', box.checked ? 'on' : 'off');
    show(now, true);
  });
}

function start() {
  const go = step => {
    play(false);
    show(step);
  };
  const clicks = {
    back: () => go(now - 1),
    next: () => go(now + 1),
    play: () => play(timer === null),
    larger: () => zoom(1.25),
    smaller: () => zoom(0.8),
    whole: fit,
    keysopen: openKeys
  };
  for (const id in clicks) by(id).addEventListener('click', clicks[id]);
  by('slide').addEventListener('input', () => go(Number(by('slide').value)));
  for (const id of ['order', 'lines']) by(id).addEventListener('change', () => show(now));
  by('net').addEventListener('click', event => {
    const g = event.target.closest('.node, .link');
    if (g) act(g, event.shiftKey);
    else acts.empty(event);
  });
  by('list').addEventListener('click', event => {
    const it = event.target.closest('button');
    if (it) go(starts[it.at]);
  });
  listenToKeys();
  listenToFocus();
  listenToPointers();
  addEventListener('hashchange', goFragment);
  new ResizeObserver(() => {
    if (shown) show(now, true);
  }).observe(pane);
  listenToList();
  if (!goFragment()) show(0, true);
}

function begin() {
  listenToFold();
  listenToLetters();
  load(0, by('story').textContent);
  if (blocks.length || isLab) return start();
  showNothing();
  for (const id of ['bar', 'about', 'zoom', 'keysopen']) by(id).setAttribute('hidden', '');
}

// What the lab uses of the viewer.
const offered = {
  by,
  make,
  mark,
  NL,
  ARROW,
  acts,
  keys,
  controlled,
  pane,
  camera,
  room,
  load,
  stepsIn,
  blockAt,
  show,
  showNothing,
  play,
  pick,
  fit,
  lookAs,
  keepInSight,
  moveNode,
  fixedPlaces,
  lookNow,
  keepPlaces,
  placesOf,
  arrange,
  givenText,
  given,
  isRequest,
  readText,
  textOf,
  placesIn,
  namesIn,
  nodeName,
  waysIn,
  walkOf,
  chooseLines,
  get blocks() { return blocks; },
  get starts() { return starts; },
  get steps() { return steps; },
  get now() { return now; },
  get shown() { return shown; },
  get isPlayed() { return timer !== null; },
  get picked() { return picked; },
  set picked(node) { picked = node; },
};
begin();
return offered;
})();
</script>
</html>
";
